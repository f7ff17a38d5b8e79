//! Blocks in their order: by offset, then id.
ghost use Rattle.std.specs.Prelude.{◌≡◌, ◌+◌, ◌==◌, ◌^◌, ◌<◌, ◌≤◌, ◌++◌, not, All, map, reverse, find, IfOk, OnOk};
ghost use Rattle.std.specs.List.{prefix_len};
ghost use Rattle.std.specs.Option.{option_copied, option_map};
ghost use Rattle.cell_units.specs.Record.{block_le};
ghost use Rattle.cell_units.specs.Sorting.{insert_by};
ghost use Rattle.cell_units.specs.Operation.{move_block, moved_blocks, without_block};
ghost use Rattle.plain_rows.specs.Plain.{block_of};

use crate::{anchor, change};
use cell_units::{Bias, NoMemory, Shift};
use plain_rows::PlainBlock;
use std::alloc::Global;

/// Whether a block comes at or before another.
fn is_before(a: &PlainBlock, b: &PlainBlock) -> bool
    ensures { result ≡ block_le (block_of a.now) (block_of b.now) }
{
    a.offset < b.offset || (a.offset == b.offset && a.id <= b.id)
}

fn copied(alloc: Global, block: &PlainBlock) -> Result<PlainBlock, NoMemory>
    ensures { IfOk result (λ copy. block_of copy ≡ block_of block.now) }
{
    Ok(PlainBlock {
        id: block.id,
        side: block.side,
        offset: block.offset,
        lines: change::copied(alloc, &block.lines)?,
    })
}

/// Appends copies.
pub fn push_copies(
    alloc: Global,
    copies: &mut Vec<PlainBlock>,
    blocks: &[PlainBlock],
) -> Result<(), NoMemory>
    ensures { OnOk result (
        map block_of copies.new.items ≡ map block_of copies.old.items ++ map block_of blocks.now) }
{
    for block in blocks {
        copies.push(copied(alloc, block)?)?;
    }
    Ok(())
}

/// Puts a block in its place among blocks in falling order.
fn put_in(falling: &mut Vec<PlainBlock>, block: PlainBlock) -> Result<(), NoMemory>
    ensures { OnOk result (map block_of (reverse falling.new.items)
        ≡ insert_by block_le (block_of block) (map block_of (reverse falling.old.items))) }
{
    let mut at = falling.len();
    while at > 0 && !is_before(&block, &falling[at - 1]) {
        at -= 1;
    }
    falling.insert(at, block)?;
    Ok(())
}

/// A block after a replacement.
fn moved_one(alloc: Global, block: &PlainBlock, shift: Shift) -> Result<PlainBlock, NoMemory>
    requires start { shift.start + shift.count < 2 ^ 32 }
    requires fits { block.now.offset + shift.count < 2 ^ 32 }
    ensures { IfOk result (λ moved.
        block_of moved ≡ move_block shift.start shift.end shift.count (block_of block.now)) }
{
    let mut moved = copied(alloc, block)?;
    moved.offset = anchor::moved(block.offset, Bias::Right, shift);
    Ok(moved)
}

/// The blocks after a replacement, in order again.
pub fn moved(
    alloc: Global,
    blocks: &[PlainBlock],
    shift: Shift,
) -> Result<Vec<PlainBlock>, NoMemory>
    requires start { shift.start + shift.count < 2 ^ 32 }
    requires fits { All (λ k. k.offset + shift.count < 2 ^ 32) blocks.now }
    ensures { IfOk result (λ moved. map block_of moved.items
        ≡ moved_blocks shift.start shift.end shift.count (map block_of blocks.now)) }
{
    let mut moved = Vec::with_capacity(alloc, blocks.len())?;
    for i in (0..blocks.len()).rev() {
        put_in(&mut moved, moved_one(alloc, &blocks[i], shift)?)?;
    }
    moved.reverse();
    Ok(moved)
}

/// How many blocks a block doesn't come before.
fn passed(blocks: &[PlainBlock], block: &PlainBlock) -> usize
    ensures { result
        ≡ prefix_len (λ z. not (block_le (block_of block.now) (block_of z))) blocks.now }
{
    blocks
        .iter()
        .take_while(|other| !is_before(block, *other))
        .count()
}

/// The blocks with one more, in order.
pub fn added(
    alloc: Global,
    blocks: &[PlainBlock],
    block: PlainBlock,
) -> Result<Vec<PlainBlock>, NoMemory>
    ensures { IfOk result (λ added.
        map block_of added.items ≡ insert_by block_le (block_of block) (map block_of blocks.now)) }
{
    let at = passed(blocks, &block);
    let mut added = Vec::with_capacity(alloc, blocks.len())?;
    push_copies(alloc, &mut added, &blocks[..at])?;
    added.push(block)?;
    push_copies(alloc, &mut added, &blocks[at..])?;
    Ok(added)
}

/// The blocks without the one of this id.
pub fn removed(alloc: Global, blocks: &[PlainBlock], id: u32) -> Result<Vec<PlainBlock>, NoMemory>
    ensures { IfOk result (λ left.
        map block_of left.items ≡ without_block id (map block_of blocks.now)) }
{
    let mut left = Vec::with_capacity(alloc, blocks.len())?;
    for block in blocks {
        if block.id != id {
            left.push(copied(alloc, block)?)?;
        }
    }
    Ok(left)
}

/// The block of this id, if it is there.
pub fn found(blocks: &[PlainBlock], id: u32) -> Option<&PlainBlock>
    ensures { option_map block_of (option_copied result)
        ≡ find (λ k. k.id == id) (map block_of blocks.now) }
{
    for block in blocks {
        if block.id == id {
            return Some(block);
        }
    }
    None
}
