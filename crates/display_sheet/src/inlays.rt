//! Inlays in their order: by offset, then bias with Left first, then id.
ghost use Rattle.std.specs.Prelude.{◌≡◌, ◌+◌, ◌==◌, ◌^◌, ◌<◌, ◌≤◌, ◌++◌, not, All, map, reverse, find, IfOk, OnOk};
ghost use Rattle.std.specs.List.{prefix_len};
ghost use Rattle.std.specs.Option.{option_copied, option_map};
ghost use Rattle.cell_units.specs.Record.{bias_rank, inlay_le};
ghost use Rattle.cell_units.specs.Sorting.{insert_by};
ghost use Rattle.cell_units.specs.Operation.{move_inlay, moved_inlays, without_inlay};
ghost use Rattle.plain_rows.specs.Plain.{inlay_of};

use crate::anchor;
use cell_units::{Bias, NoMemory, Shift, Text};
use plain_rows::PlainInlay;
use std::alloc::Global;

/// Which bias comes first: Left.
fn rank(bias: Bias) -> u32
    ensures { result ≡ bias_rank bias }
{
    match bias {
        Bias::Left => 0,
        Bias::Right => 1,
    }
}

/// Whether an inlay comes at or before another.
fn is_before(a: &PlainInlay, b: &PlainInlay) -> bool
    ensures { result ≡ inlay_le (inlay_of a.now) (inlay_of b.now) }
{
    a.offset < b.offset
        || (a.offset == b.offset
            && (rank(a.bias) < rank(b.bias) || (rank(a.bias) == rank(b.bias) && a.id <= b.id)))
}

fn copied(alloc: Global, inlay: &PlainInlay) -> Result<PlainInlay, NoMemory>
    ensures { IfOk result (λ copy. inlay_of copy ≡ inlay_of inlay.now) }
{
    Ok(PlainInlay {
        id: inlay.id,
        offset: inlay.offset,
        bias: inlay.bias,
        text: Text::from_str(alloc, inlay.text.as_str())?,
    })
}

/// Appends copies.
pub fn push_copies(
    alloc: Global,
    copies: &mut Vec<PlainInlay>,
    inlays: &[PlainInlay],
) -> Result<(), NoMemory>
    ensures { OnOk result (
        map inlay_of copies.new.items ≡ map inlay_of copies.old.items ++ map inlay_of inlays.now) }
{
    for inlay in inlays {
        copies.push(copied(alloc, inlay)?)?;
    }
    Ok(())
}

/// Puts an inlay in its place among inlays in falling order.
fn put_in(falling: &mut Vec<PlainInlay>, inlay: PlainInlay) -> Result<(), NoMemory>
    ensures { OnOk result (map inlay_of (reverse falling.new.items)
        ≡ insert_by inlay_le (inlay_of inlay) (map inlay_of (reverse falling.old.items))) }
{
    let mut at = falling.len();
    while at > 0 && !is_before(&inlay, &falling[at - 1]) {
        at -= 1;
    }
    falling.insert(at, inlay)?;
    Ok(())
}

/// An inlay after a replacement.
fn moved_one(alloc: Global, inlay: &PlainInlay, shift: Shift) -> Result<PlainInlay, NoMemory>
    requires start { shift.start + shift.count < 2 ^ 32 }
    requires fits { inlay.now.offset + shift.count < 2 ^ 32 }
    ensures { IfOk result (λ moved.
        inlay_of moved ≡ move_inlay shift.start shift.end shift.count (inlay_of inlay.now)) }
{
    let mut moved = copied(alloc, inlay)?;
    moved.offset = anchor::moved(inlay.offset, inlay.bias, shift);
    Ok(moved)
}

/// The inlays after a replacement, in order again.
pub fn moved(
    alloc: Global,
    inlays: &[PlainInlay],
    shift: Shift,
) -> Result<Vec<PlainInlay>, NoMemory>
    requires start { shift.start + shift.count < 2 ^ 32 }
    requires fits { All (λ i. i.offset + shift.count < 2 ^ 32) inlays.now }
    ensures { IfOk result (λ moved. map inlay_of moved.items
        ≡ moved_inlays shift.start shift.end shift.count (map inlay_of inlays.now)) }
{
    let mut moved = Vec::with_capacity(alloc, inlays.len())?;
    for i in (0..inlays.len()).rev() {
        put_in(&mut moved, moved_one(alloc, &inlays[i], shift)?)?;
    }
    moved.reverse();
    Ok(moved)
}

/// How many inlays an inlay doesn't come before.
fn passed(inlays: &[PlainInlay], inlay: &PlainInlay) -> usize
    ensures { result
        ≡ prefix_len (λ z. not (inlay_le (inlay_of inlay.now) (inlay_of z))) inlays.now }
{
    inlays
        .iter()
        .take_while(|other| !is_before(inlay, *other))
        .count()
}

/// The inlays with one more, in order.
pub fn added(
    alloc: Global,
    inlays: &[PlainInlay],
    inlay: PlainInlay,
) -> Result<Vec<PlainInlay>, NoMemory>
    ensures { IfOk result (λ added.
        map inlay_of added.items ≡ insert_by inlay_le (inlay_of inlay) (map inlay_of inlays.now)) }
{
    let at = passed(inlays, &inlay);
    let mut added = Vec::with_capacity(alloc, inlays.len())?;
    push_copies(alloc, &mut added, &inlays[..at])?;
    added.push(inlay)?;
    push_copies(alloc, &mut added, &inlays[at..])?;
    Ok(added)
}

/// The inlays without the one of this id.
pub fn removed(alloc: Global, inlays: &[PlainInlay], id: u32) -> Result<Vec<PlainInlay>, NoMemory>
    ensures { IfOk result (λ left.
        map inlay_of left.items ≡ without_inlay id (map inlay_of inlays.now)) }
{
    let mut left = Vec::with_capacity(alloc, inlays.len())?;
    for inlay in inlays {
        if inlay.id != id {
            left.push(copied(alloc, inlay)?)?;
        }
    }
    Ok(left)
}

/// The inlay of this id, if it is there.
pub fn found(inlays: &[PlainInlay], id: u32) -> Option<&PlainInlay>
    ensures { option_map inlay_of (option_copied result)
        ≡ find (λ i. i.id == id) (map inlay_of inlays.now) }
{
    for inlay in inlays {
        if inlay.id == id {
            return Some(inlay);
        }
    }
    None
}
