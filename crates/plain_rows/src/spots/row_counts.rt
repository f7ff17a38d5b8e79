//! How many rows are before the text rows of each display line.
ghost use Rattle.std.specs.Prelude.{◌≡◌, ◌≤◌, ◌<◌, [], length, map, slice_index_or, IfOk};
ghost use Rattle.cell_units.specs.Lawful.{IsLawful, source_of};
ghost use Rattle.plain_rows.specs.FoldedLines.{AreLinesOf, seen};
ghost use Rattle.plain_rows.specs.Plain.{block_of, record_of};
ghost use Rattle.plain_rows.specs.Rows.{is_on, line_of_block, line_rows};
ghost use Rattle.plain_rows.specs.inside.SpotRows.{HasFirstRows, HasBlockRows};

use crate::folded_lines::{FoldedLines, PlainSource};
use crate::plain::{Plain, PlainBlock};
use cell_line::cuts_of_pieces;
use cell_units::limits::LAID_LIMIT;
use cell_units::{NoMemory, Side};
use std::alloc::Global;

/// Whether the block is on that side of its line.
fn stands_on(block: &PlainBlock, side: Side) -> bool
    ensures { result ≡ is_on side block.now.side }
{
    block.side == side
}

/// How many rows of blocks are on one side of each display line. `lines` has of each block its line.
fn block_rows(alloc: Global, plain: &Plain, lines: &[u32], side: Side) -> Result<Vec<u32>, NoMemory>
    requires lawful { IsLawful (record_of plain.now) }
    requires lines { lines.now ≡ map (λ b. line_of_block (record_of plain.now) (block_of b)) plain.now.blocks.items }
    ensures { IfOk result (λ rows. HasBlockRows (record_of plain.now) side rows.items) }
{
    let mut rows = vec![in alloc; 0; plain.marks.len()]?;
    for number in 0..plain.blocks.len() {
        let block = &plain.blocks[number];
        if stands_on(block, side) {
            rows[lines[number] as usize] += block.lines.len() as u32;
        }
    }
    Ok(rows)
}

/// How many text rows a display line has.
fn text_rows(
    alloc: Global,
    plain: &Plain,
    source: &PlainSource,
    folded: &FoldedLines,
    line: u32,
) -> Result<u32, NoMemory>
    requires lawful { IsLawful (record_of plain.now) }
    requires size { length plain.now.text ≤ LAID_LIMIT }
    requires source { seen source.now ≡ source_of (record_of plain.now) }
    requires lines { AreLinesOf (seen source.now) folded.now }
    requires within { line < length plain.now.marks.items }
    ensures { IfOk result (λ rows. rows ≡ length (slice_index_or (line_rows (record_of plain.now)) line [])) }
{
    let pieces = folded.pieces(alloc, source, line)?;
    let cuts = cuts_of_pieces(alloc, &pieces, plain.tab, plain.marks[line as usize])?;
    Ok(cuts.len() as u32 + 1)
}

/// How many rows are before the text rows of each display line. They are counted from 0.
pub fn first_rows(alloc: Global, plain: &Plain, folded: &FoldedLines) -> Result<Vec<u32>, NoMemory>
    requires lawful { IsLawful (record_of plain.now) }
    requires size { length plain.now.text ≤ LAID_LIMIT }
    requires lines { AreLinesOf (source_of (record_of plain.now)) folded.now }
    ensures { IfOk result (λ rows. HasFirstRows (record_of plain.now) rows.items) }
{
    let source = plain.source();
    let lines = folded.block_lines(alloc, plain.text.as_str(), &plain.blocks)?;
    let above = block_rows(alloc, plain, &lines, Side::Above)?;
    let below = block_rows(alloc, plain, &lines, Side::Below)?;
    let mut rows = Vec::new(alloc);
    let mut row = 0;
    for line in 0..folded.lines() {
        row += above[line as usize];
        rows.push(row)?;
        row += text_rows(alloc, plain, &source, folded, line)?;
        row += below[line as usize];
    }
    Ok(rows)
}
