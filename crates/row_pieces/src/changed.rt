//! Which rows a change of lines replaced.
ghost use Rattle.std.specs.Prelude.{◌≡◌, ◌≤◌, ◌+◌, ◌==◌, ◌&&◌, length, if◌then◌else◌, IfOk};
ghost use Rattle.cell_units.specs.declared.limits.TheConstants.{BLOCK_LINES_LIMIT};
ghost use Rattle.cell_units.specs.declared.place.Side.TheVariants.{Above};
ghost use Rattle.cell_units.specs.Lawful.{IsLawful};
ghost use Rattle.plain_rows.specs.Plain.{record_of};
ghost use Rattle.plain_rows.specs.Rows.{blocks_at, is_on};
ghost use Rattle.plain_rows.specs.inside.BuiltRows.{AreStanding};
ghost use Rattle.row_pieces.specs.Changed.{AreRowsOf, change, looks_by_line, rows_to};

use crate::row_change::RowChange;
use crate::rows::source_of;
use cell_units::limits::LAID_LIMIT;
use cell_units::{NoMemory, Side};
use display_sheet::LineSplice;
use plain_rows::spots::row_counts::first_rows;
use plain_rows::{FoldedLines, Plain, PlainBlock, build};
use std::alloc::Global;

/// How many rows a block has that is at the line `at`, if that is this line and it is above it.
fn rows_if_above(block: &PlainBlock, at: u32, line: u32) -> u32
    requires { length block.now.lines.items ≤ BLOCK_LINES_LIMIT }
    ensures { let rows = length block.now.lines.items in
        result ≡ (if is_on Above block.now.side && (at == line) then rows else 0) }
{
    if block.side == Side::Above && at == line {
        block.lines.len() as u32
    } else {
        0
    }
}

/// How many rows of blocks lie above a display line. `lines` has of each block its line.
fn rows_above(plain: &Plain, lines: &[u32], line: u32) -> u32
    requires lawful { IsLawful (record_of plain.now) }
    requires lines { AreStanding plain.now lines.now }
    ensures { result ≡ length (blocks_at (record_of plain.now) Above line) }
{
    let mut rows = 0;
    for number in 0..plain.blocks.len() {
        rows += rows_if_above(&plain.blocks[number], lines[number], line);
    }
    rows
}

/// How many rows the first so many display lines have, those of their blocks too.
fn rows_to(alloc: Global, plain: &Plain, line: usize) -> Result<u32, NoMemory>
    requires lawful { IsLawful (record_of plain.now) }
    requires size { length plain.now.text ≤ LAID_LIMIT }
    requires within { line ≤ length plain.now.marks.items }
    ensures { IfOk result (λ rows. rows ≡ rows_to line (looks_by_line (record_of plain.now))) }
{
    let folded = FoldedLines::new(alloc, &source_of(plain))?;
    if line >= folded.lines() as usize {
        return Ok(build(alloc, plain)?.len() as u32);
    }
    let lines = folded.block_lines(alloc, plain.text.as_str(), plain.blocks.as_slice())?;
    let first = first_rows(alloc, plain, &folded)?;
    Ok(first[line] - rows_above(plain, lines.as_slice(), line as u32))
}

/// The rows that a change of display lines replaced: all rows of the lines from `first` up to `end`, with those of the
/// blocks at them, make place for all rows of the `count` lines that came in their place.
///
/// The rows before and after these look the same where the lines before and after those do. For a landing the lines go
/// from the first that landed to the last, and as many come.
pub fn changed_rows(
    alloc: Global,
    before: &Plain,
    after: &Plain,
    lines: LineSplice,
) -> Result<RowChange, NoMemory>
    // Two lawful records, before the change and after it.
    requires before { IsLawful (record_of before.now) × (length before.now.text ≤ LAID_LIMIT) }
    requires after { IsLawful (record_of after.now) × (length after.now.text ≤ LAID_LIMIT) }

    // The replaced lines are some of the one, and those that came are some of the other.
    requires replaced { (lines.first ≤ length before.now.marks.items)
        × (lines.end ≤ length before.now.marks.items) }
    requires came { lines.first + lines.count ≤ length after.now.marks.items }

    // The rows of these lines, which are true where the lines are, and for a landing.
    ensures { IfOk result (AreRowsOf (record_of before.now) (record_of after.now)
        (change lines.first lines.end lines.count)) }
{
    let first = lines.first as usize;
    let from = rows_to(alloc, before, first)?;
    let to = rows_to(alloc, before, lines.end as usize)?;
    let end = rows_to(alloc, after, first + lines.count as usize)?;
    Ok(RowChange {
        from,
        to,
        count: end.saturating_sub(from),
    })
}
