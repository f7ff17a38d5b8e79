//! Where a row lies: at which display line, and in which part of it.
ghost use Rattle.std.specs.Prelude.{◌≡◌, ◌<◌, ◌≤◌, length};
ghost use Rattle.plain_rows.specs.Rows.{rows_of};
ghost use Rattle.plain_rows.specs.Spots.{mark_at};
ghost use Rattle.row_pieces.specs.Laws.{pieces_at};
ghost use Rattle.row_pieces.specs.Pieces.{pieces_by_row};
ghost use Rattle.view_pieces.specs.inside.Landing.{HoldsRow, LandsOn};

use blocked_rows::blocked_laws;
use cell_units::{Rows, Side, Steps};
use map_sheet::MapSheet;
use plain_rows::SpotRows;

/// A part of a display line with its blocks.
#[derive(Clone, Copy)]
pub(crate) enum Part {
    /// The rows of the line's text.
    Text,
    /// The rows of the blocks on a side of the line.
    Blocks(Side),
}

/// Where a row lies: its number in a part of a display line, counted from 0.
#[derive(Clone, Copy)]
pub(crate) struct RowPlace {
    pub(crate) line: u32,
    pub(crate) part: Part,
    pub(crate) at: u32,
}

/// The display line that has a row, or that has a block of which it is a row.
fn line_of(sheet: &MapSheet, row: u32, steps: &mut Steps) -> u32
    requires { row < length (rows_of sheet.now) }
    ensures line { HoldsRow sheet.now row result }
    ensures counted { steps.old ≤ steps.new }
{
    blocked_laws();
    sheet.lawful();
    let begun = sheet.line_of_row(row, steps);
    // The line after it may begin at or before the row, with the blocks above it.
    let next = begun + 1;
    if sheet.shown().start_of(next, steps) <= row {
        next
    } else {
        begun
    }
}

/// How many text rows a line has.
pub fn text_rows(sheet: &MapSheet, line: u32) -> u32
    requires { line < length sheet.now.marks }
    ensures { result ≡ length
        (pieces_by_row (pieces_at sheet.now line) sheet.now.tab (mark_at sheet.now line).width) }
{
    // For the proof: the record is lawful.
    sheet.lawful();
    let rows = sheet.wrapped().rows();
    rows.rows_of(line)
}

/// The place of a row.
pub(crate) fn place_of(sheet: &MapSheet, row: u32, steps: &mut Steps) -> RowPlace
    requires { row < length (rows_of sheet.now) }
    ensures lands { LandsOn sheet.now row result }
    ensures counted { steps.old ≤ steps.new }
{
    blocked_laws();
    sheet.lawful();
    let line = line_of(sheet, row, steps);
    let first = sheet.first_row(line, steps);
    if row < first {
        let start = sheet.shown().start_of(line, steps);
        return RowPlace {
            line,
            part: Part::Blocks(Side::Above),
            at: row - start,
        };
    }
    let at = row - first;
    let count = text_rows(sheet, line);
    if at < count {
        return RowPlace {
            line,
            part: Part::Text,
            at,
        };
    }
    RowPlace {
        line,
        part: Part::Blocks(Side::Below),
        at: at - count,
    }
}
