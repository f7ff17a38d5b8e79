//! The rows of one block.
ghost use Rattle.std.specs.Prelude.{◌≡◌, ◌+◌, ◌^◌, ◌<◌, ◌≤◌, length, slice_get, take, IfSome};
ghost use Rattle.cell_units.specs.declared.place.Side.TheVariants.{Below};
ghost use Rattle.cell_units.specs.Record.{Block};
ghost use Rattle.plain_rows.specs.Rows.{line_of_block};
ghost use Rattle.map_sheet.specs.Listed.{side_blocks};
ghost use Rattle.view_changes.specs.Operations.{at_line, rows_in, side_start};
ghost use Rattle.view_changes.specs.inside.OwnRows.{AreOwnRows, AreRowsOn};

use crate::finding::block_number;
use crate::lines::rows_to;
use cell_units::{Side, Steps};
use kept_sheet::Sheet;
use map_sheet::MapSheet;
use plain_rows::SpotRows;
use view_pieces::{block_line, lines_there, text_rows};

/// The row at which the blocks below a line begin.
fn start_below(sheet: &MapSheet, line: u32, steps: &mut Steps) -> u32
    requires { line < length sheet.now.marks }
    ensures start { result ≡ side_start sheet.now Below line }
    ensures counted { steps.old ≤ steps.new }
{
    // For the proof: the record is lawful, and all rows together are a u32.
    sheet.lawful();
    let _rows = sheet.row_count();
    sheet.first_row(line, steps) + text_rows(sheet, line)
}

/// The row at which the blocks on a side of a line begin.
fn side_start(sheet: &MapSheet, side: Side, line: u32, steps: &mut Steps) -> u32
    requires { line < length sheet.now.marks }
    ensures start { result ≡ side_start sheet.now side line }
    ensures counted { steps.old ≤ steps.new }
{
    match side {
        Side::Above => rows_to(sheet, line, steps),
        Side::Below => start_below(sheet, line, steps),
    }
}

/// How many rows the blocks of a side have that come before the one of this number at its line. These are the last ones
/// before it.
fn rows_ahead(sheet: &MapSheet, side: Side, number: u32, line: u32, steps: &mut Steps) -> u32
    requires { (b : Block) × (slice_get (side_blocks sheet.now side) number ≡ Some b)
        × (line_of_block sheet.now b ≡ line) }
    ensures rows { result
        ≡ rows_in (at_line sheet.now line (take number (side_blocks sheet.now side))) }
    ensures counted { steps.old ≤ steps.new }
{
    // For the proof: the record is lawful.
    sheet.lawful();
    let mut rows = 0;
    'ahead: for other in (0..number).rev() {
        let Some(count) = lines_there(sheet, side, other, line, steps) else {
            return rows;
        };
        rows += count;
    }
    rows
}

/// The first row of the block of this id and how many it has, if it is one of this side.
fn rows_on(sheet: &MapSheet, side: Side, id: u32, steps: &mut Steps) -> Option<(u32, u32)>
    ensures rows { AreRowsOn sheet.now side id result }
    ensures few { IfSome result (λ rows. rows.0 + rows.1 < 2 ^ 32) }
    ensures counted { steps.old ≤ steps.new }
{
    // For the proof: the record is lawful, and all rows together are a u32.
    sheet.lawful();
    let _rows = sheet.row_count();
    let Some(number) = block_number(sheet, side, id, steps) else {
        return None;
    };
    let Some((offset, _id, lines)) = sheet.blocked().block(side, number, steps) else {
        unreachable!()
    };
    let line = block_line(sheet, side, offset, steps);
    let start = side_start(sheet, side, line, steps);
    let ahead = rows_ahead(sheet, side, number, line, steps);
    Some((start + ahead, lines.len() as u32))
}

/// The first row of the block of this id and how many it has, if there is one.
pub(crate) fn own_rows(sheet: &MapSheet, id: u32, steps: &mut Steps) -> Option<(u32, u32)>
    ensures rows { AreOwnRows sheet.now id result }
    ensures few { IfSome result (λ rows. rows.0 + rows.1 < 2 ^ 32) }
    ensures counted { steps.old ≤ steps.new }
{
    match rows_on(sheet, Side::Above, id, steps) {
        Some(rows) => Some(rows),
        None => rows_on(sheet, Side::Below, id, steps),
    }
}
