//! The pieces of a row.
ghost use Rattle.std.specs.Prelude.{◌≡◌, ◌<◌, ◌≤◌, length, slice_get, IfOk};
ghost use Rattle.display_map.specs.Replay.{present_of};
ghost use Rattle.row_pieces.specs.Listed.{listed};
ghost use Rattle.row_pieces.specs.Pieces.{pieces_in_rows};
ghost use Rattle.view_pieces.specs.declared.landing.Part.TheVariants.{Text};
ghost use Rattle.view_pieces.specs.inside.Landing.{pieces_of_part};

use crate::block_rows::block_pieces;
use crate::landing::{Part, place_of};
use cell_units::{Layer, NoMemory, Steps};
use display_map::View;
use kept_sheet::Sheet;
use map_sheet::MapSheet;
use row_pieces::{RowPiece, pieces_of_line_row};
use std::alloc::Global;

/// The pieces of a text row of a display line, counted from the line's first; `None` past its last.
fn text_pieces(
    alloc: Global,
    sheet: &MapSheet,
    line: u32,
    at: u32,
    steps: &mut Steps,
) -> Result<Option<Vec<RowPiece>>, NoMemory>
    requires { line < length sheet.now.marks }
    ensures pieces { IfOk result (λ found.
        listed found ≡ slice_get (pieces_of_part sheet.now line Text) at) }
    ensures counted { steps.old ≤ steps.new }
{
    sheet.lawful();
    let layer = sheet.text().layer();
    let pieces = layer.pieces(alloc, line)?;
    let width = sheet.wrapped().rows().mark(line, steps);
    let tab = sheet.wrapped().tab();
    pieces_of_line_row(alloc, pieces.as_slice(), tab, width, at)
}

/// The pieces of a row of a record; `None` past the last row.
fn sheet_pieces(
    alloc: Global,
    sheet: &MapSheet,
    row: u32,
    steps: &mut Steps,
) -> Result<Option<Vec<RowPiece>>, NoMemory>
    ensures pieces { IfOk result (λ found.
        listed found ≡ slice_get (pieces_in_rows sheet.now) row) }
    ensures counted { steps.old ≤ steps.new }
{
    if row >= sheet.row_count() {
        return Ok(None);
    }
    let place = place_of(sheet, row, steps);
    match place.part {
        Part::Text => text_pieces(alloc, sheet, place.line, place.at, steps),
        Part::Blocks(side) => block_pieces(alloc, sheet, side, place.line, place.at, steps),
    }
}

/// The pieces of the row of this number, counted from 0 (*Pieces of a row*); `None` past the last row.
pub fn pieces_of_row(
    alloc: Global,
    view: &View,
    row: u32,
    steps: &mut Steps,
) -> Result<Option<Vec<RowPiece>>, NoMemory>
    ensures pieces { IfOk result (λ found.
        listed found ≡ slice_get (pieces_in_rows (present_of view.now)) row) }
    ensures counted { steps.old ≤ steps.new }
{
    sheet_pieces(alloc, view.sheet(), row, steps)
}
