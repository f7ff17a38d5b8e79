//! The rows of the blocks at a display line.
ghost use Rattle.std.specs.Prelude.{◌≡◌, ◌<◌, ◌≤◌, length, slice_get, IfOk};
ghost use Rattle.cell_units.specs.Record.{Block};
ghost use Rattle.cell_units.specs.Text.{IsBoundary};
ghost use Rattle.plain_rows.specs.Rows.{line_of_block};
ghost use Rattle.map_sheet.specs.Listed.{side_blocks};
ghost use Rattle.row_pieces.specs.Listed.{listed};
ghost use Rattle.row_pieces.specs.Pieces.{block_pieces_at};
ghost use Rattle.view_pieces.specs.Blocks.{lines_there};
ghost use Rattle.view_pieces.specs.inside.Blocks.{AreBefore, IsFound, comes_before};

use cell_units::{Bias, Layer, NoMemory, Side, Steps};
use map_sheet::MapSheet;
use plain_rows::SpotRows;
use row_pieces::{RowPiece, block_line_piece};
use std::alloc::Global;

/// The display line of a block on a side, which has this offset in bytes.
pub fn block_line(sheet: &MapSheet, side: Side, offset: u32, steps: &mut Steps) -> u32
    requires { IsBoundary sheet.now.text offset }
    ensures line { (b : Block) → b.side ≡ side → b.offset ≡ offset →
        result ≡ line_of_block sheet.now b }
    ensures within { result < length sheet.now.marks }
    ensures counted { steps.old ≤ steps.new }
{
    // For the proof: the record is lawful.
    sheet.lawful();
    let layer = sheet.text().layer();
    let (start, end) = layer.row_ends(offset);
    match side {
        Side::Above => sheet.place(start, Bias::Left, steps).0,
        Side::Below => sheet.place(end, Bias::Right, steps).0,
    }
}

/// Whether there is a block of this number among those of a side, and its line comes before this one.
fn comes_before(sheet: &MapSheet, side: Side, number: u32, line: u32, steps: &mut Steps) -> bool
    ensures before { result
        ≡ comes_before sheet.now line (slice_get (side_blocks sheet.now side) number) }
    ensures counted { steps.old ≤ steps.new }
{
    sheet.lawful();
    match sheet.blocked().block(side, number, steps) {
        None => false,
        Some((offset, _id, _lines)) => block_line(sheet, side, offset, steps) < line,
    }
}

/// How many lines the block of this number among those of a side has, if it lies at this line.
pub fn lines_there(
    sheet: &MapSheet,
    side: Side,
    number: u32,
    line: u32,
    steps: &mut Steps,
) -> Option<u32>
    ensures there { result
        ≡ lines_there sheet.now line (slice_get (side_blocks sheet.now side) number) }
    ensures counted { steps.old ≤ steps.new }
{
    // For the proof: the record is lawful.
    sheet.lawful();
    let Some((offset, _id, lines)) = sheet.blocked().block(side, number, steps) else {
        return None;
    };
    if block_line(sheet, side, offset, steps) == line {
        Some(lines.len() as u32)
    } else {
        None
    }
}

/// How many blocks of a side come before a line. They are found by halves, since lines rise with the numbers.
fn blocks_before(sheet: &MapSheet, side: Side, line: u32, steps: &mut Steps) -> u32
    ensures before { AreBefore sheet.now side line result }
    ensures counted { steps.old ≤ steps.new }
{
    sheet.lawful();
    let mut low = 0;
    let mut high = sheet.blocked().len();
    'search: while low < high {
        let middle = low + (high - low) / 2;
        if comes_before(sheet, side, middle, line, steps) {
            low = middle + 1;
        } else {
            high = middle;
        }
    }
    low
}

/// The block of which a line is at a row, counted from the first row of the blocks on a side of a display line: the
/// block's number among those of the side, and the number of its line. `None` where there are fewer rows.
fn block_at_row(
    sheet: &MapSheet,
    side: Side,
    line: u32,
    at: u32,
    steps: &mut Steps,
) -> Option<(u32, usize)>
    ensures found { IsFound sheet.now side line at result }
    ensures counted { steps.old ≤ steps.new }
{
    sheet.lawful();
    let first = blocks_before(sheet, side, line, steps);
    let mut left = at;
    for number in first..sheet.blocked().len() {
        let Some(count) = lines_there(sheet, side, number, line, steps) else {
            return None;
        };
        if left < count {
            return Some((number, left as usize));
        }
        left -= count;
    }
    None
}

/// The pieces of a row of the blocks on a side of a display line, counted from the first; `None` past the last.
pub(crate) fn block_pieces(
    alloc: Global,
    sheet: &MapSheet,
    side: Side,
    line: u32,
    at: u32,
    steps: &mut Steps,
) -> Result<Option<Vec<RowPiece>>, NoMemory>
    ensures pieces { IfOk result (λ found.
        listed found ≡ slice_get (block_pieces_at sheet.now side line) at) }
    ensures counted { steps.old ≤ steps.new }
{
    sheet.lawful();
    let Some((number, at)) = block_at_row(sheet, side, line, at, steps) else {
        return Ok(None);
    };
    let Some((offset, id, lines)) = sheet.blocked().block(side, number, steps) else {
        unreachable!()
    };
    let tab = sheet.wrapped().tab();
    let piece = block_line_piece(alloc, id, offset, lines[at].as_str(), tab)?;
    let mut row = Vec::new(alloc);
    row.push(piece)?;
    Ok(Some(row))
}
