//! The pieces of the rows of one line.
ghost use Rattle.std.specs.Prelude.{◌≡◌, ◌^◌, ◌<◌, ◌≤◌, ◌==◌, ◌+◌, ℕ, All, length, slice_get, slice_index_or, if◌then◌else◌, IfOk};
ghost use Rattle.cell_units.specs.Lawful.{IsTab, IsWidth};
ghost use Rattle.cell_line.specs.Elements.{bytes_in};
ghost use Rattle.plain_rows.specs.inside.BuiltRows.{shown_limit};
ghost use Rattle.row_pieces.specs.Pieces.{cells_in, head_and_later, indent_before, indent_piece, parts, pieces_by_row, start_of};
ghost use Rattle.row_pieces.specs.Listed.{listed, lists_of};
ghost use Rattle.row_pieces.specs.inside.Lines.{HasOffsets, LiesWithin, begin_of, row_of};

use crate::bits::{bits, spaces};
use crate::joining::joined;
use crate::row_piece::{RowPiece, RowPieceKind};
use cell_line::{cuts, elements, indent, line_laws};
use cell_units::{NoMemory, Piece};
use std::alloc::Global;

/// The offset at which pieces begin; 0 where there are none.
fn start_of(pieces: &[RowPiece]) -> u32
    ensures { result ≡ start_of pieces.now }
{
    match pieces {
        [first, ..] => first.start,
        [] => 0,
    }
}

/// So many spaces at an offset, before a row that goes on.
fn indent_piece(alloc: Global, cells: u32, offset: u32) -> Result<RowPiece, NoMemory>
    ensures { IfOk result (λ piece. piece ≡ indent_piece cells offset) }
{
    Ok(RowPiece {
        kind: RowPieceKind::Indent,
        text: spaces(alloc, cells)?,
        cells,
        start: offset,
        end: offset,
    })
}

/// The pieces with the indent before them, if it has any cells.
fn indented(alloc: Global, cells: u32, pieces: Vec<RowPiece>) -> Result<Vec<RowPiece>, NoMemory>
    ensures { IfOk result (λ row. row.items ≡ indent_before cells pieces.items) }
{
    let mut row = pieces;
    if cells > 0 {
        let start = start_of(&row);
        row.insert(0, indent_piece(alloc, cells, start)?)?;
    }
    Ok(row)
}

/// The number of the element with which a row begins.
fn row_begin(cuts: &[u32], row: usize) -> usize
    requires { row ≤ length cuts.now }
    ensures { result ≡ begin_of cuts.now row }
{
    if row == 0 { 0 } else { cuts[row - 1] as usize }
}

/// The number of the element before which a row ends, in a line of so many.
fn row_end(cuts: &[u32], row: usize, elements: usize) -> usize
    ensures { result ≡ slice_index_or cuts.now row elements }
{
    if row < cuts.len() {
        cuts[row] as usize
    } else {
        elements
    }
}

/// The cells before a row's elements: the line's first row has none.
fn row_indent(indent: u32, row: usize) -> u32
    ensures { result ≡ (if row == 0 then 0 else indent) }
{
    if row == 0 { 0 } else { indent }
}

/// The pieces of the row of this number: its elements joined, after its indent.
fn joined_row(
    alloc: Global,
    bits: &[RowPiece],
    cuts: &[u32],
    indent: u32,
    row: usize,
) -> Result<Vec<RowPiece>, NoMemory>
    // A row of a line that has these elements and cuts, whose cells fit a u32.
    requires row { row ≤ length cuts.now }
    requires lies { LiesWithin bits.now cuts.now row }
    requires cells { cells_in bits.now < 2 ^ 32 }

    ensures { IfOk result (λ pieces. pieces.items ≡ row_of bits.now cuts.now indent row) }
{
    let end = row_end(cuts, row, bits.len());
    let pieces = joined(alloc, &bits[row_begin(cuts, row)..end])?;
    indented(alloc, row_indent(indent, row), pieces)
}

/// The pieces of each row of a line that is cut like this.
fn rows_of_bits(
    alloc: Global,
    bits: &[RowPiece],
    cuts: &[u32],
    indent: u32,
) -> Result<Vec<Vec<RowPiece>>, NoMemory>
    requires lie { (row : ℕ) → row ≤ length cuts.now → LiesWithin bits.now cuts.now row }
    requires cells { cells_in bits.now < 2 ^ 32 }
    ensures { IfOk result (λ rows. lists_of rows.items
        ≡ head_and_later indent (parts bits.now 0 cuts.now)) }
{
    let mut rows = Vec::new(alloc);
    for row in 0..cuts.len() + 1 {
        rows.push(joined_row(alloc, bits, cuts, indent, row)?)?;
    }
    Ok(rows)
}

/// The pieces of each row of the line that these pieces make, at a tab size of 1 to 16 cells, wrapped at a width of 2 to
/// 10,000 cells, or not cut at width 0. It walks the line a fixed number of times, and not once for each row.
pub fn pieces_of_line(
    alloc: Global,
    pieces: &[Piece],
    tab: u32,
    width: u32,
) -> Result<Vec<Vec<RowPiece>>, NoMemory>
    // A tab size and a width that a record may have.
    requires tab { IsTab tab }
    requires width { IsWidth width }

    // A line no longer than those of a record, whose offsets are u32.
    requires size { bytes_in pieces.now ≤ shown_limit }
    requires offsets { All HasOffsets pieces.now }

    ensures { IfOk result (λ rows. lists_of rows.items ≡ pieces_by_row pieces.now tab width) }
{
    // For the proof: the cells of a line are within their bound.
    line_laws();
    let elements = elements(alloc, pieces, tab)?;
    let cuts = cuts(alloc, elements.as_slice(), width)?;
    let indent = indent(elements.as_slice(), width);
    let bits = bits(alloc, pieces, elements.as_slice())?;
    rows_of_bits(alloc, bits.as_slice(), cuts.as_slice(), indent)
}

/// The pieces of the row of this number of that line, counted from 0; `None` past its last row. It walks the line a fixed
/// number of times, and joins the pieces of that row alone.
pub fn pieces_of_line_row(
    alloc: Global,
    pieces: &[Piece],
    tab: u32,
    width: u32,
    row: u32,
) -> Result<Option<Vec<RowPiece>>, NoMemory>
    // A tab size and a width that a record may have.
    requires tab { IsTab tab }
    requires width { IsWidth width }

    // A line no longer than those of a record, whose offsets are u32.
    requires size { bytes_in pieces.now ≤ shown_limit }
    requires offsets { All HasOffsets pieces.now }

    ensures { IfOk result (λ found.
        listed found ≡ slice_get (pieces_by_row pieces.now tab width) row) }
{
    line_laws();
    let elements = elements(alloc, pieces, tab)?;
    let cuts = cuts(alloc, elements.as_slice(), width)?;
    let row = row as usize;
    if row > cuts.as_slice().len() {
        return Ok(None);
    }
    let indent = indent(elements.as_slice(), width);
    let bits = bits(alloc, pieces, elements.as_slice())?;
    let found = joined_row(alloc, bits.as_slice(), cuts.as_slice(), indent, row)?;
    Ok(Some(found))
}
