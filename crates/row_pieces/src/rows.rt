//! The pieces of all rows of a record.
ghost use Rattle.std.specs.Prelude.{◌≡◌, ◌^◌, ◌≤◌, ◌<◌, ◌+◌, ◌∷◌, ◌++◌, [], All, length, slice_get, if◌then◌else◌, IfOk, OnOk};
ghost use Rattle.cell_units.specs.Lawful.{IsLawful, IsTab, IsWidth};
ghost use Rattle.cell_units.specs.declared.limits.TheConstants.{BLOCK_LINE_LIMIT};
ghost use Rattle.cell_units.specs.Record.{Block};
ghost use Rattle.cell_line.specs.Elements.{bytes_in, elements_of, total_cells};
ghost use Rattle.plain_rows.specs.FoldedLines.{seen};
ghost use Rattle.plain_rows.specs.Plain.{block_of, listed_source, record_of};
ghost use Rattle.plain_rows.specs.Rows.{is_on};
ghost use Rattle.plain_rows.specs.inside.BuiltRows.{AreBefore, AreStanding, is_upto, shown_limit};
ghost use Rattle.row_pieces.specs.Listed.{listed, lists_of};
ghost use Rattle.row_pieces.specs.Pieces.{alone, block_piece, block_pieces_at, pieces_by_row, pieces_in_rows, pieces_of_block};
ghost use Rattle.row_pieces.specs.inside.Blocks.{IsShort};
ghost use Rattle.row_pieces.specs.inside.Lines.{HasOffsets};

use crate::line_rows::pieces_of_line;
use crate::row_piece::{RowPiece, RowPieceKind};
use cell_line::{Element, elements, line_laws};
use cell_units::limits::LAID_LIMIT;
use cell_units::{NoMemory, Piece, PieceKind, Side, Text};
use plain_rows::{FoldedLines, Plain, PlainBlock, PlainSource};
use std::alloc::Global;

/// The cells of elements.
fn total_cells(elements: &[Element]) -> u32
    requires { total_cells elements.now < 2 ^ 32 }
    ensures { result ≡ total_cells elements.now }
{
    elements.iter().map(|e| e.cells).sum()
}

/// The cells of a text as a display line of its own.
fn cells_alone(alloc: Global, text: &str, tab: u32) -> Result<u32, NoMemory>
    requires tab { IsTab tab }
    requires short { length text.now ≤ BLOCK_LINE_LIMIT }
    ensures { IfOk result (λ cells. cells ≡ total_cells (elements_of (alone text.now ∷ []) tab)) }
{
    // For the proof: the cells of a line are within their bound.
    line_laws();
    let mut pieces = Vec::new(alloc);
    pieces.push(Piece {
        kind: PieceKind::Buffer,
        text: Text::from_str(alloc, text)?,
        start: 0,
        end: 0,
    })?;
    let elements = elements(alloc, pieces.as_slice(), tab)?;
    Ok(total_cells(elements.as_slice()))
}

/// The piece of a line of the block of this id and this offset in bytes, at a tab size of 1 to 16 cells.
pub fn block_line_piece(
    alloc: Global,
    id: u32,
    offset: u32,
    line: &str,
    tab: u32,
) -> Result<RowPiece, NoMemory>
    requires tab { IsTab tab }
    requires short { length line.now ≤ BLOCK_LINE_LIMIT }
    ensures { (b : Block) → b.id ≡ id → b.offset ≡ offset →
        IfOk result (λ piece. piece ≡ block_piece tab b line.now) }
{
    Ok(RowPiece {
        kind: RowPieceKind::Block(id),
        text: Text::from_str(alloc, line)?,
        cells: cells_alone(alloc, line, tab)?,
        start: offset,
        end: offset,
    })
}

/// The piece of a line of a block.
fn block_piece(
    alloc: Global,
    block: &PlainBlock,
    line: &str,
    tab: u32,
) -> Result<RowPiece, NoMemory>
    requires tab { IsTab tab }
    requires short { length line.now ≤ BLOCK_LINE_LIMIT }
    ensures { IfOk result (λ piece. piece ≡ block_piece tab (block_of block.now) line.now) }
{
    block_line_piece(alloc, block.id, block.offset, line, tab)
}

/// Appends the piece of each row of a block.
fn push_block(
    alloc: Global,
    rows: &mut Vec<Vec<RowPiece>>,
    block: &PlainBlock,
    tab: u32,
) -> Result<(), NoMemory>
    requires tab { IsTab tab }
    requires short { All IsShort block.now.lines.items }
    ensures { OnOk result (lists_of rows.new.items
        ≡ lists_of rows.old.items ++ pieces_of_block tab (block_of block.now)) }
{
    for line in &block.lines {
        let mut row = Vec::new(alloc);
        row.push(block_piece(alloc, block, line.as_str(), tab)?)?;
        rows.push(row)?;
    }
    Ok(())
}

/// Appends the piece of each row of a block, if it is on the side.
fn push_block_on(
    alloc: Global,
    rows: &mut Vec<Vec<RowPiece>>,
    block: &PlainBlock,
    tab: u32,
    side: Side,
) -> Result<(), NoMemory>
    requires tab { IsTab tab }
    requires short { All IsShort block.now.lines.items }
    ensures { OnOk result (lists_of rows.new.items ≡ lists_of rows.old.items
        ++ (if is_on side block.now.side then pieces_of_block tab (block_of block.now) else [])) }
{
    if block.side != side {
        return Ok(());
    }
    push_block(alloc, rows, block, tab)
}

/// The blocks of a record, and of each its display line.
#[derive(Clone, Copy)]
struct Blocks<'a> {
    plain: &'a Plain,
    lines: &'a [u32],
}

impl Blocks<'_> {
    /// Whether there is a block of this number and it is on the other side or lies at the line or before it.
    fn is_upto(&self, side: Side, number: usize, line: u32) -> bool
        requires { AreStanding self.now.plain.now self.now.lines.now }
        ensures { result ≡ is_upto (record_of self.now.plain.now) side number line }
    {
        let blocks = self.plain.blocks.as_slice();
        number < self.lines.len() && (blocks[number].side != side || self.lines[number] <= line)
    }

    /// Appends the pieces of the rows of the blocks of one side that lie at the line, from the block of the number
    /// `from` on. It returns the number of the block after them.
    fn push_at(
        &self,
        alloc: Global,
        rows: &mut Vec<Vec<RowPiece>>,
        side: Side,
        from: usize,
        line: u32,
    ) -> Result<usize, NoMemory>
        // Each block has its line. Blocks of the side before `from` lie before this line, and no others do.
        requires lawful { IsLawful (record_of self.now.plain.now) }
        requires lines { AreStanding self.now.plain.now self.now.lines.now }
        requires before { AreBefore (record_of self.now.plain.now) side from line }

        // The blocks of this line have their rows, and those before the result lie before the next one.
        ensures rows { OnOk result (lists_of rows.new.items ≡ lists_of rows.old.items
            ++ block_pieces_at (record_of self.now.plain.now) side line) }
        ensures before { IfOk result (λ after.
            AreBefore (record_of self.now.plain.now) side after (line + 1)) }
    {
        let mut next = from;
        'walk: while self.is_upto(side, next, line) {
            let block = &self.plain.blocks[next];
            push_block_on(alloc, rows, block, self.plain.tab, side)?;
            next += 1;
        }
        Ok(next)
    }
}

/// Appends the rows of a line.
fn push_line(
    alloc: Global,
    rows: &mut Vec<Vec<RowPiece>>,
    pieces: &[Piece],
    tab: u32,
    width: u32,
) -> Result<(), NoMemory>
    // A line of a record, its tab size, and the width at which the line is wrapped.
    requires tab { IsTab tab }
    requires width { IsWidth width }
    requires size { bytes_in pieces.now ≤ shown_limit }
    requires offsets { All HasOffsets pieces.now }

    ensures { OnOk result (lists_of rows.new.items
        ≡ lists_of rows.old.items ++ pieces_by_row pieces.now tab width) }
{
    let mut made = pieces_of_line(alloc, pieces, tab, width)?;
    rows.append(&mut made)?;
    Ok(())
}

/// What is shown of a record but for its blocks, lent.
pub(crate) fn source_of(plain: &Plain) -> PlainSource<'_>
    ensures { let p = plain.now in
        seen result ≡ listed_source p.text p.inlays.items p.folds.items }
{
    PlainSource {
        text: plain.text.as_str(),
        inlays: &plain.inlays,
        folds: &plain.folds,
    }
}

/// The pieces of each row of a record, from scratch.
pub fn pieces_in_rows(alloc: Global, plain: &Plain) -> Result<Vec<Vec<RowPiece>>, NoMemory>
    requires lawful { IsLawful (record_of plain.now) }
    requires size { length plain.now.text ≤ LAID_LIMIT }
    ensures { IfOk result (λ rows. lists_of rows.items ≡ pieces_in_rows (record_of plain.now)) }
{
    let source = source_of(plain);
    let folded = FoldedLines::new(alloc, &source)?;
    let lines = folded.block_lines(alloc, plain.text.as_str(), plain.blocks.as_slice())?;
    let blocks = Blocks {
        plain,
        lines: lines.as_slice(),
    };
    let marks = plain.marks.as_slice();
    let mut rows = Vec::new(alloc);
    let mut above = 0;
    let mut below = 0;
    for line in 0..folded.lines() {
        above = blocks.push_at(alloc, &mut rows, Side::Above, above, line)?;
        let pieces = folded.pieces(alloc, &source, line)?;
        push_line(
            alloc,
            &mut rows,
            pieces.as_slice(),
            plain.tab,
            marks[line as usize],
        )?;
        below = blocks.push_at(alloc, &mut rows, Side::Below, below, line)?;
    }
    Ok(rows)
}

/// The pieces of the row of this number, counted from 0; `None` past the last row.
pub fn pieces_of_row(
    alloc: Global,
    plain: &Plain,
    row: u32,
) -> Result<Option<Vec<RowPiece>>, NoMemory>
    requires lawful { IsLawful (record_of plain.now) }
    requires size { length plain.now.text ≤ LAID_LIMIT }
    ensures { IfOk result (λ found.
        listed found ≡ slice_get (pieces_in_rows (record_of plain.now)) row) }
{
    let mut rows = pieces_in_rows(alloc, plain)?;
    let row = row as usize;
    if row < rows.len() {
        Ok(Some(rows.swap_remove(row)))
    } else {
        Ok(None)
    }
}
