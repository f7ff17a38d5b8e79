//! The elements of a line, each as a piece by itself.
ghost use Rattle.std.specs.Prelude.{◌≡◌, ◌+◌, ◌^◌, ◌<◌, ◌++◌, All, length, map, replicate, take, IfOk, OnOk};
ghost use Rattle.cell_line.specs.Elements.{clusters};
ghost use Rattle.cell_line.specs.RowTexts.{shown_element};
ghost use Rattle.row_pieces.specs.Pieces.{bit, bits, bits_in, count_in, end_at, kind_in, start_at};
ghost use Rattle.row_pieces.specs.inside.Lines.{BeginWith, HasOffset, HasOffsets};

use crate::row_piece::{RowPiece, RowPieceKind};
use cell_line::Element;
use cell_units::{NoMemory, Piece, PieceKind, Text};
use std::alloc::Global;

/// So many spaces.
pub(crate) fn spaces(alloc: Global, count: u32) -> Result<Text, NoMemory>
    ensures { IfOk result (λ text. text ≡ replicate count 32) }
{
    let mut text = String::new(alloc);
    for _ in 0..count {
        text.push(' ')?;
    }
    Text::from_str(alloc, text.as_str())
}

/// An element as it is shown: a tab as spaces.
fn shown(alloc: Global, element: &Element) -> Result<Text, NoMemory>
    ensures { IfOk result (λ text. text ≡ shown_element element.now) }
{
    if element.tab {
        spaces(alloc, element.cells)
    } else {
        Text::from_str(alloc, element.text.as_str())
    }
}

/// The kind of an element in a piece of this kind.
fn kind_in(kind: PieceKind, element: &Element) -> RowPieceKind
    ensures { result ≡ kind_in kind element.now }
{
    match kind {
        PieceKind::Buffer => {
            if element.tab {
                RowPieceKind::Tab
            } else {
                RowPieceKind::Text
            }
        }
        PieceKind::Inlay(id) => RowPieceKind::Inlay(id),
        PieceKind::Placeholder => RowPieceKind::Placeholder,
    }
}

/// The offsets of an element that begins and ends with so many bytes of its piece.
fn offsets(piece: &Piece, begin: usize, end: usize) -> (u32, u32)
    requires begin { HasOffset piece.now begin }
    requires end { HasOffset piece.now end }
    ensures start { result.0 ≡ start_at piece.now.kind piece.now begin }
    ensures end { result.1 ≡ end_at piece.now.kind piece.now end }
{
    match piece.kind {
        PieceKind::Buffer => (piece.start + begin as u32, piece.start + end as u32),
        _ => (piece.start, piece.end),
    }
}

/// An element of a piece, which so many bytes of the piece precede, by itself.
fn bit(alloc: Global, piece: &Piece, before: usize, element: &Element) -> Result<RowPiece, NoMemory>
    requires begin { HasOffset piece.now before }
    requires end { HasOffset piece.now (before + length element.now.text) }
    requires fits { before + length element.now.text < 2 ^ 64 }
    ensures { IfOk result (λ b. b ≡ bit piece.now before element.now) }
{
    let (start, end) = offsets(piece, before, before + element.text.as_str().len());
    Ok(RowPiece {
        kind: kind_in(piece.kind, element),
        text: shown(alloc, element)?,
        cells: element.cells,
        start,
        end,
    })
}

/// Appends the elements of a piece, each by itself, which are the first of these, and returns how many there are.
fn push_bits(
    alloc: Global,
    bits: &mut Vec<RowPiece>,
    piece: &Piece,
    elements: &[Element],
) -> Result<usize, NoMemory>
    requires offsets { HasOffsets piece.now }
    requires elements { BeginWith piece.now elements.now }
    ensures bits { OnOk result (bits.new.items
        ≡ bits.old.items ++ bits_in piece.now 0 (take (count_in piece.now) elements.now)) }
    ensures count { IfOk result (λ count. count ≡ count_in piece.now) }
{
    let size = piece.text.as_str().len();
    let mut before = 0;
    let mut count = 0;
    'elements: while before < size {
        let element = &elements[count];
        bits.push(bit(alloc, piece, before, element)?)?;
        before += element.text.as_str().len();
        count += 1;
    }
    Ok(count)
}

/// The elements of the line that the pieces make, each as a piece by itself.
pub(crate) fn bits(
    alloc: Global,
    pieces: &[Piece],
    elements: &[Element],
) -> Result<Vec<RowPiece>, NoMemory>
    requires offsets { All HasOffsets pieces.now }
    requires elements { map (λ e. e.text) elements.now ≡ clusters pieces.now }
    ensures { IfOk result (λ b. b.items ≡ bits pieces.now elements.now) }
{
    let mut bits = Vec::new(alloc);
    let mut next = 0;
    for piece in pieces {
        next += push_bits(alloc, &mut bits, piece, &elements[next..])?;
    }
    Ok(bits)
}
