//! Elements of a row, each by itself, joined to pieces.
ghost use Rattle.std.specs.Prelude.{◌≡◌, ◌^◌, ◌<◌, ◌∷◌, length, slice_range, IfOk};
ghost use Rattle.row_pieces.specs.Pieces.{cells_in, is_one, joined};
ghost use Rattle.row_pieces.specs.inside.Runs.{IsRunEnd, whole};

use crate::row_piece::{RowPiece, RowPieceKind};
use cell_units::{NoMemory, Text};
use std::alloc::Global;

/// Whether neighbours are of one piece: both are text of the buffer, or both are of one inlay.
fn is_one(kind: RowPieceKind, next: RowPieceKind) -> bool
    ensures { result ≡ is_one kind next }
{
    match (kind, next) {
        (RowPieceKind::Text, RowPieceKind::Text) => true,
        (RowPieceKind::Inlay(id), RowPieceKind::Inlay(other)) => id == other,
        _ => false,
    }
}

/// Where the run of one piece ends that begins with the element of this number.
fn run_end(bits: &[RowPiece], start: usize) -> usize
    requires { start < length bits.now }
    ensures { IsRunEnd bits.now start result }
{
    for at in start + 1..bits.len() {
        if !is_one(bits[at - 1].kind, bits[at].kind) {
            return at;
        }
    }
    bits.len()
}

/// One piece of an element and those after it.
fn whole(alloc: Global, first: &RowPiece, rest: &[RowPiece]) -> Result<RowPiece, NoMemory>
    requires { cells_in (first.now ∷ rest.now) < 2 ^ 32 }
    ensures { IfOk result (λ piece. piece ≡ whole first.now rest.now) }
{
    let mut text = String::from_str(alloc, first.text.as_str())?;
    let mut cells = first.cells;
    let mut end = first.end;
    for bit in rest {
        text.push_str(bit.text.as_str())?;
        cells += bit.cells;
        end = bit.end;
    }
    Ok(RowPiece {
        kind: first.kind,
        text: Text::from_str(alloc, text.as_str())?,
        cells,
        start: first.start,
        end,
    })
}

/// The pieces of a row that has these elements: neighbours of one piece are joined.
pub(crate) fn joined(alloc: Global, bits: &[RowPiece]) -> Result<Vec<RowPiece>, NoMemory>
    requires { cells_in bits.now < 2 ^ 32 }
    ensures { IfOk result (λ pieces. pieces.items ≡ joined bits.now) }
{
    let mut pieces = Vec::new(alloc);
    let mut start = 0;
    'runs: while start < bits.len() {
        let end = run_end(bits, start);
        pieces.push(whole(alloc, &bits[start], &bits[start + 1..end])?)?;
        start = end;
    }
    Ok(pieces)
}
