//! The pieces of a row, as a host is lent them.
ghost use Rattle.std.specs.Prelude.{◌≡◌, map, string_bytes, IfOk};
ghost use Rattle.row_pieces.specs.Pieces.{text_of};
ghost use Rattle.display_session.specs.LentPieces.{lent_piece};

use cell_units::NoMemory;
use row_pieces::{RowPiece, RowPieceKind};
use std::alloc::Global;

/// A piece of a row, whose text is part of the row's: the texts of a row's pieces lie in it one after another, and this
/// one has so many bytes.
///
/// It takes so many cells, and goes from the buffer offset `start` to `end`, in bytes. Both are one offset for an inlay,
/// for a block, and for an indent, whose offset is that of the piece after it. Those of a placeholder are the joined
/// fold's.
#[derive(Clone, Copy, Debug, PartialEq, Eq)]
pub struct LentPiece {
    pub kind: RowPieceKind,
    pub bytes: usize,
    pub cells: u32,
    pub start: u32,
    pub end: u32,
}

/// A piece, with the length of its text in place of it.
fn lent_piece(piece: &RowPiece) -> LentPiece
    ensures { result ≡ lent_piece piece.now }
{
    LentPiece {
        kind: piece.kind,
        bytes: piece.text.as_str().len(),
        cells: piece.cells,
        start: piece.start,
        end: piece.end,
    }
}

/// The pieces of a row, with the length of each one's text in place of it.
pub(crate) fn lent_pieces(alloc: Global, pieces: &[RowPiece]) -> Result<Vec<LentPiece>, NoMemory>
    ensures { IfOk result (λ lent. lent.items ≡ map lent_piece pieces.now) }
{
    let mut lent = Vec::new(alloc);
    for piece in pieces {
        lent.push(lent_piece(piece))?;
    }
    Ok(lent)
}

/// The texts of the pieces of a row, one after another.
pub(crate) fn joined_text(alloc: Global, pieces: &[RowPiece]) -> Result<String, NoMemory>
    ensures { IfOk result (λ text. string_bytes text ≡ text_of pieces.now) }
{
    let mut text = String::new(alloc);
    for piece in pieces {
        text.push_str(piece.text.as_str())?;
    }
    Ok(text)
}
