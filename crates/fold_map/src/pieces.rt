//! The pieces of display lines.
ghost use Rattle.std.specs.Prelude.{◌≡◌, ◌-◌, ◌<◌, ◌^◌, ◌++◌, IfOk, OnOk};
ghost use Rattle.cell_units.specs.Folding.{front_pieces, offset_in, rest_pieces};
ghost use Rattle.fold_map.specs.LinePieces.{MayCopy, MayCutOut, cut_piece, hidden_piece};

use cell_units::{NoMemory, Piece, PieceKind, Text};
use std::alloc::Global;

/// U+22EF.
const PLACEHOLDER: &str = "⋯";

/// A line of the lower layer, with the place at which it starts.
#[derive(Drop)]
pub(crate) struct LineBelow {
    pub(crate) number: u32,
    pub(crate) start: u32,
    pub(crate) pieces: Vec<Piece>,
}

impl LineBelow {
    /// The line of this number, which starts at this place and has these pieces.
    pub(crate) fn of(number: u32, start: u32, pieces: Vec<Piece>) -> LineBelow
        ensures number { result.number ≡ number }
        ensures start { result.start ≡ start }
        ensures pieces { result.pieces ≡ pieces }
    {
        LineBelow {
            number,
            start,
            pieces,
        }
    }

    /// Copies what is on the line from one place to another.
    pub(crate) fn copy(
        &self,
        alloc: Global,
        from: u32,
        to: u32,
        pieces: &mut Vec<Piece>,
    ) -> Result<(), NoMemory>
        requires { MayCopy self.now from to }
        ensures { let rest = rest_pieces (from - self.now.start) self.now.pieces.items in
            OnOk result (pieces.new.items ≡ pieces.old.items ++ front_pieces (to - from) rest) }
    {
        let mut begin = self.start;
        for piece in &self.pieces {
            let end = begin + piece.text.as_str().len() as u32;
            let first = from.max(begin);
            let last = to.min(end);
            if first < last {
                pieces.push(cut(alloc, piece, first - begin, last - begin)?)?;
            }
            begin = end;
        }
        Ok(())
    }

    /// These pieces, and after them what is on the line from one place to another.
    pub(crate) fn copied_behind(
        &self,
        alloc: Global,
        from: u32,
        to: u32,
        pieces: Vec<Piece>,
    ) -> Result<Vec<Piece>, NoMemory>
        requires { MayCopy self.now from to }
        ensures { let rest = rest_pieces (from - self.now.start) self.now.pieces.items in
            IfOk result (λ all. all.items ≡ pieces.items ++ front_pieces (to - from) rest) }
    {
        let mut all = pieces;
        self.copy(alloc, from, to, &mut all)?;
        Ok(all)
    }
}

/// A piece from one of its bytes to another.
fn cut(alloc: Global, piece: &Piece, from: u32, to: u32) -> Result<Piece, NoMemory>
    requires { MayCutOut piece.now from to }
    ensures { IfOk result (λ p. p ≡ cut_piece from to piece.now) }
{
    // A piece's offsets are u32s.
    let begin = piece.start;
    let finish = piece.end;
    let text = piece.text.as_str();
    let part = &text[from as usize..to as usize];
    let is_front = (to as usize) < text.len();
    let start = offset_in(piece.kind, begin, from);
    let end = if is_front {
        offset_in(piece.kind, begin, to)
    } else {
        finish
    };
    Ok(Piece {
        kind: piece.kind,
        text: Text::from_str(alloc, part)?,
        start,
        end,
    })
}

/// The offset so many bytes into a piece that starts at an offset: only the buffer's bytes have offsets of their own.
fn offset_in(kind: PieceKind, start: u32, bytes: u32) -> u32
    requires { offset_in kind start bytes < 2 ^ 32 }
    ensures { result ≡ offset_in kind start bytes }
{
    match kind {
        PieceKind::Buffer => start + bytes,
        PieceKind::Inlay(_) => start,
        PieceKind::Placeholder => start,
    }
}

/// The piece of a placeholder.
pub(crate) fn hidden_piece(alloc: Global, start: u32, end: u32) -> Result<Piece, NoMemory>
    ensures { IfOk result (λ p. p ≡ hidden_piece start end) }
{
    Ok(Piece {
        kind: PieceKind::Placeholder,
        text: Text::from_str(alloc, PLACEHOLDER)?,
        start,
        end,
    })
}
