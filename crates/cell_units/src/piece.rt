//! The pieces of a display line.
use crate::text::Text;

/// Where a piece comes from.
#[derive(Clone, Copy, Debug, PartialEq, Eq)]
pub enum PieceKind {
    Buffer,
    /// An inlay, by its id.
    Inlay(u32),
    Placeholder,
}

/// A part of a display line, with the buffer offsets that it covers. They are equal for an inlay.
#[derive(Debug, Drop)]
pub struct Piece {
    pub kind: PieceKind,
    pub text: Text,
    pub start: u32,
    pub end: u32,
}
