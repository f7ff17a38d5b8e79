//! The pieces of a row.
use cell_units::Text;

/// What a piece of a row comes from.
#[derive(Clone, Copy, Debug, PartialEq, Eq)]
pub enum RowPieceKind {
    /// Bytes of the buffer without a tab.
    Text,
    /// One tab of the buffer.
    Tab,
    /// A part of the text of the inlay of this id.
    Inlay(u32),
    /// The placeholder of a joined fold.
    Placeholder,
    /// A line of the block of this id.
    Block(u32),
    /// The spaces before a row that goes on with its line.
    Indent,
}

/// A part of a row: its text as it is printed, the cells that it takes, and the buffer offsets from its start to its
/// end, in bytes.
///
/// Tabs are printed as spaces, but in a line of a block, which is as it was given. The offsets are equal for an inlay,
/// for a block, and for an indent, whose offset is that of the piece after it. Those of a placeholder are the joined
/// fold's.
#[derive(Debug, Drop)]
pub struct RowPiece {
    pub kind: RowPieceKind,
    pub text: Text,
    pub cells: u32,
    pub start: u32,
    pub end: u32,
}
