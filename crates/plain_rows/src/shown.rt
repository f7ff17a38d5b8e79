//! Rows as a view or a snapshot gives them.
use cell_units::Text;

/// What a row is of.
#[derive(Clone, Copy, Debug, PartialEq, Eq)]
pub enum Kind {
    /// The first text row of a display line.
    Head,
    /// A text row that goes on with its line.
    More,
    /// A row of a block.
    Block,
}

/// A row: its kind, and its text with each tab as spaces and, where it goes on, with the indent's spaces.
#[derive(Debug, Drop)]
pub struct Shown {
    pub kind: Kind,
    pub text: Text,
}
