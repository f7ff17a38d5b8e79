//! A caret, and what a selection covers.
use cell_units::Spot;

/// A valid spot, and the column at which Up and Down aim.
#[derive(Clone, Copy, Debug, PartialEq, Eq)]
pub struct Caret {
    pub spot: Spot,
    pub goal: u32,
}

/// The columns of a row that a selection covers.
#[derive(Clone, Copy, Debug, PartialEq, Eq)]
pub struct RowSpan {
    pub row: u32,
    pub from: u32,
    pub to: u32,
}

/// The offsets that a selection covers, and the columns of each of its rows.
#[derive(Drop)]
pub struct Selection {
    pub start: u32,
    pub end: u32,
    pub spans: Vec<RowSpan>,
}
