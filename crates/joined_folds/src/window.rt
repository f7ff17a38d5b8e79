//! Where joined folds are made anew.

/// A range of a buffer, from offset `start` to offset `end`, in which joined folds are made anew. The one that reaches
/// over its start begins at `from`, and the one that reaches over its end ends at `to`. Where none does, these are the
/// same offsets.
#[derive(Clone, Copy, Debug, PartialEq, Eq)]
pub struct Window {
    pub from: u32,
    pub start: u32,
    pub end: u32,
    pub to: u32,
}
