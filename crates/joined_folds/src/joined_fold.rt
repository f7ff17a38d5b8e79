//! One joined fold: the range that folds which overlap hide together.

/// The bytes of a buffer, from offset `start` to offset `end`, in whose place one placeholder is shown.
#[derive(Clone, Copy, Debug, PartialEq, Eq)]
pub struct JoinedFold {
    pub start: u32,
    pub end: u32,
}
