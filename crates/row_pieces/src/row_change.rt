//! Rows that make place for others.

/// The rows from `from` up to `to` make place for `count` others. It is nothing where `from` is `to` and `count` is 0.
#[derive(Clone, Copy, Debug, PartialEq, Eq)]
pub struct RowChange {
    pub from: u32,
    pub to: u32,
    pub count: u32,
}
