//! Marks and ranges, and their order in a list.
use cell_units::Bias;

/// A mark at an offset of a text. At an insertion at its offset it stays (Left) or goes after what is inserted (Right).
#[derive(Debug, Drop)]
pub struct Mark<P> {
    pub offset: u32,
    pub bias: Bias,
    pub id: u32,
    pub load: P,
}

/// The bytes of a text from `start` to `end`. What is inserted at either end stays outside.
#[derive(Clone, Copy, Debug, PartialEq, Eq)]
pub struct RangeMark {
    pub start: u32,
    pub end: u32,
    pub id: u32,
}

/// Places of a list, counted from 0: those from `from` on before `to`.
#[derive(Clone, Copy, Debug, PartialEq, Eq)]
pub struct Places {
    pub from: u32,
    pub to: u32,
}
