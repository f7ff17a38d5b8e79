//! Places in a text and on the display.
ghost use Rattle.std.specs.Prelude.{◌≤◌};

/// To which side of what is inserted at its place an anchor stays.
#[derive(Clone, Copy, Debug, PartialEq, Eq)]
pub enum Bias {
    Left,
    Right,
}

/// A row of a text, and a column of bytes in it.
#[derive(Clone, Copy, Debug, PartialEq, Eq, PartialOrd, Ord)]
pub struct Point {
    pub row: u32,
    pub column: u32,
}

/// A row of the display, and a column of cells in it. Spots are ordered by row, then column.
#[derive(Clone, Copy, Debug, PartialEq, Eq, PartialOrd, Ord)]
pub struct Spot {
    pub row: u32,
    pub col: u32,
}

/// On which side of its line a block is.
#[derive(Clone, Copy, Debug, PartialEq, Eq)]
pub enum Side {
    Above,
    Below,
}

/// How a caret moves.
#[derive(Clone, Copy, Debug, PartialEq, Eq)]
pub enum Motion {
    Left,
    Right,
    Up,
    Down,
    Start,
    End,
}

/// One replacement, of bytes, places, lines or rows: `count` of them take the place of those from `start` to `end`.
#[derive(Clone, Copy, Debug, PartialEq, Eq)]
pub struct Shift {
    pub start: u32,
    pub end: u32,
    pub count: u32,
    ghost ordered: { start ≤ end },
}

impl Shift {
    ghost use Rattle.std.specs.Prelude.{◌≡◌};

    /// The replacement of what lies from `start` to `end` by `count` others.
    pub fn new(start: u32, end: u32, count: u32) -> Shift
        requires { start ≤ end }
        ensures start { result.start ≡ start }
        ensures end { result.end ≡ end }
        ensures count { result.count ≡ count }
    {
        Shift { start, end, count }
    }
}
