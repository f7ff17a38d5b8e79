//! What a line of a script asks: a change, a query, a question about a caret, or to settle.
use cell_units::{Bias, Motion, Spot};
use display_map::Change;

/// The form of a script, in which its lines are read.
#[derive(Clone, Copy, Debug, PartialEq, Eq)]
pub enum Form {
    /// Places of the text are offsets.
    First,
    /// They may also be points, `[row, column, bias]`. The column counts bytes.
    Second,
}

/// A question, which changes nothing. Offsets count bytes of the text.
#[derive(Clone, Copy, Debug)]
pub enum Query {
    /// The rows from number `first` on, as many as there are up to `count`.
    Rows { first: u32, count: u32 },
    /// The same as they are now, after the number of the newest version and the marks.
    Peek { first: u32, count: u32 },
    /// Where an offset is shown.
    Show { offset: u32, bias: Bias },
    /// Which offset the nearest valid spot shows: the least for Left, the greatest for Right.
    Back { spot: Spot, bias: Bias },
    /// The nearest valid spot, on the side of the bias.
    Clip { spot: Spot, bias: Bias },
}

/// A question about a caret or a selection, which changes nothing. Rows and columns are those of the display, in cells.
#[derive(Clone, Copy, Debug)]
pub enum CaretQuery {
    /// Where a motion takes the caret from a spot. The goal is the column at which Up and Down aim.
    Move {
        from: Spot,
        goal: u32,
        motion: Motion,
    },
    /// What a selection between two spots covers.
    Select {
        one: Spot,
        other: Spot,
    },
}

/// What a line asks: a change, a question, or only that every display line is wrapped at the width.
#[derive(Debug, Drop)]
pub enum Asked {
    Change(Change),
    Query(Query),
    Caret(CaretQuery),
    Settle,
}
