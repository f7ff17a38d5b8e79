//! Changes of a display, and the operations that they are.
ghost use Rattle.std.specs.Prelude.{◌≡◌, All, IfOk};
ghost use Rattle.std.specs.Str.{IsUtf8};
ghost use Rattle.display_sheet.specs.Changes.{operation_of};

use cell_units::{Bias, NoMemory, Side, Text};
use std::alloc::Global;

/// A replacement of the bytes from `start` to `end` by a text.
#[derive(Debug, Drop)]
pub struct Splice {
    pub start: u32,
    pub end: u32,
    pub text: Text,
}

/// One operation on a display. Offsets count bytes of its text, and ids are free for each kind by itself.
#[derive(Debug, Drop)]
pub enum Op {
    /// Replaces a range of the text. CR LF and then each lone CR of what is inserted become LF.
    Replace(Splice),
    /// Shows a text of 1 to 1,024 bytes at an offset. The anchor stays before what is inserted there (Left) or moves
    /// after it (Right).
    Inlay {
        id: u32,
        offset: u32,
        bias: Bias,
        text: Text,
    },
    /// Takes the inlay of this id away.
    Uninlay {
        id: u32,
    },
    /// Hides the bytes from `start` to `end` behind a placeholder.
    Fold {
        id: u32,
        start: u32,
        end: u32,
    },
    /// Takes the fold of this id away.
    Unfold {
        id: u32,
    },
    /// Puts 1 to 256 lines of at most 1,024 bytes above or below a row of the text.
    Block {
        id: u32,
        side: Side,
        row: u32,
        lines: Vec<Text>,
    },
    /// Takes the block of this id away.
    Unblock {
        id: u32,
    },
    /// Sets the tab size, 1 to 16 cells.
    Tab {
        size: u32,
    },
    /// Sets the width at which lines are wrapped, 2 to 10,000 cells, or 0 for off.
    Width {
        cells: u32,
    },
}

/// What a command asks of a display: a batch of replacements, whose ranges are those of the text before all of them,
/// or one operation.
#[derive(Debug, Drop)]
pub enum Change {
    Edit(Vec<Splice>),
    One(Op),
}

impl Splice {
    /// An equal replacement.
    pub fn copy(&self, alloc: Global) -> Result<Splice, NoMemory>
        ensures { IfOk result (λ copy. copy ≡ self.now) }
    {
        Ok(Splice {
            start: self.start,
            end: self.end,
            text: Text::from_str(alloc, self.text.as_str())?,
        })
    }
}

/// Copies of texts, which are UTF-8.
pub fn copied(alloc: Global, texts: &[Text]) -> Result<Vec<Text>, NoMemory>
    ensures same { IfOk result (λ copy. copy.items ≡ texts.now) }
    ensures utf8 { IfOk result (λ copy. All IsUtf8 copy.items) }
{
    let mut copy = Vec::with_capacity(alloc, texts.len())?;
    for text in texts {
        copy.push(Text::from_str(alloc, text.as_str())?)?;
    }
    Ok(copy)
}

impl Op {
    /// An equal operation.
    pub fn copy(&self, alloc: Global) -> Result<Op, NoMemory>
        ensures { IfOk result (λ copy. operation_of copy ≡ operation_of self.now) }
    {
        match self {
            Op::Replace(splice) => Ok(Op::Replace(splice.copy(alloc)?)),
            Op::Inlay {
                id,
                offset,
                bias,
                text,
            } => Ok(Op::Inlay {
                id: *id,
                offset: *offset,
                bias: *bias,
                text: Text::from_str(alloc, text.as_str())?,
            }),
            Op::Uninlay { id } => Ok(Op::Uninlay { id: *id }),
            Op::Fold { id, start, end } => Ok(Op::Fold {
                id: *id,
                start: *start,
                end: *end,
            }),
            Op::Unfold { id } => Ok(Op::Unfold { id: *id }),
            Op::Block {
                id,
                side,
                row,
                lines,
            } => Ok(Op::Block {
                id: *id,
                side: *side,
                row: *row,
                lines: copied(alloc, lines)?,
            }),
            Op::Unblock { id } => Ok(Op::Unblock { id: *id }),
            Op::Tab { size } => Ok(Op::Tab { size: *size }),
            Op::Width { cells } => Ok(Op::Width { cells: *cells }),
        }
    }
}
