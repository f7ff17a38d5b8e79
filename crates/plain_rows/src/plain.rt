//! A record as plain lists: what a sequence of commands has made of a text.
ghost use Rattle.std.specs.Prelude.{◌≡◌};
ghost use Rattle.plain_rows.specs.FoldedLines.{seen};
ghost use Rattle.plain_rows.specs.Plain.{listed_source};

use crate::folded_lines::PlainSource;
use cell_units::{Bias, Side, Text};

/// A text in the text, shown at its offset.
#[derive(Debug, Drop)]
pub struct PlainInlay {
    pub id: u32,
    /// The byte of the buffer that it is before.
    pub offset: u32,
    pub bias: Bias,
    pub text: Text,
}

/// A range of bytes of the buffer that a placeholder replaces.
#[derive(Clone, Copy, Debug, PartialEq, Eq)]
pub struct PlainFold {
    pub id: u32,
    pub start: u32,
    pub end: u32,
}

/// Lines of their own above or below the row of the buffer that holds an offset.
#[derive(Debug, Drop)]
pub struct PlainBlock {
    pub id: u32,
    pub side: Side,
    pub offset: u32,
    pub lines: Vec<Text>,
}

/// A text with inlays, folds and blocks, a tab size and a width in cells. Of each display line it has the width at
/// which it is wrapped, or 0. It is seen as a record without its stamps (*Records and operations*).
#[derive(Debug, Drop)]
pub struct Plain {
    pub text: Text,
    pub inlays: Vec<PlainInlay>,
    pub folds: Vec<PlainFold>,
    pub blocks: Vec<PlainBlock>,
    pub tab: u32,
    pub width: u32,
    pub marks: Vec<u32>,
}

impl Plain {
    /// What is shown but for the blocks, lent.
    pub(crate) fn source(&self) -> PlainSource<'_>
        ensures { seen result ≡ listed_source self.now.text self.now.inlays.items self.now.folds.items }
    {
        PlainSource {
            text: self.text.as_str(),
            inlays: &self.inlays,
            folds: &self.folds,
        }
    }
}
