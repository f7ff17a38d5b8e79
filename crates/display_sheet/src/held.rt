//! The display lines of a sheet as a job holds them.
ghost use Rattle.std.specs.Prelude.{◌≡◌, ◌<◌, length, IfOk};
ghost use Rattle.cell_line.specs.Lines.{line_at};
ghost use Rattle.plain_rows.specs.Rows.{line_elements};

use crate::buffer::Buffer;
use crate::piece_line::PieceLine;
use crate::sheet::Sheet;
use cell_line::{Cuts, Element, Lines};
use cell_units::{NoMemory, Text};
use plain_rows::{FoldedLines, PlainFold, PlainInlay, PlainSource};
use std::alloc::Global;
use std::marker::Model;
use std::sync::Arc;

/// The display lines of one moment, shared with the sheet that they come from. They are seen as lists of elements.
pub struct Held {
    text: Arc<Buffer>,
    inlays: Arc<Vec<PlainInlay>>,
    folds: Arc<Vec<PlainFold>>,
    lines: Arc<FoldedLines>,
    tab: u32,
}

impl Drop for Held {
    fn drop(self) {
        let Held {
            text: _,
            inlays: _,
            folds: _,
            lines: _,
            tab: _,
        } = self;
    }
}

impl Model for Held {
    ghost use Rattle.std.specs.Prelude.{List};
    ghost use Rattle.cell_line.specs.declared.element.Element.{Element};

    ghost Value = { List (List Element) };

    ghost use Rattle.display_sheet.specs.HeldLines.{KeepsLines, elements_in};

    ghost view = { elements_in };

    ghost invariant = { KeepsLines };
}

impl Held {
    /// The line of this number.
    fn line(&self, alloc: Global, line: u32) -> Result<PieceLine, NoMemory>
        requires { line < length self.now }
        ensures { IfOk result (λ found. found ≡ line_at self.now line) }
    {
        let source = PlainSource {
            text: self.text.as_str(),
            inlays: self.inlays.as_slice(),
            folds: self.folds.as_slice(),
        };
        PieceLine::new(alloc, &source, &self.lines, self.tab, line)
    }
}

impl Lines for Held {
    ghost elements_by_line = { λ h. h };

    fn lines(&self) -> u32 {
        self.lines.lines()
    }

    fn elements(&self, alloc: Global, line: u32) -> Result<Vec<Element>, NoMemory> {
        self.line(alloc, line)?.elements(alloc)
    }

    fn cuts(&self, alloc: Global, line: u32, width: u32) -> Result<Cuts, NoMemory> {
        self.line(alloc, line)?.cuts(alloc, width)
    }

    fn row_texts(
        &self,
        alloc: Global,
        line: u32,
        width: u32,
        cuts: &Cuts,
        first: u32,
        count: u32,
    ) -> Result<Vec<Text>, NoMemory> {
        let found = self.line(alloc, line)?;
        found.row_texts(alloc, width, cuts, first, count)
    }

    fn share(&self) -> Result<Held, NoMemory> {
        Ok(Held {
            text: Arc::try_clone(&self.text)?,
            inlays: Arc::try_clone(&self.inlays)?,
            folds: Arc::try_clone(&self.folds)?,
            lines: Arc::try_clone(&self.lines)?,
            tab: self.tab,
        })
    }
}

impl Sheet {
    /// The display lines as they are, for a job. It allocates nothing, and fails with `NoMemory` only where the count
    /// of holders is full.
    pub fn held(&self) -> Result<Held, NoMemory>
        ensures { IfOk result (λ held. held ≡ line_elements self.now) }
    {
        Ok(Held {
            text: Arc::try_clone(&self.text)?,
            inlays: Arc::try_clone(&self.inlays)?,
            folds: Arc::try_clone(&self.folds)?,
            lines: Arc::try_clone(&self.lines)?,
            tab: self.tab,
        })
    }
}
