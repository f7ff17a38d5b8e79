//! Lines of elements, and runs of them.
ghost use Rattle.std.specs.Prelude.{◌≡◌, ◌<◌, ◌^◌, List, length, drop, take, IfOk};
ghost use Rattle.cell_line.specs.declared.element.Element.{Element};
ghost use Rattle.cell_line.specs.Elements.{total_cells};
ghost use Rattle.cell_line.specs.Lines.{line_at, LineFitsU32};
ghost use Rattle.cell_line.specs.RowTexts.{row_texts_of};
ghost use Rattle.cell_units.specs.Lawful.{IsWidth};
ghost use Rattle.cell_line.specs.Wrapping.{cuts_of};

use crate::element::Element;
use crate::mark::{Lead, Walk};
use crate::texts::row_texts_of_walk;
use crate::wrapping::{Cuts, cuts};
use cell_units::{NoMemory, Text};
use std::alloc::Global;

/// Consecutive lines: `count` of them, from the line `first` on.
#[derive(Clone, Copy, Debug, PartialEq, Eq)]
pub struct Run {
    pub first: u32,
    pub count: u32,
}

/// The lines from `first` to `last`, which are wrapped at `width` cells, as those right before and right after them
/// aren't.
#[derive(Clone, Copy, Debug, PartialEq, Eq)]
pub struct MarkRun {
    pub first: u32,
    pub last: u32,
    pub width: u32,
}

/// A list of lines, each a list of elements.
pub trait Lines: Drop + Send + Sync {
    // The elements of each line in order.
    ghost elements_by_line: { Self → List (List Element) };

    /// How many lines there are.
    fn lines(&self) -> u32
        ensures { result ≡ length (elements_by_line self.now) };

    /// The elements of the line of this number, which is counted from 0.
    fn elements(&self, alloc: Global, line: u32) -> Result<Vec<Element>, NoMemory>
        requires { line < length (elements_by_line self.now) }
        ensures { IfOk result (λ elements. elements.items ≡ line_at (elements_by_line self.now) line) };

    /// Where the line of this number, counted from 0, is cut at a width in cells (*Cuts*).
    fn cuts(&self, alloc: Global, line: u32, width: u32) -> Result<Cuts, NoMemory>
        requires within { line < length (elements_by_line self.now) }
        requires fits { LineFitsU32 (line_at (elements_by_line self.now) line) }
        requires lawful { IsWidth width }
        ensures { IfOk result (λ cuts. cuts.items ≡ cuts_of (line_at (elements_by_line self.now) line) width) }
    {
        let elements = self.elements(alloc, line)?;
        let cuts = cuts(alloc, elements.as_slice(), width)?;
        Ok(cuts)
    }

    /// The texts of the line's rows at a width in cells (*Row texts*). They are those from the row `first` on, as many
    /// as there are up to `count`. The cuts are those of the line at that width. A tab is as many spaces as it has
    /// cells, and each row after the line's first begins with the indent's spaces.
    fn row_texts(
        &self,
        alloc: Global,
        line: u32,
        width: u32,
        cuts: &Cuts,
        first: u32,
        count: u32,
    ) -> Result<Vec<Text>, NoMemory>
        // There is a line of this number, and its count of elements and its cells fit u32.
        requires within { line < length (elements_by_line self.now) }
        requires fits { LineFitsU32 (line_at (elements_by_line self.now) line) }

        // Its cuts at a lawful width.
        requires lawful { IsWidth width }
        requires cut { cuts.now.items ≡ cuts_of (line_at (elements_by_line self.now) line) width }

        // The texts of its rows from the row `first` on, up to `count` of them.
        ensures { IfOk result (λ texts. texts.items ≡ take count (drop first (row_texts_of (line_at (elements_by_line self.now) line) width))) }
    {
        let elements = self.elements(alloc, line)?;
        let lead = Lead::of(Walk::Elements(elements.as_slice()));
        let walk = Walk::Elements(elements.as_slice());
        row_texts_of_walk(alloc, lead, walk, width, cuts.as_slice(), first, count)
    }

    /// An equal list of lines, which no later change of this one reaches. It allocates nothing, and fails with
    /// `NoMemory` only where the count of holders is full.
    fn share(&self) -> Result<Self, NoMemory>
        ensures { IfOk result (λ shared. elements_by_line shared ≡ elements_by_line self.now) };
}
