//! One display line as the pieces that it shows.
ghost use Rattle.std.specs.Prelude.{◌≡◌, ◌<◌, length, take, drop, IfOk};
ghost use Rattle.cell_units.specs.Layers.{shown_lines};
ghost use Rattle.cell_units.specs.Lawful.{IsTab, IsWidth};
ghost use Rattle.cell_line.specs.Lines.{line_at};
ghost use Rattle.cell_line.specs.RowTexts.{row_texts_of};
ghost use Rattle.cell_line.specs.Wrapping.{cuts_of};
ghost use Rattle.plain_rows.specs.FoldedLines.{AreLinesOf, seen};
ghost use Rattle.display_sheet.specs.HeldLines.{shown_elements};

use cell_line::{Cuts, Element, cuts_of_pieces, elements, row_texts_of_pieces};
use cell_units::{NoMemory, Piece, Text};
use plain_rows::{FoldedLines, PlainSource};
use std::alloc::Global;
use std::marker::Model;

/// A display line: the pieces that it shows, and the tab size. It is seen as its elements, which are made only when
/// they are asked for.
pub struct PieceLine {
    pieces: Vec<Piece>,
    tab: u32,
}

impl Drop for PieceLine {
    fn drop(self) {
        let PieceLine { pieces: _, tab: _ } = self;
    }
}

impl Model for PieceLine {
    ghost use Rattle.std.specs.Prelude.{List};
    ghost use Rattle.cell_line.specs.declared.element.Element.{Element};

    ghost Value = { List Element };

    ghost use Rattle.display_sheet.specs.HeldLines.{FitsLine, elements_in_line};

    ghost view = { elements_in_line };

    ghost invariant = { FitsLine };
}

impl PieceLine {
    /// The line of this number out of those that the source shows.
    pub fn new(
        alloc: Global,
        source: &PlainSource,
        lines: &FoldedLines,
        tab: u32,
        line: u32,
    ) -> Result<PieceLine, NoMemory>
        requires tab { IsTab tab }
        requires lines { AreLinesOf (seen source.now) lines.now }
        requires within { line < length (shown_lines (seen source.now)) }
        ensures { IfOk result (λ found.
            found ≡ line_at (shown_elements tab (seen source.now)) line) }
    {
        let pieces = lines.pieces(alloc, source, line)?;
        Ok(PieceLine { pieces, tab })
    }

    /// The elements.
    pub fn elements(&self, alloc: Global) -> Result<Vec<Element>, NoMemory>
        ensures { IfOk result (λ elements. elements.items ≡ self.now) }
    {
        elements(alloc, self.pieces.as_slice(), self.tab)
    }

    /// Where the line is cut at a width.
    pub fn cuts(&self, alloc: Global, width: u32) -> Result<Cuts, NoMemory>
        requires { IsWidth width }
        ensures { IfOk result (λ cuts. cuts.items ≡ cuts_of self.now width) }
    {
        cuts_of_pieces(alloc, self.pieces.as_slice(), self.tab, width)
    }

    /// The texts of the line's rows at a width in cells, at which it is cut so. They are those from the row `first` on,
    /// as many as there are up to `count`.
    pub fn row_texts(
        &self,
        alloc: Global,
        width: u32,
        cuts: &Cuts,
        first: u32,
        count: u32,
    ) -> Result<Vec<Text>, NoMemory>
        requires lawful { IsWidth width }
        requires cut { cuts.now.items ≡ cuts_of self.now width }
        ensures { IfOk result (λ texts.
            texts.items ≡ take count (drop first (row_texts_of self.now width))) }
    {
        row_texts_of_pieces(
            alloc,
            self.pieces.as_slice(),
            self.tab,
            width,
            cuts,
            first,
            count,
        )
    }
}
