//! The lines of one layer at one tab size.
ghost use Rattle.cell_line.specs.Lines.{FitsU32};
ghost use Rattle.cell_units.specs.Lawful.{IsTab};
ghost use Rattle.tab_map.specs.TabLines.{lines_at};

use cell_line::{Cuts, Element, Lines, cuts_of_pieces, elements, row_texts_of_pieces};
use cell_units::{Layer, NoMemory, Text};
use std::alloc::Global;
use std::marker::Model;

/// The lines of a layer at a tab size. They are seen as the list of their elements.
pub struct TabSnapshot<L: Layer> {
    pub(crate) layer: L,
    pub(crate) tab: u32,
}

impl<L: Layer> Drop for TabSnapshot<L> {
    fn drop(self) {
        let TabSnapshot { layer: _, tab: _ } = self;
    }
}

impl<L: Layer> Model for TabSnapshot<L> {
    ghost use Rattle.std.specs.Prelude.{List};
    ghost use Rattle.cell_line.specs.declared.element.Element.{Element};
    ghost use Rattle.cell_line.specs.Lines.{FitsU32};
    ghost use Rattle.cell_units.specs.Lawful.{IsTab};
    ghost use Rattle.tab_map.specs.TabLines.{lines_at};

    ghost Value = { List (List Element) };

    ghost view = { λ s. lines_at (L.source s.layer) s.tab };

    ghost invariant = { λ s. IsTab s.tab × FitsU32 (lines_at (L.source s.layer) s.tab) };
}

impl<L: Layer> Lines for TabSnapshot<L> {
    ghost elements_by_line = { λ lines. lines };

    fn lines(&self) -> u32 {
        self.layer.lines()
    }

    fn elements(&self, alloc: Global, line: u32) -> Result<Vec<Element>, NoMemory> {
        let pieces = self.layer.pieces(alloc, line)?;
        elements(alloc, pieces.as_slice(), self.tab)
    }

    fn cuts(&self, alloc: Global, line: u32, width: u32) -> Result<Cuts, NoMemory> {
        let pieces = self.layer.pieces(alloc, line)?;
        cuts_of_pieces(alloc, pieces.as_slice(), self.tab, width)
    }

    fn row_texts(
        &self,
        alloc: Global,
        line: u32,
        width: u32,
        cuts: &Cuts,
        first: u32,
        count: u32,
    ) -> Result<Vec<Text>, NoMemory> {
        let pieces = self.layer.pieces(alloc, line)?;
        row_texts_of_pieces(
            alloc,
            pieces.as_slice(),
            self.tab,
            width,
            cuts,
            first,
            count,
        )
    }

    fn share(&self) -> Result<TabSnapshot<L>, NoMemory> {
        Ok(TabSnapshot {
            layer: self.layer.share()?,
            tab: self.tab,
        })
    }
}
