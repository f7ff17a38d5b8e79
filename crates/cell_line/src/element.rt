//! The elements of a display line: grapheme clusters with their cells.
ghost use Rattle.std.specs.Prelude.{◌≡◌, ◌+◌, ◌-◌, ◌%◌, ◌^◌, ◌<◌, ◌≤◌, IfOk};
ghost use Rattle.cell_line.specs.Elements.{tab_cells_of, cells_of, elements_of, total_cells};

use crate::walk::PieceWalk;
use cell_units::{NoMemory, Piece, Text};
use std::alloc::Global;
use unicode_width::UnicodeWidthStr;

/// An extended grapheme cluster of a display line, with how many cells it takes there, and whether it is a tab.
#[derive(Debug, Drop)]
pub struct Element {
    pub text: Text,
    pub cells: u32,
    pub tab: bool,
}

/// A tab that so many cells precede, or more, takes one cell.
const TAB_COLUMNS: u32 = 256;

/// The cells of a tab that `column` cells of its line precede.
pub(crate) fn tab_cells(tab: u32, column: u32) -> u32
    requires { 0 < tab }
    ensures { result ≡ tab_cells_of tab column }
{
    if column < TAB_COLUMNS {
        tab - column % tab
    } else {
        1
    }
}

/// The cells of a cluster that `column` cells of its line precede.
pub(crate) fn cells(cluster: &str, tab: u32, column: u32) -> u32
    requires size { 0 < tab }
    requires fits { cells_of tab column cluster.now < 2 ^ 32 }
    ensures { result ≡ cells_of tab column cluster.now }
{
    if cluster == "\t" {
        tab_cells(tab, column)
    } else {
        cluster.width() as u32
    }
}

/// The elements of the display line that the pieces make, at a tab size of 1 to 16 cells (*Elements*).
///
/// They are the extended grapheme clusters of each piece in turn, so none crosses a piece's edge. A tab after `c` cells
/// of the line goes to the next multiple of the tab size where `c < 256`. From there on it takes one cell. Every other
/// cluster takes the cells that `unicode_width` gives for its text. The cells of the whole line fit u32.
pub fn elements(alloc: Global, pieces: &[Piece], tab: u32) -> Result<Vec<Element>, NoMemory>
    requires size { (1 ≤ tab) × (tab ≤ 16) }
    requires fits { total_cells (elements_of pieces.now tab) < 2 ^ 32 }
    ensures { IfOk result (λ elements. elements.items ≡ elements_of pieces.now tab) }
{
    let mut elements = Vec::new(alloc);
    let mut walk = PieceWalk::new(pieces, tab);
    'line: while let Some(lent) = walk.next() {
        elements.push(Element {
            text: Text::from_str(alloc, lent.text())?,
            cells: lent.cells(),
            tab: lent.is_tab(),
        })?;
    }
    Ok(elements)
}
