//! Where a line is cut, so that its rows fit a width.
ghost use Rattle.std.specs.Prelude.{◌≡◌, ◌^◌, ◌<◌, ◌≤◌, length, IfOk};
ghost use Rattle.cell_line.specs.Elements.{elements_of, total_cells};
ghost use Rattle.cell_line.specs.Lines.{LineFitsU32};
ghost use Rattle.cell_units.specs.Lawful.{IsWidth};
ghost use Rattle.cell_line.specs.Wrapping.{cuts_of, indent_of};

use crate::cutting::cuts_of_walks;
use crate::element::Element;
use crate::mark::{Lead, Walk};
use crate::walk::PieceWalk;
use cell_units::{NoMemory, Piece};
use smallvec::SmallVec;
use std::alloc::Global;

/// The places where a line is cut: the numbers of the elements with which its rows after the first begin.
pub type Cuts = SmallVec<u32, 4>;

/// The cells by which the line's rows after the first are indented at a width in cells. They are those of its leading
/// blanks, where twice these are at most the width and something follows them, and else 0.
pub fn indent(elements: &[Element], width: u32) -> u32
    requires fits { total_cells elements.now < 2 ^ 32 }
    requires lawful { IsWidth width }
    ensures { result ≡ indent_of elements.now width }
{
    Lead::of(Walk::Elements(elements)).indent(width)
}

/// The places where the line is cut (*Cuts*), so that its rows fit the width, which is 2 to 10,000 cells. At width 0
/// there are none.
///
/// A row ends at the last opportunity up to which its cells, but for the blanks at its end, are within the room. Else
/// it ends at the last place up to which all its cells are, else after one element. The room is the width, and on rows
/// after the first the width less the indent.
pub fn cuts(alloc: Global, elements: &[Element], width: u32) -> Result<Cuts, NoMemory>
    requires fits { total_cells elements.now < 2 ^ 32 }
    requires count { length elements.now < 2 ^ 32 }
    requires lawful { IsWidth width }
    ensures { IfOk result (λ cuts. cuts.items ≡ cuts_of elements.now width) }
{
    let lead = Lead::of(Walk::Elements(elements));
    let (first, later) = (Walk::Elements(elements), Walk::Elements(elements));
    cuts_of_walks(alloc, lead, first, later, width)
}

/// The cuts of the line that the pieces make at a tab size of 1 to 16 cells and a width in cells. It walks along them
/// twice, and keeps no text and no element.
pub fn cuts_of_pieces(
    alloc: Global,
    pieces: &[Piece],
    tab: u32,
    width: u32,
) -> Result<Cuts, NoMemory>
    requires size { (1 ≤ tab) × (tab ≤ 16) }
    requires fits { LineFitsU32 (elements_of pieces.now tab) }
    requires lawful { IsWidth width }
    ensures { IfOk result (λ cuts. cuts.items ≡ cuts_of (elements_of pieces.now tab) width) }
{
    let lead = Lead::of(Walk::Pieces(PieceWalk::new(pieces, tab)));
    let first = Walk::Pieces(PieceWalk::new(pieces, tab));
    let later = Walk::Pieces(PieceWalk::new(pieces, tab));
    cuts_of_walks(alloc, lead, first, later, width)
}
