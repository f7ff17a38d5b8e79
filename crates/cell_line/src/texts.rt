//! The texts of a line's rows.
ghost use Rattle.std.specs.Prelude.{◌≡◌, ◌-◌, ◌^◌, ◌≤◌, ◌<◌, ◌∷◌, ◌++◌, ◌==◌, drop, length, nat_lt, replicate, slice_index, string_bytes, take, if◌then◌else◌, IfOk, OnOk};
ghost use Rattle.cell_line.specs.Elements.{elements_of};
ghost use Rattle.cell_line.specs.Lines.{LineFitsU32};
ghost use Rattle.cell_line.specs.RowTexts.{later_text, row_texts_of, shown_element};
ghost use Rattle.cell_units.specs.Lawful.{IsWidth};
ghost use Rattle.cell_line.specs.Wrapping.{cuts_of};
ghost use Rattle.cell_line.specs.inside.Marks.{left_of, IsLead};

use crate::cutting::skip;
use crate::mark::{Lead, Walk};
use crate::walk::{Lent, PieceWalk};
use crate::wrapping::Cuts;
use cell_units::{NoMemory, Piece, Text};
use std::alloc::Global;

/// Appends spaces.
fn push_spaces(text: &mut String, count: u32) -> Result<(), NoMemory>
    ensures { OnOk result (string_bytes text.new ≡ string_bytes text.old ++ replicate count 32) }
{
    for _ in 0..count {
        text.push(' ')?;
    }
    Ok(())
}

/// Appends an element as it is shown: a tab as spaces.
fn push_element(text: &mut String, element: &Lent) -> Result<(), NoMemory>
    ensures { OnOk result (string_bytes text.new ≡ string_bytes text.old ++ shown_element element.now) }
{
    if element.is_tab() {
        push_spaces(text, element.cells())
    } else {
        text.push_str(element.text())?;
        Ok(())
    }
}

/// The text of a row of at most so many elements, over which the walk passes, after the indent's spaces.
fn row_text(alloc: Global, walk: &mut Walk, indent: u32, most: u32) -> Result<Text, NoMemory>
    ensures text { IfOk result (λ text. text ≡ later_text indent (take most (left_of walk.old))) }
    ensures left { OnOk result (left_of walk.new ≡ drop most (left_of walk.old)) }
{
    let mut text = String::new(alloc);
    push_spaces(&mut text, indent)?;
    for _ in 0..most {
        let Some(element) = walk.next() else {
            break;
        };
        push_element(&mut text, &element)?;
    }
    Text::from_str(alloc, text.as_str())
}

/// The number of the element with which a row begins.
fn row_start(cuts: &[u32], row: usize) -> u32
    requires { row ≤ length cuts.now }
    ensures { result ≡ slice_index (0 ∷ cuts.now) row }
{
    if row == 0 { 0 } else { cuts[row - 1] }
}

/// The spaces with which a row begins: the line's first has none.
fn row_indent(indent: u32, row: usize) -> u32
    ensures { result ≡ (if row == 0 then 0 else indent) }
{
    if row == 0 { 0 } else { indent }
}

/// How many elements a row has; for the last row a number that no line reaches.
fn row_len(cuts: &[u32], row: usize) -> u32
    requires row { row ≤ length cuts.now }
    requires in_order { row < length cuts.now → slice_index (0 ∷ cuts.now) row ≤ slice_index cuts.now row }
    ensures { result ≡ (if nat_lt row (length cuts.now) then slice_index cuts.now row - slice_index (0 ∷ cuts.now) row else 2 ^ 32 - 1) }
{
    if row < cuts.len() {
        cuts[row] - row_start(cuts, row)
    } else {
        u32::MAX
    }
}

/// The texts of rows of a line that is to be walked and that these blanks lead. They are those from the row `first` on,
/// as many as there are up to `count`.
pub(crate) fn row_texts_of_walk(
    alloc: Global,
    lead: Lead,
    mut walk: Walk,
    width: u32,
    cuts: &[u32],
    first: u32,
    count: u32,
) -> Result<Vec<Text>, NoMemory>
    // A walk along a line that these blanks lead, whose count of elements and cells fit u32.
    requires fits { LineFitsU32 (left_of walk) }
    requires lead { IsLead (left_of walk) lead }

    // Its cuts at a lawful width.
    requires lawful { IsWidth width }
    requires cut { cuts.now ≡ cuts_of (left_of walk) width }

    // The texts of its rows from the row `first` on, up to `count` of them.
    ensures { IfOk result (λ texts. texts.items ≡ take count (drop first (row_texts_of (left_of walk.entry) width))) }
{
    let mut texts = Vec::new(alloc);
    let first = first as usize;
    let rows = cuts.len() + 1;
    if rows <= first {
        return Ok(texts);
    }
    let last = first + (count as usize).min(rows - first);
    let indent = lead.indent(width);
    skip(&mut walk, row_start(cuts, first));
    for row in first..last {
        let text = row_text(
            alloc,
            &mut walk,
            row_indent(indent, row),
            row_len(cuts, row),
        )?;
        texts.push(text)?;
    }
    Ok(texts)
}

/// The texts of rows of the line that the pieces make, at a tab size of 1 to 16 cells and a width in cells. They are
/// those from the row `first` on, as many as there are up to `count`. The cuts are those of the line at that width
/// (*Row texts*). It walks the line once, up to the last of these rows.
pub fn row_texts_of_pieces(
    alloc: Global,
    pieces: &[Piece],
    tab: u32,
    width: u32,
    cuts: &Cuts,
    first: u32,
    count: u32,
) -> Result<Vec<Text>, NoMemory>
    // A tab size of 1 to 16, at which the line's count of elements and its cells fit u32.
    requires size { (1 ≤ tab) × (tab ≤ 16) }
    requires fits { LineFitsU32 (elements_of pieces.now tab) }

    // Its cuts at a lawful width.
    requires lawful { IsWidth width }
    requires cut { cuts.now.items ≡ cuts_of (elements_of pieces.now tab) width }

    // The texts of its rows from the row `first` on, up to `count` of them.
    ensures { IfOk result (λ texts. texts.items ≡ take count (drop first (row_texts_of (elements_of pieces.now tab) width))) }
{
    let lead = Lead::of(Walk::Pieces(PieceWalk::new(pieces, tab)));
    let walk = Walk::Pieces(PieceWalk::new(pieces, tab));
    row_texts_of_walk(alloc, lead, walk, width, cuts.as_slice(), first, count)
}
