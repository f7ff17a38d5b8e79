//! One display line by itself: where its bytes are shown among its rows.
ghost use Rattle.std.specs.Prelude.{◌≡◌, ◌<◌, ◌≤◌, ◌+◌, ◌^◌, length, slice_range, IfOk};
ghost use Rattle.cell_units.specs.Lawful.{IsWidth};
ghost use Rattle.cell_units.specs.declared.limits.TheConstants.{WIDTH_LIMIT};
ghost use Rattle.cell_line.specs.Elements.{total_cells};
ghost use Rattle.cell_line.specs.Wrapping.{cuts_of, indent_of};
ghost use Rattle.plain_rows.specs.Spots.{elements_before, is_within, spot_in_line};
ghost use Rattle.plain_rows.specs.inside.SpotRows.{cells_limit};

use cell_line::{Cuts, Element, cuts, indent};
use cell_units::{Bias, NoMemory, Spot};
use std::alloc::Global;

/// How many elements are before a byte of their line. Where it is strictly inside one, Left is before it and Right
/// after it.
fn elements_before(elements: &[Element], byte: u32, bias: Bias) -> usize
    ensures value { result ≡ elements_before elements.now byte bias }
    ensures within { result ≤ length elements.now }
{
    let mut rest = byte as usize;
    for (number, element) in elements.iter().enumerate() {
        if rest == 0 {
            return number;
        }
        let bytes = element.text.as_str().len();
        if rest < bytes {
            return match bias {
                Bias::Left => number,
                Bias::Right => number + 1,
            };
        }
        rest -= bytes;
    }
    elements.len()
}

/// Whether a byte is strictly inside an element of its line.
fn is_within(elements: &[Element], byte: u32) -> bool
    ensures { result ≡ is_within elements.now byte }
{
    let mut rest = byte as usize;
    for element in elements {
        let bytes = element.text.as_str().len();
        if rest == 0 || rest < bytes {
            return rest != 0;
        }
        rest -= bytes;
    }
    false
}

/// The cells of the elements from one place of a line to another.
fn cells_between(elements: &[Element], start: usize, end: usize) -> u32
    requires { total_cells elements.now ≤ cells_limit }
    ensures value { result ≡ total_cells (slice_range elements.now start end) }
    ensures most { result ≤ total_cells elements.now }
{
    let count = end.saturating_sub(start);
    elements
        .iter()
        .skip(start)
        .take(count)
        .map(|e| e.cells)
        .sum()
}

/// The elements of a display line, and the width at which it is wrapped, with where they are cut at that width.
#[derive(Drop)]
pub struct RowLine {
    pub elements: Vec<Element>,
    pub width: u32,
    cuts: Cuts,
    indent: u32,
    ghost cut: { cuts.items ≡ cuts_of elements.items width },
    ghost indented: { indent ≡ indent_of elements.items width },
    ghost few: { total_cells elements.items ≤ cells_limit },
    ghost count: { length cuts.items < 2 ^ 32 },
    ghost narrow: { indent ≤ WIDTH_LIMIT },
}

impl RowLine {
    /// The line of these elements, cut at the width in cells.
    pub fn new(alloc: Global, elements: Vec<Element>, width: u32) -> Result<RowLine, NoMemory>
        requires few { total_cells elements.items ≤ cells_limit }
        requires count { length elements.items < 2 ^ 32 }
        requires width { IsWidth width }
        ensures elements { IfOk result (λ line. line.elements.items ≡ elements.items) }
        ensures width { IfOk result (λ line. line.width ≡ width) }
    {
        let cuts = cuts(alloc, elements.as_slice(), width)?;
        let indent = indent(elements.as_slice(), width);
        Ok(RowLine {
            elements,
            width,
            cuts,
            indent,
        })
    }

    /// Where a byte of the line is shown: the row is counted from the line's first one.
    pub(crate) fn spot(&self, byte: u32, bias: Bias) -> Spot
        ensures { result ≡ spot_in_line self.now.elements.items self.now.width
            (elements_before self.now.elements.items byte bias) }
    {
        let place = elements_before(self.elements.as_slice(), byte, bias);
        let cuts = self.cuts.as_slice();
        let row = cuts.iter().filter(|cut| **cut as usize <= place).count();
        let (start, indent) = if row == 0 {
            (0, 0)
        } else {
            (cuts[row - 1] as usize, self.indent)
        };
        Spot {
            row: row as u32,
            col: indent + cells_between(self.elements.as_slice(), start, place),
        }
    }

    /// The elements of a row of the line, from the first to the one after the last, and the cells before them.
    fn row_elements(&self, row: u32) -> (usize, usize, u32) {
        let cuts = self.cuts.as_slice();
        let row = (row as usize).min(cuts.len());
        let end = if row < cuts.len() {
            cuts[row] as usize
        } else {
            self.elements.len()
        };
        if row == 0 {
            (0, end, 0)
        } else {
            (cuts[row - 1] as usize, end, self.indent)
        }
    }

    /// About how many bytes of the line are before a spot, whose row is counted from the line's first one: those of the
    /// elements that end at or before it. A search begins there.
    pub(crate) fn bytes_upto(&self, spot: Spot) -> u32 {
        let (start, end, indent) = self.row_elements(spot.row);
        let mut left = spot.col.saturating_sub(indent);
        let mut bytes: usize = 0;
        for (number, element) in self.elements.iter().enumerate() {
            if number >= end || (number >= start && element.cells > left) {
                break;
            }
            if number >= start {
                left -= element.cells;
            }
            bytes = bytes.saturating_add(element.text.as_str().len());
        }
        bytes.min(u32::MAX as usize) as u32
    }

    /// Whether a byte is strictly inside an element of the line.
    pub(crate) fn is_within(&self, byte: u32) -> bool
        ensures { result ≡ is_within self.now.elements.items byte }
    {
        is_within(self.elements.as_slice(), byte)
    }
}
