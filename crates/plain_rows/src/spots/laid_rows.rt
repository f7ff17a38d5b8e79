//! A record laid out in display lines, in which offsets and spots are looked up.
ghost use Rattle.std.specs.Prelude.{◌≡◌, ◌≤◌, ◌<◌, ℕ, length, slice_index};
ghost use Rattle.std.specs.List.Sorted.{IsNonDecreasingBy};

use super::row_line::RowLine;
use super::spot_rows::SpotRows;
use crate::folded_lines::{FoldedLines, Joined, PlainSource};
use crate::plain::PlainBlock;
use cell_line::{elements, line_laws};
use cell_units::{Bias, NoMemory, Steps};
use std::alloc::Global;
use std::marker::Model;

/// The display lines of a record, lent: its text with inlays, folds and blocks, the tab size and the width. Of each
/// line it has the width at which it is wrapped, and how many rows are before its text rows. It is seen as the record.
#[derive(Drop)]
pub struct LaidRows<'a> {
    pub source: PlainSource<'a>,
    pub blocks: &'a [PlainBlock],
    pub tab: u32,
    pub width: u32,
    pub lines: &'a FoldedLines,
    pub widths: &'a [u32],
    pub first_rows: &'a [u32],
}

impl<'a> Model for LaidRows<'a> {
    ghost use Rattle.cell_units.specs.Record.{Record};

    ghost Value = { Record };

    ghost use Rattle.plain_rows.specs.inside.LaidRows.{KeepsRows, record_in};

    ghost view = { record_in };

    ghost invariant = { KeepsRows };
}

/// The last line whose rows begin at or before the row, or the first line.
fn line_of_row(first_rows: &[u32], row: u32) -> usize
    requires rising { IsNonDecreasingBy (λ (first : ℕ). first) first_rows.now }
    requires some { 0 < length first_rows.now }
    ensures within { result < length first_rows.now }
    ensures begins { 0 < result → slice_index first_rows.now result ≤ row }
    ensures ends { (line : ℕ) → result < line → line < length first_rows.now →
        row < slice_index first_rows.now line }
{
    let begun = first_rows.partition_point(|first| *first <= row);
    begun.saturating_sub(1)
}

impl SpotRows for LaidRows<'_> {
    ghost kept = { λ r. r };

    fn text_len(&self) -> u32 {
        self.source.text.len() as u32
    }

    fn is_boundary(&self, offset: u32, _steps: &mut Steps) -> bool {
        self.source.text.is_char_boundary(offset as usize)
    }

    fn place(&self, offset: u32, bias: Bias, _steps: &mut Steps) -> (u32, u32) {
        let line = self.lines.line_of(offset, bias);
        (line, self.lines.place_in_line(offset, bias))
    }

    fn fold_around(&self, offset: u32, _steps: &mut Steps) -> Option<Joined> {
        self.lines.fold_around(offset)
    }

    fn row_line(&self, alloc: Global, line: u32, _steps: &mut Steps) -> Result<RowLine, NoMemory> {
        let pieces = self.lines.pieces(alloc, &self.source, line)?;
        // For the proof: the cells of a line of so few bytes fit u32.
        line_laws();
        let elements = elements(alloc, &pieces, self.tab)?;
        RowLine::new(alloc, elements, self.widths[line as usize])
    }

    fn near(&self, _line: u32, _byte: u32, _steps: &mut Steps) -> (u32, u32) {
        (0, self.source.text.len() as u32)
    }

    fn first_row(&self, line: u32, _steps: &mut Steps) -> u32 {
        self.first_rows[line as usize]
    }

    fn line_of_row(&self, row: u32, _steps: &mut Steps) -> u32 {
        line_of_row(self.first_rows, row) as u32
    }
}
