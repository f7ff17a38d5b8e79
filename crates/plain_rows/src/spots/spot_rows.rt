//! What looking up offsets and spots asks of a record's display lines.
ghost use Rattle.std.specs.Prelude.{◌≡◌, ◌≤◌, ◌<◌, length, IfOk};
ghost use Rattle.cell_units.specs.declared.limits.TheConstants.{LAID_LIMIT};
ghost use Rattle.cell_units.specs.Folded.{line_of, place_in_line};
ghost use Rattle.cell_units.specs.Lawful.{IsLawful};
ghost use Rattle.cell_units.specs.Record.{Record};
ghost use Rattle.cell_units.specs.Text.{IsBoundary, is_boundary};
ghost use Rattle.plain_rows.specs.SpotRows.{IsFoldAround, IsLastBegun};
ghost use Rattle.plain_rows.specs.Spots.{elements_at, mark_at, rows_before};

use super::row_line::RowLine;
use crate::folded_lines::Joined;
use cell_units::{Bias, NoMemory, Steps};
use std::alloc::Global;

/// The display lines of a record with the rows before them, in which offsets and spots are looked up.
pub trait SpotRows {
    // The record.
    ghost kept: { Self → Record };

    /// How many bytes the text has. The record is lawful, and its text at most twice as long as a text may be.
    fn text_len(&self) -> u32
        ensures value { result ≡ length (kept self.now).text }
        ensures lawful { IsLawful (kept self.now) }
        ensures short { length (kept self.now).text ≤ LAID_LIMIT };

    /// Whether an offset is a boundary of the text.
    fn is_boundary(&self, offset: u32, steps: &mut Steps) -> bool
        ensures test { result ≡ is_boundary (kept self.now).text offset }
        ensures counted { steps.old ≤ steps.new };

    /// The display line of a boundary, and how many bytes of that line are before it.
    fn place(&self, offset: u32, bias: Bias, steps: &mut Steps) -> (u32, u32)
        requires { IsBoundary (kept self.now).text offset }
        ensures line { let r = kept self.now in
            result.0 ≡ line_of r.text r.inlays r.folds offset bias }
        ensures byte { let r = kept self.now in
            result.1 ≡ place_in_line r.text r.inlays r.folds offset bias }
        ensures counted { steps.old ≤ steps.new };

    /// The joined fold that a boundary is strictly inside of.
    fn fold_around(&self, offset: u32, steps: &mut Steps) -> Option<Joined>
        requires { IsBoundary (kept self.now).text offset }
        ensures around { IsFoldAround (kept self.now).folds offset result }
        ensures counted { steps.old ≤ steps.new };

    /// A display line, cut at its own width.
    fn row_line(&self, alloc: Global, line: u32, steps: &mut Steps) -> Result<RowLine, NoMemory>
        requires { line < length (kept self.now).marks }
        ensures elements { IfOk result (λ found.
            found.elements.items ≡ elements_at (kept self.now) line) }
        ensures width { IfOk result (λ found. found.width ≡ (mark_at (kept self.now) line).width) }
        ensures counted { steps.old ≤ steps.new };

    /// Two offsets in bytes between which those mostly lie that are shown just after so many bytes of a line. A search
    /// looks there first. Any offsets are right here, and good ones save steps.
    fn near(&self, line: u32, byte: u32, steps: &mut Steps) -> (u32, u32)
        requires { line < length (kept self.now).marks }
        ensures counted { steps.old ≤ steps.new };

    /// How many rows are before the text rows of a line.
    fn first_row(&self, line: u32, steps: &mut Steps) -> u32
        requires { line < length (kept self.now).marks }
        ensures rows { result ≡ rows_before (kept self.now) line }
        ensures counted { steps.old ≤ steps.new };

    /// The last line whose text rows begin at or before a row, or the first line.
    fn line_of_row(&self, row: u32, steps: &mut Steps) -> u32
        ensures line { IsLastBegun (kept self.now) row result }
        ensures counted { steps.old ≤ steps.new };
}
