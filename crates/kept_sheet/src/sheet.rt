//! What a display asks of the record that it keeps.
ghost use Rattle.std.specs.Prelude.{◌≡◌, ℕ, ◌<◌, ◌≤◌, false, None, length, take, drop, slice_get, slice_range, IfOk, IfErr, OnOk, MatchResult};
ghost use Rattle.cell_units.specs.Lawful.{IsAllowed, IsLawful};
ghost use Rattle.cell_units.specs.Operation.{operated};
ghost use Rattle.cell_units.specs.Points.{offset_at};
ghost use Rattle.cell_units.specs.Record.{Record, opened};
ghost use Rattle.cell_units.specs.Refusal.{IsAccepted, IsTextRefused};
ghost use Rattle.cell_units.specs.Text.{IsBoundary, clean, is_boundary};
ghost use Rattle.cell_units.specs.declared.limits.TheConstants.{LAID_LIMIT};
ghost use Rattle.plain_rows.specs.Plain.{record_of};
ghost use Rattle.plain_rows.specs.Reach.{LandsAtMost, WorksAtMost};
ghost use Rattle.plain_rows.specs.Rows.{line_elements, rows_of};
ghost use Rattle.plain_rows.specs.Spots.{back, clip, show};
ghost use Rattle.display_sheet.specs.Changes.{is_replacement, operation_of, operation_refusal, replacement};
ghost use Rattle.display_sheet.specs.Faults.{IsRefusedAs};
ghost use Rattle.display_sheet.specs.Landing.{lists_of, with_landed_lines};
ghost use Rattle.display_sheet.specs.Sheets.{IsOperated};
ghost use Rattle.display_sheet.specs.Shown.{mark_runs, unstamped};
ghost use Rattle.plain_rows.specs.ShownRows.{shown_row, shown_rows};
ghost use Rattle.kept_sheet.specs.Bounds.{LooksAtMost, ReplacesAtMost};
ghost use Rattle.kept_sheet.specs.Kept.{AreLinesAt, IsRising, all_at_width, cuts_in, lines_in, placed_lines, standing, widths_of};
ghost use Rattle.cell_line.specs.Waiting.{AreApart, IsNextIfAny, waits};

use cell_line::{Cuts, Lines, Run};
use cell_units::{Bias, Fault, NoMemory, Point, Spot, Steps, Text, TextFault};
use display_sheet::{LineSplice, MarkRun, Op, Shown, Splice};
use plain_rows::Plain;
use std::alloc::Global;

/// A record as a display keeps it. It is seen as that record, in which the stamps count the lines. No call but those
/// that give a sheet makes one, and none changes one.
///
/// Steps are those that a call counts on the counter that it is handed: nodes of trees that it opens or makes. What a
/// call does beside them isn't bounded.
pub trait Sheet: Drop {
    // The record, without its stamps.
    ghost kept: { Self → Record };

    /// The record of a text that was just opened, in which each CR LF and then each lone CR is a LF. `TooLong` where
    /// there are more than 33,554,432 bytes. Else `NotUtf8` where they aren't UTF-8, with the length in bytes of the
    /// longest prefix that is.
    fn opened(alloc: Global, bytes: &[u8], steps: &mut Steps) -> Result<Self, TextFault>
        ensures cases { MatchResult result
            (λ sheet. kept sheet ≡ unstamped (opened (clean bytes.now))) (IsTextRefused bytes.now) }
        ensures accepted { OnOk result (IsAccepted bytes.now) }
        ensures counted { steps.old ≤ steps.new };

    /// An equal record, which no later change reaches. It allocates nothing, and fails with `NoMemory` only where the
    /// count of holders is full.
    fn share(&self) -> Result<Self, NoMemory>
        ensures { IfOk result (λ sheet. kept sheet ≡ kept self.now) };

    /// How many display lines there are. The record is lawful, and its text at most twice as long as a text may be.
    fn lines(&self) -> u32
        ensures value { result ≡ length (kept self.now).marks }
        ensures lawful { IsLawful (kept self.now) }
        ensures short { length (kept self.now).text ≤ LAID_LIMIT };

    /// How many bytes the text has.
    fn text_len(&self) -> u32
        ensures { result ≡ length (kept self.now).text };

    /// The width in cells at which lines are to be wrapped.
    fn width(&self) -> u32
        ensures { result ≡ (kept self.now).width };

    /// Whether an offset is a boundary of the text.
    fn is_boundary(&self, offset: u32, steps: &mut Steps) -> bool
        ensures test { result ≡ is_boundary (kept self.now).text offset }
        ensures lawful { IsLawful (kept self.now) }
        ensures counted { steps.old ≤ steps.new }
        ensures steps { LooksAtMost 1 (kept self.now) steps.old steps.new };

    /// What an operation that isn't a replacement makes of it, and the display lines that make place for others
    /// (*Touched lines and the line step*). This one stays. It is refused as `Display::apply` of `display_map` says.
    fn operated(
        &self,
        alloc: Global,
        op: &Op,
        steps: &mut Steps,
    ) -> Result<(Self, LineSplice), Fault>
        requires { is_replacement op.now ≡ false }

        // It is done only where no refusal is owed, and leaves the record of the definitions.
        ensures accepted { OnOk result
            (operation_refusal (kept self.now) (operation_of op.now) ≡ None) }
        ensures allowed { OnOk result (IsAllowed (operation_of op.now) (kept self.now)) }
        ensures done { IfOk result (λ made.
            IsOperated (operation_of op.now) (kept self.now) (kept made.0) made.1) }

        // A refusal is the one that is owed.
        ensures refused { IfErr result
            (IsRefusedAs (operation_refusal (kept self.now) (operation_of op.now))) }

        // The work, which is bounded for a refused one too.
        ensures counted { steps.old ≤ steps.new }
        ensures steps { let operation = operation_of op.now in
            WorksAtMost operation (kept self.now) steps.old steps.new };

    /// The same of one replacement of a batch, which its caller has judged. Of a batch the text after all of it is
    /// judged, so in between it may be over the limit of a text.
    fn replaced(
        &self,
        alloc: Global,
        splice: &Splice,
        steps: &mut Steps,
    ) -> Result<(Self, LineSplice), NoMemory>
        requires allowed { IsAllowed (replacement splice.now) (kept self.now) }
        requires fits { length (operated (replacement splice.now) (kept self.now)).text ≤ LAID_LIMIT }
        ensures done { IfOk result (λ made.
            IsOperated (replacement splice.now) (kept self.now) (kept made.0) made.1) }
        ensures counted { steps.old ≤ steps.new }
        ensures steps { let operation = replacement splice.now in
            ReplacesAtMost operation (kept self.now) steps.old steps.new };

    /// The first line that isn't wrapped at the width and that no run of `out` has. With it come the lines after it of
    /// the same kind, up to 128. `None` where there is no such line. There is none before `from`, where the search may
    /// start.
    fn next_run(&self, from: u32, out: &[Run], steps: &mut Steps) -> Option<Run>
        requires none { (line : ℕ) → line < from →
            waits (widths_of (kept self.now)) (kept self.now).width out.now line ≡ false }
        requires apart { AreApart out.now }
        ensures next { IsNextIfAny (widths_of (kept self.now)) (kept self.now).width
            out.now result }
        ensures counted { steps.old ≤ steps.new };

    /// Whether every line is wrapped at the present width.
    fn is_settled(&self) -> bool
        ensures { result ≡ all_at_width (kept self.now) };

    /// How many rows there are, those of blocks too (*Rows*).
    fn row_count(&self) -> u32
        ensures { result ≡ length (rows_of (kept self.now)) };

    /// The row of this number, counted from 0; `None` past the last.
    fn row(&self, alloc: Global, row: u32, steps: &mut Steps) -> Result<Option<Shown>, NoMemory>
        ensures row { IfOk result (λ shown.
            shown_row shown ≡ slice_get (rows_of (kept self.now)) row) }
        ensures counted { steps.old ≤ steps.new };

    /// The rows from number `first` on, counted from 0, as many as there are up to `count` (*Rows*).
    fn rows(
        &self,
        alloc: Global,
        first: u32,
        count: u32,
        steps: &mut Steps,
    ) -> Result<Vec<Shown>, NoMemory>
        ensures rows { IfOk result (λ shown.
            shown_rows shown.items ≡ take count (drop first (rows_of (kept self.now)))) }
        ensures counted { steps.old ≤ steps.new };

    /// The row, and the column in cells, where the boundary `offset` of the text is shown (*Spots*).
    fn show(
        &self,
        alloc: Global,
        offset: u32,
        bias: Bias,
        steps: &mut Steps,
    ) -> Result<Spot, NoMemory>
        requires { IsBoundary (kept self.now).text offset }
        ensures shown { IfOk result (λ spot. spot ≡ show (kept self.now) offset bias) }
        ensures counted { steps.old ≤ steps.new };

    /// The nearest spot at which some offset is shown (*Spots*).
    fn clip(
        &self,
        alloc: Global,
        spot: Spot,
        bias: Bias,
        steps: &mut Steps,
    ) -> Result<Spot, NoMemory>
        ensures nearest { IfOk result (λ nearest. nearest ≡ clip (kept self.now) spot bias) }
        ensures counted { steps.old ≤ steps.new };

    /// The least offset in bytes (Left) or the greatest (Right) that is shown at the nearest such spot (*Spots*).
    fn back(
        &self,
        alloc: Global,
        spot: Spot,
        bias: Bias,
        steps: &mut Steps,
    ) -> Result<u32, NoMemory>
        ensures offset { IfOk result (λ offset. offset ≡ back (kept self.now) spot bias) }
        ensures counted { steps.old ≤ steps.new };

    /// The wrapped lines: maximal runs of neighbours at one width.
    fn marks(&self, alloc: Global, steps: &mut Steps) -> Result<Vec<MarkRun>, NoMemory>
        ensures runs { IfOk result (λ runs. runs.items ≡ mark_runs (kept self.now)) }
        ensures counted { steps.old ≤ steps.new };

    /// The record as plain lists.
    fn plain(&self, alloc: Global, steps: &mut Steps) -> Result<Plain, NoMemory>
        ensures same { IfOk result (λ plain. record_of plain ≡ kept self.now) }
        ensures counted { steps.old ≤ steps.new };

    /// The offset in bytes of a row and a column of the text (*Points*). Past the last row it is the text's end, and
    /// past a row's end that end. Within a character it is the character's start (Left) or end (Right).
    fn offset_of(&self, point: Point, bias: Bias, steps: &mut Steps) -> u32
        ensures value { result ≡ offset_at (kept self.now).text point bias }
        ensures counted { steps.old ≤ steps.new };

    /// The text from the byte `start` up to the byte `end`, two boundaries in order.
    fn slice(
        &self,
        alloc: Global,
        start: u32,
        end: u32,
        steps: &mut Steps,
    ) -> Result<Text, NoMemory>
        requires start { IsBoundary (kept self.now).text start }
        requires end { IsBoundary (kept self.now).text end }
        requires order { start ≤ end }
        ensures text { IfOk result (λ text. text ≡ slice_range (kept self.now).text start end) }
        ensures counted { steps.old ≤ steps.new };
}

/// A sheet whose display lines jobs wrap. It gives its lines to a job, and takes the cuts that come back. Only its
/// lines go to another thread, so a call of a `Sheet` alone asks nothing about threads.
pub trait JobSheet: Sheet {
    /// The display lines of one moment, as a job holds them.
    type Held: Lines;

    /// The display lines as they are, for a job. It allocates nothing, and fails with `NoMemory` only where the count
    /// of holders is full.
    fn held(&self) -> Result<Self::Held, NoMemory>
        ensures { IfOk result (λ held.
            Self.Held.elements_by_line held ≡ line_elements (Self.kept self.now)) };

    /// The record after lines landed (*Replay*). They are those of a run of old lines, of which each place has the line
    /// that it is now, if it is still there. `wraps` are their cuts at the present width.
    fn landed(
        &self,
        alloc: Global,
        old: &Self::Held,
        run: Run,
        places: &[Option<u32>],
        wraps: &[Cuts],
        steps: &mut Steps,
    ) -> Result<Self, NoMemory>
        // The lines at the places are those of the run, in order, and these are the run's cuts at the present width.
        requires lines { AreLinesAt (line_elements (Self.kept self.now)) places.now
            (lines_in (Self.Held.elements_by_line old.now) run) }
        requires rising { IsRising 0 (standing places.now) }
        requires wraps { lists_of wraps.now
            ≡ cuts_in (Self.Held.elements_by_line old.now) run (Self.kept self.now).width }

        // They are wrapped at it then, and the others as they were.
        ensures landed { let r = Self.kept self.now in IfOk result (λ sheet.
            Self.kept sheet ≡ with_landed_lines r.width places.now r) }
        ensures counted { steps.old ≤ steps.new }
        ensures steps { let r = Self.kept self.now in
            LandsAtMost run.count (placed_lines places.now r) r steps.old steps.new };
}
