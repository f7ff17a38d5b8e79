//! Views: what a display showed at one moment.
ghost use Rattle.std.specs.Prelude.{◌≡◌, ◌≤◌, None, length, take, drop, slice_get, slice_range, IfOk, OnOk, IfErr};
ghost use Rattle.cell_units.specs.declared.limits.TheConstants.{LAID_LIMIT};
ghost use Rattle.cell_units.specs.Lawful.{IsLawful};
ghost use Rattle.cell_units.specs.Points.{offset_at};
ghost use Rattle.cell_units.specs.Text.{IsBoundary};
ghost use Rattle.plain_rows.specs.Plain.{record_of};
ghost use Rattle.plain_rows.specs.Rows.{rows_of};
ghost use Rattle.plain_rows.specs.Spots.{back, clip, show};
ghost use Rattle.display_sheet.specs.Faults.{IsRefusedAs};
ghost use Rattle.display_sheet.specs.Shown.{mark_runs, show_refusal, unstamped};
ghost use Rattle.plain_rows.specs.ShownRows.{shown_row, shown_rows};
ghost use Rattle.display_map.specs.LawfulStates.{IsLawfulHistory};
ghost use Rattle.display_map.specs.Replay.{present_of, versions_of};

use crate::journal::Journal;
use cell_units::{Bias, Fault, NoMemory, Point, Refusal, Spot, Steps, Text};
use display_sheet::{MarkRun, Shown};
use kept_sheet::Sheet;
use map_sheet::MapSheet;
use plain_rows::Plain;
use std::alloc::Global;
use std::marker::Model;

/// The display of one moment, which no later change reaches. It is seen as its history.
pub struct ViewOn<S: Sheet> {
    /// The display as it was opened.
    pub(crate) opening: S,
    pub(crate) journal: Journal,
    pub(crate) sheet: S,
    /// How many versions were published.
    pub(crate) versions: u32,
}

impl<S: Sheet> Drop for ViewOn<S> {
    fn drop(self) {
        let ViewOn {
            opening: _,
            journal: _,
            sheet: _,
            versions: _,
        } = self;
    }
}

/// The view of the product.
pub type View = ViewOn<MapSheet>;

impl<S: Sheet> Model for ViewOn<S> {
    ghost use Rattle.display_map.specs.Replay.{History};

    ghost Value = { History };

    ghost use Rattle.display_map.specs.Displays.{KeepsView};

    ghost view = { λ v. record { opening = (S.kept v.opening).text; events = v.journal } };

    ghost invariant = { λ v. KeepsView (record { opening = (S.kept v.opening).text; events = v.journal }) (S.kept v.sheet) v.versions };
}

impl<S: Sheet> ViewOn<S> {
    /// The record that is shown, of which a crate above may read more than a view gives.
    pub fn sheet(&self) -> &S
        ensures { S.kept result.now ≡ unstamped (present_of self.now) }
    {
        &self.sheet
    }

    /// How many rows there are, those of blocks too (*Rows*).
    pub fn row_count(&self) -> u32
        ensures { result ≡ length (rows_of (present_of self.now)) }
    {
        self.sheet.row_count()
    }

    /// The row of this number, counted from 0; `None` past the last.
    pub fn row(&self, alloc: Global, row: u32, steps: &mut Steps) -> Result<Option<Shown>, NoMemory>
        ensures row { IfOk result (λ shown.
            shown_row shown ≡ slice_get (rows_of (present_of self.now)) row) }
        ensures counted { steps.old ≤ steps.new }
    {
        self.sheet.row(alloc, row, steps)
    }

    /// The rows from number `first` on, counted from 0, as many as there are up to `count` (*Rows*).
    pub fn rows(
        &self,
        alloc: Global,
        first: u32,
        count: u32,
        steps: &mut Steps,
    ) -> Result<Vec<Shown>, NoMemory>
        ensures rows { IfOk result (λ shown.
            shown_rows shown.items ≡ take count (drop first (rows_of (present_of self.now)))) }
        ensures counted { steps.old ≤ steps.new }
    {
        self.sheet.rows(alloc, first, count, steps)
    }

    /// The row, and the column in cells, where an offset in bytes of the text is shown (*Spots*). `BadRange` where the
    /// offset is past the end or within a character.
    pub fn show(
        &self,
        alloc: Global,
        offset: u32,
        bias: Bias,
        steps: &mut Steps,
    ) -> Result<Spot, Fault>
        ensures shown { IfOk result (λ spot. spot ≡ show (present_of self.now) offset bias) }
        ensures accepted { OnOk result (show_refusal (present_of self.now) offset ≡ None) }
        ensures refused { IfErr result (IsRefusedAs (show_refusal (present_of self.now) offset)) }
        ensures counted { steps.old ≤ steps.new }
    {
        if !self.sheet.is_boundary(offset, steps) {
            return Err(Fault::Refused(Refusal::BadRange));
        }
        Ok(self.sheet.show(alloc, offset, bias, steps)?)
    }

    /// The nearest spot at which some offset is shown (*Spots*).
    pub fn clip(
        &self,
        alloc: Global,
        spot: Spot,
        bias: Bias,
        steps: &mut Steps,
    ) -> Result<Spot, NoMemory>
        ensures nearest { IfOk result (λ nearest. nearest ≡ clip (present_of self.now) spot bias) }
        ensures counted { steps.old ≤ steps.new }
    {
        self.sheet.clip(alloc, spot, bias, steps)
    }

    /// The least offset in bytes (Left) or the greatest (Right) that is shown at the nearest such spot (*Spots*).
    pub fn back(
        &self,
        alloc: Global,
        spot: Spot,
        bias: Bias,
        steps: &mut Steps,
    ) -> Result<u32, NoMemory>
        ensures offset { IfOk result (λ offset. offset ≡ back (present_of self.now) spot bias) }
        ensures counted { steps.old ≤ steps.new }
    {
        self.sheet.back(alloc, spot, bias, steps)
    }

    /// The wrapped lines: maximal runs of neighbours at one width in cells.
    pub fn marks(&self, alloc: Global, steps: &mut Steps) -> Result<Vec<MarkRun>, NoMemory>
        ensures runs { IfOk result (λ runs. runs.items ≡ mark_runs (present_of self.now)) }
        ensures counted { steps.old ≤ steps.new }
    {
        self.sheet.marks(alloc, steps)
    }

    /// Its history is lawful, so the laws of histories, of records and of what they show hold of it. It does nothing.
    pub fn lawful(&self)
        ensures { IsLawfulHistory self.now }
    {
        // For the proof: the history is lawful, as the type keeps.
        let _ = &self.versions;
    }

    /// How many versions were published up to this view.
    pub fn versions(&self) -> u64
        ensures { result ≡ versions_of self.now.events }
    {
        u64::from(self.versions)
    }

    /// The record as plain lists.
    pub fn plain(&self, alloc: Global, steps: &mut Steps) -> Result<Plain, NoMemory>
        ensures same { IfOk result (λ plain. record_of plain ≡ unstamped (present_of self.now)) }

        // What the plain functions ask of a record.
        ensures lawful { IfOk result (λ plain. IsLawful (record_of plain)) }
        ensures size { IfOk result (λ plain. length plain.text ≤ LAID_LIMIT) }

        // The work.
        ensures counted { steps.old ≤ steps.new }
    {
        self.sheet.plain(alloc, steps)
    }

    /// The offset in bytes of a row and a column of the text (*Points*). Past the last row it is the text's end, and
    /// past a row's end that end. Within a character it is the character's start (Left) or end (Right).
    pub fn offset_of(&self, point: Point, bias: Bias, steps: &mut Steps) -> u32
        ensures value { result ≡ offset_at (present_of self.now).text point bias }
        ensures counted { steps.old ≤ steps.new }
    {
        self.sheet.offset_of(point, bias, steps)
    }

    /// The text from the byte `start` up to the byte `end`, two boundaries in order.
    pub fn slice(
        &self,
        alloc: Global,
        start: u32,
        end: u32,
        steps: &mut Steps,
    ) -> Result<Text, NoMemory>
        // The range cuts no character, and isn't backwards.
        requires start { IsBoundary (present_of self.now).text start }
        requires end { IsBoundary (present_of self.now).text end }
        requires order { start ≤ end }

        // All bytes of the range, where there is memory.
        ensures text { IfOk result (λ text. text ≡ slice_range (present_of self.now).text start end) }

        // The work.
        ensures counted { steps.old ≤ steps.new }
    {
        self.sheet.slice(alloc, start, end, steps)
    }
}
