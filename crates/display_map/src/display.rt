//! The display: its start, its changes, the jobs that it sends and lands, and its versions.
ghost use Rattle.std.specs.Prelude.{◌≡◌, ◌+◌, ◌≤◌, false, [], ◌∷◌, None, length, map, OnOk, OnErr, IfOk, IfErr, MatchResult};
ghost use Rattle.cell_units.specs.declared.limits.TheConstants.{TEXT_LIMIT};
ghost use Rattle.cell_units.specs.Operation.{Operation};
ghost use Rattle.cell_units.specs.Record.{opened};
ghost use Rattle.cell_units.specs.Refusal.{IsAccepted, IsTextRefused};
ghost use Rattle.cell_units.specs.Text.{IsText, clean};
ghost use Rattle.plain_rows.specs.Reach.{LandsAtMost, WorksAtMost};
ghost use Rattle.display_sheet.specs.declared.change.Splice.{Splice};
ghost use Rattle.display_sheet.specs.Changes.{batch, change_refusal, edit_refusal, entries_in, is_replacement, operation_of, operation_refusal, ops_of, parts_of, replacement};
ghost use Rattle.display_sheet.specs.Faults.{IsRefusedAs};
ghost use Rattle.display_sheet.specs.Shown.{unstamped};
ghost use Rattle.display_map.specs.Events.{Did, Landed, Line, Published, event_limit};
ghost use Rattle.display_map.specs.LawfulStates.{IsLawfulHistory};
ghost use Rattle.display_map.specs.Replay.{appended, is_settled, job_numbered, lines_landed_on, present_of, state_of};
ghost use Rattle.display_map.specs.Sending.{IsOutstanding, IsRunTakenOn, seen_job};

use crate::event::Event;
use crate::journal::Journal;
use crate::outs::{self, Out};
use crate::version::VersionOn;
use crate::view::ViewOn;
use crate::{held, splicing, work};
use cell_units::{Fault, NoMemory, Refusal, Steps, TextFault};
use display_sheet::{Change, Op, Splice};
use kept_sheet::{JobSheet, Sheet};
use map_sheet::MapSheet;
use std::alloc::Global;
use std::marker::Model;
use std::slice;
use wrap_workers::{Done, Job};

/// A text under edits, wrapped run by run. It is seen as its history.
pub struct DisplayOn<S: Sheet> {
    /// The display as it was opened.
    opening: S,
    journal: Journal,
    sheet: S,
    /// The jobs that haven't landed, in the order in which they were sent.
    outs: Vec<Out>,
    /// How many versions were published.
    versions: u32,
    /// How many jobs were sent.
    jobs: u32,
    /// No line before this one waits.
    first: u32,
}

impl<S: Sheet> Drop for DisplayOn<S> {
    fn drop(self) {
        let DisplayOn {
            opening: _,
            journal: _,
            sheet: _,
            outs: _,
            versions: _,
            jobs: _,
            first: _,
        } = self;
    }
}

/// The display of the product.
pub type Display = DisplayOn<MapSheet>;

impl<S: Sheet> Model for DisplayOn<S> {
    ghost use Rattle.display_map.specs.Replay.{History};

    ghost Value = { History };

    ghost use Rattle.display_map.specs.Displays.{KeepsShortDisplay};

    ghost view = { λ d. record { opening = (S.kept d.opening).text; events = d.journal } };

    ghost invariant = { λ d. KeepsShortDisplay (record { opening = (S.kept d.opening).text; events = d.journal }) (S.kept d.sheet) d.outs.items d.versions d.jobs d.first };
}

/// A display of a text that was just opened.
fn begun<S: Sheet>(alloc: Global, opening: S) -> Result<DisplayOn<S>, NoMemory>
    requires text { IsText (S.kept opening).text }
    requires short { length (S.kept opening).text ≤ TEXT_LIMIT }
    requires opened { S.kept opening ≡ unstamped (opened (S.kept opening).text) }
    ensures display { IfOk result (λ display.
        display ≡ record { opening = (S.kept opening).text; events = [] }) }
{
    let sheet = opening.share()?;
    Ok(DisplayOn {
        opening,
        journal: Journal::none(alloc),
        sheet,
        outs: Vec::new(alloc),
        versions: 0,
        jobs: 0,
        first: 0,
    })
}

impl<S: Sheet> DisplayOn<S> {
    /// A display of these bytes, with an empty journal. Each CR LF and then each lone CR is made an LF (*Text*).
    ///
    /// `TooLong` where there are more than 33,554,432 bytes. Else `NotUtf8` where they aren't UTF-8, with the length in
    /// bytes of the longest prefix that is.
    pub fn start(alloc: Global, bytes: &[u8], steps: &mut Steps) -> Result<DisplayOn<S>, TextFault>
        ensures started { MatchResult result
            (λ display. display ≡ record { opening = clean bytes.now; events = [] })
            (IsTextRefused bytes.now) }
        ensures accepted { OnOk result (IsAccepted bytes.now) }
        ensures counted { steps.old ≤ steps.new }
    {
        let opening = S::opened(alloc, bytes, steps)?;
        Ok(begun(alloc, opening)?)
    }

    /// The record as it is now, of which a crate above may read more than a display gives.
    pub fn sheet(&self) -> &S
        ensures { S.kept result.now ≡ unstamped (present_of self.now) }
    {
        &self.sheet
    }

    /// How many events the journal may still take, of 4,294,967,295 in all.
    pub fn room(&self) -> u32
        ensures { result + length self.now.events ≡ event_limit }
    {
        u32::MAX - self.journal.len()
    }

    /// Records that the script line of this number, counted from 1, is answered, refused or about to be done. If it is
    /// out of memory nothing changes.
    pub fn note_line(&mut self, alloc: Global, number: u64) -> Result<(), NoMemory>
        requires room { length self.old.events + 1 ≤ event_limit }
        ensures noted { OnOk result (self.new ≡ appended self.old (Line number ∷ [])) }
        ensures unchanged { OnErr result (self.new ≡ self.old) }
    {
        self.journal.push(alloc, Event::Line { number })?;
        Ok(())
    }

    /// Publishes the display as it is, as the last version or not (*Row of versions*). If it is out of memory nothing
    /// changes.
    pub fn publish(&mut self, alloc: Global, last: bool) -> Result<VersionOn<S>, NoMemory>
        requires room { length self.old.events + 1 ≤ event_limit }
        ensures published { OnOk result (self.new ≡ appended self.old (Published last ∷ [])) }
        ensures version { IfOk result (λ version. version ≡ self.new) }
        ensures unchanged { OnErr result (self.new ≡ self.old) }
    {
        let number = self.versions;
        let events = self.journal.len();
        self.journal.push(alloc, Event::Published { last })?;
        self.versions += 1;
        match self.view() {
            Ok(view) => Ok(VersionOn { view, number, last }),
            Err(error) => {
                self.journal.truncate(events);
                self.versions = number;
                Err(error)
            }
        }
    }

    /// Does a batch of replacements.
    fn edit(&mut self, alloc: Global, splices: &[Splice], steps: &mut Steps) -> Result<(), Fault>
        // The journal has room for an event of each operation.
        requires room { length self.old.events + length (batch splices.now) ≤ event_limit }

        // It is done only where no refusal is owed, with one event for each operation.
        ensures accepted { OnOk result (edit_refusal (present_of self.old) splices.now ≡ None) }
        ensures done { OnOk result (self.new ≡ appended self.old (map Did (batch splices.now))) }

        // A refusal is the one that is owed. That and out of memory leave the display as it was.
        ensures refused { IfErr result
            (IsRefusedAs (edit_refusal (present_of self.old) splices.now)) }
        ensures unchanged { OnErr result (self.new ≡ self.old) }

        // The work, which is bounded where there is one replacement alone.
        ensures counted { steps.old ≤ steps.new }
        ensures steps { (splice : Splice) → splices.now ≡ splice ∷ [] →
            WorksAtMost (replacement splice) (present_of self.old) steps.old steps.new }
    {
        if !splicing::are_ranges(&self.sheet, splices, steps) {
            return Err(Fault::Refused(Refusal::BadRange));
        }
        if splicing::is_too_long(alloc, &self.sheet, splices)? {
            return Err(Fault::Refused(Refusal::TooLong));
        }
        let work = work::batch(alloc, &self.sheet, &self.outs, splices, steps)?;
        splicing::push_batch(alloc, &mut self.journal, splices)?;
        self.sheet = work.sheet;
        self.outs = work.outs;
        self.first = 0;
        Ok(())
    }

    /// Does an operation that isn't a replacement.
    fn operate(&mut self, alloc: Global, op: &Op, steps: &mut Steps) -> Result<(), Fault>
        // `edit` does the replacements. The journal has room for one event.
        requires other { is_replacement op.now ≡ false }
        requires room { length self.old.events + 1 ≤ event_limit }

        // It is done only where no refusal is owed, with one event.
        ensures accepted { OnOk result
            (operation_refusal (present_of self.old) (operation_of op.now) ≡ None) }
        ensures done { OnOk result (self.new ≡ appended self.old (Did (operation_of op.now) ∷ [])) }

        // A refusal is the one that is owed. That and out of memory leave the display as it was.
        ensures refused { IfErr result
            (IsRefusedAs (operation_refusal (present_of self.old) (operation_of op.now))) }
        ensures unchanged { OnErr result (self.new ≡ self.old) }

        // The work.
        ensures counted { steps.old ≤ steps.new }
        ensures steps { let operation = operation_of op.now in
            WorksAtMost operation (present_of self.old) steps.old steps.new }
    {
        let work = work::one(alloc, &self.sheet, &self.outs, op, steps)?;
        let op = op.copy(alloc)?;
        self.journal.push(alloc, Event::Did { op })?;
        self.sheet = work.sheet;
        self.outs = work.outs;
        self.first = 0;
        Ok(())
    }

    /// Does a change. A refused change leaves the display as it was, and so does one that is out of memory. It is
    /// refused by the first of these that fits (*Why a change is refused*), where offsets count bytes:
    ///
    /// - `BadNumber`: a tab size isn't 1 to 16, or a width neither 0 nor 2 to 10,000;
    /// - `IdInUse`, `UnknownId`: an id that is added is there already, or one that is removed isn't;
    /// - `BadRange`: an offset is past the end or no boundary; a fold is backwards or empty; a block's row is past the
    ///   last; a range of an edit is backwards, or starts before the end of the one before it;
    /// - `BadText`: an inlay's text is empty; a block has no line, more than 256, or one with a line end;
    /// - `TooLong`: the text would be longer than a text may be; an inlay's text or a block's line is over 1,024 bytes;
    ///   65,536 of the kind are there.
    ///
    /// The ranges of an edit are those of the text before it.
    pub fn apply(&mut self, alloc: Global, change: &Change, steps: &mut Steps) -> Result<(), Fault>
        requires room { length self.old.events + length (ops_of change.now) ≤ event_limit }
        // When it is done, and what is there after it.
        ensures accepted { OnOk result (change_refusal (present_of self.old) change.now ≡ None) }
        ensures done { OnOk result (self.new ≡ appended self.old (map Did (ops_of change.now))) }
        // Why it is refused, and that nothing is changed then.
        ensures refused { IfErr result
            (IsRefusedAs (change_refusal (present_of self.old) change.now)) }
        ensures unchanged { OnErr result (self.new ≡ self.old) }
        // The work of one operation, which is bounded for a refused one too.
        ensures counted { steps.old ≤ steps.new }
        ensures steps { (operation : Operation) → entries_in (parts_of change.now) ≡ 1 →
            ops_of change.now ≡ operation ∷ [] →
            WorksAtMost operation (present_of self.old) steps.old steps.new }
    {
        match change {
            Change::Edit(splices) => self.edit(alloc, splices, steps),
            Change::One(Op::Replace(splice)) => self.edit(alloc, slice::from_ref(splice), steps),
            Change::One(op) => self.operate(alloc, op, steps),
        }
    }

    /// Whether every line is wrapped at the present width (*Legal histories and the output*).
    pub fn settled(&self) -> bool
        ensures { result ≡ is_settled (present_of self.now) }
    {
        self.sheet.is_settled()
    }

    /// The display as it is now. It allocates nothing, and fails with `NoMemory` only where the count of holders is
    /// full.
    pub fn view(&self) -> Result<ViewOn<S>, NoMemory>
        ensures { IfOk result (λ view. view ≡ self.now) }
    {
        Ok(ViewOn {
            opening: self.opening.share()?,
            journal: self.journal.share()?,
            sheet: self.sheet.share()?,
            versions: self.versions,
        })
    }

    /// The same display once more, which shares all but the list of the jobs that are out.
    pub fn copied(&self, alloc: Global) -> Result<DisplayOn<S>, NoMemory>
        ensures { IfOk result (λ copy. copy ≡ self.now) }
    {
        Ok(DisplayOn {
            opening: self.opening.share()?,
            journal: self.journal.share()?,
            sheet: self.sheet.share()?,
            outs: outs::copied(alloc, &self.outs)?,
            versions: self.versions,
            jobs: self.jobs,
            first: self.first,
        })
    }

    /// Its history is lawful, so the laws of histories, of records and of what they show hold of it. It does nothing.
    pub fn lawful(&self)
        ensures { IsLawfulHistory self.now }
    {
        // For the proof: the history is lawful, as the type keeps.
        let _ = &self.versions;
    }

    /// The journal alone. It allocates nothing.
    pub fn into_journal(self) -> Journal
        ensures { result ≡ self.events }
    {
        let DisplayOn {
            opening: _,
            journal,
            sheet: _,
            outs: _,
            versions: _,
            jobs: _,
            first: _,
        } = self;
        journal
    }
}

impl<S: JobSheet> DisplayOn<S> {
    /// Sends the next run (*Replay*): the first line that waits with the waiting lines after it, at most 128. The job
    /// has the next number, the present width and the present lines. `None` where no line waits.
    pub fn take_run(
        &mut self,
        alloc: Global,
        steps: &mut Steps,
    ) -> Result<Option<Job<S::Held>>, NoMemory>
        requires room { length self.old.events + 1 ≤ event_limit }
        ensures taken { IfOk result (λ job.
            IsRunTakenOn S.Held.elements_by_line self.old self.new job) }
        ensures unchanged { OnErr result (self.new ≡ self.old) }
        ensures counted { steps.old ≤ steps.new }
    {
        let next = outs::next_run(alloc, &self.sheet, &self.outs, self.first, steps)?;
        let Some(run) = next else {
            return Ok(None);
        };
        let lines = self.sheet.held()?;
        let width = self.sheet.width();
        let number = self.jobs as u64 + 1;
        let out = Out::new(alloc, number, width, run.first, run.count)?;
        let events = self.journal.len();
        let event = Event::Sent {
            job: number,
            first: run.first,
            count: run.count,
        };
        self.journal.push(alloc, event)?;
        if let Err(error) = self.outs.push(out) {
            self.journal.truncate(events);
            return Err(error.into());
        }
        self.jobs += 1;
        self.first = run.first + run.count;
        Ok(Some(held::job(number, lines, run, width)))
    }

    /// Takes the wraps of a job that this display sent. Where the job's width is the present one, its lines are wrapped
    /// so from then on (*Replay*). `Err` means out of memory, and hands the result back.
    pub fn land(
        &mut self,
        alloc: Global,
        done: Done<S::Held>,
        steps: &mut Steps,
    ) -> Result<(), Done<S::Held>>
        requires room { length self.old.events + 1 ≤ event_limit }
        requires sent { IsOutstanding self.old (seen_job S.Held.elements_by_line done.job) }
        // What is there after it.
        ensures landed { OnOk result (self.new ≡ appended self.old (Landed done.job.number ∷ [])) }
        // What is left if it is out of memory.
        ensures back { IfErr result (λ back. back ≡ done) }
        ensures unchanged { OnErr result (self.new ≡ self.old) }
        // The work: for the lines of the run, and the blocks at those of which the mark is set.
        ensures counted { steps.old ≤ steps.new }
        ensures steps { let state = state_of self.old in
            let job = done.job in
            let lines = lines_landed_on state.present (job_numbered job.number state.jobs) in
            LandsAtMost job.run.count lines state.present steps.old steps.new }
    {
        let job = done.job();
        let number = job.number();
        let run = job.run();
        let old = job.lines();
        let wraps = done.wraps();
        let landed = work::landed(
            alloc,
            &self.sheet,
            &self.outs,
            number,
            old,
            run,
            wraps,
            steps,
        );
        let Ok(landed) = landed else {
            return Err(done);
        };
        if let Err(_) = self.journal.push(alloc, Event::Landed { job: number }) {
            return Err(done);
        }
        self.sheet = landed;
        outs::remove(&mut self.outs, number);
        Ok(())
    }
}
