//! A display that wraps its own lines.
ghost use Rattle.std.specs.Prelude.{◌≡◌, ◌+◌, ◌<◌, ◌≤◌, Option, true, false, [], ◌∷◌, Some, None, length, map, option_map, IfErr, IfNone, IfOk, IfSome, MatchResult, OnErr, OnOk, OnSome};
ghost use Rattle.cell_units.specs.Refusal.{IsAccepted, IsTextRefused};
ghost use Rattle.cell_units.specs.Text.{clean};
ghost use Rattle.display_sheet.specs.Changes.{change_refusal, ops_of};
ghost use Rattle.display_map.specs.Events.{Did, Landed, Published, event_limit};
ghost use Rattle.display_map.specs.LawfulStates.{IsLawfulHistory};
ghost use Rattle.display_map.specs.Replay.{appended, is_settled, present_of, versions_of};
ghost use Rattle.display_map.specs.Sending.{IsOutstanding};
ghost use Rattle.wrap_workers.specs.Finishes.{job_of};
ghost use Rattle.display_session.specs.Lines.{IsSettled};
ghost use Rattle.display_session.specs.LoneDisplays.{KeepsLone};
ghost use Rattle.display_session.specs.Troubles.{IsOwed, IsUnwrapped};
ghost use Rattle.display_session.specs.Watches.{asked_at, is_watched};
ghost use Rattle.display_session.specs.declared.watch.Watch.{Watch};
ghost use Rattle.display_session.specs.Wrapping.{IsWrapped};

use crate::trouble::Trouble;
use crate::watch::Watch;
use cell_units::{NoMemory, Steps, TextFault};
use display_map::{Change, Display, Held, View, job_laws};
use std::alloc::Global;
use std::marker::Model;
use view_changes::{RowChange, changed_since, landed_since};
use wrap_workers::{Done, Finished, do_job};

/// How many events the journal takes for a run: that it is sent, and that it lands.
const RUN_EVENTS: u32 = 2;

/// Does a run that was sent, where that isn't done.
fn finished(alloc: Global, run: Finished<Held>) -> Finished<Held>
    ensures { job_of result ≡ job_of run }
{
    match run {
        Finished::Done(done) => Finished::Done(done),
        Finished::Short(job) => do_job(alloc, job),
    }
}

/// Lands what a run gave, and covers the rows that this replaced. Where there was no memory, it is returned.
fn land_watched(
    alloc: Global,
    display: &mut Display,
    done: Done<Held>,
    watch: &mut Watch,
) -> Option<Done<Held>>
    // The run is out, and the journal has room.
    requires out { IsOutstanding display.old done.job }
    requires room { length display.old.events + 1 ≤ event_limit }
    requires watched { is_watched display.old (Some watch.old) ≡ true }

    // It has landed, or all is as it was.
    ensures landed { IfNone result
        (display.new ≡ appended display.old (Landed done.job.number ∷ [])) }
    ensures back { IfSome result (λ back. back ≡ done) }
    ensures unchanged { OnSome result (display.new ≡ display.old) }

    // The rows that were replaced.
    ensures watched { is_watched display.new (Some watch.new) ≡ true }
    ensures asked { watch.new.events ≡ watch.old.events }
{
    let Ok(before) = display.view() else {
        return Some(done);
    };
    match display.land(alloc, done, &mut Steps::new()) {
        Ok(()) => {
            // For the proof: the history before it is lawful.
            before.lawful();
            let after = display.sheet();
            watch.replaced = landed_since(watch.replaced, &before, after, &mut Steps::new());
            None
        }
        Err(done) => Some(done),
    }
}

/// Lands what a run gave. Where there was no memory, it is returned.
fn land_done(
    alloc: Global,
    display: &mut Display,
    done: Done<Held>,
    watch: &mut Option<Watch>,
) -> Option<Done<Held>>
    // The run is out, and the journal has room.
    requires out { IsOutstanding display.old done.job }
    requires room { length display.old.events + 1 ≤ event_limit }
    requires watched { is_watched display.old watch.old ≡ true }

    // It has landed, or all is as it was.
    ensures landed { IfNone result
        (display.new ≡ appended display.old (Landed done.job.number ∷ [])) }
    ensures back { IfSome result (λ back. back ≡ done) }
    ensures unchanged { OnSome result (display.new ≡ display.old) }

    // The rows that were replaced.
    ensures watched { is_watched display.new watch.new ≡ true }
    ensures asked { asked_at watch.new ≡ asked_at watch.old }
{
    match *watch {
        Some(mut kept) => {
            let back = land_watched(alloc, display, done, &mut kept);
            *watch = Some(kept);
            back
        }
        None => match display.land(alloc, done, &mut Steps::new()) {
            Ok(()) => None,
            Err(done) => Some(done),
        },
    }
}

/// Lands a run that was sent. Where there was no memory, it is returned as far as it got.
fn land(
    alloc: Global,
    display: &mut Display,
    run: Finished<Held>,
    watch: &mut Option<Watch>,
) -> Option<Finished<Held>>
    // The run is out, and no other, and the journal has room.
    requires kept { KeepsLone display.old (Some (job_of run)) }
    requires room { length display.old.events + 1 ≤ event_limit }
    requires watched { is_watched display.old watch.old ≡ true }

    // It has landed, or it is late.
    ensures landed { IfNone result
        (display.new ≡ appended display.old (Landed (job_of run).number ∷ [])) }
    ensures unchanged { OnSome result (display.new ≡ display.old) }
    ensures wrapped { IsWrapped display.old display.new }
    ensures kept { KeepsLone display.new (option_map job_of result) }

    // The rows that were replaced.
    ensures watched { is_watched display.new watch.new ≡ true }
    ensures asked { asked_at watch.new ≡ asked_at watch.old }
{
    // For the proof: a job is out until it lands.
    job_laws();
    match finished(alloc, run) {
        Finished::Done(done) => match land_done(alloc, display, done, watch) {
            None => None,
            Some(done) => Some(Finished::Done(done)),
        },
        Finished::Short(job) => Some(Finished::Short(job)),
    }
}

/// Sends the next run. `None` where no line waits.
fn send(alloc: Global, display: &mut Display) -> Result<Option<Finished<Held>>, NoMemory>
    // All jobs have landed, and the journal has room for a run.
    requires kept { KeepsLone display.old None }
    requires room { length display.old.events + 2 ≤ event_limit }

    // The run is out, and no other, or every line is wrapped.
    ensures kept { IfOk result (λ run. KeepsLone display.new (option_map job_of run)) }
    ensures wrapped { IsWrapped display.old display.new }
    ensures room { OnOk result (length display.new.events + 1 ≤ event_limit) }
    ensures longer { OnOk result (length display.old.events ≤ length display.new.events) }
    ensures settled { IfOk result (λ run. IfNone run (is_settled (present_of display.new) ≡ true)) }

    // No row is replaced.
    ensures watched { (watch : Option Watch) →
        is_watched display.old watch ≡ true → is_watched display.new watch ≡ true }

    // Where there is no memory, nothing happened.
    ensures unchanged { OnErr result (KeepsLone display.new None) }
{
    // For the proof: a job that was sent is out.
    job_laws();
    match display.take_run(alloc, &mut Steps::new())? {
        Some(job) => Ok(Some(Finished::Short(job))),
        None => Ok(None),
    }
}

/// The late run, or else the next one, which is sent. `None` where no line waits.
fn next_run(
    alloc: Global,
    display: &mut Display,
    late: Option<Finished<Held>>,
) -> Result<Option<Finished<Held>>, NoMemory>
    // All jobs have landed but the late one, and the journal has room for a run.
    requires kept { KeepsLone display.old (option_map job_of late) }
    requires room { length display.old.events + 2 ≤ event_limit }

    // The run is out, and no other, or every line is wrapped.
    ensures kept { IfOk result (λ run. KeepsLone display.new (option_map job_of run)) }
    ensures wrapped { IsWrapped display.old display.new }
    ensures room { OnOk result (length display.new.events + 1 ≤ event_limit) }
    ensures longer { OnOk result (length display.old.events ≤ length display.new.events) }
    ensures settled { IfOk result (λ run. IfNone run (is_settled (present_of display.new) ≡ true)) }

    // No row is replaced.
    ensures watched { (watch : Option Watch) →
        is_watched display.old watch ≡ true → is_watched display.new watch ≡ true }

    // Where there is no memory, nothing happened, and no run was late.
    ensures unchanged { OnErr result (KeepsLone display.new None) }
{
    match late {
        Some(run) => Ok(Some(run)),
        None => send(alloc, display),
    }
}

/// How many operations a change asks for: an entry of an edit counts as one.
fn operations(change: &Change) -> usize
    ensures { length (ops_of change.now) ≤ result }
{
    match change {
        Change::Edit(splices) => splices.len(),
        Change::One(_) => 1,
    }
}

/// A display without workers, which wraps its lines itself, run by run. One version is published, at its opening. It is
/// seen as its history.
pub struct LoneDisplay {
    display: Display,
    /// The run that was sent last, where there was no memory to land it.
    late: Option<Finished<Held>>,
}

impl Drop for LoneDisplay {
    fn drop(self) {
        let LoneDisplay {
            display: _,
            late: _,
        } = self;
    }
}

impl Model for LoneDisplay {
    ghost use Rattle.std.specs.Prelude.{option_map};
    ghost use Rattle.wrap_workers.specs.Finishes.{job_of};
    ghost use Rattle.display_map.specs.Replay.{History};
    ghost use Rattle.display_session.specs.LoneDisplays.{KeepsLone};

    ghost Value = { History };

    ghost view = { λ d. d.display };

    ghost invariant = { λ d. KeepsLone d.display (option_map job_of d.late) };
}

impl LoneDisplay {
    /// The display of the bytes, in which each CR LF and then each lone CR is a LF.
    pub(crate) fn open(alloc: Global, bytes: &[u8]) -> Result<LoneDisplay, TextFault>
        ensures opened { MatchResult result
            (λ display. display ≡ record { opening = clean bytes.now; events = Published false ∷ [] })
            (IsTextRefused bytes.now) }
        ensures accepted { OnOk result (IsAccepted bytes.now) }
    {
        let mut display = Display::start(alloc, bytes, &mut Steps::new())?;
        let _first = display.publish(alloc, false)?;
        Ok(LoneDisplay {
            display,
            late: None,
        })
    }

    /// Does a change on a copy, so that it is done only where there is memory for the rows that it replaces. Returns what
    /// covers these and those before, then.
    fn apply_watched(
        &mut self,
        alloc: Global,
        change: &Change,
        watch: Watch,
    ) -> Result<Watch, Trouble>
        requires room { length self.old.events + length (ops_of change.now) ≤ event_limit }
        requires watched { is_watched self.old (Some watch) ≡ true }

        // When it is done, what is there after it, and the rows that were replaced.
        ensures accepted { OnOk result (change_refusal (present_of self.old) change.now ≡ None) }
        ensures done { OnOk result (self.new ≡ appended self.old (map Did (ops_of change.now))) }
        ensures watched { IfOk result (λ kept. is_watched self.new (Some kept) ≡ true) }
        ensures asked { IfOk result (λ kept. kept.events ≡ watch.events) }

        // Why it isn't, and that nothing is changed then.
        ensures refused { IfErr result
            (IsOwed (change_refusal (present_of self.old) change.now)) }
        ensures unchanged { OnErr result (self.new ≡ self.old) }
    {
        // For the proof: a job that is out stays so over operations.
        job_laws();
        let before = self.display.view()?;
        let mut next = self.display.copied(alloc)?;
        next.apply(alloc, change, &mut Steps::new())?;
        // For the proof: the histories are lawful.
        before.lawful();
        next.lawful();
        let replaced = changed_since(
            alloc,
            watch.replaced,
            &before,
            next.sheet(),
            change,
            &mut Steps::new(),
        )?;
        self.display = next;
        Ok(Watch {
            events: watch.events,
            replaced,
        })
    }

    /// Does a change. A refused change leaves the display as it was.
    pub(crate) fn apply(
        &mut self,
        alloc: Global,
        change: &Change,
        watch: &mut Option<Watch>,
    ) -> Result<(), Trouble>
        requires watched { is_watched self.old watch.old ≡ true }

        // When it is done, and what is there after it.
        ensures accepted { OnOk result (change_refusal (present_of self.old) change.now ≡ None) }
        ensures done { OnOk result (self.new ≡ appended self.old (map Did (ops_of change.now))) }

        // Why it isn't, and that nothing is changed then.
        ensures refused { IfErr result
            (IsOwed (change_refusal (present_of self.old) change.now)) }
        ensures unchanged { OnErr result (self.new ≡ self.old) }

        // The rows that were replaced.
        ensures watched { is_watched self.new watch.new ≡ true }
        ensures asked { asked_at watch.new ≡ asked_at watch.old }
        ensures kept { OnErr result (watch.new ≡ watch.old) }
    {
        // For the proof: a job that is out stays so over operations.
        job_laws();
        if (self.display.room() as usize) < operations(change) {
            return Err(Trouble::JournalFull);
        }
        match *watch {
            Some(kept) => {
                *watch = Some(self.apply_watched(alloc, change, kept)?);
                Ok(())
            }
            None => match self.display.apply(alloc, change, &mut Steps::new()) {
                Ok(()) => Ok(()),
                Err(fault) => Err(fault.into()),
            },
        }
    }

    /// Wraps the next run of lines that wait, and returns whether there was one.
    fn wrap_run(&mut self, alloc: Global, watch: &mut Option<Watch>) -> Result<bool, Trouble>
        requires watched { is_watched self.old watch.old ≡ true }

        // What happens.
        ensures wrapped { IsWrapped self.old self.new }
        ensures longer { IfOk result (λ found. found ≡ true
            → (length self.old.events < length self.new.events)
            × (length self.old.events < event_limit)) }
        ensures settled { IfOk result (λ found. found ≡ false
            → is_settled (present_of self.new) ≡ true) }

        // The rows that were replaced.
        ensures watched { is_watched self.new watch.new ≡ true }
        ensures asked { asked_at watch.new ≡ asked_at watch.old }

        // Why it fails.
        ensures failed { IfErr result (IsUnwrapped self.new) }
    {
        if self.display.room() < RUN_EVENTS {
            return Err(Trouble::JournalFull);
        }
        let late = self.late.take();
        let Some(run) = next_run(alloc, &mut self.display, late)? else {
            return Ok(false);
        };
        self.late = land(alloc, &mut self.display, run, watch);
        if self.late.is_some() {
            return Err(Trouble::NoMemory);
        }
        Ok(true)
    }

    /// Wraps up to so many runs, of 128 lines at most each, and returns whether a line may still wait.
    pub(crate) fn wrap(
        &mut self,
        alloc: Global,
        runs: u32,
        watch: &mut Option<Watch>,
    ) -> Result<bool, Trouble>
        requires watched { is_watched self.old watch.old ≡ true }

        // What is wrapped, and why it fails.
        ensures wrapped { IsWrapped self.old self.new }
        ensures settled { IfOk result (λ waits. waits ≡ false
            → is_settled (present_of self.new) ≡ true) }
        ensures failed { IfErr result (IsUnwrapped self.new) }

        // The rows that were replaced.
        ensures watched { is_watched self.new watch.new ≡ true }
        ensures asked { asked_at watch.new ≡ asked_at watch.old }
    {
        for _ in 0..runs {
            if !self.wrap_run(alloc, watch)? {
                return Ok(false);
            }
        }
        Ok(true)
    }

    /// Wraps all lines that wait.
    pub(crate) fn settle(&mut self, alloc: Global, watch: &mut Option<Watch>) -> Result<(), Trouble>
        requires watched { is_watched self.old watch.old ≡ true }

        // What is wrapped, and why it fails.
        ensures settled { OnOk result (IsSettled self.old self.new) }
        ensures wrapped { OnErr result (IsWrapped self.old self.new) }
        ensures failed { IfErr result (IsUnwrapped self.new) }

        // The rows that were replaced.
        ensures watched { is_watched self.new watch.new ≡ true }
        ensures asked { asked_at watch.new ≡ asked_at watch.old }
    {
        'runs: while self.wrap_run(alloc, watch)? {}
        Ok(())
    }

    /// Its history is lawful. It does nothing.
    pub(crate) fn lawful(&self)
        ensures { IsLawfulHistory self.now }
    {
        // For the proof: the history of a display is lawful.
        self.display.lawful();
    }

    /// What is kept from now on, where a host asks now.
    pub(crate) fn watched(&self) -> Result<Watch, NoMemory>
        ensures watched { IfOk result (λ watch. is_watched self.now (Some watch) ≡ true) }
        ensures asked { IfOk result (λ watch. watch.events ≡ length self.now.events) }
    {
        // For the proof: the rows are as many as a u32 counts.
        let _rows = self.display.view()?.row_count();
        Ok(Watch {
            events: u32::MAX - self.display.room(),
            replaced: RowChange {
                from: 0,
                to: 0,
                count: 0,
            },
        })
    }

    /// The display as it is now. It takes no memory: `NoMemory` is one holder too many of what is shared.
    pub(crate) fn view(&self) -> Result<View, NoMemory>
        ensures view { IfOk result (λ view. view ≡ self.now) }
        ensures published { 1 ≤ versions_of self.now.events }
    {
        self.display.view()
    }
}
