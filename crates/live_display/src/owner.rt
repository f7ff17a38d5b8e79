//! The owner of a display.
ghost use Rattle.std.specs.Prelude.{◌≡◌, ◌+◌, ◌*◌, ◌<◌, ◌≤◌, ◌⊎◌, ◌∷◌, ◌++◌, [], false, true, length, map, IfErr, IfOk, IfSome, OnErr, OnOk, option_map};
ghost use Rattle.std.specs.Option.{ForSome};
ghost use Rattle.version_board.specs.Rows.{Follows};
ghost use Rattle.wrap_workers.specs.Jobs.{IsFree};
ghost use Rattle.wrap_workers.specs.Finishes.{job_of};
ghost use Rattle.wrap_workers.specs.Crewed.{IsTakenOff};
ghost use Rattle.display_sheet.specs.Changes.{change_refusal, ops_of};
ghost use Rattle.display_sheet.specs.Faults.{IsRefusedAs};
ghost use Rattle.display_map.specs.Events.{Did, Landed, Line, Published, event_limit};
ghost use Rattle.display_map.specs.Sending.{IsOutstanding};
ghost use Rattle.display_map.specs.Replay.{appended, is_settled, present_of, state_of};
ghost use Rattle.live_display.specs.declared.halt.Halt.TheVariants as halts;
ghost use Rattle.live_display.specs.declared.owner.TheConstants.{EVENTS_AHEAD};
ghost use Rattle.live_display.specs.Beside.{GoesWithout, HasGone, IsHalted, is_any_landing, is_send, outstanding};
ghost use Rattle.live_display.specs.Owned.{IsBusy, IsLanding, IsOwned, IsSameTeam};
ghost use Rattle.live_display.specs.Stepping.{HasLanded, HasLandedOne, HasSent, IsIdle, IsLonger, WasEmpty};

use crate::halt::Halt;
use cell_units::{Fault, NoMemory, Steps};
use display_map::{Change, Display, Held, Version, job_laws};
use std::alloc::Global;
use std::sync::Wait;
use version_board::{Writer, row_laws};
use wrap_workers::{Crew, Finished, Gate, Job};

/// For how many events the journal is to have room before a step, beside those of a change's operations. It is the most
/// that a step appends: `Sent`, `Landed` and `Published` for a job, or `Line` and `Published` for a script line and one
/// more for what comes between lines.
pub const EVENTS_AHEAD: u32 = 3;

/// A display, the crew that wraps its lines beside the owner, and the writer of the board that shows its versions, if somebody
/// looks at them. It isn't `Drop`: end it by `dismiss`, and then the writer by `close`.
pub struct Owner {
    pub alloc: Global,
    pub display: Display,
    pub crew: Crew<Held>,
    pub writer: Option<Writer>,
    pub steps: Steps,
}

/// Shows a version on the board, if there is one. It may wait for readers.
fn publish_on<R: Wait>(
    rt: &R,
    alloc: Global,
    writer: &mut Option<Writer>,
    version: Version,
) -> Result<(), NoMemory>
    requires { ForSome writer.old (λ w. Follows w.newest version) }
    ensures shown { OnOk result (IfSome writer.new (λ w. w.newest ≡ version)) }
    ensures unshown { OnErr result (writer.new ≡ writer.old) }
    ensures board { option_map (λ w. w.board) writer.new ≡ option_map (λ w. w.board) writer.old }
{
    match writer {
        Some(writer) => writer.publish(rt, alloc, version),
        None => Ok(()),
    }
}

impl Owner {
    /// Records that a script line is answered, refused or about to be done.
    pub fn note_line(&mut self, number: u64) -> Result<(), NoMemory>
        requires room { length self.old.display.events + 1 ≤ event_limit }
        requires owned { IsOwned self.old }

        // What is recorded, and what stays.
        ensures noted { OnOk result
            (self.new.display ≡ appended self.old.display (Line number ∷ [])) }
        ensures unchanged { OnErr result (self.new.display ≡ self.old.display) }

        // The crew.
        ensures owned { IsOwned self.new }
        ensures team { IsSameTeam self.old self.new }
    {
        // For the proof: a job that was sent is out until it lands.
        job_laws();
        self.display.note_line(self.alloc, number)
    }

    /// Does a change of the display, or refuses it.
    pub fn apply(&mut self, change: &Change) -> Result<(), Fault>
        requires room { length self.old.display.events + length (ops_of change.now) ≤ event_limit }
        requires owned { IsOwned self.old }

        // What is done, and when it is refused.
        ensures accepted { OnOk result
            (change_refusal (present_of self.old.display) change.now ≡ None) }
        ensures done { OnOk result
            (self.new.display ≡ appended self.old.display (map Did (ops_of change.now))) }
        ensures refused { IfErr result
            (IsRefusedAs (change_refusal (present_of self.old.display) change.now)) }
        ensures unchanged { OnErr result (self.new.display ≡ self.old.display) }

        // The crew.
        ensures owned { IsOwned self.new }
        ensures team { IsSameTeam self.old self.new }
    {
        // For the proof: a job that was sent is out until it lands.
        job_laws();
        self.display.apply(self.alloc, change, &mut self.steps)
    }

    /// Publishes the display as it is, and shows it. It may wait for readers.
    pub fn publish<R: Wait>(&mut self, rt: &R, last: bool) -> Result<(), NoMemory>
        requires room { length self.old.display.events + 1 ≤ event_limit }
        requires owned { IsOwned self.old }

        // What is published and shown.
        ensures published { OnOk result
            (self.new.display ≡ appended self.old.display (Published last ∷ [])) }
        ensures shown { OnOk result
            (IfSome self.new.writer (λ writer. writer.newest ≡ self.new.display)) }
        ensures owned { OnOk result (last ≡ false → IsOwned self.new) }

        // Where it is not shown, the board shows what it did.
        ensures unshown { OnErr result ((self.new.display ≡ self.old.display)
            ⊎ (self.new.display ≡ appended self.old.display (Published last ∷ []))) }
        ensures kept { OnErr result (self.new.writer ≡ self.old.writer) }

        // The crew.
        ensures crew { self.new.crew ≡ self.old.crew }
        ensures team { IsSameTeam self.old self.new }
    {
        // For the proof: a job that was sent is out until it lands, and the rows are those of the lines.
        job_laws();
        row_laws();
        let version = self.display.publish(self.alloc, last)?;
        publish_on(rt, self.alloc, &mut self.writer, version)
    }

    /// Lands the results that are there.
    pub fn land_ready<R: Wait>(&mut self, rt: &R) -> Result<(), Halt>
        requires { IsOwned self.old }

        // The display goes on by steps that may be taken, none of them a send, and crew and board are still its own.
        ensures gone { OnOk result
            (HasGone self.old.crew.workers self.old.display self.new.display) }
        ensures unsent { OnOk result (GoesWithout is_send self.old.display self.new.display) }
        ensures owned { OnOk result (IsOwned self.new) }

        // No result is left: the queue of results was empty with the jobs that are out now.
        ensures emptied { OnOk result (WasEmpty self.new.crew.out) }

        // Where it halts, and the crew.
        ensures halted { IfErr result
            (IsHalted self.old.crew.workers self.old.display self.new.display) }
        ensures team { IsSameTeam self.old self.new }
    {
        while self.land_one(rt)? {}
        Ok(())
    }

    /// Sends runs until no line waits, or two jobs for each worker are out.
    pub fn send_runs<R: Wait>(&mut self, rt: &R) -> Result<(), Halt>
        requires { IsOwned self.old }

        // What is reached, without a landing.
        ensures gone { OnOk result
            (HasGone self.old.crew.workers self.old.display self.new.display) }
        ensures sends { OnOk result
            (GoesWithout is_any_landing self.old.display self.new.display) }
        ensures owned { OnOk result (IsOwned self.new) }
        ensures busy { OnOk result (IsBusy self.new) }

        // Where it halts, and the crew.
        ensures halted { IfErr result
            (IsHalted self.old.crew.workers self.old.display self.new.display) }
        ensures team { IsSameTeam self.old self.new }
    {
        while self.send_next(rt)? {}
        Ok(())
    }

    /// Sends runs and lands results until every line is wrapped at the width. Where a result is wanted it does a waiting
    /// job itself, and waits for a worker only where no job waits.
    pub fn settle<R: Wait, G: Gate>(&mut self, rt: &R, gate: &G) -> Result<(), Halt>
        requires { IsOwned self.old }

        // What is reached.
        ensures gone { OnOk result
            (HasGone self.old.crew.workers self.old.display self.new.display) }
        ensures owned { OnOk result (IsOwned self.new) }
        ensures busy { OnOk result (IsBusy self.new) }
        ensures settled { OnOk result (is_settled (present_of self.new.display) ≡ true) }

        // Where it halts, and the crew.
        ensures halted { IfErr result
            (IsHalted self.old.crew.workers self.old.display self.new.display) }
        ensures team { IsSameTeam self.old self.new }
    {
        self.send_runs(rt)?;
        while self.wants_result() {
            self.turn(rt, gate)?;
        }
        Ok(())
    }

    /// Settles, and lands the results of all jobs that are out.
    pub fn finish<R: Wait, G: Gate>(&mut self, rt: &R, gate: &G) -> Result<(), Halt>
        requires { IsOwned self.old }

        // What is reached.
        ensures gone { OnOk result
            (HasGone self.old.crew.workers self.old.display self.new.display) }
        ensures owned { OnOk result (IsOwned self.new) }
        ensures settled { OnOk result (is_settled (present_of self.new.display) ≡ true) }
        ensures landed { OnOk result (outstanding (state_of self.new.display) ≡ 0) }

        // Where it halts, and the crew.
        ensures halted { IfErr result
            (IsHalted self.old.crew.workers self.old.display self.new.display) }
        ensures team { IsSameTeam self.old self.new }
    {
        self.send_runs(rt)?;
        while self.is_unfinished() {
            self.turn(rt, gate)?;
        }
        Ok(())
    }

    /// Puts one stop for each worker. What is left is the display, and the writer, if there is one, which is to be closed.
    pub fn dismiss<R: Wait>(self, rt: &R) -> (Display, Option<Writer>)
        ensures display { result.0 ≡ self.display }
        ensures writer { result.1 ≡ self.writer }
    {
        let Owner {
            alloc: _alloc,
            display,
            crew,
            writer,
            steps: _steps,
        } = self;
        crew.stop(rt);
        (display, writer)
    }

    /// Whether the journal has room for the events of a step.
    fn check_room(&self) -> Result<(), Halt>
        ensures room { OnOk result (length self.now.display.events + EVENTS_AHEAD ≤ event_limit) }
        ensures full { IfErr result (λ halt. (halt ≡ halts.Full)
            × (event_limit < length self.now.display.events + EVENTS_AHEAD)) }
    {
        if self.display.room() < EVENTS_AHEAD {
            return Err(Halt::Full);
        }
        Ok(())
    }

    /// Whether a result is wanted before every line is wrapped at the width. Where the crew is full a line may wait, and
    /// a look at all lines would be in vain.
    fn wants_result(&self) -> bool
        requires owned { IsOwned self.now }
        requires busy { IsBusy self.now }
        ensures out { result ≡ true → 1 ≤ length self.now.crew.out }
        ensures settled { result ≡ false → is_settled (present_of self.now.display) ≡ true }
    {
        self.crew.is_full() || !self.display.settled()
    }

    /// Whether a job is out, or a line is wrapped otherwise than at the width.
    fn is_unfinished(&self) -> bool
        // The crew is the display's, and no more may be sent.
        requires owned { IsOwned self.now }
        requires busy { IsBusy self.now }

        // Where it is so, there is a result to come.
        ensures out { result ≡ true → 1 ≤ length self.now.crew.out }

        // Where it isn't, each line is wrapped at the width, and every job has landed.
        ensures settled { result ≡ false → is_settled (present_of self.now.display) ≡ true }
        ensures landed { result ≡ false → outstanding (state_of self.now.display) ≡ 0 }
    {
        self.crew.out() > 0 || !self.display.settled()
    }

    /// Lands the next result, and sends runs again.
    fn turn<R: Wait, G: Gate>(&mut self, rt: &R, gate: &G) -> Result<(), Halt>
        // There is a result to come: a job of the display is out.
        requires owned { IsOwned self.old }
        requires some { 1 ≤ length self.old.crew.out }

        // What is reached: the journal grew, and no more may be sent.
        ensures gone { OnOk result
            (HasGone self.old.crew.workers self.old.display self.new.display) }
        ensures longer { OnOk result (IsLonger self.old.display self.new.display) }
        ensures owned { OnOk result (IsOwned self.new) }
        ensures busy { OnOk result (IsBusy self.new) }

        // Where it halts, and the crew.
        ensures halted { IfErr result
            (IsHalted self.old.crew.workers self.old.display self.new.display) }
        ensures team { IsSameTeam self.old self.new }
    {
        self.land_next(rt, gate)?;
        self.send_runs(rt)
    }

    /// Sends the next run, where a line waits and fewer than two jobs for each worker are out.
    fn send_next<R: Wait>(&mut self, rt: &R) -> Result<bool, Halt>
        requires { IsOwned self.old }

        // A run is sent with one event, or none may be sent and the display stays.
        ensures sent { IfOk result (HasSent self.old self.new) }
        ensures owned { OnOk result (IsOwned self.new) }

        // Where it halts, and the crew.
        ensures halted { IfErr result
            (IsHalted self.old.crew.workers self.old.display self.new.display) }
        ensures team { IsSameTeam self.old self.new }
    {
        // For the proof: a job that was sent is out until it lands.
        job_laws();
        self.check_room()?;
        if self.crew.is_full() {
            return Ok(false);
        }
        match self.display.take_run(self.alloc, &mut self.steps) {
            Ok(Some(job)) => Ok(self.hand_out(rt, job)),
            Ok(None) => Ok(false),
            Err(NoMemory) => Err(Halt::Memory),
        }
    }

    /// Hands out a job that was just sent, and answers whether the crew took it.
    fn hand_out<R: Wait>(&mut self, rt: &R, job: Job<Held>) -> bool
        // No job of this number is out, and fewer than two for each worker.
        requires free { IsFree job.number self.old.crew.out }
        requires room { length self.old.crew.out < 2 * self.old.crew.workers }

        // So the crew takes it, after those that are out.
        ensures taken { result ≡ true }
        ensures out { self.new.crew.out ≡ self.old.crew.out ++ job ∷ [] }

        // The workers, the display and the writer stay.
        ensures workers { self.new.crew.workers ≡ self.old.crew.workers }
        ensures display { self.new.display ≡ self.old.display }
        ensures writer { self.new.writer ≡ self.old.writer }
    {
        self.crew.hand_out(rt, job).is_ok()
    }

    /// Lands a result, if one is there.
    fn land_one<R: Wait>(&mut self, rt: &R) -> Result<bool, Halt>
        requires { IsOwned self.old }

        // A result landed with its version and fewer jobs are out, or none was there.
        ensures landed { IfOk result (HasLandedOne self.old self.new) }
        ensures owned { OnOk result (IsOwned self.new) }

        // Where it halts, and the crew.
        ensures halted { IfErr result
            (IsHalted self.old.crew.workers self.old.display self.new.display) }
        ensures team { IsSameTeam self.old self.new }
    {
        self.check_room()?;
        match self.crew.collect(rt) {
            Some(finished) => {
                self.land(rt, finished)?;
                Ok(true)
            }
            None => Ok(false),
        }
    }

    /// Lands the next result.
    fn land_next<R: Wait, G: Gate>(&mut self, rt: &R, gate: &G) -> Result<(), Halt>
        // There is a result to come: a job of the display is out.
        requires owned { IsOwned self.old }
        requires some { 1 ≤ length self.old.crew.out }

        // A result landed with its version: two events.
        ensures landed { OnOk result (HasLanded self.old self.new) }
        ensures owned { OnOk result (IsOwned self.new) }

        // Where it halts, and the crew.
        ensures halted { IfErr result
            (IsHalted self.old.crew.workers self.old.display self.new.display) }
        ensures team { IsSameTeam self.old self.new }
    {
        self.check_room()?;
        let finished = self.take_result(rt, gate);
        self.land(rt, finished)
    }

    /// Takes the next result.
    fn take_result<R: Wait, G: Gate>(&mut self, rt: &R, gate: &G) -> Finished<Held>
        requires { 1 ≤ length self.old.crew.out }

        // It is of one of the jobs that were out, and the others still are.
        ensures taken { IsTakenOff (job_of result) self.old.crew.out self.new.crew.out }

        // The workers, the display and the writer stay.
        ensures workers { self.new.crew.workers ≡ self.old.crew.workers }
        ensures display { self.new.display ≡ self.old.display }
        ensures writer { self.new.writer ≡ self.old.writer }
    {
        if let Some(finished) = self.crew.collect(rt) {
            return finished;
        }
        if let Some(finished) = self.crew.help(rt, self.alloc, gate) {
            return finished;
        }
        self.wait_result(rt)
    }

    /// Waits until a worker has a result.
    fn wait_result<R: Wait>(&mut self, rt: &R) -> Finished<Held>
        // There is a result to come, and no job waits that the owner could do itself.
        requires some { 1 ≤ length self.old.crew.out }
        requires idle { IsIdle self.old }

        // It is of one of the jobs that were out, and the others still are.
        ensures taken { IsTakenOff (job_of result) self.old.crew.out self.new.crew.out }

        // The workers, the display and the writer stay.
        ensures workers { self.new.crew.workers ≡ self.old.crew.workers }
        ensures display { self.new.display ≡ self.old.display }
        ensures writer { self.new.writer ≡ self.old.writer }
    {
        self.crew.wait_one(rt)
    }

    /// Lands a result, and publishes the display.
    fn land<R: Wait>(&mut self, rt: &R, finished: Finished<Held>) -> Result<(), Halt>
        // The journal has room for a step, and the result is of a job that the crew had out.
        requires room { length self.old.display.events + EVENTS_AHEAD ≤ event_limit }
        requires landing { IsLanding self.old (job_of finished) }

        // It landed with its version, and the jobs that are out are the display's again. The crew itself stays.
        ensures landed { OnOk result (HasLanded self.old self.new) }
        ensures owned { OnOk result (IsOwned self.new) }
        ensures out { self.new.crew ≡ self.old.crew }

        // Where it halts, and the team.
        ensures halted { IfErr result
            (IsHalted self.old.crew.workers self.old.display self.new.display) }
        ensures team { IsSameTeam self.old self.new }
    {
        // For the proof: a job that was sent is out until it lands.
        job_laws();
        match self.take_in(finished) {
            Ok(()) => {}
            Err(NoMemory) => return Err(Halt::Memory),
        }
        match self.publish(rt, false) {
            Ok(()) => Ok(()),
            Err(NoMemory) => Err(Halt::Memory),
        }
    }

    /// Lands a result in the display, which is still to be published.
    fn take_in(&mut self, finished: Finished<Held>) -> Result<(), NoMemory>
        // The journal has room for one event, and the display sent the job, which hasn't landed.
        requires room { length self.old.display.events + 1 ≤ event_limit }
        requires out { IsOutstanding self.old.display (job_of finished) }

        // The landing is one event. Out of memory leaves the display as it was.
        ensures landed { OnOk result (self.new.display
            ≡ appended self.old.display (Landed (job_of finished).number ∷ [])) }
        ensures unchanged { OnErr result (self.new.display ≡ self.old.display) }

        // The crew and the writer stay.
        ensures crew { self.new.crew ≡ self.old.crew }
        ensures writer { self.new.writer ≡ self.old.writer }
    {
        let Finished::Done(done) = finished else {
            return Err(NoMemory);
        };
        match self.display.land(self.alloc, done, &mut self.steps) {
            Ok(()) => Ok(()),
            Err(_) => Err(NoMemory),
        }
    }
}
