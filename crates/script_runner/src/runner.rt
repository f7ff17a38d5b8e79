//! The runner of a script: it handles one line after the other.
ghost use Rattle.std.specs.Prelude.{true, false, ◌≡◌, ◌+◌, ◌<◌, ◌≤◌, ◌^◌, ◌⊎◌, ℕ, [], ◌∷◌, length, OnOk, IfOk, IfErr, OnErr, IfSome};
ghost use Rattle.display_sheet.specs.Changes.{ops_of};
ghost use Rattle.display_map.specs.Events.{event_limit};
ghost use Rattle.display_map.specs.Events.{Line};
ghost use Rattle.display_map.specs.Replay.{present_of, appended};
ghost use Rattle.live_display.specs.Owned.{IsSameTeam};
ghost use Rattle.live_display.specs.declared.owner.TheConstants.{EVENTS_AHEAD};
ghost use Rattle.edit_script.specs.declared.asked.Asked.TheVariants as asks;
ghost use Rattle.edit_script.specs.Commands.{AskCaret, Settle, meaning};
ghost use Rattle.edit_script.specs.Verdict.{Refused, Accepted, query_wants_settled};
ghost use Rattle.script_runner.specs.declared.stop.Stop.TheVariants as stops;
ghost use Rattle.script_runner.specs.CaretLines.{caret_lines};
ghost use Rattle.script_runner.specs.Entries.{script_lines, asked_by_command};
ghost use Rattle.script_runner.specs.inside.Carets.{lines_of};
ghost use Rattle.script_runner.specs.Going.{IsReady, IsShown, IsAbreast, IsPrepared, IsPreparedFor, HasChanged, IsWithinChange, IsUnrecorded, Handles, HandlesUnread, HandlesQuery, HandlesChange, IsReadOn, IsUnreadOn, query_verdict, read_wants_settled, HandlesLine, HandlesFirst, HandlesAll, HandlesScript, PlaysAll, IsSameRun, SameSink, stage};

use crate::carets::{CaretAnswer, answer_caret, write_caret_answer};
use crate::outside::Sink;
use crate::script::{head_of, split_line};
use crate::settling::{check_room, finish, land_ready, prepare};
use crate::stop::Stop;
use crate::tally::{Outcome, Tally};
use crate::write::{write_answer, write_refusal};
use cell_units::{Fault, NoMemory, Refusal, Steps};
use display_map::{Change, View};
use edit_script::{Asked, CaretQuery, Form, Query, answer, query_refusal, read_line, skipped};
use live_display::Owner;
use std::alloc::Global;
use std::sync::Wait;
use wrap_workers::Gate;

/// How many operations a change asks for: an entry of an edit counts as one.
fn operations(change: &Change) -> usize
    ensures asked { result ≡ asked_by_command (Some (meaning (asks.Change change.now))) }
    ensures most { length (ops_of change.now) ≤ result }
{
    match change {
        Change::Edit(splices) => splices.len(),
        Change::One(_) => 1,
    }
}

/// Whether a question is answered only where every display line is wrapped at the width.
fn query_wants_settled(query: &Query) -> bool
    ensures { result ≡ query_wants_settled query.now }
{
    !matches!(query, Query::Peek { .. })
}

/// Whether what was read of a line is to be done only there: not where the view refuses it.
fn wants_settled(alloc: Global, view: &View, read: &Result<Asked, Fault>, steps: &mut Steps) -> bool
    ensures settles { result ≡ read_wants_settled (present_of view.now) read.now }
    ensures counted { steps.old ≤ steps.new }
{
    match read {
        Ok(Asked::Settle | Asked::Caret(_)) => true,
        Ok(Asked::Query(query)) => match query_refusal(alloc, view, query, steps) {
            None => query_wants_settled(query),
            Some(_) => false,
        },
        Ok(Asked::Change(_)) | Err(_) => false,
    }
}

/// Records that the line of this number is handled, where the journal has room for it and for so many operations.
fn record_line(number: u64, operations: usize, owner: &mut Owner) -> Result<(), Stop>
    requires { IsShown owner.old }

    // Where it is recorded, the journal had room for a step's events beside the operations.
    ensures recorded { OnOk result
        (owner.new.display ≡ appended owner.old.display (Line number ∷ [])) }
    ensures room { OnOk result
        (length owner.old.display.events + EVENTS_AHEAD + operations ≤ event_limit) }

    // Where it isn't, the display stays: there was too little room, or no memory.
    ensures unchanged { OnErr result (owner.new.display ≡ owner.old.display) }
    ensures why { IfErr result
        (IsUnrecorded (length owner.old.display.events + EVENTS_AHEAD + operations)) }

    // The owner is ready unless it stopped, and its team is the same.
    ensures ready { OnOk result (IsReady owner.new) }
    ensures team { IsSameTeam owner.old owner.new }
{
    check_room(&owner.display, operations)?;
    owner.note_line(number)?;
    Ok(())
}

/// Does a change, and publishes the display where it had an operation. Returns why it is refused, if it is.
fn apply_change<R: Wait>(
    rt: &R,
    change: &Change,
    owner: &mut Owner,
) -> Result<Option<Refusal>, Stop>
    // There is room for the operations and a version, and the owner is ready.
    requires room { length owner.old.display.events + length (ops_of change.now) + 1 ≤ event_limit }
    requires ready { IsReady owner.old }

    // All of it is done and published, or a refusal that is owed leaves the display as it was.
    ensures changed { IfOk result (HasChanged owner.old.display change.now owner.new.display) }

    // It stops only where it is out of memory: before the change, before its version, or before that is shown.
    ensures memory { IfErr result (λ stop. stop ≡ stops.Memory) }
    ensures stopped { OnErr result
        (IsWithinChange owner.old.display change.now owner.new.display) }

    // The owner is ready again unless it stopped, and its team is the same.
    ensures ready { OnOk result (IsReady owner.new) }
    ensures team { IsSameTeam owner.old owner.new }
{
    let room = owner.display.room();
    match owner.apply(change) {
        Ok(()) => {}
        Err(Fault::Refused(refusal)) => return Ok(Some(refusal)),
        Err(Fault::NoMemory) => return Err(Stop::Memory),
    }
    // The journal grew where there was an operation.
    if owner.display.room() < room {
        owner.publish(rt, false)?;
    }
    Ok(None)
}

/// What runs a script on a display, beside the workers of its owner: it reads the lines in one form, which is that of the script
/// once its head is read, and writes the answers to a sink. It isn't `Drop`, as its owner isn't.
pub struct Runner<'a, R, G, K> {
    pub rt: &'a R,
    pub gate: &'a G,
    pub form: Form,
    pub owner: Owner,
    pub out: &'a mut K,
}

impl<'a, R: Wait, G: Gate, K: Sink> Runner<'a, R, G, K> {
    /// Handles the line of this number that asks for nothing but the wrapping of every display line.
    fn settled(&mut self, number: u64) -> Result<Outcome, Stop>
        // The next line may be handled, and no line of the display is left to be wrapped.
        requires abreast { IsAbreast self.old.owner }
        requires settled { IsPrepared true self.old.owner.display }

        // The entry, which is accepted, is handled, or the run stops.
        ensures handled { Handles self.old.owner.crew.workers number (Accepted Settle)
            (stage K.state self.old) (stage K.state self.new) result }

        // The owner is ready again where the run goes on. Its team, the sink and the form stay.
        ensures ready { OnOk result (IsReady self.new.owner) }
        ensures same { IsSameRun self.old self.new }
    {
        record_line(number, 0, &mut self.owner)?;
        Ok(Outcome::Accepted { lines: 0 })
    }

    /// Refuses the line of this number.
    fn refuse(&mut self, number: u64, refusal: Refusal) -> Result<Outcome, Stop>
        // The next line may be handled, and no job was waited for.
        requires abreast { IsAbreast self.old.owner }
        requires unsettled { IsPrepared false self.old.owner.display }

        // The entry to which this refusal is owed is handled, or the run stops.
        ensures handled { Handles self.old.owner.crew.workers number (Refused refusal)
            (stage K.state self.old) (stage K.state self.new) result }

        // The owner is ready again where the run goes on. Its team, the sink and the form stay.
        ensures ready { OnOk result (IsReady self.new.owner) }
        ensures same { IsSameRun self.old self.new }
    {
        record_line(number, 0, &mut self.owner)?;
        write_refusal(self.owner.alloc, "", refusal, self.out)?;
        Ok(Outcome::Refused)
    }

    /// Refuses the line of this number for why it wasn't read, or stops where there was no memory for that.
    fn refuse_unread(&mut self, number: u64, fault: Fault) -> Result<Outcome, Stop>
        // The next line may be handled, and no job was waited for.
        requires abreast { IsAbreast self.old.owner }
        requires unsettled { IsPrepared false self.old.owner.display }

        // The entry that wasn't read for this fault is handled, or the run stops.
        ensures handled { HandlesUnread self.old.owner.crew.workers number fault
            (stage K.state self.old) (stage K.state self.new) result }

        // The owner is ready again where the run goes on. Its team, the sink and the form stay.
        ensures ready { OnOk result (IsReady self.new.owner) }
        ensures same { IsSameRun self.old self.new }
    {
        match fault {
            Fault::Refused(refusal) => self.refuse(number, refusal),
            Fault::NoMemory => Err(Stop::Memory),
        }
    }

    /// Answers a query on a view of the display, or refuses it, which the line of this number asks.
    fn answer(&mut self, number: u64, query: &Query) -> Result<Outcome, Stop>
        // The next line may be handled. No line of the display is left to be wrapped where the query isn't refused and wants
        // that, and else no job was waited for.
        requires abreast { IsAbreast self.old.owner }
        requires prepared { IsPreparedFor (query_verdict self.old.owner.display query.now)
            self.old.owner.display }

        // The entry that asks this is handled, accepted or refused, or the run stops.
        ensures handled { HandlesQuery self.old.owner.crew.workers number query.now
            (stage K.state self.old) (stage K.state self.new) result }

        // The owner is ready again where the run goes on. Its team, the sink and the form stay.
        ensures ready { OnOk result (IsReady self.new.owner) }
        ensures same { IsSameRun self.old self.new }
    {
        let mut steps = Steps::new();
        let alloc = self.owner.alloc;
        let view = self.owner.display.view()?;
        // For the proof: no answer has too many lines to be counted.
        let _rows = view.row_count();
        match answer(alloc, &view, query, &mut steps) {
            Ok(mut lines) => {
                record_line(number, 0, &mut self.owner)?;
                let lines = write_answer(alloc, "", &mut lines, self.out, &mut steps)?;
                Ok(Outcome::Accepted { lines })
            }
            Err(Fault::Refused(refusal)) => self.refuse(number, refusal),
            Err(Fault::NoMemory) => Err(Stop::Memory),
        }
    }

    /// What answers a question about a caret, on the display as it is.
    fn caret_answer(&self, query: &CaretQuery) -> Result<CaretAnswer, NoMemory>
        ensures { IfOk result (λ answer.
            lines_of answer ≡ caret_lines (present_of self.now.owner.display) query.now) }
    {
        let view = self.owner.display.view()?;
        answer_caret(self.owner.alloc, &view, query, &mut Steps::new())
    }

    /// Answers the question about a caret that the line of this number asks.
    fn answer_caret(&mut self, number: u64, query: &CaretQuery) -> Result<Outcome, Stop>
        // The next line may be handled, and no line of the display is left to be wrapped.
        requires abreast { IsAbreast self.old.owner }
        requires settled { IsPrepared true self.old.owner.display }

        // The entry that asks this, which is accepted, is handled, or the run stops.
        ensures handled { Handles self.old.owner.crew.workers number (Accepted (AskCaret query.now))
            (stage K.state self.old) (stage K.state self.new) result }

        // The owner is ready again where the run goes on. Its team, the sink and the form stay.
        ensures ready { OnOk result (IsReady self.new.owner) }
        ensures same { IsSameRun self.old self.new }
    {
        let answer = self.caret_answer(query)?;
        record_line(number, 0, &mut self.owner)?;
        let lines = write_caret_answer(self.owner.alloc, "", &answer, self.out)?;
        Ok(Outcome::Accepted { lines })
    }

    /// Does the change that the line of this number asks, or refuses it.
    fn change(&mut self, number: u64, change: &Change) -> Result<Outcome, Stop>
        // The next line may be handled, and no job was waited for.
        requires abreast { IsAbreast self.old.owner }
        requires unsettled { IsPrepared false self.old.owner.display }

        // The entry that asks for this change is handled, accepted or refused, or the run stops.
        ensures handled { HandlesChange self.old.owner.crew.workers number change.now
            (stage K.state self.old) (stage K.state self.new) result }

        // The owner is ready again where the run goes on. Its team, the sink and the form stay.
        ensures ready { OnOk result (IsReady self.new.owner) }
        ensures same { IsSameRun self.old self.new }
    {
        record_line(number, operations(change), &mut self.owner)?;
        match apply_change(self.rt, change, &mut self.owner)? {
            Some(refusal) => {
                write_refusal(self.owner.alloc, "", refusal, self.out)?;
                Ok(Outcome::Refused)
            }
            None => Ok(Outcome::Accepted { lines: 0 }),
        }
    }

    /// What the line asks on the display as it is, and whether it is to be done only where every display line is wrapped
    /// at the width.
    fn read(&self, line: &[u8]) -> (Result<Asked, Fault>, bool)
        ensures read { IfOk result.0
            (IsReadOn self.now.form (present_of self.now.owner.display).text line.now) }
        ensures refused { IfErr result.0
            (IsUnreadOn self.now.form (present_of self.now.owner.display).text line.now) }
        ensures settles { result.1 ≡ read_wants_settled (present_of self.now.owner.display) result.0 }
    {
        let Ok(view) = self.owner.display.view() else {
            return (Err(Fault::NoMemory), false);
        };
        let alloc = self.owner.alloc;
        let mut steps = Steps::new();
        let read = read_line(alloc, line, self.form, &view, &mut steps);
        let settles = wants_settled(alloc, &view, &read, &mut steps);
        (read, settles)
    }

    /// Handles the line of this number, and says what became of it.
    fn handle_line(&mut self, number: u64, line: &[u8]) -> Result<Outcome, Stop>
        requires { IsReady self.old.owner }

        // The entry of this line is handled, whatever the verdict on it, or the run stops.
        ensures handled { HandlesLine self.old.owner.crew.workers number self.old.form line.now
            (stage K.state self.old) (stage K.state self.new) result }

        // The owner is ready again where the run goes on. Its team, the sink and the form stay.
        ensures ready { OnOk result (IsReady self.new.owner) }
        ensures same { IsSameRun self.old self.new }
    {
        let (read, settles) = self.read(line);
        prepare(self.rt, self.gate, &mut self.owner, settles)?;
        match read {
            Ok(Asked::Change(change)) => self.change(number, &change),
            Ok(Asked::Query(query)) => self.answer(number, &query),
            Ok(Asked::Caret(query)) => self.answer_caret(number, &query),
            Ok(Asked::Settle) => self.settled(number),
            Err(fault) => self.refuse_unread(number, fault),
        }
    }

    /// Handles the line of this number, unless it is skipped, and says what became of it.
    fn run_line(&mut self, number: u64, line: &[u8]) -> Result<Outcome, Stop>
        requires { IsReady self.old.owner }

        // The run goes on with the lines after this one, the next number first, or it stops.
        ensures handled { HandlesFirst self.old.owner.crew.workers number self.old.form line.now
            (stage K.state self.old) (stage K.state self.new) result }

        // The owner is ready again where the run goes on. Its team, the sink and the form stay.
        ensures ready { OnOk result (IsReady self.new.owner) }
        ensures same { IsSameRun self.old self.new }
    {
        if skipped(line) {
            return Ok(Outcome::Skipped);
        }
        land_ready(self.rt, &mut self.owner)?;
        self.handle_line(number, line)
    }

    /// Handles the lines after so many that were passed, and counts them.
    fn run_lines(&mut self, passed: u64, lines: &[u8]) -> Result<Tally, Stop>
        // The owner is ready, and the number of each line is a u64.
        requires ready { IsReady self.old.owner }
        requires numbers { passed + length lines.now < 2 ^ 64 }

        // No entry is left and all answers are written, or the run stops.
        ensures handled { HandlesAll self.old.owner.crew.workers self.old.form passed
            (script_lines lines.now) (stage K.state self.old) (stage K.state self.new) result }

        // The owner is ready again where the run goes on. Its team and the sink stay.
        ensures ready { OnOk result (IsReady self.new.owner) }
        ensures team { IsSameTeam self.old.owner self.new.owner }
        ensures sink { SameSink self.old self.new }
    {
        let mut rest = lines;
        let mut number = passed;
        let mut tally = Tally::none();
        while !rest.is_empty() {
            let (line, behind) = split_line(rest);
            number += 1;
            let outcome = self.run_line(number, line)?;
            tally.count(outcome);
            rest = behind;
        }
        Ok(tally)
    }

    /// Handles the lines of a script, in the form that its head gives, and counts them.
    fn run_script(&mut self, script: &[u8]) -> Result<Tally, Stop>
        requires { IsReady self.old.owner }

        // No entry of the script is left and all answers are written, or the run stops.
        ensures handled { HandlesScript self.old.owner.crew.workers script.now
            (stage K.state self.old) (stage K.state self.new) result }

        // The owner is ready again where the run goes on. Its team and the sink stay.
        ensures ready { OnOk result (IsReady self.new.owner) }
        ensures team { IsSameTeam self.old.owner self.new.owner }
        ensures sink { SameSink self.old self.new }
    {
        check_room(&self.owner.display, 0)?;
        let head = head_of(self.owner.alloc, script)?;
        self.form = head.form;
        self.run_lines(head.passed, head.rest)
    }

    /// Runs a script to its last version, and counts its lines. It stops with `Stop::Write` where a write fails, with
    /// `Stop::JournalFull` where the journal has no room for the next line, and with `Stop::Memory` where memory ends.
    pub fn play(&mut self, script: &[u8]) -> Result<Tally, Stop>
        requires { IsReady self.old.owner }

        // All answers are written, and the last version is published and shown, or the run stops.
        ensures played { PlaysAll self.old.owner.crew.workers script.now
            (stage K.state self.old) (stage K.state self.new) result }
        ensures shown { OnOk result
            (IfSome self.new.owner.writer (λ writer. writer.newest ≡ self.new.owner.display)) }

        // The owner's team and the sink stay.
        ensures team { IsSameTeam self.old.owner self.new.owner }
        ensures sink { SameSink self.old self.new }
    {
        let tally = self.run_script(script)?;
        finish(self.rt, self.gate, &mut self.owner)?;
        Ok(tally)
    }
}
