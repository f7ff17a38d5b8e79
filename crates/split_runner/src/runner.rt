//! The runner of a script for several views: what it does with all views, and with a question of one.
ghost use Rattle.std.specs.Prelude.{true, false, ◌≡◌, ◌+◌, ◌<◌, ◌≤◌, All, ℕ, List, [], length, IfErr, IfOk, OnOk};
ghost use Rattle.cell_units.specs.declared.fault.Refusal.{Refusal};
ghost use Rattle.cell_units.specs.declared.fault.Fault.TheVariants as faults;
ghost use Rattle.display_map.specs.Replay.{is_settled, present_of};
ghost use Rattle.live_display.specs.declared.owner.TheConstants.{EVENTS_AHEAD};
ghost use Rattle.edit_script.specs.Commands.{AskCaret, Settle};
ghost use Rattle.edit_script.specs.Verdict.{Accepted, Refused};
ghost use Rattle.split_views.specs.Views.{history_of};
ghost use Rattle.split_views.specs.Wrapping.{IsIdle};
ghost use Rattle.split_views.specs.declared.split.TheConstants.{VIEW_LIMIT};
ghost use Rattle.split_script.specs.Lines.{Astray, Own, Redo, Skipped, Undo, line_of, prefixed, split_line};
ghost use Rattle.split_runner.specs.Going.{GoesOn, Handles, HandlesOwn, HandlesQuery, HandlesReady, HandlesRefused, HandlesUnread, HaveRoomFor, IsOfViews, IsTooFull, MayHandle, SameSink, Settles, stage};

use cell_units::{Fault, Refusal, Steps};
use display_map::View;
use edit_script::{Asked, CaretQuery, Form, Query, answer, read_line};
use live_display::EVENTS_AHEAD;
use script_runner::{Sink, Stop, answer_caret, write_answer, write_caret_answer, write_refusal};
use split_script::{SplitLine, split_line};
use split_views::Split;
use std::alloc::Global;
use undo_line::UndoLine;

/// What runs a script on so many views of a text, and writes the answers to a sink.
pub(crate) struct Runner<'a, K> {
    pub(crate) alloc: Global,
    pub(crate) split: Split,
    pub(crate) undo: UndoLine,
    pub(crate) out: &'a mut K,
}

/// What comes before each line that a view prints: its digit and a space.
fn prefix(view: u32) -> &'static str
    requires { view < 8 }
    ensures { result.now ≡ prefixed view [] }
{
    match view {
        0 => "0 ",
        1 => "1 ",
        2 => "2 ",
        3 => "3 ",
        4 => "4 ",
        5 => "5 ",
        6 => "6 ",
        _ => "7 ",
    }
}

impl<'a, K: Sink> Runner<'a, K> {
    /// Whether each journal has room for the events of a step, with so many operations.
    pub(crate) fn check_room(&self, operations: usize) -> Result<(), Stop>
        ensures room { OnOk result (HaveRoomFor (EVENTS_AHEAD + operations) self.now.split) }
        ensures full { IfErr result (IsTooFull (EVENTS_AHEAD + operations) self.now.split) }
    {
        let room = self.split.room();
        if room < EVENTS_AHEAD || operations > (room - EVENTS_AHEAD) as usize {
            return Err(Stop::JournalFull);
        }
        Ok(())
    }

    /// Wraps every line of every view at its width.
    pub(crate) fn settle(&mut self) -> Result<(), Stop>
        requires { All IsIdle self.old.split }
        ensures settled { Settles (stage K.state self.old) (stage K.state self.new) result }
        ensures count { length self.new.split ≡ length self.old.split }
        ensures sink { SameSink self.old self.new }
    {
        if !self.split.settle_all(self.alloc, &mut Steps::new())? {
            return Err(Stop::JournalFull);
        }
        Ok(())
    }

    /// Refuses the line of this number for its view.
    pub(crate) fn refuse(&mut self, number: u64, view: u32, refusal: Refusal) -> Result<bool, Stop>
        requires { MayHandle view self.old.split }
        ensures handled { HandlesOwn number view (Refused refusal)
            (stage K.state self.old) (stage K.state self.new) result }
        ensures sink { SameSink self.old self.new }
    {
        self.split.note_line(self.alloc, view, number)?;
        write_refusal(self.alloc, prefix(view), refusal, self.out)?;
        Ok(true)
    }

    /// Refuses the line of this number, which isn't read, or stops where there was no memory for that.
    pub(crate) fn refuse_unread(
        &mut self,
        number: u64,
        view: u32,
        fault: Fault,
    ) -> Result<bool, Stop>
        requires { MayHandle view self.old.split }
        ensures handled { HandlesUnread number view fault
            (stage K.state self.old) (stage K.state self.new) result }
        ensures sink { SameSink self.old self.new }
    {
        match fault {
            Fault::Refused(refusal) => self.refuse(number, view, refusal),
            Fault::NoMemory => Err(Stop::Memory),
        }
    }

    /// Answers a query of a view, or refuses it.
    fn answer(&mut self, number: u64, view: u32, shown: &View, query: &Query) -> Result<bool, Stop>
        requires may { MayHandle view self.old.split }
        requires shown { shown.now ≡ history_of self.old.split view }
        ensures handled { HandlesQuery number view query.now
            (stage K.state self.old) (stage K.state self.new) result }
        ensures sink { SameSink self.old self.new }
    {
        let mut steps = Steps::new();
        // For the proof: no answer has too many lines to be counted.
        let _rows = shown.row_count();
        match answer(self.alloc, shown, query, &mut steps) {
            Ok(mut lines) => {
                self.split.note_line(self.alloc, view, number)?;
                write_answer(self.alloc, prefix(view), &mut lines, self.out, &mut steps)?;
                Ok(false)
            }
            Err(fault) => self.refuse_unread(number, view, fault),
        }
    }

    /// Answers a question of a view about a caret.
    fn answer_caret(
        &mut self,
        number: u64,
        view: u32,
        shown: &View,
        query: &CaretQuery,
    ) -> Result<bool, Stop>
        requires may { MayHandle view self.old.split }
        requires shown { shown.now ≡ history_of self.old.split view }
        ensures handled { HandlesOwn number view (Accepted (AskCaret query.now))
            (stage K.state self.old) (stage K.state self.new) result }
        ensures sink { SameSink self.old self.new }
    {
        let answer = answer_caret(self.alloc, shown, query, &mut Steps::new())?;
        self.split.note_line(self.alloc, view, number)?;
        write_caret_answer(self.alloc, prefix(view), &answer, self.out)?;
        Ok(false)
    }

    /// Handles the line of this number that asks for nothing but what is done before each line.
    fn settled(&mut self, number: u64, view: u32) -> Result<bool, Stop>
        requires { MayHandle view self.old.split }
        ensures handled { HandlesOwn number view (Accepted Settle)
            (stage K.state self.old) (stage K.state self.new) result }
        ensures sink { SameSink self.old self.new }
    {
        self.split.note_line(self.alloc, view, number)?;
        Ok(false)
    }

    /// Handles the line of this number for a view.
    fn own_line(&mut self, number: u64, view: u32, line: &[u8]) -> Result<bool, Stop>
        requires { MayHandle view self.old.split }
        ensures handled { HandlesReady number (Own view line.now)
            (stage K.state self.old) (stage K.state self.new) result }
        ensures sink { SameSink self.old self.new }
    {
        let shown = self.split.view(view)?;
        match read_line(self.alloc, line, Form::First, &shown, &mut Steps::new()) {
            Ok(Asked::Change(change)) => self.change(number, view, &shown, &change),
            Ok(Asked::Query(query)) => self.answer(number, view, &shown, &query),
            Ok(Asked::Caret(query)) => self.answer_caret(number, view, &shown, &query),
            Ok(Asked::Settle) => self.settled(number, view),
            Err(fault) => self.refuse_unread(number, view, fault),
        }
    }

    /// Refuses a line of no view.
    pub(crate) fn refuse_astray(&mut self, refusal: Refusal) -> Result<bool, Stop>
        ensures handled { HandlesRefused refusal
            (stage K.state self.old) (stage K.state self.new) result }
        ensures sink { SameSink self.old self.new }
    {
        write_refusal(self.alloc, "", refusal, self.out)?;
        Ok(true)
    }

    /// Handles a line that isn't skipped, once every view is settled.
    fn handle_line(&mut self, number: u64, line: SplitLine<'_>) -> Result<bool, Stop>
        requires goes_on { GoesOn (stage K.state self.old) }
        requires there { IsOfViews (length self.old.split) (line_of line) }
        ensures handled { Handles number (line_of line.entry)
            (stage K.state self.old) (stage K.state self.new) result }
        ensures sink { SameSink self.old self.new }
    {
        self.settle()?;
        self.check_room(0)?;
        // For the proof: there are no more views than there may be.
        self.split.of_one_text();
        match line {
            SplitLine::Skipped => Ok(false),
            SplitLine::Own { view, line } => self.own_line(number, view, line),
            SplitLine::Undo => self.undo(number),
            SplitLine::Redo => self.redo(number),
            SplitLine::Astray => self.refuse_astray(Refusal::NotCommand),
        }
    }

    /// Handles the line of this number, and returns whether it is refused.
    pub(crate) fn run_line(&mut self, number: u64, line: &[u8]) -> Result<bool, Stop>
        requires { GoesOn (stage K.state self.old) }
        ensures handled { Handles number (split_line (length self.old.split) line.now)
            (stage K.state self.old) (stage K.state self.new) result }
        ensures sink { SameSink self.old self.new }
    {
        // For the proof: there are no more views than there may be.
        self.split.of_one_text();
        match split_line(self.split.views(), line) {
            SplitLine::Skipped => Ok(false),
            line => self.handle_line(number, line),
        }
    }
}
