//! Changes that a view asks for. An edit reaches every view.
ghost use Rattle.std.specs.Prelude.{◌≡◌, ◌+◌, ◌<◌, ◌≤◌, All, None, Some, length, IfErr, IfOk, OnOk};
ghost use Rattle.std.specs.Option.{option_copied};
ghost use Rattle.std.specs.Str.{IsUtf8};
ghost use Rattle.display_sheet.specs.Changes.{change_refusal, ops_of, parts_of};
ghost use Rattle.display_map.specs.Replay.{present_of};
ghost use Rattle.edit_script.specs.Commands.{meaning};
ghost use Rattle.edit_script.specs.declared.asked.Asked.TheVariants as asks;
ghost use Rattle.script_runner.specs.Entries.{asked_by_command};
ghost use Rattle.split_views.specs.Views.{history_of};
ghost use Rattle.undo_line.specs.Inverse.{Leads, inverse, text_after};
ghost use Rattle.split_script.specs.Met.{splices_in};
ghost use Rattle.split_runner.specs.Going.{HandlesChange, HandlesOwn, HaveRoomFor, IsAcceptedIn, IsUnreached, MayHandle, SameSink, change_verdict, done_in_all, stage};

use crate::runner::Runner;
use cell_units::{Fault, Steps};
use display_map::{Change, Op, View};
use display_sheet::Splice;
use script_runner::{Sink, Stop};
use std::slice;
use undo_line::inverse;

/// The batch that a change is, if it is an edit.
pub(crate) fn batch_of(change: &Change) -> Option<&[Splice]>
    ensures { option_copied result ≡ splices_in (parts_of change.now) }
{
    match change {
        Change::Edit(splices) => Some(splices.as_slice()),
        Change::One(Op::Replace(splice)) => Some(slice::from_ref(splice)),
        Change::One(_) => None,
    }
}

/// How many operations a change asks for: an entry of an edit counts as one.
fn operations(change: &Change) -> usize
    ensures asked { result ≡ asked_by_command (Some (meaning (asks.Change change.now))) }
    ensures most { length (ops_of change.now) ≤ result }
{
    match change {
        Change::Edit(splices) => splices.len(),
        Change::One(_) => 1,
    }
}

/// The texts of a batch are UTF-8. It does nothing.
fn read_texts(batch: &[Splice])
    ensures { All (λ s. IsUtf8 s.text) batch.now }
{
    for splice in batch {
        let _text = splice.text.as_str();
    }
}

impl<'a, K: Sink> Runner<'a, K> {
    /// Does a change, which is a batch, in every view, and publishes them if it has an operation. Returns what takes it
    /// back, which is empty if it has none.
    pub(crate) fn reach(
        &mut self,
        number: u64,
        view: u32,
        shown: &View,
        change: &Change,
        batch: &[Splice],
    ) -> Result<Vec<Splice>, Fault>
        requires there { view < length self.old.split }
        requires room { HaveRoomFor (length (ops_of change.now) + 2) self.old.split }
        requires shown { shown.now ≡ history_of self.old.split view }
        requires batch { splices_in (parts_of change.now) ≡ Some batch.now }

        // When it is done, and what is there after it.
        ensures accepted { OnOk result (IsAcceptedIn view batch.now self.old.split) }
        ensures done { OnOk result
            (self.new.split ≡ done_in_all number batch.now self.old.split) }

        // What takes it back.
        ensures back { IfOk result (λ back. back.items
            ≡ inverse (present_of (history_of self.old.split view)).text batch.now) }
        ensures leads { IfOk result (λ back.
            let text = (present_of (history_of self.old.split view)).text
            in Leads (text_after text batch.now) back.items text) }

        // Why it isn't done, and what is there then.
        ensures unreached { IfErr result
            (IsUnreached view number change.now batch.now self.old.split self.new.split) }

        // The batches that wait and the sink stay.
        ensures undo { self.new.undo ≡ self.old.undo }
        ensures written { K.state self.new.out.now ≡ K.state self.old.out.now }
        ensures sink { SameSink self.old self.new }
    {
        read_texts(batch);
        self.split
            .apply(self.alloc, view, number, change, &mut Steps::new())?;
        let back = inverse(self.alloc, shown, batch, &mut Steps::new())?;
        if back.is_empty() {
            return Ok(back);
        }
        self.split.publish_all(self.alloc, false)?;
        Ok(back)
    }

    /// Does the change of one view alone, or refuses it.
    fn adjust(&mut self, number: u64, view: u32, change: &Change) -> Result<bool, Stop>
        requires may { MayHandle view self.old.split }
        requires room { HaveRoomFor (length (ops_of change.now) + 2) self.old.split }
        requires alone { splices_in (parts_of change.now) ≡ None }
        ensures handled { HandlesOwn number view
            (change_verdict (history_of self.old.split view) change.now)
            (stage K.state self.old) (stage K.state self.new) result }
        ensures sink { SameSink self.old self.new }
    {
        match self
            .split
            .apply(self.alloc, view, number, change, &mut Steps::new())
        {
            Ok(()) => {
                let _version = self.split.publish(self.alloc, view, false)?;
                Ok(false)
            }
            Err(fault) => self.refuse_unread(number, view, fault),
        }
    }

    /// Does the edit of a view, and so of all views, or refuses it.
    fn edit(
        &mut self,
        number: u64,
        view: u32,
        shown: &View,
        change: &Change,
        batch: &[Splice],
    ) -> Result<bool, Stop>
        requires may { MayHandle view self.old.split }
        requires room { HaveRoomFor (length (ops_of change.now) + 2) self.old.split }
        requires shown { shown.now ≡ history_of self.old.split view }
        requires batch { splices_in (parts_of change.now) ≡ Some batch.now }
        ensures handled { HandlesOwn number view
            (change_verdict (history_of self.old.split view) change.now)
            (stage K.state self.old) (stage K.state self.new) result }
        ensures sink { SameSink self.old self.new }
    {
        self.undo.ready()?;
        match self.reach(number, view, shown, change, batch) {
            Ok(back) => {
                // There is nothing to take back after a batch without an operation.
                if back.is_empty() {
                    return Ok(false);
                }
                self.undo.edited(back);
                Ok(false)
            }
            Err(Fault::Refused(refusal)) => self.refuse(number, view, refusal),
            Err(Fault::NoMemory) => Err(Stop::Memory),
        }
    }

    /// Does the change that a view asks for, or refuses it.
    pub(crate) fn change(
        &mut self,
        number: u64,
        view: u32,
        shown: &View,
        change: &Change,
    ) -> Result<bool, Stop>
        requires may { MayHandle view self.old.split }
        requires shown { shown.now ≡ history_of self.old.split view }
        ensures handled { HandlesChange number view change.now
            (stage K.state self.old) (stage K.state self.new) result }
        ensures sink { SameSink self.old self.new }
    {
        self.check_room(operations(change))?;
        match batch_of(change) {
            Some(batch) => self.edit(number, view, shown, change, batch),
            None => self.adjust(number, view, change),
        }
    }
}
