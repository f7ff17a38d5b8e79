//! Undo and redo, which reach every view.
ghost use Rattle.std.specs.Prelude.{◌≡◌, ◌+◌, ◌≤◌, length, IfErr, IfOk, OnOk};
ghost use Rattle.display_map.specs.Replay.{present_of};
ghost use Rattle.split_views.specs.Views.{history_of};
ghost use Rattle.undo_line.specs.Inverse.{Leads, inverse, text_after};
ghost use Rattle.split_script.specs.Lines.{Redo, Undo};
ghost use Rattle.split_runner.specs.Going.{HandlesReady, IsAcceptedIn, IsUnrestored, SameSink, done_in_all, stage};

use crate::changing::batch_of;
use crate::runner::Runner;
use cell_units::{NoMemory, Refusal, Steps};
use display_map::Change;
use display_sheet::Splice;
use script_runner::{Sink, Stop};
use std::alloc::Global;

/// A batch that is equal to a lent one.
fn copied(alloc: Global, batch: &[Splice]) -> Result<Vec<Splice>, NoMemory>
    ensures { IfOk result (λ copy. copy.items ≡ batch.now) }
{
    let mut copy = Vec::with_capacity(alloc, batch.len())?;
    for splice in batch {
        copy.push_reserved(splice.copy(alloc)?);
    }
    Ok(copy)
}

impl<'a, K: Sink> Runner<'a, K> {
    /// Does a batch of the undo line in every view, as the line of this number, and returns what takes it back.
    fn restore(&mut self, number: u64, batch: Vec<Splice>) -> Result<Vec<Splice>, Stop>
        requires { 1 ≤ length self.old.split }

        // It is done where there is room and memory. What is there after it, and what takes it back.
        ensures accepted { OnOk result (IsAcceptedIn 0 batch.items self.old.split) }
        ensures done { OnOk result
            (self.new.split ≡ done_in_all number batch.items self.old.split) }
        ensures back { IfOk result (λ back. back.items
            ≡ inverse (present_of (history_of self.old.split 0)).text batch.items) }
        ensures leads { IfOk result (λ back.
            let text = (present_of (history_of self.old.split 0)).text
            in Leads (text_after text batch.items) back.items text) }

        // Why it isn't done, and what is there then.
        ensures unrestored { IfErr result
            (IsUnrestored number batch.items self.old.split self.new.split) }

        // The batches that wait and the sink stay.
        ensures undo { self.new.undo ≡ self.old.undo }
        ensures written { K.state self.new.out.now ≡ K.state self.old.out.now }
        ensures sink { SameSink self.old self.new }
    {
        self.check_room(batch.len())?;
        let shown = self.split.view(0)?;
        let change = Change::Edit(batch);
        let Some(batch) = batch_of(&change) else {
            return Err(Stop::Memory);
        };
        // No view refuses it: each has the text on which the undo line leads on by it.
        match self.reach(number, 0, &shown, &change, batch) {
            Ok(back) => Ok(back),
            Err(_) => Err(Stop::Memory),
        }
    }

    /// Takes the last edit back, or refuses that where there is none.
    pub(crate) fn undo(&mut self, number: u64) -> Result<bool, Stop>
        requires { 1 ≤ length self.old.split }
        ensures handled { HandlesReady number Undo
            (stage K.state self.old) (stage K.state self.new) result }
        ensures sink { SameSink self.old self.new }
    {
        self.undo.ready()?;
        let Some(batch) = self.undo.last_done() else {
            return self.refuse_astray(Refusal::NothingThere);
        };
        let batch = copied(self.alloc, batch)?;
        let back = self.restore(number, batch)?;
        self.undo.undone(back);
        Ok(false)
    }

    /// Does the edit again that was taken back last, or refuses that where there is none.
    pub(crate) fn redo(&mut self, number: u64) -> Result<bool, Stop>
        requires { 1 ≤ length self.old.split }
        ensures handled { HandlesReady number Redo
            (stage K.state self.old) (stage K.state self.new) result }
        ensures sink { SameSink self.old self.new }
    {
        self.undo.ready()?;
        let Some(batch) = self.undo.last_undone() else {
            return self.refuse_astray(Refusal::NothingThere);
        };
        let batch = copied(self.alloc, batch)?;
        let back = self.restore(number, batch)?;
        self.undo.redone(back);
        Ok(false)
    }
}
