//! Stops that are taken out, and stops that edits of rows carry.
ghost use Rattle.std.specs.Prelude.{◌≡◌, ◌*◌, ◌<◌, ◌≤◌, length, map, OnOk};
ghost use Rattle.std.specs.List.{All, list_any};
ghost use Rattle.edit_patch.specs.Patch.{IsPatch};
ghost use Rattle.sum_tree.specs.Bounds.{TakesAtMost};
ghost use Rattle.block_map.specs.Bounds.{putting};
ghost use Rattle.block_map.specs.inside.RowMoves.{IsKeptStop, MayBeMoved, carried, changes_count, grown, shrunk};
ghost use Rattle.block_map.specs.inside.StopLists.{AreRising, StopsFit};
ghost use Rattle.block_map.specs.inside.Without.{IsRising, without};

use crate::stops::Stops;
use cell_units::{Bias, NoMemory, Shift, Steps};
use edit_patch::Edit;
use std::alloc::Global;

/// Whether an edit puts in more rows than it takes away, or fewer.
fn change_counts(edits: &[Edit]) -> bool
    ensures { result ≡ list_any changes_count edits.now }
{
    edits.iter().any(|edit| {
        u64::from(edit.old_end) + u64::from(edit.new_start)
            != u64::from(edit.new_end) + u64::from(edit.old_start)
    })
}

impl Stops {
    /// Takes out the stops of some places, which rise.
    pub(crate) fn take_out(
        &mut self,
        alloc: Global,
        places: &[u32],
        steps: &mut Steps,
    ) -> Result<(), NoMemory>
        // There is a stop at each place, and all rows together are a u32.
        requires rising { IsRising 0 places.now }
        requires within { All (λ a. a < length self.old) places.now }
        requires fit { StopsFit self.old }

        // The others stay, each at its row.
        ensures ok { OnOk result (self.new ≡ without places.now 0 self.old) }

        // The work: each stop is taken out by itself.
        ensures counted { steps.old ≤ steps.new }
        ensures steps { let count = length places.now in
            TakesAtMost (λ h. count * putting h) (length self.old) steps.old steps.new }
    {
        // For the proof: rows of stops don't fall.
        let _count = self.len();
        let mut left = places.len();
        while left > 0 {
            left -= 1;
            self.remove(alloc, places[left], steps)?;
        }
        Ok(())
    }

    /// Moves stops beside rows that edits keep, each with its row. All edits take their rows away, from the last to the
    /// first, and then each puts in its own, from the first to the last. So no stop is ever after both where it was and
    /// where it goes.
    pub(crate) fn carry(
        &mut self,
        alloc: Global,
        bias: Bias,
        edits: &[Edit],
        steps: &mut Steps,
    ) -> Result<(), NoMemory>
        // The edits keep the own row of each stop, and after them the stops are in order and fit a u32.
        requires patch { IsPatch edits.now }
        requires stops { MayBeMoved bias edits.now self.old }

        // Each stop, moved by all edits.
        ensures ok { OnOk result (self.new ≡ map (carried bias edits.now) self.old) }

        // The work: two changes for each edit.
        ensures counted { steps.old ≤ steps.new }
        ensures steps { let count = length edits.now in
            TakesAtMost (λ h. 2 * count * putting h) (length self.old) steps.old steps.new }
    {
        // Where each puts in as many rows as it takes away, no stop moves.
        if !change_counts(edits) {
            return Ok(());
        }
        self.shrink(alloc, bias, edits, steps)?;
        self.grow(alloc, bias, edits, steps)
    }

    /// Each edit takes its rows away.
    fn shrink(
        &mut self,
        alloc: Global,
        bias: Bias,
        edits: &[Edit],
        steps: &mut Steps,
    ) -> Result<(), NoMemory>
        // The edits keep the own row of each stop, and all rows together are a u32.
        requires patch { IsPatch edits.now }
        requires kept { All (IsKeptStop bias edits.now) self.old }
        requires fit { StopsFit self.old }

        // Each stop moves up by the rows that go before it.
        ensures ok { OnOk result (self.new ≡ map (shrunk bias edits.now) self.old) }

        // The work: one change for each edit.
        ensures counted { steps.old ≤ steps.new }
        ensures steps { let count = length edits.now in
            TakesAtMost (λ h. count * putting h) (length self.old) steps.old steps.new }
    {
        // For the proof: rows of stops don't fall.
        let _count = self.len();
        let mut left = edits.len();
        while left > 0 {
            left -= 1;
            let edit = edits[left];
            let rows = Shift::new(edit.old_start, edit.old_end, 0);
            self.move_behind(alloc, bias, rows, steps)?;
        }
        Ok(())
    }

    /// Each edit puts in its rows.
    fn grow(
        &mut self,
        alloc: Global,
        bias: Bias,
        edits: &[Edit],
        steps: &mut Steps,
    ) -> Result<(), NoMemory>
        // After the edits the stops are in order and fit a u32.
        requires patch { IsPatch edits.now }
        requires rising { AreRising 0 (map (grown bias edits.now) self.old) }
        requires fits { StopsFit (map (grown bias edits.now) self.old) }

        // Each stop moves down by the rows that come before it.
        ensures ok { OnOk result (self.new ≡ map (grown bias edits.now) self.old) }

        // The work: one change for each edit.
        ensures counted { steps.old ≤ steps.new }
        ensures steps { let count = length edits.now in
            TakesAtMost (λ h. count * putting h) (length self.old) steps.old steps.new }
    {
        let mut done = 0;
        while done < edits.len() {
            let edit = edits[done];
            let added = edit.new_end - edit.new_start;
            let rows = Shift::new(edit.new_start, edit.new_start, added);
            self.move_behind(alloc, bias, rows, steps)?;
            done += 1;
        }
        Ok(())
    }
}
