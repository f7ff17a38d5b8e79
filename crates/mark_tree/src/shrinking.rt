//! How a replacement moves ranges, and which it empties.
ghost use Rattle.std.specs.Prelude.{◌≡◌, ℕ, ◌+◌, ◌-◌, ◌*◌, ◌^◌, ◌<◌, ◌≤◌, ◌++◌, length, take, drop, count_by, All, IfOk, OnOk, OnErr};
ghost use Rattle.sum_tree.specs.Bounds.{ChangesAtMost, TakesAtMost, way};
ghost use Rattle.mark_tree.specs.Bounds.{moving_run, shrinking, shrinking_before};
ghost use Rattle.mark_tree.specs.Entries.{IsCodable, end_at, run};
ghost use Rattle.mark_tree.specs.Order.{has_placed_id};
ghost use Rattle.mark_tree.specs.RangeViews.{AreRanges, AreSplit, IsFittingMoved, IsGroup, all_left_over, emptied_id, emptied_ids, left_over, meets_extent, moved_extents, with_run_moved};

use crate::entry::Placed;
use crate::key::sort_placed;
use crate::moving::moved_offset;
use crate::ordered::NO_SHIFT;
use crate::spaced::Spaced;
use cell_units::{Bias, NoMemory, Shift, Steps};
use std::alloc::Global;
use sum_core::Load;

/// What a replacement leaves of ranges, and the ids of those that it empties.
#[derive(Drop)]
struct Remains<P> {
    ranges: Vec<Placed<P>>,
    dropped: Vec<u32>,
}

impl<P: Load> Remains<P> {
    /// Moves one more range.
    fn add(&mut self, range: Placed<P>, shift: &Shift) -> Result<(), NoMemory>
        requires end { end_at range < 2 ^ 32 }
        requires fits { IsFittingMoved shift.now range }
        ensures ranges { let before = self.old.ranges.items in
            OnOk result (self.new.ranges.items ≡ before ++ left_over shift.now range) }
        ensures dropped { let before = self.old.dropped.items in
            OnOk result (self.new.dropped.items ≡ before ++ emptied_id shift.now range) }
    {
        let start = moved_offset(range.offset, Bias::Right, shift);
        let end = moved_offset(range.offset + range.length, Bias::Left, shift);
        if start >= end {
            self.dropped.push(range.id)?;
            return Ok(());
        }
        self.ranges.push(Placed {
            offset: start,
            bias: range.bias,
            length: end - start,
            id: range.id,
            load: range.load,
        })?;
        Ok(())
    }
}

/// What the replacement leaves of all ranges.
fn remains_of<P: Load>(
    alloc: Global,
    ranges: Vec<Placed<P>>,
    shift: &Shift,
) -> Result<Remains<P>, NoMemory>
    requires ends { All (λ p. end_at p < 2 ^ 32) ranges.items }
    requires fits { All (IsFittingMoved shift.now) ranges.items }
    ensures ranges { IfOk result (λ r. r.ranges.items ≡ all_left_over shift.now ranges.items) }
    ensures dropped { IfOk result (λ r. r.dropped.items ≡ emptied_ids shift.now ranges.items) }
{
    let mut remains = Remains {
        ranges: Vec::new(alloc),
        dropped: Vec::new(alloc),
    };
    for range in ranges {
        remains.add(range, shift)?;
    }
    Ok(remains)
}

impl<P: Load> Spaced<P> {
    /// Moves all ranges as the replacement does, drops those that are empty then, and sorts the others again. Returns
    /// the ids of those that were dropped, in the order that they had.
    pub(crate) fn move_ranges(
        &mut self,
        alloc: Global,
        shift: &Shift,
        steps: &mut Steps,
    ) -> Result<Vec<u32>, NoMemory>
        // Ranges in order, none empty, of which both ends are u32 after the replacement.
        requires ranges { AreRanges self.old }
        requires fits { All (IsFittingMoved shift.now) self.old }

        // The list after it, and the ids of the ranges that the replacement empties.
        ensures ok { OnOk result (self.new ≡ moved_extents shift.now self.old) }
        ensures dropped { IfOk result (λ ids. ids.items ≡ emptied_ids shift.now self.old) }

        // The list stays where there is no memory. Either way its ranges are in order, none empty.
        ensures unchanged { OnErr result (self.new ≡ self.old) }
        ensures ranges { AreRanges self.new }

        // The work, by the number of ranges that the replacement meets.
        ensures counted { steps.old ≤ steps.new }
        ensures steps { let met = count_by (meets_extent shift.now) self.old in
            TakesAtMost (shrinking met) (length self.old) steps.old steps.new }
    {
        // For the proof: the number of ranges is a u32.
        let _count = self.len();
        let first = self.first_at(shift.start as u64, steps);
        let last = self.first_at(shift.end as u64 + 1, steps);
        let mut moved = self.share()?;
        moved.move_before(alloc, first, shift, steps)?;
        let dropped = moved.move_run(alloc, first, last, shift, shift, steps)?;
        *self = moved;
        Ok(dropped)
    }

    /// Moves the ranges that start before the replacement, which are those before place `first`: start by start, those
    /// that reach it. If it is out of memory only some are moved.
    fn move_before(
        &mut self,
        alloc: Global,
        first: u32,
        shift: &Shift,
        steps: &mut Steps,
    ) -> Result<(), NoMemory>
        requires { AreSplit shift.now first self.old }
        ensures ok { let front = moved_extents shift.now (take first self.old) in
            OnOk result (self.new ≡ front ++ drop first self.old) }
        ensures counted { steps.old ≤ steps.new }
        ensures steps { let met = count_by (meets_extent shift.now) (take first self.old) in
            TakesAtMost (shrinking_before met) (length self.old) steps.old steps.new }
    {
        let start = shift.start as u64;
        let mut at = 0;
        loop {
            // For the proof: each end is a u32.
            let _count = self.len();
            let from = self.first_reaching(alloc, at, start, steps)?;
            if from >= first {
                return Ok(());
            }
            let to = self.group_end(from, steps);
            self.move_run(alloc, from, to, shift, &NO_SHIFT, steps)?;
            at = to;
        }
    }

    /// The place after those that start where the one at place `from` does.
    fn group_end(&self, from: u32, steps: &mut Steps) -> u32
        requires { from < length self.now }
        ensures group { IsGroup from result self.now }
        ensures counted { steps.old ≤ steps.new }
        ensures steps { TakesAtMost (λ h. 2 * way h) (length self.now) steps.old steps.new }
    {
        // For the proof: the offsets don't fall.
        let _count = self.len();
        match self.get(from, steps) {
            Some(found) => self.first_at(found.offset as u64 + 1, steps),
            None => unreachable!(),
        }
    }

    /// Puts what the replacement leaves of those from place `from` to place `to` in their place, sorted again. Moves
    /// all that lies after them as `behind` does. Returns the ids of those that the replacement empties.
    fn move_run(
        &mut self,
        alloc: Global,
        from: u32,
        to: u32,
        shift: &Shift,
        behind: &Shift,
        steps: &mut Steps,
    ) -> Result<Vec<u32>, NoMemory>
        // The places are in the list.
        requires order { from ≤ to }
        requires within { to ≤ length self.old }

        // In the run from the one to the other no id is there twice, and both ends of each are u32 after `shift`.
        requires fits { All (IsFittingMoved shift.now) (run from to self.old) }
        requires distinct { let ran = run from to self.old in
            (id : ℕ) → count_by (has_placed_id id) ran ≤ 1 }

        // All after the run are at or after the end of `behind`, and the list after it can be coded.
        requires behind { All (λ p. behind.now.end ≤ p.offset) (drop to self.old) }
        requires codable { IsCodable (with_run_moved from to shift.now behind.now self.old) }

        // The list after it, and the ids of the ranges that `shift` empties.
        ensures ok { OnOk result (self.new ≡ with_run_moved from to shift.now behind.now self.old) }
        ensures dropped { let ran = run from to self.old in
            IfOk result (λ ids. ids.items ≡ emptied_ids shift.now ran) }

        // The work, by the number of ranges in the run.
        ensures counted { steps.old ≤ steps.new }
        ensures steps { let after = with_run_moved from to shift.now behind.now self.old in
            let cost = moving_run (to - from) in
            ChangesAtMost cost (length self.old) (length after) steps.old steps.new }
    {
        // For the proof: each end is a u32.
        let _count = self.len();
        let copies = self.copied(alloc, from, to, steps)?;
        let Remains {
            ranges: mut moved,
            dropped,
        } = remains_of(alloc, copies, shift)?;
        sort_placed(&mut moved)?;
        self.splice(alloc, from, to, moved, behind, steps)?;
        Ok(dropped)
    }
}
