//! Which ranges have a byte in common with others.
ghost use Rattle.std.specs.Prelude.{◌≡◌, ℕ, ◌+◌, ◌*◌, ◌^◌, ◌<◌, ◌≤◌, ◌∷◌, [], length, map, filter, count_by, IfOk, IfSome, MatchOption};
ghost use Rattle.sum_tree.specs.Bounds.{TakesAtMost};
ghost use Rattle.mark_tree.specs.Bounds.{meeting, next_meeting};
ghost use Rattle.mark_tree.specs.Meeting.{IsNextMet};
ghost use Rattle.mark_tree.specs.Ranges.{has_in_common};
ghost use Rattle.mark_tree.specs.RangeViews.{range_of};

use crate::mark::RangeMark;
use crate::spaced::Spaced;
use cell_units::{NoMemory, Steps};
use std::alloc::Global;
use sum_core::Load;

/// A range that was met, and its place.
#[derive(Clone, Copy)]
struct Met {
    place: u32,
    range: RangeMark,
}

impl<P: Load> Spaced<P> {
    /// The ranges that have a byte in common with those from `start` to `end`.
    pub(crate) fn all_met(
        &self,
        alloc: Global,
        start: u32,
        end: u32,
        steps: &mut Steps,
    ) -> Result<Vec<RangeMark>, NoMemory>
        ensures met { let ranges = map range_of self.now in
            IfOk result (λ v. v.items ≡ filter (has_in_common start end) ranges) }
        ensures counted { steps.old ≤ steps.new }
        ensures steps { let met = count_by (has_in_common start end) (map range_of self.now) in
            TakesAtMost (meeting met) (length self.now) steps.old steps.new }
    {
        // For the proof: the number of ranges is a u32, and so is each place.
        let _count = self.len();
        let mut ranges = Vec::new(alloc);
        let mut at = 0;
        while let Some(met) = self.next_met(alloc, at, start, end, steps)? {
            ranges.push(met.range)?;
            at = met.place + 1;
        }
        Ok(ranges)
    }

    /// The first range, from place `at` on, that has a byte in common with those from `start` to `end`.
    fn next_met(
        &self,
        alloc: Global,
        at: u32,
        start: u32,
        end: u32,
        steps: &mut Steps,
    ) -> Result<Option<Met>, NoMemory>
        // A place in the list or at its end.
        requires within { at ≤ length self.now }

        // The first range that is met from there on, and its place in the list, or none.
        ensures met { IfOk result (IsNextMet start end at self.now) }
        ensures place { IfOk result (λ m.
            IfSome m (λ n. (at ≤ n.place) × (n.place < length self.now))) }

        // The work.
        ensures counted { steps.old ≤ steps.new }
        ensures steps { TakesAtMost next_meeting (length self.now) steps.old steps.new }
    {
        // For the proof: each end is a u32.
        let _count = self.len();
        let place = self.first_reaching(alloc, at, start as u64 + 1, steps)?;
        let Some(found) = self.get(place, steps) else {
            return Ok(None);
        };
        // All after it start there or later.
        if found.offset >= end {
            return Ok(None);
        }
        let range = RangeMark {
            start: found.offset,
            end: found.offset + found.entry.length,
            id: found.entry.id,
        };
        Ok(Some(Met { place, range }))
    }
}
