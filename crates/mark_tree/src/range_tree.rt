//! The tree of ranges: adding, removing, finding and moving them.
ghost use Rattle.std.specs.Prelude.{◌≡◌, ℕ, ◌+◌, ◌*◌, ◌^◌, ◌<◌, ◌≤◌, [], not, false, length, map, filter, count_by, position, slice_get, All, Contains, IfOk, IfErr, OnOk, OnErr};
ghost use Rattle.std.specs.List.{list_any};
ghost use Rattle.cell_units.specs.Sorting.{insert_by};
ghost use Rattle.sum_tree.specs.Bounds.{Searches, TakesAtMost, way};
ghost use Rattle.mark_tree.specs.Bounds.{SearchesAndTakes, changing, meeting, shrinking};
ghost use Rattle.mark_tree.specs.Marks.{IsRefusedFor};
ghost use Rattle.mark_tree.specs.Ranges.{IsRangeList, dropped_ids, has_in_common, has_range_id, is_range_met, lacks_range_id, move_range, moved_ranges, range_le};

use crate::entry::Placed;
use crate::mark::RangeMark;
use crate::spaced::Spaced;
use cell_units::{Bias, Fault, NoMemory, Refusal, Shift, Steps};
use std::alloc::Global;
use std::marker::Model;
use sum_core::NoLoad;

/// Ranges of distinct ids, none empty, sorted by start, end and id. Contracts see it as that list. Copies share what
/// they have in common, and no later change of the one is seen by another.
///
/// Bounds on the steps of a call are given for each h such that the ranges are fewer than 2 * 6^(h + 1). The least such
/// h is the greatest height of a tree of so many.
pub struct RangeTree {
    ranges: Spaced<NoLoad>,
}

impl Drop for RangeTree {
    fn drop(self) {
        let RangeTree { ranges: _ } = self;
    }
}

impl Model for RangeTree {
    ghost use Rattle.std.specs.Prelude.{List, map};
    ghost use Rattle.mark_tree.specs.declared.mark.RangeMark.{RangeMark};
    ghost use Rattle.mark_tree.specs.RangeViews.{AreRanges, range_of};

    ghost Value = { List RangeMark };

    ghost view = { λ t. map range_of t.ranges };

    ghost invariant = { λ t. AreRanges t.ranges };
}

impl RangeTree {
    /// No ranges. It allocates nothing.
    pub fn new(alloc: Global) -> RangeTree
        ensures { result ≡ [] }
    {
        RangeTree {
            ranges: Spaced::new(alloc),
        }
    }

    /// An equal tree.
    pub fn share(&self) -> Result<RangeTree, NoMemory>
        ensures { IfOk result (λ t. t ≡ self.now) }
    {
        Ok(RangeTree {
            ranges: self.ranges.share()?,
        })
    }

    /// The number of ranges.
    pub fn len(&self) -> u32
        ensures len { result ≡ length self.now }
        ensures lawful { IsRangeList self.now }
    {
        self.ranges.len()
    }

    /// The range at place `at`, counted from 0. `None` exactly where there is none.
    pub fn get(&self, at: u32, steps: &mut Steps) -> Option<RangeMark>
        ensures range { result ≡ slice_get self.now at }
        ensures counted { steps.old ≤ steps.new }
        ensures steps { TakesAtMost way (length self.now) steps.old steps.new }
    {
        // For the proof: each end is a u32.
        let _count = self.ranges.len();
        let found = self.ranges.get(at, steps)?;
        Some(RangeMark {
            start: found.offset,
            end: found.offset + found.entry.length,
            id: found.entry.id,
        })
    }

    /// The place, counted from 0, of the range of this id. `None` exactly where there is none.
    pub fn find(&self, id: u32, steps: &mut Steps) -> Option<u32>
        ensures place { result ≡ position (has_range_id id) self.now }
        ensures counted { steps.old ≤ steps.new }
        ensures steps { Searches (length self.now) steps.old steps.new }
    {
        self.ranges.find_id(id, steps)
    }

    /// Whether there is a range of this id.
    pub fn contains(&self, id: u32, steps: &mut Steps) -> bool
        ensures value { result ≡ list_any (has_range_id id) self.now }
        ensures counted { steps.old ≤ steps.new }
        ensures steps { Searches (length self.now) steps.old steps.new }
    {
        self.ranges.find_id(id, steps).is_some()
    }

    /// Adds a range, which must not be empty. `IdInUse` exactly where its id is there.
    pub fn insert(
        &mut self,
        alloc: Global,
        range: RangeMark,
        steps: &mut Steps,
    ) -> Result<(), Fault>
        requires some { range.start < range.end }
        requires small { length self.old + 1 < 2 ^ 32 }
        // The list after it.
        ensures ok { OnOk result (self.new ≡ insert_by range_le range self.old) }
        ensures fresh { OnOk result (list_any (has_range_id range.id) self.old ≡ false) }

        // The refusal is judged before any memory is taken.
        ensures refused { let is_there = list_any (has_range_id range.id) self.old in
            IfErr result (IsRefusedFor Refusal.IdInUse is_there) }
        ensures unchanged { OnErr result (self.new ≡ self.old) }
        ensures counted { steps.old ≤ steps.new }
        ensures steps { SearchesAndTakes changing (length self.old + 1) steps.old steps.new }
    {
        let placed = Placed {
            offset: range.start,
            bias: Bias::Right,
            length: range.end - range.start,
            id: range.id,
            load: NoLoad,
        };
        match self.ranges.add(alloc, placed, steps) {
            Ok(_) => Ok(()),
            Err(fault) => Err(fault),
        }
    }

    /// Takes the range of this id off the tree. `UnknownId` exactly where there is none.
    pub fn remove(&mut self, alloc: Global, id: u32, steps: &mut Steps) -> Result<RangeMark, Fault>
        // The list after it, and the range that it had.
        ensures ok { OnOk result (self.new ≡ filter (lacks_range_id id) self.old) }
        ensures range { IfOk result (λ r. Contains self.old r) }
        ensures id { IfOk result (λ r. r.id ≡ id) }

        // The refusal is judged before any memory is taken.
        ensures refused { let is_there = list_any (has_range_id id) self.old in
            IfErr result (IsRefusedFor Refusal.UnknownId (not is_there)) }
        ensures unchanged { OnErr result (self.new ≡ self.old) }
        ensures counted { steps.old ≤ steps.new }
        ensures steps { SearchesAndTakes changing (length self.old) steps.old steps.new }
    {
        // For the proof: each end is a u32.
        let _count = self.ranges.len();
        match self.ranges.take_id(alloc, id, steps) {
            Ok(taken) => Ok(RangeMark {
                start: taken.thing.offset,
                end: taken.thing.offset + taken.thing.length,
                id: taken.thing.id,
            }),
            Err(fault) => Err(fault),
        }
    }

    /// Moves each range as the replacement does, anchored Right at its start and Left at its end (*Anchors*). Drops
    /// those that are empty then, and sorts the others again. Returns the ids of those that it dropped, in the order
    /// that they had.
    pub fn apply(
        &mut self,
        alloc: Global,
        shift: Shift,
        steps: &mut Steps,
    ) -> Result<Vec<u32>, NoMemory>
        requires fits { let moved = map (move_range shift) self.old in
            All (λ r. (r.start < 2 ^ 32) × (r.end < 2 ^ 32)) moved }

        // The list after it, and what it dropped.
        ensures ok { OnOk result (self.new ≡ moved_ranges shift self.old) }
        ensures dropped { IfOk result (λ ids. ids.items ≡ dropped_ids shift self.old) }

        // What stays, and the work.
        ensures unchanged { OnErr result (self.new ≡ self.old) }
        ensures counted { steps.old ≤ steps.new }
        ensures steps { let met = count_by (is_range_met shift) self.old in
            TakesAtMost (shrinking met) (length self.old) steps.old steps.new }
    {
        self.ranges.move_ranges(alloc, &shift, steps)
    }

    /// The ranges that have a byte in common with those from `start` to `end`: `range.start < end` and `start <
    /// range.end`.
    pub fn meeting(
        &self,
        alloc: Global,
        start: u32,
        end: u32,
        steps: &mut Steps,
    ) -> Result<Vec<RangeMark>, NoMemory>
        ensures met { IfOk result (λ v. v.items ≡ filter (has_in_common start end) self.now) }
        ensures counted { steps.old ≤ steps.new }
        ensures steps { let met = count_by (has_in_common start end) self.now in
            TakesAtMost (meeting met) (length self.now) steps.old steps.new }
    {
        self.ranges.all_met(alloc, start, end, steps)
    }
}
