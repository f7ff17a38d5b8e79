//! The tree of marks: adding, removing, finding and moving them.
ghost use Rattle.std.specs.Prelude.{◌≡◌, ℕ, ◌+◌, ◌*◌, ◌^◌, ◌<◌, ◌≤◌, ◌++◌, ◌∷◌, [], Some, not, false, nat_le, length, map, filter, count_by, position, slice_get, take, drop, All, IfOk, IfErr, OnOk, OnErr, MatchOption};
ghost use Rattle.std.specs.List.{list_any, position_or_len};
ghost use Rattle.cell_units.specs.Sorting.{insert_by};
ghost use Rattle.sum_tree.specs.Bounds.{Searches, TakesAtMost, way};
ghost use Rattle.mark_tree.specs.Bounds.{SearchesAndTakes, adding, both_ends, changing, halving, moving, taking};
ghost use Rattle.mark_tree.specs.Marks.{IsMarkList, IsRefusedFor, has_id, is_met, is_not_before, lacks_id, mark_le, mark_with, move_mark, moved_marks};

use crate::entry::Placed;
use crate::key::Key;
use crate::mark::{Mark, Places};
use crate::spaced::Spaced;
use cell_units::{Bias, Fault, NoMemory, Refusal, Shift, Steps};
use std::alloc::Global;
use std::marker::Model;
use sum_core::Load;

/// Marks of distinct ids, sorted by offset, bias (Left first) and id. Contracts see it as that list. Copies share what
/// they have in common, and no later change of the one is seen by another.
///
/// Bounds on the steps of a call are given for each h such that the marks are fewer than 2 * 6^(h + 1). The least such
/// h is the greatest height of a tree of so many.
pub struct MarkTree<P: Load> {
    marks: Spaced<P>,
}

impl<P: Load> Drop for MarkTree<P> {
    fn drop(self) {
        let MarkTree { marks: _ } = self;
    }
}

impl<P: Load> Model for MarkTree<P> {
    ghost use Rattle.std.specs.Prelude.{List, map};
    ghost use Rattle.mark_tree.specs.declared.mark.Mark.{Mark};
    ghost use Rattle.mark_tree.specs.Views.{AreMarks, mark_of};

    ghost Value = { List (Mark P) };

    ghost view = { λ t. map mark_of t.marks };

    ghost invariant = { λ t. AreMarks t.marks };
}

impl<P: Load> MarkTree<P> {
    /// No marks. It allocates nothing.
    pub fn new(alloc: Global) -> MarkTree<P>
        ensures { result ≡ [] }
    {
        MarkTree {
            marks: Spaced::new(alloc),
        }
    }

    /// An equal tree.
    pub fn share(&self) -> Result<MarkTree<P>, NoMemory>
        ensures { IfOk result (λ t. t ≡ self.now) }
    {
        Ok(MarkTree {
            marks: self.marks.share()?,
        })
    }

    /// The number of marks.
    pub fn len(&self) -> u32
        ensures len { result ≡ length self.now }
        ensures lawful { IsMarkList self.now }
    {
        self.marks.len()
    }

    /// The offset, bias, id and load of the mark at place `at`, counted from 0. `None` exactly where there is none.
    pub fn get(&self, at: u32, steps: &mut Steps) -> Option<(u32, Bias, u32, &P)>
        ensures mark { MatchOption result (length self.now ≤ at) (λ m.
            slice_get self.now at ≡ Some (mark_with m.0 m.1 m.2 m.3.now)) }
        ensures counted { steps.old ≤ steps.new }
        ensures steps { TakesAtMost way (length self.now) steps.old steps.new }
    {
        let found = self.marks.get(at, steps)?;
        Some((
            found.offset,
            found.entry.bias,
            found.entry.id,
            &found.entry.load,
        ))
    }

    /// The place, counted from 0, of the first mark at or after the offset. `None` exactly where there is none.
    pub fn at_or_after(&self, offset: u32, steps: &mut Steps) -> Option<u32>
        ensures place { result ≡ position (λ m. nat_le offset m.offset) self.now }
        ensures counted { steps.old ≤ steps.new }
        ensures steps { TakesAtMost way (length self.now) steps.old steps.new }
    {
        let at = self.marks.first_at(offset as u64, steps);
        if at < self.marks.len() {
            Some(at)
        } else {
            None
        }
    }

    /// The places of the marks that a replacement meets. They go from that of the first one at or after its start to
    /// that before the first one after its end.
    pub fn places_met(&self, shift: Shift, steps: &mut Steps) -> Places
        // The two places.
        ensures from { result.from ≡ position_or_len (λ m. nat_le shift.start m.offset) self.now }
        ensures to { result.to ≡ position_or_len (λ m. nat_le (shift.end + 1) m.offset) self.now }
        ensures order { result.from ≤ result.to }
        ensures within { result.to ≤ length self.now }

        // The work.
        ensures counted { steps.old ≤ steps.new }
        ensures steps { TakesAtMost both_ends (length self.now) steps.old steps.new }
    {
        self.marks.places_met(&shift, steps)
    }

    /// The place, counted from 0, of the mark of this id. `None` exactly where there is none.
    pub fn find(&self, id: u32, steps: &mut Steps) -> Option<u32>
        ensures place { result ≡ position (has_id id) self.now }
        ensures counted { steps.old ≤ steps.new }
        ensures steps { Searches (length self.now) steps.old steps.new }
    {
        self.marks.find_id(id, steps)
    }

    /// Whether there is a mark of this id.
    pub fn contains(&self, id: u32, steps: &mut Steps) -> bool
        ensures value { result ≡ list_any (has_id id) self.now }
        ensures counted { steps.old ≤ steps.new }
        ensures steps { Searches (length self.now) steps.old steps.new }
    {
        self.marks.find_id(id, steps).is_some()
    }

    /// The place at which a mark of this offset, bias and id is or would be: that of the first that isn't before it.
    pub fn place_of(&self, offset: u32, bias: Bias, id: u32, steps: &mut Steps) -> u32
        ensures place { result ≡ position_or_len (is_not_before offset bias id) self.now }
        ensures counted { steps.old ≤ steps.new }
        ensures steps { TakesAtMost halving (length self.now) steps.old steps.new }
    {
        self.marks.place_for(Key::new(offset, bias, 0, id), steps)
    }

    /// Adds a mark, and returns its place, counted from 0. `IdInUse` exactly where its id is there.
    pub fn insert(&mut self, alloc: Global, mark: Mark<P>, steps: &mut Steps) -> Result<u32, Fault>
        requires { length self.old + 1 < 2 ^ 32 }
        // The list after it, and where the mark is in it.
        ensures ok { OnOk result (self.new ≡ insert_by mark_le mark self.old) }
        ensures place { IfOk result (λ at.
            self.new ≡ take at self.old ++ mark ∷ drop at self.old) }
        ensures fresh { OnOk result (list_any (has_id mark.id) self.old ≡ false) }

        // The refusal is judged before any memory is taken.
        ensures refused { let is_there = list_any (has_id mark.id) self.old in
            IfErr result (IsRefusedFor Refusal.IdInUse is_there) }
        ensures unchanged { OnErr result (self.new ≡ self.old) }
        ensures counted { steps.old ≤ steps.new }
        ensures steps { SearchesAndTakes changing (length self.old + 1) steps.old steps.new }
    {
        let placed = Placed {
            offset: mark.offset,
            bias: mark.bias,
            length: 0,
            id: mark.id,
            load: mark.load,
        };
        self.marks.add(alloc, placed, steps)
    }

    /// Adds a mark of an id that isn't there, and returns its place, counted from 0. It seeks no id.
    pub fn put(&mut self, alloc: Global, mark: Mark<P>, steps: &mut Steps) -> Result<u32, NoMemory>
        requires small { length self.old + 1 < 2 ^ 32 }
        requires fresh { list_any (has_id mark.id) self.old ≡ false }
        // The list after it, and where the mark is in it.
        ensures ok { OnOk result (self.new ≡ insert_by mark_le mark self.old) }
        ensures place { IfOk result (λ at.
            self.new ≡ take at self.old ++ mark ∷ drop at self.old) }
        ensures within { IfOk result (λ at. at ≤ length self.old) }

        // What stays, and the work.
        ensures unchanged { OnErr result (self.new ≡ self.old) }
        ensures counted { steps.old ≤ steps.new }
        ensures steps { TakesAtMost adding (length self.old + 1) steps.old steps.new }
    {
        let placed = Placed {
            offset: mark.offset,
            bias: mark.bias,
            length: 0,
            id: mark.id,
            load: mark.load,
        };
        self.marks.put(alloc, placed, steps)
    }

    /// Takes the mark of this id off the tree, and returns it with the place at which it was, counted from 0.
    /// `UnknownId` exactly where there is none.
    pub fn remove(
        &mut self,
        alloc: Global,
        id: u32,
        steps: &mut Steps,
    ) -> Result<(u32, Mark<P>), Fault>
        // The list after it, and where the mark was before.
        ensures ok { OnOk result (self.new ≡ filter (lacks_id id) self.old) }
        ensures mark { IfOk result (λ r. slice_get self.old r.0 ≡ Some r.1) }
        ensures rest { IfOk result (λ r.
            self.new ≡ take r.0 self.old ++ drop (r.0 + 1) self.old) }
        ensures id { IfOk result (λ r. r.1.id ≡ id) }

        // The refusal is judged before any memory is taken.
        ensures refused { let is_there = list_any (has_id id) self.old in
            IfErr result (IsRefusedFor Refusal.UnknownId (not is_there)) }
        ensures unchanged { OnErr result (self.new ≡ self.old) }
        ensures counted { steps.old ≤ steps.new }
        ensures steps { SearchesAndTakes changing (length self.old) steps.old steps.new }
    {
        match self.marks.take_id(alloc, id, steps) {
            Ok(taken) => Ok((
                taken.place,
                Mark {
                    offset: taken.thing.offset,
                    bias: taken.thing.bias,
                    id: taken.thing.id,
                    load: taken.thing.load,
                },
            )),
            Err(fault) => Err(fault),
        }
    }

    /// Takes the mark at place `at`, counted from 0, off the tree.
    pub fn take(&mut self, alloc: Global, at: u32, steps: &mut Steps) -> Result<Mark<P>, NoMemory>
        requires { at < length self.old }

        // The list after it, and the mark that it had.
        ensures ok { OnOk result (self.new ≡ take at self.old ++ drop (at + 1) self.old) }
        ensures mark { IfOk result (λ m. slice_get self.old at ≡ Some m) }

        // What stays, and the work.
        ensures unchanged { OnErr result (self.new ≡ self.old) }
        ensures counted { steps.old ≤ steps.new }
        ensures steps { TakesAtMost taking (length self.old) steps.old steps.new }
    {
        match self.marks.take_at(alloc, at, steps) {
            Ok(thing) => Ok(Mark {
                offset: thing.offset,
                bias: thing.bias,
                id: thing.id,
                load: thing.load,
            }),
            Err(refused) => Err(refused),
        }
    }

    /// Moves each mark as the replacement does (*Anchors*), and sorts the marks again.
    pub fn apply(&mut self, alloc: Global, shift: Shift, steps: &mut Steps) -> Result<(), NoMemory>
        // Each offset is a u32 after the replacement.
        requires fits { All (λ m. m.offset < 2 ^ 32) (map (move_mark shift) self.old) }

        // What is there after it.
        ensures ok { OnOk result (self.new ≡ moved_marks shift self.old) }
        ensures unchanged { OnErr result (self.new ≡ self.old) }

        // The work, by the number of marks that the replacement meets.
        ensures counted { steps.old ≤ steps.new }
        ensures steps { let met = count_by (is_met shift) self.old in
            TakesAtMost (moving met) (length self.old) steps.old steps.new }
    {
        self.marks.move_marks(alloc, &shift, steps)
    }
}

/// Trees of marks may be dropped, moved to other threads and shared by them.
fn may_be_shared<P: Load + Send + Sync>(tree: &MarkTree<P>) {
    serves_threads(tree);
}

fn serves_threads<N: Drop + Send + Sync>(_tree: &N) {}
