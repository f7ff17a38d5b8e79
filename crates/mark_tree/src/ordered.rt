//! Lists in order, in which no id is there twice.
ghost use Rattle.std.specs.Prelude.{◌≡◌, ℕ, ◌+◌, ◌*◌, ◌^◌, ◌<◌, ◌≤◌, ◌++◌, ◌∷◌, [], Some, not, false, length, take, drop, filter, slice_get, slice_index_or, IfOk, IfErr, OnOk, OnErr};
ghost use Rattle.cell_units.specs.Sorting.{insert_by};
ghost use Rattle.std.specs.List.{list_any};
ghost use Rattle.sum_tree.specs.Bounds.{TakesAtMost, way};
ghost use Rattle.mark_tree.specs.Bounds.{SearchesAndTakes, adding, changing, halving, taking};
ghost use Rattle.mark_tree.specs.declared.entry.Placed.{Placed};
ghost use Rattle.mark_tree.specs.Entries.{IsCodable, end_at};
ghost use Rattle.mark_tree.specs.Marks.{IsRefusedFor};
ghost use Rattle.mark_tree.specs.Order.{IsOrdered, IsPlaceFor, has_placed_id, key_of, lacks_placed_id, placed_le};

use crate::entry::Placed;
use crate::key::Key;
use crate::spaced::Spaced;
use cell_units::{Fault, NoMemory, Refusal, Shift, Steps};
use std::alloc::Global;
use sum_core::Load;

/// The replacement of nothing by nothing.
pub(crate) const NO_SHIFT: Shift = Shift {
    start: 0,
    end: 0,
    count: 0,
};

/// What was taken off a list, and the place at which it was.
#[derive(Drop)]
pub(crate) struct Taken<P> {
    pub(crate) place: u32,
    pub(crate) thing: Placed<P>,
}

impl<P: Load> Spaced<P> {
    fn key_at(&self, at: u32, steps: &mut Steps) -> Key
        requires { at < length self.now }
        ensures key { (d : Placed P) → result ≡ key_of (slice_index_or self.now at d) }
        ensures counted { steps.old ≤ steps.new }
        ensures steps { TakesAtMost way (length self.now) steps.old steps.new }
    {
        match self.get(at, steps) {
            Some(found) => Key::new(
                found.offset,
                found.entry.bias,
                found.entry.length,
                found.entry.id,
            ),
            None => unreachable!(),
        }
    }

    /// The place of a thing of this key in order: before the first that isn't less.
    pub(crate) fn place_for(&self, key: Key, steps: &mut Steps) -> u32
        requires ordered { IsOrdered self.now }
        ensures place { IsPlaceFor key self.now result }
        ensures counted { steps.old ≤ steps.new }
        ensures steps { TakesAtMost halving (length self.now) steps.old steps.new }
    {
        // Things at other offsets come before or after by these.
        let next = self.next_at(key.offset as u64, steps);
        // Mostly all do.
        if next.offset != Some(key.offset) {
            return next.place;
        }
        let mut low = next.place;
        let mut high = self.first_at(key.offset as u64 + 1, steps);
        while low < high {
            let middle = low + (high - low) / 2;
            let is_less = self.key_at(middle, steps).cmp(&key).is_lt();
            if is_less {
                low = middle + 1;
            } else {
                high = middle;
            }
        }
        low
    }

    /// Adds a thing in order, and returns its place. `IdInUse` exactly where its id is there.
    pub(crate) fn add(
        &mut self,
        alloc: Global,
        fresh: Placed<P>,
        steps: &mut Steps,
    ) -> Result<u32, Fault>
        // The list is in order, and the thing's end and the length with it are u32.
        requires ordered { IsOrdered self.old }
        requires end { end_at fresh < 2 ^ 32 }
        requires small { length self.old + 1 < 2 ^ 32 }

        // The list after it, and where the thing is in it.
        ensures ok { OnOk result (self.new ≡ insert_by placed_le fresh self.old) }
        ensures place { IfOk result (λ at.
            self.new ≡ take at self.old ++ fresh ∷ drop at self.old) }
        ensures fresh { OnOk result (list_any (has_placed_id fresh.id) self.old ≡ false) }

        // Why it is refused, and what stays then. Either way the list is in order.
        ensures refused { let is_there = list_any (has_placed_id fresh.id) self.old in
            IfErr result (IsRefusedFor Refusal.IdInUse is_there) }
        ensures unchanged { OnErr result (self.new ≡ self.old) }
        ensures ordered { IsOrdered self.new }

        // The work.
        ensures counted { steps.old ≤ steps.new }
        ensures steps { SearchesAndTakes changing (length self.old + 1) steps.old steps.new }
    {
        if self.find_id(fresh.id, steps).is_some() {
            return Err(Fault::Refused(Refusal::IdInUse));
        }
        Ok(self.put(alloc, fresh, steps)?)
    }

    /// Adds a thing in order whose id isn't there, and returns its place.
    pub(crate) fn put(
        &mut self,
        alloc: Global,
        fresh: Placed<P>,
        steps: &mut Steps,
    ) -> Result<u32, NoMemory>
        // The list is in order and lacks the id, and the thing's end and the length with it are u32.
        requires ordered { IsOrdered self.old }
        requires end { end_at fresh < 2 ^ 32 }
        requires small { length self.old + 1 < 2 ^ 32 }
        requires fresh { list_any (has_placed_id fresh.id) self.old ≡ false }

        // The list after it, and where the thing is in it.
        ensures ok { OnOk result (self.new ≡ insert_by placed_le fresh self.old) }
        ensures place { IfOk result (λ at.
            self.new ≡ take at self.old ++ fresh ∷ drop at self.old) }
        ensures within { IfOk result (λ at. at ≤ length self.old) }

        // The list stays where there is no memory. Either way it is in order.
        ensures unchanged { OnErr result (self.new ≡ self.old) }
        ensures ordered { IsOrdered self.new }

        // The work.
        ensures counted { steps.old ≤ steps.new }
        ensures steps { TakesAtMost adding (length self.old + 1) steps.old steps.new }
    {
        // For the proof: the number of things is a u32, and so is each place.
        let _count = self.len();
        let at = self.place_for(fresh.key(), steps);
        let single = single(alloc, fresh)?;
        self.splice(alloc, at, at, single, &NO_SHIFT, steps)?;
        Ok(at)
    }

    /// Takes the thing of this id off the list, and returns its place with it. `UnknownId` exactly where there is none.
    pub(crate) fn take_id(
        &mut self,
        alloc: Global,
        id: u32,
        steps: &mut Steps,
    ) -> Result<Taken<P>, Fault>
        // The list is in order.
        requires ordered { IsOrdered self.old }

        // The list after it, and where the thing was before.
        ensures ok { OnOk result (self.new ≡ filter (lacks_placed_id id) self.old) }
        ensures thing { IfOk result (λ t. slice_get self.old t.place ≡ Some t.thing) }
        ensures rest { IfOk result (λ t.
            self.new ≡ take t.place self.old ++ drop (t.place + 1) self.old) }
        ensures id { IfOk result (λ t. t.thing.id ≡ id) }

        // Why it is refused, and what stays then. Either way the list is in order.
        ensures refused { let is_there = list_any (has_placed_id id) self.old in
            IfErr result (IsRefusedFor Refusal.UnknownId (not is_there)) }
        ensures unchanged { OnErr result (self.new ≡ self.old) }
        ensures ordered { IsOrdered self.new }

        // The work.
        ensures counted { steps.old ≤ steps.new }
        ensures steps { SearchesAndTakes changing (length self.old) steps.old steps.new }
    {
        let Some(place) = self.find_id(id, steps) else {
            return Err(Fault::Refused(Refusal::UnknownId));
        };
        let thing = self.take_at(alloc, place, steps)?;
        Ok(Taken { place, thing })
    }

    /// Takes the thing at place `at` off the list.
    pub(crate) fn take_at(
        &mut self,
        alloc: Global,
        at: u32,
        steps: &mut Steps,
    ) -> Result<Placed<P>, NoMemory>
        // The list is in order, and has a thing at the place.
        requires ordered { IsOrdered self.old }
        requires within { at < length self.old }

        // The list after it, and the thing that was there.
        ensures ok { OnOk result (self.new ≡ take at self.old ++ drop (at + 1) self.old) }
        ensures thing { IfOk result (λ p. slice_get self.old at ≡ Some p) }

        // The list stays where there is no memory. Either way it is in order.
        ensures unchanged { OnErr result (self.new ≡ self.old) }
        ensures ordered { IsOrdered self.new }

        // The work.
        ensures counted { steps.old ≤ steps.new }
        ensures steps { TakesAtMost taking (length self.old) steps.old steps.new }
    {
        // For the proof: the number of things is a u32, and so is each place.
        let _count = self.len();
        let thing = self.copy_at(alloc, at, steps)?;
        self.splice(alloc, at, at + 1, Vec::new(alloc), &NO_SHIFT, steps)?;
        Ok(thing)
    }
}

fn single<P: Load>(alloc: Global, thing: Placed<P>) -> Result<Vec<Placed<P>>, NoMemory>
    ensures { IfOk result (λ v. v.items ≡ thing ∷ []) }
{
    let mut things = Vec::new(alloc);
    things.push(thing)?;
    Ok(things)
}
