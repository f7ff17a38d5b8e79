//! How a replacement moves things of no length.
ghost use Rattle.std.specs.Prelude.{◌≡◌, ℕ, ◌+◌, ◌*◌, ◌^◌, ◌<◌, ◌≤◌, length, map, take, drop, count_by, All, IfOk, OnOk, OnErr};
ghost use Rattle.cell_units.specs.Anchor.{move};
ghost use Rattle.sum_tree.specs.Bounds.{TakesAtMost};
ghost use Rattle.mark_tree.specs.Bounds.{both_ends, moving};
ghost use Rattle.mark_tree.specs.Entries.{end_at};
ghost use Rattle.mark_tree.specs.Order.{IsOrdered, meets_offset, move_placed, moved_placed};

use crate::entry::Placed;
use crate::key::sort_placed;
use crate::mark::Places;
use crate::spaced::Spaced;
use cell_units::{Bias, NoMemory, Shift, Steps};
use std::alloc::Global;
use sum_core::Load;

/// Where an anchor goes, in bytes (*Anchors*).
pub fn moved_offset(offset: u32, bias: Bias, shift: &Shift) -> u32
    requires fits { move offset bias shift.now.start shift.now.end shift.now.count < 2 ^ 32 }
    ensures { result ≡ move offset bias shift.now.start shift.now.end shift.now.count }
{
    if offset < shift.start {
        return offset;
    }
    if offset == shift.start && bias == Bias::Left {
        return offset;
    }
    if offset <= shift.end {
        shift.start + shift.count
    } else {
        offset - (shift.end - shift.start) + shift.count
    }
}

/// The things after the replacement, in the same order.
fn moved_all<P: Load>(
    alloc: Global,
    things: Vec<Placed<P>>,
    shift: &Shift,
) -> Result<Vec<Placed<P>>, NoMemory>
    requires fits { All (λ p. end_at p < 2 ^ 32) (map (move_placed shift.now) things.items) }
    ensures { IfOk result (λ v. v.items ≡ map (move_placed shift.now) things.items) }
{
    let mut moved = Vec::with_capacity(alloc, things.len())?;
    for thing in things {
        moved.push(Placed {
            offset: moved_offset(thing.offset, thing.bias, shift),
            bias: thing.bias,
            length: thing.length,
            id: thing.id,
            load: thing.load,
        })?;
    }
    Ok(moved)
}

impl<P: Load> Spaced<P> {
    /// The places of the things that the replacement meets.
    pub(crate) fn places_met(&self, shift: &Shift, steps: &mut Steps) -> Places
        // The places are in the list.
        ensures order { result.from ≤ result.to }
        ensures within { result.to ≤ length self.now }

        // Before `from` each offset is less than the replacement's start, and from there on none is.
        ensures before { All (λ p. p.offset < shift.now.start) (take result.from self.now) }
        ensures from { All (λ p. shift.now.start ≤ p.offset) (drop result.from self.now) }

        // Before `to` each offset is at most the replacement's end, and from there on none is.
        ensures upto { All (λ p. p.offset < shift.now.end + 1) (take result.to self.now) }
        ensures behind { All (λ p. shift.now.end + 1 ≤ p.offset) (drop result.to self.now) }

        // The work, at most two ways down the tree.
        ensures counted { steps.old ≤ steps.new }
        ensures steps { TakesAtMost both_ends (length self.now) steps.old steps.new }
    {
        self.places_between(shift.start as u64, shift.end as u64 + 1, steps)
    }

    /// Moves all things as the replacement does, and sorts them again.
    pub(crate) fn move_marks(
        &mut self,
        alloc: Global,
        shift: &Shift,
        steps: &mut Steps,
    ) -> Result<(), NoMemory>
        // The list is in order, and each end is a u32 after the replacement.
        requires ordered { IsOrdered self.old }
        requires fits { All (λ p. end_at p < 2 ^ 32) (map (move_placed shift.now) self.old) }

        // What is there after it. Either way the list is in order.
        ensures ok { OnOk result (self.new ≡ moved_placed shift.now self.old) }
        ensures unchanged { OnErr result (self.new ≡ self.old) }
        ensures ordered { IsOrdered self.new }

        // The work, by the number of things that the replacement meets.
        ensures counted { steps.old ≤ steps.new }
        ensures steps { let met = count_by (meets_offset shift.now) self.old in
            TakesAtMost (moving met) (length self.old) steps.old steps.new }
    {
        // For the proof: the number of things is a u32.
        let _count = self.len();
        let met = self.places_met(shift, steps);
        let copies = self.copied(alloc, met.from, met.to, steps)?;
        let mut moved = moved_all(alloc, copies, shift)?;
        sort_placed(&mut moved)?;
        self.splice(alloc, met.from, met.to, moved, shift, steps)
    }
}
