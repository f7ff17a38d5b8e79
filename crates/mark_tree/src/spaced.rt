//! A list of things at offsets that don't fall, coded by the gaps between them.
ghost use Rattle.std.specs.Prelude.{◌≡◌, ℕ, ◌+◌, ◌-◌, ◌*◌, ◌^◌, ◌<◌, ◌≤◌, [], length, map, take, drop, min, All, slice_get, slice_index_or, position, is_some, IfOk, IfSome, OnOk, OnErr, MatchOption};
ghost use Rattle.std.specs.List.{list_any};
ghost use Rattle.sum_tree.specs.Bounds.{ChangesAtMost, Searches, TakesAtMost, way};
ghost use Rattle.mark_tree.specs.Bounds.{both_ends, splicing};
ghost use Rattle.mark_tree.specs.declared.entry.Placed.{Placed};
ghost use Rattle.mark_tree.specs.Extents.{end_of};
ghost use Rattle.mark_tree.specs.Entries.{IsCodable, IsRefill, IsSpaced, coded, end_at, extent_over, last_offset, placed_at, placed_from, shifted, spliced};
ghost use Rattle.mark_tree.specs.Order.{has_placed_id};

use crate::entry::{Entry, HasId, Placed};
use crate::extent::{ByItems, ByOffset};
use crate::mark::Places;
use cell_units::{Bias, NoMemory, Shift, Steps};
use std::alloc::Global;
use std::marker::Model;
use sum_core::Load;
use sum_tree::{Cursor, SumTree};

/// Things at offsets that don't fall and fit u32, as do all ends. Contracts see it as the list of these things.
pub(crate) struct Spaced<P: Load> {
    pub(crate) entries: SumTree<Entry<P>>,
}

impl<P: Load> Drop for Spaced<P> {
    fn drop(self) {
        let Spaced { entries: _ } = self;
    }
}

impl<P: Load> Model for Spaced<P> {
    ghost use Rattle.std.specs.Prelude.{List, ◌<◌, ◌^◌};
    ghost use Rattle.mark_tree.specs.declared.entry.Placed.{Placed};
    ghost use Rattle.mark_tree.specs.Extents.{end_of};
    ghost use Rattle.mark_tree.specs.Entries.{extent_over, placed_from};

    ghost Value = { List (Placed P) };

    ghost view = { λ s. placed_from 0 s.entries };

    ghost invariant = { λ s. end_of (extent_over s.entries) < 2 ^ 32 };
}

/// A place of the list, and the offset of what is there, if anything is.
#[derive(Drop)]
pub(crate) struct Next {
    pub(crate) place: u32,
    pub(crate) offset: Option<u32>,
}

/// An entry of the list and its offset.
#[derive(Drop)]
pub(crate) struct Found<'a, P> {
    pub(crate) offset: u32,
    pub(crate) entry: &'a Entry<P>,
}

impl<P: Load> Spaced<P> {
    pub(crate) fn new(alloc: Global) -> Spaced<P>
        ensures { result ≡ [] }
    {
        Spaced {
            entries: SumTree::new(alloc),
        }
    }

    pub(crate) fn share(&self) -> Result<Spaced<P>, NoMemory>
        ensures { IfOk result (λ s. s ≡ self.now) }
    {
        Ok(Spaced {
            entries: self.entries.share()?,
        })
    }

    pub(crate) fn len(&self) -> u32
        ensures len { result ≡ length self.now }
        ensures codable { IsCodable self.now }
    {
        self.entries.len()
    }

    /// A cursor on the entry at place `at`, or past the last.
    fn cursor_at(&self, at: u32, steps: &mut Steps) -> Cursor<'_, Entry<P>, ByItems>
        // It goes over the list's entries, is on the one at `at` or past the last, and their greatest end is a u32.
        ensures items { placed_from 0 result.items ≡ self.now }
        ensures place { result.place ≡ min at (length self.now) + 1 }
        ensures fits { end_of (extent_over result.items) < 2 ^ 32 }

        // The work, at most one way down the tree.
        ensures counted { steps.old ≤ steps.new }
        ensures steps { TakesAtMost way (length self.now) steps.old steps.new }
    {
        let mut cursor = self.entries.cursor::<ByItems>();
        let target = ByItems {
            items: at as u64,
            span: 0,
        };
        cursor.seek(target, Bias::Right, steps);
        cursor
    }

    /// What is at place `at`, and `None` exactly past the end.
    pub(crate) fn get(&self, at: u32, steps: &mut Steps) -> Option<Found<'_, P>>
        ensures found { MatchOption result (length self.now ≤ at) (λ f.
            slice_get self.now at ≡ Some (placed_at f.offset f.entry.now)) }
        ensures gap { IfSome result (λ f.
            last_offset 0 (take at self.now) + f.entry.now.gap ≡ f.offset) }
        ensures counted { steps.old ≤ steps.new }
        ensures steps { TakesAtMost way (length self.now) steps.old steps.new }
    {
        let cursor = self.cursor_at(at, steps);
        let entry = cursor.item()?;
        Some(Found {
            offset: cursor.start().span as u32 + entry.gap,
            entry,
        })
    }

    /// The offset of the last thing before place `at`, and 0 where there is none.
    pub(crate) fn offset_before(&self, at: u32, steps: &mut Steps) -> u32
        ensures offset { result ≡ last_offset 0 (take at self.now) }
        ensures counted { steps.old ≤ steps.new }
        ensures steps { TakesAtMost way (length self.now) steps.old steps.new }
    {
        self.cursor_at(at, steps).start().span as u32
    }

    /// The place of the first thing at or after the offset, which may be that past the last.
    pub(crate) fn first_at(&self, offset: u64, steps: &mut Steps) -> u32
        // A place in the list or at its end. Before it each offset is less than `offset`, and from there on none is.
        ensures within { result ≤ length self.now }
        ensures before { All (λ p. p.offset < offset) (take result self.now) }
        ensures from { All (λ p. offset ≤ p.offset) (drop result self.now) }

        // The work, at most one way down the tree.
        ensures counted { steps.old ≤ steps.new }
        ensures steps { TakesAtMost way (length self.now) steps.old steps.new }
    {
        self.next_at(offset, steps).place
    }

    /// The same place, with the offset of what is there, if anything is.
    pub(crate) fn next_at(&self, offset: u64, steps: &mut Steps) -> Next
        // A place in the list or at its end. Before it each offset is less than `offset`, and from there on none is.
        ensures within { result.place ≤ length self.now }
        ensures before { All (λ p. p.offset < offset) (take result.place self.now) }
        ensures from { All (λ p. offset ≤ p.offset) (drop result.place self.now) }

        // The offset of what is there, and `None` exactly past the end.
        ensures offset { (d : Placed P) →
            MatchOption result.offset (length self.now ≤ result.place)
            (λ o. (slice_index_or self.now result.place d).offset ≡ o) }

        // The work, at most one way down the tree.
        ensures counted { steps.old ≤ steps.new }
        ensures steps { TakesAtMost way (length self.now) steps.old steps.new }
    {
        // For the proof: the number of entries is a u32, and so is each place.
        let _count = self.entries.len();
        let mut cursor = self.entries.cursor::<ByOffset>();
        let target = ByOffset {
            span: offset,
            items: 0,
        };
        cursor.seek(target, Bias::Left, steps);
        let place = cursor.start().items as u32;
        let offset = offset_on(&cursor);
        Next { place, offset }
    }

    /// The places of the things from one offset on that lie before another one. One look shows where there is none.
    pub(crate) fn places_between(&self, start: u64, end: u64, steps: &mut Steps) -> Places
        // The first offset is not after the second.
        requires { start ≤ end }

        // The places are in the list.
        ensures order { result.from ≤ result.to }
        ensures within { result.to ≤ length self.now }

        // Before `from` each offset is less than `start`, and from there on none is.
        ensures before { All (λ p. p.offset < start) (take result.from self.now) }
        ensures from { All (λ p. start ≤ p.offset) (drop result.from self.now) }

        // Before `to` each offset is less than `end`, and from there on none is.
        ensures upto { All (λ p. p.offset < end) (take result.to self.now) }
        ensures behind { All (λ p. end ≤ p.offset) (drop result.to self.now) }

        // The work, at most two ways down the tree.
        ensures counted { steps.old ≤ steps.new }
        ensures steps { TakesAtMost both_ends (length self.now) steps.old steps.new }
    {
        // For the proof: offsets don't fall.
        let _count = self.len();
        let first = self.next_at(start, steps);
        let from = first.place;
        let Some(offset) = first.offset else {
            return Places { from, to: from };
        };
        if end <= offset as u64 {
            return Places { from, to: from };
        }
        let to = self.first_at(end, steps);
        Places { from, to }
    }

    /// The place of the first thing with this id, and `None` exactly where there is none.
    pub(crate) fn find_id(&self, id: u32, steps: &mut Steps) -> Option<u32>
        ensures found { result ≡ position (has_placed_id id) self.now }
        ensures any { is_some result ≡ list_any (has_placed_id id) self.now }
        ensures counted { steps.old ≤ steps.new }
        ensures steps { Searches (length self.now) steps.old steps.new }
    {
        self.entries.position(&HasId(id), steps)
    }

    /// A copy of what is at place `at`.
    pub(crate) fn copy_at(
        &self,
        alloc: Global,
        at: u32,
        steps: &mut Steps,
    ) -> Result<Placed<P>, NoMemory>
        requires { at < length self.now }
        ensures copy { IfOk result (λ p. slice_get self.now at ≡ Some p) }
        ensures counted { steps.old ≤ steps.new }
        ensures steps { TakesAtMost way (length self.now) steps.old steps.new }
    {
        match self.get(at, steps) {
            Some(found) => found.copy(alloc),
            None => unreachable!(),
        }
    }

    /// Copies of those from place `from` to place `to`.
    pub(crate) fn copied(
        &self,
        alloc: Global,
        from: u32,
        to: u32,
        steps: &mut Steps,
    ) -> Result<Vec<Placed<P>>, NoMemory>
        // The places are in the list.
        requires order { from ≤ to }
        requires within { to ≤ length self.now }

        // What lies from the one to the other.
        ensures copies { IfOk result (λ v. v.items ≡ take (to - from) (drop from self.now)) }

        // The work, at most one way down the tree for each copy.
        ensures counted { steps.old ≤ steps.new }
        ensures steps { let k = to - from in
            TakesAtMost (λ h. way h * k) (length self.now) steps.old steps.new }
    {
        let mut copies = Vec::with_capacity(alloc, (to - from) as usize)?;
        for at in from..to {
            copies.push(self.copy_at(alloc, at, steps)?)?;
        }
        Ok(copies)
    }

    /// Puts others in the place of those from place `from` to place `to`, and moves all that lies after them as the
    /// replacement does.
    pub(crate) fn splice(
        &mut self,
        alloc: Global,
        from: u32,
        to: u32,
        fresh: Vec<Placed<P>>,
        shift: &Shift,
        steps: &mut Steps,
    ) -> Result<(), NoMemory>
        // The places are in the list.
        requires order { from ≤ to }
        requires within { to ≤ length self.old }

        // All after them are at or after the replacement's end, and the list after it can be coded.
        requires behind { All (λ p. shift.now.end ≤ p.offset) (drop to self.old) }
        requires codable { IsCodable (spliced from to fresh.items shift.now self.old) }

        // What is there after it.
        ensures ok { OnOk result (self.new ≡ spliced from to fresh.items shift.now self.old) }
        ensures unchanged { OnErr result (self.new ≡ self.old) }

        // The work, by the number of things put in.
        ensures counted { steps.old ≤ steps.new }
        ensures steps { let after = spliced from to fresh.items shift.now self.old in
            let cost = splicing (length fresh.items) in
            ChangesAtMost cost (length self.old) (length after) steps.old steps.new }
    {
        let refill = self.refill(alloc, to, fresh, shift, steps)?;
        let base = self.base_of(from, to, refill.before, steps);
        let entries = code_gaps(alloc, base, refill.placed)?;
        self.entries
            .replace(alloc, from, refill.end, entries, steps)
    }

    /// What takes the place of all up to place `to`, with the first thing after it, of which the gap changes.
    fn refill(
        &self,
        alloc: Global,
        to: u32,
        fresh: Vec<Placed<P>>,
        shift: &Shift,
        steps: &mut Steps,
    ) -> Result<Refill<P>, NoMemory>
        // A place in the list or at its end.
        requires within { to ≤ length self.now }

        // All from there on are at or after the replacement's end, and their ends are u32 after it.
        requires behind { All (λ p. shift.now.end ≤ p.offset) (drop to self.now) }
        requires codable { let behind = map (shifted shift.now) (drop to self.now) in
            All (λ p. end_at p < 2 ^ 32) behind }

        // What takes the place of all up to `end`, and the offset of the last thing before `to`, where it was met.
        ensures refill { IfOk result (λ r.
            IsRefill self.now to fresh.items shift.now r.placed.items r.end) }
        ensures before { IfOk result (λ r.
            IfSome r.before (λ o. o ≡ last_offset 0 (take to self.now))) }

        // The work, at most one way down the tree.
        ensures counted { steps.old ≤ steps.new }
        ensures steps { TakesAtMost way (length self.now) steps.old steps.new }
    {
        // For the proof: the number of things is a u32, and so is each place.
        let _count = self.len();
        let mut placed = fresh;
        match self.get(to, steps) {
            None => Ok(Refill {
                placed,
                end: to,
                before: None,
            }),
            Some(behind) => {
                let before = behind.offset - behind.entry.gap;
                placed.push(behind.shifted(alloc, shift)?)?;
                Ok(Refill {
                    placed,
                    end: to + 1,
                    before: Some(before),
                })
            }
        }
    }

    /// The offset of the last thing before place `from`, by that of the last one before place `to` where this is known.
    fn base_of(&self, from: u32, to: u32, before: Option<u32>, steps: &mut Steps) -> u32
        requires before { IfSome before (λ o. o ≡ last_offset 0 (take to self.now)) }
        ensures offset { result ≡ last_offset 0 (take from self.now) }
        ensures counted { steps.old ≤ steps.new }
        ensures steps { TakesAtMost way (length self.now) steps.old steps.new }
    {
        match before {
            Some(offset) if from == to => offset,
            _ => self.offset_before(from, steps),
        }
    }
}

/// What takes the place of things up to place `end`, and the offset of the last thing before the place asked, where it
/// was met.
#[derive(Drop)]
struct Refill<P> {
    placed: Vec<Placed<P>>,
    end: u32,
    before: Option<u32>,
}

/// The offset of what a cursor is on, if it is on anything.
fn offset_on<P: Load>(cursor: &Cursor<'_, Entry<P>, ByOffset>) -> Option<u32>
    requires some { 1 ≤ cursor.now.place }
    requires fits { end_of (extent_over cursor.now.items) < 2 ^ 32 }
    ensures { let at = cursor.now in MatchOption result (length at.items < at.place)
        (λ o. (at.place ≤ length at.items) × (o ≡ (extent_over (take at.place at.items)).span)) }
{
    match cursor.item() {
        None => None,
        Some(_) => Some(cursor.end().span as u32),
    }
}

impl<'a, P: Load> Found<'a, P> {
    ghost use Rattle.mark_tree.specs.Entries.{placed_at, shifted};

    /// A copy of what was found.
    pub(crate) fn copy(&self, alloc: Global) -> Result<Placed<P>, NoMemory>
        ensures { IfOk result (λ p. p ≡ placed_at self.now.offset self.now.entry.now) }
    {
        Ok(Placed {
            offset: self.offset,
            bias: self.entry.bias,
            length: self.entry.length,
            id: self.entry.id,
            load: self.entry.load.copy(alloc)?,
        })
    }

    /// A copy of what was found, after a replacement that lies before it.
    fn shifted(&self, alloc: Global, shift: &Shift) -> Result<Placed<P>, NoMemory>
        requires behind { shift.now.end ≤ self.now.offset }
        requires fits { let s = shift.now in
            self.now.offset + s.count - (s.end - s.start) < 2 ^ 32 }
        ensures { let found = placed_at self.now.offset self.now.entry.now in
            IfOk result (λ p. p ≡ shifted shift.now found) }
    {
        let mut copy = self.copy(alloc)?;
        copy.offset = self.offset - (shift.end - shift.start) + shift.count;
        Ok(copy)
    }
}

/// The entries of these things, where the first one's gap is from the offset `base`.
fn code_gaps<P: Load>(
    alloc: Global,
    base: u32,
    placed: Vec<Placed<P>>,
) -> Result<Vec<Entry<P>>, NoMemory>
    requires { IsSpaced base placed.items }
    ensures { IfOk result (λ v. v.items ≡ coded base placed.items) }
{
    let mut entries = Vec::with_capacity(alloc, placed.len())?;
    let mut last = base;
    for thing in placed {
        entries.push(Entry {
            gap: thing.offset - last,
            bias: thing.bias,
            length: thing.length,
            id: thing.id,
            load: thing.load,
        })?;
        last = thing.offset;
    }
    Ok(entries)
}
