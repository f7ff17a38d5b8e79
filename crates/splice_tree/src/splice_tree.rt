//! The list of splices: finding one, carrying places over them, and replacing some.
ghost use Rattle.std.specs.Prelude.{ℕ, ◌≡◌, ◌+◌, ◌*◌, ◌^◌, ◌<◌, ◌≤◌, ◌++◌, [], length, min, take, drop, map, slice_get, IfOk, OnOk, OnErr};
ghost use Rattle.std.specs.Option.{option_copied};
ghost use Rattle.sum_tree.specs.Bounds.{ChangesAtMost, TakesAtMost, building, way};
ghost use Rattle.splice_tree.specs.Bounds.{splicing};
ghost use Rattle.splice_tree.specs.Sides.{BothFit};
ghost use Rattle.splice_tree.specs.Splices.{GapFits, IsFirstLower, IsFirstUpper, IsRefill, covered, measured, replaced, to_upper, to_lower};

use crate::carry::{carry_down, carry_up};
use crate::sides::{Lower, Sides, Upper};
use crate::splice::Splice;
use cell_units::{Bias, NoMemory, Steps};
use std::alloc::Global;
use std::marker::Model;
use sum_core::{Count, Load, Summary};
use sum_tree::SumTree;

/// A list of splices.
pub struct SpliceTree<S: Summary, P: Load> {
    splices: SumTree<Splice<S, P>>,
}

impl<S: Summary, P: Load> Drop for SpliceTree<S, P> {
    fn drop(self) {
        let SpliceTree { splices: _ } = self;
    }
}

impl<S: Summary, P: Load> Model for SpliceTree<S, P> {
    ghost use Rattle.std.specs.Prelude.{List};
    ghost use Rattle.splice_tree.specs.Splices.{Piece};

    ghost Value = { List (Piece S P) };

    ghost view = { λ t. t.splices };
}

/// Where a place lies among the splices: how many are before it, what they cover, and the one in which it lies.
#[derive(Drop)]
pub struct Place<'a, S: Summary, P: Load> {
    pub index: u32,
    pub before: Sides<S>,
    pub splice: Option<&'a Splice<S, P>>,
}

impl<S: Summary, P: Load> SpliceTree<S, P> {
    /// No splice.
    pub fn new(alloc: Global) -> SpliceTree<S, P>
        ensures { result ≡ [] }
    {
        SpliceTree {
            splices: SumTree::new(alloc),
        }
    }

    /// An equal list.
    pub fn share(&self) -> Result<SpliceTree<S, P>, NoMemory>
        ensures { IfOk result (λ t. t ≡ self.now) }
    {
        Ok(SpliceTree {
            splices: self.splices.share()?,
        })
    }

    /// These splices.
    pub fn from_vec(
        alloc: Global,
        splices: Vec<Splice<S, P>>,
        steps: &mut Steps,
    ) -> Result<SpliceTree<S, P>, NoMemory>
        // What they cover fits on both sides, and their number is a u32.
        requires fits { BothFit S.fits (covered S.empty S.joined splices.items) }
        requires small { length splices.items < 2 ^ 32 }

        // A list of just these.
        ensures ok { IfOk result (λ t. t ≡ splices.items) }

        // The work, by their number.
        ensures counted { steps.old ≤ steps.new }
        ensures steps { steps.new ≤ steps.old + building (length splices.items) }
    {
        Ok(SpliceTree {
            splices: SumTree::from_vec(alloc, splices, steps)?,
        })
    }

    /// The number of splices.
    pub fn len(&self) -> u32
        ensures { result ≡ length self.now }
    {
        self.splices.len()
    }

    /// What all splices cover, with the gaps before them.
    pub fn sum(&self) -> Sides<S>
        ensures { result ≡ covered S.empty S.joined self.now }
    {
        self.splices.sum()
    }

    /// The first splice whose end on the lower side is at least the target (Left) or greater (Right), or the end.
    pub fn find_lower<M: Count<S>>(
        &self,
        target: u64,
        bias: Bias,
        steps: &mut Steps,
    ) -> Place<'_, S, P>
        // The index, what the splices before it cover, and the splice that is there, if one is.
        ensures first { let at = result.index in
            IsFirstLower S.empty S.joined M.number self.now target bias at }
        ensures before { result.before ≡ covered S.empty S.joined (take result.index self.now) }
        ensures splice { option_copied result.splice ≡ slice_get self.now result.index }

        // The work, at most one way down the tree.
        ensures counted { steps.old ≤ steps.new }
        ensures steps { TakesAtMost way (length self.now) steps.old steps.new }
    {
        let found = self.splices.find::<Lower<M>>(target, bias, steps);
        Place {
            index: found.index,
            before: found.before,
            splice: found.item,
        }
    }

    /// The first splice whose end on the upper side is at least the target (Left) or greater (Right), or the end.
    pub fn find_upper<M: Count<S>>(
        &self,
        target: u64,
        bias: Bias,
        steps: &mut Steps,
    ) -> Place<'_, S, P>
        // The index, what the splices before it cover, and the splice that is there, if one is.
        ensures first { let at = result.index in
            IsFirstUpper S.empty S.joined M.number self.now target bias at }
        ensures before { result.before ≡ covered S.empty S.joined (take result.index self.now) }
        ensures splice { option_copied result.splice ≡ slice_get self.now result.index }

        // The work, at most one way down the tree.
        ensures counted { steps.old ≤ steps.new }
        ensures steps { TakesAtMost way (length self.now) steps.old steps.new }
    {
        let found = self.splices.find::<Upper<M>>(target, bias, steps);
        Place {
            index: found.index,
            before: found.before,
            splice: found.item,
        }
    }

    /// The splice of this index, or the end.
    pub fn find_at(&self, index: u32, steps: &mut Steps) -> Place<'_, S, P>
        // The index, what the splices before it cover, and the splice that is there, if one is.
        ensures index { result.index ≡ min index (length self.now) }
        ensures before { result.before ≡ covered S.empty S.joined (take result.index self.now) }
        ensures splice { option_copied result.splice ≡ slice_get self.now result.index }

        // The work, at most one way down the tree.
        ensures counted { steps.old ≤ steps.new }
        ensures steps { TakesAtMost way (length self.now) steps.old steps.new }
    {
        let found = self.splices.find_at(index, steps);
        Place {
            index: found.index,
            before: found.before,
            splice: found.item,
        }
    }

    /// Where a place of the lower sequence is in the upper one (*Splices*).
    pub fn to_upper<M: Count<S>>(&self, place: u32, bias: Bias, steps: &mut Steps) -> u32
        requires { to_upper bias (map (measured M.number) self.now) place < 2 ^ 32 }
        ensures place { result ≡ to_upper bias (map (measured M.number) self.now) place }
        ensures counted { steps.old ≤ steps.new }
        ensures steps { TakesAtMost way (length self.now) steps.old steps.new }
    {
        let found = self.find_lower::<M>(place as u64, bias, steps);
        let rest = place as u64 - M::of(found.before.lower) as u64;
        let start = M::of(found.before.upper) as u64;
        let within = carry_up::<S, P, M>(found.splice, rest, bias);
        (start + within) as u32
    }

    /// Where a place of the upper sequence is in the lower one (*Splices*).
    pub fn to_lower<M: Count<S>>(&self, place: u32, bias: Bias, steps: &mut Steps) -> u32
        requires { to_lower bias (map (measured M.number) self.now) place < 2 ^ 32 }
        ensures place { result ≡ to_lower bias (map (measured M.number) self.now) place }
        ensures counted { steps.old ≤ steps.new }
        ensures steps { TakesAtMost way (length self.now) steps.old steps.new }
    {
        let found = self.find_upper::<M>(place as u64, bias, steps);
        let rest = place as u64 - M::of(found.before.upper) as u64;
        let start = M::of(found.before.lower) as u64;
        let within = carry_down::<S, P, M>(found.splice, rest, bias);
        (start + within) as u32
    }

    /// Puts `fresh` in the place of the splices from place `from` to place `to`. The one after them, where there is
    /// one, gets the gap `gap`.
    pub fn replace(
        &mut self,
        alloc: Global,
        from: u32,
        to: u32,
        fresh: Vec<Splice<S, P>>,
        gap: S,
        steps: &mut Steps,
    ) -> Result<(), NoMemory>
        // The places are in the list, and the gap and both sides of it have sums after it.
        requires order { from ≤ to }
        requires within { to ≤ length self.old }
        requires gap_fits { GapFits S.joined S.fits gap to self.old }
        requires fits { let after = replaced from to fresh.items gap self.old in
            BothFit S.fits (covered S.empty S.joined after) }
        requires small { length (replaced from to fresh.items gap self.old) < 2 ^ 32 }

        // What is there after it.
        ensures ok { OnOk result (self.new ≡ replaced from to fresh.items gap self.old) }
        ensures unchanged { OnErr result (self.new ≡ self.old) }

        // The work.
        ensures counted { steps.old ≤ steps.new }
        ensures steps { let after = replaced from to fresh.items gap self.old in
            let cost = splicing (length fresh.items) in
            ChangesAtMost cost (length self.old) (length after) steps.old steps.new }
    {
        let refill = self.refill(alloc, to, fresh, gap, steps)?;
        self.splices
            .replace(alloc, from, refill.end, refill.splices, steps)
    }

    /// What takes the place of all up to place `to`, with the splice after it, of which the gap changes.
    fn refill(
        &self,
        alloc: Global,
        to: u32,
        fresh: Vec<Splice<S, P>>,
        gap: S,
        steps: &mut Steps,
    ) -> Result<Refill<S, P>, NoMemory>
        // A place in the list or at its end, and with the gap the splice there covers no more than fits.
        requires within { to ≤ length self.now }
        requires gap_fits { GapFits S.joined S.fits gap to self.now }

        // What takes the place of all up to `end`: `fresh`, and the one after them with its new gap, if there is one.
        ensures refill { IfOk result (λ r.
            IsRefill self.now to fresh.items gap r.splices.items r.end) }

        // The work, at most one way down the tree.
        ensures counted { steps.old ≤ steps.new }
        ensures steps { TakesAtMost way (length self.now) steps.old steps.new }
    {
        // For the proof: the number of splices is a u32, and so is each place.
        let _count = self.len();
        let mut splices = fresh;
        match self.splices.get(to, steps) {
            None => Ok(Refill { splices, end: to }),
            Some(behind) => {
                splices.push(behind.with_gap(alloc, gap)?)?;
                Ok(Refill {
                    splices,
                    end: to + 1,
                })
            }
        }
    }
}

/// What takes the place of splices up to place `end`.
#[derive(Drop)]
struct Refill<S: Summary, P: Load> {
    splices: Vec<Splice<S, P>>,
    end: u32,
}
