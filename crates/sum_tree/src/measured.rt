//! Finding an item by one measure of the items before it.
ghost use Rattle.std.specs.Prelude.{ℕ, ◌≡◌, ◌+◌, ◌*◌, ◌^◌, ◌<◌, ◌≤◌, length, min, take, slice_get};
ghost use Rattle.std.specs.Option.{option_copied};
ghost use Rattle.sum_core.specs.Sums.{total};
ghost use Rattle.sum_tree.specs.Bounds.{TakesAtMost, way};
ghost use Rattle.sum_tree.specs.Firsts.{IsFirst};
ghost use Rattle.sum_tree.specs.inside.Paths.{items_seen, height_seen};
ghost use Rattle.sum_tree.specs.inside.Nodes.{sum_of};
ghost use Rattle.sum_tree.specs.inside.Ways.{IsWay};

use crate::path::{Aim, Path};
use crate::sum_tree::SumTree;
use cell_units::{Bias, Steps};
use sum_core::{By, Item, Measure, Summary};

/// The measure of which no sum has anything: with it an item is found by its index alone.
struct Nothing;

impl<S: Summary> Measure<S> for Nothing {
    ghost use Rattle.std.proofs.Common.{le-add_right};

    ghost number = { λ s. 0 };

    ghost measure_laws = { record { left_at_most = λ x y f. le-add_right 0 0; right_at_most = λ x y f. le-add_right 0 0 } };

    fn of(_sum: S) -> u32 {
        0
    }
}

/// Where a place lies in a list: how many items are before it, what their sum is, and which item it is in.
#[derive(Drop)]
pub struct Found<'a, T: Item> {
    pub index: u32,
    pub before: T::Sum,
    pub item: Option<&'a T>,
}

impl<'a, T: Item> Path<'a, T> {
    /// The first item whose end, by the measure `M`, is at least the target (Left) or greater than it (Right), or the
    /// end.
    pub fn find_by<M: Measure<T::Sum>>(
        self,
        target: u64,
        bias: Bias,
        steps: &mut Steps,
    ) -> Found<'a, T>
        // The path leads through its tree.
        requires path { IsWay T.Item T.Sum.Summary self }

        // Where the item is, and the sum of what is before it.
        ensures first { IsFirst T.Sum.empty T.Sum.joined T.summary M.number
            (items_seen self.entry.root) target bias result.index }
        ensures before { result.before ≡
            sum_of T.Item T.Sum.Summary (take result.index (items_seen self.entry.root)) }
        ensures item { option_copied result.item ≡
            slice_get (items_seen self.entry.root) result.index }

        // One node a level is opened at most.
        ensures counted { steps.old ≤ steps.new }
        ensures steps { steps.new ≤ steps.old + height_seen self.entry.root + 1 }
    {
        let mut path = self;
        let found = path.find::<By<T::Sum, M>>(&Aim::Sum(By::target(target), bias), steps);
        match found {
            None => Found {
                index: path.count() as u32,
                before: path.sum::<By<T::Sum, M>>().sum,
                item: None,
            },
            Some(found) => Found {
                index: found.index as u32,
                before: found.start.sum,
                item: Some(found.item),
            },
        }
    }
}

impl<'a, T: Item> Path<'a, T> {
    /// The item of this index, or the end.
    pub fn find_at(self, index: u32, steps: &mut Steps) -> Found<'a, T>
        // The path leads through its tree.
        requires path { IsWay T.Item T.Sum.Summary self }

        // Where the item is, and the sum of what is before it.
        ensures index { result.index ≡ min index (length (items_seen self.entry.root)) }
        ensures before { result.before ≡
            sum_of T.Item T.Sum.Summary (take result.index (items_seen self.entry.root)) }
        ensures item { option_copied result.item ≡
            slice_get (items_seen self.entry.root) result.index }

        // One node a level is opened at most.
        ensures counted { steps.old ≤ steps.new }
        ensures steps { steps.new ≤ steps.old + height_seen self.entry.root + 1 }
    {
        let mut path = self;
        let found = path.find::<By<T::Sum, Nothing>>(&Aim::Item(index as usize), steps);
        match found {
            None => Found {
                index: path.count() as u32,
                before: path.sum::<By<T::Sum, Nothing>>().sum,
                item: None,
            },
            Some(found) => Found {
                index: found.index as u32,
                before: found.start.sum,
                item: Some(found.item),
            },
        }
    }
}

impl<T: Item> SumTree<T> {
    /// The item of this index and the sum of those before it, or the end and the sum of all.
    pub fn find_at(&self, index: u32, steps: &mut Steps) -> Found<'_, T>
        // Where the item is, and the sum of what is before it.
        ensures index { result.index ≡ min index (length self.now) }
        ensures before { result.before ≡
            total T.Sum.empty T.Sum.joined T.summary (take result.index self.now) }
        ensures item { option_copied result.item ≡ slice_get self.now result.index }

        // One node a level is opened at most.
        ensures counted { steps.old ≤ steps.new }
        ensures steps { TakesAtMost way (length self.now) steps.old steps.new }
    {
        self.path().find_at(index, steps)
    }

    /// The first item whose end, by the measure `M`, is at least the target (Left) or greater than it (Right), or the
    /// end.
    pub fn find<M: Measure<T::Sum>>(
        &self,
        target: u64,
        bias: Bias,
        steps: &mut Steps,
    ) -> Found<'_, T>
        // Where the item is, and the sum of what is before it.
        ensures first { IsFirst T.Sum.empty T.Sum.joined T.summary M.number self.now target bias
            result.index }
        ensures before { result.before ≡
            total T.Sum.empty T.Sum.joined T.summary (take result.index self.now) }
        ensures item { option_copied result.item ≡ slice_get self.now result.index }

        // One node a level is opened at most.
        ensures counted { steps.old ≤ steps.new }
        ensures steps { TakesAtMost way (length self.now) steps.old steps.new }
    {
        self.path().find_by::<M>(target, bias, steps)
    }
}
