//! The way from the root of a tree down to an item.
ghost use Rattle.std.specs.Prelude.{◌≡◌, ◌+◌, ◌^◌, ◌<◌, ◌≤◌, ◌++◌, true, false, Some, slice_get, [], length, map, MatchOption, IfSome, IsTrue, ◌↔◌};
ghost use Rattle.sum_core.specs.Nodes.{inner, contents, child_value, items_in};
ghost use Rattle.sum_tree.specs.inside.Paths.{is_met, items_seen, height_seen, IsTreeSeen};
ghost use Rattle.smallvec.specs.SmallVec.{small_vec_len};
ghost use Rattle.sum_tree.specs.inside.Nodes.{SumFits, sum_of};
ghost use Rattle.sum_tree.specs.inside.Ways.{FindsItem, FindsPlace, IsPlaceIn, IsWay, measure_at};

use crate::find::find_child;
use crate::trees::Tree;
use cell_units::{Bias, Steps};
use smallvec::SmallVec;
use std::alloc::Global;
use sum_core::{Child, Dimension, Entries, Item, Summary};

/// How far to go along the list.
#[derive(Clone, Copy)]
pub enum Aim<D: Copy> {
    /// Through the item of this index.
    Item(usize),
    /// Until the sum is at least this (Left), or greater (Right).
    Sum(D, Bias),
}

impl<D: Copy + Ord> Aim<D> {
    /// The first `count` items, with this sum, go as far as that.
    fn is_met(&self, count: usize, sum: D) -> bool
        ensures { result ≡ is_met D.cmp self.now count sum }
    {
        match self {
            Aim::Item(index) => *index < count,
            Aim::Sum(target, Bias::Left) => target.cmp(&sum).is_le(),
            Aim::Sum(target, Bias::Right) => target.cmp(&sum).is_lt(),
        }
    }
}

/// A node on the way: its entries, its height, and the number of items before it and below it.
#[derive(Drop)]
pub struct Place<'a, T: Item> {
    entries: &'a Entries<T>,
    height: usize,
    first: usize,
    count: usize,
}

impl<'a, T: Item> Place<'a, T> {
    /// The item of this index lies below.
    fn holds(&self, index: usize) -> bool
        ensures { IsTrue result ↔
            ((self.now.first ≤ index) × (index < self.now.first + self.now.count)) }
    {
        self.first <= index && index - self.first < self.count
    }
}

/// A place, and the sum before it.
#[derive(Drop)]
pub struct Ahead<'a, T: Item, D: Copy> {
    place: Place<'a, T>,
    start: D,
}

/// An item, its index, and the sums before and through it.
#[derive(Drop)]
pub struct Found<'a, T: Item, D: Copy> {
    pub item: &'a T,
    pub index: usize,
    pub start: D,
    pub end: D,
}

/// A tree, and the nodes on the way from its root to where it was read last.
#[derive(Drop)]
pub struct Path<'a, T: Item> {
    root: Option<&'a Tree<T>>,
    /// From the root down. Each is there: a small vector asks for elements that have a default.
    places: SmallVec<Option<Place<'a, T>>, 16>,
}

impl<'a, T: Item> Path<'a, T> {
    /// The first of a leaf's items with which the aim is met.
    fn find_item<D: Dimension<T::Sum>>(
        &self,
        top: &Place<'a, T>,
        start: D,
        items: &'a [T],
        aim: &Aim<D>,
    ) -> Option<Found<'a, T, D>>
        // The path leads through its tree, and a place in it has these items.
        requires path { IsWay T.Item T.Sum.Summary self.now }
        requires place { IsPlaceIn T.Item T.Sum.Summary (items_seen self.now.root) top.now }
        requires items { items_in top.now.entries.now ≡ items.now }

        // The sum of the items before the place, which don't go as far as the aim.
        requires start { start ≡
            measure_at T.Item T.Sum.Summary D.measure (items_seen self.now.root) top.now.first }
        requires not_before { 0 < top.now.first → is_met D.cmp aim.now top.now.first start ≡ false }

        // The item, or `None` where the items up to the place's end don't go so far.
        ensures found { FindsItem T.Item T.Sum.Summary D.measure D.cmp (items_seen self.now.root)
            aim.now (top.now.first + top.now.count) result }
    {
        let mut start = start;
        for (offset, item) in items.iter().enumerate() {
            let index = top.first + offset;
            let end = start.plus(D::of(item.sum()));
            if aim.is_met(index + 1, end) {
                return Some(Found {
                    item,
                    index,
                    start,
                    end,
                });
            }
            start = end;
        }
        None
    }

    /// The first of a node's children within which the aim is met.
    fn find_place<D: Dimension<T::Sum>>(
        &self,
        top: &Place<'a, T>,
        start: D,
        children: &'a [Child<T>],
        aim: &Aim<D>,
        steps: &mut Steps,
    ) -> Option<Ahead<'a, T, D>>
        // The path leads through its tree, and a place in it has these children.
        requires path { IsWay T.Item T.Sum.Summary self.now }
        requires place { IsPlaceIn T.Item T.Sum.Summary (items_seen self.now.root) top.now }
        requires children { contents top.now.entries.now ≡ inner (map child_value children.now) }

        // The sum of the items before the place, which don't go as far as the aim.
        requires start { start ≡
            measure_at T.Item T.Sum.Summary D.measure (items_seen self.now.root) top.now.first }
        requires not_before { 0 < top.now.first → is_met D.cmp aim.now top.now.first start ≡ false }

        // A child's place, or `None` where the items up to the place's end don't go so far.
        ensures found { FindsPlace T.Item T.Sum.Summary D.measure D.cmp (items_seen self.now.root)
            aim.now (top.now.first + top.now.count) result }
        ensures height { IfSome result (λ a. a.place.height + 1 ≡ top.now.height) }

        // One node is opened at most.
        ensures counted { steps.old ≤ steps.new }
        ensures steps { steps.new ≤ steps.old + 1 }
    {
        let mut start = start;
        let mut first = top.first;
        for child in children {
            let last = first + child.count;
            let end = start.plus(D::of(child.sum));
            if aim.is_met(last, end) {
                let place = Place {
                    entries: child.node.entries(steps),
                    height: top.height - 1,
                    first,
                    count: child.count,
                };
                return Some(Ahead { place, start });
            }
            start = end;
            first = last;
        }
        None
    }

    /// The path of a tree, with no node on it yet.
    pub fn new(alloc: Global, root: Option<&'a Tree<T>>) -> Path<'a, T>
        // No tree, or a lawful one whose sum fits and whose items are fewer than 2^32.
        requires tree { IsTreeSeen T.Sum.empty T.Sum.joined T.summary root }
        requires fits { SumFits T.Item T.Sum.Summary (items_seen root) }
        requires small { length (items_seen root) < 2 ^ 32 }

        // The path leads through this tree.
        ensures path { IsWay T.Item T.Sum.Summary result }
        ensures root { result.root ≡ root.entry }
    {
        Path {
            root,
            places: SmallVec::new(alloc),
        }
    }

    /// The number of items in the tree.
    pub fn count(&self) -> usize
        requires path { IsWay T.Item T.Sum.Summary self.now }
        ensures { result ≡ length (items_seen self.now.root) }
    {
        match self.root {
            None => 0,
            Some(tree) => tree.count,
        }
    }

    /// The sum of all items of the tree.
    pub fn sum<D: Dimension<T::Sum>>(&self) -> D
        requires path { IsWay T.Item T.Sum.Summary self.now }
        ensures { result ≡ D.measure (sum_of T.Item T.Sum.Summary (items_seen self.now.root)) }
    {
        match self.root {
            None => D::of(T::Sum::zero()),
            Some(tree) => D::of(tree.sum),
        }
    }

    /// The place of the root.
    fn top(&self, steps: &mut Steps) -> Option<Place<'a, T>>
        // The path leads through its tree.
        requires path { IsWay T.Item T.Sum.Summary self.now }

        // The root, with its height and all items below it, or `None` where there are no items.
        ensures place { MatchOption result (items_seen self.now.root ≡ [])
            (λ p. IsPlaceIn T.Item T.Sum.Summary (items_seen self.now.root) p) }
        ensures height { IfSome result (λ p. p.height ≡ height_seen self.now.root) }
        ensures whole { IfSome result
            (λ p. (p.first ≡ 0) × (p.count ≡ length (items_seen self.now.root))) }

        // One node is opened at most.
        ensures counted { steps.old ≤ steps.new }
        ensures steps { steps.new ≤ steps.old + 1 }
    {
        match self.root {
            None => None,
            Some(tree) => Some(Place {
                entries: tree.node.entries(steps),
                height: tree.height,
                first: 0,
                count: tree.count,
            }),
        }
    }

    /// The place below an inner node within which the aim is met first.
    fn below<D: Dimension<T::Sum>>(
        &self,
        top: &Place<'a, T>,
        start: D,
        aim: &Aim<D>,
        steps: &mut Steps,
    ) -> Option<Ahead<'a, T, D>>
        // The path leads through its tree, and the place is an inner node in it.
        requires path { IsWay T.Item T.Sum.Summary self.now }
        requires place { IsPlaceIn T.Item T.Sum.Summary (items_seen self.now.root) top.now }
        requires is_inner { 1 ≤ top.now.height }

        // The sum of the items before the place, which don't go as far as the aim.
        requires start { start ≡
            measure_at T.Item T.Sum.Summary D.measure (items_seen self.now.root) top.now.first }
        requires not_before { 0 < top.now.first → is_met D.cmp aim.now top.now.first start ≡ false }

        // A child's place, or `None` where the items up to the place's end don't go so far.
        ensures found { FindsPlace T.Item T.Sum.Summary D.measure D.cmp (items_seen self.now.root)
            aim.now (top.now.first + top.now.count) result }
        ensures height { IfSome result (λ a. a.place.height + 1 ≡ top.now.height) }

        // One node is opened at most.
        ensures counted { steps.old ≤ steps.new }
        ensures steps { steps.new ≤ steps.old + 1 }
    {
        match top.entries {
            Entries::Leaf(_) => unreachable!(),
            Entries::Inner(children) => self.find_place(top, start, children, aim, steps),
        }
    }

    /// The item of a leaf with which the aim is met first.
    fn within<D: Dimension<T::Sum>>(
        &self,
        top: &Place<'a, T>,
        start: D,
        aim: &Aim<D>,
    ) -> Option<Found<'a, T, D>>
        // The path leads through its tree, and the place is a leaf in it.
        requires path { IsWay T.Item T.Sum.Summary self.now }
        requires place { IsPlaceIn T.Item T.Sum.Summary (items_seen self.now.root) top.now }
        requires is_leaf { top.now.height ≡ 0 }

        // The sum of the items before the place, which don't go as far as the aim.
        requires start { start ≡
            measure_at T.Item T.Sum.Summary D.measure (items_seen self.now.root) top.now.first }
        requires not_before { 0 < top.now.first → is_met D.cmp aim.now top.now.first start ≡ false }

        // The item, or `None` where the items up to the place's end don't go so far.
        ensures found { FindsItem T.Item T.Sum.Summary D.measure D.cmp (items_seen self.now.root)
            aim.now (top.now.first + top.now.count) result }
    {
        match top.entries {
            Entries::Leaf(items) => self.find_item(top, start, items, aim),
            Entries::Inner(_) => unreachable!(),
        }
    }

    /// From a place on down to the first item with which the aim is met.
    fn descend<D: Dimension<T::Sum>>(
        &mut self,
        top: Place<'a, T>,
        start: D,
        aim: &Aim<D>,
        steps: &mut Steps,
    ) -> Option<Found<'a, T, D>>
        // The path leads through the place's tree, and has a node for each level above the place.
        requires path { IsWay T.Item T.Sum.Summary self.old }
        requires place { IsPlaceIn T.Item T.Sum.Summary (items_seen self.old.root) top }
        requires height { top.height + small_vec_len self.old.places ≡ height_seen self.old.root }

        // The sum of the items before the place, which don't go as far as the aim.
        requires start { start ≡
            measure_at T.Item T.Sum.Summary D.measure (items_seen self.old.root) top.first }
        requires not_before { 0 < top.first → is_met D.cmp aim.now top.first start ≡ false }

        // The path leads through the same tree then.
        ensures path { IsWay T.Item T.Sum.Summary self.new }
        ensures root { self.new.root ≡ self.old.root }

        // The item, or `None` where the items up to the place's end don't go so far.
        ensures found { FindsItem T.Item T.Sum.Summary D.measure D.cmp (items_seen self.old.root)
            aim.now (top.entry.first + top.entry.count) result }

        // One node for each level below the place is opened at most.
        ensures counted { steps.old ≤ steps.new }
        ensures steps { steps.new ≤ steps.old + top.entry.height }
    {
        let mut top = top;
        let mut start = start;
        while top.height > 0 {
            let ahead = self.below(&top, start, aim, steps);
            self.places.push_reserved(Some(top));
            match ahead {
                None => return None,
                Some(ahead) => {
                    top = ahead.place;
                    start = ahead.start;
                }
            }
        }
        let found = self.within(&top, start, aim);
        self.places.push_reserved(Some(top));
        found
    }

    /// Up to the lowest place on the path that has the item of this index below it.
    fn climb(&mut self, index: usize) -> Option<Place<'a, T>>
        // The path leads through its tree.
        requires path { IsWay T.Item T.Sum.Summary self.old }

        // It leads through the same tree then.
        ensures path { IsWay T.Item T.Sum.Summary self.new }
        ensures root { self.new.root ≡ self.old.root }

        // The place, if any, has the item below it, and the path has a node for each level above the place.
        ensures place { IfSome result
            (λ p. IsPlaceIn T.Item T.Sum.Summary (items_seen self.old.root) p) }
        ensures height { IfSome result
            (λ p. p.height + small_vec_len self.new.places ≡ height_seen self.old.root) }
        ensures around { IfSome result (λ p. (p.first ≤ index) × (index < p.first + p.count)) }
    {
        while let Some(Some(place)) = self.places.pop() {
            if place.holds(index) {
                return Some(place);
            }
        }
        None
    }

    /// The child below an inner node that has the item of this index below it.
    fn child_with(&self, top: &Place<'a, T>, index: usize, steps: &mut Steps) -> Place<'a, T>
        // The path leads through its tree, and the place is an inner node in it that has the item below.
        requires path { IsWay T.Item T.Sum.Summary self.now }
        requires place { IsPlaceIn T.Item T.Sum.Summary (items_seen self.now.root) top.now }
        requires is_inner { 1 ≤ top.now.height }
        requires around { (top.now.first ≤ index) × (index < top.now.first + top.now.count) }

        // A place one level lower, with the item below it too.
        ensures place { IsPlaceIn T.Item T.Sum.Summary (items_seen self.now.root) result }
        ensures height { result.height + 1 ≡ top.now.height }
        ensures around { (result.first ≤ index) × (index < result.first + result.count) }

        // The child is opened.
        ensures counted { steps.old ≤ steps.new }
        ensures steps { steps.new ≤ steps.old + 1 }
    {
        match top.entries {
            Entries::Leaf(_) => unreachable!(),
            Entries::Inner(children) => {
                let found = find_child(children, top.height - 1, index - top.first + 1);
                let child = &children[found.0];
                Place {
                    entries: child.node.entries(steps),
                    height: top.height - 1,
                    first: top.first + found.1,
                    count: child.count,
                }
            }
        }
    }

    /// The item of this index in a leaf.
    fn item_of(&self, top: &Place<'a, T>, index: usize) -> &'a T
        // The path leads through its tree, and the place is a leaf in it that has the item.
        requires path { IsWay T.Item T.Sum.Summary self.now }
        requires place { IsPlaceIn T.Item T.Sum.Summary (items_seen self.now.root) top.now }
        requires is_leaf { top.now.height ≡ 0 }
        requires around { (top.now.first ≤ index) × (index < top.now.first + top.now.count) }

        // The item.
        ensures item { slice_get (items_seen self.now.root) index ≡ Some result.now }
    {
        match top.entries {
            Entries::Leaf(items) => &items[index - top.first],
            Entries::Inner(_) => unreachable!(),
        }
    }

    /// From a place on down to the item of this index.
    fn down_to(&mut self, top: Place<'a, T>, index: usize, steps: &mut Steps) -> &'a T
        // The path leads through the place's tree, and has a node for each level above the place.
        requires path { IsWay T.Item T.Sum.Summary self.old }
        requires place { IsPlaceIn T.Item T.Sum.Summary (items_seen self.old.root) top }
        requires height { top.height + small_vec_len self.old.places ≡ height_seen self.old.root }

        // The item lies below the place.
        requires around { (top.first ≤ index) × (index < top.first + top.count) }

        // The path leads through the same tree then.
        ensures path { IsWay T.Item T.Sum.Summary self.new }
        ensures root { self.new.root ≡ self.old.root }

        // The item.
        ensures item { slice_get (items_seen self.old.root) index ≡ Some result.now }

        // One node for each level below the place is opened at most.
        ensures counted { steps.old ≤ steps.new }
        ensures steps { steps.new ≤ steps.old + top.entry.height }
    {
        let mut top = top;
        while top.height > 0 {
            let next = self.child_with(&top, index, steps);
            self.places.push_reserved(Some(top));
            top = next;
        }
        let item = self.item_of(&top, index);
        self.places.push_reserved(Some(top));
        item
    }

    /// The item of this index, from where the path ends, or else from the root.
    pub fn go_to(&mut self, index: usize, steps: &mut Steps) -> &'a T
        // The path leads through its tree, and there is an item at the index.
        requires path { IsWay T.Item T.Sum.Summary self.old }
        requires within { index < length (items_seen self.old.root) }

        // It leads through the same tree then.
        ensures path { IsWay T.Item T.Sum.Summary self.new }
        ensures root { self.new.root ≡ self.old.root }

        // The item.
        ensures item { slice_get (items_seen self.old.root) index ≡ Some result.now }

        // One node a level is opened at most.
        ensures counted { steps.old ≤ steps.new }
        ensures steps { steps.new ≤ steps.old + height_seen self.old.root + 1 }
    {
        if let Some(top) = self.climb(index) {
            return self.down_to(top, index, steps);
        }
        self.places.clear();
        match self.top(steps) {
            None => unreachable!(),
            Some(top) => self.down_to(top, index, steps),
        }
    }

    /// The first item with which the aim is met, from the root.
    pub fn find<D: Dimension<T::Sum>>(
        &mut self,
        aim: &Aim<D>,
        steps: &mut Steps,
    ) -> Option<Found<'a, T, D>>
        // The path leads through its tree.
        requires path { IsWay T.Item T.Sum.Summary self.old }

        // It leads through the same tree then.
        ensures path { IsWay T.Item T.Sum.Summary self.new }
        ensures root { self.new.root ≡ self.old.root }

        // The item, or `None` where the aim is met with none.
        ensures found { FindsItem T.Item T.Sum.Summary D.measure D.cmp (items_seen self.old.root)
            aim.now (length (items_seen self.old.root)) result }

        // One node a level is opened at most.
        ensures counted { steps.old ≤ steps.new }
        ensures steps { steps.new ≤ steps.old + height_seen self.old.root + 1 }
    {
        self.places.clear();
        match self.top(steps) {
            None => None,
            Some(top) => self.descend(top, D::of(T::Sum::zero()), aim, steps),
        }
    }
}
