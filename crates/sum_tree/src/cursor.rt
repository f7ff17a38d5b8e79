//! A place in the list that moves along it, and knows the sums before and through its item.
ghost use Rattle.std.specs.Prelude.{ℕ, ◌≡◌, ◌+◌, ◌-◌, ◌*◌, ◌^◌, ◌<◌, ◌≤◌, length, min, MatchOption, IfSome};
ghost use Rattle.std.specs.Option.{option_copied};
ghost use Rattle.sum_core.specs.Sums.{total};
ghost use Rattle.sum_tree.specs.Bounds.{TakesAtMost, way};
ghost use Rattle.sum_tree.specs.Cursors.{IsSought, last_of, measure_to};
ghost use Rattle.sum_tree.specs.inside.Paths.{IsTreeSeen, IsItem, items_seen};

use crate::path::{Aim, Found, Path};
use crate::trees::Tree;
use cell_units::{Bias, Steps};
use std::alloc::Global;
use std::marker::Model;
use sum_core::{Dimension, Item, Summary};

/// A cursor on a tree. It keeps the nodes on the way to its item inline, and takes no memory.
pub struct Cursor<'a, T: Item, D: Dimension<T::Sum>> {
    path: Path<'a, T>,
    place: usize,
    item: Option<&'a T>,
    start: D,
    end: D,
}

impl<'a, T: Item, D: Dimension<T::Sum>> Drop for Cursor<'a, T, D> {
    fn drop(self) {
        let Cursor {
            path: _,
            place: _,
            item: _,
            start: _,
            end: _,
        } = self;
    }
}

impl<'a, T: Item, D: Dimension<T::Sum>> Model for Cursor<'a, T, D> {
    ghost use Rattle.sum_tree.specs.Bounds.{TakesAtMost, way};
    ghost use Rattle.sum_tree.specs.Cursors.{Standing};
    ghost use Rattle.sum_tree.specs.inside.Paths.{IsCursor, items_seen};

    ghost Value = { Standing T };

    ghost view = { λ c. record { items = items_seen c.path.root; place = c.place } };

    ghost invariant = { λ c. IsCursor T.Sum.empty T.Sum.joined T.summary D.measure T.Sum.fits c.path c.place c.item c.start c.end };
}

impl<'a, T: Item, D: Dimension<T::Sum>> Cursor<'a, T, D> {
    /// A cursor before the first item of a tree.
    pub(crate) fn new(alloc: Global, root: Option<&'a Tree<T>>) -> Cursor<'a, T, D>
        // No tree, or a lawful one whose sum fits and whose items are fewer than 2^32.
        requires tree { IsTreeSeen T.Sum.empty T.Sum.joined T.summary root }
        requires fits { T.Sum.fits (total T.Sum.empty T.Sum.joined T.summary (items_seen root)) }
        requires small { length (items_seen root) < 2 ^ 32 }

        // The items of the tree, and the place before the first of them.
        ensures items { result.items ≡ items_seen root.entry }
        ensures place { result.place ≡ 0 }
    {
        let zero = D::of(T::Sum::zero());
        Cursor {
            path: Path::new(alloc, root),
            place: 0,
            item: None,
            start: zero,
            end: zero,
        }
    }

    /// Goes to the first item whose end is at least the target (Left) or greater than it (Right), or past the last
    /// item.
    pub fn seek(&mut self, target: D, bias: Bias, steps: &mut Steps)
        ensures items { self.new.items ≡ self.old.items }
        ensures sought { IsSought T.Sum.empty T.Sum.joined T.summary D.measure D.cmp self.old.items
            target bias self.new.place }
        ensures counted { steps.old ≤ steps.new }
        ensures steps { TakesAtMost way (length self.old.items) steps.old steps.new }
    {
        let found = self.path.find(&Aim::Sum(target, bias), steps);
        self.settle(found);
    }

    /// Goes to the next item, or past the last.
    pub fn next(&mut self, steps: &mut Steps)
        ensures items { self.new.items ≡ self.old.items }
        ensures place { self.new.place ≡ min (self.old.place + 1) (length self.old.items + 1) }
        ensures counted { steps.old ≤ steps.new }
        ensures steps { TakesAtMost way (length self.old.items) steps.old steps.new }
    {
        let index = self.place;
        if index < self.path.count() {
            let item = self.path.go_to(index, steps);
            let start = self.end;
            self.place = index + 1;
            self.item = Some(item);
            self.start = start;
            self.end = start.plus(D::of(item.sum()));
        } else {
            self.settle(None);
        }
    }

    /// Goes to the item before, or before the first.
    pub fn prev(&mut self, steps: &mut Steps)
        ensures items { self.new.items ≡ self.old.items }
        ensures place { self.new.place ≡ self.old.place - 1 }
        ensures counted { steps.old ≤ steps.new }
        ensures steps { TakesAtMost way (length self.old.items) steps.old steps.new }
    {
        if self.place <= 1 {
            let zero = D::of(T::Sum::zero());
            self.place = 0;
            self.item = None;
            self.start = zero;
            self.end = zero;
        } else {
            let found = self.path.find(&Aim::Item(self.place - 2), steps);
            self.settle(found);
        }
    }

    /// Moves to what was found, or past the last item.
    fn settle(&mut self, found: Option<Found<'a, T, D>>)
        requires { IfSome found
            (λ f. IsItem T.Sum.empty T.Sum.joined T.summary D.measure self.old.items f) }
        ensures items { self.new.items ≡ self.old.items }
        ensures place { MatchOption found.entry (self.new.place ≡ length self.old.items + 1)
            (λ f. self.new.place ≡ f.index + 1) }
    {
        match found {
            None => {
                let sum = self.path.sum();
                self.place = self.path.count() + 1;
                self.item = None;
                self.start = sum;
                self.end = sum;
            }
            Some(found) => {
                self.place = found.index + 1;
                self.item = Some(found.item);
                self.start = found.start;
                self.end = found.end;
            }
        }
    }

    /// Where the cursor is. It is 0 before the first item, i + 1 on item i, and one more than the number of items past
    /// the last.
    pub fn place(&self) -> usize
        ensures { result ≡ self.now.place }
    {
        self.place
    }

    /// The item that the cursor is on, and `None` exactly before the first and past the last.
    pub fn item(&self) -> Option<&'a T>
        ensures { option_copied result ≡ last_of self.now.items self.now.place }
    {
        self.item
    }

    /// The sum of the items before the cursor's.
    pub fn start(&self) -> D
        ensures { result ≡
            measure_to T.Sum.empty T.Sum.joined T.summary D.measure self.now.items
            (self.now.place - 1) }
    {
        self.start
    }

    /// The sum of the items up to and with the cursor's.
    pub fn end(&self) -> D
        ensures { result ≡
            measure_to T.Sum.empty T.Sum.joined T.summary D.measure self.now.items self.now.place }
    {
        self.end
    }
}
