//! The tree as a list of items.
ghost use Rattle.std.specs.Prelude.{ℕ, ◌≡◌, ◌+◌, ◌*◌, ◌^◌, ◌<◌, ◌≤◌, ◌++◌, ◌∷◌, [], IfOk, OnOk, OnErr, length, vec_len, take, drop, slice_get};
ghost use Rattle.std.specs.List.{position};
ghost use Rattle.std.specs.Option.{option_copied};
ghost use Rattle.sum_core.specs.Sums.{total};
ghost use Rattle.sum_tree.specs.Bounds.{ChangesAtMost, OpensEachLevel, Searches, TakesAtMost, building, cutting, highest, joining, pushing, replacing, cuts_and_joins, way};
ghost use Rattle.sum_tree.specs.inside.InPlace.{IfNoRoom, IsRefilledAlone, placing, refilled};
ghost use Rattle.sum_tree.specs.inside.Paths.{items_seen};
ghost use Rattle.sum_tree.specs.inside.Ways.{IsWay};

use crate::cursor::Cursor;
use crate::find::item_at;
use crate::in_place::{PutError, Span, put_in_tree};
use crate::pack::{MOST, make_leaf};
use crate::path::Path;
use crate::search::{Probe, before_below};
use crate::splits::split_at;
use crate::trees::{Tree, build_last, join};
use cell_units::{NoMemory, Steps};
use std::alloc::Global;
use std::marker::Model;
use sum_core::{Dimension, Item, Summary};

/// A list of fewer than 2^32 items that knows their sum. Copies share what they have in common, and no later change of
/// the one is seen by another. A call that is out of memory leaves the list as it was.
///
/// The bounds on the steps of a call are given for each h such that n is less than 2 * 6^(h + 1). The least such h
/// is the greatest height of a tree of n items.
pub struct SumTree<T: Item> {
    alloc: Global,
    tree: Option<Tree<T>>,
}

impl<T: Item> Drop for SumTree<T> {
    fn drop(self) {
        let SumTree { alloc: _, tree: _ } = self;
    }
}

impl<T: Item> Model for SumTree<T> {
    ghost use Rattle.std.specs.Prelude.{List};
    ghost use Rattle.sum_tree.specs.inside.Trees.{items_held, IsHeld};

    ghost Value = { List T };

    ghost view = { λ t. items_held t.tree };

    ghost invariant = { λ t. IsHeld T.Sum.empty T.Sum.joined T.summary T.Sum.fits t.tree };
}

impl<T: Item> SumTree<T> {
    /// An empty list. It allocates nothing.
    pub fn new(alloc: Global) -> SumTree<T>
        ensures { result ≡ [] }
    {
        SumTree { alloc, tree: None }
    }

    /// An equal list.
    pub fn share(&self) -> Result<SumTree<T>, NoMemory>
        ensures { IfOk result (λ t. t ≡ self.now) }
    {
        let tree = match &self.tree {
            None => None,
            Some(tree) => Some(tree.share()?),
        };
        Ok(SumTree {
            alloc: self.alloc,
            tree,
        })
    }

    /// The number of items.
    pub fn len(&self) -> u32
        ensures { result ≡ length self.now }
    {
        match &self.tree {
            None => 0,
            Some(tree) => tree.count as u32,
        }
    }

    /// The sum of all items.
    pub fn sum(&self) -> T::Sum
        ensures { result ≡ total T.Sum.empty T.Sum.joined T.summary self.now }
    {
        match &self.tree {
            None => T::Sum::zero(),
            Some(tree) => tree.sum,
        }
    }

    /// The item at place `at`, and `None` exactly where there is none.
    pub fn get(&self, at: u32, steps: &mut Steps) -> Option<&T>
        ensures item { option_copied result ≡ slice_get self.now at }
        ensures counted { steps.old ≤ steps.new }
        ensures steps { TakesAtMost way (length self.now) steps.old steps.new }
        ensures opened { at < length self.now →
            OpensEachLevel (length self.now) steps.old steps.new }
    {
        match &self.tree {
            None => None,
            Some(tree) => {
                if (at as usize) < tree.count {
                    Some(item_at(&tree.node, tree.height, at as usize, steps))
                } else {
                    None
                }
            }
        }
    }

    /// The place of the first item that passes, and `None` exactly where none does. A node is opened only where the
    /// probe says of its sum that an item may pass, and at most once. There are fewer nodes than items but for a lone
    /// root.
    pub fn position<Q: Probe<T>>(&self, probe: &Q, steps: &mut Steps) -> Option<u32>
        ensures place { result ≡ position (Q.is_passed probe.now) self.now }
        ensures counted { steps.old ≤ steps.new }
        ensures steps { Searches (length self.now) steps.old steps.new }
    {
        match &self.tree {
            None => None,
            Some(tree) => {
                if !probe.may_pass_in(tree.sum) {
                    return None;
                }
                let before = before_below(&tree.node, tree.height, probe, steps);
                if before < tree.count {
                    Some(before as u32)
                } else {
                    None
                }
            }
        }
    }

    /// The number of levels below the root: no more than the items allow, and enough of them for the items.
    pub fn height(&self) -> u32
        ensures low { (h : ℕ) → length self.now < 2 * 6 ^ (h + 1) → result ≤ h }
        ensures enough { length self.now ≤ 12 ^ (result + 1) }
    {
        match &self.tree {
            None => 0,
            Some(tree) => tree.height as u32,
        }
    }

    /// A tree of these items. Its time is linear in their number.
    pub fn from_vec(alloc: Global, items: Vec<T>, steps: &mut Steps) -> Result<SumTree<T>, NoMemory>
        // The sum of the items and their number fit.
        requires fits { T.Sum.fits (total T.Sum.empty T.Sum.joined T.summary items.items) }
        requires small { length items.items < 2 ^ 32 }

        // The list, and the work.
        ensures ok { IfOk result (λ t. t ≡ items.items) }
        ensures counted { steps.old ≤ steps.new }
        ensures steps { steps.new ≤ steps.old + building (length items.items) }
    {
        let mut items = items;
        let count = items.len();
        if count == 0 {
            Ok(SumTree { alloc, tree: None })
        } else {
            let tree = build_last(alloc, &mut items, count, steps)?;
            Ok(SumTree {
                alloc,
                tree: Some(tree),
            })
        }
    }

    /// A list of at most 12 items, in one leaf.
    fn in_one_leaf(alloc: Global, items: Vec<T>, steps: &mut Steps) -> Result<SumTree<T>, NoMemory>
        // A leaf has room for the items, and their sum fits.
        requires room { vec_len items ≤ 12 }
        requires fits { T.Sum.fits (total T.Sum.empty T.Sum.joined T.summary items.items) }

        // The list of them, for which one node is made.
        ensures ok { IfOk result (λ t. t ≡ items.items) }
        ensures counted { steps.old ≤ steps.new }
        ensures steps { steps.new ≤ steps.old + 1 }
    {
        let leaf = make_leaf(alloc, items, steps)?;
        Ok(SumTree {
            alloc,
            tree: Some(Tree::over(leaf, 0)),
        })
    }

    /// Adds an item at the end: in place where the last leaf has room, or two may take its place, and else by a join.
    pub fn push(&mut self, alloc: Global, item: T, steps: &mut Steps) -> Result<(), NoMemory>
        // The sum and the length of the list after it fit.
        requires fits { T.Sum.fits
            (total T.Sum.empty T.Sum.joined T.summary (self.old ++ item ∷ [])) }
        requires small { length (self.old ++ item ∷ []) < 2 ^ 32 }

        // What is there after it.
        ensures ok { OnOk result (self.new ≡ self.old ++ item ∷ []) }
        ensures unchanged { OnErr result (self.new ≡ self.old) }

        // The work.
        ensures counted { steps.old ≤ steps.new }
        ensures steps { steps.new ≤ steps.old + pushing }
    {
        let mut items = Vec::new(alloc);
        items.push(item)?;
        let end = self.len() as usize;
        let span = Span { from: end, to: end };
        match self.put_in_place(alloc, span, &mut items, steps) {
            Ok(()) => Ok(()),
            Err(PutError::NoMemory) => Err(NoMemory),
            Err(PutError::NoRoom) => {
                let last = SumTree::in_one_leaf(alloc, items, steps)?;
                self.concat(alloc, last, steps)
            }
        }
    }

    /// Adds the items of another tree at the end.
    pub fn concat(
        &mut self,
        alloc: Global,
        other: SumTree<T>,
        steps: &mut Steps,
    ) -> Result<(), NoMemory>
        // The sum and the length of the list after it fit.
        requires fits { T.Sum.fits (total T.Sum.empty T.Sum.joined T.summary (self.old ++ other)) }
        requires small { length (self.old ++ other) < 2 ^ 32 }

        // What is there after it.
        ensures ok { OnOk result (self.new ≡ self.old ++ other) }
        ensures unchanged { OnErr result (self.new ≡ self.old) }

        // The work.
        ensures counted { steps.old ≤ steps.new }
        ensures steps { steps.new ≤ steps.old + joining }
    {
        let SumTree {
            alloc: _,
            tree: back,
        } = other;
        let Some(back) = back else {
            return Ok(());
        };
        let tree = match &self.tree {
            None => back,
            Some(front) => join(alloc, front, &back, steps)?,
        };
        self.tree = Some(tree);
        Ok(())
    }

    /// Takes the items from place `at` on off the list.
    pub fn split_off(
        &mut self,
        alloc: Global,
        at: u32,
        steps: &mut Steps,
    ) -> Result<SumTree<T>, NoMemory>
        requires { at ≤ length self.old }

        // What stays, and what is returned.
        ensures ok { OnOk result (self.new ≡ take at self.old) }
        ensures tail { IfOk result (λ t. t ≡ drop at self.old) }
        ensures unchanged { OnErr result (self.new ≡ self.old) }

        // The work.
        ensures counted { steps.old ≤ steps.new }
        ensures steps { TakesAtMost cutting (length self.old) steps.old steps.new }
    {
        let Some(tree) = &self.tree else {
            return Ok(SumTree { alloc, tree: None });
        };
        let parts = split_at(alloc, &tree.node, tree.height, at as usize, steps)?;
        self.tree = Some(parts.left);
        Ok(SumTree {
            alloc,
            tree: Some(parts.right),
        })
    }

    /// Puts `items` in the place of those from place `from` to place `to`.
    pub fn replace(
        &mut self,
        alloc: Global,
        from: u32,
        to: u32,
        items: Vec<T>,
        steps: &mut Steps,
    ) -> Result<(), NoMemory>
        // The places are in the list, and its sum and length after it fit.
        requires order { from ≤ to }
        requires within { to ≤ length self.old }
        requires fits { T.Sum.fits
            (total T.Sum.empty T.Sum.joined T.summary
            (take from self.old ++ items.items ++ drop to self.old)) }
        requires small { length (take from self.old ++ items.items ++ drop to self.old) < 2 ^ 32 }

        // What is there after it.
        ensures ok { OnOk result
            (self.new ≡ take from self.old ++ items.items ++ drop to self.old) }
        ensures unchanged { OnErr result (self.new ≡ self.old) }

        // The work.
        ensures counted { steps.old ≤ steps.new }
        ensures steps { ChangesAtMost (replacing (length items.items)) (length self.old)
            (length (take from self.old ++ items.items ++ drop to self.old)) steps.old steps.new }
    {
        let mut items = items;
        let span = Span {
            from: from as usize,
            to: to as usize,
        };
        match self.put_in_place(alloc, span, &mut items, steps) {
            Ok(()) => Ok(()),
            Err(PutError::NoMemory) => Err(NoMemory),
            Err(PutError::NoRoom) => {
                let middle = SumTree::from_vec(alloc, items, steps)?;
                self.splice(alloc, from, to, middle, steps)
            }
        }
    }

    /// The same on the one way down to the leaf that holds the span, where it has room for the items.
    fn put_in_place(
        &mut self,
        alloc: Global,
        span: Span,
        items: &mut Vec<T>,
        steps: &mut Steps,
    ) -> Result<(), PutError>
        // The span lies in the list, and its sum and length after it fit.
        requires order { span.from ≤ span.to }
        requires within { span.to ≤ length self.old }
        requires fits { T.Sum.fits
            (total T.Sum.empty T.Sum.joined T.summary (refilled self.old span items.old.items)) }
        requires small { length (refilled self.old span items.old.items) < 2 ^ 32 }

        // What is there after it.
        ensures put { IsRefilledAlone self.old span items.old items.new self.new result }

        // The work, and what of it is done where there is no room.
        ensures counted { steps.old ≤ steps.new }
        ensures few { steps.new ≤ steps.old + placing highest }
        ensures few_in_vain { IfNoRoom result (steps.new ≤ steps.old + way highest) }
        ensures steps { TakesAtMost placing (length self.old) steps.old steps.new }
        ensures in_vain { IfNoRoom result (TakesAtMost way (length self.old) steps.old steps.new) }
    {
        if items.len() > MOST {
            return Err(PutError::NoRoom);
        }
        let Some(tree) = &mut self.tree else {
            return Err(PutError::NoRoom);
        };
        put_in_tree(alloc, tree, span, items, steps)
    }

    /// Puts the items of another tree in the place of those from place `from` to place `to`, by cuts and joins.
    fn splice(
        &mut self,
        alloc: Global,
        from: u32,
        to: u32,
        middle: SumTree<T>,
        steps: &mut Steps,
    ) -> Result<(), NoMemory>
        // The places are in the list, and its sum and length after it fit.
        requires order { from ≤ to }
        requires within { to ≤ length self.old }
        requires fits { T.Sum.fits
            (total T.Sum.empty T.Sum.joined T.summary
            (take from self.old ++ middle ++ drop to self.old)) }
        requires small { length (take from self.old ++ middle ++ drop to self.old) < 2 ^ 32 }

        // What is there after it.
        ensures ok { OnOk result (self.new ≡ take from self.old ++ middle ++ drop to self.old) }
        ensures unchanged { OnErr result (self.new ≡ self.old) }

        // The work.
        ensures counted { steps.old ≤ steps.new }
        ensures steps { TakesAtMost cuts_and_joins (length self.old) steps.old steps.new }
    {
        let mut front = self.share()?;
        let mut back = front.split_off(alloc, from, steps)?;
        let back = back.split_off(alloc, to - from, steps)?;
        front.concat(alloc, middle, steps)?;
        front.concat(alloc, back, steps)?;
        *self = front;
        Ok(())
    }

    /// A path with no node on it.
    pub(crate) fn path(&self) -> Path<'_, T>
        ensures path { IsWay T.Item T.Sum.Summary result }
        ensures items { items_seen result.root ≡ self.now }
    {
        let root = match &self.tree {
            None => None,
            Some(tree) => Some(tree),
        };
        Path::new(self.alloc, root)
    }

    /// A cursor before the first item, with places and sums in the dimension `D`.
    pub fn cursor<D: Dimension<T::Sum>>(&self) -> Cursor<'_, T, D>
        ensures items { result.items ≡ self.now }
        ensures place { result.place ≡ 0 }
    {
        let root = match &self.tree {
            None => None,
            Some(tree) => Some(tree),
        };
        Cursor::new(self.alloc, root)
    }
}

/// Trees may be dropped, moved to other threads and shared by them.
fn may_be_shared<T: Item + Send + Sync>(tree: &SumTree<T>)
where
    T::Sum: Send + Sync,
{
    serves_threads(tree);
}

fn serves_threads<N: Drop + Send + Sync>(_tree: &N) {}
