//! Whole trees: made of pieces, joined, and built from a list.
ghost use Rattle.std.specs.Prelude.{◌≡◌, ◌+◌, ◌*◌, ◌^◌, ◌<◌, ◌≤◌, ◌++◌, IfOk, map, length, vec_len, min, max};
ghost use Rattle.sum_core.specs.Nodes.{child_value, entries_of, items_of};
ghost use Rattle.sum_tree.specs.Bounds.{joining};
ghost use Rattle.sum_tree.specs.inside.Trees.{IsSameTree};
ghost use Rattle.sum_tree.specs.inside.Nodes.{AreRaisable, IsLawfulTree, IsTreeHolding, SumFits, items_below};

use crate::joins::meld;
use crate::pack::{make_inner, pack_items};
use cell_units::{NoMemory, Steps};
use std::alloc::Global;
use sum_core::{Child, Item, Node};

/// A root with its height, and the sum and the number of all items.
#[derive(Drop)]
pub struct Tree<T: Item> {
    pub node: Node<T>,
    pub height: usize,
    pub sum: T::Sum,
    pub count: usize,
}

impl<T: Item> Tree<T> {
    /// The child as the root of a tree.
    pub fn over(child: Child<T>, height: usize) -> Tree<T>
        ensures node { (result.sum, result.count, entries_of result.node) ≡ child_value child }
        ensures height { result.height ≡ height }
    {
        Tree {
            node: child.node,
            height,
            sum: child.sum,
            count: child.count,
        }
    }

    /// One more holder of the same tree.
    pub fn share(&self) -> Result<Tree<T>, NoMemory>
        ensures { IfOk result (λ t. IsSameTree t self.now) }
    {
        Ok(Tree {
            node: self.node.share()?,
            height: self.height,
            sum: self.sum,
            count: self.count,
        })
    }
}

/// A tree of these pieces: the one that there is, or a root over them all.
pub fn raise<T: Item>(
    alloc: Global,
    pieces: Vec<Child<T>>,
    height: usize,
    steps: &mut Steps,
) -> Result<Tree<T>, NoMemory>
    // Pieces of one height, of which the items may be in one tree.
    requires pieces { AreRaisable T.Item T.Sum.Summary height pieces.items }
    requires low { height < 2 ^ 32 }
    requires fits { SumFits T.Item T.Sum.Summary (items_below pieces.items) }
    requires small { length (items_below pieces.items) < 2 ^ 32 }

    // A tree of them, as high or one level higher.
    ensures raised { IfOk result
        (λ t. IsTreeHolding T.Item T.Sum.Summary t (items_below pieces.items)) }
    ensures height { IfOk result (λ t. (height ≤ t.height) × (t.height ≤ height + 1)) }

    // One node is made at most.
    ensures counted { steps.old ≤ steps.new }
    ensures steps { steps.new ≤ steps.old + 1 }
{
    if pieces.len() == 1 {
        let mut pieces = pieces;
        let child = pieces.remove(0);
        Ok(Tree::over(child, height))
    } else {
        let top = make_inner(alloc, pieces, height + 1, steps)?;
        Ok(Tree::over(top, height + 1))
    }
}

/// The items of the one tree and then of the other.
pub fn join<T: Item>(
    alloc: Global,
    left: &Tree<T>,
    right: &Tree<T>,
    steps: &mut Steps,
) -> Result<Tree<T>, NoMemory>
    // Two trees, of which the items together may be in one.
    requires left { IsLawfulTree T.Item T.Sum.Summary left.now }
    requires right { IsLawfulTree T.Item T.Sum.Summary right.now }
    requires fits { SumFits T.Item T.Sum.Summary (items_of left.now.node ++
        items_of right.now.node) }
    requires small { length (items_of left.now.node ++ items_of right.now.node) < 2 ^ 32 }

    // A tree of them, as high as the higher or one level higher.
    ensures joined { IfOk result
        (λ t. IsTreeHolding T.Item T.Sum.Summary t
        (items_of left.now.node ++ items_of right.now.node)) }
    ensures height { IfOk result
        (λ t. (max left.now.height right.now.height ≤ t.height) ×
        (t.height ≤ max left.now.height right.now.height + 1)) }

    // Three nodes for each level that the one is higher, and five. Whatever the heights are, no more than `joining`.
    ensures climb { steps.new + 3 * min left.now.height right.now.height ≤ steps.old +
        3 * max left.now.height right.now.height + 5 }
    ensures counted { steps.old ≤ steps.new }
    ensures steps { steps.new ≤ steps.old + joining }
{
    let pieces = meld(
        alloc,
        &left.node,
        left.height,
        &right.node,
        right.height,
        steps,
    )?;
    raise(alloc, pieces, left.height.max(right.height), steps)
}

/// Takes the last `count` items off the list and makes a tree of them, by halves. Each item is moved at most three
/// times.
pub fn build_last<T: Item>(
    alloc: Global,
    items: &mut Vec<T>,
    count: usize,
    steps: &mut Steps,
) -> Result<Tree<T>, NoMemory>
    // There are so many items, and they may be in one tree.
    requires within { count ≤ vec_len items.old }
    requires fits { SumFits T.Item T.Sum.Summary items.old.items }
    requires small { vec_len items.old < 2 ^ 32 }

    // A tree of those taken off; the others stay.
    ensures tree { IfOk result (λ t. IsLawfulTree T.Item T.Sum.Summary t) }
    ensures items { IfOk result (λ t. items.old.items ≡ items.new.items ++ items_of t.node) }
    ensures count { IfOk result (λ t. length (items_of t.node) ≡ count) }

    // Four nodes an item and four, and for twelve items and more 42 less.
    ensures counted { steps.old ≤ steps.new }
    ensures steps { steps.new ≤ steps.old + 4 * (count + 1) }
    ensures many { 12 ≤ count → steps.new + 38 ≤ steps.old + 4 * count }
{
    if count <= 24 {
        let last = items.split_off(items.len() - count)?;
        let pieces = pack_items(alloc, last, steps)?;
        raise(alloc, pieces, 0, steps)
    } else {
        let half = count / 2;
        let right = build_last(alloc, items, count - half, steps)?;
        let left = build_last(alloc, items, half, steps)?;
        join(alloc, &left, &right, steps)
    }
}
