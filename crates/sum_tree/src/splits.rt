//! Cutting a tree in two at a place, and joining what lies beside a path.
ghost use Rattle.std.specs.Prelude.{◌≡◌, ◌+◌, ◌*◌, ◌-◌, ◌^◌, ◌<◌, ◌≤◌, ◌++◌, IfOk, map, length, vec_len, take, drop};
ghost use Rattle.sum_core.specs.Nodes.{items_of};
ghost use Rattle.sum_tree.specs.inside.Nodes.{AreChildren, IsCutNode, IsLawfulRoot, IsLawfulTree, IsTreeHolding, SumFits, items_below};

use crate::find::find_child;
use crate::open::{copy_inner, copy_leaf};
use crate::pack::make_leaf;
use crate::trees::{Tree, join, raise};
use cell_units::{NoMemory, Steps};
use std::alloc::Global;
use sum_core::{Child, Item, Node};

/// The children of a node round the one that a place lies in, and the number of items before that one.
#[derive(Drop)]
pub struct Cut<T: Item> {
    pub before: Vec<Child<T>>,
    pub node: Node<T>,
    pub after: Vec<Child<T>>,
    pub offset: usize,
}

/// The children of a node, cut at the one that the place `at` lies in.
pub fn cut_children<T: Item>(
    alloc: Global,
    node: &Node<T>,
    height: usize,
    at: usize,
    steps: &mut Steps,
) -> Result<Cut<T>, NoMemory>
    // An inner root, and a place in it or at its end.
    requires tree { IsLawfulRoot T.Item T.Sum.Summary height node.now }
    requires is_inner { 1 ≤ height }
    requires within { at ≤ length (items_of node.now) }
    requires small { length (items_of node.now) < 2 ^ 32 }

    // The child, and those on both sides of it.
    ensures cut { IfOk result (λ u. IsCutNode T.Item T.Sum.Summary height node.now at u) }

    // The node is opened.
    ensures counted { steps.old ≤ steps.new }
    ensures steps { steps.new ≤ steps.old + 1 }
{
    let mut before = copy_inner(alloc, node, height, steps)?;
    let found = find_child(&before, height - 1, at);
    let mut after = before.split_off(found.0)?;
    let child = after.remove(0);
    Ok(Cut {
        before,
        node: child.node,
        after,
        offset: found.1,
    })
}

/// A tree of the items below the children, which have the height `below`, and then the tree's items.
pub fn join_before<T: Item>(
    alloc: Global,
    children: Vec<Child<T>>,
    below: usize,
    tree: Tree<T>,
    steps: &mut Steps,
) -> Result<Tree<T>, NoMemory>
    // Children that fit one node, and a tree.
    requires children { AreChildren T.Item T.Sum.Summary below children.items }
    requires room { vec_len children ≤ 12 }
    requires low { below < 2 ^ 32 }
    requires tree { IsLawfulTree T.Item T.Sum.Summary tree }

    // Their items together may be in one tree.
    requires fits { SumFits T.Item T.Sum.Summary (items_below children.items ++
        items_of tree.node) }
    requires small { length (items_below children.items ++ items_of tree.node) < 2 ^ 32 }

    // The items in that order.
    ensures put { IfOk result
        (λ t. IsTreeHolding T.Item T.Sum.Summary t
        (items_below children.items ++ items_of tree.node)) }

    // One node is made at most, and one join done.
    ensures counted { steps.old ≤ steps.new }
    ensures steps { steps.new ≤ steps.old + 39 }
{
    if children.is_empty() {
        Ok(tree)
    } else {
        let left = raise(alloc, children, below, steps)?;
        join(alloc, &left, &tree, steps)
    }
}

/// A tree of the tree's items, and then those below the children, which have the height `below`.
pub fn join_after<T: Item>(
    alloc: Global,
    tree: Tree<T>,
    children: Vec<Child<T>>,
    below: usize,
    steps: &mut Steps,
) -> Result<Tree<T>, NoMemory>
    // Children that fit one node, and a tree.
    requires children { AreChildren T.Item T.Sum.Summary below children.items }
    requires room { vec_len children ≤ 12 }
    requires low { below < 2 ^ 32 }
    requires tree { IsLawfulTree T.Item T.Sum.Summary tree }

    // Their items together may be in one tree.
    requires fits { SumFits T.Item T.Sum.Summary (items_of tree.node ++
        items_below children.items) }
    requires small { length (items_of tree.node ++ items_below children.items) < 2 ^ 32 }

    // The items in that order.
    ensures put { IfOk result
        (λ t. IsTreeHolding T.Item T.Sum.Summary t
        (items_of tree.node ++ items_below children.items)) }

    // One node is made at most, and one join done.
    ensures counted { steps.old ≤ steps.new }
    ensures steps { steps.new ≤ steps.old + 39 }
{
    if children.is_empty() {
        Ok(tree)
    } else {
        let right = raise(alloc, children, below, steps)?;
        join(alloc, &tree, &right, steps)
    }
}

/// The two parts of a tree that was cut.
#[derive(Drop)]
pub struct Halves<T: Item> {
    pub left: Tree<T>,
    pub right: Tree<T>,
}

/// The items before the place `at`, and those from it on: a cut along one path, with the parts joined on the way up.
pub fn split_at<T: Item>(
    alloc: Global,
    node: &Node<T>,
    height: usize,
    at: usize,
    steps: &mut Steps,
) -> Result<Halves<T>, NoMemory>
    // A place in the tree or at its end.
    requires tree { IsLawfulRoot T.Item T.Sum.Summary height node.now }
    requires within { at ≤ length (items_of node.now) }
    requires fits { SumFits T.Item T.Sum.Summary (items_of node.now) }
    requires small { length (items_of node.now) < 2 ^ 32 }

    // The two halves.
    ensures left { IfOk result
        (λ p. IsTreeHolding T.Item T.Sum.Summary p.left (take at (items_of node.now))) }
    ensures right { IfOk result
        (λ p. IsTreeHolding T.Item T.Sum.Summary p.right (drop at (items_of node.now))) }

    // A level opens one node and joins twice, at 39 nodes at most; a leaf costs three.
    ensures counted { steps.old ≤ steps.new }
    ensures steps { steps.new ≤ steps.old + 79 * height + 3 }
{
    if height == 0 {
        split_leaf(alloc, node, at, steps)
    } else {
        let cut = cut_children(alloc, node, height, at, steps)?;
        let middle = cut.node;
        let parts = split_at(alloc, &middle, height - 1, at - cut.offset, steps)?;
        let left = join_before(alloc, cut.before, height - 1, parts.left, steps)?;
        let right = join_after(alloc, parts.right, cut.after, height - 1, steps)?;
        Ok(Halves { left, right })
    }
}

/// The items of a leaf before the place `at`, and those from it on.
fn split_leaf<T: Item>(
    alloc: Global,
    node: &Node<T>,
    at: usize,
    steps: &mut Steps,
) -> Result<Halves<T>, NoMemory>
    // A leaf whose sum fits, and a place in it or at its end.
    requires tree { IsLawfulRoot T.Item T.Sum.Summary 0 node.now }
    requires within { at ≤ length (items_of node.now) }
    requires fits { SumFits T.Item T.Sum.Summary (items_of node.now) }

    // The two halves.
    ensures left { IfOk result
        (λ p. IsTreeHolding T.Item T.Sum.Summary p.left (take at (items_of node.now))) }
    ensures right { IfOk result
        (λ p. IsTreeHolding T.Item T.Sum.Summary p.right (drop at (items_of node.now))) }

    // The leaf is opened, and two are made.
    ensures counted { steps.old ≤ steps.new }
    ensures steps { steps.new ≤ steps.old + 3 }
{
    let mut items = copy_leaf(alloc, node, steps)?;
    let rest = items.split_off(at)?;
    let left = make_leaf(alloc, items, steps)?;
    let right = make_leaf(alloc, rest, steps)?;
    Ok(Halves {
        left: Tree::over(left, 0),
        right: Tree::over(right, 0),
    })
}
