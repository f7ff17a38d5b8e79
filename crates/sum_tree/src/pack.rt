//! One node or two from at most 24 entries.
ghost use Rattle.std.specs.Prelude.{◌≡◌, ◌+◌, ◌-◌, ◌/◌, ◌^◌, ◌<◌, ◌≤◌, ◌++◌, ◌∷◌, [], IfOk, map, length, vec_len, min};
ghost use Rattle.sum_core.specs.Nodes.{child_value, items_in};
ghost use Rattle.sum_tree.specs.inside.Nodes.{AreChildren, ArePacked, IsChildAt, IsWideChild, SumFits, items_below, sum_of};

use cell_units::{NoMemory, Steps};
use std::alloc::Global;
use sum_core::{Child, Entries, Item, Node, Summary};

/// The greatest number of entries in a node.
pub const MOST: usize = 12;

/// The least number of entries in a node that is no root.
pub const FEWEST: usize = 6;

/// The sum of the items.
pub fn sum_items<T: Item>(items: &[T]) -> T::Sum
    requires { SumFits T.Item T.Sum.Summary items.now }
    ensures { result ≡ sum_of T.Item T.Sum.Summary items.now }
{
    let mut sum = T::Sum::zero();
    for item in items {
        sum = sum.plus(item.sum());
    }
    sum
}

/// The sum and the number of the items below the children.
pub fn sum_children<T: Item>(children: &[Child<T>], below: usize) -> (T::Sum, usize)
    // Children of the height `below`, of which the items may be in one tree.
    requires children { AreChildren T.Item T.Sum.Summary below children.now }
    requires fits { SumFits T.Item T.Sum.Summary (items_below children.now) }
    requires small { length (items_below children.now) < 2 ^ 32 }

    // The sum and the number of all items below them.
    ensures sum { result.0 ≡ sum_of T.Item T.Sum.Summary (items_below children.now) }
    ensures count { result.1 ≡ length (items_below children.now) }
{
    let mut sum = T::Sum::zero();
    let mut count = 0;
    for child in children {
        sum = sum.plus(child.sum);
        count += child.count;
    }
    (sum, count)
}

/// A new leaf, with its sum and count.
pub fn make_leaf<T: Item>(
    alloc: Global,
    items: Vec<T>,
    steps: &mut Steps,
) -> Result<Child<T>, NoMemory>
    // No more items than one node holds.
    requires room { vec_len items ≤ 12 }
    requires fits { SumFits T.Item T.Sum.Summary items.items }

    // A leaf of just these.
    ensures kept { IfOk result (λ c. IsWideChild T.Item T.Sum.Summary 0 (vec_len items) c) }
    ensures items { IfOk result (λ c. items_in (child_value c).2 ≡ items.items) }

    // One node is made.
    ensures counted { steps.old ≤ steps.new }
    ensures steps { steps.new ≤ steps.old + 1 }
{
    let sum = sum_items(&items);
    let count = items.len();
    match Node::make(alloc, Entries::Leaf(items), steps) {
        Ok(node) => Ok(Child { sum, count, node }),
        Err(_) => Err(NoMemory),
    }
}

/// A new inner node of this height, with its sum and count.
pub fn make_inner<T: Item>(
    alloc: Global,
    children: Vec<Child<T>>,
    height: usize,
    steps: &mut Steps,
) -> Result<Child<T>, NoMemory>
    // Children of the height below, no more than one node holds, of which the items may be in one tree.
    requires is_inner { 1 ≤ height }
    requires children { AreChildren T.Item T.Sum.Summary (height - 1) children.items }
    requires room { vec_len children ≤ 12 }
    requires fits { SumFits T.Item T.Sum.Summary (items_below children.items) }
    requires small { length (items_below children.items) < 2 ^ 32 }

    // A node of just these.
    ensures kept { IfOk result (λ c. IsWideChild T.Item T.Sum.Summary height (vec_len children) c) }
    ensures items { IfOk result (λ c. items_in (child_value c).2 ≡ items_below children.items) }

    // One node is made.
    ensures counted { steps.old ≤ steps.new }
    ensures steps { steps.new ≤ steps.old + 1 }
{
    let summed = sum_children(&children, height - 1);
    match Node::make(alloc, Entries::Inner(children), steps) {
        Ok(node) => Ok(Child {
            sum: summed.0,
            count: summed.1,
            node,
        }),
        Err(_) => Err(NoMemory),
    }
}

fn one<T: Item>(alloc: Global, only: Child<T>) -> Result<Vec<Child<T>>, NoMemory>
    ensures { IfOk result (λ v. map child_value v.items ≡ child_value only ∷ []) }
{
    let mut pieces = Vec::new(alloc);
    pieces.push(only)?;
    Ok(pieces)
}

fn two<T: Item>(alloc: Global, left: Child<T>, right: Child<T>) -> Result<Vec<Child<T>>, NoMemory>
    ensures { IfOk result
        (λ v. map child_value v.items ≡ child_value left ∷ child_value right ∷ []) }
{
    let mut pieces = Vec::with_capacity(alloc, 2)?;
    pieces.push(left)?;
    pieces.push(right)?;
    Ok(pieces)
}

/// The first half of a list, and what comes after it. The first half gives back the room that it doesn't use. Otherwise
/// a tree that grows at its end would keep half of its memory empty.
fn halves<T: Drop>(list: Vec<T>) -> Result<(Vec<T>, Vec<T>), NoMemory>
    ensures joined { IfOk result (λ h. list.items ≡ h.0.items ++ h.1.items) }
    ensures front { IfOk result (λ h. vec_len h.0 ≡ vec_len list / 2) }
{
    let mut front = list;
    let back = front.split_off(front.len() / 2)?;
    front.shrink_to_fit();
    Ok((front, back))
}

/// One leaf or two with the items. Of two, each is at least half full.
pub fn pack_items<T: Item>(
    alloc: Global,
    items: Vec<T>,
    steps: &mut Steps,
) -> Result<Vec<Child<T>>, NoMemory>
    // No more items than two nodes hold, and their sum fits.
    requires room { vec_len items ≤ 24 }
    requires fits { SumFits T.Item T.Sum.Summary items.items }

    // One leaf or two, of all items in their order.
    ensures packed { IfOk result
        (λ v. ArePacked T.Item T.Sum.Summary 0 (vec_len items) items.items v.items) }

    // Two nodes are made at most.
    ensures counted { steps.old ≤ steps.new }
    ensures steps { steps.new ≤ steps.old + 2 }
{
    if items.len() <= MOST {
        let only = make_leaf(alloc, items, steps)?;
        one(alloc, only)
    } else {
        let (left, right) = make_leaves(alloc, items, steps)?;
        two(alloc, left, right)
    }
}

/// Two leaves, each with half of the items.
pub fn make_leaves<T: Item>(
    alloc: Global,
    items: Vec<T>,
    steps: &mut Steps,
) -> Result<(Child<T>, Child<T>), NoMemory>
    // Enough for two nodes, and no more than they hold.
    requires enough { 12 ≤ vec_len items }
    requires room { vec_len items ≤ 24 }
    requires fits { SumFits T.Item T.Sum.Summary items.items }

    // Leaves that need no root, of all items in their order.
    ensures left { IfOk result (λ two. IsChildAt T.Item T.Sum.Summary 0 two.0) }
    ensures right { IfOk result (λ two. IsChildAt T.Item T.Sum.Summary 0 two.1) }
    ensures items { IfOk result (λ two.
        items_in (child_value two.0).2 ++ items_in (child_value two.1).2 ≡ items.items) }

    // Two nodes are made.
    ensures counted { steps.old ≤ steps.new }
    ensures steps { steps.new ≤ steps.old + 2 }
{
    let (front, back) = halves(items)?;
    let left = make_leaf(alloc, front, steps)?;
    let right = make_leaf(alloc, back, steps)?;
    Ok((left, right))
}

/// One inner node or two with the children. Of two, each is at least half full.
pub fn pack_children<T: Item>(
    alloc: Global,
    children: Vec<Child<T>>,
    height: usize,
    steps: &mut Steps,
) -> Result<Vec<Child<T>>, NoMemory>
    // Children of the height below, no more than two nodes hold, of which the items may be in one tree.
    requires is_inner { 1 ≤ height }
    requires children { AreChildren T.Item T.Sum.Summary (height - 1) children.items }
    requires room { vec_len children ≤ 24 }
    requires fits { SumFits T.Item T.Sum.Summary (items_below children.items) }
    requires small { length (items_below children.items) < 2 ^ 32 }

    // All items, in their order.
    ensures packed { IfOk result
        (λ v. ArePacked T.Item T.Sum.Summary height (vec_len children) (items_below children.items)
        v.items) }

    // Two nodes are made at most.
    ensures counted { steps.old ≤ steps.new }
    ensures steps { steps.new ≤ steps.old + 2 }
{
    if children.len() <= MOST {
        let only = make_inner(alloc, children, height, steps)?;
        one(alloc, only)
    } else {
        let (front, back) = halves(children)?;
        let left = make_inner(alloc, front, height, steps)?;
        let right = make_inner(alloc, back, height, steps)?;
        two(alloc, left, right)
    }
}

/// One inner node or two with the children of both lists.
pub fn pack_joined<T: Item>(
    alloc: Global,
    front: Vec<Child<T>>,
    back: Vec<Child<T>>,
    height: usize,
    steps: &mut Steps,
) -> Result<Vec<Child<T>>, NoMemory>
    // Children of the height below, no more than two nodes hold, of which the items may be in one tree.
    requires is_inner { 1 ≤ height }
    requires front { AreChildren T.Item T.Sum.Summary (height - 1) front.items }
    requires back { AreChildren T.Item T.Sum.Summary (height - 1) back.items }
    requires room { vec_len front + vec_len back ≤ 24 }
    requires fits { SumFits T.Item T.Sum.Summary (items_below front.items ++
        items_below back.items) }
    requires small { length (items_below front.items ++ items_below back.items) < 2 ^ 32 }

    // All items, in their order.
    ensures packed { IfOk result
        (λ v. ArePacked T.Item T.Sum.Summary height (vec_len front + vec_len back)
        (items_below front.items ++ items_below back.items) v.items) }

    // Two nodes are made at most.
    ensures counted { steps.old ≤ steps.new }
    ensures steps { steps.new ≤ steps.old + 2 }
{
    let mut children = front;
    let mut back = back;
    children.append(&mut back)?;
    pack_children(alloc, children, height, steps)
}
