//! Writing a few items in place: on nodes that nobody else holds, and on copies of those that are shared.
ghost use Rattle.std.specs.Prelude.{◌≡◌, ◌+◌, ◌-◌, ◌<◌, ◌≤◌, ◌++◌, ◌↔◌, true, IfOk, OnOk, OnErr, insert, length, set, vec_capacity, vec_len};
ghost use Rattle.sum_core.specs.Nodes.{child_value, entries_of, items_in, items_of};
ghost use Rattle.sum_tree.specs.inside.InPlace.{CanRefill, IfNoRoom, IsNode, IsRefilled, IsRefilledAlone, placing, refilled};
ghost use Rattle.sum_tree.specs.inside.Nodes.{AreChildren, IsChildAt, IsLawfulNode, IsLawfulTree, items_below};

use crate::find::find_child;
use crate::open::copy_leaf;
use crate::pack::{FEWEST, MOST, make_leaves, sum_children, sum_items};
use crate::trees::Tree;
use cell_units::{NoMemory, Steps};
use std::alloc::Global;
use sum_core::{Child, Entries, Item, Node};

/// A range of a list's items, by their places.
#[derive(Clone, Copy)]
pub struct Span {
    pub from: usize,
    pub to: usize,
}

/// Why items were not put in place. The tree is as it was.
#[derive(Clone, Copy)]
pub enum PutError {
    /// Not one leaf holds all items of the span, or it would be too full or too empty. What was to be put stays as it
    /// was.
    NoRoom,
    /// Out of memory.
    NoMemory,
}

impl From<NoMemory> for PutError {
    ghost use Rattle.std.specs.Prelude.{◌≡◌};
    ghost use Rattle.sum_tree.specs.declared.in_place.PutError.TheVariants as errors;

    ghost from_gives = { λ _ e. e ≡ errors.NoMemory };

    fn from(_error: NoMemory) -> PutError {
        PutError::NoMemory
    }
}

/// Puts `items` in the place of those in the span, which one leaf has to hold. With them it may not be less than half
/// full, where it is no root. Where it would be too full and its parent has room for one child more, two leaves take
/// its place.
///
/// `NoRoom` where no one leaf holds the span, or that leaf would be too full or too empty. Then and at `NoMemory` the
/// tree stays as it was.
pub fn put_in_tree<T: Item>(
    alloc: Global,
    tree: &mut Tree<T>,
    span: Span,
    items: &mut Vec<T>,
    steps: &mut Steps,
) -> Result<(), PutError>
    // The span lies in the tree, and the items may take its place.
    requires tree { IsLawfulTree T.Item T.Sum.Summary tree.old }
    requires can { CanRefill T.Item T.Sum.Summary (items_of tree.old.node) span items.old.items }

    // The tree with the items, or as it was.
    ensures tree { IsLawfulTree T.Item T.Sum.Summary tree.new }
    ensures put { let held = items_of tree.old.node in
        IsRefilledAlone held span items.old items.new (items_of tree.new.node) result }

    // One node a level is opened at most, and two leaves are made. Where there is no room, none is made.
    ensures counted { steps.old ≤ steps.new }
    ensures steps { steps.new ≤ steps.old + placing tree.old.height }
    ensures in_vain { IfNoRoom result (steps.new ≤ steps.old + tree.old.height + 1) }
{
    let height = tree.height;
    let least = fewest_in_root(height);
    let summed = put_in_node(alloc, &mut tree.node, height, least, span, items, steps)?;
    tree.sum = summed.0;
    tree.count = summed.1;
    Ok(())
}

/// The least number of entries in a root of this height.
fn fewest_in_root(height: usize) -> usize
    ensures leaf { height ≡ 0 → result ≡ 0 }
    ensures inner { 0 < height → result ≡ 2 }
{
    if height == 0 { 0 } else { 2 }
}

/// The same below a node that may have `least` entries and no fewer. It gives the sum and the number of the items then.
#[cycle(put)]
fn put_in_node<T: Item>(
    alloc: Global,
    node: &mut Node<T>,
    height: usize,
    least: usize,
    span: Span,
    items: &mut Vec<T>,
    steps: &mut Steps,
) -> Result<(T::Sum, usize), PutError>
    requires node { IsNode T.Item T.Sum.Summary height least (entries_of node.old) }
    requires can { CanRefill T.Item T.Sum.Summary (items_of node.old) span items.old.items }
    ensures node { IsNode T.Item T.Sum.Summary height least (entries_of node.new) }
    ensures put { let held = items_of node.old in
        IsRefilled T.Item T.Sum.Summary held span items.old items.new (items_of node.new) result }
    ensures counted { steps.old ≤ steps.new }
    ensures steps { steps.new ≤ steps.old + placing height }
    ensures in_vain { IfNoRoom result (steps.new ≤ steps.old + height + 1) }
{
    match node.alter(alloc, steps) {
        Ok(entries) => put_in_entries(alloc, entries, height, least, span, items, steps),
        Err(_) => Err(PutError::NoMemory),
    }
}

/// The same in the entries of a node, which it lends.
#[cycle(put)]
fn put_in_entries<T: Item>(
    alloc: Global,
    entries: &mut Entries<T>,
    height: usize,
    least: usize,
    span: Span,
    items: &mut Vec<T>,
    steps: &mut Steps,
) -> Result<(T::Sum, usize), PutError>
    requires node { IsNode T.Item T.Sum.Summary height least entries.old }
    requires can { CanRefill T.Item T.Sum.Summary (items_in entries.old) span items.old.items }
    ensures node { IsNode T.Item T.Sum.Summary height least entries.new }
    ensures put { let held = items_in entries.old in
        IsRefilled T.Item T.Sum.Summary held span items.old items.new (items_in entries.new) result }
    ensures counted { steps.old ≤ steps.new }
    ensures steps { steps.new + 1 ≤ steps.old + placing height }
    ensures in_vain { IfNoRoom result (steps.new ≤ steps.old + height) }
{
    match entries {
        Entries::Leaf(leaf) => put_in_leaf(leaf, least, span, items),
        Entries::Inner(children) => put_in_children(alloc, children, height, span, items, steps),
    }
}

/// The same below children. It gives the sum and the number of the items then.
#[cycle(put)]
fn put_in_children<T: Item>(
    alloc: Global,
    children: &mut Vec<Child<T>>,
    height: usize,
    span: Span,
    items: &mut Vec<T>,
    steps: &mut Steps,
) -> Result<(T::Sum, usize), PutError>
    // The children of an inner node, with the span below them.
    requires is_inner { 1 ≤ height }
    requires some { 1 ≤ length children.old.items }
    requires room { length children.old.items ≤ 12 }
    requires children { AreChildren T.Item T.Sum.Summary (height - 1) children.old.items }
    requires can { CanRefill T.Item T.Sum.Summary (items_below children.old.items) span items.old.items }

    // The children of such a node, as many or more, with the items put below them.
    ensures more { length children.old.items ≤ length children.new.items }
    ensures room { length children.new.items ≤ 12 }
    ensures children { AreChildren T.Item T.Sum.Summary (height - 1) children.new.items }
    ensures put { let held = items_below children.old.items in
        let after = items_below children.new.items in
        IsRefilled T.Item T.Sum.Summary held span items.old items.new after result }

    // The node of these children was opened before.
    ensures counted { steps.old ≤ steps.new }
    ensures steps { steps.new + 1 ≤ steps.old + placing height }
    ensures in_vain { IfNoRoom result (steps.new ≤ steps.old + height) }
{
    put_below(alloc, children, height - 1, span, items, steps)?;
    Ok(sum_children(children, height - 1))
}

/// The same without the sum: in the child that the span's end lies in or at the end of. Two leaves take the place of
/// one that would be too full.
#[cycle(put)]
fn put_below<T: Item>(
    alloc: Global,
    children: &mut Vec<Child<T>>,
    below: usize,
    span: Span,
    items: &mut Vec<T>,
    steps: &mut Steps,
) -> Result<(), PutError>
    // The children of an inner node, with the span below them.
    requires some { 1 ≤ length children.old.items }
    requires room { length children.old.items ≤ 12 }
    requires children { AreChildren T.Item T.Sum.Summary below children.old.items }
    requires can { CanRefill T.Item T.Sum.Summary (items_below children.old.items) span items.old.items }

    // The children of such a node, as many or more, with the items put below them.
    ensures more { length children.old.items ≤ length children.new.items }
    ensures room { length children.new.items ≤ 12 }
    ensures children { AreChildren T.Item T.Sum.Summary below children.new.items }
    ensures put { let held = items_below children.old.items in
        let after = items_below children.new.items in
        IsRefilledAlone held span items.old items.new after result }

    // The node of these children was opened before.
    ensures counted { steps.old ≤ steps.new }
    ensures steps { steps.new ≤ steps.old + placing below }
    ensures in_vain { IfNoRoom result (steps.new ≤ steps.old + below + 1) }
{
    let found = find_child(children, below, span.to);
    if span.from < found.1 {
        return Err(PutError::NoRoom);
    }
    let within = Span {
        from: span.from - found.1,
        to: span.to - found.1,
    };
    let child = &children[found.0];
    if below == 0 && children.len() < MOST && takes_two(child, within, items.len()) {
        let (left, right) = refill_in_two(alloc, &child.node, within, items, steps)?;
        replace_by_two(children, found.0, left, right)?;
        Ok(())
    } else {
        put_in_child(alloc, &mut children[found.0], below, within, items, steps)
    }
}

/// Whether a leaf with `count` items in the place of those in the span is too full for one and not for two.
fn takes_two<T: Item>(leaf: &Child<T>, span: Span, count: usize) -> bool
    requires leaf { IsChildAt T.Item T.Sum.Summary 0 leaf.now }
    requires order { span.from ≤ span.to }
    requires within { span.to ≤ length (items_of leaf.now.node) }
    ensures { let all = length (items_of leaf.now.node) - (span.to - span.from) + count in
        (result ≡ true) ↔ ((12 < all) × (all ≤ 24)) }
{
    let kept = leaf.count - (span.to - span.from);
    count <= 2 * MOST && MOST < kept + count && kept + count <= 2 * MOST
}

/// Two leaves with the items of one, where `items` replace those in the span.
fn refill_in_two<T: Item>(
    alloc: Global,
    leaf: &Node<T>,
    span: Span,
    items: &mut Vec<T>,
    steps: &mut Steps,
) -> Result<(Child<T>, Child<T>), NoMemory>
    // A leaf that may have the items, and enough of them for two that are no roots.
    requires leaf { IsLawfulNode T.Item T.Sum.Summary 0 leaf.now }
    requires can { CanRefill T.Item T.Sum.Summary (items_of leaf.now) span items.old.items }
    requires enough { 12 ≤ length (refilled (items_of leaf.now) span items.old.items) }
    requires room { length (refilled (items_of leaf.now) span items.old.items) ≤ 24 }

    // Leaves that need no root, of all items in their order.
    ensures left { IfOk result (λ two. IsChildAt T.Item T.Sum.Summary 0 two.0) }
    ensures right { IfOk result (λ two. IsChildAt T.Item T.Sum.Summary 0 two.1) }
    ensures items { IfOk result (λ two.
        items_in (child_value two.0).2 ++ items_in (child_value two.1).2 ≡
        refilled (items_of leaf.now) span items.old.items) }

    // The leaf is opened, and two are made.
    ensures counted { steps.old ≤ steps.new }
    ensures steps { steps.new ≤ steps.old + 3 }
{
    let mut held = copy_leaf(alloc, leaf, steps)?;
    write_over(&mut held, span, items)?;
    make_leaves(alloc, held, steps)
}

/// Two children in the place of the one at the index.
fn replace_by_two<T: Item>(
    children: &mut Vec<Child<T>>,
    index: usize,
    left: Child<T>,
    right: Child<T>,
) -> Result<(), NoMemory>
    requires { index < length children.old.items }
    ensures ok { OnOk result
        (children.new.items ≡ set (insert children.old.items (index + 1) right) index left) }
    ensures unchanged { OnErr result (children.new.items ≡ children.old.items) }
{
    children.insert(index + 1, right)?;
    children[index] = left;
    Ok(())
}

/// The same below one child, whose sum and number are written too.
#[cycle(put)]
fn put_in_child<T: Item>(
    alloc: Global,
    child: &mut Child<T>,
    below: usize,
    span: Span,
    items: &mut Vec<T>,
    steps: &mut Steps,
) -> Result<(), PutError>
    requires child { IsChildAt T.Item T.Sum.Summary below child.old }
    requires can { CanRefill T.Item T.Sum.Summary (items_of child.old.node) span items.old.items }
    ensures child { IsChildAt T.Item T.Sum.Summary below child.new }
    ensures put { let held = items_of child.old.node in
        IsRefilledAlone held span items.old items.new (items_of child.new.node) result }
    ensures counted { steps.old ≤ steps.new }
    ensures steps { steps.new ≤ steps.old + placing below }
    ensures in_vain { IfNoRoom result (steps.new ≤ steps.old + below + 1) }
{
    let summed = put_in_node(alloc, &mut child.node, below, FEWEST, span, items, steps)?;
    child.sum = summed.0;
    child.count = summed.1;
    Ok(())
}

/// The same among the items of a leaf, with their sum and number.
fn put_in_leaf<T: Item>(
    leaf: &mut Vec<T>,
    least: usize,
    span: Span,
    items: &mut Vec<T>,
) -> Result<(T::Sum, usize), PutError>
    requires room { length leaf.old.items ≤ 12 }
    requires wide { least ≤ length leaf.old.items }
    requires can { CanRefill T.Item T.Sum.Summary leaf.old.items span items.old.items }
    ensures room { length leaf.new.items ≤ 12 }
    ensures wide { least ≤ length leaf.new.items }
    ensures put { let held = leaf.old.items in
        IsRefilled T.Item T.Sum.Summary held span items.old items.new leaf.new.items result }
{
    let count = leaf.len() - (span.to - span.from) + items.len();
    if count < least || MOST < count {
        return Err(PutError::NoRoom);
    }
    write_over(leaf, span, items)?;
    Ok((sum_items(leaf), count))
}

/// The same without the sum and the number, in a leaf that has room for the items.
fn write_over<T: Item>(leaf: &mut Vec<T>, span: Span, items: &mut Vec<T>) -> Result<(), NoMemory>
    requires order { span.from ≤ span.to }
    requires within { span.to ≤ length leaf.old.items }
    ensures ok { OnOk result (leaf.new.items ≡ refilled leaf.old.items span items.old.items) }
    ensures unchanged { OnErr result (leaf.new.items ≡ leaf.old.items) }
{
    leaf.reserve(items.len().saturating_sub(span.to - span.from))?;
    write_reserved(leaf, span, items);
    Ok(())
}

/// The same where the room is reserved. A span that has more than the items loses its last ones first. Then, from the
/// last item on, those beyond the span are inserted after it, and the others are written over it.
fn write_reserved<T: Item>(leaf: &mut Vec<T>, span: Span, items: &mut Vec<T>)
    requires order { span.from ≤ span.to }
    requires within { span.to ≤ length leaf.old.items }
    requires room { length leaf.old.items + length items.old.items ≤
        vec_capacity leaf.old + (span.to - span.from) }
    ensures { leaf.new.items ≡ refilled leaf.old.items span items.old.items }
{
    let mut end = span.to;
    while items.len() < end - span.from {
        end -= 1;
        leaf.remove(end);
    }
    while let Some(item) = items.pop() {
        if items.len() < end - span.from {
            end -= 1;
            leaf[end] = item;
        } else {
            insert_reserved(leaf, end, item);
        }
    }
}

/// Inserts an item where there is room.
fn insert_reserved<T: Item>(leaf: &mut Vec<T>, at: usize, item: T)
    requires within { at ≤ length leaf.old.items }
    requires room { vec_len leaf.old < vec_capacity leaf.old }
    ensures items { leaf.new.items ≡ insert leaf.old.items at item }
    ensures capacity { vec_capacity leaf.old ≤ vec_capacity leaf.new }
{
    match leaf.insert(at, item) {
        Ok(()) => (),
        Err(_) => unreachable!(),
    }
}
