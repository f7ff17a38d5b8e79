//! A node's entries, copied out of it.
ghost use Rattle.std.specs.Prelude.{◌≡◌, ◌+◌, ◌-◌, ◌≤◌, ◌++◌, IfOk, map};
ghost use Rattle.sum_core.specs.Nodes.{leaf, contents, width, entries_of, items_of};
ghost use Rattle.sum_tree.specs.inside.Nodes.{AreChildrenOf, IsLawfulNode, IsPartedNode, items_below};

use cell_units::{NoMemory, Steps};
use std::alloc::Global;
use sum_core::{Child, Entries, Item, Node, copy_children, copy_items};

/// The children of a node but for the one at one end, and the node of that one.
#[derive(Drop)]
pub struct Parted<T: Item> {
    pub rest: Vec<Child<T>>,
    pub node: Node<T>,
}

/// A copy of the items of a leaf.
pub fn copy_leaf<T: Item>(
    alloc: Global,
    node: &Node<T>,
    steps: &mut Steps,
) -> Result<Vec<T>, NoMemory>
    requires { IsLawfulNode T.Item T.Sum.Summary 0 node.now }
    ensures opened { IfOk result (λ v. contents (entries_of node.now) ≡ leaf v.items) }
    ensures counted { steps.old ≤ steps.new }
    ensures steps { steps.new ≤ steps.old + 1 }
{
    match node.entries(steps) {
        Entries::Leaf(items) => copy_items(alloc, items),
        Entries::Inner(_) => unreachable!(),
    }
}

/// A copy of the children of an inner node, which shares the nodes below.
pub fn copy_inner<T: Item>(
    alloc: Global,
    node: &Node<T>,
    height: usize,
    steps: &mut Steps,
) -> Result<Vec<Child<T>>, NoMemory>
    // An inner node.
    requires lawful { IsLawfulNode T.Item T.Sum.Summary height node.now }
    requires is_inner { 1 ≤ height }

    // All its children, in their order.
    ensures opened { IfOk result (λ v. AreChildrenOf T.Item T.Sum.Summary height node.now v.items) }

    // The node is opened.
    ensures counted { steps.old ≤ steps.new }
    ensures steps { steps.new ≤ steps.old + 1 }
{
    match node.entries(steps) {
        Entries::Leaf(_) => unreachable!(),
        Entries::Inner(children) => copy_children(alloc, children),
    }
}

/// The children of a node, with the last one apart.
pub fn take_last<T: Item>(
    alloc: Global,
    node: &Node<T>,
    height: usize,
    steps: &mut Steps,
) -> Result<Parted<T>, NoMemory>
    // An inner node with a child.
    requires lawful { IsLawfulNode T.Item T.Sum.Summary height node.now }
    requires is_inner { 1 ≤ height }
    requires some { 1 ≤ width (contents (entries_of node.now)) }

    // The last child, and the others in their order.
    ensures parted { IfOk result
        (λ p. IsPartedNode T.Item T.Sum.Summary height node.now
        (items_below p.rest.items ++ items_of p.node) p) }

    // The node is opened.
    ensures counted { steps.old ≤ steps.new }
    ensures steps { steps.new ≤ steps.old + 1 }
{
    let mut rest = copy_inner(alloc, node, height, steps)?;
    match rest.pop() {
        Some(child) => Ok(Parted {
            rest,
            node: child.node,
        }),
        None => unreachable!(),
    }
}

/// The children of a node, with the first one apart.
pub fn take_first<T: Item>(
    alloc: Global,
    node: &Node<T>,
    height: usize,
    steps: &mut Steps,
) -> Result<Parted<T>, NoMemory>
    // An inner node with a child.
    requires lawful { IsLawfulNode T.Item T.Sum.Summary height node.now }
    requires is_inner { 1 ≤ height }
    requires some { 1 ≤ width (contents (entries_of node.now)) }

    // The first child, and the others in their order.
    ensures parted { IfOk result
        (λ p. IsPartedNode T.Item T.Sum.Summary height node.now
        (items_of p.node ++ items_below p.rest.items) p) }

    // The node is opened.
    ensures counted { steps.old ≤ steps.new }
    ensures steps { steps.new ≤ steps.old + 1 }
{
    let mut rest = copy_inner(alloc, node, height, steps)?;
    if rest.is_empty() {
        unreachable!()
    } else {
        let child = rest.remove(0);
        Ok(Parted {
            rest,
            node: child.node,
        })
    }
}
