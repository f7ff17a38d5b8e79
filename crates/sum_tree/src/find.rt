//! Finding an item by its place in the list.
ghost use Rattle.std.specs.Prelude.{◌≡◌, ◌+◌, ◌^◌, ◌<◌, ◌≤◌, Some, map, length, take, slice_get};
ghost use Rattle.sum_tree.specs.Bounds.{OpensAtLeast};
ghost use Rattle.sum_core.specs.Nodes.{child_value, items_of, items_under};
ghost use Rattle.sum_tree.specs.inside.Nodes.{AreChildren, IsLawfulNode, items_below};

use cell_units::Steps;
use sum_core::{Child, Entries, Item, Node};

/// The child that the place `at` lies in or at the end of, as its index and the number of items before it.
pub fn find_child<T: Item>(children: &[Child<T>], below: usize, at: usize) -> (usize, usize)
    // The place is one of the items below the children, or their end.
    requires some { 1 ≤ length children.now }
    requires children { AreChildren T.Item T.Sum.Summary below children.now }
    requires within { at ≤ length (items_below children.now) }
    requires small { length (items_below children.now) < 2 ^ 32 }

    // The child, and how many items are before it.
    ensures index { result.0 < length children.now }
    ensures offset { result.1 ≡
        length (items_under (take result.0 (map child_value children.now))) }

    // The place is after the start of the child, or at it where that is 0, and no further than its end.
    ensures low { result.1 ≤ at }
    ensures not_at_start { 0 < at → result.1 < at }
    ensures high { at ≤ length (items_under (take (result.0 + 1) (map child_value children.now))) }
{
    let mut offset = 0;
    for (index, child) in children.iter().enumerate() {
        let next = offset + child.count;
        if at <= next {
            return (index, offset);
        }
        offset = next;
    }
    unreachable!()
}

/// The item at place `at`.
pub fn item_at<'a, T: Item>(node: &'a Node<T>, height: usize, at: usize, steps: &mut Steps) -> &'a T
    // There is an item at the place.
    requires lawful { IsLawfulNode T.Item T.Sum.Summary height node.now }
    requires within { at < length (items_of node.now) }
    requires small { length (items_of node.now) < 2 ^ 32 }

    // The item.
    ensures item { slice_get (items_of node.now) at ≡ Some result.now }

    // One node a level is opened.
    ensures counted { steps.old ≤ steps.new }
    ensures steps { steps.new ≤ steps.old + height + 1 }
    ensures opened { OpensAtLeast (height + 1) steps.old steps.new }
{
    match node.entries(steps) {
        Entries::Leaf(items) => &items[at],
        Entries::Inner(children) => {
            let found = find_child(children, height - 1, at + 1);
            item_at(&children[found.0].node, height - 1, at - found.1, steps)
        }
    }
}
