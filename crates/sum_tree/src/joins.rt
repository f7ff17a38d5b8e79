//! Two trees of any heights as one node or two.
ghost use Rattle.std.specs.Prelude.{◌≡◌, ◌+◌, ◌*◌, ◌-◌, ◌^◌, ◌<◌, ◌≤◌, ◌++◌, IfOk, map, length, min, max};
ghost use Rattle.sum_core.specs.Nodes.{items_of};
ghost use Rattle.sum_tree.specs.inside.Nodes.{AreMelded, ArePacked, IsLawfulNode, IsLawfulRoot, SumFits, entry_count};

use crate::open::{Parted, copy_inner, copy_leaf, take_first, take_last};
use crate::pack::{pack_items, pack_joined};
use cell_units::{NoMemory, Steps};
use std::alloc::Global;
use sum_core::{Child, Item, Node};

/// Two roots of one height as one node or two of that height.
pub fn meld_level<T: Item>(
    alloc: Global,
    left: &Node<T>,
    right: &Node<T>,
    height: usize,
    steps: &mut Steps,
) -> Result<Vec<Child<T>>, NoMemory>
    // Two roots, of which the items together may be in one tree.
    requires left { IsLawfulNode T.Item T.Sum.Summary height left.now }
    requires right { IsLawfulNode T.Item T.Sum.Summary height right.now }
    requires fits { SumFits T.Item T.Sum.Summary (items_of left.now ++ items_of right.now) }
    requires small { length (items_of left.now ++ items_of right.now) < 2 ^ 32 }

    // The items of the one and then of the other.
    ensures packed { IfOk result
        (λ v. ArePacked T.Item T.Sum.Summary height (entry_count left.now + entry_count right.now)
        (items_of left.now ++ items_of right.now) v.items) }

    // Both are opened, and two are made at most.
    ensures counted { steps.old ≤ steps.new }
    ensures steps { steps.new ≤ steps.old + 4 }
{
    if height == 0 {
        let mut items = copy_leaf(alloc, left, steps)?;
        let mut more = copy_leaf(alloc, right, steps)?;
        items.append(&mut more)?;
        pack_items(alloc, items, steps)
    } else {
        let front = copy_inner(alloc, left, height, steps)?;
        let back = copy_inner(alloc, right, height, steps)?;
        pack_joined(alloc, front, back, height, steps)
    }
}

/// Two roots as one node or two of the larger height: the lower tree takes part at one end of the higher one.
pub fn meld<T: Item>(
    alloc: Global,
    left: &Node<T>,
    left_height: usize,
    right: &Node<T>,
    right_height: usize,
    steps: &mut Steps,
) -> Result<Vec<Child<T>>, NoMemory>
    // Two roots, of which the items together may be in one tree.
    requires left { IsLawfulRoot T.Item T.Sum.Summary left_height left.now }
    requires right { IsLawfulRoot T.Item T.Sum.Summary right_height right.now }
    requires fits { SumFits T.Item T.Sum.Summary (items_of left.now ++ items_of right.now) }
    requires small { length (items_of left.now ++ items_of right.now) < 2 ^ 32 }

    // The items of the one and then of the other.
    ensures melded { IfOk result
        (λ v. AreMelded T.Item T.Sum.Summary left_height left.now right_height right.now v.items) }

    // Three nodes for each level that the one is higher, and four.
    ensures counted { steps.old ≤ steps.new }
    ensures steps { steps.new + 3 * min left_height right_height ≤ steps.old +
        3 * max left_height right_height + 4 }
{
    if left_height == right_height {
        meld_level(alloc, left, right, left_height, steps)
    } else if right_height < left_height {
        let Parted { rest, node } = take_last(alloc, left, left_height, steps)?;
        let pieces = meld(alloc, &node, left_height - 1, right, right_height, steps)?;
        pack_joined(alloc, rest, pieces, left_height, steps)
    } else {
        let Parted { rest, node } = take_first(alloc, right, right_height, steps)?;
        let pieces = meld(alloc, left, left_height, &node, right_height - 1, steps)?;
        pack_joined(alloc, pieces, rest, right_height, steps)
    }
}
