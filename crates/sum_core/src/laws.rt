//! What follows from a node's being lawful.
ghost use Rattle.std.specs.Prelude.{◌≡◌, ◌+◌, ◌*◌, ◌^◌, ◌<◌, ◌≤◌, length, ℕ};
ghost use Rattle.sum_core.specs.Nodes.{IsRoot, entries_of, items_of};

use crate::node::Node;
use crate::summary::Item;

/// A lawful root of a height above 0 has at least twice 6 to the height items below it. So a tree of n items is no
/// higher than the greatest height for which n is enough. And it has at most 12 for each leaf that there can be, so it
/// is no lower than n needs. No call of this function does anything.
pub fn root_holds_many<T: Item>(root: &Node<T>, height: usize)
    requires { IsRoot T.Sum.empty T.Sum.joined T.summary height (entries_of root.now) }
    ensures many { 0 < height → 2 * 6 ^ height ≤ length (items_of root.now) }
    ensures low { (h : ℕ) → length (items_of root.now) < 2 * 6 ^ (h + 1) → height ≤ h }
    ensures at_most { length (items_of root.now) ≤ 12 ^ (height + 1) }
{}
