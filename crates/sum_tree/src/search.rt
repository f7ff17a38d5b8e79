//! Finding the first item that passes a test, in at most one look at each.
ghost use Rattle.std.specs.Prelude.{Bool, ◌≡◌, ◌+◌, ◌*◌, ◌^◌, ◌<◌, ◌≤◌, map, length};
ghost use Rattle.std.specs.List.{position_or_len};
ghost use Rattle.sum_tree.specs.Bounds.{Searches};
ghost use Rattle.sum_tree.specs.Probes.{MaySkip};
ghost use Rattle.sum_core.specs.Nodes.{IsChild, IsChildList, IsLawful, entries_of, child_value, contents, items_in, items_of, items_under, width};

use cell_units::Steps;
use sum_core::{Child, Entries, Item, Node};

/// A test of items, which says from the sum of several whether any of them may pass.
pub trait Probe<T: Item> {
    // whether the item passes
    ghost is_passed: { Self → T → Bool };

    // whether one of the items of this sum may pass
    ghost may_pass: { Self → T.Sum → Bool };

    /// Whether the item passes.
    fn passes(&self, item: &T) -> bool
        ensures { result ≡ is_passed self.now item.now };

    /// Whether one of the items of this sum may pass. Where none may, a search skips them.
    fn may_pass_in(&self, sum: T::Sum) -> bool
        ensures { result ≡ may_pass self.now sum };

    // where none may, none does
    ghost may_skip: { MaySkip T.Sum.empty T.Sum.joined T.summary is_passed may_pass };
}

/// The number of items before the first that passes, which is all of them where none does.
fn items_before<T: Item, Q: Probe<T>>(items: &[T], probe: &Q) -> usize
    ensures { result ≡ position_or_len (Q.is_passed probe.now) items.now }
{
    for (index, item) in items.iter().enumerate() {
        if probe.passes(item) {
            return index;
        }
    }
    items.len()
}

/// The same of the items below some children.
#[cycle(search)]
fn before_under<T: Item, Q: Probe<T>>(
    children: &[Child<T>],
    below: usize,
    probe: &Q,
    steps: &mut Steps,
) -> usize
    // Children of the height `below`, and their items can be counted.
    requires children { let lawful = IsLawful T.Sum.empty T.Sum.joined T.summary below in
        let values = map child_value children.now in
        IsChildList T.Sum.empty T.Sum.joined T.summary lawful 6 values }
    requires small { length (items_under (map child_value children.now)) < 2 ^ 32 }

    // The items before the first that passes, or all.
    ensures place { let items = items_under (map child_value children.now) in
        result ≡ position_or_len (Q.is_passed probe.now) items }

    // At most a fifth as many nodes are opened as there are items but for one of each child.
    ensures counted { steps.old ≤ steps.new }
    ensures steps { let n = length (items_under (map child_value children.now)) in
        5 * steps.new + length children.now ≤ 5 * steps.old + n }
{
    let mut before = 0;
    for child in children {
        let within = before_in(child, below, probe, steps);
        if within < child.count {
            return before + within;
        }
        before += child.count;
    }
    before
}

/// The same of the items below a child, which isn't opened where its sum says that none passes.
#[cycle(search)]
fn before_in<T: Item, Q: Probe<T>>(
    child: &Child<T>,
    below: usize,
    probe: &Q,
    steps: &mut Steps,
) -> usize
    // A child of the height `below`, and its items can be counted.
    requires child { let lawful = IsLawful T.Sum.empty T.Sum.joined T.summary below in
        IsChild T.Sum.empty T.Sum.joined T.summary lawful 6 (child_value child.now) }
    requires small { length (items_in (child_value child.now).2) < 2 ^ 32 }

    // The items before the first that passes, or all.
    ensures place { let items = items_in (child_value child.now).2 in
        result ≡ position_or_len (Q.is_passed probe.now) items }

    // Fewer nodes are opened than a fifth of the items.
    ensures counted { steps.old ≤ steps.new }
    ensures steps { let n = length (items_in (child_value child.now).2) in
        5 * steps.new + 1 ≤ 5 * steps.old + n }
{
    if probe.may_pass_in(child.sum) {
        before_below(&child.node, below, probe, steps)
    } else {
        child.count
    }
}

/// The same of the items below a node.
#[cycle(search)]
pub fn before_below<T: Item, Q: Probe<T>>(
    node: &Node<T>,
    height: usize,
    probe: &Q,
    steps: &mut Steps,
) -> usize
    // The node is lawful, and its items can be counted.
    requires lawful { IsLawful T.Sum.empty T.Sum.joined T.summary height (entries_of node.now) }
    requires small { length (items_of node.now) < 2 ^ 32 }

    // The items before the first that passes, or all.
    ensures place { result ≡ position_or_len (Q.is_passed probe.now) (items_of node.now) }

    // Where the node is at least half full, fewer nodes are opened than a fifth of its items.
    ensures counted { steps.old ≤ steps.new }
    ensures steps { Searches (length (items_of node.now)) steps.old steps.new }
    ensures wide { let n = length (items_of node.now) in
        6 ≤ width (contents (entries_of node.now)) → 5 * steps.new + 1 ≤ 5 * steps.old + n }
{
    match node.entries(steps) {
        Entries::Leaf(items) => items_before(items, probe),
        Entries::Inner(children) => before_under(children, height - 1, probe, steps),
    }
}
