//! A node that several trees may hold, and that no holder changes for another.
ghost use Rattle.std.specs.Prelude.{◌≡◌, ◌≤◌, IfOk, IfErr, map};
ghost use Rattle.std.specs.Borrow.{sem};
ghost use Rattle.sum_core.specs.Lending.{LendsEntries};
ghost use Rattle.sum_core.specs.Nodes.{entries_of, contents, child_value};
ghost use Rattle.cell_units.specs.Steps.{ticked};

use crate::summary::Item;
use cell_units::{NoMemory, Steps};
use std::alloc::Global;
use std::sync::Arc;

/// A node of a tree, which is shared by all who hold it.
#[cycle(node)]
#[derive(Drop)]
pub struct Node<T: Item> {
    inner: Arc<Entries<T>, Global>,
}

/// What a node holds: items at the bottom of the tree, and children above.
#[cycle(node)]
#[derive(Drop)]
pub enum Entries<T: Item> {
    Leaf(Vec<T>),
    Inner(Vec<Child<T>>),
}

/// A node with the sum and the number of the items below it.
#[cycle(node)]
#[derive(Drop)]
pub struct Child<T: Item> {
    pub sum: T::Sum,
    pub count: usize,
    pub node: Node<T>,
}

impl<T: Item> Node<T> {
    /// A new node with these entries, in one step. `Err` means out of memory, and hands the entries back.
    pub fn make(
        alloc: Global,
        entries: Entries<T>,
        steps: &mut Steps,
    ) -> Result<Node<T>, Entries<T>>
        ensures ok { IfOk result (λ n. entries_of n ≡ entries) }
        ensures err { IfErr result (λ e. e ≡ entries) }
        ensures ticks { steps.new ≡ ticked steps.old }
        ensures counted { steps.old ≤ steps.new }
    {
        steps.tick();
        match Arc::new(alloc, entries) {
            Ok(inner) => Ok(Node { inner }),
            Err(refused) => Err(refused.value),
        }
    }

    /// The entries, for reading, in one step.
    pub fn entries(&self, steps: &mut Steps) -> &Entries<T>
        ensures value { result.now ≡ entries_of self.now }
        ensures ticks { steps.new ≡ ticked steps.old }
        ensures counted { steps.old ≤ steps.new }
    {
        steps.tick();
        &self.inner
    }

    /// One more holder of the same entries. No later change by the one is seen by the other.
    pub fn share(&self) -> Result<Node<T>, NoMemory>
        ensures { IfOk result (λ n. entries_of n ≡ entries_of self.now) }
    {
        Ok(Node {
            inner: Arc::try_clone(&self.inner)?,
        })
    }

    /// Lends the entries for writing, in one step. They are those of this node itself where nobody else holds it, and
    /// else of a copy that takes its place. Every other holder keeps what it had. `Err` means that there is no memory
    /// for the copy.
    pub fn alter(&mut self, alloc: Global, steps: &mut Steps) -> Result<&mut Entries<T>, NoMemory>
        ensures* writes_back { sem 𝓛 (LendsEntries T.row T.Sum.row self.entry result) }
        ensures value { IfOk result (λ e. contents e.now ≡ contents (entries_of self.old)) }
        ensures ticks { steps.new ≡ ticked steps.old }
        ensures counted { steps.old ≤ steps.new }
    {
        steps.tick();
        self.unshare(alloc)?;
        match Arc::get_mut(&mut self.inner) {
            Some(entries) => Ok(entries),
            // Not reached, since `unshare` left no other holder; the contracts of `Arc` don't count holders.
            None => Err(NoMemory),
        }
    }

    /// Puts a copy in the place of entries that others hold too.
    fn unshare(&mut self, alloc: Global) -> Result<(), NoMemory>
        ensures { contents (entries_of self.new) ≡ contents (entries_of self.old) }
    {
        if Arc::strong_count(&self.inner) != 1 {
            let copy = self.inner.copy(alloc)?;
            self.inner = Arc::new(alloc, copy)?;
        }
        Ok(())
    }
}

impl<T: Item> Entries<T> {
    /// A copy of this one node's entries, which shares the nodes below.
    pub fn copy(&self, alloc: Global) -> Result<Entries<T>, NoMemory>
        ensures { IfOk result (λ e. contents e ≡ contents self.now) }
    {
        match self {
            Entries::Leaf(items) => Ok(Entries::Leaf(copy_items(alloc, items)?)),
            Entries::Inner(children) => Ok(Entries::Inner(copy_children(alloc, children)?)),
        }
    }
}

/// Copies of the items, in their order.
pub fn copy_items<T: Item>(alloc: Global, items: &[T]) -> Result<Vec<T>, NoMemory>
    ensures { IfOk result (λ v. v.items ≡ items.now) }
{
    let mut copies = Vec::with_capacity(alloc, items.len())?;
    for item in items {
        copies.push(item.copy(alloc)?)?;
    }
    Ok(copies)
}

/// The same children, in their order, with their nodes shared.
pub fn copy_children<T: Item>(
    alloc: Global,
    children: &[Child<T>],
) -> Result<Vec<Child<T>>, NoMemory>
    ensures { IfOk result (λ v. map child_value v.items ≡ map child_value children.now) }
{
    let mut copies = Vec::with_capacity(alloc, children.len())?;
    for child in children {
        copies.push(Child {
            sum: child.sum,
            count: child.count,
            node: child.node.share()?,
        })?;
    }
    Ok(copies)
}

/// Nodes may be dropped, moved to other threads and shared by them.
fn may_be_shared<T: Item + Send + Sync>(node: &Node<T>)
where
    T::Sum: Send + Sync,
{
    serves_threads(node);
}

fn serves_threads<N: Drop + Send + Sync>(_node: &N) {}
