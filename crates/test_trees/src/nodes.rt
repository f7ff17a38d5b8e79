//! Nodes of weights.
use crate::weights::Weight;
use cell_units::{NoMemory, Steps};
use std::alloc::Global;
use std::test::Fail;
use sum_core::{Entries, Node};

/// The weights of a leaf.
pub(crate) fn weights(
    node: &Node<Weight>,
    alloc: Global,
    steps: &mut Steps,
) -> Result<Vec<u32>, Fail> {
    let mut weights = Vec::new(alloc);
    match node.entries(steps) {
        Entries::Leaf(items) => {
            for item in items {
                weights.push(item.0)?;
            }
        }
        Entries::Inner(_) => {}
    }
    Ok(weights)
}

/// A leaf of two weights.
pub(crate) fn leaf(
    alloc: Global,
    first: u32,
    second: u32,
    steps: &mut Steps,
) -> Result<Node<Weight>, Fail> {
    let items = Vec::from_array(alloc, [Weight(first), Weight(second)])?;
    match Node::make(alloc, Entries::Leaf(items), steps) {
        Ok(node) => Ok(node),
        Err(_) => Err(NoMemory.into()),
    }
}
