//! The nodes of a sum tree: a persistent B+ tree whose inner nodes store the sum and the number of the items below.
//!
//! Several trees may share a node. [`Node::alter`] changes it for one holder alone, and every other holder keeps the
//! entries that it had. A node is made by [`Node::make`], read by [`Node::entries`] and changed by [`Node::alter`], and
//! in no other way. Each of these counts one step on the given counter. So a bound on the counter is a bound on the
//! nodes that were made or opened. `IsLawful` and `IsRoot` of `specs/Nodes.antt` say when a node is well formed.
#![tactic(auto)]

mod laws;
mod load;
mod measure;
mod node;
mod summary;

pub use laws::root_holds_many;
pub use load::{Load, NoLoad};
pub use measure::{By, Count, Measure};
pub use node::{Child, Entries, Node, copy_children, copy_items};
pub use summary::{Dimension, Item, Summary};
