//! A sum tree: a persistent list that knows the sum of its items, and finds places in it by their sums.
//!
//! A [`SumTree`] is a B+ tree of the nodes of `sum_core`, and is seen as the list of its items. Copies share their
//! nodes. A call that is out of memory leaves the tree as it was. A few items are written in place of others, or of
//! none, where one leaf holds those and has room. Or two leaves may take its place. All else of adding, joining and
//! cutting depends on two things: joining two trees, and cutting a tree in two. A [`Cursor`] is seen as the list and a
//! place in it. Each call says how many nodes it opens or makes at most, on the given counter.
#![tactic(auto)]

mod cursor;
mod find;
mod in_place;
mod joins;
mod measured;
mod open;
mod pack;
mod path;
mod search;
mod splits;
mod sum_tree;
mod trees;

pub use cursor::Cursor;
pub use measured::Found;
pub use search::Probe;
pub use sum_tree::SumTree;
