//! The layer with folds: ranges of the buffer in whose place a placeholder is shown.
//!
//! A [`FoldSnapshot`] is seen as the lower layer's text and inlays with the folds. Folds are in a tree of ranges.
//! Beside it is a list of splices, one for each joined fold. It says how much of the lower layer is shown before it,
//! and how much it hides. So each question is a way or two down a tree and one of the lower layer. A change makes anew
//! just the joined folds that it meets. Its steps grow with the folds that it meets and the height of the tree, beside
//! the search for an id (`specs/Bounds.antt`).
#![tactic(auto)]

mod amount;
mod changed;
mod cut;
mod fold_map;
mod laws;
mod layer;
mod lines;
mod met;
mod moving;
mod pieces;
mod position;
mod snapshot;
mod spliced;
mod spots;
mod turning;

pub use fold_map::FoldMap;
pub use laws::{met_laws, place_laws};
pub use snapshot::FoldSnapshot;
