//! A text with its inlays and folds: one layer, which changes as a whole.
//!
//! A [`LayeredText`] keeps a rope, the map of the inlays over it and the map of the folds over those. It is seen as the
//! text, inlays and folds that it has, and shows all of them. A change is made on shares of its maps. It returns a new
//! layered text, with the one replacement of what is shown that leads to it. The old one stays as it is. That
//! replacement meets exactly the lines that the change touches, and every other line has pieces of the same texts.
#![tactic(auto)]

mod changes;
mod text;

pub use text::{LayeredText, Refolded};
