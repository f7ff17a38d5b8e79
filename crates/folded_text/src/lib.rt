//! A text under the maps of its inlays and its folds, which change together. The tests of the fold map use it, and it
//! shows how those maps are joined.
#![tactic(auto)]

mod callers;
mod laws;
mod text;

pub use callers::show;
pub use laws::answer_laws;
pub use text::{FoldedText, Shown};
