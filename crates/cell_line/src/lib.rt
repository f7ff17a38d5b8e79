//! The elements of one display line, and where the line is cut so that its rows fit a width.
//!
//! An element is an extended grapheme cluster with the cells that it takes on its line. The crate promises that
//! `elements`, `indent` and `cuts` are exactly the plain definitions of `specs/`, for every line and width. `line_laws`
//! has what those definitions mean in other words, and bounds on what they give. `Lines` is what the crates above ask
//! of a list of such lines.
#![tactic(auto)]

mod characters;
mod cutting;
mod element;
mod filling;
pub mod laws;
mod lines;
mod mark;
mod texts;
mod walk;
mod wrapping;

pub use element::{Element, elements};
pub use laws::line_laws;
pub use lines::{Lines, MarkRun, Run};
pub use texts::row_texts_of_pieces;
pub use wrapping::{Cuts, cuts, cuts_of_pieces, indent};
