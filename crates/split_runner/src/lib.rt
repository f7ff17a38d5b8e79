//! A script for several views of one text is run line by line, and its answers are written.
//!
//! The crate promises that each view answers what it would answer alone, given its own lines and the edits of the others,
//! and that undo and redo lead along the line of texts.
#![tactic(auto)]

mod changing;
mod playing;
mod runner;
mod undoing;

pub use playing::{Played, play};
