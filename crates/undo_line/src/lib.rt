//! Undo and redo of edits: what takes a batch of replacements back, and the batches that wait to be taken back or done
//! again.
//!
//! The crate promises that the inverse of a batch gives the text back. It promises that an `UndoLine`, kept beside a
//! line of texts, leads along it in both directions.
#![tactic(auto)]

mod inverting;
mod laws;
mod line;
pub mod worked;

pub use inverting::inverse;
pub use laws::inverse_laws;
pub use line::UndoLine;
