//! Where a caret goes, and what a selection covers.
//!
//! `specs/` has the definitions, over the list of valid spots. `laws` has what holds of every record, and `worked` has
//! carets and selections that are known, as theorems.
#![tactic(auto)]

mod caret;
pub mod laws;
mod selecting;
mod steps;
pub mod worked;

pub use caret::{Caret, RowSpan, Selection};
pub use selecting::select;
pub use steps::step;
