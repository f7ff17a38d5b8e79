//! Displays of known texts, for crates of tests: changes that are done, runs of lines that are sent and landed, and a
//! view after operations. Where the journal has no room a call fails as it does out of memory.
#![tactic(auto)]

mod displays;
mod views;

pub use displays::{apply, land, send};
pub use views::{lines, view_of};
