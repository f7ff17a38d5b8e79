//! Scripts for several views of one text: what each line is.
#![tactic(auto)]

pub mod laws;
mod line;

pub use line::{SplitLine, split_line};
