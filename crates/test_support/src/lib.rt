//! What crates of tests have in common: edits of plain lists, the texts that random changes put in, and a text with
//! inlays written out. Also what is asked of a layer and compared with that, and answers in words.
#![tactic(auto)]

pub mod checks;
pub mod inlaid;
pub mod lists;
pub mod looks;
pub mod steps;
pub mod told;
pub mod words;
