//! A script is run on an open display, line by line, and its answers are written.
//!
//! The definitions say which histories are legal, what each line is answered with, and what a run is where it finishes or
//! stops. `Runner::play` keeps them: where it comes to its end the history is legal and all answers were written, and where
//! it stops the history is legal so far and a prefix was written.
//!
//! The outside comes as the traits `Inputs` and `Sink`, of which contracts see bytes, reads and faults.
#![tactic(auto)]

mod carets;
mod outside;
mod runner;
mod script;
mod settling;
mod stop;
mod summary;
mod tally;
mod write;

pub use carets::{CaretAnswer, answer_caret, write_caret_answer};
pub use outside::{Failed, Inputs, Part, Sink};
pub use runner::Runner;
pub use script::split_line;
pub use stop::Stop;
pub use summary::write_summary;
pub use tally::Tally;
pub use write::{write_answer, write_line, write_piece, write_prefixed, write_refusal};
