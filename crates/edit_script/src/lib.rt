//! The lines of a script: what each asks, and how answers and refusals print.
//!
//! The crate promises that a line is read as the command that it is, or refused where it is none. A line of an answer
//! is the line that the rows of the view's record give, and a refusal prints as its number.
#![tactic(auto)]

mod answer_lines;
mod asked;
mod blank;
mod commands;
mod key;
pub mod laws;
mod query;
mod read;
mod script;
mod values;

pub use answer_lines::Answer;
pub use asked::{Asked, CaretQuery, Form, Query};
pub use blank::skipped;
pub use query::{answer, query_refusal, refusal_line};
pub use read::read_line;
pub use script::header;
