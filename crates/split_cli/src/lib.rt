//! The program `displaymap` as calls: a script is run on one display of a text, or on several views of it.
//!
//! `top` is what the words ask for: a run, as `run` of `display_cli` makes it, or where they begin with `--views` a session.
//! Its contract has the session theorem, that each view answers what it would answer alone, and the undo theorem. `program`
//! ties the exit status and what is said on standard error to it.
#![tactic(auto)]

mod closed;
mod entry;
mod session;

pub use closed::{Closed, Topped};
pub use entry::{program, top};
