//! Runs of the program on texts and scripts that are given, for tests. Its own tests have runs beside workers and
//! watchers.
#![tactic(auto)]

mod runs;
#[cfg(test)]
mod schedules;
#[cfg(test)]
mod source;
#[cfg(test)]
mod threads;

pub use runs::{
    Outcome, Session, file, inputs_of, run_failing, run_of, run_on, run_words, strings,
};
