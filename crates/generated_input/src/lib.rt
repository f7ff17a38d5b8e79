//! The text and the script that the program makes from a number, for trying it without files, and the generator that
//! both are drawn from.
//!
//! The crate promises that they are exactly those of `specs/Made.antt`, that both are ASCII without carriage returns,
//! and that both are within the program's limits.
#![tactic(auto)]

mod files;
mod generator;
mod laws;
mod making;
mod script;
pub mod worked;

pub use files::Made;
pub use generator::Generator;
pub use laws::made_laws;
pub use making::made;
