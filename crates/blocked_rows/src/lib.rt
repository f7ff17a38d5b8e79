//! Blocks between the rows of lines, all of them shown: a block map with what it shows. A change gives new ones, and
//! those that it was made of stay.
#![tactic(auto)]

mod blocked_rows;
mod laws;

pub use blocked_rows::BlockedRows;
pub use laws::{blocked_laws, followed_laws, wrapped_laws};
