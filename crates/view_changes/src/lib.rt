//! Which rows of a view a change or a landing replaced, read off the maps.
//!
//! A host that draws rows keeps those before the replaced ones and those after them. Of a block that is added or removed
//! the replaced rows are its own; of any other operation they are all rows of the lines that it touches, with those of
//! the blocks at them.
#![tactic(auto)]

mod changes;
mod finding;
mod in_turn;
mod landing;
pub mod laws;
mod lines;
mod operations;
mod own_rows;
mod reach;

pub use changes::{changed_rows, changed_since, landed_rows, landed_since};
pub use in_turn::covering;
pub use row_pieces::RowChange;
