//! The lines of a layer at a tab size, as they are wrapped, and their rows.
//!
//! A `WrappedLines` has the lines of a layer from the tab map, and the wrap map over them with its rows. It is seen as
//! what the layer shows, the tab size and the width in cells at which lines are to be wrapped. It has the mark of each
//! line. Each change is made on shares and gives a new value, so an error leaves nothing to undo.
//!
//! The crate promises the exact value after each change, which lines and rows it replaced, and when a number is
//! refused. Lines that were wrapped elsewhere land by the places where they are now.
#![tactic(auto)]

mod changing;
mod landing;
pub mod laws;
mod lines;
mod since;

pub use changing::Rewrapped;
pub use landing::Landed;
pub use lines::{OPENING_TAB, OPENING_WIDTH, WrappedLines};
