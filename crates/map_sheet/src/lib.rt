//! The record of a display over the five maps.
//!
//! A [`MapSheet`] has a text with its inlays and folds, the lines of that as they are wrapped, and the blocks between their
//! rows. It is seen as the record that these are of, in which the stamps count the lines. Each part is shared: a copy takes
//! three counts and no memory. A change makes anew only the parts that it touches, and gives a new sheet, so an error leaves
//! nothing to undo. What reads more of a record than a `Sheet` gives is lent the parts.
//!
//! The crate promises all that the traits `Sheet` and `JobSheet` ask, with the bounds on the steps of changes and
//! landings, and of no call how long it takes.
#![tactic(auto)]

mod changes;
mod kept;
mod landing;
mod listed;
mod opening;
mod sheet;
mod spots;

pub use sheet::{Blocked, Held, Layered, MapSheet};
