//! Joined folds: the folds of a text that overlap in a chain, as one list of ranges in order.
//!
//! A change of folds leaves the joined folds outside of a window as they are. Within it they are made anew from the
//! folds that meet it alone, however many a joined fold has that reaches over its ends.
#![tactic(auto)]

mod joined_fold;
mod laws;
mod sweep;
#[cfg(test)]
mod tests;
mod window;

pub use joined_fold::JoinedFold;
pub use laws::{joined_laws, sweep_laws, window_laws};
pub use sweep::joined_within;
pub use window::Window;
