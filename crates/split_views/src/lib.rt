//! Split views: several displays of one text, each with its own history. An edit of one goes to all of them, or to none.
//!
//! A split is seen as the list of its views' histories. They have one opening text, and their present texts are equal.
#![tactic(auto)]

mod each;
mod laws;
mod split;
mod whole;
mod wrapping;

pub use laws::{idle_laws, view_laws};
pub use split::{Split, SplitOn, VIEW_LIMIT};
