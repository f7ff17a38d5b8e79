//! The laws of shown offsets: that they are in order, and that each spot leads back to one.
#![tactic(auto)]

pub mod laws;
