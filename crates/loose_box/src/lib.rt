//! A box as its pointer, for an owner that keeps a pointer alone.
//!
//! The crate promises that the box that is made again has the value of the box that was taken apart.
#![tactic(auto)]

pub mod loose;
