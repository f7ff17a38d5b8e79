//! The display for C: a static library of calls on handles, for a host that isn't written in Rattle.
//!
//! `embed/displaymap.h` of the repository says to C what these calls are. A handle is two words that the host keeps. It is
//! closed, or it holds a session on the heap. Each call takes the session out, and puts it back. The crate promises that a
//! call does to the session what its status says, and that a handle is open exactly where it holds a session.
#![tactic(auto)]

pub mod changing;
pub mod handle;
pub mod kept;
pub mod marking;
pub mod pieces;
pub mod reading;
pub mod status;
#[cfg(test)]
mod tests;
pub mod watching;
