//! A list of splices over a lower sequence: what is kept, and what replaces what is taken out.
//!
//! A splice is a gap of the lower sequence that is kept as it is, and then a stretch of it that another replaces. The
//! stretch may be empty. What lies after the last splice is kept. A [`SpliceTree`] is seen as the list of its splices.
//! It carries places between the lower sequence and the upper one, by any measure of which a whole has as much as its
//! parts.
#![tactic(auto)]

mod bytes;
mod carry;
mod laws;
mod sides;
mod splice;
mod splice_tree;

pub use bytes::{ByBytes, Bytes};
pub use laws::splice_laws;
pub use sides::{Lower, Sides, Upper};
pub use splice::Splice;
pub use splice_tree::{Place, SpliceTree};
pub use sum_core::{Load, NoLoad};
