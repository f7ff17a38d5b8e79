//! The rope: a text as chunks of at most 128 bytes in a sum tree.
//!
//! Contracts see a [`Rope`] as the bytes of its text, which is UTF-8 without carriage returns and at most 67,108,864
//! bytes long. That is twice the limit of a text, at which bytes and replacements are refused, but for
//! `replaced_within`. Ropes share the chunks that they have in common, and no later change of the one is seen by
//! another. A call that is refused leaves the rope as it was.
#![tactic(auto)]

mod chunk;
mod edit;
mod find;
mod laws;
mod layer;
mod rope;
mod rows;

pub use chunk::{Chunk, TextSize};
pub use laws::point_laws;
pub use rope::Rope;
pub use rows::RowSize;
