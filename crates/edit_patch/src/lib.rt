//! Patches: which positions of a new text came from which of the old one.
//!
//! A patch is a list of edits. Each replaces a range of old positions by a range of new ones; all other positions are
//! kept, and correspond in order. So a patch says of each new position where it came from, or that it is new. This is
//! all that it means: two patches that say the same are equal. Positions are counted in whatever the two lists hold, as
//! bytes, lines or rows.
//!
//! Each map returns one replacement, which leads from what it showed last to what it shows now. What that means is said
//! here once for all maps, with the one replacement that covers two.
//!
//! The crate promises the exact result of each call on patches, and laws above the definitions. What a patch says is
//! the one correspondence in order that its edits leave. Inverses go back, and patches compose to exactly one patch.
#![tactic(auto)]

mod cover;
mod edit;
pub mod laws;
mod merge;
mod patch;

pub use cover::{covering, with_pending};
pub use edit::Edit;
pub use patch::Patch;
