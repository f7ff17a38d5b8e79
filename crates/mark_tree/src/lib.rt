//! Marks and ranges that are at offsets of a text and move with its edits.
//!
//! A [`MarkTree`] is seen as the list of its marks, sorted by offset, bias (Left first) and id. A [`RangeTree`] is seen
//! as the list of its ranges, sorted by start, end and id, none empty. Ids are distinct. A replacement moves each mark
//! by the rule of anchors, and the list is sorted again; the ranges that it empties are dropped.
//!
//! Both keep their list in a sum tree, coded by the gaps between neighbouring offsets. So a replacement changes one gap
//! and the marks or ranges that it meets, and none of the many after it. The ranges that reach a place are found by the
//! greatest ends in the sums, each on a few paths through the tree. A call that is refused leaves the tree as it was.
#![tactic(auto)]

mod entry;
mod extent;
mod id_range;
mod key;
mod mark;
mod mark_tree;
mod meeting;
mod moving;
mod ordered;
mod range_tree;
mod reaching;
mod shrinking;
mod spaced;

pub use mark::{Mark, Places, RangeMark};
pub use mark_tree::MarkTree;
pub use moving::moved_offset;
pub use range_tree::RangeTree;
pub use sum_core::Load;
