//! The rows of lines by the width at which each line is wrapped.
//!
//! A `WrapMap` is seen as its lines, the mark of each and the width at which they are to be wrapped. It keeps one tree
//! of stretches: a line with its cuts, or a maximal run of lines without cuts at one mark. The sums of the tree count
//! lines, rows and changes of the mark. So a line, a row, or the next line that is wrapped at another width is one
//! seek.
#![tactic(auto)]

mod extent;
mod gathering;
mod landing;
mod map;
mod replacing;
mod snapshot;
mod stretch;
mod stretches;
mod waiting;
pub mod worked;

pub use cell_line::MarkRun;
pub use map::WrapMap;
pub use snapshot::WrapSnapshot;
