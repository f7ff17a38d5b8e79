//! Sheets: a record as a display keeps it, what operations make of it, and what is read off it.
//!
//! A sheet keeps the text, the lists of inlays, folds and blocks, the display lines laid out, and how each is wrapped.
//! All of it is shared with its copies. It is seen as its record, in which the stamps count the lines. The crate
//! promises that each operation leaves the record that the definitions give, with the one splice of display lines that
//! they give. Each reading of a sheet is the plain function of its record.
#![tactic(auto)]

mod anchor;
mod blocks;
mod buffer;
pub mod change;
mod counting;
mod folds;
mod held;
mod inlays;
mod landing;
mod laws;
mod marking;
pub mod operate;
mod piece_line;
mod points;
mod reading;
mod sheet;
mod spots;
mod window;
mod wraps;

pub use buffer::Buffer;
pub use cell_line::MarkRun;
pub use change::{Change, Op, Splice};
pub use held::Held;
pub use laws::step_laws;
pub use plain_rows::{Kind, Shown};
pub use sheet::{LineSplice, Sheet, Spliced};
pub use wraps::{Wrapped, Wraps};
