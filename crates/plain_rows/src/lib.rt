//! The plain functions: what the rows of a record are, from scratch, and where its offsets are shown.
//!
//! `specs/` has the definitions. `build`, `show`, `clip` and `back` are exactly these, for every lawful record: they
//! are what all else is compared with. `FoldedLines` lays out the display lines of a text with inlays and folds, and
//! copies none of it. `worked` has records of which rows, spots, nearest valid spots and offsets are known, as
//! theorems.
#![tactic(auto)]

mod block_lines;
mod folded_lines;
mod joining;
pub mod laws;
mod laying;
mod plain;
mod rows;
mod shown;
pub mod spots;
pub mod worked;

pub use folded_lines::{FoldedLines, Joined, PlainSource};
pub use plain::{Plain, PlainBlock, PlainFold, PlainInlay};
pub use rows::build;
pub use shown::{Kind, Shown};
pub use spots::laid_rows::LaidRows;
pub use spots::offsets::back_in;
pub use spots::row_line::RowLine;
pub use spots::searching::clip_in;
pub use spots::showing::show_in;
pub use spots::spot_rows::SpotRows;
pub use spots::{back, clip, show};
