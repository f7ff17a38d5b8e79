//! Sheets: a record as a display keeps it, whatever it is made of.
//!
//! `Sheet` is the trait of all that a display asks of the record that it keeps. A sheet is seen as that record, in
//! which the stamps count the lines. A `JobSheet` also gives its lines to jobs, and takes their cuts. `PlainSheet`
//! keeps plain lists, and is the first of them.
#![tactic(auto)]

mod plain;
mod sheet;

pub use plain::PlainSheet;
pub use sheet::{JobSheet, Sheet};
