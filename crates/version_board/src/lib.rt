//! A board: an owner publishes versions, and readers in threads of their own look at the newest without ever waiting.
//!
//! A board has one row of versions (`specs/Rows.antt`). `publish` adds to its end, and `tell` names its newest. What a
//! reader gets is a version of that row whose journal begins with that of each version that the reader saw or learnt
//! of. Once it learnt of the last version, it gets that one. `look`, `learn` and `tell` are given no right to wait, and
//! no version is copied: a reader holds a share.
//!
//! The row is the log of a `logbook`, which exists in proofs alone. What threads share of it is one word, the number of
//! the newest version. A token without bytes beside each share of a version says which beginning of the row that
//! version ends. `left_right` shows the newest, under the rule that all that is shown is of one row.
//!
//! Nothing is promised of when a reader sees a version that it wasn't notified of.
#![tactic(auto)]

mod kept;
mod laws;
mod make;
mod reader;
mod row;
mod seats;
mod shown;
mod writer;

pub use laws::{one_row, one_row_of_readers, row_laws};
pub use make::board;
pub use reader::Reader;
pub use writer::{Told, Writer};

#[cfg(test)]
mod tests;
