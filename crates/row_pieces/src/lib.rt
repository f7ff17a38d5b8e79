//! The pieces of each row of a record, and which rows a change replaced.
//!
//! A piece is a part of a row that comes from one thing: text of the buffer, a tab, an inlay, a placeholder, a block or
//! the indent of a row that goes on. `pieces_in_rows` and `changed_rows` are exactly the definitions of `specs/`, for
//! every lawful record, and `laws` has what those mean in other words. `worked` and `worked_changes` have records and
//! operations of which the pieces and the changed rows are known, as theorems.
#![tactic(auto)]

mod bits;
mod changed;
mod joining;
pub mod laws;
mod line_rows;
mod row_change;
mod row_piece;
mod rows;
pub mod worked;
pub mod worked_changes;

pub use changed::changed_rows;
pub use line_rows::{pieces_of_line, pieces_of_line_row};
pub use row_change::RowChange;
pub use row_piece::{RowPiece, RowPieceKind};
pub use rows::{block_line_piece, pieces_in_rows, pieces_of_row};
