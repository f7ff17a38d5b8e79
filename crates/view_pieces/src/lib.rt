//! The pieces of a row of a view: what lies in its cells, and what it comes from.
//!
//! `pieces_of_row` is exactly the definition of `row_pieces`, read off the maps: it walks the row's display line, or the
//! blocks at it, and nothing else of the text. What it reads of a line, and of a block at it, is public too.
#![tactic(auto)]

mod block_rows;
mod landing;
mod rows;

pub use block_rows::{block_line, lines_there};
pub use landing::text_rows;
pub use row_pieces::{RowPiece, RowPieceKind};
pub use rows::pieces_of_row;
