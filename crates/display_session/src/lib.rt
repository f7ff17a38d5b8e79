//! A session: one display for a host that isn't written in Rattle, with no thread of its own.
//!
//! A session takes lines of a script and direct calls, and keeps the bytes of its last answer, which the host copies out
//! in as many parts as it likes. The crate promises that a line does what the program does for it, and that each direct
//! call gives what the plain functions give for the record that the display's history replays to.
#![tactic(auto)]

mod answering;
mod caret_lines;
mod host_marks;
mod lent_pieces;
mod lone;
mod marking;
mod session;
mod text_parts;
mod trouble;
mod watch;
mod watching;

pub use lent_pieces::LentPiece;
pub use row_pieces::RowPieceKind;
pub use session::Session;
pub use trouble::Trouble;
pub use view_changes::RowChange;
