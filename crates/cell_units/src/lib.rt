//! The definitions that all crates share: of texts, places, pieces of a display line, records, refusals and steps.
//!
//! The crate promises little code and much meaning, which every crate above cites. `specs/` has the definitions of a
//! text, of a record and when it is lawful, and of the operations on it. It has those of the folded text and its
//! display lines, and of layers and rows. `laws` has what they mean in other words, and `worked` has texts and
//! operations of which the outcome is known. What docstrings of any crate name in italics, as *Rows*, is a heading of
//! `docs/DEFINITIONS.md`.
#![tactic(auto)]

mod cleaning;
mod fault;
mod laws;
mod layer;
pub mod limits;
mod piece;
mod place;
mod rows;
mod steps;
mod text;
pub mod worked;

pub use cleaning::{cleaned, push_clean};
pub use fault::{Fault, NoMemory, Refusal, TextFault};
pub use laws::{
    entry_laws, fold_laws, folding_laws, inlay_laws, layer_laws, operation_laws, piece_laws,
    text_laws,
};
pub use layer::Layer;
pub use piece::{Piece, PieceKind};
pub use place::{Bias, Motion, Point, Shift, Side, Spot};
pub use rows::Rows;
pub use steps::Steps;
pub use text::{Text, read_text};
