//! A text on the stages of a display: its lines as they are wrapped, a run of them that is cut elsewhere and lands
//! late, and blocks between their rows. The tests and the timed programs of these maps play on it.
//!
//! Each change is that of the stages. The crate promises which values they have then, and that a run is landed as they
//! ask.
#![tactic(auto)]

mod blocked;
mod carrying;
mod cutting;
mod late;
mod out_run;
mod text;

pub use blocked::BlockedText;
pub use cutting::wraps;
pub use late::LateText;
pub use out_run::OutRun;
pub use text::{Change, Shown, StagedText};
