//! The display: a text under edits, its rows, and the journal of all that happened to it.
//!
//! A display and each view of it are seen as a history: the opening text and the journal. The crate promises that what
//! they show is what the plain functions give for the record that the history replays to.
#![tactic(auto)]

mod display;
mod event;
mod held;
mod journal;
mod laws;
mod outs;
mod prepared;
mod splicing;
mod version;
mod view;
mod work;

pub use display::{Display, DisplayOn};
pub use display_sheet::{Change, Kind, MarkRun, Op, Shown, Splice, step_laws};
pub use event::Event;
pub use journal::Journal;
pub use laws::{
    job_laws, landing_laws, line_patch_laws, replay_laws, stamp_laws, worked_line_patches,
};
pub use map_sheet::Held;
pub use prepared::{Prepared, PreparedOn};
pub use version::{Version, VersionOn};
pub use view::{View, ViewOn};
