//! The owner of a display: it changes the display while a crew of workers wraps its lines, and shows each version that it
//! publishes on a board.
//!
//! An `Owner` has the outstanding jobs of its display with its crew, and its board shows the display's newest version. It
//! sends runs as long as lines wait and jobs have room, lands results as they come, and settles: it does waiting jobs itself,
//! and waits for a worker only where no job waits. What it did is said as the events of the display's journal
//! (`specs/Beside.antt`): runs that were sent, and landings, each with its version.
//!
//! Nothing is promised of when a result comes, of which thread did a job, or that a call that waits returns.
#![tactic(auto)]

mod halt;
mod opening;
mod owner;

pub use halt::Halt;
pub use opening::{Opened, open};
pub use owner::{EVENTS_AHEAD, Owner};
