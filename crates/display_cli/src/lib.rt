//! The run of a script on a text, on one display: what the script asks for is written.
//!
//! `run` carries the headline theorem: what was written is the output of a legal history. `give_up` says why there are no
//! words. `run_laws` says what holds of every legal history: its records are lawful, and its lines and operations are those of
//! the script. A run on several views reads its text and its script, and ends, by the calls that `run` has for that.
//!
//! The outside comes as `Inputs` and `Sink`: over memory (`MapInputs`, `ListSink`, and `SureInputs` and `SureSink`, which never
//! fail), and over files and streams (`FileInputs`, `StreamSink`). Who writes inputs of his own tells its reads by `ReadsTold`.
#![tactic(auto)]

mod beside;
mod calls;
mod ended;
mod inputs;
mod laws;
pub mod limits;
mod playing;
mod read;
mod saying;
mod sinks;
mod summary;
mod told;
mod top;
mod watch;

pub use ended::{Ended, Note};
pub use inputs::{FileInputs, MapInputs, NamedBytes, SureInputs};
pub use laws::run_laws;
pub use saying::say;
pub use script_runner::{Failed, Inputs, Part, Sink};
pub use sinks::{ListSink, StreamSink, SureSink};
pub use told::ReadsTold;
pub use top::{fine_status, give_up, note_of, read_script, read_text, run, status_of};
