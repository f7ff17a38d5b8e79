//! Wrapping lines beside the owner: jobs that go to workers and come back with their cuts.
//!
//! A `Job` names a run of lines and a width, and a `Done` holds the cuts of exactly its own job's lines at its width.
//! A `Crew` is seen as the list of the jobs that are out. `hand_out` adds one, and hands it back exactly where two for
//! each worker are out. A result of `collect`, `help` or `wait_one` is that of a job of the list, and takes it off.
//!
//! Jobs and results go over two bounded channels, each under a rule that every step of every thread keeps. With each
//! job goes a right to send its result, which is spent with it: so no job gives two results. By the rule of the results
//! each job that is out has one right, or its result is in the queue. Their numbers are distinct. The rule of the tasks
//! keeps the jobs in that queue apart by serials, one for each right that the crew cuts off.
//!
//! Nothing is promised of when a result comes, of which thread did a job, or that a call that waits returns.
#![tactic(auto)]

mod crews;
mod gate;
mod job;
mod laws;
mod make;
mod names;
mod results;
mod results_end;
mod tasks;
mod tasks_end;
mod worker;
mod wrap;

pub use crews::Crew;
pub use gate::{FreeGate, Gate};
pub use job::{Done, Finished, Job};
pub use laws::queue_laws;
pub use make::crew;
pub use worker::Worker;
pub use wrap::do_job;
