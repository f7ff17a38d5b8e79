//! Doing a job: the cuts of each line of its run.
ghost use Rattle.std.specs.Prelude.{◌≡◌, IfOk};
ghost use Rattle.wrap_workers.specs.Jobs.{places_of, wraps_of};
ghost use Rattle.wrap_workers.specs.Finishes.{job_of};

use crate::job::{Done, Finished, Job};
use cell_line::{Cuts, Lines};
use cell_units::NoMemory;
use std::alloc::Global;

/// The cuts of each line of the job's run.
fn wraps<N: Lines>(alloc: Global, job: &Job<N>) -> Result<Vec<Cuts>, NoMemory>
    ensures { IfOk result (λ wraps. places_of wraps.items
        ≡ wraps_of (N.elements_by_line job.now.lines) job.now.run job.now.width) }
{
    let run = job.run();
    let mut wraps = Vec::new(alloc);
    for line in run.first..run.first + run.count {
        let cuts = job.lines().cuts(alloc, line, job.width())?;
        wraps.push(cuts)?;
    }
    Ok(wraps)
}

/// Does the job: `Done` holds its cuts. `Short` comes only if it is out of memory, and hands the job back.
pub fn do_job<N: Lines>(alloc: Global, job: Job<N>) -> Finished<N>
    ensures { job_of result ≡ job }
{
    match wraps(alloc, &job) {
        Ok(wraps) => Finished::Done(Done::new(job, wraps)),
        Err(NoMemory) => Finished::Short(job),
    }
}
