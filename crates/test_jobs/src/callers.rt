//! The callers that the pages of the crates show.
ghost use Rattle.std.specs.Prelude.{◌≡◌, ◌+◌, ◌≤◌, length, IfSome};
ghost use Rattle.display_map.specs.Events.{event_limit};

use crate::displays::{assert_row_count, opened_at, send_run};
use cell_line::{Cuts, Lines};
use cell_units::{NoMemory, Steps};
use display_map::Display;
use kept_sheet::JobSheet;
use map_sheet::MapSheet;
use std::alloc::Global;
use std::process::Abort;
use std::test::Fail;
use wrap_workers::{Done, Finished, Job, do_job};

/// A job as it is done, or nothing where there is no memory for its cuts.
fn done<N: Lines>(alloc: Global, job: Job<N>) -> Option<Done<N>>
    ensures { IfSome result (λ done. done.job ≡ job) }
{
    match do_job(alloc, job) {
        Finished::Done(done) => Some(done),
        Finished::Short(_) => None,
    }
}

/// Asserts that of two lines the first is cut after its blank, and the second isn't cut.
fn assert_cuts(rt: &impl Abort, wraps: &[Cuts]) {
    assert_eq!(rt; wraps.len(), 2);
    assert_eq!(rt; wraps[0].as_slice(), [6].as_slice());
    assert_eq!(rt; wraps[1].as_slice().len(), 0);
}

/// Sends and does the job of those lines, at a width of 5.
fn cut_lines<S: JobSheet>(rt: &impl Abort, alloc: Global) -> Result<(), Fail> {
    let mut display = opened_at::<S>(rt, alloc, "hello world\nabc", 5)?;
    let job = send_run(rt, alloc, &mut display, (0, 2))?;
    let done = done(alloc, job).ok_or("no memory")?;
    assert_cuts(rt, done.wraps());
    Ok(())
}

#[test]
fn a_job_gives_the_cuts_of_its_lines(rt: HostRuntime) -> Result<(), Fail> {
    cut_lines::<MapSheet>(&rt, rt.alloc())
}

/// Sends the first run of lines that wait, if there is one, and lands it.
fn wrap_run(alloc: Global, display: &mut Display, steps: &mut Steps) -> Result<(), NoMemory>
    requires room { length display.old.events + 2 ≤ event_limit }
{
    let Some(job) = display.take_run(alloc, steps)? else {
        return Ok(());
    };
    let Finished::Done(done) = do_job(alloc, job) else {
        return Err(NoMemory);
    };
    display.land(alloc, done, steps).map_err(|_| NoMemory)
}

/// Asserts that a line is in one row until its run has landed, and then in two.
fn assert_wrapped(rt: &impl Abort, alloc: Global, display: &mut Display) -> Result<(), NoMemory> {
    assert_row_count(rt, display, 1)?;
    assert!(rt; display.room() >= 2);
    wrap_run(alloc, display, &mut Steps::new())?;
    assert_row_count(rt, display, 2)
}

#[test]
fn a_landing_wraps_a_line(rt: HostRuntime) -> Result<(), Fail> {
    let alloc = rt.alloc();
    let mut display: Display = opened_at(&rt, alloc, "hello world", 5)?;
    assert_wrapped(&rt, alloc, &mut display)?;
    Ok(())
}
