//! A display that is wrapped run by run, by the thread that owns it.
ghost use Rattle.std.specs.Prelude.{◌≡◌, ◌+◌, ◌<◌, ◌≤◌, ℕ, length, take, true, false, IfOk, OnErr, OnOk};
ghost use Rattle.display_map.specs.Events.{event_limit};
ghost use Rattle.display_map.specs.Replay.{appended, is_settled, present_of, state_of};
ghost use Rattle.split_views.specs.Wrapping.{HasBegun, HasWrapped, HasWrappedNext, IsIdle, next_wrapping};

use cell_units::{NoMemory, Steps};
use display_map::{DisplayOn, job_laws};
use kept_sheet::JobSheet;
use std::alloc::Global;
use wrap_workers::{Finished, do_job};

/// How many events a run takes: it is sent, it lands, and a version is published.
const RUN_EVENTS: u32 = 3;

/// Wraps the next run and publishes the display. Returns whether a line waited.
fn wrap_next<S: JobSheet>(
    alloc: Global,
    display: &mut DisplayOn<S>,
    steps: &mut Steps,
) -> Result<bool, NoMemory>
    // The journal has room for its events, and no job is out.
    requires room { length display.old.events + 3 ≤ event_limit }
    requires idle { IsIdle display.old }

    // The run is wrapped, where a line waited, and then again no job is out.
    ensures wrapped { IfOk result (HasWrappedNext display.old display.new) }
    ensures idle { OnOk result (IsIdle display.new) }

    // What is there after it was out of memory.
    ensures begun { OnErr result ((events : ℕ) × (display.new
        ≡ appended display.old (take events (next_wrapping (state_of display.old))))) }

    // The work.
    ensures counted { steps.old ≤ steps.new }
{
    // For the proof: a job that was sent is out.
    job_laws();
    let Some(job) = display.take_run(alloc, steps)? else {
        return Ok(false);
    };
    let Finished::Done(done) = do_job(alloc, job) else {
        return Err(NoMemory);
    };
    let Ok(()) = display.land(alloc, done, steps) else {
        return Err(NoMemory);
    };
    display.publish(alloc, false)?;
    Ok(true)
}

/// Wraps runs one after another. Returns `true` once every line is wrapped at the width, and `false` where the journal
/// has no room for the events of one more run.
pub(crate) fn wrap_all<S: JobSheet>(
    alloc: Global,
    display: &mut DisplayOn<S>,
    steps: &mut Steps,
) -> Result<bool, NoMemory>
    requires { IsIdle display.old }

    // Runs are wrapped, and then again no job is out.
    ensures wrapped { OnOk result (HasWrapped display.old display.new) }
    ensures idle { OnOk result (IsIdle display.new) }

    // What the result says.
    ensures settled { IfOk result (λ all. all ≡ true → is_settled (present_of display.new) ≡ true) }
    ensures full { IfOk result (λ all. all ≡ false →
        event_limit < length display.new.events + 3) }

    // What is there after it was out of memory.
    ensures begun { OnErr result (HasBegun display.old display.new) }

    // The work.
    ensures counted { steps.old ≤ steps.new }
{
    'runs: while display.room() >= RUN_EVENTS {
        if !wrap_next(alloc, display, steps)? {
            return Ok(true);
        }
    }
    Ok(display.settled())
}
