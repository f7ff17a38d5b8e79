//! Displays under changes and landings, and the rows that these replaced.
ghost use Rattle.display_map.specs.Sending.{IsOutstanding};

use cell_units::{Fault, NoMemory, Steps};
use display_map::{Change, Display, Held, Op, job_laws};
use std::alloc::Global;
use std::test::Fail;
use test_displays::{apply, land, send};
use view_changes::{RowChange, changed_rows, landed_rows};
use wrap_workers::Job;

/// Does a change, and gives the rows that it replaced.
pub(crate) fn change(
    alloc: Global,
    display: &mut Display,
    change: &Change,
) -> Result<RowChange, Fault> {
    let before = display.view()?;
    apply(alloc, display, change)?;
    // For the proof: the history is lawful.
    display.lawful();
    let rows = changed_rows(alloc, &before, display.sheet(), change, &mut Steps::new())?;
    Ok(rows)
}

/// The same of one operation.
pub(crate) fn operate(alloc: Global, display: &mut Display, op: Op) -> Result<RowChange, Fault> {
    change(alloc, display, &Change::One(op))
}

/// Does a job that is out, lands what it gives, and gives the rows that it replaced.
fn landed(alloc: Global, display: &mut Display, job: Job<Held>) -> Result<RowChange, NoMemory>
    requires { IsOutstanding display.old job }
{
    let before = display.view()?;
    land(alloc, display, job)?;
    Ok(landed_rows(&before, display.sheet(), &mut Steps::new()))
}

/// Wraps the next run of lines that wait, and gives the rows that it replaced. `None` where no line waits.
pub(crate) fn wrap(alloc: Global, display: &mut Display) -> Result<Option<RowChange>, NoMemory> {
    // For the proof: a job that was sent is out.
    job_laws();
    let Some(job) = send(alloc, display)? else {
        return Ok(None);
    };
    Ok(Some(landed(alloc, display, job)?))
}

/// A display of a text of which all lines are wrapped. They are at most 128.
pub(crate) fn opened(alloc: Global, text: &str) -> Result<Display, Fail> {
    let mut display = Display::start(alloc, text.as_bytes(), &mut Steps::new())?;
    wrap(alloc, &mut display)?;
    Ok(display)
}
