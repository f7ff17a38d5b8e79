//! A view of a text whose lines are all wrapped.
ghost use Rattle.std.specs.Prelude.{◌+◌, ◌≤◌, length};
ghost use Rattle.display_map.specs.Events.{event_limit};

use crate::text::Repeated;
use cell_units::{Bias, Fault, NoMemory, Side, Steps, Text};
use display_map::{Change, Display, Op, View, job_laws};
use std::alloc::Global;
use wrap_workers::{Finished, do_job};

/// Wraps the first lines that wait.
fn wrap_run(alloc: Global, display: &mut Display, steps: &mut Steps) -> Result<bool, NoMemory>
    requires room { length display.old.events + 2 ≤ event_limit }
{
    // For the proof: a job that was sent is out.
    job_laws();
    let Some(job) = display.take_run(alloc, steps)? else {
        return Ok(false);
    };
    let Finished::Done(done) = do_job(alloc, job) else {
        return Err(NoMemory);
    };
    match display.land(alloc, done, steps) {
        Ok(()) => Ok(true),
        Err(_) => Err(NoMemory),
    }
}

/// Wraps every line, as far as the journal has room.
fn settle(alloc: Global, display: &mut Display, steps: &mut Steps) -> Result<(), NoMemory> {
    for _ in 0..u32::MAX {
        if display.room() < 2 || !wrap_run(alloc, display, steps)? {
            break;
        }
    }
    Ok(())
}

/// The inlay, fold or block of a number, at an offset.
fn entry(alloc: Global, number: u32, offset: u32) -> Result<Op, NoMemory> {
    let id = number;
    match number % 3 {
        0 => Ok(Op::Inlay {
            id,
            offset,
            bias: Bias::Right,
            text: Text::from_str(alloc, ": i32")?,
        }),
        1 => Ok(Op::Fold {
            id,
            start: offset,
            end: offset.saturating_add(6),
        }),
        _ => Ok(Op::Block {
            id,
            side: Side::Above,
            row: number,
            lines: vec![in alloc; Text::from_str(alloc, "a note")?]?,
        }),
    }
}

/// Does an operation, if the journal has room. One that is refused is left out.
fn operate(
    alloc: Global,
    display: &mut Display,
    op: Op,
    steps: &mut Steps,
) -> Result<(), NoMemory> {
    if display.room() < 1 {
        return Ok(());
    }
    match display.apply(alloc, &Change::One(op), steps) {
        Err(Fault::NoMemory) => Err(NoMemory),
        _ => Ok(()),
    }
}

/// A view of a text with so many inlays, folds and blocks, evenly over it, each where a part begins.
pub fn view_of(
    alloc: Global,
    text: &Repeated,
    entries: u32,
    steps: &mut Steps,
) -> Result<View, Fault> {
    let Ok(mut display) = Display::start(alloc, text.bytes.as_slice(), steps) else {
        return Err(Fault::NoMemory);
    };
    let apart = text.parts / entries.max(1);
    for number in 0..entries {
        let offset = number.saturating_mul(apart).saturating_mul(text.part);
        let op = entry(alloc, number, offset)?;
        operate(alloc, &mut display, op, steps)?;
    }
    settle(alloc, &mut display, steps)?;
    Ok(display.view()?)
}
