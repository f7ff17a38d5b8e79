//! Steps that are taken one after the other: runs that are sent, changes between them, and results that land.
ghost use Rattle.std.specs.Prelude.{◌≢◌, ◌<◌, All, length, IfSome, OnOk};
ghost use Rattle.test_jobs.specs.Out.{AreOut, StayOut};

use crate::displays::{
    alike, assert_marks_now, assert_row_count, land, operate, send_none, send_run,
};
use cell_line::Lines;
use cell_units::{Bias, Fault, Text};
use display_map::{DisplayOn, Op, Splice, job_laws};
use kept_sheet::{JobSheet, Sheet};
use map_sheet::MapSheet;
use std::alloc::Global;
use std::process::Abort;
use std::test::Fail;
use wrap_workers::Job;

/// What is done with a display and the jobs that it sent, or asked of it. Lines are counted from 0, and jobs from 1.
#[derive(Clone, Copy)]
pub(crate) enum Step<'a> {
    /// The next run is sent: its first line, and how many it has.
    Send(u32, u32),
    /// No line waits.
    Idle,
    /// A range of bytes is replaced by a text.
    Edit(u32, u32, &'a str),
    /// A text is shown at an offset, after what is before it.
    Inlay(u32, &'a str),
    /// A width is set, in cells.
    Width(u32),
    /// The job of this number lands.
    Land(u64),
    /// These lines are wrapped: of each run its first and last line, and its width.
    Marks(&'a [(u32, u32, u32)]),
    /// There are so many rows.
    Rows(u32),
}

/// Sends the next run, which is this one.
fn send_next<S: JobSheet>(
    rt: &impl Abort,
    alloc: Global,
    display: &mut DisplayOn<S>,
    out: &mut Vec<Job<S::Held>>,
    run: (u32, u32),
) -> Result<(), Fail>
    requires { AreOut S.Held.elements_by_line display.old out.old.items }
    ensures { OnOk result (AreOut S.Held.elements_by_line display.new out.new.items) }
{
    // For the proof: a job that was sent is out, and the others stay so.
    job_laws();
    let job = send_run(rt, alloc, display, run)?;
    out.push(job)?;
    Ok(())
}

/// The place of the job of this number.
fn place_of<N: Lines>(out: &[Job<N>], number: u64) -> Option<usize>
    ensures { IfSome result (λ at. at < length out.now) }
{
    for at in 0..out.len() {
        if out[at].number() == number {
            return Some(at);
        }
    }
    None
}

/// Asserts that none of the jobs has this number.
fn assert_none<S: JobSheet>(rt: &impl Abort, out: &Vec<Job<S::Held>>, number: u64)
    ensures { All (λ job. job.number ≢ number) out.now.items }
{
    for job in out {
        assert!(rt; job.number() != number);
    }
}

/// Lands the job of this number.
fn land_numbered<S: JobSheet>(
    rt: &impl Abort,
    alloc: Global,
    display: &mut DisplayOn<S>,
    out: &mut Vec<Job<S::Held>>,
    number: u64,
) -> Result<(), Fail>
    requires { AreOut S.Held.elements_by_line display.old out.old.items }
    ensures { OnOk result (AreOut S.Held.elements_by_line display.new out.new.items) }
{
    // For the proof: a job of another number stays out.
    job_laws();
    let Some(at) = place_of(out.as_slice(), number) else {
        return Err("no job".into());
    };
    let job = out.remove(at);
    assert_none::<S>(rt, out, job.number());
    land(rt, alloc, display, job)?;
    Ok(())
}

/// Replaces a range of bytes.
fn edit<S: Sheet>(
    rt: &impl Abort,
    alloc: Global,
    display: &mut DisplayOn<S>,
    start: u32,
    end: u32,
    text: &str,
) -> Result<(), Fault>
    ensures { OnOk result (StayOut display.old display.new) }
{
    let splice = Splice {
        start,
        end,
        text: Text::from_str(alloc, text)?,
    };
    operate(rt, alloc, display, Op::Replace(splice))
}

/// Shows a text at an offset, after what is before it.
fn inlay<S: Sheet>(
    rt: &impl Abort,
    alloc: Global,
    display: &mut DisplayOn<S>,
    offset: u32,
    text: &str,
) -> Result<(), Fault>
    ensures { OnOk result (StayOut display.old display.new) }
{
    let inlay = Op::Inlay {
        id: 1,
        offset,
        bias: Bias::Right,
        text: Text::from_str(alloc, text)?,
    };
    operate(rt, alloc, display, inlay)
}

/// Takes a step.
#[tactic(auto, using(crate::proofs::OutJobs::all_stay))]
fn take<S: JobSheet>(
    rt: &impl Abort,
    alloc: Global,
    display: &mut DisplayOn<S>,
    out: &mut Vec<Job<S::Held>>,
    step: &Step,
) -> Result<(), Fail>
    requires { AreOut S.Held.elements_by_line display.old out.old.items }
    ensures { OnOk result (AreOut S.Held.elements_by_line display.new out.new.items) }
{
    match *step {
        Step::Send(first, count) => send_next(rt, alloc, display, out, (first, count)),
        Step::Idle => send_none(rt, alloc, display),
        Step::Edit(start, end, text) => Ok(edit(rt, alloc, display, start, end, text)?),
        Step::Inlay(offset, text) => Ok(inlay(rt, alloc, display, offset, text)?),
        Step::Width(cells) => Ok(operate(rt, alloc, display, Op::Width { cells })?),
        Step::Land(number) => land_numbered(rt, alloc, display, out, number),
        Step::Marks(marks) => Ok(assert_marks_now(rt, alloc, display, marks)?),
        Step::Rows(count) => Ok(assert_row_count(rt, display, count)?),
    }
}

/// Takes steps, one after the other.
fn take_all<S: JobSheet>(
    rt: &impl Abort,
    alloc: Global,
    display: &mut DisplayOn<S>,
    steps: &[Step],
) -> Result<(), Fail> {
    let mut out = Vec::new(alloc);
    for step in steps {
        take(rt, alloc, display, &mut out, step)?;
    }
    Ok(())
}

/// Takes steps on a display of so many lines that are all alike, at a width.
fn play<S: JobSheet>(
    rt: &impl Abort,
    alloc: Global,
    (line, count, cells): (&str, usize, u32),
    steps: &[Step],
) -> Result<(), Fail> {
    let mut display = alike::<S>(rt, alloc, line, count, cells)?;
    take_all(rt, alloc, &mut display, steps)
}

/// The same on a display of the product.
pub(crate) fn play_on_maps(
    rt: &impl Abort,
    alloc: Global,
    lines: (&str, usize, u32),
    steps: &[Step],
) -> Result<(), Fail> {
    play::<MapSheet>(rt, alloc, lines, steps)
}
