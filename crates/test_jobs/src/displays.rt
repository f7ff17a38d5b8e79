//! What the tests do with a display over any sheet, and what they ask of its rows and marks.
ghost use Rattle.std.specs.Prelude.{◌≡◌, [], ◌∷◌, IfOk, OnOk};
ghost use Rattle.display_map.specs.Events.{Landed};
ghost use Rattle.display_map.specs.Replay.{appended};
ghost use Rattle.display_map.specs.Sending.{IsOutstanding, IsRunTakenOn, IsSent, seen_job};
ghost use Rattle.test_jobs.specs.Out.{StayOut};

use cell_units::{Fault, NoMemory, Steps};
use display_map::{Change, DisplayOn, MarkRun, Op, ViewOn, job_laws};
use kept_sheet::{JobSheet, Sheet};
use std::alloc::Global;
use std::process::Abort;
use std::test::Fail;
use wrap_workers::{Finished, Job, do_job};

/// Sends the next run.
fn send<S: JobSheet>(
    rt: &impl Abort,
    alloc: Global,
    display: &mut DisplayOn<S>,
) -> Result<Option<Job<S::Held>>, NoMemory>
    ensures { IfOk result (λ job.
        IsRunTakenOn S.Held.elements_by_line display.old display.new job) }
{
    assert!(rt; display.room() > 0);
    display.take_run(alloc, &mut Steps::new())
}

/// Sends the next run, which is this one: its first line, and how many it has.
pub(crate) fn send_run<S: JobSheet>(
    rt: &impl Abort,
    alloc: Global,
    display: &mut DisplayOn<S>,
    run: (u32, u32),
) -> Result<Job<S::Held>, Fail>
    ensures { IfOk result (λ job.
        IsSent display.old display.new (seen_job S.Held.elements_by_line job)) }
{
    let Some(job) = send(rt, alloc, display)? else {
        return Err("no run".into());
    };
    let sent = job.run();
    assert_eq!(rt; (sent.first, sent.count), run);
    Ok(job)
}

/// Finds that no line waits.
pub(crate) fn send_none<S: JobSheet>(
    rt: &impl Abort,
    alloc: Global,
    display: &mut DisplayOn<S>,
) -> Result<(), Fail>
    ensures { OnOk result (display.new ≡ display.old) }
{
    match send(rt, alloc, display)? {
        Some(_) => Err("a line waits".into()),
        None => Ok(()),
    }
}

/// Does a job that is out, and lands what it gives.
pub(crate) fn land<S: JobSheet>(
    rt: &impl Abort,
    alloc: Global,
    display: &mut DisplayOn<S>,
    job: Job<S::Held>,
) -> Result<(), NoMemory>
    requires { IsOutstanding display.old (seen_job S.Held.elements_by_line job) }
    ensures { OnOk result (display.new ≡ appended display.old (Landed job.number ∷ [])) }
{
    assert!(rt; display.room() > 0);
    let Finished::Done(done) = do_job(alloc, job) else {
        return Err(NoMemory);
    };
    match display.land(alloc, done, &mut Steps::new()) {
        Ok(()) => Ok(()),
        Err(_) => Err(NoMemory),
    }
}

/// Does one operation.
pub(crate) fn operate<S: Sheet>(
    rt: &impl Abort,
    alloc: Global,
    display: &mut DisplayOn<S>,
    op: Op,
) -> Result<(), Fault>
    ensures { OnOk result (StayOut display.old display.new) }
{
    // For the proof: a job that is out stays so over operations.
    job_laws();
    assert!(rt; display.room() > 0);
    display.apply(alloc, &Change::One(op), &mut Steps::new())
}

/// A display of a text at a width.
pub(crate) fn opened_at<S: Sheet>(
    rt: &impl Abort,
    alloc: Global,
    text: &str,
    cells: u32,
) -> Result<DisplayOn<S>, Fail> {
    let mut display = DisplayOn::<S>::start(alloc, text.as_bytes(), &mut Steps::new())?;
    operate(rt, alloc, &mut display, Op::Width { cells })?;
    Ok(display)
}

/// A display of lines that are all alike, joined by line feeds, at a width.
pub(crate) fn alike<S: Sheet>(
    rt: &impl Abort,
    alloc: Global,
    line: &str,
    count: usize,
    cells: u32,
) -> Result<DisplayOn<S>, Fail> {
    let mut text = String::new(alloc);
    for i in 0..count {
        if i > 0 {
            text.push('\n')?;
        }
        text.push_str(line)?;
    }
    opened_at(rt, alloc, text.as_str(), cells)
}

/// The runs are these: of each its first and last line, and its width.
fn assert_runs(rt: &impl Abort, runs: &[MarkRun], marks: &[(u32, u32, u32)]) {
    assert_eq!(rt; runs.len(), marks.len());
    for (run, mark) in runs.iter().zip(marks) {
        assert_eq!(rt; (run.first, run.last, run.width), *mark);
    }
}

/// The marks are these runs.
pub(crate) fn assert_marks<S: Sheet>(
    rt: &impl Abort,
    alloc: Global,
    view: &ViewOn<S>,
    marks: &[(u32, u32, u32)],
) -> Result<(), NoMemory> {
    let runs = view.marks(alloc, &mut Steps::new())?;
    assert_runs(rt, runs.as_slice(), marks);
    Ok(())
}

/// The marks of the display are these.
pub(crate) fn assert_marks_now<S: Sheet>(
    rt: &impl Abort,
    alloc: Global,
    display: &DisplayOn<S>,
    marks: &[(u32, u32, u32)],
) -> Result<(), NoMemory> {
    let view = display.view()?;
    assert_marks(rt, alloc, &view, marks)
}

/// The display has so many rows.
pub(crate) fn assert_row_count<S: Sheet>(
    rt: &impl Abort,
    display: &DisplayOn<S>,
    count: u32,
) -> Result<(), NoMemory> {
    let view = display.view()?;
    assert_eq!(rt; view.row_count(), count);
    Ok(())
}
