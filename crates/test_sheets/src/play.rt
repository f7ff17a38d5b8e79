//! A history drawn from a seed, played on a display over any sheet.
ghost use Rattle.std.specs.Prelude.{◌≡◌, ◌∷◌, [], List, IfOk, OnOk};
ghost use Rattle.cell_line.specs.declared.element.Element.{Element};
ghost use Rattle.wrap_workers.specs.Jobs.{JobParts};
ghost use Rattle.display_map.specs.Events.{Landed};
ghost use Rattle.display_map.specs.Replay.{appended};
ghost use Rattle.display_map.specs.Sending.{IsOutstanding, IsRunTakenOn, seen_job};

use crate::draws::{operation, splices};
use crate::seen::{write_outcome, write_view};
use cell_units::{Fault, NoMemory, Steps};
use display_map::{Change, DisplayOn, job_laws};
use generated_input::Generator;
use kept_sheet::{JobSheet, Sheet};
use std::alloc::Global;
use std::process::Abort;
use std::test::Fail;
use wrap_workers::{Finished, Job, do_job};

/// A generator, what was seen so far, and how many changes were done.
#[derive(Drop)]
pub(crate) struct Player {
    generator: Generator,
    seen: String,
    done: u32,
}

/// A batch of replacements. The jobs that are out stay out, whether it is accepted or not.
fn edit<S: Sheet>(
    rt: &impl Abort,
    alloc: Global,
    display: &mut DisplayOn<S>,
    player: &mut Player,
) -> Result<(), Fault>
    ensures { (job : JobParts (List (List Element))) →
        IsOutstanding display.old job → IsOutstanding display.new job }
{
    job_laws();
    let splices = splices(alloc, &display.view()?, &mut player.generator)?;
    assert!(rt; splices.len() <= 2000);
    assert!(rt; display.room() >= 2000);
    match display.apply(alloc, &Change::Edit(splices), &mut Steps::new()) {
        Ok(()) => Ok(()),
        Err(fault) => Err(fault),
    }
}

/// An operation that isn't a replacement. The jobs that are out stay out, whether it is accepted or not.
fn operate<S: Sheet>(
    rt: &impl Abort,
    alloc: Global,
    display: &mut DisplayOn<S>,
    player: &mut Player,
) -> Result<(), Fault>
    ensures { (job : JobParts (List (List Element))) →
        IsOutstanding display.old job → IsOutstanding display.new job }
{
    job_laws();
    let op = operation(alloc, &display.view()?, &mut player.generator)?;
    assert!(rt; display.room() > 0);
    match display.apply(alloc, &Change::One(op), &mut Steps::new()) {
        Ok(()) => Ok(()),
        Err(fault) => Err(fault),
    }
}

/// Notes whether a change was done, and why not.
fn note(alloc: Global, player: &mut Player, outcome: Result<(), Fault>) -> Result<(), NoMemory> {
    match outcome {
        Ok(()) => {
            player.done = player.done.saturating_add(1);
            write_outcome(alloc, &mut player.seen, None)
        }
        Err(Fault::Refused(refusal)) => write_outcome(alloc, &mut player.seen, Some(refusal)),
        Err(Fault::NoMemory) => Err(NoMemory),
    }
}

/// A change, of which every other one is a batch of replacements.
fn change<S: Sheet>(
    rt: &impl Abort,
    alloc: Global,
    display: &mut DisplayOn<S>,
    player: &mut Player,
) -> Result<(), NoMemory>
    ensures { (job : JobParts (List (List Element))) →
        IsOutstanding display.old job → IsOutstanding display.new job }
{
    let outcome = if player.generator.below(2) == 0 {
        edit(rt, alloc, display, player)
    } else {
        operate(rt, alloc, display, player)
    };
    note(alloc, player, outcome)
}

/// Two changes, and all that is seen after them.
fn changes<S: Sheet>(
    rt: &impl Abort,
    alloc: Global,
    display: &mut DisplayOn<S>,
    player: &mut Player,
) -> Result<(), NoMemory>
    ensures { (job : JobParts (List (List Element))) →
        IsOutstanding display.old job → IsOutstanding display.new job }
{
    change(rt, alloc, display, player)?;
    change(rt, alloc, display, player)?;
    let view = display.view()?;
    write_view(alloc, &mut player.seen, &view, &mut player.generator)
}

/// Sends the next run.
fn send<S: JobSheet>(
    rt: &impl Abort,
    alloc: Global,
    display: &mut DisplayOn<S>,
) -> Result<Option<Job<S::Held>>, NoMemory>
    ensures { IfOk result (λ job.
        IsRunTakenOn S.Held.elements_by_line display.old display.new job) }
{
    assert!(rt; display.room() > 0);
    display.take_run(alloc, &mut Steps::new())
}

/// Does a job that is out, and lands what it gives.
fn land<S: JobSheet>(
    rt: &impl Abort,
    alloc: Global,
    display: &mut DisplayOn<S>,
    job: Job<S::Held>,
) -> Result<(), NoMemory>
    requires { IsOutstanding display.old (seen_job S.Held.elements_by_line job) }
    ensures { OnOk result (display.new ≡ appended display.old (Landed job.number ∷ [])) }
{
    assert!(rt; display.room() > 0);
    let Finished::Done(done) = do_job(alloc, job) else {
        return Err(NoMemory);
    };
    match display.land(alloc, done, &mut Steps::new()) {
        Ok(()) => Ok(()),
        Err(_) => Err(NoMemory),
    }
}

/// Lands one job and then another, with changes between.
fn land_in_turn<S: JobSheet>(
    rt: &impl Abort,
    alloc: Global,
    display: &mut DisplayOn<S>,
    jobs: (Job<S::Held>, Job<S::Held>),
    player: &mut Player,
) -> Result<(), NoMemory>
    requires first { IsOutstanding display.old (seen_job S.Held.elements_by_line jobs.0) }
    requires second { IsOutstanding display.old (seen_job S.Held.elements_by_line jobs.1) }
{
    job_laws();
    let (first, second) = jobs;
    assert!(rt; first.number() != second.number());
    land(rt, alloc, display, first)?;
    changes(rt, alloc, display, player)?;
    land(rt, alloc, display, second)
}

/// Lands two jobs in either order, with changes before the first and between them.
fn land_both<S: JobSheet>(
    rt: &impl Abort,
    alloc: Global,
    display: &mut DisplayOn<S>,
    jobs: (Job<S::Held>, Job<S::Held>),
    player: &mut Player,
) -> Result<(), NoMemory>
    requires first { IsOutstanding display.old (seen_job S.Held.elements_by_line jobs.0) }
    requires second { IsOutstanding display.old (seen_job S.Held.elements_by_line jobs.1) }
{
    changes(rt, alloc, display, player)?;
    if player.generator.below(2) == 0 {
        let (first, second) = jobs;
        land_in_turn(rt, alloc, display, (second, first), player)
    } else {
        land_in_turn(rt, alloc, display, jobs, player)
    }
}

/// Sends up to two jobs, with changes before, between and after them, and lands them in either order.
fn round<S: JobSheet>(
    rt: &impl Abort,
    alloc: Global,
    display: &mut DisplayOn<S>,
    player: &mut Player,
) -> Result<(), NoMemory> {
    job_laws();
    changes(rt, alloc, display, player)?;
    let Some(first) = send(rt, alloc, display)? else {
        return Ok(());
    };
    changes(rt, alloc, display, player)?;
    match send(rt, alloc, display)? {
        None => land(rt, alloc, display, first),
        Some(second) => land_both(rt, alloc, display, (first, second), player),
    }
}

/// All that is seen of a display of a text in so many rounds that are drawn from a seed.
pub(crate) fn played<S: JobSheet>(
    rt: &impl Abort,
    alloc: Global,
    text: &str,
    seed: u64,
    rounds: u32,
) -> Result<String, Fail> {
    let mut display = DisplayOn::<S>::start(alloc, text.as_bytes(), &mut Steps::new())?;
    let mut player = Player {
        generator: Generator::new(seed),
        seen: String::new(alloc),
        done: 0,
    };
    for _ in 0..rounds {
        round(rt, alloc, &mut display, &mut player)?;
    }
    // Of each round at least one change is accepted, in the mean.
    assert!(rt; player.done >= rounds);
    Ok(player.seen)
}
