//! Crews whose workers run in threads of their own.
ghost use Rattle.std.specs.Prelude.{◌≡◌, ◌+◌, ◌<◌, ◌≤◌, All, [], length};
ghost use Rattle.wrap_workers.specs.Finishes.{job_of};
ghost use Rattle.wrap_workers.specs.Crewed.{IsTakenOff};

use super::{number_done, ten_lines};
use crate::alike::Alike;
use crate::crews::counted::Counted;
use cell_units::NoMemory;
use std::alloc::Global;
use std::sync::Wait;
use std::thread;
use std::thread::Threads;
use wrap_workers::{Crew, Finished, FreeGate, Gate, Worker};

/// How often a result is asked for.
const TURNS: u32 = 100_000_000;

/// Runs the workers to their end.
fn run_team<R: Threads + Wait + Sync, G: Gate + Sync>(
    rt: &R,
    alloc: Global,
    gate: &G,
    team: Vec<Worker<Alike>>,
) -> Result<(), NoMemory> {
    thread::map_vec(
        rt,
        team,
        &|worker: Worker<Alike>| worker.work(rt, alloc, gate),
    )?;
    Ok(())
}

/// The number of the one job, as `wait_one` gives it. The crew is dropped without a stop.
fn wait_for_one<R: Wait>(rt: &R, mut crew: Crew<Alike>) -> Option<u64>
    requires { crew.out ≡ [] }
{
    match crew.hand_out(rt, ten_lines(1)) {
        Ok(()) => number_done(&crew.wait_one(rt)),
        Err(_) => None,
    }
}

/// The number of the one job, as `wait_one` gives it. Then the crew is stopped.
fn wait_and_stop<R: Wait>(rt: &R, mut crew: Crew<Alike>) -> Option<u64>
    requires { crew.out ≡ [] }
{
    let number = match crew.hand_out(rt, ten_lines(1)) {
        Ok(()) => number_done(&crew.wait_one(rt)),
        Err(_) => None,
    };
    crew.stop(rt);
    number
}

/// The number of the one job, as `collect` gives it when it is called again and again.
fn collect_one<R: Wait>(rt: &R, mut crew: Crew<Alike>) -> Option<u64>
    requires { crew.out ≡ [] }
{
    let mut number = None;
    if crew.hand_out(rt, ten_lines(1)).is_ok() {
        for _ in 0..TURNS {
            if let Some(finished) = crew.collect(rt) {
                number = number_done(&finished);
                break;
            }
            thread::yield_now();
        }
    }
    crew.stop(rt);
    number
}

/// One job, done by the workers, that the owner waits for.
pub fn by_waiting<R: Threads + Wait + Sync>(
    rt: &R,
    alloc: Global,
    crew: Crew<Alike>,
    team: Vec<Worker<Alike>>,
) -> Result<Option<u64>, NoMemory>
    requires { crew.out ≡ [] }
{
    let (number, ended) = thread::join(
        rt,
        move ||
            requires { crew.out ≡ [] }
        { wait_and_stop(rt, crew) },
        move || run_team(rt, alloc, &FreeGate, team),
    );
    ended?;
    Ok(number)
}

/// One job, done by the workers, that the owner waits for. It doesn't notify the workers of the end.
pub fn without_stop<R: Threads + Wait + Sync>(
    rt: &R,
    alloc: Global,
    crew: Crew<Alike>,
    team: Vec<Worker<Alike>>,
) -> Result<Option<u64>, NoMemory>
    requires { crew.out ≡ [] }
{
    let (number, ended) = thread::join(
        rt,
        move ||
            requires { crew.out ≡ [] }
        { wait_for_one(rt, crew) },
        move || run_team(rt, alloc, &FreeGate, team),
    );
    ended?;
    Ok(number)
}

/// One job, done by the workers, that the owner asks for again and again.
pub fn by_collecting<R: Threads + Wait + Sync>(
    rt: &R,
    alloc: Global,
    crew: Crew<Alike>,
    team: Vec<Worker<Alike>>,
) -> Result<Option<u64>, NoMemory>
    requires { crew.out ≡ [] }
{
    let (number, ended) = thread::join(
        rt,
        move ||
            requires { crew.out ≡ [] }
        { collect_one(rt, crew) },
        move || run_team(rt, alloc, &FreeGate, team),
    );
    ended?;
    Ok(number)
}

/// Takes a result, in whatever way there is one.
fn take_one<R: Wait>(
    rt: &R,
    alloc: Global,
    gate: &Counted,
    crew: &mut Crew<Alike>,
) -> Finished<Alike>
    requires { 1 ≤ length crew.old.out }
    ensures taken { IsTakenOff (job_of result) crew.old.out crew.new.out }
    ensures workers { crew.new.workers ≡ crew.old.workers }
{
    if let Some(finished) = crew.collect(rt) {
        return finished;
    }
    if let Some(finished) = crew.help(rt, alloc, gate) {
        return finished;
    }
    crew.wait_one(rt)
}

/// Counts the result of a job that was done.
fn note(counts: &mut Vec<u32>, finished: &Finished<Alike>) {
    if let Some(number) = number_done(finished) {
        if let Some(count) = counts.get_mut(number as usize) {
            *count = count.saturating_add(1);
        }
    }
}

/// Hands out the job of this number. Where the crew is full it returns the number of the job that came back.
pub fn hand_out<R: Wait>(rt: &R, crew: &mut Crew<Alike>, number: u64) -> Option<u64>
    requires { All (λ job. job.number < number) crew.old.out }
    ensures { All (λ job. job.number < number + 1) crew.new.out }
{
    match crew.hand_out(rt, ten_lines(number)) {
        Ok(()) => None,
        Err(back) => Some(back.number()),
    }
}

/// Takes a result where so many jobs are out, and counts it.
fn take_at<R: Wait>(
    rt: &R,
    alloc: Global,
    gate: &Counted,
    crew: &mut Crew<Alike>,
    counts: &mut Vec<u32>,
    least: u32,
    below: u64,
)
    requires least { 1 ≤ least }
    requires out { All (λ job. job.number < below) crew.old.out }
    ensures { All (λ job. job.number < below) crew.new.out }
{
    if crew.out() >= least {
        note(counts, &take_one(rt, alloc, gate, crew));
    }
}

/// Hands out jobs of the numbers below `jobs`, and counts how often the result of each comes.
fn count_results<R: Wait>(
    rt: &R,
    alloc: Global,
    gate: &Counted,
    mut crew: Crew<Alike>,
    jobs: u64,
) -> Result<Vec<u32>, NoMemory>
    requires { crew.out ≡ [] }
{
    let mut counts = Vec::new(alloc);
    let mut memory = Ok(());
    for _ in 0..jobs {
        if let Err(_) = counts.push(0) {
            memory = Err(NoMemory);
        }
    }
    for number in 0..jobs {
        take_at(rt, alloc, gate, &mut crew, &mut counts, 8, number);
        let _full = hand_out(rt, &mut crew, number);
    }
    for _ in 0..8 {
        take_at(rt, alloc, gate, &mut crew, &mut counts, 1, jobs);
    }
    crew.stop(rt);
    memory?;
    Ok(counts)
}

/// How often the result of each job came, with the workers beside the owner. Whoever does a job passes the gate.
pub fn with_workers<R: Threads + Wait + Sync>(
    rt: &R,
    alloc: Global,
    gate: &Counted,
    crew: Crew<Alike>,
    team: Vec<Worker<Alike>>,
    jobs: u64,
) -> Result<Vec<u32>, NoMemory>
    requires { crew.out ≡ [] }
{
    let (counts, ended) = thread::join(
        rt,
        move ||
            requires { crew.out ≡ [] }
        { count_results(rt, alloc, gate, crew, jobs) },
        move || run_team(rt, alloc, gate, team),
    );
    ended?;
    counts
}

/// Whether there are a thousand, and each is one.
pub fn each_once(counts: &[u32]) -> bool {
    counts.len() == 1000 && counts.iter().all(|&count| count == 1)
}
