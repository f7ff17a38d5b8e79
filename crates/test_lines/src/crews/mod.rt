//! Jobs whose wraps are known, done here and beside the owner.
ghost use Rattle.std.specs.Prelude.{◌≡◌, ◌≤◌, replicate};
ghost use Rattle.cell_line.specs.Worked.{line_of};
ghost use Rattle.wrap_workers.specs.Jobs.{IsLawful};

use crate::alike::Alike;
use beside::{by_collecting, by_waiting, each_once, hand_out, with_workers, without_stop};
use cell_line::{Run, line_laws};
use cell_units::NoMemory;
use counted::Counted;
use std::alloc::Global;
use std::sync::Wait;
use wrap_workers::{Crew, Finished, FreeGate, Job, Worker, crew, do_job};

mod beside;
mod counted;

/// A job on lines that are all alike.
fn job(number: u64, lines: Alike, run: Run, width: u32) -> Job<Alike>
    requires { IsLawful (replicate lines.count (line_of lines.text.now)) run width }
    ensures { result.number ≡ number }
{
    Job::new(number, lines, run, width)
}

/// A job of this number on ten lines `aaa bbb` at width 5.
fn ten_lines(number: u64) -> Job<Alike>
    ensures { result.number ≡ number }
{
    // For the proof: the cells of a line of so few bytes fit u32.
    line_laws();
    let lines = Alike {
        text: "aaa bbb",
        count: 10,
    };
    let run = Run {
        first: 0,
        count: 10,
    };
    job(number, lines, run, 5)
}

/// The number of the job, where it was done and each of its ten lines is cut at 4 alone.
fn number_done(finished: &Finished<Alike>) -> Option<u64> {
    match finished {
        Finished::Done(done) => {
            let wraps = done.wraps();
            let cut = wraps.len() == 10
                && wraps.iter().all(|cuts| cuts.as_slice() == [4].as_slice());
            if cut { Some(done.job().number()) } else { None }
        }
        Finished::Short(_) => None,
    }
}

#[test]
fn a_job_is_cut_in_each_of_its_lines(rt: HostRuntime) {
    assert_eq!(rt; number_done(&do_job(rt.alloc(), ten_lines(1))), Some(1));
}

#[test]
fn a_full_crew_hands_a_job_back_and_does_its_oldest(rt: HostRuntime) {
    match crew(rt.alloc(), 1) {
        Ok((mut crew, _team)) => {
            assert!(rt; crew.collect(&rt).is_none());
            assert!(rt; crew.help(&rt, rt.alloc(), &FreeGate).is_none());
            assert_eq!(rt; hand_out(&rt, &mut crew, 1), None);
            assert_eq!(rt; hand_out(&rt, &mut crew, 2), None);
            assert_eq!(rt; crew.out(), 2);
            assert_eq!(rt; hand_out(&rt, &mut crew, 3), Some(3));
            let gate = Counted::new();
            match crew.help(&rt, rt.alloc(), &gate) {
                Some(finished) => assert_eq!(rt; number_done(&finished), Some(1)),
                None => panic!(rt; "job 1 waits"),
            }
            assert_eq!(rt; gate.passed(), 1);
            assert_eq!(rt; crew.out(), 1);
        }
        Err(NoMemory) => panic!(rt; "out of memory"),
    }
}

#[test]
fn a_worker_in_its_own_thread_gives_the_result(rt: HostRuntime) {
    for collect in [false, true] {
        match crew(rt.alloc(), 1) {
            Ok((crew, team)) => {
                let number = if collect {
                    by_collecting(&rt, rt.alloc(), crew, team)
                } else {
                    by_waiting(&rt, rt.alloc(), crew, team)
                };
                assert_eq!(rt; number, Ok(Some(1)));
            }
            Err(NoMemory) => panic!(rt; "out of memory"),
        }
    }
}

#[test]
fn thousand_jobs_four_workers(rt: HostRuntime) {
    let gate = Counted::new();
    match crew(rt.alloc(), 4) {
        Ok((crew, team)) => match with_workers(&rt, rt.alloc(), &gate, crew, team, 1000) {
            Ok(counts) => assert!(rt; each_once(counts.as_slice())),
            Err(NoMemory) => panic!(rt; "out of memory"),
        },
        Err(NoMemory) => panic!(rt; "out of memory"),
    }
    assert_eq!(rt; gate.passed(), 1000);
}

/// The number of a waiting job that the crew does itself.
fn number_helped<R: Wait>(rt: &R, alloc: Global, crew: &mut Crew<Alike>) -> Option<u64> {
    number_done(&crew.help(rt, alloc, &FreeGate)?)
}

/// Lets the workers go before they did anything.
fn let_go(_team: Vec<Worker<Alike>>) {}

#[test]
fn a_crew_whose_workers_are_gone_does_its_jobs_itself(rt: HostRuntime) {
    match crew(rt.alloc(), 1) {
        Ok((mut crew, team)) => {
            let_go(team);
            assert_eq!(rt; hand_out(&rt, &mut crew, 1), None);
            assert_eq!(rt; hand_out(&rt, &mut crew, 2), None);
            assert!(rt; crew.collect(&rt).is_none());
            assert_eq!(rt; number_helped(&rt, rt.alloc(), &mut crew), Some(1));
            assert_eq!(rt; number_helped(&rt, rt.alloc(), &mut crew), Some(2));
            assert_eq!(rt; number_helped(&rt, rt.alloc(), &mut crew), None);
            assert_eq!(rt; crew.out(), 0);
        }
        Err(NoMemory) => panic!(rt; "out of memory"),
    }
}

#[test]
fn workers_end_where_their_crew_is_dropped_without_a_stop(rt: HostRuntime) {
    match crew(rt.alloc(), 2) {
        Ok((crew, team)) => assert_eq!(rt; without_stop(&rt, rt.alloc(), crew, team), Ok(Some(1))),
        Err(NoMemory) => panic!(rt; "out of memory"),
    }
}
