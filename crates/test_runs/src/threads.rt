//! Runs whose workers and watchers do their part beside the owner.
ghost use Rattle.std.specs.Prelude.{◌≡◌};

use crate::runs::{Outcome, inputs_of, run_failing, run_on, run_words};
use cell_units::NoMemory;
use display_cli::{Failed, Note, Sink};
use std::alloc::Global;
use std::process::Abort;
use std::sync::atomic::{AtomicU64, Ordering};
use std::test::Fail;
use std::thread;
use wrap_workers::{FreeGate, Gate};

/// How often one that is held looks whether it may go on, at most.
const TURNS: u32 = 10_000_000;

/// Holds whoever does job 1 until it is let go.
#[derive(Drop)]
struct Holding {
    is_let_go: AtomicU64,
    ran_out: AtomicU64,
}

impl Holding {
    fn new() -> Holding {
        Holding {
            is_let_go: AtomicU64::new(0),
            ran_out: AtomicU64::new(0),
        }
    }

    fn let_go(&self) {
        self.is_let_go.store(1, Ordering::SeqCst);
    }

    fn hold(&self) {
        for _ in 0..TURNS {
            if self.is_let_go.load(Ordering::SeqCst) != 0 {
                return;
            }
            thread::yield_now();
        }
        self.ran_out.store(1, Ordering::SeqCst);
    }

    fn has_run_out(&self) -> bool {
        self.ran_out.load(Ordering::SeqCst) != 0
    }
}

/// Holds job 1 until job 2 has passed.
#[derive(Drop)]
struct UntilSecondJob(Holding);

impl Gate for UntilSecondJob {
    fn pass(&self, job: u64) {
        match job {
            1 => self.0.hold(),
            _ => self.0.let_go(),
        }
    }

    fn seen(&self, _reader: u32, _version: u64) {}
}

/// Holds job 1 until a watcher has told of version 1 or a later one.
#[derive(Drop)]
struct UntilNextVersion(Holding);

impl Gate for UntilNextVersion {
    fn pass(&self, job: u64) {
        if job == 1 {
            self.0.hold();
        }
    }

    fn seen(&self, _reader: u32, version: u64) {
        if version >= 1 {
            self.0.let_go();
        }
    }
}

/// Holds each of two watchers until the other one has told of a version.
#[derive(Drop)]
struct UntilBothSee {
    first: Holding,
    second: Holding,
}

impl Gate for UntilBothSee {
    fn pass(&self, _job: u64) {}

    fn seen(&self, reader: u32, _version: u64) {
        let (own, other) = match reader {
            0 => (&self.first, &self.second),
            _ => (&self.second, &self.first),
        };
        own.let_go();
        other.hold();
    }
}

/// Holds job 2 until a second answer is written, and the first answer until job 2 passes. A worker that is alone has then
/// handed on the result of job 1.
#[derive(Drop)]
struct BetweenAnswers {
    second_job: Holding,
    second_answer: Holding,
}

impl Gate for BetweenAnswers {
    fn pass(&self, job: u64) {
        if job == 2 {
            self.second_job.let_go();
            self.second_answer.hold();
        }
    }

    fn seen(&self, _reader: u32, _version: u64) {}
}

/// A sink at such a gate. It tells nothing.
#[derive(Drop)]
struct HeldSink<'a> {
    gate: &'a BetweenAnswers,
    taken: Vec<u8>,
    faults: u64,
}

impl HeldSink<'_> {
    /// Is held at the first answer, and lets job 2 go at the second.
    fn pass(&self) {
        if self.taken.is_empty() {
            self.gate.second_job.hold();
        } else {
            self.gate.second_answer.let_go();
        }
    }

    /// Takes a piece, where there is memory.
    fn takes(&mut self, piece: &[u8]) -> bool
        ensures { self.new.faults ≡ self.old.faults }
    {
        self.taken.extend_from_slice(piece).is_ok()
    }
}

impl Sink for HeldSink<'_> {
    ghost use Rattle.std.specs.Prelude.{None};

    ghost state = { λ s. record { taken = None; faults = s.faults } };

    fn write(&mut self, piece: &[u8]) -> Result<usize, Failed> {
        self.pass();
        if self.takes(piece) {
            return Ok(piece.len());
        }
        self.faults = self.faults.saturating_add(1);
        Err(Failed)
    }
}

/// So many lines of one letter.
fn letters(alloc: Global, lines: u32) -> Result<Vec<u8>, NoMemory> {
    let mut text = Vec::new(alloc);
    for _ in 1..lines {
        text.extend_from_slice(b"x\n")?;
    }
    text.push(b'x')?;
    Ok(text)
}

/// Asserts that nobody was held for too long.
fn assert_met(rt: &impl Abort, holdings: &[&Holding]) {
    for holding in holdings {
        assert!(rt; !holding.has_run_out());
    }
}

#[test]
fn two_jobs_are_done_at_once_by_two_workers(rt: HostRuntime) -> Result<(), Fail> {
    let alloc = rt.alloc();
    let text = letters(alloc, 256)?;
    let gate = UntilSecondJob(Holding::new());
    let words = ["a", "b", "--workers", "2"];
    let script = br#"{"settle":true}"#;
    let outcome = run_words(&rt, alloc, &words, text.as_slice(), script, &gate)?;
    assert_eq!(rt; outcome.end(), (Note::Fine, 0, b"".as_slice()));
    assert_met(&rt, &[&gate.0]);
    // `Published`, two `Sent`, two `Landed` with a `Published` each, `Line` and the last `Published`.
    assert_eq!(rt; outcome.ended.history.len(), 9);
    Ok(())
}

/// Asserts that a run ended with this status, and first wrote this.
fn assert_begins(rt: &impl Abort, outcome: &Outcome, status: u8, written: &[u8]) {
    assert_eq!(rt; outcome.ended.status, status);
    assert!(rt; outcome.out.taken().starts_with(written));
}

#[test]
fn an_edit_is_done_and_seen_before_a_result_comes(rt: HostRuntime) -> Result<(), Fail> {
    let gate = UntilNextVersion(Holding::new());
    let words = ["a", "b", "--workers", "1", "--watch", "1"];
    let script = br#"{"edit":[[0,0,"x"]]}
{"rows":[0,1]}"#;
    let outcome = run_words(&rt, rt.alloc(), &words, b"abc", script, &gate)?;
    assert_begins(&rt, &outcome, 0, b"0 t|xabc\nwatch 0 ");
    assert_met(&rt, &[&gate.0]);
    Ok(())
}

#[test]
fn a_refused_query_waits_for_no_result(rt: HostRuntime) -> Result<(), Fail> {
    let gate = UntilNextVersion(Holding::new());
    let words = ["a", "b", "--workers", "1", "--watch", "1"];
    let script = br#"{"display":[9,"left"]}
{"edit":[[0,0,"x"]]}
{"rows":[0,1]}"#;
    let outcome = run_words(&rt, rt.alloc(), &words, b"abc", script, &gate)?;
    assert_begins(&rt, &outcome, 1, b"! 2\n0 t|xabc\nwatch 0 ");
    assert_met(&rt, &[&gate.0]);
    Ok(())
}

#[test]
fn a_result_that_is_there_lands_before_the_next_line(rt: HostRuntime) -> Result<(), Fail> {
    let alloc = rt.alloc();
    let gate = BetweenAnswers {
        second_job: Holding::new(),
        second_answer: Holding::new(),
    };
    let script = br#"{"peek":[0,0]}
{"peek":[0,0]}"#;
    let mut inputs = inputs_of(alloc, letters(alloc, 256)?.as_slice(), script, &[])?;
    let mut out = HeldSink {
        gate: &gate,
        taken: Vec::new(alloc),
        faults: 0,
    };
    let words = ["a", "b", "--workers", "1"];
    let status = run_on(&rt, alloc, &words, &mut inputs, &mut out, &gate)?.status;
    assert_eq!(rt; status, 0);
    let written = b"version 0 marks\nversion 1 marks 0-127@80\n";
    assert_eq!(rt; out.taken.as_slice(), written.as_slice());
    assert_met(&rt, &[&gate.second_job, &gate.second_answer]);
    Ok(())
}

/// Asserts that two watchers saw the last version last. The job's version is version 1, and the last is version 2.
fn assert_last_seen(rt: &impl Abort, outcome: &Outcome) {
    assert_eq!(rt; outcome.ended.watched.len(), 2);
    for watched in &outcome.ended.watched {
        let last = watched.seen.last().map(|seen| (seen.version, seen.rows));
        assert_eq!(rt; last, Some((2, 3)));
    }
    assert!(rt; outcome.out.taken().ends_with(b"watch 1 2 3\n"));
}

#[test]
fn each_watcher_sees_the_last_version(rt: HostRuntime) -> Result<(), Fail> {
    let words = ["a", "b", "--watch", "2"];
    let script = br#"{"rows":[0,1]}"#;
    let outcome = run_words(&rt, rt.alloc(), &words, b"a\nb\nc", script, &FreeGate)?;
    assert_begins(&rt, &outcome, 0, b"0 t|a\nwatch 0 ");
    assert_last_seen(&rt, &outcome);
    Ok(())
}

#[test]
fn two_watchers_look_beside_each_other(rt: HostRuntime) -> Result<(), Fail> {
    let gate = UntilBothSee {
        first: Holding::new(),
        second: Holding::new(),
    };
    let words = ["a", "b", "--watch", "2"];
    let status = run_words(&rt, rt.alloc(), &words, b"a", b"", &gate)?
        .ended
        .status;
    assert_eq!(rt; status, 0);
    assert_met(&rt, &[&gate.first, &gate.second]);
    Ok(())
}

#[test]
fn a_watch_line_that_cannot_be_written_ends_the_run(rt: HostRuntime) -> Result<(), Fail> {
    let words = ["a", "b", "--watch", "1"];
    let script = br#"{"rows":[0,1]}"#;
    let outcome = run_failing(&rt, rt.alloc(), &words, b"a", script, &[], &[2], &FreeGate)?;
    assert_eq!(rt; outcome.end(), (Note::Write, 4, b"0 t|a\n".as_slice()));
    assert_eq!(rt; outcome.ended.watched.len(), 1);
    Ok(())
}
