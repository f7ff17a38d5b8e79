//! Faults of the outside, one after the other, beside workers and watchers: the status is the one that is owed, what was
//! written is a front of the output, and each run ends.
ghost use Rattle.std.specs.Prelude.{◌≡◌};

use cell_units::NoMemory;
use display_cli::{Failed, Note, Sink};
use std::alloc::Global;
use std::process::Abort;
use std::sync::Wait;
use std::test::Fail;
use std::thread::Threads;
use test_runs::{Outcome, inputs_of, run_failing, run_on};
use wrap_workers::FreeGate;

/// The words of a run with two workers and two watchers.
const WORDS: [&str; 6] = ["a", "b", "--workers", "2", "--watch", "2"];

/// A line of the text.
const LINE: &str = "a b c d\n";

/// A script of which a line is refused.
const SCRIPT: &[u8] = br#"{"width":5}
{"edit":[[0,0,"c "]]}
{"rows":[0,2]}
{"fold":[1,0,9000000]}
{"display":[1,"left"]}
{"buffer":[0,1,"right"]}
"#;

/// What the script writes, line by line.
const LINES: [&str; 5] = ["0 t|c a b \n", "1 w|c d\n", "! 2\n", "0 1\n", "1\n"];

/// The first lines that the script writes, so many.
fn front(alloc: Global, count: usize) -> Result<String, NoMemory> {
    let mut front = String::new(alloc);
    for line in LINES.iter().take(count) {
        front.push_str(line)?;
    }
    Ok(front)
}

/// Runs the script on a text, where the reads and writes of some numbers fail.
fn play<R: Threads + Wait + Sync>(
    rt: &R,
    alloc: Global,
    text: &str,
    reads: &[u64],
    writes: &[u64],
) -> Result<Outcome, NoMemory> {
    run_failing(
        rt,
        alloc,
        &WORDS,
        text.as_bytes(),
        SCRIPT,
        reads,
        writes,
        &FreeGate,
    )
}

#[test]
fn each_read_may_fail(rt: HostRuntime) -> Result<(), Fail> {
    let alloc = rt.alloc();
    // The text is read by three reads, two of its bytes and one of its end, and the script by two.
    let text = LINE.repeat(alloc, 10_000)?;
    for (read, note) in [
        (1, Note::ReadText),
        (2, Note::ReadText),
        (3, Note::ReadText),
        (4, Note::ReadScript),
        (5, Note::ReadScript),
    ] {
        let outcome = play(&rt, alloc, text.as_str(), &[read], &[])?;
        assert_eq!(rt; outcome.end(), (note, 3, b"".as_slice()));
        assert!(rt; outcome.ended.watched.is_empty());
    }
    let outcome = play(&rt, alloc, text.as_str(), &[6], &[])?;
    assert_eq!(rt; (outcome.ended.note, outcome.ended.status), (Note::Fine, 1));
    Ok(())
}

/// Asserts that a run whose write failed had written this, and gives what each watcher saw so far.
fn assert_unwritten(rt: &impl Abort, outcome: &Outcome, written: &[u8]) {
    assert_eq!(rt; outcome.end(), (Note::Write, 4, written));
    assert_eq!(rt; outcome.ended.watched.len(), 2);
}

/// Asserts that a run whose first watch line was written stopped at the next one.
fn assert_watch_cut(rt: &impl Abort, outcome: &Outcome, before: &[u8]) {
    assert_eq!(rt;
        (outcome.ended.note, outcome.ended.status),
        (Note::Write, 4)
    );
    assert!(rt; outcome.out.taken().starts_with(before));
}

#[test]
fn each_write_may_fail(rt: HostRuntime) -> Result<(), Fail> {
    let alloc = rt.alloc();
    // Each line is one write, and behind those of the script each watcher has one at least.
    for (write, whole) in [(1, 0), (2, 1), (3, 2), (4, 3), (5, 4), (6, 5)] {
        let outcome = play(&rt, alloc, LINE, &[], &[write])?;
        assert_unwritten(&rt, &outcome, front(alloc, whole)?.as_bytes());
    }
    let outcome = play(&rt, alloc, LINE, &[], &[7])?;
    let before = format!(in alloc; "{}watch 0 ", front(alloc, 5)?)?;
    assert_watch_cut(&rt, &outcome, before.as_bytes());
    Ok(())
}

/// A sink that takes one byte at a time, and from some byte on nothing. It tells nothing.
#[derive(Drop)]
struct Sips {
    taken: Vec<u8>,
    left: usize,
    faults: u64,
}

impl Sips {
    /// Takes the byte, if there is room for it.
    fn takes(&mut self, byte: u8) -> bool
        ensures { self.new.faults ≡ self.old.faults }
    {
        if self.left == 0 || self.taken.push(byte).is_err() {
            return false;
        }
        self.left -= 1;
        true
    }
}

impl Sink for Sips {
    ghost use Rattle.std.specs.Prelude.{None};

    ghost state = { λ s. record { taken = None; faults = s.faults } };

    fn write(&mut self, piece: &[u8]) -> Result<usize, Failed> {
        match piece.first() {
            None => Ok(0),
            Some(byte) if self.takes(*byte) => Ok(1),
            Some(_) => {
                self.faults = self.faults.saturating_add(1);
                Err(Failed)
            }
        }
    }
}

/// Runs the script into a sink that takes so many bytes, one at a time. Answers its status, and what was written.
fn sipped<R: Threads + Wait + Sync>(
    rt: &R,
    alloc: Global,
    left: usize,
) -> Result<(u8, Vec<u8>), NoMemory> {
    let mut inputs = inputs_of(alloc, LINE.as_bytes(), SCRIPT, &[])?;
    let mut out = Sips {
        taken: Vec::new(alloc),
        left,
        faults: 0,
    };
    let words = ["a", "b", "--workers", "2"];
    let status = run_on(rt, alloc, &words, &mut inputs, &mut out, &FreeGate)?.status;
    let Sips { taken, .. } = out;
    Ok((status, taken))
}

/// Asserts that a sink with room for so many bytes took the first of what is written, and that the run stopped where it
/// wasn't all.
fn assert_sipped(rt: &impl Abort, status: u8, taken: &[u8], left: usize, written: &[u8]) {
    assert_eq!(rt; status, if left == written.len() { 1 } else { 4 });
    assert_eq!(rt; taken.len(), left);
    assert!(rt; written.starts_with(taken));
}

#[test]
fn a_sink_may_take_one_byte_at_a_time_and_fail_behind_each(rt: HostRuntime) -> Result<(), Fail> {
    let alloc = rt.alloc();
    let written = front(alloc, 5)?;
    for left in 0..=written.len() {
        let (status, taken) = sipped(&rt, alloc, left)?;
        assert_sipped(&rt, status, taken.as_slice(), left, written.as_bytes());
    }
    Ok(())
}
