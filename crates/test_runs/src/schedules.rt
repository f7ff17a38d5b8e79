//! Runs beside workers and watchers: what they answer is the same for any number of them, and under schedules that a seed
//! chooses.
use crate::runs::{Outcome, Session, run_words};
use board_watch::Watched;
use cell_units::NoMemory;
use display_cli::Ended;
use display_map::{Event, Journal};
use std::alloc::Global;
use std::process::Abort;
use std::sync::Wait;
use std::sync::atomic::{AtomicU64, Ordering};
use std::test::Fail;
use std::thread::Threads;
use wrap_workers::{FreeGate, Gate};

/// How many schedules are tried, each by a run. More find more, and take longer.
const SEEDS: u64 = 500;

/// How often one that is held looks whether others have passed, at most. It doesn't yield: beside other work that can take
/// long.
const TURNS: u32 = 4096;

/// Holds each job and each watcher that passes until up to three others have passed, and not for long. How many is chosen by
/// a seed.
#[derive(Drop)]
struct Seeded {
    seed: u64,
    passed: AtomicU64,
}

impl Seeded {
    fn new(seed: u64) -> Seeded {
        Seeded {
            seed,
            passed: AtomicU64::new(0),
        }
    }

    /// How many others the one of this number waits for.
    fn others(&self, number: u64) -> u64 {
        let mixed = self.seed.wrapping_mul(0x9e37_79b9_7f4a_7c15) ^ number;
        mixed.wrapping_mul(0xbf58_476d_1ce4_e5b9) >> 62
    }

    fn hold(&self, number: u64) {
        let others = self.others(number);
        let before = self.passed.fetch_add(1, Ordering::SeqCst);
        for _ in 0..TURNS {
            let passed = self.passed.load(Ordering::SeqCst);
            if passed.wrapping_sub(before) > others {
                return;
            }
        }
    }
}

impl Gate for Seeded {
    fn pass(&self, job: u64) {
        self.hold(job);
    }

    fn seen(&self, reader: u32, version: u64) {
        self.hold(version.wrapping_mul(16) ^ u64::from(reader));
    }
}

/// The number of the newest version of a history, whose first event is version 0.
fn newest(history: &Journal) -> usize {
    (1..history.len())
        .filter(|i| matches!(history.get(*i), Some(Event::Published { .. })))
        .count()
}

/// The lines of what watchers saw.
fn watch_lines(alloc: Global, watched: &[Watched]) -> Result<String, NoMemory> {
    let mut lines = String::new(alloc);
    for (reader, watched) in watched.iter().enumerate() {
        for seen in &watched.seen {
            let line = format!(in alloc; "watch {reader} {} {}\n", seen.version, seen.rows)?;
            lines.push_str(line.as_str())?;
        }
    }
    Ok(lines)
}

/// Asserts that so many watchers saw the newest version last, with so many rows.
fn assert_watched(rt: &impl Abort, ended: &Ended, watchers: usize, rows: u32) {
    assert_eq!(rt; ended.watched.len(), watchers);
    let version = newest(&ended.history) as u64;
    for watched in &ended.watched {
        let last = watched.seen.last().map(|seen| (seen.version, seen.rows));
        assert_eq!(rt; last, Some((version, rows)));
    }
}

/// Asserts that a run wrote these answers and behind them the lines of what its watchers saw, and nothing else.
fn assert_written(
    rt: &impl Abort,
    alloc: Global,
    outcome: &Outcome,
    answers: &[u8],
) -> Result<(), NoMemory> {
    let lines = watch_lines(alloc, outcome.ended.watched.as_slice())?;
    let mut written = Vec::from_slice(alloc, answers)?;
    written.extend_from_slice(lines.as_bytes())?;
    assert_eq!(rt; outcome.out.taken(), written.as_slice());
    Ok(())
}

/// Runs a script on a text with so many workers and watchers. Asserts that it is answered by this, that a line is refused or
/// none, and that each watcher saw the newest version last, with so many rows.
pub(crate) fn assert_run<R: Abort + Threads + Wait + Sync, G: Gate + Sync>(
    rt: &R,
    alloc: Global,
    (workers, watchers): (u32, u32),
    gate: &G,
    session: &Session,
    rows: u32,
) -> Result<(), NoMemory> {
    let workers = format!(in alloc; "{workers}")?;
    let shown = format!(in alloc; "{watchers}")?;
    let words = [
        "a",
        "b",
        "--workers",
        workers.as_str(),
        "--watch",
        shown.as_str(),
    ];
    let text = session.text.as_bytes();
    let outcome = run_words(rt, alloc, &words, text, session.script.as_bytes(), gate)?;
    let refused = session.written.starts_with("! ") || session.written.contains("\n! ");
    assert_eq!(rt; outcome.ended.status, u8::from(refused));
    assert_watched(rt, &outcome.ended, watchers as usize, rows);
    assert_written(rt, alloc, &outcome, session.written.as_bytes())
}

/// Three hundred lines.
fn lines(alloc: Global) -> Result<String, NoMemory> {
    let mut text = String::new(alloc);
    for _ in 0..299u32 {
        text.push_str("\tone two\n")?;
    }
    text.push_str("\tone two")?;
    Ok(text)
}

/// Each key of the script at least once. What is peeked at is settled, and nothing was changed before it.
const EACH_KEY: &str = r#"{"settle":true}
{"peek":[299,2]}
{"width":10}
{"inlay":[1,5,"right",": i32"]}
{"fold":[1,20,40]}
{"block":[1,"above",5,["-- one","-- two"]]}
{"edit":[[1,4,"three"],[100,101,""]]}
{"display":[60,"left"]}
{"inlay":[2,70,"left","a b"]}
{"tab":8}
{"buffer":[9,3,"right"]}
{"clip":[12,30,"left"]}
{"fold":[2,80,90]}
{"edit":[[200,205,"four\nfive"]]}
{"uninlay":1}
{"unfold":1}
{"width":16}
{"unblock":1}
{"edit":[[0,0,"z"],[3,3," "]]}
{"fold":[1,0,9000000]}
{"rows":[0,12]}
{"rows":[290,40]}
"#;

/// How many rows there are in the end: a line more than at first, two lines in one fold, and two lines of two rows.
const ROWS_LEFT: u32 = 302;

/// What the script with each key writes with one worker and no watcher.
fn alone<R: Threads + Wait + Sync>(rt: &R, alloc: Global, text: &str) -> Result<String, Fail> {
    let outcome = run_words(
        rt,
        alloc,
        &["a", "b"],
        text.as_bytes(),
        EACH_KEY.as_bytes(),
        &FreeGate,
    )?;
    let taken = str::from_utf8(outcome.out.taken()).unwrap_or("");
    Ok(String::from_str(alloc, taken)?)
}

/// How many workers and watchers the run of this seed has.
fn team(seed: u64) -> (u32, u32) {
    let watchers = (seed % 3) as u32;
    match seed % 5 {
        0 => (1, watchers),
        1 => (2, watchers),
        2 => (3, watchers),
        3 => (8, watchers),
        _ => (16, watchers),
    }
}

#[test]
fn a_script_is_answered_alike_under_all_schedules(rt: HostRuntime) -> Result<(), Fail> {
    let alloc = rt.alloc();
    let text = lines(alloc)?;
    let written = alone(&rt, alloc, text.as_str())?;
    assert!(rt; written.starts_with("version 3 marks 0-299@80\n299 t|    one two\n"));
    let session = Session {
        shows: "what one worker answers",
        text: text.as_str(),
        script: EACH_KEY,
        written: written.as_str(),
    };
    for seed in 0..SEEDS {
        assert_run(
            &rt,
            alloc,
            team(seed),
            &Seeded::new(seed),
            &session,
            ROWS_LEFT,
        )?;
    }
    Ok(())
}
