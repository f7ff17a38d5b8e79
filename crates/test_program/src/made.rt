//! Runs whose text and script are made from a number.
use cell_units::NoMemory;
use display_cli::Note;
use std::alloc::Global;
use std::process::Abort;
use std::sync::Wait;
use std::test::Fail;
use std::thread::Threads;
use test_runs::{Outcome, run_words};
use wrap_workers::FreeGate;

/// The line of number 7, as a program of plain lists gives it by the same rules.
const SEVEN: &[u8] =
    b"made lines 19944 bytes 1170442 accepted 400 refused 0 answers 250 rows 36993\n";

/// Runs what is made from 7 with so many workers, and compares what is written.
fn expect_seven<R: Abort + Threads + Wait + Sync>(
    rt: &R,
    alloc: Global,
    workers: &str,
) -> Result<(), NoMemory> {
    let words = ["--make", "7", "--workers", workers];
    let outcome = run_words(rt, alloc, &words, b"", b"", &FreeGate)?;
    assert_eq!(rt; outcome.end(), (Note::Fine, 0, SEVEN));
    Ok(())
}

#[test]
fn a_made_run_with_one_worker_writes_its_line(rt: HostRuntime) -> Result<(), Fail> {
    expect_seven(&rt, rt.alloc(), "1")?;
    Ok(())
}

#[test]
fn a_made_run_with_two_workers_writes_the_same_line(rt: HostRuntime) -> Result<(), Fail> {
    expect_seven(&rt, rt.alloc(), "2")?;
    Ok(())
}

#[test]
fn a_made_run_with_eight_workers_writes_the_same_line(rt: HostRuntime) -> Result<(), Fail> {
    expect_seven(&rt, rt.alloc(), "8")?;
    Ok(())
}

/// Asserts that a run of number 7 wrote its line, and then what its watcher saw: the last version last, with all the rows that
/// the line names.
fn assert_watched(rt: &impl Abort, outcome: &Outcome) {
    assert_eq!(rt; outcome.ended.status, 0);
    assert!(rt; outcome.out.taken().starts_with(SEVEN));
    assert!(rt; outcome.out.taken().ends_with(b" 36993\n"));
    assert_eq!(rt; outcome.ended.watched.len(), 1);
    for watched in &outcome.ended.watched {
        assert_eq!(rt; watched.seen.last().map(|seen| seen.rows), Some(36_993));
    }
}

#[test]
fn watch_lines_stand_behind_the_line_of_a_made_run(rt: HostRuntime) -> Result<(), Fail> {
    let words = ["--make", "7", "--watch", "1"];
    let outcome = run_words(&rt, rt.alloc(), &words, b"", b"", &FreeGate)?;
    assert_watched(&rt, &outcome);
    Ok(())
}
