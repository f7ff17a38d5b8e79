//! Sessions, each of them run with some numbers of workers.
use cell_units::NoMemory;
use std::alloc::Global;
use std::process::Abort;
use std::sync::Wait;
use std::thread::Threads;
use test_runs::{Outcome, Session, run_words};
use wrap_workers::FreeGate;

/// Asserts that a run wrote what the session writes, and that its status says whether a line is refused.
fn assert_session(rt: &impl Abort, outcome: &Outcome, session: &Session) {
    let Session { shows, written, .. } = *session;
    assert_eq!(rt; outcome.out.taken(), written.as_bytes(), "{shows}");
    let refused = written.starts_with("! ") || written.contains("\n! ");
    assert_eq!(rt; outcome.ended.status, u8::from(refused), "{shows}");
}

/// Runs each session with 1, 2 and 8 workers, and compares what is written, and whether a line is refused.
pub(crate) fn expect<R: Abort + Threads + Wait + Sync>(
    rt: &R,
    alloc: Global,
    sessions: &[Session],
) -> Result<(), NoMemory> {
    for session in sessions {
        let (text, script) = (session.text.as_bytes(), session.script.as_bytes());
        for workers in ["1", "2", "8"] {
            let words = ["a", "b", "--workers", workers];
            let outcome = run_words(rt, alloc, &words, text, script, &FreeGate)?;
            assert_session(rt, &outcome, session);
        }
    }
    Ok(())
}
