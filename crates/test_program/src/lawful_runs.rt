//! What the laws of runs say of a run that has ended.
ghost use Rattle.std.specs.Prelude.{◌≢◌, [], IfSome};
ghost use Rattle.command_line.specs.Words.{plan_of};
ghost use Rattle.display_cli.specs.Ended.{run_of};
ghost use Rattle.display_cli.specs.RunLaws.{HasLawfulHistory};

use display_cli::{Ended, Inputs, ListSink, Sink, run, run_laws};
use display_map::{Event, Journal, Op};
use std::alloc::Global;
use std::sync::Wait;
use std::test::Fail;
use std::thread::Threads;
use test_runs::{inputs_of, strings};
use wrap_workers::{FreeGate, Gate};

/// Runs a script. Where the run began, the record after each prefix of its history is lawful, and the lines and the
/// operations of that are those of the script, in order.
fn run_lawfully<R: Threads + Wait + Sync, I: Inputs + Send, K: Sink + Send, G: Gate + Sync>(
    rt: &R,
    alloc: Global,
    words: &[String],
    inputs: &mut I,
    out: &mut K,
    gate: &G,
) -> Ended
    ensures { IfSome (plan_of words.now) (λ plan. result.history ≢ [] → HasLawfulHistory plan
        (run_of (I.state inputs.old) (I.state inputs.new) (K.state out.old) (K.state out.new) result)) }
{
    run_laws();
    run(rt, alloc, words, inputs, out, gate)
}

/// The numbers of the lines that a history has, and the starts of the ranges that it replaced, in order.
fn lines_and_starts(alloc: Global, history: &Journal) -> Result<(Vec<u64>, Vec<u32>), Fail> {
    let mut lines = Vec::new(alloc);
    let mut starts = Vec::new(alloc);
    for at in 0..history.len() {
        match history.get(at) {
            Some(Event::Line { number }) => lines.push(*number)?,
            Some(
                Event::Did {
                    op: Op::Replace(splice),
                },
            ) => starts.push(splice.start)?,
            _ => {}
        }
    }
    Ok((lines, starts))
}

/// The first line is blank and the third one is refused. An edit is done from its last range to its first.
#[test]
fn the_lines_of_a_history_are_those_of_the_script(rt: HostRuntime) -> Result<(), Fail> {
    let alloc = rt.alloc();
    let script = br#"
{"edit":[[0,1,"x"],[2,3,"y"]]}
no command
{"edit":[[1,2,""]]}
"#;
    let words = strings(alloc, &["a", "b"])?;
    let mut inputs = inputs_of(alloc, b"abc", script, &[])?;
    let mut out = ListSink::new(alloc, Vec::new(alloc));
    let ended = run_lawfully(
        &rt,
        alloc,
        words.as_slice(),
        &mut inputs,
        &mut out,
        &FreeGate,
    );
    let (lines, starts) = lines_and_starts(alloc, &ended.history)?;
    assert_eq!(rt; lines.as_slice(), [2, 3, 4].as_slice());
    assert_eq!(rt; starts.as_slice(), [2, 0, 1].as_slice());
    Ok(())
}
