//! The top calls: what the words ask for, and the program that says how it ended.
ghost use Rattle.std.specs.Prelude.{◌≡◌, None};
ghost use Rattle.command_line.specs.Words.{plan_of};
ghost use Rattle.command_line.specs.ViewWords.{view_plan_of};
ghost use Rattle.split_cli.specs.Topped.{IsEndOfWords, IsProgram};

use crate::closed::Topped;
use crate::session::run_views;
use command_line::asks_for_views;
use display_cli::{Inputs, Sink, run, say};
use std::alloc::Global;
use std::sync::Wait;
use std::thread::Threads;
use wrap_workers::Gate;

/// Runs the script that the words name on the text that they name. Where the first word is `--views` this is a session: the
/// script is for so many views of the text, each with its own inlays, folds, blocks, tab size and width, and an edit, an undo
/// or a redo reaches all of them. Else it is a run on one display, as `run` of `display_cli` makes it. The output goes to the
/// sink, line by line.
///
/// `Topped` says how it ended, by a note and its status. Those of a session are those of `run`:
///
/// - `Fine`, status 0, or 1 where a line was refused: all was read, done and written. Each view answered what it would answer
///   alone, given its own lines and the edits, and after each line it has the text that the line of texts says;
/// - `Usage`, status 2: the words have no reading. Nothing is read or written;
/// - `ReadText`, `ReadScript`, status 3: a read failed;
/// - `Write`, status 4: a write failed, and a prefix of the output was written;
/// - `TextTooLong`, `TextNotUtf8`, `ScriptTooLong`, status 5: what was read isn't accepted, and nothing is written;
/// - `Memory`, status 6: there was no memory;
/// - `JournalFull`, status 7: some journal has no room for the next line of the script.
pub fn top<R: Threads + Wait + Sync, I: Inputs + Send, K: Sink + Send, G: Gate + Sync>(
    rt: &R,
    alloc: Global,
    words: &[String],
    inputs: &mut I,
    out: &mut K,
    gate: &G,
) -> Topped
    // What it is by its note, which reads it made, and which notes were owed.
    ensures end { IsEndOfWords words.now (I.state inputs.old) (I.state inputs.new)
        (K.state out.old) (K.state out.new) result }

    // Words without any reading leave the outside as it is.
    ensures untouched { plan_of words.now ≡ None → view_plan_of words.now ≡ None
        → (inputs.new ≡ inputs.old) × (out.new ≡ out.old) }
{
    if asks_for_views(words) {
        Topped::Session(run_views(alloc, words, inputs, out))
    } else {
        Topped::Plain(run(rt, alloc, words, inputs, out, gate))
    }
}

/// Runs the program on its words, says on `err` in one line why it ended before its script did, and returns the status, as
/// `top` gives it: 0 or 1 where all was done, and 2 to 7 else. Where `err` fails too, there is nobody to tell.
pub fn program<R: Threads + Wait + Sync, I: Inputs + Send, K: Sink + Send, E: Sink, G: Gate + Sync>(
    rt: &R,
    alloc: Global,
    words: &[String],
    inputs: &mut I,
    out: &mut K,
    err: &mut E,
    gate: &G,
) -> u8
    ensures { IsProgram words.now (I.state inputs.old) (I.state inputs.new)
        (K.state out.old) (K.state out.new) (E.state err.old) (E.state err.new) result }
{
    let topped = top(rt, alloc, words, inputs, out, gate);
    let note = topped.note();
    let _ = say(&note, err);
    topped.status()
}
