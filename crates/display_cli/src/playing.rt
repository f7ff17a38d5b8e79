//! Playing a script with its watchers: what is left, and what each watcher saw.
ghost use Rattle.std.specs.Prelude.{◌≡◌, ℕ, None, Some, IfOk, vec_len};
ghost use Rattle.display_cli.specs.inside.Left.{AreBoards, AreWatchers, HasLeft, HasLeftBy, IsUnplayed, board_of, boards_of};
ghost use Rattle.display_cli.specs.inside.Opening.{EndsWatch, SeeLast, seen_by};
ghost use Rattle.script_runner.specs.Going.{IsReady};

use crate::beside::{Left, play_with};
use crate::sinks::SureSink;
use crate::summary::report;
use crate::watch::write_watched;
use board_watch::{Watched, Watcher, end_all, give_up_all, watchers};
use cell_units::NoMemory;
use command_line::Plan;
use live_display::Opened;
use script_runner::{Sink, Stop, Tally};
use std::alloc::Global;
use std::sync::Wait;
use std::thread::Threads;
use version_board::Writer;
use wrap_workers::Gate;

/// Lets the watchers of a board, if there is one, see its last version, and gives what each saw.
fn see_last(
    alloc: Global,
    writer: &mut Option<Writer>,
    team: Vec<Watcher>,
) -> Result<Vec<Watched>, NoMemory>
    requires { AreBoards (board_of writer.old) (boards_of team.items) }
    ensures count { IfOk result (λ watched. vec_len watched ≡ vec_len team) }
    ensures seen { IfOk result (λ watched. SeeLast writer.old (seen_by watched)) }
{
    match writer {
        Some(writer) => end_all(alloc, writer, team),
        None => Ok(Vec::new(alloc)),
    }
}

/// Lets the watchers of a run that came to its end see its last version and writes what each saw; of one that stopped it
/// gives what they saw so far.
pub(crate) fn end_watch<K: Sink>(
    alloc: Global,
    played: Result<Tally, Stop>,
    writer: &mut Option<Writer>,
    team: Vec<Watcher>,
    out: &mut K,
) -> (Result<Tally, Stop>, Vec<Watched>)
    requires { AreBoards (board_of writer.old) (boards_of team.items) }
    ensures { EndsWatch played writer.old (vec_len team)
        (K.state out.old) (K.state out.new) result.0 (seen_by result.1) }
{
    match played {
        Ok(tally) => match see_last(alloc, writer, team) {
            Ok(watched) => match write_watched(alloc, watched.as_slice(), out) {
                Ok(()) => (Ok(tally), watched),
                Err(stop) => (Err(stop), watched),
            },
            Err(NoMemory) => (Err(Stop::Memory), Vec::new(alloc)),
        },
        Err(stop) => (Err(stop), give_up_all(alloc, team)),
    }
}

/// Closes a board, if there is one.
pub(crate) fn close<R: Wait>(rt: &R, writer: Option<Writer>) {
    if let Some(writer) = writer {
        writer.close(rt);
    }
}

/// What is left, and the watchers, where a script was played by an opened owner.
fn play_opened<R: Threads + Wait + Sync, G: Gate + Sync, K: Sink>(
    rt: &R,
    gate: &G,
    script: &[u8],
    opened: Opened,
    out: &mut K,
) -> (Left, Vec<Watcher>)
    // The owner is ready, its journal has room, and each reader is one of its board.
    requires ready { IsReady opened.owner }
    requires unplayed { IsUnplayed opened }

    // The script is played on the same board, with its answers written, or the play stopped.
    ensures left { HasLeft script.now opened.owner (K.state out.old) (K.state out.new) result.0 }

    // The watchers look at that board, one for each reader, or fewer where the play stopped.
    ensures team { AreWatchers opened result.0 result.1 }
{
    let Opened {
        owner,
        workers,
        readers,
    } = opened;
    match watchers(owner.alloc, readers) {
        Ok(mut team) => {
            let left = play_with(rt, gate, script, owner, workers, &mut team, out);
            (left, team)
        }
        Err(NoMemory) => {
            let alloc = owner.alloc;
            let (display, writer) = owner.dismiss(rt);
            let left = Left {
                played: Err(Stop::Memory),
                display,
                writer,
            };
            (left, Vec::new(alloc))
        }
    }
}

/// The same where text and script are made: the answers go nowhere, and in place of them their summary is written.
fn play_made<R: Threads + Wait + Sync, G: Gate + Sync, K: Sink>(
    rt: &R,
    gate: &G,
    script: &[u8],
    opened: Opened,
    out: &mut K,
) -> (Left, Vec<Watcher>)
    // The owner is ready, its journal has room, and each reader is one of its board.
    requires ready { IsReady opened.owner }
    requires unplayed { IsUnplayed opened }

    // The script is played on the same board, with its summary written, or the play stopped, whatever the number.
    ensures left { (number : ℕ) → HasLeftBy (Some number) script.now opened.owner
        (K.state out.old) (K.state out.new) result.0 }

    // The watchers look at that board, one for each reader, or fewer where the play stopped.
    ensures team { AreWatchers opened result.0 result.1 }
{
    let alloc = opened.owner.alloc;
    let mut nowhere = SureSink::new();
    let (left, team) = play_opened(rt, gate, script, opened, &mut nowhere);
    let Left {
        played,
        display,
        writer,
    } = left;
    let played = report(alloc, played, &display, out);
    let left = Left {
        played,
        display,
        writer,
    };
    (left, team)
}

/// What is left, and the watchers, where the script of a plan was played.
pub(crate) fn play_plan<R: Threads + Wait + Sync, G: Gate + Sync, K: Sink>(
    rt: &R,
    gate: &G,
    plan: &Plan,
    script: &[u8],
    opened: Opened,
    out: &mut K,
) -> (Left, Vec<Watcher>)
    // The owner is ready, its journal has room, and each reader is one of its board.
    requires ready { IsReady opened.owner }
    requires unplayed { IsUnplayed opened }

    // The script is played on the same board, with its answers or their summary written, or the play stopped.
    ensures left { HasLeftBy plan.now.make script.now opened.owner
        (K.state out.old) (K.state out.new) result.0 }

    // The watchers look at that board, one for each reader, or fewer where the play stopped.
    ensures team { AreWatchers opened result.0 result.1 }
{
    match plan.make {
        Some(_) => play_made(rt, gate, script, opened, out),
        None => play_opened(rt, gate, script, opened, out),
    }
}
