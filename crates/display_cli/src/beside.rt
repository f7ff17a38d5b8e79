//! A script beside the workers and the watchers, each in a thread of its own.
ghost use Rattle.std.specs.Prelude.{◌≡◌, None, []};
ghost use Rattle.display_cli.specs.inside.Left.{HasLeft, IsReadyAt, Leaves, boards_of};
ghost use Rattle.script_runner.specs.Going.{IsReady};

use board_watch::{Watcher, watch_all};
use display_map::{Display, Held};
use edit_script::Form;
use live_display::Owner;
use script_runner::{Runner, Sink, Stop, Tally};
use std::alloc::Global;
use std::sync::Wait;
use std::sync::atomic::{AtomicU64, Ordering};
use std::thread::Threads;
use std::{mem, thread};
use version_board::Writer;
use wrap_workers::{Gate, Worker};

/// What is left where a script was played: how that ended, the display, and the writer of its board, if there is one, which
/// is to be closed.
pub(crate) struct Left {
    pub(crate) played: Result<Tally, Stop>,
    pub(crate) display: Display,
    pub(crate) writer: Option<Writer>,
}

/// Gives a sink back as it is.
fn give_back<K>(out: &mut K)
    ensures { out.new ≡ out.old }
{}

/// Plays a script, raises the flag and sends the workers home.
fn play<R: Wait, G: Gate, K: Sink>(
    rt: &R,
    gate: &G,
    script: &[u8],
    owner: Owner,
    out: &mut K,
    flag: &AtomicU64,
) -> Left
    requires { IsReady owner }
    ensures { HasLeft script.now owner (K.state out.old) (K.state out.new) result }
{
    let mut runner = Runner {
        rt,
        gate,
        form: Form::First,
        owner,
        out,
    };
    let played = runner.play(script);
    let Runner {
        rt: _rt,
        gate: _gate,
        form: _form,
        owner,
        out,
    } = runner;
    // For the proof: the sink is as the runner left it.
    give_back(out);
    flag.store(1, Ordering::SeqCst);
    let (display, writer) = owner.dismiss(rt);
    Left {
        played,
        display,
        writer,
    }
}

/// The same with the owner of a slot, which is empty then.
fn play_taken<R: Wait, G: Gate, K: Sink>(
    rt: &R,
    gate: &G,
    script: &[u8],
    slot: &mut Option<Owner>,
    out: &mut K,
    flag: &AtomicU64,
) -> Option<Left>
    requires { IsReadyAt slot.old }
    ensures left { Leaves script.now slot.old (K.state out.old) (K.state out.new) result }
    ensures empty { slot.new ≡ None }
{
    match slot.take() {
        Some(owner) => Some(play(rt, gate, script, owner, out, flag)),
        None => None,
    }
}

/// Takes the workers of a team and lets them work, each in a thread of its own. Where there is no memory for that, none works.
fn work_all<R: Threads + Wait + Sync, G: Gate + Sync>(
    rt: &R,
    alloc: Global,
    gate: &G,
    workers: &mut Vec<Worker<Held>>,
)
    ensures { workers.new.items ≡ [] }
{
    let workers = mem::replace(workers, Vec::new(alloc));
    let _ended = thread::map_vec(
        rt,
        workers,
        &|worker: Worker<Held>| worker.work(rt, alloc, gate),
    );
}

/// The workers work and the watchers look.
fn accompany<R: Threads + Wait + Sync, G: Gate + Sync>(
    rt: &R,
    alloc: Global,
    gate: &G,
    workers: &mut Vec<Worker<Held>>,
    watchers: &mut Vec<Watcher>,
    flag: &AtomicU64,
)
    ensures workers { workers.new.items ≡ [] }
    ensures team { boards_of watchers.new.items ≡ boards_of watchers.old.items }
{
    thread::join_mut(
        rt,
        &mut ||
            ensures { workers.exit.now.items ≡ [] }
        { work_all(rt, alloc, gate, workers) },
        &mut ||
            ensures { boards_of watchers.exit.now.items ≡ boards_of watchers.entry.now.items }
        { watch_all(rt, gate, watchers, flag) },
    );
}

/// Plays a script with the owner of a slot, beside the workers and the watchers. The owner is in this thread, so all ends
/// also where no other can be made: the workers then find that they may go home, and the watchers that the flag is raised.
fn play_beside<R: Threads + Wait + Sync, G: Gate + Sync, K: Sink>(
    rt: &R,
    alloc: Global,
    gate: &G,
    script: &[u8],
    slot: &mut Option<Owner>,
    workers: &mut Vec<Worker<Held>>,
    watchers: &mut Vec<Watcher>,
    out: &mut K,
) -> Option<Left>
    requires { IsReadyAt slot.old }
    ensures left { Leaves script.now slot.old (K.state out.old) (K.state out.new) result }
    ensures empty { slot.new ≡ None }
    ensures workers { workers.new.items ≡ [] }
    ensures team { boards_of watchers.new.items ≡ boards_of watchers.old.items }
{
    let flag = AtomicU64::new(0);
    let ((), left) = thread::join_mut(
        rt,
        &mut ||
            ensures workers { workers.exit.now.items ≡ [] }
            ensures team { boards_of watchers.exit.now.items ≡ boards_of watchers.entry.now.items }
        { accompany(rt, alloc, gate, workers, watchers, &flag) },
        &mut || -> Option<Left>
            requires { IsReadyAt slot.now }
            ensures left { Leaves script.entry.now slot.entry.now
                (K.state out.entry.now) (K.state out.exit.now) result }
            ensures empty { slot.exit.now ≡ None }
        { play_taken(rt, gate, script, slot, out, &flag) },
    );
    left
}

/// Plays a script beside the workers and the watchers.
pub(crate) fn play_with<R: Threads + Wait + Sync, G: Gate + Sync, K: Sink>(
    rt: &R,
    gate: &G,
    script: &[u8],
    owner: Owner,
    workers: Vec<Worker<Held>>,
    watchers: &mut Vec<Watcher>,
    out: &mut K,
) -> Left
    requires { IsReady owner }
    ensures left { HasLeft script.now owner (K.state out.old) (K.state out.new) result }
    ensures team { boards_of watchers.new.items ≡ boards_of watchers.old.items }
{
    let alloc = owner.alloc;
    let mut slot = Some(owner);
    let mut workers = workers;
    let left = play_beside(
        rt,
        alloc,
        gate,
        script,
        &mut slot,
        &mut workers,
        watchers,
        out,
    );
    match (left, slot) {
        (Some(left), None) => left,
        _ => unreachable!(),
    }
}
