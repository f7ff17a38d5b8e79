//! Watchers, and teams of them.
ghost use Rattle.std.specs.Prelude.{◌≡◌, ◌≤◌, ◌-◌, ◌^◌, min, true, [], All, map, take, IfOk, OnErr, vec_len};
ghost use Rattle.std.specs.List.{AllZip};
ghost use mathlib.Core.List.{IsPrefix};
ghost use Rattle.display_map.specs.Replay.{ends};
ghost use Rattle.version_board.specs.Known.{GoesOn};
ghost use Rattle.board_watch.specs.Watching.{AreRising, Gives, HasKept, IsSeenOf, IsWatched, WatchesOn};

use crate::seen::{Seen, Watched};
use cell_units::NoMemory;
use std::alloc::Global;
use std::marker::Model;
use std::sync::Wait;
use std::sync::atomic::{AtomicU64, Ordering};
use std::thread;
use std::thread::Threads;
use version_board::{Reader, Told, Writer};
use wrap_workers::Gate;

/// How many watchers a board has at most.
const TEAM_MOST: usize = 8;

/// One that looks at a board. It is seen as what it knows of the row of versions, and what it saw.
pub struct Watcher {
    reader: Reader,
    seen: Vec<Seen>,
    // Whether there was no memory to keep what it saw.
    is_short: bool,
}

impl Drop for Watcher {
    fn drop(self) {
        let Watcher {
            reader: _,
            seen: _,
            is_short: _,
        } = self;
    }
}

impl Model for Watcher {
    ghost use Rattle.board_watch.specs.Watching.{Watching, IsWatching};

    ghost Value = { Watching };

    ghost view = { λ w. record { known = w.reader; seen = w.seen.items } };

    ghost invariant = { λ w. IsWatching (record { known = w.reader; seen = w.seen.items }) };
}

impl Watcher {
    /// One that has seen nothing yet.
    fn new(alloc: Global, reader: Reader) -> Watcher
        ensures known { result.known ≡ reader }
        ensures unseen { result.seen ≡ [] }
    {
        Watcher {
            reader,
            seen: Vec::new(alloc),
            is_short: false,
        }
    }

    /// Looks at the board until the last version is seen or the flag is raised. It passes the gate with each version
    /// that it keeps, as the reader of this number. It ends also if it is out of memory.
    pub fn watch<R: Wait, G: Gate>(&mut self, rt: &R, gate: &G, number: u32, flag: &AtomicU64)
        ensures { WatchesOn self.old self.new }
    {
        for _ in rt.forever() {
            // A flag that is raised after this look leaves one more look at the board.
            let is_raised = flag.load(Ordering::SeqCst) != 0;
            if self.look(gate, number) || is_raised {
                return;
            }
            thread::yield_now();
        }
    }

    /// Looks once, and returns whether nothing is left to be seen, or to keep it in.
    fn look<G: Gate>(&mut self, gate: &G, number: u32) -> bool
        ensures { WatchesOn self.old self.new }
    {
        let (seen, last) = see(&mut self.reader);
        match keep(&mut self.seen, seen) {
            Ok(true) => gate.seen(number, seen.version),
            Ok(false) => {}
            Err(NoMemory) => {
                self.is_short = true;
                return true;
            }
        }
        last
    }

    /// Learns of the newest version of its board, looks once more, and returns what it saw.
    pub fn end(self, told: Told) -> Result<Watched, NoMemory>
        requires { told.board ≡ self.known.board }
        ensures gives { IfOk result (Gives self) }
        ensures watched { IfOk result
            (λ w. ends told.newest.events ≡ true → IsWatched told.newest w.seen.items) }
    {
        let Watcher {
            mut reader,
            mut seen,
            is_short,
        } = self;
        if is_short {
            return Err(NoMemory);
        }
        reader.learn(told);
        let (newest, _last) = see(&mut reader);
        keep(&mut seen, newest)?;
        Ok(Watched { seen })
    }

    /// Returns what it saw so far.
    pub fn give_up(self) -> Watched
        ensures seen { result.seen.items ≡ self.seen }
        ensures rising { AreRising 0 self.seen }
    {
        let Watcher {
            reader: _reader,
            seen,
            is_short: _is_short,
        } = self;
        Watched { seen }
    }
}

/// What is seen of the version that the reader looks at, and whether it is the last one.
fn see(reader: &mut Reader) -> (Seen, bool)
    ensures goes_on { GoesOn reader.old reader.new }
    ensures seen { IsSeenOf reader.new.newest result.0 }
    ensures last { result.1 ≡ ends reader.new.newest.events }
{
    let version = reader.look();
    let seen = Seen {
        version: version.number(),
        rows: version.view().row_count(),
    };
    (seen, version.last())
}

/// Keeps what was seen, where it is of a newer version than the last that was kept. Returns whether it is.
fn keep(kept: &mut Vec<Seen>, seen: Seen) -> Result<bool, NoMemory>
    ensures kept { IfOk result (HasKept kept.old.items seen kept.new.items) }
    ensures unchanged { OnErr result (kept.new.items ≡ kept.old.items) }
{
    let is_newer = match kept.last() {
        Some(last) => last.version < seen.version,
        None => true,
    };
    if is_newer {
        kept.push(seen)?;
    }
    Ok(is_newer)
}

/// A watcher for each reader, which has seen nothing yet.
pub fn watchers(alloc: Global, readers: Vec<Reader>) -> Result<Vec<Watcher>, NoMemory>
    ensures known { IfOk result (λ team. map (λ w. w.known) team.items ≡ readers.items) }
    ensures unseen { IfOk result (λ team. All (λ w. w.seen ≡ []) team.items) }
{
    let mut team = Vec::new(alloc);
    for reader in readers {
        team.push(Watcher::new(alloc, reader))?;
    }
    Ok(team)
}

/// The number by which a gate knows the watcher at an index. It is that index, but for the greatest of them, which no
/// team has.
fn number_at(index: usize) -> u32
    ensures { result ≡ min index (2 ^ 32 - 1) }
{
    index.min(u32::MAX as usize) as u32
}

/// All watchers of a team look, each in a thread of its own, until each has ended.
pub fn watch_all<R: Threads + Wait + Sync, G: Gate + Sync>(
    rt: &R,
    gate: &G,
    team: &mut Vec<Watcher>,
    flag: &AtomicU64,
)
    ensures boards { map (λ w. w.known.board) team.new.items
        ≡ map (λ w. w.known.board) team.old.items }
    ensures each { AllZip WatchesOn team.old.items team.new.items }
{
    thread::for_each_mut(
        rt,
        team.as_mut_slice(),
        TEAM_MOST,
        &|index, watcher: &mut Watcher|
            ensures { WatchesOn watcher.entry.now watcher.exit.now }
        { watcher.watch(rt, gate, number_at(index), flag) },
    );
}

/// Lets each watcher of a board learn of its newest version and look once more, and returns what they saw.
pub fn end_all(
    alloc: Global,
    writer: &mut Writer,
    team: Vec<Watcher>,
) -> Result<Vec<Watched>, NoMemory>
    // All of them look at the writer's board.
    requires { All (λ w. w.known.board ≡ writer.old.board) team.items }

    // What each watcher saw stays first. Where the newest version is the last, each ends with it.
    ensures count { IfOk result (λ watched. vec_len watched ≡ vec_len team) }
    ensures gives { IfOk result (λ watched. AllZip Gives team.items watched.items) }
    ensures seen { IfOk result (λ watched. ends writer.old.newest.events ≡ true →
        All (λ w. IsWatched writer.old.newest w.seen.items) watched.items) }

    // The writer stays as it was.
    ensures writer { writer.new ≡ writer.old }
{
    let mut watched = Vec::new(alloc);
    for watcher in team {
        let told = writer.tell()?;
        watched.push(watcher.end(told)?)?;
    }
    Ok(watched)
}

/// Returns what the watchers of a team saw so far, of so many of them as there is memory for.
pub fn give_up_all(alloc: Global, team: Vec<Watcher>) -> Vec<Watched>
    ensures count { vec_len result ≤ vec_len team }
    ensures seen { map (λ w. w.seen.items) result.items
        ≡ take (vec_len result) (map (λ w. w.seen) team.items) }
    ensures rising { All (λ w. AreRising 0 w.seen.items) result.items }
{
    let mut watched = Vec::new(alloc);
    for watcher in team {
        if let Err(_) = watched.push(watcher.give_up()) {
            return watched;
        }
    }
    watched
}
