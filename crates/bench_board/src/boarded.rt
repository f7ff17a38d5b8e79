//! Versions on a board.
ghost use Rattle.std.specs.Prelude.{◌≡◌, ◌<◌, false, [], length};
ghost use Rattle.display_map.specs.Replay.{ends};

use crate::Counts;
use crate::owner::{self, MOST};
use cell_units::NoMemory;
use display_map::Display;
use std::alloc::Global;
use std::sync::Wait;
use std::sync::atomic::{AtomicU64, Ordering};
use std::thread;
use std::thread::Threads;
use version_board::{Reader, Writer, board};

/// A reader, and how often it looked.
#[derive(Drop)]
struct Looker {
    reader: Reader,
    looks: u32,
}

impl Looker {
    /// Looks so often, and then counts itself as done.
    fn look_each(&mut self, times: u32, done: &AtomicU64) {
        for turn in 0..times {
            let _number = self.reader.look().number();
            self.looks = turn + 1;
        }
        done.fetch_add(1, Ordering::SeqCst);
    }
}

/// Publishes until so many readers are done, and returns how many versions there were.
fn publish_until<R: Wait>(
    rt: &R,
    alloc: Global,
    display: &mut Display,
    writer: &mut Writer,
    done: &AtomicU64,
    readers: u64,
) -> Result<u64, NoMemory>
    requires shown { writer.old.newest ≡ display.old }
    requires goes_on { ends display.old.events ≡ false }
    requires events { length display.old.events ≡ 1 }
{
    for number in 0..MOST {
        if done.load(Ordering::SeqCst) >= readers {
            return Ok(number as u64);
        }
        let next = owner::next(alloc, display)?;
        writer.publish(rt, alloc, next)?;
    }
    Ok(MOST as u64)
}

/// All readers look, each in a thread of its own.
fn look_all<R: Threads + Sync>(rt: &R, times: u32, done: &AtomicU64, team: &mut Vec<Looker>) {
    thread::for_each_mut(
        rt,
        team.as_mut_slice(),
        8,
        &|_, looker: &mut Looker| looker.look_each(times, done),
    );
}

/// The readers look while the owner publishes.
fn beside<R: Threads + Wait + Sync>(
    rt: &R,
    alloc: Global,
    display: &mut Display,
    writer: &mut Writer,
    team: &mut Vec<Looker>,
    times: u32,
) -> Result<u64, NoMemory>
    requires shown { writer.old.newest ≡ display.old }
    requires goes_on { ends display.old.events ≡ false }
    requires events { length display.old.events ≡ 1 }
{
    let done = AtomicU64::new(0);
    let readers = team.len() as u64;
    let (versions, ()) = thread::join_mut(
        rt,
        &mut || -> Result<u64, NoMemory>
            requires shown { writer.now.newest ≡ display.now }
            requires goes_on { ends display.now.events ≡ false }
            requires events { length display.now.events ≡ 1 }
        { publish_until(rt, alloc, display, writer, &done, readers) },
        &mut || look_all(rt, times, &done, team),
    );
    versions
}

/// How often they looked together.
fn all_looks(team: &[Looker]) -> u64 {
    let mut looks: u64 = 0;
    for looker in team {
        looks = looks.saturating_add(looker.looks as u64);
    }
    looks
}

/// The readers, which have not looked yet.
fn lookers(alloc: Global, readers: Vec<Reader>) -> Result<Vec<Looker>, NoMemory> {
    let mut team = Vec::new(alloc);
    for reader in readers {
        team.push(Looker { reader, looks: 0 })?;
    }
    Ok(team)
}

/// The readers look at a board of the display, whose first version is published before.
fn look_at<R: Threads + Wait + Sync>(
    rt: &R,
    alloc: Global,
    display: &mut Display,
    readers: u32,
    times: u32,
) -> Result<Counts, NoMemory>
    requires few { readers < 9 }
    requires fresh { display.old.events ≡ [] }
{
    let first = owner::first(alloc, display)?;
    let (mut writer, seated) = board(rt, alloc, first, readers)?;
    let counts = count_looks(rt, alloc, display, &mut writer, seated, times);
    writer.close(rt);
    counts
}

/// The readers look while the owner publishes, and then all looks are counted.
fn count_looks<R: Threads + Wait + Sync>(
    rt: &R,
    alloc: Global,
    display: &mut Display,
    writer: &mut Writer,
    seated: Vec<Reader>,
    times: u32,
) -> Result<Counts, NoMemory>
    requires shown { writer.old.newest ≡ display.old }
    requires goes_on { ends display.old.events ≡ false }
    requires events { length display.old.events ≡ 1 }
{
    let mut team = lookers(alloc, seated)?;
    let versions = beside(rt, alloc, display, writer, &mut team, times)?;
    Ok(Counts {
        looks: all_looks(&team),
        versions,
    })
}

/// So many readers look so often each at a board, while its owner publishes.
pub fn look_beside<R: Threads + Wait + Sync>(
    rt: &R,
    alloc: Global,
    readers: u32,
    times: u32,
) -> Result<Counts, NoMemory>
    requires { readers < 9 }
{
    let mut display = owner::opened(alloc)?;
    look_at(rt, alloc, &mut display, readers, times)
}
