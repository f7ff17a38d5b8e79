//! Versions under a lock.
ghost use Rattle.std.specs.Prelude.{◌≡◌, false, [], length, OnOk};
ghost use Rattle.display_map.specs.Replay.{ends};

use crate::Counts;
use crate::owner::{self, MOST};
use cell_units::NoMemory;
use display_map::{Display, Version};
use std::alloc::Global;
use std::sync::atomic::{AtomicU64, Ordering};
use std::sync::{Arc, Mutex, Wait};
use std::thread;
use std::thread::Threads;

/// The newest version, under a lock.
type Newest = Mutex<Arc<Version, Global>>;

/// How often a reader looked.
#[derive(Drop)]
struct Looker {
    looks: u32,
}

impl Looker {
    /// Looks so often, and then counts itself as done.
    fn look_each<R: Wait>(&mut self, rt: &R, newest: &Newest, times: u32, done: &AtomicU64) {
        for turn in 0..times {
            if let Ok(version) = share(rt, newest) {
                let _number = version.number();
            }
            self.looks = turn + 1;
        }
        done.fetch_add(1, Ordering::SeqCst);
    }
}

/// How often they looked together.
fn all_looks(team: &[Looker]) -> u64 {
    let mut looks: u64 = 0;
    for looker in team {
        looks = looks.saturating_add(looker.looks as u64);
    }
    looks
}

/// A share of the newest version.
fn share<R: Wait>(rt: &R, newest: &Newest) -> Result<Arc<Version, Global>, NoMemory> {
    let guard = newest.lock(rt);
    Ok(Arc::try_clone(&*guard)?)
}

/// Puts the next version in the place of the newest one.
fn put<R: Wait>(rt: &R, alloc: Global, newest: &Newest, next: Version) -> Result<(), NoMemory> {
    let next = Arc::new(alloc, next)?;
    let mut guard = newest.lock(rt);
    *guard = next;
    Ok(())
}

/// Publishes until so many readers are done, and returns how many versions there were.
fn publish_until<R: Wait>(
    rt: &R,
    alloc: Global,
    display: &mut Display,
    newest: &Newest,
    done: &AtomicU64,
    readers: u64,
) -> Result<u64, NoMemory>
    requires goes_on { ends display.old.events ≡ false }
    requires events { length display.old.events ≡ 1 }
{
    for number in 0..MOST {
        if done.load(Ordering::SeqCst) >= readers {
            return Ok(number as u64);
        }
        let next = owner::next(alloc, display)?;
        put(rt, alloc, newest, next)?;
    }
    Ok(MOST as u64)
}

/// So many readers, which have not looked yet.
fn lookers(alloc: Global, readers: u32) -> Result<Vec<Looker>, NoMemory> {
    let mut team = Vec::new(alloc);
    for _ in 0..readers {
        team.push(Looker { looks: 0 })?;
    }
    Ok(team)
}

/// The newest version of the display, which is its first, under a lock.
fn first_newest(alloc: Global, display: &mut Display) -> Result<Newest, NoMemory>
    requires { display.old.events ≡ [] }
    ensures goes_on { OnOk result (ends display.new.events ≡ false) }
    ensures events { OnOk result (length display.new.events ≡ 1) }
{
    let first = owner::first(alloc, display)?;
    Ok(Mutex::new(Arc::new(alloc, first)?))
}

/// The readers look while the owner publishes.
fn beside<R: Threads + Wait + Sync>(
    rt: &R,
    alloc: Global,
    display: &mut Display,
    newest: &Newest,
    team: &mut Vec<Looker>,
    times: u32,
) -> Result<u64, NoMemory>
    requires goes_on { ends display.old.events ≡ false }
    requires events { length display.old.events ≡ 1 }
{
    let done = AtomicU64::new(0);
    let readers = team.len() as u64;
    let (versions, ()) = thread::join_mut(
        rt,
        &mut || -> Result<u64, NoMemory>
            requires goes_on { ends display.now.events ≡ false }
            requires events { length display.now.events ≡ 1 }
        { publish_until(rt, alloc, display, newest, &done, readers) },
        &mut || {
            thread::for_each_mut(
                rt,
                team.as_mut_slice(),
                8,
                &|_, looker: &mut Looker| looker.look_each(rt, newest, times, &done),
            );
        },
    );
    versions
}

/// So many readers look so often each at what is under a lock, while its owner publishes.
pub fn look_beside<R: Threads + Wait + Sync>(
    rt: &R,
    alloc: Global,
    readers: u32,
    times: u32,
) -> Result<Counts, NoMemory> {
    let mut team = lookers(alloc, readers)?;
    let mut display = owner::opened(alloc)?;
    let newest = first_newest(alloc, &mut display)?;
    let versions = beside(rt, alloc, &mut display, &newest, &mut team, times)?;
    Ok(Counts {
        looks: all_looks(&team),
        versions,
    })
}
