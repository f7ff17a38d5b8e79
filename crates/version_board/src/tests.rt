//! Boards of a display, whose readers look beside the writer.
ghost use Rattle.std.specs.Prelude.{◌≡◌, ◌+◌, ◌<◌, true, false, All, [], length, IfOk, OnOk, IfSome};
ghost use Rattle.display_map.specs.Replay.{versions_of, ends};

use crate::laws::row_laws;
use crate::make::board;
use crate::reader::Reader;
use crate::writer::{Told, Writer};
use cell_units::{NoMemory, Steps};
use display_map::Display;
use std::alloc::Global;
use std::sync::Wait;
use std::test::Fail;
use std::thread;
use std::thread::Threads;

/// How often a reader looks at most.
const TURNS: u32 = 1_000_000;

/// The number of the last version.
const LAST: u64 = 40;

/// A display of a text, without events.
fn opened(alloc: Global) -> Result<Display, NoMemory>
    ensures { IfOk result (λ display. display.events ≡ []) }
{
    match Display::start(alloc, b"abc", &mut Steps::new()) {
        Ok(display) => Ok(display),
        Err(_) => Err(NoMemory),
    }
}

/// A board on which the display's version 0 is shown.
fn opened_board<R: Wait>(
    rt: &R,
    alloc: Global,
    display: &mut Display,
    readers: u32,
) -> Result<(Writer, Vec<Reader>), NoMemory>
    requires events { display.old.events ≡ [] }
    requires readers { readers < 9 }
    ensures shown { IfOk result (λ made. made.0.newest ≡ display.new) }
    ensures goes_on { OnOk result (ends display.new.events ≡ false) }
    ensures events { OnOk result (length display.new.events ≡ 1) }
    ensures readers { IfOk result (λ made.
        All (λ reader. reader.board ≡ made.0.board) made.1.items) }
{
    let first = display.publish(alloc, false)?;
    board(rt, alloc, first, readers)
}

/// Publishes the next version.
fn publish_next<R: Wait>(
    rt: &R,
    alloc: Global,
    display: &mut Display,
    writer: &mut Writer,
    last: bool,
) -> Result<(), NoMemory>
    requires shown { writer.old.newest ≡ display.old }
    requires goes_on { ends display.old.events ≡ false }
    requires events { length display.old.events < 1000 }
    ensures shown { OnOk result (writer.new.newest ≡ display.new) }
    ensures last { OnOk result (ends display.new.events ≡ last) }
    ensures events { OnOk result (length display.new.events ≡ length display.old.events + 2) }
    ensures board { writer.new.board ≡ writer.old.board }
{
    // For the proof: a version that is published next follows the last one in a row.
    row_laws();
    display.note_line(alloc, 1)?;
    let next = display.publish(alloc, last)?;
    writer.publish(rt, alloc, next)
}

/// A reader that learnt of the last version sees it.
fn finish(writer: &mut Writer, mut reader: Reader) -> Option<u64>
    requires { reader.board ≡ writer.old.board }
    ensures seen { IfSome result (λ n. ends writer.old.newest.events ≡ true →
        n + 1 ≡ versions_of writer.old.newest.events) }
    ensures same { writer.new ≡ writer.old }
{
    let told = writer.tell().ok()?;
    reader.learn(told);
    Some(reader.look().number())
}

/// What two readers see before and after a version is published, and after the second learnt of it.
fn look_twice<R: Wait>(
    rt: &R,
    alloc: Global,
    display: &mut Display,
    writer: &mut Writer,
    one: &mut Reader,
    other: &mut Reader,
) -> Result<[u64; 4], NoMemory>
    requires shown { writer.old.newest ≡ display.old }
    requires goes_on { ends display.old.events ≡ false }
    requires events { length display.old.events ≡ 1 }
    requires board { other.old.board ≡ writer.old.board }
{
    let first = one.look().number();
    let second = other.look().number();
    publish_next(rt, alloc, display, writer, false)?;
    let third = one.look().number();
    let told = writer.tell()?;
    other.learn(told);
    Ok([first, second, third, other.look().number()])
}

#[test]
fn each_of_two_readers_sees_the_next_version(rt: HostRuntime) -> Result<(), Fail> {
    let alloc = rt.alloc();
    let mut display = opened(alloc)?;
    let (mut writer, mut readers) = opened_board(&rt, alloc, &mut display, 2)?;
    let numbers = match (readers.pop(), readers.pop()) {
        (Some(mut one), Some(mut other)) => {
            look_twice(&rt, alloc, &mut display, &mut writer, &mut one, &mut other)
        }
        _ => Err(NoMemory),
    };
    writer.close(&rt);
    assert_eq!(rt; numbers?, [0, 0, 1, 1]);
    Ok(())
}

/// What a reader without a place sees before and after a version is published, and after it learnt of it.
fn look_apart<R: Wait>(
    rt: &R,
    alloc: Global,
    display: &mut Display,
    writer: &mut Writer,
    reader: &mut Reader,
) -> Result<[u64; 3], NoMemory>
    requires shown { writer.old.newest ≡ display.old }
    requires goes_on { ends display.old.events ≡ false }
    requires events { length display.old.events ≡ 1 }
    requires board { reader.old.board ≡ writer.old.board }
{
    let first = reader.look().number();
    publish_next(rt, alloc, display, writer, false)?;
    let second = reader.look().number();
    let told = writer.tell()?;
    reader.learn(told);
    Ok([first, second, reader.look().number()])
}

#[test]
fn what_is_told_is_the_newest_version(rt: HostRuntime) -> Result<(), Fail> {
    let alloc = rt.alloc();
    let mut display = opened(alloc)?;
    let (mut writer, mut readers) = opened_board(&rt, alloc, &mut display, 1)?;
    let numbers = match readers.pop() {
        Some(mut reader) => {
            reader.seat = None;
            look_apart(&rt, alloc, &mut display, &mut writer, &mut reader)
        }
        None => Err(NoMemory),
    };
    writer.close(&rt);
    assert_eq!(rt; numbers?, [0, 0, 1]);
    Ok(())
}

/// A reader, and how often it saw a greater number.
#[derive(Drop)]
struct Watcher {
    reader: Reader,
    rises: u64,
}

impl Watcher {
    /// Looks until the last version is seen.
    fn watch(&mut self)
        ensures { self.new.reader.board ≡ self.old.reader.board }
    {
        let mut newest = 0;
        for _ in 0..TURNS {
            let version = self.reader.look();
            let last = version.last();
            if version.number() > newest && self.rises < 1000 {
                newest = version.number();
                self.rises += 1;
            }
            if last {
                break;
            }
            thread::yield_now();
        }
    }
}

/// The readers, which have not looked yet.
fn watchers(
    alloc: Global,
    like: &Writer,
    mut readers: Vec<Reader>,
) -> Result<Vec<Watcher>, NoMemory>
    requires { All (λ reader. reader.board ≡ like.now.board) readers.items }
    ensures { IfOk result (λ team. All (λ w. w.reader.board ≡ like.now.board) team.items) }
{
    let mut team = Vec::new(alloc);
    while let Some(reader) = readers.pop() {
        team.push(Watcher { reader, rises: 0 })?;
    }
    Ok(team)
}

/// Publishes all versions.
fn publish_all<R: Wait>(
    rt: &R,
    alloc: Global,
    display: &mut Display,
    writer: &mut Writer,
) -> Result<(), NoMemory>
    requires shown { writer.old.newest ≡ display.old }
    requires goes_on { ends display.old.events ≡ false }
    requires events { length display.old.events ≡ 1 }
    ensures { writer.new.board ≡ writer.old.board }
{
    for number in 0..LAST {
        publish_next(rt, alloc, display, writer, number + 1 == LAST)?;
        thread::yield_now();
    }
    Ok(())
}

/// All readers look, each in a thread of its own.
fn watch_all<R: Threads + Sync>(rt: &R, like: &Told, team: &mut Vec<Watcher>)
    requires { All (λ w. w.reader.board ≡ like.now.board) team.old.items }
    ensures { All (λ w. w.reader.board ≡ like.now.board) team.new.items }
{
    thread::for_each_mut(
        rt,
        team.as_mut_slice(),
        8,
        &|_, watcher: &mut Watcher|
            ensures { watcher.exit.now.reader.board ≡ watcher.entry.now.reader.board }
        { watcher.watch() },
    );
}

/// The writer publishes beside the readers.
fn beside<R: Threads + Wait + Sync>(
    rt: &R,
    alloc: Global,
    display: &mut Display,
    writer: &mut Writer,
    team: &mut Vec<Watcher>,
) -> Result<(), NoMemory>
    requires shown { writer.old.newest ≡ display.old }
    requires goes_on { ends display.old.events ≡ false }
    requires events { length display.old.events ≡ 1 }
    requires team { All (λ w. w.reader.board ≡ writer.old.board) team.old.items }
    ensures board { writer.new.board ≡ writer.old.board }
    ensures team { All (λ w. w.reader.board ≡ writer.new.board) team.new.items }
{
    let like = writer.tell()?;
    let (published, ()) = thread::join_mut(
        rt,
        &mut || -> Result<(), NoMemory>
            requires shown { writer.now.newest ≡ display.now }
            requires goes_on { ends display.now.events ≡ false }
            requires events { length display.now.events ≡ 1 }
            ensures { writer.exit.now.board ≡ writer.entry.now.board }
        { publish_all(rt, alloc, display, writer) },
        &mut ||
            requires { All (λ w. w.reader.board ≡ like.board) team.now.items }
            ensures { All (λ w. w.reader.board ≡ like.board) team.exit.now.items }
        { watch_all(rt, &like, team) },
    );
    published
}

/// How often each reader saw a greater number, and the number that it sees once it learnt of the newest version.
fn finish_all(
    alloc: Global,
    writer: &mut Writer,
    mut team: Vec<Watcher>,
) -> Result<Vec<(u64, u64)>, NoMemory>
    requires { All (λ w. w.reader.board ≡ writer.old.board) team.items }
{
    let mut seen = Vec::new(alloc);
    while let Some(Watcher { reader, rises }) = team.pop() {
        let last = finish(writer, reader).ok_or(NoMemory)?;
        seen.push((rises, last))?;
    }
    Ok(seen)
}

#[test]
fn readers_beside_the_writer(rt: HostRuntime) -> Result<(), Fail> {
    let alloc = rt.alloc();
    let mut display = opened(alloc)?;
    let (mut writer, readers) = opened_board(&rt, alloc, &mut display, 3)?;
    let seen = match watchers(alloc, &writer, readers) {
        Ok(mut team) => match beside(&rt, alloc, &mut display, &mut writer, &mut team) {
            Ok(()) => finish_all(alloc, &mut writer, team),
            Err(error) => Err(error),
        },
        Err(error) => Err(error),
    };
    writer.close(&rt);
    let seen = seen?;
    assert_eq!(rt; seen.len(), 3);
    for (rises, last) in &seen {
        assert!(rt; *rises <= LAST);
        assert_eq!(rt; *last, LAST);
    }
    Ok(())
}
