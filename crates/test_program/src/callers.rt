//! The callers that the pages of the crates show.
ghost use Rattle.std.specs.Prelude.{◌≡◌, ◌+◌, ◌<◌, ◌≤◌, All, [], false, length, IfOk, OnOk};
ghost use Rattle.board_watch.specs.Watching.{IsWatched};
ghost use Rattle.display_map.specs.Events.{event_limit};
ghost use Rattle.display_map.specs.Replay.{ends, versions_of};
ghost use Rattle.live_display.specs.Owned.{IsOwned};
ghost use Rattle.display_sheet.specs.Changes.{ops_of};

use board_watch::{Seen, Watched, Watcher, end_all, watchers};
use cell_units::{Fault, NoMemory, Steps, Text};
use display_cli::{ListSink, run};
use display_map::{Change, Display, Op, View};
use edit_script::{Asked, Form, answer, read_line};
use live_display::{Halt, Opened, Owner, open};
use std::alloc::Global;
use std::sync::Wait;
use std::test::Fail;
use std::thread::Threads;
use test_runs::{inputs_of, strings};
use version_board::{Reader, Writer, board, row_laws};
use wrap_workers::FreeGate;

/// The first line of the answer to a line of a script, where that is a question.
fn first_answer(
    alloc: Global,
    line: &[u8],
    view: &View,
    steps: &mut Steps,
) -> Result<Option<Text>, Fault>
    requires { 1 ≤ versions_of view.now.events }
{
    match read_line(alloc, line, Form::First, view, steps)? {
        Asked::Query(query) => Ok(answer(alloc, view, &query, steps)?.next_line(alloc, steps)?),
        Asked::Change(_) | Asked::Caret(_) | Asked::Settle => Ok(None),
    }
}

/// A view of the text `abc`, of which a version was published.
fn published_view(alloc: Global) -> Result<View, Fail>
    ensures { IfOk result (λ view. 1 ≤ versions_of view.events) }
{
    let mut display = opened(alloc, b"abc")?;
    let _version = display.publish(alloc, false)?;
    Ok(display.view()?)
}

/// The text `abc` is one row, and its byte 2 stands in column 2.
#[test]
fn a_question_is_answered(rt: HostRuntime) -> Result<(), Fail> {
    let alloc = rt.alloc();
    let mut steps = Steps::new();
    let view = published_view(alloc)?;
    let row = first_answer(alloc, br#"{"rows":[0,1]}"#, &view, &mut steps)?;
    assert_eq!(rt; row.ok_or("no row")?.as_str(), "0 t|abc");
    let spot = first_answer(alloc, br#"{"display":[2,"left"]}"#, &view, &mut steps)?;
    assert_eq!(rt; spot.ok_or("no spot")?.as_str(), "0 2");
    Ok(())
}

/// Does a change, shows it, and goes on until every line stands wrapped.
fn change_and_settle<R: Wait>(rt: &R, owner: &mut Owner, change: &Change) -> Result<(), Halt>
    requires owned { IsOwned owner.old }
    requires room { length owner.old.display.events + length (ops_of change.now) + 1 ≤ event_limit }
{
    if owner.apply(change).is_ok() {
        owner.publish(rt, false)?;
    }
    owner.settle(rt, &FreeGate)
}

/// A display of a text without events.
fn opened(alloc: Global, bytes: &[u8]) -> Result<Display, NoMemory>
    ensures { IfOk result (λ display. display.events ≡ []) }
{
    match Display::start(alloc, bytes, &mut Steps::new()) {
        Ok(display) => Ok(display),
        Err(_) => Err(NoMemory),
    }
}

/// A display with its owner and one worker, who has no thread.
fn owned<R: Wait>(rt: &R, alloc: Global, display: Display) -> Result<Opened, NoMemory>
    requires events { display.events ≡ [] }
    ensures owned { IfOk result (λ opened. IsOwned opened.owner) }
    ensures events { IfOk result (λ opened. length opened.owner.display.events ≡ 1) }
{
    open(rt, alloc, display, 1, 0).map_err(|_| NoMemory)
}

/// At a width of 5 the line is two rows. The worker has no thread, so the owner wraps it.
#[test]
fn an_owner_settles_behind_a_change(rt: HostRuntime) -> Result<(), Fail> {
    let alloc = rt.alloc();
    let display = opened(alloc, b"hello world")?;
    let Opened {
        mut owner,
        workers: _workers,
        readers: _readers,
    } = owned(&rt, alloc, display)?;
    let narrow = Change::One(Op::Width { cells: 5 });
    let settled = change_and_settle(&rt, &mut owner, &narrow);
    let (display, writer) = owner.dismiss(&rt);
    if let Some(writer) = writer {
        writer.close(&rt);
    }
    assert_eq!(rt; settled, Ok(()));
    assert_eq!(rt; display.view()?.row_count(), 2);
    Ok(())
}

/// Publishes the last version of a display, and gives what each watcher of its board saw up to that.
fn end_board<R: Wait>(
    rt: &R,
    alloc: Global,
    display: &mut Display,
    writer: &mut Writer,
    team: Vec<Watcher>,
) -> Result<Vec<Watched>, NoMemory>
    // The board shows the display, which goes on and has few events, and all watchers are of that board.
    requires shown { writer.old.newest ≡ display.old }
    requires goes_on { ends display.old.events ≡ false }
    requires events { length display.old.events < 1000 }
    requires team { All (λ w. w.known.board ≡ writer.old.board) team.items }

    // What each saw is of the board's history, and the last of it is of the newest version.
    ensures { IfOk result (λ watched. All (λ w. IsWatched writer.new.newest w.seen.items) watched.items) }
{
    row_laws();
    let last = display.publish(alloc, true)?;
    writer.publish(rt, alloc, last)?;
    end_all(alloc, writer, team)
}

/// Two watchers of a board that shows the display's first version.
fn watched_board<R: Wait>(
    rt: &R,
    alloc: Global,
    display: &mut Display,
) -> Result<(Writer, Vec<Reader>), NoMemory>
    // The display has no events yet.
    requires events { display.old.events ≡ [] }

    // The board shows the display, whose one event is the publishing of a version that is not the last.
    ensures shown { IfOk result (λ made. made.0.newest ≡ display.new) }
    ensures goes_on { OnOk result (ends display.new.events ≡ false) }
    ensures events { OnOk result (length display.new.events ≡ 1) }

    // All readers are of that board.
    ensures readers { IfOk result (λ made. All (λ reader. reader.board ≡ made.0.board) made.1.items) }
{
    let first = display.publish(alloc, false)?;
    board(rt, alloc, first, 2)
}

/// Lets the readers of a board watch it to its end.
fn watch_to_end<R: Wait>(
    rt: &R,
    alloc: Global,
    display: &mut Display,
    writer: &mut Writer,
    readers: Vec<Reader>,
) -> Result<Vec<Watched>, NoMemory>
    requires shown { writer.old.newest ≡ display.old }
    requires goes_on { ends display.old.events ≡ false }
    requires events { length display.old.events ≡ 1 }
    requires readers { All (λ reader. reader.board ≡ writer.old.board) readers.items }
{
    let team = watchers(alloc, readers)?;
    end_board(rt, alloc, display, writer, team)
}

/// Two watchers who look only at the end see the last version, which is number 1 and has one row.
#[test]
fn watchers_see_the_last_version(rt: HostRuntime) -> Result<(), Fail> {
    let alloc = rt.alloc();
    let mut display = opened(alloc, b"abc")?;
    let (mut writer, readers) = watched_board(&rt, alloc, &mut display)?;
    let watched = watch_to_end(&rt, alloc, &mut display, &mut writer, readers);
    writer.close(&rt);
    let watched = watched?;
    assert_eq!(rt; watched.len(), 2);
    for watcher in &watched {
        assert_eq!(rt;
            watcher.seen.as_slice(),
            [Seen {
                version: 1,
                rows: 1
            }]
            .as_slice()
        );
    }
    Ok(())
}

/// The status of a run of a script on a text, and what it writes.
fn run_pair<R: Threads + Wait + Sync>(
    rt: &R,
    alloc: Global,
    text: &[u8],
    script: &[u8],
) -> Result<(u8, ListSink), NoMemory> {
    let words = strings(alloc, &["a", "b"])?;
    let mut inputs = inputs_of(alloc, text, script, &[])?; // `a` is the text, and `b` the script
    let mut out = ListSink::new(alloc, Vec::new(alloc));
    let ended = run(
        rt,
        alloc,
        words.as_slice(),
        &mut inputs,
        &mut out,
        &FreeGate,
    );
    Ok((ended.status, out))
}

/// At a width of 5 the line is two rows. A line that is no command is answered by `! 1`, and makes the status 1.
#[test]
fn a_run_writes_answers(rt: HostRuntime) -> Result<(), Fail> {
    let alloc = rt.alloc();
    let script = br#"{"width":5}
{"rows":[0,9]}
no command
"#;
    let (status, out) = run_pair(&rt, alloc, b"hello world", script)?;
    assert_eq!(rt; status, 1);
    assert_eq!(rt; out.taken(), b"0 t|hello \n1 w|world\n! 1\n".as_slice());
    Ok(())
}
