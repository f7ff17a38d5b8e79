//! Scripts for several views, and what they write.
use cell_units::Steps;
use display_cli::ListSink;
use script_runner::Stop;
use split_runner::{Played, play};
use split_views::Split;
use std::alloc::Global;
use std::process::Abort;
use std::test::Fail;

/// A text in so many views, a script, and what it writes.
#[derive(Clone, Copy)]
struct Row<'a> {
    views: u32,
    text: &'a str,
    script: &'a str,
    written: &'a str,
    refused: bool,
}

/// Plays a script on so many views of a text.
fn played(
    rt: &impl Abort,
    alloc: Global,
    views: u32,
    text: &str,
    script: &str,
    out: &mut ListSink,
) -> Result<Played, Fail> {
    assert!(rt; 1 <= views);
    assert!(rt; views <= 8);
    let split = Split::start(alloc, text.as_bytes(), views, &mut Steps::new())?;
    Ok(play(alloc, split, script.as_bytes(), out))
}

/// What a script that comes to its end writes for so many views of a text.
pub(crate) fn written_by(
    rt: &impl Abort,
    alloc: Global,
    views: u32,
    text: &str,
    script: &str,
) -> Result<String, Fail> {
    let mut out = ListSink::new(alloc, Vec::new(alloc));
    let played = played(rt, alloc, views, text, script, &mut out)?;
    assert!(rt; played.refused.is_ok());
    Ok(String::from_str(alloc, str::from_utf8(out.taken())?)?)
}

/// The script writes what the row says.
fn assert_row(rt: &impl Abort, alloc: Global, row: Row) -> Result<(), Fail> {
    let mut out = ListSink::new(alloc, Vec::new(alloc));
    let played = played(rt, alloc, row.views, row.text, row.script, &mut out)?;
    assert_eq!(rt; str::from_utf8(out.taken()), Ok(row.written));
    assert_eq!(rt; played.refused, Ok::<bool, Stop>(row.refused));
    assert_eq!(rt; played.histories.len(), row.views as usize);
    Ok(())
}

#[test]
fn an_edit_reaches_both_views_and_a_fold_one(rt: HostRuntime) -> Result<(), Fail> {
    let row = Row {
        views: 2,
        text: "a\nb",
        script: "0 {\"fold\":[1,0,1]}\n1 {\"rows\":[0,9]}\n0 {\"rows\":[0,9]}\n\
                 1 {\"edit\":[[3,3,\"c\"]]}\n0 {\"rows\":[1,1]}\n1 {\"unfold\":1}\n{\"rows\":[0,1]}",
        written: "1 0 t|a\n1 1 t|b\n0 0 t|⋯\n0 1 t|b\n0 1 t|bc\n1 ! 4\n! 1\n",
        refused: true,
    };
    assert_row(&rt, rt.alloc(), row)
}

#[test]
fn edits_are_undone_and_done_again(rt: HostRuntime) -> Result<(), Fail> {
    let row = Row {
        views: 1,
        text: "abc",
        script: "0 {\"edit\":[[0,1,\"XY\"],[3,3,\"!\"]]}\nundo\n0 {\"rows\":[0,1]}\nredo\n\
                 0 {\"rows\":[0,1]}\nredo\nundo\n0 {\"edit\":[[0,0,\"z\"]]}\nredo\n",
        written: "0 0 t|abc\n0 0 t|XYbc!\n! 8\n! 8\n",
        refused: true,
    };
    assert_row(&rt, rt.alloc(), row)
}

#[test]
fn a_fold_that_an_edit_dropped_stays_dropped(rt: HostRuntime) -> Result<(), Fail> {
    let row = Row {
        views: 1,
        text: "abcdef",
        script: "0 {\"fold\":[1,1,4]}\n0 {\"edit\":[[1,4,\"\"]]}\nundo\n0 {\"rows\":[0,1]}\n\
                 0 {\"unfold\":1}\nundo\n",
        written: "0 0 t|abcdef\n0 ! 4\n! 8\n",
        refused: true,
    };
    assert_row(&rt, rt.alloc(), row)
}

/// A batch of touching ranges is undone in one step, in both views.
#[test]
fn touching_ranges_are_undone_together(rt: HostRuntime) -> Result<(), Fail> {
    let row = Row {
        views: 2,
        text: "abcdefg",
        script: "1 {\"edit\":[[3,5,\"\"],[5,6,\"x\"]]}\n0 {\"rows\":[0,1]}\nundo\n0 {\"rows\":[0,1]}\n\
                 1 {\"rows\":[0,1]}\nredo\n0 {\"rows\":[0,1]}\n",
        written: "0 0 t|abcxg\n0 0 t|abcdefg\n1 0 t|abcdefg\n0 0 t|abcxg\n",
        refused: false,
    };
    assert_row(&rt, rt.alloc(), row)
}

/// The tab size and the width of a view stay its own. The versions count the edits of the other view.
#[test]
fn a_width_reaches_its_view_alone(rt: HostRuntime) -> Result<(), Fail> {
    let row = Row {
        views: 2,
        text: "hello world",
        script: "0 {\"width\":6}\n0 {\"rows\":[0,9]}\n1 {\"rows\":[0,9]}\n1 {\"edit\":[[0,1,\"J\"]]}\n\
                 0 {\"peek\":[0,1]}\n1 {\"peek\":[0,1]}\n",
        written: "0 0 t|hello \n0 1 w|world\n1 0 t|hello world\n\
                  0 version 5 marks 0-0@6\n0 0 t|Jello \n1 version 3 marks 0-0@80\n1 0 t|Jello world\n",
        refused: false,
    };
    assert_row(&rt, rt.alloc(), row)
}

/// The second write fails, and so the run stops after one row. The views have their histories.
#[test]
fn a_write_that_fails_stops_the_run(rt: HostRuntime) -> Result<(), Fail> {
    let alloc = rt.alloc();
    let mut out = ListSink::new(alloc, Vec::from_slice(alloc, &[2])?);
    let script = "1 {\"rows\":[0,2]}\n0 {\"rows\":[0,2]}\n";
    let played = played(&rt, alloc, 2, "a\nb", script, &mut out)?;
    assert_eq!(rt; played.refused, Err::<bool, Stop>(Stop::Write));
    assert_eq!(rt; played.histories.len(), 2);
    assert_eq!(rt; out.taken(), b"1 0 t|a\n".as_slice());
    Ok(())
}
