//! Undo and redo, step by step.
use crate::editing::{Range, assert_batch, assert_text, edit, redo, splices, undo};
use cell_units::{Fault, Steps};
use display_map::Display;
use std::alloc::Global;
use std::process::Abort;
use std::test::Fail;
use undo_line::UndoLine;

/// What is done to a text.
#[derive(Clone, Copy)]
enum Step<'a> {
    Edit(&'a [Range<'a>]),
    Undo,
    Redo,
}

/// Takes a step, and returns whether there was one to take.
fn take(
    rt: &impl Abort,
    alloc: Global,
    display: &mut Display,
    line: &mut UndoLine,
    step: &Step,
) -> Result<bool, Fault> {
    match step {
        Step::Edit(ranges) => {
            edit(rt, alloc, display, line, ranges)?;
            Ok(true)
        }
        Step::Undo => undo(rt, alloc, display, line),
        Step::Redo => redo(rt, alloc, display, line),
    }
}

/// From the text `abc` on, each step is taken or not, and leaves its text.
fn assert_steps(rt: &impl Abort, alloc: Global, steps: &[(Step, bool, &str)]) -> Result<(), Fail> {
    let mut line = UndoLine::new(alloc);
    let mut display = Display::start(alloc, b"abc", &mut Steps::new())?;
    for (step, taken, text) in steps {
        let found = take(rt, alloc, &mut display, &mut line, step)?;
        assert_eq!(rt; found, *taken);
        assert_text(rt, alloc, &display, text)?;
    }
    Ok(())
}

#[test]
fn edits_are_undone_and_done_again(rt: HostRuntime) -> Result<(), Fail> {
    let steps = [
        (Step::Edit(&[(0, 1, "XY"), (3, 3, "!")]), true, "XYbc!"),
        (Step::Edit(&[(2, 4, "")]), true, "XY!"),
        (Step::Undo, true, "XYbc!"),
        (Step::Undo, true, "abc"),
        (Step::Undo, false, "abc"),
        (Step::Redo, true, "XYbc!"),
        (Step::Redo, true, "XY!"),
        (Step::Redo, false, "XY!"),
    ];
    assert_steps(&rt, rt.alloc(), &steps)
}

#[test]
fn an_edit_after_an_undo_ends_redo(rt: HostRuntime) -> Result<(), Fail> {
    let steps = [
        (Step::Edit(&[(0, 1, "XY"), (3, 3, "!")]), true, "XYbc!"),
        (Step::Undo, true, "abc"),
        (Step::Edit(&[(0, 0, "z")]), true, "zabc"),
        (Step::Redo, false, "zabc"),
        (Step::Undo, true, "abc"),
        (Step::Undo, false, "abc"),
        (Step::Redo, true, "zabc"),
    ];
    assert_steps(&rt, rt.alloc(), &steps)
}

#[test]
fn an_edit_is_kept_to_be_taken_back(rt: HostRuntime) -> Result<(), Fail> {
    let alloc = rt.alloc();
    let ranges = [(3, 3, "de"), (3, 4, "f")];
    let mut line = UndoLine::new(alloc);
    line.ready()?;
    line.edited(splices(alloc, &ranges)?);
    let last = line.last_done().ok_or("nothing to undo")?;
    assert_batch(&rt, last, &ranges);
    assert!(rt; line.last_undone().is_none());
    Ok(())
}
