//! Changes that are prepared beside a display, and taken later.
ghost use Rattle.std.specs.Prelude.{◌≡◌, IfOk};

use crate::views::assert_row;
use cell_units::{Fault, Refusal, Steps, Text};
use display_map::{Change, DisplayOn, Event, Journal, Kind, Op, PreparedOn, Splice};
use kept_sheet::Sheet;
use map_sheet::MapSheet;
use std::alloc::Global;
use std::process::Abort;
use std::test::Fail;

/// Prepares the insertion of a letter at an offset, which the seventh line of a script asks for.
fn prepare_letter<S: Sheet>(
    rt: &impl Abort,
    alloc: Global,
    display: &DisplayOn<S>,
    offset: u32,
) -> Result<PreparedOn<S>, Fault>
    ensures { IfOk result (λ ready. ready.before ≡ display.now) }
{
    assert!(rt; display.room() >= 2);
    let splice = Splice {
        start: offset,
        end: offset,
        text: Text::from_str(alloc, "x")?,
    };
    let change = Change::One(Op::Replace(splice));
    display.prepare(alloc, 7, &change, &mut Steps::new())
}

/// Asserts that the one row of the display is this.
fn assert_text<S: Sheet>(
    rt: &impl Abort,
    alloc: Global,
    display: &DisplayOn<S>,
    text: &str,
) -> Result<(), Fail> {
    let view = display.view()?;
    assert_row(rt, alloc, &view, 0, Kind::Head, text)
}

/// Puts a letter after the first one of `abc`, which shows only once it is taken.
fn put_letter<S: Sheet>(
    rt: &impl Abort,
    alloc: Global,
    display: &mut DisplayOn<S>,
) -> Result<(), Fail> {
    let ready = prepare_letter(rt, alloc, display, 1)?;
    assert_text(rt, alloc, display, "abc")?;
    display.commit(ready);
    assert_text(rt, alloc, display, "axbc")
}

/// Asserts that the events are that line and its operation.
fn assert_noted(rt: &impl Abort, journal: &Journal) {
    assert_eq!(rt; journal.len(), 2);
    assert!(rt; matches!(journal.get(0), Some(Event::Line { number: 7 })));
    assert!(rt; matches!(journal.get(1), Some(Event::Did { .. })));
}

/// Does both.
fn assert_put<S: Sheet>(rt: &impl Abort, alloc: Global) -> Result<(), Fail> {
    let mut display = DisplayOn::<S>::start(alloc, b"abc", &mut Steps::new())?;
    put_letter(rt, alloc, &mut display)?;
    let journal = display.into_journal();
    assert_noted(rt, &journal);
    Ok(())
}

#[test]
fn a_prepared_change_shows_once_it_is_taken(rt: HostRuntime) -> Result<(), Fail> {
    assert_put::<MapSheet>(&rt, rt.alloc())
}

/// Asserts that no letter is put past the end.
fn refuse_letter<S: Sheet>(rt: &impl Abort, alloc: Global) -> Result<(), Fail> {
    let display = DisplayOn::<S>::start(alloc, b"abc", &mut Steps::new())?;
    match prepare_letter(rt, alloc, &display, 9) {
        Err(fault) => assert_eq!(rt; fault, Fault::Refused(Refusal::BadRange)),
        Ok(_) => panic!(rt; "it was prepared"),
    }
    Ok(())
}

#[test]
fn a_change_that_is_refused_is_not_prepared(rt: HostRuntime) -> Result<(), Fail> {
    refuse_letter::<MapSheet>(&rt, rt.alloc())
}
