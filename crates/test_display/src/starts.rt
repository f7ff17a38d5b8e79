//! Displays that were just opened, and changes of them.
use crate::views::{assert_row, view_of};
use cell_units::limits::TEXT_LIMIT;
use cell_units::{Fault, NoMemory, Refusal, Steps, Text, TextFault};
use display_map::{Change, DisplayOn, Kind, Splice, ViewOn};
use kept_sheet::Sheet;
use map_sheet::MapSheet;
use std::alloc::Global;
use std::process::Abort;
use std::test::Fail;

/// Asserts that there are two rows, of which the second is empty.
fn assert_rows<S: Sheet>(rt: &impl Abort, alloc: Global) -> Result<(), Fail> {
    let view = view_of::<S>(alloc, b"abc\r\n")?;
    assert_eq!(rt; view.row_count(), 2);
    assert_row(rt, alloc, &view, 0, Kind::Head, "abc")?;
    assert_row(rt, alloc, &view, 1, Kind::Head, "")
}

#[test]
fn carriage_returns_end_lines(rt: HostRuntime) -> Result<(), Fail> {
    assert_rows::<MapSheet>(&rt, rt.alloc())
}

/// Asserts that no display starts where the fourth byte is none of a text.
fn refuse_bytes<S: Sheet>(rt: &impl Abort, alloc: Global) {
    match DisplayOn::<S>::start(alloc, b"abc\xff", &mut Steps::new()) {
        Err(fault) => assert_eq!(rt; fault, TextFault::NotUtf8 { at: 3 }),
        Ok(_) => panic!(rt; "no fault"),
    }
}

#[test]
fn bytes_that_are_no_text_are_refused(rt: HostRuntime) {
    refuse_bytes::<MapSheet>(&rt, rt.alloc());
}

/// The replacement of a range by a text.
fn splice(alloc: Global, start: u32, end: u32, text: &str) -> Result<Splice, NoMemory> {
    Ok(Splice {
        start,
        end,
        text: Text::from_str(alloc, text)?,
    })
}

/// Does a batch of replacements.
#[tactic(auto, using(crate::proofs::Batches::batch_few))]
fn edit<S: Sheet>(
    rt: &impl Abort,
    alloc: Global,
    display: &mut DisplayOn<S>,
    splices: Vec<Splice>,
) -> Result<(), Fault> {
    assert!(rt; splices.len() <= 2000);
    assert!(rt; display.room() >= 2000);
    display.apply(alloc, &Change::Edit(splices), &mut Steps::new())
}

/// As many letters as a text may have.
fn longest(alloc: Global) -> Result<String, NoMemory> {
    let piece = "a".repeat(alloc, 1024)?;
    Ok(piece.repeat(alloc, TEXT_LIMIT / 1024)?)
}

/// Asserts that the letters are too long beside the one that is there.
fn refuse_edit<S: Sheet>(
    rt: &impl Abort,
    alloc: Global,
    display: &mut DisplayOn<S>,
) -> Result<(), NoMemory> {
    let text = longest(alloc)?;
    let splices = vec![in alloc; splice(alloc, 0, 0, text.as_str())?]?;
    let result = edit(rt, alloc, display, splices);
    assert_eq!(rt; result, Err(Fault::Refused(Refusal::TooLong)));
    Ok(())
}

/// Asserts that, and that it is no event.
fn assert_no_edit<S: Sheet>(rt: &impl Abort, alloc: Global) -> Result<(), Fail> {
    let mut display = DisplayOn::<S>::start(alloc, b"a", &mut Steps::new())?;
    refuse_edit(rt, alloc, &mut display)?;
    let journal = display.into_journal();
    assert_eq!(rt; journal.len(), 0);
    Ok(())
}

#[test]
fn a_text_over_the_limit_is_refused(rt: HostRuntime) -> Result<(), Fail> {
    assert_no_edit::<MapSheet>(&rt, rt.alloc())
}

/// Of a hundred lines of twenty letters, each first of two letters is replaced by `xy` and each second by `-`.
fn replacements(alloc: Global) -> Result<Vec<Splice>, NoMemory> {
    let mut splices = Vec::new(alloc);
    for line in 0..100u32 {
        for pair in 0..10u32 {
            let start = 21 * line + 2 * pair;
            splices.push(splice(alloc, start, start + 1, "xy")?)?;
            splices.push(splice(alloc, start + 1, start + 2, "-")?)?;
        }
    }
    Ok(splices)
}

/// A display of those lines, with that done.
fn edited<S: Sheet>(rt: &impl Abort, alloc: Global) -> Result<DisplayOn<S>, Fail> {
    let text = "abababababababababab\n".repeat(alloc, 100)?;
    let splices = replacements(alloc)?;
    let mut display = DisplayOn::<S>::start(alloc, text.as_bytes(), &mut Steps::new())?;
    edit(rt, alloc, &mut display, splices)?;
    Ok(display)
}

/// Asserts the rows of that.
fn assert_edited<S: Sheet>(rt: &impl Abort, alloc: Global, view: &ViewOn<S>) -> Result<(), Fail> {
    assert_eq!(rt; view.row_count(), 101);
    let line = "xy-xy-xy-xy-xy-xy-xy-xy-xy-xy-";
    assert_row(rt, alloc, view, 0, Kind::Head, line)?;
    assert_row(rt, alloc, view, 99, Kind::Head, line)?;
    assert_row(rt, alloc, view, 100, Kind::Head, "")
}

/// Asserts them, and how many events there are.
fn assert_applied<S: Sheet>(rt: &impl Abort, alloc: Global) -> Result<(), Fail> {
    let display = edited::<S>(rt, alloc)?;
    let view = display.view()?;
    assert_edited(rt, alloc, &view)?;
    let journal = display.into_journal();
    assert_eq!(rt; journal.len(), 2000);
    Ok(())
}

#[test]
fn a_batch_of_two_thousand_ranges_is_applied(rt: HostRuntime) -> Result<(), Fail> {
    assert_applied::<MapSheet>(&rt, rt.alloc())
}
