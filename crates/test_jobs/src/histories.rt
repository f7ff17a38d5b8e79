//! What versions, views and journals have of a landing.
use crate::displays::{
    alike, assert_marks, assert_marks_now, assert_row_count, land, operate, send_run,
};
use cell_units::{Fault, NoMemory, Refusal, Steps};
use display_map::{DisplayOn, Event, Journal, Op, VersionOn, ViewOn, job_laws};
use kept_sheet::{JobSheet, Sheet};
use map_sheet::MapSheet;
use std::alloc::Global;
use std::process::Abort;
use std::test::Fail;

/// Publishes the version of this number.
fn publish_as<S: Sheet>(
    rt: &impl Abort,
    alloc: Global,
    display: &mut DisplayOn<S>,
    number: u64,
) -> Result<(), NoMemory> {
    assert!(rt; display.room() > 0);
    assert_eq!(rt; display.publish(alloc, false)?.number(), number);
    Ok(())
}

/// Sends the next run, which is this one, does it and lands it.
fn land_next<S: JobSheet>(
    rt: &impl Abort,
    alloc: Global,
    display: &mut DisplayOn<S>,
    run: (u32, u32),
) -> Result<(), Fail> {
    // For the proof: a job that was sent is out.
    job_laws();
    let job = send_run(rt, alloc, display, run)?;
    Ok(land(rt, alloc, display, job)?)
}

/// Publishes, lands the first run and publishes again.
fn land_first<S: JobSheet>(
    rt: &impl Abort,
    alloc: Global,
    display: &mut DisplayOn<S>,
) -> Result<(), Fail> {
    publish_as(rt, alloc, display, 0)?;
    land_next(rt, alloc, display, (0, 1))?;
    Ok(publish_as(rt, alloc, display, 1)?)
}

/// A display of `abc` to which that was done.
fn first_landing<S: JobSheet>(rt: &impl Abort, alloc: Global) -> Result<DisplayOn<S>, Fail> {
    let mut display = DisplayOn::<S>::start(alloc, b"abc", &mut Steps::new())?;
    land_first(rt, alloc, &mut display)?;
    Ok(display)
}

/// The kind of an event, if there is one.
fn kind_of(event: Option<&Event>) -> &'static str {
    match event {
        Some(Event::Line { .. }) => "Line",
        Some(Event::Did { .. }) => "Did",
        Some(Event::Sent { .. }) => "Sent",
        Some(Event::Landed { .. }) => "Landed",
        Some(Event::Published { .. }) => "Published",
        None => "nothing",
    }
}

/// The events are of these kinds.
fn assert_events(rt: &impl Abort, journal: &Journal, kinds: &[&str]) {
    assert_eq!(rt; journal.len() as usize, kinds.len());
    for (i, kind) in kinds.iter().enumerate() {
        assert_eq!(rt; kind_of(journal.get(i as u32)), *kind);
    }
}

/// Asserts the events of that display.
fn assert_landed<S: JobSheet>(rt: &impl Abort, alloc: Global) -> Result<(), Fail> {
    let display = first_landing::<S>(rt, alloc)?;
    let journal = display.into_journal();
    assert_events(rt, &journal, &["Published", "Sent", "Landed", "Published"]);
    Ok(())
}

#[test]
fn the_first_landing_lies_between_two_versions(rt: HostRuntime) -> Result<(), Fail> {
    assert_landed::<MapSheet>(&rt, rt.alloc())
}

/// Notes the first line of a script.
fn note<S: Sheet>(
    rt: &impl Abort,
    alloc: Global,
    display: &mut DisplayOn<S>,
) -> Result<(), NoMemory> {
    assert!(rt; display.room() > 0);
    display.note_line(alloc, 1)
}

/// Asserts that the fifth event, which is the last, is that line.
fn assert_noted(rt: &impl Abort, journal: &Journal) {
    assert_eq!(rt; journal.len(), 5);
    assert!(rt; matches!(journal.get(4), Some(Event::Line { number: 1 })));
}

/// Does both.
fn note_fifth<S: JobSheet>(rt: &impl Abort, alloc: Global) -> Result<(), Fail> {
    let mut display = first_landing::<S>(rt, alloc)?;
    note(rt, alloc, &mut display)?;
    let journal = display.into_journal();
    assert_noted(rt, &journal);
    Ok(())
}

#[test]
fn a_line_is_noted(rt: HostRuntime) -> Result<(), Fail> {
    note_fifth::<MapSheet>(&rt, rt.alloc())
}

/// Asserts that a fold of the first nine bytes is refused.
fn refuse_fold<S: Sheet>(rt: &impl Abort, alloc: Global, display: &mut DisplayOn<S>) {
    let fold = Op::Fold {
        id: 1,
        start: 0,
        end: 9,
    };
    let result = operate(rt, alloc, display, fold);
    assert_eq!(rt; result, Err(Fault::Refused(Refusal::BadRange)));
}

/// Asserts that, and that it is no event.
fn assert_no_fold<S: JobSheet>(rt: &impl Abort, alloc: Global) -> Result<(), Fail> {
    let mut display = first_landing::<S>(rt, alloc)?;
    refuse_fold(rt, alloc, &mut display);
    let journal = display.into_journal();
    assert_events(rt, &journal, &["Published", "Sent", "Landed", "Published"]);
    Ok(())
}

#[test]
fn a_fold_past_the_end_is_refused(rt: HostRuntime) -> Result<(), Fail> {
    assert_no_fold::<MapSheet>(&rt, rt.alloc())
}

/// Asserts that a view's record is the text `abc` with one line at 80 cells.
fn assert_plain<S: Sheet>(
    rt: &impl Abort,
    alloc: Global,
    view: &ViewOn<S>,
) -> Result<(), NoMemory> {
    let plain = view.plain(alloc, &mut Steps::new())?;
    assert_eq!(rt; plain.text.as_str(), "abc");
    assert_eq!(rt; plain.marks.as_slice(), [80].as_slice());
    assert_eq!(rt; (plain.tab, plain.width), (4, 80));
    Ok(())
}

/// A view of that display.
fn first_view<S: JobSheet>(rt: &impl Abort, alloc: Global) -> Result<ViewOn<S>, Fail> {
    let display = first_landing::<S>(rt, alloc)?;
    Ok(display.view()?)
}

/// Asserts the number, the marks and the record of that view.
fn assert_kept<S: JobSheet>(rt: &impl Abort, alloc: Global) -> Result<(), Fail> {
    let view = first_view::<S>(rt, alloc)?;
    assert_eq!(rt; view.versions(), 2);
    assert_marks(rt, alloc, &view, &[(0, 0, 80)])?;
    assert_plain(rt, alloc, &view)?;
    Ok(())
}

#[test]
fn a_view_has_marks_and_a_record(rt: HostRuntime) -> Result<(), Fail> {
    assert_kept::<MapSheet>(&rt, rt.alloc())
}

/// The last version of a display.
fn publish_last<S: Sheet>(
    rt: &impl Abort,
    alloc: Global,
    display: &mut DisplayOn<S>,
) -> Result<VersionOn<S>, NoMemory> {
    assert!(rt; display.room() > 0);
    display.publish(alloc, true)
}

/// Asserts that it is the last version, of ten lines in ten rows.
fn assert_last<S: Sheet>(
    rt: &impl Abort,
    alloc: Global,
    version: &VersionOn<S>,
) -> Result<(), NoMemory> {
    assert!(rt; version.last());
    assert_eq!(rt; version.view().row_count(), 10);
    assert_marks(rt, alloc, version.view(), &[])
}

/// Asserts that a version of ten lines in ten rows stays as it was where they are wrapped.
fn assert_version_stays<S: JobSheet>(
    rt: &impl Abort,
    alloc: Global,
    version: &VersionOn<S>,
    display: &mut DisplayOn<S>,
) -> Result<(), Fail> {
    land_next(rt, alloc, display, (0, 10))?;
    assert_last(rt, alloc, version)?;
    assert_row_count(rt, display, 20)?;
    Ok(assert_marks_now(rt, alloc, display, &[(0, 9, 5)])?)
}

/// Publishes it, and asserts that.
fn publish_and_wrap<S: JobSheet>(rt: &impl Abort, alloc: Global) -> Result<(), Fail> {
    let mut display = alike::<S>(rt, alloc, "aaa bbb", 10, 5)?;
    let version = publish_last(rt, alloc, &mut display)?;
    assert_version_stays(rt, alloc, &version, &mut display)
}

#[test]
fn a_version_stays_as_it_was(rt: HostRuntime) -> Result<(), Fail> {
    publish_and_wrap::<MapSheet>(&rt, rt.alloc())
}
