//! What the tests do with a split, and what they ask of its rows and events.
ghost use Rattle.std.specs.Prelude.{◌≡◌, ◌<◌, ◌≤◌, ℕ, length, IfOk};
ghost use Rattle.display_sheet.specs.Changes.{ops_of};
ghost use Rattle.split_views.specs.Views.{history_of};
ghost use Rattle.split_views.specs.Wrapping.{IsIdle};

use cell_units::{Fault, NoMemory, Steps, Text};
use display_map::{Change, Event, Journal, Op, Splice};
use split_views::{Split, idle_laws, view_laws};
use std::alloc::Global;
use std::process::Abort;
use std::test::Fail;

/// So many views of a text.
pub(crate) fn split_of(alloc: Global, text: &str, views: u32) -> Result<Split, Fail>
    requires { (1 ≤ views) × (views ≤ 8) }
    ensures len { IfOk result (λ split. length split ≡ views) }
    ensures idle { IfOk result (λ split. (view : ℕ) → view < views →
        IsIdle (history_of split view)) }
{
    // For the proof: no job is out at the start.
    idle_laws();
    Ok(Split::start(alloc, text.as_bytes(), views, &mut Steps::new())?)
}

/// Does a change in a view, for the first line of a script.
fn change(
    rt: &impl Abort,
    alloc: Global,
    split: &mut Split,
    view: u32,
    change: &Change,
) -> Result<(), Fault>
    requires view { view < length split.old }
    requires few { length (ops_of change.now) ≤ 1 }
    ensures len { length split.new ≡ length split.old }
    ensures idle { (other : ℕ) → IsIdle (history_of split.old other) →
        IsIdle (history_of split.new other) }
{
    // For the proof: as many views are there after it, and no job is out.
    view_laws();
    idle_laws();
    assert!(rt; split.room() >= 2);
    split.apply(alloc, view, 1, change, &mut Steps::new())
}

/// Does an operation in a view.
pub(crate) fn operate(
    rt: &impl Abort,
    alloc: Global,
    split: &mut Split,
    view: u32,
    op: Op,
) -> Result<(), Fault>
    requires { view < length split.old }
    ensures len { length split.new ≡ length split.old }
    ensures idle { (other : ℕ) → IsIdle (history_of split.old other) →
        IsIdle (history_of split.new other) }
{
    change(rt, alloc, split, view, &Change::One(op))
}

/// Puts a text at an offset, from a view.
pub(crate) fn put(
    rt: &impl Abort,
    alloc: Global,
    split: &mut Split,
    view: u32,
    offset: u32,
    text: &str,
) -> Result<(), Fault>
    requires { view < length split.old }
    ensures { length split.new ≡ length split.old }
{
    let splice = Splice {
        start: offset,
        end: offset,
        text: Text::from_str(alloc, text)?,
    };
    operate(rt, alloc, split, view, Op::Replace(splice))
}

/// The rows of a view are these.
pub(crate) fn assert_rows(
    rt: &impl Abort,
    alloc: Global,
    split: &Split,
    view: u32,
    texts: &[&str],
) -> Result<(), NoMemory>
    requires { view < length split.now }
{
    let view = split.view(view)?;
    let rows = view.rows(alloc, 0, 100, &mut Steps::new())?;
    assert_eq!(rt; rows.len(), texts.len());
    for (row, text) in rows.iter().zip(texts) {
        assert_eq!(rt; row.text.as_str(), *text);
    }
    Ok(())
}

/// The events of a journal are of these kinds.
pub(crate) fn assert_events(rt: &impl Abort, journal: &Journal, kinds: &[&str]) {
    assert_eq!(rt; journal.len() as usize, kinds.len());
    for (i, kind) in kinds.iter().enumerate() {
        let found = match journal.get(i as u32) {
            Some(Event::Line { .. }) => "Line",
            Some(Event::Did { .. }) => "Did",
            Some(Event::Sent { .. }) => "Sent",
            Some(Event::Landed { .. }) => "Landed",
            Some(Event::Published { .. }) => "Published",
            None => "nothing",
        };
        assert_eq!(rt; found, *kind);
    }
}
