//! What is done with each of several displays.
ghost use Rattle.std.specs.Prelude.{◌≡◌, ◌+◌, ◌≤◌, ℕ, [], None, Option, length, map, replicate, vec_len, IfErr, IfOk, OnErr, OnOk};
ghost use Rattle.std.specs.List.{All};
ghost use Rattle.std.specs.Vec.{vec_capacity};
ghost use Rattle.cell_units.specs.declared.fault.Refusal.{Refusal};
ghost use Rattle.display_sheet.specs.Changes.{change_refusal, ops_of, parts_of};
ghost use Rattle.display_map.specs.Events.{event_limit};
ghost use Rattle.display_map.specs.Prepared.{IsOwed};
ghost use Rattle.display_map.specs.Replay.{appended, present_of};
ghost use Rattle.split_views.specs.Views.{added, is_edit};

use cell_units::{Fault, NoMemory, Steps};
use display_map::{Change, DisplayOn, Journal, Op, PreparedOn};
use kept_sheet::Sheet;
use std::alloc::Global;

/// So many displays, which share what the first has.
pub(crate) fn copies<S: Sheet>(
    alloc: Global,
    first: DisplayOn<S>,
    count: u32,
) -> Result<Vec<DisplayOn<S>>, NoMemory>
    requires { 1 ≤ count }
    ensures { IfOk result (λ displays. displays.items ≡ replicate count first) }
{
    let mut displays = Vec::with_capacity(alloc, count as usize)?;
    for _copy in 1..count {
        displays.push(first.copied(alloc)?)?;
    }
    displays.push(first)?;
    Ok(displays)
}

/// Whether a change is an edit: a batch of replacements, or one replacement.
pub(crate) fn is_edit(change: &Change) -> bool
    ensures { result ≡ is_edit (parts_of change.now) }
{
    match change {
        Change::Edit(_) | Change::One(Op::Replace(_)) => true,
        Change::One(_) => false,
    }
}

/// The room for so many prepared changes.
fn room_for<S: Sheet>(alloc: Global, count: usize) -> Result<Vec<PreparedOn<S>>, NoMemory>
    ensures none { IfOk result (λ ready. ready.items ≡ []) }
    ensures len { IfOk result (λ ready. vec_len ready ≡ 0) }
    ensures room { IfOk result (λ ready. vec_capacity ready ≡ count) }
{
    Ok(Vec::with_capacity(alloc, count)?)
}

/// A change of every display, prepared beside it.
fn prepare<S: Sheet>(
    alloc: Global,
    displays: &[DisplayOn<S>],
    number: u64,
    change: &Change,
    steps: &mut Steps,
) -> Result<Vec<PreparedOn<S>>, Fault>
    // Each journal has room for the line and for an event of each operation.
    requires room { All (λ h. length h.events + (length (ops_of change.now) + 1) ≤ event_limit)
        displays.now }

    // It is prepared only where no display owes a refusal. Where all owe the same, it is that one.
    ensures accepted { OnOk result
        (All (λ h. change_refusal (present_of h) change.now ≡ None) displays.now) }
    ensures refused { (owed : Option Refusal) →
        All (λ h. change_refusal (present_of h) change.now ≡ owed) displays.now →
        IfErr result (IsOwed owed) }

    // What is prepared, in the order of the displays.
    ensures before { IfOk result (λ ready. map (λ r. r.before) ready.items ≡ displays.now) }
    ensures after { IfOk result (λ ready. map (λ r. r.after) ready.items
        ≡ map (λ h. appended h (added number change.now)) displays.now) }

    // The work.
    ensures counted { steps.old ≤ steps.new }
{
    let mut ready = room_for(alloc, displays.len())?;
    for display in displays {
        ready.push_reserved(display.prepare(alloc, number, change, steps)?);
    }
    Ok(ready)
}

/// Takes what was prepared for each display. It takes no memory.
fn commit<S: Sheet>(displays: &mut Vec<DisplayOn<S>>, ready: Vec<PreparedOn<S>>)
    requires { map (λ r. r.before) ready.items ≡ displays.old.items }
    ensures { displays.new.items ≡ map (λ r. r.after) ready.items }
{
    let mut ready = ready;
    // From the last display to the first.
    'commits: while let Some(next) = ready.pop() {
        displays[ready.len()].commit(next);
    }
}

/// Does a change in every display, or in none. From the first display that it changes on it takes no memory.
pub(crate) fn apply<S: Sheet>(
    alloc: Global,
    displays: &mut Vec<DisplayOn<S>>,
    number: u64,
    change: &Change,
    steps: &mut Steps,
) -> Result<(), Fault>
    // Each journal has room for the line and for an event of each operation.
    requires room { All (λ h. length h.events + (length (ops_of change.now) + 1) ≤ event_limit)
        displays.old.items }

    // When it is done, and what is there after it.
    ensures accepted { OnOk result
        (All (λ h. change_refusal (present_of h) change.now ≡ None) displays.old.items) }
    ensures done { OnOk result
        (displays.new.items
        ≡ map (λ h. appended h (added number change.now)) displays.old.items) }

    // Why it is refused, and that nothing is changed then.
    ensures refused { (owed : Option Refusal) →
        All (λ h. change_refusal (present_of h) change.now ≡ owed) displays.old.items →
        IfErr result (IsOwed owed) }
    ensures unchanged { OnErr result (displays.new.items ≡ displays.old.items) }

    // The work.
    ensures counted { steps.old ≤ steps.new }
{
    let ready = prepare(alloc, displays, number, change, steps)?;
    commit(displays, ready);
    Ok(())
}

/// Does a change in one display, with its line.
pub(crate) fn apply_one<S: Sheet>(
    alloc: Global,
    display: &mut DisplayOn<S>,
    number: u64,
    change: &Change,
    steps: &mut Steps,
) -> Result<(), Fault>
    // The journal has room for the line and for an event of each operation.
    requires room { length display.old.events + (length (ops_of change.now) + 1) ≤ event_limit }

    // When it is done, and what is there after it.
    ensures accepted { OnOk result (change_refusal (present_of display.old) change.now ≡ None) }
    ensures done { OnOk result (display.new ≡ appended display.old (added number change.now)) }

    // Why it is refused, and that nothing is changed then.
    ensures refused { IfErr result (IsOwed (change_refusal (present_of display.old) change.now)) }
    ensures unchanged { OnErr result (display.new ≡ display.old) }

    // The work.
    ensures counted { steps.old ≤ steps.new }
{
    let ready = display.prepare(alloc, number, change, steps)?;
    display.commit(ready);
    Ok(())
}

/// How many events each journal may still take.
pub(crate) fn room<S: Sheet>(displays: &[DisplayOn<S>]) -> u32
    requires { 1 ≤ length displays.now }
    ensures within { All (λ h. result + length h.events ≤ event_limit) displays.now }
    ensures greatest { (n : ℕ) →
        All (λ h. n + length h.events ≤ event_limit) displays.now → n ≤ result }
{
    let mut room = u32::MAX;
    for display in displays {
        room = room.min(display.room());
    }
    room
}

/// The journals of displays, put into a list that has room for them.
pub(crate) fn into_journals<S: Sheet>(
    displays: Vec<DisplayOn<S>>,
    journals: Vec<Journal>,
) -> Vec<Journal>
    requires none { journals.items ≡ [] }
    requires room { vec_len journals + length displays.items ≤ vec_capacity journals }
    ensures { result.items ≡ map (λ h. h.events) displays.items }
{
    let mut displays = displays;
    let mut journals = journals;
    'views: while !displays.is_empty() {
        let display = displays.remove(0);
        journals.push_reserved(display.into_journal());
    }
    journals
}
