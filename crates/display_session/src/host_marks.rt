//! Marks of a host's own, over changes.
ghost use Rattle.std.specs.Prelude.{◌≡◌, ◌+◌, ◌*◌, ◌<◌, ◌≤◌, ◌⊎◌, All, None, length, IfNone, IfOk, IfSome};
ghost use Rattle.cell_units.specs.declared.limits.TheConstants.{TEXT_LIMIT};
ghost use Rattle.cell_units.specs.Record.{Record};
ghost use Rattle.cell_units.specs.Text.{clean};
ghost use Rattle.display_sheet.specs.Changes.{batch, change_refusal, edit_refusal, is_operation, ops_of, replacement};
ghost use Rattle.display_session.specs.HostMarks.{marks_after, marks_moved};

use cell_units::limits::TEXT_LIMIT;
use cell_units::{NoMemory, Shift, Steps, cleaned};
use display_map::{Change, Op, Splice};
use mark_tree::MarkTree;
use std::alloc::Global;
use std::slice;
use sum_core::NoLoad;

/// Marks at boundaries of a text, each with an id of its own.
pub(crate) type HostMarks = MarkTree<NoLoad>;

/// Whether a splice is an operation: it doesn't replace nothing by nothing.
fn is_operation(splice: &Splice) -> bool
    ensures { result ≡ is_operation splice.now }
{
    let inserted = splice.text.as_str().len();
    !(splice.start == splice.end && inserted == 0)
}

/// Moves marks over one replacement, which puts in at most `room` bytes, and returns how many are left of them. `None`
/// where it puts in more, or its range is backwards.
fn move_over(
    alloc: Global,
    marks: &mut HostMarks,
    splice: &Splice,
    room: u32,
) -> Result<Option<u32>, NoMemory>
    // The marks are that far below the greatest offset.
    requires small { room ≤ TEXT_LIMIT }
    requires within { All (λ m. m.offset + room ≤ 2 * TEXT_LIMIT) marks.old }

    // Where they go, and how far below it they are then.
    ensures moved { IfOk result (λ left. IfSome left (λ left.
        marks.new ≡ marks_after marks.old (replacement splice.now))) }
    ensures within { IfOk result (λ left. IfSome left (λ left.
        All (λ m. m.offset + left ≤ 2 * TEXT_LIMIT) marks.new)) }
    ensures left { IfOk result (λ left. IfSome left (λ left.
        left + length (clean splice.now.text) ≡ room)) }

    // Where they stay.
    ensures none { IfOk result (λ left. IfNone left
        ((room < length (clean splice.now.text)) ⊎ (splice.now.end < splice.now.start))) }
{
    let count = cleaned(alloc, splice.text.as_str())?.len();
    if count > room as usize || splice.end < splice.start {
        return Ok(None);
    }
    let shift = Shift::new(splice.start, splice.end, count as u32);
    marks.apply(alloc, shift, &mut Steps::new())?;
    Ok(Some(room - count as u32))
}

/// The marks after a batch of replacements, from the last to the first, where it isn't refused.
fn moved_over(alloc: Global, marks: &HostMarks, splices: &[Splice]) -> Result<HostMarks, NoMemory>
    requires { All (λ m. m.offset ≤ TEXT_LIMIT) marks.now }
    ensures { IfOk result (λ moved. (r : Record) → edit_refusal r splices.now ≡ None →
        moved ≡ marks_moved (batch splices.now) marks.now) }
{
    let mut moved = marks.share()?;
    let mut room = TEXT_LIMIT as u32;
    for i in (0..splices.len()).rev() {
        let splice = &splices[i];
        if is_operation(splice) {
            let Some(left) = move_over(alloc, &mut moved, splice, room)? else {
                // More is put in than a text may have, or a range is backwards: the display refuses it.
                return Ok(moved);
            };
            room = left;
        }
    }
    Ok(moved)
}

/// The marks after a change, where it isn't refused.
pub(crate) fn moved(
    alloc: Global,
    marks: &HostMarks,
    change: &Change,
) -> Result<HostMarks, NoMemory>
    requires { All (λ m. m.offset ≤ TEXT_LIMIT) marks.now }
    ensures { IfOk result (λ moved. (r : Record) → change_refusal r change.now ≡ None →
        moved ≡ marks_moved (ops_of change.now) marks.now) }
{
    match change {
        Change::Edit(splices) => moved_over(alloc, marks, splices.as_slice()),
        Change::One(Op::Replace(splice)) => moved_over(alloc, marks, slice::from_ref(splice)),
        Change::One(_) => marks.share(),
    }
}
