//! What is asked of a text under its maps: any line and row may be asked for, and each answer is a plain value.
ghost use Rattle.std.specs.Prelude.{◌+◌, ◌≤◌};

use cell_line::Run;
use cell_units::{NoMemory, Rows, Steps};
use edit_patch::Patch;
use std::alloc::Global;
use test_stages::{Shown, StagedText};
use test_support::told::Stretch;
use wrap_map::MarkRun;

/// The number of rows.
pub(crate) fn row_count(shown: &Shown) -> u32 {
    shown.rows_before(shown.lines())
}

/// How many rows are before a line, where there is such a line, or before the end.
pub(crate) fn rows_before(shown: &Shown, line: u32) -> Option<u32> {
    if line > shown.lines() {
        return None;
    }
    Some(shown.rows_before(line))
}

/// The number of rows of a line, or 0 where there is no such line.
pub(crate) fn rows_of(shown: &Shown, line: u32) -> u32 {
    if line >= shown.lines() {
        return 0;
    }
    shown.rows_of(line)
}

/// The text of a row of a line, if there is such a row.
pub(crate) fn row_text(
    alloc: Global,
    shown: &Shown,
    line: u32,
    row: u32,
) -> Result<Option<String>, NoMemory> {
    if line < shown.lines() && row < shown.rows_of(line) {
        let text = shown.row_text(alloc, line, row)?;
        return Ok(Some(String::from_str(alloc, text.as_str())?));
    }
    Ok(None)
}

/// The width at which a line is wrapped, if there is such a line.
pub(crate) fn mark(shown: &Shown, line: u32) -> Option<u32> {
    if line >= shown.lines() {
        return None;
    }
    Some(shown.mark(line, &mut Steps::new()))
}

/// The maximal runs of lines of one mark.
pub(crate) fn marks(alloc: Global, shown: &Shown) -> Result<Vec<MarkRun>, NoMemory> {
    shown.marks(alloc, &mut Steps::new())
}

/// What a patch of one edit replaces, or none where it has another number of edits.
pub(crate) fn stretch(patch: &Patch) -> Stretch {
    let edits = patch.edits();
    let edit = edits.first()?;
    if edits.len() != 1 || edit.new_start != edit.old_start {
        return None;
    }
    let count = edit.new_end.wrapping_sub(edit.new_start);
    Some((edit.old_start, edit.old_end, count))
}

/// The run that is to be wrapped next.
pub(crate) fn waiting(text: &StagedText) -> Option<Run> {
    text.lines.next_run(&[], &mut Steps::new())
}

/// The run that is to be wrapped next where these two are out, or `None` where they aren't in order.
pub(crate) fn waiting_beside(text: &StagedText, one: Run, other: Run) -> Option<Run> {
    let end = one.first.saturating_add(one.count);
    if end == u32::MAX || end > other.first {
        return None;
    }
    waiting_apart(text, one, other)
}

/// The same of two that are in order.
fn waiting_apart(text: &StagedText, one: Run, other: Run) -> Option<Run>
    requires { one.first + one.count ≤ other.first }
{
    text.lines.next_run(&[one, other], &mut Steps::new())
}
