//! A batch of replacements, judged in one pass.
ghost use Rattle.std.specs.Prelude.{◌≡◌, ◌+◌, ◌*◌, ◌^◌, ◌<◌, ◌≤◌, ◌++◌, nat_lt, true, length, take, IfOk, OnOk, OnErr};
ghost use Rattle.std.specs.Str.{IsUtf8};
ghost use Rattle.cell_units.specs.declared.limits.TheConstants.{TEXT_LIMIT};
ghost use Rattle.cell_units.specs.Text.{clean};
ghost use Rattle.display_sheet.specs.Changes.{are_ranges, batch, is_operation};
ghost use Rattle.kept_sheet.specs.Bounds.{LooksAtMost};
ghost use Rattle.display_map.specs.Splicing.{did_events, is_range, spliced_text};

use crate::event::Event;
use crate::journal::Journal;
use cell_units::limits::TEXT_LIMIT;
use cell_units::{NoMemory, Steps, cleaned};
use display_sheet::{Op, Splice};
use kept_sheet::Sheet;
use std::alloc::Global;

/// Whether a splice is an operation: it doesn't replace nothing by nothing.
pub(crate) fn is_operation(splice: &Splice) -> bool
    ensures operation { result ≡ is_operation splice.now }
    ensures utf8 { IsUtf8 splice.now.text }
{
    let inserted = splice.text.as_str().len();
    !(splice.start == splice.end && inserted == 0)
}

/// Whether a range lies between boundaries of the text, not before an offset.
fn is_range<S: Sheet>(sheet: &S, from: u32, splice: &Splice, steps: &mut Steps) -> bool
    ensures test { result ≡ is_range (S.kept sheet.now).text from splice.now }
    ensures counted { steps.old ≤ steps.new }
    ensures steps { LooksAtMost 2 (S.kept sheet.now) steps.old steps.new }
{
    from <= splice.start
        && splice.start <= splice.end
        && sheet.is_boundary(splice.start, steps)
        && sheet.is_boundary(splice.end, steps)
}

/// Whether the ranges lie in the text between boundaries, in order and disjoint.
pub(crate) fn are_ranges<S: Sheet>(sheet: &S, splices: &[Splice], steps: &mut Steps) -> bool
    ensures test { result ≡ are_ranges (S.kept sheet.now).text 0 splices.now }
    ensures counted { steps.old ≤ steps.new }
    ensures steps { let offsets = 2 * length splices.now in
        LooksAtMost offsets (S.kept sheet.now) steps.old steps.new }
{
    let mut from = 0;
    for splice in splices {
        if !is_range(sheet, from, splice, steps) {
            return false;
        }
        from = splice.end;
    }
    true
}

/// How many bytes a replacement puts in.
fn put_len(alloc: Global, splice: &Splice) -> Result<u64, NoMemory>
    ensures length { IfOk result (λ len. len ≡ length (clean splice.now.text)) }
    ensures small { IfOk result (λ len. len < 2 ^ 63) }
{
    Ok(cleaned(alloc, splice.text.as_str())?.len() as u64)
}

/// Whether the text with all splices done would be longer than a text may be. Lengths alone decide it.
pub(crate) fn is_too_long<S: Sheet>(
    alloc: Global,
    sheet: &S,
    splices: &[Splice],
) -> Result<bool, NoMemory>
    requires { are_ranges (S.kept sheet.now).text 0 splices.now ≡ true }
    ensures { IfOk result (λ long. long
        ≡ nat_lt TEXT_LIMIT (length (spliced_text (S.kept sheet.now).text 0 splices.now))) }
{
    let mut len = 0u64;
    let mut from = 0;
    for splice in splices {
        len += u64::from(splice.start - from) + put_len(alloc, splice)?;
        if len > TEXT_LIMIT as u64 {
            return Ok(true);
        }
        from = splice.end;
    }
    Ok(len + u64::from(sheet.text_len() - from) > TEXT_LIMIT as u64)
}

/// Appends the events of a batch: from the last splice to the first, without those that are no operation.
fn push_each(alloc: Global, journal: &mut Journal, splices: &[Splice]) -> Result<(), NoMemory>
    requires room { length journal.old + length (batch splices.now) < 2 ^ 32 }
    ensures appended { OnOk result (journal.new ≡ journal.old ++ did_events splices.now) }
    ensures begins { take (length journal.old) journal.new ≡ journal.old }
{
    for i in (0..splices.len()).rev() {
        let splice = &splices[i];
        if is_operation(splice) {
            let op = Op::Replace(splice.copy(alloc)?);
            journal.push(alloc, Event::Did { op })?;
        }
    }
    Ok(())
}

/// Appends the events of a batch, or none.
pub(crate) fn push_batch(
    alloc: Global,
    journal: &mut Journal,
    splices: &[Splice],
) -> Result<(), NoMemory>
    requires room { length journal.old + length (batch splices.now) < 2 ^ 32 }
    ensures appended { OnOk result (journal.new ≡ journal.old ++ did_events splices.now) }
    ensures unchanged { OnErr result (journal.new ≡ journal.old) }
{
    let len = journal.len();
    if let Err(error) = push_each(alloc, journal, splices) {
        journal.truncate(len);
        return Err(error);
    }
    Ok(())
}
