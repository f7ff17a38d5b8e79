//! What a change makes of a record and of the jobs that are out.
ghost use Rattle.std.specs.Prelude.{◌≡◌, ◌≤◌, ◌==◌, [], ◌∷◌, None, true, false, length, find, IfErr, IfOk, OnOk};
ghost use Rattle.cell_units.specs.declared.limits.TheConstants.{TEXT_LIMIT};
ghost use Rattle.plain_rows.specs.Reach.{LandsAtMost, WorksAtMost};
ghost use Rattle.display_sheet.specs.declared.change.Splice.{Splice};
ghost use Rattle.display_sheet.specs.Changes.{are_ranges, batch, is_replacement, operation_of, operation_refusal, replacement};
ghost use Rattle.display_sheet.specs.Faults.{IsRefusedAs};
ghost use Rattle.kept_sheet.specs.Bounds.{ReplacesAtMost};
ghost use Rattle.display_map.specs.Splicing.{spliced_text};
ghost use Rattle.display_map.specs.Works.{IsKept, IsWork, LinesFit, landing_lines, with_landed};
ghost use Rattle.wrap_workers.specs.Jobs.{places_of};

use crate::outs::{self, Out};
use crate::splicing::is_operation;
use cell_line::{Cuts, Run};
use cell_units::{Fault, NoMemory, Steps};
use display_sheet::{Op, Splice};
use kept_sheet::{JobSheet, Sheet};
use std::alloc::Global;

/// A record after a change, and where the lines of the jobs that are out are then.
#[derive(Drop)]
pub(crate) struct Work<S: Sheet> {
    pub(crate) sheet: S,
    pub(crate) outs: Vec<Out>,
}

/// An operation that isn't a replacement.
pub(crate) fn one<S: Sheet>(
    alloc: Global,
    sheet: &S,
    outs: &[Out],
    op: &Op,
    steps: &mut Steps,
) -> Result<Work<S>, Fault>
    requires other { is_replacement op.now ≡ false }
    requires kept { IsKept (S.kept sheet.now) outs.now }
    ensures accepted { OnOk result
        (operation_refusal (S.kept sheet.now) (operation_of op.now) ≡ None) }
    ensures done { IfOk result (λ work. IsWork (operation_of op.now ∷ []) (S.kept sheet.now) outs.now
        (S.kept work.sheet) work.outs.items) }
    ensures refused { IfErr result
        (IsRefusedAs (operation_refusal (S.kept sheet.now) (operation_of op.now))) }
    ensures counted { steps.old ≤ steps.new }
    ensures steps { WorksAtMost (operation_of op.now) (S.kept sheet.now) steps.old steps.new }
{
    let done = sheet.operated(alloc, op, steps)?;
    let mut carried = outs::copied(alloc, outs)?;
    let lines = done.0.lines();
    outs::carry(carried.as_mut_slice(), done.1, sheet.lines(), lines);
    Ok(Work {
        sheet: done.0,
        outs: carried,
    })
}

/// A batch of replacements, from the last to the first.
pub(crate) fn batch<S: Sheet>(
    alloc: Global,
    sheet: &S,
    outs: &[Out],
    splices: &[Splice],
    steps: &mut Steps,
) -> Result<Work<S>, NoMemory>
    // Some history is kept so, and the ranges lie in its text, one after the other.
    requires kept { IsKept (S.kept sheet.now) outs.now }
    requires ranges { are_ranges (S.kept sheet.now).text 0 splices.now ≡ true }

    // The text is no longer than it may be before the batch and after it. In between it may be longer.
    requires short { length (S.kept sheet.now).text ≤ TEXT_LIMIT }
    requires short_after { length (spliced_text (S.kept sheet.now).text 0 splices.now)
        ≤ TEXT_LIMIT }

    // Whatever history is kept so, it is still kept with the batch after it.
    ensures done { IfOk result (λ work. IsWork (batch splices.now) (S.kept sheet.now) outs.now
        (S.kept work.sheet) work.outs.items) }

    // The work, which is bounded where there is one replacement alone.
    ensures counted { steps.old ≤ steps.new }
    ensures steps { (splice : Splice) → splices.now ≡ splice ∷ [] →
        ReplacesAtMost (replacement splice) (S.kept sheet.now) steps.old steps.new }
{
    let mut now = sheet.share()?;
    let mut carried = outs::copied(alloc, outs)?;
    for i in (0..splices.len()).rev() {
        let splice = &splices[i];
        if is_operation(splice) {
            let done = now.replaced(alloc, splice, steps)?;
            let lines = done.0.lines();
            outs::carry(carried.as_mut_slice(), done.1, now.lines(), lines);
            now = done.0;
        }
    }
    Ok(Work {
        sheet: now,
        outs: carried,
    })
}

/// The record in which the lines of a job are wrapped, where it is out and has the present width. `old` are the lines
/// that it was made of, and `cuts` those of its run.
pub(crate) fn landed<S: JobSheet>(
    alloc: Global,
    sheet: &S,
    outs: &[Out],
    number: u64,
    old: &S::Held,
    run: Run,
    cuts: &[Cuts],
    steps: &mut Steps,
) -> Result<S, NoMemory>
    requires { LinesFit (S.kept sheet.now) (find (λ out. out.number == number) outs.now)
        (S.Held.elements_by_line old.now) run (places_of cuts.now) }
    ensures landed { IfOk result (λ landed. S.kept landed
        ≡ with_landed (S.kept sheet.now) (find (λ out. out.number == number) outs.now)) }
    ensures counted { steps.old ≤ steps.new }
    ensures steps { let out = find (λ out. out.number == number) outs.now in
        let lines = landing_lines (S.kept sheet.now) out in
        LandsAtMost run.count lines (S.kept sheet.now) steps.old steps.new }
{
    let Some(out) = outs::found(outs, number) else {
        return sheet.share();
    };
    if out.width() != sheet.width() {
        return sheet.share();
    }
    sheet.landed(alloc, old, run, out.lines(), cuts, steps)
}
