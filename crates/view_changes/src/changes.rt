//! The rows that changes and landings of a view replaced.
ghost use Rattle.std.specs.Prelude.{◌≡◌, ◌≤◌, ℕ, [], ◌∷◌, None, map, IfOk};
ghost use Rattle.std.specs.Str.{IsUtf8};
ghost use Rattle.display_sheet.specs.Changes.{batch, change_refusal, edit_refusal, is_operation, operation_of, ops_of};
ghost use Rattle.display_map.specs.Events.{Did, Landed};
ghost use Rattle.display_map.specs.LawfulStates.{IsLawfulHistory};
ghost use Rattle.display_map.specs.Replay.{appended, present_of, state_of};
ghost use Rattle.row_pieces.specs.Changed.{no_change};
ghost use Rattle.view_changes.specs.Events.{LedTo, covered, rows_landed, shown_after};

use crate::in_turn::{NO_ROW, covering_of};
use crate::landing::landed_lines;
use crate::lines::rows_of_lines;
use crate::operations::{operated_rows, spliced_rows};
use cell_units::{NoMemory, Steps};
use display_map::{Change, Op, Splice, View};
use kept_sheet::Sheet;
use map_sheet::MapSheet;
use row_pieces::RowChange;
use std::alloc::Global;

/// Whether an entry of a batch is an operation: it doesn't replace nothing by nothing.
fn is_operation(splice: &Splice) -> bool
    ensures operation { result ≡ is_operation splice.now }
    ensures utf8 { IsUtf8 splice.now.text }
{
    let inserted = splice.text.as_str().len();
    splice.start != splice.end || inserted > 0
}

/// What covers a change and the rows that one replacement replaced after it.
fn replaced_rows(
    since: RowChange,
    before: &View,
    after: &MapSheet,
    splice: &Splice,
    steps: &mut Steps,
) -> RowChange
    requires since { LedTo since (present_of before.now) }
    requires lawful { IsLawfulHistory (appended before.now (map Did (batch (splice.now ∷ [])))) }
    requires after { after.now ≡ shown_after before.now (map Did (batch (splice.now ∷ []))) }
    ensures rows { let events = map Did (batch (splice.now ∷ [])) in
        result ≡ covered since events (state_of before.now) }
    ensures counted { steps.old ≤ steps.new }
{
    // For the proof: the history before it is lawful.
    before.lawful();
    if is_operation(splice) {
        let sheet = before.sheet();
        let then = spliced_rows(sheet, after, splice, steps);
        covering_of(sheet, after, since, then)
    } else {
        since
    }
}

/// What covers a change and the rows that a batch of replacements replaces after it. They are done once more for that,
/// from the last to the first.
fn batch_rows(
    alloc: Global,
    since: RowChange,
    before: &View,
    splices: &[Splice],
    steps: &mut Steps,
) -> Result<RowChange, NoMemory>
    requires since { LedTo since (present_of before.now) }
    requires accepted { edit_refusal (present_of before.now) splices.now ≡ None }
    requires lawful { IsLawfulHistory (appended before.now (map Did (batch splices.now))) }
    ensures rows { IfOk result (λ rows. let events = map Did (batch splices.now) in
        rows ≡ covered since events (state_of before.now)) }
    ensures counted { steps.old ≤ steps.new }
{
    // For the proof: the history before it is lawful.
    before.lawful();
    let mut rows = since;
    let mut now = before.sheet().share()?;
    'splices: for i in (0..splices.len()).rev() {
        let splice = &splices[i];
        if is_operation(splice) {
            // For the proof: the record is lawful.
            now.lawful();
            let (after, _lines) = now.replaced(alloc, splice, steps)?;
            let then = spliced_rows(&now, &after, splice, steps);
            rows = covering_of(&now, &after, rows, then);
            now = after;
        }
    }
    Ok(rows)
}

/// What covers a change and the rows that an operation replaced after it.
fn done_rows(
    since: RowChange,
    before: &View,
    after: &MapSheet,
    op: &Op,
    steps: &mut Steps,
) -> RowChange
    requires since { LedTo since (present_of before.now) }
    requires lawful { IsLawfulHistory (appended before.now (Did (operation_of op.now) ∷ [])) }
    requires after { after.now ≡ shown_after before.now (Did (operation_of op.now) ∷ []) }
    ensures rows { let events = Did (operation_of op.now) ∷ [] in
        result ≡ covered since events (state_of before.now) }
    ensures counted { steps.old ≤ steps.new }
{
    // For the proof: the history before it is lawful.
    before.lawful();
    let sheet = before.sheet();
    let then = operated_rows(sheet, after, op, steps);
    covering_of(sheet, after, since, then)
}

/// What covers the rows that were replaced earlier and those that a change replaced after that, in turn. `since` led to
/// the rows of the view.
///
/// It costs what `changed_rows` costs.
pub fn changed_since(
    alloc: Global,
    since: RowChange,
    before: &View,
    after: &MapSheet,
    change: &Change,
    steps: &mut Steps,
) -> Result<RowChange, NoMemory>
    requires since { LedTo since (present_of before.now) }

    // The change wasn't refused, and nothing else happened.
    requires accepted { change_refusal (present_of before.now) change.now ≡ None }
    requires lawful { IsLawfulHistory (appended before.now (map Did (ops_of change.now))) }
    requires after { after.now ≡ shown_after before.now (map Did (ops_of change.now)) }

    // What covers it and its operations.
    ensures rows { IfOk result (λ rows. let events = map Did (ops_of change.now) in
        rows ≡ covered since events (state_of before.now)) }

    // The work.
    ensures counted { steps.old ≤ steps.new }
{
    match change {
        Change::Edit(splices) => batch_rows(alloc, since, before, splices, steps),
        Change::One(Op::Replace(splice)) => Ok(replaced_rows(since, before, after, splice, steps)),
        Change::One(op) => Ok(done_rows(since, before, after, op, steps)),
    }
}

/// The rows that a change replaced, which led from the view to the record that is shown after it: what covers those of
/// its operations, in turn (*Changed rows*).
///
/// A batch of replacements is done once more, for the rows between them; nothing else takes memory. An inlay, a fold or a
/// block that is removed is looked up by its id, and so is a block that is added.
pub fn changed_rows(
    alloc: Global,
    before: &View,
    after: &MapSheet,
    change: &Change,
    steps: &mut Steps,
) -> Result<RowChange, NoMemory>
    // The change wasn't refused, and nothing else happened.
    requires accepted { change_refusal (present_of before.now) change.now ≡ None }
    requires lawful { IsLawfulHistory (appended before.now (map Did (ops_of change.now))) }
    requires after { after.now ≡ shown_after before.now (map Did (ops_of change.now)) }

    // The rows of its operations.
    ensures rows { IfOk result (λ rows. let events = map Did (ops_of change.now) in
        rows ≡ covered no_change events (state_of before.now)) }

    // The work.
    ensures counted { steps.old ≤ steps.new }
{
    // For the proof: the history before it is lawful, and its rows are as many as a u32 counts.
    before.lawful();
    let _rows = before.row_count();
    changed_since(alloc, NO_ROW, before, after, change, steps)
}

/// The rows that a landing replaced, which led from the view to the record that is shown after it: those of the lines
/// from the first that is wrapped at another width to the last, with those of the blocks at them (*Changed rows*).
///
/// It goes over the runs of lines that are at one width both before and after.
pub fn landed_rows(before: &View, after: &MapSheet, steps: &mut Steps) -> RowChange
    requires { (job : ℕ) × (after.now ≡ shown_after before.now (Landed job ∷ [])) }
    ensures rows { (job : ℕ) → after.now ≡ shown_after before.now (Landed job ∷ []) →
        let next = appended before.now (Landed job ∷ []) in
        result ≡ rows_landed (present_of before.now) (present_of next) }
    ensures counted { steps.old ≤ steps.new }
{
    // For the proof: the history before it is lawful.
    before.lawful();
    let sheet = before.sheet();
    let lines = landed_lines(sheet, after, steps);
    rows_of_lines(sheet, after, lines, steps)
}

/// What covers the rows that were replaced earlier and those that a landing replaced after that. `since` led to the rows
/// of the view.
///
/// It costs what `landed_rows` costs.
pub fn landed_since(
    since: RowChange,
    before: &View,
    after: &MapSheet,
    steps: &mut Steps,
) -> RowChange
    requires since { LedTo since (present_of before.now) }
    requires landed { (job : ℕ) × (after.now ≡ shown_after before.now (Landed job ∷ [])) }
    ensures rows { (job : ℕ) → after.now ≡ shown_after before.now (Landed job ∷ []) →
        result ≡ covered since (Landed job ∷ []) (state_of before.now) }
    ensures counted { steps.old ≤ steps.new }
{
    // For the proof: the history before it is lawful.
    before.lawful();
    let then = landed_rows(before, after, steps);
    covering_of(before.sheet(), after, since, then)
}
