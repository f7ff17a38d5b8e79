//! What a selection covers, in two clips a row.
ghost use Rattle.std.specs.Prelude.{◌≡◌, ◌<◌, ◌≤◌, ◌++◌, ◌==◌, if◌then◌else◌, IfOk};
ghost use Rattle.std.specs.Result.{OnOk};
ghost use Rattle.plain_rows.specs.Spots.{spot_le, valid_spots};
ghost use Rattle.display_map.specs.Replay.{present_of};
ghost use Rattle.view_moves.specs.Laws.{IsNarrow};
ghost use Rattle.view_moves.specs.Moves.{greater, lesser, selection, spans_from, spans_of_row};

use crate::caret::{RowSpan, Selection};
use cell_units::{Bias, NoMemory, Spot, Steps};
use display_map::ViewOn;
use kept_sheet::Sheet;
use std::alloc::Global;

/// The two ends of a selection.
#[derive(Clone, Copy)]
struct Ends {
    first: Spot,
    last: Spot,
}

/// The column of the selection's own end on its row, or else that of the row.
fn col_at(row: u32, end: Spot, other: u32) -> u32
    ensures { result ≡ (if row == end.row then end.col else other) }
{
    if row == end.row { end.col } else { other }
}

/// Adds the span of one row, if it has any.
fn push_span<S: Sheet>(
    alloc: Global,
    view: &ViewOn<S>,
    ends: Ends,
    row: u32,
    spans: &mut Vec<RowSpan>,
    steps: &mut Steps,
) -> Result<(), NoMemory>
    requires { IsNarrow (present_of view.now) }
    ensures pushed { OnOk result (spans.new.items ≡ spans.old.items
        ++ spans_of_row (valid_spots (present_of view.now)) ends.first ends.last row) }
    ensures counted { steps.old ≤ steps.new }
{
    let first = view.clip(alloc, Spot { row, col: 0 }, Bias::Right, steps)?;
    if first.row != row {
        return Ok(());
    }
    let col = u32::MAX;
    let last = view.clip(alloc, Spot { row, col }, Bias::Left, steps)?;
    let from = col_at(row, ends.first, first.col);
    let to = col_at(row, ends.last, last.col);
    spans.push(RowSpan { row, from, to })?;
    Ok(())
}

/// The spans of a selection from its first end to its last.
fn spans_between<S: Sheet>(
    alloc: Global,
    view: &ViewOn<S>,
    ends: Ends,
    steps: &mut Steps,
) -> Result<Vec<RowSpan>, NoMemory>
    requires narrow { IsNarrow (present_of view.now) }
    requires fits { ends.last.row < 4294967295 }
    requires order { ends.first.row ≤ ends.last.row }
    ensures spans { IfOk result (λ spans. spans.items
        ≡ spans_from (valid_spots (present_of view.now)) ends.first ends.last) }
    ensures counted { steps.old ≤ steps.new }
{
    let mut spans = Vec::new(alloc);
    for row in ends.first.row..ends.last.row + 1 {
        push_span(alloc, view, ends, row, &mut spans, steps)?;
    }
    Ok(spans)
}

/// Whether the first is the second, or before it.
fn is_upto(s: Spot, t: Spot) -> bool
    ensures { result ≡ spot_le s t }
{
    s.row < t.row || (s.row == t.row && s.col <= t.col)
}

/// The two in order.
fn ends_of(s: Spot, t: Spot) -> Ends
    ensures first { result.first ≡ lesser s t }
    ensures last { result.last ≡ greater s t }
    ensures order { result.first.row ≤ result.last.row }
{
    if is_upto(s, t) {
        Ends { first: s, last: t }
    } else {
        Ends { first: t, last: s }
    }
}

/// What a selection between two spots covers, in any order of the two (*Carets and selections*). It takes four clips,
/// and two for each of its rows.
pub fn select<S: Sheet>(
    alloc: Global,
    view: &ViewOn<S>,
    one: Spot,
    other: Spot,
    steps: &mut Steps,
) -> Result<Selection, NoMemory>
    ensures start { IfOk result (λ s.
        s.start ≡ (selection (present_of view.now) one other).start) }
    ensures end { IfOk result (λ s.
        s.end ≡ (selection (present_of view.now) one other).end) }
    ensures spans { IfOk result (λ s.
        s.spans.items ≡ (selection (present_of view.now) one other).spans) }
    ensures counted { steps.old ≤ steps.new }
{
    // For the proof: the history of the view is lawful, and so is its record.
    view.lawful();
    let s = view.clip(alloc, one, Bias::Left, steps)?;
    let t = view.clip(alloc, other, Bias::Left, steps)?;
    let ends = ends_of(s, t);
    let start = view.back(alloc, ends.first, Bias::Left, steps)?;
    let end = view.back(alloc, ends.last, Bias::Right, steps)?;
    let spans = spans_between(alloc, view, ends, steps)?;
    Ok(Selection { start, end, spans })
}
