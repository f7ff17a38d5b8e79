//! Which stops a `sync` makes anew.
ghost use Rattle.std.specs.Prelude.{◌≡◌, ℕ, ◌-◌, ◌*◌, ◌<◌, ◌≤◌, Some, [], ◌∷◌, length, slice_get, IfOk, OnOk};
ghost use Rattle.std.specs.List.{All, Contains, position_or_len};
ghost use Rattle.cell_units.specs.Rows.{all_rows};
ghost use Rattle.cell_units.specs.declared.place.Bias.TheVariants.{Right};
ghost use Rattle.mark_tree.specs.declared.mark.Mark.{Mark};
ghost use Rattle.mark_tree.specs.Marks.{is_not_before};
ghost use Rattle.sum_core.specs.declared.load.NoLoad.{NoLoad};
ghost use Rattle.sum_tree.specs.Bounds.{ChangesAtMost, TakesAtMost};
ghost use Rattle.block_map.specs.Bounds.{both_ways, gathering, seeking};
ghost use Rattle.block_map.specs.inside.Anew.{Grows, IsAnchoredAt, IsAnewAt, IsBeside, IsEditedAt, IsIn, IsMetAt, IsTouchedAt};
ghost use Rattle.block_map.specs.inside.SideMoves.{LeaveCarried};
ghost use Rattle.block_map.specs.inside.Sides.{IsSide};
ghost use Rattle.block_map.specs.inside.Without.{IsRising};

use crate::block_lines::BlockLines;
use crate::stops::Stops;
use cell_units::{Bias, NoMemory, Rows, Shift, Side, Steps};
use edit_patch::Edit;
use mark_tree::MarkTree;
use std::alloc::Global;
use sum_core::NoLoad;

/// How the text and the rows below blocks changed: the replacement of the text, if there was one, the old rows and the
/// new ones, and the edits that lead from those to these.
#[derive(Drop)]
pub(crate) struct LowerChange<'a, R> {
    pub(crate) shift: Option<Shift>,
    pub(crate) old: &'a R,
    pub(crate) rows: &'a R,
    pub(crate) edits: &'a [Edit],
}

/// The places of the stops that are made anew, in order. They are those of marks that the replacement meets, and of
/// blocks of which nothing was shown yet. And they are those at lines of which edits replace a row.
pub(crate) fn places_anew<R: Rows>(
    alloc: Global,
    marks: &MarkTree<BlockLines>,
    stops: &Stops,
    anchors: &MarkTree<NoLoad>,
    side: Side,
    change: &LowerChange<R>,
    steps: &mut Steps,
) -> Result<Vec<u32>, NoMemory>
    // The marks, stops and anchors are those of one side, and the edits replace rows that are there.
    requires side { IsSide marks.now stops.now anchors.now }
    requires edits { let rows = all_rows (R.shown change.now.old.now) in
        All (λ e. e.old_end ≤ length rows) change.now.edits.now }

    // Places of stops. Each stop that isn't at one of them may be carried, and none is there without a cause.
    ensures rising { IfOk result (λ places. IsRising 0 places.items) }
    ensures within { IfOk result (λ places. All (λ a. a < length stops.now) places.items) }
    ensures others { let edits = change.now.edits.now in let lines = R.shown change.now.old.now in
        IfOk result (λ places.
        LeaveCarried change.now.shift edits lines side marks.now stops.now places.items) }
    ensures only { let edits = change.now.edits.now in let lines = R.shown change.now.old.now in
        IfOk result (λ places. (k : ℕ) → Contains places.items k →
        IsAnewAt change.now.shift edits lines side marks.now stops.now anchors.now k) }

    // The work: a search for each anchor, for each edit and by the replacement.
    ensures counted { steps.old ≤ steps.new }
    ensures steps { let cost = gathering (length anchors.now) (length change.now.edits.now) in
        TakesAtMost cost (length marks.now) steps.old steps.new }
{
    // For the proof: marks are in order, no two with one id.
    let _count = marks.len();
    let mut places = Vec::new(alloc);
    push_met(&mut places, marks, change.shift, steps)?;
    push_anchored(&mut places, marks, anchors, steps)?;
    push_edited(&mut places, stops, side, change.old, change.edits, steps)?;
    put_in_order(&mut places);
    Ok(places)
}

/// Adds the places from one up to another.
fn push_range(places: &mut Vec<u32>, from: u32, to: u32) -> Result<(), NoMemory>
    ensures { (n : ℕ) → to ≤ n →
        OnOk result (Grows n (IsIn from to) (IsIn from to) places.old.items places.new.items) }
{
    let mut next = from;
    while next < to {
        places.push(next)?;
        next += 1;
    }
    Ok(())
}

/// Adds the places of the marks that a replacement meets, if there was one.
fn push_met(
    places: &mut Vec<u32>,
    marks: &MarkTree<BlockLines>,
    shift: Option<Shift>,
    steps: &mut Steps,
) -> Result<(), NoMemory>
    ensures ok { let met = IsMetAt shift marks.now in
        OnOk result (Grows (length marks.now) met met places.old.items places.new.items) }
    ensures counted { steps.old ≤ steps.new }
    ensures steps { TakesAtMost both_ways (length marks.now) steps.old steps.new }
{
    // For the proof: marks are in order.
    let _count = marks.len();
    match shift {
        None => Ok(()),
        Some(shift) => {
            let met = marks.places_met(shift, steps);
            push_range(places, met.from, met.to)
        }
    }
}

/// The place of the mark of an anchor.
fn place_of_anchor(
    marks: &MarkTree<BlockLines>,
    anchors: &MarkTree<NoLoad>,
    at: u32,
    steps: &mut Steps,
) -> u32
    requires { at < length anchors.now }
    ensures place { (a : Mark NoLoad) → slice_get anchors.now at ≡ Some a →
        result ≡ position_or_len (is_not_before a.offset Right a.id) marks.now }
    ensures counted { steps.old ≤ steps.new }
    ensures steps { let count = length anchors.now in
        ChangesAtMost seeking count (length marks.now) steps.old steps.new }
{
    match anchors.get(at, steps) {
        None => unreachable!(),
        Some((offset, _, id, _)) => marks.place_of(offset, Bias::Right, id, steps),
    }
}

/// Adds the places of the marks of anchors.
fn push_anchored(
    places: &mut Vec<u32>,
    marks: &MarkTree<BlockLines>,
    anchors: &MarkTree<NoLoad>,
    steps: &mut Steps,
) -> Result<(), NoMemory>
    requires { (k : ℕ) → IsAnchoredAt anchors.now marks.now k → k < length marks.now }
    ensures ok { let anchored = IsAnchoredAt anchors.now marks.now in
        OnOk result (Grows (length marks.now) anchored anchored places.old.items places.new.items) }
    ensures counted { steps.old ≤ steps.new }
    ensures steps { let count = length anchors.now in
        ChangesAtMost (λ h. count * seeking h) count (length marks.now) steps.old steps.new }
{
    let mut next = 0;
    while next < anchors.len() {
        places.push(place_of_anchor(marks, anchors, next, steps))?;
        next += 1;
    }
    Ok(())
}

/// How many rows are before what is on a side of the line of a row.
fn row_beside<R: Rows>(rows: &R, side: Side, row: u32) -> u32
    requires { row < length (all_rows (R.shown rows.now)) }
    ensures { IsBeside (R.shown rows.now) side row result }
{
    // For the proof: the number of lines is a u32.
    let _lines = rows.lines();
    match rows.line_at(row) {
        None => unreachable!(),
        Some((line, at)) => match side {
            Side::Above => row - at,
            Side::Below => rows.rows_before(line + 1),
        },
    }
}

/// The same of the last row that an edit replaces, where `low` is that of the first one.
fn last_beside<R: Rows>(rows: &R, side: Side, edit: Edit, low: u32) -> u32
    requires some { edit.old_start < edit.old_end }
    requires within { edit.old_end ≤ length (all_rows (R.shown rows.now)) }
    requires first { IsBeside (R.shown rows.now) side edit.old_start low }
    ensures { IsBeside (R.shown rows.now) side (edit.old_end - 1) result }
{
    let last = edit.old_end - 1;
    if last == edit.old_start {
        return low;
    }
    row_beside(rows, side, last)
}

/// Adds the places of the stops at lines of which edits replace a row.
fn push_edited<R: Rows>(
    places: &mut Vec<u32>,
    stops: &Stops,
    side: Side,
    rows: &R,
    edits: &[Edit],
    steps: &mut Steps,
) -> Result<(), NoMemory>
    requires { All (λ e. e.old_end ≤ length (all_rows (R.shown rows.now))) edits.now }
    ensures ok { let edited = IsEditedAt edits.now (R.shown rows.now) side stops.now in
        let touched = IsTouchedAt edits.now (R.shown rows.now) side stops.now in
        OnOk result (Grows (length stops.now) edited touched places.old.items places.new.items) }
    ensures counted { steps.old ≤ steps.new }
    ensures steps { let count = length edits.now in
        TakesAtMost (λ h. count * both_ways h) (length stops.now) steps.old steps.new }
{
    let mut next = 0;
    while next < edits.len() {
        push_lines_of(places, stops, side, rows, edits[next], steps)?;
        next += 1;
    }
    Ok(())
}

/// Adds the places of the stops at lines of which one edit replaces a row.
fn push_lines_of<R: Rows>(
    places: &mut Vec<u32>,
    stops: &Stops,
    side: Side,
    rows: &R,
    edit: Edit,
    steps: &mut Steps,
) -> Result<(), NoMemory>
    requires { edit.old_end ≤ length (all_rows (R.shown rows.now)) }
    ensures ok { let edited = IsEditedAt (edit ∷ []) (R.shown rows.now) side stops.now in
        let touched = IsTouchedAt (edit ∷ []) (R.shown rows.now) side stops.now in
        OnOk result (Grows (length stops.now) edited touched places.old.items places.new.items) }
    ensures counted { steps.old ≤ steps.new }
    ensures steps { TakesAtMost both_ways (length stops.now) steps.old steps.new }
{
    // For the proof: each line has a row.
    let _lines = rows.lines();
    if edit.old_end <= edit.old_start {
        return Ok(());
    }
    let low = row_beside(rows, side, edit.old_start);
    let high = last_beside(rows, side, edit, low);
    let touched = stops.places_through(low, high, steps);
    push_range(places, touched.from, touched.to)
}

/// Puts places in order, each once.
fn put_in_order(places: &mut Vec<u32>)
    ensures rising { IsRising 0 places.new.items }
    ensures kept { (k : ℕ) → Contains places.old.items k → Contains places.new.items k }
    ensures only { (k : ℕ) → Contains places.new.items k → Contains places.old.items k }
    ensures within { (n : ℕ) → All (λ a. a < n) places.old.items →
        All (λ a. a < n) places.new.items }
{
    places.sort_unstable();
    places.dedup();
}
