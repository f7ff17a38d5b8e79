//! Where a motion leads, in a few clips.
ghost use Rattle.std.specs.Prelude.{◌≡◌, ◌≤◌, ℕ, Some, IfOk};
ghost use Rattle.cell_units.specs.declared.place.Motion.TheVariants.{Down, End, Left, Right, Start, Up};
ghost use Rattle.plain_rows.specs.Laws.{IsValidSpot};
ghost use Rattle.plain_rows.specs.Spots.{valid_spots};
ghost use Rattle.display_map.specs.Replay.{present_of};
ghost use Rattle.view_moves.specs.Laws.{IsNarrow};
ghost use Rattle.view_moves.specs.Moves.{at_goal, caret, in_row, is_before, moved, next_goal};

use crate::caret::Caret;
use cell_units::{Bias, Motion, NoMemory, Spot, Steps};
use display_map::ViewOn;
use kept_sheet::Sheet;
use std::alloc::Global;

/// Whether the first is before the second.
fn is_before(c: Spot, w: Spot) -> bool
    ensures { result ≡ is_before c w }
{
    c.row < w.row || (c.row == w.row && c.col < w.col)
}

/// The valid spot before `c`, which is valid; `c` where there is none.
fn left_of<S: Sheet>(
    alloc: Global,
    view: &ViewOn<S>,
    c: Spot,
    steps: &mut Steps,
) -> Result<Spot, NoMemory>
    requires narrow { IsNarrow (present_of view.now) }
    requires valid { IsValidSpot (present_of view.now) c }
    ensures moved { IfOk result (λ s.
        (goal : ℕ) → s ≡ moved (valid_spots (present_of view.now)) c goal Left) }
    ensures counted { steps.old ≤ steps.new }
{
    if 0 < c.col {
        let col = c.col - 1;
        let before = view.clip(alloc, Spot { row: c.row, col }, Bias::Left, steps)?;
        Ok(before)
    } else if 0 < c.row {
        let row = c.row - 1;
        let col = u32::MAX;
        let above = view.clip(alloc, Spot { row, col }, Bias::Left, steps)?;
        Ok(above)
    } else {
        Ok(c)
    }
}

/// The valid spot after `c`, which is valid; `c` where there is none.
fn right_of<S: Sheet>(
    alloc: Global,
    view: &ViewOn<S>,
    c: Spot,
    steps: &mut Steps,
) -> Result<Spot, NoMemory>
    requires narrow { IsNarrow (present_of view.now) }
    requires valid { IsValidSpot (present_of view.now) c }
    ensures moved { IfOk result (λ s.
        (goal : ℕ) → s ≡ moved (valid_spots (present_of view.now)) c goal Right) }
    ensures counted { steps.old ≤ steps.new }
{
    let col = c.col + 1;
    let after = view.clip(alloc, Spot { row: c.row, col }, Bias::Right, steps)?;
    if is_before(c, after) {
        return Ok(after);
    }
    let row = c.row + 1;
    let below = view.clip(alloc, Spot { row, col: 0 }, Bias::Right, steps)?;
    Ok(below)
}

/// The first spot of the row of `c`, which is valid.
fn start_of<S: Sheet>(
    alloc: Global,
    view: &ViewOn<S>,
    c: Spot,
    steps: &mut Steps,
) -> Result<Spot, NoMemory>
    requires { IsValidSpot (present_of view.now) c }
    ensures moved { IfOk result (λ s.
        (goal : ℕ) → s ≡ moved (valid_spots (present_of view.now)) c goal Start) }
    ensures counted { steps.old ≤ steps.new }
{
    let first = view.clip(alloc, Spot { row: c.row, col: 0 }, Bias::Right, steps)?;
    Ok(first)
}

/// The last spot of the row of `c`, which is valid.
fn end_of<S: Sheet>(
    alloc: Global,
    view: &ViewOn<S>,
    c: Spot,
    steps: &mut Steps,
) -> Result<Spot, NoMemory>
    requires narrow { IsNarrow (present_of view.now) }
    requires valid { IsValidSpot (present_of view.now) c }
    ensures moved { IfOk result (λ s.
        (goal : ℕ) → s ≡ moved (valid_spots (present_of view.now)) c goal End) }
    ensures counted { steps.old ≤ steps.new }
{
    let col = u32::MAX;
    let last = view.clip(alloc, Spot { row: c.row, col }, Bias::Left, steps)?;
    Ok(last)
}

/// Of the row of `e`, which is valid, the last valid spot up to the goal, or the first where there is none.
fn goal_of<S: Sheet>(
    alloc: Global,
    view: &ViewOn<S>,
    e: Spot,
    goal: u32,
    steps: &mut Steps,
) -> Result<Spot, NoMemory>
    requires { IsValidSpot (present_of view.now) e }
    ensures at_goal { IfOk result (λ s.
        at_goal goal (in_row e.row (valid_spots (present_of view.now))) ≡ Some s) }
    ensures counted { steps.old ≤ steps.new }
{
    let near = view.clip(
        alloc,
        Spot {
            row: e.row,
            col: goal,
        },
        Bias::Left,
        steps,
    )?;
    if near.row == e.row {
        return Ok(near);
    }
    let first = view.clip(alloc, Spot { row: e.row, col: 0 }, Bias::Right, steps)?;
    Ok(first)
}

/// In the nearest row above that has a valid spot, the one at the goal; the first of all where there is no such row.
fn up_of<S: Sheet>(
    alloc: Global,
    view: &ViewOn<S>,
    c: Spot,
    goal: u32,
    steps: &mut Steps,
) -> Result<Spot, NoMemory>
    requires narrow { IsNarrow (present_of view.now) }
    requires valid { IsValidSpot (present_of view.now) c }
    ensures moved { IfOk result (λ s.
        s ≡ moved (valid_spots (present_of view.now)) c goal Up) }
    ensures counted { steps.old ≤ steps.new }
{
    if c.row == 0 {
        let first = view.clip(alloc, Spot { row: 0, col: 0 }, Bias::Right, steps)?;
        return Ok(first);
    }
    let row = c.row - 1;
    let col = u32::MAX;
    let above = view.clip(alloc, Spot { row, col }, Bias::Left, steps)?;
    if above.row < c.row {
        let there = goal_of(alloc, view, above, goal, steps)?;
        Ok(there)
    } else {
        Ok(above)
    }
}

/// In the nearest row below that has a valid spot, the one at the goal; the last of all where there is no such row.
fn down_of<S: Sheet>(
    alloc: Global,
    view: &ViewOn<S>,
    c: Spot,
    goal: u32,
    steps: &mut Steps,
) -> Result<Spot, NoMemory>
    requires narrow { IsNarrow (present_of view.now) }
    requires valid { IsValidSpot (present_of view.now) c }
    ensures moved { IfOk result (λ s.
        s ≡ moved (valid_spots (present_of view.now)) c goal Down) }
    ensures counted { steps.old ≤ steps.new }
{
    let row = c.row + 1;
    let below = view.clip(alloc, Spot { row, col: 0 }, Bias::Right, steps)?;
    if c.row < below.row {
        let there = goal_of(alloc, view, below, goal, steps)?;
        Ok(there)
    } else {
        Ok(below)
    }
}

/// The spot to which a motion leads from `c`, which is valid.
fn moved<S: Sheet>(
    alloc: Global,
    view: &ViewOn<S>,
    c: Spot,
    goal: u32,
    motion: Motion,
    steps: &mut Steps,
) -> Result<Spot, NoMemory>
    requires narrow { IsNarrow (present_of view.now) }
    requires valid { IsValidSpot (present_of view.now) c }
    ensures moved { IfOk result (λ s.
        s ≡ moved (valid_spots (present_of view.now)) c goal motion) }
    ensures counted { steps.old ≤ steps.new }
{
    match motion {
        Motion::Left => {
            let spot = left_of(alloc, view, c, steps)?;
            Ok(spot)
        }
        Motion::Right => {
            let spot = right_of(alloc, view, c, steps)?;
            Ok(spot)
        }
        Motion::Up => {
            let spot = up_of(alloc, view, c, goal, steps)?;
            Ok(spot)
        }
        Motion::Down => {
            let spot = down_of(alloc, view, c, goal, steps)?;
            Ok(spot)
        }
        Motion::Start => {
            let spot = start_of(alloc, view, c, steps)?;
            Ok(spot)
        }
        Motion::End => {
            let spot = end_of(alloc, view, c, steps)?;
            Ok(spot)
        }
    }
}

/// The goal after a motion that led to `spot`: Up and Down keep it, and every other motion takes the column.
fn next_goal(goal: u32, spot: Spot, motion: Motion) -> u32
    ensures { result ≡ next_goal goal spot motion }
{
    match motion {
        Motion::Up | Motion::Down => goal,
        _ => spot.col,
    }
}

/// The caret after a motion from the nearest valid spot at or before `from` (*Carets and selections*). The goal is a
/// column in cells. It takes at most four clips.
pub fn step<S: Sheet>(
    alloc: Global,
    view: &ViewOn<S>,
    from: Spot,
    goal: u32,
    motion: Motion,
    steps: &mut Steps,
) -> Result<Caret, NoMemory>
    ensures caret { IfOk result (λ s. s ≡ caret (present_of view.now) from goal motion) }
    ensures counted { steps.old ≤ steps.new }
{
    // For the proof: the history of the view is lawful, and so is its record.
    view.lawful();
    let c = view.clip(alloc, from, Bias::Left, steps)?;
    let spot = moved(alloc, view, c, goal, motion, steps)?;
    let goal = next_goal(goal, spot, motion);
    Ok(Caret { spot, goal })
}
