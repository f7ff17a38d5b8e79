//! The offsets that are shown at a spot.
ghost use Rattle.std.specs.Prelude.{◌≡◌, ◌≤◌, false, IfOk};
ghost use Rattle.cell_units.specs.Folded.{inside, line_of};
ghost use Rattle.cell_units.specs.Text.{IsBoundary};
ghost use Rattle.cell_units.specs.declared.place.Spot.{Spot};
ghost use Rattle.plain_rows.specs.Spots.{back, clip, is_open};
ghost use Rattle.plain_rows.specs.inside.SpotSearch.{IsAim};
ghost use Rattle.plain_rows.specs.inside.SpotOffsets.{IsFirstOffset, IsLastOffset, greater, lesser};

use super::searching::{Aim, aim_again, aim_at, count_before, nearest};
use super::spot_rows::SpotRows;
use cell_units::{Bias, NoMemory, Spot, Steps};
use std::alloc::Global;

/// Whether a boundary on the aim's line, which is not strictly inside a joined fold, has an open position.
fn is_open<R: SpotRows>(rows: &R, aim: &Aim, offset: u32, bias: Bias, steps: &mut Steps) -> bool
    requires aim { IsAim (R.kept rows.now) aim.now }
    requires boundary { IsBoundary (R.kept rows.now).text offset }
    ensures value { let r = R.kept rows.now in
        aim.now.number ≡ line_of r.text r.inlays r.folds offset bias → inside r.folds offset ≡ false →
        result ≡ is_open r offset bias }
    ensures counted { steps.old ≤ steps.new }
{
    let place = rows.place(offset, bias, steps);
    !aim.line.is_within(place.1)
}

/// The least offset with an open position of that bias that is shown at the aim.
fn first_offset<R: SpotRows>(rows: &R, aim: &Aim, bias: Bias, steps: &mut Steps) -> Option<u32>
    requires { IsAim (R.kept rows.now) aim.now }
    ensures first { IsFirstOffset (R.kept rows.now) bias aim.now.spot result }
    ensures counted { steps.old ≤ steps.new }
{
    let mut offset = count_before(rows, aim, bias, Bias::Left, steps);
    let end = count_before(rows, aim, bias, Bias::Right, steps);
    while offset < end {
        if !rows.is_boundary(offset, steps) {
            offset += 1;
        } else if let Some(fold) = rows.fold_around(offset, steps) {
            offset = fold.end;
        } else if is_open(rows, aim, offset, bias, steps) {
            return Some(offset);
        } else {
            offset += 1;
        }
    }
    None
}

/// The greatest offset with an open position of that bias that is shown at the aim.
fn last_offset<R: SpotRows>(rows: &R, aim: &Aim, bias: Bias, steps: &mut Steps) -> Option<u32>
    requires { IsAim (R.kept rows.now) aim.now }
    ensures last { IsLastOffset (R.kept rows.now) bias aim.now.spot result }
    ensures counted { steps.old ≤ steps.new }
{
    let start = count_before(rows, aim, bias, Bias::Left, steps);
    let mut end = count_before(rows, aim, bias, Bias::Right, steps);
    while start < end {
        let offset = end - 1;
        if !rows.is_boundary(offset, steps) {
            end = offset;
        } else if let Some(fold) = rows.fold_around(offset, steps) {
            end = fold.start + 1;
        } else if is_open(rows, aim, offset, bias, steps) {
            return Some(offset);
        } else {
            end = offset;
        }
    }
    None
}

/// The lesser of two offsets that were found, if any.
fn lesser(one: Option<u32>, other: Option<u32>) -> Option<u32>
    ensures { result ≡ lesser one other }
{
    match (one, other) {
        (Some(one), Some(other)) => Some(one.min(other)),
        (Some(one), None) => Some(one),
        (None, other) => other,
    }
}

/// The greater of two offsets that were found, if any.
fn greater(one: Option<u32>, other: Option<u32>) -> Option<u32>
    ensures { result ≡ greater one other }
{
    match (one, other) {
        (Some(one), Some(other)) => Some(one.max(other)),
        (Some(one), None) => Some(one),
        (None, other) => other,
    }
}

/// The least offset (Left) or the greatest (Right) with an open position that is shown at the aim.
fn offset_at<R: SpotRows>(rows: &R, aim: &Aim, bias: Bias, steps: &mut Steps) -> u32
    requires { IsAim (R.kept rows.now) aim.now }
    ensures offset { (d : Spot) → aim.now.spot ≡ clip (R.kept rows.now) d bias →
        result ≡ back (R.kept rows.now) d bias }
    ensures counted { steps.old ≤ steps.new }
{
    match bias {
        Bias::Left => {
            let left = first_offset(rows, aim, Bias::Left, steps);
            let right = first_offset(rows, aim, Bias::Right, steps);
            lesser(left, right).unwrap_or(0)
        }
        Bias::Right => {
            let left = last_offset(rows, aim, Bias::Left, steps);
            let right = last_offset(rows, aim, Bias::Right, steps);
            greater(left, right).unwrap_or(0)
        }
    }
}

/// The least offset in bytes (Left) or the greatest (Right) that is shown at the nearest spot at which some is
/// (*Spots*).
pub fn back_in<R: SpotRows>(
    alloc: Global,
    rows: &R,
    spot: Spot,
    bias: Bias,
    steps: &mut Steps,
) -> Result<u32, NoMemory>
    ensures offset { IfOk result (λ offset. offset ≡ back (R.kept rows.now) spot bias) }
    ensures counted { steps.old ≤ steps.new }
{
    let aim = aim_at(alloc, rows, spot, steps)?;
    let nearest = nearest(alloc, rows, &aim, bias, steps)?;
    let aim = aim_again(alloc, rows, aim, nearest, steps)?;
    Ok(offset_at(rows, &aim, bias, steps))
}
