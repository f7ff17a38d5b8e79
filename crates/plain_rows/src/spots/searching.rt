//! Searches among all positions for those that are shown beside a spot.
ghost use Rattle.std.specs.Prelude.{◌≡◌, ℕ, ◌<◌, ◌≤◌, ◌+◌, Some, length, IfOk};
ghost use Rattle.cell_units.specs.Folded.{line_of, place_in_line};
ghost use Rattle.cell_units.specs.Text.{IsBoundary};
ghost use Rattle.plain_rows.specs.Spots.{clip, show, spot_le};
ghost use Rattle.plain_rows.specs.inside.SpotSearch.{AreBefore, IsAim, IsFirstBoundary, IsGreatestBy, IsLastBoundary, IsLeastBy, IsPartedAt, NoneIsBefore, earlier, later, nearest_left, nearest_right, stands_before};

use super::row_line::RowLine;
use super::showing::show_in;
use super::spot_rows::SpotRows;
use cell_units::{Bias, NoMemory, Spot, Steps};
use std::alloc::Global;

/// A spot that is looked for, with the display line among whose rows it is, or the first line where it is before all, and
/// two offsets at which a search begins.
#[derive(Drop)]
pub(super) struct Aim {
    spot: Spot,
    number: u32,
    pub(super) line: RowLine,
    near: (u32, u32),
}

/// Whether the one spot is at or before the other.
fn is_upto(spot: Spot, other: Spot) -> bool
    ensures { result ≡ spot_le spot other }
{
    spot.row < other.row || (spot.row == other.row && spot.col <= other.col)
}

/// Whether the one spot is before the other (Left), or at or before it (Right).
fn stands_before(spot: Spot, other: Spot, side: Bias) -> bool
    ensures { result ≡ stands_before side spot other }
{
    match side {
        Bias::Left => !is_upto(other, spot),
        Bias::Right => is_upto(spot, other),
    }
}

/// The last boundary of the text at or before the offset: mostly the offset itself, and at most three bytes before it.
fn boundary_upto<R: SpotRows>(rows: &R, offset: u32, steps: &mut Steps) -> u32
    requires { offset ≤ length (R.kept rows.now).text }
    ensures last { IsLastBoundary (R.kept rows.now).text (offset + 1) (Some result) }
    ensures counted { steps.old ≤ steps.new }
{
    // For the proof: the record is lawful, so its text is UTF-8 and its first offset a boundary.
    let _ = rows.text_len();
    let mut offset = offset;
    while offset > 0 {
        if rows.is_boundary(offset, steps) {
            return offset;
        }
        offset -= 1;
    }
    0
}

/// The last boundary of the text before the offset.
fn boundary_before<R: SpotRows>(rows: &R, offset: u32, steps: &mut Steps) -> Option<u32>
    requires { offset ≤ length (R.kept rows.now).text + 1 }
    ensures last { IsLastBoundary (R.kept rows.now).text offset result }
    ensures counted { steps.old ≤ steps.new }
{
    if offset == 0 {
        return None;
    }
    Some(boundary_upto(rows, offset - 1, steps))
}

/// The first boundary of the text at or after the offset.
fn boundary_from<R: SpotRows>(rows: &R, offset: u32, steps: &mut Steps) -> Option<u32>
    ensures first { IsFirstBoundary (R.kept rows.now).text offset result }
    ensures counted { steps.old ≤ steps.new }
{
    let len = rows.text_len();
    let mut offset = offset;
    while offset <= len {
        if rows.is_boundary(offset, steps) {
            return Some(offset);
        }
        offset += 1;
    }
    None
}

/// Two offsets between which those mostly lie that are shown at a spot on a line.
fn near<R: SpotRows>(
    rows: &R,
    line: &RowLine,
    number: u32,
    spot: Spot,
    steps: &mut Steps,
) -> (u32, u32)
    requires { number < length (R.kept rows.now).marks }
    ensures counted { steps.old ≤ steps.new }
{
    let first = rows.first_row(number, steps);
    let within = Spot {
        row: spot.row.saturating_sub(first),
        col: spot.col,
    };
    rows.near(number, line.bytes_upto(within), steps)
}

/// Aims at the spot: of all lines only the one among whose rows it is has its elements made.
pub(super) fn aim_at<R: SpotRows>(
    alloc: Global,
    rows: &R,
    spot: Spot,
    steps: &mut Steps,
) -> Result<Aim, NoMemory>
    ensures aim { IfOk result (IsAim (R.kept rows.now)) }
    ensures spot { IfOk result (λ aim. aim.spot ≡ spot) }
    ensures counted { steps.old ≤ steps.new }
{
    // For the proof: the record is lawful, as the aim keeps.
    let _ = rows.text_len();
    let number = rows.line_of_row(spot.row, steps);
    let line = rows.row_line(alloc, number, steps)?;
    let near = near(rows, &line, number, spot, steps);
    Ok(Aim {
        spot,
        number,
        line,
        near,
    })
}

/// Aims at another spot. The line isn't made again where it is the same.
pub(super) fn aim_again<R: SpotRows>(
    alloc: Global,
    rows: &R,
    aim: Aim,
    spot: Spot,
    steps: &mut Steps,
) -> Result<Aim, NoMemory>
    requires aim { IsAim (R.kept rows.now) aim }
    ensures aim { IfOk result (IsAim (R.kept rows.now)) }
    ensures spot { IfOk result (λ aim. aim.spot ≡ spot) }
    ensures counted { steps.old ≤ steps.new }
{
    let number = rows.line_of_row(spot.row, steps);
    if number != aim.number {
        return aim_at(alloc, rows, spot, steps);
    }
    let near = near(rows, &aim.line, number, spot, steps);
    Ok(Aim {
        spot,
        number,
        line: aim.line,
        near,
    })
}

/// Where a position on the aim's line is shown that has so many bytes of the line before it.
fn own_spot<R: SpotRows>(rows: &R, aim: &Aim, byte: u32, bias: Bias, steps: &mut Steps) -> Spot
    requires { IsAim (R.kept rows.now) aim.now }
    ensures spot { let r = R.kept rows.now in (o : ℕ) →
        aim.now.number ≡ line_of r.text r.inlays r.folds o bias →
        byte ≡ place_in_line r.text r.inlays r.folds o bias → result ≡ show r o bias }
    ensures counted { steps.old ≤ steps.new }
{
    let within = aim.line.spot(byte, bias);
    let first = rows.first_row(aim.number, steps);
    Spot {
        row: first + within.row,
        col: within.col,
    }
}

/// Where a boundary is shown. On the aim's line no line is made.
fn shown_at<R: SpotRows>(
    alloc: Global,
    rows: &R,
    aim: &Aim,
    offset: u32,
    bias: Bias,
    steps: &mut Steps,
) -> Result<Spot, NoMemory>
    requires aim { IsAim (R.kept rows.now) aim.now }
    requires boundary { IsBoundary (R.kept rows.now).text offset }
    ensures spot { IfOk result (λ spot. spot ≡ show (R.kept rows.now) offset bias) }
    ensures counted { steps.old ≤ steps.new }
{
    let place = rows.place(offset, bias, steps);
    if place.0 != aim.number {
        return show_in(alloc, rows, offset, bias, steps);
    }
    Ok(own_spot(rows, aim, place.1, bias, steps))
}

/// Whether the boundary is shown before the spot (Left), or at or before it (Right).
fn is_shown_before<R: SpotRows>(
    rows: &R,
    aim: &Aim,
    offset: u32,
    bias: Bias,
    side: Bias,
    steps: &mut Steps,
) -> bool
    requires aim { IsAim (R.kept rows.now) aim.now }
    requires boundary { IsBoundary (R.kept rows.now).text offset }
    ensures value { result ≡ stands_before side (show (R.kept rows.now) offset bias) aim.now.spot }
    ensures counted { steps.old ≤ steps.new }
{
    let place = rows.place(offset, bias, steps);
    let line = place.0;
    if line != aim.number {
        return line < aim.number;
    }
    let spot = own_spot(rows, aim, place.1, bias, steps);
    stands_before(spot, aim.spot, side)
}

/// Where a search may begin: all boundaries before it are shown before the spot (Left), or at or before it (Right).
fn low_near<R: SpotRows>(rows: &R, aim: &Aim, bias: Bias, side: Bias, steps: &mut Steps) -> u32
    requires { IsAim (R.kept rows.now) aim.now }
    ensures before { AreBefore (R.kept rows.now) bias side aim.now.spot result }
    ensures counted { steps.old ≤ steps.new }
{
    let near = aim.near.0.min(rows.text_len());
    let Some(last) = boundary_before(rows, near, steps) else {
        return 0;
    };
    if is_shown_before(rows, aim, last, bias, side, steps) {
        last + 1
    } else {
        0
    }
}

/// Where a search may end: no boundary from there on is shown before the spot (Left), or at or before it (Right).
fn high_near<R: SpotRows>(rows: &R, aim: &Aim, bias: Bias, side: Bias, steps: &mut Steps) -> u32
    requires { IsAim (R.kept rows.now) aim.now }
    ensures within { result ≤ length (R.kept rows.now).text + 1 }
    ensures behind { NoneIsBefore (R.kept rows.now) bias side aim.now.spot result }
    ensures counted { steps.old ≤ steps.new }
{
    let end = rows.text_len() + 1;
    let Some(next) = boundary_from(rows, aim.near.1.saturating_add(1), steps) else {
        return end;
    };
    if is_shown_before(rows, aim, next, bias, side, steps) {
        end
    } else {
        next
    }
}

/// The offset up to which boundaries are shown before the spot (Left), or at or before it (Right), by halving what lies
/// near the aim, where that is on either side of it.
pub(super) fn count_before<R: SpotRows>(
    rows: &R,
    aim: &Aim,
    bias: Bias,
    side: Bias,
    steps: &mut Steps,
) -> u32
    requires { IsAim (R.kept rows.now) aim.now }
    ensures within { result ≤ length (R.kept rows.now).text + 1 }
    ensures parts { IsPartedAt (R.kept rows.now) bias side aim.now.spot result }
    ensures counted { steps.old ≤ steps.new }
{
    let mut high = high_near(rows, aim, bias, side, steps);
    let mut low = low_near(rows, aim, bias, side, steps).min(high);
    while low < high {
        let middle = low + (high - low) / 2;
        let last = boundary_upto(rows, middle, steps);
        if is_shown_before(rows, aim, last, bias, side, steps) {
            low = middle + 1;
        } else {
            high = last;
        }
    }
    low
}

/// The later of two spots that were found, if any.
fn later(one: Option<Spot>, other: Option<Spot>) -> Option<Spot>
    ensures { result ≡ later one other }
{
    match (one, other) {
        (Some(one), Some(other)) => Some(if is_upto(one, other) { other } else { one }),
        (Some(one), None) => Some(one),
        (None, other) => other,
    }
}

/// The earlier of two spots that were found, if any.
fn earlier(one: Option<Spot>, other: Option<Spot>) -> Option<Spot>
    ensures { result ≡ earlier one other }
{
    match (one, other) {
        (Some(one), Some(other)) => Some(if is_upto(one, other) { one } else { other }),
        (Some(one), None) => Some(one),
        (None, other) => other,
    }
}

/// Of the greatest valid spot at or before a spot and the least at or after it the one that Left takes.
fn nearest_left(spot: Spot, before: Option<Spot>, after: Option<Spot>) -> Spot
    ensures { result ≡ nearest_left spot before after }
{
    before.or(after).unwrap_or(spot)
}

/// The one that Right takes: the first, where it is the last of the spot's row, else the second.
fn nearest_right(spot: Spot, before: Option<Spot>, after: Option<Spot>) -> Spot
    ensures { result ≡ nearest_right spot before after }
{
    match (before, after) {
        (Some(before), Some(after)) => {
            if before.row == spot.row && after.row != spot.row {
                before
            } else {
                after
            }
        }
        (before, after) => before.or(after).unwrap_or(spot),
    }
}

/// The greatest spot at or before the aim at which an offset is shown with the bias.
fn greatest_upto<R: SpotRows>(
    alloc: Global,
    rows: &R,
    aim: &Aim,
    bias: Bias,
    steps: &mut Steps,
) -> Result<Option<Spot>, NoMemory>
    requires { IsAim (R.kept rows.now) aim.now }
    ensures spot { IfOk result (IsGreatestBy (R.kept rows.now) bias aim.now.spot) }
    ensures counted { steps.old ≤ steps.new }
{
    let count = count_before(rows, aim, bias, Bias::Right, steps);
    match boundary_before(rows, count, steps) {
        Some(offset) => Ok(Some(shown_at(alloc, rows, aim, offset, bias, steps)?)),
        None => Ok(None),
    }
}

/// The least spot at or after the aim at which an offset is shown with the bias.
fn least_from<R: SpotRows>(
    alloc: Global,
    rows: &R,
    aim: &Aim,
    bias: Bias,
    steps: &mut Steps,
) -> Result<Option<Spot>, NoMemory>
    requires { IsAim (R.kept rows.now) aim.now }
    ensures spot { IfOk result (IsLeastBy (R.kept rows.now) bias aim.now.spot) }
    ensures counted { steps.old ≤ steps.new }
{
    let count = count_before(rows, aim, bias, Bias::Left, steps);
    match boundary_from(rows, count, steps) {
        Some(offset) => Ok(Some(shown_at(alloc, rows, aim, offset, bias, steps)?)),
        None => Ok(None),
    }
}

/// The nearest spot to the aim at which some offset is shown (*Spots*).
pub(super) fn nearest<R: SpotRows>(
    alloc: Global,
    rows: &R,
    aim: &Aim,
    bias: Bias,
    steps: &mut Steps,
) -> Result<Spot, NoMemory>
    requires { IsAim (R.kept rows.now) aim.now }
    ensures nearest { IfOk result (λ nearest.
        nearest ≡ clip (R.kept rows.now) aim.now.spot bias) }
    ensures counted { steps.old ≤ steps.new }
{
    let left = greatest_upto(alloc, rows, aim, Bias::Left, steps)?;
    let right = greatest_upto(alloc, rows, aim, Bias::Right, steps)?;
    let before = later(left, right);
    let left = least_from(alloc, rows, aim, Bias::Left, steps)?;
    let right = least_from(alloc, rows, aim, Bias::Right, steps)?;
    let after = earlier(left, right);
    match bias {
        Bias::Left => Ok(nearest_left(aim.spot, before, after)),
        Bias::Right => Ok(nearest_right(aim.spot, before, after)),
    }
}

/// The nearest spot at which some offset is shown (*Spots*).
pub fn clip_in<R: SpotRows>(
    alloc: Global,
    rows: &R,
    spot: Spot,
    bias: Bias,
    steps: &mut Steps,
) -> Result<Spot, NoMemory>
    ensures nearest { IfOk result (λ nearest. nearest ≡ clip (R.kept rows.now) spot bias) }
    ensures counted { steps.old ≤ steps.new }
{
    let aim = aim_at(alloc, rows, spot, steps)?;
    nearest(alloc, rows, &aim, bias, steps)
}
