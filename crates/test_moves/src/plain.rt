//! Carets and selections by their definitions, over the list of all valid spots.
use cell_units::{Bias, Fault, Motion, NoMemory, Spot, Steps};
use display_map::View;
use std::alloc::Global;
use view_moves::{Caret, RowSpan};

/// Adds the spots at which an offset is shown. There are none where it is no boundary.
fn push_spots(
    alloc: Global,
    view: &View,
    offset: u32,
    spots: &mut Vec<Spot>,
) -> Result<(), NoMemory> {
    for bias in [Bias::Left, Bias::Right] {
        match view.show(alloc, offset, bias, &mut Steps::new()) {
            Ok(spot) => spots.push(spot)?,
            Err(Fault::NoMemory) => return Err(NoMemory),
            Err(Fault::Refused(_)) => {}
        }
    }
    Ok(())
}

/// The spots at which some offset of a text of so many bytes is shown, in order. A spot is in it as often as one is
/// shown there.
pub(crate) fn valid_spots(alloc: Global, view: &View, bytes: u32) -> Result<Vec<Spot>, NoMemory> {
    let mut spots = Vec::new(alloc);
    for offset in 0..=bytes {
        push_spots(alloc, view, offset, &mut spots)?;
    }
    spots.sort()?;
    Ok(spots)
}

/// The greatest valid spot at or before a spot, or else the least of all.
pub(crate) fn clipped(spots: &[Spot], from: Spot) -> Option<Spot> {
    let before = spots.iter().copied().filter(|spot| *spot <= from).last();
    before.or(spots.first().copied())
}

/// The least valid spot of a row.
fn start_of(spots: &[Spot], row: u32) -> Option<Spot> {
    spots.iter().copied().find(|spot| spot.row == row)
}

/// The greatest valid spot of a row.
fn end_of(spots: &[Spot], row: u32) -> Option<Spot> {
    spots.iter().copied().filter(|spot| spot.row == row).last()
}

/// Of a row the greatest valid spot whose column is at most the goal, or else the least.
fn at_goal(spots: &[Spot], row: u32, goal: u32) -> Option<Spot> {
    let near = spots
        .iter()
        .copied()
        .filter(|spot| spot.row == row && spot.col <= goal)
        .last();
    near.or(start_of(spots, row))
}

/// The valid spot to which a motion leads from `c`, if there is one.
fn target(spots: &[Spot], c: Spot, goal: u32, motion: Motion) -> Option<Spot> {
    match motion {
        Motion::Left => spots.iter().copied().filter(|spot| *spot < c).last(),
        Motion::Right => spots.iter().copied().find(|spot| c < *spot),
        Motion::Start => start_of(spots, c.row),
        Motion::End => end_of(spots, c.row),
        Motion::Up => match spots.iter().copied().filter(|spot| spot.row < c.row).last() {
            Some(above) => at_goal(spots, above.row, goal),
            None => spots.first().copied(),
        },
        Motion::Down => match spots.iter().copied().find(|spot| c.row < spot.row) {
            Some(below) => at_goal(spots, below.row, goal),
            None => spots.last().copied(),
        },
    }
}

/// The caret after a motion.
pub(crate) fn caret(spots: &[Spot], from: Spot, goal: u32, motion: Motion) -> Option<Caret> {
    let c = clipped(spots, from)?;
    let spot = target(spots, c, goal, motion).unwrap_or(c);
    let goal = match motion {
        Motion::Up | Motion::Down => goal,
        _ => spot.col,
    };
    Some(Caret { spot, goal })
}

/// The span of a row in a selection from `a` to `b`, if the row has a valid spot.
fn span(spots: &[Spot], a: Spot, b: Spot, row: u32) -> Option<RowSpan> {
    let from = if row == a.row {
        a
    } else {
        start_of(spots, row)?
    };
    let to = if row == b.row { b } else { end_of(spots, row)? };
    Some(RowSpan {
        row,
        from: from.col,
        to: to.col,
    })
}

/// The spans of a selection between two spots.
pub(crate) fn spans(
    alloc: Global,
    spots: &[Spot],
    one: Spot,
    other: Spot,
) -> Result<Vec<RowSpan>, NoMemory> {
    let mut spans = Vec::new(alloc);
    let (Some(s), Some(t)) = (clipped(spots, one), clipped(spots, other)) else {
        return Ok(spans);
    };
    let (a, b) = if s <= t { (s, t) } else { (t, s) };
    for row in a.row..=b.row {
        if let Some(span) = span(spots, a, b, row) {
            spans.push(span)?;
        }
    }
    Ok(spans)
}
