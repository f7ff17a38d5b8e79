//! What is timed of snapshots.

use crate::text::{INLAY, fold_at, inlay_at, scattered};
use cell_units::{Bias, Fault, Layer, NoMemory, Steps};
use fold_map::FoldSnapshot;
use folded_text::FoldedText;
use std::alloc::Global;

/// The bytes of a placeholder.
const PLACEHOLDER: u32 = 3;

/// Asks whether offsets far from each other are boundaries. It gives the number of those that are.
pub fn boundaries<L: Layer>(layer: &FoldSnapshot<L>, times: u32) -> u64 {
    let bytes = layer.buffer_len();
    let mut check: u64 = 0;
    for turn in 0..times {
        if layer.on_boundary(scattered(turn, bytes)) {
            check = check.wrapping_add(1);
        }
    }
    check
}

/// Asks the same, and then for the places of those that are. It gives their sum.
pub fn places<L: Layer>(layer: &FoldSnapshot<L>, times: u32) -> u64 {
    let bytes = layer.buffer_len();
    let mut check: u64 = 0;
    for turn in 0..times {
        let offset = scattered(turn, bytes);
        if layer.on_boundary(offset) {
            check = check.wrapping_add(layer.place(offset, Bias::Right) as u64);
        }
    }
    check
}

/// Asks for the points of places far from each other. It gives the sum of their lines.
pub fn points<L: Layer>(layer: &FoldSnapshot<L>, times: u32) -> u64 {
    let length = layer.length();
    let mut check: u64 = 0;
    for turn in 0..times {
        let point = layer.point(scattered(turn, length));
        check = check.wrapping_add(point.row as u64);
    }
    check
}

/// Asks for the offsets of places far from each other. It gives their sum.
pub fn backs<L: Layer>(layer: &FoldSnapshot<L>, times: u32) -> u64 {
    let length = layer.length();
    let mut check: u64 = 0;
    for turn in 0..times {
        let offset = layer.back(scattered(turn, length), Bias::Left);
        check = check.wrapping_add(offset.unwrap_or(0) as u64);
    }
    check
}

/// Reads the pieces of lines far from each other. It gives the number of them.
pub fn pieces<L: Layer>(
    alloc: Global,
    layer: &FoldSnapshot<L>,
    times: u32,
) -> Result<u64, NoMemory> {
    let lines = layer.lines();
    let mut check: u64 = 0;
    for turn in 0..times {
        let line = scattered(turn, lines);
        if line < lines {
            let pieces = layer.pieces(alloc, line)?;
            check = check.wrapping_add(pieces.len() as u64);
        }
    }
    Ok(check)
}

/// Shares the snapshot, over and over. It gives the number of lines of the last copy.
pub fn shares<L: Layer>(layer: &FoldSnapshot<L>, times: u32) -> Result<u64, NoMemory> {
    let mut lines = 0;
    for _ in 0..times {
        let copy = layer.share()?;
        lines = copy.lines() as u64;
    }
    Ok(lines)
}

/// Puts a letter before the text. Returns the number of folds that are hidden at their places in the snapshot from
/// before. In the one after it they are a byte further on.
pub fn check(
    alloc: Global,
    text: &mut FoldedText,
    inlays: u32,
    folds: u32,
    steps: &mut Steps,
) -> Result<u64, Fault> {
    let bytes = text.rope.len();
    let (before, _) = text.show(alloc, steps)?;
    let (after, _) = text.replace(alloc, 0, 0, "b", steps)?;
    Ok(count_hidden(&before, &after, inlays, folds, bytes))
}

/// The number of folds that are hidden at their places in the one layer, and a byte after these in the other.
fn count_hidden<L: Layer>(
    before: &FoldSnapshot<L>,
    after: &FoldSnapshot<L>,
    inlays: u32,
    folds: u32,
    bytes: u32,
) -> u64 {
    let mut found: u64 = 0;
    for number in 0..folds {
        let (start, _) = fold_at(number, folds, bytes);
        let offset = start.wrapping_add(1);
        let place = place_of(number, inlays, folds, bytes);
        if hides_at_both(before, after, offset, place) {
            found = found.wrapping_add(1);
        }
    }
    found
}

/// Whether an offset is hidden by a placeholder at this place, and the next one in the other layer at the next place.
fn hides_at_both<L: Layer>(
    before: &FoldSnapshot<L>,
    after: &FoldSnapshot<L>,
    offset: u32,
    place: u32,
) -> bool {
    hides_at(before, offset, place)
        && hides_at(after, offset.wrapping_add(1), place.wrapping_add(1))
}

/// Where the placeholder of a fold is shown. It is after the text before it, the inlays in that and the placeholders of
/// folds, without what these hide.
fn place_of(number: u32, inlays: u32, folds: u32, bytes: u32) -> u32 {
    let (start, end) = fold_at(number, folds, bytes);
    let mut place = start;
    for inlay in 0..inlays {
        if inlay_at(inlay, inlays, bytes) < start {
            place = place.wrapping_add(INLAY.len() as u32);
        }
    }
    let hidden = end.wrapping_sub(start).wrapping_sub(PLACEHOLDER);
    place.wrapping_sub(number.wrapping_mul(hidden))
}

/// Whether an offset is hidden by a placeholder at this place.
fn hides_at<L: Layer>(layer: &FoldSnapshot<L>, offset: u32, place: u32) -> bool {
    layer.on_boundary(offset)
        && layer.place(offset, Bias::Left) == place
        && layer.place(offset, Bias::Right) == place.wrapping_add(PLACEHOLDER)
}
