//! What is timed of snapshots.

use crate::laid::Laid;
use crate::text::{INLAY, offset_of, scattered};
use cell_units::{Bias, Fault, Layer, NoMemory, Steps};
use inlay_map::InlaySnapshot;
use std::alloc::Global;

/// Asks whether offsets far from each other are boundaries. It gives the number of those that are.
pub fn boundaries(layer: &InlaySnapshot, times: u32) -> u64 {
    let bytes = layer.buffer_len();
    let mut check: u64 = 0;
    for turn in 0..times {
        if layer.on_boundary(scattered(turn, bytes)) {
            check = check.wrapping_add(1);
        }
    }
    check
}

/// Asks the same, and then for the places of those that are. It gives their sum.
pub fn places(layer: &InlaySnapshot, times: u32) -> u64 {
    let bytes = layer.buffer_len();
    let mut check: u64 = 0;
    for turn in 0..times {
        let offset = scattered(turn, bytes);
        if layer.on_boundary(offset) {
            check = check.wrapping_add(Layer::place(layer, offset, Bias::Right) as u64);
        }
    }
    check
}

/// Asks for the points of places far from each other. It gives the sum of their lines.
pub fn points(layer: &InlaySnapshot, times: u32) -> u64 {
    let length = Layer::length(layer);
    let mut check: u64 = 0;
    for turn in 0..times {
        let point = layer.point(scattered(turn, length));
        check = check.wrapping_add(point.row as u64);
    }
    check
}

/// Asks for the offsets of places far from each other. It gives their sum.
pub fn backs(layer: &InlaySnapshot, times: u32) -> u64 {
    let length = Layer::length(layer);
    let mut check: u64 = 0;
    for turn in 0..times {
        let offset = layer.back(scattered(turn, length), Bias::Left);
        check = check.wrapping_add(offset.unwrap_or(0) as u64);
    }
    check
}

/// Shares the snapshot, over and over. It gives the number of lines of the last copy.
pub fn shares(layer: &InlaySnapshot, times: u32) -> Result<u64, NoMemory> {
    let mut lines = 0;
    for _ in 0..times {
        let copy = layer.share()?;
        lines = Layer::lines(&copy) as u64;
    }
    Ok(lines)
}

/// Puts a letter before the text. Returns the number of inlays that are at their places in the snapshot from before,
/// and a byte after these in the one after it.
pub fn check(alloc: Global, laid: &mut Laid, inlays: u32, steps: &mut Steps) -> Result<u64, Fault> {
    let before = laid.show(alloc, steps)?;
    let bytes = before.buffer_len();
    let after = laid.replace(alloc, 0, 0, "b", steps)?;
    let mut found: u64 = 0;
    for number in 0..inlays {
        let offset = offset_of(number, inlays, bytes);
        let place = number.wrapping_mul(INLAY.len() as u32).wrapping_add(offset);
        if shows_at(&before, offset, place)
            && shows_at(&after, offset.wrapping_add(1), place.wrapping_add(1))
        {
            found = found.wrapping_add(1);
        }
    }
    Ok(found)
}

/// Whether an inlay is shown between the two places of the offset, of which this is the left one.
fn shows_at(layer: &InlaySnapshot, offset: u32, place: u32) -> bool {
    layer.on_boundary(offset)
        && Layer::place(layer, offset, Bias::Left) == place
        && Layer::place(layer, offset, Bias::Right) == place.wrapping_add(INLAY.len() as u32)
}
