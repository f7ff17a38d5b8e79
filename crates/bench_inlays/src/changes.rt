//! What is timed of changes, each with the snapshot after it. Each task gives the number of bytes that are shown at its
//! end.
use crate::laid::{FIRST, Laid};
use crate::text::{offset_of, scattered};
use cell_units::{Fault, Layer, Steps};
use inlay_map::InlaySnapshot;
use std::alloc::Global;

/// Takes a letter out at an even turn, and puts one in at an odd one.
fn change_letter(
    alloc: Global,
    laid: &mut Laid,
    turn: u32,
    at: u32,
    steps: &mut Steps,
) -> Result<InlaySnapshot, Fault> {
    if turn % 2 == 0 {
        laid.replace(alloc, at, at.saturating_add(1), "", steps)
    } else {
        laid.replace(alloc, at, at, "b", steps)
    }
}

/// Changes letters in the middle of the text.
pub fn letters_in_the_middle(
    alloc: Global,
    laid: &mut Laid,
    times: u32,
    steps: &mut Steps,
) -> Result<u64, Fault> {
    let mut layer = laid.show(alloc, steps)?;
    let middle = layer.buffer_len() / 2;
    for turn in 0..times {
        layer = change_letter(alloc, laid, turn, middle, steps)?;
    }
    Ok(Layer::length(&layer) as u64)
}

/// Changes letters far from each other. The letter that a turn takes out is put in by the next one, elsewhere.
pub fn scattered_letters(
    alloc: Global,
    laid: &mut Laid,
    times: u32,
    steps: &mut Steps,
) -> Result<u64, Fault> {
    let mut layer = laid.show(alloc, steps)?;
    let last = layer.buffer_len().saturating_sub(2);
    for turn in 0..times {
        layer = change_letter(alloc, laid, turn, scattered(turn, last), steps)?;
    }
    Ok(Layer::length(&layer) as u64)
}

/// Changes letters right after inlays far from each other.
pub fn letters_at_inlays(
    alloc: Global,
    laid: &mut Laid,
    inlays: u32,
    times: u32,
    steps: &mut Steps,
) -> Result<u64, Fault> {
    let mut layer = laid.show(alloc, steps)?;
    let bytes = layer.buffer_len();
    for turn in 0..times {
        let at = offset_of(scattered(turn / 2, inlays), inlays, bytes);
        layer = change_letter(alloc, laid, turn, at, steps)?;
    }
    Ok(Layer::length(&layer) as u64)
}

/// Adds inlays far from each other, with ids from this one up.
pub fn add_up_from(
    alloc: Global,
    laid: &mut Laid,
    first: u32,
    times: u32,
    steps: &mut Steps,
) -> Result<u64, Fault> {
    let mut layer = laid.show(alloc, steps)?;
    let bytes = layer.buffer_len();
    for turn in 0..times {
        let id = first.wrapping_add(turn);
        laid.add(alloc, id, scattered(turn, bytes), steps)?;
        layer = laid.show(alloc, steps)?;
    }
    Ok(Layer::length(&layer) as u64)
}

/// The same with ids from this one down.
pub fn add_down_from(
    alloc: Global,
    laid: &mut Laid,
    first: u32,
    times: u32,
    steps: &mut Steps,
) -> Result<u64, Fault> {
    let mut layer = laid.show(alloc, steps)?;
    let bytes = layer.buffer_len();
    for turn in 0..times {
        let id = first.wrapping_sub(turn);
        laid.add(alloc, id, scattered(turn, bytes), steps)?;
        layer = laid.show(alloc, steps)?;
    }
    Ok(Layer::length(&layer) as u64)
}

/// Takes away the inlays from the first on.
pub fn remove_first(
    alloc: Global,
    laid: &mut Laid,
    times: u32,
    steps: &mut Steps,
) -> Result<u64, Fault> {
    let mut layer = laid.show(alloc, steps)?;
    for turn in 0..times {
        laid.remove(alloc, FIRST.wrapping_add(turn), steps)?;
        layer = laid.show(alloc, steps)?;
    }
    Ok(Layer::length(&layer) as u64)
}

/// Takes away the inlays from the last back.
pub fn remove_last(
    alloc: Global,
    laid: &mut Laid,
    inlays: u32,
    times: u32,
    steps: &mut Steps,
) -> Result<u64, Fault> {
    let last = FIRST.wrapping_add(inlays).wrapping_sub(1);
    let mut layer = laid.show(alloc, steps)?;
    for turn in 0..times {
        laid.remove(alloc, last.wrapping_sub(turn), steps)?;
        layer = laid.show(alloc, steps)?;
    }
    Ok(Layer::length(&layer) as u64)
}
