//! What is timed of changes, each with the snapshot after it. Each task gives the number of bytes that are shown at its
//! end.

use crate::text::{FIRST, fold_at, scattered};
use cell_units::{Fault, Layer, NoMemory, Steps};
use folded_text::FoldedText;
use std::alloc::Global;

/// How many bytes a fold hides that is added.
const HIDDEN: u32 = 100;

/// Shows the text as it is, and gives the number of bytes that are shown.
fn bytes_shown(alloc: Global, text: &mut FoldedText, steps: &mut Steps) -> Result<u64, NoMemory> {
    let (shown, _) = text.show(alloc, steps)?;
    Ok(Layer::length(&shown) as u64)
}

/// Takes a letter out at an even turn, and puts one in at an odd one.
fn change_letter(
    alloc: Global,
    text: &mut FoldedText,
    turn: u32,
    at: u32,
    steps: &mut Steps,
) -> Result<(), Fault> {
    let (end, put) = if turn % 2 == 0 {
        (at.saturating_add(1), "")
    } else {
        (at, "b")
    };
    text.replace(alloc, at, end, put, steps)?;
    Ok(())
}

/// Changes letters in the middle of the text.
pub fn letters_in_the_middle(
    alloc: Global,
    text: &mut FoldedText,
    times: u32,
    steps: &mut Steps,
) -> Result<u64, Fault> {
    let middle = text.rope.len() / 2;
    for turn in 0..times {
        change_letter(alloc, text, turn, middle, steps)?;
    }
    Ok(bytes_shown(alloc, text, steps)?)
}

/// Changes letters far from each other. The letter that a turn takes out is put in by the next one, elsewhere.
pub fn scattered_letters(
    alloc: Global,
    text: &mut FoldedText,
    times: u32,
    steps: &mut Steps,
) -> Result<u64, Fault> {
    let last = text.rope.len().saturating_sub(2);
    for turn in 0..times {
        change_letter(alloc, text, turn, scattered(turn, last), steps)?;
    }
    Ok(bytes_shown(alloc, text, steps)?)
}

/// Changes letters that folds far from each other hide.
pub fn hidden_letters(
    alloc: Global,
    text: &mut FoldedText,
    folds: u32,
    times: u32,
    steps: &mut Steps,
) -> Result<u64, Fault> {
    let bytes = text.rope.len();
    for turn in 0..times {
        let (start, _) = fold_at(scattered(turn / 2, folds), folds, bytes);
        change_letter(alloc, text, turn, start.saturating_add(1), steps)?;
    }
    Ok(bytes_shown(alloc, text, steps)?)
}

/// Adds a fold, and shows the text with it.
fn add(
    alloc: Global,
    text: &mut FoldedText,
    id: u32,
    start: u32,
    steps: &mut Steps,
) -> Result<(), Fault> {
    text.fold(alloc, id, start, start.saturating_add(HIDDEN), steps)?;
    text.show(alloc, steps)?;
    Ok(())
}

/// Takes a fold off, and shows the text without it.
fn remove(alloc: Global, text: &mut FoldedText, id: u32, steps: &mut Steps) -> Result<(), Fault> {
    text.unfold(alloc, id, steps)?;
    text.show(alloc, steps)?;
    Ok(())
}

/// Adds folds far from each other, with ids from this one up.
pub fn add_up_from(
    alloc: Global,
    text: &mut FoldedText,
    first: u32,
    times: u32,
    steps: &mut Steps,
) -> Result<u64, Fault> {
    let last = text.rope.len().saturating_sub(HIDDEN);
    for turn in 0..times {
        add(
            alloc,
            text,
            first.wrapping_add(turn),
            scattered(turn, last),
            steps,
        )?;
    }
    Ok(bytes_shown(alloc, text, steps)?)
}

/// Takes off the folds from the first on.
pub fn remove_first(
    alloc: Global,
    text: &mut FoldedText,
    times: u32,
    steps: &mut Steps,
) -> Result<u64, Fault> {
    for turn in 0..times {
        remove(alloc, text, FIRST.wrapping_add(turn), steps)?;
    }
    Ok(bytes_shown(alloc, text, steps)?)
}

/// Takes off the folds from the last back.
pub fn remove_last(
    alloc: Global,
    text: &mut FoldedText,
    folds: u32,
    times: u32,
    steps: &mut Steps,
) -> Result<u64, Fault> {
    let last = FIRST.wrapping_add(folds).wrapping_sub(1);
    for turn in 0..times {
        remove(alloc, text, last.wrapping_sub(turn), steps)?;
    }
    Ok(bytes_shown(alloc, text, steps)?)
}
