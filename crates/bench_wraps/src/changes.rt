//! What is timed of changes.

use crate::looks::rows;
use crate::text::{scattered, start_of};
use cell_line::Lines;
use cell_units::{Fault, NoMemory, Steps};
use std::alloc::Global;
use test_stages::StagedText;

/// Makes maps of the text's lines, each with its first snapshot. It gives the number of rows of the last one.
pub fn maps_anew(
    alloc: Global,
    text: &StagedText,
    times: u32,
    steps: &mut Steps,
) -> Result<u64, NoMemory> {
    let mut count = 0;
    for _ in 0..times {
        let made = StagedText::new(alloc, text.rope.share()?, steps)?;
        count = rows(made.lines.rows());
    }
    Ok(count)
}

/// Wraps all lines, a run at a time.
pub fn wrap_all(alloc: Global, text: &mut StagedText, steps: &mut Steps) -> Result<(), NoMemory> {
    for _ in 0..text.lines.lines().lines() {
        if text.wrap_next(alloc, steps)?.is_none() {
            break;
        }
    }
    Ok(())
}

/// Changes letters of lines far from each other: each time the snapshot with the line in one row, the line wrapped, and
/// the snapshot with it. It gives the number of rows of the last one.
pub fn letters(
    alloc: Global,
    text: &mut StagedText,
    lines: u32,
    group: u32,
    times: u32,
    steps: &mut Steps,
) -> Result<u64, Fault> {
    let mut count = 0;
    for turn in 0..times {
        let at = start_of(scattered(turn, lines), group);
        let _change = text.replace(alloc, at, at.saturating_add(1), "b", steps)?;
        text.wrap_next(alloc, steps)?;
        count = rows(text.lines.rows());
    }
    Ok(count)
}
