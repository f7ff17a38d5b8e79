//! What is timed of changes.

use crate::looks::rows;
use crate::text::{block_lines, scattered, side_of, start_of};
use cell_units::{Bias, Fault, NoMemory, Point, Steps, Text};
use std::alloc::Global;
use test_stages::{BlockedText, StagedText};
use text_rope::Rope;

/// The id of a block that is added and taken out again.
const FRESH: u32 = u32::MAX;

/// Adds a block at a line and takes it out again, each with what is shown then, at lines far from each other. It gives
/// the number of rows of the last snapshot.
pub fn blocks(
    alloc: Global,
    text: &mut BlockedText,
    lines: u32,
    group: u32,
    times: u32,
    steps: &mut Steps,
) -> Result<u64, Fault> {
    let given = block_lines(alloc)?;
    put_and_take(alloc, text, given.as_slice(), lines, group, times, steps)?;
    Ok(rows(text))
}

/// The same with the lines of the block.
fn put_and_take(
    alloc: Global,
    text: &mut BlockedText,
    given: &[Text],
    lines: u32,
    group: u32,
    times: u32,
    steps: &mut Steps,
) -> Result<(), Fault> {
    for turn in 0..times {
        let at = start_of(scattered(turn, lines), group);
        text.insert(alloc, FRESH, side_of(turn), at, given, steps)?;
        text.remove(alloc, FRESH, steps)?;
    }
    Ok(())
}

/// Shows a text in which nothing has changed. It gives the number of rows.
pub fn shows(
    alloc: Global,
    text: &mut BlockedText,
    times: u32,
    steps: &mut Steps,
) -> Result<u64, NoMemory> {
    for _ in 0..times {
        text.show(alloc, steps)?;
    }
    Ok(rows(text))
}

/// Changes letters of lines far from each other, each time with what is shown then: the text with its maps and its
/// blocks. It gives the number of rows of the last snapshot.
pub fn letters(
    alloc: Global,
    text: &mut BlockedText,
    lines: u32,
    group: u32,
    times: u32,
    steps: &mut Steps,
) -> Result<u64, Fault> {
    for turn in 0..times {
        let at = start_of(scattered(turn, lines), group);
        text.replace(alloc, at, at.saturating_add(1), "b", steps)?;
    }
    Ok(rows(text))
}

/// The same without blocks: the text with its maps alone. It gives the number of rows of the last snapshot.
pub fn letters_below(
    alloc: Global,
    text: &BlockedText,
    lines: u32,
    group: u32,
    times: u32,
    steps: &mut Steps,
) -> Result<u64, Fault> {
    let mut changed = text.late.text.share()?;
    change_letters(alloc, &mut changed, lines, group, times, steps)
}

/// The same in a text of its own.
fn change_letters(
    alloc: Global,
    text: &mut StagedText,
    lines: u32,
    group: u32,
    times: u32,
    steps: &mut Steps,
) -> Result<u64, Fault> {
    let mut count = 0;
    for turn in 0..times {
        let at = start_of(scattered(turn, lines), group);
        count = put_letter(alloc, text, at, at.saturating_add(1), steps)?;
    }
    Ok(count)
}

/// Puts a letter in the place of a range. It gives how many rows come for those of its line.
fn put_letter(
    alloc: Global,
    text: &mut StagedText,
    start: u32,
    end: u32,
    steps: &mut Steps,
) -> Result<u64, Fault> {
    let change = text.replace(alloc, start, end, "b", steps)?;
    Ok(change.run.count as u64)
}

/// Types a letter at the starts of lines far from each other, each time with what is shown then: the text with its maps
/// and its blocks. It gives the number of rows of the last snapshot.
pub fn typed(
    alloc: Global,
    text: &mut BlockedText,
    lines: u32,
    times: u32,
    steps: &mut Steps,
) -> Result<u64, Fault> {
    for turn in 0..times {
        let at = start_in(&text.late.text.rope, scattered(turn, lines), steps);
        text.replace(alloc, at, at, "b", steps)?;
    }
    Ok(rows(text))
}

/// The same without blocks: the text with its maps alone. It gives how many rows come for those of the last line.
pub fn typed_below(
    alloc: Global,
    text: &BlockedText,
    lines: u32,
    times: u32,
    steps: &mut Steps,
) -> Result<u64, Fault> {
    let mut changed = text.late.text.share()?;
    type_letters(alloc, &mut changed, lines, times, steps)
}

/// The same in a text of its own.
fn type_letters(
    alloc: Global,
    text: &mut StagedText,
    lines: u32,
    times: u32,
    steps: &mut Steps,
) -> Result<u64, Fault> {
    let mut count = 0;
    for turn in 0..times {
        let at = start_in(&text.rope, scattered(turn, lines), steps);
        count = put_letter(alloc, text, at, at, steps)?;
    }
    Ok(count)
}

/// The offset at which a line begins among letters that were typed.
fn start_in(rope: &Rope, line: u32, steps: &mut Steps) -> u32 {
    let start = Point {
        row: line,
        column: 0,
    };
    rope.offset_of(start, Bias::Left, steps)
}
