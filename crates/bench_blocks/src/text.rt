//! The text that is timed: lines of words of seven letters with a blank after each, and blocks between them.
ghost use Rattle.std.specs.Prelude.{◌≤◌};

use cell_units::{Fault, NoMemory, Refusal, Side, Steps, Text, TextFault};
use std::alloc::Global;
use test_stages::BlockedText;
use text_rope::Rope;

/// The cells at which lines are cut.
const WIDTH: u32 = 80;

/// The bytes of a short line with its feed.
const SHORT: u32 = 24;

/// The bytes of a long line with its feed.
const LONG: u32 = 160;

/// The bytes of a line with its feed. The last of each group is long; where groups have no lines all are short.
fn length_of(line: u32, group: u32) -> u32 {
    if group > 0 && line % group == group - 1 {
        LONG
    } else {
        SHORT
    }
}

/// The bytes of `lines` lines, of which the last of each group is long.
fn bytes_of_lines(alloc: Global, lines: u32, group: u32) -> Result<Vec<u8>, NoMemory> {
    let mut bytes = Vec::new(alloc);
    for line in 0..lines {
        let length = length_of(line, group);
        for column in 1..length {
            bytes.push(if column % 8 == 0 { b' ' } else { b'a' })?;
        }
        bytes.push(b'\n')?;
    }
    Ok(bytes)
}

/// A text of so many lines, and an empty one after them, that are all wrapped.
pub fn of_lines(
    alloc: Global,
    lines: u32,
    group: u32,
    steps: &mut Steps,
) -> Result<BlockedText, Fault> {
    let rope = rope_of(alloc, lines, group, steps)?;
    let text = at_width(alloc, rope, steps)?;
    Ok(wrapped(alloc, text, lines, steps)?)
}

/// The rope of so many lines.
fn rope_of(alloc: Global, lines: u32, group: u32, steps: &mut Steps) -> Result<Rope, Fault> {
    let bytes = bytes_of_lines(alloc, lines, group)?;
    match Rope::from_bytes(alloc, &bytes, steps) {
        Ok(rope) => Ok(rope),
        Err(TextFault::NoMemory) => Err(Fault::NoMemory),
        Err(_) => Err(Fault::Refused(Refusal::TooLong)),
    }
}

/// The text of a rope, whose lines wait for being wrapped.
fn at_width(alloc: Global, rope: Rope, steps: &mut Steps) -> Result<BlockedText, Fault> {
    let mut text = BlockedText::new(alloc, rope, steps)?;
    text.set_width(WIDTH)?;
    Ok(text)
}

/// The text with all lines wrapped.
fn wrapped(
    alloc: Global,
    mut text: BlockedText,
    lines: u32,
    steps: &mut Steps,
) -> Result<BlockedText, NoMemory> {
    wrap_all(alloc, &mut text, lines, steps)?;
    text.share(alloc)
}

/// Wraps all lines, a run at a time.
fn wrap_all(
    alloc: Global,
    text: &mut BlockedText,
    lines: u32,
    steps: &mut Steps,
) -> Result<(), NoMemory> {
    for _ in 0..lines {
        if text.take(alloc, steps)?.is_none() {
            break;
        }
        text.land(alloc, steps)?;
    }
    Ok(())
}

/// Adds a block at the start of each of so many lines that are equally far apart, above one and below the next.
pub fn put_blocks(
    alloc: Global,
    text: &mut BlockedText,
    lines: u32,
    blocks: u32,
    group: u32,
    steps: &mut Steps,
) -> Result<(), Fault> {
    let apart = if blocks == 0 { 0 } else { lines / blocks };
    let rows = block_lines(alloc)?;
    put_each(alloc, text, rows.as_slice(), apart, blocks, group, steps)
}

/// The same with the lines of the blocks, and how far apart they are.
fn put_each(
    alloc: Global,
    text: &mut BlockedText,
    rows: &[Text],
    apart: u32,
    blocks: u32,
    group: u32,
    steps: &mut Steps,
) -> Result<(), Fault> {
    for id in 0..blocks {
        let at = start_of(id.wrapping_mul(apart), group);
        text.insert(alloc, id, side_of(id), at, rows, steps)?;
    }
    Ok(())
}

/// The lines of each block.
pub fn block_lines(alloc: Global) -> Result<Vec<Text>, NoMemory> {
    let mut lines = Vec::new(alloc);
    lines.push(Text::from_str(alloc, "a note of one line")?)?;
    Ok(lines)
}

/// The side of a block.
pub fn side_of(id: u32) -> Side {
    if id % 2 == 0 {
        Side::Above
    } else {
        Side::Below
    }
}

/// The offset at which a line begins.
pub fn start_of(line: u32, group: u32) -> u32 {
    let long = if group == 0 { 0 } else { line / group };
    line.wrapping_mul(SHORT)
        .wrapping_add(long.wrapping_mul(LONG - SHORT))
}

/// A number below the limit, far from that of the turn before, and 0 where the limit is 0.
pub fn scattered(turn: u32, limit: u32) -> u32
    ensures { result ≤ limit }
{
    if limit == 0 {
        0
    } else {
        turn.wrapping_mul(2_654_435_761) % limit
    }
}
