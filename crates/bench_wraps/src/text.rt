//! The text that is timed: lines of words of seven letters with a blank after each.
ghost use Rattle.std.specs.Prelude.{◌≤◌};

use cell_units::{Fault, NoMemory, Refusal, Steps, TextFault};
use std::alloc::Global;
use test_stages::StagedText;
use text_rope::Rope;

/// The bytes of a short line with its feed.
const SHORT: u32 = 24;

/// The bytes of a long line with its feed.
const LONG: u32 = 160;

/// The bytes of a line with its feed. The last of each group is long; where groups have no lines all are short.
fn length_of(line: u32, group: u32) -> u32 {
    if group > 0 && line % group == group - 1 {
        LONG
    } else {
        SHORT
    }
}

/// The bytes of `lines` lines, of which the last of each group is long.
fn bytes_of_lines(alloc: Global, lines: u32, group: u32) -> Result<Vec<u8>, NoMemory> {
    let mut bytes = Vec::new(alloc);
    for line in 0..lines {
        let length = length_of(line, group);
        for column in 1..length {
            bytes.push(if column % 8 == 0 { b' ' } else { b'a' })?;
        }
        bytes.push(b'\n')?;
    }
    Ok(bytes)
}

/// A text of so many lines, and an empty one after them, which are to be wrapped at this width.
pub fn of_lines(
    alloc: Global,
    lines: u32,
    group: u32,
    width: u32,
    steps: &mut Steps,
) -> Result<StagedText, Fault> {
    let bytes = bytes_of_lines(alloc, lines, group)?;
    let rope = match Rope::from_bytes(alloc, &bytes, steps) {
        Ok(rope) => rope,
        Err(TextFault::NoMemory) => return Err(Fault::NoMemory),
        Err(_) => return Err(Fault::Refused(Refusal::TooLong)),
    };
    let mut text = StagedText::new(alloc, rope, steps)?;
    text.set_width(width)?;
    Ok(text)
}

/// The offset at which a line begins.
pub fn start_of(line: u32, group: u32) -> u32 {
    let long = if group == 0 { 0 } else { line / group };
    line.wrapping_mul(SHORT)
        .wrapping_add(long.wrapping_mul(LONG - SHORT))
}

/// A number below the limit, far from that of the turn before, and 0 where the limit is 0.
pub fn scattered(turn: u32, limit: u32) -> u32
    ensures { result ≤ limit }
{
    if limit == 0 {
        0
    } else {
        turn.wrapping_mul(2_654_435_761) % limit
    }
}
