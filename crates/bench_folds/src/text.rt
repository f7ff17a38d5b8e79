//! The text that is timed, and where its inlays and folds are.
ghost use Rattle.std.specs.Prelude.{◌≤◌};

use cell_units::{Bias, Fault, NoMemory, Refusal, Steps, TextFault};
use folded_text::FoldedText;
use std::alloc::Global;
use text_rope::Rope;

/// The bytes of a line of the text, with its feed.
const LINE: u32 = 64;

/// What each inlay shows.
pub const INLAY: &str = ": i32";

/// The id of the first inlay and of the first fold. Those below it are free.
pub const FIRST: u32 = 1_000_000;

/// The bytes of `count` letters and feeds, in lines of 64.
fn lines_of_letters(alloc: Global, count: u32) -> Result<Vec<u8>, NoMemory> {
    let mut bytes = Vec::with_capacity(alloc, count as usize)?;
    for place in 0..count {
        bytes.push(if place % LINE == LINE - 1 {
            b'\n'
        } else {
            b'a'
        })?;
    }
    Ok(bytes)
}

/// Where the share of the text begins that one of `count` has, and how many bytes it has.
fn share_of(number: u32, count: u32, bytes: u32) -> (u32, u32) {
    if count == 0 {
        return (0, 0);
    }
    let share = bytes / count;
    (number.wrapping_mul(share), share)
}

/// The offset of one of `count` inlays in a text of so many bytes: in the first half of its share.
pub fn inlay_at(number: u32, count: u32, bytes: u32) -> u32 {
    let (start, share) = share_of(number, count, bytes);
    start.wrapping_add(share / 4)
}

/// The range of one of `count` folds in a text of so many bytes: a quarter of its share, in the second half of that.
pub fn fold_at(number: u32, count: u32, bytes: u32) -> (u32, u32) {
    let (start, share) = share_of(number, count, bytes);
    let first = start.wrapping_add(share / 2);
    (first, first.wrapping_add(share / 4))
}

/// A text of so many bytes, without inlays and folds.
pub fn plain(alloc: Global, bytes: u32, steps: &mut Steps) -> Result<FoldedText, Fault> {
    let letters = lines_of_letters(alloc, bytes)?;
    let rope = match Rope::from_bytes(alloc, &letters, steps) {
        Ok(rope) => rope,
        Err(TextFault::NoMemory) => return Err(Fault::NoMemory),
        Err(_) => return Err(Fault::Refused(Refusal::TooLong)),
    };
    Ok(FoldedText::new(alloc, rope, steps)?)
}

/// Adds so many inlays evenly spread, whose ids rise with their offsets.
fn add_inlays(
    alloc: Global,
    text: &mut FoldedText,
    bytes: u32,
    inlays: u32,
    steps: &mut Steps,
) -> Result<(), Fault> {
    for number in 0..inlays {
        let id = FIRST.wrapping_add(number);
        let offset = inlay_at(number, inlays, bytes);
        text.insert(alloc, id, offset, Bias::Right, INLAY, steps)?;
    }
    Ok(())
}

/// Adds so many folds evenly spread, whose ids rise with their offsets.
fn add_folds(
    alloc: Global,
    text: &mut FoldedText,
    bytes: u32,
    folds: u32,
    steps: &mut Steps,
) -> Result<(), Fault> {
    for number in 0..folds {
        let (start, end) = fold_at(number, folds, bytes);
        text.fold(alloc, FIRST.wrapping_add(number), start, end, steps)?;
    }
    Ok(())
}

/// Adds so many inlays and folds evenly spread to a text of so many bytes.
pub fn fill(
    alloc: Global,
    text: &mut FoldedText,
    bytes: u32,
    inlays: u32,
    folds: u32,
    steps: &mut Steps,
) -> Result<(), Fault> {
    add_inlays(alloc, text, bytes, inlays, steps)?;
    text.show(alloc, steps)?;
    add_folds(alloc, text, bytes, folds, steps)
}

/// A number below the limit, far from that of the turn before, and 0 where the limit is 0.
pub fn scattered(turn: u32, limit: u32) -> u32
    ensures { result ≤ limit }
{
    if limit == 0 {
        0
    } else {
        turn.wrapping_mul(2_654_435_761) % limit
    }
}
