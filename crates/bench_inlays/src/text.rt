//! The text that is timed, and where its inlays are.
ghost use Rattle.std.specs.Prelude.{◌≤◌};

use cell_units::NoMemory;
use std::alloc::Global;

/// The bytes of a line of the text, with its feed.
const LINE: u32 = 64;

/// What each inlay shows.
pub const INLAY: &str = ": i32";

/// The bytes of `count` letters and feeds, in lines of 64.
pub fn lines_of_letters(alloc: Global, count: u32) -> Result<Vec<u8>, NoMemory> {
    let mut bytes = Vec::with_capacity(alloc, count as usize)?;
    for place in 0..count {
        bytes.push(if place % LINE == LINE - 1 {
            b'\n'
        } else {
            b'a'
        })?;
    }
    Ok(bytes)
}

/// The offset of one of `inlays` inlays in a text of so many bytes: the middle of its share of the text.
pub fn offset_of(number: u32, inlays: u32, bytes: u32) -> u32 {
    if inlays == 0 {
        return 0;
    }
    let share = bytes / inlays;
    number.wrapping_mul(share).wrapping_add(share / 2)
}

/// A number below the limit, far from that of the turn before, and 0 where the limit is 0.
pub fn scattered(turn: u32, limit: u32) -> u32
    ensures { result ≤ limit }
{
    if limit == 0 {
        0
    } else {
        turn.wrapping_mul(2_654_435_761) % limit
    }
}
