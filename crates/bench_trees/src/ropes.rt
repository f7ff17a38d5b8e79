//! What is timed of ropes.

use cell_units::{Bias, Fault, NoMemory, Point, Steps, TextFault};
use generated_input::Generator;
use std::alloc::Global;
use text_rope::Rope;

/// The bytes of a line of the timed text, with its feed.
const LINE: u32 = 64;

/// The bytes of `count` letters and feeds, in lines of 64.
fn lines_of_letters(alloc: Global, count: u32) -> Result<Vec<u8>, NoMemory> {
    let mut bytes = Vec::with_capacity(alloc, count as usize)?;
    for place in 0..count {
        bytes.push(if place % LINE == LINE - 1 {
            b'\n'
        } else {
            b'a'
        })?;
    }
    Ok(bytes)
}

/// A rope of `count` bytes, in lines of 64.
pub fn build(alloc: Global, count: u32, steps: &mut Steps) -> Result<Rope, TextFault> {
    let bytes = lines_of_letters(alloc, count)?;
    Rope::from_bytes(alloc, &bytes, steps)
}

/// Replaces one byte by one letter at random places. It gives the number of lines that are left.
pub fn replace_letters(
    alloc: Global,
    rope: &mut Rope,
    times: u32,
    steps: &mut Steps,
) -> Result<u64, Fault> {
    let mut generator = Generator::new(1);
    for _ in 0..times {
        let at = generator.below(rope.len());
        rope.replace(alloc, at, at + 1, "b", steps)?;
    }
    Ok(rope.line_count() as u64)
}

/// The offsets of random points. It gives their sum.
pub fn find_offsets(rope: &Rope, times: u32, steps: &mut Steps) -> u64 {
    let mut generator = Generator::new(1);
    let mut check: u64 = 0;
    for _ in 0..times {
        let point = Point {
            row: generator.below(rope.line_count()),
            column: generator.below(LINE),
        };
        check = check.wrapping_add(rope.offset_of(point, Bias::Left, steps) as u64);
    }
    check
}

/// The points of the offsets of random points. It gives the sum of their rows.
pub fn find_points(rope: &Rope, times: u32, steps: &mut Steps) -> u64 {
    let mut generator = Generator::new(1);
    let mut check: u64 = 0;
    for _ in 0..times {
        let point = Point {
            row: generator.below(rope.line_count()),
            column: generator.below(LINE),
        };
        let offset = rope.offset_of(point, Bias::Left, steps);
        check = check.wrapping_add(rope.point_of(offset, steps).row as u64);
    }
    check
}
