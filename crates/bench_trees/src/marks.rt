//! What is timed of marks.
ghost use Rattle.std.specs.Prelude.{◌≤◌, All, IfOk};

use cell_units::{Bias, Fault, NoMemory, Shift, Steps};
use generated_input::Generator;
use mark_tree::{Mark, MarkTree};
use std::alloc::Global;
use sum_core::NoLoad;

/// The bytes of the text that the marks are in.
const TEXT: u32 = 33_554_432;

/// A mark of this id at a random offset of the text.
fn random_mark(generator: &mut Generator, id: u32) -> Mark<NoLoad>
    ensures { result.offset ≤ 33554432 }
{
    let bias = if id % 2 == 0 { Bias::Left } else { Bias::Right };
    Mark {
        offset: generator.below(TEXT),
        bias,
        id,
        load: NoLoad,
    }
}

/// A tree of `count` marks at random offsets of the text, added one by one.
pub fn build(alloc: Global, count: u32, steps: &mut Steps) -> Result<MarkTree<NoLoad>, Fault>
    ensures { IfOk result (λ t. All (λ m. m.offset ≤ 33554432) t) }
{
    let mut generator = Generator::new(1);
    let mut tree = MarkTree::new(alloc);
    for id in 0..count {
        let mark = random_mark(&mut generator, id);
        tree.insert(alloc, mark, steps)?;
    }
    Ok(tree)
}

/// A byte put in at an even turn, and one taken out at an odd one.
fn one_byte(turn: u32, start: u32) -> Shift
    requires { start ≤ 33554432 }
    ensures small { result.count ≤ 1 }
{
    if turn % 2 == 0 {
        Shift {
            start,
            end: start,
            count: 1,
        }
    } else {
        Shift {
            start,
            end: start + 1,
            count: 0,
        }
    }
}

/// Puts in and takes out a byte at random offsets, in turn, `times` times or as often as the text has bytes. It gives
/// the number of marks.
pub fn shift_each(
    alloc: Global,
    tree: &mut MarkTree<NoLoad>,
    times: u32,
    steps: &mut Steps,
) -> Result<u64, NoMemory>
    requires { All (λ m. m.offset ≤ 33554432) tree.old }
{
    let mut generator = Generator::new(1);
    for turn in 0..times.min(TEXT) {
        let shift = one_byte(turn, generator.below(TEXT));
        tree.apply(alloc, shift, steps)?;
    }
    Ok(tree.len() as u64)
}

/// The places of the first marks at or after random offsets. It gives their sum.
pub fn find_each(tree: &MarkTree<NoLoad>, times: u32, steps: &mut Steps) -> u64 {
    let mut generator = Generator::new(1);
    let mut check: u64 = 0;
    for _ in 0..times {
        let place = tree.at_or_after(generator.below(TEXT), steps);
        check = check.wrapping_add(place.unwrap_or(0) as u64);
    }
    check
}
