//! How many tree nodes a change opens or makes, on the counter that is handed in.
use cell_units::{Fault, NoMemory, Steps, Text};
use display_map::{Change, DisplayOn, Op, Splice};
use kept_sheet::Sheet;
use map_sheet::MapSheet;
use std::alloc::Global;
use std::process::Abort;
use std::test::Fail;

/// The number that a counter has, which it only prints.
fn counted(alloc: Global, steps: &Steps) -> Result<u64, NoMemory> {
    let told = format!(in alloc; "{steps:?}")?;
    let mut count: u64 = 0;
    for byte in told.as_bytes() {
        if byte.is_ascii_digit() {
            count = count.wrapping_mul(10).wrapping_add((byte & 0x0f) as u64);
        }
    }
    Ok(count)
}

/// A display of a thousand lines, each of 63 letters and a line feed.
fn thousand_lines<S: Sheet>(alloc: Global) -> Result<DisplayOn<S>, Fail> {
    let mut text = String::new(alloc);
    for _ in 0..1000 {
        for _ in 0..63 {
            text.push('a')?;
        }
        text.push('\n')?;
    }
    Ok(DisplayOn::<S>::start(alloc, text.as_bytes(), &mut Steps::new())?)
}

/// The insertion of a letter at the start.
fn letter(alloc: Global) -> Result<Op, NoMemory> {
    Ok(Op::Replace(Splice {
        start: 0,
        end: 0,
        text: Text::from_str(alloc, "b")?,
    }))
}

/// Does one operation, and returns its steps.
fn steps_of<S: Sheet>(
    rt: &impl Abort,
    alloc: Global,
    display: &mut DisplayOn<S>,
    op: Op,
) -> Result<u64, Fault> {
    let mut steps = Steps::new();
    assert!(rt; display.room() > 0);
    display.apply(alloc, &Change::One(op), &mut steps)?;
    Ok(counted(alloc, &steps)?)
}

/// Inserts the letter, and returns the steps of that.
fn steps_of_letter<S: Sheet>(rt: &impl Abort, alloc: Global) -> Result<u64, Fail> {
    let mut display = thousand_lines::<S>(alloc)?;
    let letter = letter(alloc)?;
    Ok(steps_of(rt, alloc, &mut display, letter)?)
}

/// The text has at least 500 chunks, so its tree has at least two levels below the root, and a way down it takes three
/// steps. The letter touches a line before and after it, and is in one piece of 64 bytes. No tree of the display has more
/// than five levels below its root, so it takes at most 4,000 * (3 + 1) * (5 + 1) steps.
#[test]
fn a_letter_takes_the_steps_of_its_line_and_not_of_the_text(rt: HostRuntime) -> Result<(), Fail> {
    let steps = steps_of_letter::<MapSheet>(&rt, rt.alloc())?;
    assert!(rt; steps >= 3, "{steps} steps");
    assert!(rt; steps <= 96_000, "{steps} steps");
    Ok(())
}
