//! Histories drawn at random: no row outside of the replaced ones looks another after a change or a landing.
use crate::displays::{change, opened, wrap};
use crate::draws::drawn;
use crate::looks::{assert_true, looks};
use cell_units::Fault;
use display_map::Display;
use generated_input::Generator;
use std::alloc::Global;
use std::process::Abort;
use std::test::Fail;

/// Seven lines, of which some are wrapped at most widths that are drawn.
const TEXT: &str = "fn main() {\n\tlet total = one + another;\n\n\tprint(total);\n}\n// the end\nx";

/// How many changes a history has.
const CHANGES: u32 = 12;

/// Draws a change and does it, and returns whether it was done.
fn change_once(
    rt: &impl Abort,
    alloc: Global,
    display: &mut Display,
    generator: &mut Generator,
) -> Result<bool, Fail> {
    let view = display.view()?;
    let before = looks(alloc, &view)?;
    let asked = drawn(alloc, &view, generator)?;
    match change(alloc, display, &asked) {
        Ok(rows) => {
            let after = looks(alloc, &display.view()?)?;
            assert_true(rt, before.as_slice(), after.as_slice(), rows);
            Ok(true)
        }
        Err(Fault::Refused(_)) => Ok(false),
        Err(Fault::NoMemory) => Err("out of memory".into()),
    }
}

/// Wraps the lines that wait.
fn wrap_once(rt: &impl Abort, alloc: Global, display: &mut Display) -> Result<(), Fail> {
    let before = looks(alloc, &display.view()?)?;
    if let Some(rows) = wrap(alloc, display)? {
        let after = looks(alloc, &display.view()?)?;
        assert_true(rt, before.as_slice(), after.as_slice(), rows);
    }
    Ok(())
}

/// Plays a history, and returns how many changes were done.
fn played(rt: &impl Abort, alloc: Global, seed: u64) -> Result<u32, Fail> {
    let mut display = opened(alloc, TEXT)?;
    let mut generator = Generator::new(seed);
    let mut done = 0u32;
    for _ in 0..CHANGES {
        if change_once(rt, alloc, &mut display, &mut generator)? {
            done = done.saturating_add(1);
        }
        if generator.below(3) == 0 {
            wrap_once(rt, alloc, &mut display)?;
        }
    }
    Ok(done)
}

#[test]
fn rows_outside_stay_over_random_histories(rt: HostRuntime) -> Result<(), Fail> {
    let alloc = rt.alloc();
    let mut done = 0u32;
    for seed in 1..5 {
        done = done.saturating_add(played(&rt, alloc, seed)?);
    }
    // Most of the 48 changes are done.
    assert!(rt; done > 20);
    Ok(())
}
