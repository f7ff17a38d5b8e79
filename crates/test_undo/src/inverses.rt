//! What takes batches back.
use crate::editing::{Range, assert_batch, assert_text, done, splices};
use cell_units::Steps;
use display_map::Display;
use std::alloc::Global;
use std::process::Abort;
use std::test::Fail;

/// A batch makes the second text of the first, and has an inverse, which gives the first one back.
fn assert_inverse(
    rt: &impl Abort,
    alloc: Global,
    texts: [&str; 2],
    ranges: &[Range],
    inverse: &[Range],
) -> Result<(), Fail> {
    let [before, after] = texts;
    let batch = splices(alloc, ranges)?;
    let mut display = Display::start(alloc, before.as_bytes(), &mut Steps::new())?;
    let back = done(rt, alloc, &mut display, batch)?;
    assert_batch(rt, &back, inverse);
    assert_text(rt, alloc, &display, after)?;
    done(rt, alloc, &mut display, back)?;
    assert_text(rt, alloc, &display, before)?;
    Ok(())
}

#[test]
fn touching_ranges_come_back_in_order(rt: HostRuntime) -> Result<(), Fail> {
    let ranges = [(3, 5, ""), (5, 6, "x")];
    let inverse = [(3, 3, "de"), (3, 4, "f")];
    assert_inverse(&rt, rt.alloc(), ["abcdefg", "abcxg"], &ranges, &inverse)
}

#[test]
fn nothing_by_nothing_has_no_entry(rt: HostRuntime) -> Result<(), Fail> {
    let ranges = [(0, 0, ""), (1, 1, "+"), (2, 2, ""), (2, 3, "")];
    let inverse = [(1, 2, ""), (3, 3, "c")];
    assert_inverse(&rt, rt.alloc(), ["abcd", "a+bd"], &ranges, &inverse)
}

/// The characters have 2, 3 and 4 bytes, and each line break becomes one line feed.
#[test]
fn characters_of_several_bytes_come_back(rt: HostRuntime) -> Result<(), Fail> {
    let ranges = [(0, 2, "\r\n\r"), (2, 2, "ö"), (5, 9, "")];
    let inverse = [(0, 2, "é"), (2, 4, ""), (7, 7, "😀")];
    assert_inverse(&rt, rt.alloc(), ["é漢😀z", "\n\nö漢z"], &ranges, &inverse)
}

#[test]
fn a_whole_text_comes_back(rt: HostRuntime) -> Result<(), Fail> {
    let ranges = [(0, 4, "")];
    let inverse = [(0, 0, "a\nb\n")];
    assert_inverse(&rt, rt.alloc(), ["a\nb\n", ""], &ranges, &inverse)
}
