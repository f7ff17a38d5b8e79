//! Changes of which the replaced rows are known. All lines are wrapped before each.
use crate::displays::{change, opened, operate, wrap};
use cell_units::{Bias, NoMemory, Side, Text};
use display_map::{Change, Op, Splice};
use std::alloc::Global;
use std::test::Fail;
use test_displays::lines;
use view_changes::RowChange;

/// The rows from the first number up to the second make place for so many.
fn rows(from: u32, to: u32, count: u32) -> RowChange {
    RowChange { from, to, count }
}

fn put(alloc: Global, start: u32, end: u32, text: &str) -> Result<Splice, NoMemory> {
    Ok(Splice {
        start,
        end,
        text: Text::from_str(alloc, text)?,
    })
}

#[test]
fn a_letter_replaces_its_line(rt: HostRuntime) -> Result<(), Fail> {
    let alloc = rt.alloc();
    let mut display = opened(alloc, "a\nbb\nc")?;
    let letter = Op::Replace(put(alloc, 3, 3, "x")?);
    assert_eq!(rt; operate(alloc, &mut display, letter)?, rows(1, 2, 1));
    let nothing = Op::Replace(put(alloc, 3, 3, "")?);
    assert_eq!(rt; operate(alloc, &mut display, nothing)?, rows(0, 0, 0));
    Ok(())
}

#[test]
fn a_line_feed_makes_two_of_a_line_and_its_removal_one(rt: HostRuntime) -> Result<(), Fail> {
    let alloc = rt.alloc();
    let mut display = opened(alloc, "a\nbb\nc")?;
    let feed = Op::Replace(put(alloc, 3, 3, "\n")?);
    assert_eq!(rt; operate(alloc, &mut display, feed)?, rows(1, 2, 2));
    let gone = Op::Replace(put(alloc, 3, 4, "")?);
    assert_eq!(rt; operate(alloc, &mut display, gone)?, rows(1, 3, 1));
    Ok(())
}

/// The line `aaa bbb` has two rows of five cells, and one while it waits.
#[test]
fn a_landing_replaces_the_lines_that_landed(rt: HostRuntime) -> Result<(), Fail> {
    let alloc = rt.alloc();
    let mut display = opened(alloc, "a\naaa bbb\nc")?;
    let width = Op::Width { cells: 5 };
    assert_eq!(rt; operate(alloc, &mut display, width)?, rows(0, 0, 0));
    assert_eq!(rt; wrap(alloc, &mut display)?, Some(rows(0, 3, 4)));
    let letter = Op::Replace(put(alloc, 2, 2, "x")?);
    assert_eq!(rt; operate(alloc, &mut display, letter)?, rows(1, 3, 1));
    assert_eq!(rt; wrap(alloc, &mut display)?, Some(rows(1, 2, 2)));
    assert_eq!(rt; wrap(alloc, &mut display)?, None);
    Ok(())
}

#[test]
fn a_fold_makes_one_of_two_lines_and_its_removal_two(rt: HostRuntime) -> Result<(), Fail> {
    let alloc = rt.alloc();
    let mut display = opened(alloc, "a\nb\nc\nd")?;
    let fold = Op::Fold {
        id: 1,
        start: 1,
        end: 3,
    };
    assert_eq!(rt; operate(alloc, &mut display, fold)?, rows(0, 2, 1));
    let unfold = Op::Unfold { id: 1 };
    assert_eq!(rt; operate(alloc, &mut display, unfold)?, rows(0, 1, 2));
    Ok(())
}

#[test]
fn an_inlay_replaces_its_line_when_it_comes_and_goes(rt: HostRuntime) -> Result<(), Fail> {
    let alloc = rt.alloc();
    let mut display = opened(alloc, "a\nbb\nc")?;
    for (id, offset, wanted) in [
        (5, 1, rows(0, 1, 1)),
        (6, 3, rows(1, 2, 1)),
        (7, 5, rows(2, 3, 1)),
    ] {
        let inlay = Op::Inlay {
            id,
            offset,
            bias: Bias::Right,
            text: Text::from_str(alloc, ": T")?,
        };
        assert_eq!(rt; operate(alloc, &mut display, inlay)?, wanted);
    }
    let uninlay = Op::Uninlay { id: 6 };
    assert_eq!(rt; operate(alloc, &mut display, uninlay)?, rows(1, 2, 1));
    Ok(())
}

/// Blocks at one line and side stand by their ids; a block below a line comes before one above the next.
#[test]
fn a_block_replaces_its_own_rows_alone(rt: HostRuntime) -> Result<(), Fail> {
    let alloc = rt.alloc();
    let mut display = opened(alloc, "a\nb\nc")?;
    for (id, side, row, texts, wanted) in [
        (4, Side::Above, 1, &["x", "y"] as &[&str], rows(1, 1, 2)),
        (6, Side::Above, 1, &["w"], rows(3, 3, 1)),
        (2, Side::Above, 1, &["v"], rows(1, 1, 1)),
        (3, Side::Below, 0, &["u", "t"], rows(1, 1, 2)),
        (5, Side::Below, 1, &["s"], rows(8, 8, 1)),
        (1, Side::Below, 1, &["r"], rows(8, 8, 1)),
    ] {
        let block = Op::Block {
            id,
            side,
            row,
            lines: lines(alloc, texts)?,
        };
        assert_eq!(rt; operate(alloc, &mut display, block)?, wanted);
    }
    // The rows are now: a, u, t, v, x, y, w, b, r, s, c.
    for (id, wanted) in [
        (5, rows(9, 10, 0)),
        (4, rows(4, 6, 0)),
        (2, rows(3, 4, 0)),
        (3, rows(1, 3, 0)),
    ] {
        let unblock = Op::Unblock { id };
        assert_eq!(rt; operate(alloc, &mut display, unblock)?, wanted);
    }
    Ok(())
}

#[test]
fn a_letter_replaces_the_blocks_at_its_line_too(rt: HostRuntime) -> Result<(), Fail> {
    let alloc = rt.alloc();
    let mut display = opened(alloc, "a\nb\nc")?;
    for (id, side) in [(1, Side::Above), (2, Side::Below)] {
        let block = Op::Block {
            id,
            side,
            row: 1,
            lines: lines(alloc, &["x", "y"])?,
        };
        operate(alloc, &mut display, block)?;
    }
    let letter = Op::Replace(put(alloc, 2, 2, "z")?);
    assert_eq!(rt; operate(alloc, &mut display, letter)?, rows(1, 6, 5));
    Ok(())
}

#[test]
fn a_tab_size_replaces_all_rows(rt: HostRuntime) -> Result<(), Fail> {
    let alloc = rt.alloc();
    let mut display = opened(alloc, "a\n\tb\nc")?;
    let tab = Op::Tab { size: 8 };
    assert_eq!(rt; operate(alloc, &mut display, tab)?, rows(0, 3, 3));
    Ok(())
}

/// The second replacement takes away a line feed, and the first, which is done after it, puts one in.
#[test]
fn a_batch_replaces_the_rows_from_its_first_to_its_last(rt: HostRuntime) -> Result<(), Fail> {
    let alloc = rt.alloc();
    let mut display = opened(alloc, "a\nb\nc\nd\ne")?;
    let mut splices = Vec::new(alloc);
    splices.push(put(alloc, 3, 3, "\nx")?)?;
    splices.push(put(alloc, 5, 6, "")?)?;
    let batch = Change::Edit(splices);
    assert_eq!(rt; change(alloc, &mut display, &batch)?, rows(1, 4, 3));
    let none = Change::Edit(Vec::new(alloc));
    assert_eq!(rt; change(alloc, &mut display, &none)?, rows(0, 0, 0));
    Ok(())
}
