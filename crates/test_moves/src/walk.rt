//! Walks of 10,000 random motions in all, and random selections, beside the definitions over the list of all valid
//! spots.
use crate::displays::{block, inlay_at};
use crate::plain::{caret, spans, valid_spots};
use cell_units::{Motion, NoMemory, Side, Spot, Steps};
use display_map::{Op, View};
use generated_input::Generator;
use std::alloc::Global;
use std::process::Abort;
use std::test::Fail;
use test_displays::view_of;
use view_moves::{select, step};

/// Lines with a tab, wide characters, a flag, accents, a zero-width space and words that are wrapped. Also an empty
/// one, and one that is empty at the end.
const TEXT: &str =
    "fn main() {\n\tlet x = 1;\n\n  a long line of words that is wrapped\n\u{6f22}\u{5b57}\u{304b}\u{306a} wide \u{6f22}\u{5b57}\n\u{1f1e9}\u{1f1ea}\u{1f1eb}\u{1f1f7} e\u{301}e\u{301} a\u{200b}b\n}\n";

/// A width, inlays of three lines and of wide characters, a fold within a line and one over a line's end. Also blocks
/// above the first line, below one and below the last.
fn operations(alloc: Global, cells: u32) -> Result<Vec<Op>, NoMemory> {
    let narrow = Op::Width { cells };
    let lines = inlay_at(alloc, 1, 8, "x\ny\nz")?;
    let wide = inlay_at(alloc, 2, 20, ": \u{6f22}\u{5b57}")?;
    let within = Op::Fold {
        id: 1,
        start: 29,
        end: 34,
    };
    let over = Op::Fold {
        id: 2,
        start: 23,
        end: 25,
    };
    let first = block(alloc, 1, Side::Above, 0, &["above", "all"])?;
    let between = block(alloc, 2, Side::Below, 3, &["between"])?;
    let last = block(alloc, 3, Side::Below, 7, &["below", "all"])?;
    Ok(vec![in alloc; narrow, lines, wide, within, over, first, between, last]?)
}

/// One of the six motions.
fn motion(generator: &mut Generator) -> Motion {
    match generator.below(6) {
        0 => Motion::Left,
        1 => Motion::Right,
        2 => Motion::Up,
        3 => Motion::Down,
        4 => Motion::Start,
        _ => Motion::End,
    }
}

/// A spot of the display, or somewhat past its last row or a row's end.
fn spot(generator: &mut Generator, rows: u32) -> Spot {
    Spot {
        row: generator.below(rows),
        col: generator.below(16),
    }
}

/// A walk of so many motions. Of four steps one goes on from a random spot, and the others from where the caret is.
fn assert_walk(
    rt: &impl Abort,
    alloc: Global,
    view: &View,
    spots: &[Spot],
    motions: u32,
) -> Result<(), NoMemory> {
    let rows = view.row_count().saturating_add(2);
    let mut generator = Generator::new(u64::from(rows));
    let mut from = Spot { row: 0, col: 0 };
    let mut goal = 0;
    for _ in 0..motions {
        if generator.below(4) == 0 {
            from = spot(&mut generator, rows);
            goal = generator.below(16);
        }
        let motion = motion(&mut generator);
        let found = step(alloc, view, from, goal, motion, &mut Steps::new())?;
        assert_eq!(rt; Some(found), caret(spots, from, goal, motion));
        from = found.spot;
        goal = found.goal;
    }
    Ok(())
}

/// A walk of 2,500 motions at a width.
fn walk_at(rt: &impl Abort, alloc: Global, cells: u32) -> Result<(), Fail> {
    let view = view_of(alloc, TEXT, operations(alloc, cells)?)?;
    let spots = valid_spots(alloc, &view, TEXT.len() as u32)?;
    assert!(rt; spots.len() > 100);
    assert_walk(rt, alloc, &view, spots.as_slice(), 2_500)?;
    Ok(())
}

#[test]
fn a_walk_over_narrow_rows_is_that_of_the_definitions(rt: HostRuntime) -> Result<(), Fail> {
    walk_at(&rt, rt.alloc(), 5)
}

#[test]
fn a_walk_over_wrapped_rows_is_that_of_the_definitions(rt: HostRuntime) -> Result<(), Fail> {
    walk_at(&rt, rt.alloc(), 12)
}

#[test]
fn a_walk_over_long_rows_is_that_of_the_definitions(rt: HostRuntime) -> Result<(), Fail> {
    walk_at(&rt, rt.alloc(), 80)
}

#[test]
fn a_walk_over_lines_in_one_row_is_that_of_the_definitions(rt: HostRuntime) -> Result<(), Fail> {
    walk_at(&rt, rt.alloc(), 0)
}

/// So many selections between two random spots.
fn assert_selections(
    rt: &impl Abort,
    alloc: Global,
    view: &View,
    spots: &[Spot],
    times: u32,
) -> Result<(), NoMemory> {
    let mut generator = Generator::new(42);
    let rows = view.row_count().saturating_add(2);
    for _ in 0..times {
        let one = spot(&mut generator, rows);
        let other = spot(&mut generator, rows);
        let found = select(alloc, view, one, other, &mut Steps::new())?;
        let expected = spans(alloc, spots, one, other)?;
        assert_eq!(rt; found.spans.as_slice(), expected.as_slice());
    }
    Ok(())
}

#[test]
fn five_hundred_selections_are_those_of_the_definitions(rt: HostRuntime) -> Result<(), Fail> {
    let alloc = rt.alloc();
    let view = view_of(alloc, TEXT, operations(alloc, 12)?)?;
    let spots = valid_spots(alloc, &view, TEXT.len() as u32)?;
    assert_selections(&rt, alloc, &view, spots.as_slice(), 500)?;
    Ok(())
}
