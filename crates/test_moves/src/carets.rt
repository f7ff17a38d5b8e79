//! Where motions lead.
use crate::displays::{assert_moves, block, inlay};
use cell_units::{Motion, NoMemory, Side};
use display_map::Op;
use std::alloc::Global;
use std::test::Fail;
use test_displays::view_of;

#[test]
fn a_caret_walks_over_two_rows_of_a_line(rt: HostRuntime) -> Result<(), Fail> {
    let alloc = rt.alloc();
    let ops = vec![in alloc; Op::Width { cells: 5 }]?;
    let view = view_of(alloc, "hello world", ops)?;
    let moves = [
        ((0, 4, 4), Motion::Down, (1, 4, 4)),
        ((0, 5, 5), Motion::Right, (1, 0, 0)),
        ((1, 5, 9), Motion::Down, (1, 5, 9)),
        ((1, 2, 2), Motion::Up, (0, 2, 2)),
    ];
    assert_moves(&rt, alloc, &view, &moves)?;
    Ok(())
}

#[test]
fn a_caret_leaps_over_an_inlay(rt: HostRuntime) -> Result<(), Fail> {
    let alloc = rt.alloc();
    let ops = vec![in alloc; inlay(alloc, 5, ": i32")?]?;
    let view = view_of(alloc, "let x = 1", ops)?;
    let moves = [
        ((0, 5, 5), Motion::Right, (0, 10, 10)),
        ((0, 10, 10), Motion::Left, (0, 5, 5)),
        ((0, 7, 7), Motion::Right, (0, 10, 10)),
    ];
    assert_moves(&rt, alloc, &view, &moves)?;
    Ok(())
}

/// A tab of four cells, a wide character and a flag of two each, and two letters, of which the first has an accent. The
/// valid columns are 0, 4, 6, 8, 9 and 10.
#[test]
fn a_caret_walks_over_clusters(rt: HostRuntime) -> Result<(), Fail> {
    let alloc = rt.alloc();
    let text = "\t\u{6f22}\u{1f1e9}\u{1f1ea}e\u{301}z";
    let view = view_of(alloc, text, Vec::new(alloc))?;
    let moves = [
        ((0, 0, 0), Motion::Right, (0, 4, 4)),
        ((0, 4, 4), Motion::Right, (0, 6, 6)),
        ((0, 6, 6), Motion::Right, (0, 8, 8)),
        ((0, 8, 8), Motion::Right, (0, 9, 9)),
        ((0, 9, 9), Motion::Right, (0, 10, 10)),
        ((0, 10, 10), Motion::Left, (0, 9, 9)),
        ((0, 9, 9), Motion::Left, (0, 8, 8)),
        ((0, 8, 8), Motion::Left, (0, 6, 6)),
        ((0, 6, 6), Motion::Left, (0, 4, 4)),
        ((0, 4, 4), Motion::Left, (0, 0, 0)),
        // From inside the tab, the wide character and the flag.
        ((0, 3, 3), Motion::Right, (0, 4, 4)),
        ((0, 5, 5), Motion::Left, (0, 0, 0)),
        ((0, 7, 7), Motion::Right, (0, 8, 8)),
        ((0, 7, 7), Motion::End, (0, 10, 10)),
        ((0, 7, 7), Motion::Start, (0, 0, 0)),
    ];
    assert_moves(&rt, alloc, &view, &moves)?;
    Ok(())
}

/// Motions at the first and the last spot of all, and at goals past every column.
#[test]
fn a_caret_stays_within_the_text(rt: HostRuntime) -> Result<(), Fail> {
    let alloc = rt.alloc();
    let view = view_of(alloc, "ab\ncde", Vec::new(alloc))?;
    let moves = [
        ((0, 0, 0), Motion::Left, (0, 0, 0)),
        ((0, 1, 1), Motion::Up, (0, 0, 1)),
        ((1, 3, 3), Motion::Right, (1, 3, 3)),
        ((1, 1, 1), Motion::Down, (1, 3, 1)),
        ((9, 9, 9), Motion::Left, (1, 2, 2)),
        ((0, 1, 70), Motion::Down, (1, 3, 70)),
        ((1, 3, 70), Motion::Up, (0, 2, 70)),
        ((0, 0, u32::MAX), Motion::Down, (1, 3, u32::MAX)),
    ];
    assert_moves(&rt, alloc, &view, &moves)?;
    Ok(())
}

#[test]
fn a_caret_has_one_spot_in_an_empty_text(rt: HostRuntime) -> Result<(), Fail> {
    let alloc = rt.alloc();
    let view = view_of(alloc, "", Vec::new(alloc))?;
    let moves = [
        ((0, 0, 7), Motion::Left, (0, 0, 0)),
        ((0, 0, 7), Motion::Right, (0, 0, 0)),
        ((0, 0, 7), Motion::Up, (0, 0, 7)),
        ((0, 0, 7), Motion::Down, (0, 0, 7)),
        ((3, 3, 7), Motion::Start, (0, 0, 0)),
        ((3, 3, 7), Motion::End, (0, 0, 0)),
    ];
    assert_moves(&rt, alloc, &view, &moves)?;
    Ok(())
}

/// Blocks of two rows above the first of two lines, of one between them, and of one below the last.
pub(crate) fn blocks(alloc: Global) -> Result<Vec<Op>, NoMemory> {
    let above = block(alloc, 1, Side::Above, 0, &["x", "y"])?;
    let between = block(alloc, 2, Side::Below, 0, &["m"])?;
    let below = block(alloc, 3, Side::Below, 1, &["z"])?;
    Ok(vec![in alloc; above, between, below]?)
}

/// The lines are the rows 2 and 4.
#[test]
fn a_caret_passes_blocks(rt: HostRuntime) -> Result<(), Fail> {
    let alloc = rt.alloc();
    let view = view_of(alloc, "ab\ncd", blocks(alloc)?)?;
    let moves = [
        ((2, 1, 1), Motion::Down, (4, 1, 1)),
        ((4, 1, 1), Motion::Up, (2, 1, 1)),
        ((2, 1, 1), Motion::Up, (2, 0, 1)),
        ((4, 1, 1), Motion::Down, (4, 2, 1)),
        ((2, 2, 2), Motion::Right, (4, 0, 0)),
        ((4, 0, 0), Motion::Left, (2, 2, 2)),
        // From the rows of the blocks.
        ((0, 0, 0), Motion::Down, (4, 0, 0)),
        ((1, 5, 5), Motion::Right, (2, 1, 1)),
        ((3, 0, 0), Motion::Left, (2, 1, 1)),
        ((5, 0, 2), Motion::Up, (2, 2, 2)),
    ];
    assert_moves(&rt, alloc, &view, &moves)?;
    Ok(())
}

/// The rows are `    foo `, `    bar ` and `    baz`, of which the last two have an indent.
#[test]
fn a_caret_starts_after_an_indent(rt: HostRuntime) -> Result<(), Fail> {
    let alloc = rt.alloc();
    let ops = vec![in alloc; Op::Width { cells: 10 }]?;
    let view = view_of(alloc, "\tfoo bar baz", ops)?;
    let moves = [
        ((1, 6, 6), Motion::Start, (1, 4, 4)),
        ((0, 0, 0), Motion::Down, (1, 4, 0)),
        ((1, 4, 0), Motion::Up, (0, 0, 0)),
        ((0, 5, 5), Motion::End, (0, 7, 7)),
        ((1, 0, 0), Motion::Left, (0, 6, 6)),
    ];
    assert_moves(&rt, alloc, &view, &moves)?;
    Ok(())
}

/// The rows are `ax`, `y` and `zb`. No offset is shown on the second.
#[test]
fn a_caret_passes_a_row_of_an_inlay(rt: HostRuntime) -> Result<(), Fail> {
    let alloc = rt.alloc();
    let ops = vec![in alloc; inlay(alloc, 1, "x\ny\nz")?]?;
    let view = view_of(alloc, "ab", ops)?;
    let moves = [
        ((0, 0, 0), Motion::Down, (2, 1, 0)),
        ((2, 2, 9), Motion::Up, (0, 1, 9)),
        ((0, 1, 1), Motion::Right, (2, 1, 1)),
        ((1, 0, 0), Motion::Right, (2, 1, 1)),
    ];
    assert_moves(&rt, alloc, &view, &moves)?;
    Ok(())
}
