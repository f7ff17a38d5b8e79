//! What selections cover.
use crate::carets::blocks;
use crate::displays::{assert_selection, inlay};
use cell_units::NoMemory;
use display_map::{Op, View};
use std::alloc::Global;
use std::process::Abort;
use std::test::Fail;
use test_displays::view_of;

#[test]
fn two_rows_of_a_line_are_selected(rt: HostRuntime) -> Result<(), Fail> {
    let alloc = rt.alloc();
    let ops = vec![in alloc; Op::Width { cells: 5 }]?;
    let view = view_of(alloc, "hello world", ops)?;
    let spans = [(0, 3, 5), (1, 0, 2)];
    assert_selection(&rt, alloc, &view, [(0, 3), (1, 2)], (3, 8), &spans)?;
    Ok(())
}

/// The rows are `fn f() {`, a placeholder and `}`, and then `x`.
fn assert_folded(rt: &impl Abort, alloc: Global, view: &View) -> Result<(), NoMemory> {
    assert_selection(rt, alloc, view, [(0, 7), (0, 9)], (7, 13), &[(0, 7, 9)])?;
    let spans = [(0, 8, 10), (1, 0, 1)];
    assert_selection(rt, alloc, view, [(0, 8), (1, 1)], (8, 16), &spans)
}

#[test]
fn a_fold_is_selected(rt: HostRuntime) -> Result<(), Fail> {
    let alloc = rt.alloc();
    let fold = Op::Fold {
        id: 1,
        start: 8,
        end: 13,
    };
    let view = view_of(alloc, "fn f() {\n  a\n}\nx", vec![in alloc; fold]?)?;
    assert_folded(&rt, alloc, &view)?;
    Ok(())
}

/// The wide character is at the columns 4 and 5, and the flag at 6 and 7.
fn assert_clusters(rt: &impl Abort, alloc: Global, view: &View) -> Result<(), NoMemory> {
    assert_selection(rt, alloc, view, [(0, 6), (0, 7)], (4, 4), &[(0, 6, 6)])?;
    assert_selection(rt, alloc, view, [(0, 5), (0, 7)], (1, 4), &[(0, 4, 6)])?;
    assert_selection(rt, alloc, view, [(0, 3), (0, 9)], (0, 15), &[(0, 0, 9)])
}

#[test]
fn clusters_are_selected(rt: HostRuntime) -> Result<(), Fail> {
    let alloc = rt.alloc();
    let text = "\t\u{6f22}\u{1f1e9}\u{1f1ea}e\u{301}z";
    let view = view_of(alloc, text, Vec::new(alloc))?;
    assert_clusters(&rt, alloc, &view)?;
    Ok(())
}

/// The lines are the rows 2 and 4, and all others are rows of blocks.
fn assert_blocks(rt: &impl Abort, alloc: Global, view: &View) -> Result<(), NoMemory> {
    assert_selection(rt, alloc, view, [(0, 0), (1, 3)], (0, 0), &[(2, 0, 0)])?;
    assert_selection(rt, alloc, view, [(3, 0), (3, 1)], (2, 2), &[(2, 2, 2)])?;
    let spans = [(2, 0, 2), (4, 0, 2)];
    assert_selection(rt, alloc, view, [(0, 0), (5, 0)], (0, 5), &spans)
}

#[test]
fn rows_of_blocks_are_selected(rt: HostRuntime) -> Result<(), Fail> {
    let alloc = rt.alloc();
    let view = view_of(alloc, "ab\ncd", blocks(alloc)?)?;
    assert_blocks(&rt, alloc, &view)?;
    Ok(())
}

#[test]
fn rows_with_an_indent_are_selected(rt: HostRuntime) -> Result<(), Fail> {
    let alloc = rt.alloc();
    let ops = vec![in alloc; Op::Width { cells: 10 }]?;
    let view = view_of(alloc, "\tfoo bar baz", ops)?;
    let spans = [(0, 5, 7), (1, 4, 7), (2, 4, 5)];
    assert_selection(&rt, alloc, &view, [(0, 5), (2, 5)], (2, 10), &spans)?;
    Ok(())
}

#[test]
fn a_row_of_an_inlay_has_no_span(rt: HostRuntime) -> Result<(), Fail> {
    let alloc = rt.alloc();
    let ops = vec![in alloc; inlay(alloc, 1, "x\ny\nz")?]?;
    let view = view_of(alloc, "ab", ops)?;
    let spans = [(0, 0, 1), (2, 1, 2)];
    assert_selection(&rt, alloc, &view, [(0, 0), (2, 2)], (0, 2), &spans)?;
    Ok(())
}
