//! The pieces of rows of a view.
use crate::displays::{assert_no_row, assert_row};
use cell_units::{Bias, Side, Text};
use display_map::Op;
use row_pieces::RowPieceKind;
use std::test::Fail;
use test_displays::{lines, view_of};

/// A tab, an inlay between letters, and a fold of three letters are each a piece.
#[test]
fn a_tab_an_inlay_and_a_fold_are_pieces(rt: HostRuntime) -> Result<(), Fail> {
    let alloc = rt.alloc();
    let mut ops = Vec::new(alloc);
    ops.push(Op::Inlay {
        id: 7,
        offset: 3,
        bias: Bias::Right,
        text: Text::from_str(alloc, ": T")?,
    })?;
    ops.push(Op::Fold {
        id: 1,
        start: 4,
        end: 7,
    })?;
    let view = view_of(alloc, "\tab cdef", ops)?;
    let wanted = [
        (RowPieceKind::Tab, "    ", 4, (0, 1)),
        (RowPieceKind::Text, "ab", 2, (1, 3)),
        (RowPieceKind::Inlay(7), ": T", 3, (3, 3)),
        (RowPieceKind::Text, " ", 1, (3, 4)),
        (RowPieceKind::Placeholder, "⋯", 1, (4, 7)),
        (RowPieceKind::Text, "f", 1, (7, 8)),
    ];
    assert_row(&rt, alloc, &view, 0, &wanted)?;
    assert_no_row(&rt, alloc, &view, 1)?;
    Ok(())
}

/// A block below a line comes before two above the next one, of which the first has two lines. A tab in a block is as it
/// was given, and its cells are those of a display line.
#[test]
fn a_row_of_a_block_is_one_piece(rt: HostRuntime) -> Result<(), Fail> {
    let alloc = rt.alloc();
    let mut ops = Vec::new(alloc);
    for (id, side, row, texts) in [
        (6, Side::Below, 0, &["u"] as &[&str]),
        (3, Side::Above, 1, &["x", "\ty"]),
        (5, Side::Above, 1, &["w"]),
        (4, Side::Below, 1, &["zz"]),
    ] {
        ops.push(Op::Block {
            id,
            side,
            row,
            lines: lines(alloc, texts)?,
        })?;
    }
    let view = view_of(alloc, "a\nb", ops)?;
    let wanted = [
        (RowPieceKind::Text, "a", 1, (0, 1)),
        (RowPieceKind::Block(6), "u", 1, (0, 0)),
        (RowPieceKind::Block(3), "x", 1, (2, 2)),
        (RowPieceKind::Block(3), "\ty", 5, (2, 2)),
        (RowPieceKind::Block(5), "w", 1, (2, 2)),
        (RowPieceKind::Text, "b", 1, (2, 3)),
        (RowPieceKind::Block(4), "zz", 2, (2, 2)),
    ];
    for (row, piece) in (0..).zip(wanted) {
        assert_row(&rt, alloc, &view, row, &[piece])?;
    }
    assert_no_row(&rt, alloc, &view, 7)?;
    Ok(())
}

/// At 8 cells a line goes on after its blank, with its indent of two cells. The row of a block below it comes last.
#[test]
fn a_row_that_goes_on_begins_with_its_indent(rt: HostRuntime) -> Result<(), Fail> {
    let alloc = rt.alloc();
    let mut ops = Vec::new(alloc);
    ops.push(Op::Width { cells: 8 })?;
    ops.push(Op::Block {
        id: 9,
        side: Side::Below,
        row: 0,
        lines: lines(alloc, &["note"])?,
    })?;
    let view = view_of(alloc, "  aaa bbb", ops)?;
    let first = [(RowPieceKind::Text, "  aaa ", 6, (0, 6))];
    assert_row(&rt, alloc, &view, 0, &first)?;
    let second = [
        (RowPieceKind::Indent, "  ", 2, (6, 6)),
        (RowPieceKind::Text, "bbb", 3, (6, 9)),
    ];
    assert_row(&rt, alloc, &view, 1, &second)?;
    let below = [(RowPieceKind::Block(9), "note", 4, (0, 0))];
    assert_row(&rt, alloc, &view, 2, &below)?;
    assert_no_row(&rt, alloc, &view, 3)?;
    Ok(())
}
