//! Blocks whose lines are replaced, moved and wrapped.
use crate::script::Step::{All, Block, Edit, RowOf, Show, Width, Wrap};
use crate::script::play;
use cell_units::Side::{Above, Below};
use std::test::Fail;

/// An edit above a block moves it with its line.
#[test]
fn a_block_moves_with_its_line(rt: HostRuntime) -> Result<(), Fail> {
    let steps = [
        Block(1, Above, 2, &["=="]),
        Block(2, Below, 4, &["--"]),
        Show,
        Edit(0, 1, "x\ny"),
        All,
        Edit(0, 4, ""),
        All,
        RowOf(1, 0),
    ];
    let told = play(rt.alloc(), "a\nb\nc", &steps)?;
    assert_eq!(rt;
        told.as_str(),
        "ok; ok; ok; ok; t|x, t|y, b|==, t|b, t|c, b|--; ok; b|==, t|b, t|c, b|--; 2"
    );
    Ok(())
}

/// A block goes after what is inserted at its anchor: with a break in it to another line.
#[test]
fn a_block_goes_behind_what_is_inserted_at_its_anchor(rt: HostRuntime) -> Result<(), Fail> {
    let steps = [
        Block(1, Above, 2, &["=="]),
        Show,
        Edit(2, 2, "x"),
        All,
        Edit(3, 3, "\n"),
        All,
    ];
    let told = play(rt.alloc(), "a\nb", &steps)?;
    assert_eq!(rt;
        told.as_str(),
        "ok; ok; ok; t|a, b|==, t|xb; ok; t|a, t|x, b|==, t|b"
    );
    Ok(())
}

/// When lines are joined their blocks are at the one line, in their order.
#[test]
fn blocks_of_joined_lines_stand_at_one_line(rt: HostRuntime) -> Result<(), Fail> {
    let steps = [
        Block(3, Above, 0, &["a"]),
        Block(2, Above, 2, &["b"]),
        Block(1, Above, 4, &["c"]),
        Block(6, Below, 0, &["d"]),
        Block(5, Below, 4, &["e"]),
        Show,
        All,
        Edit(1, 4, ""),
        All,
    ];
    let told = play(rt.alloc(), "x\ny\nz", &steps)?;
    assert_eq!(rt;
        told.as_str(),
        "ok; ok; ok; ok; ok; ok; b|a, t|x, b|d, b|b, t|y, b|c, t|z, b|e; ok; b|a, b|c, b|b, t|xz, b|d, b|e"
    );
    Ok(())
}

/// The anchor of a block whose line is gone goes to the end of what came for it.
#[test]
fn a_block_stays_when_its_line_is_gone(rt: HostRuntime) -> Result<(), Fail> {
    let steps = [
        Block(1, Above, 2, &["=="]),
        Block(2, Below, 2, &["--"]),
        Show,
        Edit(0, 5, "p\nq\nr"),
        All,
        Edit(0, 5, ""),
        All,
    ];
    let told = play(rt.alloc(), "a\nb\nc", &steps)?;
    assert_eq!(rt;
        told.as_str(),
        "ok; ok; ok; ok; t|p, t|q, b|==, t|r, b|--; ok; b|==, t|, b|--"
    );
    Ok(())
}

/// A block that is added before a replacement and shown with it moves as those that were shown.
#[test]
fn a_block_moves_before_it_is_shown(rt: HostRuntime) -> Result<(), Fail> {
    let steps = [
        Block(1, Above, 2, &["=="]),
        Edit(0, 0, "x\n"),
        All,
        Block(2, Below, 0, &["--"]),
        Edit(5, 5, "\nc"),
        All,
    ];
    let told = play(rt.alloc(), "a\nb", &steps)?;
    assert_eq!(rt;
        told.as_str(),
        "ok; ok; t|x, t|a, b|==, t|b; ok; ok; t|x, b|--, t|a, b|==, t|b, t|c"
    );
    Ok(())
}

/// At another width the rows of a line change, and the blocks stay at it.
#[test]
fn blocks_stay_at_their_lines_at_another_width(rt: HostRuntime) -> Result<(), Fail> {
    let steps = [
        Width(3),
        Block(1, Below, 0, &["a"]),
        Block(2, Above, 8, &["b"]),
        Wrap,
        All,
        Width(0),
        Wrap,
        All,
    ];
    let told = play(rt.alloc(), "aaa bbb\nccc", &steps)?;
    assert_eq!(rt;
        told.as_str(),
        "ok; ok; ok; 2; t|aaa , w|bbb, b|a, b|b, t|ccc; ok; 2; t|aaa bbb, b|a, b|b, t|ccc"
    );
    Ok(())
}
