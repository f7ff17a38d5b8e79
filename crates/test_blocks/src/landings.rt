//! Runs of lines that land late, at lines with blocks.
use crate::script::Step::{All, Block, Edit, Land, Show, Take, Width};
use crate::script::play;
use cell_units::Side::{Above, Below};
use std::test::Fail;

/// A run that lands around a line that was replaced since has two edits of rows, and each block stays at its line.
#[test]
fn blocks_stay_at_their_lines_when_a_run_lands(rt: HostRuntime) -> Result<(), Fail> {
    let steps = [
        Width(3),
        Block(1, Above, 0, &["a"]),
        Block(2, Above, 8, &["b"]),
        Block(3, Below, 8, &["c"]),
        Block(4, Below, 16, &["d"]),
        Take,
        Edit(8, 9, "z"),
        Land,
        All,
        Take,
        Land,
        All,
    ];
    let told = play(rt.alloc(), "aaa bbb\nccc ddd\neee fff", &steps)?;
    assert_eq!(rt;
        told.as_str(),
        "ok; ok; ok; ok; ok; 3; ok; ok; b|a, t|aaa , w|bbb, b|b, t|zcc ddd, b|c, t|eee , w|fff, b|d; 1; ok; \
         b|a, t|aaa , w|bbb, b|b, t|zcc , w|ddd, b|c, t|eee , w|fff, b|d"
    );
    Ok(())
}

/// A run that lands where its lines are now has the blocks of these around it, and those that were added since.
#[test]
fn blocks_that_came_since_stand_at_the_lines_that_land(rt: HostRuntime) -> Result<(), Fail> {
    let steps = [
        Width(3),
        Block(1, Above, 2, &["p"]),
        Show,
        Take,
        Edit(0, 0, "x\n"),
        Block(2, Below, 4, &["q"]),
        All,
        Land,
        All,
    ];
    let told = play(rt.alloc(), "a\naaa bbb", &steps)?;
    assert_eq!(rt;
        told.as_str(),
        "ok; ok; ok; 2; ok; ok; t|x, t|a, b|p, t|aaa bbb; ok; t|x, t|a, b|p, t|aaa , w|bbb, b|q"
    );
    Ok(())
}

/// A run of another width than the present one lands nowhere, and the blocks that were added since are shown.
#[test]
fn a_run_of_another_width_shows_the_blocks_alone(rt: HostRuntime) -> Result<(), Fail> {
    let steps = [
        Width(3),
        Take,
        Width(5),
        Block(1, Below, 0, &["a"]),
        Land,
        All,
    ];
    let told = play(rt.alloc(), "aaa bbb", &steps)?;
    assert_eq!(rt; told.as_str(), "ok; 1; ok; ok; ok; t|aaa bbb, b|a");
    Ok(())
}

/// A run lands twice, and the blocks stay at its lines.
#[test]
fn blocks_stay_where_a_run_lands_twice(rt: HostRuntime) -> Result<(), Fail> {
    let steps = [
        Width(3),
        Block(1, Above, 8, &["a"]),
        Block(2, Below, 0, &["b"]),
        Take,
        Land,
        Land,
        All,
    ];
    let told = play(rt.alloc(), "aaa bbb\nc", &steps)?;
    assert_eq!(rt;
        told.as_str(),
        "ok; ok; ok; 2; ok; ok; t|aaa , w|bbb, b|b, b|a, t|c"
    );
    Ok(())
}
