//! Blocks that are refused.
use crate::script::Step::{
    All, Block, BlockEach, BlockLetters, BlockLines, Count, Len, Row, RowOf, Show, Unblock,
};
use crate::script::play;
use cell_units::Side::{Above, Below};
use cell_units::limits::{BLOCK_LINE_LIMIT, BLOCK_LINES_LIMIT};
use std::test::Fail;

/// A line of 1,025 letters is too long, and one of 1,024 isn't.
#[test]
fn a_line_of_a_block_may_be_too_long(rt: HostRuntime) -> Result<(), Fail> {
    let steps = [
        BlockLetters(1, 0, BLOCK_LINE_LIMIT + 1),
        Len,
        BlockLetters(1, 0, BLOCK_LINE_LIMIT),
        Len,
    ];
    let told = play(rt.alloc(), "abc", &steps)?;
    assert_eq!(rt; told.as_str(), "TooLong; 0; ok; 1");
    Ok(())
}

/// No line is no block, nor are more than 256, or one with a break. So 256 lines are one, and so is a line without
/// letters.
#[test]
fn lines_that_are_no_block_are_refused(rt: HostRuntime) -> Result<(), Fail> {
    let steps = [
        Block(1, Above, 0, &[]),
        BlockLines(1, 0, BLOCK_LINES_LIMIT + 1),
        Block(1, Below, 0, &["a", "b\nc"]),
        Block(1, Above, 0, &["\r"]),
        Len,
        BlockLines(1, 0, BLOCK_LINES_LIMIT),
        Block(2, Below, 0, &[""]),
        Show,
        Count,
    ];
    let told = play(rt.alloc(), "abc", &steps)?;
    assert_eq!(rt;
        told.as_str(),
        "BadText; BadText; BadText; BadText; 0; ok; ok; ok; 258"
    );
    Ok(())
}

/// An offset past the end or inside a character of two bytes is refused, and one on either side of it isn't.
#[test]
fn an_offset_off_the_text_is_refused(rt: HostRuntime) -> Result<(), Fail> {
    let steps = [
        Block(1, Above, 4, &["x"]),
        Block(1, Above, 2, &["x"]),
        Block(1, Above, 3, &["x"]),
        Block(2, Below, 1, &["y"]),
        Len,
    ];
    let told = play(rt.alloc(), "aé", &steps)?;
    assert_eq!(rt; told.as_str(), "BadRange; BadRange; ok; ok; 2");
    Ok(())
}

/// Of several refusals the first in their order is returned, and an id is one of both sides.
#[test]
fn refusals_come_in_their_order(rt: HostRuntime) -> Result<(), Fail> {
    let steps = [
        Block(1, Above, 0, &["x"]),
        Block(1, Below, 9, &[]),
        Block(2, Below, 9, &[]),
        BlockLetters(2, 9, BLOCK_LINE_LIMIT + 1),
        Block(2, Below, 3, &[]),
        BlockLetters(2, 3, BLOCK_LINE_LIMIT + 1),
        Unblock(2),
        Show,
        All,
        Unblock(1),
        Unblock(1),
        Block(1, Below, 3, &["y"]),
        Show,
        All,
    ];
    let told = play(rt.alloc(), "abc", &steps)?;
    assert_eq!(rt;
        told.as_str(),
        "ok; IdInUse; BadRange; BadRange; BadText; TooLong; UnknownId; ok; b|x, t|abc; ok; UnknownId; ok; ok; t|abc, b|y"
    );
    Ok(())
}

/// Over 65,536 blocks one more is too long, whatever its side, and one that comes for another isn't.
#[test]
fn one_block_too_many_is_too_long(rt: HostRuntime) -> Result<(), Fail> {
    let steps = [
        BlockEach(65_536),
        Len,
        Block(65_536, Below, 0, &["y"]),
        Block(65_536, Above, 0, &["y"]),
        Show,
        Count,
        RowOf(0, 0),
        Row(32_768),
        Row(65_536),
        Unblock(7),
        Block(65_536, Below, 0, &["y"]),
        Block(7, Above, 0, &["x"]),
        Show,
        Count,
        Row(65_536),
    ];
    let told = play(rt.alloc(), "abc", &steps)?;
    assert_eq!(rt;
        told.as_str(),
        "ok; 65536; TooLong; TooLong; ok; 65537; 32768; t|abc; b|x; ok; ok; TooLong; ok; 65537; b|y"
    );
    Ok(())
}
