//! Blocks between the rows of lines.
use crate::script::Step::{
    All, Block, Count, Edit, Get, Land, Len, LineOfRow, Row, RowOf, Rows, Show, StartOf, Take,
    TextAt, Unblock, Width,
};
use crate::script::play;
use cell_units::Side::{Above, Below};
use std::test::Fail;

/// The two lines of a block are above the line of its row, and the text row is after them.
#[test]
fn a_block_stands_above_its_line(rt: HostRuntime) -> Result<(), Fail> {
    let steps = [
        Block(1, Above, 0, &["x", "y"]),
        Show,
        All,
        RowOf(0, 0),
        TextAt(1),
        TextAt(2),
        Row(3),
    ];
    let told = play(rt.alloc(), "abc", &steps)?;
    assert_eq!(rt;
        told.as_str(),
        "ok; ok; b|x, b|y, t|abc; 2; none; 0 0; none"
    );
    Ok(())
}

/// A note below the first line and two rules above the second, and past the last row nothing. No block has id 3.
#[test]
fn blocks_stand_between_two_lines(rt: HostRuntime) -> Result<(), Fail> {
    let steps = [
        Block(2, Below, 0, &["note"]),
        Block(1, Above, 2, &["==", "--"]),
        Show,
        All,
        Row(2),
        Row(5),
        Unblock(3),
    ];
    let told = play(rt.alloc(), "a\nb", &steps)?;
    assert_eq!(rt;
        told.as_str(),
        "ok; ok; ok; t|a, b|note, b|==, b|--, t|b; b|==; none; UnknownId"
    );
    Ok(())
}

/// Nothing is shown of a block before the next snapshot, and all is shown of one that was taken out.
#[test]
fn blocks_are_shown_from_the_next_snapshot_on(rt: HostRuntime) -> Result<(), Fail> {
    let steps = [
        Block(1, Above, 0, &["x"]),
        Len,
        All,
        Show,
        All,
        Unblock(1),
        Len,
        All,
        Show,
        All,
    ];
    let told = play(rt.alloc(), "abc", &steps)?;
    assert_eq!(rt;
        told.as_str(),
        "ok; 1; t|abc; ok; b|x, t|abc; ok; 0; b|x, t|abc; ok; t|abc"
    );
    Ok(())
}

/// At one line blocks are ordered by offset, then by id, in whatever order they come, and those of one side by
/// themselves.
#[test]
fn blocks_of_one_line_stand_by_offset_and_id(rt: HostRuntime) -> Result<(), Fail> {
    let steps = [
        Block(4, Below, 1, &["d"]),
        Block(7, Above, 0, &["c"]),
        Block(9, Above, 1, &["e"]),
        Block(2, Above, 0, &["a", "b"]),
        Block(1, Above, 2, &["f"]),
        Block(3, Below, 1, &["g"]),
        Show,
        All,
        RowOf(0, 0),
    ];
    let told = play(rt.alloc(), "xyz", &steps)?;
    assert_eq!(rt;
        told.as_str(),
        "ok; ok; ok; ok; ok; ok; ok; b|a, b|b, b|c, b|e, b|f, t|xyz, b|g, b|d; 5"
    );
    Ok(())
}

/// Above the first line and below the last one, where the text ends, blocks have the first and the last row.
#[test]
fn blocks_stand_before_the_first_line_and_behind_the_last(rt: HostRuntime) -> Result<(), Fail> {
    let steps = [
        Block(1, Below, 2, &["end"]),
        Block(2, Above, 0, &["start"]),
        Show,
        All,
        Count,
        Row(0),
        Row(3),
        Row(4),
        TextAt(2),
        TextAt(3),
    ];
    let told = play(rt.alloc(), "a\n", &steps)?;
    assert_eq!(rt;
        told.as_str(),
        "ok; ok; ok; b|start, t|a, t|, b|end; 4; b|start; b|end; none; 1 0; none"
    );
    Ok(())
}

/// An empty text has one line, and blocks on both its sides.
#[test]
fn an_empty_text_has_blocks_on_both_sides(rt: HostRuntime) -> Result<(), Fail> {
    let steps = [
        Block(1, Below, 0, &["below"]),
        Block(2, Above, 0, &["above"]),
        Show,
        All,
        RowOf(0, 0),
    ];
    let told = play(rt.alloc(), "", &steps)?;
    assert_eq!(rt; told.as_str(), "ok; ok; ok; b|above, t|, b|below; 1");
    Ok(())
}

/// What is at a line that is wrapped is above its first row and below its last.
#[test]
fn blocks_stand_around_a_wrapped_line(rt: HostRuntime) -> Result<(), Fail> {
    let steps = [
        Width(5),
        Block(1, Above, 8, &["=="]),
        Block(2, Below, 8, &["note"]),
        Show,
        All,
        Take,
        Land,
        All,
        RowOf(1, 1),
        TextAt(2),
        TextAt(4),
        Rows(1, 3),
    ];
    let told = play(rt.alloc(), "a\nbbb ccc\nd", &steps)?;
    assert_eq!(rt;
        told.as_str(),
        "ok; ok; ok; ok; t|a, b|==, t|bbb ccc, b|note, t|d; 3; ok; t|a, b|==, t|bbb , w|ccc, b|note, t|d; 3; 1 0; none; b|==, t|bbb , w|ccc"
    );
    Ok(())
}

/// A line begins with the blocks above it. At a row of these the line before it is the last one whose text has begun,
/// or the first line.
#[test]
fn a_line_begins_with_the_blocks_above_it(rt: HostRuntime) -> Result<(), Fail> {
    let steps = [
        Width(5),
        Block(1, Above, 8, &["=="]),
        Block(2, Below, 8, &["note"]),
        Block(3, Above, 0, &["x", "y"]),
        Show,
        Take,
        Land,
        All,
        StartOf(0),
        StartOf(1),
        StartOf(2),
        StartOf(3),
        StartOf(4),
    ];
    let told = play(rt.alloc(), "a\nbbb ccc\nd", &steps)?;
    assert_eq!(rt;
        told.as_str(),
        "ok; ok; ok; ok; ok; 3; ok; b|x, b|y, t|a, b|==, t|bbb , w|ccc, b|note, t|d; 0; 3; 7; 8; none"
    );
    Ok(())
}

/// The line of a row is the last of which the text has begun there, and the first line above all text.
#[test]
fn a_row_has_the_last_line_that_has_begun(rt: HostRuntime) -> Result<(), Fail> {
    let steps = [
        Block(1, Above, 2, &["=="]),
        Block(2, Below, 2, &["note"]),
        Block(3, Above, 0, &["x", "y"]),
        Show,
        All,
        LineOfRow(0),
        LineOfRow(1),
        LineOfRow(2),
        LineOfRow(3),
        LineOfRow(4),
        LineOfRow(5),
        LineOfRow(6),
        LineOfRow(7),
    ];
    let told = play(rt.alloc(), "a\nb\nd", &steps)?;
    assert_eq!(rt;
        told.as_str(),
        "ok; ok; ok; ok; b|x, b|y, t|a, b|==, t|b, b|note, t|d; 0; 0; 0; 0; 1; 1; 2; none"
    );
    Ok(())
}

/// The blocks of a side are listed by offset and id, where the last edit has moved them, and past the last there is
/// none.
#[test]
fn blocks_of_a_side_are_listed_in_order(rt: HostRuntime) -> Result<(), Fail> {
    let steps = [
        Block(4, Below, 1, &["d"]),
        Block(7, Above, 4, &["c", "e"]),
        Block(2, Above, 4, &["a"]),
        Block(9, Above, 0, &["f"]),
        Get(Above, 0),
        Get(Above, 1),
        Get(Above, 2),
        Get(Above, 3),
        Get(Below, 0),
        Get(Below, 1),
        Show,
        Edit(0, 0, "xx"),
        Get(Above, 0),
        Get(Above, 2),
        Get(Below, 0),
    ];
    let told = play(rt.alloc(), "abc\ndef", &steps)?;
    assert_eq!(rt;
        told.as_str(),
        "ok; ok; ok; ok; 9 at 0 f; 2 at 4 a; 7 at 4 c e; none; 4 at 1 d; none; ok; ok; \
         9 at 2 f; 7 at 6 c e; 4 at 3 d"
    );
    Ok(())
}

/// Rows are given from one on, up to a count, and past the last one none are.
#[test]
fn rows_are_given_up_to_a_count(rt: HostRuntime) -> Result<(), Fail> {
    let steps = [
        Block(1, Above, 2, &["x", "y", "z"]),
        Show,
        Rows(0, 0),
        Rows(0, 2),
        Rows(2, 2),
        Rows(3, 9),
        Rows(5, 1),
        Rows(4_294_967_295, 4_294_967_295),
    ];
    let told = play(rt.alloc(), "a\nb", &steps)?;
    assert_eq!(rt;
        told.as_str(),
        "ok; ok; none; t|a, b|x; b|y, b|z; b|z, t|b; none; none"
    );
    Ok(())
}

/// A line of a block is shown as it is given: one without letters has a row, and a tab stays one.
#[test]
fn lines_of_blocks_are_shown_as_they_are_given(rt: HostRuntime) -> Result<(), Fail> {
    let steps = [Block(1, Above, 0, &["", "\tx", "漢"]), Show, All];
    let told = play(rt.alloc(), "\ta", &steps)?;
    assert_eq!(rt; told.as_str(), "ok; ok; b|, b|\tx, b|漢, t|    a");
    Ok(())
}
