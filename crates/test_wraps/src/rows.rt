//! Lines that are wrapped and replaced.
use crate::script::Step::{
    Edit, Items, LineAt, Lines, Mark, Marks, Next, Row, Rows, RowsBefore, RowsOf, Take, Width,
    WrapAll,
};
use crate::script::{lines_of, play};
use std::test::Fail;

/// Ten lines of two words wait together, and are in one row each.
#[test]
fn ten_new_lines_wait(rt: HostRuntime) -> Result<(), Fail> {
    let text = lines_of(rt.alloc(), "aaa bbb", 10)?;
    let told = play(rt.alloc(), text.as_str(), 5, &[Next, Items, Rows, Marks])?;
    assert_eq!(rt; told.as_str(), "0..10; 1; 10; none");
    Ok(())
}

/// When they are wrapped at five cells they have two rows each, and none waits. Each is an item of its own.
#[test]
fn ten_lines_are_wrapped_to_two_rows_each(rt: HostRuntime) -> Result<(), Fail> {
    let text = lines_of(rt.alloc(), "aaa bbb", 10)?;
    let steps = [
        WrapAll,
        Rows,
        Marks,
        Next,
        Items,
        Row(9, 0),
        Row(9, 1),
        Row(9, 2),
    ];
    let told = play(rt.alloc(), text.as_str(), 5, &steps)?;
    assert_eq!(rt; told.as_str(), "1; 20; 0-9@5; none; 10; aaa ; bbb; none");
    Ok(())
}

/// The sixth of them, replaced, is in one row and waits again. All others have the rows that they had.
#[test]
fn a_replaced_line_stands_in_one_row(rt: HostRuntime) -> Result<(), Fail> {
    let text = lines_of(rt.alloc(), "aaa bbb", 10)?;
    let steps = [
        WrapAll,
        Edit(40, 41, "z"),
        Marks,
        Row(0, 1),
        Row(5, 0),
        Row(5, 1),
        Next,
        Items,
    ];
    let told = play(rt.alloc(), text.as_str(), 5, &steps)?;
    assert_eq!(rt;
        told.as_str(),
        "1; 10..12 by 1; 0-4@5 6-9@5; bbb; zaa bbb; none; 5..6; 10"
    );
    Ok(())
}

/// Lines without cuts at one width are one item, and three where one line between them waits.
#[test]
fn lines_without_cuts_are_an_item_together(rt: HostRuntime) -> Result<(), Fail> {
    let text = lines_of(rt.alloc(), "x", 300)?;
    let steps = [
        WrapAll,
        Items,
        Edit(300, 301, "y"),
        Items,
        Marks,
        WrapAll,
        Items,
    ];
    let told = play(rt.alloc(), text.as_str(), 40, &steps)?;
    assert_eq!(rt;
        told.as_str(),
        "3; 1; 150..151 by 1; 3; 0-149@40 151-299@40; 1; 1"
    );
    Ok(())
}

/// Of 300 lines at most 128 are taken at a time, and all get their cuts.
#[test]
fn many_lines_are_wrapped_128_at_a_time(rt: HostRuntime) -> Result<(), Fail> {
    let text = lines_of(rt.alloc(), "aaa bbb", 300)?;
    let steps = [
        Take,
        Next,
        WrapAll,
        Rows,
        Marks,
        Items,
        Row(128, 1),
        LineAt(599),
        RowsBefore(300),
    ];
    let told = play(rt.alloc(), text.as_str(), 5, &steps)?;
    assert_eq!(rt;
        told.as_str(),
        "0..128; 0..128; 3; 600; 0-299@5; 300; bbb; 299 1; 600"
    );
    Ok(())
}

/// A row is found by its number and a line's rows by the line's, at wrapped lines and at those that aren't.
#[test]
fn rows_and_lines_are_found_by_number(rt: HostRuntime) -> Result<(), Fail> {
    let text = lines_of(rt.alloc(), "aaa bbb", 4)?;
    let steps = [
        WrapAll,
        Edit(8, 8, "z"),
        RowsBefore(1),
        RowsBefore(2),
        LineAt(1),
        LineAt(2),
        LineAt(3),
        LineAt(7),
        RowsOf(1),
        RowsOf(3),
        Mark(1),
        Mark(3),
    ];
    let told = play(rt.alloc(), text.as_str(), 5, &steps)?;
    assert_eq!(rt;
        told.as_str(),
        "1; 2..4 by 1; 2; 3; 0 1; 1 0; 2 0; none; 1; 2; 0; 5"
    );
    Ok(())
}

/// Lines that are joined are in one row, and so are the two that a line feed makes of one.
#[test]
fn joined_and_parted_lines_wait(rt: HostRuntime) -> Result<(), Fail> {
    let text = lines_of(rt.alloc(), "aaa bbb", 4)?;
    let steps = [
        WrapAll,
        Edit(7, 8, ""),
        Lines,
        Marks,
        Edit(3, 4, "\n"),
        Lines,
        Marks,
        Next,
    ];
    let told = play(rt.alloc(), text.as_str(), 5, &steps)?;
    assert_eq!(rt;
        told.as_str(),
        "1; 0..4 by 1; 3; 1-2@5; 0..1 by 2; 4; 2-3@5; 0..2"
    );
    Ok(())
}

/// The rows of an indented line go on under its indent, and a tab is shown by blanks.
#[test]
fn a_row_goes_on_under_the_indent(rt: HostRuntime) -> Result<(), Fail> {
    let steps = [WrapAll, Rows, Row(0, 0), Row(0, 1), Row(1, 0)];
    let told = play(rt.alloc(), "\tab cd\nx", 8, &steps)?;
    assert_eq!(rt; told.as_str(), "1; 3;     ab ;     cd; x");
    Ok(())
}

/// At another width all lines wait, and are as they were until they are wrapped again. At width 0 they go back to one
/// row.
#[test]
fn lines_stand_at_the_old_width_until_they_are_wrapped(rt: HostRuntime) -> Result<(), Fail> {
    let text = lines_of(rt.alloc(), "aaa bbb", 10)?;
    let steps = [
        WrapAll,
        Width(7),
        Next,
        Rows,
        Marks,
        WrapAll,
        Rows,
        Marks,
        Items,
        Width(0),
        WrapAll,
        Marks,
        Next,
    ];
    let told = play(rt.alloc(), text.as_str(), 5, &steps)?;
    assert_eq!(rt;
        told.as_str(),
        "1; ok; 0..10; 20; 0-9@5; 1; 10; 0-9@7; 1; ok; 1; none; none"
    );
    Ok(())
}

/// A width is 0 or 2 to 10,000, and another one changes nothing.
#[test]
fn widths_past_the_limits_are_refused(rt: HostRuntime) -> Result<(), Fail> {
    let steps = [
        Width(1),
        Width(10_001),
        Next,
        Width(2),
        Next,
        Width(10_000),
        Next,
    ];
    let told = play(rt.alloc(), "abc", 0, &steps)?;
    assert_eq!(rt;
        told.as_str(),
        "BadNumber; BadNumber; none; ok; 0..1; ok; 0..1"
    );
    Ok(())
}

/// A range that is backwards or past the end is refused, and changes nothing.
#[test]
fn ranges_outside_the_text_are_refused(rt: HostRuntime) -> Result<(), Fail> {
    let steps = [
        WrapAll,
        Edit(2, 1, ""),
        Edit(0, 8, ""),
        Rows,
        Edit(0, 7, ""),
        Rows,
    ];
    let told = play(rt.alloc(), "aaa bbb", 5, &steps)?;
    assert_eq!(rt; told.as_str(), "1; BadRange; BadRange; 2; 0..2 by 1; 1");
    Ok(())
}
