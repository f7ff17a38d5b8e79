//! Inlays with line breaks.
use crate::script::Step::{Back, Insert, Length, Line, Lines, Places, Point, Span, Sync};
use crate::script::play;
use cell_units::Bias::{Left, Right};
use std::test::Fail;

/// `ab` with `x` LF `y` at 1 is two lines of one row, and there is no third.
#[test]
fn a_break_in_an_inlay_makes_a_line(rt: HostRuntime) -> Result<(), Fail> {
    let steps = [
        Insert(1, 1, Right, "x\ny"),
        Sync,
        Lines,
        Line(0),
        Line(1),
        Line(2),
        Span(0),
        Span(1),
    ];
    let told = play(rt.alloc(), "ab", &steps)?;
    assert_eq!(rt; told.as_str(), "ok; 1..1 by 3; 2; a|x|; y|b|; ?; 0 0; 0 0");
    Ok(())
}

/// Of the two places of offset 1 the left one is on the first line and the right one on the second. Each is after one
/// byte.
#[test]
fn places_beside_a_break_are_on_two_lines(rt: HostRuntime) -> Result<(), Fail> {
    let steps = [
        Insert(1, 1, Right, "x\ny"),
        Sync,
        Places(1),
        Point(1),
        Point(4),
        Point(2),
        Point(3),
        Back(2, Right),
        Back(3, Left),
    ];
    let told = play(rt.alloc(), "ab", &steps)?;
    assert_eq!(rt;
        told.as_str(),
        "ok; 1..1 by 3; 1 4; 0 1; 1 1; 0 2; 1 0; none; none"
    );
    Ok(())
}

/// A line feed alone between `a` and `b` makes a line of each.
#[test]
fn an_inlay_may_be_a_break_alone(rt: HostRuntime) -> Result<(), Fail> {
    let steps = [Insert(1, 1, Left, "\n"), Sync, Lines, Line(0), Line(1)];
    let told = play(rt.alloc(), "ab", &steps)?;
    assert_eq!(rt; told.as_str(), "ok; 1..1 by 1; 2; a|; b|");
    Ok(())
}

/// The rows of `ab` LF `cd` under `x` LF `y` at 1 are on three lines, of which the first row has two.
#[test]
fn spans_count_rows_of_the_text(rt: HostRuntime) -> Result<(), Fail> {
    let steps = [
        Insert(1, 1, Right, "x\ny"),
        Sync,
        Lines,
        Line(2),
        Span(0),
        Span(1),
        Span(2),
    ];
    let told = play(rt.alloc(), "ab\ncd", &steps)?;
    assert_eq!(rt; told.as_str(), "ok; 1..1 by 3; 3; cd|; 0 0; 0 0; 1 1");
    Ok(())
}

/// CR LF in an inlay is one break, and a lone CR is one too.
#[test]
fn returns_in_an_inlay_are_breaks(rt: HostRuntime) -> Result<(), Fail> {
    let steps = [
        Insert(1, 1, Right, "x\r\ny"),
        Insert(2, 5, Left, "\r"),
        Sync,
        Line(0),
        Line(1),
        Line(2),
        Line(3),
        Places(5),
        Point(9),
    ];
    let told = play(rt.alloc(), "ab\ncd", &steps)?;
    assert_eq!(rt;
        told.as_str(),
        "ok; ok; 1..5 by 8; a|x|; y|b|; cd|; ; 8 9; 3 0"
    );
    Ok(())
}
