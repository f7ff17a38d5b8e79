//! Folds in one line and over several, beside each other and over one another, and with inlays.
use crate::script::Step::{
    Back, Fold, Get, Insert, Length, Line, Lines, Pieces, Places, Point, Remove, Show, Span, Start,
    Sync, Unfold,
};
use crate::script::{play, play_apart};
use cell_units::Bias::{Left, Right};
use std::test::Fail;

/// The body of a function is hidden by a placeholder, and its three rows are one line.
#[test]
fn a_folded_body_is_a_placeholder(rt: HostRuntime) -> Result<(), Fail> {
    let steps = [
        Fold(1, 8, 13),
        Sync,
        Lines,
        Line(0),
        Line(1),
        Line(2),
        Span(0),
        Span(1),
        Start(1),
        Length,
        Unfold(7),
    ];
    let told = play(rt.alloc(), "fn f() {\n  a\n}\n", &steps)?;
    assert_eq!(rt;
        told.as_str(),
        "ok; 8..13 by 3; 2; fn f() {|⋯|}|; ; ?; 0 2; 3 3; 13; 13; UnknownId"
    );
    Ok(())
}

/// An offset that is hidden is before the placeholder and after it.
#[test]
fn a_hidden_offset_has_the_placeholders_ends(rt: HostRuntime) -> Result<(), Fail> {
    let steps = [
        Fold(1, 8, 13),
        Show,
        Places(10),
        Places(8),
        Places(13),
        Back(8, Left),
        Back(8, Right),
        Back(9, Left),
        Back(11, Left),
        Back(11, Right),
    ];
    let told = play(rt.alloc(), "fn f() {\n  a\n}\n", &steps)?;
    assert_eq!(rt;
        told.as_str(),
        "ok; shown; 8 11; 8 8; 11 11; 8; 8; none; 13; 13"
    );
    Ok(())
}

/// A fold over two line feeds makes one line of three rows.
#[test]
fn a_fold_over_two_line_feeds_is_one_line(rt: HostRuntime) -> Result<(), Fail> {
    let steps = [
        Fold(1, 1, 4),
        Sync,
        Lines,
        Line(0),
        Span(0),
        Point(4),
        Point(5),
        Back(2, Left),
        Back(4, Right),
    ];
    let told = play(rt.alloc(), "a\nb\nc", &steps)?;
    assert_eq!(rt;
        told.as_str(),
        "ok; 1..4 by 3; 1; a|⋯|c|; 0 2; 0 4; 0 5; none; 4"
    );
    Ok(())
}

/// A fold within another one shows nothing new: the placeholder is replaced by itself, and again where the inner one is
/// taken off.
#[test]
fn a_fold_within_a_fold_replaces_the_placeholder_by_itself(rt: HostRuntime) -> Result<(), Fail> {
    let steps = [
        Fold(1, 1, 5),
        Show,
        Line(0),
        Fold(2, 2, 3),
        Sync,
        Line(0),
        Unfold(2),
        Sync,
        Unfold(1),
        Sync,
        Line(0),
    ];
    let told = play(rt.alloc(), "abcdef", &steps)?;
    assert_eq!(rt;
        told.as_str(),
        "ok; shown; a|⋯|f|; ok; 1..4 by 3; a|⋯|f|; ok; 1..4 by 3; ok; 1..4 by 4; abcdef|"
    );
    Ok(())
}

/// Folds that overlap have one placeholder, and folds that touch have one each.
#[test]
fn folds_that_overlap_are_one_and_those_that_touch_are_two(rt: HostRuntime) -> Result<(), Fail> {
    let steps = [
        Fold(1, 1, 4),
        Fold(2, 3, 6),
        Show,
        Line(0),
        Places(3),
        Places(4),
        Unfold(2),
        Fold(3, 4, 6),
        Show,
        Line(0),
        Places(4),
        Back(4, Left),
        Back(4, Right),
    ];
    let told = play(rt.alloc(), "abcdefgh", &steps)?;
    assert_eq!(rt;
        told.as_str(),
        "ok; ok; shown; a|⋯|gh|; 1 4; 1 4; ok; ok; shown; a|⋯|⋯|gh|; 4 4; 4; 4"
    );
    Ok(())
}

/// A fold that joins two others makes one placeholder of three, and two again where it is taken off.
#[test]
fn a_fold_between_two_joins_them(rt: HostRuntime) -> Result<(), Fail> {
    let steps = [
        Fold(1, 1, 3),
        Fold(2, 5, 7),
        Show,
        Line(0),
        Fold(3, 2, 6),
        Show,
        Line(0),
        Unfold(3),
        Show,
        Line(0),
    ];
    let told = play(rt.alloc(), "abcdefgh", &steps)?;
    assert_eq!(rt;
        told.as_str(),
        "ok; ok; shown; a|⋯|de|⋯|h|; ok; shown; a|⋯|h|; ok; shown; a|⋯|de|⋯|h|"
    );
    Ok(())
}

/// Each piece of a line has the offsets that it covers. They are those of what a placeholder hides, and one for an
/// inlay, which has its id.
#[test]
fn pieces_cover_what_they_show(rt: HostRuntime) -> Result<(), Fail> {
    let steps = [
        Insert(7, 2, Right, ">>"),
        Fold(1, 4, 6),
        Show,
        Pieces(0),
        Pieces(1),
        Pieces(2),
    ];
    let told = play(rt.alloc(), "abcd\nef\n", &steps)?;
    assert_eq!(rt;
        told.as_str(),
        "ok; ok; shown; buffer ab 0..2 inlay 7 >> 2..2 buffer cd 2..4 placeholder ⋯ 4..6 \
         buffer f 6..7; ; none"
    );
    Ok(())
}

/// A snapshot lists its folds by start, end and id, and past the last there is none.
#[test]
fn folds_are_listed_in_order(rt: HostRuntime) -> Result<(), Fail> {
    let steps = [
        Fold(5, 2, 6),
        Fold(3, 2, 4),
        Fold(1, 2, 4),
        Fold(2, 0, 1),
        Get(0),
        Show,
        Get(0),
        Get(1),
        Get(2),
        Get(3),
        Get(4),
    ];
    let told = play(rt.alloc(), "abcdefgh", &steps)?;
    assert_eq!(rt;
        told.as_str(),
        "ok; ok; ok; ok; none; shown; 2 of 0..1; 1 of 2..4; 3 of 2..4; 5 of 2..6; none"
    );
    Ok(())
}

/// Inlays at the ends of a fold are shown, and those between them are hidden, also where they break a line.
#[test]
fn a_fold_hides_the_inlays_between_its_ends(rt: HostRuntime) -> Result<(), Fail> {
    let steps = [
        Insert(1, 1, Left, "<"),
        Insert(2, 2, Left, "\n\n"),
        Insert(3, 3, Right, ">"),
        Show,
        Lines,
        Fold(1, 1, 3),
        Show,
        Lines,
        Line(0),
        Places(1),
        Places(2),
        Places(3),
        Back(2, Left),
        Back(5, Left),
        Remove(2),
        Sync,
        Sync,
    ];
    let told = play(rt.alloc(), "abcd", &steps)?;
    assert_eq!(rt;
        told.as_str(),
        "ok; ok; ok; shown; 3; ok; shown; 1; a|<|⋯|>|d|; 1 2; 2 5; 5 6; 1; 3; ok; 0..7 by 7; none"
    );
    Ok(())
}

/// A line that begins with a placeholder spans from the row where that starts. One that ends with one spans to the row
/// where it ends.
#[test]
fn placeholders_at_the_ends_of_a_line_count_their_rows(rt: HostRuntime) -> Result<(), Fail> {
    let steps = [
        Fold(1, 0, 3),
        Fold(2, 5, 9),
        Show,
        Lines,
        Line(0),
        Line(1),
        Span(0),
        Span(1),
    ];
    let told = play(rt.alloc(), "a\nb\nc\nd\ne\nf", &steps)?;
    assert_eq!(rt; told.as_str(), "ok; ok; shown; 3; ⋯|; c|⋯|; 0 1; 2 4");
    Ok(())
}

/// All of a text may be hidden, and no more is shown than its placeholder.
#[test]
fn a_whole_text_is_folded(rt: HostRuntime) -> Result<(), Fail> {
    let steps = [
        Fold(1, 0, 3),
        Show,
        Lines,
        Line(0),
        Span(0),
        Places(0),
        Places(3),
        Point(3),
        Point(4),
        Back(0, Right),
        Back(3, Left),
        Back(4, Left),
    ];
    let told = play(rt.alloc(), "a\nb", &steps)?;
    assert_eq!(rt;
        told.as_str(),
        "ok; shown; 1; ⋯|; 0 1; 0 0; 3 3; 0 3; none; 0; 3; none"
    );
    Ok(())
}

/// Where an inlay breaks a row into two lines, a fold in the second one replaces what is shown from the row's start.
#[test]
fn a_fold_in_a_rows_second_line_replaces_both(rt: HostRuntime) -> Result<(), Fail> {
    let steps = [
        Insert(1, 1, Right, "x\ny"),
        Show,
        Fold(1, 2, 3),
        Sync,
        Line(0),
        Line(1),
    ];
    let told = play(rt.alloc(), "abcd", &steps)?;
    assert_eq!(rt; told.as_str(), "ok; shown; ok; 0..6 by 8; a|x|; y|b|⋯|d|");
    Ok(())
}

/// A fold that was added and one that was taken off give one replacement that covers both.
#[test]
fn folds_are_answered_by_one_replacement(rt: HostRuntime) -> Result<(), Fail> {
    let steps = [
        Fold(1, 1, 2),
        Show,
        Fold(2, 5, 7),
        Unfold(1),
        Sync,
        Line(0),
        Sync,
    ];
    let told = play(rt.alloc(), "abcdefgh", &steps)?;
    assert_eq!(rt;
        told.as_str(),
        "ok; shown; ok; ok; 1..9 by 7; abcde|⋯|h|; none"
    );
    Ok(())
}

/// Shared maps and snapshots are equal, and see no later change of the first ones.
#[test]
fn shares_are_equal_and_apart(rt: HostRuntime) -> Result<(), Fail> {
    let before = [Fold(1, 8, 13), Show];
    let apart = [Line(0), Span(0), Unfold(1), Show, Line(0), Lines];
    let behind = [Line(0), Span(0), Show, Line(0), Lines];
    let told = play_apart(rt.alloc(), "fn f() {\n  a\n}\n", &before, &apart, &behind)?;
    assert_eq!(rt;
        told.as_str(),
        "fn f() {|⋯|}|; 0 2; ok; shown; fn f() {|; 4 / fn f() {|⋯|}|; 0 2; shown; fn f() {|⋯|}|; 2"
    );
    Ok(())
}
