//! Inlays that an edit of the text moves.
use crate::script::Step::{Edit, Insert, Line, Places, Sync};
use crate::script::play;
use cell_units::Bias::{Left, Right};
use std::test::Fail;

/// Of two inlays at 3 an insertion there leaves the Left one before it and takes the Right one after it.
#[test]
fn an_insertion_goes_between_left_and_right(rt: HostRuntime) -> Result<(), Fail> {
    let steps = [
        Insert(1, 3, Left, "<"),
        Insert(2, 3, Right, ">"),
        Sync,
        Edit(3, 3, "12"),
        Line(0),
        Places(3),
        Places(5),
    ];
    let told = play(rt.alloc(), "abcdef", &steps)?;
    assert_eq!(rt;
        told.as_str(),
        "ok; ok; 3..3 by 2; 3..5 by 4; abc|<|12|>|def|; 3 4; 6 7"
    );
    Ok(())
}

/// An inlay between two replacements stays between them.
#[test]
fn an_inlay_stays_between_replacements(rt: HostRuntime) -> Result<(), Fail> {
    let steps = [
        Insert(1, 2, Left, "^"),
        Edit(2, 3, "Y"),
        Edit(1, 2, "X"),
        Line(0),
    ];
    let told = play(rt.alloc(), "abcdef", &steps)?;
    assert_eq!(rt; told.as_str(), "ok; 2..3 by 2; 1..3 by 2; aX|^|Ydef|");
    Ok(())
}

/// An inlay within what is deleted comes to where that was, and one after it moves along.
#[test]
fn a_deletion_moves_inlays_to_its_start(rt: HostRuntime) -> Result<(), Fail> {
    let steps = [
        Insert(1, 2, Left, "x"),
        Insert(2, 5, Right, "y"),
        Sync,
        Edit(1, 4, ""),
        Line(0),
        Places(2),
    ];
    let told = play(rt.alloc(), "abcdef", &steps)?;
    assert_eq!(rt;
        told.as_str(),
        "ok; ok; 2..5 by 5; 1..5 by 1; a|x|e|y|f|; 3 4"
    );
    Ok(())
}

/// An inlay that was added and an edit far from it give one replacement that covers both.
#[test]
fn changes_are_answered_by_one_replacement(rt: HostRuntime) -> Result<(), Fail> {
    let steps = [Insert(1, 5, Right, "!"), Edit(1, 2, "XYZ"), Line(0), Sync];
    let told = play(rt.alloc(), "abcdef", &steps)?;
    assert_eq!(rt; told.as_str(), "ok; 1..5 by 7; aXYZcde|!|f|; none");
    Ok(())
}

/// CR LF that is put into the text is one break there, and a range that is none is refused.
#[test]
fn an_edit_is_cleaned_or_refused(rt: HostRuntime) -> Result<(), Fail> {
    let steps = [
        Insert(1, 2, Right, ">"),
        Edit(1, 1, "\r\n"),
        Line(0),
        Line(1),
        Edit(3, 2, ""),
        Line(1),
    ];
    let told = play(rt.alloc(), "ab", &steps)?;
    assert_eq!(rt; told.as_str(), "ok; 1..2 by 3; a|; b|>|; BadRange; b|>|");
    Ok(())
}
