//! Folds that an edit of the text moves, cuts short or drops.
use crate::script::Step::{
    Edit, Fold, FoldChain, Line, Lines, Places, Show, Span, Sync, TookAtMost, Unfold,
};
use crate::script::play;
use std::test::Fail;

/// A byte that is hidden changes, and the placeholder is replaced by itself.
#[test]
fn an_edit_of_what_is_hidden_is_answered(rt: HostRuntime) -> Result<(), Fail> {
    let steps = [Fold(1, 1, 4), Show, Edit(2, 3, "x"), Line(0), Sync];
    let told = play(rt.alloc(), "a\nb\nc", &steps)?;
    assert_eq!(rt; told.as_str(), "ok; shown; 1..4 by 3; a|⋯|c|; none");
    Ok(())
}

/// What is put in at either end of a fold is shown, and what is put in between is hidden.
#[test]
fn insertions_at_the_ends_are_shown(rt: HostRuntime) -> Result<(), Fail> {
    let steps = [
        Fold(1, 1, 3),
        Show,
        Edit(1, 1, "x"),
        Line(0),
        Edit(4, 4, "y"),
        Line(0),
        Edit(3, 3, "zz"),
        Line(0),
        Places(4),
    ];
    let told = play(rt.alloc(), "abcd", &steps)?;
    assert_eq!(rt;
        told.as_str(),
        "ok; shown; 0..5 by 6; ax|⋯|d|; 0..6 by 7; ax|⋯|yd|; 0..7 by 7; ax|⋯|yd|; 2 5"
    );
    Ok(())
}

/// A deletion over an end of a fold cuts it short there, and what comes in its place there is hidden.
#[test]
fn a_deletion_cuts_a_fold_short(rt: HostRuntime) -> Result<(), Fail> {
    let steps = [
        Fold(1, 2, 5),
        Show,
        Edit(1, 3, ""),
        Line(0),
        Edit(2, 4, "x"),
        Line(0),
    ];
    let told = play(rt.alloc(), "abcdefg", &steps)?;
    assert_eq!(rt;
        told.as_str(),
        "ok; shown; 0..7 by 6; a|⋯|fg|; 0..6 by 5; a|⋯|g|"
    );
    Ok(())
}

/// A fold of which all bytes are deleted is dropped, and its id is free.
#[test]
fn an_emptied_fold_is_dropped(rt: HostRuntime) -> Result<(), Fail> {
    let steps = [
        Fold(1, 1, 4),
        Fold(3, 4, 6),
        Show,
        Line(0),
        Edit(1, 4, ""),
        Line(0),
        Unfold(1),
        Fold(1, 0, 1),
    ];
    let told = play(rt.alloc(), "abcdefgh", &steps)?;
    assert_eq!(rt;
        told.as_str(),
        "ok; ok; shown; a|⋯|⋯|gh|; 0..9 by 6; a|⋯|gh|; UnknownId; ok"
    );
    Ok(())
}

/// A line feed that is put into the gap between two folds makes two lines, and its deletion one.
#[test]
fn a_feed_between_folds_parts_their_line(rt: HostRuntime) -> Result<(), Fail> {
    let steps = [
        Fold(1, 0, 1),
        Fold(2, 2, 3),
        Show,
        Line(0),
        Edit(2, 2, "\n"),
        Lines,
        Line(0),
        Line(1),
        Edit(1, 3, ""),
        Lines,
        Line(0),
    ];
    let told = play(rt.alloc(), "abc", &steps)?;
    assert_eq!(rt;
        told.as_str(),
        "ok; ok; shown; ⋯|b|⋯|; 0..7 by 8; 2; ⋯|b|; ⋯|; 0..8 by 6; 1; ⋯|⋯|"
    );
    Ok(())
}

/// A chain of 10,000 folds over as many rows is one placeholder. A letter in its first row opens few nodes, and one in
/// a row that it hides too.
#[test]
fn an_edit_under_a_long_chain_takes_few_steps(rt: HostRuntime) -> Result<(), Fail> {
    let text = "a\n".repeat(rt.alloc(), 10_001)?;
    let steps = [
        FoldChain(10_000, 2, 3),
        Show,
        Lines,
        Line(0),
        Span(0),
        Edit(0, 0, "b"),
        TookAtMost(2_000),
        Edit(10_002, 10_002, "c"),
        TookAtMost(2_000),
        Line(0),
    ];
    let told = play(rt.alloc(), text.as_str(), &steps)?;
    assert_eq!(rt;
        told.as_str(),
        "ok; shown; 2; ⋯|; 0 10000; 0..3 by 4; yes; 1..4 by 3; yes; b|⋯|"
    );
    Ok(())
}
