//! Folds that are refused, many folds, and long chains of them.
use crate::script::Step::{
    Fold, FoldEach, Insert, Length, Line, Lines, Places, Remove, Show, Sync, Unfold,
};
use crate::script::play;
use cell_units::Bias::Left;
use cell_units::limits::ENTRY_LIMIT;
use std::test::Fail;

/// An id that is there, a range that is none, one that is backwards, one past the end, and an id that isn't there.
#[test]
fn folds_are_refused(rt: HostRuntime) -> Result<(), Fail> {
    let steps = [
        Fold(1, 1, 2),
        Fold(1, 0, 1),
        Fold(2, 1, 1),
        Fold(2, 2, 1),
        Fold(2, 0, 4),
        Unfold(9),
        Show,
        Line(0),
    ];
    let told = play(rt.alloc(), "abc", &steps)?;
    assert_eq!(rt;
        told.as_str(),
        "ok; IdInUse; BadRange; BadRange; BadRange; UnknownId; shown; a|⋯|c|"
    );
    Ok(())
}

/// A fold reaches from one side of a character of two bytes to the other, and not into it.
#[test]
fn an_end_within_a_character_is_refused(rt: HostRuntime) -> Result<(), Fail> {
    let steps = [Fold(1, 0, 2), Fold(1, 2, 3), Fold(1, 1, 3), Show, Line(0)];
    let told = play(rt.alloc(), "aé", &steps)?;
    assert_eq!(rt; told.as_str(), "BadRange; BadRange; ok; shown; a|⋯|");
    Ok(())
}

/// Of several refusals the first in their order is returned, and a refused call leaves all as it was.
#[test]
fn refusals_come_in_their_order(rt: HostRuntime) -> Result<(), Fail> {
    let steps = [
        Fold(1, 0, 3),
        Fold(1, 9, 2),
        Fold(2, 9, 2),
        Show,
        Sync,
        Unfold(1),
        Unfold(1),
        Fold(1, 2, 3),
        Show,
        Line(0),
    ];
    let told = play(rt.alloc(), "abc", &steps)?;
    assert_eq!(rt;
        told.as_str(),
        "ok; IdInUse; BadRange; shown; none; ok; UnknownId; ok; shown; ab|⋯|"
    );
    Ok(())
}

/// Folds and inlays have ids of their own.
#[test]
fn an_inlay_may_have_the_id_of_a_fold(rt: HostRuntime) -> Result<(), Fail> {
    let steps = [
        Fold(1, 1, 2),
        Insert(1, 3, Left, ">"),
        Unfold(2),
        Remove(2),
        Show,
        Line(0),
    ];
    let told = play(rt.alloc(), "abc", &steps)?;
    assert_eq!(rt;
        told.as_str(),
        "ok; ok; UnknownId; UnknownId; shown; a|⋯|c|>|"
    );
    Ok(())
}

/// Over 65,536 folds, each of a letter, one more is too long, and one that comes for another isn't.
#[test]
fn one_fold_too_many_is_too_long(rt: HostRuntime) -> Result<(), Fail> {
    let text = "a".repeat(rt.alloc(), ENTRY_LIMIT + 1)?;
    let steps = [
        FoldEach(65_536, 1),
        Fold(65_536, 65_536, 65_537),
        Show,
        Places(65_536),
        Length,
        Lines,
        Unfold(0),
        Fold(65_536, 65_536, 65_537),
        Fold(0, 0, 1),
        Show,
        Length,
    ];
    let told = play(rt.alloc(), text.as_str(), &steps)?;
    assert_eq!(rt;
        told.as_str(),
        "ok; TooLong; shown; 196608 196608; 196609; 1; ok; ok; TooLong; \
         shown; 196609"
    );
    Ok(())
}
