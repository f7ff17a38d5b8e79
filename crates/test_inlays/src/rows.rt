//! Inlays in one line, and several at one offset.
use crate::script::Step::{Back, Get, Insert, Length, Line, Lines, Places, Remove, Sync};
use crate::script::{play, play_apart};
use cell_units::Bias::{Left, Right};
use std::test::Fail;

/// `: i32` after the fifth byte of `let x = 1` is a piece of its own.
#[test]
fn an_inlay_is_shown_where_it_was_added(rt: HostRuntime) -> Result<(), Fail> {
    let steps = [Insert(1, 5, Right, ": i32"), Sync, Line(0), Lines, Length];
    let told = play(rt.alloc(), "let x = 1", &steps)?;
    assert_eq!(rt; told.as_str(), "ok; 5..5 by 5; let x|: i32| = 1|; 1; 14");
    Ok(())
}

/// Offset 5 has a place before the inlay and one after it, and no offset has a place inside.
#[test]
fn no_offset_has_a_place_inside_an_inlay(rt: HostRuntime) -> Result<(), Fail> {
    let steps = [
        Insert(1, 5, Right, ": i32"),
        Sync,
        Places(5),
        Back(5, Right),
        Back(7, Left),
        Back(10, Left),
        Back(14, Left),
        Back(15, Left),
    ];
    let told = play(rt.alloc(), "let x = 1", &steps)?;
    assert_eq!(rt; told.as_str(), "ok; 5..5 by 5; 5 10; 5; none; 5; 9; none");
    Ok(())
}

/// `>` at the end of `abc` has its place before and after it.
#[test]
fn an_inlay_at_the_end_has_two_places(rt: HostRuntime) -> Result<(), Fail> {
    let steps = [
        Insert(1, 3, Left, ">"),
        Sync,
        Places(3),
        Places(4),
        Line(0),
        Sync,
    ];
    let told = play(rt.alloc(), "abc", &steps)?;
    assert_eq!(rt; told.as_str(), "ok; 3..3 by 1; 3 4; none; abc|>|; none");
    Ok(())
}

/// The same at its start.
#[test]
fn an_inlay_at_the_start_stands_before_the_text(rt: HostRuntime) -> Result<(), Fail> {
    let steps = [
        Insert(1, 0, Right, "<<"),
        Sync,
        Places(0),
        Places(1),
        Line(0),
    ];
    let told = play(rt.alloc(), "abc", &steps)?;
    assert_eq!(rt; told.as_str(), "ok; 0..0 by 2; 0 2; 3 3; <<|abc|");
    Ok(())
}

/// At one offset Left is before Right, and of one bias the lesser id first, in whatever order they come.
#[test]
fn inlays_at_one_offset_stand_by_bias_and_id(rt: HostRuntime) -> Result<(), Fail> {
    let steps = [
        Insert(2, 1, Right, "b"),
        Insert(9, 1, Left, "d"),
        Insert(1, 1, Right, "a"),
        Insert(3, 1, Left, "c"),
        Sync,
        Line(0),
        Places(1),
    ];
    let told = play(rt.alloc(), "xy", &steps)?;
    assert_eq!(rt;
        told.as_str(),
        "ok; ok; ok; ok; 1..1 by 4; x|c|d|a|b|y|; 1 5"
    );
    Ok(())
}

/// A snapshot lists its inlays by offset, bias and id, each with its text as it was given, and past the last there is
/// none.
#[test]
fn inlays_are_listed_in_order(rt: HostRuntime) -> Result<(), Fail> {
    let steps = [
        Insert(2, 1, Right, "b\r\n"),
        Insert(9, 1, Left, "d"),
        Insert(1, 0, Right, "a"),
        Sync,
        Get(0),
        Get(1),
        Get(2),
        Get(3),
        Remove(9),
        Sync,
        Get(1),
        Get(2),
    ];
    let told = play(rt.alloc(), "xy", &steps)?;
    assert_eq!(rt;
        told.as_str(),
        "ok; ok; ok; 0..1 by 5; 1 at 0 right a; 9 at 1 left d; 2 at 1 right b\r\n; none; \
         ok; 2..5 by 2; 2 at 1 right b\r\n; none"
    );
    Ok(())
}

/// What is over no text is all that is shown, and the one offset has both its ends.
#[test]
fn an_empty_text_shows_its_inlays(rt: HostRuntime) -> Result<(), Fail> {
    let steps = [
        Insert(2, 0, Right, "b"),
        Insert(1, 0, Left, "a"),
        Sync,
        Line(0),
        Places(0),
        Back(0, Right),
        Back(1, Left),
        Back(2, Left),
    ];
    let told = play(rt.alloc(), "", &steps)?;
    assert_eq!(rt; told.as_str(), "ok; ok; 0..0 by 2; a|b|; 0 2; 0; none; 0");
    Ok(())
}

/// What is removed of an equal map is gone from the next snapshot of that, and the first map still shows it.
#[test]
fn a_removed_inlay_is_gone_from_one_map(rt: HostRuntime) -> Result<(), Fail> {
    let before = [Insert(1, 1, Left, "<"), Insert(2, 1, Right, ">"), Sync];
    let removed = [Remove(1), Line(0), Sync, Line(0)];
    let told = play_apart(rt.alloc(), "abc", &before, &removed, &[Sync, Line(0)])?;
    assert_eq!(rt;
        told.as_str(),
        "ok; a|<|>|bc|; 1..3 by 1; a|>|bc| / none; a|<|>|bc|"
    );
    Ok(())
}

/// An equal map returns and shows what the first one does.
#[test]
fn a_shared_map_shows_the_same(rt: HostRuntime) -> Result<(), Fail> {
    let before = [Insert(1, 5, Right, ": i32")];
    let after = [Sync, Line(0), Places(5)];
    let told = play_apart(rt.alloc(), "let x = 1", &before, &after, &after)?;
    assert_eq!(rt;
        told.as_str(),
        "5..5 by 5; let x|: i32| = 1|; 5 10 / 5..5 by 5; let x|: i32| = 1|; 5 10"
    );
    Ok(())
}
