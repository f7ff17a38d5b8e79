//! Inlays that are refused.
use crate::script::Step::{Insert, InsertEach, InsertLetters, Length, Line, Places, Remove, Sync};
use crate::script::play;
use cell_units::Bias::{Left, Right};
use cell_units::limits::{ENTRY_LIMIT, INLAY_LIMIT};
use std::test::Fail;

/// An id that is there, an offset past the end, a text that is none, and an id that isn't there.
#[test]
fn inlays_are_refused(rt: HostRuntime) -> Result<(), Fail> {
    let steps = [
        Insert(1, 3, Left, ">"),
        Insert(1, 3, Left, ">"),
        Insert(2, 4, Left, ">"),
        Insert(2, 0, Left, ""),
        Sync,
        Line(0),
        Remove(9),
    ];
    let told = play(rt.alloc(), "abc", &steps)?;
    assert_eq!(rt;
        told.as_str(),
        "ok; IdInUse; BadRange; BadText; 3..3 by 1; abc|>|; UnknownId"
    );
    Ok(())
}

/// An inlay may be on either side of a character of two bytes, and not within it.
#[test]
fn an_offset_within_a_character_is_refused(rt: HostRuntime) -> Result<(), Fail> {
    let steps = [
        Insert(1, 2, Left, "<"),
        Insert(1, 1, Left, "<"),
        Insert(2, 3, Right, ">"),
        Sync,
        Line(0),
        Places(2),
    ];
    let told = play(rt.alloc(), "aé", &steps)?;
    assert_eq!(rt;
        told.as_str(),
        "BadRange; ok; ok; 1..3 by 4; a|<|é|>|; none"
    );
    Ok(())
}

/// Of several refusals the first in their order is returned, and a text of 1,024 bytes isn't too long.
#[test]
fn refusals_come_in_their_order(rt: HostRuntime) -> Result<(), Fail> {
    let steps = [
        Insert(1, 3, Left, ">"),
        Insert(1, 9, Left, ""),
        Insert(2, 9, Left, ""),
        InsertLetters(2, 9, INLAY_LIMIT + 1),
        InsertLetters(2, 3, INLAY_LIMIT + 1),
        InsertLetters(2, 3, INLAY_LIMIT),
        Sync,
    ];
    let told = play(rt.alloc(), "abc", &steps)?;
    assert_eq!(rt;
        told.as_str(),
        "ok; IdInUse; BadRange; BadRange; TooLong; ok; 3..3 by 1025"
    );
    Ok(())
}

/// Over 65,536 inlays one more is too long, and one that comes for another isn't.
#[test]
fn one_inlay_too_many_is_too_long(rt: HostRuntime) -> Result<(), Fail> {
    let text = "a".repeat(rt.alloc(), ENTRY_LIMIT)?;
    let steps = [
        InsertEach(65_536),
        Insert(65_536, 65_536, Left, ">"),
        Sync,
        Places(65_535),
        Length,
        Remove(0),
        Insert(65_536, 65_536, Left, ">"),
        Insert(0, 0, Left, ">"),
    ];
    let told = play(rt.alloc(), text.as_str(), &steps)?;
    assert_eq!(rt;
        told.as_str(),
        "ok; TooLong; 0..65535 by 131071; 131070 131071; 131072; ok; ok; TooLong"
    );
    Ok(())
}
