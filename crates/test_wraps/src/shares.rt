//! Shared maps and snapshots.
use crate::script::Step::{Edit, Lines, Marks, Row, Rows, WrapAll};
use crate::script::{lines_of, play_apart, play_behind};
use std::test::Fail;

/// Shared maps are equal, and see no later change of the first ones.
#[test]
fn shared_maps_are_equal_and_apart(rt: HostRuntime) -> Result<(), Fail> {
    let text = lines_of(rt.alloc(), "aaa bbb", 10)?;
    let told = play_apart(
        rt.alloc(),
        text.as_str(),
        5,
        &[WrapAll],
        &[Rows, Marks, Edit(40, 41, "z"), Rows],
        &[Rows, Marks, Edit(40, 41, "z"), Rows],
    )?;
    assert_eq!(rt;
        told.as_str(),
        "20; 0-9@5; 10..12 by 1; 19 / 20; 0-9@5; 10..12 by 1; 19"
    );
    Ok(())
}

/// A snapshot and one that is shared see no later change.
#[test]
fn snapshots_see_no_later_change(rt: HostRuntime) -> Result<(), Fail> {
    let text = lines_of(rt.alloc(), "aaa bbb", 10)?;
    let told = play_behind(
        rt.alloc(),
        text.as_str(),
        5,
        &[WrapAll],
        &[Edit(40, 48, ""), Lines],
        &[Rows, Row(9, 1)],
    )?;
    assert_eq!(rt; told.as_str(), "10..14 by 1; 9 / 20 / bbb / 20 / bbb");
    Ok(())
}
