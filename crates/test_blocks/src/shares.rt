//! Shared maps and snapshots.
use crate::script::Step::{All, Block, Count, Edit, Row, Show, Unblock};
use crate::script::{play_apart, play_behind};
use cell_units::Side::{Above, Below};
use std::test::Fail;

/// Shared maps are equal, and see no later change of the first ones.
#[test]
fn shared_maps_are_equal_and_apart(rt: HostRuntime) -> Result<(), Fail> {
    let told = play_apart(
        rt.alloc(),
        "a\nb",
        &[
            Block(2, Below, 0, &["note"]),
            Block(1, Above, 2, &["==", "--"]),
            Show,
        ],
        &[All, Unblock(1), Edit(0, 1, ""), All],
        &[All, Unblock(2), Show, All],
    )?;
    assert_eq!(rt;
        told.as_str(),
        "t|a, b|note, b|==, b|--, t|b; ok; ok; t|, b|note, t|b / t|a, b|note, b|==, b|--, t|b; ok; ok; t|a, b|==, b|--, t|b"
    );
    Ok(())
}

/// A snapshot and one that is shared see no later change.
#[test]
fn snapshots_see_no_later_change(rt: HostRuntime) -> Result<(), Fail> {
    let told = play_behind(
        rt.alloc(),
        "a\nb",
        &[Block(2, Below, 0, &["note"]), Show],
        &[Unblock(2), Edit(1, 3, ""), All],
        &[Count, Row(1), All],
    )?;
    assert_eq!(rt;
        told.as_str(),
        "ok; ok; t|a / 3 / b|note / t|a, b|note, t|b / 3 / b|note / t|a, b|note, t|b"
    );
    Ok(())
}
