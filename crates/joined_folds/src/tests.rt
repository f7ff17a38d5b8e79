//! What no contract says: that the sweep returns what it should.

use crate::{JoinedFold, Window, joined_within};
use cell_units::NoMemory;
use mark_tree::RangeMark;
use std::alloc::Global;
use std::test::Fail;

/// All joined folds of a text of eight bytes, from all its folds.
fn joined_in_eight(alloc: Global, folds: &[RangeMark]) -> Result<Vec<JoinedFold>, NoMemory> {
    let all = Window {
        from: 0,
        start: 0,
        end: 8,
        to: 8,
    };
    joined_within(alloc, folds, all)
}

/// The range of a fold.
fn fold(start: u32, end: u32, id: u32) -> RangeMark {
    RangeMark { start, end, id }
}

/// Two folds that overlap are one, and two that touch are two.
#[test]
fn folds_that_overlap_are_joined(rt: HostRuntime) -> Result<(), Fail> {
    let overlap = joined_in_eight(rt.alloc(), &[fold(1, 4, 1), fold(3, 6, 2)])?;
    assert_eq!(rt;
        overlap.as_slice(),
        [JoinedFold { start: 1, end: 6 }].as_slice()
    );
    let touch = joined_in_eight(rt.alloc(), &[fold(1, 4, 1), fold(4, 6, 3)])?;
    let (first, second) = (
        JoinedFold { start: 1, end: 4 },
        JoinedFold { start: 4, end: 6 },
    );
    assert_eq!(rt; touch.as_slice(), [first, second].as_slice());
    Ok(())
}
