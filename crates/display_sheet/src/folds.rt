//! Folds in their order: by start, then end, then id.
ghost use Rattle.std.specs.Prelude.{◌≡◌, ◌+◌, ◌==◌, ◌^◌, ◌<◌, ◌≤◌, ◌++◌, not, All, map, reverse, find, IfOk, OnOk};
ghost use Rattle.std.specs.List.{prefix_len};
ghost use Rattle.std.specs.Option.{option_copied, option_map};
ghost use Rattle.cell_units.specs.Record.{fold_le};
ghost use Rattle.cell_units.specs.Sorting.{insert_by};
ghost use Rattle.cell_units.specs.Operation.{move_fold, moved_folds, without_fold};
ghost use Rattle.plain_rows.specs.Plain.{fold_of};

use crate::anchor;
use cell_units::{Bias, NoMemory, Shift};
use plain_rows::PlainFold;
use std::alloc::Global;

/// Whether a fold comes at or before another.
fn is_before(a: &PlainFold, b: &PlainFold) -> bool
    ensures { result ≡ fold_le (fold_of a.now) (fold_of b.now) }
{
    a.start < b.start || (a.start == b.start && (a.end < b.end || (a.end == b.end && a.id <= b.id)))
}

/// Puts a fold in its place among folds in falling order.
fn put_in(falling: &mut Vec<PlainFold>, fold: PlainFold) -> Result<(), NoMemory>
    ensures { OnOk result (map fold_of (reverse falling.new.items)
        ≡ insert_by fold_le (fold_of fold) (map fold_of (reverse falling.old.items))) }
{
    let mut at = falling.len();
    while at > 0 && !is_before(&fold, &falling[at - 1]) {
        at -= 1;
    }
    falling.insert(at, fold)?;
    Ok(())
}

/// A fold after a replacement.
fn moved_one(fold: &PlainFold, shift: Shift) -> PlainFold
    requires start { shift.start + shift.count < 2 ^ 32 }
    requires fits { (fold.now.start + shift.count < 2 ^ 32)
        × (fold.now.end + shift.count < 2 ^ 32) }
    ensures { fold_of result ≡ move_fold shift.start shift.end shift.count (fold_of fold.now) }
{
    PlainFold {
        id: fold.id,
        start: anchor::moved(fold.start, Bias::Right, shift),
        end: anchor::moved(fold.end, Bias::Left, shift),
    }
}

/// The folds after a replacement, in order again, without those that are empty.
pub fn moved(alloc: Global, folds: &[PlainFold], shift: Shift) -> Result<Vec<PlainFold>, NoMemory>
    requires start { shift.start + shift.count < 2 ^ 32 }
    requires fits { All (λ f.
        (f.start + shift.count < 2 ^ 32) × (f.end + shift.count < 2 ^ 32)) folds.now }
    ensures { IfOk result (λ moved. map fold_of moved.items
        ≡ moved_folds shift.start shift.end shift.count (map fold_of folds.now)) }
{
    let mut moved = Vec::with_capacity(alloc, folds.len())?;
    for i in (0..folds.len()).rev() {
        let fold = moved_one(&folds[i], shift);
        if fold.start < fold.end {
            put_in(&mut moved, fold)?;
        }
    }
    moved.reverse();
    Ok(moved)
}

/// How many folds a fold doesn't come before.
fn passed(folds: &[PlainFold], fold: &PlainFold) -> usize
    ensures { result ≡ prefix_len (λ z. not (fold_le (fold_of fold.now) (fold_of z))) folds.now }
{
    folds
        .iter()
        .take_while(|other| !is_before(fold, *other))
        .count()
}

/// The folds with one more, in order.
pub fn added(
    alloc: Global,
    folds: &[PlainFold],
    fold: PlainFold,
) -> Result<Vec<PlainFold>, NoMemory>
    ensures { IfOk result (λ added.
        map fold_of added.items ≡ insert_by fold_le (fold_of fold) (map fold_of folds.now)) }
{
    let at = passed(folds, &fold);
    let mut added = Vec::with_capacity(alloc, folds.len())?;
    added.extend_from_slice(&folds[..at])?;
    added.push(fold)?;
    added.extend_from_slice(&folds[at..])?;
    Ok(added)
}

/// The folds without the one of this id.
pub fn removed(alloc: Global, folds: &[PlainFold], id: u32) -> Result<Vec<PlainFold>, NoMemory>
    ensures { IfOk result (λ left.
        map fold_of left.items ≡ without_fold id (map fold_of folds.now)) }
{
    let mut left = Vec::with_capacity(alloc, folds.len())?;
    for fold in folds {
        if fold.id != id {
            left.push(*fold)?;
        }
    }
    Ok(left)
}

/// The fold of this id, if it is there.
pub fn found(folds: &[PlainFold], id: u32) -> Option<&PlainFold>
    ensures { option_map fold_of (option_copied result)
        ≡ find (λ f. f.id == id) (map fold_of folds.now) }
{
    for fold in folds {
        if fold.id == id {
            return Some(fold);
        }
    }
    None
}
