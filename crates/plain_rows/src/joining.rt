//! Folds that overlap, joined to the ranges that one placeholder each replaces.
ghost use Rattle.std.specs.Prelude.{◌≡◌, ◌<◌, ◌≤◌, All, map, IfOk};
ghost use Rattle.plain_rows.specs.FoldedLines.{AreInOrder, Joins};
ghost use Rattle.plain_rows.specs.Plain.{fold_of};

use crate::folded_lines::Joined;
use crate::plain::PlainFold;
use cell_units::NoMemory;
use std::alloc::Global;

/// The joined folds of folds that are in order of their starts.
pub(crate) fn joined_folds(alloc: Global, folds: &[PlainFold]) -> Result<Vec<Joined>, NoMemory>
    requires in_order { AreInOrder (λ (f : PlainFold). f.start) folds.now }
    requires none_empty { All (λ (f : PlainFold). f.start < f.end) folds.now }
    ensures { IfOk result (λ joined. Joins (map fold_of folds.now) joined.items) }
{
    let mut joined = Vec::new(alloc);
    let Some(first) = folds.first() else {
        return Ok(joined);
    };
    let mut start = first.start;
    let mut end = first.end;
    for fold in folds {
        if fold.start < end {
            end = end.max(fold.end);
        } else {
            joined.push(Joined { start, end })?;
            start = fold.start;
            end = fold.end;
        }
    }
    joined.push(Joined { start, end })?;
    Ok(joined)
}
