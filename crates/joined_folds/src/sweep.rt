//! Joined folds made anew.
ghost use Rattle.std.specs.Prelude.{◌≡◌, IfOk, List, OnOk};
ghost use Rattle.cell_units.specs.Record.{Fold};
ghost use Rattle.joined_folds.specs.JoinedLists.{AreJoined};
ghost use Rattle.joined_folds.specs.Sweeps.{AreMet, with_one};
ghost use Rattle.joined_folds.specs.Windows.{IsWindow};

use crate::joined_fold::JoinedFold;
use crate::window::Window;
use cell_units::NoMemory;
use mark_tree::RangeMark;
use std::alloc::Global;

/// The joined folds of a window, from the folds that meet it or its end, in the order of their starts.
pub fn joined_within(
    alloc: Global,
    met: &[RangeMark],
    window: Window,
) -> Result<Vec<JoinedFold>, NoMemory>
    ensures joined { (folds : List Fold) → IsWindow folds window → AreMet folds window met.now →
        IfOk result (λ v. AreJoined folds window.from v.items window.to) }
{
    let mut joined = Vec::new(alloc);
    let mut last = JoinedFold {
        start: window.from,
        end: window.start,
    };
    for range in met {
        if range.start < last.end {
            last.end = last.end.max(range.end);
        } else {
            put(&mut joined, last)?;
            last = JoinedFold {
                start: range.start,
                end: range.end,
            };
        }
    }
    if window.end < last.end {
        last.end = window.to;
    }
    put(&mut joined, last)?;
    Ok(joined)
}

/// Puts one after the others, unless it is empty.
fn put(joined: &mut Vec<JoinedFold>, one: JoinedFold) -> Result<(), NoMemory>
    ensures ok { OnOk result (joined.new.items ≡ with_one joined.old.items one) }
{
    if one.start < one.end {
        joined.push(one)?;
    }
    Ok(())
}
