//! What became of lines since a run of them was taken, from the places of the run's lines.
ghost use Rattle.std.specs.Prelude.{◌≡◌, ◌+◌, ◌^◌, ◌<◌, ◌≤◌, ◌++◌, All, length, IfOk, OnOk};
ghost use Rattle.kept_sheet.specs.Kept.{IsRising, standing};
ghost use Rattle.wrapped_lines.specs.inside.Since.{IsSince, between, edits_at, end_of, kept_after};

use cell_units::NoMemory;
use edit_patch::{Edit, Patch};
use std::alloc::Global;

/// A line of the old ones and a present one.
#[derive(Clone, Copy)]
pub(crate) struct Pair {
    pub old: u32,
    pub now: u32,
}

/// The edit that replaces the lines from one pair to another, where there are any.
fn push_between(edits: &mut Vec<Edit>, from: Pair, to: Pair) -> Result<(), NoMemory>
    ensures { OnOk result (edits.new.items ≡ edits.old.items ++ between from to) }
{
    if from.old < to.old || from.now < to.now {
        edits.push(Edit {
            old_start: from.old,
            old_end: to.old,
            new_start: from.now,
            new_end: to.now,
        })?;
    }
    Ok(())
}

/// Goes on by an old line, which is kept at its place if it has one. It gives the pair after the last line that is
/// kept.
fn pass(edits: &mut Vec<Edit>, kept: Pair, line: u32, place: Option<u32>) -> Result<Pair, NoMemory>
    requires line { line + 1 < 2 ^ 32 }
    requires place { end_of place < 2 ^ 32 }
    ensures edits { OnOk result (edits.new.items ≡ edits.old.items ++ edits_at kept line place) }
    ensures kept { IfOk result (λ after. after ≡ kept_after kept line place) }
{
    let Some(now) = place else {
        return Ok(kept);
    };
    push_between(edits, kept, Pair { old: line, now })?;
    Ok(Pair {
        old: line + 1,
        now: now + 1,
    })
}

/// The patch from old lines to present ones. It keeps the old lines from `first` on that have a place, each at its
/// place, and replaces all others. Both counts are of lines.
pub fn lines_since(
    alloc: Global,
    old: u32,
    now: u32,
    first: u32,
    places: &[Option<u32>],
) -> Result<Patch, NoMemory>
    requires within { first + length places.now ≤ old }
    requires rising { IsRising 0 (standing places.now) }
    requires there { All (λ line. line < now) (standing places.now) }
    ensures { IfOk result (IsSince old now first places.now) }
{
    let mut edits = Vec::new(alloc);
    let mut kept = Pair { old: 0, now: 0 };
    for (k, place) in places.iter().enumerate() {
        kept = pass(&mut edits, kept, first + k as u32, *place)?;
    }
    push_between(&mut edits, kept, Pair { old, now })?;
    match Patch::of(edits) {
        Ok(patch) => Ok(patch),
        Err(_) => unreachable!(),
    }
}
