//! How lines are wrapped after a replacement.
ghost use Rattle.std.specs.Prelude.{◌≡◌, ◌^◌, ◌<◌, ◌≤◌, length, replicate, IfOk, IfSome};
ghost use Rattle.sum_tree.specs.Bounds.{ChangesAtMost};
ghost use Rattle.wrap_map.specs.Bounds.{syncing};
ghost use Rattle.wrap_map.specs.Stood.{rows_in, unwrapped};
ghost use Rattle.wrap_map.specs.inside.Changes.{AreRowsIfAny, AreRowsIn, cleared, cleared_if_any};
ghost use Rattle.wrap_map.specs.inside.Stretches.{spread};

use crate::stretch::Stretch;
use crate::stretches::Stretches;
use cell_units::{NoMemory, Shift, Steps};
use std::alloc::Global;

/// How the lines are wrapped after a replacement, if there was one, and the rows that it replaced.
pub fn replaced_if_any(
    alloc: Global,
    lines: &Stretches,
    below: Option<Shift>,
    steps: &mut Steps,
) -> Result<(Stretches, Option<Shift>), NoMemory>
    // The lines are there, and the rows afterwards are u32.
    requires within { IfSome below (λ shift. shift.end ≤ length lines.now) }
    requires rows_fit { rows_in (cleared_if_any below lines.now) < 2 ^ 32 }

    // The lines met are in one row each, and all others are wrapped as they were.
    ensures lines { IfOk result (λ made. made.0 ≡ cleared_if_any below lines.now) }
    ensures rows { IfOk result (λ made. AreRowsIfAny lines.now below made.1) }

    // The work.
    ensures counted { steps.old ≤ steps.new }
    ensures steps { let after = cleared_if_any below lines.now in
        ChangesAtMost syncing (length lines.now) (length after) steps.old steps.new }
{
    match below {
        None => Ok((lines.share()?, None)),
        Some(below) => {
            let (after, rows) = replaced(alloc, lines, below, steps)?;
            Ok((after, Some(rows)))
        }
    }
}

/// The same after a replacement.
#[tactic(auto, using(crate::proofs::StoodRows::rows_rise))]
fn replaced(
    alloc: Global,
    lines: &Stretches,
    below: Shift,
    steps: &mut Steps,
) -> Result<(Stretches, Shift), NoMemory>
    // The lines are there, and the rows afterwards are u32.
    requires within { below.end ≤ length lines.now }
    requires rows_fit { rows_in (cleared below lines.now) < 2 ^ 32 }

    // The lines that are there now have one row each, which replace the rows of those that went.
    ensures lines { IfOk result (λ made. made.0 ≡ cleared below lines.now) }
    ensures rows { IfOk result (λ made. AreRowsIn lines.now below made.1) }

    // The work: one stretch is put in the place of others.
    ensures counted { steps.old ≤ steps.new }
    ensures steps { let after = cleared below lines.now in
        ChangesAtMost syncing (length lines.now) (length after) steps.old steps.new }
{
    let mut after = lines.share()?;
    let fresh = unwrapped_lines(alloc, below.count)?;
    let rows = after.put(alloc, below.start, below.end, fresh, steps)?;
    Ok((after, Shift::new(rows.start, rows.end, below.count)))
}

/// So many lines in one row each.
fn unwrapped_lines(alloc: Global, count: u32) -> Result<Vec<Stretch>, NoMemory>
    ensures lines { IfOk result (λ fresh. spread fresh.items ≡ replicate count unwrapped) }
    ensures few { IfOk result (λ fresh. length fresh.items ≤ 1) }
{
    let mut fresh = Vec::new(alloc);
    if count > 0 {
        fresh.push(Stretch::uncut(0, count))?;
    }
    Ok(fresh)
}
