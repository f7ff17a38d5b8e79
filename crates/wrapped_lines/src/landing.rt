//! Lines that were wrapped elsewhere, and land.
ghost use Rattle.std.specs.Prelude.{◌≡◌, ◌+◌, ◌≤◌, length, map, IfOk};
ghost use Rattle.edit_patch.specs.Fits.{Fits};
ghost use Rattle.sum_tree.specs.Bounds.{TakesAtMost};
ghost use Rattle.wrap_map.specs.Bounds.{landing};
ghost use Rattle.wrap_map.specs.Landing.{IsLanded, cuts_of_run};
ghost use Rattle.wrapped_lines.specs.Changed.{IsLandedAt};
ghost use Rattle.kept_sheet.specs.Kept.{AreLinesAt, IsRising, cuts_in, lines_in, standing};
ghost use Rattle.wrapped_lines.specs.WrappedSource.{HaveRoom, lines_of};

use crate::lines::WrappedLines;
use crate::since::lines_since;
use cell_line::{Cuts, Lines, Run};
use cell_units::{Layer, NoMemory, Steps};
use edit_patch::Patch;
use std::alloc::Global;
use tab_map::TabSnapshot;
use wrap_map::WrapMap;

/// Lines of which some landed.
#[derive(Drop)]
pub struct Landed<L: Layer> {
    pub lines: WrappedLines<L>,
    /// The patch that replaces the rows of the lines that landed, and no others.
    pub rows: Patch,
}

/// A wrap map after the lines of a run landed at its width, and the patch of their rows.
fn land_run<N: Lines>(
    alloc: Global,
    before: &WrapMap<N>,
    old: &N,
    since: &Patch,
    run: Run,
    width: u32,
    wraps: &[Cuts],
    steps: &mut Steps,
) -> Result<(WrapMap<N>, Patch), NoMemory>
    requires width { width ≡ before.now.width }
    requires room { HaveRoom before.now.standing.lines }

    // The lines of the run were there, `since` leads from then to now, and these are their cuts at the width.
    requires since { Fits since.now (N.elements_by_line old.now) before.now.standing.lines }
    requires within { run.first + run.count ≤ length (N.elements_by_line old.now) }
    requires wraps { let lines = N.elements_by_line old.now in
        map (λ cuts. cuts.items) wraps.now ≡ cuts_of_run lines run width }

    // The lines that the run still has are wrapped at the width. The patch has no more edits than the run has lines.
    ensures landed { IfOk result (λ made. IsLanded before.now since.now run made.0 made.1) }
    ensures few { IfOk result (λ made. length made.1 ≤ run.count) }
    ensures counted { steps.old ≤ steps.new }
    ensures steps { let lines = length before.now.standing.lines in
        TakesAtMost (landing run.count) lines steps.old steps.new }
{
    let mut landed = before.share()?;
    let rows = landed.land(alloc, old, since, run, width, wraps, steps)?;
    Ok((landed, rows))
}

impl<L: Layer> WrappedLines<L> {
    /// The lines after those of a run landed. Each place has the line that a line of the run is now, if it is still
    /// there. `wraps` are their cuts at the present width.
    pub fn landed(
        &self,
        alloc: Global,
        old: &TabSnapshot<L>,
        run: Run,
        places: &[Option<u32>],
        wraps: &[Cuts],
        steps: &mut Steps,
    ) -> Result<Landed<L>, NoMemory>
        // The lines at the places are those of the run, in order, and these are the run's cuts.
        requires lines { AreLinesAt (lines_of self.now) places.now (lines_in old.now run) }
        requires rising { IsRising 0 (standing places.now) }
        requires wraps { map (λ cuts. cuts.items) wraps.now ≡ cuts_in old.now run self.now.width }

        // They are wrapped at the width then, and all others are as they were.
        ensures landed { IfOk result (λ made. IsLandedAt self.now places.now made.lines made.rows) }

        // The work.
        ensures counted { steps.old ≤ steps.new }
        ensures steps { let lines = length (lines_of self.now) in
            TakesAtMost (landing run.count) lines steps.old steps.new }
    {
        // The lines that the run has: it may go past the last one.
        let there = Run {
            first: run.first.min(old.lines()),
            count: places.len() as u32,
        };
        let since = lines_since(alloc, old.lines(), self.lines.lines(), there.first, places)?;
        let width = self.width;
        let (map, rows) = land_run(alloc, &self.wraps, old, &since, there, width, wraps, steps)?;
        Ok(Landed {
            lines: self.with_wraps(map, width)?,
            rows,
        })
    }
}
