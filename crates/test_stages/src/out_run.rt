//! A run of lines that is cut elsewhere.
ghost use Rattle.std.specs.Prelude.{◌≡◌, ◌≢◌, ◌≤◌, Some, map, IfOk, IfSome, MatchOption};
ghost use Rattle.cell_line.specs.Lines.{FitsU32};
ghost use Rattle.cell_units.specs.Lawful.{IsWidth};
ghost use Rattle.edit_patch.specs.Leads.{LeadsBy};
ghost use Rattle.wrapped_lines.specs.Changed.{IsLandedAt};
ghost use Rattle.wrapped_lines.specs.WrappedSource.{lines_of};
ghost use Rattle.test_stages.specs.Places.{IsOutOf, IsTakenIfAny, carried, no_run};

use crate::carrying::{carry, places_from};
use crate::cutting::wraps;
use cell_line::{Cuts, Lines, Run};
use cell_units::{Layer, NoMemory, Shift, Steps};
use std::alloc::Global;
use std::marker::Model;
use tab_map::TabSnapshot;
use wrapped_lines::{Landed, WrappedLines};

/// A run of lines with its cuts, and of each of its lines the line that it is now, if it is still there.
///
/// It is seen as the lines of the moment at which the run was taken, the run, the width in cells at which it is cut,
/// and the places of its lines.
pub struct OutRun<L: Layer> {
    taken: TabSnapshot<L>,
    run: Run,
    width: u32,
    wraps: Vec<Cuts>,
    places: Vec<Option<u32>>,
}

impl<L: Layer> Drop for OutRun<L> {
    fn drop(self) {
        let OutRun {
            taken: _,
            run: _,
            width: _,
            wraps: _,
            places: _,
        } = self;
    }
}

impl<L: Layer> Model for OutRun<L> {
    ghost use Rattle.std.specs.Prelude.{◌≡◌, map};
    ghost use Rattle.kept_sheet.specs.Kept.{IsRising, cuts_in, standing};
    ghost use Rattle.test_stages.specs.Places.{OutParts};

    ghost Value = { OutParts };

    ghost view = { λ o. record { taken = o.taken; run = o.run; width = o.width; places = o.places.items } };

    ghost invariant = { λ o. (map (λ cuts. cuts.items) o.wraps.items ≡ cuts_in o.taken o.run o.width)
        × IsRising 0 (standing o.places.items) };
}

impl<L: Layer> OutRun<L> {
    /// A run of no lines.
    pub fn none(alloc: Global, lines: &WrappedLines<L>) -> Result<OutRun<L>, NoMemory>
        ensures made { IfOk result (λ out. out ≡ no_run (lines_of lines.now)) }
        ensures out { IfOk result (λ out. IsOutOf (lines_of lines.now) out) }
    {
        Ok(OutRun {
            taken: lines.lines().share()?,
            run: Run { first: 0, count: 0 },
            width: 0,
            wraps: Vec::new(alloc),
            places: Vec::new(alloc),
        })
    }

    /// The first lines that wait, cut at the width. `None` where no line waits.
    pub fn taken(
        alloc: Global,
        lines: &WrappedLines<L>,
        steps: &mut Steps,
    ) -> Result<Option<OutRun<L>>, NoMemory>
        requires fits { FitsU32 (lines_of lines.now) }
        requires lawful { IsWidth lines.now.width }
        ensures taken { IfOk result (λ out. IsTakenIfAny lines.now out) }
        ensures out { IfOk result (λ out. IfSome out (λ out. IsOutOf (lines_of lines.now) out)) }
        ensures counted { steps.old ≤ steps.new }
    {
        let Some(run) = lines.next_run(&[], steps) else {
            return Ok(None);
        };
        let taken = lines.lines().share()?;
        let width = lines.width();
        let wraps = wraps(alloc, lines.lines(), run, width)?;
        let places = places_from(alloc, run.first, run.count)?;
        Ok(Some(OutRun {
            taken,
            run,
            width,
            wraps,
            places,
        }))
    }

    /// The run.
    pub fn run(&self) -> Run
        ensures { result ≡ self.now.run }
    {
        self.run
    }

    /// The width at which it is cut, in cells.
    pub fn width(&self) -> u32
        ensures { result ≡ self.now.width }
    {
        self.width
    }

    /// The lines after those of the run that are still there were given their cuts, and which rows this replaced.
    /// `None` where the width isn't the one at which they were cut.
    pub fn land(
        &self,
        alloc: Global,
        lines: &WrappedLines<L>,
        steps: &mut Steps,
    ) -> Result<Option<Landed<L>>, NoMemory>
        requires out { IsOutOf (lines_of lines.now) self.now }
        ensures landed { IfOk result (λ made. MatchOption made (self.now.width ≢ lines.now.width)
            (λ made. IsLandedAt lines.now self.now.places made.lines made.rows)) }
        ensures width { IfOk result (λ made. IfSome made (λ _. self.now.width ≡ lines.now.width)) }
        ensures counted { steps.old ≤ steps.new }
    {
        if self.width != lines.width() {
            return Ok(None);
        }
        let landed = lines.landed(
            alloc,
            &self.taken,
            self.run,
            self.places.as_slice(),
            self.wraps.as_slice(),
            steps,
        )?;
        Ok(Some(landed))
    }

    /// Goes on to lines of which a run was replaced: its own lines that are still there stay at theirs.
    pub fn follow(&mut self, before: &WrappedLines<L>, now: &WrappedLines<L>, run: Shift)
        requires out { IsOutOf (lines_of before.now) self.old }
        requires leads { LeadsBy (lines_of before.now) (lines_of now.now) (Some run) }
        ensures moved { self.new ≡ record self.old { places = map (carried run) self.old.places } }
        ensures out { IsOutOf (lines_of now.now) self.new }
    {
        let (total, after) = (before.lines().lines(), now.lines().lines());
        carry(self.places.as_mut_slice(), run, total, after);
    }
}
