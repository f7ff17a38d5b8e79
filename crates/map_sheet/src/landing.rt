//! A landing of lines that were wrapped elsewhere.
ghost use Rattle.std.specs.Prelude.{◌≡◌, ◌≤◌, length, IfOk};
ghost use Rattle.plain_rows.specs.Reach.{LandsAtMost, blocks_at_lines};
ghost use Rattle.plain_rows.specs.Rows.{line_elements};
ghost use Rattle.display_sheet.specs.Landing.{lists_of, with_landed_lines};
ghost use Rattle.kept_sheet.specs.Kept as kept;
ghost use Rattle.kept_sheet.specs.Kept.{AreLinesAt, IsRising, cuts_in, placed_lines, standing};
ghost use Rattle.wrapped_lines.specs.Changed.{IsLandedAt};
ghost use Rattle.map_sheet.specs.Bounds.{ShowsAtMost};
ghost use Rattle.map_sheet.specs.Kept.{lines_in};

use crate::sheet::{Held, Layered, MapSheet};
use blocked_rows::{blocked_laws, followed_laws};
use cell_line::{Cuts, Run};
use cell_units::{NoMemory, Rows, Steps};
use std::alloc::Global;
use wrapped_lines::Landed;

impl MapSheet {
    /// The sheet after lines of a run landed: each place has the line that one of them is now, if it is still there.
    pub(crate) fn land_run(
        &self,
        alloc: Global,
        old: &Held,
        run: Run,
        places: &[Option<u32>],
        wraps: &[Cuts],
        steps: &mut Steps,
    ) -> Result<MapSheet, NoMemory>
        requires lines { AreLinesAt (line_elements self.now) places.now
            (kept.lines_in old.now run) }
        requires rising { IsRising 0 (standing places.now) }
        requires wraps { lists_of wraps.now ≡ cuts_in old.now run self.now.width }
        ensures landed { IfOk result (λ sheet.
            sheet ≡ with_landed_lines self.now.width places.now self.now) }
        ensures counted { steps.old ≤ steps.new }
        ensures steps { let lines = placed_lines places.now self.now in
            LandsAtMost run.count lines self.now steps.old steps.new }
    {
        let made = self
            .wrapped()
            .landed(alloc, old, run, places, wraps, steps)?;
        self.relanded(alloc, made, places, steps)
    }

    /// The same, with the blocks between the rows that are there now.
    fn relanded(
        &self,
        alloc: Global,
        made: Landed<Layered>,
        places: &[Option<u32>],
        steps: &mut Steps,
    ) -> Result<MapSheet, NoMemory>
        requires { IsLandedAt (lines_in self.now) places.now made.lines made.rows }
        ensures landed { IfOk result (λ sheet.
            sheet ≡ with_landed_lines self.now.width places.now self.now) }
        ensures counted { steps.old ≤ steps.new }
        ensures steps { let anew = blocks_at_lines (placed_lines places.now self.now) self.now in
            ShowsAtMost anew (length places.now) self.now steps.old steps.new }
    {
        // For the proof: the record is lawful, the blocks at their lines show the rows of the record, and the
        // blocks may be given this change.
        self.lawful();
        blocked_laws();
        followed_laws();
        let _places = places;
        let rows = Rows::share(made.lines.rows())?;
        let layer = self.text().layer();
        let blocks = self
            .blocked()
            .after(alloc, layer, None, rows, &made.rows, steps)?;
        let text = self.text_share()?;
        MapSheet::assembled(alloc, text, made.lines, blocks)
    }
}
