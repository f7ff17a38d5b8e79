//! The map from lines to rows.
ghost use Rattle.std.specs.Prelude.{◌≡◌, ◌+◌, ◌^◌, ◌<◌, ◌≤◌, ◌==◌, [], length, map, IfErr, IfOk, IfSome, OnErr, OnOk};
ghost use Rattle.std.specs.List.{list_all};
ghost use Rattle.cell_line.specs.Lines.{FitsU32};
ghost use Rattle.cell_units.specs.Lawful.{IsWidth};
ghost use Rattle.cell_units.specs.Rows.{all_rows};
ghost use Rattle.edit_patch.specs.Fits.{Fits};
ghost use Rattle.sum_tree.specs.Bounds.{ChangesAtMost, TakesAtMost};
ghost use Rattle.wrap_map.specs.Bounds.{beginning, finding, landing, syncing};
ghost use Rattle.edit_patch.specs.Leads.{LeadsBy};
ghost use Rattle.wrap_map.specs.Items.{items_of};
ghost use Rattle.wrap_map.specs.Landing.{IsLanded, cuts_of_run, standing_landed};
ghost use Rattle.wrap_map.specs.Standing.{HasRoom, IsSynced, all_at, shown_rows, standing_after};
ghost use Rattle.cell_line.specs.Waiting.{AreApart, IsNextIfAny};

use crate::landing::{LateRun, put_landed};
use crate::replacing::replaced_if_any;
use crate::snapshot::WrapSnapshot;
use crate::stretches::Stretches;
use crate::waiting::next_run;
use cell_line::{Cuts, Lines, Run};
use cell_units::limits::{LEAST_WIDTH, WIDTH_LIMIT};
use cell_units::{NoMemory, Refusal, Shift, Steps};
use edit_patch::Patch;
use std::alloc::Global;
use std::marker::Model;

/// Lines as they are wrapped, and the width at which they are to be wrapped.
pub struct WrapMap<N: Lines> {
    lines: N,
    stretches: Stretches,
    width: u32,
}

impl<N: Lines> Drop for WrapMap<N> {
    fn drop(self) {
        let WrapMap {
            lines: _,
            stretches: _,
            width: _,
        } = self;
    }
}

impl<N: Lines> Model for WrapMap<N> {
    ghost use Rattle.cell_units.specs.Lawful.{IsWidth};
    ghost use Rattle.wrap_map.specs.Standing.{StandSo, Wrapped, standing_of};

    ghost Value = { Wrapped };

    ghost view = { λ m. let standing = standing_of (N.elements_by_line m.lines) m.stretches in
        record { standing = standing; width = m.width } };

    ghost invariant = { λ m. StandSo (N.elements_by_line m.lines) m.stretches × IsWidth m.width };
}

impl<N: Lines> WrapMap<N> {
    /// A map of lines that are in one row each, and are to be wrapped at a width in cells.
    pub fn new(
        alloc: Global,
        lines: N,
        width: u32,
        steps: &mut Steps,
    ) -> Result<WrapMap<N>, NoMemory>
        // The width is lawful, and the lines and their cells are u32.
        requires lawful { IsWidth width }
        requires fits { FitsU32 (N.elements_by_line lines) }

        // All lines are at mark 0, whatever the width.
        ensures made { let standing = all_at 0 (N.elements_by_line lines) in
            IfOk result (λ map. map ≡ record { standing = standing; width = width }) }

        // The work: a tree of one stretch is made.
        ensures counted { steps.old ≤ steps.new }
        ensures steps { steps.new ≤ steps.old + beginning }
    {
        let stretches = Stretches::new(alloc, lines.lines(), steps)?;
        Ok(WrapMap {
            lines,
            stretches,
            width,
        })
    }

    /// Sets the width in cells at which the lines are to be wrapped. `BadNumber` where it is neither 0 nor 2 to 10,000.
    pub fn set_width(&mut self, width: u32) -> Result<(), Refusal>
        // A lawful width is set, and how the lines are wrapped stays.
        ensures set { OnOk result (self.new ≡ record self.old { width = width }) }
        ensures accepted { OnOk result (IsWidth width) }

        // Why it is refused, and what stays then.
        ensures refused { OnErr result (¬ IsWidth width) }
        ensures refusal { IfErr result (λ refusal. refusal ≡ Refusal.BadNumber) }
        ensures unchanged { OnErr result (self.new ≡ self.old) }
    {
        if width != 0 && (width < LEAST_WIDTH || width > WIDTH_LIMIT) {
            return Err(Refusal::BadNumber);
        }
        self.width = width;
        Ok(())
    }

    /// The lines as they are now, and the rows that were replaced, both counted from 0. The lines that `below` replaced
    /// are in one row each, and all others are wrapped as they were.
    pub fn sync(
        &mut self,
        alloc: Global,
        lines: N,
        below: Option<Shift>,
        steps: &mut Steps,
    ) -> Result<(WrapSnapshot<N>, Option<Shift>), NoMemory>
        // The replacement leads from the lines that the map has to the new ones, which have u32 rows.
        requires leads { LeadsBy self.old.standing.lines (N.elements_by_line lines) below }
        requires room { let now = N.elements_by_line lines in
            HasRoom (standing_after self.old.standing now below) }

        // The lines, and the rows of those that were replaced.
        ensures synced { let now = N.elements_by_line lines in
            IfOk result (λ made. IsSynced self.old now below self.new made.0 made.1) }
        ensures unchanged { OnErr result (self.new ≡ self.old) }

        // The work.
        ensures counted { steps.old ≤ steps.new }
        ensures steps { let before = length self.old.standing.lines in
            ChangesAtMost syncing before (length (N.elements_by_line lines)) steps.old steps.new }
    {
        let (stretches, rows) = replaced_if_any(alloc, &self.stretches, below, steps)?;
        let snapshot = WrapSnapshot {
            lines: lines.share()?,
            stretches: stretches.share()?,
        };
        self.lines = lines;
        self.stretches = stretches;
        Ok((snapshot, rows))
    }

    /// The first line that isn't wrapped at the width and that no run of `out` has. With it come the lines after it of
    /// the same kind, up to 128. `None` exactly where there is no such line.
    pub fn next_run(&self, out: &[Run], steps: &mut Steps) -> Option<Run>
        // Each run that is out ends before all later ones begin.
        requires { AreApart out.now }

        // All lines of the run wait, none before them does, and they are lines of the map.
        ensures next { IsNextIfAny self.now.standing.marks self.now.width out.now result }
        ensures within { let lines = self.now.standing.lines in
            IfSome result (λ run. run.first + run.count ≤ length lines) }

        // The work: the runs that are out are passed over, and the lines of the next one are looked at.
        ensures counted { steps.old ≤ steps.new }
        ensures steps { let lines = self.now.standing.lines in
            TakesAtMost (finding (length out.now)) (length lines) steps.old steps.new }
    {
        next_run(&self.stretches, self.width, out, steps)
    }

    /// Gives each line that `since` carries from the run its cuts and mark, and returns the rows that were replaced.
    /// Where the width isn't the present one, nothing changes. Rows and lines are counted from 0.
    pub fn land(
        &mut self,
        alloc: Global,
        old: &N,
        since: &Patch,
        run: Run,
        width: u32,
        wraps: &[Cuts],
        steps: &mut Steps,
    ) -> Result<Patch, NoMemory>
        // The lines of the run were there, `since` leads from then to now, and these are their cuts at the width.
        requires since { Fits since.now (N.elements_by_line old.now) self.old.standing.lines }
        requires within { run.first + run.count ≤ length (N.elements_by_line old.now) }
        requires wraps { let lines = N.elements_by_line old.now in
            map (λ cuts. cuts.items) wraps.now ≡ cuts_of_run lines run width }
        requires rows_fit { width ≡ self.old.width →
            let landed = standing_landed since.now run width self.old.standing in
            length (all_rows (shown_rows landed)) < 2 ^ 32 }

        // At the present width the lines that the run still has are wrapped at it; at another nothing changes. The
        // patch has no more edits than the run has lines.
        ensures landed { width ≡ self.old.width →
            IfOk result (IsLanded self.old since.now run self.new) }
        ensures other_width { (width ≡ self.old.width → ⊥) → IfOk result (λ patch. patch ≡ []) }
        ensures kept { (width ≡ self.old.width → ⊥) → self.new ≡ self.old }
        ensures few { IfOk result (λ patch. length patch ≤ run.count) }
        ensures unchanged { OnErr result (self.new ≡ self.old) }

        // The work.
        ensures counted { steps.old ≤ steps.new }
        ensures steps { let lines = self.old.standing.lines in
            TakesAtMost (landing run.count) (length lines) steps.old steps.new }
    {
        if width != self.width {
            return Ok(Patch::none(alloc));
        }
        // For the proof: `since` is a patch.
        let _edits = since.edits();
        let late = LateRun {
            old,
            since,
            run,
            mark: width,
            wraps,
        };
        let (stretches, patch) = put_landed(alloc, &self.lines, &self.stretches, &late, steps)?;
        self.stretches = stretches;
        Ok(patch)
    }

    /// Whether every line is wrapped at the width.
    pub fn is_settled(&self) -> bool
        ensures { result ≡ list_all (λ mark. mark == self.now.width) self.now.standing.marks }
    {
        self.stretches.are_at(self.width)
    }

    /// The lines as they are wrapped. It allocates nothing, and fails with `NoMemory` only where the count of holders
    /// is full.
    pub fn snapshot(&self) -> Result<WrapSnapshot<N>, NoMemory>
        ensures { IfOk result (λ snapshot. snapshot ≡ self.now.standing) }
    {
        Ok(WrapSnapshot {
            lines: self.lines.share()?,
            stretches: self.stretches.share()?,
        })
    }

    /// An equal map. It allocates nothing, and fails with `NoMemory` only where the count of holders is full.
    pub fn share(&self) -> Result<WrapMap<N>, NoMemory>
        ensures { IfOk result (λ shared. shared ≡ self.now) }
    {
        Ok(WrapMap {
            lines: self.lines.share()?,
            stretches: self.stretches.share()?,
            width: self.width,
        })
    }

    /// How many items the map keeps: each line with cuts is one, and so is each maximal run of lines without cuts at
    /// one mark.
    pub fn items(&self) -> u32
        ensures { result ≡ items_of self.now.standing }
    {
        self.stretches.items()
    }
}
