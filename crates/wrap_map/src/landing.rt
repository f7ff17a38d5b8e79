//! Lines that land, in groups of neighbours.
ghost use Rattle.std.specs.Prelude.{◌≡◌, ℕ, ◌+◌, ◌*◌, ◌^◌, ◌<◌, ◌≤◌, ◌↔◌, [], All, drop, length, map, sum_by, IfOk, IfSome, IsTrue, OnErr, OnOk};
ghost use Rattle.edit_patch.specs.Came.{carry_of};
ghost use Rattle.edit_patch.specs.Patch.{IsPatch};
ghost use Rattle.sum_tree.specs.Bounds.{TakesAtMost};
ghost use Rattle.wrap_map.specs.Bounds.{landing};
ghost use Rattle.wrap_map.specs.inside.Bounds.{PutsAtMost, closing, grouping, putting_run};
ghost use Rattle.cell_units.specs.Rows.{all_rows};
ghost use Rattle.edit_patch.specs.Fits.{Fits};
ghost use Rattle.wrap_map.specs.Landing.{cuts_of_run, standing_landed};
ghost use Rattle.wrap_map.specs.Standing.{StandSo, shown_rows, standing_of, stood_of};
ghost use Rattle.wrap_map.specs.inside.Landings.{FitBetween, IsLate, IsPut, CanClose, begun, carried, closed_if_any, edit_between, end_of, moved_to, taken};
ghost use Rattle.wrap_map.specs.Stood.{Stood, put_in, rows_in};
ghost use Rattle.wrap_map.specs.inside.Stretches.{spread};

use crate::stretch::Stretch;
use crate::stretches::Stretches;
use cell_line::{Cuts, Lines, Run};
use cell_units::{NoMemory, Steps};
use edit_patch::{Edit, Patch};
use std::alloc::Global;
use std::marker::Model;
use std::mem;

/// Lines with those that landed so far, and the edits of the rows that this replaced. Neighbours that land are one
/// group, which is put in place at once: the last one is open until a line lands elsewhere.
#[derive(Drop)]
pub struct Landing {
    stretches: Stretches,
    edits: Vec<Edit>,
    /// The first line of the open group.
    start: u32,
    fresh: Vec<Stretch>,
}

impl Model for Landing {
    ghost use Rattle.std.specs.Prelude.{◌≡◌, length};
    ghost use Rattle.wrap_map.specs.inside.Landings.{Landings};
    ghost use Rattle.wrap_map.specs.inside.Stretches.{spread};

    ghost Value = { Landings };

    ghost view = { λ l. let fresh = spread l.fresh.items in
        record { lines = l.stretches; edits = l.edits.items; start = l.start; fresh = fresh } };

    ghost invariant = { λ l. length (spread l.fresh.items) ≡ length l.fresh.items };
}

impl Landing {
    /// Lines of which none has landed.
    pub fn new(alloc: Global, stretches: Stretches) -> Landing
        ensures { result ≡ begun stretches }
    {
        Landing {
            stretches,
            edits: Vec::new(alloc),
            start: 0,
            fresh: Vec::new(alloc),
        }
    }

    /// A line of an old run lands, where `since` carries it to a present line.
    pub fn carry(
        &mut self,
        alloc: Global,
        before: &Stretches,
        since: &Patch,
        line: u32,
        mark: u32,
        cuts: &Cuts,
        steps: &mut Steps,
    ) -> Result<(), NoMemory>
        // The open group can be put in place, and the line, where it is still there, is no longer than a u32 counts.
        requires close { CanClose before.now self.old }
        requires present { IfSome (carry_of since.now line) (λ present. present < 2 ^ 32) }
        requires short { let count = length cuts.now.items in
            IfSome (carry_of since.now line) (λ _. count + 1 < 2 ^ 32) }

        // A line that is still there goes on with the open group, or closes it and begins another.
        ensures carried { let stood : Stood = record { mark = mark; cuts = cuts.now.items } in
            OnOk result (self.new ≡ carried before.now since.now line stood self.old) }

        // The work. Of each line in the open group four steps are kept until it is closed.
        ensures counted { steps.old ≤ steps.new }
        ensures steps { let waiting = length self.old.fresh in
            TakesAtMost (closing waiting) (length before.now) steps.old steps.new }
        ensures grouped { OnOk result (TakesAtMost grouping (length before.now)
            (steps.old + 4 * length self.old.fresh) (steps.new + 4 * length self.new.fresh)) }
    {
        match since.carry(line) {
            None => Ok(()),
            Some(line) => self.take(alloc, before, line, mark, cuts, steps),
        }
    }

    /// A line lands.
    fn take(
        &mut self,
        alloc: Global,
        before: &Stretches,
        line: u32,
        mark: u32,
        cuts: &Cuts,
        steps: &mut Steps,
    ) -> Result<(), NoMemory>
        // The open group can be put in place, and the line's rows are u32.
        requires close { CanClose before.now self.old }
        requires short { length cuts.now.items + 1 < 2 ^ 32 }

        // The line goes on with the open group, or closes it and begins another.
        ensures taken { let stood : Stood = record { mark = mark; cuts = cuts.now.items } in
            OnOk result (self.new ≡ taken before.now line stood self.old) }

        // The work. Of each line in the open group four steps are kept until it is closed.
        ensures counted { steps.old ≤ steps.new }
        ensures steps { let waiting = length self.old.fresh in
            TakesAtMost (closing waiting) (length before.now) steps.old steps.new }
        ensures grouped { OnOk result (TakesAtMost grouping (length before.now)
            (steps.old + 4 * length self.old.fresh) (steps.new + 4 * length self.new.fresh)) }
    {
        let stretch = Stretch::of_line(alloc, mark, cuts)?;
        self.move_to(alloc, before, line, steps)?;
        self.fresh.push(stretch)?;
        Ok(())
    }

    /// Makes the line the next of the open group, or the first of another.
    fn move_to(
        &mut self,
        alloc: Global,
        before: &Stretches,
        line: u32,
        steps: &mut Steps,
    ) -> Result<(), NoMemory>
        // The open group can be put in place.
        requires { CanClose before.now self.old }

        // Where the line is not the next of it, it is closed if it has a line.
        ensures moved { OnOk result (self.new ≡ moved_to before.now line self.old) }

        // The work: one group is closed at most, for which four steps of each of its lines are kept.
        ensures counted { steps.old ≤ steps.new }
        ensures steps { let waiting = length self.old.fresh in
            TakesAtMost (closing waiting) (length before.now) steps.old steps.new }
        ensures grouped { OnOk result ((h : ℕ) → length before.now < 2 * 6 ^ (h + 1) →
            steps.new + 4 * length self.new.fresh ≤
            steps.old + (4 * length self.old.fresh + closing 0 h)) }
    {
        if line == self.end() {
            return Ok(());
        }
        self.close(alloc, before, steps)?;
        self.start = line;
        Ok(())
    }

    /// After the open group.
    fn end(&self) -> u32
        requires { end_of self.now < 2 ^ 32 }
        ensures { result ≡ end_of self.now }
    {
        self.start + self.fresh.len() as u32
    }

    /// Puts the open group in place, where it has a line.
    fn close(
        &mut self,
        alloc: Global,
        before: &Stretches,
        steps: &mut Steps,
    ) -> Result<(), NoMemory>
        requires { CanClose before.now self.old }
        ensures closed { OnOk result (self.new ≡ closed_if_any before.now self.old) }
        ensures counted { steps.old ≤ steps.new }
        ensures steps { let waiting = length self.old.fresh in
            TakesAtMost (closing waiting) (length before.now) steps.old steps.new }
    {
        if self.fresh.is_empty() {
            return Ok(());
        }
        let start = self.start;
        let end = start + self.fresh.len() as u32;
        let fresh = mem::replace(&mut self.fresh, Vec::new(alloc));
        let edit = put_group(alloc, &mut self.stretches, before, start, end, fresh, steps)?;
        self.edits.push(edit)?;
        self.start = end;
        Ok(())
    }

    /// The lines with all that landed, and the patch that replaces their rows.
    pub fn finish(
        self,
        alloc: Global,
        before: &Stretches,
        steps: &mut Steps,
    ) -> Result<(Stretches, Patch), NoMemory>
        // The open group can be put in place.
        requires close { CanClose before.now self }
        requires patch { IsPatch (closed_if_any before.now self).edits }

        // It is, where it has a line.
        ensures lines { IfOk result (λ made. made.0 ≡ (closed_if_any before.now self).lines) }
        ensures edits { IfOk result (λ made. made.1 ≡ (closed_if_any before.now self).edits) }

        // The work.
        ensures counted { steps.old ≤ steps.new }
        ensures steps { let waiting = length self.fresh in
            TakesAtMost (closing waiting) (length before.now) steps.old steps.new }
    {
        let mut landing = self;
        landing.close(alloc, before, steps)?;
        let Landing {
            stretches,
            edits,
            ..
        } = landing;
        match Patch::of(edits) {
            Ok(patch) => Ok((stretches, patch)),
            Err(_) => unreachable!(),
        }
    }
}

/// Puts stretches in the place of the lines from `start` to `end`, and returns the edit that replaces their rows. From
/// `start` on all lines are wrapped as they were before any landed.
fn put_group(
    alloc: Global,
    lines: &mut Stretches,
    before: &Stretches,
    start: u32,
    end: u32,
    fresh: Vec<Stretch>,
    steps: &mut Steps,
) -> Result<Edit, NoMemory>
    // The group has a line for each that it replaces, all within the lines, and the rows then are u32.
    requires unlanded { drop start lines.old ≡ drop start before.now }
    requires group { start + length (spread fresh.items) ≡ end }
    requires within { end ≤ length lines.old }
    requires rows_fit { rows_in (put_in start end (spread fresh.items) lines.old) < 2 ^ 32 }

    // The group is in place, and the edit leads from the rows before any line landed. What stays if it is out of
    // memory.
    ensures put { OnOk result (lines.new ≡ put_in start end (spread fresh.items) lines.old) }
    ensures edit { IfOk result (λ edit. edit ≡ edit_between before.now lines.new start end) }
    ensures unchanged { OnErr result (lines.new ≡ lines.old) }

    // The work: two seeks, and one replacement of stretches.
    ensures counted { steps.old ≤ steps.new }
    ensures steps { PutsAtMost start end fresh.items lines.old steps.old steps.new }
{
    let all = lines.rows();
    let rows = lines.put(alloc, start, end, fresh, steps)?;
    // As many rows come after the group as before any line landed.
    let behind = all - rows.end;
    let old_end = before.rows() - behind;
    Ok(Edit {
        old_start: old_end - (rows.end - rows.start),
        old_end,
        new_start: rows.start,
        new_end: lines.rows() - behind,
    })
}

/// A run of old lines with the cuts that they have at a mark. `since` leads from the old lines to the present ones.
#[derive(Drop)]
pub struct LateRun<'a, N> {
    pub old: &'a N,
    pub since: &'a Patch,
    pub run: Run,
    pub mark: u32,
    pub wraps: &'a [Cuts],
}

/// The lines of a run that are still there, put at the mark with the cuts that the run's lines have there. Returns all
/// lines as they are wrapped then, and the patch that replaces the rows of those.
fn put_run<N: Lines>(
    alloc: Global,
    lines: &N,
    from: &Stretches,
    late: &LateRun<N>,
    steps: &mut Steps,
) -> Result<(Stretches, Patch), NoMemory>
    requires late { let lines = N.elements_by_line lines.now in let late = late.now in
        let old = N.elements_by_line late.old.now in
        let wraps = map (λ cuts. cuts.items) late.wraps.now in
        IsLate lines old from.now late.since.now late.run late.mark wraps }
    // All lists between have u32 rows.
    requires fits { let standing = standing_of (N.elements_by_line lines.now) from.now in
        let late = late.now in
        let landed = standing_landed late.since.now late.run late.mark standing in
        FitBetween from.now (stood_of landed) }
    ensures put { let standing = standing_of (N.elements_by_line lines.now) from.now in
        let late = late.now in
        IfOk result (λ made. IsPut standing late.since.now late.run late.mark made.0 made.1) }
    ensures counted { steps.old ≤ steps.new }
    ensures steps { let count = late.now.run.count in
        TakesAtMost (putting_run count) (length from.now) steps.old steps.new }
{
    // For the proof: the lines of the run are u32, and `since` is a patch.
    let _lines = late.old.lines();
    let _edits = late.since.edits();
    let wraps = late.wraps;
    let mut landing = Landing::new(alloc, from.share()?);
    for (place, cuts) in wraps.iter().enumerate() {
        let line = late.run.first + place as u32;
        landing.carry(alloc, from, late.since, line, late.mark, cuts, steps)?;
    }
    landing.finish(alloc, from, steps)
}

/// The same where only the rows at the end are known to be u32. Lines are put in one row each before they get the mark,
/// so rows fall before they rise. At no time are there more of them than before and after.
fn put_twice<N: Lines>(
    alloc: Global,
    lines: &N,
    from: &Stretches,
    late: &LateRun<N>,
    steps: &mut Steps,
) -> Result<(Stretches, Patch), NoMemory>
    // The run had these cuts at the mark, and `since` leads from then to now. All rows at the end are u32.
    requires late { let lines = N.elements_by_line lines.now in let late = late.now in
        let old = N.elements_by_line late.old.now in
        let wraps = map (λ cuts. cuts.items) late.wraps.now in
        IsLate lines old from.now late.since.now late.run late.mark wraps }
    requires rows_fit { let standing = standing_of (N.elements_by_line lines.now) from.now in
        let late = late.now in
        let landed = standing_landed late.since.now late.run late.mark standing in
        length (all_rows (shown_rows landed)) < 2 ^ 32 }

    // The lines that are still there have the mark, and the patch replaces exactly their rows.
    ensures put { let standing = standing_of (N.elements_by_line lines.now) from.now in
        let late = late.now in
        IfOk result (λ made. IsPut standing late.since.now late.run late.mark made.0 made.1) }

    // The work: the lines are put in one row each, and then in place, at most one by one.
    ensures counted { steps.old ≤ steps.new }
    ensures steps { let count = late.now.run.count in
        TakesAtMost (landing count) (length from.now) steps.old steps.new }
{
    let none = no_cuts(alloc, late.run.count)?;
    let uncut = LateRun {
        old: late.old,
        since: late.since,
        run: late.run,
        mark: 0,
        wraps: none.as_slice(),
    };
    let (cleared, falls) = put_run(alloc, lines, from, &uncut, steps)?;
    let (landed, rises) = put_run(alloc, lines, &cleared, late, steps)?;
    let patch = falls.compose(alloc, &rises)?;
    Ok((landed, patch))
}

/// Whether all rows are u32 even if one is added for each cut that lands and none is taken off.
fn may_rise(from: &Stretches, wraps: &[Cuts]) -> bool
    ensures { let added = sum_by (λ cuts. length cuts.items) wraps.now in
        IsTrue result ↔ (rows_in from.now + added < 2 ^ 32) }
{
    let mut rows = from.rows() as u64;
    for cuts in wraps {
        rows = rows.saturating_add(cuts.len() as u64);
    }
    rows <= u32::MAX as u64
}

/// The lines of a run that are still there, put at once where there is room for all rows that are added, and else
/// twice.
pub fn put_landed<N: Lines>(
    alloc: Global,
    lines: &N,
    from: &Stretches,
    late: &LateRun<N>,
    steps: &mut Steps,
) -> Result<(Stretches, Patch), NoMemory>
    // The run had these cuts at the mark, and `since` leads from then to now. All rows at the end are u32.
    requires late { let lines = N.elements_by_line lines.now in let late = late.now in
        let old = N.elements_by_line late.old.now in
        let wraps = map (λ cuts. cuts.items) late.wraps.now in
        IsLate lines old from.now late.since.now late.run late.mark wraps }
    requires rows_fit { let standing = standing_of (N.elements_by_line lines.now) from.now in
        let late = late.now in
        let landed = standing_landed late.since.now late.run late.mark standing in
        length (all_rows (shown_rows landed)) < 2 ^ 32 }

    // Other lines are wrapped as before, and the patch replaces exactly the rows of those that landed.
    ensures put { let standing = standing_of (N.elements_by_line lines.now) from.now in
        let late = late.now in
        IfOk result (λ made. IsPut standing late.since.now late.run late.mark made.0 made.1) }

    // The work: each line of the run is put twice at most.
    ensures counted { steps.old ≤ steps.new }
    ensures steps { let count = late.now.run.count in
        TakesAtMost (landing count) (length from.now) steps.old steps.new }
{
    // For the proof: `since` is a patch.
    let _edits = late.since.edits();
    if may_rise(from, late.wraps) {
        put_run(alloc, lines, from, late, steps)
    } else {
        put_twice(alloc, lines, from, late, steps)
    }
}

/// So many empty lists of cuts.
fn no_cuts(alloc: Global, count: u32) -> Result<Vec<Cuts>, NoMemory>
    ensures count { IfOk result (λ wraps. length wraps.items ≡ count) }
    ensures empty { IfOk result (λ wraps. All (λ cuts. cuts.items ≡ []) wraps.items) }
{
    let mut wraps = Vec::new(alloc);
    for _ in 0..count {
        wraps.push(Cuts::new(alloc))?;
    }
    Ok(wraps)
}
