//! The stops of one side: where the rows of its blocks are between the rows of text.
ghost use Rattle.std.specs.Prelude.{ℕ, ◌↔◌, true, OnOk, OnErr, IfSome, MatchOption, ◌≡◌, ◌+◌, ◌<◌, ◌≤◌, ◌^◌, [], None, Some, length, map, slice_get, slice_index_or, take, IfOk};
ghost use Rattle.cell_units.specs.declared.place.Bias.TheVariants.{Left, Right};
ghost use Rattle.sum_tree.specs.Bounds.{TakesAtMost, way};
ghost use Rattle.block_map.specs.Bounds.{both_ways, inserting, putting};
ghost use Rattle.block_map.specs.RowCounts.{no_rows};
ghost use Rattle.block_map.specs.Stops.{Stop, all_stop_rows, rows_upto, stands_before, texts_at};
ghost use Rattle.block_map.specs.inside.RowMoves.{AreClear, moved_stop};
ghost use Rattle.block_map.specs.inside.StopLists.{AreRising, MayBePut, StopsFit, last_row, stop_with, with_stop, without_stop};

use crate::block_lines::BlockLines;
use crate::row_count::{ByRows, RowCount};
use cell_units::{Bias, NoMemory, Shift, Steps, Text};
use mark_tree::Places;
use splice_tree::{Splice, SpliceTree};
use std::alloc::Global;
use std::marker::Model;
use sum_core::Summary;

/// Where the rows of blocks are between rows of text. Contracts see a list of stops, whose rows don't fall.
pub(crate) struct Stops {
    splices: SpliceTree<RowCount, BlockLines>,
}

impl Drop for Stops {
    fn drop(self) {
        let Stops { splices: _ } = self;
    }
}

impl Model for Stops {
    ghost use Rattle.std.specs.Prelude.{List};
    ghost use Rattle.block_map.specs.Stops.{Stop};
    ghost use Rattle.block_map.specs.inside.StopLists.{AreStopPieces, stops_from};

    ghost Value = { List Stop };

    ghost view = { λ s. stops_from 0 s.splices };

    ghost invariant = { λ s. AreStopPieces s.splices };
}

impl Stops {
    /// No stop. It takes no memory.
    pub(crate) fn new(alloc: Global) -> Stops
        ensures { result ≡ [] }
    {
        Stops {
            splices: SpliceTree::new(alloc),
        }
    }

    /// Equal stops, which no later change of these reaches.
    pub(crate) fn share(&self) -> Result<Stops, NoMemory>
        ensures { IfOk result (λ s. s ≡ self.now) }
    {
        Ok(Stops {
            splices: self.splices.share()?,
        })
    }

    /// How many rows all stops have.
    pub(crate) fn all_rows(&self) -> u32
        ensures { result ≡ all_stop_rows self.now }
    {
        let sum = self.splices.sum();
        sum.upper.rows - sum.lower.rows
    }

    /// How many rows the stops have that are before a place between rows of text.
    pub(crate) fn rows_upto(&self, row: u32, bias: Bias, steps: &mut Steps) -> u32
        ensures rows { result ≡ rows_upto bias row self.now }
        ensures counted { steps.old ≤ steps.new }
        ensures steps { TakesAtMost way (length self.now) steps.old steps.new }
    {
        self.first_behind(row, bias, steps).rows
    }

    /// How many rows the stops after so many rows of text have. `before` is how many the stops before them have.
    pub(crate) fn rows_at(&self, row: u32, before: u32, steps: &mut Steps) -> u32
        requires { before ≡ rows_upto Left row self.now }
        ensures count { result ≡ length (texts_at row self.now) }
        ensures counted { steps.old ≤ steps.new }
        ensures steps { TakesAtMost way (length self.now) steps.old steps.new }
    {
        self.rows_upto(row, Bias::Right, steps) - before
    }

    /// The end of the text rows after one between which there is no stop. It is the row of the next stop, or `limit`
    /// where that is before it.
    pub(crate) fn clear_to(&self, row: u32, limit: u32, steps: &mut Steps) -> u32
        // The limit is after the row.
        requires { row < limit }

        // An end after the row and not after the limit, with no stop between.
        ensures some { row < result }
        ensures within { result ≤ limit }
        ensures clear { (t : ℕ) → row < t → t < result → texts_at t self.now ≡ [] }

        // The work: one way down.
        ensures counted { steps.old ≤ steps.new }
        ensures steps { TakesAtMost way (length self.now) steps.old steps.new }
    {
        // For the proof: rows of stops don't fall.
        let _count = self.len();
        match self.first_behind(row, Bias::Right, steps).row {
            None => limit,
            Some(next) => next.min(limit as u64) as u32,
        }
    }

    /// The text of a row of the stops after so many rows of text. `before` is how many rows the stops before them have.
    pub(crate) fn text_at(&self, row: u32, before: u32, at: u32, steps: &mut Steps) -> &Text
        // The stops there have such a row, and the count before them is right.
        requires there { at < length (texts_at row self.now) }
        requires before { before ≡ rows_upto Left row self.now }

        // The rows of all stops that are there are counted together.
        ensures text { slice_get (texts_at row self.now) at ≡ Some result.now }

        // The work: one way down.
        ensures counted { steps.old ≤ steps.new }
        ensures steps { TakesAtMost way (length self.now) steps.old steps.new }
    {
        let target = row as u64 + before as u64 + at as u64;
        let found = self
            .splices
            .find_upper::<ByRows>(target, Bias::Right, steps);
        match found.splice {
            None => unreachable!(),
            Some(splice) => {
                let behind = target - found.before.upper.rows as u64 - splice.gap().rows as u64;
                splice.load().get(behind as usize)
            }
        }
    }
}

impl Stops {
    /// The number of stops. Their rows don't fall.
    pub(crate) fn len(&self) -> u32
        ensures len { result ≡ length self.now }
        ensures rising { AreRising 0 self.now }
    {
        self.splices.len()
    }

    /// The row of the stop before that of an index, or 0 where none is before it.
    pub(crate) fn row_before(&self, at: u32, steps: &mut Steps) -> u32
        requires { at ≤ length self.now }
        ensures row { result ≡ last_row 0 (take at self.now) }
        ensures counted { steps.old ≤ steps.new }
        ensures steps { TakesAtMost way (length self.now) steps.old steps.new }
    {
        self.splices.find_at(at, steps).before.lower.rows
    }

    /// Puts a stop before that of an index, or after all.
    pub(crate) fn insert(
        &mut self,
        alloc: Global,
        at: u32,
        row: u32,
        lines: BlockLines,
        steps: &mut Steps,
    ) -> Result<(), NoMemory>
        // Its row lies between those of its neighbours, and all rows together stay a u32.
        requires { MayBePut self.old at (stop_with row lines) }

        // The stops with it, or as they were.
        ensures ok { OnOk result (self.new ≡ with_stop at (stop_with row lines) self.old) }
        ensures unchanged { OnErr result (self.new ≡ self.old) }

        // The work: its neighbours are looked up, and one replacement is made.
        ensures counted { steps.old ≤ steps.new }
        ensures steps { TakesAtMost putting (length self.old + 1) steps.old steps.new }
    {
        let found = self.splices.find_at(at, steps);
        let before = found.before.lower.rows;
        let gap = gap_behind(found.splice, before, row);
        let mut fresh = Vec::with_capacity(alloc, 1)?;
        fresh.push(splice_of(row - before, lines))?;
        self.splices.replace(alloc, at, at, fresh, gap, steps)
    }

    /// These with one more before that of an index, at the same row and without lines.
    pub(crate) fn with_none(
        &self,
        alloc: Global,
        at: u32,
        steps: &mut Steps,
    ) -> Result<Stops, NoMemory>
        // The index is a stop's or the end, one more stop is a u32 still, and so are all rows together.
        requires within { at ≤ length self.now }
        requires room { length self.now + 1 < 2 ^ 32 }
        requires fit { StopsFit self.now }

        // It is at the row of the one before it, or at 0, and adds no row.
        ensures ok { let row = last_row 0 (take at self.now) in
            IfOk result (λ stops. stops ≡ with_stop at (stop_with row []) self.now) }
        ensures fits { IfOk result StopsFit }

        // The work: the row is looked up, and one stop is put in.
        ensures counted { steps.old ≤ steps.new }
        ensures steps { TakesAtMost inserting (length self.now + 1) steps.old steps.new }
    {
        // For the proof: rows of stops don't fall.
        let _count = self.len();
        let row = self.row_before(at, steps);
        let mut next = self.share()?;
        next.insert(alloc, at, row, BlockLines::none(alloc)?, steps)?;
        Ok(next)
    }

    /// These without that of an index.
    pub(crate) fn without(
        &self,
        alloc: Global,
        at: u32,
        steps: &mut Steps,
    ) -> Result<Stops, NoMemory>
        // There is a stop of that index, and all rows together are a u32.
        requires within { at < length self.now }
        requires fit { StopsFit self.now }

        // The others stay at their rows, and still fit a u32.
        ensures ok { IfOk result (λ stops. stops ≡ without_stop at self.now) }
        ensures fits { IfOk result StopsFit }

        // The work: one stop is taken out.
        ensures counted { steps.old ≤ steps.new }
        ensures steps { TakesAtMost putting (length self.now) steps.old steps.new }
    {
        // For the proof: rows of stops don't fall.
        let _count = self.len();
        let mut next = self.share()?;
        next.remove(alloc, at, steps)?;
        Ok(next)
    }

    /// Takes out the stop of an index.
    pub(crate) fn remove(
        &mut self,
        alloc: Global,
        at: u32,
        steps: &mut Steps,
    ) -> Result<(), NoMemory>
        // It is there, and all rows together are a u32.
        requires within { at < length self.old }
        requires fit { StopsFit self.old }

        // The stops without it, or as they were.
        ensures ok { OnOk result (self.new ≡ without_stop at self.old) }
        ensures unchanged { OnErr result (self.new ≡ self.old) }

        // The work: its neighbours are looked up, and one replacement is made.
        ensures counted { steps.old ≤ steps.new }
        ensures steps { TakesAtMost putting (length self.old) steps.old steps.new }
    {
        let row = self.splices.find_at(at, steps).before.lower.rows;
        let found = self.splices.find_at(at + 1, steps);
        let gap = gap_behind(found.splice, found.before.lower.rows, row);
        self.splices
            .replace(alloc, at, at + 1, Vec::new(alloc), gap, steps)
    }
}

impl Stops {
    /// How many rows the stops before a place between rows of text have. And which places near it have the same stops
    /// before them. One way down finds all of it.
    pub(crate) fn look(&self, row: u32, bias: Bias, steps: &mut Steps) -> Look
        ensures rows { result.rows ≡ rows_upto bias row self.now }
        ensures same { (t : ℕ) → result.from ≤ t → t < result.to →
            rows_upto bias t self.now ≡ result.rows }
        ensures counted { steps.old ≤ steps.new }
        ensures steps { TakesAtMost way (length self.now) steps.old steps.new }
    {
        // For the proof: rows of stops don't fall.
        let _count = self.len();
        let found = self.first_behind(row, bias, steps);
        let next = found.row.unwrap_or(ROWS_END).min(ROWS_END);
        Look {
            rows: found.rows,
            from: first_place(found.before as u64, bias),
            to: first_place(next, bias),
        }
    }

    /// The first stop that isn't before a place between rows of text, or the end of all.
    fn first_behind(&self, row: u32, bias: Bias, steps: &mut Steps) -> FirstStop
        // How many rows the stops before it have, and the row of text of the last of these.
        ensures within { result.index ≤ length self.now }
        ensures rows { result.rows ≡ rows_upto bias row self.now }
        ensures before { result.before ≡ last_row 0 (take result.index self.now) }

        // Exactly the stops before its index are before the place. It has a row unless it is the end.
        ensures place { (k : ℕ) (s : Stop) → slice_get self.now k ≡ Some s →
            (k < result.index) ↔ (stands_before bias row s ≡ true) }
        ensures row { (d : Stop) →
            MatchOption result.row (length self.now ≤ result.index)
            (λ r. (slice_index_or self.now result.index d).row ≡ r) }

        // The work: one way down.
        ensures counted { steps.old ≤ steps.new }
        ensures steps { TakesAtMost way (length self.now) steps.old steps.new }
    {
        let found = self.splices.find_lower::<ByRows>(row as u64, bias, steps);
        FirstStop {
            index: found.index,
            rows: found.before.upper.rows - found.before.lower.rows,
            before: found.before.lower.rows,
            row: row_in(found.splice, found.before.lower.rows),
        }
    }

    /// The places of the stops from a row through another one, which isn't before it. One look shows where there is
    /// none.
    pub(crate) fn places_through(&self, first: u32, last: u32, steps: &mut Steps) -> Places
        // The rows are in order.
        requires { first ≤ last }

        // Before `from` are exactly the stops of lesser rows than the first, before `to` those of rows up to the last.
        ensures within { result.to ≤ length self.now }
        ensures from { (k : ℕ) (s : Stop) → slice_get self.now k ≡ Some s →
            (k < result.from) ↔ (stands_before Left first s ≡ true) }
        ensures to { (k : ℕ) (s : Stop) → slice_get self.now k ≡ Some s →
            (k < result.to) ↔ (stands_before Right last s ≡ true) }

        // The work: at most one way down for each end.
        ensures counted { steps.old ≤ steps.new }
        ensures steps { TakesAtMost both_ways (length self.now) steps.old steps.new }
    {
        // For the proof: rows of stops don't fall.
        let _count = self.len();
        let found = self.first_behind(first, Bias::Left, steps);
        let from = found.index;
        let Some(row) = found.row else {
            return Places { from, to: from };
        };
        if row > last as u64 {
            return Places { from, to: from };
        }
        let to = self.first_behind(last, Bias::Right, steps).index;
        Places { from, to }
    }

    /// Moves the stops that aren't before the end of replaced rows of text, as the replacement moves the rows there. At
    /// the end itself a stop is before it by Right, and not by Left.
    pub(crate) fn move_behind(
        &mut self,
        alloc: Global,
        bias: Bias,
        rows: Shift,
        steps: &mut Steps,
    ) -> Result<(), NoMemory>
        // No stop is among the replaced rows, and after it all rows together are a u32.
        requires clear { AreClear bias rows.start rows.end self.old }
        requires fits { StopsFit (map (moved_stop bias rows.start rows.end rows.count) self.old) }

        // The stops before the end stay where they are. Where there is no memory, all do.
        ensures ok { OnOk result
            (self.new ≡ map (moved_stop bias rows.start rows.end rows.count) self.old) }
        ensures unchanged { OnErr result (self.new ≡ self.old) }

        // The work: the first stop that moves is found, and its gap is changed.
        ensures counted { steps.old ≤ steps.new }
        ensures steps { TakesAtMost putting (length self.old) steps.old steps.new }
    {
        let found = self
            .splices
            .find_lower::<ByRows>(rows.end as u64, bias, steps);
        match found.splice {
            None => Ok(()),
            Some(splice) => {
                let kept = splice.gap().rows - (rows.end - rows.start);
                let gap = RowCount {
                    rows: kept + rows.count,
                };
                let at = found.index;
                self.splices
                    .replace(alloc, at, at, Vec::new(alloc), gap, steps)
            }
        }
    }
}

/// More than there can be rows of text.
const ROWS_END: u64 = u32::MAX as u64 + 1;

/// How many rows the stops before a place between rows of text have. From one place up to another these are all the
/// stops.
#[derive(Clone, Copy)]
pub(crate) struct Look {
    pub(crate) rows: u32,
    pub(crate) from: u64,
    pub(crate) to: u64,
}

/// A place among stops, with how many rows those before it have. It has the row of text of the last of them, or 0 where
/// there is none. And it has that of the stop there, if there is one.
#[derive(Clone, Copy)]
struct FirstStop {
    index: u32,
    rows: u32,
    before: u32,
    row: Option<u64>,
}

/// The first place between rows of text that has a stop of a row before it.
fn first_place(row: u64, bias: Bias) -> u64
    requires { row < u64.MAX }
    ensures { (t : ℕ) (s : Stop) → s.row ≡ row → (result ≤ t) ↔ (stands_before bias t s ≡ true) }
{
    match bias {
        Bias::Left => row + 1,
        Bias::Right => row,
    }
}

/// How many rows of text are before the stop of a splice, if there is one: it has `before` and its gap.
fn row_in(splice: Option<&Splice<RowCount, BlockLines>>, before: u32) -> Option<u64>
    ensures { MatchOption splice.entry (result ≡ None) (λ p.
        result ≡ Some (before + p.now.gap.rows)) }
{
    match splice {
        None => None,
        Some(splice) => Some(before as u64 + splice.gap().rows as u64),
    }
}

/// The splice of a block's lines after so many rows of text.
fn splice_of(gap: u32, lines: BlockLines) -> Splice<RowCount, BlockLines>
    requires { gap + length lines < 2 ^ 32 }
    ensures { result ≡ record { gap = record { rows = gap }; old = no_rows; new = record { rows = length lines }; load = lines } }
{
    let rows = lines.len() as u32;
    Splice::new(
        RowCount { rows: gap },
        RowCount::zero(),
        RowCount { rows },
        lines,
    )
}

/// The gap that a splice has after a row, if there is one: it has another one after `before` rows of text.
fn gap_behind(splice: Option<&Splice<RowCount, BlockLines>>, before: u32, row: u32) -> RowCount
    requires { IfSome splice (λ p.
        (row ≤ before + p.now.gap.rows) × (before + p.now.gap.rows < 2 ^ 32)) }
    ensures { IfSome splice.entry (λ p. row + result.rows ≡ before + p.now.gap.rows) }
{
    match splice {
        None => RowCount::zero(),
        Some(splice) => RowCount {
            rows: before + splice.gap().rows - row,
        },
    }
}
