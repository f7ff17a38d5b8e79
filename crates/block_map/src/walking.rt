//! Rows of lines one after another, with those of the blocks between them.
ghost use Rattle.std.specs.Prelude.{◌≡◌, ◌+◌, ◌-◌, ◌*◌, ◌^◌, ◌<◌, ◌≤◌, ◌++◌, IfOk, OnErr, OnOk, drop, length, map, take};
ghost use Rattle.cell_units.specs.declared.place.Bias.TheVariants.{Left};
ghost use Rattle.cell_units.specs.Rows.{all_rows};
ghost use Rattle.sum_tree.specs.Bounds.{TakesAtMost, way};
ghost use Rattle.block_map.specs.Between.{block_row, rows_between};
ghost use Rattle.block_map.specs.Bounds.{TakesBetween, both_ways, walking};
ghost use Rattle.plain_rows.specs.ShownRows.{shown_rows};
ghost use Rattle.block_map.specs.Stops.{rows_upto, texts_at};
ghost use Rattle.block_map.specs.inside.Seekings.{IsPlace};
ghost use Rattle.block_map.specs.inside.Zones.{IsClear, IsInZone, texts_of_kinds};

use crate::snapshot::{BlockSnapshot, Place, block_row, kind_of};
use crate::stops::Stops;
use cell_units::{NoMemory, Rows, Steps, Text};
use plain_rows::Shown;
use std::alloc::Global;

impl<R: Rows> BlockSnapshot<R> {
    /// The rows from `first` on, as many as there are up to `count`. Each line is walked once, and a row is sought only
    /// where a block begins or ends.
    pub fn rows(
        &self,
        alloc: Global,
        first: u32,
        count: u32,
        steps: &mut Steps,
    ) -> Result<Vec<Shown>, NoMemory>
        ensures rows { IfOk result (λ shown.
            shown_rows shown.items ≡ take count (drop first (rows_between self.now))) }
        ensures counted { steps.old ≤ steps.new }
        ensures steps { TakesBetween (λ h. count * walking h) self.now steps.old steps.new }
    {
        let all = self.row_count();
        let end = first + count.min(all.saturating_sub(first));
        let mut shown = Vec::new(alloc);
        let mut next = first;
        'walk: while next < end {
            next = self.push_run(alloc, &mut shown, next, end, steps)?;
        }
        Ok(shown)
    }

    /// Appends the rows from one on up to the row `end` that follow each other. They are those of blocks above a line,
    /// those of blocks below it, or text rows with no block between them. Returns the row after them.
    fn push_run(
        &self,
        alloc: Global,
        shown: &mut Vec<Shown>,
        row: u32,
        end: u32,
        steps: &mut Steps,
    ) -> Result<u32, NoMemory>
        // There is a row to append, and all up to the end are there.
        requires some { row < end }
        requires within { end ≤ length (rows_between self.now) }

        // The rows up to the result: at least one, and none from the end on.
        ensures some { IfOk result (λ next. (row < next) × (next ≤ end)) }
        ensures rows { IfOk result (λ next. shown_rows shown.new.items
            ≡ shown_rows shown.old.items ++ take (next - row) (drop row (rows_between self.now))) }

        // The work: so much for each row that is appended, or without memory for each up to the end.
        ensures counted { steps.old ≤ steps.new }
        ensures steps { IfOk result (λ next.
            TakesBetween (λ h. (next - row) * walking h) self.now steps.old steps.new) }
        ensures steps_err { OnErr result
            (TakesBetween (λ h. (end - row) * walking h) self.now steps.old steps.new) }
    {
        // For the proof: stops are between lines.
        let _count = self.text_rows();
        let place = self.place_of(row, steps);
        let above = self.rows_above(place, steps);
        if place.at < above {
            let to = above.min(place.at + (end - row));
            self.push_above(alloc, shown, place, to, steps)?;
            return Ok(row + (to - place.at));
        }
        if place.at > above {
            let from = place.at - above - 1;
            let to = self.rows_below(place, steps).min(from + (end - row));
            self.push_below(alloc, shown, place, from, to, steps)?;
            return Ok(row + (to - from));
        }
        let clear = self.clear_to(place.text_row, end - row, steps);
        let next = row + (clear - place.text_row);
        self.push_lines(alloc, shown, place.text_row, row, next)?;
        Ok(next)
    }

    /// Appends rows of the blocks above the line of a place, from the place itself up to another one of them.
    fn push_above(
        &self,
        alloc: Global,
        shown: &mut Vec<Shown>,
        place: Place,
        to: u32,
        steps: &mut Steps,
    ) -> Result<(), NoMemory>
        // From the place up to `to` there are rows of blocks above the line.
        requires place { IsPlace self.now place }
        requires order { place.at ≤ to }
        requires within { to ≤ length (texts_at place.text_row self.now.above) }

        // These rows, in order, after those that were there.
        ensures rows { let texts = texts_at place.text_row self.now.above in
            OnOk result (shown_rows shown.new.items ≡ shown_rows shown.old.items
            ++ map block_row (take (to - place.at) (drop place.at texts))) }

        // The work: one way down for each row.
        ensures counted { steps.old ≤ steps.new }
        ensures steps { TakesBetween (λ h. (to - place.at) * way h) self.now steps.old steps.new }
    {
        let (row, before) = (place.text_row, place.above);
        push_blocks(alloc, shown, &self.above, row, before, place.at, to, steps)
    }

    /// Appends rows of the blocks below the line of a place, from one of them up to another.
    fn push_below(
        &self,
        alloc: Global,
        shown: &mut Vec<Shown>,
        place: Place,
        from: u32,
        to: u32,
        steps: &mut Steps,
    ) -> Result<(), NoMemory>
        // From `from` up to `to` there are rows of blocks below the line.
        requires place { IsPlace self.now place }
        requires order { from ≤ to }
        requires within { to ≤ length (texts_at (place.text_row + 1) self.now.below) }

        // These rows, in order, after those that were there.
        ensures rows { let texts = texts_at (place.text_row + 1) self.now.below in
            OnOk result (shown_rows shown.new.items ≡ shown_rows shown.old.items
            ++ map block_row (take (to - from) (drop from texts))) }

        // The work: one way down for each row.
        ensures counted { steps.old ≤ steps.new }
        ensures steps { TakesBetween (λ h. (to - from) * way h) self.now steps.old steps.new }
    {
        // For the proof: each text row is a u32.
        let _count = self.text_rows();
        let (row, before) = (place.text_row + 1, place.below);
        push_blocks(alloc, shown, &self.below, row, before, from, to, steps)
    }

    /// The end of the text rows from one on, at most so many, with no block between them.
    fn clear_to(&self, text_row: u32, count: u32, steps: &mut Steps) -> u32
        // The text row is there, and at least one is asked for.
        requires there { text_row < length (all_rows self.now.lines) }
        requires some { 0 < count }

        // At least one text row, no more than asked for, none past the last, and no stop between them.
        ensures some { text_row < result }
        ensures few { result ≤ text_row + count }
        ensures within { result ≤ length (all_rows self.now.lines) }
        ensures clear { IsClear self.now text_row result }

        // The work: one way down each side.
        ensures counted { steps.old ≤ steps.new }
        ensures steps { TakesBetween both_ways self.now steps.old steps.new }
    {
        let limit = text_row + count.min(self.text_rows() - text_row);
        let above = self.above.clear_to(text_row, limit, steps);
        self.below.clear_to(text_row, above, steps)
    }

    /// Appends text rows with no block between them, the first of which is at `row`, up to the row `end`.
    fn push_lines(
        &self,
        alloc: Global,
        shown: &mut Vec<Shown>,
        text_row: u32,
        row: u32,
        end: u32,
    ) -> Result<(), NoMemory>
        // So many text rows are there, the first is at `row`, and no stop is between them.
        requires order { row ≤ end }
        requires within { text_row + (end - row) ≤ length (all_rows self.now.lines) }
        requires zone { let above = length (texts_at text_row self.now.above) in
            IsInZone self.now row text_row above }
        requires clear { IsClear self.now text_row (text_row + (end - row)) }

        // So they are the rows from `row` up to the end.
        ensures rows { OnOk result (shown_rows shown.new.items
            ≡ shown_rows shown.old.items ++ take (end - row) (drop row (rows_between self.now))) }
    {
        // For the proof: stops are between lines.
        let _count = self.text_rows();
        let mut next = row;
        'lines: while next < end {
            next = self.push_line(alloc, shown, text_row + (next - row), next, end)?;
        }
        Ok(())
    }

    /// Appends a text row, which is at `row`, and those of its line after it, up to the row `end`. Returns the row
    /// after them.
    fn push_line(
        &self,
        alloc: Global,
        shown: &mut Vec<Shown>,
        text_row: u32,
        row: u32,
        end: u32,
    ) -> Result<u32, NoMemory>
        // There is a row to append, all up to the end are there, and the text row is at `row`.
        requires some { row < end }
        requires within { end ≤ length (rows_between self.now) }
        requires zone { let above = length (texts_at text_row self.now.above) in
            IsInZone self.now row text_row above }

        // The rows up to the result: at least one, and none from the end on.
        ensures some { IfOk result (λ next. (row < next) × (next ≤ end)) }
        ensures rows { IfOk result (λ next. shown_rows shown.new.items
            ≡ shown_rows shown.old.items ++ take (next - row) (drop row (rows_between self.now))) }
    {
        // For the proof: each line has a row.
        let _count = self.text_rows();
        match self.rows.line_at(text_row) {
            None => unreachable!(),
            Some((line, first)) => {
                let texts = self.rows.row_texts(alloc, line, first, end - row)?;
                let count = texts.len() as u32;
                push_texts(shown, texts, first)?;
                Ok(row + count)
            }
        }
    }
}

/// Appends text rows of a line, of which the first is the line's row `first`.
fn push_texts(shown: &mut Vec<Shown>, texts: Vec<Text>, first: u32) -> Result<(), NoMemory>
    requires { first + length texts.items < 2 ^ 32 }
    ensures { OnOk result
        (shown_rows shown.new.items
        ≡ shown_rows shown.old.items ++ texts_of_kinds first texts.items) }
{
    let mut row = first;
    for text in texts {
        shown.push(Shown {
            kind: kind_of(row),
            text,
        })?;
        row += 1;
    }
    Ok(())
}

/// Appends rows of the stops after so many rows of text, from one of them up to another. `before` is how many rows the
/// stops before them have.
fn push_blocks(
    alloc: Global,
    shown: &mut Vec<Shown>,
    stops: &Stops,
    text_row: u32,
    before: u32,
    from: u32,
    to: u32,
    steps: &mut Steps,
) -> Result<(), NoMemory>
    // The stops there have these rows, and the count before them is right.
    requires order { from ≤ to }
    requires within { to ≤ length (texts_at text_row stops.now) }
    requires before { before ≡ rows_upto Left text_row stops.now }

    // These rows, in order, after those that were there.
    ensures rows { let texts = take (to - from) (drop from (texts_at text_row stops.now)) in
        OnOk result (shown_rows shown.new.items
        ≡ shown_rows shown.old.items ++ map block_row texts) }

    // The work: one way down for each row.
    ensures counted { steps.old ≤ steps.new }
    ensures steps { let count = to - from in
        TakesAtMost (λ h. count * way h) (length stops.now) steps.old steps.new }
{
    let mut next = from;
    'walk: while next < to {
        let text = stops.text_at(text_row, before, next, steps);
        shown.push(block_row(alloc, text)?)?;
        next += 1;
    }
    Ok(())
}
