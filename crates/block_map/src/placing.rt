//! Stops that are put in at the lines of their blocks.
ghost use Rattle.std.specs.Prelude.{◌≡◌, ◌+◌, ◌*◌, ◌<◌, ◌≤◌, Some, [], length, slice_get, OnOk};
ghost use Rattle.std.specs.List.{All};
ghost use Rattle.cell_units.specs.Layers.{shown_lines};
ghost use Rattle.cell_units.specs.Text.{IsBoundary};
ghost use Rattle.sum_tree.specs.Bounds.{ChangesAtMost, TakesAtMost};
ghost use Rattle.block_map.specs.Bounds.{inserting};
ghost use Rattle.block_map.specs.Maps.{fresh, row_of_kept};
ghost use Rattle.block_map.specs.inside.SideMoves.{MayStand, stop_of_mark, stops_of_marks};
ghost use Rattle.block_map.specs.inside.Sides.{BlockMark};
ghost use Rattle.block_map.specs.inside.StopLists.{MayBePut, with_stop};
ghost use Rattle.block_map.specs.inside.Without.{IsRising, without};

use crate::block_lines::BlockLines;
use crate::stops::Stops;
use cell_units::{Bias, Layer, NoMemory, Rows, Side, Steps};
use mark_tree::MarkTree;
use std::alloc::Global;
use sum_core::Load;

/// How many rows of text are before what is on a side of the line of an offset's row.
pub(crate) fn row_at_side<P: Layer, R: Rows>(layer: &P, rows: &R, side: Side, offset: u32) -> u32
    requires boundary { IsBoundary (P.source layer.now).text offset }
    requires equal { length (shown_lines (P.source layer.now)) ≡ length (R.shown rows.now) }
    ensures { let source = P.source layer.now in
        result ≡ row_of_kept source (R.shown rows.now) side (fresh 0 offset []) }
{
    // For the proof: the text is UTF-8, and each line has a row.
    let _len = layer.buffer_len();
    let _lines = rows.lines();
    let (start, end) = layer.row_ends(offset);
    match side {
        Side::Above => {
            let line = layer.point(layer.place(start, Bias::Left)).row;
            rows.rows_before(line)
        }
        Side::Below => {
            let line = layer.point(layer.place(end, Bias::Right)).row;
            rows.rows_before(line + 1)
        }
    }
}

impl Stops {
    /// Puts in the stops of some places of all, which rise: each at the line of its mark.
    pub(crate) fn put_in<P: Layer, R: Rows>(
        &mut self,
        alloc: Global,
        places: &[u32],
        marks: &MarkTree<BlockLines>,
        layer: &P,
        rows: &R,
        side: Side,
        steps: &mut Steps,
    ) -> Result<(), NoMemory>
        // The places are of marks, all other marks have their stops, and the stops of all may be at their lines.
        requires rising { IsRising 0 places.now }
        requires within { All (λ a. a < length marks.now) places.now }
        requires others { let source = P.source layer.now in
            let all = stops_of_marks source (R.shown rows.now) side marks.now in
            self.old ≡ without places.now 0 all }
        requires marks { MayStand (P.source layer.now) (R.shown rows.now) side marks.now }

        // Then each mark has its stop at its line.
        ensures ok { let source = P.source layer.now in
            OnOk result (self.new ≡ stops_of_marks source (R.shown rows.now) side marks.now) }

        // The work: for each place its mark is looked up, and a stop is put in.
        ensures counted { steps.old ≤ steps.new }
        ensures steps { let count = length places.now in
            TakesAtMost (λ h. count * inserting h) (length marks.now) steps.old steps.new }
    {
        let mut done = 0;
        while done < places.len() {
            self.put_one(alloc, places[done], marks, layer, rows, side, steps)?;
            done += 1;
        }
        Ok(())
    }

    /// Puts in the stop of one mark.
    fn put_one<P: Layer, R: Rows>(
        &mut self,
        alloc: Global,
        at: u32,
        marks: &MarkTree<BlockLines>,
        layer: &P,
        rows: &R,
        side: Side,
        steps: &mut Steps,
    ) -> Result<(), NoMemory>
        // The mark is there, stops of marks may be at their lines, and this one may be put at its place.
        requires there { at < length marks.now }
        requires marks { MayStand (P.source layer.now) (R.shown rows.now) side marks.now }
        requires room { (m : BlockMark) → slice_get marks.now at ≡ Some m →
            MayBePut self.old at (stop_of_mark (P.source layer.now) (R.shown rows.now) side m) }

        // It is at its line, before the stops that were from its place on.
        ensures ok { (m : BlockMark) → slice_get marks.now at ≡ Some m →
            let stop = stop_of_mark (P.source layer.now) (R.shown rows.now) side m in
            OnOk result (self.new ≡ with_stop at stop self.old) }

        // The work: the mark is looked up, and its stop is put in.
        ensures counted { steps.old ≤ steps.new }
        ensures steps { let count = length self.old + 1 in
            ChangesAtMost inserting count (length marks.now) steps.old steps.new }
    {
        match marks.get(at, steps) {
            None => unreachable!(),
            Some((offset, _, _, lines)) => {
                let row = row_at_side(layer, rows, side, offset);
                self.insert(alloc, at, row, lines.copy(alloc)?, steps)
            }
        }
    }
}
