//! The blocks of one side after a replacement of the text and edits of rows.
ghost use Rattle.std.specs.Prelude.{◌≡◌, ◌*◌, ◌^◌, ◌<◌, ◌≤◌, [], length, map, IfOk};
ghost use Rattle.std.specs.List.{All};
ghost use Rattle.edit_patch.specs.Patch.{IsPatch};
ghost use Rattle.mark_tree.specs.Bounds.{moving};
ghost use Rattle.sum_tree.specs.Bounds.{TakesAtMost};
ghost use Rattle.block_map.specs.Bounds.{putting, remaking};
ghost use Rattle.block_map.specs.Carried.{SyncsSideAtMost};
ghost use Rattle.block_map.specs.Maps.{moved_kept, placed};
ghost use Rattle.block_map.specs.inside.RowMoves.{MayBeMoved, carried};
ghost use Rattle.block_map.specs.inside.SideMoves.{IsSideFollowed, MayBeRemade, MayFollow, bias_of, marks_after, met_count, stops_of_marks};
ghost use Rattle.block_map.specs.inside.Sides.{IsSide, kept_of};

use crate::anew::{LowerChange, places_anew};
use crate::block_lines::BlockLines;
use crate::block_marks::BlockMarks;
use crate::block_side::BlockSide;
use crate::stops::Stops;
use cell_units::{Bias, Layer, NoMemory, Rows, Shift, Side, Steps};
use edit_patch::{Edit, Patch};
use mark_tree::MarkTree;
use std::alloc::Global;

/// Whether stops of a side are before a row of text, or after one.
fn bias_of(side: Side) -> Bias
    ensures { result ≡ bias_of side }
{
    match side {
        Side::Above => Bias::Left,
        Side::Below => Bias::Right,
    }
}

/// The marks after a replacement, if there was one.
fn moved(
    alloc: Global,
    mut marks: MarkTree<BlockLines>,
    shift: Option<Shift>,
    steps: &mut Steps,
) -> Result<MarkTree<BlockLines>, NoMemory>
    requires { All (λ m. m.offset < 2 ^ 32) (marks_after shift marks) }
    ensures ok { IfOk result (λ after. after ≡ marks_after shift marks) }
    ensures counted { steps.old ≤ steps.new }
    ensures steps { let met = met_count shift marks in
        TakesAtMost (moving met) (length marks) steps.old steps.new }
{
    match shift {
        None => Ok(marks),
        Some(shift) => {
            marks.apply(alloc, shift, steps)?;
            Ok(marks)
        }
    }
}

/// The blocks where no stop is made anew: edits carry all stops, and the replacement meets no mark.
fn all_carried(
    alloc: Global,
    marks: MarkTree<BlockLines>,
    stops: &Stops,
    side: Side,
    shift: Option<Shift>,
    edits: &[Edit],
    steps: &mut Steps,
) -> Result<BlockSide, NoMemory>
    // The edits may move every stop, and then marks and stops make a side of which all blocks are shown.
    requires follow { MayFollow shift marks }
    requires patch { IsPatch edits.now }
    requires stops { MayBeMoved (bias_of side) edits.now stops.now }
    requires side { let carried = map (carried (bias_of side) edits.now) stops.now in
        IsSide (marks_after shift marks) carried [] }

    // Each mark moved, with its stop carried.
    ensures ok { let carried = map (carried (bias_of side) edits.now) stops.now in
        IfOk result (λ s. s ≡ kept_of (marks_after shift marks) carried) }

    // The work: two changes of the stops for each edit. The marks move only when they are next needed.
    ensures counted { steps.old ≤ steps.new }
    ensures steps { let count = length edits.now in
        TakesAtMost (λ h. 2 * count * putting h) (length stops.now) steps.old steps.new }
{
    let mut stops = stops.share()?;
    stops.carry(alloc, bias_of(side), edits, steps)?;
    Ok(BlockSide {
        marks: BlockMarks::behind(marks, shift),
        stops,
        added: MarkTree::new(alloc),
    })
}

/// The blocks where the stops of some places are made anew, each at the line of its mark, and edits carry the others.
fn some_anew<P: Layer, R: Rows>(
    alloc: Global,
    marks: MarkTree<BlockLines>,
    stops: &Stops,
    places: &[u32],
    side: Side,
    layer: &P,
    change: &LowerChange<R>,
    steps: &mut Steps,
) -> Result<BlockSide, NoMemory>
    // Offsets stay u32, and the edits take each stop of another place to the line of its moved mark.
    requires offsets { All (λ m. m.offset < 2 ^ 32) (marks_after change.now.shift marks) }
    requires patch { IsPatch change.now.edits.now }
    requires remade { let source = P.source layer.now in let lines = R.shown change.now.rows.now in
        let edits = change.now.edits.now in
        MayBeRemade source change.now.shift edits lines side places.now marks stops.now }

    // Each mark moved, with its stop at its line.
    ensures ok { let source = P.source layer.now in let lines = R.shown change.now.rows.now in
        let after = marks_after change.now.shift marks in
        let stops = stops_of_marks source lines side after in
        IfOk result (λ s. s ≡ kept_of after stops) }

    // The work: for the marks that the replacement meets, for the stops that are made anew, and for the edits.
    ensures counted { steps.old ≤ steps.new }
    ensures steps { let met = met_count change.now.shift marks in
        let cost = remaking met (length places.now) (length change.now.edits.now) in
        TakesAtMost cost (length marks) steps.old steps.new }
{
    let marks = moved(alloc, marks, change.shift, steps)?;
    let mut stops = stops.share()?;
    stops.take_out(alloc, places, steps)?;
    stops.carry(alloc, bias_of(side), change.edits, steps)?;
    stops.put_in(alloc, places, &marks, layer, change.rows, side, steps)?;
    Ok(BlockSide {
        marks: BlockMarks::of(marks),
        stops,
        added: MarkTree::new(alloc),
    })
}

impl BlockSide {
    /// The blocks after a replacement of the text, if there was one, each shown at its line of the new layer and rows.
    /// Stops are made anew where the replacement meets the mark, where nothing was shown yet, and at lines of which an
    /// edit replaces a row. All others move with the edits of rows. These blocks stay as they are, with their marks
    /// moved by the replacements before.
    pub(crate) fn synced<P: Layer, R: Rows>(
        &mut self,
        alloc: Global,
        side: Side,
        layer: &P,
        shift: Option<Shift>,
        old: &R,
        rows: &R,
        edits: &Patch,
        steps: &mut Steps,
    ) -> Result<BlockSide, NoMemory>
        // What a `sync` asks of one side: the edits lead to the new rows, and shown blocks were at old lines.
        requires { let source = P.source layer.now in let lines = R.shown old.now in
            IsSideFollowed source shift edits.now lines (R.shown rows.now) side self.old }

        // The moved blocks, each with the row of its line. As contracts see them, these don't change.
        ensures ok { let source = P.source layer.now in
            let moved = moved_kept shift self.old in
            IfOk result (λ s. s ≡ map (placed source (R.shown rows.now) side) moved) }
        ensures kept { self.new ≡ self.old }

        // The work: for the blocks of the side that aren't carried with their lines, and for the edits.
        ensures counted { steps.old ≤ steps.new }
        ensures steps { let lines = R.shown old.now in
            SyncsSideAtMost shift edits.now lines side self.old steps.old steps.new }
    {
        // For the proof: the text's length is a u32, each line has a row, and marks are in order.
        let _len = layer.buffer_len();
        let _lines = old.lines();
        let marks = self.marks.settled(alloc, steps)?;
        // For the proof: marks are in order, of distinct ids.
        let _count = marks.len();
        // For the proof: rows of stops don't fall.
        let _rising = self.stops.len();
        let edits = edits.edits();
        let change = LowerChange {
            shift,
            old,
            rows,
            edits,
        };
        let places = places_anew(
            alloc,
            &marks,
            &self.stops,
            &self.added,
            side,
            &change,
            steps,
        )?;
        let places = places.as_slice();
        if places.is_empty() {
            return all_carried(alloc, marks, &self.stops, side, shift, edits, steps);
        }
        some_anew(
            alloc,
            marks,
            &self.stops,
            places,
            side,
            layer,
            &change,
            steps,
        )
    }
}
