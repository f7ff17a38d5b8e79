//! The map after a replacement of the text and edits of rows, and what it shows then.
ghost use Rattle.std.specs.Prelude.{◌≡◌, ◌+◌, ◌<◌, ◌≤◌, ◌^◌, length, map, IfOk, OnErr, OnOk};
ghost use Rattle.cell_units.specs.Rows.{all_rows};
ghost use Rattle.block_map.specs.Carried.{SyncsAtMost};
ghost use Rattle.block_map.specs.Follows.{IsFollowed, block_height};
ghost use Rattle.block_map.specs.Maps.{IsShown, synced};
ghost use Rattle.block_map.specs.inside.ShownStops.{AreShown, shown_between, shown_stop};

use crate::block_map::BlockMap;
use crate::block_side::BlockSide;
use crate::snapshot::BlockSnapshot;
use crate::stops::Stops;
use cell_units::{Layer, NoMemory, Rows, Shift, Side, Steps};
use edit_patch::Patch;
use std::alloc::Global;

impl BlockSide {
    /// The stops of the blocks, of which all are shown.
    fn shown_stops(&self) -> Result<Stops, NoMemory>
        requires { AreShown self.now }
        ensures { IfOk result (λ stops. stops ≡ map shown_stop self.now) }
    {
        self.stops.share()
    }
}

impl<R: Rows> BlockMap<R> {
    /// Takes the layer and its rows as they are now, and moves the blocks with the text. Returns what is shown: each
    /// block at its line. With the layer comes the replacement of the text that led to it since the last call, if there
    /// was one. With the rows come the edits that lead to them from the rows that were shown last.
    ///
    /// All but the blocks that are carried with their lines are shown anew. These are the ones of which nothing was
    /// shown yet, and those that the replacement meets. And they are those at lines of which an edit replaces a row.
    pub fn sync<P: Layer>(
        &mut self,
        alloc: Global,
        layer: &P,
        shift: Option<Shift>,
        rows: R,
        row_edits: &Patch,
        steps: &mut Steps,
    ) -> Result<BlockSnapshot<R>, NoMemory>
        requires { IsFollowed (P.source layer.now) shift row_edits.now (R.shown rows) self.old }

        // What is shown, and what is there after it.
        ensures shown { let source = P.source layer.now in
            IfOk result (IsShown source shift (R.shown rows) self.old) }
        ensures ok { let source = P.source layer.now in
            OnOk result (self.new ≡ synced source shift (R.shown rows) self.old) }
        ensures unchanged { OnErr result (self.new ≡ self.old) }

        // The work.
        ensures counted { steps.old ≤ steps.new }
        ensures steps { SyncsAtMost shift row_edits.now self.old steps.old steps.new }
    {
        // For the proof: the layer is well formed, and each line has a row.
        let _len = layer.buffer_len();
        let _lines = rows.lines();
        let next = self.after(alloc, layer, shift, rows, row_edits, steps)?;
        let shown = next.shown()?;
        *self = next;
        Ok(shown)
    }

    /// The map after it. This one stays as it is, with its marks moved by the replacements before.
    fn after<P: Layer>(
        &mut self,
        alloc: Global,
        layer: &P,
        shift: Option<Shift>,
        rows: R,
        row_edits: &Patch,
        steps: &mut Steps,
    ) -> Result<BlockMap<R>, NoMemory>
        // What a `sync` asks of the layer, the rows and the edits.
        requires { IsFollowed (P.source layer.now) shift row_edits.now (R.shown rows) self.old }

        // What a `sync` leaves. As contracts see it, this map doesn't change.
        ensures ok { let source = P.source layer.now in
            IfOk result (λ m. m ≡ synced source shift (R.shown rows) self.old) }
        ensures kept { self.new ≡ self.old }

        // The work of both sides: for the blocks that are shown anew, and for the edits.
        ensures counted { steps.old ≤ steps.new }
        ensures steps { SyncsAtMost shift row_edits.now self.old steps.old steps.new }
    {
        // For the proof: the layer is well formed.
        let _len = layer.buffer_len();
        let old = &self.rows;
        let above = self.above.synced(
            alloc,
            Side::Above,
            layer,
            shift,
            old,
            &rows,
            row_edits,
            steps,
        )?;
        let below = self.below.synced(
            alloc,
            Side::Below,
            layer,
            shift,
            old,
            &rows,
            row_edits,
            steps,
        )?;
        Ok(BlockMap { rows, above, below })
    }

    /// What is shown where all blocks are.
    fn shown(&self) -> Result<BlockSnapshot<R>, NoMemory>
        requires above { AreShown self.now.above }
        requires below { AreShown self.now.below }
        requires sizes { let blocks = block_height self.now.above + block_height self.now.below in
            length (all_rows self.now.lines) + blocks < 2 ^ 32 }
        ensures { IfOk result (λ b. b ≡ shown_between self.now) }
    {
        // For the proof: each line has a row.
        let _lines = self.rows.lines();
        Ok(BlockSnapshot {
            rows: self.rows.share()?,
            above: self.above.shown_stops()?,
            below: self.below.shown_stops()?,
        })
    }
}
