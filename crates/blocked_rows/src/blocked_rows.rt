//! Blocks between rows, all of them shown.
ghost use Rattle.std.specs.Prelude.{◌≡◌, ◌+◌, ◌≤◌, [], None, length, IfErr, IfOk, MatchOption, OnOk};
ghost use Rattle.cell_units.specs.Layers.{shown_lines};
ghost use Rattle.sum_tree.specs.Bounds.{Searches, TakesAtMost, way};
ghost use Rattle.block_map.specs.Bounds.{TakesOneEach, syncing};
ghost use Rattle.block_map.specs.Carried.{SyncsAtMost};
ghost use Rattle.block_map.specs.Follows.{IsFollowed};
ghost use Rattle.block_map.specs.Maps.{IsBlockAt, IsOwed, IsPlaceOf, add_refusal, on_side, remove_refusal, removed, state_of, synced};
ghost use Rattle.block_map.specs.inside.ShownStops.{shown_between};
ghost use Rattle.blocked_rows.specs.Bounds.{adding, taking};
ghost use Rattle.blocked_rows.specs.Standing.{ArePlaced, with_block};

use block_map::{BlockMap, BlockSnapshot};
use cell_units::{Fault, Layer, NoMemory, Refusal, Rows, Shift, Side, Steps, Text};
use edit_patch::Patch;
use std::alloc::Global;
use std::marker::Model;

/// Blocks above and below lines, between the rows of these, all of them shown. Contracts see the lines and the blocks
/// of each side in order, each with the number of text rows before it.
pub struct BlockedRows<R: Rows> {
    rows: R,
    blocks: BlockMap<R>,
    shown: BlockSnapshot<R>,
}

impl<R: Rows> Drop for BlockedRows<R> {
    fn drop(self) {
        let BlockedRows {
            rows: _,
            blocks: _,
            shown: _,
        } = self;
    }
}

impl<R: Rows> Model for BlockedRows<R> {
    ghost use Rattle.block_map.specs.Maps.{BlockState};
    ghost use Rattle.blocked_rows.specs.Standing.{ShowsAll};

    ghost Value = { BlockState };

    ghost view = { λ b. b.blocks };

    ghost invariant = { λ b. ShowsAll (R.shown b.rows) b.blocks b.shown };
}

impl<R: Rows> BlockedRows<R> {
    /// The rows of a layer's lines without blocks.
    pub fn new<P: Layer>(
        alloc: Global,
        layer: &P,
        rows: R,
        steps: &mut Steps,
    ) -> Result<BlockedRows<R>, NoMemory>
        requires { length (shown_lines (P.source layer.now)) ≡ length (R.shown rows) }
        ensures made { IfOk result (λ made. made ≡ state_of (R.shown rows)) }
        ensures counted { steps.old ≤ steps.new }
        ensures steps { TakesAtMost (syncing 0 0) 0 steps.old steps.new }
    {
        // For the proof: all rows together are a u32.
        let lines = rows.lines();
        let _count = rows.rows_before(lines);
        let blocks = BlockMap::new(alloc, rows.share()?, steps)?;
        show(alloc, layer, None, rows, &Patch::none(alloc), blocks, steps)
    }

    /// The blocks after a replacement of the text, if there was one, and edits of rows. They move with the text, and
    /// each is shown at its line of the layer.
    pub fn after<P: Layer>(
        &self,
        alloc: Global,
        layer: &P,
        shift: Option<Shift>,
        rows: R,
        edits: &Patch,
        steps: &mut Steps,
    ) -> Result<BlockedRows<R>, NoMemory>
        requires { IsFollowed (P.source layer.now) shift edits.now (R.shown rows) self.now }
        ensures made { let source = P.source layer.now in
            IfOk result (λ made. made ≡ synced source shift (R.shown rows) self.now) }
        ensures counted { steps.old ≤ steps.new }
        ensures steps { SyncsAtMost shift edits.now self.now steps.old steps.new }
    {
        let blocks = self.blocks.share()?;
        show(alloc, layer, shift, rows, edits, blocks, steps)
    }

    /// The blocks with one more: lines that are shown above or below the line of an offset's row. The offset counts
    /// bytes. It is refused by the first of these that fits:
    ///
    /// - `IdInUse`: the id is there;
    /// - `BadRange`: the offset is past the text's end or inside a character;
    /// - `BadText`: there is no line, more than `BLOCK_LINES_LIMIT`, or one with a line break;
    /// - `TooLong`: a line has more than `BLOCK_LINE_LIMIT` bytes, or `ENTRY_LIMIT` blocks are there.
    pub fn with_block<P: Layer>(
        &self,
        alloc: Global,
        layer: &P,
        id: u32,
        side: Side,
        offset: u32,
        lines: &[Text],
        steps: &mut Steps,
    ) -> Result<BlockedRows<R>, Fault>
        requires { ArePlaced (P.source layer.now) self.now }

        // What it makes.
        ensures made { let source = P.source layer.now in IfOk result (λ made.
            made ≡ with_block source side id offset lines.now self.now) }

        // When it is refused, which comes before out of memory.
        ensures accepted { let source = P.source layer.now in
            OnOk result (add_refusal source self.now id offset lines.now ≡ None) }
        ensures refused { let source = P.source layer.now in
            IfErr result (IsOwed (add_refusal source self.now id offset lines.now)) }

        // The work.
        ensures counted { steps.old ≤ steps.new }
        ensures steps { let count = length self.now.above + length self.now.below in
            TakesOneEach adding (count + 1) steps.old steps.new }
    {
        // For the proof: the layer is well formed.
        let _len = layer.buffer_len();
        let Ok(mut blocks) = self.blocks.share() else {
            // A refusal comes before out of memory. Where there is a share, `insert` gives it.
            if let Some(refusal) = self.blocks.refusal_to_add(layer, id, offset, lines, steps) {
                return Err(Fault::Refused(refusal));
            }
            return Err(Fault::NoMemory);
        };
        blocks.insert(alloc, layer, id, side, offset, lines, steps)?;
        Ok(self.showing(alloc, layer, blocks, steps)?)
    }

    /// The blocks without the one of this id. `UnknownId` where there is none.
    pub fn without_block<P: Layer>(
        &self,
        alloc: Global,
        layer: &P,
        id: u32,
        steps: &mut Steps,
    ) -> Result<BlockedRows<R>, Fault>
        requires { ArePlaced (P.source layer.now) self.now }

        // What it makes.
        ensures made { IfOk result (λ made. made ≡ removed id self.now) }

        // When it is refused, which comes before out of memory.
        ensures accepted { OnOk result (remove_refusal self.now id ≡ None) }
        ensures refused { IfErr result (IsOwed (remove_refusal self.now id)) }

        // The work.
        ensures counted { steps.old ≤ steps.new }
        ensures steps { let count = length self.now.above + length self.now.below in
            TakesOneEach taking count steps.old steps.new }
    {
        // For the proof: the layer is well formed.
        let _len = layer.buffer_len();
        let Ok(mut blocks) = self.blocks.share() else {
            // The refusal comes before out of memory. Where there is a share, `remove` gives it.
            if self.blocks.side_of(id, steps).is_none() {
                return Err(Fault::Refused(Refusal::UnknownId));
            }
            return Err(Fault::NoMemory);
        };
        blocks.remove(alloc, id, steps)?;
        Ok(self.showing(alloc, layer, blocks, steps)?)
    }

    /// Blocks of a layer between the rows that are here, each shown at its line.
    fn showing<P: Layer>(
        &self,
        alloc: Global,
        layer: &P,
        blocks: BlockMap<R>,
        steps: &mut Steps,
    ) -> Result<BlockedRows<R>, NoMemory>
        // They are those of the layer.
        requires placed { ArePlaced (P.source layer.now) blocks }
        requires same { blocks.lines ≡ self.now.lines }

        // What it makes.
        ensures made { let source = P.source layer.now in
            IfOk result (λ made. made ≡ synced source None self.now.lines blocks) }
        ensures counted { steps.old ≤ steps.new }
        ensures steps { SyncsAtMost None [] blocks steps.old steps.new }
    {
        // For the proof: the layer is well formed, and each line has a row.
        let _len = layer.buffer_len();
        let _lines = self.rows.lines();
        let rows = self.rows.share()?;
        show(alloc, layer, None, rows, &Patch::none(alloc), blocks, steps)
    }

    /// What is shown: all that is read of rows and blocks.
    pub fn shown(&self) -> &BlockSnapshot<R>
        ensures { result.now ≡ shown_between self.now }
    {
        &self.shown
    }

    /// The number of blocks.
    pub fn len(&self) -> u32
        ensures { result ≡ length self.now.above + length self.now.below }
    {
        self.blocks.len()
    }

    /// The offset, id and lines of a block of one side, by its place among those of that side, counted from 0. `None`
    /// exactly where there is none.
    pub fn block(&self, side: Side, at: u32, steps: &mut Steps) -> Option<(u32, u32, &[Text])>
        ensures block { MatchOption result (length (on_side side self.now) ≤ at) (λ b.
            IsBlockAt (on_side side self.now) at b.0 b.1 b.2.now) }
        ensures counted { steps.old ≤ steps.new }
        ensures steps { TakesAtMost way (length (on_side side self.now)) steps.old steps.new }
    {
        self.blocks.get(side, at, steps)
    }

    /// The place of the block of this id among those of a side, counted from 0. `None` exactly where there is none.
    pub fn find_id(&self, side: Side, id: u32, steps: &mut Steps) -> Option<u32>
        ensures place { IsPlaceOf (on_side side self.now) id result }
        ensures counted { steps.old ≤ steps.new }
        ensures steps { Searches (length (on_side side self.now)) steps.old steps.new }
    {
        self.blocks.find_id(side, id, steps)
    }

    /// Equal ones, which no later change reaches. It allocates nothing, and fails with `NoMemory` only where the count
    /// of holders is full.
    pub fn share(&self) -> Result<BlockedRows<R>, NoMemory>
        ensures { IfOk result (λ shared. shared ≡ self.now) }
    {
        Ok(BlockedRows {
            rows: self.rows.share()?,
            blocks: self.blocks.share()?,
            shown: self.shown.share()?,
        })
    }
}

/// The blocks of a map after what led to these rows, each shown at its line.
fn show<P: Layer, R: Rows>(
    alloc: Global,
    layer: &P,
    shift: Option<Shift>,
    rows: R,
    edits: &Patch,
    mut blocks: BlockMap<R>,
    steps: &mut Steps,
) -> Result<BlockedRows<R>, NoMemory>
    requires { IsFollowed (P.source layer.now) shift edits.now (R.shown rows) blocks }
    ensures made { let source = P.source layer.now in
        IfOk result (λ made. made ≡ synced source shift (R.shown rows) blocks) }
    ensures counted { steps.old ≤ steps.new }
    ensures steps { SyncsAtMost shift edits.now blocks steps.old steps.new }
{
    let given = rows.share()?;
    let shown = blocks.sync(alloc, layer, shift, given, edits, steps)?;
    Ok(BlockedRows {
        rows,
        blocks,
        shown,
    })
}
