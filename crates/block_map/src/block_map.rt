//! The map: blocks that are added and removed, over lines that change.
ghost use Rattle.std.specs.Prelude.{◌≡◌, ◌==◌, ◌+◌, ◌<◌, ◌≤◌, None, true, false, length, IfErr, IfOk, MatchOption, OnErr, OnOk};
ghost use Rattle.std.specs.List.{list_any};
ghost use Rattle.cell_units.specs.declared.limits.TheConstants.{ENTRY_LIMIT};
ghost use Rattle.cell_units.specs.Lawful.{AreBlockLines};
ghost use Rattle.sum_tree.specs.Bounds.{Searches, TakesAtMost, way};
ghost use Rattle.block_map.specs.Bounds.{SearchesBoth, SearchesTwice, TakesOneEach, altering, altering_side};
ghost use Rattle.block_map.specs.Maps.{IsBlockAt, IsOwed, IsPlaceOf, add_refusal, added, fresh, has_block, on_side, remove_refusal, removed, state_of};
ghost use Rattle.block_map.specs.inside.TwoSides.{is_kept};

use crate::block_lines::BlockLines;
use crate::block_side::BlockSide;
use crate::given_lines::{are_block_lines, has_long_line};
use cell_units::limits::ENTRY_LIMIT;
use cell_units::{Fault, Layer, NoMemory, Refusal, Rows, Side, Steps, Text};
use std::alloc::Global;
use std::marker::Model;

/// Blocks above and below lines: each at its anchor, and where it was last shown. Contracts see the lines that were
/// last shown and the blocks of each side in order.
///
/// Bounds on the steps of a call are given for each h such that the blocks are fewer than 2 * 6^(h + 1). The least such
/// h is the greatest height of a tree of so many.
pub struct BlockMap<R: Rows> {
    pub(crate) rows: R,
    pub(crate) above: BlockSide,
    pub(crate) below: BlockSide,
}

impl<R: Rows> Drop for BlockMap<R> {
    fn drop(self) {
        let BlockMap {
            rows: _,
            above: _,
            below: _,
        } = self;
    }
}

impl<R: Rows> Model for BlockMap<R> {
    ghost use Rattle.block_map.specs.Maps.{BlockState};
    ghost use Rattle.block_map.specs.inside.TwoSides.{IsState};

    ghost Value = { BlockState };

    ghost view = { λ m. record { lines = R.shown m.rows; above = m.above; below = m.below } };

    ghost invariant = { λ m.
        IsState (record { lines = R.shown m.rows; above = m.above; below = m.below }) };
}

impl<R: Rows> BlockMap<R> {
    /// The rows without blocks, which count as shown. It opens no node and allocates nothing, so `NoMemory` has no
    /// cause.
    pub fn new(alloc: Global, rows: R, steps: &mut Steps) -> Result<BlockMap<R>, NoMemory>
        ensures ok { IfOk result (λ m. m ≡ state_of (R.shown rows)) }
        ensures steps { steps.new ≡ steps.old }
    {
        // Nothing is opened or made.
        let _steps = steps;
        Ok(BlockMap {
            rows,
            above: BlockSide::new(alloc),
            below: BlockSide::new(alloc),
        })
    }

    /// An equal map, and no later change of either changes the other. It allocates nothing, and fails with `NoMemory`
    /// only where the count of holders is full.
    pub fn share(&self) -> Result<BlockMap<R>, NoMemory>
        ensures { IfOk result (λ m. m ≡ self.now) }
    {
        let rows = self.rows.share()?;
        let above = self.above.share()?;
        let below = self.below.share()?;
        Ok(BlockMap { rows, above, below })
    }

    /// The number of blocks.
    pub fn len(&self) -> u32
        ensures { result ≡ length self.now.above + length self.now.below }
    {
        self.above.len() + self.below.len()
    }

    /// The offset, id and lines of a block of one side, by its place among those of that side, counted from 0. `None`
    /// exactly where there is none.
    pub fn get(&self, side: Side, at: u32, steps: &mut Steps) -> Option<(u32, u32, &[Text])>
        ensures block { MatchOption result (length (on_side side self.now) ≤ at) (λ b.
            IsBlockAt (on_side side self.now) at b.0 b.1 b.2.now) }
        ensures counted { steps.old ≤ steps.new }
        ensures steps { TakesAtMost way (length (on_side side self.now)) steps.old steps.new }
    {
        match side {
            Side::Above => self.above.get(at, steps),
            Side::Below => self.below.get(at, steps),
        }
    }

    /// The place of the block of this id among those of a side, counted from 0. `None` exactly where there is none.
    pub fn find_id(&self, side: Side, id: u32, steps: &mut Steps) -> Option<u32>
        ensures place { IsPlaceOf (on_side side self.now) id result }
        ensures counted { steps.old ≤ steps.new }
        ensures steps { Searches (length (on_side side self.now)) steps.old steps.new }
    {
        match side {
            Side::Above => self.above.find_id(id, steps),
            Side::Below => self.below.find_id(id, steps),
        }
    }

    /// Adds a block: lines that are shown above or below the line of an offset's row. The offset counts bytes, and goes
    /// after what is inserted there. Nothing is shown of the block before the next `sync`. It is refused by the first
    /// of these that fits:
    ///
    /// - `IdInUse`: the id is there;
    /// - `BadRange`: the offset is past the text's end or inside a character;
    /// - `BadText`: there is no line, more than `BLOCK_LINES_LIMIT`, or one with a line break;
    /// - `TooLong`: a line has more than `BLOCK_LINE_LIMIT` bytes, or `ENTRY_LIMIT` blocks are there.
    pub fn insert<P: Layer>(
        &mut self,
        alloc: Global,
        layer: &P,
        id: u32,
        side: Side,
        offset: u32,
        lines: &[Text],
        steps: &mut Steps,
    ) -> Result<(), Fault>
        // What is there after it.
        ensures ok { OnOk result (self.new ≡ added side (fresh id offset lines.now) self.old) }
        ensures accepted { let source = P.source layer.now in
            OnOk result (add_refusal source self.old id offset lines.now ≡ None) }

        // Refusals are judged before any memory is taken.
        ensures refused { let source = P.source layer.now in
            IfErr result (IsOwed (add_refusal source self.old id offset lines.now)) }
        ensures unchanged { OnErr result (self.new ≡ self.old) }
        ensures counted { steps.old ≤ steps.new }
        ensures steps { let count = length self.old.above + length self.old.below in
            TakesOneEach altering (count + 1) steps.old steps.new }
    {
        if let Some(refusal) = self.refusal_to_add(layer, id, offset, lines, steps) {
            return Err(Fault::Refused(refusal));
        }
        let copied = BlockLines::new(alloc, lines)?;
        self.add(alloc, id, side, offset, copied, steps)?;
        Ok(())
    }

    /// Takes the block of this id out. `UnknownId` where there is none.
    pub fn remove(&mut self, alloc: Global, id: u32, steps: &mut Steps) -> Result<(), Fault>
        // What is there after it.
        ensures ok { OnOk result (self.new ≡ removed id self.old) }
        ensures accepted { OnOk result (remove_refusal self.old id ≡ None) }

        // The refusal is judged before any memory is taken.
        ensures refused { IfErr result (IsOwed (remove_refusal self.old id)) }
        ensures unchanged { OnErr result (self.new ≡ self.old) }
        ensures counted { steps.old ≤ steps.new }
        ensures steps { let count = length self.old.above + length self.old.below in
            TakesOneEach altering count steps.old steps.new }
    {
        let Some(side) = self.side_of(id, steps) else {
            return Err(Fault::Refused(Refusal::UnknownId));
        };
        self.take(alloc, id, side, steps)?;
        Ok(())
    }

    /// The side of the block of this id, if there is one.
    pub fn side_of(&self, id: u32, steps: &mut Steps) -> Option<Side>
        ensures side { MatchOption result (has_block id self.now ≡ false) (λ side.
            list_any (λ k. k.id == id) (on_side side self.now) ≡ true) }
        ensures counted { steps.old ≤ steps.new }
        ensures steps { let count = length self.now.above + length self.now.below in
            SearchesBoth count steps.old steps.new }
    {
        if self.above.has_id(id, steps) {
            return Some(Side::Above);
        }
        if self.below.has_id(id, steps) {
            return Some(Side::Below);
        }
        None
    }

    /// Why a block isn't added to these, if it isn't: the refusal of `insert`. The offset counts bytes.
    pub fn refusal_to_add<P: Layer>(
        &self,
        layer: &P,
        id: u32,
        offset: u32,
        lines: &[Text],
        steps: &mut Steps,
    ) -> Option<Refusal>
        ensures refusal { result ≡ add_refusal (P.source layer.now) self.now id offset lines.now }
        ensures counted { steps.old ≤ steps.new }
        ensures steps { let count = length self.now.above + length self.now.below in
            SearchesBoth count steps.old steps.new }
    {
        // For the proof: the text is UTF-8.
        let _len = layer.buffer_len();
        if self.side_of(id, steps).is_some() {
            return Some(Refusal::IdInUse);
        }
        if !layer.on_boundary(offset) {
            return Some(Refusal::BadRange);
        }
        if !are_block_lines(lines) {
            return Some(Refusal::BadText);
        }
        if has_long_line(lines) {
            return Some(Refusal::TooLong);
        }
        let count = self.len() as usize;
        if count >= ENTRY_LIMIT {
            return Some(Refusal::TooLong);
        }
        None
    }

    /// Adds a block to a side.
    fn add(
        &mut self,
        alloc: Global,
        id: u32,
        side: Side,
        offset: u32,
        lines: BlockLines,
        steps: &mut Steps,
    ) -> Result<(), NoMemory>
        // There is room for one more, neither side has the id, and the lines are such as a block may have.
        requires room { length self.old.above + length self.old.below < ENTRY_LIMIT }
        requires unused { has_block id self.old ≡ false }
        requires lawful { AreBlockLines lines }

        // The map with the block in its order, or as it was.
        ensures ok { OnOk result (self.new ≡ added side (fresh id offset lines) self.old) }
        ensures unchanged { OnErr result (self.new ≡ self.old) }

        // The work: the blocks of that side may be looked at twice.
        ensures counted { steps.old ≤ steps.new }
        ensures steps { let count = length (on_side side self.old) in
            SearchesTwice altering_side (count + 1) steps.old steps.new }
    {
        match side {
            Side::Above => self.above.add(alloc, id, offset, lines, steps),
            Side::Below => self.below.add(alloc, id, offset, lines, steps),
        }
    }

    /// Takes the block of this id out of the side that has it.
    fn take(
        &mut self,
        alloc: Global,
        id: u32,
        side: Side,
        steps: &mut Steps,
    ) -> Result<(), NoMemory>
        // That side has it.
        requires { is_kept id (on_side side self.old) ≡ true }

        // The map without it, or as it was.
        ensures ok { OnOk result (self.new ≡ removed id self.old) }
        ensures unchanged { OnErr result (self.new ≡ self.old) }

        // The work: the blocks of that side may be looked at twice.
        ensures counted { steps.old ≤ steps.new }
        ensures steps { let count = length (on_side side self.old) in
            SearchesTwice altering_side count steps.old steps.new }
    {
        match side {
            Side::Above => self.above.take(alloc, id, steps),
            Side::Below => self.below.take(alloc, id, steps),
        }
    }
}
