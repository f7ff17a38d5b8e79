//! A sheet as plain lists.
ghost use Rattle.std.specs.Prelude.{◌≡◌, ◌+◌, ◌-◌, ◌<◌, ◌≤◌, [], ◌∷◌, ◌++◌, List, Some, length, map, nat_le, slice_get, IfOk};
ghost use Rattle.cell_units.specs.Record.{Block, in_order};
ghost use Rattle.kept_sheet.specs.Kept.{widths_of};
ghost use Rattle.plain_rows.specs.Plain.{block_of, fold_of, inlay_of, record_of};
ghost use Rattle.map_sheet.specs.Listed.{AreListed, IsNextSide, key_of, side_blocks};

use crate::sheet::MapSheet;
use blocked_rows::blocked_laws;
use cell_line::Lines;
use cell_units::{NoMemory, Side, Steps, Text};
use display_sheet::change::copied;
use plain_rows::{Plain, PlainBlock, PlainFold, PlainInlay};
use std::alloc::Global;

/// Whether one offset with its id comes at or before another.
fn comes_first(x: (u32, u32), y: (u32, u32)) -> bool
    ensures { result ≡ in_order x.0 y.0 (nat_le x.1 y.1) }
{
    x.0 < y.0 || (x.0 == y.0 && x.1 <= y.1)
}

impl MapSheet {
    /// The record as plain lists.
    pub(crate) fn listed(&self, alloc: Global, steps: &mut Steps) -> Result<Plain, NoMemory>
        ensures same { IfOk result (λ plain. record_of plain ≡ self.now) }
        ensures counted { steps.old ≤ steps.new }
    {
        // For the proof: the record is lawful.
        self.lawful();
        let text = self.all_text(alloc, steps)?;
        let inlays = self.inlays(alloc, steps)?;
        let folds = self.folds(alloc, steps)?;
        let blocks = self.blocks(alloc, steps)?;
        let marks = self.widths(alloc, steps)?;
        Ok(Plain {
            text,
            inlays,
            folds,
            blocks,
            tab: self.wrapped().tab(),
            width: self.wrapped().width(),
            marks,
        })
    }

    /// The whole text.
    fn all_text(&self, alloc: Global, steps: &mut Steps) -> Result<Text, NoMemory>
        ensures text { IfOk result (λ text. text ≡ self.now.text) }
        ensures counted { steps.old ≤ steps.new }
    {
        // For the proof: the record is lawful.
        self.lawful();
        let rope = self.text().rope();
        rope.slice(alloc, 0, rope.len(), steps)
    }

    /// The inlays in order.
    fn inlays(&self, alloc: Global, steps: &mut Steps) -> Result<Vec<PlainInlay>, NoMemory>
        ensures inlays { IfOk result (λ inlays. map inlay_of inlays.items ≡ self.now.inlays) }
        ensures counted { steps.old ≤ steps.new }
    {
        let inlaid = self.text().inlaid();
        let mut inlays = Vec::new(alloc);
        for at in 0..inlaid.count() {
            let Some((offset, bias, id, text)) = inlaid.get(at, steps) else {
                unreachable!()
            };
            let text = Text::from_str(alloc, text)?;
            inlays.push(PlainInlay {
                id,
                offset,
                bias,
                text,
            })?;
        }
        Ok(inlays)
    }

    /// The folds in order.
    fn folds(&self, alloc: Global, steps: &mut Steps) -> Result<Vec<PlainFold>, NoMemory>
        ensures folds { IfOk result (λ folds. map fold_of folds.items ≡ self.now.folds) }
        ensures counted { steps.old ≤ steps.new }
    {
        let layer = self.text().layer();
        let mut folds = Vec::new(alloc);
        for at in 0..layer.count() {
            let Some(range) = layer.get(at, steps) else {
                unreachable!()
            };
            folds.push(PlainFold {
                id: range.id,
                start: range.start,
                end: range.end,
            })?;
        }
        Ok(folds)
    }

    /// The offset and id of a block of one side, by its place among those of that side; `None` where there is none.
    fn key(&self, side: Side, at: u32, steps: &mut Steps) -> Option<(u32, u32)>
        ensures key { result ≡ key_of (slice_get (side_blocks self.now side) at) }
        ensures counted { steps.old ≤ steps.new }
    {
        let Some((offset, id, _lines)) = self.blocked().block(side, at, steps) else {
            return None;
        };
        Some((offset, id))
    }

    /// The block of one side at a place among those of that side.
    fn block_at(
        &self,
        alloc: Global,
        side: Side,
        at: u32,
        steps: &mut Steps,
    ) -> Result<PlainBlock, NoMemory>
        requires { at < length (side_blocks self.now side) }
        ensures block { IfOk result (λ block.
            slice_get (side_blocks self.now side) at ≡ Some (block_of block)) }
        ensures counted { steps.old ≤ steps.new }
    {
        let Some((offset, id, lines)) = self.blocked().block(side, at, steps) else {
            unreachable!()
        };
        let lines = copied(alloc, lines)?;
        Ok(PlainBlock {
            id,
            side,
            offset,
            lines,
        })
    }

    /// The side of the next block by offset and id, where so many of each side are listed, and not all.
    fn next_side(&self, above: u32, below: u32, steps: &mut Steps) -> Side
        requires { above + below < length self.now.blocks }
        ensures next { IsNextSide self.now above below result }
        ensures counted { steps.old ≤ steps.new }
    {
        // For the proof: the blocks at their lines show the rows of the record.
        blocked_laws();
        let x = self.key(Side::Above, above, steps);
        let y = self.key(Side::Below, below, steps);
        let Some(x) = x else { return Side::Below };
        let Some(y) = y else { return Side::Above };
        if comes_first(x, y) {
            Side::Above
        } else {
            Side::Below
        }
    }

    /// The next block by offset and id, where so many of each side are listed, and how many above lines are then.
    fn next_block(
        &self,
        alloc: Global,
        above: u32,
        below: u32,
        steps: &mut Steps,
    ) -> Result<(PlainBlock, u32), NoMemory>
        requires { above + below < length self.now.blocks }
        ensures next { (listed : List Block) → AreListed self.now above below listed →
            IfOk result (λ next. let rest = above + below + 1 - next.1 in
            AreListed self.now next.1 rest (listed ++ block_of next.0 ∷ [])) }
        ensures above { IfOk result (λ next. next.1 ≤ above + below + 1) }
        ensures counted { steps.old ≤ steps.new }
    {
        // For the proof: the record is lawful, and the blocks at their lines show the rows of the record.
        self.lawful();
        blocked_laws();
        // For the proof: all blocks are as many as a u32 counts.
        let _count = self.blocked().len();
        match self.next_side(above, below, steps) {
            Side::Above => {
                let block = self.block_at(alloc, Side::Above, above, steps)?;
                Ok((block, above + 1))
            }
            Side::Below => {
                let block = self.block_at(alloc, Side::Below, below, steps)?;
                Ok((block, above))
            }
        }
    }

    /// The blocks of both sides by offset and id.
    fn blocks(&self, alloc: Global, steps: &mut Steps) -> Result<Vec<PlainBlock>, NoMemory>
        ensures blocks { IfOk result (λ blocks. map block_of blocks.items ≡ self.now.blocks) }
        ensures counted { steps.old ≤ steps.new }
    {
        // For the proof: the record is lawful, and the blocks at their lines show the rows of the record.
        self.lawful();
        blocked_laws();
        let mut blocks = Vec::new(alloc);
        let mut above = 0;
        for listed in 0..self.blocked().len() {
            let next = self.next_block(alloc, above, listed - above, steps)?;
            blocks.push(next.0)?;
            above = next.1;
        }
        Ok(blocks)
    }

    /// Of each line the width in cells at which it is wrapped, 0 if it has one row.
    fn widths(&self, alloc: Global, steps: &mut Steps) -> Result<Vec<u32>, NoMemory>
        ensures widths { IfOk result (λ widths. widths.items ≡ widths_of self.now) }
        ensures counted { steps.old ≤ steps.new }
    {
        // For the proof: the record is lawful.
        self.lawful();
        let count = self.wrapped().lines().lines();
        let mut widths = Vec::with_capacity(alloc, count as usize)?;
        for line in 0..count {
            widths.push(self.wrapped().rows().mark(line, steps))?;
        }
        Ok(widths)
    }
}
