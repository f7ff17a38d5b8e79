//! The blocks of one side, above lines or below them, each with its stop.
ghost use Rattle.std.specs.Prelude.{◌≡◌, ◌==◌, ◌+◌, ◌<◌, ◌≤◌, ◌^◌, [], true, false, length, IfOk, MatchOption, OnErr, OnOk};
ghost use Rattle.std.specs.List.{list_any};
ghost use Rattle.cell_units.specs.declared.limits.TheConstants.{ENTRY_LIMIT};
ghost use Rattle.cell_units.specs.Lawful.{AreBlockLines};
ghost use Rattle.cell_units.specs.Sorting.{insert_by};
ghost use Rattle.sum_tree.specs.Bounds.{Searches, TakesAtMost, way};
ghost use Rattle.block_map.specs.Bounds.{SearchesTwice, altering_side};
ghost use Rattle.block_map.specs.Maps.{IsBlockAt, IsPlaceOf, fresh, kept_le, without};
ghost use Rattle.cell_units.specs.declared.place.Bias.TheVariants.{Right};
ghost use Rattle.mark_tree.specs.Marks.{mark_with};

use crate::block_lines::BlockLines;
use crate::block_marks::BlockMarks;
use crate::marks_by_id::{with_new, without_any, without_known};
use crate::stops::Stops;
use cell_units::{Bias, NoMemory, Steps, Text};
use mark_tree::{Mark, MarkTree};
use std::alloc::Global;
use std::marker::Model;
use sum_core::NoLoad;

/// Blocks at their anchors, beside each its stop, and the anchors of those of which nothing is shown yet. Contracts see
/// the blocks in order, each with how many rows of text were before its own when it was shown.
pub(crate) struct BlockSide {
    pub(crate) marks: BlockMarks,
    pub(crate) stops: Stops,
    pub(crate) added: MarkTree<NoLoad>,
}

impl Drop for BlockSide {
    fn drop(self) {
        let BlockSide {
            marks: _,
            stops: _,
            added: _,
        } = self;
    }
}

impl Model for BlockSide {
    ghost use Rattle.std.specs.Prelude.{List};
    ghost use Rattle.block_map.specs.Maps.{Kept};
    ghost use Rattle.block_map.specs.inside.Sides.{IsSide, kept_of};

    ghost Value = { List Kept };

    ghost view = { λ s. kept_of s.marks s.stops };

    ghost invariant = { λ s. IsSide s.marks s.stops s.added };
}

impl BlockSide {
    /// No block. It takes no memory.
    pub(crate) fn new(alloc: Global) -> BlockSide
        ensures { result ≡ [] }
    {
        BlockSide {
            marks: BlockMarks::new(alloc),
            stops: Stops::new(alloc),
            added: MarkTree::new(alloc),
        }
    }

    /// Equal blocks, which no later change of these reaches.
    pub(crate) fn share(&self) -> Result<BlockSide, NoMemory>
        ensures { IfOk result (λ s. s ≡ self.now) }
    {
        let marks = self.marks.share()?;
        let stops = self.stops.share()?;
        let added = self.added.share()?;
        Ok(BlockSide {
            marks,
            stops,
            added,
        })
    }

    /// The number of blocks.
    pub(crate) fn len(&self) -> u32
        ensures { result ≡ length self.now }
    {
        self.marks.len()
    }

    /// The offset, id and lines of the block at a place, counted from 0. `None` exactly where there is none.
    pub(crate) fn get(&self, at: u32, steps: &mut Steps) -> Option<(u32, u32, &[Text])>
        ensures block { MatchOption result (length self.now ≤ at) (λ b.
            IsBlockAt self.now at b.0 b.1 b.2.now) }
        ensures counted { steps.old ≤ steps.new }
        ensures steps { TakesAtMost way (length self.now) steps.old steps.new }
    {
        let (offset, _bias, id, lines) = self.marks.get(at, steps)?;
        Some((offset, id, lines.texts()))
    }

    /// The place, counted from 0, of the block of this id. `None` exactly where there is none.
    pub(crate) fn find_id(&self, id: u32, steps: &mut Steps) -> Option<u32>
        ensures place { IsPlaceOf self.now id result }
        ensures counted { steps.old ≤ steps.new }
        ensures steps { Searches (length self.now) steps.old steps.new }
    {
        self.marks.find(id, steps)
    }

    /// Whether there is a block of this id.
    pub(crate) fn has_id(&self, id: u32, steps: &mut Steps) -> bool
        ensures value { result ≡ list_any (λ k. k.id == id) self.now }
        ensures counted { steps.old ≤ steps.new }
        ensures steps { Searches (length self.now) steps.old steps.new }
    {
        self.marks.contains(id, steps)
    }

    /// Adds a block, of which nothing is shown yet.
    pub(crate) fn add(
        &mut self,
        alloc: Global,
        id: u32,
        offset: u32,
        lines: BlockLines,
        steps: &mut Steps,
    ) -> Result<(), NoMemory>
        // There is room for one more, no block has the id, and the lines are such as a block may have.
        requires room { length self.old < ENTRY_LIMIT }
        requires unused { list_any (λ k. k.id == id) self.old ≡ false }
        requires lawful { AreBlockLines lines }

        // The blocks with it, by offset and then id, or as they were.
        ensures ok { OnOk result (self.new ≡ insert_by kept_le (fresh id offset lines) self.old) }
        ensures unchanged { OnErr result (self.new ≡ self.old) }

        // The work: every block may be looked at twice.
        ensures counted { steps.old ≤ steps.new }
        ensures steps { SearchesTwice altering_side (length self.old + 1) steps.old steps.new }
    {
        let settled = self.marks.settled(alloc, steps)?;
        // For the proof: marks are in order, of distinct ids.
        let _marks = settled.len();
        let block = mark(offset, id, lines);
        let (at, marks) = with_new(&settled, alloc, block, steps)?;
        let stops = self.stops.with_none(alloc, at, steps)?;
        let anchor = mark(offset, id, NoLoad);
        let (_, added) = with_new(&self.added, alloc, anchor, steps)?;
        *self = BlockSide {
            marks: BlockMarks::of(marks),
            stops,
            added,
        };
        Ok(())
    }

    /// Takes out the block of this id.
    pub(crate) fn take(&mut self, alloc: Global, id: u32, steps: &mut Steps) -> Result<(), NoMemory>
        // There is one.
        requires { list_any (λ k. k.id == id) self.old ≡ true }

        // The blocks without it, or as they were.
        ensures ok { OnOk result (self.new ≡ without id self.old) }
        ensures unchanged { OnErr result (self.new ≡ self.old) }

        // The work: every block may be looked at twice.
        ensures counted { steps.old ≤ steps.new }
        ensures steps { SearchesTwice altering_side (length self.old) steps.old steps.new }
    {
        let settled = self.marks.settled(alloc, steps)?;
        // For the proof: marks are in order, of distinct ids.
        let _marks = settled.len();
        let (at, marks) = without_known(&settled, alloc, id, steps)?;
        let stops = self.stops.without(alloc, at, steps)?;
        let added = without_any(&self.added, alloc, id, steps)?;
        *self = BlockSide {
            marks: BlockMarks::of(marks),
            stops,
            added,
        };
        Ok(())
    }
}

/// The mark of a block, which goes after what is inserted at its offset.
fn mark<P>(offset: u32, id: u32, load: P) -> Mark<P>
    ensures { result ≡ mark_with offset Right id load }
{
    Mark {
        offset,
        bias: Bias::Right,
        id,
        load,
    }
}
