//! The marks of one side's blocks, which may have a replacement of the text yet to follow.
ghost use Rattle.std.specs.Prelude.{◌≡◌, ◌≤◌, [], Some, false, length, option_map, slice_get, IfOk, MatchOption};
ghost use Rattle.std.specs.List.{list_any};
ghost use Rattle.mark_tree.specs.Bounds.{moving};
ghost use Rattle.mark_tree.specs.Marks.{has_id, mark_with};
ghost use Rattle.sum_tree.specs.Bounds.{Searches, TakesAtMost, way};
ghost use Rattle.block_map.specs.inside.SideMoves.{MayFollow, marks_after};

use crate::block_lines::BlockLines;
use cell_units::{Bias, NoMemory, Shift, Steps};
use mark_tree::{MarkTree, moved_offset};
use std::alloc::Global;
use std::marker::Model;

/// The marks of blocks, and the replacement that they have yet to follow, if there is one: it meets none of them. A
/// tree that nobody else holds is moved in place, where its share would be copied on the way to a mark. Contracts see
/// the marks after it.
pub(crate) struct BlockMarks {
    marks: MarkTree<BlockLines>,
    pending: Option<Shift>,
}

impl Drop for BlockMarks {
    fn drop(self) {
        let BlockMarks {
            marks: _,
            pending: _,
        } = self;
    }
}

impl Model for BlockMarks {
    ghost use Rattle.std.specs.Prelude.{List};
    ghost use Rattle.block_map.specs.inside.SideMoves.{MayFollow, marks_after};
    ghost use Rattle.block_map.specs.inside.Sides.{BlockMark};

    ghost Value = { List BlockMark };

    ghost view = { λ m. marks_after m.pending m.marks };

    ghost invariant = { λ m. MayFollow m.pending m.marks };
}

impl BlockMarks {
    /// No mark. It takes no memory.
    pub(crate) fn new(alloc: Global) -> BlockMarks
        ensures { result ≡ [] }
    {
        BlockMarks::of(MarkTree::new(alloc))
    }

    /// The marks of a tree.
    pub(crate) fn of(marks: MarkTree<BlockLines>) -> BlockMarks
        ensures { result ≡ marks }
    {
        // For the proof: offsets of marks are u32.
        let _count = marks.len();
        BlockMarks {
            marks,
            pending: None,
        }
    }

    /// The marks after a replacement that meets none of them, if there was one. One that keeps the length of the text
    /// moves none, and any other is left to be followed.
    pub(crate) fn behind(marks: MarkTree<BlockLines>, shift: Option<Shift>) -> BlockMarks
        requires { MayFollow shift marks }
        ensures { result ≡ marks_after shift marks }
    {
        // For the proof: marks are in order.
        let _count = marks.len();
        match shift {
            None => BlockMarks::of(marks),
            Some(shift) => {
                if shift.count == shift.end - shift.start {
                    return BlockMarks::of(marks);
                }
                BlockMarks {
                    marks,
                    pending: Some(shift),
                }
            }
        }
    }

    /// Equal marks, which no later change of these reaches.
    pub(crate) fn share(&self) -> Result<BlockMarks, NoMemory>
        ensures { IfOk result (λ m. m ≡ self.now) }
    {
        Ok(BlockMarks {
            marks: self.marks.share()?,
            pending: self.pending,
        })
    }

    /// The number of marks.
    pub(crate) fn len(&self) -> u32
        ensures { result ≡ length self.now }
    {
        self.marks.len()
    }

    /// The offset, bias, id and lines of the mark at a place, counted from 0. `None` exactly where there is none.
    pub(crate) fn get(&self, at: u32, steps: &mut Steps) -> Option<(u32, Bias, u32, &BlockLines)>
        ensures mark { MatchOption result (length self.now ≤ at) (λ m.
            slice_get self.now at ≡ Some (mark_with m.0 m.1 m.2 m.3.now)) }
        ensures counted { steps.old ≤ steps.new }
        ensures steps { TakesAtMost way (length self.now) steps.old steps.new }
    {
        // For the proof: marks are in order.
        let _count = self.marks.len();
        let (offset, bias, id, lines) = self.marks.get(at, steps)?;
        match self.pending {
            None => Some((offset, bias, id, lines)),
            Some(shift) => Some((moved_offset(offset, bias, &shift), bias, id, lines)),
        }
    }

    /// The place of the mark of this id, counted from 0, which no replacement changes. `None` exactly where there is none.
    pub(crate) fn find(&self, id: u32, steps: &mut Steps) -> Option<u32>
        ensures place { MatchOption result (list_any (has_id id) self.now ≡ false) (λ at.
            option_map (λ m. m.id) (slice_get self.now at) ≡ Some id) }
        ensures counted { steps.old ≤ steps.new }
        ensures steps { Searches (length self.now) steps.old steps.new }
    {
        // For the proof: marks are in order.
        let _count = self.marks.len();
        self.marks.find(id, steps)
    }

    /// Whether there is a mark of this id, which no replacement changes.
    pub(crate) fn contains(&self, id: u32, steps: &mut Steps) -> bool
        ensures value { result ≡ list_any (has_id id) self.now }
        ensures counted { steps.old ≤ steps.new }
        ensures steps { Searches (length self.now) steps.old steps.new }
    {
        self.marks.contains(id, steps)
    }

    /// Moves the marks by the replacement that they have yet to follow, in place, and returns a share of their tree.
    pub(crate) fn settled(
        &mut self,
        alloc: Global,
        steps: &mut Steps,
    ) -> Result<MarkTree<BlockLines>, NoMemory>
        ensures ok { IfOk result (λ marks. marks ≡ self.old) }
        ensures kept { self.new ≡ self.old }
        ensures counted { steps.old ≤ steps.new }
        ensures steps { TakesAtMost (moving 0) (length self.old) steps.old steps.new }
    {
        match self.pending {
            None => self.marks.share(),
            Some(shift) => {
                self.marks.apply(alloc, shift, steps)?;
                self.pending = None;
                self.marks.share()
            }
        }
    }
}
