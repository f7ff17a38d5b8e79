//! The merge of two patches, of which the second applies to what the first made, into the one that composes them.
//!
//! The edits of both are taken by where they begin in the middle text. That is the new one of the first patch, and the
//! old one of the second. Those whose closed middle ranges touch make one edit of the result. They make none where it
//! is empty on both sides, as where an insertion is deleted again. Between two of these both patches keep a middle
//! position. So no edit of the result has to be joined or dropped later, and one pass is enough.
ghost use Rattle.std.specs.Prelude.{◌≡◌, ℕ, ◌^◌, ◌<◌, ◌++◌, [], List, IfOk};
ghost use Rattle.edit_patch.specs.declared.edit.Edit.{Edit};
ghost use Rattle.edit_patch.specs.Patch.{IsPatch, IsComposed, AllFit};

use crate::edit::Edit;
use cell_units::NoMemory;
use std::alloc::Global;

/// A place of an old text and one of a new text that correspond.
#[derive(Clone, Copy)]
pub struct Place {
    pub old: u64,
    pub new: u64,
}

/// How far a merge has come.
#[derive(Clone, Copy)]
pub struct Front {
    /// Where the open edit of the result begins.
    pub start: Place,
    /// After the last edit that was taken of the first patch, or a kept position later.
    pub first: Place,
    /// The same of the second patch.
    pub second: Place,
}

impl Front {
    ghost use Rattle.std.specs.Prelude.{◌≡◌, ◌≤◌, ◌<◌, ◌^◌};
    ghost use Rattle.std.specs.Option.{option_to_list};
    ghost use Rattle.edit_patch.specs.Merge.{reach_of, place_at, open_edit, opened_at, IsBounded, IsClosable};

    /// How far the edits taken so far go in the middle text.
    fn reach(&self) -> u64
        ensures { result ≡ reach_of self.now }
    {
        self.first.new.max(self.second.old)
    }

    /// The old and the new place that correspond to a middle one, which is not before the reach.
    fn place_at(&self, middle: u64) -> Place
        requires bounded { IsBounded self.now }
        requires reached { reach_of self.now ≤ middle }
        requires fits { middle < 2 ^ 32 }
        ensures { result ≡ place_at self.now middle }
    {
        Place {
            old: self.first.old + (middle - self.first.new),
            new: self.second.new + (middle - self.second.old),
        }
    }

    /// The open edit. `None` where it is empty on both sides.
    fn open_edit(&self) -> Option<Edit>
        requires { IsClosable self.now }
        ensures { option_to_list result ≡ open_edit self.now }
    {
        let end = self.place_at(self.reach());
        if self.start.old < end.old || self.start.new < end.new {
            Some(Edit {
                old_start: self.start.old as u32,
                old_end: end.old as u32,
                new_start: self.start.new as u32,
                new_end: end.new as u32,
            })
        } else {
            None
        }
    }

    /// Where the merge is once another edit is open, which begins at the middle place.
    fn opened_at(&self, middle: u64) -> Front
        requires bounded { IsBounded self.now }
        requires reached { reach_of self.now ≤ middle }
        requires fits { middle < 2 ^ 32 }
        ensures { result ≡ opened_at self.now middle }
    {
        let place = self.place_at(middle);
        Front {
            start: place,
            first: Place {
                old: place.old,
                new: middle,
            },
            second: Place {
                old: middle,
                new: place.new,
            },
        }
    }
}

/// A merge, with the edits of the result that are closed.
#[derive(Drop)]
pub struct Merge {
    front: Front,
    edits: Vec<Edit>,
}

impl Merge {
    ghost use Rattle.std.specs.Prelude.{◌≡◌, ◌++◌, ◌∷◌, [], OnOk};
    ghost use Rattle.edit_patch.specs.Merge.{open_edit, advanced, passed, with_first, with_second, IsBounded, IsClosable, CanAdvance, begun};

    /// A merge of which nothing is taken.
    fn new(alloc: Global) -> Merge
        ensures front { result.front ≡ begun }
        ensures edits { result.edits.items ≡ [] }
    {
        let begun = Place { old: 0, new: 0 };
        Merge {
            front: Front {
                start: begun,
                first: begun,
                second: begun,
            },
            edits: Vec::new(alloc),
        }
    }

    /// Closes the open edit.
    fn close(&mut self) -> Result<(), NoMemory>
        requires { IsClosable self.old.front }
        ensures front { OnOk result (self.new.front ≡ self.old.front) }
        ensures edits { OnOk result
            (self.new.edits.items ≡ self.old.edits.items ++ open_edit self.old.front) }
    {
        if let Some(edit) = self.front.open_edit() {
            self.edits.push(edit)?;
        }
        Ok(())
    }

    /// Goes on to the middle place at which the next edit begins. Past the reach the open edit is closed, and another
    /// opened.
    fn advance(&mut self, middle: u32) -> Result<(), NoMemory>
        requires { CanAdvance self.old.front middle }
        ensures front { OnOk result (self.new.front ≡ advanced self.old.front middle) }
        ensures edits { OnOk result
            (self.new.edits.items ≡ self.old.edits.items ++ passed self.old.front middle) }
        ensures bounded { OnOk result (IsBounded self.new.front) }
    {
        let middle = u64::from(middle);
        if self.front.reach() < middle {
            self.close()?;
            self.front = self.front.opened_at(middle);
        }
        Ok(())
    }

    /// Takes the next edit of the first patch.
    fn take_first(&mut self, edit: &Edit) -> Result<(), NoMemory>
        requires { CanAdvance self.old.front edit.now.new_start }
        ensures front { OnOk result
            (self.new.front ≡ with_first (advanced self.old.front edit.now.new_start) edit.now) }
        ensures edits { OnOk result
            (self.new.edits.items ≡ self.old.edits.items ++ passed self.old.front edit.now.new_start) }
        ensures bounded { OnOk result (IsBounded self.new.front) }
    {
        self.advance(edit.new_start)?;
        self.front.first = Place {
            old: u64::from(edit.old_end),
            new: u64::from(edit.new_end),
        };
        Ok(())
    }

    /// Takes the next edit of the second patch.
    fn take_second(&mut self, edit: &Edit) -> Result<(), NoMemory>
        requires { CanAdvance self.old.front edit.now.old_start }
        ensures front { OnOk result
            (self.new.front ≡ with_second (advanced self.old.front edit.now.old_start) edit.now) }
        ensures edits { OnOk result
            (self.new.edits.items ≡ self.old.edits.items ++ passed self.old.front edit.now.old_start) }
        ensures bounded { OnOk result (IsBounded self.new.front) }
    {
        self.advance(edit.old_start)?;
        self.front.second = Place {
            old: u64::from(edit.old_end),
            new: u64::from(edit.new_end),
        };
        Ok(())
    }
}

/// The edits of the patch that composes two. Each step takes one edit of either.
pub fn merged(alloc: Global, first: &[Edit], second: &[Edit]) -> Result<Vec<Edit>, NoMemory>
    requires first { IsPatch first.now }
    requires second { IsPatch second.now }
    requires fits { (c : List Edit) → IsComposed first.now second.now c → AllFit c }
    ensures { IfOk result (λ v. IsComposed first.now second.now v.items) }
{
    let mut merge = Merge::new(alloc);
    let mut taken = 0;
    for edit in second {
        while taken < first.len() && first[taken].new_start <= edit.old_start {
            merge.take_first(&first[taken])?;
            taken += 1;
        }
        merge.take_second(edit)?;
    }
    for edit in &first[taken..] {
        merge.take_first(edit)?;
    }
    merge.close()?;
    Ok(merge.edits)
}
