//! Patches, as lists of edits in order.
ghost use Rattle.std.specs.Prelude.{◌≡◌, ℕ, ◌+◌, ◌^◌, ◌<◌, ◌↔◌, [], List, IsTrue, IsOk, IfOk, IfErr, IfSome};
ghost use Rattle.edit_patch.specs.declared.edit.Edit.{Edit};
ghost use Rattle.edit_patch.specs.Came.{origin_of, carry_of, inverted};
ghost use Rattle.edit_patch.specs.Fits.{replacement};
ghost use Rattle.edit_patch.specs.Patch.{IsPatch, IsComposed, AllFit};

use crate::edit::Edit;
use crate::merge::merged;
use cell_units::{NoMemory, Refusal, Shift};
use std::alloc::Global;
use std::marker::Model;

/// A list of edits in order (*Patches*), none empty on both sides, with at least one kept position between neighbours.
/// Before and between edits there are as many kept positions on the old side as on the new. Contracts see it as that
/// list.
pub struct Patch {
    edits: Vec<Edit>,
}

impl Drop for Patch {
    fn drop(self) {
        let Patch { edits: _ } = self;
    }
}

impl Model for Patch {
    ghost use Rattle.std.specs.Prelude.{List};
    ghost use Rattle.edit_patch.specs.declared.edit.Edit.{Edit};
    ghost use Rattle.edit_patch.specs.Patch.{IsPatch};

    ghost Value = { List Edit };

    ghost view = { λ p. p.edits.items };

    ghost invariant = { λ p. IsPatch p.edits.items };
}

impl Patch {
    /// The patch by which every position came from itself. It allocates nothing.
    pub fn none(alloc: Global) -> Patch
        ensures { result ≡ [] }
    {
        Patch {
            edits: Vec::new(alloc),
        }
    }

    /// The patch of these edits. `BadRange` exactly where no patch has them. It allocates nothing.
    pub fn of(edits: Vec<Edit>) -> Result<Patch, Refusal>
        ensures accepted { IsOk result ↔ IsPatch edits.items }
        ensures value { IfOk result (λ p. p ≡ edits.items) }
        ensures refused { IfErr result (λ e. e ≡ Refusal.BadRange) }
    {
        if is_patch(edits.as_slice()) {
            Ok(Patch { edits })
        } else {
            Err(Refusal::BadRange)
        }
    }

    /// The patch of one replacement: of one edit, or of none where nothing replaces nothing. All positions of it must
    /// be u32.
    pub fn of_shift(alloc: Global, shift: Shift) -> Result<Patch, NoMemory>
        requires { shift.start + shift.count < 2 ^ 32 }
        ensures { IfOk result (λ p. p ≡ replacement shift.start shift.end shift.count) }
    {
        let mut edits = Vec::new(alloc);
        if shift.start < shift.end || shift.count > 0 {
            edits.push(Edit {
                old_start: shift.start,
                old_end: shift.end,
                new_start: shift.start,
                new_end: shift.start + shift.count,
            })?;
        }
        Ok(Patch { edits })
    }

    /// The edits, in order.
    pub fn edits(&self) -> &[Edit]
        ensures value { result.now ≡ self.now }
        ensures normal { IsPatch result.now }
    {
        self.edits.as_slice()
    }

    /// The patch of this one and then `later`: a position came from where `later` and then this one say. It is new
    /// where either says so. All positions of the result must be u32. It takes one pass over both.
    pub fn compose(&self, alloc: Global, later: &Patch) -> Result<Patch, NoMemory>
        requires { (c : List Edit) → IsComposed self.now later.now c → AllFit c }
        ensures { IfOk result (IsComposed self.now later.now) }
    {
        let edits = merged(alloc, self.edits(), later.edits())?;
        Ok(Patch { edits })
    }

    /// The patch that leads back, from the new positions to the old ones.
    pub fn invert(&self, alloc: Global) -> Result<Patch, NoMemory>
        ensures { IfOk result (λ p. p ≡ inverted self.now) }
    {
        let mut edits = Vec::new(alloc);
        for edit in self.edits() {
            edits.push(edit.flip())?;
        }
        Ok(Patch { edits })
    }

    /// The old position that the new one came from, which must be a u32. `None` exactly where it is new.
    pub fn origin(&self, new: u32) -> Option<u32>
        requires { IfSome (origin_of self.now new) (λ j. j < 2 ^ 32) }
        ensures { result ≡ origin_of self.now new }
    {
        let edits = self.edits();
        let begun = edits.partition_point(|edit| edit.new_start <= new);
        match edits[..begun].last() {
            None => Some(new),
            Some(last) if new < last.new_end => None,
            Some(last) => Some(last.old_end + (new - last.new_end)),
        }
    }

    /// The new position that the old one went to, which must be a u32. `None` exactly where it was replaced.
    pub fn carry(&self, old: u32) -> Option<u32>
        requires { IfSome (carry_of self.now old) (λ i. i < 2 ^ 32) }
        ensures { result ≡ carry_of self.now old }
    {
        let edits = self.edits();
        let begun = edits.partition_point(|edit| edit.old_start <= old);
        match edits[..begun].last() {
            None => Some(old),
            Some(last) if old < last.old_end => None,
            Some(last) => Some(last.new_end + (old - last.old_end)),
        }
    }
}

/// Whether the edits are those of a patch.
fn is_patch(edits: &[Edit]) -> bool
    ensures { IsTrue result ↔ IsPatch edits.now }
{
    let mut gap = 0;
    let mut old = 0;
    let mut new = 0;
    for edit in edits {
        if !edit.follows(gap, old, new) {
            return false;
        }
        gap = 1;
        old = edit.old_end;
        new = edit.new_end;
    }
    true
}
