//! Patches that are composed, inverted and asked.
ghost use Rattle.std.specs.Prelude.{◌≡◌, [], ◌∷◌, IfOk};
ghost use Rattle.edit_patch.specs.declared.edit.Edit.{Edit};
ghost use Rattle.edit_patch.specs.Came.{edit_of};
ghost use Rattle.edit_patch.specs.Patch.{IsPatch};

use cell_units::Refusal;
use edit_patch::{Edit, Patch};
use std::alloc::Global;
use std::test::Fail;

pub(crate) fn edit(old_start: u32, old_end: u32, new_start: u32, new_end: u32) -> Edit
    ensures { result ≡ edit_of old_start old_end new_start new_end }
{
    Edit {
        old_start,
        old_end,
        new_start,
        new_end,
    }
}

/// The patch of one edit.
pub(crate) fn one(alloc: Global, edit: Edit) -> Result<Patch, Fail>
    ensures { IfOk result (λ p. p ≡ edit ∷ []) }
{
    let patch = Patch::of(vec![in alloc; edit]?)?;
    Ok(patch)
}

#[test]
fn traces_positions(rt: HostRuntime) -> Result<(), Fail> {
    let patch = one(rt.alloc(), edit(2, 5, 2, 3))?;
    let origins = (patch.origin(2), patch.origin(3));
    assert_eq!(rt; origins, (None, Some(5)));
    let carried = (patch.carry(4), patch.carry(5));
    assert_eq!(rt; carried, (None, Some(3)));
    Ok(())
}

#[test]
fn forgets_what_was_inserted_and_deleted(rt: HostRuntime) -> Result<(), Fail> {
    let inserts = one(rt.alloc(), edit(3, 3, 3, 5))?;
    let deletes = one(rt.alloc(), edit(3, 5, 3, 3))?;
    let both = inserts.compose(rt.alloc(), &deletes)?;
    assert_eq!(rt; both.edits(), Patch::none(rt.alloc()).edits());
    Ok(())
}

#[test]
fn refuses_edits_with_no_kept_position_between(rt: HostRuntime) -> Result<(), Fail> {
    let touching = vec![in rt.alloc(); edit(2, 4, 2, 5), edit(4, 6, 5, 6)]?;
    assert_eq!(rt; Patch::of(touching).err(), Some(Refusal::BadRange));
    Ok(())
}
