//! What the plain functions return on a record that is written out.
ghost use Rattle.std.specs.Prelude.{◌≡◌, [], ◌∷◌, IfOk, codes};
ghost use Rattle.cell_units.specs.declared.place.Bias.TheVariants.{Right};
ghost use Rattle.cell_units.specs.Worked.{folded_record, inlay};
ghost use Rattle.plain_rows.specs.Plain.{record_of};

use cell_units::{Bias, NoMemory, Spot, Text};
use plain_rows::{Plain, PlainInlay, back, build, clip, show};
use std::alloc::Global;
use std::process::Abort;
use std::test::Fail;

/// The text `let x = 1` with `: i32` after its name, wrapped.
pub(crate) fn typed(alloc: Global) -> Result<Plain, NoMemory>
    ensures { IfOk result (λ plain. record_of plain ≡
        folded_record (codes "let x = 1") (inlay 5 Right 1 (codes ": i32") ∷ []) []) }
{
    let inlay = PlainInlay {
        id: 1,
        offset: 5,
        bias: Bias::Right,
        text: Text::from_str(alloc, ": i32")?,
    };
    Ok(Plain {
        text: Text::from_str(alloc, "let x = 1")?,
        inlays: vec![in alloc; inlay]?,
        folds: Vec::new(alloc),
        blocks: Vec::new(alloc),
        tab: 4,
        width: 80,
        marks: vec![in alloc; 80]?,
    })
}

/// Asserts that it has one row.
fn assert_row(rt: &impl Abort, alloc: Global, plain: &Plain) -> Result<(), NoMemory>
    requires { record_of plain.now ≡
        folded_record (codes "let x = 1") (inlay 5 Right 1 (codes ": i32") ∷ []) [] }
{
    let rows = build(alloc, plain)?;
    assert_eq!(rt; rows.len(), 1);
    let (letter, text) = &rows[0];
    assert_eq!(rt; (*letter, text.as_str()), (b't', "let x: i32 = 1"));
    Ok(())
}

/// Asserts where it shows what.
fn assert_places(rt: &impl Abort, alloc: Global, plain: &Plain) -> Result<(), NoMemory>
    requires { record_of plain.now ≡
        folded_record (codes "let x = 1") (inlay 5 Right 1 (codes ": i32") ∷ []) [] }
{
    let right = show(alloc, plain, 5, Bias::Right)?;
    assert_eq!(rt; right, Spot { row: 0, col: 10 });
    let spot = Spot { row: 0, col: 7 };
    let nearest = clip(alloc, plain, spot, Bias::Left)?;
    assert_eq!(rt; nearest, Spot { row: 0, col: 5 });
    assert_eq!(rt; back(alloc, plain, spot, Bias::Right)?, 5);
    Ok(())
}

#[test]
fn an_inlay_is_shown_at_its_offset(rt: HostRuntime) -> Result<(), Fail> {
    let alloc = rt.alloc();
    let plain = typed(alloc)?;
    assert_row(&rt, alloc, &plain)?;
    assert_places(&rt, alloc, &plain)?;
    Ok(())
}
