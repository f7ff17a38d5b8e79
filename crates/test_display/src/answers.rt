//! What views return.
ghost use Rattle.std.specs.Prelude.{◌≡◌, [], IfOk, codes};
ghost use Rattle.cell_units.specs.Text.{clean};

use crate::views::{assert_row, view_of};
use cell_units::{Bias, Fault, NoMemory, Point, Refusal, Spot, Steps, Text};
use display_map::{Kind, ViewOn};
use kept_sheet::Sheet;
use map_sheet::MapSheet;
use std::alloc::Global;
use std::process::Abort;
use std::test::Fail;

/// Asserts where a view of `abc` shows what.
fn assert_places<S: Sheet>(rt: &impl Abort, alloc: Global, view: &ViewOn<S>) -> Result<(), Fail> {
    let mut steps = Steps::new();
    let past = view.show(alloc, 4, Bias::Left, &mut steps);
    assert_eq!(rt; past, Err(Fault::Refused(Refusal::BadRange)));
    let spot = Spot { row: 0, col: 9 };
    let nearest = view.clip(alloc, spot, Bias::Left, &mut steps)?;
    assert_eq!(rt; nearest, Spot { row: 0, col: 3 });
    assert_eq!(rt; view.back(alloc, spot, Bias::Right, &mut steps)?, 3);
    Ok(())
}

/// Asserts that there is no row of this number.
fn assert_no_row<S: Sheet>(
    rt: &impl Abort,
    alloc: Global,
    view: &ViewOn<S>,
    row: u32,
) -> Result<(), NoMemory> {
    let shown = view.row(alloc, row, &mut Steps::new())?;
    assert!(rt; shown.is_none());
    Ok(())
}

/// Asserts the rows of such a view, and where it shows what.
fn assert_shown<S: Sheet>(rt: &impl Abort, alloc: Global) -> Result<(), Fail> {
    let view = view_of::<S>(alloc, b"abc")?;
    assert_row(rt, alloc, &view, 0, Kind::Head, "abc")?;
    assert_no_row(rt, alloc, &view, 1)?;
    assert_places(rt, alloc, &view)
}

#[test]
fn a_view_has_rows_and_places(rt: HostRuntime) -> Result<(), Fail> {
    assert_shown::<MapSheet>(&rt, rt.alloc())
}

/// A view of `abcdefg`.
fn letters<S: Sheet>(alloc: Global) -> Result<ViewOn<S>, Fail>
    ensures { IfOk result
        (λ view. view ≡ record { opening = clean (codes "abcdefg"); events = [] }) }
{
    view_of(alloc, b"abcdefg")
}

/// The second and the third of seven letters.
fn two_letters<S: Sheet>(alloc: Global, view: &ViewOn<S>) -> Result<Text, NoMemory>
    requires { view.now ≡ record { opening = clean (codes "abcdefg"); events = [] } }
{
    view.slice(alloc, 1, 3, &mut Steps::new())
}

/// Asserts what they are.
fn assert_two_letters<S: Sheet>(rt: &impl Abort, alloc: Global) -> Result<(), Fail> {
    let view = letters::<S>(alloc)?;
    let text = two_letters(alloc, &view)?;
    assert_eq!(rt; text.as_str(), "bc");
    Ok(())
}

#[test]
fn a_slice_is_lent_from_boundary_to_boundary(rt: HostRuntime) -> Result<(), Fail> {
    assert_two_letters::<MapSheet>(&rt, rt.alloc())
}

/// Asserts which offsets points of two lines are, of which the first has five letters and the second of them two bytes.
fn assert_offsets<S: Sheet>(rt: &impl Abort, alloc: Global) -> Result<(), Fail> {
    let view = view_of::<S>(alloc, "h\u{e9}llo\nx".as_bytes())?;
    let mut steps = Steps::new();
    let inside = Point { row: 0, column: 2 };
    assert_eq!(rt; view.offset_of(inside, Bias::Left, &mut steps), 1);
    assert_eq!(rt; view.offset_of(inside, Bias::Right, &mut steps), 3);
    let past = Point { row: 9, column: 0 };
    assert_eq!(rt; view.offset_of(past, Bias::Left, &mut steps), 8);
    Ok(())
}

#[test]
fn points_are_offsets(rt: HostRuntime) -> Result<(), Fail> {
    assert_offsets::<MapSheet>(&rt, rt.alloc())
}
