//! Views of displays over any sheet, and their rows.
ghost use Rattle.std.specs.Prelude.{◌≡◌, [], IfOk};
ghost use Rattle.cell_units.specs.Text.{clean};

use cell_units::Steps;
use display_map::{DisplayOn, Kind, ViewOn};
use kept_sheet::Sheet;
use std::alloc::Global;
use std::process::Abort;
use std::test::Fail;

/// A view of a display that was just started on the bytes.
pub(crate) fn view_of<S: Sheet>(alloc: Global, bytes: &[u8]) -> Result<ViewOn<S>, Fail>
    ensures { IfOk result (λ view. view ≡ record { opening = clean bytes.now; events = [] }) }
{
    let display = DisplayOn::<S>::start(alloc, bytes, &mut Steps::new())?;
    Ok(display.view()?)
}

/// The row of this number is this one.
pub(crate) fn assert_row<S: Sheet>(
    rt: &impl Abort,
    alloc: Global,
    view: &ViewOn<S>,
    row: u32,
    kind: Kind,
    text: &str,
) -> Result<(), Fail> {
    let shown = view.row(alloc, row, &mut Steps::new())?.ok_or("no row")?;
    assert_eq!(rt; shown.text.as_str(), text);
    assert_eq!(rt; shown.kind, kind);
    Ok(())
}
