//! Looking for what an operation removes, by its id.
ghost use Rattle.std.specs.Prelude.{◌≡◌, ◌≤◌, ◌==◌, find, option_map};
ghost use Rattle.view_changes.specs.inside.OwnRows.{IsNumbered};

use cell_units::{Side, Steps};
use map_sheet::MapSheet;

/// The offset of the inlay of this id, if there is one.
pub(crate) fn inlay_offset(sheet: &MapSheet, id: u32, steps: &mut Steps) -> Option<u32>
    ensures offset { result
        ≡ option_map (λ i. i.offset) (find (λ i. i.id == id) sheet.now.inlays) }
    ensures counted { steps.old ≤ steps.new }
{
    let inlaid = sheet.text().inlaid();
    let at = inlaid.find_id(id, steps)?;
    let Some((offset, _bias, _id, _text)) = inlaid.get(at, steps) else {
        unreachable!()
    };
    Some(offset)
}

/// The range of the fold of this id, if there is one.
pub(crate) fn fold_range(sheet: &MapSheet, id: u32, steps: &mut Steps) -> Option<(u32, u32)>
    ensures range { result
        ≡ option_map (λ f. (f.start, f.end)) (find (λ f. f.id == id) sheet.now.folds) }
    ensures counted { steps.old ≤ steps.new }
{
    let layer = sheet.text().layer();
    let at = layer.find_id(id, steps)?;
    let Some(fold) = layer.get(at, steps) else {
        unreachable!()
    };
    Some((fold.start, fold.end))
}

/// The number of the block of this id among those of a side, if there is one.
pub(crate) fn block_number(sheet: &MapSheet, side: Side, id: u32, steps: &mut Steps) -> Option<u32>
    ensures number { IsNumbered sheet.now side id result }
    ensures counted { steps.old ≤ steps.new }
{
    sheet.blocked().find_id(side, id, steps)
}
