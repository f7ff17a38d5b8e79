//! The splices of joined folds, one for each, in order.
ghost use Rattle.std.specs.Prelude.{◌≡◌, ◌+◌, ◌-◌, ◌<◌, ◌^◌, [], length, IfOk};
ghost use Rattle.cell_units.specs.Inlaid.{placeholder};
ghost use Rattle.fold_map.specs.Positions.{AreInText, IsBefore, hiding};
ghost use Rattle.fold_map.specs.Splices.{splices_from};

use crate::amount::Amount;
use crate::position::Position;
use cell_units::{Bias, Layer, NoMemory};
use joined_folds::JoinedFold;
use splice_tree::Splice;
use std::alloc::Global;
use sum_core::NoLoad;

/// How many bytes a placeholder has.
const PLACEHOLDER_BYTES: u32 = 3;

/// The splices of joined folds in order, the first of them after the offset `base`.
pub(crate) fn splices_of<L: Layer>(
    alloc: Global,
    layer: &L,
    base: u32,
    joined: &[JoinedFold],
) -> Result<Vec<Splice<Amount, NoLoad>>, NoMemory>
    requires bare { (L.source layer.now).folds ≡ [] }
    requires stand { AreInText (L.source layer.now) base joined.now }
    ensures ok { IfOk result (λ v. v.items ≡ splices_from (L.source layer.now) base joined.now) }
{
    let mut splices = Vec::with_capacity(alloc, joined.len())?;
    // Of none the layer is asked nothing.
    if joined.is_empty() {
        return Ok(splices);
    }
    let mut from = Position::of(layer, base, Bias::Left);
    for one in joined {
        let start = Position::of(layer, one.start, Bias::Right);
        let end = Position::of(layer, one.end, Bias::Left);
        splices.push(hiding(from, start, end))?;
        from = end;
    }
    Ok(splices)
}

/// What hides the layer from one position to another, after what is shown from `from` on.
fn hiding(from: Position, start: Position, end: Position) -> Splice<Amount, NoLoad>
    requires first { IsBefore from start }
    requires second { IsBefore start end }
    requires fits { start.place - from.place + length placeholder < 2 ^ 32 }
    ensures { result ≡ hiding from start end }
{
    let placeholder = Amount {
        buffer: end.offset - start.offset,
        bytes: PLACEHOLDER_BYTES,
        feeds: 0,
    };
    Splice::new(from.until(start), start.until(end), placeholder, NoLoad)
}
