//! Where the anchors of inlays, folds and blocks go at a replacement.
ghost use Rattle.std.specs.Prelude.{◌≡◌, ◌+◌, ◌^◌, ◌<◌, ◌≤◌};
ghost use Rattle.cell_units.specs.Anchor.{move};

use cell_units::{Bias, Shift};

/// Where an anchor is after a replacement, in bytes (*Anchors*).
pub fn moved(offset: u32, bias: Bias, shift: Shift) -> u32
    requires start { shift.start + shift.count < 2 ^ 32 }
    requires fits { offset + shift.count < 2 ^ 32 }
    ensures { result ≡ move offset bias shift.start shift.end shift.count }
{
    if offset < shift.start || (offset == shift.start && bias == Bias::Left) {
        offset
    } else if offset <= shift.end {
        shift.start + shift.count
    } else {
        offset + shift.count - (shift.end - shift.start)
    }
}
