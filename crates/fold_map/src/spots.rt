//! Where a place of what is shown lies.
ghost use Rattle.std.specs.Prelude.{◌≡◌, ◌≤◌, length};
ghost use Rattle.sum_tree.specs.Bounds.{TakesAtMost, way};
ghost use Rattle.fold_map.specs.Spots.{CoverBytes, IsSpotAt, SpotFits, shown_bytes};

use crate::amount::{Amount, ByBytes};
use cell_units::{Bias, Steps};
use splice_tree::{Sides, SpliceTree};
use sum_core::NoLoad;

/// Where a place of what is shown lies: its place in the lower layer after what these splices cover. If the place is
/// strictly inside a placeholder, that is where the placeholder begins.
#[derive(Drop)]
pub(crate) struct Spot {
    pub(crate) below: u32,
    pub(crate) before: Sides<Amount>,
    pub(crate) is_hidden: bool,
}

/// Where a place of what is shown lies.
pub(crate) fn spot_at(splices: &SpliceTree<Amount, NoLoad>, place: u32, steps: &mut Steps) -> Spot
    requires { SpotFits splices.now place }
    ensures spot { IsSpotAt splices.now place result }
    ensures counted { steps.old ≤ steps.new }
    ensures steps { TakesAtMost way (length splices.now) steps.old steps.new }
{
    let found = splices.find_upper::<ByBytes>(place as u64, Bias::Right, steps);
    let rest = place - found.before.upper.bytes;
    let kept = match found.splice {
        Some(splice) => rest.min(splice.gap().bytes),
        None => rest,
    };
    let below = found.before.lower.bytes + kept;
    let is_hidden = kept < rest;
    Spot {
        below,
        before: found.before,
        is_hidden,
    }
}

/// How many bytes are shown, by how many the lower layer shows.
pub(crate) fn bytes_shown(splices: &SpliceTree<Amount, NoLoad>, below: u32) -> u32
    requires { CoverBytes splices.now below }
    ensures { result ≡ shown_bytes splices.now below }
{
    let sum = splices.sum();
    below - sum.lower.bytes + sum.upper.bytes
}
