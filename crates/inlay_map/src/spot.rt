//! Where what is sought lies among the inlays.
ghost use Rattle.std.specs.Prelude.{◌≤◌};
ghost use Rattle.inlay_map.specs.Spots.{IsSpot};

use crate::amount::Amount;
use crate::snapshot::InlaySnapshot;
use cell_units::{Bias, Steps};
use splice_tree::Sides;
use sum_core::Count;

/// Where a place or a line of what is shown lies: the inlay of the index or the text before it. It has what is before
/// these, and how much text there is before the inlay.
#[derive(Drop)]
pub(crate) struct Spot {
    pub(crate) index: u32,
    pub(crate) before: Sides<Amount>,
    pub(crate) gap: Amount,
}

impl InlaySnapshot {
    /// The first inlay up to whose end as much is shown as is sought, or the end of all.
    pub(crate) fn find<M: Count<Amount>>(&self, target: u32, bias: Bias, steps: &mut Steps) -> Spot
        ensures spot { IsSpot self.now M.number target bias result }
        ensures counted { steps.old ≤ steps.new }
    {
        // For the proof: the text and its inlays are within their limits, so each sum of sizes is a u32.
        let _len = self.inlaid.len();
        let found = self.splices.find_upper::<M>(target as u64, bias, steps);
        let gap = match found.splice {
            Some(splice) => splice.gap(),
            None => self.inlaid.behind(found.before.lower),
        };
        Spot {
            index: found.index,
            before: found.before,
            gap,
        }
    }
}
