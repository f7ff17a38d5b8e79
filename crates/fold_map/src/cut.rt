//! Where an offset cuts the list of joined folds.
ghost use Rattle.std.specs.Prelude.{◌≡◌, ◌+◌, ◌≤◌, ◌<◌, ◌^◌, List, length, option_map};
ghost use Rattle.std.specs.Option.{ForSome, option_copied};
ghost use Rattle.joined_folds.specs.JoinedLists.{AreAllJoined};
ghost use Rattle.sum_tree.specs.Bounds.{TakesAtMost, way};
ghost use Rattle.fold_map.specs.Cuts.{IsCut, joined_behind};

use crate::amount::{Amount, ByBuffer};
use crate::snapshot::FoldSnapshot;
use cell_units::{Bias, Layer, Steps};
use joined_folds::JoinedFold;
use splice_tree::Splice;
use sum_core::NoLoad;

/// How many joined folds end by an offset, where the last of them ends, and the one after them.
#[derive(Drop)]
pub(crate) struct Cut {
    pub(crate) index: u32,
    pub(crate) base: u32,
    pub(crate) next: Option<JoinedFold>,
}

impl<L: Layer> FoldSnapshot<L> {
    /// Where an offset cuts the joined folds.
    pub(crate) fn cut_at(&self, offset: u32, steps: &mut Steps) -> Cut
        ensures cut { (js : List JoinedFold) → let s = self.now in
            AreAllJoined s.folds (length s.text) js → IsCut js offset result }
        ensures counted { steps.old ≤ steps.new }
        ensures steps { TakesAtMost way (length self.now.folds) steps.old steps.new }
    {
        // For the proof: the text's length is a u32.
        let _len = self.text_len();
        let found = self
            .splices
            .find_lower::<ByBuffer>(offset as u64, Bias::Right, steps);
        let base = found.before.lower.buffer;
        Cut {
            index: found.index,
            base,
            next: joined_behind(base, found.splice),
        }
    }
}

/// The joined fold of a splice after an offset.
pub(crate) fn joined_behind(
    base: u32,
    splice: Option<&Splice<Amount, NoLoad>>,
) -> Option<JoinedFold>
    requires { ForSome (option_copied splice) (λ p. base + p.gap.buffer + p.old.buffer < 2 ^ 32) }
    ensures { result ≡ option_map (joined_behind base) (option_copied splice.entry) }
{
    match splice {
        None => None,
        Some(splice) => {
            let start = base + splice.gap().buffer;
            Some(JoinedFold {
                start,
                end: start + splice.old().buffer,
            })
        }
    }
}
