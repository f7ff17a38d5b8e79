//! The snapshot after a change of folds or of the lower layer.
ghost use Rattle.std.specs.Prelude.{◌≡◌, ◌+◌, ◌≤◌, ◌<◌, ◌^◌, [], List, length, map, slice_get, IfOk};
ghost use Rattle.cell_units.specs.declared.place.Bias.TheVariants.{Left, Right};
ghost use Rattle.std.specs.Option.{ForSome};
ghost use Rattle.cell_units.specs.Text.{IsBoundary};
ghost use Rattle.joined_folds.specs.JoinedLists.{AreAllJoined, AreJoined, last_end};
ghost use Rattle.joined_folds.specs.Sweeps.{count_met, fold_of};
ghost use Rattle.joined_folds.specs.Windows.{IsWindow};
ghost use Rattle.mark_tree.specs.Bounds.{meeting};
ghost use Rattle.sum_tree.specs.Bounds.{ChangesAtMost, TakesAtMost, way};
ghost use Rattle.fold_map.specs.Amounts.{amount_between};
ghost use Rattle.fold_map.specs.Bounds.{rejoining};
ghost use Rattle.fold_map.specs.Changes.{IsChange, IsGapTo, IsMovedNext};
ghost use Rattle.fold_map.specs.Snapshots.{with_folds};

use crate::amount::Amount;
use crate::cut::joined_behind;
use crate::met::Change;
use crate::position::Position;
use crate::snapshot::FoldSnapshot;
use crate::spliced::splices_of;
use cell_units::{Bias, Layer, NoMemory, Steps};
use joined_folds::{JoinedFold, Window, joined_within};
use mark_tree::RangeTree;
use std::alloc::Global;
use sum_core::Summary;

impl<L: Layer> FoldSnapshot<L> {
    /// The joined fold of an index.
    pub(crate) fn joined_at(&self, index: u32, steps: &mut Steps) -> Option<JoinedFold>
        ensures joined { (js : List JoinedFold) → let s = self.now in
            AreAllJoined s.folds (length s.text) js → result ≡ slice_get js index }
        ensures counted { steps.old ≤ steps.new }
        ensures steps { TakesAtMost way (length self.now.folds) steps.old steps.new }
    {
        // For the proof: the text's length is a u32.
        let _len = self.text_len();
        let found = self.splices.find_at(index, steps);
        joined_behind(found.before.lower.buffer, found.splice)
    }
}

/// Where the last joined fold ends, and `base` where there is none.
fn last_end(base: u32, joined: &[JoinedFold]) -> u32
    ensures { result ≡ last_end base joined.now }
{
    let mut end = base;
    for one in joined {
        end = one.end;
    }
    end
}

/// How much of a layer there is from before the inlays at one offset to after those at another.
fn gap_between<L: Layer>(layer: &L, start: u32, end: u32) -> Amount
    // The layer has no folds of its own, and the offsets are boundaries of its text, in order.
    requires bare { (L.source layer.now).folds ≡ [] }
    requires start { IsBoundary (L.source layer.now).text start }
    requires end { IsBoundary (L.source layer.now).text end }
    requires order { start ≤ end }

    // From the left place of the first to the right place of the second.
    ensures { result ≡ amount_between (L.source layer.now) start Left end Right }
{
    let from = Position::of(layer, start, Bias::Left);
    let to = Position::of(layer, end, Bias::Right);
    from.until(to)
}

/// How much of a layer is shown from an offset to the next joined fold, which a change has moved. Nothing is where
/// there is none.
fn gap_to<L: Layer>(layer: &L, base: u32, next: Option<JoinedFold>, change: Change) -> Amount
    requires bare { (L.source layer.now).folds ≡ [] }
    requires base { IsBoundary (L.source layer.now).text base }
    requires next { ForSome next (IsMovedNext (L.source layer.now).text base change) }
    ensures { ForSome next (IsGapTo (L.source layer.now) base change result) }
{
    // For the proof: the text's length is a u32.
    let _len = layer.buffer_len();
    match next {
        None => Amount::zero(),
        Some(next) => gap_between(layer, base, next.start - change.end + change.last),
    }
}

/// The joined folds of a window, from the folds that meet it.
fn joined_in(
    alloc: Global,
    folds: &RangeTree,
    window: Window,
    steps: &mut Steps,
) -> Result<Vec<JoinedFold>, NoMemory>
    ensures ok { let now = map fold_of folds.now in
        IfOk result (λ v. IsWindow now window → AreJoined now window.from v.items window.to) }
    ensures counted { steps.old ≤ steps.new }
    ensures steps { let now = map fold_of folds.now in
        let k = count_met window.start window.end now in
        TakesAtMost (meeting k) (length now) steps.old steps.new }
{
    // For the proof: each end is a u32.
    let _count = folds.len();
    let past = window.end.saturating_add(1);
    let met = folds.meeting(alloc, window.start, past, steps)?;
    joined_within(alloc, met.as_slice(), window)
}

impl<L: Layer> FoldSnapshot<L> {
    /// Other folds over another layer, which differ from these within a change alone.
    pub(crate) fn changed(
        &self,
        alloc: Global,
        layer: L,
        folds: RangeTree,
        change: Change,
        steps: &mut Steps,
    ) -> Result<FoldSnapshot<L>, NoMemory>
        // The layer has no folds of its own. Under the new folds it is well-formed, and every place of it is a u32.
        requires bare { (L.source layer).folds ≡ [] }
        requires order { change.start ≤ change.end }
        requires change { let after = with_folds (L.source layer) (map fold_of folds) in
            IsChange self.now after change }

        // The new layer under the new folds.
        ensures ok { let after = with_folds (L.source layer) (map fold_of folds) in
            IfOk result (λ s. s ≡ after) }

        // The work: the folds that the change meets are joined anew, and their splices put in place.
        ensures counted { steps.old ≤ steps.new }
        ensures steps { let now = map fold_of folds in
            let cost = rejoining (count_met change.start change.last now) in
            ChangesAtMost cost (length self.now.folds) (length now) steps.old steps.new }
    {
        // For the proof: the folds fit the text, and each offset and each place of the new layer is a u32.
        let _sizes = (self.text_len(), layer.buffer_len(), layer.length());
        let met = self.met(change, steps);
        let joined = joined_in(alloc, &folds, met.window, steps)?;
        let fresh = splices_of(alloc, &layer, met.base, joined.as_slice())?;
        let base = last_end(met.base, joined.as_slice());
        let next = self.joined_at(met.last, steps);
        let gap = gap_to(&layer, base, next, change);
        let mut splices = self.splices.share()?;
        splices.replace(alloc, met.first, met.last, fresh, gap, steps)?;
        Ok(FoldSnapshot {
            layer,
            folds,
            splices,
        })
    }
}
