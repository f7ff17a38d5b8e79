//! The map: folds that are added, removed and moved, and what changed since the last snapshot.
ghost use Rattle.std.specs.Prelude.{◌≡◌, ◌≤◌, [], length, None, Some, option_map, IfErr, IfOk, OnErr, OnOk};
ghost use Rattle.std.specs.List.{Contains};
ghost use Rattle.cell_units.specs.Lawful.{IsWellFormed};
ghost use Rattle.cell_units.specs.Record.{Fold};
ghost use Rattle.joined_folds.specs.Sweeps.{count_met, fold_of};
ghost use Rattle.sum_tree.specs.Bounds.{ChangesAtMost, Searches, TakesAtMost};
ghost use Rattle.text_rope.specs.Bounds.{ways};
ghost use Rattle.fold_map.specs.Bounds.{SearchesTwice, folding, folds_met, syncing};
ghost use Rattle.fold_map.specs.Maps.{DifferWithin, IsOwed, fold_with, folded_up, opened_up, state_of, turned_to, with_fold, without};
ghost use Rattle.fold_map.specs.Synced.{Follows, IsSynced, synced};
ghost use Rattle.edit_patch.specs.Leads.{reach_of};
ghost use Rattle.fold_map.specs.Snapshots.{PlacesFit, fold_refusal, unfold_refusal};

use crate::snapshot::FoldSnapshot;
use cell_units::{Fault, Layer, NoMemory, Refusal, Shift, Steps};
use edit_patch::with_pending;
use mark_tree::RangeMark;
use std::alloc::Global;
use std::marker::Model;

/// A layer with folds, as it is now and as it was last shown.
///
/// Bounds on the steps of a call are given for each h such that the folds are fewer than 2 * 6^(h + 1). The least such
/// h is the greatest height of a tree of so many.
pub struct FoldMap<L: Layer> {
    current: FoldSnapshot<L>,
    shown: FoldSnapshot<L>,
    pending: Option<Shift>,
}

impl<L: Layer> Drop for FoldMap<L> {
    fn drop(self) {
        let FoldMap {
            current: _,
            shown: _,
            pending: _,
        } = self;
    }
}

impl<L: Layer> Model for FoldMap<L> {
    ghost use Rattle.std.specs.Prelude.{option_map};
    ghost use Rattle.edit_patch.specs.Leads.{reach_of};
    ghost use Rattle.fold_map.specs.Maps.{FoldState, IsKept};

    ghost Value = { FoldState };

    ghost view = { λ m.
        record { current = m.current; shown = m.shown; pending = option_map reach_of m.pending } };

    ghost invariant = { λ m. IsKept m.current m.shown (option_map reach_of m.pending) };
}

impl<L: Layer> FoldMap<L> {
    /// The layer without folds, which counts as shown. It fails with `NoMemory` only where the count of holders of the
    /// layer is full.
    pub fn new(alloc: Global, layer: L, steps: &mut Steps) -> Result<FoldMap<L>, NoMemory>
        requires bare { (L.source layer).folds ≡ [] }
        ensures ok { IfOk result (λ m. m ≡ state_of (L.source layer)) }
        ensures steps { steps.new ≡ steps.old }
    {
        // Nothing is opened or made.
        let _steps = steps;
        let current = FoldSnapshot::plain(alloc, layer);
        let shown = current.share()?;
        Ok(FoldMap {
            current,
            shown,
            pending: None,
        })
    }

    /// An equal map, and no later change of either changes the other.
    pub fn share(&self) -> Result<FoldMap<L>, NoMemory>
        ensures { IfOk result (λ m. m ≡ self.now) }
    {
        let current = self.current.share()?;
        let shown = self.shown.share()?;
        Ok(FoldMap {
            current,
            shown,
            pending: self.pending,
        })
    }

    /// The number of folds. The text is UTF-8, and the inlays and the folds fit it.
    pub fn len(&self) -> u32
        ensures len { result ≡ length self.now.current.folds }
        ensures lawful { IsWellFormed self.now.current }
    {
        // For the proof: the text is UTF-8, and the inlays and the folds fit it.
        let _text = self.current.text_len();
        self.current.count()
    }

    /// Folds the bytes of the buffer from `start` to `end`. It is refused by the first of these that fits:
    ///
    /// - `IdInUse`: the id is there;
    /// - `BadRange`: the range is empty or backwards, or an end of it is past the text's end or inside a character;
    /// - `TooLong`: `ENTRY_LIMIT` folds are there.
    pub fn fold(
        &mut self,
        alloc: Global,
        id: u32,
        start: u32,
        end: u32,
        steps: &mut Steps,
    ) -> Result<(), Fault>
        // Every place of what is shown then is a u32.
        requires fits { fold_refusal self.old.current id start end ≡ None →
            PlacesFit (with_fold (fold_with id start end) self.old.current) }

        // What is there after it, and what is accepted.
        ensures ok { OnOk result (self.new ≡ folded_up (fold_with id start end) self.old) }
        ensures accepted { OnOk result (fold_refusal self.old.current id start end ≡ None) }

        // Refusals are judged before any memory is taken.
        ensures refused { IfErr result (IsOwed (fold_refusal self.old.current id start end)) }
        ensures unchanged { OnErr result (self.new ≡ self.old) }
        ensures counted { steps.old ≤ steps.new }
        ensures steps { let after = (with_fold (fold_with id start end) self.old.current).folds in
            let cost = folding (count_met start end after) in
            SearchesTwice cost (length after) steps.old steps.new }
    {
        if let Some(refusal) = self.current.refusal_to_fold(id, start, end, steps) {
            return Err(Fault::Refused(refusal));
        }
        // For the proof: the folds fit the text.
        let _len = self.current.text_len();
        let range = RangeMark { start, end, id };
        let next = self.current.with_fold(alloc, range, steps)?;
        self.turn_to(next, range, steps);
        Ok(())
    }

    /// Takes the fold of this id off the layer. `UnknownId` where there is none.
    pub fn unfold(&mut self, alloc: Global, id: u32, steps: &mut Steps) -> Result<(), Fault>
        // Every place of what is shown then is a u32.
        requires fits { PlacesFit (without id self.old.current) }

        // What is there after it, and what is accepted.
        ensures ok { (f : Fold) → Contains self.old.current.folds f → f.id ≡ id →
            OnOk result (self.new ≡ opened_up f self.old) }
        ensures accepted { OnOk result (unfold_refusal self.old.current id ≡ None) }

        // The refusal is judged before any memory is taken.
        ensures refused { IfErr result (IsOwed (unfold_refusal self.old.current id)) }
        ensures unchanged { OnErr result (self.new ≡ self.old) }
        ensures counted { steps.old ≤ steps.new }
        ensures steps { (f : Fold) → Contains self.old.current.folds f → f.id ≡ id →
            let cost = folding (count_met f.start f.end (without id self.old.current).folds) in
            SearchesTwice cost (length self.old.current.folds) steps.old steps.new }
        ensures sought { unfold_refusal self.old.current id ≡ Some Refusal.UnknownId →
            Searches (length self.old.current.folds) steps.old steps.new }
    {
        if !self.current.has_id(id, steps) {
            return Err(Fault::Refused(Refusal::UnknownId));
        }
        // For the proof: the folds fit the text, no two with one id.
        let _len = self.current.text_len();
        let (next, range) = self.current.without_fold(alloc, id, steps)?;
        self.turn_to(next, range, steps);
        Ok(())
    }

    /// Takes the layer as it is now, and moves the folds. With it come the replacements that led to it since the last
    /// call, if there were any: of the buffer's text and of the layer's.
    ///
    /// Returns the new snapshot, and the one replacement of what is shown that leads to it from the last snapshot.
    /// There is none where nothing changed. Places count bytes (*A layer with folds as a map*).
    pub fn sync(
        &mut self,
        alloc: Global,
        layer: L,
        shift: Option<Shift>,
        below: Option<Shift>,
        steps: &mut Steps,
    ) -> Result<(FoldSnapshot<L>, Option<Shift>), NoMemory>
        requires follows { let replaced = option_map reach_of shift in
            Follows self.old.current (L.source layer) replaced (option_map reach_of below) }

        // What is shown, and what is there after it.
        ensures synced { let replaced = option_map reach_of shift in
            let lower = option_map reach_of below in
            IfOk result (λ r.
            IsSynced (L.source layer) replaced lower self.old r.0 (option_map reach_of r.1)) }
        ensures ok { let replaced = option_map reach_of shift in
            OnOk result (self.new ≡ synced (L.source layer) replaced self.old) }

        // What stays, and the work.
        ensures unchanged { OnErr result (self.new ≡ self.old) }
        ensures counted { steps.old ≤ steps.new }
        ensures steps { let current = self.old.current in
            let k = folds_met (option_map reach_of shift) (option_map reach_of below) current in
            TakesAtMost (syncing k) (length current.folds) steps.old steps.new }
    {
        let (next, answer) = self.after(alloc, layer, shift, below, steps)?;
        let shown = next.share()?;
        let answered = next.share()?;
        self.shown = shown;
        self.current = next;
        self.pending = None;
        Ok((answered, answer))
    }

    /// What is there after the replacements, and what leads from the last snapshot to it.
    fn after(
        &self,
        alloc: Global,
        layer: L,
        shift: Option<Shift>,
        below: Option<Shift>,
        steps: &mut Steps,
    ) -> Result<(FoldSnapshot<L>, Option<Shift>), NoMemory>
        requires follows { let replaced = option_map reach_of shift in
            Follows self.now.current (L.source layer) replaced (option_map reach_of below) }
        ensures synced { let replaced = option_map reach_of shift in
            let lower = option_map reach_of below in
            IfOk result (λ r.
            IsSynced (L.source layer) replaced lower self.now r.0 (option_map reach_of r.1)) }
        ensures counted { steps.old ≤ steps.new }
        ensures steps { let current = self.now.current in
            let k = folds_met (option_map reach_of shift) (option_map reach_of below) current in
            TakesAtMost (syncing k) (length current.folds) steps.old steps.new }
    {
        // For the proof: the folds fit the text.
        let _len = self.current.text_len();
        match below {
            None => Ok((self.current.over(layer)?, self.pending)),
            Some(below) => {
                let (next, answer) = self.moved(alloc, layer, shift, below, steps)?;
                Ok((next, Some(answer)))
            }
        }
    }

    /// The same after a replacement of the layer's text.
    fn moved(
        &self,
        alloc: Global,
        layer: L,
        shift: Option<Shift>,
        below: Shift,
        steps: &mut Steps,
    ) -> Result<(FoldSnapshot<L>, Shift), NoMemory>
        requires follows { let replaced = option_map reach_of shift in
            Follows self.now.current (L.source layer) replaced (Some (reach_of below)) }
        ensures synced { let replaced = option_map reach_of shift in
            let lower = Some (reach_of below) in
            IfOk result (λ r.
            IsSynced (L.source layer) replaced lower self.now r.0 (Some (reach_of r.1))) }
        ensures counted { steps.old ≤ steps.new }
        ensures steps { let current = self.now.current in
            let k = folds_met (option_map reach_of shift) (Some (reach_of below)) current in
            TakesAtMost (syncing k) (length current.folds) steps.old steps.new }
    {
        // For the proof: what is shown is within its limits, and the layer is lawful.
        let _sizes = (
            self.current.text_len(),
            self.shown.text_len(),
            layer.buffer_len(),
        );
        let (next, replaced) = self.current.moved(alloc, layer, shift, below, steps)?;
        let answer = with_pending(self.pending, replaced);
        Ok((next, answer))
    }

    /// Shows other folds from now on, which differ from those before within a range.
    fn turn_to(&mut self, next: FoldSnapshot<L>, range: RangeMark, steps: &mut Steps)
        requires differ { DifferWithin self.old.current next (fold_of range) }
        ensures now { self.new ≡ turned_to next (fold_of range) self.old }
        ensures counted { steps.old ≤ steps.new }
        ensures steps { let count = length self.old.current.folds in
            ChangesAtMost (ways 12) count (length next.folds) steps.old steps.new }
    {
        // For the proof: what is shown is within its limits, before and after.
        let _sizes = (
            self.current.text_len(),
            self.shown.text_len(),
            next.text_len(),
        );
        let change = self.current.fold_change(&next, range, steps);
        self.pending = Some(with_pending(self.pending, change));
        self.current = next;
    }
}
