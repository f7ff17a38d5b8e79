//! A snapshot with one fold more or less, and what is replaced of what is shown.
ghost use Rattle.std.specs.Prelude.{◌≡◌, ◌==◌, ◌≤◌, None, length, map, true, IfOk};
ghost use Rattle.std.specs.List.{Contains, list_any};
ghost use Rattle.cell_units.specs.Layers.{shown_text};
ghost use Rattle.cell_units.specs.Lawful.{AreFolds};
ghost use Rattle.cell_units.specs.Record.{Fold};
ghost use Rattle.cell_units.specs.Text.{IsBoundary};
ghost use Rattle.joined_folds.specs.Sweeps.{count_met, fold_of};
ghost use Rattle.mark_tree.specs.Bounds.{SearchesAndTakes};
ghost use Rattle.edit_patch.specs.Leads.{reach_of};
ghost use Rattle.sum_tree.specs.Bounds.{ChangesAtMost, TakesAtMost, way};
ghost use Rattle.text_rope.specs.Bounds.{ways};
ghost use Rattle.fold_map.specs.Bounds.{refolding, rejoining};
ghost use Rattle.fold_map.specs.Maps.{DifferWithin, fold_change, shown_from, shown_to, with_fold, without};
ghost use Rattle.fold_map.specs.Replaced.{shown_change};
ghost use Rattle.fold_map.specs.Snapshots.{PlacesFit, fold_refusal, with_folds};

use crate::met::Change;
use crate::snapshot::FoldSnapshot;
use cell_units::{Bias, Layer, NoMemory, Shift, Steps};
use mark_tree::{RangeMark, RangeTree};
use std::alloc::Global;

impl<L: Layer> FoldSnapshot<L> {
    /// The same with one fold more.
    pub(crate) fn with_fold(
        &self,
        alloc: Global,
        range: RangeMark,
        steps: &mut Steps,
    ) -> Result<FoldSnapshot<L>, NoMemory>
        // No refusal is owed, and every place of what is shown then is a u32.
        requires accepted { fold_refusal self.now range.id range.start range.end ≡ None }
        requires fits { PlacesFit (with_fold (fold_of range) self.now) }

        // The fold is among the others in their order.
        ensures ok { IfOk result (λ s. s ≡ with_fold (fold_of range) self.now) }

        // The work: the id is sought, the fold is put among the others, and those that meet it are joined anew.
        ensures counted { steps.old ≤ steps.new }
        ensures steps { let after = (with_fold (fold_of range) self.now).folds in
            let cost = refolding (count_met range.start range.end after) in
            SearchesAndTakes cost (length after) steps.old steps.new }
    {
        // For the proof: the folds fit the text, and their number is a u32.
        let _sizes = (self.text_len(), self.count());
        let mut folds = self.folds.share()?;
        let Ok(()) = folds.insert(alloc, range, steps) else {
            return Err(NoMemory);
        };
        self.refolded(alloc, folds, range, steps)
    }

    /// The same without the fold of an id, and that fold.
    pub(crate) fn without_fold(
        &self,
        alloc: Global,
        id: u32,
        steps: &mut Steps,
    ) -> Result<(FoldSnapshot<L>, RangeMark), NoMemory>
        // A fold of the id is there, and every place of what is shown without it is a u32.
        requires there { list_any (λ f. f.id == id) self.now.folds ≡ true }
        requires fits { PlacesFit (without id self.now) }

        // The others stay. The fold that is returned was there, and has the id.
        ensures ok { IfOk result (λ r. r.0 ≡ without id self.now) }
        ensures fold { IfOk result (λ r. Contains self.now.folds (fold_of r.1)) }
        ensures id { IfOk result (λ r. r.1.id ≡ id) }

        // The work: the id is sought, the fold is taken off, and those that meet its range are joined anew.
        ensures counted { steps.old ≤ steps.new }
        ensures steps { (f : Fold) → Contains self.now.folds f → f.id ≡ id →
            let cost = refolding (count_met f.start f.end (without id self.now).folds) in
            SearchesAndTakes cost (length self.now.folds) steps.old steps.new }
    {
        // For the proof: the folds fit the text.
        let _len = self.text_len();
        let mut folds = self.folds.share()?;
        let Ok(range) = folds.remove(alloc, id, steps) else {
            return Err(NoMemory);
        };
        let next = self.refolded(alloc, folds, range, steps)?;
        Ok((next, range))
    }

    /// The same layer under other folds, which differ from these within a range.
    fn refolded(
        &self,
        alloc: Global,
        folds: RangeTree,
        range: RangeMark,
        steps: &mut Steps,
    ) -> Result<FoldSnapshot<L>, NoMemory>
        // The folds fit the text, every place of what is shown is a u32 then, and all that differs is in the range.
        requires lawful { AreFolds self.now.text (map fold_of folds) }
        requires fits { PlacesFit (with_folds self.now (map fold_of folds)) }
        requires differ { let after = with_folds self.now (map fold_of folds) in
            DifferWithin self.now after (fold_of range) }

        // The text and its inlays stay.
        ensures ok { IfOk result (λ s. s ≡ with_folds self.now (map fold_of folds)) }

        // The work: the folds that meet the range are joined anew, and their splices put in place.
        ensures counted { steps.old ≤ steps.new }
        ensures steps { let now = map fold_of folds in
            let cost = rejoining (count_met range.start range.end now) in
            ChangesAtMost cost (length self.now.folds) (length now) steps.old steps.new }
    {
        // For the proof: the text and its inlays are lawful.
        let _len = self.text_len();
        let layer = self.layer.share()?;
        let change = Change {
            start: range.start,
            end: range.end,
            last: range.end,
        };
        self.changed(alloc, layer, folds, change, steps)
    }

    /// The number of bytes that are shown.
    pub(crate) fn shown_len(&self, steps: &mut Steps) -> u32
        ensures value { result ≡ length (shown_text self.now) }
        ensures counted { steps.old ≤ steps.new }
        ensures steps { TakesAtMost way (length self.now.folds) steps.old steps.new }
    {
        let len = self.text_len();
        self.place_of(len, Bias::Right, steps)
    }

    /// What is replaced of what is shown where the next snapshot differs within offsets.
    pub(crate) fn change_to(
        &self,
        next: &FoldSnapshot<L>,
        start: u32,
        end: u32,
        steps: &mut Steps,
    ) -> Shift
        // The offsets are boundaries of the text, in order.
        requires start { IsBoundary self.now.text start }
        requires end { IsBoundary self.now.text end }
        requires order { start ≤ end }

        // From the left place of the start to the right place of the end. What is there then is counted.
        ensures change { reach_of result ≡ shown_change self.now next.now start end }

        // The work: two places and two lengths are looked up.
        ensures counted { steps.old ≤ steps.new }
        ensures steps { let count = length self.now.folds in
            ChangesAtMost (ways 4) count (length next.now.folds) steps.old steps.new }
    {
        let first = self.place_of(start, Bias::Left, steps);
        let past = self.place_of(end, Bias::Right, steps);
        let behind = self.shown_len(steps) - past;
        let len = next.shown_len(steps);
        let count = len.saturating_sub(behind).saturating_sub(first);
        Shift::new(first, past, count)
    }

    /// Where what a fold replaces of what is shown begins. It is at the fold's start, or at that of its row where this
    /// is shown on another line.
    fn shown_from(&self, start: u32, steps: &mut Steps) -> u32
        requires { IsBoundary self.now.text start }
        ensures from { result ≡ shown_from self.now start }
        ensures counted { steps.old ≤ steps.new }
        ensures steps { TakesAtMost (ways 4) (length self.now.folds) steps.old steps.new }
    {
        // For the proof: the text is UTF-8.
        let _len = self.text_len();
        let row = self.layer.row_ends(start).0;
        let first = self.line_of(row, Bias::Left, steps);
        let line = self.line_of(start, Bias::Left, steps);
        if first == line { start } else { row }
    }

    /// And where it ends: at the fold's end, or at that of its row where this is shown on another line.
    fn shown_to(&self, end: u32, steps: &mut Steps) -> u32
        requires { IsBoundary self.now.text end }
        ensures to { result ≡ shown_to self.now end }
        ensures counted { steps.old ≤ steps.new }
        ensures steps { TakesAtMost (ways 4) (length self.now.folds) steps.old steps.new }
    {
        // For the proof: the text is UTF-8.
        let _len = self.text_len();
        let row = self.layer.row_ends(end).1;
        let last = self.line_of(row, Bias::Right, steps);
        let line = self.line_of(end, Bias::Right, steps);
        if last == line { end } else { row }
    }

    /// What is replaced of what is shown where a fold was added or removed.
    pub(crate) fn fold_change(
        &self,
        next: &FoldSnapshot<L>,
        range: RangeMark,
        steps: &mut Steps,
    ) -> Shift
        // The fold's ends are boundaries of the text, in order.
        requires start { IsBoundary self.now.text range.start }
        requires end { IsBoundary self.now.text range.end }
        requires order { range.start ≤ range.end }

        // From the fold's start to its end, or on to the ends of their rows where these are shown on other lines.
        ensures change { reach_of result ≡ fold_change self.now next.now (fold_of range) }

        // The work: twelve ways down at most.
        ensures counted { steps.old ≤ steps.new }
        ensures steps { let count = length self.now.folds in
            ChangesAtMost (ways 12) count (length next.now.folds) steps.old steps.new }
    {
        // For the proof: the text is UTF-8.
        let _len = self.text_len();
        let first = self.shown_from(range.start, steps);
        let last = self.shown_to(range.end, steps);
        self.change_to(next, first, last, steps)
    }
}
