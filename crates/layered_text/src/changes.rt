//! The changes: a replacement of the text, and an inlay or a fold more or less.
ghost use Rattle.std.specs.Prelude.{◌≡◌, ◌≤◌, None, length, IfErr, IfOk, OnOk};
ghost use Rattle.cell_units.specs.declared.limits.TheConstants.{LAID_LIMIT};
ghost use Rattle.cell_units.specs.Operation.{AddFold, AddInlay, RemoveFold, RemoveInlay, Replace, replaced_text};
ghost use Rattle.cell_units.specs.Text.{clean};
ghost use Rattle.text_rope.specs.Bounds.{ChangesText, replacing};
ghost use Rattle.text_rope.specs.Edits.{IsRange};
ghost use Rattle.edit_patch.specs.Leads.{reach_of};
ghost use Rattle.inlay_map.specs.Maps as inlaid;
ghost use Rattle.inlay_map.specs.Maps.{add_refusal, inlay_with, remove_refusal};
ghost use Rattle.fold_map.specs.Maps as folded;
ghost use Rattle.fold_map.specs.Maps.{fold_with};
ghost use Rattle.fold_map.specs.Snapshots.{fold_refusal, unfold_refusal};
ghost use Rattle.folded_text.specs.Shown.{put_at};
ghost use Rattle.layered_text.specs.Layered.{IsChanged};
ghost use Rattle.layered_text.specs.Bounds.{LaysAtMost};

use crate::text::{LayeredText, Refolded};
use cell_units::limits::LAID_LIMIT;
use cell_units::{Bias, Fault, NoMemory, Refusal, Shift, Steps};
use std::alloc::Global;
use text_rope::Rope;

/// The text with another in the place of a range of bytes, with its line breaks made line feeds. Inlays and folds are
/// moved by the rule of anchors (*Anchors*), and folds that are empty then are dropped. Returns the replacement of the
/// text too.
fn replaced(
    alloc: Global,
    rope: &Rope,
    start: u32,
    end: u32,
    text: &str,
    steps: &mut Steps,
) -> Result<(Rope, Shift), NoMemory>
    requires range { IsRange rope.now start end }
    requires fits { length (replaced_text rope.now start end (clean text.now)) ≤ LAID_LIMIT }
    ensures text { let made = replaced_text rope.now start end (clean text.now) in
        IfOk result (λ new. new.0 ≡ made) }
    ensures shift { let put = put_at start end (clean text.now) in
        IfOk result (λ new. reach_of new.1 ≡ put) }
    ensures counted { steps.old ≤ steps.new }
    ensures steps { let put = clean text.now in
        let made = replaced_text rope.now start end put in
        ChangesText (replacing (length put)) rope.now made steps.old steps.new }
{
    // The range is one of the text, and the limit is kept.
    let Ok((made, _)) = rope.replaced_within(alloc, start, end, text, LAID_LIMIT, steps) else {
        return Err(NoMemory);
    };
    let kept = rope.len() - (end - start);
    let shift = Shift::new(start, end, made.len() - kept);
    Ok((made, shift))
}

impl LayeredText {
    /// The text with another in the place of a range, with its line breaks made line feeds. Inlays and folds are moved
    /// by the rule of anchors, and folds that are empty then are dropped. It gives the replacement of the text too.
    pub fn replaced(
        &self,
        alloc: Global,
        start: u32,
        end: u32,
        text: &str,
        steps: &mut Steps,
    ) -> Result<(Refolded, Shift), NoMemory>
        // The range lies between boundaries. Amid a batch a text may be longer than the one after all of it.
        requires range { IsRange self.now.text start end }
        requires fits { length (replaced_text self.now.text start end (clean text.now))
            ≤ LAID_LIMIT }

        // What is there after it, and what was replaced.
        ensures changed { IfOk result (λ made.
            IsChanged (Replace start end text.now) self.now made.0.text made.0.shown) }
        ensures shift { let put = put_at start end (clean text.now) in
            IfOk result (λ made. reach_of made.1 ≡ put) }

        // The work.
        ensures counted { steps.old ≤ steps.new }
        ensures steps { LaysAtMost (Replace start end text.now) self.now steps.old steps.new }
    {
        let (rope, shift) = replaced(alloc, &self.rope, start, end, text, steps)?;
        let inlays = self.inlays.share()?;
        let folds = self.folds.share()?;
        let made = self.changed(alloc, rope, inlays, folds, Some(shift), steps)?;
        Ok((made, shift))
    }

    /// The text with one inlay more: a text that is shown at an offset, in bytes. At an insertion of text there it
    /// stays (Left) or goes after it (Right). It is refused by the first of these that fits:
    ///
    /// - `IdInUse`: its id is there;
    /// - `BadRange`: the offset is no boundary;
    /// - `BadText`: its text is empty;
    /// - `TooLong`: that is over its limit, or there are as many inlays as may be.
    pub fn with_inlay(
        &self,
        alloc: Global,
        id: u32,
        offset: u32,
        bias: Bias,
        text: &str,
        steps: &mut Steps,
    ) -> Result<Refolded, Fault>
        // What is there after it, and what is accepted.
        ensures changed { let inlay = inlay_with id offset bias text.now in
            IfOk result (λ made. IsChanged (AddInlay inlay) self.now made.text made.shown) }
        ensures accepted { OnOk result (add_refusal self.now id offset text.now ≡ None) }

        // A refusal is judged before memory is asked for.
        ensures refused { let refusal = add_refusal self.now id offset text.now in
            IfErr result (inlaid.IsOwed refusal) }

        // The work.
        ensures counted { steps.old ≤ steps.new }
        ensures steps { let inlay = inlay_with id offset bias text.now in
            LaysAtMost (AddInlay inlay) self.now steps.old steps.new }
    {
        if let Some(refusal) = self.inlaid.refusal_to_add(id, offset, text, steps) {
            return Err(Fault::Refused(refusal));
        }
        // For the proof: the text is UTF-8.
        let _len = self.rope.len();
        let mut inlays = self.inlays.share()?;
        inlays.insert(alloc, id, offset, bias, text, steps)?;
        let folds = self.folds.share()?;
        Ok(self.turned(alloc, inlays, folds, steps)?)
    }

    /// The text without the inlay of an id. `UnknownId` where there is none.
    pub fn without_inlay(
        &self,
        alloc: Global,
        id: u32,
        steps: &mut Steps,
    ) -> Result<Refolded, Fault>
        ensures changed { IfOk result (λ made.
            IsChanged (RemoveInlay id) self.now made.text made.shown) }
        ensures accepted { OnOk result (remove_refusal self.now id ≡ None) }

        ensures refused { IfErr result (inlaid.IsOwed (remove_refusal self.now id)) }

        // The work.
        ensures counted { steps.old ≤ steps.new }
        ensures steps { LaysAtMost (RemoveInlay id) self.now steps.old steps.new }
    {
        if !self.inlaid.has_id(id, steps) {
            return Err(Fault::Refused(Refusal::UnknownId));
        }
        let mut inlays = self.inlays.share()?;
        inlays.remove(alloc, id, steps)?;
        let folds = self.folds.share()?;
        Ok(self.turned(alloc, inlays, folds, steps)?)
    }

    /// The text with one fold more, which hides the bytes from `start` to `end`. It is refused by the first of these
    /// that fits:
    ///
    /// - `IdInUse`: its id is there;
    /// - `BadRange`: that is no range of some bytes between boundaries;
    /// - `TooLong`: there are as many folds as may be.
    pub fn with_fold(
        &self,
        alloc: Global,
        id: u32,
        start: u32,
        end: u32,
        steps: &mut Steps,
    ) -> Result<Refolded, Fault>
        ensures changed { let fold = fold_with id start end in
            IfOk result (λ made. IsChanged (AddFold fold) self.now made.text made.shown) }
        ensures accepted { OnOk result (fold_refusal self.now id start end ≡ None) }

        ensures refused { let refusal = fold_refusal self.now id start end in
            IfErr result (folded.IsOwed refusal) }

        // The work.
        ensures counted { steps.old ≤ steps.new }
        ensures steps { let fold = fold_with id start end in
            LaysAtMost (AddFold fold) self.now steps.old steps.new }
    {
        if let Some(refusal) = self.layer.refusal_to_fold(id, start, end, steps) {
            return Err(Fault::Refused(refusal));
        }
        // For the proof: the text is within its limit, so each place of what is shown is a u32.
        let _sizes = (self.rope.len(), self.folds.len());
        let mut folds = self.folds.share()?;
        folds.fold(alloc, id, start, end, steps)?;
        let inlays = self.inlays.share()?;
        Ok(self.turned(alloc, inlays, folds, steps)?)
    }

    /// The text without the fold of an id. `UnknownId` where there is none.
    pub fn without_fold(&self, alloc: Global, id: u32, steps: &mut Steps) -> Result<Refolded, Fault>
        ensures changed { IfOk result (λ made.
            IsChanged (RemoveFold id) self.now made.text made.shown) }
        ensures accepted { OnOk result (unfold_refusal self.now id ≡ None) }

        ensures refused { IfErr result (folded.IsOwed (unfold_refusal self.now id)) }

        // The work.
        ensures counted { steps.old ≤ steps.new }
        ensures steps { LaysAtMost (RemoveFold id) self.now steps.old steps.new }
    {
        if !self.layer.has_id(id, steps) {
            return Err(Fault::Refused(Refusal::UnknownId));
        }
        // For the proof: the text is within its limit, so each place of what is shown is a u32.
        let _sizes = (self.rope.len(), self.folds.len());
        let mut folds = self.folds.share()?;
        folds.unfold(alloc, id, steps)?;
        let inlays = self.inlays.share()?;
        Ok(self.turned(alloc, inlays, folds, steps)?)
    }
}
