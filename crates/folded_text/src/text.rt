//! A text with its inlays and folds.
ghost use Rattle.std.specs.Prelude.{◌≡◌, ◌≤◌, None, Some, length, option_map, IfErr, IfOk, OnErr, OnOk};
ghost use Rattle.std.specs.List.{Contains};
ghost use Rattle.cell_units.specs.Operation.{replaced_text};
ghost use Rattle.cell_units.specs.Record.{Fold, Inlay};
ghost use Rattle.cell_units.specs.Text.{clean};
ghost use Rattle.cell_units.specs.declared.limits.TheConstants.{TEXT_LIMIT};
ghost use Rattle.text_rope.specs.Edits.{IsRange, IsReplaceFault};
ghost use Rattle.inlay_map.specs.Maps as inlaid;
ghost use Rattle.inlay_map.specs.Maps.{add_refusal, added, inlay_with, remove_refusal, removed};
ghost use Rattle.fold_map.specs.Maps as folded;
ghost use Rattle.fold_map.specs.Maps.{fold_with, folded_up, opened_up};
ghost use Rattle.fold_map.specs.Snapshots.{fold_refusal, unfold_refusal};
ghost use Rattle.edit_patch.specs.Leads.{reach_of};
ghost use Rattle.folded_text.specs.Shown.{BelongTogether, IsReplacedIfAny, IsShown, folds_shown, inlays_shown, no_folds, no_inlays, put_at};

use crate::callers::show;
use cell_units::{Bias, Fault, NoMemory, Shift, Steps};
use fold_map::{FoldMap, FoldSnapshot};
use inlay_map::{InlayMap, InlaySnapshot};
use std::alloc::Global;
use text_rope::Rope;

/// What is shown.
pub type Shown = FoldSnapshot<InlaySnapshot>;

/// A text under the map of its inlays, with the map of folds over that.
pub struct FoldedText {
    pub rope: Rope,
    pub inlays: InlayMap,
    pub folds: FoldMap<InlaySnapshot>,
    ghost belong: { BelongTogether rope inlays folds },
}

impl Drop for FoldedText {
    fn drop(self) {
        let FoldedText {
            rope: _,
            inlays: _,
            folds: _,
        } = self;
    }
}

/// The text with another in the place of a range, and the replacement that leads to it. It is refused as the rope
/// refuses it.
fn replaced(
    alloc: Global,
    rope: &Rope,
    start: u32,
    end: u32,
    text: &str,
    steps: &mut Steps,
) -> Result<(Rope, Shift), Fault>
    // What is accepted: a range of the text, after which the text is within its limit.
    ensures range { OnOk result (IsRange rope.now start end) }
    ensures small { IfOk result (λ new. length new.0 ≤ TEXT_LIMIT) }

    // The cleaned text is in the place of the range, and its bytes are counted.
    ensures text { let made = replaced_text rope.now start end (clean text.now) in
        IfOk result (λ new. new.0 ≡ made) }
    ensures shift { let put = put_at start end (clean text.now) in
        IfOk result (λ new. reach_of new.1 ≡ put) }

    // Why it fails, and the work.
    ensures refused { IfErr result (IsReplaceFault rope.now start end (clean text.now)) }
    ensures counted { steps.old ≤ steps.new }
{
    let (made, _) = rope.replaced(alloc, start, end, text, steps)?;
    let kept = rope.len() - (end - start);
    let shift = Shift::new(start, end, made.len() - kept);
    Ok((made, shift))
}

impl FoldedText {
    /// The text without inlays and folds, which counts as shown.
    pub fn new(alloc: Global, rope: Rope, steps: &mut Steps) -> Result<FoldedText, NoMemory>
        ensures text { IfOk result (λ made. made.rope ≡ rope) }
        ensures inlays { IfOk result (λ made. made.inlays ≡ no_inlays rope) }
        ensures folds { IfOk result (λ made. made.folds ≡ no_folds rope) }
        ensures counted { steps.old ≤ steps.new }
    {
        let mut inlays = InlayMap::new(alloc, rope.share()?, steps)?;
        let (layer, _) = inlays.sync(alloc, rope.share()?, None, steps)?;
        let folds = FoldMap::new(alloc, layer, steps)?;
        Ok(FoldedText {
            rope,
            inlays,
            folds,
        })
    }

    /// Adds an inlay at an offset in bytes, which is shown from the next snapshot on. It is refused as
    /// `InlayMap::insert` says.
    pub fn insert(
        &mut self,
        alloc: Global,
        id: u32,
        offset: u32,
        bias: Bias,
        text: &str,
        steps: &mut Steps,
    ) -> Result<(), Fault>
        // What is there after it, what is accepted, and what stays.
        ensures ok { let inlay = inlay_with id offset bias text.now in
            OnOk result (self.new.inlays ≡ added inlay self.old.inlays) }
        ensures accepted { let before = self.old.inlays.current in
            OnOk result (add_refusal before id offset text.now ≡ None) }
        ensures text { self.new.rope ≡ self.old.rope }
        ensures folds { self.new.folds ≡ self.old.folds }

        // Why it is refused, and what stays then.
        ensures refused { let refusal = add_refusal self.old.inlays.current id offset text.now in
            IfErr result (inlaid.IsOwed refusal) }
        ensures unchanged { OnErr result (self.new ≡ self.old) }
        ensures counted { steps.old ≤ steps.new }
    {
        // For the proof: the inlays are within the text, at boundaries.
        let _inlays = self.inlays.len();
        self.inlays.insert(alloc, id, offset, bias, text, steps)?;
        Ok(())
    }

    /// Takes the inlay of an id away. It is shown up to the next snapshot. `UnknownId` where there is none.
    pub fn remove(&mut self, alloc: Global, id: u32, steps: &mut Steps) -> Result<(), Fault>
        // What is there after it, what is accepted, and what stays.
        ensures ok { (i : Inlay) → Contains self.old.inlays.current.inlays i → i.id ≡ id →
            OnOk result (self.new.inlays ≡ removed i self.old.inlays) }
        ensures accepted { OnOk result (remove_refusal self.old.inlays.current id ≡ None) }
        ensures text { self.new.rope ≡ self.old.rope }
        ensures folds { self.new.folds ≡ self.old.folds }

        // Why it is refused, and what stays then.
        ensures refused { let refusal = remove_refusal self.old.inlays.current id in
            IfErr result (inlaid.IsOwed refusal) }
        ensures unchanged { OnErr result (self.new ≡ self.old) }
        ensures counted { steps.old ≤ steps.new }
    {
        // For the proof: the inlays are within the text, no two with one id.
        let _inlays = self.inlays.len();
        self.inlays.remove(alloc, id, steps)?;
        Ok(())
    }

    /// Folds a range of bytes, which is hidden from the next snapshot on. It is refused as `FoldMap::fold` says.
    pub fn fold(
        &mut self,
        alloc: Global,
        id: u32,
        start: u32,
        end: u32,
        steps: &mut Steps,
    ) -> Result<(), Fault>
        // What is there after it, what is accepted, and what stays.
        ensures ok { let fold = fold_with id start end in
            OnOk result (self.new.folds ≡ folded_up fold self.old.folds) }
        ensures accepted { OnOk result (fold_refusal self.old.folds.current id start end ≡ None) }
        ensures text { self.new.rope ≡ self.old.rope }
        ensures inlays { self.new.inlays ≡ self.old.inlays }

        // Why it is refused, and what stays then.
        ensures refused { let refusal = fold_refusal self.old.folds.current id start end in
            IfErr result (folded.IsOwed refusal) }
        ensures unchanged { OnErr result (self.new ≡ self.old) }
        ensures counted { steps.old ≤ steps.new }
    {
        // For the proof: the text is within its limit, and the folds fit it.
        let _sizes = (self.rope.len(), self.folds.len());
        self.folds.fold(alloc, id, start, end, steps)?;
        Ok(())
    }

    /// Takes the fold of an id off. What it hides is hidden up to the next snapshot. `UnknownId` where there is none.
    pub fn unfold(&mut self, alloc: Global, id: u32, steps: &mut Steps) -> Result<(), Fault>
        // What is there after it, what is accepted, and what stays.
        ensures ok { (f : Fold) → Contains self.old.folds.current.folds f → f.id ≡ id →
            OnOk result (self.new.folds ≡ opened_up f self.old.folds) }
        ensures accepted { OnOk result (unfold_refusal self.old.folds.current id ≡ None) }
        ensures text { self.new.rope ≡ self.old.rope }
        ensures inlays { self.new.inlays ≡ self.old.inlays }

        // Why it is refused, and what stays then.
        ensures refused { let refusal = unfold_refusal self.old.folds.current id in
            IfErr result (folded.IsOwed refusal) }
        ensures unchanged { OnErr result (self.new ≡ self.old) }
        ensures counted { steps.old ≤ steps.new }
    {
        // For the proof: the text is within its limit, and the folds fit it.
        let _sizes = (self.rope.len(), self.folds.len());
        self.folds.unfold(alloc, id, steps)?;
        Ok(())
    }

    /// Shows what is there. Returns the snapshot, and what of it is new.
    pub fn show(
        &mut self,
        alloc: Global,
        steps: &mut Steps,
    ) -> Result<(Shown, Option<Shift>), NoMemory>
        // The maps after it, and what is shown.
        ensures text { self.new.rope ≡ self.old.rope }
        ensures inlays { let made = inlays_shown self.old.rope None self.old.inlays in
            OnOk result (self.new.inlays ≡ made) }
        ensures folds { let made = folds_shown self.old.rope None self.old.inlays self.old.folds in
            OnOk result (self.new.folds ≡ made) }
        ensures shown { let was = self.old in IfOk result (λ made.
            IsShown was.rope None was.inlays was.folds made.0 (option_map reach_of made.1)) }

        // What stays where there is no memory.
        ensures unchanged { OnErr result (self.new ≡ self.old) }
        ensures counted { steps.old ≤ steps.new }
    {
        let rope = self.rope.share()?;
        self.follow(alloc, rope, None, steps)
    }

    /// Puts a text in the place of a range of bytes, and shows what is there then. It is refused as `Rope::replace`
    /// says.
    pub fn replace(
        &mut self,
        alloc: Global,
        start: u32,
        end: u32,
        text: &str,
        steps: &mut Steps,
    ) -> Result<(Shown, Option<Shift>), Fault>
        // Which replacements are accepted.
        ensures range { OnOk result (IsRange self.old.rope start end) }
        ensures small { OnOk result (length self.new.rope ≤ TEXT_LIMIT) }

        // The text and its maps after it, and what is shown.
        ensures text { let made = replaced_text self.old.rope start end (clean text.now) in
            OnOk result (self.new.rope ≡ made) }

        // Inlays and folds are moved, and folds that are empty then are dropped.
        ensures inlays { let put = put_at start end (clean text.now) in
            OnOk result (self.new.inlays ≡ inlays_shown self.new.rope (Some put) self.old.inlays) }
        ensures folds { let put = put_at start end (clean text.now) in
            let made = folds_shown self.new.rope (Some put) self.old.inlays self.old.folds in
            OnOk result (self.new.folds ≡ made) }
        ensures shown { let put = put_at start end (clean text.now) in let was = self.old in
            IfOk result (λ made. let answer = option_map reach_of made.1 in
            IsShown self.new.rope (Some put) was.inlays was.folds made.0 answer) }

        // Why it is refused, and what stays then.
        ensures refused { IfErr result (IsReplaceFault self.old.rope start end (clean text.now)) }
        ensures unchanged { OnErr result (self.new ≡ self.old) }
        ensures counted { steps.old ≤ steps.new }
    {
        let (rope, shift) = replaced(alloc, &self.rope, start, end, text, steps)?;
        Ok(self.follow(alloc, rope, Some(shift), steps)?)
    }

    /// Shows the text that is there now, after the replacement that led to it, if there was one.
    fn follow(
        &mut self,
        alloc: Global,
        rope: Rope,
        shift: Option<Shift>,
        steps: &mut Steps,
    ) -> Result<(Shown, Option<Shift>), NoMemory>
        // The replacement leads to this text from the one that was there.
        requires { IsReplacedIfAny self.old.rope rope (option_map reach_of shift) }

        // The text is kept. Its inlays and folds are moved, and count as shown.
        ensures text { OnOk result (self.new.rope ≡ rope) }
        ensures inlays { let made = inlays_shown rope (option_map reach_of shift) self.old.inlays in
            OnOk result (self.new.inlays ≡ made) }
        ensures folds { let was = self.old in let replaced = option_map reach_of shift in
            let made = folds_shown rope replaced was.inlays was.folds in
            OnOk result (self.new.folds ≡ made) }

        // The snapshot shows them so, and what is returned leads to it from what was shown last.
        ensures shown { let was = self.old in let replaced = option_map reach_of shift in
            IfOk result (λ made. let answer = option_map reach_of made.1 in
            IsShown rope replaced was.inlays was.folds made.0 answer) }

        // What stays where memory is wanting, and the work.
        ensures unchanged { OnErr result (self.new ≡ self.old) }
        ensures counted { steps.old ≤ steps.new }
    {
        let mut inlays = self.inlays.share()?;
        let next = rope.share()?;
        let shown = show(alloc, &mut inlays, &mut self.folds, next, shift, steps)?;
        self.rope = rope;
        self.inlays = inlays;
        Ok(shown)
    }

    /// An equal text with equal maps, which no later change of these reaches.
    pub fn share(&self) -> Result<FoldedText, NoMemory>
        ensures text { IfOk result (λ shared. shared.rope ≡ self.now.rope) }
        ensures inlays { IfOk result (λ shared. shared.inlays ≡ self.now.inlays) }
        ensures folds { IfOk result (λ shared. shared.folds ≡ self.now.folds) }
    {
        Ok(FoldedText {
            rope: self.rope.share()?,
            inlays: self.inlays.share()?,
            folds: self.folds.share()?,
        })
    }
}
