//! What an inlay map shows at one moment.
ghost use Rattle.std.specs.Prelude.{◌≡◌, ◌==◌, ◌+◌, ◌<◌, ◌≤◌, Some, length, slice_get, IfOk, MatchOption};
ghost use Rattle.std.specs.List.{list_any, position};
ghost use Rattle.cell_units.specs.declared.place.Bias.TheVariants.{Left};
ghost use Rattle.cell_units.specs.Lawful.{HasRoom, IsInlayOf};
ghost use Rattle.cell_units.specs.Layers.{inlay_source, place_of, plain_source};
ghost use Rattle.cell_units.specs.Record.{Inlay, inlay_le};
ghost use Rattle.cell_units.specs.Sorting.{insert_by};
ghost use Rattle.sum_tree.specs.Bounds.{ChangesAtMost, Searches, TakesAtMost, way};
ghost use Rattle.text_rope.specs.Bounds.{ways};
ghost use Rattle.edit_patch.specs.Leads.{Leads, reach_of, unmoved};
ghost use Rattle.inlay_map.specs.Bounds.{SearchesOnce, TakesAmong, TakesInlaid, met, putting, relaying};
ghost use Rattle.inlay_map.specs.InlaidShifts.{inlaid_shift, inlay_shift};
ghost use Rattle.inlay_map.specs.Kept.{IsInlaid};
ghost use Rattle.inlay_map.specs.Maps.{StandAfter, add_refusal, source_after};
ghost use Rattle.inlay_map.specs.Splices.{inlay_of, inlay_with, without_at};

use crate::amount::{Amount, ByBytes};
use crate::inlaid::Inlaid;
use crate::inlay_text::InlayText;
use cell_units::limits::{ENTRY_LIMIT, INLAY_LIMIT};
use cell_units::{Bias, NoMemory, Refusal, Shift, Steps};
use mark_tree::Mark;
use splice_tree::SpliceTree;
use std::alloc::Global;
use std::marker::Model;
use sum_core::NoLoad;
use text_rope::Rope;

/// A text with inlays. Contracts see it as that source, which has no folds.
pub struct InlaySnapshot {
    pub(crate) inlaid: Inlaid,
    pub(crate) splices: SpliceTree<Amount, NoLoad>,
}

impl Drop for InlaySnapshot {
    fn drop(self) {
        let InlaySnapshot {
            inlaid: _,
            splices: _,
        } = self;
    }
}

impl Model for InlaySnapshot {
    ghost use Rattle.std.specs.Prelude.{◌≡◌};
    ghost use Rattle.cell_units.specs.Layers.{Source};
    ghost use Rattle.inlay_map.specs.Splices.{splices_from};

    ghost Value = { Source };

    ghost view = { λ s. s.inlaid };

    ghost invariant = { λ s. s.splices ≡ splices_from s.inlaid.text 0 s.inlaid.inlays };
}

impl InlaySnapshot {
    /// A text without inlays. It takes no memory.
    pub(crate) fn plain(alloc: Global, rope: Rope) -> InlaySnapshot
        ensures { result ≡ plain_source rope }
    {
        let inlaid = Inlaid::plain(alloc, rope);
        let splices = SpliceTree::new(alloc);
        InlaySnapshot { inlaid, splices }
    }

    /// An equal snapshot, which no later change of a map reaches.
    pub fn share(&self) -> Result<InlaySnapshot, NoMemory>
        ensures { IfOk result (λ s. s ≡ self.now) }
    {
        let inlaid = self.inlaid.share()?;
        let splices = self.splices.share()?;
        Ok(InlaySnapshot { inlaid, splices })
    }

    /// The number of bytes of the text, which has no carriage return. The inlays fit it, and there are no folds.
    pub(crate) fn text_len(&self) -> u32
        ensures value { result ≡ length self.now.text }
        ensures lawful { IsInlaid self.now }
    {
        self.inlaid.len()
    }

    /// The number of inlays.
    pub fn count(&self) -> u32
        ensures { result ≡ length self.now.inlays }
    {
        self.inlaid.count()
    }

    /// The offset, bias, id and text of an inlay, as it was given, by its place among them, counted from 0. `None`
    /// exactly where there is none.
    pub fn get(&self, at: u32, steps: &mut Steps) -> Option<(u32, Bias, u32, &str)>
        ensures inlay { MatchOption result (length self.now.inlays ≤ at) (λ i.
            slice_get self.now.inlays at ≡ Some (inlay_with i.0 i.1 i.2 i.3.now)) }
        ensures counted { steps.old ≤ steps.new }
        ensures steps { TakesAtMost way (length self.now.inlays) steps.old steps.new }
    {
        self.inlaid.get(at, steps)
    }

    /// The place of the inlay of this id among them, counted from 0. `None` exactly where there is none.
    pub fn find_id(&self, id: u32, steps: &mut Steps) -> Option<u32>
        ensures index { result ≡ position (λ i. i.id == id) self.now.inlays }
        ensures counted { steps.old ≤ steps.new }
        ensures steps { Searches (length self.now.inlays) steps.old steps.new }
    {
        self.inlaid.find(id, steps)
    }

    /// Whether there is an inlay of this id.
    pub fn has_id(&self, id: u32, steps: &mut Steps) -> bool
        ensures value { result ≡ list_any (λ i. i.id == id) self.now.inlays }
        ensures counted { steps.old ≤ steps.new }
        ensures steps { Searches (length self.now.inlays) steps.old steps.new }
    {
        self.inlaid.has_id(id, steps)
    }

    /// Why an inlay isn't added to these, if it isn't: the refusal of `InlayMap::insert`. The offset counts bytes.
    pub fn refusal_to_add(
        &self,
        id: u32,
        offset: u32,
        text: &str,
        steps: &mut Steps,
    ) -> Option<Refusal>
        ensures refusal { result ≡ add_refusal self.now id offset text.now }
        ensures counted { steps.old ≤ steps.new }
        ensures steps { let s = self.now in
            SearchesOnce (ways 2) s.text (length s.inlays) steps.old steps.new }
    {
        // For the proof: the text is UTF-8.
        let _len = self.inlaid.len();
        if self.inlaid.has_id(id, steps) {
            return Some(Refusal::IdInUse);
        }
        if !self.inlaid.is_boundary(offset, steps) {
            return Some(Refusal::BadRange);
        }
        if text.len() == 0 {
            return Some(Refusal::BadText);
        }
        if text.len() > INLAY_LIMIT {
            return Some(Refusal::TooLong);
        }
        let count = self.inlaid.count() as usize;
        if count >= ENTRY_LIMIT {
            return Some(Refusal::TooLong);
        }
        None
    }

    /// Where an offset is in what is shown: before the inlays at it (Left) or after them (Right).
    pub(crate) fn place(&self, offset: u32, bias: Bias, steps: &mut Steps) -> u32
        requires { offset ≤ length self.now.text }
        ensures place { result ≡ place_of self.now offset bias }
        ensures counted { steps.old ≤ steps.new }
        ensures steps { TakesAtMost way (length self.now.inlays) steps.old steps.new }
    {
        // For the proof: the text and the inlays are within their limits, so each place is a u32.
        let _len = self.inlaid.len();
        self.splices.to_upper::<ByBytes>(offset, bias, steps)
    }

    /// The same with one inlay more.
    pub(crate) fn added(
        &self,
        alloc: Global,
        mark: Mark<InlayText>,
        steps: &mut Steps,
    ) -> Result<InlaySnapshot, NoMemory>
        // The inlay fits the text, its id is new, and there is room for one more.
        requires fits { IsInlayOf self.now.text (inlay_of mark) }
        requires room { HasRoom (λ i. i.id) mark.id self.now.inlays }

        // It is among the others in their order.
        ensures ok { let inlays = insert_by inlay_le (inlay_of mark) self.now.inlays in
            IfOk result (λ s. s ≡ inlay_source self.now.text inlays) }

        // The work: the inlay and its splice are put among the others.
        ensures counted { steps.old ≤ steps.new }
        ensures steps { let s = self.now in
            TakesAmong putting s.text (length s.inlays + 1) steps.old steps.new }
    {
        let mut inlaid = self.inlaid.share()?;
        let at = inlaid.add(alloc, mark, steps)?;
        let splices = inlaid.respliced(alloc, &self.splices, Shift::new(at, at, 1), steps)?;
        Ok(InlaySnapshot { inlaid, splices })
    }

    /// What an inlay replaces of what is shown that was added at the offset, or removed there: all inlays at it.
    pub(crate) fn shift_to(&self, next: &InlaySnapshot, offset: u32, steps: &mut Steps) -> Shift
        // Both are of one text, and the offset is at one place in both.
        requires text { next.now.text ≡ self.now.text }
        requires within { offset ≤ length self.now.text }
        requires before { place_of next.now offset Left ≡ place_of self.now offset Left }

        // All inlays at the offset, before and after.
        ensures shift { reach_of result ≡ inlay_shift self.now next.now offset }

        // The work.
        ensures counted { steps.old ≤ steps.new }
        ensures steps { let was = length self.now.inlays in let is = length next.now.inlays in
            ChangesAtMost (ways 3) was is steps.old steps.new }
    {
        let start = self.place(offset, Bias::Left, steps);
        let end = self.place(offset, Bias::Right, steps);
        let last = next.place(offset, Bias::Right, steps);
        Shift::new(start, end, last - start)
    }

    /// The same without the inlay of an index, and the offset at which that was.
    pub(crate) fn removed(
        &self,
        alloc: Global,
        at: u32,
        steps: &mut Steps,
    ) -> Result<(InlaySnapshot, u32), NoMemory>
        // There is such an inlay.
        requires { at < length self.now.inlays }

        // All others stay, and the offset is that of the one that went.
        ensures ok { let inlays = without_at at self.now.inlays in
            IfOk result (λ r. r.0 ≡ inlay_source self.now.text inlays) }
        ensures offset { IfOk result (λ r. (i : Inlay) →
            slice_get self.now.inlays at ≡ Some i → i.offset ≡ r.1) }

        // The work: the inlay and its splice are taken from the others.
        ensures counted { steps.old ≤ steps.new }
        ensures steps { TakesInlaid putting self.now steps.old steps.new }
    {
        // For the proof: the number of inlays is within its limit.
        let _len = self.text_len();
        let mut inlaid = self.inlaid.share()?;
        let offset = inlaid.take(alloc, at, steps)?;
        let splices = inlaid.respliced(alloc, &self.splices, Shift::new(at, at + 1, 0), steps)?;
        Ok((InlaySnapshot { inlaid, splices }, offset))
    }

    /// The inlays over the text that a replacement has made, moved as that does.
    pub(crate) fn moved(
        &self,
        alloc: Global,
        rope: Rope,
        shift: Shift,
        steps: &mut Steps,
    ) -> Result<InlaySnapshot, NoMemory>
        // The replacement leads to the new text, and each inlay, once moved, is at a boundary of that.
        requires leads { Leads unmoved self.now.text rope (reach_of shift) }
        requires boundaries { StandAfter rope (Some (reach_of shift)) self.now.inlays }

        // The new text with the inlays, moved.
        ensures ok { IfOk result (λ s. s ≡ source_after rope (Some (reach_of shift)) self.now) }

        // The work: the inlays that are met are moved one by one, and their splices made anew.
        ensures counted { steps.old ≤ steps.new }
        ensures steps { let inlays = self.now.inlays in
            let k = met (reach_of shift) inlays in
            TakesInlaid (relaying k) (inlay_source rope inlays) steps.old steps.new }
    {
        // For the proof: the text is within its limit.
        let _len = self.inlaid.len();
        let first = self.inlaid.index_from(shift.start, steps);
        let last = self.inlaid.index_from(shift.end + 1, steps);
        let inlaid = self.inlaid.moved(alloc, rope, shift, steps)?;
        let run = Shift::new(first, last, last - first);
        let splices = inlaid.respliced(alloc, &self.splices, run, steps)?;
        Ok(InlaySnapshot { inlaid, splices })
    }

    /// The same inlays over an equal text.
    pub(crate) fn over(&self, rope: Rope) -> Result<InlaySnapshot, NoMemory>
        requires { rope ≡ self.now.text }
        ensures { IfOk result (λ s. s ≡ inlay_source rope self.now.inlays) }
    {
        let inlaid = self.inlaid.over(rope)?;
        let splices = self.splices.share()?;
        Ok(InlaySnapshot { inlaid, splices })
    }

    /// What a replacement of the text replaces of what is shown: also the inlays at both its ends.
    pub(crate) fn shift_over(&self, next: &InlaySnapshot, shift: Shift, steps: &mut Steps) -> Shift
        // The replacement lies in both texts, and begins at one place in both.
        requires within { shift.end ≤ length self.now.text }
        requires reaches { shift.start + shift.count ≤ length next.now.text }
        requires before { let start = shift.start in
            place_of next.now start Left ≡ place_of self.now start Left }

        // From the left place of its start to the right one of its end, before and after.
        ensures shift { reach_of result ≡ inlaid_shift self.now next.now (reach_of shift) }

        // The work.
        ensures counted { steps.old ≤ steps.new }
        ensures steps { let was = length self.now.inlays in let is = length next.now.inlays in
            ChangesAtMost (ways 3) was is steps.old steps.new }
    {
        // For the proof: the text is within its limit, and so is the end of what is put into it.
        let _len = next.inlaid.len();
        let start = self.place(shift.start, Bias::Left, steps);
        let end = self.place(shift.end, Bias::Right, steps);
        let last = next.place(shift.start + shift.count, Bias::Right, steps);
        Shift::new(start, end, last - start)
    }
}
