//! The map: inlays that are added, removed and moved, and what changed since the last snapshot.
ghost use Rattle.std.specs.Prelude.{◌≡◌, ◌+◌, ◌≤◌, None, Some, length, option_map, IfErr, IfOk, OnErr, OnOk};
ghost use Rattle.std.specs.List.{Contains};
ghost use Rattle.cell_units.specs.Layers.{inlay_source};
ghost use Rattle.cell_units.specs.Record.{Inlay};
ghost use Rattle.sum_tree.specs.Bounds.{ChangesAtMost};
ghost use Rattle.text_rope.specs.Bounds.{ways};
ghost use Rattle.edit_patch.specs.Leads.{Leads, LeadsIfAny, reach_of, unmoved};
ghost use Rattle.inlay_map.specs.Bounds.{SearchesOnce, TakesInlaid, changing, met, met_by, syncing};
ghost use Rattle.inlay_map.specs.Kept.{IsInlaid};
ghost use Rattle.inlay_map.specs.Maps.{DifferAt, IsOwed, IsSynced, StandAfter, add_refusal, added, answer_of, inlay_with, remove_refusal, removed, source_after, state_of, synced, with_inlays};

use crate::inlay_text::InlayText;
use crate::snapshot::InlaySnapshot;
use cell_units::{Bias, Fault, NoMemory, Refusal, Shift, Steps};
use edit_patch::with_pending;
use mark_tree::Mark;
use std::alloc::Global;
use std::marker::Model;
use text_rope::Rope;

/// A text with inlays, as it is now and as it was last shown.
pub struct InlayMap {
    current: InlaySnapshot,
    shown: InlaySnapshot,
    pending: Option<Shift>,
}

impl Drop for InlayMap {
    fn drop(self) {
        let InlayMap {
            current: _,
            shown: _,
            pending: _,
        } = self;
    }
}

impl Model for InlayMap {
    ghost use Rattle.std.specs.Prelude.{option_map};
    ghost use Rattle.edit_patch.specs.Leads.{reach_of};
    ghost use Rattle.inlay_map.specs.Maps.{InlayState};
    ghost use Rattle.inlay_map.specs.Kept.{IsKept};

    ghost Value = { InlayState };

    ghost view = { λ m.
        record { current = m.current; shown = m.shown; pending = option_map reach_of m.pending } };

    ghost invariant = { λ m. IsKept m.current m.shown (option_map reach_of m.pending) };
}

impl InlayMap {
    /// The text without inlays, which counts as shown. It fails with `NoMemory` only where the count of holders of the
    /// text is full.
    pub fn new(alloc: Global, rope: Rope, steps: &mut Steps) -> Result<InlayMap, NoMemory>
        ensures ok { IfOk result (λ m. m ≡ state_of rope) }
        ensures steps { steps.new ≡ steps.old }
    {
        // Nothing is opened or made.
        let _steps = steps;
        let current = InlaySnapshot::plain(alloc, rope);
        let shown = current.share()?;
        Ok(InlayMap {
            current,
            shown,
            pending: None,
        })
    }

    /// An equal map, and no later change of either changes the other.
    pub fn share(&self) -> Result<InlayMap, NoMemory>
        ensures { IfOk result (λ m. m ≡ self.now) }
    {
        let current = self.current.share()?;
        let shown = self.shown.share()?;
        Ok(InlayMap {
            current,
            shown,
            pending: self.pending,
        })
    }

    /// The number of inlays. They are within the text, at boundaries.
    pub fn len(&self) -> u32
        ensures len { result ≡ length self.now.current.inlays }
        ensures lawful { IsInlaid self.now.current }
    {
        // For the proof: the inlays of the snapshot are lawful, as its type keeps.
        let _text = self.current.text_len();
        self.current.count()
    }

    /// Adds an inlay: a text that is shown at an offset of the buffer, in bytes. At an insertion of text there it stays
    /// (Left) or goes after it (Right). It is refused by the first of these that fits:
    ///
    /// - `IdInUse`: its id is there;
    /// - `BadRange`: the offset is past the text's end or inside a character;
    /// - `BadText`: the inlay's text is empty;
    /// - `TooLong`: that has more than `INLAY_LIMIT` bytes, or `ENTRY_LIMIT` inlays are there.
    pub fn insert(
        &mut self,
        alloc: Global,
        id: u32,
        offset: u32,
        bias: Bias,
        text: &str,
        steps: &mut Steps,
    ) -> Result<(), Fault>
        // What is there after it, and what is accepted.
        ensures ok { OnOk result (self.new ≡ added (inlay_with id offset bias text.now) self.old) }
        ensures accepted { OnOk result (add_refusal self.old.current id offset text.now ≡ None) }

        // Refusals are judged before any memory is taken.
        ensures refused { IfErr result (IsOwed (add_refusal self.old.current id offset text.now)) }
        ensures unchanged { OnErr result (self.new ≡ self.old) }
        ensures counted { steps.old ≤ steps.new }
        ensures steps { let s = self.old.current in
            SearchesOnce changing s.text (length s.inlays + 1) steps.old steps.new }
    {
        if let Some(refusal) = self.current.refusal_to_add(id, offset, text, steps) {
            return Err(Fault::Refused(refusal));
        }
        // For the proof: the text is UTF-8.
        let _len = self.current.text_len();
        let mark = Mark {
            offset,
            bias,
            id,
            load: InlayText::new(alloc, text)?,
        };
        let next = self.current.added(alloc, mark, steps)?;
        self.turn_to(next, offset, steps);
        Ok(())
    }

    /// Takes the inlay of this id off the text. `UnknownId` where there is none.
    pub fn remove(&mut self, alloc: Global, id: u32, steps: &mut Steps) -> Result<(), Fault>
        // What is there after it, and what is accepted.
        ensures ok { (i : Inlay) → Contains self.old.current.inlays i → i.id ≡ id →
            OnOk result (self.new ≡ removed i self.old) }
        ensures accepted { OnOk result (remove_refusal self.old.current id ≡ None) }
        ensures text { self.new.current.text ≡ self.old.current.text }

        // The refusal is judged before any memory is taken.
        ensures refused { IfErr result (IsOwed (remove_refusal self.old.current id)) }
        ensures unchanged { OnErr result (self.new ≡ self.old) }
        ensures counted { steps.old ≤ steps.new }
        ensures steps { let s = self.old.current in
            SearchesOnce changing s.text (length s.inlays) steps.old steps.new }
    {
        // For the proof: the inlays are within the text, no two with one id.
        let _len = self.current.text_len();
        let Some(at) = self.current.find_id(id, steps) else {
            return Err(Fault::Refused(Refusal::UnknownId));
        };
        let (next, offset) = self.current.removed(alloc, at, steps)?;
        self.turn_to(next, offset, steps);
        Ok(())
    }

    /// Takes the text as it is now, and moves the inlays. With it comes the replacement that led to it since the last
    /// call, if there was one.
    ///
    /// Returns the new snapshot, and the one replacement of what is shown that leads to it from the last snapshot.
    /// There is none where nothing changed. Places count bytes (*The text with inlays as a map*).
    pub fn sync(
        &mut self,
        alloc: Global,
        rope: Rope,
        shift: Option<Shift>,
        steps: &mut Steps,
    ) -> Result<(InlaySnapshot, Option<Shift>), NoMemory>
        // The replacement leads from the text that the map has to the new one, and each inlay is at a boundary of that.
        requires leads { LeadsIfAny unmoved self.old.current.text rope (option_map reach_of shift) }
        requires boundaries { StandAfter rope (option_map reach_of shift) self.old.current.inlays }

        // What is returned, and what the map has after it.
        ensures synced { let replaced = option_map reach_of shift in
            IfOk result (λ r. IsSynced rope replaced self.old r.0 (option_map reach_of r.1)) }
        ensures ok { OnOk result (self.new ≡ synced rope (option_map reach_of shift) self.old) }
        ensures unchanged { OnErr result (self.new ≡ self.old) }

        // The work.
        ensures counted { steps.old ≤ steps.new }
        ensures steps { let inlays = self.old.current.inlays in
            let k = met_by (option_map reach_of shift) inlays in
            TakesInlaid (syncing k) (inlay_source rope inlays) steps.old steps.new }
    {
        // For the proof: the text has its inlays within it, and there are no folds.
        let _len = self.current.text_len();
        let (next, answer) = self.after(alloc, rope, shift, steps)?;
        let shown = next.share()?;
        let answered = next.share()?;
        self.shown = shown;
        self.current = next;
        self.pending = None;
        Ok((answered, answer))
    }

    /// What is there after the replacement of the text, if there was one, and what leads from the last snapshot to it.
    fn after(
        &self,
        alloc: Global,
        rope: Rope,
        shift: Option<Shift>,
        steps: &mut Steps,
    ) -> Result<(InlaySnapshot, Option<Shift>), NoMemory>
        // It leads from the text that the map has to the new one, and the inlays, moved, are at boundaries of that.
        requires leads { LeadsIfAny unmoved self.now.current.text rope (option_map reach_of shift) }
        requires boundaries { StandAfter rope (option_map reach_of shift) self.now.current.inlays }

        // The new text with the inlays, moved. The result covers what was pending, and what is replaced now.
        ensures snapshot { let replaced = option_map reach_of shift in
            IfOk result (λ r. r.0 ≡ source_after rope replaced self.now.current) }
        ensures answer { let replaced = option_map reach_of shift in
            IfOk result (λ r. option_map reach_of r.1 ≡ answer_of rope replaced self.now) }

        // The work: the inlays that are met are moved one by one, and what is replaced is looked up.
        ensures counted { steps.old ≤ steps.new }
        ensures steps { let inlays = self.now.current.inlays in
            let k = met_by (option_map reach_of shift) inlays in
            TakesInlaid (syncing k) (inlay_source rope inlays) steps.old steps.new }
    {
        match shift {
            None => Ok((self.current.over(rope)?, self.pending)),
            Some(shift) => {
                let (next, answer) = self.moved(alloc, rope, shift, steps)?;
                Ok((next, Some(answer)))
            }
        }
    }

    /// The same after a replacement.
    fn moved(
        &self,
        alloc: Global,
        rope: Rope,
        shift: Shift,
        steps: &mut Steps,
    ) -> Result<(InlaySnapshot, Shift), NoMemory>
        // It leads from the text that the map has to the new one, and the inlays, moved, are at boundaries of that.
        requires leads { Leads unmoved self.now.current.text rope (reach_of shift) }
        requires boundaries { StandAfter rope (Some (reach_of shift)) self.now.current.inlays }

        // The new text with the inlays, moved. The result covers what was pending, and what is replaced now.
        ensures snapshot { let replaced = Some (reach_of shift) in
            IfOk result (λ r. r.0 ≡ source_after rope replaced self.now.current) }
        ensures answer { let replaced = Some (reach_of shift) in
            IfOk result (λ r. Some (reach_of r.1) ≡ answer_of rope replaced self.now) }

        // The work: the inlays that are met are moved one by one, and what is replaced is looked up.
        ensures counted { steps.old ≤ steps.new }
        ensures steps { let inlays = self.now.current.inlays in
            let k = met (reach_of shift) inlays in
            TakesInlaid (syncing k) (inlay_source rope inlays) steps.old steps.new }
    {
        // For the proof: what is shown is within its limits.
        let _current = self.current.text_len();
        let _shown = self.shown.text_len();
        let next = self.current.moved(alloc, rope, shift, steps)?;
        // For the proof: what is shown afterwards is within its limits too.
        let _next = next.text_len();
        let moved = self.current.shift_over(&next, shift, steps);
        let answer = with_pending(self.pending, moved);
        Ok((next, answer))
    }

    /// Shows other inlays from now on, which differ from those before at one offset.
    fn turn_to(&mut self, next: InlaySnapshot, offset: u32, steps: &mut Steps)
        // The text stays, the offset lies in it, and at all other offsets the inlays are the same.
        requires text { next.text ≡ self.old.current.text }
        requires within { offset ≤ length next.text }
        requires differ { DifferAt offset next.inlays self.old.current.inlays }

        // What is pending then covers what was pending before, and all inlays at the offset.
        ensures now { self.new ≡ with_inlays next.inlays offset self.old }

        // The work: three ways down.
        ensures counted { steps.old ≤ steps.new }
        ensures steps { let before = self.old.current in
            ChangesAtMost (ways 3) (length before.inlays) (length next.inlays) steps.old steps.new }
    {
        // For the proof: what is shown is within its limits, before and after.
        let _current = self.current.text_len();
        let _next = next.text_len();
        let _shown = self.shown.text_len();
        let shift = self.current.shift_to(&next, offset, steps);
        self.pending = Some(with_pending(self.pending, shift));
        self.current = next;
    }
}
