//! A text with inlays, and the splices that belong to them.
ghost use Rattle.std.specs.Prelude.{◌≡◌, ◌==◌, ◌+◌, ◌-◌, ◌*◌, ◌<◌, ◌≤◌, ◌↔◌, IsTrue, Some, length, take, drop, slice_get, nat_le, IfOk, MatchOption, OnErr, OnOk};
ghost use Rattle.std.specs.List.{list_any, position, position_or_len};
ghost use Rattle.cell_units.specs.Lawful.{HasRoom, IsInlayOf};
ghost use Rattle.cell_units.specs.Layers.{inlay_source, plain_source, point_of};
ghost use Rattle.cell_units.specs.BufferLines.{line_end, line_start};
ghost use Rattle.cell_units.specs.Record.{Inlay, inlay_le, line_count};
ghost use Rattle.cell_units.specs.Sorting.{insert_by};
ghost use Rattle.splice_tree.specs.Splices.{with_first_gap};
ghost use Rattle.edit_patch.specs.Leads.{reach_of};
ghost use Rattle.inlay_map.specs.declared.amount.Amount.{Amount};
ghost use Rattle.cell_units.specs.Text.{IsBoundary, clean, row_end, row_of, row_start};
ghost use Rattle.cell_units.specs.declared.limits.TheConstants.{INLAY_LIMIT};
ghost use Rattle.sum_tree.specs.Bounds.{Searches, TakesAtMost, way};
ghost use Rattle.text_rope.specs.Bounds.{TakesOnText};
ghost use Rattle.mark_tree.specs.Bounds.{adding, moving, taking};
ghost use Rattle.inlay_map.specs.Amounts.{amount_between, amount_of};
ghost use Rattle.inlay_map.specs.Bounds.{Resplices, TakesInlaid, measuring, met, resplicing};
ghost use Rattle.inlay_map.specs.Kept.{IsInlaid};
ghost use Rattle.inlay_map.specs.Maps.{StandAfter, source_after};
ghost use Rattle.inlay_map.specs.Splices.{AreSameButForGap, IsPut, before_at, inlay_of, inlay_with, splices_of, without_at};

use crate::amount::{Amount, feeds_in};
use crate::inlay_text::InlayText;
use cell_units::{Bias, Layer, NoMemory, Point, Shift, Steps, Text};
use mark_tree::{Mark, MarkTree};
use splice_tree::{Splice, SpliceTree};
use std::alloc::Global;
use std::marker::Model;
use sum_core::{NoLoad, Summary};
use text_rope::Rope;

/// A text with inlays that fit it. Contracts see it as that source, which has no folds.
pub(crate) struct Inlaid {
    pub(crate) rope: Rope,
    pub(crate) marks: MarkTree<InlayText>,
}

impl Drop for Inlaid {
    fn drop(self) {
        let Inlaid { rope: _, marks: _ } = self;
    }
}

impl Model for Inlaid {
    ghost use Rattle.std.specs.Prelude.{map};
    ghost use Rattle.cell_units.specs.Lawful.{AreInlays};
    ghost use Rattle.cell_units.specs.Layers.{Source, inlay_source};
    ghost use Rattle.inlay_map.specs.Splices.{inlay_of};

    ghost Value = { Source };

    ghost view = { λ s. inlay_source s.rope (map inlay_of s.marks) };

    ghost invariant = { λ s. AreInlays s.rope (map inlay_of s.marks) };
}

impl Inlaid {
    /// A text without inlays. It takes no memory.
    pub(crate) fn plain(alloc: Global, rope: Rope) -> Inlaid
        ensures { result ≡ plain_source rope }
    {
        let marks = MarkTree::new(alloc);
        Inlaid { rope, marks }
    }

    /// An equal text with equal inlays.
    pub(crate) fn share(&self) -> Result<Inlaid, NoMemory>
        ensures { IfOk result (λ s. s ≡ self.now) }
    {
        let rope = self.rope.share()?;
        let marks = self.marks.share()?;
        Ok(Inlaid { rope, marks })
    }

    /// The same inlays over an equal text.
    pub(crate) fn over(&self, rope: Rope) -> Result<Inlaid, NoMemory>
        requires { rope ≡ self.now.text }
        ensures { IfOk result (λ s. s ≡ inlay_source rope self.now.inlays) }
    {
        Ok(Inlaid {
            rope,
            marks: self.marks.share()?,
        })
    }

    /// The number of bytes of the text, which has no carriage return. The inlays fit it, and there are no folds.
    pub(crate) fn len(&self) -> u32
        ensures value { result ≡ length self.now.text }
        ensures lawful { IsInlaid self.now }
    {
        self.rope.len()
    }

    /// How much text there is up to an offset, after this much.
    fn amount_behind(&self, before: Amount, end: u32, steps: &mut Steps) -> Amount
        // `before` is all text up to an offset, which is at the end or before it.
        requires before { before ≡ amount_between self.now.text 0 before.bytes }
        requires order { before.bytes ≤ end }
        requires within { end ≤ length self.now.text }

        // The bytes from that offset to the end, and the line feeds among them.
        ensures amount { result ≡ amount_between self.now.text before.bytes end }

        // The work: one way down, to the row of the end.
        ensures counted { steps.old ≤ steps.new }
        ensures steps { TakesOnText way self.now.text steps.old steps.new }
    {
        let row = self.rope.row_of(end, steps);
        Amount {
            bytes: end - before.bytes,
            feeds: row - before.feeds,
        }
    }

    /// The number of rows of the text.
    pub(crate) fn line_count(&self) -> u32
        ensures { result ≡ line_count self.now.text }
    {
        self.rope.line_count()
    }

    /// The point of an offset.
    pub(crate) fn point(&self, offset: u32, steps: &mut Steps) -> Point
        requires { offset ≤ length self.now.text }
        ensures point { result ≡ point_of self.now.text offset }
        ensures counted { steps.old ≤ steps.new }
    {
        self.rope.point_of(offset, steps)
    }

    /// The row of an offset.
    pub(crate) fn row(&self, offset: u32, steps: &mut Steps) -> u32
        requires { offset ≤ length self.now.text }
        ensures row { result ≡ row_of self.now.text offset }
        ensures counted { steps.old ≤ steps.new }
    {
        self.rope.row_of(offset, steps)
    }

    /// The first offset of a row.
    pub(crate) fn row_start(&self, row: u32) -> u32
        requires { row < line_count self.now.text }
        ensures { result ≡ line_start self.now.text row }
    {
        Layer::line_start(&self.rope, row)
    }

    /// The first offset of a row, and the row's end.
    pub(crate) fn row_range(&self, row: u32) -> (u32, u32)
        requires { row < line_count self.now.text }
        ensures { result ≡ (line_start self.now.text row, line_end self.now.text row) }
    {
        Layer::row_range(&self.rope, row)
    }

    /// The same of the row of a boundary.
    pub(crate) fn row_ends(&self, offset: u32) -> (u32, u32)
        requires { IsBoundary self.now.text offset }
        ensures { result ≡ (row_start self.now.text offset, row_end self.now.text offset) }
    {
        Layer::row_ends(&self.rope, offset)
    }

    /// Whether the offset is a boundary of the text.
    pub(crate) fn is_boundary(&self, offset: u32, steps: &mut Steps) -> bool
        ensures test { IsTrue result ↔ IsBoundary self.now.text offset }
        ensures counted { steps.old ≤ steps.new }
        ensures steps { TakesOnText way self.now.text steps.old steps.new }
    {
        self.rope.is_boundary(offset, steps)
    }

    /// The text from one boundary to another, which isn't before the first.
    pub(crate) fn slice(
        &self,
        alloc: Global,
        start: u32,
        end: u32,
        steps: &mut Steps,
    ) -> Result<Text, NoMemory>
        // Both are boundaries of the text, in order.
        requires start { IsBoundary self.now.text start }
        requires end { IsBoundary self.now.text end }
        requires order { start ≤ end }

        // All bytes between them, and the work.
        ensures text { IfOk result (λ t. t ≡ take (end - start) (drop start self.now.text)) }
        ensures counted { steps.old ≤ steps.new }
    {
        self.rope.slice(alloc, start, end, steps)
    }

    /// How much text there is after this much.
    pub(crate) fn behind(&self, before: Amount) -> Amount
        requires within { before.bytes ≤ length self.now.text }
        requires before { before ≡ amount_between self.now.text 0 before.bytes }
        ensures { result ≡ amount_between self.now.text before.bytes (length self.now.text) }
    {
        Amount {
            bytes: self.rope.len() - before.bytes,
            feeds: self.rope.line_count() - 1 - before.feeds,
        }
    }
}

/// The splices of a run of inlays, and how much text is before the last of them.
#[derive(Drop)]
struct Measured {
    splices: Vec<Splice<Amount, NoLoad>>,
    before: Amount,
}

impl Inlaid {
    /// The splice that belongs to the inlay of an index. The one before it is after that much text.
    fn splice_at(&self, at: u32, before: Amount, steps: &mut Steps) -> Splice<Amount, NoLoad>
        // There is such an inlay, and `before` is all text up to the inlay before it.
        requires within { at < length self.now.inlays }
        requires before { before ≡ before_at self.now at }

        // It is the one of this index among all splices.
        ensures splice { slice_get (splices_of self.now) at ≡ Some result }

        // The work: the inlay is looked up, and the row of its offset.
        ensures counted { steps.old ≤ steps.new }
        ensures steps { TakesInlaid measuring self.now steps.old steps.new }
    {
        // For the proof: the text and its inlays are within their limits.
        let _len = self.len();
        match self.marks.get(at, steps) {
            None => unreachable!(),
            Some((offset, _, _, text)) => Splice::new(
                self.amount_behind(before, offset, steps),
                Amount::zero(),
                amount_shown(text),
                NoLoad,
            ),
        }
    }

    /// The splices of the inlays from one index to another, the first of which comes after that much text and its gap.
    fn splices_in(
        &self,
        alloc: Global,
        from: u32,
        to: u32,
        before: Amount,
        steps: &mut Steps,
    ) -> Result<Measured, NoMemory>
        // The indices are in order and within the list, and `before` is all text up to the inlay before the first.
        requires order { from ≤ to }
        requires within { to ≤ length self.now.inlays }
        requires before { before ≡ before_at self.now from }

        // The part of all splices between them, and all text up to the last inlay of it.
        ensures ok { IfOk result (λ m.
            m.splices.items ≡ take (to - from) (drop from (splices_of self.now))) }
        ensures before { IfOk result (λ m. m.before ≡ before_at self.now to) }

        // The work: the inlays are measured one by one.
        ensures counted { steps.old ≤ steps.new }
        ensures steps { TakesInlaid (λ h. (to - from) * measuring h) self.now steps.old steps.new }
    {
        // For the proof: the text is within its limit.
        let _len = self.len();
        let mut splices = Vec::with_capacity(alloc, (to - from) as usize)?;
        let mut reached = before;
        for at in from..to {
            let splice = self.splice_at(at, reached, steps);
            reached = reached.plus(splice.gap());
            splices.push(splice)?;
        }
        Ok(Measured {
            splices,
            before: reached,
        })
    }

    /// The gap before the inlay of an index, and nothing where there is none. The one before it is after that much
    /// text.
    fn gap_at(&self, at: u32, before: Amount, steps: &mut Steps) -> Amount
        // An inlay has the index, or all are before it, and `before` is all text up to the inlay before it.
        requires within { at ≤ length self.now.inlays }
        requires before { before ≡ before_at self.now at }

        // Put before the first of the splices from the index on, it leaves them as they are.
        ensures gap { let rest = drop at (splices_of self.now) in
            with_first_gap result rest ≡ rest }

        // The work: one inlay is measured at most.
        ensures counted { steps.old ≤ steps.new }
        ensures steps { TakesInlaid measuring self.now steps.old steps.new }
    {
        if at < self.marks.len() {
            self.splice_at(at, before, steps).gap()
        } else {
            Amount::zero()
        }
    }

    /// All splices, from those that belonged to other inlays. `run.count` inlays have come in the place of those from
    /// index `run.start` to `run.end`, and no others have come or gone.
    pub(crate) fn respliced(
        &self,
        alloc: Global,
        old: &SpliceTree<Amount, NoLoad>,
        run: Shift,
        steps: &mut Steps,
    ) -> Result<SpliceTree<Amount, NoLoad>, NoMemory>
        // Only the splices of the run are other ones, and the gap after it.
        requires within { run.end ≤ length old.now }
        requires reaches { run.start + run.count ≤ length self.now.inlays }
        requires front { take run.start old.now ≡ take run.start (splices_of self.now) }
        requires rest { let last = run.start + run.count in
            AreSameButForGap (drop run.end old.now) (drop last (splices_of self.now)) }

        // All splices of the text and its inlays.
        ensures ok { IfOk result (λ t. t ≡ splices_of self.now) }

        // The work.
        ensures counted { steps.old ≤ steps.new }
        ensures steps { let m = length old.now in
            Resplices (resplicing run.count) m self.now steps.old steps.new }
    {
        // For the proof: the inlays fit the text, so that their splices are within their limits.
        let _len = self.len();
        let last = run.start + run.count;
        // The text before the run is as it was.
        let before = old.find_at(run.start, steps).before.lower;
        let fresh = self.splices_in(alloc, run.start, last, before, steps)?;
        let gap = self.gap_at(last, fresh.before, steps);
        let mut splices = old.share()?;
        splices.replace(alloc, run.start, run.end, fresh.splices, gap, steps)?;
        Ok(splices)
    }
}

impl Inlaid {
    /// The index of the first inlay at an offset or after it, and how many there are where none is.
    pub(crate) fn index_from(&self, offset: u32, steps: &mut Steps) -> u32
        ensures index { result ≡ position_or_len (λ i. nat_le offset i.offset) self.now.inlays }
        ensures counted { steps.old ≤ steps.new }
        ensures steps { TakesAtMost way (length self.now.inlays) steps.old steps.new }
    {
        match self.marks.at_or_after(offset, steps) {
            Some(at) => at,
            None => self.marks.len(),
        }
    }

    /// The offset, bias, id and text of the inlay of an index, as it was given. `None` exactly where there is none.
    pub(crate) fn get(&self, at: u32, steps: &mut Steps) -> Option<(u32, Bias, u32, &str)>
        ensures inlay { MatchOption result (length self.now.inlays ≤ at) (λ i.
            slice_get self.now.inlays at ≡ Some (inlay_with i.0 i.1 i.2 i.3.now)) }
        ensures counted { steps.old ≤ steps.new }
        ensures steps { TakesAtMost way (length self.now.inlays) steps.old steps.new }
    {
        let (offset, bias, id, text) = self.marks.get(at, steps)?;
        Some((offset, bias, id, text.given()))
    }

    /// What the inlay of an index shows.
    pub(crate) fn shown(&self, at: u32, steps: &mut Steps) -> &str
        requires { at < length self.now.inlays }
        ensures text { (i : Inlay) → slice_get self.now.inlays at ≡ Some i →
            result.now ≡ clean i.text }
        ensures counted { steps.old ≤ steps.new }
    {
        let (_, text) = self.shown_with_id(at, steps);
        text
    }

    /// The id of the inlay of an index, and what it shows.
    pub(crate) fn shown_with_id(&self, at: u32, steps: &mut Steps) -> (u32, &str)
        requires { at < length self.now.inlays }
        ensures id { (i : Inlay) → slice_get self.now.inlays at ≡ Some i → result.0 ≡ i.id }
        ensures text { (i : Inlay) → slice_get self.now.inlays at ≡ Some i →
            result.1.now ≡ clean i.text }
        ensures counted { steps.old ≤ steps.new }
    {
        match self.marks.get(at, steps) {
            Some((_, _, id, text)) => (id, text.shown()),
            None => unreachable!(),
        }
    }

    /// Takes the inlay of an index off the text, and returns its offset.
    pub(crate) fn take(
        &mut self,
        alloc: Global,
        at: u32,
        steps: &mut Steps,
    ) -> Result<u32, NoMemory>
        requires { at < length self.old.inlays }

        // What is there after it, and the offset of what went.
        ensures ok { let inlays = without_at at self.old.inlays in
            OnOk result (self.new ≡ inlay_source self.old.text inlays) }
        ensures offset { IfOk result (λ offset. (i : Inlay) →
            slice_get self.old.inlays at ≡ Some i → i.offset ≡ offset) }
        ensures unchanged { OnErr result (self.new ≡ self.old) }

        // The work.
        ensures counted { steps.old ≤ steps.new }
        ensures steps { TakesAtMost taking (length self.old.inlays) steps.old steps.new }
    {
        match self.marks.take(alloc, at, steps) {
            Ok(mark) => Ok(mark.offset),
            Err(refused) => Err(refused),
        }
    }
}

/// How much an inlay shows.
fn amount_shown(text: &InlayText) -> Amount
    requires { length text.now ≤ INLAY_LIMIT }
    ensures { result ≡ amount_of (clean text.now) }
{
    let shown = text.shown();
    Amount {
        bytes: shown.len() as u32,
        feeds: feeds_in(shown.as_bytes()),
    }
}

impl Inlaid {
    /// The number of inlays.
    pub(crate) fn count(&self) -> u32
        ensures { result ≡ length self.now.inlays }
    {
        self.marks.len()
    }

    /// The index of the inlay of an id, if there is one.
    pub(crate) fn find(&self, id: u32, steps: &mut Steps) -> Option<u32>
        ensures index { result ≡ position (λ i. i.id == id) self.now.inlays }
        ensures counted { steps.old ≤ steps.new }
        ensures steps { Searches (length self.now.inlays) steps.old steps.new }
    {
        self.marks.find(id, steps)
    }

    /// Whether there is an inlay of this id.
    pub(crate) fn has_id(&self, id: u32, steps: &mut Steps) -> bool
        ensures value { result ≡ list_any (λ i. i.id == id) self.now.inlays }
        ensures counted { steps.old ≤ steps.new }
        ensures steps { Searches (length self.now.inlays) steps.old steps.new }
    {
        self.marks.contains(id, steps)
    }

    /// The inlays over the text that a replacement has made, moved as that does.
    pub(crate) fn moved(
        &self,
        alloc: Global,
        rope: Rope,
        shift: Shift,
        steps: &mut Steps,
    ) -> Result<Inlaid, NoMemory>
        // The replacement ends within the new text, and each inlay, once moved, is at a boundary of that.
        requires within { shift.start + shift.count ≤ length rope }
        requires boundaries { StandAfter rope (Some (reach_of shift)) self.now.inlays }

        // The new text with the inlays, moved.
        ensures ok { IfOk result (λ s. s ≡ source_after rope (Some (reach_of shift)) self.now) }

        // The work: each inlay that the replacement meets is set anew.
        ensures counted { steps.old ≤ steps.new }
        ensures steps { let inlays = self.now.inlays in
            TakesAtMost (moving (met (reach_of shift) inlays)) (length inlays) steps.old steps.new }
    {
        // For the proof: the texts before and after are within their limit, and so is each inlay's place.
        let _len = self.len();
        let _after = rope.len();
        let mut marks = self.marks.share()?;
        marks.apply(alloc, shift, steps)?;
        Ok(Inlaid { rope, marks })
    }

    /// Adds an inlay, and returns its index.
    pub(crate) fn add(
        &mut self,
        alloc: Global,
        mark: Mark<InlayText>,
        steps: &mut Steps,
    ) -> Result<u32, NoMemory>
        // It is in the text, and its id is new.
        requires fits { IsInlayOf self.old.text (inlay_of mark) }
        requires room { HasRoom (λ i. i.id) mark.id self.old.inlays }

        // The inlays after it, and where it is among them.
        ensures ok { let inlays = insert_by inlay_le (inlay_of mark) self.old.inlays in
            OnOk result (self.new ≡ inlay_source self.old.text inlays) }
        ensures put { IfOk result (λ at. IsPut (inlay_of mark) self.old.inlays self.new.inlays at) }
        ensures unchanged { OnErr result (self.new ≡ self.old) }

        // The work.
        ensures counted { steps.old ≤ steps.new }
        ensures steps { TakesAtMost adding (length self.old.inlays + 1) steps.old steps.new }
    {
        // For the proof: the text and its inlays are within their limits.
        let _len = self.len();
        self.marks.put(alloc, mark, steps)
    }
}
