//! The batches that an undo and a redo take.
ghost use Rattle.std.specs.Prelude.{◌≡◌, ◌<◌, ◌↔◌, ℕ, List, [], ◌∷◌, length, drop, slice_get, IsSome, IfSome, OnOk};
ghost use Rattle.std.specs.Option.{option_copied};
ghost use Rattle.display_sheet.specs.declared.change.Splice.{Splice};
ghost use Rattle.display_sheet.specs.Changes.{batch};
ghost use Rattle.undo_line.specs.Inverse.{Leads, text_after};
ghost use Rattle.undo_line.specs.TextLines.{IsLineOf, TextLine, edited, opened_line, redone, undone};

use cell_units::NoMemory;
use display_sheet::Splice;
use std::alloc::Global;
use std::marker::Model;

/// What takes back the edits that are done, and what does those again that were taken back. It is seen as two lists of
/// batches, each from the latest on, and the number of batches for which both still have room.
pub struct UndoLine {
    past: Vec<Vec<Splice>>,
    future: Vec<Vec<Splice>>,
}

impl Drop for UndoLine {
    fn drop(self) {
        let UndoLine { past: _, future: _ } = self;
    }
}

impl Model for UndoLine {
    ghost use Rattle.undo_line.specs.UndoParts.{UndoParts};

    ghost Value = { UndoParts };

    ghost use Rattle.undo_line.specs.UndoParts.{seen};

    ghost view = { λ u. seen u.past u.future };
}

impl UndoLine {
    /// Nothing to undo, and nothing to redo.
    pub fn new(alloc: Global) -> UndoLine
        ensures past { result.past ≡ [] }
        ensures future { result.future ≡ [] }
        ensures line { (text : List ℕ) → IsLineOf result (opened_line text) }
    {
        UndoLine {
            past: Vec::new(alloc),
            future: Vec::new(alloc),
        }
    }

    /// Makes room for one more batch in each list, so that `edited`, `undone` or `redone` may follow.
    pub fn ready(&mut self) -> Result<(), NoMemory>
        ensures past { self.new.past ≡ self.old.past }
        ensures future { self.new.future ≡ self.old.future }
        ensures line { (line : TextLine) → IsLineOf self.old line → IsLineOf self.new line }
        ensures room { OnOk result (0 < self.new.spare) }
    {
        self.past.reserve(1)?;
        self.future.reserve(1)?;
        Ok(())
    }

    /// What takes the last edit back; `None` where there is nothing to undo.
    pub fn last_done(&self) -> Option<&[Splice]>
        ensures some { IsSome result ↔ (0 < length self.now.past) }
        ensures batch { option_copied result ≡ slice_get self.now.past 0 }
        ensures text { (line : TextLine) → IsLineOf self.now line →
            IsSome result ↔ (0 < length line.past) }
        ensures leads { (line : TextLine) → IsLineOf self.now line →
            IfSome result (λ back. Leads line.present back.now (undone line).present) }
    {
        let back = self.past.last()?;
        Some(back.as_slice())
    }

    /// What does again the edit that was taken back last; `None` where there is nothing to redo.
    pub fn last_undone(&self) -> Option<&[Splice]>
        ensures some { IsSome result ↔ (0 < length self.now.future) }
        ensures batch { option_copied result ≡ slice_get self.now.future 0 }
        ensures text { (line : TextLine) → IsLineOf self.now line →
            IsSome result ↔ (0 < length line.future) }
        ensures leads { (line : TextLine) → IsLineOf self.now line →
            IfSome result (λ again. Leads line.present again.now (redone line).present) }
    {
        let again = self.future.last()?;
        Some(again.as_slice())
    }

    /// Keeps what takes an edit back, after which there is nothing to redo.
    pub fn edited(&mut self, back: Vec<Splice>)
        requires { 0 < self.old.spare }
        ensures past { self.new.past ≡ back.items ∷ self.old.past }
        ensures future { self.new.future ≡ [] }
        ensures line { (line : TextLine) (splices : List Splice) →
            IsLineOf self.old line → 0 < length (batch splices) →
            Leads (text_after line.present splices) back.items line.present →
            IsLineOf self.new (edited splices line) }
    {
        self.past.push_reserved(back);
        self.future.clear();
    }

    /// Drops what an undo took, and keeps what does it again.
    pub fn undone(&mut self, back: Vec<Splice>)
        requires room { 0 < self.old.spare }
        requires some { 0 < length self.old.past }
        ensures past { self.new.past ≡ drop 1 self.old.past }
        ensures future { self.new.future ≡ back.items ∷ self.old.future }
        ensures line { (line : TextLine) → IsLineOf self.old line →
            Leads (undone line).present back.items line.present →
            IsLineOf self.new (undone line) }
    {
        self.past.pop();
        self.future.push_reserved(back);
    }

    /// Drops what a redo took, and keeps what takes it back.
    pub fn redone(&mut self, back: Vec<Splice>)
        requires room { 0 < self.old.spare }
        requires some { 0 < length self.old.future }
        ensures past { self.new.past ≡ back.items ∷ self.old.past }
        ensures future { self.new.future ≡ drop 1 self.old.future }
        ensures line { (line : TextLine) → IsLineOf self.old line →
            Leads (redone line).present back.items line.present →
            IsLineOf self.new (redone line) }
    {
        self.future.pop();
        self.past.push_reserved(back);
    }
}
