//! The rope as the bytes of a text.
ghost use Rattle.std.specs.Prelude.{◌≡◌, ℕ, ◌+◌, ◌-◌, ◌*◌, ◌/◌, ◌<◌, ◌≤◌, ◌↔◌, length, take, drop, slice_get, IfOk, IsTrue, OnErr};
ghost use Rattle.std.specs.Result.{MatchResult};
ghost use Rattle.cell_units.specs.BufferLines.{buffer_lines, line_end, line_start};
ghost use Rattle.cell_units.specs.Layers.{point_of};
ghost use Rattle.cell_units.specs.Operation.{replaced_text};
ghost use Rattle.cell_units.specs.Record.{line_count};
ghost use Rattle.cell_units.specs.Text.{IsBoundary, IsText, clean, row_of};
ghost use Rattle.sum_tree.specs.Bounds.{way};
ghost use Rattle.text_rope.specs.Bounds.{ChangesText, TakesOnText, reading_row, replacing, slicing, ways};
ghost use Rattle.text_rope.specs.Edits.{IsFaultWithin, IsRange, IsReplaceFault, IsReplaced, IsReplacedWithin};
ghost use Rattle.cell_units.specs.Points.{offset_at};
ghost use Rattle.cell_units.specs.Refusal.{IsAccepted, IsTextRefused};

use crate::chunk::{Chunk, chunks_of};
use crate::edit::{is_range, renewed};
use crate::find::{found_at, gather, is_boundary, near_boundary, row_at};
use crate::rows::{point_at, range_of_row, start_of_row};
use cell_units::limits::{LAID_LIMIT, TEXT_LIMIT};
use cell_units::{Bias, Fault, NoMemory, Point, Steps, Text, TextFault, cleaned, read_text};
use edit_patch::Patch;
use std::alloc::Global;
use std::marker::Model;
use sum_tree::SumTree;

/// A text. Ropes share what they have in common, and no later change of the one is seen by another.
///
/// Bounds on the steps of a call are given for each h such that the text has fewer than 120 * 6^(h + 1) bytes. The
/// least such h is the greatest height of the rope's tree.
pub struct Rope {
    chunks: SumTree<Chunk>,
}

impl Drop for Rope {
    fn drop(self) {
        let Rope { chunks: _ } = self;
    }
}

impl Model for Rope {
    ghost use Rattle.std.specs.Prelude.{ℕ, List};
    ghost use Rattle.std.specs.List.{concat};
    ghost use Rattle.text_rope.specs.Ropes.{IsRope};

    ghost Value = { List ℕ };

    ghost view = { λ r. concat r.chunks };

    ghost invariant = { λ r. IsRope r.chunks };
}

impl Rope {
    /// The text of these bytes, with each CR LF and then each lone CR turned into LF. `TooLong` where there are more
    /// than 33,554,432 bytes, and else `NotUtf8` where they aren't UTF-8, with the length of the longest prefix that
    /// is.
    pub fn from_bytes(alloc: Global, bytes: &[u8], steps: &mut Steps) -> Result<Rope, TextFault>
        ensures cases { MatchResult result
            (λ r. (r ≡ clean bytes.now) × IsAccepted bytes.now) (IsTextRefused bytes.now) }
        ensures counted { steps.old ≤ steps.new }
        ensures steps { steps.new ≤ steps.old + 8 * (length bytes.now / 64 + 1) }
    {
        let text = cleaned(alloc, read_text(bytes)?)?;
        let chunks = SumTree::from_vec(alloc, chunks_of(alloc, text.as_str())?, steps)?;
        Ok(Rope { chunks })
    }

    /// An equal text.
    pub fn share(&self) -> Result<Rope, NoMemory>
        ensures { IfOk result (λ r. r ≡ self.now) }
    {
        Ok(Rope {
            chunks: self.chunks.share()?,
        })
    }

    /// The number of bytes, which is at most 67,108,864. They are UTF-8 without carriage returns.
    pub fn len(&self) -> u32
        ensures value { result ≡ length self.now }
        ensures within { result ≤ LAID_LIMIT }
        ensures text { IsText self.now }
    {
        self.chunks.sum().bytes
    }

    /// The number of lines: one more than there are line feeds.
    pub fn line_count(&self) -> u32
        ensures { result ≡ line_count self.now }
    {
        self.chunks.sum().feeds + 1
    }

    /// Puts the text, with each CR LF and then each lone CR turned into LF, in the place of the range of bytes. Returns
    /// the patch of that: one edit, or none where nothing replaces nothing. `BadRange` where the range is backwards or
    /// one of its ends is past the text's or within a character. Else `TooLong` where there would be more than
    /// 33,554,432 bytes.
    pub fn replace(
        &mut self,
        alloc: Global,
        start: u32,
        end: u32,
        text: &str,
        steps: &mut Steps,
    ) -> Result<Patch, Fault>
        ensures cases { let put = clean text.now in
            MatchResult result (IsReplaced self.old start end put self.new)
            (IsReplaceFault self.old start end put) }
        ensures unchanged { OnErr result (self.new ≡ self.old) }
        ensures counted { steps.old ≤ steps.new }
        ensures steps { let put = clean text.now in
            let made = replaced_text self.old start end put in
            ChangesText (replacing (length put)) self.old made steps.old steps.new }
    {
        let (new, patch) = renewed(alloc, &self.chunks, start, end, text, TEXT_LIMIT, steps)?;
        self.chunks
            .replace(alloc, new.from, new.to, new.chunks, steps)?;
        Ok(patch)
    }

    /// The text after such a replacement, and the patch of it. This one stays as it is. The errors are those of
    /// `replace`.
    pub fn replaced(
        &self,
        alloc: Global,
        start: u32,
        end: u32,
        text: &str,
        steps: &mut Steps,
    ) -> Result<(Rope, Patch), Fault>
        ensures cases { let put = clean text.now in
            MatchResult result (λ made. IsReplaced self.now start end put made.0 made.1)
            (IsReplaceFault self.now start end put) }
        ensures counted { steps.old ≤ steps.new }
        ensures steps { let put = clean text.now in
            let made = replaced_text self.now start end put in
            ChangesText (replacing (length put)) self.now made steps.old steps.new }
    {
        self.replaced_within(alloc, start, end, text, TEXT_LIMIT, steps)
    }

    /// The same where `TooLong` is the refusal of more bytes than `limit`, which is at most 67,108,864. Within a batch
    /// of replacements a text may be longer than the one after all of it. `BadRange` comes first, as in `replace`.
    pub fn replaced_within(
        &self,
        alloc: Global,
        start: u32,
        end: u32,
        text: &str,
        limit: usize,
        steps: &mut Steps,
    ) -> Result<(Rope, Patch), Fault>
        requires { limit ≤ LAID_LIMIT }
        ensures cases { let put = clean text.now in
            MatchResult result (λ made. IsReplacedWithin limit self.now start end put made.0 made.1)
            (IsFaultWithin limit self.now start end put) }
        ensures counted { steps.old ≤ steps.new }
        ensures steps { let put = clean text.now in
            let made = replaced_text self.now start end put in
            ChangesText (replacing (length put)) self.now made steps.old steps.new }
    {
        let (new, patch) = renewed(alloc, &self.chunks, start, end, text, limit, steps)?;
        let mut chunks = self.chunks.share()?;
        chunks.replace(alloc, new.from, new.to, new.chunks, steps)?;
        Ok((Rope { chunks }, patch))
    }

    /// Whether the offset is a boundary: not past the text's end, and not inside a character.
    pub fn is_boundary(&self, offset: u32, steps: &mut Steps) -> bool
        ensures test { IsTrue result ↔ IsBoundary self.now offset }
        ensures counted { steps.old ≤ steps.new }
        ensures steps { TakesOnText way self.now steps.old steps.new }
    {
        is_boundary(&self.chunks, offset, steps)
    }

    /// Whether the range is one of boundaries, of which the first isn't past the second.
    pub fn is_range(&self, start: u32, end: u32, steps: &mut Steps) -> bool
        ensures test { IsTrue result ↔ IsRange self.now start end }
        ensures counted { steps.old ≤ steps.new }
        ensures steps { TakesOnText (ways 2) self.now steps.old steps.new }
    {
        is_range(&self.chunks, start, end, steps)
    }

    /// The first offset of a row.
    pub(crate) fn row_start(&self, row: u32, steps: &mut Steps) -> u32
        requires { row < line_count self.now }
        ensures start { result ≡ line_start self.now row }
        ensures counted { steps.old ≤ steps.new }
        ensures steps { TakesOnText way self.now steps.old steps.new }
    {
        start_of_row(&self.chunks, row, steps)
    }

    /// The first offset of a row and its end.
    pub(crate) fn row_range(&self, row: u32, steps: &mut Steps) -> (u32, u32)
        // There is such a row.
        requires { row < line_count self.now }

        // Its first offset and its end, which are boundaries in order.
        ensures range { result ≡ (line_start self.now row, line_end self.now row) }
        ensures start { IsBoundary self.now result.0 }
        ensures end { IsBoundary self.now result.1 }
        ensures order { result.0 ≤ result.1 }

        // The work, at most two ways down the tree.
        ensures counted { steps.old ≤ steps.new }
        ensures steps { TakesOnText (ways 2) self.now steps.old steps.new }
    {
        range_of_row(&self.chunks, row, steps)
    }

    /// The row of an offset, counted from 0. The offset is at most the text's length in bytes.
    pub fn row_of(&self, offset: u32, steps: &mut Steps) -> u32
        requires { offset ≤ length self.now }
        ensures row { result ≡ row_of self.now offset }
        ensures counted { steps.old ≤ steps.new }
        ensures steps { TakesOnText way self.now steps.old steps.new }
    {
        row_at(&self.chunks, offset, steps)
    }

    /// The row of an offset, counted from 0, and its column of bytes in that row. The offset is at most the text's
    /// length in bytes.
    pub fn point_of(&self, offset: u32, steps: &mut Steps) -> Point
        requires { offset ≤ length self.now }
        ensures point { result ≡ point_of self.now offset }
        ensures counted { steps.old ≤ steps.new }
        ensures steps { TakesOnText (ways 2) self.now steps.old steps.new }
    {
        point_at(&self.chunks, offset, steps)
    }

    /// The offset of a point (*Points*): past the last row the text's end, and past a row's end that end. Inside a
    /// character it is its start (Left) or its end (Right).
    pub fn offset_of(&self, point: Point, bias: Bias, steps: &mut Steps) -> u32
        ensures offset { result ≡ offset_at self.now point bias }
        ensures boundary { IsBoundary self.now result }
        ensures counted { steps.old ≤ steps.new }
        ensures steps { TakesOnText (ways 3) self.now steps.old steps.new }
    {
        let sum = self.chunks.sum();
        if point.row > sum.feeds {
            return sum.bytes;
        }
        let (start, end) = range_of_row(&self.chunks, point.row, steps);
        if point.column > end - start {
            return end;
        }
        near_boundary(&self.chunks, start + point.column, bias, steps)
    }

    /// The text of a row, counted from 0, without its line feed.
    pub fn line_text(&self, alloc: Global, row: u32, steps: &mut Steps) -> Result<Text, NoMemory>
        requires { row < line_count self.now }
        ensures text { IfOk result (λ t. slice_get (buffer_lines self.now) row ≡ Some t) }
        ensures counted { steps.old ≤ steps.new }
        ensures steps { let bytes = line_end self.now row - line_start self.now row in
            TakesOnText (reading_row bytes) self.now steps.old steps.new }
    {
        let (start, end) = range_of_row(&self.chunks, row, steps);
        self.slice(alloc, start, end, steps)
    }

    /// The text from one boundary to another, in bytes. The second isn't before the first.
    pub fn slice(
        &self,
        alloc: Global,
        start: u32,
        end: u32,
        steps: &mut Steps,
    ) -> Result<Text, NoMemory>
        requires start { IsBoundary self.now start }
        requires end { IsBoundary self.now end }
        requires order { start ≤ end }

        // The text, and the work.
        ensures text { IfOk result (λ t. t ≡ take (end - start) (drop start self.now)) }
        ensures counted { steps.old ≤ steps.new }
        ensures steps { TakesOnText (slicing (end - start)) self.now steps.old steps.new }
    {
        let found = found_at(&self.chunks, start, steps);
        let from = (start - found.before.bytes) as usize;
        let to = (end - found.before.bytes) as usize;
        if to <= found.text.len() {
            return Text::from_str(alloc, &found.text[from..to]);
        }
        let text = gather(alloc, &self.chunks, found, to, steps)?;
        Text::from_str(alloc, &text.as_str()[from..to])
    }
}
