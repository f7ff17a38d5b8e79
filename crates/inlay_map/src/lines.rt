//! Display lines: where they start, and what is on them.
ghost use Rattle.std.specs.Prelude.{◌≡◌, ◌<◌, ◌≤◌, Some, count_by, length, slice_get, IfOk};
ghost use Rattle.cell_units.specs.BufferLines.{line_end, line_start};
ghost use Rattle.std.specs.Option.{ForSome};
ghost use Rattle.cell_units.specs.Layers.{point_of, shown_lines, shown_text};
ghost use Rattle.cell_units.specs.Text.{IsBoundary, is_feed};
ghost use Rattle.text_rope.specs.Finds.{IsBehindFeed};
ghost use Rattle.inlay_map.specs.Spots.{IsNextPiece, IsOffsetAt, IsRowAt};

use crate::amount::{ByBytes, ByFeeds, feeds_in};
use crate::snapshot::InlaySnapshot;
use cell_units::{Bias, NoMemory, Piece, PieceKind, Point, Steps, Text};
use std::alloc::Global;

impl InlaySnapshot {
    /// The number of bytes that are shown.
    pub(crate) fn length(&self) -> u32
        ensures { result ≡ length (shown_text self.now) }
    {
        let len = self.inlaid.len();
        let sum = self.splices.sum();
        sum.upper.bytes + (len - sum.lower.bytes)
    }

    /// The number of display lines.
    pub(crate) fn lines(&self) -> u32
        ensures { result ≡ length (shown_lines self.now) }
    {
        // For the proof: the text and its inlays are within their limits, so the number of lines is a u32.
        let _len = self.inlaid.len();
        let sum = self.splices.sum();
        self.inlaid.line_count() + (sum.upper.feeds - sum.lower.feeds)
    }

    /// The display line of a place.
    pub(crate) fn row_at(&self, place: u32, steps: &mut Steps) -> u32
        requires { place ≤ length (shown_text self.now) }
        ensures row { IsRowAt self.now place result }
        ensures counted { steps.old ≤ steps.new }
    {
        // For the proof: what is shown is within its limits, so each place and line is a u32.
        let _len = self.text_len();
        let spot = self.find::<ByBytes>(place, Bias::Left, steps);
        let rest = place - spot.before.upper.bytes;
        if rest <= spot.gap.bytes {
            let offset = spot.before.lower.bytes + rest;
            let row = self.inlaid.row(offset, steps);
            return spot.before.upper.feeds + (row - spot.before.lower.feeds);
        }
        let text = self.inlaid.shown(spot.index, steps);
        let front = &text.as_bytes()[..(rest - spot.gap.bytes) as usize];
        spot.before.upper.feeds + spot.gap.feeds + feeds_in(front)
    }

    /// The point of a place whose line begins in the text that it is in, after the inlay before it. `None` elsewhere.
    pub(crate) fn point_in_text(&self, place: u32, steps: &mut Steps) -> Option<Point>
        requires { place ≤ length (shown_text self.now) }
        ensures point { ForSome result (λ p. p ≡ point_of (shown_text self.now) place) }
        ensures counted { steps.old ≤ steps.new }
    {
        // For the proof: what is shown is within its limits, so each place and line is a u32.
        let _len = self.text_len();
        let spot = self.find::<ByBytes>(place, Bias::Left, steps);
        let rest = place - spot.before.upper.bytes;
        if rest > spot.gap.bytes {
            return None;
        }
        let point = self.inlaid.point(spot.before.lower.bytes + rest, steps);
        let rows = point.row - spot.before.lower.feeds;
        if rows == 0 {
            return None;
        }
        Some(Point {
            row: spot.before.upper.feeds + rows,
            column: point.column,
        })
    }

    /// The place at which a display line begins.
    pub(crate) fn row_start(&self, line: u32, steps: &mut Steps) -> u32
        requires { line < length (shown_lines self.now) }
        ensures start { result ≡ line_start (shown_text self.now) line }
        ensures counted { steps.old ≤ steps.new }
    {
        if line == 0 {
            return 0;
        }
        // For the proof: what is shown is within its limits, so each place and line is a u32.
        let _len = self.text_len();
        let spot = self.find::<ByFeeds>(line, Bias::Left, steps);
        let rest = line - spot.before.upper.feeds;
        if rest <= spot.gap.feeds {
            let start = self.inlaid.row_start(spot.before.lower.feeds + rest);
            return spot.before.upper.bytes + (start - spot.before.lower.bytes);
        }
        let text = self.inlaid.shown(spot.index, steps);
        let behind = behind_feed(text, rest - spot.gap.feeds) as u32;
        spot.before.upper.bytes + spot.gap.bytes + behind
    }

    /// The offset of what is at a place.
    pub(crate) fn offset_at(&self, place: u32, steps: &mut Steps) -> u32
        ensures offset { IsOffsetAt self.now place result }
        ensures counted { steps.old ≤ steps.new }
    {
        // For the proof: the inlays are within the text, so each offset is a u32.
        let _len = self.inlaid.len();
        self.splices.to_lower::<ByBytes>(place, Bias::Left, steps)
    }

    /// The pieces of a display line, each found by one seek.
    pub(crate) fn line_pieces(
        &self,
        alloc: Global,
        line: u32,
        steps: &mut Steps,
    ) -> Result<Vec<Piece>, NoMemory>
        requires { line < length (shown_lines self.now) }
        ensures pieces { IfOk result (λ pieces.
            slice_get (shown_lines self.now) line ≡ Some pieces.items) }
        ensures counted { steps.old ≤ steps.new }
    {
        // For the proof: what is shown is lawful, so a line lies between two boundaries of it.
        let _len = self.text_len();
        let mut place = self.row_start(line, steps);
        let end = self.row_end(line, steps);
        let mut pieces = Vec::new(alloc);
        while place < end {
            let piece = self.piece_at(alloc, place, end, steps)?;
            place += piece.text.as_str().len() as u32;
            pieces.push(piece)?;
        }
        Ok(pieces)
    }

    /// The place at which a display line ends: before its line feed, or the end of all.
    fn row_end(&self, line: u32, steps: &mut Steps) -> u32
        requires { line < length (shown_lines self.now) }
        ensures end { result ≡ line_end (shown_text self.now) line }
        ensures counted { steps.old ≤ steps.new }
    {
        // For the proof: the text and its inlays are within their limits, so each line has a next one that is a u32.
        let _len = self.inlaid.len();
        let lines = self.lines();
        if line + 1 < lines {
            self.row_start(line + 1, steps) - 1
        } else {
            self.length()
        }
    }

    /// The piece that goes on from a place, up to another one at most.
    fn piece_at(
        &self,
        alloc: Global,
        place: u32,
        end: u32,
        steps: &mut Steps,
    ) -> Result<Piece, NoMemory>
        // The places are boundaries of what is shown, the first before the second.
        requires order { place < end }
        requires start { IsBoundary (shown_text self.now) place }
        requires end { IsBoundary (shown_text self.now) end }

        // The piece has text, and ends at a boundary, from which the next piece goes on.
        ensures next { IfOk result (λ p. IsNextPiece self.now place end p) }

        // The work.
        ensures counted { steps.old ≤ steps.new }
    {
        // For the proof: what is shown is within its limits and UTF-8.
        let _len = self.text_len();
        let spot = self.find::<ByBytes>(place, Bias::Right, steps);
        let rest = place - spot.before.upper.bytes;
        let offset = spot.before.lower.bytes + spot.gap.bytes;
        if rest < spot.gap.bytes {
            let start = spot.before.lower.bytes + rest;
            let stop = offset.min(start + (end - place));
            return Ok(Piece {
                kind: PieceKind::Buffer,
                text: self.inlaid.slice(alloc, start, stop, steps)?,
                start,
                end: stop,
            });
        }
        let (id, text) = self.inlaid.shown_with_id(spot.index, steps);
        let from = (rest - spot.gap.bytes) as usize;
        let to = text.len().min(from + (end - place) as usize);
        Ok(Piece {
            kind: PieceKind::Inlay(id),
            text: Text::from_str(alloc, &text[from..to])?,
            start: offset,
            end: offset,
        })
    }
}

/// The place right after the line feed of a number, counted from 1.
fn behind_feed(text: &str, feeds: u32) -> usize
    requires some { 0 < feeds }
    requires within { feeds ≤ count_by is_feed text.now }
    ensures { IsBehindFeed text.now feeds result }
{
    let mut left = feeds;
    for (at, byte) in text.as_bytes().iter().enumerate() {
        if *byte == b'\n' {
            left -= 1;
            if left == 0 {
                return at + 1;
            }
        }
    }
    text.len()
}
