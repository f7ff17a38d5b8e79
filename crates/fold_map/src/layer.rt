//! The snapshot as a layer: what the lower layer shows, with its folds.
use crate::amount::ByBytes;
use crate::lines::{lines_shown, start_of};
use crate::pieces::{LineBelow, hidden_piece};
use crate::snapshot::FoldSnapshot;
use crate::spots::{bytes_shown, spot_at};
use cell_units::{Bias, Layer, NoMemory, Piece, Point, Steps};
use std::alloc::Global;

// Each call asks the lower layer itself. The trait asks more of a layer than a call of a function over any layer may
// use.
impl<L: Layer> Layer for FoldSnapshot<L> {
    ghost source = { λ s. s };

    fn share(&self) -> Result<FoldSnapshot<L>, NoMemory> {
        Ok(FoldSnapshot {
            layer: self.layer.share()?,
            folds: self.folds.share()?,
            splices: self.splices.share()?,
        })
    }

    fn buffer_len(&self) -> u32 {
        self.layer.buffer_len()
    }

    fn on_boundary(&self, offset: u32) -> bool {
        self.layer.on_boundary(offset)
    }

    fn length(&self) -> u32 {
        bytes_shown(&self.splices, self.layer.length())
    }

    fn lines(&self) -> u32 {
        lines_shown(&self.splices, self.layer.lines())
    }

    fn place(&self, offset: u32, bias: Bias) -> u32 {
        let below = self.layer.place(offset, bias);
        self.splices
            .to_upper::<ByBytes>(below, bias, &mut Steps::new())
    }

    fn point(&self, place: u32) -> Point {
        // For the proof: each place and each line of the lower layer is a u32.
        let _length = self.layer.length();
        let _lines = self.layer.lines();
        let spot = spot_at(&self.splices, place, &mut Steps::new());
        let below = self.layer.point(spot.below);
        let rows = below.row - spot.before.lower.feeds;
        let row = spot.before.upper.feeds + rows;
        if rows > 0 {
            // The line begins in the stretch in which the place lies.
            let first = spot.below - below.column;
            let begin = spot.before.upper.bytes + (first - spot.before.lower.bytes);
            return Point {
                row,
                column: place - begin,
            };
        }
        let start = start_of(&self.splices, row, &mut Steps::new());
        let begin = start.place(self.layer.line_start(start.below));
        Point {
            row,
            column: place - begin,
        }
    }

    fn back(&self, place: u32, bias: Bias) -> Option<u32> {
        let length = self.layer.length();
        if place > bytes_shown(&self.splices, length) {
            return None;
        }
        let spot = spot_at(&self.splices, place, &mut Steps::new());
        if spot.is_hidden {
            return None;
        }
        self.layer.back(spot.below, bias)
    }

    fn line_start(&self, line: u32) -> u32 {
        // For the proof: each line of the lower layer is a u32.
        let _lines = self.layer.lines();
        let start = start_of(&self.splices, line, &mut Steps::new());
        let begin = self.layer.line_start(start.below);
        start.place(begin)
    }

    fn pieces(&self, alloc: Global, line: u32) -> Result<Vec<Piece>, NoMemory> {
        // For the proof: each place and each line of the lower layer is a u32, and so is each offset.
        let _len = self.layer.buffer_len();
        let _lines = self.layer.lines();
        let length = self.layer.length();
        let mut steps = Steps::new();
        let start = start_of(&self.splices, line, &mut steps);
        let first = self.layer.pieces(alloc, start.below)?;
        let begin = self.layer.line_start(start.below);
        let mut below = LineBelow::of(start.below, begin, first);
        let mut place = begin;
        let mut pieces = Vec::new(alloc);
        let count = self.splices.len();
        for index in start.index..count {
            let found = self.splices.find_at(index, &mut steps);
            let splice = match found.splice {
                None => return below.copied_behind(alloc, place, length, pieces),
                Some(splice) => splice,
            };
            let gap = splice.gap();
            let old = splice.old();
            let here = found.before.lower.feeds + gap.feeds;
            if here != below.number {
                return below.copied_behind(alloc, place, length, pieces);
            }
            let hidden = found.before.lower.bytes + gap.bytes;
            below.copy(alloc, place, hidden, &mut pieces)?;
            let offset = found.before.lower.buffer + gap.buffer;
            let behind = offset + old.buffer;
            let placeholder = hidden_piece(alloc, offset, behind)?;
            pieces.push(placeholder)?;
            place = hidden + old.bytes;
            if old.feeds != 0 {
                let number = here + old.feeds;
                let next = self.layer.pieces(alloc, number)?;
                let from = self.layer.line_start(number);
                below = LineBelow::of(number, from, next);
            }
        }
        below.copied_behind(alloc, place, length, pieces)
    }

    fn span(&self, line: u32) -> (u32, u32) {
        let below = self.layer.lines();
        let lines = lines_shown(&self.splices, below);
        let first = start_of(&self.splices, line, &mut Steps::new()).below;
        let last = if line + 1 < lines {
            start_of(&self.splices, line + 1, &mut Steps::new()).below - 1
        } else {
            below - 1
        };
        let start = self.layer.span(first);
        let end = self.layer.span(last);
        (start.0, end.1)
    }

    fn row_range(&self, row: u32) -> (u32, u32) {
        self.layer.row_range(row)
    }

    fn row_ends(&self, offset: u32) -> (u32, u32) {
        self.layer.row_ends(offset)
    }
}
