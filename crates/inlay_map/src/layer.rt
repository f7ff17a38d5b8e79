//! The snapshot as a layer: the text with the inlays, and no folds.
use crate::snapshot::InlaySnapshot;
use cell_units::{Bias, Layer, NoMemory, Piece, Point, Steps};
use std::alloc::Global;

impl Layer for InlaySnapshot {
    ghost source = { λ s. s };

    fn share(&self) -> Result<InlaySnapshot, NoMemory> {
        InlaySnapshot::share(self)
    }

    fn buffer_len(&self) -> u32 {
        self.text_len()
    }

    fn on_boundary(&self, offset: u32) -> bool {
        self.inlaid.is_boundary(offset, &mut Steps::new())
    }

    fn length(&self) -> u32 {
        InlaySnapshot::length(self)
    }

    fn lines(&self) -> u32 {
        InlaySnapshot::lines(self)
    }

    fn place(&self, offset: u32, bias: Bias) -> u32 {
        self.place(offset, bias, &mut Steps::new())
    }

    fn point(&self, place: u32) -> Point {
        let mut steps = Steps::new();
        if let Some(point) = self.point_in_text(place, &mut steps) {
            return point;
        }
        let row = self.row_at(place, &mut steps);
        let start = self.row_start(row, &mut steps);
        Point {
            row,
            column: place - start,
        }
    }

    fn back(&self, place: u32, _bias: Bias) -> Option<u32> {
        // For the proof: there are no folds.
        let _len = self.text_len();
        let mut steps = Steps::new();
        let offset = self.offset_at(place, &mut steps);
        if !self.inlaid.is_boundary(offset, &mut steps) {
            return None;
        }
        let left = self.place(offset, Bias::Left, &mut steps);
        if left == place {
            return Some(offset);
        }
        let right = self.place(offset, Bias::Right, &mut steps);
        if right == place {
            return Some(offset);
        }
        None
    }

    fn line_start(&self, line: u32) -> u32 {
        self.row_start(line, &mut Steps::new())
    }

    fn pieces(&self, alloc: Global, line: u32) -> Result<Vec<Piece>, NoMemory> {
        self.line_pieces(alloc, line, &mut Steps::new())
    }

    fn span(&self, line: u32) -> (u32, u32) {
        // For the proof: the inlays are in order within the text, and there are no folds.
        let _len = self.text_len();
        let mut steps = Steps::new();
        let start = self.row_start(line, &mut steps);
        let offset = self.offset_at(start, &mut steps);
        let row = self.inlaid.row(offset, &mut steps);
        (row, row)
    }

    fn row_range(&self, row: u32) -> (u32, u32) {
        self.inlaid.row_range(row)
    }

    fn row_ends(&self, offset: u32) -> (u32, u32) {
        self.inlaid.row_ends(offset)
    }
}
