//! The rope as a layer: a text without inlays and folds, whose lines are its own and whose boundaries are at their
//! offsets.

use crate::rope::Rope;
use cell_units::{Bias, Layer, NoMemory, Piece, PieceKind, Point, Steps};
use std::alloc::Global;

impl Layer for Rope {
    ghost use Rattle.cell_units.specs.Layers.{plain_source};

    ghost source = { plain_source };

    fn share(&self) -> Result<Rope, NoMemory> {
        Rope::share(self)
    }

    fn buffer_len(&self) -> u32 {
        self.len()
    }

    fn on_boundary(&self, offset: u32) -> bool {
        self.is_boundary(offset, &mut Steps::new())
    }

    fn length(&self) -> u32 {
        self.len()
    }

    fn lines(&self) -> u32 {
        self.line_count()
    }

    fn place(&self, offset: u32, _bias: Bias) -> u32 {
        offset
    }

    fn point(&self, place: u32) -> Point {
        self.point_of(place, &mut Steps::new())
    }

    fn back(&self, place: u32, _bias: Bias) -> Option<u32> {
        if self.on_boundary(place) {
            Some(place)
        } else {
            None
        }
    }

    fn line_start(&self, line: u32) -> u32 {
        self.row_start(line, &mut Steps::new())
    }

    fn pieces(&self, alloc: Global, line: u32) -> Result<Vec<Piece>, NoMemory> {
        let mut steps = Steps::new();
        let (start, end) = self.row_range(line, &mut steps);
        if start == end {
            return Ok(Vec::new(alloc));
        }
        let text = self.slice(alloc, start, end, &mut steps)?;
        let piece = Piece {
            kind: PieceKind::Buffer,
            text,
            start,
            end,
        };
        Ok(Vec::from_array(alloc, [piece])?)
    }

    fn span(&self, line: u32) -> (u32, u32) {
        (line, line)
    }

    fn row_range(&self, row: u32) -> (u32, u32) {
        self.row_range(row, &mut Steps::new())
    }

    fn row_ends(&self, offset: u32) -> (u32, u32) {
        let mut steps = Steps::new();
        let row = self.point_of(offset, &mut steps).row;
        self.row_range(row, &mut steps)
    }
}
