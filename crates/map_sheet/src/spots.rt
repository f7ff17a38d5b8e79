//! What offsets and spots are looked up in.
use crate::sheet::{Layered, MapSheet};
use blocked_rows::blocked_laws;
use cell_line::Lines;
use cell_units::{Bias, Layer, NoMemory, Steps, folding_laws, layer_laws, text_laws};
use plain_rows::{Joined, RowLine, SpotRows};
use std::alloc::Global;

/// The place at which a display line begins, in bytes of what is shown, and after the last line the end.
fn start_of(layer: &Layered, line: u32) -> u32 {
    if line < layer.lines() {
        layer.line_start(line)
    } else {
        layer.length()
    }
}

impl SpotRows for MapSheet {
    ghost kept = { λ s. s };

    fn text_len(&self) -> u32 {
        // For the proof: the record is lawful.
        self.lawful();
        self.text().rope().len()
    }

    fn is_boundary(&self, offset: u32, steps: &mut Steps) -> bool {
        // For the proof: the record is lawful, and characters of a text begin at its boundaries.
        self.lawful();
        text_laws();
        self.text().rope().is_boundary(offset, steps)
    }

    fn place(&self, offset: u32, bias: Bias, _steps: &mut Steps) -> (u32, u32) {
        // For the proof: the record is lawful, and places in a layer do not fall.
        self.lawful();
        layer_laws();
        let layer = self.text().layer();
        let place = layer.place(offset, bias);
        let point = layer.point(place);
        (point.row, point.column)
    }

    /// Inside a fold the last offset at the left place and the first at the right place are the fold's ends. At any other offset
    /// the first of these isn't before it, or the second isn't after it.
    fn fold_around(&self, offset: u32, _steps: &mut Steps) -> Option<Joined> {
        // For the proof: the record is lawful, places in a layer do not fall, and folds keep the places between
        // them.
        self.lawful();
        layer_laws();
        folding_laws();
        let layer = self.text().layer();
        let left = layer.place(offset, Bias::Left);
        let right = layer.place(offset, Bias::Right);
        let Some(start) = layer.back(left, Bias::Right) else {
            return None;
        };
        let Some(end) = layer.back(right, Bias::Left) else {
            return None;
        };
        if start < offset && offset < end {
            Some(Joined { start, end })
        } else {
            None
        }
    }

    fn row_line(&self, alloc: Global, line: u32, steps: &mut Steps) -> Result<RowLine, NoMemory> {
        // For the proof: the record is lawful.
        self.lawful();
        let elements = self.wrapped().lines().elements(alloc, line)?;
        let width = self.wrapped().rows().mark(line, steps);
        RowLine::new(alloc, elements, width)
    }

    fn near(&self, line: u32, byte: u32, _steps: &mut Steps) -> (u32, u32) {
        let layer = self.text().layer();
        let start = start_of(layer, line);
        let place = start.saturating_add(byte);
        let least = layer.back(place, Bias::Left);
        let greatest = layer.back(place, Bias::Right);
        if let (Some(from), Some(to)) = (least, greatest) {
            return (from, to);
        }
        // Within an inlay or a placeholder: all offsets of the line.
        let next = start_of(layer, line.saturating_add(1));
        let from = layer.back(start, Bias::Left);
        let to = layer.back(next, Bias::Right);
        (from.unwrap_or(0), to.unwrap_or(layer.buffer_len()))
    }

    fn first_row(&self, line: u32, steps: &mut Steps) -> u32 {
        // For the proof: the record is lawful, and the blocks at their lines show the rows of the record.
        self.lawful();
        blocked_laws();
        self.shown().row_of(line, 0, steps)
    }

    fn line_of_row(&self, row: u32, steps: &mut Steps) -> u32 {
        // For the proof: the record is lawful, and the blocks at their lines show the rows of the record.
        self.lawful();
        blocked_laws();
        let shown = self.shown();
        let last = shown.row_count().saturating_sub(1);
        shown.line_of_row(row.min(last), steps)
    }
}
