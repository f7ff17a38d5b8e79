//! Layers: a buffer as display lines show it.
ghost use Rattle.std.specs.Prelude.{◌≡◌, ◌<◌, ◌≤◌, ◌↔◌, IsTrue, Some, length, slice_get, IfOk};
ghost use Rattle.cell_units.specs.BufferLines.{line_end, line_start};
ghost use Rattle.cell_units.specs.Record.{line_count};
ghost use Rattle.cell_units.specs.Text.{IsBoundary, row_end, row_start};
ghost use Rattle.cell_units.specs.Lawful.{IsWellFormed};
ghost use Rattle.cell_units.specs.Layers.{IsBack, Source, place_of, point_of, shown_lines, shown_text, span_of};

use crate::fault::NoMemory;
use crate::piece::Piece;
use crate::place::{Bias, Point};
use std::alloc::Global;

/// A buffer's text with inlays in it and folds over it, shown as display lines (*Layers*). Offsets count the buffer's
/// bytes. The layer's text is what is shown, and places count the bytes of that text.
pub trait Layer: Drop + Send + Sync {
    // What is shown. Layers are equal where it is the same.
    ghost source: { Self → Source };

    /// An equal layer, which no later change of this one or of what made it reaches. It allocates nothing, and fails
    /// with `NoMemory` only where the count of holders is full.
    fn share(&self) -> Result<Self, NoMemory>
        ensures { IfOk result (λ shared. source shared ≡ source self.now) };

    /// The number of bytes of the buffer.
    fn buffer_len(&self) -> u32
        ensures value { result ≡ length (source self.now).text }
        ensures well_formed { IsWellFormed (source self.now) };

    /// Whether the offset is a boundary of the buffer: at most its length, and not within a character.
    fn on_boundary(&self, offset: u32) -> bool
        ensures { IsTrue result ↔ IsBoundary (source self.now).text offset };

    /// The number of bytes of the layer's text, which is its greatest place.
    fn length(&self) -> u32
        ensures { result ≡ length (shown_text (source self.now)) };

    /// The number of display lines.
    fn lines(&self) -> u32
        ensures { result ≡ length (shown_lines (source self.now)) };

    /// The place in bytes of a boundary, which is an offset in bytes: of its two places the left or the right one.
    fn place(&self, offset: u32, bias: Bias) -> u32
        requires { IsBoundary (source self.now).text offset }
        ensures { result ≡ place_of (source self.now) offset bias };

    /// The display line of a place, counted from 0, and its column there in bytes.
    fn point(&self, place: u32) -> Point
        requires { place ≤ length (shown_text (source self.now)) }
        ensures { result ≡ point_of (shown_text (source self.now)) place };

    /// The least offset in bytes (Left) or the greatest (Right) that has this place and isn't strictly inside a joined
    /// fold. `None` exactly where there is none.
    fn back(&self, place: u32, bias: Bias) -> Option<u32>
        ensures { IsBack (source self.now) place bias result };

    /// The place in bytes at which a display line begins, which is counted from 0.
    fn line_start(&self, line: u32) -> u32
        requires { line < length (shown_lines (source self.now)) }
        ensures { result ≡ line_start (shown_text (source self.now)) line };

    /// The pieces of a display line, which is counted from 0.
    fn pieces(&self, alloc: Global, line: u32) -> Result<Vec<Piece>, NoMemory>
        requires { line < length (shown_lines (source self.now)) }
        ensures { IfOk result (λ pieces. slice_get (shown_lines (source self.now)) line ≡ Some pieces.items) };

    /// The first and the last buffer row of a display line. Lines and rows are counted from 0.
    fn span(&self, line: u32) -> (u32, u32)
        requires { line < length (shown_lines (source self.now)) }
        ensures { result ≡ span_of (source self.now) line };

    /// The first offset of a buffer row, and the row's end: before its LF, or the text's end.
    fn row_range(&self, row: u32) -> (u32, u32)
        requires { row < line_count (source self.now).text }
        ensures { result ≡ (line_start (source self.now).text row, line_end (source self.now).text row) };

    /// The same of the buffer row that holds a boundary.
    fn row_ends(&self, offset: u32) -> (u32, u32)
        requires { IsBoundary (source self.now).text offset }
        ensures { result ≡ (row_start (source self.now).text offset, row_end (source self.now).text offset) };
}
