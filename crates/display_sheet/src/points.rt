//! Offsets of a text by row and column.
ghost use Rattle.std.specs.Prelude.{◌≡◌, ◌≤◌, length};
ghost use Rattle.cell_units.specs.Points.{IsNearBoundary, offset_at};

use crate::buffer::Buffer;
use crate::sheet::Sheet;
use cell_units::{Bias, Point};

/// The nearest boundary up to an offset, or from it on.
fn near_boundary(text: &str, offset: usize, bias: Bias) -> usize
    requires { offset ≤ length text.now }
    ensures { IsNearBoundary text.now offset bias result }
{
    match bias {
        Bias::Left => text.floor_char_boundary(offset),
        Bias::Right => text.ceil_char_boundary(offset),
    }
}

/// The offset at a point (*Points*): past the last row the text's end, and past a row's end that end. Inside a
/// character it is its start or its end.
fn offset_at(text: &Buffer, point: Point, bias: Bias) -> u32
    ensures { result ≡ offset_at text.now point bias }
{
    let whole = text.as_str();
    if point.row >= text.lines() {
        return whole.len() as u32;
    }
    let start = text.line_start(point.row);
    let length = text.line(point.row as usize).len() as u32;
    if length < point.column {
        return start + length;
    }
    near_boundary(whole, (start + point.column) as usize, bias) as u32
}

impl Sheet {
    /// The offset in bytes of a point of the text (*Points*).
    pub fn offset_of(&self, point: Point, bias: Bias) -> u32
        ensures { result ≡ offset_at self.now.text point bias }
    {
        offset_at(&self.text, point, bias)
    }
}
