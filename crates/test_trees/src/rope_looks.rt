//! What ropes are asked, and the answers that are expected.
use cell_units::{Bias, Fault, NoMemory, Point, Steps};
use edit_patch::Edit;
use std::alloc::Global;
use text_rope::Rope;

/// A question to a rope, with its answer last.
#[derive(Clone, Copy)]
pub(crate) enum Look {
    /// The number of bytes.
    Length(u32),
    /// The number of lines.
    Lines(u32),
    /// The whole text.
    Whole(&'static str),
    /// The text from one boundary to another.
    Range(u32, u32, &'static str),
    /// The text of a row.
    Row(u32, &'static str),
    /// The row and the column of a boundary.
    Boundary(u32, u32, u32),
    /// An offset that is no boundary.
    Inside(u32),
    /// The offset of a row and a column.
    Offset(u32, u32, Bias, u32),
}

/// The number of the first look that has another answer.
pub(crate) fn first_wrong(
    alloc: Global,
    rope: &Rope,
    looks: &[Look],
    steps: &mut Steps,
) -> Result<Option<usize>, NoMemory> {
    for (at, look) in looks.iter().enumerate() {
        if !is_right(alloc, rope, *look, steps)? {
            return Ok(Some(at));
        }
    }
    Ok(None)
}

/// Whether this is the answer.
fn is_right(alloc: Global, rope: &Rope, look: Look, steps: &mut Steps) -> Result<bool, NoMemory> {
    match look {
        Look::Length(bytes) => Ok(rope.len() == bytes),
        Look::Lines(lines) => Ok(rope.line_count() == lines),
        Look::Whole(text) => shows(alloc, rope, 0, rope.len(), text, steps),
        Look::Range(start, end, text) => shows(alloc, rope, start, end, text, steps),
        Look::Row(row, text) => row_shows(alloc, rope, row, text, steps),
        Look::Boundary(offset, row, column) => Ok(is_at(
            rope,
            offset,
            Point { row, column },
            steps,
        )),
        Look::Inside(offset) => Ok(!rope.is_boundary(offset, steps)),
        Look::Offset(row, column, bias, offset) => {
            Ok(rope.offset_of(Point { row, column }, bias, steps) == offset)
        }
    }
}

/// Whether the range is one and has this text.
pub(crate) fn shows(
    alloc: Global,
    rope: &Rope,
    start: u32,
    end: u32,
    text: &str,
    steps: &mut Steps,
) -> Result<bool, NoMemory> {
    if start <= end && rope.is_boundary(start, steps) && rope.is_boundary(end, steps) {
        let found = rope.slice(alloc, start, end, steps)?;
        return Ok(found.as_str() == text);
    }
    Ok(false)
}

/// Whether the row is there and has this text.
fn row_shows(
    alloc: Global,
    rope: &Rope,
    row: u32,
    text: &str,
    steps: &mut Steps,
) -> Result<bool, NoMemory> {
    if row < rope.line_count() {
        let found = rope.line_text(alloc, row, steps)?;
        return Ok(found.as_str() == text);
    }
    Ok(false)
}

/// Whether the offset is a boundary and has this point.
fn is_at(rope: &Rope, offset: u32, point: Point, steps: &mut Steps) -> bool {
    rope.is_boundary(offset, steps) && rope.point_of(offset, steps) == point
}

/// A range to replace, and what is put there.
#[derive(Clone, Copy)]
pub(crate) struct Put<'a> {
    pub(crate) start: u32,
    pub(crate) end: u32,
    pub(crate) text: &'a str,
}

/// Replaces, and returns whether the patch of it is just these edits.
pub(crate) fn is_told_by(
    alloc: Global,
    rope: &mut Rope,
    put: Put<'_>,
    edits: &[Edit],
    steps: &mut Steps,
) -> Result<bool, Fault> {
    let patch = rope.replace(alloc, put.start, put.end, put.text, steps)?;
    Ok(patch.edits() == edits)
}

/// Why a replacement is refused, if it is.
pub(crate) fn refusal(
    alloc: Global,
    rope: &mut Rope,
    put: Put<'_>,
    steps: &mut Steps,
) -> Option<Fault> {
    let replaced = rope.replace(alloc, put.start, put.end, put.text, steps);
    replaced.err()
}
