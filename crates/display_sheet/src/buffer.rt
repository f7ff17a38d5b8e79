//! A text with the places where its lines start.
ghost use Rattle.std.specs.Prelude.{◌≡◌, ◌<◌, ◌≤◌, [], length, slice_index_or, IfOk, string_bytes};
ghost use Rattle.cell_units.specs.declared.limits.TheConstants.{LAID_LIMIT};
ghost use Rattle.cell_units.specs.Record.{line_count};
ghost use Rattle.cell_units.specs.Text.{is_boundary, row_end, row_of, row_start};
ghost use Rattle.cell_units.specs.BufferLines.{buffer_lines, line_end, line_start, line_starts};

use cell_units::NoMemory;
use std::alloc::Global;
use std::marker::Model;

/// A text of at most 67,108,864 bytes. It is seen as its bytes.
pub struct Buffer {
    text: String,
    starts: Vec<u32>,
}

impl Drop for Buffer {
    fn drop(self) {
        let Buffer { text: _, starts: _ } = self;
    }
}

impl Model for Buffer {
    ghost use Rattle.cell_units.specs.declared.limits.TheConstants.{LAID_LIMIT};
    ghost use Rattle.std.specs.Prelude.{ℕ, List, string_bytes};

    ghost Value = { List ℕ };

    ghost use Rattle.std.specs.Prelude.{◌≡◌, ◌≤◌, length};
    ghost use Rattle.cell_units.specs.BufferLines.{line_starts};

    ghost view = { λ b. string_bytes b.text };

    ghost invariant = { λ b. let bytes = string_bytes b.text in
        (b.starts.items ≡ line_starts bytes) × (length bytes ≤ LAID_LIMIT) };
}

/// The offsets at which the lines of a text start.
fn line_starts(alloc: Global, text: &[u8]) -> Result<Vec<u32>, NoMemory>
    requires { length text.now ≤ LAID_LIMIT }
    ensures { IfOk result (λ starts. starts.items ≡ line_starts text.now) }
{
    let mut starts = Vec::new(alloc);
    starts.push(0)?;
    for (i, byte) in text.iter().enumerate() {
        if *byte == b'\n' {
            starts.push(i as u32 + 1)?;
        }
    }
    Ok(starts)
}

/// Where a line ends, before its line feed.
fn line_end(text: &str, starts: &[u32], line: usize) -> usize
    requires starts { starts.now ≡ line_starts text.now }
    requires within { line < line_count text.now }
    ensures { result ≡ line_end text.now line }
{
    if line + 1 < starts.len() {
        starts[line + 1] as usize - 1
    } else {
        text.len()
    }
}

/// The line of this number without its line feed.
fn line_in<'a>(text: &'a str, starts: &[u32], line: usize) -> &'a str
    requires starts { starts.now ≡ line_starts text.now }
    requires within { line < line_count text.now }
    ensures line { result.now ≡ slice_index_or (buffer_lines text.now) line [] }
    ensures size { length result.now ≤ length text.now }
{
    let end = line_end(text, starts, line);
    &text[starts[line] as usize..end]
}

impl Buffer {
    /// The text, with the offsets at which its lines start.
    pub fn new(alloc: Global, text: String) -> Result<Buffer, NoMemory>
        requires { length (string_bytes text) ≤ LAID_LIMIT }
        ensures { IfOk result (λ buffer. buffer ≡ string_bytes text) }
    {
        let starts = line_starts(alloc, text.as_bytes())?;
        Ok(Buffer { text, starts })
    }

    /// How many lines the text has. The last may be empty.
    pub fn lines(&self) -> u32
        ensures count { result ≡ line_count self.now }
        ensures size { length self.now ≤ LAID_LIMIT }
    {
        self.starts.len() as u32
    }

    /// The line of this number, counted from 0, without its line feed.
    pub fn line(&self, line: usize) -> &str
        requires { line < line_count self.now }
        ensures line { result.now ≡ slice_index_or (buffer_lines self.now) line [] }
        ensures size { length result.now ≤ LAID_LIMIT }
    {
        line_in(self.text.as_str(), &self.starts, line)
    }

    /// The first offset, in bytes, of the line of this number, counted from 0.
    pub fn line_start(&self, line: u32) -> u32
        requires { line < line_count self.now }
        ensures { result ≡ line_start self.now line }
    {
        self.starts[line as usize]
    }

    /// The number of the line that holds an offset in bytes, counted from 0.
    pub fn row_of(&self, offset: u32) -> usize
        ensures row { result ≡ row_of self.now offset }
        ensures within { result < line_count self.now }
    {
        self.starts.partition_point(|start| *start <= offset) - 1
    }

    /// The first offset, in bytes, of the row that holds an offset.
    pub fn row_start(&self, offset: u32) -> u32
        requires { offset ≤ length self.now }
        ensures { result ≡ row_start self.now offset }
    {
        self.starts[self.row_of(offset)]
    }

    /// The end, in bytes, of the row that holds an offset: before its line feed, or the text's end.
    pub fn row_end(&self, offset: u32) -> u32
        requires { offset ≤ length self.now }
        ensures { result ≡ row_end self.now offset }
    {
        line_end(self.text.as_str(), &self.starts, self.row_of(offset)) as u32
    }

    /// Whether an offset is a boundary.
    pub fn is_boundary(&self, offset: u32) -> bool
        ensures { result ≡ is_boundary self.now offset }
    {
        self.text.as_str().is_char_boundary(offset as usize)
    }

    /// The whole text.
    pub fn as_str(&self) -> &str
        ensures text { result.now ≡ self.now }
        ensures size { length self.now ≤ LAID_LIMIT }
    {
        self.text.as_str()
    }
}
