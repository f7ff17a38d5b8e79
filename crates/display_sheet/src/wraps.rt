//! How the display lines of a sheet are wrapped, in chunks that copies share.
ghost use Rattle.std.specs.Prelude.{◌≡◌, ◌+◌, ◌-◌, ◌<◌, ◌≤◌, ◌^◌, All, length, replicate, slice_index_or, slice_set, IfOk, OnOk, OnErr};
ghost use Rattle.display_sheet.specs.Chunks.{AreChunks, joined};
ghost use Rattle.display_sheet.specs.LineSplices.{spliced};
ghost use Rattle.display_sheet.specs.Wraps.{fresh, rows_of_lines};

use crate::sheet::LineSplice;
use cell_units::NoMemory;
use std::alloc::Global;
use std::marker::Model;
use std::sync::Arc;

/// How many lines a chunk has. The last one may have fewer.
pub const CHUNK: usize = 2048;

/// How a line that was touched is wrapped.
const FRESH: Wrapped = Wrapped { mark: 0, rows: 1 };

/// How a display line is wrapped.
#[derive(Clone, Copy, Debug)]
pub struct Wrapped {
    /// The width in cells at which it is wrapped, or 0.
    pub mark: u32,
    /// How many rows it has.
    pub rows: u32,
}

impl Wrapped {
    /// How many rows it has. Contracts know of a result that it is a u32, and of a field in a list they don't.
    fn row_count(self) -> u32
        ensures { result ≡ self.rows }
    {
        self.rows
    }
}

/// How some lines that follow each other are wrapped, shared with copies.
#[derive(Drop)]
pub(crate) struct Chunk {
    lines: Arc<Vec<Wrapped>>,
}

impl Model for Chunk {
    ghost use Rattle.std.specs.Prelude.{List};
    ghost use Rattle.std.specs.Arc.{arc_value};
    ghost use Rattle.display_sheet.specs.declared.wraps.Wrapped.{Wrapped};

    ghost Value = { List Wrapped };

    ghost view = { λ c. (arc_value c.lines).items };
}

impl Chunk {
    /// A chunk of these lines.
    fn new(alloc: Global, lines: &[Wrapped]) -> Result<Chunk, NoMemory>
        ensures { IfOk result (λ chunk. chunk ≡ lines.now) }
    {
        let lines = Vec::from_slice(alloc, lines)?;
        Ok(Chunk {
            lines: Arc::new(alloc, lines)?,
        })
    }

    /// The same chunk once more.
    fn share(&self) -> Result<Chunk, NoMemory>
        ensures { IfOk result (λ chunk. chunk ≡ self.now) }
    {
        Ok(Chunk {
            lines: Arc::try_clone(&self.lines)?,
        })
    }

    fn as_slice(&self) -> &[Wrapped]
        ensures { result.now ≡ self.now }
    {
        self.lines.as_slice()
    }

    /// How the line at a place is wrapped.
    fn get(&self, at: usize) -> Wrapped
        requires { at < length self.now }
        ensures { result ≡ slice_index_or self.now at result }
    {
        self.lines[at]
    }

    /// The line at a place is wrapped so, in place where the chunk isn't shared and in a copy elsewhere.
    fn set(&mut self, alloc: Global, at: usize, wrapped: Wrapped) -> Result<(), NoMemory>
        requires { at < length self.old }
        ensures set { OnOk result (self.new ≡ slice_set self.old at wrapped) }
        ensures unchanged { OnErr result (self.new ≡ self.old) }
    {
        match Arc::get_mut(&mut self.lines) {
            Some(own) => own[at] = wrapped,
            None => {
                let mut copy = Vec::from_slice(alloc, self.lines.as_slice())?;
                copy[at] = wrapped;
                self.lines = Arc::new(alloc, copy)?;
            }
        }
        Ok(())
    }
}

/// How each display line is wrapped. It is seen as a list with one entry for each line.
pub struct Wraps {
    chunks: Vec<Chunk>,
    len: u32,
    /// How many rows the lines have together.
    rows: u64,
}

impl Drop for Wraps {
    fn drop(self) {
        let Wraps {
            chunks: _,
            len: _,
            rows: _,
        } = self;
    }
}

impl Model for Wraps {
    ghost use Rattle.std.specs.Prelude.{List};
    ghost use Rattle.display_sheet.specs.declared.wraps.Wrapped.{Wrapped};

    ghost Value = { List Wrapped };

    ghost use Rattle.display_sheet.specs.Chunks.{joined};
    ghost use Rattle.display_sheet.specs.Wraps.{KeepsWraps};

    ghost view = { λ w. joined w.chunks.items };

    ghost invariant = { KeepsWraps };
}

/// Lines in chunks.
fn chunked(alloc: Global, lines: &[Wrapped]) -> Result<Vec<Chunk>, NoMemory>
    ensures joined { IfOk result (λ chunks. joined chunks.items ≡ lines.now) }
    ensures full { IfOk result (λ chunks. AreChunks CHUNK chunks.items) }
{
    let mut chunks = Vec::new(alloc);
    let mut start = 0;
    while start < lines.len() {
        let end = lines.len().min(start + CHUNK);
        chunks.push(Chunk::new(alloc, &lines[start..end])?)?;
        start = end;
    }
    Ok(chunks)
}

/// How many rows lines have that are wrapped so.
fn rows_of_lines(lines: &[Wrapped]) -> u64
    requires { length lines.now < 2 ^ 32 }
    ensures rows { result ≡ rows_of_lines lines.now }
    ensures small { All (λ l. l.rows < 2 ^ 32) lines.now }
{
    let mut rows = 0;
    for line in lines {
        rows += u64::from(line.row_count());
    }
    rows
}

/// A list of lines after a splice.
fn after_splice(
    alloc: Global,
    lines: &[Wrapped],
    splice: LineSplice,
) -> Result<Vec<Wrapped>, NoMemory>
    requires order { splice.first ≤ splice.end }
    requires within { splice.end ≤ length lines.now }
    ensures { IfOk result (λ list.
        list.items ≡ spliced splice.first splice.end splice.count fresh lines.now) }
{
    let mut list = Vec::with_capacity(alloc, lines.len())?;
    list.extend_from_slice(&lines[..splice.first as usize])?;
    for _ in 0..splice.count {
        list.push(FRESH)?;
    }
    list.extend_from_slice(&lines[splice.end as usize..])?;
    Ok(list)
}

impl Wraps {
    /// Lines that are wrapped so.
    fn from_slice(alloc: Global, lines: &[Wrapped]) -> Result<Wraps, NoMemory>
        requires { length lines.now < 2 ^ 32 }
        ensures { IfOk result (λ wraps. wraps ≡ lines.now) }
    {
        Ok(Wraps {
            chunks: chunked(alloc, lines)?,
            len: lines.len() as u32,
            rows: rows_of_lines(lines),
        })
    }

    /// Lines that were just opened.
    pub(crate) fn fresh(alloc: Global, count: u32) -> Result<Wraps, NoMemory>
        ensures { IfOk result (λ wraps. wraps ≡ replicate count fresh) }
    {
        let mut lines = Vec::with_capacity(alloc, count as usize)?;
        for _ in 0..count {
            lines.push(FRESH)?;
        }
        Wraps::from_slice(alloc, lines.as_slice())
    }

    /// How many lines there are.
    pub fn len(&self) -> u32
        ensures { result ≡ length self.now }
    {
        self.len
    }

    /// How many rows the lines have together.
    pub fn rows(&self) -> u64
        ensures { result ≡ rows_of_lines self.now }
    {
        self.rows
    }

    /// How a line is wrapped.
    pub fn get(&self, line: u32) -> Wrapped
        requires { line < length self.now }
        ensures { result ≡ slice_index_or self.now line result }
    {
        let line = line as usize;
        self.chunks[line / CHUNK].get(line % CHUNK)
    }

    /// A line is wrapped so. What copies share isn't changed.
    pub(crate) fn set(&mut self, alloc: Global, line: u32, wrapped: Wrapped) -> Result<(), NoMemory>
        requires { line < length self.old }
        ensures set { OnOk result (self.new ≡ slice_set self.old line wrapped) }
        ensures unchanged { OnErr result (self.new ≡ self.old) }
    {
        let before = self.get(line).row_count();
        let at = line as usize;
        self.chunks[at / CHUNK].set(alloc, at % CHUNK, wrapped)?;
        self.rows = self.rows - u64::from(before) + u64::from(wrapped.row_count());
        Ok(())
    }

    /// The same lines once more. Each chunk is shared.
    pub(crate) fn copy(&self, alloc: Global) -> Result<Wraps, NoMemory>
        ensures { IfOk result (λ wraps. wraps ≡ self.now) }
    {
        let mut chunks = Vec::with_capacity(alloc, self.chunks.len())?;
        for chunk in &self.chunks {
            chunks.push(chunk.share()?)?;
        }
        Ok(Wraps {
            chunks,
            len: self.len,
            rows: self.rows,
        })
    }

    /// The lines as one list.
    fn flat(&self, alloc: Global) -> Result<Vec<Wrapped>, NoMemory>
        ensures { IfOk result (λ list. list.items ≡ self.now) }
    {
        let mut list = Vec::with_capacity(alloc, self.len as usize)?;
        for chunk in &self.chunks {
            list.extend_from_slice(chunk.as_slice())?;
        }
        Ok(list)
    }

    /// The lines after a splice, of which the new ones are unwrapped.
    pub(crate) fn spliced(&self, alloc: Global, splice: LineSplice) -> Result<Wraps, NoMemory>
        requires order { splice.first ≤ splice.end }
        requires within { splice.end ≤ length self.now }
        requires few { splice.first + splice.count + (length self.now - splice.end) < 2 ^ 32 }
        ensures { IfOk result (λ wraps.
            wraps ≡ spliced splice.first splice.end splice.count fresh self.now) }
    {
        let lines = self.flat(alloc)?;
        let list = after_splice(alloc, lines.as_slice(), splice)?;
        Wraps::from_slice(alloc, list.as_slice())
    }
}
