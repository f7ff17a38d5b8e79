//! What has to be shown, by plain lists: each line by its bytes, with a stamp of its own and the width at which it is
//! wrapped.
use cell_units::NoMemory;
use std::alloc::Global;
use test_support::lists::count_of;
use wrap_map::MarkRun;

/// The most lines that are taken at a time.
const MOST: u32 = 128;

/// A byte of a line, and how many cells it takes.
#[derive(Clone, Copy)]
struct Cell {
    byte: u8,
    cells: u32,
}

impl Cell {
    fn is_blank(self) -> bool {
        self.byte == b' ' || self.byte == b'\t'
    }
}

/// The bytes of a line with their cells, at a tab size of 4.
fn cells_of(alloc: Global, bytes: &[u8]) -> Result<Vec<Cell>, NoMemory> {
    let mut all = Vec::new(alloc);
    let mut column: u32 = 0;
    for byte in bytes {
        let cells = if *byte == b'\t' { 4 - column % 4 } else { 1 };
        all.push(Cell { byte: *byte, cells })?;
        column = column.wrapping_add(cells);
    }
    Ok(all)
}

/// How many cells there are, and how many up to the last that isn't blank.
fn extent_of(row: &[Cell]) -> (u32, u32) {
    let mut all: u32 = 0;
    let mut shown: u32 = 0;
    for cell in row {
        all = all.wrapping_add(cell.cells);
        if !cell.is_blank() {
            shown = all;
        }
    }
    (all, shown)
}

/// How many blanks lead a line.
fn lead_of(line: &[Cell]) -> usize {
    let mut lead: usize = 0;
    for cell in line {
        if !cell.is_blank() {
            break;
        }
        lead = lead.wrapping_add(1);
    }
    lead
}

/// The cells under which the rows of a line go on.
fn indent_of(line: &[Cell], width: u32) -> u32 {
    let lead = lead_of(line);
    let (cells, _) = extent_of(line.get(..lead).unwrap_or(&[]));
    if lead < line.len() && cells.wrapping_mul(2) <= width {
        cells
    } else {
        0
    }
}

/// Whether a row of a line may end before this byte: after a blank and before none, but not in the indent.
fn may_end(line: &[Cell], end: usize) -> bool {
    if end >= line.len() {
        return true;
    }
    let before = line.get(end.wrapping_sub(1)).copied();
    let behind = line.get(end).copied();
    end > lead_of(line)
        && before.is_some_and(|cell| cell.is_blank())
        && behind.is_some_and(|cell| !cell.is_blank())
}

/// Where the row that begins at `start` ends, of which so many cells fit.
fn end_of(line: &[Cell], start: usize, room: u32) -> usize {
    let mut parted = None;
    let mut fits = None;
    for end in start.saturating_add(1)..line.len().saturating_add(1) {
        let (all, shown) = extent_of(line.get(start..end).unwrap_or(&[]));
        if may_end(line, end) && shown <= room {
            parted = Some(end);
        }
        if all <= room {
            fits = Some(end);
        }
    }
    parted.or(fits).unwrap_or(start.saturating_add(1))
}

/// The text of a row: so many blanks, and the bytes, of which a tab is shown by blanks.
fn text_of(alloc: Global, indent: u32, row: &[Cell]) -> Result<Vec<u8>, NoMemory> {
    let mut text = Vec::new(alloc);
    for _ in 0..indent {
        text.push(b' ')?;
    }
    for cell in row {
        if cell.byte == b'\t' {
            for _ in 0..cell.cells {
                text.push(b' ')?;
            }
        } else {
            text.push(cell.byte)?;
        }
    }
    Ok(text)
}

/// The texts of the rows of a line that is wrapped at a width.
fn rows_of(alloc: Global, bytes: &[u8], width: u32) -> Result<Vec<Vec<u8>>, NoMemory> {
    let line = cells_of(alloc, bytes)?;
    let indent = indent_of(&line, width);
    let mut rows = Vec::new(alloc);
    let mut start: usize = 0;
    for turn in 0..line.len().saturating_add(1) {
        let (lead, room) = if turn == 0 {
            (0, width)
        } else {
            (indent, width.saturating_sub(indent))
        };
        let end = if width == 0 {
            line.len()
        } else {
            end_of(&line, start, room)
        };
        let row = line.get(start..end).unwrap_or(&[]);
        rows.push(text_of(alloc, lead, row)?)?;
        start = end;
        if start >= line.len() {
            break;
        }
    }
    Ok(rows)
}

/// A line as it is wrapped. No two lines that were ever there have one stamp.
#[derive(Drop)]
pub(crate) struct PlainLine {
    stamp: u32,
    mark: u32,
    bytes: Vec<u8>,
    rows: Vec<Vec<u8>>,
}

impl PlainLine {
    /// The texts of its rows.
    pub(crate) fn rows(&self) -> &[Vec<u8>] {
        self.rows.as_slice()
    }

    /// The number of its rows.
    pub(crate) fn row_count(&self) -> u32 {
        count_of(self.rows.len())
    }

    /// The width at which it stands.
    pub(crate) fn mark(&self) -> u32 {
        self.mark
    }

    /// Whether it and one beside it are of one item.
    fn is_alike(&self, other: &PlainLine) -> bool {
        self.mark == other.mark && self.rows.len() == 1 && other.rows.len() == 1
    }
}

/// The numbers of the lines of a run, or what is left of it.
pub(crate) type PlainRun = Option<(u32, u32)>;

/// The lines of a text, and the width at which they are to be wrapped.
#[derive(Drop)]
pub(crate) struct PlainText {
    alloc: Global,
    width: u32,
    stamps: u32,
    lines: Vec<PlainLine>,
}

impl PlainText {
    /// The lines of a text, in one row each.
    pub(crate) fn new(alloc: Global, text: &[u8], width: u32) -> Result<PlainText, NoMemory> {
        let mut plain = PlainText {
            alloc,
            width,
            stamps: 0,
            lines: Vec::new(alloc),
        };
        plain.lines = plain.fresh(text)?;
        Ok(plain)
    }

    /// The lines of a text, each with a stamp of its own, in one row.
    fn fresh(&mut self, text: &[u8]) -> Result<Vec<PlainLine>, NoMemory> {
        let mut lines = Vec::new(self.alloc);
        let mut start: usize = 0;
        for end in 0..text.len().saturating_add(1) {
            if text.get(end).is_none_or(|byte| *byte == b'\n') {
                let bytes = text.get(start..end).unwrap_or(&[]);
                lines.push(self.fresh_line(bytes)?)?;
                start = end.saturating_add(1);
            }
        }
        Ok(lines)
    }

    fn fresh_line(&mut self, bytes: &[u8]) -> Result<PlainLine, NoMemory> {
        self.stamps = self.stamps.wrapping_add(1);
        Ok(PlainLine {
            stamp: self.stamps,
            mark: 0,
            bytes: Vec::from_slice(self.alloc, bytes)?,
            rows: rows_of(self.alloc, bytes, 0)?,
        })
    }

    pub(crate) fn lines(&self) -> &[PlainLine] {
        self.lines.as_slice()
    }

    pub(crate) fn set_width(&mut self, width: u32) {
        self.width = width;
    }

    /// The number of bytes of the text.
    pub(crate) fn len(&self) -> u32 {
        let mut len: u32 = 0;
        for line in self.lines.as_slice() {
            len = len.wrapping_add(count_of(line.bytes.len())).wrapping_add(1);
        }
        len.wrapping_sub(1)
    }

    /// The line of an offset, and how many of its bytes are before.
    fn point_of(&self, offset: u32) -> (usize, usize) {
        let mut rest = offset as usize;
        let mut number: usize = 0;
        for line in self.lines.as_slice() {
            if rest <= line.bytes.len() {
                return (number, rest);
            }
            rest = rest.saturating_sub(line.bytes.len()).saturating_sub(1);
            number = number.wrapping_add(1);
        }
        (number, rest)
    }

    /// How many rows are before a line.
    fn rows_before(&self, line: usize) -> u32 {
        let mut rows: u32 = 0;
        for line in self.lines.get(..line).unwrap_or(&[]) {
            rows = rows.wrapping_add(line.row_count());
        }
        rows
    }

    /// Puts a text in the place of a range. It gives the rows that were replaced, and how many came for them.
    pub(crate) fn edit(
        &mut self,
        start: u32,
        end: u32,
        put: &[u8],
    ) -> Result<(u32, u32, u32), NoMemory> {
        let (first, before) = self.point_of(start);
        let (last, behind) = self.point_of(end);
        let rows_start = self.rows_before(first);
        let rows_end = self.rows_before(last.saturating_add(1));
        let mut bytes = Vec::new(self.alloc);
        if let Some(line) = self.lines.get(first) {
            bytes.extend_from_slice(line.bytes.get(..before).unwrap_or(&[]))?;
        }
        bytes.extend_from_slice(put)?;
        if let Some(line) = self.lines.get(last) {
            bytes.extend_from_slice(line.bytes.get(behind..).unwrap_or(&[]))?;
        }
        let fresh = self.fresh(bytes.as_slice())?;
        let count = count_of(fresh.len());
        self.put(first, last, fresh)?;
        Ok((rows_start, rows_end, count))
    }

    /// Puts lines in the place of those from `first` to `last`.
    fn put(&mut self, first: usize, last: usize, fresh: Vec<PlainLine>) -> Result<(), NoMemory> {
        let mut lines = Vec::new(self.alloc);
        let old = std::mem::replace(&mut self.lines, Vec::new(self.alloc));
        let mut number: usize = 0;
        let mut behind = Vec::new(self.alloc);
        for line in old {
            if number < first {
                lines.push(line)?;
            } else if number > last {
                behind.push(line)?;
            }
            number = number.wrapping_add(1);
        }
        for line in fresh {
            lines.push(line)?;
        }
        for line in behind {
            lines.push(line)?;
        }
        self.lines = lines;
        Ok(())
    }

    /// The first line that waits outside of `out`, and how many do from there on.
    pub(crate) fn waiting(&self, out: PlainRun) -> PlainRun {
        let mut found: PlainRun = None;
        let mut number: u32 = 0;
        let (first, count) = out.unwrap_or((0, 0));
        for line in self.lines.as_slice() {
            let is_out = number >= first && number < first.wrapping_add(count);
            let waits = line.mark != self.width && !is_out;
            match found {
                Some((start, len)) if waits && len < MOST => {
                    found = Some((start, len.wrapping_add(1)));
                }
                Some(_) => return found,
                None if waits => found = Some((number, 1)),
                None => {}
            }
            number = number.wrapping_add(1);
        }
        found
    }

    /// The stamps of the lines of a run.
    pub(crate) fn stamps(&self, run: (u32, u32)) -> Result<Vec<u32>, NoMemory> {
        let mut stamps = Vec::new(self.alloc);
        let (first, count) = (run.0 as usize, run.1 as usize);
        let end = first.wrapping_add(count);
        for line in self.lines.get(first..end).unwrap_or(&[]) {
            stamps.push(line.stamp)?;
        }
        Ok(stamps)
    }

    /// Wraps the lines with these stamps at the width. It gives the rows that were replaced and those that came for
    /// them: the start and end of both, for each group of neighbours.
    pub(crate) fn land(&mut self, stamps: &[u32]) -> Result<Vec<[u32; 4]>, NoMemory> {
        let mut edits = Vec::new(self.alloc);
        let mut open: Option<[u32; 4]> = None;
        let (mut old, mut new): (u32, u32) = (0, 0);
        for line in self.lines.as_mut_slice() {
            let (old_start, new_start) = (old, new);
            old = old.wrapping_add(line.row_count());
            let lands = stamps.iter().any(|stamp| *stamp == line.stamp);
            if lands {
                line.mark = self.width;
                line.rows = rows_of(self.alloc, line.bytes.as_slice(), self.width)?;
            }
            new = new.wrapping_add(line.row_count());
            if lands {
                let [start, _, at, _] = open.unwrap_or([old_start, old, new_start, new]);
                open = Some([start, old, at, new]);
            } else if let Some(edit) = open {
                edits.push(edit)?;
                open = None;
            }
        }
        if let Some(edit) = open {
            edits.push(edit)?;
        }
        Ok(edits)
    }

    /// The maximal runs of lines of one mark other than 0.
    pub(crate) fn marks(&self) -> Result<Vec<MarkRun>, NoMemory> {
        let mut runs: Vec<MarkRun> = Vec::new(self.alloc);
        let mut open: Option<MarkRun> = None;
        let mut number: u32 = 0;
        for line in self.lines.as_slice() {
            match open {
                Some(run) if run.width == line.mark => {
                    open = Some(MarkRun {
                        last: number,
                        ..run
                    });
                }
                _ => {
                    if let Some(run) = open {
                        runs.push(run)?;
                    }
                    open = if line.mark == 0 {
                        None
                    } else {
                        Some(MarkRun {
                            first: number,
                            last: number,
                            width: line.mark,
                        })
                    };
                }
            }
            number = number.wrapping_add(1);
        }
        if let Some(run) = open {
            runs.push(run)?;
        }
        Ok(runs)
    }

    /// How many items there are: each line with cuts, and each maximal run of lines without at one mark.
    pub(crate) fn items(&self) -> u32 {
        let mut items: u32 = 0;
        let mut last: Option<&PlainLine> = None;
        for line in self.lines.as_slice() {
            if last.is_none_or(|last| !last.is_alike(line)) {
                items = items.wrapping_add(1);
            }
            last = Some(line);
        }
        items
    }
}
