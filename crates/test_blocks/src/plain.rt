//! What has to be shown, by plain lists: a text by its bytes, the blocks in it, and all rows one by one.
use crate::seen::Seen;
use cell_units::{Bias, NoMemory, Refusal, Side};
use std::alloc::Global;
use test_support::lists::{count_of, moved, replaced, row_at};

/// The ids that blocks are given are below this.
pub(crate) const IDS: u32 = 40;

/// The lines that blocks are given.
const LINES: [&[&str]; 6] = [
    &["-"],
    &["one", "two"],
    &[""],
    &["a", "b", "c"],
    &[],
    &["two\nlines"],
];

/// Which of these are no lines of a block.
const FIRST_WRONG: u32 = 4;

/// How many there are to take from.
pub(crate) const LINES_COUNT: u32 = 6;

/// The lines of a number.
pub(crate) fn lines_given(number: u32) -> &'static [&'static str] {
    LINES.get(number as usize).copied().unwrap_or(&[])
}

/// A block: its lines are those of a number.
#[derive(Clone, Copy)]
struct PlainBlock {
    offset: u32,
    id: u32,
    side: Side,
    lines: u32,
}

/// A row: the letter of its kind, its text, and the line and the row in it where it is one of a line.
#[derive(Drop)]
pub(crate) struct PlainRow {
    pub(crate) letter: char,
    pub(crate) text: Vec<u8>,
    pub(crate) place: Option<(u32, u32)>,
}

/// A text and the blocks in it, by offset and id.
#[derive(Drop)]
pub(crate) struct PlainBlocks {
    alloc: Global,
    text: Vec<u8>,
    blocks: Vec<PlainBlock>,
}

impl PlainBlocks {
    /// The text without blocks.
    pub(crate) fn new(alloc: Global, text: &[u8]) -> Result<PlainBlocks, NoMemory> {
        Ok(PlainBlocks {
            alloc,
            text: Vec::from_slice(alloc, text)?,
            blocks: Vec::new(alloc),
        })
    }

    /// The number of bytes of the text.
    pub(crate) fn len(&self) -> u32 {
        count_of(self.text.len())
    }

    /// The row of an offset.
    fn row_of(&self, offset: u32) -> u32 {
        row_at(&self.text, offset)
    }

    /// Adds a block, after all that come before it.
    pub(crate) fn insert(
        &mut self,
        id: u32,
        side: Side,
        offset: u32,
        lines: u32,
    ) -> Result<Option<Refusal>, NoMemory> {
        if self.blocks.as_slice().iter().any(|block| block.id == id) {
            return Ok(Some(Refusal::IdInUse));
        }
        if offset > self.len() {
            return Ok(Some(Refusal::BadRange));
        }
        if lines >= FIRST_WRONG {
            return Ok(Some(Refusal::BadText));
        }
        self.blocks.push(PlainBlock {
            offset,
            id,
            side,
            lines,
        })?;
        self.put_in_order();
        Ok(None)
    }

    /// Takes a block out.
    pub(crate) fn remove(&mut self, id: u32) -> Option<Refusal> {
        let before = self.blocks.len();
        self.blocks.retain(|block| block.id != id);
        if self.blocks.len() == before {
            return Some(Refusal::UnknownId);
        }
        None
    }

    /// Puts the blocks in order.
    fn put_in_order(&mut self) {
        self.blocks
            .sort_unstable_by_key(|block| (block.offset, block.id));
    }

    /// Puts a text in the place of a range, and moves the blocks.
    pub(crate) fn edit(&mut self, start: u32, end: u32, put: &[u8]) -> Result<(), NoMemory> {
        self.text = replaced(self.alloc, &self.text, start, end, put)?;
        let count = count_of(put.len());
        for block in self.blocks.as_mut_slice() {
            block.offset = moved(block.offset, Bias::Right, start, end, count);
        }
        self.put_in_order();
        Ok(())
    }

    /// All rows: of each line those of its blocks above it, its own, and those of its blocks below it.
    pub(crate) fn rows(&self, seen: &Seen) -> Result<Vec<PlainRow>, NoMemory> {
        let mut lines = Vec::new(self.alloc);
        for block in self.blocks.as_slice() {
            lines.push(self.row_of(block.offset))?;
        }
        let mut rows = Vec::new(self.alloc);
        for line in 0..self.row_of(self.len()).saturating_add(1) {
            self.push_blocks(&mut rows, lines.as_slice(), Side::Above, line)?;
            push_line(self.alloc, &mut rows, seen, line)?;
            self.push_blocks(&mut rows, lines.as_slice(), Side::Below, line)?;
        }
        Ok(rows)
    }

    /// Appends the rows of the blocks on one side of a line. `lines` are those of all blocks.
    fn push_blocks(
        &self,
        rows: &mut Vec<PlainRow>,
        lines: &[u32],
        side: Side,
        line: u32,
    ) -> Result<(), NoMemory> {
        for (block, at) in self.blocks.as_slice().iter().zip(lines) {
            if block.side != side || *at != line {
                continue;
            }
            for text in lines_given(block.lines) {
                rows.push(PlainRow {
                    letter: 'b',
                    text: Vec::from_slice(self.alloc, text.as_bytes())?,
                    place: None,
                })?;
            }
        }
        Ok(())
    }
}

/// Appends the rows of a line.
fn push_line(
    alloc: Global,
    rows: &mut Vec<PlainRow>,
    seen: &Seen,
    line: u32,
) -> Result<(), NoMemory> {
    for row in 0..seen.rows_of(line) {
        let letter = if row == 0 { 't' } else { 'w' };
        let mut text = Vec::new(alloc);
        if let Some(told) = seen.row_text(line, row)? {
            text.extend_from_slice(told.as_str().as_bytes())?;
        }
        rows.push(PlainRow {
            letter,
            text,
            place: Some((line, row)),
        })?;
    }
    Ok(())
}
