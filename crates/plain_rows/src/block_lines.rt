//! At which display line each block is shown.
ghost use Rattle.std.specs.Prelude.{◌≡◌, ◌<◌, ◌≤◌, ◌^◌, All, length, map, not, IfOk};
ghost use Rattle.std.specs.List.{prefix_len};
ghost use Rattle.cell_units.specs.Folded.{line_of};
ghost use Rattle.cell_units.specs.Lawful.{source_of};
ghost use Rattle.cell_units.specs.Layers.{Source};
ghost use Rattle.cell_units.specs.Record.{Record};
ghost use Rattle.cell_units.specs.Text.{is_feed, row_end, row_start};
ghost use Rattle.plain_rows.specs.FoldedLines.{AreInOrder, AreLinesOf};
ghost use Rattle.plain_rows.specs.Plain.{block_of};
ghost use Rattle.plain_rows.specs.Rows.{line_of_block};
ghost use Rattle.plain_rows.specs.inside.BlockRows.{IsRow, line_of_row};

use crate::folded_lines::FoldedLines;
use crate::plain::PlainBlock;
use cell_units::{Bias, NoMemory, Side};
use std::alloc::Global;

/// A row of the buffer: its first offset and its end, before its line feed or at the text's end.
#[derive(Clone, Copy)]
pub(crate) struct BufferRow {
    pub(crate) start: u32,
    pub(crate) end: u32,
}

/// How many bytes are before the first line feed.
fn line_len(bytes: &[u8]) -> usize
    ensures { result ≡ prefix_len (λ b. not (is_feed b)) bytes.now }
{
    bytes.iter().take_while(|b| **b != b'\n').count()
}

/// The end of the row that holds an offset.
fn row_end(text: &[u8], offset: u32) -> u32
    requires size { length text.now < 2 ^ 32 }
    requires within { offset ≤ length text.now }
    ensures { result ≡ row_end text.now offset }
{
    offset + line_len(&text[offset as usize..]) as u32
}

/// The row that holds an offset at or after the start of the given one.
fn row_from(text: &[u8], row: BufferRow, offset: u32) -> BufferRow
    // A row of the text that starts at the offset or before it.
    requires size { length text.now < 2 ^ 32 }
    requires row { IsRow text.now row.start row.end }
    requires behind { row.start ≤ offset }
    requires within { offset ≤ length text.now }

    // The row in which the offset lies.
    ensures row { IsRow text.now result.start result.end }
    ensures start { result.start ≡ row_start text.now offset }
    ensures end { result.end ≡ row_end text.now offset }
{
    let mut row = row;
    while row.end < offset {
        let start = row.end + 1;
        row = BufferRow {
            start,
            end: row_end(text, start),
        };
    }
    row
}

impl FoldedLines {
    /// The display line of a block that is anchored in the row.
    fn block_line(&self, row: BufferRow, side: Side) -> u32
        ensures { (source : Source) → AreLinesOf source self.now →
            row.start ≤ length source.text → row.end ≤ length source.text →
            result ≡ line_of_row source side row.start row.end }
    {
        match side {
            Side::Above => self.line_of(row.start, Bias::Left),
            Side::Below => self.line_of(row.end, Bias::Right),
        }
    }

    /// The display line of each block, counted from 0, in one pass over text and blocks.
    pub fn block_lines(
        &self,
        alloc: Global,
        text: &str,
        blocks: &[PlainBlock],
    ) -> Result<Vec<u32>, NoMemory>
        requires size { length text.now < 2 ^ 32 }
        requires in_order { AreInOrder (λ (b : PlainBlock). b.offset) blocks.now }
        requires within { All (λ (b : PlainBlock). b.offset ≤ length text.now) blocks.now }
        ensures { IfOk result (λ lines. (r : Record) →
            AreLinesOf (source_of r) self.now → r.text ≡ text.now →
            lines.items ≡ map (λ b. line_of_block r (block_of b)) blocks.now) }
    {
        let bytes = text.as_bytes();
        let mut row = BufferRow {
            start: 0,
            end: row_end(bytes, 0),
        };
        let mut lines = Vec::new(alloc);
        for block in blocks {
            row = row_from(bytes, row, block.offset);
            lines.push(self.block_line(row, block.side))?;
        }
        Ok(lines)
    }
}
