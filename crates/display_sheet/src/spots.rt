//! Where offsets of a sheet are shown. Of each line its width and the rows before it are counted in one pass. Elements
//! are made only of the lines that are asked for.
ghost use Rattle.std.specs.Prelude.{◌≡◌, ◌≤◌, length, map, IfOk};
ghost use Rattle.cell_units.specs.Text.{IsBoundary};
ghost use Rattle.plain_rows.specs.Rows.{is_on, line_of_block};
ghost use Rattle.plain_rows.specs.Spots.{back, clip, show};
ghost use Rattle.plain_rows.specs.inside.SpotRows.{HasBlockRows, HasFirstRows};
ghost use Rattle.display_sheet.specs.RowCounts.{AreCountsOf};

use crate::reading::widths;
use crate::sheet::Sheet;
use cell_units::{Bias, NoMemory, Side, Spot, Steps};
use plain_rows::{LaidRows, PlainBlock, back_in, clip_in, show_in};
use std::alloc::Global;

/// Of each line the width at which it is wrapped, and how many rows are before its text rows.
#[derive(Drop)]
struct LineCounts {
    widths: Vec<u32>,
    first_rows: Vec<u32>,
}

/// Whether the block is on that side of its line.
fn stands_on(block: &PlainBlock, side: Side) -> bool
    ensures { result ≡ is_on side block.now.side }
{
    block.side == side
}

impl Sheet {
    /// How many rows of blocks are on one side of each line. `stands` has of each block its line.
    fn block_rows(&self, alloc: Global, stands: &[u32], side: Side) -> Result<Vec<u32>, NoMemory>
        requires { stands.now ≡ map (line_of_block self.now) self.now.blocks }
        ensures { IfOk result (λ rows. HasBlockRows self.now side rows.items) }
    {
        // For the proof: the record is lawful, so the rows of its blocks fit u32.
        self.lawful();
        let blocks = self.blocks();
        let mut rows = vec![in alloc; 0; self.lines() as usize]?;
        for number in 0..blocks.len() {
            let block = &blocks[number];
            if stands_on(block, side) {
                rows[stands[number] as usize] += block.lines.len() as u32;
            }
        }
        Ok(rows)
    }

    /// How many rows are before the text rows of each line.
    fn first_rows(&self, alloc: Global) -> Result<Vec<u32>, NoMemory>
        ensures { IfOk result (λ rows. HasFirstRows self.now rows.items) }
    {
        let stands = self.block_lines(alloc)?;
        let above = self.block_rows(alloc, &stands, Side::Above)?;
        let below = self.block_rows(alloc, &stands, Side::Below)?;
        let mut rows = Vec::with_capacity(alloc, self.wraps.len() as usize)?;
        let mut row = 0;
        for line in 0..self.lines() {
            row += above[line as usize];
            rows.push(row)?;
            row += self.line_row_count(line);
            row += below[line as usize];
        }
        Ok(rows)
    }

    /// What is counted of each line.
    fn line_counts(&self, alloc: Global) -> Result<LineCounts, NoMemory>
        ensures { IfOk result (AreCountsOf self.now) }
    {
        Ok(LineCounts {
            widths: widths(alloc, self.wraps())?,
            first_rows: self.first_rows(alloc)?,
        })
    }

    /// The display lines with what is counted of them, in which offsets are looked up.
    fn laid_rows<'a>(&'a self, counts: &'a LineCounts) -> LaidRows<'a>
        requires { AreCountsOf self.now counts.now }
        ensures { result ≡ self.now }
    {
        LaidRows {
            source: self.source(),
            blocks: self.blocks.as_slice(),
            tab: self.tab,
            width: self.width,
            lines: &self.lines,
            widths: counts.widths.as_slice(),
            first_rows: counts.first_rows.as_slice(),
        }
    }

    /// The row, and the column in cells, where the boundary `offset` of the text is shown (*Spots*).
    pub fn show(&self, alloc: Global, offset: u32, bias: Bias) -> Result<Spot, NoMemory>
        requires { IsBoundary self.now.text offset }
        ensures { IfOk result (λ spot. spot ≡ show self.now offset bias) }
    {
        let counts = self.line_counts(alloc)?;
        let rows = self.laid_rows(&counts);
        show_in(alloc, &rows, offset, bias, &mut Steps::new())
    }

    /// The nearest spot at which some offset is shown (*Spots*).
    pub fn clip(&self, alloc: Global, spot: Spot, bias: Bias) -> Result<Spot, NoMemory>
        ensures { IfOk result (λ nearest. nearest ≡ clip self.now spot bias) }
    {
        let counts = self.line_counts(alloc)?;
        let rows = self.laid_rows(&counts);
        clip_in(alloc, &rows, spot, bias, &mut Steps::new())
    }

    /// The least offset in bytes (Left) or the greatest (Right) that is shown at the nearest such spot (*Spots*).
    pub fn back(&self, alloc: Global, spot: Spot, bias: Bias) -> Result<u32, NoMemory>
        ensures { IfOk result (λ offset. offset ≡ back self.now spot bias) }
    {
        let counts = self.line_counts(alloc)?;
        let rows = self.laid_rows(&counts);
        back_in(alloc, &rows, spot, bias, &mut Steps::new())
    }
}
