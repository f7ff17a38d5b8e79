//! What a view reads off a record as a display keeps it.
ghost use Rattle.std.specs.Prelude.{◌≡◌, ◌+◌, ◌<◌, ◌≤◌, [], length, map, take, drop, slice_get, slice_index_or, slice_range, IfOk, OnOk};
ghost use Rattle.cell_units.specs.declared.limits.TheConstants.{LAID_LIMIT};
ghost use Rattle.cell_units.specs.Lawful.{IsLawful, IsWidth, source_of};
ghost use Rattle.cell_units.specs.Record.{plain_mark};
ghost use Rattle.cell_units.specs.Text.{IsBoundary};
ghost use Rattle.cell_line.specs.Lines.{line_at};
ghost use Rattle.plain_rows.specs.FoldedLines.{seen};
ghost use Rattle.plain_rows.specs.Plain.{record_of, row_pairs};
ghost use Rattle.plain_rows.specs.Rows.{blocks_at, line_elements, line_of_block, line_rows, rows_of};
ghost use Rattle.plain_rows.specs.inside.BuiltRows.{AreBefore, is_upto};
ghost use Rattle.display_sheet.specs.Shown.{mark_runs};
ghost use Rattle.plain_rows.specs.ShownRows.{shown_row, shown_rows};
ghost use Rattle.display_sheet.specs.Windows.{HasPassed, texts_at};

use crate::marking::mark_runs;
use crate::piece_line::PieceLine;
use crate::sheet::Sheet;
use crate::window::Window;
use crate::wraps::Wraps;
use crate::{blocks, inlays};
use cell_line::MarkRun;
use cell_units::{NoMemory, Side, Text};
use plain_rows::{Kind, Plain, PlainSource, Shown};
use std::alloc::Global;

/// Of each line the width at which it is wrapped.
pub(crate) fn widths(alloc: Global, wraps: &Wraps) -> Result<Vec<u32>, NoMemory>
    ensures { IfOk result (λ widths. widths.items ≡ map (λ w. w.mark) wraps.now) }
{
    let mut widths = Vec::with_capacity(alloc, wraps.len() as usize)?;
    for line in 0..wraps.len() {
        widths.push(wraps.get(line).mark)?;
    }
    Ok(widths)
}

impl Sheet {
    /// The display line of each block.
    pub(crate) fn block_lines(&self, alloc: Global) -> Result<Vec<u32>, NoMemory>
        ensures { IfOk result (λ lines.
            lines.items ≡ map (line_of_block self.now) self.now.blocks) }
    {
        let blocks = self.blocks.as_slice();
        let lines = self.lines.block_lines(alloc, self.text.as_str(), blocks)?;
        Ok(lines)
    }

    /// Whether there is a block of this number and it is on the other side, or is at the line or before it.
    fn is_upto(&self, stands: &[u32], side: Side, number: usize, line: u32) -> bool
        requires { stands.now ≡ map (line_of_block self.now) self.now.blocks }
        ensures { result ≡ is_upto self.now side number line }
    {
        let blocks = self.blocks();
        number < blocks.len() && (blocks[number].side != side || stands[number] <= line)
    }

    /// The rows of the blocks of one side that are at the line go past, from the block of the number `from` on.
    /// `stands` has of each block its line. Returns the number of the block after them.
    fn pass_blocks(
        &self,
        alloc: Global,
        window: &mut Window,
        stands: &[u32],
        side: Side,
        from: usize,
        line: u32,
    ) -> Result<usize, NoMemory>
        // Blocks of the side before `from` are before the line, and no others are.
        requires lawful { IsLawful self.now }
        requires stands { stands.now ≡ map (line_of_block self.now) self.now.blocks }
        requires before { AreBefore self.now side from line }

        // The rows of those at the line went past, and those before the result are before the next line.
        ensures rows { OnOk result
            (HasPassed (row_pairs (blocks_at self.now side line)) window.old window.new) }
        ensures before { IfOk result (λ behind. AreBefore self.now side behind (line + 1)) }
    {
        let blocks = self.blocks();
        let mut next = from;
        'walk: while self.is_upto(stands, side, next, line) {
            window.pass_block_on(alloc, &blocks[next], side)?;
            next += 1;
        }
        Ok(next)
    }

    /// What of the record is shown in its display lines.
    pub(crate) fn source(&self) -> PlainSource<'_>
        ensures { seen result ≡ source_of self.now }
    {
        PlainSource {
            text: self.text.as_str(),
            inlays: self.inlays.as_slice(),
            folds: self.folds.as_slice(),
        }
    }

    /// A display line.
    fn line(&self, alloc: Global, line: u32) -> Result<PieceLine, NoMemory>
        requires { line < length self.now.marks }
        ensures { IfOk result (λ found. found ≡ line_at (line_elements self.now) line) }
    {
        PieceLine::new(alloc, &self.source(), &self.lines, self.tab, line)
    }

    /// The width at which a line is wrapped, or 0.
    fn line_width(&self, line: u32) -> u32
        requires { line < length self.now.marks }
        ensures width { result ≡ (slice_index_or self.now.marks line (plain_mark 0)).width }
        ensures lawful { IsWidth result }
    {
        self.wraps.get(line).mark
    }

    /// The texts of a line's rows, from the row `first` on, as many as there are up to `count`.
    fn line_texts(
        &self,
        alloc: Global,
        line: u32,
        first: u32,
        count: u32,
    ) -> Result<Vec<Text>, NoMemory>
        requires { line < length self.now.marks }
        ensures { IfOk result (λ texts.
            texts.items ≡ take count (drop first (texts_at self.now line))) }
    {
        let width = self.line_width(line);
        let found = self.line(alloc, line)?;
        let cuts = found.cuts(alloc, width)?;
        found.row_texts(alloc, width, &cuts, first, count)
    }

    /// How many rows a line has.
    pub(crate) fn line_row_count(&self, line: u32) -> u32
        requires { line < length self.now.marks }
        ensures rows { result ≡ length (texts_at self.now line) }
        ensures lawful { IsLawful self.now }
    {
        self.wraps.get(line).rows
    }

    /// The text rows of a line go past. One that is skipped as a whole isn't cut.
    fn pass_line(&self, alloc: Global, window: &mut Window, line: u32) -> Result<(), NoMemory>
        requires { line < length self.now.marks }
        ensures { let rows = slice_index_or (line_rows self.now) line [] in
            OnOk result (HasPassed (row_pairs rows) window.old window.new) }
    {
        let rows = self.line_row_count(line);
        if rows <= window.skip {
            window.skip -= rows;
            return Ok(());
        }
        let texts = self.line_texts(alloc, line, window.skip, window.left)?;
        let kind = if window.skip == 0 {
            Kind::Head
        } else {
            Kind::More
        };
        window.skip = 0;
        window.keep(texts, kind)?;
        Ok(())
    }

    /// The rows from number `first` on, counted from 0, as many as there are up to `count` (*Rows*).
    pub fn rows(&self, alloc: Global, first: u32, count: u32) -> Result<Vec<Shown>, NoMemory>
        ensures { IfOk result (λ shown.
            shown_rows shown.items ≡ take count (drop first (rows_of self.now))) }
    {
        // For the proof: the record is lawful, so its rows can be counted.
        self.lawful();
        let stands = self.block_lines(alloc)?;
        let stands = stands.as_slice();
        let mut window = Window {
            rows: Vec::new(alloc),
            skip: first,
            left: count,
        };
        let mut above = 0;
        let mut below = 0;
        for line in 0..self.lines() {
            if window.left == 0 {
                return Ok(window.rows);
            }
            above = self.pass_blocks(alloc, &mut window, stands, Side::Above, above, line)?;
            self.pass_line(alloc, &mut window, line)?;
            below = self.pass_blocks(alloc, &mut window, stands, Side::Below, below, line)?;
        }
        Ok(window.rows)
    }

    /// The row of this number, counted from 0; `None` past the last.
    pub fn row(&self, alloc: Global, row: u32) -> Result<Option<Shown>, NoMemory>
        ensures { IfOk result (λ shown. shown_row shown ≡ slice_get (rows_of self.now) row) }
    {
        let mut rows = self.rows(alloc, row, 1)?;
        Ok(rows.pop())
    }

    /// The wrapped lines: maximal runs of neighbours at one width.
    pub fn marks(&self, alloc: Global) -> Result<Vec<MarkRun>, NoMemory>
        ensures { IfOk result (λ runs. runs.items ≡ mark_runs self.now) }
    {
        mark_runs(alloc, self.wraps())
    }

    /// The record as plain lists.
    pub fn plain(&self, alloc: Global) -> Result<Plain, NoMemory>
        ensures same { IfOk result (λ plain. record_of plain ≡ self.now) }
        ensures lawful { IfOk result (λ plain. IsLawful self.now) }
        ensures size { IfOk result (λ plain. length self.now.text ≤ LAID_LIMIT) }
    {
        let mut inlays = Vec::new(alloc);
        inlays::push_copies(alloc, &mut inlays, self.inlays())?;
        let mut folds = Vec::new(alloc);
        folds.extend_from_slice(self.folds())?;
        let mut blocks = Vec::new(alloc);
        blocks::push_copies(alloc, &mut blocks, self.blocks())?;
        Ok(Plain {
            text: Text::from_str(alloc, self.text.as_str())?,
            inlays,
            folds,
            blocks,
            tab: self.tab,
            width: self.width,
            marks: widths(alloc, &self.wraps)?,
        })
    }

    /// The text from the byte `start` up to the byte `end`, two boundaries in order.
    pub fn slice(&self, alloc: Global, start: u32, end: u32) -> Result<Text, NoMemory>
        requires start { IsBoundary self.now.text start }
        requires end { IsBoundary self.now.text end }
        requires order { start ≤ end }
        ensures { IfOk result (λ text. text ≡ slice_range self.now.text start end) }
    {
        Text::from_str(alloc, &self.text.as_str()[start as usize..end as usize])
    }
}
