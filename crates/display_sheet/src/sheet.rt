//! A record as a display keeps it: its lists, its display lines laid out, and how each is wrapped.
ghost use Rattle.std.specs.Prelude.{◌≡◌, ◌+◌, ◌≤◌, length, map, IfOk};
ghost use Rattle.std.specs.Arc.{arc_value};
ghost use Rattle.cell_units.specs.Record.{Record, opened};
ghost use Rattle.cell_units.specs.Text.{IsText};
ghost use Rattle.cell_units.specs.Operation.{Operation, SetTab, SetWidth, operated};
ghost use Rattle.cell_units.specs.Folded.{display_lines};
ghost use Rattle.cell_units.specs.LineCounts.{line_of_row_end, line_of_row_start};
ghost use Rattle.cell_units.specs.Lawful.{HasLawfulEntries, IsAllowed, IsLawful, IsWellFormed, source_of};
ghost use Rattle.plain_rows.specs.FoldedLines.{AreLinesOf};
ghost use Rattle.plain_rows.specs.Plain.{block_of, fold_of, inlay_of};
ghost use Rattle.display_sheet.specs.Sheets.{IsBlockChange, IsDraft, IsDraftOf, IsOperated, draft_source, marks_in};
ghost use Rattle.display_sheet.specs.Shown.{unstamped};

use crate::buffer::Buffer;
use crate::wraps::Wraps;
use cell_units::{Bias, NoMemory};
use plain_rows::{FoldedLines, PlainBlock, PlainFold, PlainInlay, PlainSource};
use std::alloc::Global;
use std::marker::Model;
use std::sync::Arc;

/// The display lines from `first` up to `end` make place for `count` others.
#[derive(Clone, Copy, Debug)]
pub struct LineSplice {
    pub first: u32,
    pub end: u32,
    pub count: u32,
}

/// Two offsets of a text: the rows from that of the one to that of the other are touched.
#[derive(Clone, Copy, Debug)]
pub(crate) struct Reach {
    pub(crate) start: u32,
    pub(crate) end: u32,
}

/// What an operation makes of a record's lists.
#[derive(Drop)]
pub(crate) struct Draft {
    pub(crate) text: Arc<Buffer>,
    pub(crate) inlays: Arc<Vec<PlainInlay>>,
    pub(crate) folds: Arc<Vec<PlainFold>>,
    pub(crate) blocks: Arc<Vec<PlainBlock>>,
}

/// A record, seen as one whose stamps count its lines. All of it is shared with its copies.
pub struct Sheet {
    pub(crate) text: Arc<Buffer>,
    pub(crate) inlays: Arc<Vec<PlainInlay>>,
    pub(crate) folds: Arc<Vec<PlainFold>>,
    pub(crate) blocks: Arc<Vec<PlainBlock>>,
    pub(crate) tab: u32,
    pub(crate) width: u32,
    pub(crate) lines: Arc<FoldedLines>,
    pub(crate) wraps: Arc<Wraps>,
}

impl Drop for Sheet {
    fn drop(self) {
        let Sheet {
            text: _,
            inlays: _,
            folds: _,
            blocks: _,
            tab: _,
            width: _,
            lines: _,
            wraps: _,
        } = self;
    }
}

impl Model for Sheet {
    ghost use Rattle.cell_units.specs.Record.{Record};

    ghost Value = { Record };

    ghost use Rattle.display_sheet.specs.Sheets.{KeepsSheet, record_in};

    ghost view = { record_in };

    ghost invariant = { KeepsSheet };
}

/// A record after an operation, and the display lines that it spliced.
#[derive(Drop)]
pub struct Spliced {
    pub sheet: Sheet,
    pub splice: LineSplice,
}

/// A value that may be shared.
pub(crate) fn shared<T: Drop>(alloc: Global, value: T) -> Result<Arc<T>, NoMemory>
    ensures { IfOk result (λ shared. arc_value shared ≡ value) }
{
    Ok(Arc::new(alloc, value)?)
}

/// No line makes place for others.
const NO_LINE: LineSplice = LineSplice {
    first: 0,
    end: 0,
    count: 0,
};

/// The tab size and the width of a text that was just opened.
const OPENING_TAB: u32 = 4;

const OPENING_WIDTH: u32 = 80;

/// The display lines of lists.
fn laid_out(alloc: Global, draft: &Draft) -> Result<FoldedLines, NoMemory>
    requires { IsWellFormed (draft_source draft.now) }
    ensures { IfOk result (λ lines. AreLinesOf (draft_source draft.now) lines) }
{
    let source = PlainSource {
        text: draft.text.as_str(),
        inlays: draft.inlays.as_slice(),
        folds: draft.folds.as_slice(),
    };
    FoldedLines::new(alloc, &source)
}

/// The display line that holds the start of an offset's row.
fn first_line(text: &Buffer, lines: &FoldedLines, offset: u32) -> u32
    requires { offset ≤ length text.now }
    ensures { (r : Record) → AreLinesOf (source_of r) lines.now → r.text ≡ text.now →
        result ≡ line_of_row_start r offset }
{
    lines.line_of(text.row_start(offset), Bias::Left)
}

/// The display line after the one that holds the end of an offset's row.
fn end_line(text: &Buffer, lines: &FoldedLines, offset: u32) -> u32
    requires { offset ≤ length text.now }
    ensures { (r : Record) → HasLawfulEntries r → AreLinesOf (source_of r) lines.now →
        r.text ≡ text.now → result ≡ line_of_row_end r offset + 1 }
{
    let last = lines.line_of(text.row_end(offset), Bias::Right);
    // There is no line after the last.
    last.saturating_add(1).min(lines.lines())
}

impl Sheet {
    /// The record of a text that was just opened.
    pub fn opened(alloc: Global, text: Arc<Buffer>) -> Result<Sheet, NoMemory>
        requires { IsText (arc_value text) }
        ensures { IfOk result (λ sheet. sheet ≡ unstamped (opened (arc_value text))) }
    {
        let draft = Draft {
            text,
            inlays: shared(alloc, Vec::new(alloc))?,
            folds: shared(alloc, Vec::new(alloc))?,
            blocks: shared(alloc, Vec::new(alloc))?,
        };
        let lines = laid_out(alloc, &draft)?;
        let wraps = Wraps::fresh(alloc, lines.lines())?;
        Ok(Sheet {
            text: draft.text,
            inlays: draft.inlays,
            folds: draft.folds,
            blocks: draft.blocks,
            tab: OPENING_TAB,
            width: OPENING_WIDTH,
            lines: Arc::new(alloc, lines)?,
            wraps: Arc::new(alloc, wraps)?,
        })
    }

    /// The text.
    pub fn text(&self) -> &Buffer
        ensures { result.now ≡ self.now.text }
    {
        &self.text
    }

    /// The inlays, by offset, bias (Left first) and id.
    pub fn inlays(&self) -> &[PlainInlay]
        ensures { map inlay_of result.now ≡ self.now.inlays }
    {
        self.inlays.as_slice()
    }

    /// The folds, by start, end and id.
    pub fn folds(&self) -> &[PlainFold]
        ensures { map fold_of result.now ≡ self.now.folds }
    {
        self.folds.as_slice()
    }

    /// The blocks, by offset and id.
    pub fn blocks(&self) -> &[PlainBlock]
        ensures { map block_of result.now ≡ self.now.blocks }
    {
        self.blocks.as_slice()
    }

    /// The tab size, in cells.
    pub fn tab(&self) -> u32
        ensures { result ≡ self.now.tab }
    {
        self.tab
    }

    /// The width in cells at which lines are to be wrapped, and 0 where none is.
    pub fn width(&self) -> u32
        ensures { result ≡ self.now.width }
    {
        self.width
    }

    /// How each display line is wrapped.
    pub fn wraps(&self) -> &Wraps
        ensures { marks_in result.now ≡ map (λ m. m.width) self.now.marks }
    {
        &self.wraps
    }

    /// The record is lawful. It does nothing.
    pub fn lawful(&self)
        ensures { IsLawful self.now }
    {
        // For the proof: the record is lawful, as the type keeps.
        let _ = &self.tab;
    }

    /// How many display lines there are.
    pub fn lines(&self) -> u32
        ensures { result ≡ length (display_lines self.now.text self.now.inlays self.now.folds) }
    {
        self.lines.lines()
    }

    /// The lists as they are.
    pub(crate) fn draft(&self) -> Result<Draft, NoMemory>
        ensures { IfOk result (IsDraftOf self.now) }
    {
        Ok(Draft {
            text: Arc::try_clone(&self.text)?,
            inlays: Arc::try_clone(&self.inlays)?,
            folds: Arc::try_clone(&self.folds)?,
            blocks: Arc::try_clone(&self.blocks)?,
        })
    }

    /// The same record once more.
    pub fn share(&self) -> Result<Sheet, NoMemory>
        ensures { IfOk result (λ sheet. sheet ≡ self.now) }
    {
        Ok(Sheet {
            text: Arc::try_clone(&self.text)?,
            inlays: Arc::try_clone(&self.inlays)?,
            folds: Arc::try_clone(&self.folds)?,
            blocks: Arc::try_clone(&self.blocks)?,
            tab: self.tab,
            width: self.width,
            lines: Arc::try_clone(&self.lines)?,
            wraps: Arc::try_clone(&self.wraps)?,
        })
    }

    /// The record after an operation that touches rows, and leaves these lists.
    pub(crate) fn relaid(
        &self,
        alloc: Global,
        draft: Draft,
        before: Reach,
        after: Reach,
    ) -> Result<Spliced, NoMemory>
        requires { (operation : Operation) × IsDraft operation self.now draft before after }
        ensures { (operation : Operation) → IsDraft operation self.now draft before after →
            IfOk result (λ s. IsOperated operation self.now s.sheet s.splice) }
    {
        let first = first_line(&self.text, &self.lines, before.start);
        let lines = laid_out(alloc, &draft)?;
        let splice = LineSplice {
            first,
            end: end_line(&self.text, &self.lines, before.end),
            count: end_line(&draft.text, &lines, after.end) - first,
        };
        let wraps = self.wraps.spliced(alloc, splice)?;
        let sheet = Sheet {
            text: draft.text,
            inlays: draft.inlays,
            folds: draft.folds,
            blocks: draft.blocks,
            tab: self.tab,
            width: self.width,
            lines: Arc::new(alloc, lines)?,
            wraps: Arc::new(alloc, wraps)?,
        };
        Ok(Spliced { sheet, splice })
    }

    /// The record with other blocks. No line is touched.
    pub(crate) fn with_blocks(
        &self,
        alloc: Global,
        blocks: Vec<PlainBlock>,
    ) -> Result<Spliced, NoMemory>
        requires { (operation : Operation)
            × IsBlockChange operation self.now (map block_of blocks.items) }
        ensures { (operation : Operation) →
            IsBlockChange operation self.now (map block_of blocks.items) →
            IfOk result (λ s. IsOperated operation self.now s.sheet s.splice) }
    {
        let sheet = Sheet {
            text: Arc::try_clone(&self.text)?,
            inlays: Arc::try_clone(&self.inlays)?,
            folds: Arc::try_clone(&self.folds)?,
            blocks: Arc::new(alloc, blocks)?,
            tab: self.tab,
            width: self.width,
            lines: Arc::try_clone(&self.lines)?,
            wraps: Arc::try_clone(&self.wraps)?,
        };
        Ok(Spliced {
            sheet,
            splice: NO_LINE,
        })
    }

    /// The record at another width. No line is touched.
    pub(crate) fn with_width(&self, cells: u32) -> Result<Spliced, NoMemory>
        requires { IsAllowed (SetWidth cells) self.now }
        ensures { IfOk result (λ s. IsOperated (SetWidth cells) self.now s.sheet s.splice) }
    {
        let sheet = Sheet {
            text: Arc::try_clone(&self.text)?,
            inlays: Arc::try_clone(&self.inlays)?,
            folds: Arc::try_clone(&self.folds)?,
            blocks: Arc::try_clone(&self.blocks)?,
            tab: self.tab,
            width: cells,
            lines: Arc::try_clone(&self.lines)?,
            wraps: Arc::try_clone(&self.wraps)?,
        };
        Ok(Spliced {
            sheet,
            splice: NO_LINE,
        })
    }

    /// The record with another tab size. Each line is touched.
    pub(crate) fn with_tab(&self, alloc: Global, tab: u32) -> Result<Spliced, NoMemory>
        requires { IsAllowed (SetTab tab) self.now }
        ensures { IfOk result (λ s. IsOperated (SetTab tab) self.now s.sheet s.splice) }
    {
        let lines = self.lines.lines();
        let splice = LineSplice {
            first: 0,
            end: lines,
            count: lines,
        };
        let wraps = self.wraps.spliced(alloc, splice)?;
        let sheet = Sheet {
            text: Arc::try_clone(&self.text)?,
            inlays: Arc::try_clone(&self.inlays)?,
            folds: Arc::try_clone(&self.folds)?,
            blocks: Arc::try_clone(&self.blocks)?,
            tab,
            width: self.width,
            lines: Arc::try_clone(&self.lines)?,
            wraps: Arc::new(alloc, wraps)?,
        };
        Ok(Spliced { sheet, splice })
    }
}
