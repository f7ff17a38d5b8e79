//! What is shown of a text with blocks: any row may be asked for, and each answer is a plain value.
ghost use Rattle.std.specs.Prelude.{◌≡◌};
ghost use Rattle.wrap_map.specs.Standing.{shown_rows};

use block_map::Shown;
use blocked_rows::BlockedRows;
use cell_units::{NoMemory, Rows, Steps, Text};
use std::alloc::Global;
use std::marker::Model;
use test_stages::BlockedText;

/// Rows of lines with blocks between them. Proofs see nothing of it: whoever asks owes nothing.
pub(crate) struct Seen {
    alloc: Global,
    rows: test_stages::Shown,
    blocks: BlockedRows<test_stages::Shown>,
    ghost same: { blocks.lines ≡ shown_rows rows },
}

impl Drop for Seen {
    fn drop(self) {
        let Seen {
            alloc: _,
            rows: _,
            blocks: _,
        } = self;
    }
}

impl Model for Seen {
    ghost Value = { Unit {0} };

    ghost view = { λ _. tt };
}

impl Seen {
    /// What is shown.
    pub(crate) fn of(alloc: Global, text: &BlockedText) -> Result<Seen, NoMemory> {
        let rows = Rows::share(text.late.text.lines.rows())?;
        let blocks = text.blocks.share()?;
        Ok(Seen {
            alloc,
            rows,
            blocks,
        })
    }

    /// An equal one.
    pub(crate) fn share(&self) -> Result<Seen, NoMemory> {
        let rows = Rows::share(&self.rows)?;
        let blocks = self.blocks.share()?;
        Ok(Seen {
            alloc: self.alloc,
            rows,
            blocks,
        })
    }

    /// The allocator of what it makes.
    pub(crate) fn alloc(&self) -> Global {
        self.alloc
    }

    /// The number of rows.
    pub(crate) fn row_count(&self) -> u32 {
        self.blocks.shown().row_count()
    }

    /// The row of a number, if there is one.
    pub(crate) fn row(&self, row: u32) -> Result<Option<Shown>, NoMemory> {
        self.blocks.shown().row(self.alloc, row, &mut Steps::new())
    }

    /// The rows from one on, as many as there are up to a count.
    pub(crate) fn rows(&self, first: u32, count: u32) -> Result<Vec<Shown>, NoMemory> {
        self.blocks
            .shown()
            .rows(self.alloc, first, count, &mut Steps::new())
    }

    /// The line and the text row in it that are at a row, if one is.
    pub(crate) fn text_at(&self, row: u32) -> Option<(u32, u32)> {
        self.blocks.shown().text_at(row, &mut Steps::new())
    }

    /// The number of text rows of a line, or 0 where there is no such line.
    pub(crate) fn rows_of(&self, line: u32) -> u32 {
        let rows = &self.rows;
        if line >= rows.lines() {
            return 0;
        }
        rows.rows_of(line)
    }

    /// The text of a text row of a line, if there is one.
    pub(crate) fn row_text(&self, line: u32, row: u32) -> Result<Option<Text>, NoMemory> {
        let rows = &self.rows;
        if line >= rows.lines() || row >= rows.rows_of(line) {
            return Ok(None);
        }
        Ok(Some(rows.row_text(self.alloc, line, row)?))
    }

    /// The row at which a text row of a line is, if there is one.
    pub(crate) fn row_of(&self, line: u32, row: u32) -> Option<u32> {
        if line >= self.rows.lines() || row >= self.rows.rows_of(line) {
            return None;
        }
        Some(self.blocks.shown().row_of(line, row, &mut Steps::new()))
    }

    /// The last line that begins at or before a row, or the first, if there is such a row.
    pub(crate) fn line_of_row(&self, row: u32) -> Option<u32> {
        let blocks = self.blocks.shown();
        if row >= blocks.row_count() {
            return None;
        }
        Some(blocks.line_of_row(row, &mut Steps::new()))
    }

    /// The row at which a line begins, with the blocks above it, if there are so many lines.
    pub(crate) fn start_of(&self, line: u32) -> Option<u32> {
        if line > self.rows.lines() {
            return None;
        }
        Some(self.blocks.shown().start_of(line, &mut Steps::new()))
    }
}
