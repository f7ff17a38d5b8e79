//! The rows from some number on, up to a count, out of rows that go past.
ghost use Rattle.std.specs.Prelude.{◌≡◌, ◌++◌, ◌-◌, [], ◌∷◌, length, OnOk};
ghost use Rattle.plain_rows.specs.Plain.{block_of, row_pairs};
ghost use Rattle.plain_rows.specs.Rows.{block_kind, block_rows};
ghost use Rattle.plain_rows.specs.ShownRows.{letter_of};
ghost use Rattle.display_sheet.specs.Windows.{HasPassed, kind_and_more, rows_on, shown_pairs};

use cell_units::{NoMemory, Side, Text};
use plain_rows::{Kind, PlainBlock, Shown};
use std::alloc::Global;

/// What is kept of the rows that went past.
#[derive(Drop)]
pub struct Window {
    pub rows: Vec<Shown>,
    /// How many rows are still to be skipped.
    pub skip: u32,
    /// How many rows there is still room for.
    pub left: u32,
}

impl Window {
    /// A row of a block goes past.
    fn pass_block_row(&mut self, alloc: Global, text: &str) -> Result<(), NoMemory>
        ensures { OnOk result (HasPassed ((block_kind, text.now) ∷ []) self.old self.new) }
    {
        if self.skip > 0 {
            self.skip -= 1;
        } else if self.left > 0 {
            self.left -= 1;
            let text = Text::from_str(alloc, text)?;
            let kind = Kind::Block;
            self.rows.push(Shown { kind, text })?;
        }
        Ok(())
    }

    /// The rows of a block go past.
    fn pass_block(&mut self, alloc: Global, block: &PlainBlock) -> Result<(), NoMemory>
        ensures { let rows = block_rows (block_of block.now) in
            OnOk result (HasPassed (row_pairs rows) self.old self.new) }
    {
        for line in &block.lines {
            self.pass_block_row(alloc, line.as_str())?;
        }
        Ok(())
    }

    /// The rows of a block go past, if it is on the side.
    pub fn pass_block_on(
        &mut self,
        alloc: Global,
        block: &PlainBlock,
        side: Side,
    ) -> Result<(), NoMemory>
        ensures { OnOk result (HasPassed (rows_on side (block_of block.now)) self.old self.new) }
    {
        if block.side != side {
            return Ok(());
        }
        self.pass_block(alloc, block)
    }

    /// Keeps rows of these texts: the first of the kind, and the others go on with its line.
    pub fn keep(&mut self, texts: Vec<Text>, kind: Kind) -> Result<(), NoMemory>
        ensures kept { let rows = kind_and_more (letter_of kind) texts.items in
            OnOk result (shown_pairs self.new.rows.items ≡ shown_pairs self.old.rows.items ++ rows) }
        ensures skip { OnOk result (self.new.skip ≡ self.old.skip) }
        ensures left { OnOk result (self.new.left ≡ self.old.left - length texts.items) }
    {
        let mut kind = kind;
        for text in texts {
            self.left = self.left.saturating_sub(1);
            self.rows.push(Shown { kind, text })?;
            kind = Kind::More;
        }
        Ok(())
    }
}
