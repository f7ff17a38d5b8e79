//! How many rows a sheet has.
ghost use Rattle.std.specs.Prelude.{◌≡◌, ◌^◌, ◌<◌, length};
ghost use Rattle.plain_rows.specs.Rows.{rows_of};
ghost use Rattle.display_sheet.specs.RowCounts.{rows_of_blocks};

use crate::sheet::Sheet;
use plain_rows::PlainBlock;

/// How many rows blocks have.
fn rows_of_blocks(blocks: &[PlainBlock]) -> u32
    requires { rows_of_blocks blocks.now < 2 ^ 32 }
    ensures { result ≡ rows_of_blocks blocks.now }
{
    let mut rows = 0;
    for block in blocks {
        rows += block.lines.len() as u32;
    }
    rows
}

impl Sheet {
    /// How many rows there are, those of blocks too (*Rows*).
    pub fn row_count(&self) -> u32
        ensures { result ≡ length (rows_of self.now) }
    {
        self.wraps.rows() as u32 + rows_of_blocks(self.blocks.as_slice())
    }
}
