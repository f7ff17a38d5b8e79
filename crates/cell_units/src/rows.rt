//! Rows: display lines as they are cut.
ghost use Rattle.std.specs.Prelude.{◌≡◌, ◌<◌, ◌≤◌, ℕ, List, Some, drop, length, slice_get, take, IfOk};
ghost use Rattle.cell_units.specs.Rows.{HaveRows, IsLineAt, line_rows, rows_before};

use crate::fault::NoMemory;
use crate::text::Text;
use std::alloc::Global;

/// Lines, each of which is cut into one row or more. Lines and rows are counted from 0.
pub trait Rows: Drop + Send + Sync {
    // Of each line the texts of its rows. Rows are equal where these are.
    ghost shown: { Self → List (List (List ℕ)) };

    /// Equal rows, which no later change of these or of what made them reaches. It allocates nothing, and fails with
    /// `NoMemory` only where the count of holders is full.
    fn share(&self) -> Result<Self, NoMemory>
        ensures { IfOk result (λ shared. shown shared ≡ shown self.now) };

    /// The number of lines.
    fn lines(&self) -> u32
        ensures value { result ≡ length (shown self.now) }
        ensures rows { HaveRows (shown self.now) };

    /// The number of rows of a line.
    fn rows_of(&self, line: u32) -> u32
        requires { line < length (shown self.now) }
        ensures { result ≡ length (line_rows (shown self.now) line) };

    /// The number of rows before a line; of all rows where the line is the number of lines.
    fn rows_before(&self, line: u32) -> u32
        requires { line ≤ length (shown self.now) }
        ensures { result ≡ rows_before (shown self.now) line };

    /// The line of a row, and which of that line's rows it is; `None` exactly past the last row.
    fn line_at(&self, row: u32) -> Option<(u32, u32)>
        ensures { IsLineAt (shown self.now) row result };

    /// The texts of a line's rows from `first` on, as many as there are up to `count`.
    fn row_texts(
        &self,
        alloc: Global,
        line: u32,
        first: u32,
        count: u32,
    ) -> Result<Vec<Text>, NoMemory>
        requires { line < length (shown self.now) }
        ensures { IfOk result (λ texts. texts.items ≡ take count (drop first (line_rows (shown self.now) line))) };

    /// The text of a row of a line.
    fn row_text(&self, alloc: Global, line: u32, row: u32) -> Result<Text, NoMemory>
        requires line { line < length (shown self.now) }
        requires row { row < length (line_rows (shown self.now) line) }
        ensures { IfOk result (λ text. slice_get (line_rows (shown self.now) line) row ≡ Some text) };
}
