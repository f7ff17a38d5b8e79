//! Where an offset of a record is shown, and which offset a spot shows.
ghost use Rattle.std.specs.Prelude.{◌≡◌, ◌≤◌, length, IfOk};
ghost use Rattle.cell_units.specs.Text.{IsBoundary};
ghost use Rattle.cell_units.specs.Lawful.{IsLawful};
ghost use Rattle.plain_rows.specs.Plain.{record_of};
ghost use Rattle.plain_rows.specs.Spots.{back, clip, show};
ghost use Rattle.plain_rows.specs.inside.SpotRows.{IsLaid};

use crate::folded_lines::FoldedLines;
use crate::plain::Plain;
use cell_units::limits::LAID_LIMIT;
use cell_units::{Bias, NoMemory, Spot, Steps};
use std::alloc::Global;

pub mod laid_rows;
pub mod offsets;
pub mod row_counts;
pub mod row_line;
pub mod searching;
pub mod showing;
pub mod spot_rows;

use laid_rows::LaidRows;
use offsets::back_in;
use row_counts::first_rows;
use searching::clip_in;
use showing::show_in;

/// What is laid out of a record to look offsets and spots up.
#[derive(Drop)]
struct Laid {
    lines: FoldedLines,
    first_rows: Vec<u32>,
}

/// Lays a record out.
fn lay_out(alloc: Global, plain: &Plain) -> Result<Laid, NoMemory>
    requires lawful { IsLawful (record_of plain.now) }
    requires size { length plain.now.text ≤ LAID_LIMIT }
    ensures { IfOk result (λ laid. IsLaid (record_of plain.now) laid.lines laid.first_rows.items) }
{
    let lines = FoldedLines::new(alloc, &plain.source())?;
    let first_rows = first_rows(alloc, plain, &lines)?;
    Ok(Laid { lines, first_rows })
}

impl Laid {
    /// The rows of the record that was laid out.
    fn rows<'a>(&'a self, plain: &'a Plain) -> LaidRows<'a>
        requires { IsLaid (record_of plain.now) self.now.lines self.now.first_rows.items }
        ensures { result ≡ record_of plain.now }
    {
        LaidRows {
            source: plain.source(),
            blocks: plain.blocks.as_slice(),
            tab: plain.tab,
            width: plain.width,
            lines: &self.lines,
            widths: plain.marks.as_slice(),
            first_rows: self.first_rows.as_slice(),
        }
    }
}

/// The row, and the column in cells, where the boundary `offset` of the text is shown (*Spots*).
pub fn show(alloc: Global, plain: &Plain, offset: u32, bias: Bias) -> Result<Spot, NoMemory>
    requires lawful { IsLawful (record_of plain.now) }
    requires size { length plain.now.text ≤ LAID_LIMIT }
    requires boundary { IsBoundary (record_of plain.now).text offset }
    ensures { IfOk result (λ spot. spot ≡ show (record_of plain.now) offset bias) }
{
    let laid = lay_out(alloc, plain)?;
    let rows = laid.rows(plain);
    show_in(alloc, &rows, offset, bias, &mut Steps::new())
}

/// The nearest spot at which some offset is shown (*Spots*).
pub fn clip(alloc: Global, plain: &Plain, spot: Spot, bias: Bias) -> Result<Spot, NoMemory>
    requires lawful { IsLawful (record_of plain.now) }
    requires size { length plain.now.text ≤ LAID_LIMIT }
    ensures { IfOk result (λ nearest. nearest ≡ clip (record_of plain.now) spot bias) }
{
    let laid = lay_out(alloc, plain)?;
    let rows = laid.rows(plain);
    clip_in(alloc, &rows, spot, bias, &mut Steps::new())
}

/// The least offset in bytes (Left) or the greatest (Right) that is shown at the nearest such spot (*Spots*).
pub fn back(alloc: Global, plain: &Plain, spot: Spot, bias: Bias) -> Result<u32, NoMemory>
    requires lawful { IsLawful (record_of plain.now) }
    requires size { length plain.now.text ≤ LAID_LIMIT }
    ensures { IfOk result (λ offset. offset ≡ back (record_of plain.now) spot bias) }
{
    let laid = lay_out(alloc, plain)?;
    let rows = laid.rows(plain);
    back_in(alloc, &rows, spot, bias, &mut Steps::new())
}
