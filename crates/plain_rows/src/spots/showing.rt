//! Where an offset is shown, found in the display lines of a record.
ghost use Rattle.std.specs.Prelude.{◌≡◌, ◌≤◌, IfOk};
ghost use Rattle.cell_units.specs.Text.{IsBoundary};
ghost use Rattle.plain_rows.specs.Spots.{show};

use super::spot_rows::SpotRows;
use cell_units::{Bias, NoMemory, Spot, Steps};
use std::alloc::Global;

/// The row, and the column in cells, where the boundary `offset` of the text is shown (*Spots*).
pub fn show_in<R: SpotRows>(
    alloc: Global,
    rows: &R,
    offset: u32,
    bias: Bias,
    steps: &mut Steps,
) -> Result<Spot, NoMemory>
    requires { IsBoundary (R.kept rows.now).text offset }
    ensures spot { IfOk result (λ spot. spot ≡ show (R.kept rows.now) offset bias) }
    ensures counted { steps.old ≤ steps.new }
{
    // For the proof: the record is lawful, so its rows can be counted.
    let _ = rows.text_len();
    let place = rows.place(offset, bias, steps);
    let line = rows.row_line(alloc, place.0, steps)?;
    let within = line.spot(place.1, bias);
    let first = rows.first_row(place.0, steps);
    Ok(Spot {
        row: first + within.row,
        col: within.col,
    })
}
