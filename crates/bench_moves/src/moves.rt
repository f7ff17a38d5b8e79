//! Carets and selections, from spots all over the rows.
use cell_units::{Motion, NoMemory, Spot, Steps};
use display_map::View;
use std::alloc::Global;
use view_moves::{select, step};

/// The spot of a number: rows that are far apart, and columns up to 80.
fn spot(number: u32, rows: u32) -> Spot {
    let far = u64::from(number) * 7919;
    Spot {
        row: (far % u64::from(rows.max(1))) as u32,
        col: (u64::from(number) * 31 % 80) as u32,
    }
}

/// Moves a caret so often, each time from another spot. The check adds the rows and columns to which it is led.
pub fn carets(
    alloc: Global,
    view: &View,
    motion: Motion,
    times: u32,
    steps: &mut Steps,
) -> Result<u64, NoMemory> {
    let rows = view.row_count();
    let mut check = 0u64;
    for number in 0..times {
        let from = spot(number, rows);
        let caret = step(alloc, view, from, from.col, motion, steps)?;
        let place = u64::from(caret.spot.row) + u64::from(caret.spot.col);
        check = check.wrapping_add(place);
    }
    Ok(check)
}

/// Selects fifty rows so often, each time from another spot. The check adds how many spans there are.
pub fn selections(
    alloc: Global,
    view: &View,
    times: u32,
    steps: &mut Steps,
) -> Result<u64, NoMemory> {
    let rows = view.row_count();
    let mut check = 0u64;
    for number in 0..times {
        let one = spot(number, rows);
        let other = Spot {
            row: one.row.saturating_add(49),
            col: one.col,
        };
        let selection = select(alloc, view, one, other, steps)?;
        check = check.wrapping_add(selection.spans.len() as u64);
    }
    Ok(check)
}
