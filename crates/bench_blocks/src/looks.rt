//! What is timed of snapshots.

use crate::text::scattered;
use cell_units::{NoMemory, Rows, Steps};
use std::alloc::Global;
use test_stages::BlockedText;

/// How many rows a screen has.
const SCREEN: u32 = 50;

/// The number of rows.
pub fn rows(text: &BlockedText) -> u64 {
    text.blocks.shown().row_count() as u64
}

/// Asks for the lines of text rows far from each other, without blocks. It gives their sum.
pub fn lines_of_rows(text: &BlockedText, times: u32) -> u64 {
    let shown = text.late.text.lines.rows();
    let rows = shown.rows_before(shown.lines());
    let mut check: u64 = 0;
    for turn in 0..times {
        let found = shown.line_at(scattered(turn, rows));
        check = check.wrapping_add(found.map_or(0, |(line, _)| line as u64));
    }
    check
}

/// Asks for text rows far from each other, without blocks. It gives how many bytes these have.
pub fn texts_of_rows(alloc: Global, text: &BlockedText, times: u32) -> Result<u64, NoMemory> {
    let shown = text.late.text.lines.rows();
    let rows = shown.rows_before(shown.lines());
    let mut check: u64 = 0;
    for turn in 0..times {
        if let Some((line, row)) = shown.line_at(scattered(turn, rows)) {
            let told = shown.row_text(alloc, line, row)?;
            check = check.wrapping_add(told.as_str().len() as u64);
        }
    }
    Ok(check)
}

/// Asks at which rows lines far from each other begin. It gives their sum.
pub fn rows_of_lines(text: &BlockedText, times: u32, steps: &mut Steps) -> u64 {
    let lines = text.late.text.lines.rows().lines();
    let mut check: u64 = 0;
    for turn in 0..times {
        let line = scattered(turn, lines);
        if line < lines {
            check = check.wrapping_add(text.blocks.shown().row_of(line, 0, steps) as u64);
        }
    }
    check
}

/// Asks which lines are at rows far from each other. It gives their sum.
pub fn texts_at_rows(text: &BlockedText, times: u32, steps: &mut Steps) -> u64 {
    let shown = text.blocks.shown();
    let rows = shown.row_count();
    let mut check: u64 = 0;
    for turn in 0..times {
        let found = shown.text_at(scattered(turn, rows), steps);
        check = check.wrapping_add(found.map_or(0, |(line, _)| line as u64));
    }
    check
}

/// Asks for rows far from each other. It gives how many bytes these have.
pub fn rows_at(
    alloc: Global,
    text: &BlockedText,
    times: u32,
    steps: &mut Steps,
) -> Result<u64, NoMemory> {
    let shown = text.blocks.shown();
    let rows = shown.row_count();
    let mut check: u64 = 0;
    for turn in 0..times {
        if let Some(row) = shown.row(alloc, scattered(turn, rows), steps)? {
            check = check.wrapping_add(row.text.as_str().len() as u64);
        }
    }
    Ok(check)
}

/// Reads screens that begin at rows far from each other. It gives how many bytes their rows have.
pub fn screens(
    alloc: Global,
    text: &BlockedText,
    times: u32,
    steps: &mut Steps,
) -> Result<u64, NoMemory> {
    let shown = text.blocks.shown();
    let rows = shown.row_count();
    let mut check: u64 = 0;
    for turn in 0..times {
        let first = scattered(turn, rows);
        for row in shown.rows(alloc, first, SCREEN, steps)? {
            check = check.wrapping_add(row.text.as_str().len() as u64);
        }
    }
    Ok(check)
}

/// Reads the same screens row by row.
pub fn screens_by_row(
    alloc: Global,
    text: &BlockedText,
    times: u32,
    steps: &mut Steps,
) -> Result<u64, NoMemory> {
    let shown = text.blocks.shown();
    let rows = shown.row_count();
    let mut check: u64 = 0;
    for turn in 0..times {
        let first = scattered(turn, rows);
        for behind in 0..SCREEN {
            let at = first.saturating_add(behind);
            if let Some(row) = shown.row(alloc, at, steps)? {
                check = check.wrapping_add(row.text.as_str().len() as u64);
            }
        }
    }
    Ok(check)
}
