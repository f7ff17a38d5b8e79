//! What is timed of lines and snapshots.

use crate::text::scattered;
use cell_line::{Lines, Run};
use cell_units::limits::RUN_LIMIT;
use cell_units::{NoMemory, Rows};
use std::alloc::Global;
use test_stages::{Shown, StagedText};

/// The number of rows.
pub fn rows(shown: &Shown) -> u64 {
    shown.rows_before(shown.lines()) as u64
}

/// Cuts all lines at the width, so many together as are wrapped at a time. It gives the number of cuts.
pub fn cuts(alloc: Global, text: &StagedText) -> Result<u64, NoMemory> {
    let mut count: u64 = 0;
    let lines = text.lines.lines().lines();
    let most = RUN_LIMIT as u32;
    let mut first = 0;
    for _ in 0..lines {
        let run = Run {
            first,
            count: most.min(lines - first),
        };
        for cuts in text.cuts(alloc, run)? {
            count = count.wrapping_add(cuts.len() as u64);
        }
        first += run.count;
    }
    Ok(count)
}

/// Asks for the lines of rows far from each other. It gives their sum.
pub fn lines_of_rows(shown: &Shown, times: u32) -> u64 {
    let rows = shown.rows_before(shown.lines());
    let mut check: u64 = 0;
    for turn in 0..times {
        let found = shown.line_at(scattered(turn, rows));
        check = check.wrapping_add(found.map_or(0, |(line, _)| line as u64));
    }
    check
}

/// Asks how many rows are before lines far from each other. It gives their sum.
pub fn rows_before_lines(shown: &Shown, times: u32) -> u64 {
    let lines = shown.lines();
    let mut check: u64 = 0;
    for turn in 0..times {
        check = check.wrapping_add(shown.rows_before(scattered(turn, lines)) as u64);
    }
    check
}
