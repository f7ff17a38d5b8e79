//! Numbers of rows, as the tree of stops sums them.
use sum_core::{Count, Measure, Summary};

/// A number of rows.
#[derive(Clone, Copy, Debug, PartialEq, Eq)]
pub(crate) struct RowCount {
    pub rows: u32,
}

impl Summary for RowCount {
    ghost use Rattle.block_map.specs.RowCounts.{no_rows, more_rows, RowsFit, row_laws};

    ghost empty = { no_rows };

    ghost joined = { more_rows };

    ghost fits = { RowsFit };

    ghost laws = { row_laws };

    fn zero() -> RowCount {
        RowCount { rows: 0 }
    }

    fn plus(self, other: RowCount) -> RowCount {
        RowCount {
            rows: self.rows + other.rows,
        }
    }
}

/// The number of rows, as a measure.
pub(crate) struct ByRows;

impl Measure<RowCount> for ByRows {
    ghost use Rattle.block_map.specs.RowCounts.{rows_in, row_measure};

    ghost number = { rows_in };

    ghost measure_laws = { row_measure };

    fn of(sum: RowCount) -> u32 {
        sum.rows
    }
}

impl Count<RowCount> for ByRows {
    ghost use Rattle.block_map.specs.RowCounts.{row_counts};

    ghost count_laws = { row_counts };
}
