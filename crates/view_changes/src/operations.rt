//! The rows that an operation replaced.
ghost use Rattle.std.specs.Prelude.{◌≡◌, ◌≤◌};
ghost use Rattle.cell_units.specs.Lawful.{IsAllowed};
ghost use Rattle.display_sheet.specs.Changes.{operation_of, replacement};
ghost use Rattle.view_changes.specs.Operations.{rows_replaced};
ghost use Rattle.view_changes.specs.inside.Reaches.{IsAfter, all_rows};

use crate::in_turn::NO_ROW;
use crate::lines::{lines_between, rows_of_lines};
use crate::own_rows::own_rows;
use crate::reach::{Reach, reach_of};
use cell_units::Steps;
use display_map::{Op, Splice};
use kept_sheet::Sheet;
use map_sheet::MapSheet;
use row_pieces::RowChange;

/// The rows that a replacement of the text replaced, which led from the one record to the other.
pub(crate) fn spliced_rows(
    before: &MapSheet,
    after: &MapSheet,
    splice: &Splice,
    steps: &mut Steps,
) -> RowChange
    requires allowed { IsAllowed (replacement splice.now) before.now }
    requires after { IsAfter (replacement splice.now) before.now after.now }
    ensures rows { result ≡ rows_replaced (replacement splice.now) before.now }
    ensures counted { steps.old ≤ steps.new }
{
    // For the proof: the records are lawful.
    before.lawful();
    after.lawful();
    let lines = lines_between(before, after, splice.start, splice.end, steps);
    rows_of_lines(before, after, lines, steps)
}

/// All rows make place for all rows.
fn all_rows(before: &MapSheet, after: &MapSheet, steps: &mut Steps) -> RowChange
    ensures rows { result ≡ all_rows before.now after.now }
    ensures counted { steps.old ≤ steps.new }
{
    let lines = RowChange {
        from: 0,
        to: before.lines(),
        count: after.lines(),
    };
    rows_of_lines(before, after, lines, steps)
}

/// The rows that an operation replaced, which led from the one record to the other.
pub(crate) fn operated_rows(
    before: &MapSheet,
    after: &MapSheet,
    op: &Op,
    steps: &mut Steps,
) -> RowChange
    requires allowed { IsAllowed (operation_of op.now) before.now }
    requires after { IsAfter (operation_of op.now) before.now after.now }
    ensures rows { result ≡ rows_replaced (operation_of op.now) before.now }
    ensures counted { steps.old ≤ steps.new }
{
    // For the proof: the records are lawful.
    before.lawful();
    after.lawful();
    match reach_of(before, op, steps) {
        Reach::Rows(start, end) => {
            let lines = lines_between(before, after, start, end, steps);
            rows_of_lines(before, after, lines, steps)
        }
        Reach::EachLine => all_rows(before, after, steps),
        Reach::NoLine => NO_ROW,
        Reach::NewBlock(id) => match own_rows(after, id, steps) {
            Some((from, count)) => RowChange {
                from,
                to: from,
                count,
            },
            None => unreachable!(),
        },
        Reach::OldBlock(id) => match own_rows(before, id, steps) {
            Some((from, count)) => RowChange {
                from,
                to: from + count,
                count: 0,
            },
            None => NO_ROW,
        },
    }
}
