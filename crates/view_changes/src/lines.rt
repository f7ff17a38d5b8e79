//! The display lines that make place for others, and their rows.
ghost use Rattle.std.specs.Prelude.{◌≡◌, ◌+◌, ◌<◌, ◌≤◌, length};
ghost use Rattle.cell_units.specs.LineCounts.{line_of_row_end, line_of_row_start};
ghost use Rattle.cell_units.specs.Text.{IsBoundary};
ghost use Rattle.row_pieces.specs.Changed.{looks_by_line, rows_of_lines, rows_to};
ghost use Rattle.row_pieces.specs.Operated.{lines_between};

use blocked_rows::blocked_laws;
use cell_units::{Bias, Layer, Steps};
use kept_sheet::Sheet;
use map_sheet::MapSheet;
use plain_rows::SpotRows;
use row_pieces::RowChange;

/// The display line of the start of an offset's row.
fn line_at(sheet: &MapSheet, offset: u32, steps: &mut Steps) -> u32
    requires { IsBoundary sheet.now.text offset }
    ensures line { result ≡ line_of_row_start sheet.now offset }
    ensures counted { steps.old ≤ steps.new }
{
    // For the proof: the record is lawful.
    sheet.lawful();
    let (start, _end) = sheet.text().layer().row_ends(offset);
    sheet.place(start, Bias::Left, steps).0
}

/// The display line of the end of an offset's row.
fn line_to(sheet: &MapSheet, offset: u32, steps: &mut Steps) -> u32
    requires { IsBoundary sheet.now.text offset }
    ensures line { result ≡ line_of_row_end sheet.now offset }
    ensures within { result < length sheet.now.marks }
    ensures counted { steps.old ≤ steps.new }
{
    // For the proof: the record is lawful.
    sheet.lawful();
    let (_start, end) = sheet.text().layer().row_ends(offset);
    sheet.place(end, Bias::Right, steps).0
}

/// The display lines from that of the start of one offset's row to that of the end of another's, and how many are in
/// their place afterwards.
pub(crate) fn lines_between(
    before: &MapSheet,
    after: &MapSheet,
    start: u32,
    end: u32,
    steps: &mut Steps,
) -> RowChange
    requires start { IsBoundary before.now.text start }
    requires end { IsBoundary before.now.text end }
    ensures lines { result ≡ lines_between before.now after.now start end }
    ensures counted { steps.old ≤ steps.new }
{
    // For the proof: the lines are as many as a u32 counts.
    let count = before.lines();
    let from = line_at(before, start, steps);
    let to = line_to(before, end, steps) + 1;
    let below = count - to;
    RowChange {
        from,
        to,
        count: after.lines().saturating_sub(below).saturating_sub(from),
    }
}

/// How many rows the first so many display lines have, those of their blocks too.
pub(crate) fn rows_to(sheet: &MapSheet, line: u32, steps: &mut Steps) -> u32
    requires { line ≤ length sheet.now.marks }
    ensures rows { result ≡ rows_to line (looks_by_line sheet.now) }
    ensures counted { steps.old ≤ steps.new }
{
    // For the proof: the record is lawful, and the blocks at their lines show the rows of the record.
    blocked_laws();
    sheet.lawful();
    sheet.shown().start_of(line, steps)
}

/// The rows of a change of display lines.
pub(crate) fn rows_of_lines(
    before: &MapSheet,
    after: &MapSheet,
    lines: RowChange,
    steps: &mut Steps,
) -> RowChange
    requires replaced { (lines.from ≤ length before.now.marks)
        × (lines.to ≤ length before.now.marks) }
    requires came { lines.from + lines.count ≤ length after.now.marks }
    ensures rows { result
        ≡ rows_of_lines lines (looks_by_line before.now) (looks_by_line after.now) }
    ensures counted { steps.old ≤ steps.new }
{
    // For the proof: the lines are as many as a u32 counts.
    let _count = after.lines();
    let from = rows_to(before, lines.from, steps);
    let to = rows_to(before, lines.to, steps);
    let end = rows_to(after, lines.from + lines.count, steps);
    RowChange {
        from,
        to,
        count: end.saturating_sub(from),
    }
}
