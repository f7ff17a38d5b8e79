//! The display lines that a landing wrapped: one pass over the runs of lines that are wrapped at one width.
ghost use Rattle.std.specs.Prelude.{◌≡◌, ◌<◌, ◌≤◌, ℕ, length};
ghost use Rattle.plain_rows.specs.Spots.{mark_at};
ghost use Rattle.view_changes.specs.Events.{rewrapped};
ghost use Rattle.view_changes.specs.inside.Flags.{GoFromFirstToLast};

use cell_units::Steps;
use kept_sheet::Sheet;
use map_sheet::MapSheet;
use row_pieces::RowChange;

/// The width in cells at which a line is wrapped, 0 where it is in one row, and the end of the lines from it on that are
/// wrapped at it.
fn width_run(sheet: &MapSheet, line: u32, steps: &mut Steps) -> (u32, u32)
    requires { line < length sheet.now.marks }
    ensures some { line < result.1 }
    ensures within { result.1 ≤ length sheet.now.marks }
    ensures width { (k : ℕ) → line ≤ k → k < result.1 → (mark_at sheet.now k).width ≡ result.0 }
    ensures counted { steps.old ≤ steps.new }
{
    // For the proof: the record is lawful.
    sheet.lawful();
    let rows = sheet.wrapped().rows();
    let width = rows.mark(line, steps);
    let end = rows.next_other(line, width, steps).unwrap_or(sheet.lines());
    (width, end)
}

/// The lines from the first that landed to the last make place for as many. None does where none landed.
///
/// It goes over the runs of lines that are at one width both before and after.
pub(crate) fn landed_lines(before: &MapSheet, after: &MapSheet, steps: &mut Steps) -> RowChange
    requires { length before.now.marks ≡ length after.now.marks }
    ensures lines { GoFromFirstToLast (rewrapped before.now after.now) result }
    ensures counted { steps.old ≤ steps.new }
{
    let count = before.lines();
    let mut from = 0;
    let mut to = 0;
    let mut line = 0;
    'runs: while line < count {
        let (old, old_end) = width_run(before, line, steps);
        let (new, new_end) = width_run(after, line, steps);
        let end = old_end.min(new_end);
        if old != new {
            if to == 0 {
                from = line;
            }
            to = end;
        }
        line = end;
    }
    RowChange {
        from,
        to,
        count: to - from,
    }
}
