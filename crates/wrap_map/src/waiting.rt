//! Which lines are to be wrapped next.
ghost use Rattle.std.specs.Prelude.{◌≡◌, ◌≢◌, ◌+◌, ◌*◌, ◌<◌, ◌≤◌, length};
ghost use Rattle.sum_tree.specs.Bounds.{TakesAtMost};
ghost use Rattle.wrap_map.specs.Bounds.{finding};
ghost use Rattle.wrap_map.specs.Stood.{marks_in, stood_at};
ghost use Rattle.cell_line.specs.Waiting.{AreApart, IsNextIfAny};
ghost use Rattle.wrap_map.specs.inside.Bounds.{looking};
ghost use Rattle.wrap_map.specs.inside.Changes.{IsRunFrom};

use crate::stretches::Stretches;
use cell_line::Run;
use cell_units::Steps;
use cell_units::limits::RUN_LIMIT;

/// The first line that isn't wrapped at the width and that no run of `out` has, with the lines after it of the same
/// kind.
pub fn next_run(lines: &Stretches, width: u32, out: &[Run], steps: &mut Steps) -> Option<Run>
    requires { AreApart out.now }
    ensures next { IsNextIfAny (marks_in lines.now) width out.now result }
    ensures counted { steps.old ≤ steps.new }
    ensures steps { TakesAtMost (finding (length out.now)) (length lines.now) steps.old steps.new }
{
    let count = lines.lines();
    let mut line = 0;
    for run in out {
        if run.count == 0 {
            continue;
        }
        let found = lines.next_other(line, width, steps)?;
        if found < run.first {
            return Some(run_from(lines, width, found, run.first.min(count), steps));
        }
        line = found.max(run.first.saturating_add(run.count));
    }
    let found = lines.next_other(line, width, steps)?;
    Some(run_from(lines, width, found, count, steps))
}

/// The lines from `first` on, up to `end` and up to `RUN_LIMIT` of them, that aren't wrapped at the width.
fn run_from(lines: &Stretches, width: u32, first: u32, end: u32, steps: &mut Steps) -> Run
    // The first line is before the end, which is within the lines, and it has another mark.
    requires some { first < end }
    requires within { end ≤ length lines.now }
    requires waits { (stood_at lines.now first).mark ≢ width }

    // The run ends at the limit, at the end, or before a line that is wrapped at the width.
    ensures run { IsRunFrom lines.now width first end result }

    // The work: a seek for each line of a run at most.
    ensures counted { steps.old ≤ steps.new }
    ensures steps { TakesAtMost looking (length lines.now) steps.old steps.new }
{
    let limit = end.min(first.saturating_add(RUN_LIMIT as u32));
    Run {
        first,
        count: lines.next_at(first, limit, width, steps) - first,
    }
}
