//! Runs of lines that are wrapped at one width.
ghost use Rattle.std.specs.Prelude.{◌≡◌, ◌++◌, map, IfOk, OnOk};
ghost use Rattle.cell_line.specs.MarkRuns.{runs_from};
ghost use Rattle.display_sheet.specs.Windows.{run_or_none};

use crate::wraps::Wraps;
use cell_line::MarkRun;
use cell_units::NoMemory;
use std::alloc::Global;

/// Appends a run of wrapped lines; those at width 0 are none.
fn push_run(runs: &mut Vec<MarkRun>, run: MarkRun) -> Result<(), NoMemory>
    ensures { OnOk result (runs.new.items ≡ runs.old.items ++ run_or_none run) }
{
    if run.width != 0 {
        runs.push(run)?;
    }
    Ok(())
}

/// The maximal runs of lines that are wrapped at one width in cells. Lines are counted from 0.
pub fn mark_runs(alloc: Global, wraps: &Wraps) -> Result<Vec<MarkRun>, NoMemory>
    ensures { IfOk result (λ runs. runs.items ≡ runs_from 0 (map (λ w. w.mark) wraps.now)) }
{
    let mut runs = Vec::new(alloc);
    let mut run = MarkRun {
        first: 0,
        last: 0,
        width: 0,
    };
    for line in 0..wraps.len() {
        let width = wraps.get(line).mark;
        if width != run.width {
            push_run(&mut runs, run)?;
            run = MarkRun {
                first: line,
                last: line,
                width,
            };
        }
        run.last = line;
    }
    push_run(&mut runs, run)?;
    Ok(runs)
}
