//! Where the lines of a run are cut.
ghost use Rattle.std.specs.Prelude.{◌≡◌, ◌+◌, ◌≤◌, length, map, IfOk};
ghost use Rattle.cell_line.specs.Lines.{FitsU32};
ghost use Rattle.cell_units.specs.Lawful.{IsWidth};
ghost use Rattle.wrap_map.specs.Landing.{cuts_of_run};

use cell_line::{Cuts, Lines, Run};
use cell_units::NoMemory;
use std::alloc::Global;

/// Where each line of a run is cut at a width.
pub fn wraps<N: Lines>(
    alloc: Global,
    lines: &N,
    run: Run,
    width: u32,
) -> Result<Vec<Cuts>, NoMemory>
    requires within { run.first + run.count ≤ length (N.elements_by_line lines.now) }
    requires fits { FitsU32 (N.elements_by_line lines.now) }
    requires lawful { IsWidth width }
    ensures { let cuts = cuts_of_run (N.elements_by_line lines.now) run width in
        IfOk result (λ wraps. map (λ cuts. cuts.items) wraps.items ≡ cuts) }
{
    // For the proof: the number of lines is a u32, and so is the end of the run.
    let _lines = lines.lines();
    let mut wraps = Vec::new(alloc);
    for line in run.first..run.first + run.count {
        wraps.push(lines.cuts(alloc, line, width)?)?;
    }
    Ok(wraps)
}
