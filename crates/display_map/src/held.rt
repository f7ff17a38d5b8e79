//! Jobs on the lines that a display holds.
ghost use Rattle.std.specs.Prelude.{◌≡◌};
ghost use Rattle.wrap_workers.specs.Jobs.{IsLawful};

use cell_line::{Lines, Run};
use wrap_workers::Job;

/// A job on these lines.
pub(crate) fn job<N: Lines>(number: u64, lines: N, run: Run, width: u32) -> Job<N>
    requires { IsLawful (N.elements_by_line lines) run width }
    ensures { result ≡ record { number = number; lines = lines; run = run; width = width } }
{
    Job::new(number, lines, run, width)
}
