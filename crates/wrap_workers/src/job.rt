//! A job, and what it gives.
ghost use Rattle.std.specs.Prelude.{◌≡◌, List};
ghost use Rattle.wrap_workers.specs.Jobs.{IsLawful, places_of, wraps_of};

use cell_line::{Cuts, Lines, Run};
use std::marker::Model;

/// A run of 1 to 128 lines that is to be wrapped at a lawful width.
#[derive(Drop)]
pub struct Job<N: Lines> {
    number: u64,
    lines: N,
    run: Run,
    width: u32,
}

impl<N: Lines> Model for Job<N> {
    ghost use Rattle.wrap_workers.specs.Jobs.{IsLawful, JobParts};

    ghost Value = { JobParts N };

    ghost view = { λ j. record { number = j.number; lines = j.lines; run = j.run; width = j.width } };

    ghost invariant = { λ j. IsLawful (N.elements_by_line j.lines) j.run j.width };
}

impl<N: Lines> Job<N> {
    /// A job of this number: the lines of the run, which has 1 to 128 of them. The width is 0 or 2 to 10,000 cells. The
    /// counts of lines and elements, and the cells of each line, fit u32.
    pub fn new(number: u64, lines: N, run: Run, width: u32) -> Job<N>
        requires { IsLawful (N.elements_by_line lines) run width }
        ensures { result ≡ record { number = number; lines = lines; run = run; width = width } }
    {
        Job {
            number,
            lines,
            run,
            width,
        }
    }

    /// The number that its owner gave it.
    pub fn number(&self) -> u64
        ensures { result ≡ self.now.number }
    {
        self.number
    }

    /// The lines among which its run lies.
    pub fn lines(&self) -> &N
        ensures { result.now ≡ self.now.lines }
    {
        &self.lines
    }

    /// The lines that it wraps: 1 to 128 of its lines.
    pub fn run(&self) -> Run
        ensures value { result ≡ self.now.run }
        ensures lawful { IsLawful (N.elements_by_line self.now.lines) self.now.run self.now.width }
    {
        self.run
    }

    /// The width in cells.
    pub fn width(&self) -> u32
        ensures { result ≡ self.now.width }
    {
        self.width
    }
}

/// A job that was done, with the cuts of each line of its run.
#[derive(Drop)]
pub struct Done<N: Lines> {
    job: Job<N>,
    wraps: Vec<Cuts>,
}

impl<N: Lines> Model for Done<N> {
    ghost use Rattle.std.specs.Prelude.{◌≡◌};
    ghost use Rattle.wrap_workers.specs.Jobs.{DoneParts, places_of, wraps_of};

    ghost Value = { DoneParts N };

    ghost view = { λ d. record { job = d.job; wraps = places_of d.wraps.items } };

    ghost invariant = { λ d. places_of d.wraps.items ≡ wraps_of (N.elements_by_line d.job.lines) d.job.run d.job.width };
}

impl<N: Lines> Done<N> {
    /// The job, with the cuts of its lines.
    pub(crate) fn new(job: Job<N>, wraps: Vec<Cuts>) -> Done<N>
        requires { places_of wraps.items
            ≡ wraps_of (N.elements_by_line job.lines) job.run job.width }
        ensures { result.job ≡ job }
    {
        Done { job, wraps }
    }

    /// The job that was done.
    pub fn job(&self) -> &Job<N>
        ensures { result.now ≡ self.now.job }
    {
        &self.job
    }

    /// The cuts of each line of the job's run, in order, at the job's width.
    pub fn wraps(&self) -> &[Cuts]
        ensures value { places_of result.now ≡ self.now.wraps }
        ensures cuts { places_of result.now
            ≡ wraps_of (N.elements_by_line self.now.job.lines)
            self.now.job.run self.now.job.width }
    {
        self.wraps.as_slice()
    }
}

/// What came of a job.
#[derive(Drop)]
pub enum Finished<N: Lines> {
    /// It was done.
    Done(Done<N>),
    /// There was no memory for its cuts.
    Short(Job<N>),
}
