//! Jobs that are out, and where their lines are now.
ghost use Rattle.std.specs.Prelude.{◌≡◌, ℕ, ◌++◌, length, ◌+◌, ◌-◌, ◌==◌, ◌^◌, ◌<◌, ◌≤◌, ◌∷◌, [], not, All, map, filter, find, IfOk, OnOk};
ghost use Rattle.std.specs.Option.{option_copied};
ghost use Rattle.cell_line.specs.Waiting.{AreApart};
ghost use Rattle.display_map.specs.Displays.{IsNextRun, NoneWaits};
ghost use Rattle.kept_sheet.specs.Kept.{IsRising, standing};
ghost use Rattle.display_map.specs.OutRuns.{any_has, is_in, lines_out};
ghost use Rattle.display_map.specs.Outs.{AreBelow, carried, carried_out, some_places, waiting_in};

use cell_line::Run;
use cell_units::{NoMemory, Steps};
use display_sheet::LineSplice;
use kept_sheet::Sheet;
use std::alloc::Global;
use std::marker::Model;

/// A job that was sent and hasn't landed. Of each line of its run it has the line that it is now, if it is still there.
#[derive(Drop)]
pub(crate) struct Out {
    number: u64,
    width: u32,
    lines: Vec<Option<u32>>,
}

impl Model for Out {
    ghost use Rattle.display_map.specs.Outs.{OutParts};

    ghost Value = { OutParts };

    ghost view = { λ o. record { number = o.number; width = o.width; lines = o.lines.items } };
}

impl Out {
    /// A job of the lines of a run, which was just sent.
    pub(crate) fn new(
        alloc: Global,
        number: u64,
        width: u32,
        first: u32,
        count: u32,
    ) -> Result<Out, NoMemory>
        requires { first + count < 2 ^ 32 }
        ensures { IfOk result (λ out.
            out ≡ record { number = number; width = width; lines = some_places first count }) }
    {
        let mut lines = Vec::with_capacity(alloc, count as usize)?;
        for i in 0..count {
            lines.push(Some(first + i))?;
        }
        Ok(Out {
            number,
            width,
            lines,
        })
    }

    fn copy(&self, alloc: Global) -> Result<Out, NoMemory>
        ensures { IfOk result (λ copy. copy ≡ self.now) }
    {
        Ok(Out {
            number: self.number,
            width: self.width,
            lines: Vec::from_slice(alloc, &self.lines)?,
        })
    }

    pub(crate) fn number(&self) -> u64
        ensures { result ≡ self.now.number }
    {
        self.number
    }

    pub(crate) fn width(&self) -> u32
        ensures { result ≡ self.now.width }
    {
        self.width
    }

    /// Of each line of the run the line that it is now.
    pub(crate) fn lines(&self) -> &[Option<u32>]
        ensures { result.now ≡ self.now.lines }
    {
        self.lines.as_slice()
    }
}

/// Where a line of `total` goes, which make place for `after`.
fn carried(line: Option<u32>, splice: LineSplice, total: u32, after: u32) -> Option<u32>
    // The line and the splice lie within the `total` lines, and `after` is how many there are then.
    requires below { AreBelow total (line ∷ []) }
    requires order { splice.first ≤ splice.end }
    requires within { splice.end ≤ total }
    requires after { after ≡ splice.first + (splice.count + (total - splice.end)) }

    // A line before the splice stays, one in it is gone, and one after it moves along.
    ensures { result ≡ carried splice.first splice.end splice.count line }
{
    let line = line?;
    if line < splice.first {
        Some(line)
    } else if line < splice.end {
        None
    } else {
        // It keeps its distance from the last.
        Some(after - (total - line))
    }
}

/// Where the lines of a job go.
fn carry_lines(lines: &mut [Option<u32>], splice: LineSplice, total: u32, after: u32)
    // The job's lines and the splice lie within the `total` lines, and `after` is how many there are then.
    requires below { AreBelow total lines.old }
    requires order { splice.first ≤ splice.end }
    requires within { splice.end ≤ total }
    requires after { after ≡ splice.first + (splice.count + (total - splice.end)) }

    // Each goes as a single line does, and keeps its place in the job.
    ensures { lines.new ≡ map (carried splice.first splice.end splice.count) lines.old }
{
    for i in 0..lines.len() {
        lines[i] = carried(lines[i], splice, total, after);
    }
}

/// Where the lines of all jobs go. There were `total` display lines, and there are `after` now.
pub(crate) fn carry(outs: &mut [Out], splice: LineSplice, total: u32, after: u32)
    // The lines of every job and the splice lie within the old lines, and `after` counts the new ones.
    requires below { All (λ out. AreBelow total out.lines) outs.old }
    requires order { splice.first ≤ splice.end }
    requires within { splice.end ≤ total }
    requires after { after ≡ splice.first + (splice.count + (total - splice.end)) }

    // The jobs stay in order, each with its number and its width.
    ensures { outs.new ≡ map (carried_out splice.first splice.end splice.count) outs.old }
{
    for out in outs.iter_mut() {
        carry_lines(&mut out.lines, splice, total, after);
    }
}

/// The job of this number, if it is out.
pub(crate) fn found(outs: &[Out], number: u64) -> Option<&Out>
    ensures { option_copied result ≡ find (λ out. out.number == number) outs.now }
{
    for out in outs {
        if out.number == number {
            return Some(out);
        }
    }
    None
}

/// The jobs without the one of this number.
pub(crate) fn remove(outs: &mut Vec<Out>, number: u64)
    ensures { outs.new.items ≡ filter (λ out. not (out.number == number)) outs.old.items }
{
    outs.retain(|out| out.number() != number);
}

/// The same jobs once more.
pub(crate) fn copied(alloc: Global, outs: &[Out]) -> Result<Vec<Out>, NoMemory>
    ensures { IfOk result (λ copy. copy.items ≡ outs.now) }
{
    let mut copy = Vec::with_capacity(alloc, outs.len())?;
    for out in outs {
        copy.push(out.copy(alloc)?)?;
    }
    Ok(copy)
}

/// Appends the lines at places, where they are still there.
fn push_lines(lines: &mut Vec<u32>, places: &[Option<u32>]) -> Result<(), NoMemory>
    ensures { OnOk result (lines.new.items ≡ lines.old.items ++ standing places.now) }
{
    for i in 0..places.len() {
        if let Some(line) = places[i] {
            lines.push(line)?;
        }
    }
    Ok(())
}

/// The lines of the jobs of a width.
fn lines_out(alloc: Global, outs: &[Out], width: u32) -> Result<Vec<u32>, NoMemory>
    ensures { IfOk result (λ lines. lines.items ≡ lines_out width outs.now) }
{
    let mut lines = Vec::new(alloc);
    for out in outs {
        if out.width == width {
            push_lines(&mut lines, &out.lines)?;
        }
    }
    Ok(lines)
}

/// Puts lines in order, each once.
fn put_in_order(lines: &mut Vec<u32>)
    ensures rising { IsRising 0 lines.new.items }
    ensures same { (line : ℕ) → is_in line lines.new.items ≡ is_in line lines.old.items }
    ensures within { (n : ℕ) → All (λ a. a < n) lines.old.items →
        All (λ a. a < n) lines.new.items }
{
    lines.sort_unstable();
    lines.dedup();
}

/// Lines in order as runs.
fn joined(alloc: Global, lines: &[u32]) -> Result<Vec<Run>, NoMemory>
    requires rising { IsRising 0 lines.now }
    requires small { All (λ a. a < 2 ^ 32 - 1) lines.now }
    ensures apart { IfOk result (λ runs. AreApart runs.items) }
    ensures same { IfOk result (λ runs. (line : ℕ) →
        any_has line runs.items ≡ is_in line lines.now) }
{
    let mut runs = Vec::new(alloc);
    let mut run = Run { first: 0, count: 0 };
    for i in 0..lines.len() {
        let line = lines[i];
        if line == run.first + run.count {
            run.count += 1;
        } else {
            runs.push(run)?;
            run = Run {
                first: line,
                count: 1,
            };
        }
    }
    runs.push(run)?;
    Ok(runs)
}

/// The runs of the lines of the jobs of a width. There are `total` display lines.
fn runs_out(alloc: Global, outs: &[Out], width: u32, total: u32) -> Result<Vec<Run>, NoMemory>
    requires { All (λ out. AreBelow total out.lines) outs.now }
    ensures apart { IfOk result (λ runs. AreApart runs.items) }
    ensures same { IfOk result (λ runs. (line : ℕ) →
        any_has line runs.items ≡ is_in line (lines_out width outs.now)) }
{
    let mut lines = lines_out(alloc, outs, width)?;
    put_in_order(&mut lines);
    Ok(joined(alloc, lines.as_slice())?)
}

/// The first line that waits with the waiting lines after it, at most 128; `None` where none waits. None of the first
/// `from` does.
pub(crate) fn next_run<S: Sheet>(
    alloc: Global,
    sheet: &S,
    outs: &[Out],
    from: u32,
    steps: &mut Steps,
) -> Result<Option<Run>, NoMemory>
    // The lines of every job lie within the sheet's, and a search may start at `from`.
    requires below { All (λ out. AreBelow (length (S.kept sheet.now).marks) out.lines) outs.now }
    requires none { NoneWaits (waiting_in (S.kept sheet.now) outs.now) from }

    ensures next { IfOk result (IsNextRun (waiting_in (S.kept sheet.now) outs.now)) }
    ensures counted { steps.old ≤ steps.new }
{
    let runs = runs_out(alloc, outs, sheet.width(), sheet.lines())?;
    Ok(sheet.next_run(from, runs.as_slice(), steps))
}
