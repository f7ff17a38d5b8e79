//! Plain lists as a sheet.
ghost use Rattle.std.specs.Prelude.{◌≡◌, ℕ, ◌+◌, ◌<◌, ◌≤◌, ◌==◌, true, false, length, IfOk};
ghost use Rattle.std.specs.List.{list_all, list_any};
ghost use Rattle.cell_units.specs.declared.limits.TheConstants.{RUN_LIMIT, TEXT_LIMIT};
ghost use Rattle.cell_units.specs.Record.{opened};
ghost use Rattle.cell_units.specs.Text.{clean};
ghost use Rattle.display_sheet.specs.Sheets.{marks_in};
ghost use Rattle.display_sheet.specs.Shown.{unstamped};
ghost use Rattle.cell_line.specs.Waiting.{IsNextIfAny, has_line, waits};

use crate::sheet::{JobSheet, Sheet};
use cell_line::{Cuts, Run};
use cell_units::limits::RUN_LIMIT;
use cell_units::{Bias, Fault, NoMemory, Point, Spot, Steps, Text, TextFault, cleaned, read_text};
use display_sheet::operate::{operate, replace};
use display_sheet::{Buffer, Held, LineSplice, MarkRun, Op, Shown, Splice, Wraps};
use plain_rows::Plain;
use std::alloc::Global;
use std::sync::Arc;

/// A record as plain lists. It has no tree, so its calls count no step.
pub type PlainSheet = display_sheet::Sheet;

/// The sheet of a text.
fn opened_text(alloc: Global, text: &str) -> Result<PlainSheet, NoMemory>
    requires { length text.now ≤ TEXT_LIMIT }
    ensures { IfOk result (λ sheet. sheet ≡ unstamped (opened (clean text.now))) }
{
    let buffer = Buffer::new(alloc, cleaned(alloc, text)?)?;
    PlainSheet::opened(alloc, Arc::new(alloc, buffer)?)
}

/// Whether a run has the line.
fn has_line(run: &Run, line: u32) -> bool
    ensures { result ≡ has_line run.now line }
{
    run.first <= line && line - run.first < run.count
}

/// Whether a run that is out has the line.
fn is_out(out: &[Run], line: u32) -> bool
    ensures { result ≡ list_any (λ run. has_line run line) out.now }
{
    out.iter().any(|run| has_line(run, line))
}

/// Whether the line isn't wrapped at the width, and no run that is out has it.
fn waits(wraps: &Wraps, width: u32, out: &[Run], line: u32) -> bool
    ensures { result ≡ waits (marks_in wraps.now) width out.now line }
{
    if line >= wraps.len() {
        return false;
    }
    if wraps.get(line).mark == width {
        return false;
    }
    !is_out(out, line)
}

/// How many lines from one that waits on wait, at most 128.
fn run_length(wraps: &Wraps, width: u32, out: &[Run], first: u32) -> u32
    requires { waits (marks_in wraps.now) width out.now first ≡ true }
    ensures some { 1 ≤ result }
    ensures few { result ≤ RUN_LIMIT }
    ensures each { (k : ℕ) → k < result →
        waits (marks_in wraps.now) width out.now (first + k) ≡ true }
    ensures no_longer { result < RUN_LIMIT →
        waits (marks_in wraps.now) width out.now (first + result) ≡ false }
{
    // For the proof: the number of lines is a u32, so the line after one that waits is one as well.
    let _ = wraps.len();
    for count in 1..RUN_LIMIT as u32 {
        if !waits(wraps, width, out, first + count) {
            return count;
        }
    }
    RUN_LIMIT as u32
}

/// The first line that waits with those after it that wait, at most 128. None before `from` waits.
fn next_run(wraps: &Wraps, width: u32, from: u32, out: &[Run]) -> Option<Run>
    requires { (line : ℕ) → line < from →
        waits (marks_in wraps.now) width out.now line ≡ false }
    ensures { IsNextIfAny (marks_in wraps.now) width out.now result }
{
    for line in from..wraps.len() {
        if waits(wraps, width, out, line) {
            return Some(Run {
                first: line,
                count: run_length(wraps, width, out, line),
            });
        }
    }
    None
}

/// Whether every line is wrapped at the width.
fn all_at(wraps: &Wraps, width: u32) -> bool
    ensures { result ≡ list_all (λ w. w.mark == width) wraps.now }
{
    for line in 0..wraps.len() {
        if wraps.get(line).mark != width {
            return false;
        }
    }
    true
}

impl Sheet for PlainSheet {
    ghost kept = { λ s. s };

    fn opened(alloc: Global, bytes: &[u8], _steps: &mut Steps) -> Result<PlainSheet, TextFault> {
        Ok(opened_text(alloc, read_text(bytes)?)?)
    }

    fn share(&self) -> Result<PlainSheet, NoMemory> {
        PlainSheet::share(self)
    }

    fn lines(&self) -> u32 {
        // For the proof: the record is lawful, and its text is within the limit.
        self.lawful();
        let _ = self.text().as_str();
        PlainSheet::lines(self)
    }

    fn text_len(&self) -> u32 {
        self.text().as_str().len() as u32
    }

    fn width(&self) -> u32 {
        PlainSheet::width(self)
    }

    fn is_boundary(&self, offset: u32, _steps: &mut Steps) -> bool {
        // For the proof: the record is lawful, so its text is UTF-8.
        self.lawful();
        self.text().is_boundary(offset)
    }

    fn operated(
        &self,
        alloc: Global,
        op: &Op,
        _steps: &mut Steps,
    ) -> Result<(PlainSheet, LineSplice), Fault> {
        match operate(alloc, self, op) {
            Ok(done) => Ok((done.sheet, done.splice)),
            Err(fault) => Err(fault),
        }
    }

    fn replaced(
        &self,
        alloc: Global,
        splice: &Splice,
        _steps: &mut Steps,
    ) -> Result<(PlainSheet, LineSplice), NoMemory> {
        let done = replace(alloc, self, splice)?;
        Ok((done.sheet, done.splice))
    }

    fn next_run(&self, from: u32, out: &[Run], _steps: &mut Steps) -> Option<Run> {
        next_run(self.wraps(), PlainSheet::width(self), from, out)
    }

    fn is_settled(&self) -> bool {
        all_at(self.wraps(), PlainSheet::width(self))
    }

    fn row_count(&self) -> u32 {
        PlainSheet::row_count(self)
    }

    fn row(&self, alloc: Global, row: u32, _steps: &mut Steps) -> Result<Option<Shown>, NoMemory> {
        PlainSheet::row(self, alloc, row)
    }

    fn rows(
        &self,
        alloc: Global,
        first: u32,
        count: u32,
        _steps: &mut Steps,
    ) -> Result<Vec<Shown>, NoMemory> {
        PlainSheet::rows(self, alloc, first, count)
    }

    fn show(
        &self,
        alloc: Global,
        offset: u32,
        bias: Bias,
        _steps: &mut Steps,
    ) -> Result<Spot, NoMemory> {
        PlainSheet::show(self, alloc, offset, bias)
    }

    fn clip(
        &self,
        alloc: Global,
        spot: Spot,
        bias: Bias,
        _steps: &mut Steps,
    ) -> Result<Spot, NoMemory> {
        PlainSheet::clip(self, alloc, spot, bias)
    }

    fn back(
        &self,
        alloc: Global,
        spot: Spot,
        bias: Bias,
        _steps: &mut Steps,
    ) -> Result<u32, NoMemory> {
        PlainSheet::back(self, alloc, spot, bias)
    }

    fn marks(&self, alloc: Global, _steps: &mut Steps) -> Result<Vec<MarkRun>, NoMemory> {
        PlainSheet::marks(self, alloc)
    }

    fn plain(&self, alloc: Global, _steps: &mut Steps) -> Result<Plain, NoMemory> {
        PlainSheet::plain(self, alloc)
    }

    fn offset_of(&self, point: Point, bias: Bias, _steps: &mut Steps) -> u32 {
        PlainSheet::offset_of(self, point, bias)
    }

    fn slice(
        &self,
        alloc: Global,
        start: u32,
        end: u32,
        _steps: &mut Steps,
    ) -> Result<Text, NoMemory> {
        PlainSheet::slice(self, alloc, start, end)
    }
}

impl JobSheet for PlainSheet {
    type Held = Held;

    fn held(&self) -> Result<Held, NoMemory> {
        PlainSheet::held(self)
    }

    fn landed(
        &self,
        alloc: Global,
        _old: &Held,
        _run: Run,
        places: &[Option<u32>],
        wraps: &[Cuts],
        _steps: &mut Steps,
    ) -> Result<PlainSheet, NoMemory> {
        // For the proof: the record is lawful.
        self.lawful();
        let mut sheet = PlainSheet::share(self)?;
        sheet.land(alloc, places, PlainSheet::width(self), wraps)?;
        Ok(sheet)
    }
}
