//! How each line is wrapped, kept as one tree of stretches.
ghost use Rattle.std.specs.Prelude.{◌≡◌, ◌+◌, ◌-◌, ◌*◌, ◌^◌, ◌<◌, ◌≤◌, ◌++◌, ◌==◌, [], length, take, replicate, IfOk, OnOk, OnErr};
ghost use Rattle.std.specs.List.{list_all};
ghost use Rattle.sum_tree.specs.Bounds.{TakesAtMost, way};
ghost use Rattle.wrap_map.specs.Bounds.{ListsAtMost, beginning};
ghost use Rattle.cell_line.specs.MarkRuns.{runs_from};
ghost use Rattle.wrap_map.specs.Stood.{IsNextAt, IsOtherIfAny, marks_in, put_in, rows_in, runs_in, stood_at, unwrapped};
ghost use Rattle.wrap_map.specs.inside.Bounds.{PutsAtMost, each_way, two_ways};
ghost use Rattle.wrap_map.specs.inside.Changes.{AreRowsAt};
ghost use Rattle.wrap_map.specs.inside.Extents.{joined_extents};
ghost use Rattle.wrap_map.specs.inside.Gathering.{IsHead, IsTail};
ghost use Rattle.wrap_map.specs.inside.Stretches.{AreStretches, extent_of, spread, stretched};

use crate::extent::{ByLines, ByRows, BySwitches, Extent, switch_between};
use crate::gathering::gather;
use crate::stretch::Stretch;
use cell_line::{Cuts, MarkRun};
use cell_units::{Bias, NoMemory, Steps};
use std::alloc::Global;
use std::marker::Model;
use std::sync::Arc;
use sum_core::Item;
use sum_tree::SumTree;

/// A list of lines, each as it is wrapped. Copies share what they have in common.
pub struct Stretches {
    tree: SumTree<Stretch>,
    /// An empty list, to be lent as the cuts of lines without cuts.
    none: Arc<Cuts>,
}

impl Drop for Stretches {
    fn drop(self) {
        let Stretches { tree: _, none: _ } = self;
    }
}

impl Model for Stretches {
    ghost use Rattle.std.specs.Arc.{arc_value};
    ghost use Rattle.std.specs.Prelude.{◌≡◌, [], List};
    ghost use Rattle.wrap_map.specs.Stood.{Stood};
    ghost use Rattle.wrap_map.specs.inside.Stretches.{AreStretches, spread, stretched};

    ghost Value = { List Stood };

    ghost view = { λ s. spread s.tree };

    ghost invariant = { λ s. AreStretches s.tree × ((arc_value s.none).items ≡ []) };
}

/// The stretch of a line.
fn stretch_of<'a>(tree: &'a SumTree<Stretch>, line: u32, steps: &mut Steps) -> &'a Stretch
    requires { line < length (spread tree.now) }
    ensures stood { result.now.stood ≡ stood_at (spread tree.now) line }
    ensures counted { steps.old ≤ steps.new }
    ensures steps { TakesAtMost way (length tree.now) steps.old steps.new }
{
    match tree.find::<ByLines>(line as u64, Bias::Right, steps).item {
        Some(stretch) => stretch,
        None => unreachable!(),
    }
}

/// A part of one stretch, or nothing, and the place where the stretches that stay end or begin. It has how many rows
/// are before the line at which the stretch is parted.
#[derive(Drop)]
struct Part {
    stretches: Vec<Stretch>,
    at: u32,
    rows: u32,
}

/// The rows of some lines, from the first of them up to the one after them.
#[derive(Clone, Copy)]
pub struct RowRange {
    pub start: u32,
    pub end: u32,
}

/// What lies before a line of the stretch that ends there or has it.
fn part_before(
    alloc: Global,
    tree: &SumTree<Stretch>,
    line: u32,
    steps: &mut Steps,
) -> Result<Part, NoMemory>
    // The tree is one of stretches, and the line is one of theirs or after all.
    requires stretches { AreStretches tree.now }
    requires within { line ≤ length (spread tree.now) }

    // One stretch at most, where those before it end, and the rows of all lines before the line.
    ensures head { IfOk result (λ part. IsHead tree.now line part.stretches.items part.at) }
    ensures rows { IfOk result (λ part. part.rows ≡ rows_in (take line (spread tree.now))) }

    // The work: one way down.
    ensures counted { steps.old ≤ steps.new }
    ensures steps { TakesAtMost way (length tree.now) steps.old steps.new }
{
    let found = tree.find::<ByLines>(line as u64, Bias::Left, steps);
    let mut stretches = Vec::new(alloc);
    let mut rows = found.before.rows;
    if let Some(first) = found.item {
        let lines = line - found.before.lines;
        if lines > 0 {
            let part = first.part(lines)?;
            rows += part.sum().rows;
            stretches.push(part)?;
        }
    }
    Ok(Part {
        stretches,
        at: found.index,
        rows,
    })
}

/// What lies from a line on of the stretch that has it.
fn part_behind(
    alloc: Global,
    tree: &SumTree<Stretch>,
    line: u32,
    steps: &mut Steps,
) -> Result<Part, NoMemory>
    // The tree is one of stretches, and the line is one of theirs or after all.
    requires stretches { AreStretches tree.now }
    requires within { line ≤ length (spread tree.now) }

    // One stretch at most, where those after it begin, and the rows of all lines before the line.
    ensures tail { IfOk result (λ part. IsTail tree.now line part.stretches.items part.at) }
    ensures rows { IfOk result (λ part. part.rows ≡ rows_in (take line (spread tree.now))) }

    // The work: one way down.
    ensures counted { steps.old ≤ steps.new }
    ensures steps { TakesAtMost way (length tree.now) steps.old steps.new }
{
    // For the proof: the number of stretches is a u32, and so is each place.
    let _count = tree.len();
    let found = tree.find::<ByLines>(line as u64, Bias::Right, steps);
    let mut stretches = Vec::new(alloc);
    // Before a line each line of its own stretch has one row.
    let passed = line - found.before.lines;
    let rows = found.before.rows + passed;
    let Some(last) = found.item else {
        return Ok(Part {
            stretches,
            at: found.index,
            rows,
        });
    };
    stretches.push(last.part(last.lines() - passed)?)?;
    Ok(Part {
        stretches,
        at: found.index + 1,
        rows,
    })
}

/// How often the mark changes up to a stretch and where it begins.
fn changes_through(before: Extent, stretch: &Stretch) -> u64
    ensures { result ≡ (joined_extents before (extent_of stretch.now)).switches }
{
    let change = switch_between(before.ends, Some(stretch.ends()));
    before.switches as u64 + change as u64
}

impl Stretches {
    /// So many lines in one row each.
    pub fn new(alloc: Global, count: u32, steps: &mut Steps) -> Result<Stretches, NoMemory>
        ensures made { IfOk result (λ lines. lines ≡ replicate count unwrapped) }
        ensures counted { steps.old ≤ steps.new }
        ensures steps { steps.new ≤ steps.old + beginning }
    {
        let mut stretches = Vec::new(alloc);
        if count > 0 {
            stretches.push(Stretch::uncut(0, count))?;
        }
        let none = Arc::new(alloc, Cuts::new(alloc))?;
        Ok(Stretches {
            tree: SumTree::from_vec(alloc, stretches, steps)?,
            none,
        })
    }

    /// An equal list. It allocates nothing, and fails with `NoMemory` only where the count of holders is full.
    pub fn share(&self) -> Result<Stretches, NoMemory>
        ensures { IfOk result (λ shared. shared ≡ self.now) }
    {
        Ok(Stretches {
            tree: self.tree.share()?,
            none: Arc::try_clone(&self.none)?,
        })
    }

    /// How many lines there are.
    pub fn lines(&self) -> u32
        ensures { result ≡ length self.now }
    {
        self.tree.sum().lines
    }

    /// How many rows all lines have.
    pub fn rows(&self) -> u32
        ensures { result ≡ rows_in self.now }
    {
        self.tree.sum().rows
    }

    /// How many items the list makes: each line with cuts is one, and so is each maximal run of lines
    /// without cuts at one mark.
    pub fn items(&self) -> u32
        ensures { result ≡ runs_in self.now }
    {
        self.tree.len()
    }

    /// The width in cells at which a line is wrapped, 0 where it is in one row.
    pub fn mark(&self, line: u32, steps: &mut Steps) -> u32
        requires { line < length self.now }
        ensures mark { result ≡ (stood_at self.now line).mark }
        ensures counted { steps.old ≤ steps.new }
        ensures steps { TakesAtMost way (length self.now) steps.old steps.new }
    {
        stretch_of(&self.tree, line, steps).mark()
    }

    /// Where a line is cut at its mark.
    pub fn cuts(&self, line: u32, steps: &mut Steps) -> &Cuts
        requires { line < length self.now }
        ensures cuts { result.now.items ≡ (stood_at self.now line).cuts }
        ensures counted { steps.old ≤ steps.new }
        ensures steps { TakesAtMost way (length self.now) steps.old steps.new }
    {
        stretch_of(&self.tree, line, steps).cuts(&self.none)
    }

    /// How many rows are before a line, and before the end.
    pub fn rows_before(&self, line: u32, steps: &mut Steps) -> u32
        requires { line ≤ length self.now }
        ensures rows { result ≡ rows_in (take line self.now) }
        ensures counted { steps.old ≤ steps.new }
        ensures steps { TakesAtMost way (length self.now) steps.old steps.new }
    {
        let found = self.tree.find::<ByLines>(line as u64, Bias::Right, steps);
        // Before a line each line of its own stretch has one row.
        found.before.rows + (line - found.before.lines)
    }

    /// The line that has a row.
    pub fn line_at(&self, row: u32, steps: &mut Steps) -> u32
        requires { row < rows_in self.now }

        // The row is after the rows of the lines before it, and among those up to its end.
        ensures within { result < length self.now }
        ensures begun { rows_in (take result self.now) ≤ row }
        ensures ends { row < rows_in (take (result + 1) self.now) }

        // The work.
        ensures counted { steps.old ≤ steps.new }
        ensures steps { TakesAtMost way (length self.now) steps.old steps.new }
    {
        let found = self.tree.find::<ByRows>(row as u64, Bias::Right, steps);
        let Some(stretch) = found.item else {
            unreachable!()
        };
        found.before.lines + (row - found.before.rows).min(stretch.lines() - 1)
    }

    /// The first line from `line` on whose mark is another than `width`, and `None` exactly where there is none.
    pub fn next_other(&self, line: u32, width: u32, steps: &mut Steps) -> Option<u32>
        ensures other { IsOtherIfAny self.now line width result }
        ensures counted { steps.old ≤ steps.new }
        ensures steps { TakesAtMost two_ways (length self.now) steps.old steps.new }
    {
        let found = self.tree.find::<ByLines>(line as u64, Bias::Right, steps);
        let Some(stretch) = found.item else {
            return None;
        };
        if stretch.mark() != width {
            return Some(line);
        }
        let changes = changes_through(found.before, stretch);
        let other = self.tree.find::<BySwitches>(changes, Bias::Right, steps);
        match other.item {
            Some(_) => Some(other.before.lines),
            None => None,
        }
    }

    /// The first line from `line` on and before `end` that is wrapped at the width, and `end` where there is none.
    pub fn next_at(&self, line: u32, end: u32, width: u32, steps: &mut Steps) -> u32
        // There are lines in between.
        requires some { line < end }
        requires within { end ≤ length self.now }

        // No line before the one that is returned is wrapped at the width.
        ensures at { IsNextAt self.now line end width result }

        // The work: a seek for each line in between at most.
        ensures counted { steps.old ≤ steps.new }
        ensures steps { TakesAtMost (each_way (end - line)) (length self.now) steps.old steps.new }
    {
        let mut found = self.tree.find::<ByLines>(line as u64, Bias::Right, steps);
        while let Some(stretch) = found.item {
            if stretch.mark() == width {
                return found.before.lines.max(line).min(end);
            }
            if found.before.lines + stretch.lines() >= end {
                return end;
            }
            // All lines up to the next change have the mark of this stretch.
            let changes = changes_through(found.before, stretch);
            found = self.tree.find::<BySwitches>(changes, Bias::Right, steps);
        }
        end
    }

    /// Whether all lines are wrapped at the width.
    pub fn are_at(&self, width: u32) -> bool
        ensures { result ≡ list_all (λ mark. mark == width) (marks_in self.now) }
    {
        self.tree.sum().is_at(width)
    }

    /// The maximal runs of lines of one mark other than 0, in order.
    pub fn marks(&self, alloc: Global, steps: &mut Steps) -> Result<Vec<MarkRun>, NoMemory>
        ensures runs { IfOk result (λ runs. runs.items ≡ runs_from 0 (marks_in self.now)) }
        ensures counted { steps.old ≤ steps.new }
        ensures steps { ListsAtMost (marks_in self.now) steps.old steps.new }
    {
        let mut runs = Vec::new(alloc);
        let count = self.lines();
        let mut line = 0;
        while let Some(first) = self.next_other(line, 0, steps) {
            let width = self.mark(first, steps);
            line = self.next_other(first, width, steps).unwrap_or(count);
            runs.push(MarkRun {
                first,
                last: line - 1,
                width,
            })?;
        }
        Ok(runs)
    }

    /// Puts the lines of stretches in the place of those from `start` to `end`, and returns which rows those had.
    pub fn put(
        &mut self,
        alloc: Global,
        start: u32,
        end: u32,
        fresh: Vec<Stretch>,
        steps: &mut Steps,
    ) -> Result<RowRange, NoMemory>
        // The lines are there, and the rows afterwards are u32.
        requires order { start ≤ end }
        requires within { end ≤ length self.old }
        requires rows_fit { rows_in (put_in start end (spread fresh.items) self.old) < 2 ^ 32 }

        // The lines after it, and the rows of those that went.
        ensures put { OnOk result (self.new ≡ put_in start end (spread fresh.items) self.old) }
        ensures rows { IfOk result (AreRowsAt self.old start end) }
        ensures unchanged { OnErr result (self.new ≡ self.old) }

        // The work.
        ensures counted { steps.old ≤ steps.new }
        ensures steps { PutsAtMost start end fresh.items self.old steps.old steps.new }
    {
        let head = part_before(alloc, &self.tree, start, steps)?;
        let tail = part_behind(alloc, &self.tree, end, steps)?;
        let mut stretches = head.stretches;
        gather(&mut stretches, fresh)?;
        gather(&mut stretches, tail.stretches)?;
        self.tree
            .replace(alloc, head.at, tail.at, stretches, steps)?;
        Ok(RowRange {
            start: head.rows,
            end: tail.rows,
        })
    }
}
