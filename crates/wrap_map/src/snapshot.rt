//! Lines as they were wrapped at one moment.
ghost use Rattle.std.specs.Prelude.{◌≡◌, ◌+◌, ◌*◌, ◌^◌, ◌<◌, ◌≤◌, length, IfOk};
ghost use Rattle.sum_tree.specs.Bounds.{TakesAtMost, way};
ghost use Rattle.wrap_map.specs.Bounds.{ListsAtMost};
ghost use Rattle.wrap_map.specs.Standing.{cuts_at, mark_at, shown_rows, stood_of};
ghost use Rattle.wrap_map.specs.Stood.{IsOtherIfAny};
ghost use Rattle.wrap_map.specs.inside.Bounds.{two_ways};
ghost use Rattle.cell_line.specs.MarkRuns.{runs_from};

use crate::stretches::Stretches;
use cell_line::{Cuts, Lines, MarkRun};
use cell_units::{NoMemory, Rows, Steps, Text};
use std::alloc::Global;
use std::marker::Model;

/// Lines as they are wrapped. Copies share what they have in common, and no later change of the map is seen.
pub struct WrapSnapshot<N: Lines> {
    pub(crate) lines: N,
    pub(crate) stretches: Stretches,
}

impl<N: Lines> Drop for WrapSnapshot<N> {
    fn drop(self) {
        let WrapSnapshot {
            lines: _,
            stretches: _,
        } = self;
    }
}

impl<N: Lines> Model for WrapSnapshot<N> {
    ghost use Rattle.wrap_map.specs.Standing.{StandSo, Standing, standing_of};

    ghost Value = { Standing };

    ghost view = { λ s. standing_of (N.elements_by_line s.lines) s.stretches };

    ghost invariant = { λ s. StandSo (N.elements_by_line s.lines) s.stretches };
}

impl<N: Lines> WrapSnapshot<N> {
    /// The width in cells at which a line is wrapped, 0 where it is in one row.
    pub fn mark(&self, line: u32, steps: &mut Steps) -> u32
        requires { line < length self.now.lines }
        ensures mark { result ≡ mark_at self.now line }
        ensures counted { steps.old ≤ steps.new }
        ensures steps { TakesAtMost way (length self.now.lines) steps.old steps.new }
    {
        self.stretches.mark(line, steps)
    }

    /// The first line from `line` on whose mark is another than `width`, and `None` exactly where there is none.
    pub fn next_other(&self, line: u32, width: u32, steps: &mut Steps) -> Option<u32>
        ensures other { IsOtherIfAny (stood_of self.now) line width result }
        ensures counted { steps.old ≤ steps.new }
        ensures steps { TakesAtMost two_ways (length self.now.lines) steps.old steps.new }
    {
        self.stretches.next_other(line, width, steps)
    }

    /// Where a line is cut at its mark.
    pub fn cuts(&self, line: u32, steps: &mut Steps) -> &Cuts
        requires { line < length self.now.lines }
        ensures cuts { result.now.items ≡ cuts_at self.now line }
        ensures counted { steps.old ≤ steps.new }
        ensures steps { TakesAtMost way (length self.now.lines) steps.old steps.new }
    {
        self.stretches.cuts(line, steps)
    }

    /// The maximal runs of lines of one mark other than 0, in order.
    pub fn marks(&self, alloc: Global, steps: &mut Steps) -> Result<Vec<MarkRun>, NoMemory>
        ensures runs { IfOk result (λ runs. runs.items ≡ runs_from 0 self.now.marks) }
        ensures counted { steps.old ≤ steps.new }
        ensures steps { ListsAtMost self.now.marks steps.old steps.new }
    {
        self.stretches.marks(alloc, steps)
    }

    /// An equal snapshot. It allocates nothing, and fails with `NoMemory` only where the count of holders is full.
    pub fn share(&self) -> Result<WrapSnapshot<N>, NoMemory>
        ensures { IfOk result (λ shared. shared ≡ self.now) }
    {
        Ok(WrapSnapshot {
            lines: self.lines.share()?,
            stretches: self.stretches.share()?,
        })
    }
}

impl<N: Lines> Rows for WrapSnapshot<N> {
    ghost shown = { shown_rows };

    fn share(&self) -> Result<WrapSnapshot<N>, NoMemory> {
        Ok(WrapSnapshot {
            lines: self.lines.share()?,
            stretches: self.stretches.share()?,
        })
    }

    fn lines(&self) -> u32 {
        self.lines.lines()
    }

    fn rows_of(&self, line: u32) -> u32 {
        self.stretches.cuts(line, &mut Steps::new()).len() as u32 + 1
    }

    fn rows_before(&self, line: u32) -> u32 {
        self.stretches.rows_before(line, &mut Steps::new())
    }

    fn line_at(&self, row: u32) -> Option<(u32, u32)> {
        if row >= self.stretches.rows() {
            return None;
        }
        let mut steps = Steps::new();
        let line = self.stretches.line_at(row, &mut steps);
        let before = self.stretches.rows_before(line, &mut steps);
        Some((line, row - before))
    }

    fn row_texts(
        &self,
        alloc: Global,
        line: u32,
        first: u32,
        count: u32,
    ) -> Result<Vec<Text>, NoMemory> {
        let mut steps = Steps::new();
        let width = self.stretches.mark(line, &mut steps);
        let cuts = self.stretches.cuts(line, &mut steps);
        self.lines.row_texts(alloc, line, width, cuts, first, count)
    }

    fn row_text(&self, alloc: Global, line: u32, row: u32) -> Result<Text, NoMemory> {
        let mut texts = self.row_texts(alloc, line, row, 1)?;
        Ok(texts.remove(0))
    }
}
