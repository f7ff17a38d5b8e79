//! The lines of a layer, as they are wrapped.
ghost use Rattle.std.specs.Prelude.{◌≡◌, ◌+◌, ◌==◌, ◌≤◌, length, IfOk, IfSome};
ghost use Rattle.std.specs.List.{list_all};
ghost use Rattle.cell_line.specs.Waiting.{AreApart, IsNextIfAny};
ghost use Rattle.cell_units.specs.Lawful.{IsTab};
ghost use Rattle.sum_tree.specs.Bounds.{TakesAtMost};
ghost use Rattle.tab_map.specs.TabLines.{lines_at};
ghost use Rattle.wrap_map.specs.Bounds.{beginning, finding};
ghost use Rattle.wrapped_lines.specs.WrappedSource.{HaveRoom, lines_of, standing_lines, unwrapped};

use cell_line::{Lines, Run};
use cell_units::{Layer, NoMemory, Steps};
use std::alloc::Global;
use std::marker::Model;
use tab_map::{TabMap, TabSnapshot};
use wrap_map::{WrapMap, WrapSnapshot};

/// The tab size of a text that was just opened, in cells.
pub const OPENING_TAB: u32 = 4;

/// The width of a text that was just opened, in cells.
pub const OPENING_WIDTH: u32 = 80;

/// The lines of a layer at a tab size, as they are wrapped, and the width at which they are to be.
///
/// It is seen as what the layer shows, the tab size, that width, and the mark of each line. That is the width in cells
/// at which it is wrapped, 0 if it has one row.
pub struct WrappedLines<L: Layer> {
    pub(crate) layer: L,
    pub(crate) tab: u32,
    pub(crate) width: u32,
    pub(crate) lines: TabSnapshot<L>,
    pub(crate) wraps: WrapMap<TabSnapshot<L>>,
    pub(crate) rows: WrapSnapshot<TabSnapshot<L>>,
}

impl<L: Layer> Drop for WrappedLines<L> {
    fn drop(self) {
        let WrappedLines {
            layer: _,
            tab: _,
            width: _,
            lines: _,
            wraps: _,
            rows: _,
        } = self;
    }
}

impl<L: Layer> Model for WrappedLines<L> {
    ghost use Rattle.wrapped_lines.specs.WrappedSource.{WrappedSource};
    ghost use Rattle.wrapped_lines.specs.inside.Kept.{BelongTogether};

    ghost Value = { WrappedSource };

    ghost view = { λ w. record { source = L.source w.layer; tab = w.tab; width = w.width; marks = w.rows.marks } };

    ghost invariant = { λ w. BelongTogether w.lines w.wraps w.rows
        (record { source = L.source w.layer; tab = w.tab; width = w.width; marks = w.rows.marks }) };
}

impl<L: Layer> WrappedLines<L> {
    /// The lines of a layer, each in one row, at a tab size of 4 cells and a width of 80 cells.
    pub fn new(alloc: Global, layer: L, steps: &mut Steps) -> Result<WrappedLines<L>, NoMemory>
        requires { HaveRoom (lines_at (L.source layer) OPENING_TAB) }
        ensures made { IfOk result (λ made. made ≡ unwrapped (L.source layer)) }
        ensures counted { steps.old ≤ steps.new }
        ensures steps { steps.new ≤ steps.old + beginning }
    {
        let mut tabs = TabMap::new(layer.share()?, OPENING_TAB);
        let (lines, _) = tabs.sync(alloc, layer.share()?, None)?;
        let wraps = WrapMap::new(alloc, lines.share()?, OPENING_WIDTH, steps)?;
        let rows = wraps.snapshot()?;
        Ok(WrappedLines {
            layer,
            tab: OPENING_TAB,
            width: OPENING_WIDTH,
            lines,
            wraps,
            rows,
        })
    }

    /// The tab size, in cells.
    pub fn tab(&self) -> u32
        ensures { result ≡ self.now.tab }
    {
        self.tab
    }

    /// The width at which the lines are to be wrapped, in cells; at width 0 none is cut.
    pub fn width(&self) -> u32
        ensures { result ≡ self.now.width }
    {
        self.width
    }

    /// The lines.
    pub fn lines(&self) -> &TabSnapshot<L>
        ensures { result.now ≡ lines_of self.now }
    {
        &self.lines
    }

    /// The lines as they are wrapped, with their rows.
    pub fn rows(&self) -> &WrapSnapshot<TabSnapshot<L>>
        ensures { result.now ≡ standing_lines self.now }
    {
        &self.rows
    }

    /// The first line that isn't wrapped at the width and that no run of `out` has. With it come the lines after it of
    /// the same kind, up to 128. `None` exactly where there is no such line.
    pub fn next_run(&self, out: &[Run], steps: &mut Steps) -> Option<Run>
        // Each run that is out ends before all later ones begin.
        requires { AreApart out.now }

        // All lines of the run wait, none before them does, and they are lines of the layer.
        ensures next { IsNextIfAny self.now.marks self.now.width out.now result }
        ensures within { IfSome result (λ run. run.first + run.count ≤ length (lines_of self.now)) }

        // The work.
        ensures counted { steps.old ≤ steps.new }
        ensures steps { let lines = length (lines_of self.now) in
            TakesAtMost (finding (length out.now)) lines steps.old steps.new }
    {
        self.wraps.next_run(out, steps)
    }

    /// Whether every line is wrapped at the width.
    pub fn is_settled(&self) -> bool
        ensures { result ≡ list_all (λ mark. mark == self.now.width) self.now.marks }
    {
        self.wraps.is_settled()
    }

    /// An equal value, which no later change of this one reaches. It allocates nothing, and fails with `NoMemory` only
    /// where the count of holders is full.
    pub fn share(&self) -> Result<WrappedLines<L>, NoMemory>
        ensures { IfOk result (λ shared. shared ≡ self.now) }
    {
        self.with_wraps(self.wraps.share()?, self.width)
    }
}
