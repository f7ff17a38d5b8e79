//! Changes of the layer, the tab size and the width.
ghost use Rattle.std.specs.Prelude.{◌≡◌, ◌≢◌, ◌⊎◌, ◌↔◌, ◌≤◌, IsTrue, None, Some, length, unwrap_or, IfOk, IfErr, OnOk};
ghost use Rattle.cell_units.specs.Lawful.{IsTab, IsWidth};
ghost use Rattle.cell_units.specs.Rows.{all_rows};
ghost use Rattle.edit_patch.specs.Fits.{Fits};
ghost use Rattle.edit_patch.specs.Leads.{LeadsBy};
ghost use Rattle.sum_tree.specs.Bounds.{ChangesAtMost};
ghost use Rattle.tab_map.specs.TabLines.{AreAll, AreMet, AreReplaced, LinesFollow, last_lines, lines_at};
ghost use Rattle.wrap_map.specs.Bounds.{syncing};
ghost use Rattle.wrap_map.specs.Standing.{shown_rows, standing_after};
ghost use Rattle.wrapped_lines.specs.Changed.{IsNumberFault, IsRewrapped, rows_replaced};
ghost use Rattle.wrapped_lines.specs.WrappedSource.{HaveRoom, lines_of, standing_lines};

use crate::lines::WrappedLines;
use cell_line::Lines;
use cell_units::limits::{LEAST_WIDTH, TAB_LIMIT, WIDTH_LIMIT};
use cell_units::{Fault, Layer, NoMemory, Refusal, Shift, Steps};
use edit_patch::Patch;
use std::alloc::Global;
use tab_map::{TabMap, TabSnapshot};
use wrap_map::{WrapMap, WrapSnapshot};

/// Lines after some of them were replaced.
#[derive(Drop)]
pub struct Rewrapped<L: Layer> {
    pub lines: WrappedLines<L>,
    /// Which lines were replaced. The new ones have one row each.
    pub run: Shift,
    /// The patch of rows: those of the replaced lines, replaced by one for each new line.
    pub rows: Patch,
}

/// Whether a tab size is lawful.
fn is_tab(tab: u32) -> bool
    ensures { IsTrue result ↔ IsTab tab }
{
    1 <= tab && tab <= TAB_LIMIT
}

/// Whether a width is lawful.
fn is_width(width: u32) -> bool
    ensures { IsTrue result ↔ IsWidth width }
{
    width == 0 || LEAST_WIDTH <= width && width <= WIDTH_LIMIT
}

/// A wrap map after lines were replaced, with its rows and the patch of them.
fn rewrap<N: Lines>(
    alloc: Global,
    old: &WrapMap<N>,
    lines: N,
    run: Shift,
    steps: &mut Steps,
) -> Result<(WrapMap<N>, WrapSnapshot<N>, Patch), NoMemory>
    requires leads { LeadsBy old.now.standing.lines (N.elements_by_line lines) (Some run) }
    requires room { HaveRoom (N.elements_by_line lines) }

    // The new lines have one row each, and all others are as they were.
    ensures map { let standing = standing_after old.now.standing (N.elements_by_line lines) (Some run) in
        IfOk result (λ made. made.0 ≡ record old.now { standing = standing }) }
    ensures shown { let standing = standing_after old.now.standing (N.elements_by_line lines) (Some run) in
        IfOk result (λ made. made.1 ≡ standing) }

    // The patch replaces exactly the rows of these lines.
    ensures rows { let rows = rows_replaced (shown_rows old.now.standing) run in
        IfOk result (λ made. made.2 ≡ rows) }
    ensures fits { let before = all_rows (shown_rows old.now.standing) in
        IfOk result (λ made. Fits made.2 before (all_rows (shown_rows made.1))) }

    // The work.
    ensures counted { steps.old ≤ steps.new }
    ensures steps { let before = length old.now.standing.lines in
        ChangesAtMost syncing before (length (N.elements_by_line lines)) steps.old steps.new }
{
    let mut map = old.share()?;
    let (shown, rows) = map.sync(alloc, lines, Some(run), steps)?;
    let Some(rows) = rows else {
        unreachable!();
    };
    let edits = Patch::of_shift(alloc, rows)?;
    Ok((map, shown, edits))
}

impl<L: Layer> WrappedLines<L> {
    /// The lines of a layer after a replacement of what it shows. Lines that it meets have one row each then.
    pub fn after(
        &self,
        alloc: Global,
        layer: L,
        below: Shift,
        steps: &mut Steps,
    ) -> Result<Rewrapped<L>, NoMemory>
        // The lines that the replacement doesn't meet have pieces of the same texts, and there is room.
        requires follow { LinesFollow self.now.source (L.source layer) (Some below) }
        requires room { HaveRoom (lines_at (L.source layer) self.now.tab) }

        // The replaced lines are exactly those that are met, and all others are as they were.
        ensures met { let old = self.now.source in let new = L.source layer in
            IfOk result (λ made. AreMet old new (Some below) (Some made.run)) }
        ensures rewrapped { let source = L.source layer in
            IfOk result (λ made.
            IsRewrapped self.now source self.now.tab made.lines made.run made.rows) }

        // The work.
        ensures counted { steps.old ≤ steps.new }
        ensures steps { let after = length (lines_at (L.source layer) self.now.tab) in
            ChangesAtMost syncing (length (lines_of self.now)) after steps.old steps.new }
    {
        let tabs = TabMap::new(self.layer.share()?, self.tab);
        self.followed(alloc, tabs, layer, self.tab, Some(below), steps)
    }

    /// The same lines at another tab size, in cells: each has one row then. `BadNumber` where it isn't 1 to 16.
    pub fn with_tab(
        &self,
        alloc: Global,
        tab: u32,
        steps: &mut Steps,
    ) -> Result<Rewrapped<L>, Fault>
        requires room { IsTab tab → HaveRoom (lines_at self.now.source tab) }

        // All lines are replaced by all.
        ensures accepted { OnOk result (IsTab tab) }
        ensures all { let source = self.now.source in
            IfOk result (λ made. AreAll source source (Some made.run)) }
        ensures rewrapped { IfOk result (λ made.
            IsRewrapped self.now self.now.source tab made.lines made.run made.rows) }
        ensures refused { IfErr result (IsNumberFault (IsTab tab)) }

        // The work.
        ensures counted { steps.old ≤ steps.new }
        ensures steps { let after = length (lines_at self.now.source tab) in
            ChangesAtMost syncing (length (lines_of self.now)) after steps.old steps.new }
    {
        if !is_tab(tab) {
            return Err(Fault::Refused(Refusal::BadNumber));
        }
        Ok(self.retabbed(alloc, tab, steps)?)
    }

    /// The same lines, to be wrapped at another width, in cells. `BadNumber` where it is neither 0 nor 2 to 10,000.
    pub fn with_width(&self, width: u32) -> Result<WrappedLines<L>, Fault>
        ensures accepted { OnOk result (IsWidth width) }
        ensures set { IfOk result (λ made. made ≡ record self.now { width = width }) }
        ensures refused { IfErr result (IsNumberFault (IsWidth width)) }
    {
        if !is_width(width) {
            return Err(Fault::Refused(Refusal::BadNumber));
        }
        Ok(self.rewidened(width)?)
    }

    /// The same at a lawful tab size.
    fn retabbed(&self, alloc: Global, tab: u32, steps: &mut Steps) -> Result<Rewrapped<L>, NoMemory>
        requires lawful { IsTab tab }
        requires room { HaveRoom (lines_at self.now.source tab) }
        ensures all { let source = self.now.source in
            IfOk result (λ made. AreAll source source (Some made.run)) }
        ensures rewrapped { IfOk result (λ made.
            IsRewrapped self.now self.now.source tab made.lines made.run made.rows) }
        ensures counted { steps.old ≤ steps.new }
        ensures steps { let after = length (lines_at self.now.source tab) in
            ChangesAtMost syncing (length (lines_of self.now)) after steps.old steps.new }
    {
        let layer = self.layer.share()?;
        let mut tabs = TabMap::new(self.layer.share()?, self.tab);
        match tabs.set_tab(tab) {
            Ok(()) => self.followed(alloc, tabs, layer, tab, None, steps),
            Err(_) => unreachable!(),
        }
    }

    /// The same at a lawful width.
    fn rewidened(&self, width: u32) -> Result<WrappedLines<L>, NoMemory>
        requires { IsWidth width }
        ensures { IfOk result (λ made. made ≡ record self.now { width = width }) }
    {
        let mut wraps = self.wraps.share()?;
        match wraps.set_width(width) {
            Ok(()) => self.with_wraps(wraps, width),
            Err(_) => unreachable!(),
        }
    }

    /// The lines after a tab map, which showed these last, is at a layer.
    fn followed(
        &self,
        alloc: Global,
        tabs: TabMap<L>,
        layer: L,
        tab: u32,
        below: Option<Shift>,
        steps: &mut Steps,
    ) -> Result<Rewrapped<L>, NoMemory>
        // The map showed these lines, is at this tab size, and replaces some lines.
        requires source { tabs.source ≡ self.now.source }
        requires shown { unwrap_or tabs.before tabs.tab ≡ self.now.tab }
        requires tab { tabs.tab ≡ tab }
        requires some { (tabs.before ≢ None) ⊎ (below ≢ None) }

        // The lines that the replacement doesn't meet have pieces of the same texts, and there is room.
        requires follow { LinesFollow self.now.source (L.source layer) below }
        requires room { HaveRoom (lines_at (L.source layer) tab) }

        // The replaced lines are those that the map names.
        ensures replaced { let old = self.now.source in let new = L.source layer in
            IfOk result (λ made. AreReplaced tabs.before old new below (Some made.run)) }
        ensures rewrapped { let source = L.source layer in
            IfOk result (λ made.
            IsRewrapped self.now source tab made.lines made.run made.rows) }

        // The work.
        ensures counted { steps.old ≤ steps.new }
        ensures steps { let after = length (lines_at (L.source layer) tab) in
            ChangesAtMost syncing (length (lines_of self.now)) after steps.old steps.new }
    {
        let mut tabs = tabs;
        let (lines, run) = tabs.sync(alloc, layer.share()?, below)?;
        let Some(run) = run else {
            unreachable!();
        };
        let (wraps, rows, edits) = rewrap(alloc, &self.wraps, lines.share()?, run, steps)?;
        Ok(Rewrapped {
            lines: WrappedLines {
                layer,
                tab,
                width: self.width,
                lines,
                wraps,
                rows,
            },
            run,
            rows: edits,
        })
    }

    /// The same lines with another wrap map of them.
    pub(crate) fn with_wraps(
        &self,
        wraps: WrapMap<TabSnapshot<L>>,
        width: u32,
    ) -> Result<WrappedLines<L>, NoMemory>
        requires lines { wraps.standing.lines ≡ lines_of self.now }
        requires width { wraps.width ≡ width }
        ensures { let marks = wraps.standing.marks in
            IfOk result (λ made. made ≡ record self.now { width = width; marks = marks }) }
    {
        let rows = wraps.snapshot()?;
        Ok(WrappedLines {
            layer: self.layer.share()?,
            tab: self.tab,
            width,
            lines: self.lines.share()?,
            wraps,
            rows,
        })
    }
}
