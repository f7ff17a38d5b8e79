//! The map from layers to lines of elements.
ghost use Rattle.std.specs.Prelude.{◌≡◌, ◌+◌, ◌^◌, ◌<◌, ◌≤◌, None, Some, length, unwrap_or, IfOk, IfErr, OnOk, OnErr};
ghost use Rattle.cell_line.specs.Lines.{FitsU32};
ghost use Rattle.cell_units.specs.Lawful.{IsTab};
ghost use Rattle.cell_units.specs.Layers.{shown_text};
ghost use Rattle.cell_units.specs.Text.{row_of};
ghost use Rattle.tab_map.specs.TabLines.{AreMet, AreReplaced, IsSynced, LinesFollow, lines_at};

use crate::snapshot::TabSnapshot;
use cell_units::limits::TAB_LIMIT;
use cell_units::{Layer, NoMemory, Refusal, Shift};
use std::alloc::Global;
use std::marker::Model;

/// What a snapshot is made of: a layer, and a tab size of 1 to 16 cells.
///
/// It is seen as the layer of its last snapshot, the tab size, and, where that was set since, the tab size of that
/// snapshot.
pub struct TabMap<L: Layer> {
    layer: L,
    tab: u32,
    before: Option<u32>,
}

impl<L: Layer> Drop for TabMap<L> {
    fn drop(self) {
        let TabMap {
            layer: _,
            tab: _,
            before: _,
        } = self;
    }
}

impl<L: Layer> Model for TabMap<L> {
    ghost use Rattle.cell_units.specs.Lawful.{IsTab};
    ghost use Rattle.tab_map.specs.TabLines.{Tabbed};

    ghost Value = { Tabbed };

    ghost view = { λ m. record { source = L.source m.layer; tab = m.tab; before = m.before } };

    ghost invariant = { λ m. IsTab m.tab };
}

/// The line of a place.
#[tactic(auto, using(crate::proofs::TabLemmas::row_within))]
fn line_of<L: Layer>(layer: &L, place: u32) -> u32
    requires { place ≤ length (shown_text (L.source layer.now)) }
    ensures line { result ≡ row_of (shown_text (L.source layer.now)) place }
    ensures fits { result + 1 < 2 ^ 32 }
{
    // For the proof: the layer has the line, and no more lines than a u32 counts.
    let _ = (layer.buffer_len(), layer.lines());
    layer.point(place).row
}

/// The lines that a replacement of the layer's text meets, before it and after it.
fn met<L: Layer>(old: &L, new: &L, below: Shift) -> Shift
    requires { LinesFollow (L.source old.now) (L.source new.now) (Some below) }
    ensures { AreMet (L.source old.now) (L.source new.now) (Some below) (Some result) }
{
    let Shift { start, end, count } = below;
    // For the proof: the new text is short enough that the end of what was put into it is a u32.
    let _fits = new.length();
    let first = line_of(old, start);
    let last = line_of(old, end);
    let last_after = line_of(new, start + count);
    Shift::new(first, last + 1, last_after + 1 - first)
}

impl<L: Layer> TabMap<L> {
    /// A map of a layer at a tab size in cells, as if it had shown it.
    pub fn new(layer: L, tab: u32) -> TabMap<L>
        requires { IsTab tab }
        ensures { result ≡ record { source = L.source layer; tab = tab; before = None } }
    {
        TabMap {
            layer,
            tab,
            before: None,
        }
    }

    /// Sets the tab size, in cells. `BadNumber` where it isn't 1 to 16.
    pub fn set_tab(&mut self, tab: u32) -> Result<(), Refusal>
        ensures set { let before = Some (unwrap_or self.old.before self.old.tab) in
            OnOk result (self.new ≡ record self.old { tab = tab; before = before }) }
        ensures accepted { OnOk result (IsTab tab) }
        ensures refused { OnErr result (¬ IsTab tab) }
        ensures refusal { IfErr result (λ refusal. refusal ≡ Refusal.BadNumber) }
        ensures unchanged { OnErr result (self.new ≡ self.old) }
    {
        if tab == 0 || tab > TAB_LIMIT {
            return Err(Refusal::BadNumber);
        }
        self.before = Some(self.before.unwrap_or(self.tab));
        self.tab = tab;
        Ok(())
    }

    /// The lines of the layer as it is now, and the lines that were replaced since the last snapshot, counted from 0.
    /// These are those that `below` meets, or all where the tab size was set.
    #[tactic(auto, using(crate::proofs::TabLemmas::replaced_leads))]
    pub fn sync(
        &mut self,
        _alloc: Global,
        layer: L,
        below: Option<Shift>,
    ) -> Result<(TabSnapshot<L>, Option<Shift>), NoMemory>
        requires follow { LinesFollow self.old.source (L.source layer) below }
        requires fits { FitsU32 (lines_at (L.source layer) self.old.tab) }
        ensures synced { let source = L.source layer in
            IfOk result (λ made. IsSynced self.old source below self.new made.0 made.1) }
        ensures unchanged { OnErr result (self.new ≡ self.old) }
    {
        let snapshot = TabSnapshot {
            layer: layer.share()?,
            tab: self.tab,
        };
        let replaced = self.replaced(&layer, below);
        self.layer = layer;
        self.before = None;
        Ok((snapshot, replaced))
    }

    /// The lines that are made anew.
    fn replaced(&self, layer: &L, below: Option<Shift>) -> Option<Shift>
        requires { LinesFollow self.now.source (L.source layer.now) below }
        ensures { AreReplaced self.now.before self.now.source (L.source layer.now) below result }
    {
        if self.before.is_some() {
            return Some(Shift::new(0, self.layer.lines(), layer.lines()));
        }
        match below {
            None => None,
            Some(below) => Some(met(&self.layer, layer, below)),
        }
    }

    /// An equal map. It allocates nothing, and fails with `NoMemory` only where the count of holders is full.
    pub fn share(&self) -> Result<TabMap<L>, NoMemory>
        ensures { IfOk result (λ shared. shared ≡ self.now) }
    {
        Ok(TabMap {
            layer: self.layer.share()?,
            tab: self.tab,
            before: self.before,
        })
    }
}
