//! What a fold map shows at one moment.
ghost use Rattle.std.specs.Prelude.{◌≡◌, ◌==◌, ◌≤◌, [], length, option_map, position, slice_get, IfOk};
ghost use Rattle.std.specs.List.{list_any};
ghost use Rattle.cell_units.specs.Layers.{place_of};
ghost use Rattle.cell_units.specs.Text.{IsBoundary, is_boundary};
ghost use Rattle.joined_folds.specs.Sweeps.{fold_of};
ghost use Rattle.sum_tree.specs.Bounds.{Searches, TakesAtMost, way};
ghost use Rattle.text_rope.specs.Bounds.{ways};
ghost use Rattle.fold_map.specs.Amounts.{line_at};
ghost use Rattle.fold_map.specs.Snapshots.{IsLawful, fold_refusal, is_range};

use crate::amount::{Amount, ByBytes};
use crate::spots::spot_at;
use cell_units::limits::ENTRY_LIMIT;
use cell_units::{Bias, Layer, NoMemory, Refusal, Steps};
use mark_tree::{RangeMark, RangeTree};
use splice_tree::SpliceTree;
use std::alloc::Global;
use std::marker::Model;
use sum_core::NoLoad;

/// A layer with folds over it. Contracts see it as the layer's text and inlays with the folds.
pub struct FoldSnapshot<L: Layer> {
    pub(crate) layer: L,
    pub(crate) folds: RangeTree,
    pub(crate) splices: SpliceTree<Amount, NoLoad>,
}

impl<L: Layer> Drop for FoldSnapshot<L> {
    fn drop(self) {
        let FoldSnapshot {
            layer: _,
            folds: _,
            splices: _,
        } = self;
    }
}

impl<L: Layer> Model for FoldSnapshot<L> {
    ghost use Rattle.std.specs.Prelude.{map};
    ghost use Rattle.cell_units.specs.Layers.{Source};
    ghost use Rattle.joined_folds.specs.Sweeps.{fold_of};
    ghost use Rattle.fold_map.specs.Snapshots.{IsSnapshot, with_folds};

    ghost Value = { Source };

    ghost view = { λ s. with_folds (L.source s.layer) (map fold_of s.folds) };

    ghost invariant = { λ s. IsSnapshot (L.source s.layer) (map fold_of s.folds) s.splices };
}

impl<L: Layer> FoldSnapshot<L> {
    /// A layer without folds. It takes no memory.
    pub(crate) fn plain(alloc: Global, layer: L) -> FoldSnapshot<L>
        requires { (L.source layer).folds ≡ [] }
        ensures { result ≡ L.source layer }
    {
        // For the proof: each place of the layer is a u32.
        let _length = layer.length();
        FoldSnapshot {
            layer,
            folds: RangeTree::new(alloc),
            splices: SpliceTree::new(alloc),
        }
    }

    /// An equal snapshot, which no later change of a map reaches.
    pub fn share(&self) -> Result<FoldSnapshot<L>, NoMemory>
        ensures { IfOk result (λ s. s ≡ self.now) }
    {
        Ok(FoldSnapshot {
            layer: self.layer.share()?,
            folds: self.folds.share()?,
            splices: self.splices.share()?,
        })
    }

    /// The number of bytes of the buffer, whose text has no carriage return. The inlays and the folds fit it.
    pub(crate) fn text_len(&self) -> u32
        ensures value { result ≡ length self.now.text }
        ensures lawful { IsLawful self.now }
    {
        self.layer.buffer_len()
    }

    /// The place of the fold of this id among them, counted from 0. `None` exactly where there is none.
    pub fn find_id(&self, id: u32, steps: &mut Steps) -> Option<u32>
        ensures place { result ≡ position (λ f. f.id == id) self.now.folds }
        ensures counted { steps.old ≤ steps.new }
        ensures steps { Searches (length self.now.folds) steps.old steps.new }
    {
        self.folds.find(id, steps)
    }

    /// Whether there is a fold of this id.
    pub fn has_id(&self, id: u32, steps: &mut Steps) -> bool
        ensures value { result ≡ list_any (λ f. f.id == id) self.now.folds }
        ensures counted { steps.old ≤ steps.new }
        ensures steps { Searches (length self.now.folds) steps.old steps.new }
    {
        self.folds.contains(id, steps)
    }

    /// The number of folds.
    pub fn count(&self) -> u32
        ensures { result ≡ length self.now.folds }
    {
        self.folds.len()
    }

    /// The range and the id of a fold, by its place among them, counted from 0. `None` exactly where there is none.
    pub fn get(&self, at: u32, steps: &mut Steps) -> Option<RangeMark>
        ensures fold { option_map fold_of result ≡ slice_get self.now.folds at }
        ensures counted { steps.old ≤ steps.new }
        ensures steps { TakesAtMost way (length self.now.folds) steps.old steps.new }
    {
        self.folds.get(at, steps)
    }

    /// Whether the offset is a boundary of the text.
    fn is_boundary(&self, offset: u32) -> bool
        ensures { result ≡ is_boundary self.now.text offset }
    {
        // For the proof: the text is UTF-8.
        let _len = self.text_len();
        self.layer.on_boundary(offset)
    }

    /// Whether the offsets are boundaries of the text, the first before the second.
    fn is_range(&self, start: u32, end: u32) -> bool
        ensures { result ≡ is_range self.now.text start end }
    {
        let is_first = self.is_boundary(start);
        let is_last = self.is_boundary(end);
        start < end && is_first && is_last
    }

    /// Why a fold isn't added to these, if it isn't: the refusal of `FoldMap::fold`. Offsets count bytes.
    pub fn refusal_to_fold(
        &self,
        id: u32,
        start: u32,
        end: u32,
        steps: &mut Steps,
    ) -> Option<Refusal>
        ensures refusal { result ≡ fold_refusal self.now id start end }
        ensures counted { steps.old ≤ steps.new }
        ensures steps { Searches (length self.now.folds) steps.old steps.new }
    {
        if self.has_id(id, steps) {
            return Some(Refusal::IdInUse);
        }
        if !self.is_range(start, end) {
            return Some(Refusal::BadRange);
        }
        let count = self.count() as usize;
        if count >= ENTRY_LIMIT {
            return Some(Refusal::TooLong);
        }
        None
    }

    /// Where an offset is in what is shown.
    pub(crate) fn place_of(&self, offset: u32, bias: Bias, steps: &mut Steps) -> u32
        requires { IsBoundary self.now.text offset }
        ensures place { result ≡ place_of self.now offset bias }
        ensures counted { steps.old ≤ steps.new }
        ensures steps { TakesAtMost way (length self.now.folds) steps.old steps.new }
    {
        let below = self.layer.place(offset, bias);
        self.splices.to_upper::<ByBytes>(below, bias, steps)
    }

    /// The line on which an offset is shown.
    pub(crate) fn line_of(&self, offset: u32, bias: Bias, steps: &mut Steps) -> u32
        requires { IsBoundary self.now.text offset }
        ensures line { result ≡ line_at self.now offset bias }
        ensures counted { steps.old ≤ steps.new }
        ensures steps { TakesAtMost (ways 2) (length self.now.folds) steps.old steps.new }
    {
        // For the proof: the folds fit the text, and each place of the lower layer is a u32.
        let _sizes = (self.text_len(), self.layer.length());
        let place = self.place_of(offset, bias, steps);
        let spot = spot_at(&self.splices, place, steps);
        let below = self.layer.point(spot.below).row;
        spot.before.upper.feeds + (below - spot.before.lower.feeds)
    }
}
