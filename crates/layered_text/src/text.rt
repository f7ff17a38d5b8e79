//! The text with its maps, and what shows them after a change.
ghost use Rattle.std.specs.Prelude.{◌≡◌, ◌+◌, ◌≤◌, None, option_map, IfOk};
ghost use Rattle.cell_units.specs.Layers.{plain_source, unfolded};
ghost use Rattle.cell_units.specs.Operation.{Operation};
ghost use Rattle.inlay_map.specs.Maps as inlaying;
ghost use Rattle.fold_map.specs.Bounds as folding;
ghost use Rattle.fold_map.specs.Maps.{state_of};
ghost use Rattle.layered_text.specs.Bounds.{opening};
ghost use Rattle.layered_text.specs.Layered.{IsChanged};
ghost use Rattle.layered_text.specs.inside.Kept.{AreTold, WereTold};
ghost use Rattle.layered_text.specs.inside.Showing.{ShowsAtMost};

use cell_units::{NoMemory, Shift, Steps};
use fold_map::{FoldMap, FoldSnapshot};
use folded_text::answer_laws;
use inlay_map::{InlayMap, InlaySnapshot, met_laws as inlay_laws};
use std::alloc::Global;
use std::marker::Model;
use text_rope::Rope;

/// A text with its inlays and folds, all of them shown. It is seen as that source.
pub struct LayeredText {
    pub(crate) rope: Rope,
    pub(crate) inlays: InlayMap,
    pub(crate) inlaid: InlaySnapshot,
    pub(crate) folds: FoldMap<InlaySnapshot>,
    pub(crate) layer: FoldSnapshot<InlaySnapshot>,
}

impl Drop for LayeredText {
    fn drop(self) {
        let LayeredText {
            rope: _,
            inlays: _,
            inlaid: _,
            folds: _,
            layer: _,
        } = self;
    }
}

impl Model for LayeredText {
    ghost use Rattle.cell_units.specs.Layers.{Source};
    ghost use Rattle.layered_text.specs.inside.Kept.{IsLayered};

    ghost Value = { Source };

    ghost view = { λ t. t.layer };

    ghost invariant = { λ t. IsLayered t.rope t.inlays t.inlaid t.folds t.layer };
}

/// A text after a change, and the replacement of what is shown that leads to it, in bytes of what is shown.
#[derive(Drop)]
pub struct Refolded {
    pub text: LayeredText,
    pub shown: Shift,
}

impl LayeredText {
    /// The text without inlays and folds. It fails with `NoMemory` only.
    pub fn opened(alloc: Global, rope: Rope, steps: &mut Steps) -> Result<LayeredText, NoMemory>
        ensures opened { IfOk result (λ text. text ≡ plain_source rope) }

        // The work.
        ensures counted { steps.old ≤ steps.new }
        ensures steps { steps.new ≤ steps.old + opening }
    {
        // For the proof: the text is within its limit, so its tree has at most 7 levels below its root.
        let _len = rope.len();
        let base = rope.share()?;
        let mut inlays = InlayMap::new(alloc, base, steps)?;
        let next = rope.share()?;
        let (inlaid, _) = inlays.sync(alloc, next, None, steps)?;
        LayeredText::unfolded(alloc, rope, inlays, inlaid, steps)
    }

    /// The same of a text whose map of inlays has none.
    fn unfolded(
        alloc: Global,
        rope: Rope,
        inlays: InlayMap,
        inlaid: InlaySnapshot,
        steps: &mut Steps,
    ) -> Result<LayeredText, NoMemory>
        requires inlays { inlays ≡ inlaying.state_of rope }
        requires inlaid { inlaid ≡ plain_source rope }
        ensures opened { IfOk result (λ text. text ≡ plain_source rope) }
        ensures counted { steps.old ≤ steps.new }
        ensures steps { steps.new ≤ steps.old + folding.syncing 0 0 }
    {
        // For the proof: the text is within its limit, so each place of what is shown is a u32.
        let _len = rope.len();
        let base = inlaid.share()?;
        let mut folds = FoldMap::new(alloc, base, steps)?;
        let lower = inlaid.share()?;
        let (layer, _) = folds.sync(alloc, lower, None, None, steps)?;
        Ok(LayeredText {
            rope,
            inlays,
            inlaid,
            folds,
            layer,
        })
    }

    /// An equal text, which no later change reaches.
    pub fn share(&self) -> Result<LayeredText, NoMemory>
        ensures { IfOk result (λ text. text ≡ self.now) }
    {
        let rope = self.rope.share()?;
        let inlays = self.inlays.share()?;
        let inlaid = self.inlaid.share()?;
        let folds = self.folds.share()?;
        let layer = self.layer.share()?;
        Ok(LayeredText {
            rope,
            inlays,
            inlaid,
            folds,
            layer,
        })
    }

    /// The text alone.
    pub fn rope(&self) -> &Rope
        ensures { result.now ≡ self.now.text }
    {
        &self.rope
    }

    /// The text with its inlays. It lists these.
    pub fn inlaid(&self) -> &InlaySnapshot
        ensures { result.now ≡ unfolded self.now }
    {
        &self.inlaid
    }

    /// The text with its inlays and folds, as it is shown. It lists the folds.
    pub fn layer(&self) -> &FoldSnapshot<InlaySnapshot>
        ensures { result.now ≡ self.now }
    {
        &self.layer
    }

    /// What is shown once both maps were given an operation, with the rope after it.
    pub(crate) fn changed(
        &self,
        alloc: Global,
        rope: Rope,
        mut inlays: InlayMap,
        mut folds: FoldMap<InlaySnapshot>,
        shift: Option<Shift>,
        steps: &mut Steps,
    ) -> Result<Refolded, NoMemory>
        requires { WereTold self.now rope inlays folds shift }
        ensures changed { (operation : Operation) →
            AreTold operation self.now rope inlays folds shift →
            IfOk result (λ made. IsChanged operation self.now made.text made.shown) }
        ensures counted { steps.old ≤ steps.new }
        ensures steps { (operation : Operation) →
            AreTold operation self.now rope inlays folds shift →
            ShowsAtMost operation self.now steps.old steps.new }
    {
        // For the proof: what a replacement owes to the maps, and which lines and rows their results meet.
        answer_laws();
        inlay_laws();
        // For the proof: the text is within its limit, and the inlays and folds fit it.
        let _sizes = (rope.len(), self.folds.len());
        let next = rope.share()?;
        let (inlaid, below) = inlays.sync(alloc, next, shift, steps)?;
        let lower = inlaid.share()?;
        let (layer, answer) = folds.sync(alloc, lower, shift, below, steps)?;
        // Rows are touched, so their lines are replaced.
        let shown = answer.unwrap();
        let text = LayeredText {
            rope,
            inlays,
            inlaid,
            folds,
            layer,
        };
        Ok(Refolded { text, shown })
    }

    /// The same after an operation that leaves the text.
    pub(crate) fn turned(
        &self,
        alloc: Global,
        inlays: InlayMap,
        folds: FoldMap<InlaySnapshot>,
        steps: &mut Steps,
    ) -> Result<Refolded, NoMemory>
        requires { WereTold self.now self.now.text inlays folds None }
        ensures changed { (operation : Operation) →
            AreTold operation self.now self.now.text inlays folds None →
            IfOk result (λ made. IsChanged operation self.now made.text made.shown) }
        ensures counted { steps.old ≤ steps.new }
        ensures steps { (operation : Operation) →
            AreTold operation self.now self.now.text inlays folds None →
            ShowsAtMost operation self.now steps.old steps.new }
    {
        let rope = self.rope.share()?;
        self.changed(alloc, rope, inlays, folds, None, steps)
    }
}
