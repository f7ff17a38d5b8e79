//! The caller that the page of the fold map shows.
ghost use Rattle.std.specs.Prelude.{◌≡◌, ◌≤◌, option_map, IfOk, OnErr, OnOk};
ghost use Rattle.edit_patch.specs.Leads.{reach_of};
ghost use Rattle.folded_text.specs.Shown.{BelongTogether, IsReplacedIfAny, IsShown, folds_shown, inlays_shown};

use cell_units::{Layer, NoMemory, Shift, Steps};
use fold_map::{FoldMap, FoldSnapshot};
use inlay_map::{InlayMap, InlaySnapshot};
use std::alloc::Global;
use text_rope::Rope;

/// Shows a text with its inlays and folds, after the replacement that led to it, if there was one. Returns the
/// snapshot, and what of it is new.
pub fn show(
    alloc: Global,
    inlays: &mut InlayMap,
    folds: &mut FoldMap<InlaySnapshot>,
    rope: Rope,
    shift: Option<Shift>,
    steps: &mut Steps,
) -> Result<(FoldSnapshot<InlaySnapshot>, Option<Shift>), NoMemory>
    requires belong { BelongTogether inlays.old.current.text inlays.old folds.old }
    requires text { IsReplacedIfAny inlays.old.current.text rope (option_map reach_of shift) }

    // What is there after it, and what is shown.
    ensures inlays { let replaced = option_map reach_of shift in
        OnOk result (inlays.new ≡ inlays_shown rope replaced inlays.old) }
    ensures folds { let replaced = option_map reach_of shift in
        OnOk result (folds.new ≡ folds_shown rope replaced inlays.old folds.old) }
    ensures belong { OnOk result (BelongTogether rope inlays.new folds.new) }
    ensures shown { let replaced = option_map reach_of shift in IfOk result (λ made.
        IsShown rope replaced inlays.old folds.old made.0 (option_map reach_of made.1)) }

    // What stays, and the work.
    ensures unchanged { OnErr result (folds.new ≡ folds.old) }
    ensures counted { steps.old ≤ steps.new }
{
    // For the proof: the text is within its limit, and the inlays and the folds fit it.
    let _sizes = (rope.len(), inlays.len(), folds.len());
    let (layer, below) = inlays.sync(alloc, rope, shift, steps)?;
    // For the proof: the inlays fit it then.
    let _len = layer.buffer_len();
    folds.sync(alloc, layer, shift, below, steps)
}
