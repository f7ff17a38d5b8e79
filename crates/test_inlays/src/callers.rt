//! The caller that the page of the inlay map shows. The edits of `moves` and `histories` are made by it.
ghost use Rattle.std.specs.Prelude.{◌≡◌, IfOk, OnErr};

use cell_units::{Fault, Shift, Steps};
use inlay_map::{InlayMap, InlaySnapshot};
use std::alloc::Global;
use text_rope::Rope;

/// Puts a text in the place of a range, and shows it with the inlays. It gives the snapshot, and what of it is new.
pub(crate) fn replace(
    alloc: Global,
    rope: &mut Rope,
    map: &mut InlayMap,
    start: u32,
    end: u32,
    text: &str,
    steps: &mut Steps,
) -> Result<(InlaySnapshot, Option<Shift>), Fault>
    requires { map.old.current.text ≡ rope.old }
    ensures ok { IfOk result (λ shown. map.new.current.text ≡ rope.new) }
    ensures shown { IfOk result (λ shown. shown.0 ≡ map.new.current) }
    ensures unchanged { OnErr result (map.new ≡ map.old) }
{
    let bytes = rope.len();
    // For the proof: the inlays are at boundaries of the text.
    let _inlays = map.len();
    rope.replace(alloc, start, end, text, steps)?;
    let shift = Shift::new(start, end, rope.len() - (bytes - (end - start)));
    let next = rope.share()?;
    Ok(map.sync(alloc, next, Some(shift), steps)?)
}
