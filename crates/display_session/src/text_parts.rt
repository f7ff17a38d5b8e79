//! The text of a view, by its calls.
ghost use Rattle.std.specs.Prelude.{◌≡◌, None, length, slice_range, IfErr, IfOk, OnOk};
ghost use Rattle.display_map.specs.Replay.{present_of};
ghost use Rattle.display_session.specs.Slices.{slice_refusal};
ghost use Rattle.display_session.specs.Troubles.{IsOwed};

use crate::trouble::Trouble;
use cell_units::{Bias, Point, Refusal, Steps, Text, text_laws};
use display_map::View;
use std::alloc::Global;

/// How many bytes the text has: the offset of a point past its last row.
pub(crate) fn text_len(view: &View) -> u32
    ensures { result ≡ length (present_of view.now).text }
{
    // For the proof: the text's length is a u32.
    view.lawful();
    let past = Point {
        row: u32::MAX,
        column: 0,
    };
    view.offset_of(past, Bias::Left, &mut Steps::new())
}

/// The text from the byte `start` up to the byte `end`. `BadRange` unless these are boundaries in order, as `show` finds.
pub(crate) fn text_between(
    alloc: Global,
    view: &View,
    start: u32,
    end: u32,
) -> Result<Text, Trouble>
    ensures text { IfOk result (λ text. text ≡ slice_range (present_of view.now).text start end) }
    ensures accepted { OnOk result (slice_refusal (present_of view.now).text start end ≡ None) }
    ensures refused { IfErr result (IsOwed (slice_refusal (present_of view.now).text start end)) }
{
    // For the proof: the text is UTF-8, whose characters begin at its boundaries.
    text_laws();
    view.lawful();
    if end < start {
        return Err(Trouble::Refused(Refusal::BadRange));
    }
    let mut steps = Steps::new();
    view.show(alloc, start, Bias::Left, &mut steps)?;
    view.show(alloc, end, Bias::Left, &mut steps)?;
    Ok(view.slice(alloc, start, end, &mut steps)?)
}
