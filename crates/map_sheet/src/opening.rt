//! The sheet of a text that was just opened.
ghost use Rattle.std.specs.Prelude.{◌≡◌, ◌≤◌, IfOk, List, ℕ, MatchResult, OnOk};
ghost use Rattle.cell_units.specs.Layers.{plain_source};
ghost use Rattle.cell_units.specs.Record.{opened};
ghost use Rattle.cell_units.specs.Refusal.{IsAccepted, IsTextRefused};
ghost use Rattle.cell_units.specs.Text.{clean};
ghost use Rattle.display_sheet.specs.Shown.{unstamped};
ghost use Rattle.wrapped_lines.specs.WrappedSource.{unwrapped};

use crate::sheet::{Layered, MapSheet};
use blocked_rows::BlockedRows;
use cell_units::{Layer, NoMemory, Rows, Steps, TextFault, operation_laws};
use layered_text::LayeredText;
use std::alloc::Global;
use std::sync::Arc;
use text_rope::Rope;
use wrapped_lines::WrappedLines;

/// The sheet of the text of these bytes.
pub(crate) fn of_bytes(
    alloc: Global,
    bytes: &[u8],
    steps: &mut Steps,
) -> Result<MapSheet, TextFault>
    ensures cases { MatchResult result
        (λ sheet. sheet ≡ unstamped (opened (clean bytes.now))) (IsTextRefused bytes.now) }
    ensures accepted { OnOk result (IsAccepted bytes.now) }
    ensures counted { steps.old ≤ steps.new }
{
    let rope = Rope::from_bytes(alloc, bytes, steps)?;
    Ok(of_rope(alloc, rope, steps)?)
}

/// The sheet of a rope.
fn of_rope(alloc: Global, rope: Rope, steps: &mut Steps) -> Result<MapSheet, NoMemory>
    ensures made { IfOk result (λ sheet. sheet ≡ unstamped (opened rope)) }
    ensures counted { steps.old ≤ steps.new }
{
    let text = LayeredText::opened(alloc, rope, steps)?;
    let layer = Layer::share(text.layer())?;
    of_text(alloc, text, layer, steps)
}

/// The sheet of a text without inlays and folds.
fn of_text(
    alloc: Global,
    text: LayeredText,
    layer: Layered,
    steps: &mut Steps,
) -> Result<MapSheet, NoMemory>
    requires layer { layer ≡ text }
    requires plain { text ≡ plain_source text.text }
    ensures made { IfOk result (λ sheet. sheet ≡ unstamped (opened text.text)) }
    ensures counted { steps.old ≤ steps.new }
{
    // For the proof: what an operation leaves is lawful.
    operation_laws();
    // For the proof: the text is one, and within its limit.
    let _len = text.rope().len();
    let _layer_len = layer.buffer_len();
    let lines = WrappedLines::new(alloc, layer, steps)?;
    of_lines(alloc, text, lines, steps)
}

/// The same, with its lines.
fn of_lines(
    alloc: Global,
    text: LayeredText,
    lines: WrappedLines<Layered>,
    steps: &mut Steps,
) -> Result<MapSheet, NoMemory>
    requires plain { text ≡ plain_source text.text }
    requires lines { lines ≡ unwrapped text }
    ensures made { IfOk result (λ sheet. sheet ≡ unstamped (opened text.text)) }
    ensures counted { steps.old ≤ steps.new }
{
    // For the proof: what an operation leaves is lawful, and the text is within its limit.
    operation_laws();
    let _len = text.rope().len();
    let _layer_len = text.layer().buffer_len();
    let rows = Rows::share(lines.rows())?;
    let blocks = BlockedRows::new(alloc, text.layer(), rows, steps)?;
    let text = Arc::new(alloc, text)?;
    MapSheet::assembled(alloc, text, lines, blocks)
}
