//! What takes a batch back, in one pass over it.
ghost use Rattle.std.specs.Prelude.{◌≡◌, ◌≤◌, None, length, IfOk};
ghost use Rattle.std.specs.Str.{IsUtf8};
ghost use Rattle.cell_units.specs.Text.{clean};
ghost use Rattle.display_sheet.specs.Changes.{edit_refusal, is_operation};
ghost use Rattle.display_map.specs.Replay.{present_of};
ghost use Rattle.undo_line.specs.Inverse.{Leads, inverse, text_after};

use cell_units::{NoMemory, Steps};
use display_map::ViewOn;
use display_sheet::Splice;
use kept_sheet::Sheet;
use std::alloc::Global;

/// How many bytes a text has once each CR LF and each lone CR is made an LF.
fn clean_len(text: &str) -> usize
    ensures { result ≡ length (clean text.now) }
{
    let bytes = text.as_bytes();
    let mut len = 0;
    for i in 0..bytes.len() {
        if !bytes[i..].starts_with(b"\r\n") {
            len += 1;
        }
    }
    len
}

/// Whether a splice is an operation: it doesn't replace nothing by nothing.
fn is_operation(splice: &Splice) -> bool
    ensures operation { result ≡ is_operation splice.now }
    ensures utf8 { IsUtf8 splice.now.text }
{
    let text = splice.text.as_str();
    splice.start != splice.end || !text.is_empty()
}

/// What takes a batch back (*Undo*): for each operation of it, in order, the range of its text after the batch, and
/// the text that it replaced. It reads the batch and the replaced bytes once.
pub fn inverse<S: Sheet>(
    alloc: Global,
    view: &ViewOn<S>,
    batch: &[Splice],
    steps: &mut Steps,
) -> Result<Vec<Splice>, NoMemory>
    requires { edit_refusal (present_of view.now) batch.now ≡ None }
    ensures inverse { IfOk result (λ back.
        back.items ≡ inverse (present_of view.now).text batch.now) }
    ensures leads { IfOk result (λ back. let text = (present_of view.now).text
        in Leads (text_after text batch.now) back.items text) }
    ensures counted { steps.old ≤ steps.new }
{
    // For the proof: the present text is UTF-8 without carriage returns.
    view.lawful();
    let mut back = Vec::new(alloc);
    // Where the last range ended: in the text before the batch, and in the one after it.
    let mut from = 0;
    let mut at = 0;
    for splice in batch {
        let start = at + (splice.start - from);
        let end = start + clean_len(splice.text.as_str()) as u32;
        if is_operation(splice) {
            let text = view.slice(alloc, splice.start, splice.end, steps)?;
            back.push(Splice { start, end, text })?;
        }
        from = splice.end;
        at = end;
    }
    Ok(back)
}
