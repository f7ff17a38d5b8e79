//! The lines that answer questions about a caret or a selection.
ghost use Rattle.std.specs.Prelude.{◌≡◌, [], ◌∷◌, ◌++◌, map, string_bytes, IfOk, OnOk};
ghost use Rattle.display_map.specs.Replay.{present_of};
ghost use Rattle.display_session.specs.Answers.{printed};
ghost use Rattle.display_session.specs.CaretLines.{caret_line, caret_lines, range_line, selection_lines, span_line};

use cell_units::{NoMemory, Steps};
use display_map::View;
use edit_script::CaretQuery;
use std::alloc::Global;
use view_moves::{Caret, RowSpan, Selection, select, step};

/// The line of a caret: its row, its column and its goal.
fn caret_text(alloc: Global, caret: &Caret) -> Result<String, NoMemory>
    ensures { IfOk result (λ text. string_bytes text ≡ caret_line caret.now ++ 10 ∷ []) }
{
    let spot = caret.spot;
    let mut text = format!(in alloc; "{} {} {}", spot.row, spot.col, caret.goal)?;
    text.push_str("\n")?;
    Ok(text)
}

/// The line of the offsets from `start` to `end`.
fn range_text(alloc: Global, start: u32, end: u32) -> Result<String, NoMemory>
    ensures { IfOk result (λ text. string_bytes text ≡ range_line start end ++ 10 ∷ []) }
{
    let mut text = format!(in alloc; "{} {}", start, end)?;
    text.push_str("\n")?;
    Ok(text)
}

/// The line of the columns that are selected in a row.
fn span_text(alloc: Global, span: &RowSpan) -> Result<String, NoMemory>
    ensures { IfOk result (λ text. string_bytes text ≡ span_line span.now ++ 10 ∷ []) }
{
    let mut text = format!(in alloc; "{} {}-{}", span.row, span.from, span.to)?;
    text.push_str("\n")?;
    Ok(text)
}

/// Adds the lines of spans.
fn push_spans(alloc: Global, spans: &[RowSpan], text: &mut String) -> Result<(), NoMemory>
    ensures { OnOk result
        (string_bytes text.new ≡ string_bytes text.old ++ printed (map span_line spans.now)) }
{
    for span in spans {
        let line = span_text(alloc, span)?;
        text.push_str(line.as_str())?;
    }
    Ok(())
}

/// The lines of a selection: its range, and then each of its spans.
fn selection_text(alloc: Global, selection: &Selection) -> Result<String, NoMemory>
    ensures { IfOk result (λ text. string_bytes text ≡ printed
        (selection_lines selection.now.start selection.now.end selection.now.spans.items)) }
{
    let mut text = range_text(alloc, selection.start, selection.end)?;
    push_spans(alloc, selection.spans.as_slice(), &mut text)?;
    Ok(text)
}

/// The lines that answer a question about a caret on a view, each with a line feed after it.
pub(crate) fn caret_answer(
    alloc: Global,
    view: &View,
    query: &CaretQuery,
) -> Result<String, NoMemory>
    ensures { IfOk result (λ text.
        string_bytes text ≡ printed (caret_lines (present_of view.now) query.now)) }
{
    let mut steps = Steps::new();
    match query {
        CaretQuery::Move { from, goal, motion } => {
            let caret = step(alloc, view, *from, *goal, *motion, &mut steps)?;
            caret_text(alloc, &caret)
        }
        CaretQuery::Select { one, other } => {
            let selection = select(alloc, view, *one, *other, &mut steps)?;
            selection_text(alloc, &selection)
        }
    }
}
