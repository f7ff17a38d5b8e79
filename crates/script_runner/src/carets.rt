//! Answers to questions about a caret or a selection.
ghost use Rattle.std.specs.Prelude.{◌≡◌, ◌≤◌, [], ◌∷◌, ◌++◌, length, map, IfOk, IfErr, OnOk};
ghost use Rattle.display_map.specs.Replay.{present_of};
ghost use Rattle.script_runner.specs.CaretLines.{caret_line, caret_lines, range_line, selection_lines, span_line};
ghost use Rattle.script_runner.specs.Outside.{Takes};
ghost use Rattle.script_runner.specs.Output.{printed_with};
ghost use Rattle.script_runner.specs.inside.Carets.{lines_of};
ghost use Rattle.script_runner.specs.Writing.{IsUnwritten};

use crate::outside::Sink;
use crate::stop::Stop;
use crate::write::write_prefixed;
use cell_units::{NoMemory, Steps, Text};
use display_map::View;
use edit_script::CaretQuery;
use std::alloc::Global;
use view_moves::{Caret, RowSpan, Selection, select, step};

/// What a question about a caret is answered with.
#[derive(Drop)]
pub enum CaretAnswer {
    /// Where a motion took the caret.
    Moved(Caret),
    /// What a selection covers.
    Selected(Selection),
}

/// The answer to a question about a caret on a view.
pub fn answer_caret(
    alloc: Global,
    view: &View,
    query: &CaretQuery,
    steps: &mut Steps,
) -> Result<CaretAnswer, NoMemory>
    ensures answered { IfOk result
        (λ answer. lines_of answer ≡ caret_lines (present_of view.now) query.now) }
    ensures counted { steps.old ≤ steps.new }
{
    match query {
        CaretQuery::Move { from, goal, motion } => {
            let caret = step(alloc, view, *from, *goal, *motion, steps)?;
            Ok(CaretAnswer::Moved(caret))
        }
        CaretQuery::Select { one, other } => {
            let selection = select(alloc, view, *one, *other, steps)?;
            Ok(CaretAnswer::Selected(selection))
        }
    }
}

/// The line of a caret: its row, its column and its goal.
fn caret_line(alloc: Global, caret: &Caret) -> Result<Text, NoMemory>
    ensures { IfOk result (λ line. line ≡ caret_line caret.now) }
{
    let spot = caret.spot;
    let line = format!(in alloc; "{} {} {}", spot.row, spot.col, caret.goal)?;
    Text::from_str(alloc, line.as_str())
}

/// The line of the offsets from `start` to `end`.
fn range_line(alloc: Global, start: u32, end: u32) -> Result<Text, NoMemory>
    ensures { IfOk result (λ line. line ≡ range_line start end) }
{
    let line = format!(in alloc; "{} {}", start, end)?;
    Text::from_str(alloc, line.as_str())
}

/// The line of the columns that are selected in a row.
fn span_line(alloc: Global, span: &RowSpan) -> Result<Text, NoMemory>
    ensures { IfOk result (λ line. line ≡ span_line span.now) }
{
    let line = format!(in alloc; "{} {}-{}", span.row, span.from, span.to)?;
    Text::from_str(alloc, line.as_str())
}

/// Writes the lines of the spans of a selection, each behind the prefix.
fn write_spans<K: Sink>(
    alloc: Global,
    prefix: &str,
    spans: &[RowSpan],
    out: &mut K,
) -> Result<(), Stop>
    ensures written { OnOk result
        (Takes (printed_with prefix.now (map span_line spans.now))
        (K.state out.old) (K.state out.new)) }
    ensures stopped { IfErr result
        (IsUnwritten (printed_with prefix.now (map span_line spans.now))
        (K.state out.old) (K.state out.new)) }
{
    for span in spans {
        let line = span_line(alloc, span)?;
        write_prefixed(alloc, prefix, line.as_str(), out)?;
    }
    Ok(())
}

/// Writes the lines of a selection, each behind the prefix.
fn write_selection<K: Sink>(
    alloc: Global,
    prefix: &str,
    selection: &Selection,
    out: &mut K,
) -> Result<(), Stop>
    ensures written { OnOk result (Takes
        (printed_with prefix.now
        (selection_lines selection.now.start selection.now.end selection.now.spans.items))
        (K.state out.old) (K.state out.new)) }
    ensures stopped { IfErr result (IsUnwritten
        (printed_with prefix.now
        (selection_lines selection.now.start selection.now.end selection.now.spans.items))
        (K.state out.old) (K.state out.new)) }
{
    let line = range_line(alloc, selection.start, selection.end)?;
    write_prefixed(alloc, prefix, line.as_str(), out)?;
    write_spans(alloc, prefix, selection.spans.as_slice(), out)
}

/// Writes the line of a caret behind the prefix.
fn write_caret<K: Sink>(alloc: Global, prefix: &str, caret: &Caret, out: &mut K) -> Result<(), Stop>
    ensures written { OnOk result
        (Takes (printed_with prefix.now (caret_line caret.now ∷ []))
        (K.state out.old) (K.state out.new)) }
    ensures stopped { IfErr result
        (IsUnwritten (printed_with prefix.now (caret_line caret.now ∷ []))
        (K.state out.old) (K.state out.new)) }
{
    let line = caret_line(alloc, caret)?;
    write_prefixed(alloc, prefix, line.as_str(), out)
}

/// Writes the lines of an answer, each behind the prefix and with its line feed, and says how many they are.
pub fn write_caret_answer<K: Sink>(
    alloc: Global,
    prefix: &str,
    answer: &CaretAnswer,
    out: &mut K,
) -> Result<u64, Stop>
    ensures lines { IfOk result (λ lines. lines ≡ length (lines_of answer.now)) }
    ensures written { OnOk result
        (Takes (printed_with prefix.now (lines_of answer.now))
        (K.state out.old) (K.state out.new)) }
    ensures stopped { IfErr result
        (IsUnwritten (printed_with prefix.now (lines_of answer.now))
        (K.state out.old) (K.state out.new)) }
{
    match answer {
        CaretAnswer::Moved(caret) => {
            write_caret(alloc, prefix, caret, out)?;
            Ok(1)
        }
        CaretAnswer::Selected(selection) => {
            write_selection(alloc, prefix, selection, out)?;
            Ok(selection.spans.len() as u64 + 1)
        }
    }
}
