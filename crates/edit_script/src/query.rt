//! The answers to queries, and the lines of refusals.
ghost use Rattle.std.specs.Prelude.{◌≡◌, ◌≤◌, [], ◌∷◌, decimal, string_bytes, None, IfOk, IfErr, OnOk};
ghost use Rattle.display_map.specs.Replay.{present_of, versions_of};
ghost use Rattle.display_sheet.specs.Shown.{mark_runs};
ghost use Rattle.edit_script.specs.Printed.{mark_text, spot_line, version_line, refusal_text};
ghost use Rattle.edit_script.specs.Verdict.{query_refusal};
ghost use Rattle.edit_script.specs.Answers.{IsUnanswered, HasAnswer, lines_of};

use crate::answer_lines::Answer;
use crate::asked::Query;
use cell_units::{Fault, NoMemory, Refusal, Spot, Steps, Text};
use display_map::{MarkRun, View};
use std::alloc::Global;

/// Why a view refuses a query, if it does. Only one that shows an offset is refused, past the end of the text or off a
/// boundary. The offset counts bytes. Out of memory is no refusal.
pub fn query_refusal(
    alloc: Global,
    view: &View,
    query: &Query,
    steps: &mut Steps,
) -> Option<Refusal>
    ensures refusal { result ≡ query_refusal (present_of view.now) query.now }
    ensures counted { steps.old ≤ steps.new }
{
    let Query::Show { offset, bias } = query else {
        return None;
    };
    match view.show(alloc, *offset, *bias, steps) {
        Err(Fault::Refused(refusal)) => Some(refusal),
        Ok(_) | Err(Fault::NoMemory) => None,
    }
}

/// The lines that answer a query on a view, one after the other. A query that shows an offset is refused as `BadRange`
/// where that is past the end of the text or off a boundary. The offset counts bytes. No other query is refused.
pub fn answer<'a>(
    alloc: Global,
    view: &'a View,
    query: &Query,
    steps: &mut Steps,
) -> Result<Answer<'a>, Fault>
    requires { HasAnswer (versions_of view.now.events) query.now }
    // What the lines are.
    ensures answered { IfOk result (λ answer. answer ≡ lines_of view.now query.now) }
    // Which queries are refused.
    ensures accepted { OnOk result (query_refusal (present_of view.now) query.now ≡ None) }
    ensures refused { IfErr result (IsUnanswered (present_of view.now) query.now) }
    // The work.
    ensures counted { steps.old ≤ steps.new }
{
    match query {
        Query::Rows { first, count } => Ok(Answer::new(alloc, view, None, *first, *count)),
        Query::Peek { first, count } => {
            let head = version_line(alloc, view, steps)?;
            Ok(Answer::new(alloc, view, Some(head), *first, *count))
        }
        Query::Show { offset, bias } => {
            let spot = view.show(alloc, *offset, *bias, steps)?;
            Ok(line_alone(alloc, view, spot_line(alloc, spot)?))
        }
        Query::Back { spot, bias } => {
            let offset = view.back(alloc, *spot, *bias, steps)?;
            Ok(line_alone(alloc, view, number_line(alloc, offset)?))
        }
        Query::Clip { spot, bias } => {
            let spot = view.clip(alloc, *spot, *bias, steps)?;
            Ok(line_alone(alloc, view, spot_line(alloc, spot)?))
        }
    }
}

/// The answer of one line.
fn line_alone(alloc: Global, view: &View, line: Text) -> Answer<'_>
    ensures { result ≡ line ∷ [] }
{
    Answer::new(alloc, view, Some(line), 0, 0)
}

/// The line of a spot: its row and its column.
fn spot_line(alloc: Global, spot: Spot) -> Result<Text, NoMemory>
    ensures { IfOk result (λ line. line ≡ spot_line spot) }
{
    let line = format!(in alloc; "{} {}", spot.row, spot.col)?;
    Text::from_str(alloc, line.as_str())
}

/// The line of an offset.
fn number_line(alloc: Global, offset: u32) -> Result<Text, NoMemory>
    ensures { IfOk result (λ line. line ≡ decimal offset) }
{
    let line = format!(in alloc; "{}", offset)?;
    Text::from_str(alloc, line.as_str())
}

/// The line of a view's version: the number of its newest version and the runs of its marks.
fn version_line(alloc: Global, view: &View, steps: &mut Steps) -> Result<Text, NoMemory>
    requires { 1 ≤ versions_of view.now.events }
    ensures line { IfOk result (λ line. line
        ≡ version_line (versions_of view.now.events) (mark_runs (present_of view.now))) }
    ensures counted { steps.old ≤ steps.new }
{
    let runs = view.marks(alloc, steps)?;
    let mut line = format!(in alloc; "version {} marks", view.versions() - 1)?;
    for run in &runs {
        let text = mark_text(alloc, run)?;
        line.push_str(text.as_str())?;
    }
    Text::from_str(alloc, line.as_str())
}

/// A run of marks, with a space before it.
fn mark_text(alloc: Global, run: &MarkRun) -> Result<String, NoMemory>
    ensures { IfOk result (λ text. string_bytes text ≡ mark_text run.now) }
{
    Ok(format!(in alloc; " {}-{}@{}", run.first, run.last, run.width)?)
}

/// The line of a refusal, without a line feed: `!`, a space and the refusal's number.
pub fn refusal_line(alloc: Global, refusal: Refusal) -> Result<Text, NoMemory>
    ensures { IfOk result (λ line. line ≡ refusal_text refusal) }
{
    let line = format!(in alloc; "! {}", refusal.number())?;
    Text::from_str(alloc, line.as_str())
}
