//! The lines that answer questions, as one text.
ghost use Rattle.std.specs.Prelude.{◌≡◌, ◌≤◌, ◌++◌, None, string_bytes, IfErr, IfOk, OnOk};
ghost use Rattle.display_map.specs.Replay.{present_of, versions_of};
ghost use Rattle.edit_script.specs.Answers.{lines_of};
ghost use Rattle.edit_script.specs.Verdict.{query_refusal, query_wants_settled};
ghost use Rattle.display_session.specs.Answers.{printed};

use cell_units::{NoMemory, Steps};
use display_map::View;
use edit_script::{Answer, Query, answer};
use std::alloc::Global;

/// Whether a question is answered only where every line is wrapped at the width.
pub(crate) fn wants_settled(query: &Query) -> bool
    ensures { result ≡ query_wants_settled query.now }
{
    !matches!(query, Query::Peek { .. })
}

/// Adds the lines of an answer, each with a line feed after it.
fn push_lines(
    alloc: Global,
    lines: &mut Answer,
    text: &mut String,
    steps: &mut Steps,
) -> Result<(), NoMemory>
    ensures { OnOk result (string_bytes text.new ≡ string_bytes text.old ++ printed lines.old) }
{
    while let Some(line) = lines.next_line(alloc, steps)? {
        text.push_str(line.as_str())?;
        text.push_str("\n")?;
    }
    Ok(())
}

/// The lines that answer a question on a view, each with a line feed after it.
pub(crate) fn answer_text(alloc: Global, view: &View, query: &Query) -> Result<String, NoMemory>
    requires published { 1 ≤ versions_of view.now.events }
    requires accepted { query_refusal (present_of view.now) query.now ≡ None }
    ensures { IfOk result (λ text. string_bytes text ≡ printed (lines_of view.now query.now)) }
{
    let mut steps = Steps::new();
    let Ok(mut lines) = answer(alloc, view, query, &mut steps) else {
        return Err(NoMemory);
    };
    let mut text = String::new(alloc);
    push_lines(alloc, &mut lines, &mut text, &mut steps)?;
    Ok(text)
}
