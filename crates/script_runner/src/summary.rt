//! The line in place of the answers where text and script are made.
ghost use Rattle.std.specs.Prelude.{◌≡◌, [], ◌∷◌, IfOk, IfErr, OnOk};
ghost use Rattle.cell_units.specs.Record.{line_count};
ghost use Rattle.display_map.specs.Replay.{present_of};
ghost use Rattle.script_runner.specs.Outside.{Takes};
ghost use Rattle.script_runner.specs.Output.{printed, summary_at, summary_line};
ghost use Rattle.script_runner.specs.Writing.{IsUnwritten};

use crate::outside::Sink;
use crate::stop::Stop;
use crate::tally::Tally;
use crate::write::write_line;
use cell_units::{NoMemory, Steps, Text};
use display_map::Display;
use std::alloc::Global;

/// What a run has come to: the lines and the bytes of its text, how many lines of its script were accepted and how many
/// refused, how many lines the answers have, and how many rows there are.
#[derive(Clone, Copy, Debug, PartialEq, Eq)]
pub(crate) struct Summary {
    pub(crate) lines: u64,
    pub(crate) bytes: u64,
    pub(crate) accepted: u64,
    pub(crate) refused: u64,
    pub(crate) answers: u128,
    pub(crate) rows: u32,
}

/// How many lines a text has. After a last line feed there is one that is empty.
fn line_count(text: &str) -> u64
    ensures { result ≡ line_count text.now }
{
    let feeds = text.as_bytes().iter().filter(|b| **b == b'\n').count();
    feeds as u64 + 1
}

/// The summary of a display after a script, of which this was counted.
fn summary_at(alloc: Global, display: &Display, tally: Tally) -> Result<Summary, NoMemory>
    ensures { IfOk result (λ summary. summary ≡ summary_at (present_of display.now) tally) }
{
    let view = display.view()?;
    let plain = view.plain(alloc, &mut Steps::new())?;
    let text = plain.text.as_str();
    Ok(Summary {
        lines: line_count(text),
        bytes: text.len() as u64,
        // No more lines are refused than are handled.
        accepted: tally.handled.saturating_sub(tally.refused),
        refused: tally.refused,
        answers: tally.answers,
        rows: view.row_count(),
    })
}

/// The line of a summary.
fn summary_line(alloc: Global, summary: Summary) -> Result<Text, NoMemory>
    ensures { IfOk result (λ line. line ≡ summary_line summary) }
{
    let Summary {
        lines,
        bytes,
        accepted,
        refused,
        answers,
        rows,
    } = summary;
    let line = format!(in alloc;
        "made lines {lines} bytes {bytes} accepted {accepted} refused {refused} answers {answers} rows {rows}"
    )?;
    Text::from_str(alloc, line.as_str())
}

/// Writes the summary of a display after a script, of which this was counted, as one line. It stops with `Stop::Write` where
/// a write fails, after a prefix of the line, and with `Stop::Memory` where there is no memory, before anything is written.
pub fn write_summary<K: Sink>(
    alloc: Global,
    display: &Display,
    tally: Tally,
    out: &mut K,
) -> Result<(), Stop>
    ensures written { OnOk result
        (Takes (printed (summary_line (summary_at (present_of display.now) tally) ∷ []))
        (K.state out.old) (K.state out.new)) }
    ensures stopped { IfErr result
        (IsUnwritten (printed (summary_line (summary_at (present_of display.now) tally) ∷ []))
        (K.state out.old) (K.state out.new)) }
{
    let summary = summary_at(alloc, display, tally)?;
    let line = summary_line(alloc, summary)?;
    write_line(alloc, line.as_str(), out)
}
