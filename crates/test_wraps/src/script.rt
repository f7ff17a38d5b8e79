//! What is done to a text under its maps and asked of it, step by step, and what comes of it, in words.
use crate::items::items;
use crate::read::{
    mark, marks, row_count, row_text, rows_before, rows_of, stretch, waiting, waiting_beside,
};
use cell_line::{Lines, Run};
use cell_units::{NoMemory, Rows, Steps};
use edit_patch::Patch;
use std::alloc::Global;
use std::test::Fail;
use test_stages::{LateText, Shown, StagedText};
use test_support::steps::{self, Played};
use test_support::told::{accepted, edited, number, pair};
use text_rope::Rope;

/// A change, or a question.
#[derive(Clone, Copy)]
pub(crate) enum Step<'a> {
    /// Puts a text in the place of a range, and says which rows this replaced.
    Edit(u32, u32, &'a str),
    /// Sets the width at which lines are to be wrapped.
    Width(u32),
    /// Takes the first lines that wait, and cuts them. It says which.
    Take,
    /// Lands what was taken last, and says which rows this replaced, and by which.
    Land,
    /// Wraps all lines, and says in how many runs.
    WrapAll,
    /// The lines that are to be wrapped next.
    Next,
    /// The same where two runs are out.
    Beside(Run, Run),
    /// Whether each line is wrapped at the width.
    Settled,
    Items,
    Lines,
    Rows,
    Marks,
    Mark(u32),
    RowsOf(u32),
    RowsBefore(u32),
    LineAt(u32),
    Row(u32, u32),
}

/// Takes the steps one by one over a text of which each line is in one row. It gives their answers, with `; ` between
/// them.
pub(crate) fn play(alloc: Global, text: &str, width: u32, steps: &[Step]) -> Result<String, Fail> {
    Ok(steps::play(Laid::new(alloc, text, width)?, steps)?)
}

/// The same, and then other steps over equal maps, and others again over the first ones. It gives the answers of the
/// last two, with ` / ` between them.
pub(crate) fn play_apart(
    alloc: Global,
    text: &str,
    width: u32,
    before: &[Step],
    apart: &[Step],
    behind: &[Step],
) -> Result<String, Fail> {
    let laid = Laid::new(alloc, text, width)?;
    Ok(steps::play_apart(laid, before, apart, behind)?)
}

/// The same, with the last steps but one over the text, and the last over the snapshot from before them and one that is
/// shared.
pub(crate) fn play_behind(
    alloc: Global,
    text: &str,
    width: u32,
    before: &[Step],
    apart: &[Step],
    behind: &[Step],
) -> Result<String, Fail> {
    let laid = Laid::new(alloc, text, width)?;
    Ok(steps::play_behind(laid, before, apart, behind)?)
}

/// So many lines of one text.
pub(crate) fn lines_of(alloc: Global, line: &str, count: u32) -> Result<String, NoMemory> {
    let mut text = String::from_str(alloc, line)?;
    for _ in 1..count {
        text.push('\n')?;
        text.push_str(line)?;
    }
    Ok(text)
}

/// A text of which each line is in one row.
pub(crate) fn unwrapped(alloc: Global, text: &str, width: u32) -> Result<LateText, Fail> {
    let mut steps = Steps::new();
    let rope = Rope::from_bytes(alloc, text.as_bytes(), &mut steps)?;
    let mut text = StagedText::new(alloc, rope, &mut steps)?;
    text.set_width(width)?;
    Ok(LateText::new(alloc, text)?)
}

/// A text to which steps are taken.
#[derive(Drop)]
struct Laid {
    alloc: Global,
    late: LateText,
}

impl<'a> Played<Step<'a>> for Laid {
    type Seen = Shown;

    fn alloc(&self) -> Global {
        self.alloc
    }

    fn share(&self) -> Result<Laid, NoMemory> {
        let late = LateText::new(self.alloc, self.late.text.share()?)?;
        Ok(Laid {
            alloc: self.alloc,
            late,
        })
    }

    fn take_step(&mut self, step: &Step<'a>) -> Result<String, NoMemory> {
        let alloc = self.alloc;
        match step {
            Step::Edit(start, end, text) => self.edit(*start, *end, text),
            Step::Width(width) => accepted(alloc, self.late.text.set_width(*width)),
            Step::Take => run(alloc, self.late.take(alloc, &mut Steps::new())?),
            Step::Land => landed(alloc, &self.late.land(alloc, &mut Steps::new())?),
            Step::WrapAll => number(alloc, Some(self.wrap_all()?)),
            Step::Next => run(alloc, waiting(&self.late.text)),
            Step::Beside(one, other) => run(alloc, waiting_beside(&self.late.text, *one, *other)),
            Step::Settled => yes_or_no(alloc, self.late.text.lines.is_settled()),
            Step::Items => number(alloc, Some(items(alloc, &self.late.text)?)),
            _ => look(alloc, self.late.text.lines.rows(), step),
        }
    }

    fn seen(&self) -> Result<Shown, NoMemory> {
        Rows::share(self.late.text.lines.rows())
    }

    fn share_seen(seen: &Shown) -> Result<Shown, NoMemory> {
        seen.share()
    }

    fn look(alloc: Global, seen: &Shown, step: &Step<'a>) -> Result<String, NoMemory> {
        look(alloc, seen, step)
    }
}

impl Laid {
    fn new(alloc: Global, text: &str, width: u32) -> Result<Laid, Fail> {
        let late = unwrapped(alloc, text, width)?;
        Ok(Laid { alloc, late })
    }

    /// Puts a text in the place of a range.
    fn edit(&mut self, start: u32, end: u32, text: &str) -> Result<String, NoMemory> {
        let alloc = self.alloc;
        let change = self
            .late
            .replace(alloc, start, end, text, &mut Steps::new());
        edited(alloc, change.map(|change| stretch(&change.rows)))
    }

    /// Wraps all lines, and says in how many runs.
    fn wrap_all(&mut self) -> Result<u32, NoMemory> {
        let lines = self.late.text.lines.lines().lines();
        for runs in 0..lines {
            if self
                .late
                .text
                .wrap_next(self.alloc, &mut Steps::new())?
                .is_none()
            {
                return Ok(runs);
            }
        }
        Ok(lines)
    }
}

/// The answer to a question.
fn look(alloc: Global, shown: &Shown, step: &Step) -> Result<String, NoMemory> {
    match step {
        Step::Lines => number(alloc, Some(shown.lines())),
        Step::Rows => number(alloc, Some(row_count(shown))),
        Step::Marks => mark_runs(alloc, shown),
        Step::Mark(line) => number(alloc, mark(shown, *line)),
        Step::RowsOf(line) => number(alloc, Some(rows_of(shown, *line))),
        Step::RowsBefore(line) => number(alloc, rows_before(shown, *line)),
        Step::LineAt(row) => pair(alloc, shown.line_at(*row)),
        Step::Row(line, row) => match row_text(alloc, shown, *line, *row)? {
            Some(text) => Ok(text),
            None => number(alloc, None),
        },
        _ => number(alloc, None),
    }
}

/// `yes` or `no`.
fn yes_or_no(alloc: Global, answer: bool) -> Result<String, NoMemory> {
    Ok(String::from_str(alloc, if answer { "yes" } else { "no" })?)
}

/// The first line of a run and the line after its last, or `none`.
fn run(alloc: Global, run: Option<Run>) -> Result<String, NoMemory> {
    match run {
        Some(run) => {
            let end = run.first.saturating_add(run.count);
            Ok(format!(in alloc; "{}..{end}", run.first)?)
        }
        None => number(alloc, None),
    }
}

/// Which rows were replaced, and by which, or `none`.
pub(crate) fn landed(alloc: Global, patch: &Patch) -> Result<String, NoMemory> {
    let mut all = String::new(alloc);
    for edit in patch.edits() {
        if all.len() > 0 {
            all.push_str(", ")?;
        }
        let (old_start, old_end) = (edit.old_start, edit.old_end);
        let (new_start, new_end) = (edit.new_start, edit.new_end);
        let told = format!(in alloc; "{old_start}..{old_end} to {new_start}..{new_end}")?;
        all.push_str(told.as_str())?;
    }
    if all.len() == 0 {
        return number(alloc, None);
    }
    Ok(all)
}

/// The runs of lines of one mark, as `0-4@5 6-9@5`, or `none`.
fn mark_runs(alloc: Global, shown: &Shown) -> Result<String, NoMemory> {
    let mut all = String::new(alloc);
    for run in marks(alloc, shown)? {
        if all.len() > 0 {
            all.push(' ')?;
        }
        let told = format!(in alloc; "{}-{}@{}", run.first, run.last, run.width)?;
        all.push_str(told.as_str())?;
    }
    if all.len() == 0 {
        return number(alloc, None);
    }
    Ok(all)
}
