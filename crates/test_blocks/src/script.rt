//! What is done to a text with blocks and asked of it, step by step, and what comes of it, in words.
use crate::laid::Laid;
use crate::read::{row, rows, text_at, texts};
use crate::seen::Seen;
use cell_line::Run;
use cell_units::{Fault, NoMemory, Side, Text};
use std::alloc::Global;
use std::test::Fail;
use test_support::steps::{self, Played};
use test_support::told::{accepted, number, refused};

/// A change, or a question.
#[derive(Clone, Copy)]
pub(crate) enum Step<'a> {
    /// Adds the block of an id, on a side of the line of an offset, with these lines.
    Block(u32, Side, u32, &'a [&'a str]),
    /// The same, above, with one line of so many letters.
    BlockLetters(u32, u32, usize),
    /// The same, with so many lines `x`.
    BlockLines(u32, u32, usize),
    /// Adds a block of the line `x` at the first line for each id below this one, above it for the even ones and below
    /// it for the odd ones.
    BlockEach(u32),
    /// Takes the block of an id out.
    Unblock(u32),
    /// Shows the blocks that are there now.
    Show,
    /// Puts a text in the place of a range, and shows what is there then.
    Edit(u32, u32, &'a str),
    /// Sets the width at which lines are to be wrapped.
    Width(u32),
    /// Wraps the first lines that wait, shows what is there then, and says how many these are.
    Wrap,
    /// Takes the first lines that wait, cuts them, and says how many these are.
    Take,
    /// Lands what was taken last, and shows what is there then.
    Land,
    /// The number of blocks.
    Len,
    /// The block at a place among those of a side.
    Get(Side, u32),
    /// The number of rows.
    Count,
    /// All rows.
    All,
    Row(u32),
    /// The rows from one on, up to a count.
    Rows(u32, u32),
    /// The row of a line's text row.
    RowOf(u32, u32),
    /// The line and the text row at a row.
    TextAt(u32),
    /// The last line that begins at or before a row.
    LineOfRow(u32),
    /// The row at which a line begins, with the blocks above it.
    StartOf(u32),
}

/// Takes the steps one by one over a text of which each line is in one row. It gives their answers, with `; ` between
/// them.
pub(crate) fn play(alloc: Global, text: &str, steps: &[Step]) -> Result<String, Fail> {
    Ok(steps::play(Laid::new(alloc, text)?, steps)?)
}

/// The same, and then other steps over an equal text, and others again over the first one. It gives the answers of the
/// last two, with ` / ` between them.
pub(crate) fn play_apart(
    alloc: Global,
    text: &str,
    before: &[Step],
    apart: &[Step],
    behind: &[Step],
) -> Result<String, Fail> {
    let laid = Laid::new(alloc, text)?;
    Ok(steps::play_apart(laid, before, apart, behind)?)
}

/// The same, with the last steps but one over the text, and the last asked of what was shown before them, and of what
/// is shared of it.
pub(crate) fn play_behind(
    alloc: Global,
    text: &str,
    before: &[Step],
    apart: &[Step],
    behind: &[Step],
) -> Result<String, Fail> {
    let laid = Laid::new(alloc, text)?;
    Ok(steps::play_behind(laid, before, apart, behind)?)
}

impl<'a> Played<Step<'a>> for Laid {
    type Seen = Seen;

    fn alloc(&self) -> Global {
        self.alloc
    }

    fn share(&self) -> Result<Laid, NoMemory> {
        self.share_all()
    }

    fn take_step(&mut self, step: &Step<'a>) -> Result<String, NoMemory> {
        take_step(self, step)
    }

    fn seen(&self) -> Result<Seen, NoMemory> {
        self.seen_now()
    }

    fn share_seen(seen: &Seen) -> Result<Seen, NoMemory> {
        seen.share()
    }

    fn look(_alloc: Global, seen: &Seen, step: &Step<'a>) -> Result<String, NoMemory> {
        look(seen, step)
    }
}

/// The answer to a step.
fn take_step(laid: &mut Laid, step: &Step) -> Result<String, NoMemory> {
    let alloc = laid.alloc;
    match step {
        Step::Block(id, side, offset, lines) => {
            let lines = texts(alloc, lines)?;
            accepted(alloc, laid.insert(*id, *side, *offset, lines.as_slice()))
        }
        Step::BlockLetters(id, offset, count) => {
            let line = "a".repeat(alloc, *count)?;
            let line = Text::from_str(alloc, line.as_str())?;
            accepted(alloc, laid.insert(*id, Side::Above, *offset, &[line]))
        }
        Step::BlockLines(id, offset, count) => {
            let lines = same_lines(alloc, *count)?;
            accepted(
                alloc,
                laid.insert(*id, Side::Above, *offset, lines.as_slice()),
            )
        }
        Step::BlockEach(count) => accepted(alloc, insert_each(laid, *count)),
        Step::Unblock(id) => accepted(alloc, laid.remove(*id)),
        Step::Len => number(alloc, Some(laid.len())),
        Step::Get(side, at) => listed(alloc, laid, *side, *at),
        _ => change(laid, step),
    }
}

/// The answer to a step that adds and removes no block.
fn change(laid: &mut Laid, step: &Step) -> Result<String, NoMemory> {
    let alloc = laid.alloc;
    match step {
        Step::Show => done(alloc, laid.show()),
        Step::Edit(start, end, text) => accepted(alloc, laid.edit(*start, *end, text)),
        Step::Width(width) => accepted(alloc, laid.set_width(*width)),
        Step::Wrap => counted(alloc, laid.wrap_next()?),
        Step::Take => counted(alloc, laid.take()?),
        Step::Land => done(alloc, laid.land()),
        _ => look(&laid.seen_now()?, step),
    }
}

/// Adds a block of one line for each of so many ids, above and below by turns, up to the first that is refused.
fn insert_each(laid: &mut Laid, count: u32) -> Result<(), Fault> {
    let lines = same_lines(laid.alloc, 1)?;
    for id in 0..count {
        let side = if id % 2 == 0 {
            Side::Above
        } else {
            Side::Below
        };
        laid.insert(id, side, 0, lines.as_slice())?;
    }
    Ok(())
}

/// The answer to a question of what is shown.
fn look(seen: &Seen, step: &Step) -> Result<String, NoMemory> {
    let alloc = seen.alloc();
    match step {
        Step::Count => number(alloc, Some(seen.row_count())),
        Step::All => rows(seen, 0, u32::MAX),
        Step::Row(number) => row(seen, *number),
        Step::Rows(first, count) => rows(seen, *first, *count),
        Step::RowOf(line, row) => number(alloc, seen.row_of(*line, *row)),
        Step::TextAt(row) => text_at(seen, *row),
        Step::LineOfRow(row) => number(alloc, seen.line_of_row(*row)),
        Step::StartOf(line) => number(alloc, seen.start_of(*line)),
        _ => number(alloc, None),
    }
}

/// The id, the offset and the lines of the block at a place among those of a side, or `none`.
fn listed(alloc: Global, laid: &Laid, side: Side, at: u32) -> Result<String, NoMemory> {
    let Some((offset, id, lines)) = laid.block_at(side, at) else {
        return number(alloc, None);
    };
    let mut told = format!(in alloc; "{id} at {offset}")?;
    for line in lines {
        told.push(' ')?;
        told.push_str(line.as_str())?;
    }
    Ok(told)
}

/// So many lines `x`.
fn same_lines(alloc: Global, count: usize) -> Result<Vec<Text>, NoMemory> {
    let mut lines = Vec::new(alloc);
    for _ in 0..count {
        lines.push(Text::from_str(alloc, "x")?)?;
    }
    Ok(lines)
}

/// How many lines a run has, or `none`.
fn counted(alloc: Global, run: Option<Run>) -> Result<String, NoMemory> {
    number(alloc, run.map(|run| run.count))
}

/// `ok`.
fn done(alloc: Global, answer: Result<(), NoMemory>) -> Result<String, NoMemory> {
    answer?;
    refused(alloc, Ok(()))
}
