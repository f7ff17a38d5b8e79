//! Random changes of a text under its maps, each beside the same change of plain lists.
use crate::items::items;
use crate::plain::{PlainLine, PlainRun, PlainText};
use crate::read::{
    mark, marks, row_count, row_text, rows_before, rows_of, stretch, waiting, waiting_beside,
};
use crate::script::{lines_of, unwrapped};
use cell_line::Run;
use cell_units::{Fault, NoMemory, Refusal, Rows, Steps};
use edit_patch::Patch;
use generated_input::Generator;
use std::alloc::Global;
use std::test::Fail;
use test_stages::{LateText, Shown};
use test_support::steps::{History, first_difference};
use test_support::told::Stretch;
use test_support::words::{drawn_range, drawn_text, drawn_width};

/// The first line of a run, and how many there are.
fn plain_run(run: Option<Run>) -> PlainRun {
    run.map(|run| (run.first, run.count))
}

/// Whether a line has these rows, after so many others.
fn has_line(
    alloc: Global,
    shown: &Shown,
    number: u32,
    line: &PlainLine,
    before: u32,
) -> Result<bool, NoMemory> {
    let mut row: u32 = 0;
    for text in line.rows() {
        let told = row_text(alloc, shown, number, row)?;
        if !told.is_some_and(|told| told.as_bytes() == text.as_slice())
            || shown.line_at(before.wrapping_add(row)) != Some((number, row))
        {
            return Ok(false);
        }
        row = row.wrapping_add(1);
    }
    Ok(
        rows_of(shown, number) == row
            && rows_before(shown, number) == Some(before)
            && mark(shown, number) == Some(line.mark()),
    )
}

/// Whether a snapshot shows these lines, and no others.
fn has_lines(alloc: Global, shown: &Shown, lines: &[PlainLine]) -> Result<bool, NoMemory> {
    let mut rows: u32 = 0;
    let mut number: u32 = 0;
    for line in lines {
        if !has_line(alloc, shown, number, line, rows)? {
            return Ok(false);
        }
        rows = rows.wrapping_add(line.row_count());
        number = number.wrapping_add(1);
    }
    Ok(shown.lines() == number && row_count(shown) == rows && shown.line_at(rows).is_none())
}

/// Whether a patch has these edits: the start and the end of the old rows and of the new ones.
fn has_edits(patch: &Patch, edits: &[[u32; 4]]) -> bool {
    let told = patch.edits();
    if told.len() != edits.len() {
        return false;
    }
    for (one, other) in told.iter().zip(edits) {
        let numbers = [one.old_start, one.old_end, one.new_start, one.new_end];
        if numbers != *other {
            return false;
        }
    }
    true
}

/// A text under its maps and the same by plain lists, changed together.
#[derive(Drop)]
struct Wrapped {
    alloc: Global,
    late: LateText,
    plain: PlainText,
    /// The stamps of the lines of the run that was taken last, and the width at which these were cut.
    stamps: Vec<u32>,
    width: u32,
    generator: Generator,
}

impl Wrapped {
    /// A text, of which each line is in one row.
    fn new(alloc: Global, text: &str, seed: u64) -> Result<Wrapped, Fail> {
        Ok(Wrapped {
            alloc,
            late: unwrapped(alloc, text, 5)?,
            plain: PlainText::new(alloc, text.as_bytes(), 5)?,
            stamps: Vec::new(alloc),
            width: 0,
            generator: Generator::new(seed),
        })
    }

    /// Takes the first lines that wait.
    fn takes_alike(&mut self) -> Result<bool, NoMemory> {
        let run = self.plain.waiting(None);
        let told = self.late.take(self.alloc, &mut Steps::new())?;
        if let Some(run) = run {
            self.stamps = self.plain.stamps(run)?;
            self.width = self.late.text.lines.width();
        }
        Ok(plain_run(told) == run)
    }

    /// Lands what was taken last.
    fn lands_alike(&mut self) -> Result<bool, NoMemory> {
        let patch = self.late.land(self.alloc, &mut Steps::new())?;
        if self.width != self.late.text.lines.width() {
            return Ok(patch.edits().is_empty());
        }
        let edits = self.plain.land(self.stamps.as_slice())?;
        Ok(has_edits(&patch, edits.as_slice()))
    }

    /// Replaces a range, which may be backwards or past the end, and is short where the text is.
    fn edits_alike(&mut self) -> Result<bool, NoMemory> {
        let len = self.plain.len();
        let (start, end) = drawn_range(&mut self.generator, len, (len / 4).max(6));
        let word = drawn_text(&mut self.generator);
        if start > end || end > len {
            let refusal = self.edit(start, end, word);
            return Ok(refusal == Err(Fault::Refused(Refusal::BadRange)));
        }
        let rows = self.plain.edit(start, end, word.as_bytes())?;
        Ok(self.edit(start, end, word) == Ok(Some(rows)))
    }

    /// Puts a text in the place of a range, and gives the rows that this replaced.
    fn edit(&mut self, start: u32, end: u32, word: &str) -> Result<Stretch, Fault> {
        let alloc = self.alloc;
        let change = self
            .late
            .replace(alloc, start, end, word, &mut Steps::new())?;
        Ok(stretch(&change.rows))
    }

    /// Whether the map shows the plain lines, with their marks, and has those wait that do.
    fn shows_alike(&mut self) -> Result<bool, NoMemory> {
        let out = Run {
            first: self.generator.below(9),
            count: self.generator.below(9),
        };
        let none = Run {
            first: u32::MAX,
            count: 0,
        };
        let late = &self.late;
        let beside = waiting_beside(&late.text, out, none);
        let shown = late.text.lines.rows();
        Ok(
            has_lines(self.alloc, shown, self.plain.lines())?
                && marks(self.alloc, shown)?.as_slice() == self.plain.marks()?.as_slice()
                && items(self.alloc, &late.text)? == self.plain.items()
                && plain_run(waiting(&late.text)) == self.plain.waiting(None)
                && plain_run(beside) == self.plain.waiting(Some((out.first, out.count))),
        )
    }
}

impl History for Wrapped {
    fn turns_alike(&mut self) -> Result<bool, NoMemory> {
        let answers_alike = match self.generator.below(20) {
            0 => {
                let width = drawn_width(&mut self.generator);
                self.plain.set_width(width);
                self.late.text.set_width(width).is_ok()
            }
            1 | 2 | 3 | 4 => self.takes_alike()?,
            5 | 6 | 7 | 8 => self.lands_alike()?,
            _ => self.edits_alike()?,
        };
        Ok(answers_alike && self.shows_alike()?)
    }
}

/// Takes so many turns over a text. It gives the first after which the map and the lists don't agree.
fn differ_at(alloc: Global, text: &str, seed: u64, turns: u32) -> Result<Option<u32>, Fail> {
    Ok(first_difference(Wrapped::new(alloc, text, seed)?, turns)?)
}

/// After each of 500 random edits, landings and widths, refused ones among them, the map agrees with the plain lines.
#[test]
fn random_changes_leave_the_plain_lines(rt: HostRuntime) -> Result<(), Fail> {
    assert_eq!(rt; differ_at(rt.alloc(), "", 11, 500)?, None);
    Ok(())
}

/// So it does after other ones.
#[test]
fn other_changes_leave_the_plain_lines(rt: HostRuntime) -> Result<(), Fail> {
    assert_eq!(rt; differ_at(rt.alloc(), "aa bb\n\tcc", 12, 500)?, None);
    Ok(())
}

/// And after others again.
#[test]
fn third_changes_leave_the_plain_lines(rt: HostRuntime) -> Result<(), Fail> {
    assert_eq!(rt; differ_at(rt.alloc(), "\n\n\n\n\n", 13, 500)?, None);
    Ok(())
}

/// And at a long line.
#[test]
fn changes_of_a_long_line_leave_the_plain_lines(rt: HostRuntime) -> Result<(), Fail> {
    let text = "one two three four five six seven eight nine ten";
    assert_eq!(rt; differ_at(rt.alloc(), text, 14, 500)?, None);
    Ok(())
}

/// The same of 300 lines, of which at most 128 are wrapped at a time.
#[test]
fn changes_of_many_lines_leave_the_plain_lines(rt: HostRuntime) -> Result<(), Fail> {
    let text = lines_of(rt.alloc(), "aaa bbb", 300)?;
    assert_eq!(rt; differ_at(rt.alloc(), text.as_str(), 5, 30)?, None);
    Ok(())
}
