//! Random changes of a text with blocks, each beside the same change of plain lists.
use crate::laid::Laid;
use crate::plain::{IDS, LINES_COUNT, PlainBlocks, PlainRow, lines_given};
use crate::read::{letter_of, texts};
use crate::seen::Seen;
use block_map::Shown;
use cell_units::{NoMemory, Refusal};
use generated_input::Generator;
use std::alloc::Global;
use std::test::Fail;
use test_support::lists::answers;
use test_support::steps::{History, first_difference};
use test_support::words::{drawn_range, drawn_side, drawn_text, drawn_width};

/// Whether a row is as it has to be.
fn is_row(shown: &Shown, row: &PlainRow) -> bool {
    letter_of(shown.kind) == row.letter && shown.text.as_str().as_bytes() == row.text.as_slice()
}

/// Whether a row is shown at a number, and what is there is known, and leads back.
fn has_row(seen: &Seen, number: u32, row: &PlainRow) -> Result<bool, NoMemory> {
    let told = seen.row(number)?;
    if !told.is_some_and(|told| is_row(&told, row)) {
        return Ok(false);
    }
    if seen.text_at(number) != row.place {
        return Ok(false);
    }
    match row.place {
        None => Ok(true),
        Some((line, row)) => Ok(seen.row_of(line, row) == Some(number)),
    }
}

/// Whether a number has the row that it has to have, or none past the last one.
fn has_row_at(seen: &Seen, rows: &[PlainRow], number: u32) -> Result<bool, NoMemory> {
    if let Some(row) = rows.get(number as usize) {
        return has_row(seen, number, row);
    }
    let past = seen.row(number)?;
    Ok(past.is_none() && seen.text_at(number).is_none())
}

/// Whether each number has its row, and the one after the last has none.
fn has_each_row(seen: &Seen, rows: &[PlainRow]) -> Result<bool, NoMemory> {
    for number in 0..seen.row_count() {
        if !has_row_at(seen, rows, number)? {
            return Ok(false);
        }
    }
    has_row_at(seen, rows, seen.row_count())
}

/// Whether the rows from one on, up to a count, are given together.
fn has_rows_together(
    seen: &Seen,
    rows: &[PlainRow],
    first: u32,
    count: u32,
) -> Result<bool, NoMemory> {
    let told = seen.rows(first, count)?;
    let rest = rows.get(first as usize..).unwrap_or(&[]);
    let wanted = rest.get(..count as usize).unwrap_or(rest);
    if told.len() != wanted.len() {
        return Ok(false);
    }
    for (told, row) in told.as_slice().iter().zip(wanted) {
        if !is_row(told, row) {
            return Ok(false);
        }
    }
    Ok(true)
}

/// A text with blocks and the same by plain lists, changed together.
#[derive(Drop)]
struct Blocked {
    laid: Laid,
    plain: PlainBlocks,
    generator: Generator,
}

impl Blocked {
    /// A text without blocks.
    fn new(alloc: Global, text: &str, seed: u64) -> Result<Blocked, Fail> {
        Ok(Blocked {
            laid: Laid::new(alloc, text)?,
            plain: PlainBlocks::new(alloc, text.as_bytes())?,
            generator: Generator::new(seed),
        })
    }

    /// Makes a random change of both, and returns whether the answers agree.
    fn answers_alike(&mut self) -> Result<bool, NoMemory> {
        match self.generator.below(20) {
            0 => {
                let width = drawn_width(&mut self.generator);
                Ok(self.laid.set_width(width).is_ok())
            }
            1 | 2 => {
                self.laid.take()?;
                Ok(true)
            }
            3 | 4 | 5 => {
                self.laid.land()?;
                Ok(true)
            }
            6 | 7 | 8 | 9 => self.inserts_alike(),
            10 | 11 => self.removes_alike(),
            12 => {
                // A block that comes right before an edit, and is seen with it first.
                Ok(self.inserts_alike()? && self.edits_alike()?)
            }
            _ => self.edits_alike(),
        }
    }

    /// Adds a block, which may be refused.
    fn inserts_alike(&mut self) -> Result<bool, NoMemory> {
        let id = self.generator.below(IDS);
        let side = drawn_side(&mut self.generator);
        let offset = self.generator.below(self.plain.len().saturating_add(2));
        let lines = self.generator.below(LINES_COUNT);
        let refusal = self.plain.insert(id, side, offset, lines)?;
        let given = texts(self.laid.alloc, lines_given(lines))?;
        let answer = self.laid.insert(id, side, offset, given.as_slice());
        Ok(answers(answer, refusal))
    }

    /// Takes a block out, if there is one.
    fn removes_alike(&mut self) -> Result<bool, NoMemory> {
        let id = self.generator.below(IDS);
        let refusal = self.plain.remove(id);
        let answer = self.laid.remove(id);
        Ok(answers(answer, refusal))
    }

    /// Replaces a range, which may be backwards or past the end, and is short where the text is.
    fn edits_alike(&mut self) -> Result<bool, NoMemory> {
        let len = self.plain.len();
        let (start, end) = drawn_range(&mut self.generator, len, (len / 4).max(6));
        let word = drawn_text(&mut self.generator);
        let answer = self.laid.edit(start, end, word);
        if start > end || end > len {
            return Ok(answers(answer, Some(Refusal::BadRange)));
        }
        self.plain.edit(start, end, word.as_bytes())?;
        Ok(answers(answer, None))
    }

    /// Shows both, and returns whether they show the same rows.
    fn shows_alike(&mut self) -> Result<bool, NoMemory> {
        self.laid.show()?;
        let seen = self.laid.seen_now()?;
        let rows = self.plain.rows(&seen)?;
        self.has_rows(&seen, rows.as_slice())
    }

    /// Whether these rows are shown, and no others. Of one turn in eight it asks for each by itself.
    fn has_rows(&mut self, seen: &Seen, rows: &[PlainRow]) -> Result<bool, NoMemory> {
        let count = seen.row_count();
        if count as usize != rows.len() || !has_rows_together(seen, rows, 0, u32::MAX)? {
            return Ok(false);
        }
        let first = self.generator.below(count.saturating_add(2));
        let most = self.generator.below(9);
        if !has_rows_together(seen, rows, first, most)? || !has_row_at(seen, rows, first)? {
            return Ok(false);
        }
        if self.generator.below(8) > 0 {
            return Ok(true);
        }
        has_each_row(seen, rows)
    }
}

impl History for Blocked {
    fn turns_alike(&mut self) -> Result<bool, NoMemory> {
        Ok(self.answers_alike()? && self.shows_alike()?)
    }
}

/// Takes so many turns over a text. It gives the first after which the map and the lists don't agree.
fn differ_at(alloc: Global, text: &str, seed: u64, turns: u32) -> Result<Option<u32>, Fail> {
    Ok(first_difference(Blocked::new(alloc, text, seed)?, turns)?)
}

/// After each of 250 random edits, landings, widths and blocks, refused ones among them, the map shows the rows of the
/// plain lists.
#[test]
fn random_changes_show_the_plain_rows(rt: HostRuntime) -> Result<(), Fail> {
    assert_eq!(rt; differ_at(rt.alloc(), "", 21, 250)?, None);
    Ok(())
}

/// So it does over two lines that are there at first.
#[test]
fn changes_of_two_lines_show_the_plain_rows(rt: HostRuntime) -> Result<(), Fail> {
    assert_eq!(rt; differ_at(rt.alloc(), "aa bb\n\tcc", 22, 250)?, None);
    Ok(())
}

/// So it does over empty lines.
#[test]
fn changes_of_empty_lines_show_the_plain_rows(rt: HostRuntime) -> Result<(), Fail> {
    assert_eq!(rt; differ_at(rt.alloc(), "\n\n\n\n\n", 23, 250)?, None);
    Ok(())
}

/// So it does over one long line.
#[test]
fn changes_of_a_long_line_show_the_plain_rows(rt: HostRuntime) -> Result<(), Fail> {
    assert_eq!(rt;
        differ_at(
            rt.alloc(),
            "one two three four five six seven eight nine ten",
            24,
            250
        )?,
        None
    );
    Ok(())
}

/// So it does after other changes of an empty text.
#[test]
fn second_changes_show_the_plain_rows(rt: HostRuntime) -> Result<(), Fail> {
    assert_eq!(rt; differ_at(rt.alloc(), "", 25, 250)?, None);
    Ok(())
}

/// So it does after others again.
#[test]
fn third_changes_show_the_plain_rows(rt: HostRuntime) -> Result<(), Fail> {
    assert_eq!(rt; differ_at(rt.alloc(), "", 26, 250)?, None);
    Ok(())
}

/// So it does after other changes of two lines.
#[test]
fn second_changes_of_two_lines_show_the_plain_rows(rt: HostRuntime) -> Result<(), Fail> {
    assert_eq!(rt; differ_at(rt.alloc(), "aa bb\n\tcc", 27, 250)?, None);
    Ok(())
}

/// So it does after other changes of empty lines.
#[test]
fn second_changes_of_empty_lines_show_the_plain_rows(rt: HostRuntime) -> Result<(), Fail> {
    assert_eq!(rt; differ_at(rt.alloc(), "\n\n\n\n\n", 28, 250)?, None);
    Ok(())
}

/// The same of 150 lines, of which at most 128 are wrapped at a time.
#[test]
fn changes_of_many_lines_show_the_plain_rows(rt: HostRuntime) -> Result<(), Fail> {
    let text = "aaa bbb\n".repeat(rt.alloc(), 150)?;
    assert_eq!(rt; differ_at(rt.alloc(), text.as_str(), 29, 40)?, None);
    Ok(())
}
