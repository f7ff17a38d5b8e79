//! Answers, line by line.
ghost use Rattle.std.specs.Prelude.{◌≡◌, ◌≤◌, ◌<◌, ℕ, [], ◌∷◌, length, map, take, drop, slice_get, decimal, None, IfOk, IfErr, OnOk, OnErr};
ghost use Rattle.display_map.specs.Replay.{present_of};
ghost use Rattle.plain_rows.specs.ShownRows.{letter_of, row_of_shown};
ghost use Rattle.plain_rows.specs.Rows.{rows_of};
ghost use Rattle.edit_script.specs.Printed.{row_line};
ghost use Rattle.edit_script.specs.Answers.{rows_left, rows_in, lines_left, AreMade};

use cell_units::{NoMemory, Steps, Text};
use display_map::{Kind, Shown, View};
use std::alloc::Global;
use std::marker::Model;

/// How many rows are made at a time.
const RUN: u32 = 4096;

/// Rows that are left to be printed.
#[derive(Drop)]
struct RowsLeft<'a> {
    view: &'a View,
    /// The number of the next row, and how many are left.
    next: u32,
    left: u32,
    /// Rows that were made: those from `used` on come next.
    made: Vec<Shown>,
    used: usize,
}

impl<'a> RowsLeft<'a> {
    /// The rows from number `first` on, as many as there are up to `count`.
    fn new(alloc: Global, view: &'a View, first: u32, count: u32) -> RowsLeft<'a>
        ensures lines { rows_left result ≡ rows_in first count (rows_of (present_of view.now)) }
        ensures made { AreMade result }
    {
        let next = first.min(view.row_count());
        RowsLeft {
            view,
            next,
            left: count.min(view.row_count() - next),
            made: Vec::new(alloc),
            used: 0,
        }
    }

    /// Makes the next rows, where none is made.
    fn refill(&mut self, alloc: Global, steps: &mut Steps) -> Result<(), NoMemory>
        // What was made comes next, and a row is left.
        requires made { AreMade self.old }
        requires some { 0 < self.old.left }

        // The same rows are left as before, also where there was no memory.
        ensures made { AreMade self.new }
        ensures kept { rows_left self.new ≡ rows_left self.old }
        ensures left { self.new.left ≡ self.old.left }

        // Where there was memory, the next of them is made.
        ensures some { OnOk result (self.new.used < length self.new.made.items) }

        // The work.
        ensures counted { steps.old ≤ steps.new }
    {
        if self.used < self.made.len() {
            return Ok(());
        }
        self.made = self.view.rows(alloc, self.next, self.left.min(RUN), steps)?;
        self.used = 0;
        Ok(())
    }

    /// The line of the next row; `None` past the last.
    fn next_line(&mut self, alloc: Global, steps: &mut Steps) -> Result<Option<Text>, NoMemory>
        requires { AreMade self.old }

        // What was made still comes next. The first row that is left is returned, and the others are left then.
        ensures made { AreMade self.new }
        ensures line { IfOk result (λ line. line ≡ slice_get (rows_left self.old) 0) }
        ensures rest { OnOk result (rows_left self.new ≡ drop 1 (rows_left self.old)) }

        // Where there is no memory, no row is taken.
        ensures unchanged { OnErr result (rows_left self.new ≡ rows_left self.old) }

        // The work.
        ensures counted { steps.old ≤ steps.new }
    {
        if self.left == 0 {
            return Ok(None);
        }
        self.refill(alloc, steps)?;
        let line = row_line(alloc, self.next, &self.made[self.used])?;
        self.used += 1;
        self.next += 1;
        self.left -= 1;
        Ok(Some(line))
    }
}

/// The lines of an answer that are left, in order. It is seen as their list.
#[derive(Drop)]
pub struct Answer<'a> {
    /// The line that comes before all rows, if one does.
    head: Option<Text>,
    rows: RowsLeft<'a>,
}

impl<'a> Model for Answer<'a> {
    ghost use Rattle.std.specs.Prelude.{ℕ, List};

    ghost Value = { List (List ℕ) };

    ghost use Rattle.edit_script.specs.Answers.{rows_left, lines_left, AreMade};

    ghost view = { λ a. lines_left a.head (rows_left a.rows) };

    ghost invariant = { λ a. AreMade a.rows };
}

impl<'a> Answer<'a> {
    /// A line, if there is one, and then the rows from number `first` on, as many as there are up to `count`.
    pub(crate) fn new(
        alloc: Global,
        view: &'a View,
        head: Option<Text>,
        first: u32,
        count: u32,
    ) -> Answer<'a>
        ensures { result ≡ lines_left head (rows_in first count (rows_of (present_of view.now))) }
    {
        Answer {
            head,
            rows: RowsLeft::new(alloc, view, first, count),
        }
    }

    /// The next line, without a line feed; `None` past the last. The rows that are made of a display line for it are
    /// kept for the lines after it. After out of memory the same line comes next.
    pub fn next_line(&mut self, alloc: Global, steps: &mut Steps) -> Result<Option<Text>, NoMemory>
        ensures line { IfOk result (λ line. line ≡ slice_get self.old 0) }
        ensures rest { OnOk result (self.new ≡ drop 1 self.old) }
        ensures unchanged { OnErr result (self.new ≡ self.old) }
        ensures counted { steps.old ≤ steps.new }
    {
        if let Some(head) = self.head.take() {
            return Ok(Some(head));
        }
        self.rows.next_line(alloc, steps)
    }
}

/// The line of one row: its number, the letter of its kind and its text.
fn row_line(alloc: Global, number: u32, row: &Shown) -> Result<Text, NoMemory>
    ensures { IfOk result (λ line. line ≡ row_line number (row_of_shown row.now)) }
{
    let line = format!(in alloc; "{} {}|{}", number, letter(row.kind), row.text.as_str())?;
    Text::from_str(alloc, line.as_str())
}

/// The letter that is printed for a kind of rows.
fn letter(kind: Kind) -> &'static str
    ensures { result.now ≡ letter_of kind ∷ [] }
{
    match kind {
        Kind::Head => "t",
        Kind::More => "w",
        Kind::Block => "b",
    }
}
