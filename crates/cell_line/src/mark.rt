//! The elements of a line one after another, and what wrapping asks of them.
ghost use Rattle.std.specs.Prelude.{◌≡◌, ◌^◌, ◌<◌, ◌≤◌, ◌||◌, ℕ, List, [], ◌∷◌, length, encode_utf8, true};
ghost use Rattle.cell_line.specs.declared.element.Element.{Element};
ghost use Rattle.cell_line.specs.Elements.{total_cells};
ghost use Rattle.cell_line.specs.Wrapping.{indent_of};
ghost use Rattle.cell_line.specs.inside.Quiet.{is_alone};
ghost use Rattle.cell_line.specs.inside.Simple.{is_simple};
ghost use Rattle.cell_line.specs.inside.Marks.{element_of, left_of, mark_of, AreLetters, IsLead, IsMarked, IsTaken};

use crate::characters::quiet_cells;
use crate::element::{Element, tab_cells};
use crate::walk::{Lent, PieceWalk};

/// What wrapping asks of an element: its cells, whether it is a blank, and whether it is wide.
#[derive(Clone, Copy)]
pub(crate) struct Mark {
    pub(crate) cells: u32,
    pub(crate) blank: bool,
    pub(crate) wide: bool,
}

impl Mark {
    /// The mark of an element.
    #[inline]
    pub(crate) fn of(element: &Lent) -> Mark
        ensures { result ≡ mark_of element.now }
    {
        Mark {
            cells: element.cells(),
            blank: element.is_blank(),
            wide: element.is_wide(),
        }
    }

    /// The mark of a simple byte that `column` cells of its line precede.
    #[inline]
    pub(crate) fn of_simple(byte: u8, tab: u32, column: u32) -> Mark
        requires size { 0 < tab }
        requires simple { is_simple byte ≡ true }
        ensures { result ≡ mark_of (element_of tab column (byte ∷ [])) }
    {
        if byte == b'\t' {
            return Mark {
                cells: tab_cells(tab, column),
                blank: true,
                wide: false,
            };
        }
        Mark {
            cells: 1,
            blank: byte == b' ',
            wide: false,
        }
    }

    /// The mark of a quiet character or a tab that `column` cells of its line precede.
    #[inline]
    pub(crate) fn of_alone(c: char, tab: u32, column: u32) -> Mark
        requires size { 0 < tab }
        requires alone { is_alone c ≡ true }
        ensures { result ≡ mark_of (element_of tab column (encode_utf8 c)) }
    {
        if c == '\t' {
            return Mark {
                cells: tab_cells(tab, column),
                blank: true,
                wide: false,
            };
        }
        let cells = quiet_cells(c);
        Mark {
            cells,
            blank: c == ' ',
            wide: cells >= 2,
        }
    }

    /// Whether a row may end after the element, whatever follows but a blank.
    #[inline]
    pub(crate) fn parts_after(self) -> bool
        ensures { result ≡ (self.blank || self.wide) }
    {
        self.blank || self.wide
    }
}

/// The elements of a line, from one of them on.
#[derive(Drop)]
pub(crate) enum Walk<'a> {
    /// Those that pieces make.
    Pieces(PieceWalk<'a>),
    /// Those that were made before.
    Elements(&'a [Element]),
}

impl<'a> Walk<'a> {
    /// The next element.
    pub(crate) fn next(&mut self) -> Option<Lent<'a>>
        ensures { IsTaken (left_of self.old) result (left_of self.new) }
    {
        match self {
            Walk::Pieces(walk) => walk.next(),
            Walk::Elements(elements) => match *elements {
                [first, rest @ ..] => {
                    *elements = rest;
                    Some(Lent::of_element(first))
                }
                [] => None,
            },
        }
    }

    /// The mark of the next element.
    #[inline(always)]
    pub(crate) fn next_mark(&mut self) -> Option<Mark>
        ensures { IsMarked (left_of self.old) result (left_of self.new) }
    {
        match self {
            Walk::Pieces(walk) => walk.next_mark(),
            Walk::Elements(elements) => match *elements {
                [first, rest @ ..] => {
                    *elements = rest;
                    Some(Mark::of(&Lent::of_element(first)))
                }
                [] => None,
            },
        }
    }

    /// Passes over letters that are next, up to so many, and returns how many. It may stop before one.
    #[inline]
    pub(crate) fn pass_letters(&mut self, most: u32) -> u32
        ensures within { result ≤ most }
        ensures letters { AreLetters (left_of self.old) result (left_of self.new) }
    {
        match self {
            Walk::Pieces(walk) => walk.pass_letters(most),
            Walk::Elements(_) => 0,
        }
    }
}

/// The blanks that lead a line: how many, their cells, and whether nothing follows them.
#[derive(Clone, Copy)]
pub(crate) struct Lead {
    pub(crate) count: usize,
    pub(crate) cells: u32,
    pub(crate) alone: bool,
}

impl Lead {
    /// Those of the line that is to be walked.
    pub(crate) fn of(mut walk: Walk) -> Lead
        requires fits { total_cells (left_of walk) < 2 ^ 32 }
        requires count { length (left_of walk) < 2 ^ 64 }
        ensures { IsLead (left_of walk.entry) result }
    {
        let mut count = 0;
        let mut cells = 0;
        'blanks: while let Some(mark) = walk.next_mark() {
            if !mark.blank {
                return Lead {
                    count,
                    cells,
                    alone: false,
                };
            }
            count += 1;
            cells += mark.cells;
        }
        Lead {
            count,
            cells,
            alone: true,
        }
    }

    /// The cells by which the line's rows after the first are indented at the width.
    pub(crate) fn indent(self, width: u32) -> u32
        ensures { (es : List Element) → IsLead es self → result ≡ indent_of es width }
    {
        if self.alone {
            return 0;
        }
        if self.cells <= width / 2 {
            self.cells
        } else {
            0
        }
    }
}
