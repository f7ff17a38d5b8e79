//! The elements of pieces one after another, each with its text lent.
ghost use Rattle.std.specs.Prelude.{◌≡◌, ◌+◌, ◌^◌, ◌<◌, ◌≤◌, ◌++◌, [], ◌∷◌, drop, length, encode_utf8, true, IfNone, IfSome};
ghost use Rattle.unicode_segmentation.specs.Grapheme.{graphemes};
ghost use Rattle.cell_line.specs.Elements.{cells_of, clusters, elements_of, total_cells};
ghost use Rattle.cell_line.specs.Wrapping.{is_blank, is_wide};
ghost use Rattle.cell_line.specs.inside.Simple.{is_letter_before, StartsWithLetters};
ghost use Rattle.cell_line.specs.inside.Quiet.{is_alone};
ghost use Rattle.cell_line.specs.inside.Marks.{element_of, AreLetters, IsMarked, IsNextText, IsTaken};
ghost use Rattle.cell_line.specs.inside.Parts.{clusters_in};

use crate::characters::{is_simple, next_seam, quiet_cells, start_alone, starts_simple};
use crate::element::{Element, cells, tab_cells};
use crate::mark::Mark;
use cell_units::Piece;
use std::marker::Model;
use unicode_segmentation::{Graphemes, UnicodeSegmentation};

/// An element whose text is lent.
#[derive(Drop)]
pub(crate) struct Lent<'a> {
    text: &'a str,
    cells: u32,
    tab: bool,
}

impl<'a> Model for Lent<'a> {
    ghost use Rattle.cell_line.specs.declared.element.Element.{Element};

    ghost Value = { Element };

    ghost view = { λ e. record { text = e.text.now; cells = e.cells; tab = e.tab } };
}

impl<'a> Lent<'a> {
    /// A cluster that `column` cells of its line precede.
    fn of_cluster(cluster: &'a str, tab: u32, column: u32) -> Lent<'a>
        requires size { 0 < tab }
        requires fits { cells_of tab column cluster.now < 2 ^ 32 }
        ensures { result ≡ element_of tab column cluster.now }
    {
        Lent {
            text: cluster,
            cells: cells(cluster, tab, column),
            tab: cluster == "\t",
        }
    }

    /// A quiet character or a tab that `column` cells of its line precede.
    fn of_alone(text: &'a str, c: char, tab: u32, column: u32) -> Lent<'a>
        requires size { 0 < tab }
        requires text { text.now ≡ encode_utf8 c }
        requires alone { is_alone c ≡ true }
        ensures { result ≡ element_of tab column text.now }
    {
        if c == '\t' {
            return Lent {
                text,
                cells: tab_cells(tab, column),
                tab: true,
            };
        }
        Lent {
            text,
            cells: quiet_cells(c),
            tab: false,
        }
    }

    /// An element.
    #[inline]
    pub(crate) fn of_element(element: &'a Element) -> Lent<'a>
        ensures { result ≡ element.now }
    {
        Lent {
            text: element.text.as_str(),
            cells: element.cells,
            tab: element.tab,
        }
    }

    /// Its text.
    #[inline]
    pub(crate) fn text(&self) -> &'a str
        ensures { result.now ≡ self.now.text }
    {
        self.text
    }

    /// How many cells it has.
    #[inline]
    pub(crate) fn cells(&self) -> u32
        ensures { result ≡ self.now.cells }
    {
        self.cells
    }

    /// Whether it is a tab.
    #[inline]
    pub(crate) fn is_tab(&self) -> bool
        ensures { result ≡ self.now.tab }
    {
        self.tab
    }

    /// Whether it is a blank: a tab or one space.
    #[inline]
    pub(crate) fn is_blank(&self) -> bool
        ensures { result ≡ is_blank self.now }
    {
        self.tab || self.text == " "
    }

    /// Whether it is no tab and has two or more cells.
    #[inline]
    pub(crate) fn is_wide(&self) -> bool
        ensures { result ≡ is_wide self.now }
    {
        !self.tab && self.cells >= 2
    }
}

/// Whether the byte is printable ASCII but a space, and the next one is simple.
#[inline]
fn is_letter_before(byte: u8, next: u8) -> bool
    ensures { result ≡ is_letter_before byte next }
{
    (33 <= byte && byte <= 126) && is_simple(next)
}

/// How many letters, each with a simple byte after it, the text begins with, up to so many.
#[inline]
fn letters(bytes: &[u8], most: usize) -> usize
    ensures within { result ≤ most }
    ensures letters { StartsWithLetters bytes.now result }
{
    let end = most.min(bytes.len().saturating_sub(1));
    for at in 0..end {
        if !is_letter_before(bytes[at], bytes[at + 1]) {
            return at;
        }
    }
    end
}

/// The next cluster of a part, if one is being cut.
#[inline]
fn next_cluster<'a>(part: &mut Option<Graphemes<'a>>) -> Option<&'a str>
    ensures some { IfSome result (λ cluster. clusters_in part.old ≡ cluster.now ∷ clusters_in part.new) }
    ensures none { IfNone result ((clusters_in part.old ≡ []) × (clusters_in part.new ≡ [])) }
{
    let Some(clusters) = part else {
        return None;
    };
    match clusters.next() {
        Some(cluster) => Some(cluster),
        None => {
            *part = None;
            None
        }
    }
}

/// Where a line goes on that has `rest` and the pieces from `begun` on left: how many pieces are begun then, and the
/// text. None exactly where neither has any text.
fn next_text<'a>(pieces: &'a [Piece], begun: usize, rest: &'a str) -> Option<(usize, &'a str)>
    requires { begun ≤ length pieces.now }
    ensures some { IfSome result (λ next. IsNextText pieces.now begun rest.now next.0 next.1.now) }
    ensures none { IfNone result (graphemes true rest.now ++ clusters (drop begun pieces.now) ≡ []) }
{
    if rest.len() > 0 {
        return Some((begun, rest));
    }
    for at in begun..pieces.len() {
        let text = pieces[at].text.as_str();
        if text.len() > 0 {
            return Some((at + 1, text));
        }
    }
    None
}

/// The elements of the line that some pieces make, from one of them on.
#[derive(Drop)]
pub(crate) struct PieceWalk<'a> {
    pieces: &'a [Piece],
    // how many of the pieces were begun
    begun: usize,
    // the clusters that are left of a part of the last of them, where one is being cut, and what follows it
    part: Option<Graphemes<'a>>,
    rest: &'a str,
    tab: u32,
    column: u32,
}

impl<'a> Model for PieceWalk<'a> {
    ghost use Rattle.std.specs.Prelude.{◌+◌, ◌^◌, ◌<◌, ◌≤◌, ◌++◌, List, drop, length, true};
    ghost use Rattle.std.specs.Str.{IsUtf8};
    ghost use Rattle.unicode_segmentation.specs.Grapheme.{graphemes};
    ghost use Rattle.cell_line.specs.declared.element.Element.{Element};
    ghost use Rattle.cell_line.specs.Elements.{clusters, placed, total_cells};
    ghost use Rattle.cell_line.specs.inside.Parts.{clusters_in};

    ghost Value = { List Element };

    ghost view = { λ w. placed w.tab w.column (clusters_in w.part ++ (graphemes true w.rest.now ++ clusters (drop w.begun w.pieces.now))) };

    ghost invariant = { λ w. (0 < w.tab) × (w.begun ≤ length w.pieces.now) × IsUtf8 w.rest.now
        × (w.column + total_cells (placed w.tab w.column (clusters_in w.part ++ (graphemes true w.rest.now ++ clusters (drop w.begun w.pieces.now)))) < 2 ^ 32) };
}

impl<'a> PieceWalk<'a> {
    /// All elements of the line that the pieces make at a tab size of 1 to 16 cells.
    pub(crate) fn new(pieces: &'a [Piece], tab: u32) -> PieceWalk<'a>
        requires size { (1 ≤ tab) × (tab ≤ 16) }
        requires fits { total_cells (elements_of pieces.now tab) < 2 ^ 32 }
        ensures { result ≡ elements_of pieces.now tab }
    {
        PieceWalk {
            pieces,
            begun: 0,
            part: None,
            rest: "",
            tab,
            column: 0,
        }
    }

    /// The next element.
    pub(crate) fn next(&mut self) -> Option<Lent<'a>>
        ensures { IsTaken self.old result self.new }
    {
        if let Some(cluster) = next_cluster(&mut self.part) {
            let lent = Lent::of_cluster(cluster, self.tab, self.column);
            self.column += lent.cells();
            return Some(lent);
        }
        let (begun, text) = next_text(self.pieces, self.begun, self.rest)?;
        self.begun = begun;
        if let Some((first, rest)) = start_alone(text) {
            let lent = Lent::of_alone(&text[..first.len_utf8()], first, self.tab, self.column);
            self.rest = rest;
            self.column += lent.cells();
            return Some(lent);
        }
        let end = next_seam(text);
        let part = &text[..end];
        self.rest = &text[end..];
        self.part = Some(part.graphemes(true));
        let cluster = next_cluster(&mut self.part)?;
        let lent = Lent::of_cluster(cluster, self.tab, self.column);
        self.column += lent.cells();
        Some(lent)
    }

    /// The mark of the next element.
    #[inline(always)]
    pub(crate) fn next_mark(&mut self) -> Option<Mark>
        ensures { IsMarked self.old result self.new }
    {
        if self.part.is_none() && starts_simple(self.rest.as_bytes()) {
            let mark = Mark::of_simple(self.rest.as_bytes()[0], self.tab, self.column);
            self.rest = &self.rest[1..];
            self.column += mark.cells;
            return Some(mark);
        }
        self.next_wide()
    }

    /// Passes over the letters that are next, each with a simple byte after it, up to so many, and returns how many.
    #[inline]
    pub(crate) fn pass_letters(&mut self, most: u32) -> u32
        ensures within { result ≤ most }
        ensures letters { AreLetters self.old result self.new }
    {
        if self.part.is_some() {
            return 0;
        }
        let count = letters(self.rest.as_bytes(), most as usize);
        self.rest = &self.rest[count..];
        self.column += count as u32;
        count as u32
    }

    /// The same where the element is no simple byte beside another.
    #[inline]
    fn next_wide(&mut self) -> Option<Mark>
        ensures { IsMarked self.old result self.new }
    {
        if self.part.is_some() {
            return self.next_seldom();
        }
        let Some((first, rest)) = start_alone(self.rest) else {
            return self.next_seldom();
        };
        let mark = Mark::of_alone(first, self.tab, self.column);
        self.rest = rest;
        self.column += mark.cells;
        Some(mark)
    }

    /// The same where it is no quiet character beside another, or the first of its piece.
    #[inline(never)]
    fn next_seldom(&mut self) -> Option<Mark>
        ensures { IsMarked self.old result self.new }
    {
        match self.next() {
            Some(element) => Some(Mark::of(&element)),
            None => None,
        }
    }
}
