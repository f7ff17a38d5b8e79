//! Where the rows of a text start and end.
ghost use Rattle.std.specs.Prelude.{◌≡◌, ◌+◌, ◌*◌, ◌<◌, ◌≤◌, [], ℕ, length, take, slice_index_or, count_by};
ghost use Rattle.std.specs.List.{concat};
ghost use Rattle.cell_units.specs.BufferLines.{line_end, line_start};
ghost use Rattle.cell_units.specs.Layers.{point_of};
ghost use Rattle.cell_units.specs.Text.{is_feed};
ghost use Rattle.sum_tree.specs.Bounds.{way};
ghost use Rattle.text_rope.specs.Bounds.{TakesOnText, ways};
ghost use Rattle.text_rope.specs.Finds.{IsBehindFeed, IsBeforeRow};
ghost use Rattle.text_rope.specs.Ropes.{IsRope};

use crate::chunk::{Chunk, TextSize, count_feeds};
use crate::find::{found_at, text_of};
use cell_units::{Bias, Point, Steps};
use sum_core::Dimension;
use sum_tree::SumTree;

/// The size of a part of a text, where rows are sought. Of two parts that begin at one place the one with more line
/// feeds is the greater.
#[derive(Clone, Copy, Debug, PartialEq, Eq, PartialOrd, Ord)]
pub struct RowSize {
    pub feeds: u32,
    pub bytes: u32,
    pub chunks: u32,
}

impl Dimension<TextSize> for RowSize {
    ghost use Rattle.text_rope.specs.RowSizes.{RowSizeFits, joined_rows, row_dimension, row_size_of};

    ghost measure = { row_size_of };

    ghost joined_with = { joined_rows };

    ghost fits_with = { λ a b. RowSizeFits (joined_rows a b) };

    ghost dimension_laws = { row_dimension };

    fn of(sum: TextSize) -> RowSize {
        RowSize {
            feeds: sum.feeds,
            bytes: sum.bytes,
            chunks: sum.chunks,
        }
    }

    fn plus(self, other: RowSize) -> RowSize {
        RowSize {
            feeds: self.feeds + other.feeds,
            bytes: self.bytes + other.bytes,
            chunks: self.chunks + other.chunks,
        }
    }
}

/// The text of a chunk, with the size of what is before it.
#[derive(Clone, Copy)]
struct FoundRow<'a> {
    before: RowSize,
    text: &'a str,
}

/// The chunk with the line feed after which the row starts.
fn found_row<'a>(chunks: &'a SumTree<Chunk>, row: u32, steps: &mut Steps) -> FoundRow<'a>
    // The chunks of a rope, and a row of its text that isn't the first.
    requires rope { IsRope chunks.now }
    requires some { 0 < row }
    requires within { row ≤ count_by is_feed (concat chunks.now) }

    // The chunk with the line feed right before the row, and the size of what is before that chunk.
    ensures found { IsBeforeRow chunks.now row result.before }
    ensures here { result.text.now ≡ slice_index_or chunks.now result.before.chunks [] }

    // The work, at most one way down the tree.
    ensures counted { steps.old ≤ steps.new }
    ensures steps { TakesOnText way (concat chunks.now) steps.old steps.new }
{
    let target = RowSize {
        feeds: row,
        bytes: 0,
        chunks: 0,
    };
    let mut cursor = chunks.cursor::<RowSize>();
    cursor.seek(target, Bias::Left, steps);
    FoundRow {
        before: cursor.start(),
        text: text_of(cursor.item()),
    }
}

/// The place right after the line feed that is number `feeds`, counted from 1.
fn behind_feed(text: &str, feeds: u32) -> usize
    requires some { 0 < feeds }
    requires within { feeds ≤ count_by is_feed text.now }
    ensures { IsBehindFeed text.now feeds result }
{
    let mut left = feeds;
    for (at, byte) in text.as_bytes().iter().enumerate() {
        if *byte == b'\n' {
            left -= 1;
            if left == 0 {
                return at + 1;
            }
        }
    }
    text.len()
}

/// The first offset of a row of the text.
pub(crate) fn start_of_row(chunks: &SumTree<Chunk>, row: u32, steps: &mut Steps) -> u32
    // The chunks of a rope, and a row of its text.
    requires rope { IsRope chunks.now }
    requires within { row ≤ count_by is_feed (concat chunks.now) }

    // Its first offset.
    ensures start { result ≡ line_start (concat chunks.now) row }

    // The work, at most one way down the tree.
    ensures counted { steps.old ≤ steps.new }
    ensures steps { TakesOnText way (concat chunks.now) steps.old steps.new }
{
    if row == 0 {
        return 0;
    }
    let found = found_row(chunks, row, steps);
    found.before.bytes + behind_feed(found.text, row - found.before.feeds) as u32
}

/// The row of an offset, and its column of bytes in that row. A row that begins in the offset's own chunk isn't sought.
pub(crate) fn point_at(chunks: &SumTree<Chunk>, offset: u32, steps: &mut Steps) -> Point
    // The chunks of a rope, and an offset in its text or at its end.
    requires rope { IsRope chunks.now }
    requires within { offset ≤ length (concat chunks.now) }

    // The point of the offset.
    ensures point { result ≡ point_of (concat chunks.now) offset }

    // The work, at most two ways down the tree.
    ensures counted { steps.old ≤ steps.new }
    ensures steps { TakesOnText (ways 2) (concat chunks.now) steps.old steps.new }
{
    let found = found_at(chunks, offset, steps);
    let front = &found.text.as_bytes()[..(offset - found.before.bytes) as usize];
    let feeds = count_feeds(front);
    let row = found.before.feeds + feeds;
    if feeds == 0 {
        return Point {
            row,
            column: offset - start_of_row(chunks, row, steps),
        };
    }
    let start = found.before.bytes + behind_feed(found.text, feeds) as u32;
    Point {
        row,
        column: offset - start,
    }
}

/// The end of a row of the text: before its line feed, or the text's end.
pub(crate) fn end_of_row(chunks: &SumTree<Chunk>, row: u32, steps: &mut Steps) -> u32
    // The chunks of a rope, and a row of its text.
    requires rope { IsRope chunks.now }
    requires within { row ≤ count_by is_feed (concat chunks.now) }

    // Its end.
    ensures end { result ≡ line_end (concat chunks.now) row }

    // The work, at most one way down the tree.
    ensures counted { steps.old ≤ steps.new }
    ensures steps { TakesOnText way (concat chunks.now) steps.old steps.new }
{
    let sum = chunks.sum();
    if row == sum.feeds {
        sum.bytes
    } else {
        start_of_row(chunks, row + 1, steps) - 1
    }
}

/// The first offset of a row and its end. An end in the chunk after whose line feed the row begins isn't sought.
pub(crate) fn range_of_row(chunks: &SumTree<Chunk>, row: u32, steps: &mut Steps) -> (u32, u32)
    // The chunks of a rope, and a row of its text.
    requires rope { IsRope chunks.now }
    requires within { row ≤ count_by is_feed (concat chunks.now) }

    // Its first offset and its end.
    ensures start { result.0 ≡ line_start (concat chunks.now) row }
    ensures end { result.1 ≡ line_end (concat chunks.now) row }

    // The work, at most two ways down the tree.
    ensures counted { steps.old ≤ steps.new }
    ensures steps { TakesOnText (ways 2) (concat chunks.now) steps.old steps.new }
{
    if row == 0 {
        return (0, end_of_row(chunks, row, steps));
    }
    let found = found_row(chunks, row, steps);
    let number = row - found.before.feeds;
    let start = found.before.bytes + behind_feed(found.text, number) as u32;
    if number == count_feeds(found.text.as_bytes()) {
        return (start, end_of_row(chunks, row, steps));
    }
    let next = found.before.bytes + behind_feed(found.text, number + 1) as u32;
    (start, next - 1)
}
