//! The chunk in which an offset lies, and what is found there.
ghost use Rattle.std.specs.Prelude.{◌≡◌, ◌+◌, ◌-◌, ◌*◌, ◌/◌, ◌≤◌, ◌↔◌, [], ℕ, length, drop, string_bytes, slice_index_or, count_by, unwrap_or, IfOk, IsTrue};
ghost use Rattle.std.specs.List.{concat};
ghost use Rattle.std.specs.Option.{option_copied};
ghost use Rattle.cell_units.specs.Text.{IsBoundary, is_feed, row_of};
ghost use Rattle.sum_tree.specs.Bounds.{way};
ghost use Rattle.text_rope.specs.Bounds.{TakesOnText, ways};
ghost use Rattle.text_rope.specs.Finds.{IsBefore};
ghost use Rattle.cell_units.specs.Points.{IsNearBoundary};
ghost use Rattle.text_rope.specs.Ropes.{IsFront, IsRope};

use crate::chunk::{Chunk, TextSize, count_feeds};
use cell_units::{Bias, NoMemory, Steps};
use std::alloc::Global;
use sum_tree::SumTree;

/// The text of a chunk, with the size of what is before it.
#[derive(Clone, Copy)]
pub(crate) struct Found<'a> {
    pub before: TextSize,
    pub text: &'a str,
}

/// The text of a chunk, and none where there is no chunk.
pub(crate) fn text_of<'a>(chunk: Option<&'a Chunk>) -> &'a str
    ensures { result.now ≡ unwrap_or (option_copied chunk.entry) [] }
{
    match chunk {
        None => "",
        Some(chunk) => chunk.as_str(),
    }
}

/// The first chunk that ends at the offset or after it.
pub(crate) fn found_at<'a>(chunks: &'a SumTree<Chunk>, offset: u32, steps: &mut Steps) -> Found<'a>
    // The chunks of a rope, and an offset in its text or at its end.
    requires rope { IsRope chunks.now }
    requires within { offset ≤ length (concat chunks.now) }

    // The chunk that the offset lies in or at an end of, and the size of what is before it.
    ensures found { IsBefore chunks.now offset result.before }
    ensures here { result.text.now ≡ slice_index_or chunks.now result.before.chunks [] }

    // The work, at most one way down the tree.
    ensures counted { steps.old ≤ steps.new }
    ensures steps { TakesOnText way (concat chunks.now) steps.old steps.new }
{
    let target = TextSize {
        bytes: offset,
        feeds: 0,
        chunks: 0,
    };
    let mut cursor = chunks.cursor::<TextSize>();
    cursor.seek(target, Bias::Left, steps);
    Found {
        before: cursor.start(),
        text: text_of(cursor.item()),
    }
}

/// The text of the chunk at a place, and none past the last.
pub(crate) fn text_at<'a>(chunks: &'a SumTree<Chunk>, at: u32, steps: &mut Steps) -> &'a str
    requires { IsRope chunks.now }
    ensures text { result.now ≡ slice_index_or chunks.now at [] }
    ensures counted { steps.old ≤ steps.new }
    ensures steps { TakesOnText way (concat chunks.now) steps.old steps.new }
{
    text_of(chunks.get(at, steps))
}

/// Whether the offset is a boundary of the text.
pub(crate) fn is_boundary(chunks: &SumTree<Chunk>, offset: u32, steps: &mut Steps) -> bool
    requires { IsRope chunks.now }
    ensures test { IsTrue result ↔ IsBoundary (concat chunks.now) offset }
    ensures counted { steps.old ≤ steps.new }
    ensures steps { TakesOnText way (concat chunks.now) steps.old steps.new }
{
    if offset > chunks.sum().bytes {
        return false;
    }
    let found = found_at(chunks, offset, steps);
    let at = (offset - found.before.bytes) as usize;
    found.text.is_char_boundary(at)
}

/// The boundary at the offset, or on the side of the bias where the offset is inside a character.
pub(crate) fn near_boundary(
    chunks: &SumTree<Chunk>,
    offset: u32,
    bias: Bias,
    steps: &mut Steps,
) -> u32
    // The chunks of a rope, and an offset in its text or at its end.
    requires rope { IsRope chunks.now }
    requires within { offset ≤ length (concat chunks.now) }

    // The last boundary up to the offset (Left), or the first from it on (Right).
    ensures near { IsNearBoundary (concat chunks.now) offset bias result }

    // The work, at most one way down the tree.
    ensures counted { steps.old ≤ steps.new }
    ensures steps { TakesOnText way (concat chunks.now) steps.old steps.new }
{
    let found = found_at(chunks, offset, steps);
    let at = (offset - found.before.bytes) as usize;
    let near = match bias {
        Bias::Left => found.text.floor_char_boundary(at),
        Bias::Right => found.text.ceil_char_boundary(at),
    };
    found.before.bytes + near as u32
}

/// The row of an offset: how many line feeds are before it.
pub(crate) fn row_at(chunks: &SumTree<Chunk>, offset: u32, steps: &mut Steps) -> u32
    // The chunks of a rope, and an offset in its text or at its end.
    requires rope { IsRope chunks.now }
    requires within { offset ≤ length (concat chunks.now) }

    // The row of the offset.
    ensures row { result ≡ row_of (concat chunks.now) offset }

    // The work, at most one way down the tree.
    ensures counted { steps.old ≤ steps.new }
    ensures steps { TakesOnText way (concat chunks.now) steps.old steps.new }
{
    let found = found_at(chunks, offset, steps);
    let front = &found.text.as_bytes()[..(offset - found.before.bytes) as usize];
    found.before.feeds + count_feeds(front)
}

/// The text from the chunk that was found on, up to the end of the chunk with which it has `count` bytes.
pub(crate) fn gather(
    alloc: Global,
    chunks: &SumTree<Chunk>,
    found: Found,
    count: usize,
    steps: &mut Steps,
) -> Result<String, NoMemory>
    // The chunks of a rope, and one of them that was found, or their end.
    requires rope { IsRope chunks.now }
    requires within { found.before.chunks ≤ length chunks.now }
    requires here { found.text.now ≡ slice_index_or chunks.now found.before.chunks [] }

    // At least `count` bytes follow from there on.
    requires some { count ≤ length (concat (drop found.before.chunks chunks.now)) }

    // A prefix of the text from there on, of as many bytes or more.
    ensures front { let rest = concat (drop found.entry.before.chunks chunks.now) in
        IfOk result (λ s. IsFront (string_bytes s) rest) }
    ensures enough { IfOk result (λ s. count ≤ length (string_bytes s)) }

    // The work, at most one way down the tree for each 60 bytes that the found chunk lacks, and one more.
    ensures counted { steps.old ≤ steps.new }
    ensures steps { let more = count - length found.entry.text.now in
        TakesOnText (ways (more / 60 + 1)) (concat chunks.now) steps.old steps.new }
{
    let mut text = String::from_str(alloc, found.text)?;
    let mut at = found.before.chunks + 1;
    while text.len() < count {
        match chunks.get(at, steps) {
            None => return Ok(text),
            Some(chunk) => text.push_str(chunk.as_str())?,
        }
        at += 1;
    }
    Ok(text)
}
