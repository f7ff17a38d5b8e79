//! How a range of a text is replaced. The one chunk in which it lies is made anew, where that chunk stays neither short
//! nor too long. Else the chunks that it meets are, with a neighbour on each side.
ghost use Rattle.std.specs.Prelude.{◌≡◌, ◌+◌, ◌*◌, ◌≤◌, ◌<◌, ◌++◌, ◌^◌, ◌↔◌, [], ℕ, length, slice_index_or, string_bytes, IfOk, IfErr, IfNone, IfSome, IsTrue, OnOk};
ghost use Rattle.std.specs.List.{concat};
ghost use Rattle.cell_units.specs.Operation.{replaced_text};
ghost use Rattle.cell_units.specs.Text.{IsBoundary, clean};
ghost use Rattle.cell_units.specs.declared.limits.TheConstants.{LAID_LIMIT};
ghost use Rattle.edit_patch.specs.Fits.{replacement};
ghost use Rattle.sum_tree.specs.Bounds.{way};
ghost use Rattle.text_rope.specs.Bounds.{TakesOnText, ways};
ghost use Rattle.text_rope.specs.Chunks.{IsChunk, IsNoChunk};
ghost use Rattle.text_rope.specs.Edits.{IsFaultWithin, IsNeighbourBefore, IsNeighbourBehind, IsPartBefore, IsPartBehind, IsRange, IsRenewed};
ghost use Rattle.text_rope.specs.Finds.{IsBefore};
ghost use Rattle.text_rope.specs.Ropes.{IsRope};

use crate::chunk::{CHUNK_BYTES, Chunk, LEAST_BYTES, chunks_of};
use crate::find::{Found, found_at, is_boundary, text_at};
use cell_units::{Fault, NoMemory, Refusal, Shift, Steps, cleaned};
use edit_patch::Patch;
use std::alloc::Global;
use sum_tree::SumTree;

/// Text that begins or ends between two chunks, with the place of the first chunk after that border.
#[derive(Drop)]
pub(crate) struct Part {
    pub at: u32,
    pub text: String,
}

/// Chunks that take the place of those from `from` up to `to`.
#[derive(Drop)]
pub(crate) struct Renewal {
    pub from: u32,
    pub to: u32,
    pub chunks: Vec<Chunk>,
}

/// The chunk before a place, and its own place; no text where there is none.
fn neighbour_before<'a>(chunks: &'a SumTree<Chunk>, at: u32, steps: &mut Steps) -> (u32, &'a str)
    // The chunks of a rope, and a place among them or at their end.
    requires rope { IsRope chunks.now }
    requires within { at ≤ length chunks.now }

    // The chunk before the place, if there is one.
    ensures found { IsNeighbourBefore chunks.now at result.0 result.1.now }

    // The work, at most one way down the tree.
    ensures counted { steps.old ≤ steps.new }
    ensures steps { TakesOnText way (concat chunks.now) steps.old steps.new }
{
    if at == 0 {
        return (0, "");
    }
    (at - 1, text_at(chunks, at - 1, steps))
}

/// The chunk after a place, and the place after that; no text where there is none.
fn neighbour_behind<'a>(chunks: &'a SumTree<Chunk>, at: u32, steps: &mut Steps) -> (u32, &'a str)
    requires { IsRope chunks.now }
    ensures found { IsNeighbourBehind chunks.now at result.0 result.1.now }
    ensures counted { steps.old ≤ steps.new }
    ensures steps { TakesOnText way (concat chunks.now) steps.old steps.new }
{
    let count = chunks.len();
    if at >= count {
        return (count, "");
    }
    (at + 1, text_at(chunks, at, steps))
}

/// The text before the offset, from the neighbour of its chunk on.
fn part_before(
    alloc: Global,
    chunks: &SumTree<Chunk>,
    offset: u32,
    steps: &mut Steps,
) -> Result<Part, NoMemory>
    // The chunks of a rope, and a boundary of its text.
    requires rope { IsRope chunks.now }
    requires boundary { IsBoundary (concat chunks.now) offset }

    // Text from the start of a chunk up to the offset, no more than two chunks hold.
    ensures part { IfOk result (λ p. IsPartBefore chunks.now offset p.at (string_bytes p.text)) }

    // The work, at most two ways down the tree.
    ensures counted { steps.old ≤ steps.new }
    ensures steps { TakesOnText (ways 2) (concat chunks.now) steps.old steps.new }
{
    let found = found_at(chunks, offset, steps);
    let (at, neighbour) = neighbour_before(chunks, found.before.chunks, steps);
    let (front, _) = found.text.split_at((offset - found.before.bytes) as usize);
    let mut text = String::from_str(alloc, neighbour)?;
    text.push_str(front)?;
    Ok(Part { at, text })
}

/// The text after the offset, up to the end of the neighbour of its chunk, which was found.
fn part_behind(
    alloc: Global,
    chunks: &SumTree<Chunk>,
    offset: u32,
    found: Found,
    steps: &mut Steps,
) -> Result<Part, NoMemory>
    // The chunks of a rope, and a boundary of its text.
    requires rope { IsRope chunks.now }
    requires boundary { IsBoundary (concat chunks.now) offset }

    // The chunk that was found there, and the size of what is before it.
    requires found { IsBefore chunks.now offset found.before }
    requires here { found.text.now ≡ slice_index_or chunks.now found.before.chunks [] }

    // Text from the offset up to the end of a chunk, no more than two chunks hold.
    ensures part { IfOk result (λ p. IsPartBehind chunks.now offset p.at (string_bytes p.text)) }

    // The work, at most one way down the tree.
    ensures counted { steps.old ≤ steps.new }
    ensures steps { TakesOnText way (concat chunks.now) steps.old steps.new }
{
    let (at, neighbour) = neighbour_behind(chunks, found.before.chunks + 1, steps);
    let (_, back) = found.text.split_at((offset - found.before.bytes) as usize);
    let mut text = String::from_str(alloc, back)?;
    text.push_str(neighbour)?;
    Ok(Part { at, text })
}

/// One chunk of these three texts; none exactly where they are too long for one, or have fewer than `least` bytes.
fn joined_chunk(
    alloc: Global,
    front: &str,
    text: &str,
    back: &str,
    least: usize,
) -> Result<Option<Chunk>, NoMemory>
    // What comes first and last fits one chunk, and at least one byte is asked of it.
    requires kept { length front.now + length back.now ≤ CHUNK_BYTES }
    requires some { 0 < least }

    // A chunk of the three texts in their order, with as many bytes as are asked or more.
    ensures whole { IfOk result (λ o. IfSome o (λ c. c ≡ front.now ++ text.now ++ back.now)) }
    ensures chunk { IfOk result (λ o. IfSome o (λ c. IsChunk c)) }
    ensures least { IfOk result (λ o. IfSome o (λ c. least ≤ length c)) }

    // None only where their bytes are fewer than that, or too many for a chunk.
    ensures none { IfOk result (λ o.
        IfNone o (IsNoChunk least (front.now ++ text.now ++ back.now))) }
{
    let kept = front.len() + back.len();
    if text.len() > CHUNK_BYTES - kept || kept + text.len() < least {
        return Ok(None);
    }
    let mut whole = String::from_str(alloc, front)?;
    whole.push_str(text)?;
    whole.push_str(back)?;
    Ok(Some(Chunk::new(alloc, whole.as_str())?))
}

/// The chunk that was found at the end of the range, made anew by itself. There is none where the range begins before
/// it. Nor is there one where it would be too long, or short without being alone.
fn renewal_within(
    alloc: Global,
    chunks: &SumTree<Chunk>,
    start: u32,
    end: u32,
    text: &str,
    found: Found,
) -> Result<Option<Renewal>, NoMemory>
    // The chunks of a rope, and a range of its text.
    requires rope { IsRope chunks.now }
    requires range { IsRange (concat chunks.now) start end }

    // The chunk that was found at the range's end, and the size of what is before it.
    requires found { IsBefore chunks.now end found.before }
    requires here { found.text.now ≡ slice_index_or chunks.now found.before.chunks [] }

    // If there is a renewal, with it the text is in the place of the range.
    ensures { IfOk result (λ o. IfSome o (λ r.
        IsRenewed chunks.now start end text.now r.from r.to r.chunks.items)) }
{
    let before = found.before;
    if start < before.bytes || before.chunks >= chunks.len() {
        return Ok(None);
    }
    let (front, _) = found.text.split_at((start - before.bytes) as usize);
    let (_, back) = found.text.split_at((end - before.bytes) as usize);
    let least = if chunks.len() > 1 { LEAST_BYTES } else { 1 };
    let Some(chunk) = joined_chunk(alloc, front, text, back, least)? else {
        return Ok(None);
    };
    let mut made = Vec::new(alloc);
    made.push(chunk)?;
    Ok(Some(Renewal {
        from: before.chunks,
        to: before.chunks + 1,
        chunks: made,
    }))
}

/// The chunks that hold the text in place of the range.
pub(crate) fn renewal_of(
    alloc: Global,
    chunks: &SumTree<Chunk>,
    start: u32,
    end: u32,
    text: &str,
    steps: &mut Steps,
) -> Result<Renewal, NoMemory>
    // The chunks of a rope, and a range of its text.
    requires rope { IsRope chunks.now }
    requires range { IsRange (concat chunks.now) start end }

    // With the renewal the text is in the place of the range.
    ensures renewed { IfOk result (λ r.
        IsRenewed chunks.now start end text.now r.from r.to r.chunks.items) }

    // The work, at most four ways down the tree.
    ensures counted { steps.old ≤ steps.new }
    ensures steps { TakesOnText (ways 4) (concat chunks.now) steps.old steps.new }
{
    let found = found_at(chunks, end, steps);
    if let Some(renewal) = renewal_within(alloc, chunks, start, end, text, found)? {
        return Ok(renewal);
    }
    let front = part_before(alloc, chunks, start, steps)?;
    let back = part_behind(alloc, chunks, end, found, steps)?;
    let mut whole = front.text;
    whole.push_str(text)?;
    whole.push_str(back.text.as_str())?;
    Ok(Renewal {
        from: front.at,
        to: back.at,
        chunks: chunks_of(alloc, whole.as_str())?,
    })
}

/// Whether one offset is not before another and both are boundaries of the text.
pub(crate) fn is_range(chunks: &SumTree<Chunk>, start: u32, end: u32, steps: &mut Steps) -> bool
    requires { IsRope chunks.now }
    ensures test { IsTrue result ↔ IsRange (concat chunks.now) start end }
    ensures counted { steps.old ≤ steps.new }
    ensures steps { TakesOnText (ways 2) (concat chunks.now) steps.old steps.new }
{
    if end < start {
        return false;
    }
    if end > chunks.sum().bytes {
        return false;
    }
    let found = found_at(chunks, end, steps);
    let last = (end - found.before.bytes) as usize;
    if !found.text.is_char_boundary(last) {
        return false;
    }
    if start < found.before.bytes {
        return is_boundary(chunks, start, steps);
    }
    // Both lie in one chunk.
    let first = (start - found.before.bytes) as usize;
    found.text.is_char_boundary(first)
}

/// The chunks that hold the text, with its line breaks cleaned, in the place of the range, and the patch of that
/// change. `BadRange` where that is no range of the text, and else `TooLong` where the new text would be over the
/// limit.
pub(crate) fn renewed(
    alloc: Global,
    chunks: &SumTree<Chunk>,
    start: u32,
    end: u32,
    text: &str,
    limit: usize,
    steps: &mut Steps,
) -> Result<(Renewal, Patch), Fault>
    // The chunks of a rope, and a limit of what one may hold.
    requires rope { IsRope chunks.now }
    requires limit { limit ≤ LAID_LIMIT }

    // It is done only for a range of the text, and where the new text is within the limit.
    ensures range { OnOk result (IsRange (concat chunks.now) start end) }
    ensures small { let made = replaced_text (concat chunks.now) start end (clean text.now) in
        OnOk result (length made ≤ limit) }

    // With the renewal the cleaned text is in the place of the range, and the patch says so.
    ensures renewed { let put = clean text.now in
        IfOk result (λ r. let new = r.0 in
        IsRenewed chunks.now start end put new.from new.to new.chunks.items) }
    ensures patch { let count = length (clean text.now) in
        IfOk result (λ r. r.1 ≡ replacement start end count) }

    // Why it is refused: the range is judged first, and then the length.
    ensures refused { let put = clean text.now in
        IfErr result (IsFaultWithin limit (concat chunks.now) start end put) }

    // The work, at most six ways down the tree.
    ensures counted { steps.old ≤ steps.new }
    ensures steps { TakesOnText (ways 6) (concat chunks.now) steps.old steps.new }
{
    if !is_range(chunks, start, end, steps) {
        return Err(Fault::Refused(Refusal::BadRange));
    }
    let text = cleaned(alloc, text)?;
    let kept = (chunks.sum().bytes - (end - start)) as usize;
    let long = kept.saturating_add(text.len());
    if long > limit {
        return Err(Fault::Refused(Refusal::TooLong));
    }
    let shift = Shift::new(start, end, text.len() as u32);
    let patch = Patch::of_shift(alloc, shift)?;
    let new = renewal_of(alloc, chunks, start, end, text.as_str(), steps)?;
    Ok((new, patch))
}
