//! Laying out: the parts of the display lines in order.
ghost use Rattle.std.specs.Prelude.{◌≡◌, ◌+◌, ◌^◌, ◌<◌, ◌≤◌, ◌++◌, false, not, length, IfOk, OnOk};
ghost use Rattle.std.specs.List.{prefix_len};
ghost use Rattle.std.specs.Str.{IsCharBoundary};
ghost use Rattle.cell_units.specs.Inlaid.{inlay_bytes};
ghost use Rattle.plain_rows.specs.FoldedLines.{AreShown, IsLawfulSource, Joins, inlay_at, is_break, is_buffer, next_inlay, seen};
ghost use Rattle.plain_rows.specs.inside.Laying.{IsFree, IsJoinedFold, IsLaid, IsPast, IsSpan, Lays, LaysInlay, Reaches, break_len, inlay_run, last_of, run_parts, stands_before, tokens_of};

use crate::folded_lines::{Joined, Part, PlainSource};
use cell_units::NoMemory;
use std::alloc::Global;

/// Whether the byte is a line feed or a carriage return.
fn is_break(byte: u8) -> bool
    ensures { result ≡ is_break byte }
{
    byte == b'\n' || byte == b'\r'
}

/// How many bytes are before the first line break.
fn run_len(bytes: &[u8]) -> usize
    ensures { result ≡ prefix_len (λ b. not (is_break b)) bytes.now }
{
    bytes.iter().take_while(|b| !is_break(**b)).count()
}

/// How many bytes the line break has with which these begin: two where they are a return and a feed.
fn break_len(bytes: &[u8]) -> usize
    requires { 0 < length bytes.now }
    ensures { result ≡ break_len bytes.now }
{
    if bytes.len() > 1 && bytes[0] == b'\r' && bytes[1] == b'\n' {
        2
    } else {
        1
    }
}

/// Appends these bytes of the buffer, where there are any.
fn push_run(parts: &mut Vec<Part>, start: u32, end: u32) -> Result<(), NoMemory>
    ensures { OnOk result (parts.new.items ≡ parts.old.items ++ run_parts start end) }
{
    if start < end {
        parts.push(Part::Buffer { start, end })?;
    }
    Ok(())
}

/// Appends the bytes of the buffer from an offset up to the next line feed, and that, or up to `to`. Returns the offset
/// after them.
fn push_line(parts: &mut Vec<Part>, source: &PlainSource, at: u32, to: u32) -> Result<u32, NoMemory>
    // The parts end at the offset, and not with bytes of the buffer. Whole characters follow up to `to`, one at least.
    requires lawful { IsLawfulSource (seen source.now) }
    requires reaches { Reaches (seen source.now) parts.old.items at }
    requires apart { is_buffer (last_of parts.old.items) ≡ false }
    requires span { IsSpan source.now.text.now at to }
    requires some { at < to }

    // The bytes up to the result are laid. Where more follow, the last part is none of the buffer's bytes again.
    ensures lays { IfOk result (λ next. Lays (seen source.now) parts.old.items parts.new.items at next) }
    ensures span { IfOk result (λ next. (at < next) × IsSpan source.now.text.now next to) }
    ensures apart { IfOk result (λ next. next < to → is_buffer (last_of parts.new.items) ≡ false) }
{
    let bytes = source.text.as_bytes();
    let end = at + run_len(&bytes[at as usize..to as usize]) as u32;
    push_run(parts, at, end)?;
    if end == to {
        return Ok(to);
    }
    parts.push(Part::Feed { offset: end })?;
    Ok(end + 1)
}

/// Appends the bytes of the buffer from one offset to another.
fn push_text(
    parts: &mut Vec<Part>,
    source: &PlainSource,
    from: u32,
    to: u32,
) -> Result<(), NoMemory>
    // The parts end where the bytes start, and not with bytes of the buffer. The bytes are whole characters.
    requires lawful { IsLawfulSource (seen source.now) }
    requires reaches { Reaches (seen source.now) parts.old.items from }
    requires apart { is_buffer (last_of parts.old.items) ≡ false }
    requires span { IsSpan source.now.text.now from to }

    // All of them are laid.
    ensures { OnOk result (Lays (seen source.now) parts.old.items parts.new.items from to) }
{
    let mut at = from;
    while at < to {
        at = push_line(parts, source, at, to)?;
    }
    Ok(())
}

/// Appends these bytes of the inlay of this number, where there are any.
fn push_inlay_run(
    parts: &mut Vec<Part>,
    number: u32,
    offset: u32,
    start: usize,
    end: usize,
) -> Result<(), NoMemory>
    requires { end < 2 ^ 32 }
    ensures { OnOk result (parts.new.items ≡ parts.old.items ++ inlay_run number offset start end) }
{
    if start < end {
        parts.push(Part::Inlay {
            number,
            offset,
            start: start as u32,
            end: end as u32,
        })?;
    }
    Ok(())
}

/// Appends the bytes of an inlay from one of them up to the next line break, and that, or up to its end. Returns the
/// number of bytes up to there.
fn push_inlay_line(
    parts: &mut Vec<Part>,
    source: &PlainSource,
    number: u32,
    at: usize,
) -> Result<usize, NoMemory>
    // The parts end at the inlay's offset, and show no later inlay. A character starts at the byte `at` of it.
    requires lawful { IsLawfulSource (seen source.now) }
    requires number { number < length source.now.inlays.now }
    requires reaches { Reaches (seen source.now) parts.old.items (inlay_at (seen source.now) number).offset }
    requires apart { next_inlay (last_of parts.old.items) ≤ number }
    requires boundary { IsCharBoundary (inlay_at (seen source.now) number).text at }
    requires some { at < length (inlay_at (seen source.now) number).text }

    // Its bytes up to the result are laid. Where more follow, the last part is as was asked.
    ensures lays { IfOk result (λ next.
        LaysInlay (seen source.now) number parts.old.items parts.new.items at next) }
    ensures apart { IfOk result (λ next.
        next < length (inlay_at (seen source.now) number).text →
        next_inlay (last_of parts.new.items) ≤ number) }
{
    let inlay = &source.inlays[number as usize];
    let bytes = inlay.text.as_str().as_bytes();
    let end = at + run_len(&bytes[at..]);
    push_inlay_run(parts, number, inlay.offset, at, end)?;
    if end == bytes.len() {
        return Ok(end);
    }
    parts.push(Part::InlayFeed {
        number,
        offset: inlay.offset,
    })?;
    Ok(end + break_len(&bytes[end..]))
}

/// Appends an inlay.
fn push_inlay(parts: &mut Vec<Part>, source: &PlainSource, number: u32) -> Result<(), NoMemory>
    // The parts end at the inlay's offset, and show no later inlay.
    requires lawful { IsLawfulSource (seen source.now) }
    requires number { number < length source.now.inlays.now }
    requires reaches { Reaches (seen source.now) parts.old.items (inlay_at (seen source.now) number).offset }
    requires apart { next_inlay (last_of parts.old.items) ≤ number }

    // They end there again, with the inlay's bytes after what they showed. The last part is none of the buffer's bytes,
    // and of no later inlay.
    ensures reaches { OnOk result
        (Reaches (seen source.now) parts.new.items (inlay_at (seen source.now) number).offset) }
    ensures shows { OnOk result (tokens_of (seen source.now) parts.new.items
        ≡ tokens_of (seen source.now) parts.old.items ++ inlay_bytes (inlay_at (seen source.now) number)) }
    ensures apart { OnOk result (is_buffer (last_of parts.new.items) ≡ false) }
    ensures inlays { OnOk result (next_inlay (last_of parts.new.items) ≤ number + 1) }
{
    let size = source.inlays[number as usize].text.as_str().len();
    let mut at = 0;
    while at < size {
        at = push_inlay_line(parts, source, number, at)?;
    }
    Ok(())
}

/// Whether there is an inlay of this number and it is before the offset.
fn is_before(source: &PlainSource, number: u32, offset: u32) -> bool
    ensures { result ≡ stands_before (seen source.now) number offset }
{
    (number as usize) < source.inlays.len() && source.inlays[number as usize].offset < offset
}

/// Appends what lies between two offsets, where no fold hides a byte. It is the buffer's bytes, and the inlays up to
/// those at the second offset, from that of the number `next` on. Returns the number of the inlay after them.
fn push_stretch(
    parts: &mut Vec<Part>,
    source: &PlainSource,
    next: u32,
    from: u32,
    to: u32,
) -> Result<u32, NoMemory>
    // All before `from` is laid. The last part is none of the buffer's bytes. No fold hides a byte from there to `to`.
    requires lawful { IsLawfulSource (seen source.now) }
    requires laid { IsLaid (seen source.now) next from parts.old.items }
    requires apart { is_buffer (last_of parts.old.items) ≡ false }
    requires free { IsFree (seen source.now) from to }

    // All before `to` is laid, with all inlays at it or before it.
    ensures laid { IfOk result (λ behind. IsLaid (seen source.now) behind to parts.new.items) }
    ensures past { IfOk result (λ behind. IsPast (seen source.now) behind to) }
{
    let mut next = next;
    let mut at = from;
    'inlays: while is_before(source, next, to + 1) {
        let offset = source.inlays[next as usize].offset;
        push_text(parts, source, at, offset)?;
        push_inlay(parts, source, next)?;
        at = offset;
        next += 1;
    }
    push_text(parts, source, at, to)?;
    Ok(next)
}

/// Appends the placeholder of a joined fold. Returns the number of the first inlay after those that it hides.
fn push_placeholder(
    parts: &mut Vec<Part>,
    source: &PlainSource,
    next: u32,
    joined: Joined,
) -> Result<u32, NoMemory>
    // All before the joined fold is laid, with all inlays at its start or before it.
    requires lawful { IsLawfulSource (seen source.now) }
    requires laid { IsLaid (seen source.now) next joined.start parts.old.items }
    requires past { IsPast (seen source.now) next joined.start }
    requires joined { IsJoinedFold (seen source.now) joined }

    // All before its end is laid. The last part is none of the buffer's bytes.
    ensures laid { IfOk result (λ behind. IsLaid (seen source.now) behind joined.end parts.new.items) }
    ensures apart { OnOk result (is_buffer (last_of parts.new.items) ≡ false) }
{
    parts.push(Part::Placeholder {
        start: joined.start,
        end: joined.end,
    })?;
    let mut next = next;
    'hidden: while is_before(source, next, joined.end) {
        next += 1;
    }
    Ok(next)
}

/// The parts of all display lines of the source, whose folds are joined to these.
pub(crate) fn lay_out(
    alloc: Global,
    source: &PlainSource,
    joined: &[Joined],
) -> Result<Vec<Part>, NoMemory>
    requires lawful { IsLawfulSource (seen source.now) }
    requires joins { Joins (seen source.now).folds joined.now }
    ensures { IfOk result (λ parts. AreShown (seen source.now) parts.items) }
{
    let mut parts = Vec::new(alloc);
    let mut next = 0;
    let mut at = 0;
    for fold in joined {
        next = push_stretch(&mut parts, source, next, at, fold.start)?;
        next = push_placeholder(&mut parts, source, next, *fold)?;
        at = fold.end;
    }
    let end = source.text.len() as u32;
    push_stretch(&mut parts, source, next, at, end)?;
    parts.push(Part::Feed { offset: end })?;
    Ok(parts)
}
