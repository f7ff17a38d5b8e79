//! A text as a plain list of bytes, and edits of it.
ghost use Rattle.std.specs.Prelude.{◌≡◌, ◌↔◌, min, take, IsTrue, IfOk};
ghost use Rattle.cell_units.specs.Anchor.{move};
ghost use Rattle.cell_units.specs.Operation.{replaced_text};
ghost use Rattle.cell_units.specs.Text.{is_boundary, row_of};
ghost use Rattle.test_support.specs.Answered.{answer_of};

use cell_units::{Bias, Fault, NoMemory, Refusal};
use std::alloc::Global;

/// A count as a u32, or the greatest where it is greater.
pub fn count_of(count: usize) -> u32
    ensures { result ≡ min count u32.MAX }
{
    u32::try_from(count).unwrap_or(u32::MAX)
}

/// The bytes before an offset.
fn before(text: &[u8], offset: u32) -> &[u8]
    ensures { result.now ≡ take offset text.now }
{
    &text[..text.len().min(offset as usize)]
}

/// The bytes before a range, those that are put in, and those after it.
pub fn replaced(
    alloc: Global,
    text: &[u8],
    start: u32,
    end: u32,
    put: &[u8],
) -> Result<Vec<u8>, NoMemory>
    ensures { IfOk result (λ all. all.items ≡ replaced_text text.now start end put.now) }
{
    let mut all = Vec::new(alloc);
    all.extend_from_slice(before(text, start))?;
    all.extend_from_slice(put)?;
    all.extend_from_slice(&text[text.len().min(end as usize)..])?;
    Ok(all)
}

/// Where an anchor is after so many bytes took the place of a range, or the greatest offset where it would be greater.
pub fn moved(offset: u32, bias: Bias, start: u32, end: u32, count: u32) -> u32
    ensures { result ≡ min (move offset bias start end count) u32.MAX }
{
    if offset < start || offset == start && bias == Bias::Left {
        return offset;
    }
    if offset <= end {
        return start.saturating_add(count);
    }
    (offset - end.saturating_sub(start)).saturating_add(count)
}

/// Whether an offset is no further than the end and not within a character.
pub fn on_boundary(text: &[u8], offset: u32) -> bool
    ensures { result ≡ is_boundary text.now offset }
{
    match text.get(offset as usize) {
        Some(byte) => !(128..192).contains(byte),
        None => offset as usize == text.len(),
    }
}

/// The row of an offset: how many line feeds are before it.
pub fn row_at(text: &[u8], offset: u32) -> u32
    ensures { result ≡ min (row_of text.now offset) u32.MAX }
{
    let mut row: u32 = 0;
    for byte in before(text, offset) {
        if *byte == b'\n' {
            row = row.saturating_add(1);
        }
    }
    row
}

/// Whether a call returned what it has to: this refusal, or none.
pub fn answers(answer: Result<(), Fault>, refusal: Option<Refusal>) -> bool
    ensures { IsTrue result ↔ (answer ≡ answer_of refusal) }
{
    match refusal {
        None => answer == Ok(()),
        Some(refusal) => answer == Err(Fault::Refused(refusal)),
    }
}
