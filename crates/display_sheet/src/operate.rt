//! Operations on a record that a display keeps, and why they are refused.
ghost use Rattle.std.specs.Prelude.{◌≡◌, ◌≤◌, ◌||◌, false, length, nat_lt, nat_le, string_bytes, IfOk};
ghost use Rattle.cell_units.specs.declared.place.Bias.{Bias};
ghost use Rattle.cell_units.specs.declared.limits.TheConstants.{ENTRY_LIMIT, LAID_LIMIT};
ghost use Rattle.std.specs.List.{list_any};
ghost use Rattle.cell_units.specs.Operation.{AddBlock, AddFold, AddInlay, RemoveBlock, RemoveFold, RemoveInlay, SetTab, SetWidth, operated, replaced_text};
ghost use Rattle.cell_units.specs.Text.{IsBoundary, clean};
ghost use Rattle.cell_units.specs.Lawful.{IsAllowed};
ghost use Rattle.plain_rows.specs.Plain.{fold_of};
ghost use Rattle.display_sheet.specs.Changes.{are_block_lines, block_refusal, fold_refusal, inlay_of, inlay_refusal, is_fold_range, is_line_end, is_long_line, is_replacement, operation_of, replacement};
ghost use Rattle.display_sheet.specs.Sheets.{IsOperated};
ghost use Rattle.display_sheet.specs.Refusals.{IsDone};

use crate::buffer::Buffer;
use crate::change::{Op, Splice, copied};
use crate::sheet::{Draft, Reach, Sheet, Spliced, shared};
use crate::{blocks, folds, inlays};
use cell_units::limits::{
    BLOCK_LINE_LIMIT, BLOCK_LINES_LIMIT, ENTRY_LIMIT, INLAY_LIMIT, LEAST_WIDTH, TAB_LIMIT,
    WIDTH_LIMIT,
};
use cell_units::{Bias, Fault, NoMemory, Refusal, Shift, Side, Text, push_clean};
use plain_rows::{PlainBlock, PlainFold, PlainInlay};
use std::alloc::Global;

/// A list of so many entries has no room for one more, or its text is longer than it may be.
fn has_no_room(len: usize, limit: usize, entries: usize) -> bool
    ensures { result ≡ (nat_lt limit len || nat_le ENTRY_LIMIT entries) }
{
    len > limit || entries >= ENTRY_LIMIT
}

/// Why an inlay isn't added, if it isn't. Its bias doesn't matter.
fn inlay_refusal(sheet: &Sheet, id: u32, offset: u32, text: &str) -> Option<Refusal>
    ensures { (bias : Bias) → result ≡ inlay_refusal sheet.now (inlay_of id offset bias text.now) }
{
    if inlays::found(sheet.inlays(), id).is_some() {
        return Some(Refusal::IdInUse);
    }
    if !sheet.text().is_boundary(offset) {
        return Some(Refusal::BadRange);
    }
    if text.len() == 0 {
        return Some(Refusal::BadText);
    }
    if has_no_room(text.len(), INLAY_LIMIT, sheet.inlays().len()) {
        return Some(Refusal::TooLong);
    }
    None
}

/// One more inlay.
fn add_inlay(
    alloc: Global,
    sheet: &Sheet,
    id: u32,
    offset: u32,
    bias: Bias,
    text: &str,
) -> Result<Spliced, Fault>
    ensures { IsDone (AddInlay (inlay_of id offset bias text.now)) sheet.now result }
{
    // For the proof: the record of the sheet is lawful.
    sheet.lawful();
    if let Some(refusal) = inlay_refusal(sheet, id, offset, text) {
        return Err(Fault::Refused(refusal));
    }
    let at = Reach {
        start: offset,
        end: offset,
    };
    let inlay = PlainInlay {
        offset,
        bias,
        id,
        text: Text::from_str(alloc, text)?,
    };
    let inlays = inlays::added(alloc, sheet.inlays(), inlay)?;
    let mut draft = sheet.draft()?;
    draft.inlays = shared(alloc, inlays)?;
    Ok(sheet.relaid(alloc, draft, at, at)?)
}

/// The inlay of this id taken away.
fn remove_inlay(alloc: Global, sheet: &Sheet, id: u32) -> Result<Spliced, Fault>
    ensures { IsDone (RemoveInlay id) sheet.now result }
{
    let Some(inlay) = inlays::found(sheet.inlays(), id) else {
        return Err(Fault::Refused(Refusal::UnknownId));
    };
    // For the proof: the record of the sheet is lawful.
    sheet.lawful();
    let at = Reach {
        start: inlay.offset,
        end: inlay.offset,
    };
    let inlays = inlays::removed(alloc, sheet.inlays(), id)?;
    let mut draft = sheet.draft()?;
    draft.inlays = shared(alloc, inlays)?;
    Ok(sheet.relaid(alloc, draft, at, at)?)
}

/// Whether a fold is of a range between boundaries that isn't empty.
fn is_fold_range(text: &Buffer, fold: &PlainFold) -> bool
    ensures { result ≡ is_fold_range text.now (fold_of fold.now) }
{
    fold.start < fold.end && text.is_boundary(fold.start) && text.is_boundary(fold.end)
}

/// Why a fold isn't added, if it isn't.
fn fold_refusal(sheet: &Sheet, fold: &PlainFold) -> Option<Refusal>
    ensures { result ≡ fold_refusal sheet.now (fold_of fold.now) }
{
    if folds::found(sheet.folds(), fold.id).is_some() {
        return Some(Refusal::IdInUse);
    }
    if !is_fold_range(sheet.text(), fold) {
        return Some(Refusal::BadRange);
    }
    if sheet.folds().len() >= ENTRY_LIMIT {
        return Some(Refusal::TooLong);
    }
    None
}

/// One more fold.
fn add_fold(alloc: Global, sheet: &Sheet, fold: PlainFold) -> Result<Spliced, Fault>
    ensures { IsDone (AddFold (fold_of fold)) sheet.now result }
{
    // For the proof: the record of the sheet is lawful.
    sheet.lawful();
    if let Some(refusal) = fold_refusal(sheet, &fold) {
        return Err(Fault::Refused(refusal));
    }
    let at = Reach {
        start: fold.start,
        end: fold.end,
    };
    let folds = folds::added(alloc, sheet.folds(), fold)?;
    let mut draft = sheet.draft()?;
    draft.folds = shared(alloc, folds)?;
    Ok(sheet.relaid(alloc, draft, at, at)?)
}

/// The fold of this id taken away.
fn remove_fold(alloc: Global, sheet: &Sheet, id: u32) -> Result<Spliced, Fault>
    ensures { IsDone (RemoveFold id) sheet.now result }
{
    let Some(fold) = folds::found(sheet.folds(), id) else {
        return Err(Fault::Refused(Refusal::UnknownId));
    };
    // For the proof: the record of the sheet is lawful.
    sheet.lawful();
    let at = Reach {
        start: fold.start,
        end: fold.end,
    };
    let folds = folds::removed(alloc, sheet.folds(), id)?;
    let mut draft = sheet.draft()?;
    draft.folds = shared(alloc, folds)?;
    Ok(sheet.relaid(alloc, draft, at, at)?)
}

/// Whether a text has a line end.
fn has_line_end(line: &str) -> bool
    ensures { result ≡ list_any is_line_end line.now }
{
    line.as_bytes()
        .iter()
        .any(|byte| *byte == b'\n' || *byte == b'\r')
}

/// Whether one of the lines has a line end.
fn has_broken_line(lines: &[Text]) -> bool
    ensures { result ≡ list_any (list_any is_line_end) lines.now }
{
    lines.iter().any(|line| has_line_end(line.as_str()))
}

/// Whether lines may be those of a block.
fn are_block_lines(lines: &[Text]) -> bool
    ensures { result ≡ are_block_lines lines.now }
{
    lines.len() > 0 && lines.len() <= BLOCK_LINES_LIMIT && !has_broken_line(lines)
}

/// Whether a line is longer than one of a block may be.
fn has_long_line(lines: &[Text]) -> bool
    ensures { result ≡ list_any is_long_line lines.now }
{
    lines
        .iter()
        .any(|line| line.as_str().len() > BLOCK_LINE_LIMIT)
}

/// Why a block isn't added, if it isn't.
fn block_refusal(sheet: &Sheet, id: u32, row: u32, lines: &[Text]) -> Option<Refusal>
    ensures { result ≡ block_refusal sheet.now row id lines.now }
{
    if blocks::found(sheet.blocks(), id).is_some() {
        return Some(Refusal::IdInUse);
    }
    if row >= sheet.text().lines() {
        return Some(Refusal::BadRange);
    }
    if !are_block_lines(lines) {
        return Some(Refusal::BadText);
    }
    if has_long_line(lines) || sheet.blocks().len() >= ENTRY_LIMIT {
        return Some(Refusal::TooLong);
    }
    None
}

/// The block of this id taken away.
fn remove_block(alloc: Global, sheet: &Sheet, id: u32) -> Result<Spliced, Fault>
    ensures { IsDone (RemoveBlock id) sheet.now result }
{
    if blocks::found(sheet.blocks(), id).is_none() {
        return Err(Fault::Refused(Refusal::UnknownId));
    }
    let blocks = blocks::removed(alloc, sheet.blocks(), id)?;
    Ok(sheet.with_blocks(alloc, blocks)?)
}

/// The tab size.
fn set_tab(alloc: Global, sheet: &Sheet, size: u32) -> Result<Spliced, Fault>
    ensures { IsDone (SetTab size) sheet.now result }
{
    if size == 0 || size > TAB_LIMIT {
        return Err(Fault::Refused(Refusal::BadNumber));
    }
    Ok(sheet.with_tab(alloc, size)?)
}

/// The width.
fn set_width(sheet: &Sheet, cells: u32) -> Result<Spliced, Fault>
    ensures { IsDone (SetWidth cells) sheet.now result }
{
    if cells != 0 && (cells < LEAST_WIDTH || cells > WIDTH_LIMIT) {
        return Err(Fault::Refused(Refusal::BadNumber));
    }
    Ok(sheet.with_width(cells)?)
}

/// The text after a replacement.
fn replaced(alloc: Global, text: &str, splice: &Splice) -> Result<String, NoMemory>
    requires start { IsBoundary text.now splice.now.start }
    requires end { IsBoundary text.now splice.now.end }
    ensures { let s = splice.now in IfOk result (λ replaced.
        string_bytes replaced ≡ replaced_text text.now s.start s.end (clean s.text)) }
{
    let mut replaced = String::new(alloc);
    replaced.push_str(&text[..splice.start as usize])?;
    push_clean(&mut replaced, splice.text.as_str())?;
    replaced.push_str(&text[splice.end as usize..])?;
    Ok(replaced)
}

/// A replacement. Of a batch the text after all of it is judged, so in between it may be over the limit of a text.
pub fn replace(alloc: Global, sheet: &Sheet, splice: &Splice) -> Result<Spliced, NoMemory>
    requires allowed { IsAllowed (replacement splice.now) sheet.now }
    requires fits { length (operated (replacement splice.now) sheet.now).text ≤ LAID_LIMIT }
    ensures { IfOk result (λ s. IsOperated (replacement splice.now) sheet.now s.sheet s.splice) }
{
    // For the proof: the record of the sheet is lawful.
    sheet.lawful();
    let old = sheet.text().as_str();
    let text = replaced(alloc, old, splice)?;
    let kept = old.len() - (splice.end - splice.start) as usize;
    let shift = Shift::new(splice.start, splice.end, (text.len() - kept) as u32);
    let draft = Draft {
        text: shared(alloc, Buffer::new(alloc, text)?)?,
        inlays: shared(alloc, inlays::moved(alloc, sheet.inlays(), shift)?)?,
        folds: shared(alloc, folds::moved(alloc, sheet.folds(), shift)?)?,
        blocks: shared(alloc, blocks::moved(alloc, sheet.blocks(), shift)?)?,
    };
    let before = Reach {
        start: splice.start,
        end: splice.end,
    };
    let after = Reach {
        start: splice.start,
        end: splice.start + shift.count,
    };
    sheet.relaid(alloc, draft, before, after)
}

/// One more block, above or below a row.
fn add_block(
    alloc: Global,
    sheet: &Sheet,
    id: u32,
    side: Side,
    row: u32,
    lines: &[Text],
) -> Result<Spliced, Fault>
    ensures { IsDone (AddBlock row id side lines.now) sheet.now result }
{
    // For the proof: the record of the sheet is lawful.
    sheet.lawful();
    if let Some(refusal) = block_refusal(sheet, id, row, lines) {
        return Err(Fault::Refused(refusal));
    }
    let block = PlainBlock {
        offset: sheet.text().line_start(row),
        side,
        id,
        lines: copied(alloc, lines)?,
    };
    let blocks = blocks::added(alloc, sheet.blocks(), block)?;
    Ok(sheet.with_blocks(alloc, blocks)?)
}

/// What an operation that isn't a replacement makes of a sheet (*Records and operations*). It is refused as
/// `Display::apply` of `display_map` says.
pub fn operate(alloc: Global, sheet: &Sheet, op: &Op) -> Result<Spliced, Fault>
    requires { is_replacement op.now ≡ false }
    ensures { IsDone (operation_of op.now) sheet.now result }
{
    match op {
        Op::Replace(_) => unreachable!(),
        Op::Inlay {
            id,
            offset,
            bias,
            text,
        } => add_inlay(alloc, sheet, *id, *offset, *bias, text.as_str()),
        Op::Uninlay { id } => remove_inlay(alloc, sheet, *id),
        Op::Fold { id, start, end } => add_fold(
            alloc,
            sheet,
            PlainFold {
                start: *start,
                end: *end,
                id: *id,
            },
        ),
        Op::Unfold { id } => remove_fold(alloc, sheet, *id),
        Op::Block {
            id,
            side,
            row,
            lines,
        } => add_block(alloc, sheet, *id, *side, *row, lines),
        Op::Unblock { id } => remove_block(alloc, sheet, *id),
        Op::Tab { size } => set_tab(alloc, sheet, *size),
        Op::Width { cells } => set_width(sheet, *cells),
    }
}
