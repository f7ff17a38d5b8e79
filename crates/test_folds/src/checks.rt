//! What is compared of a text under its maps and the same by plain lists.
use crate::plain::{PlainFold, PlainLine, PlainText, WrittenOut};
use cell_units::{Bias, Layer, NoMemory, Piece, PieceKind};
use fold_map::FoldSnapshot;
use std::alloc::Global;
use test_support::checks::{has_places, has_points, leads_back};
use test_support::inlaid::{Origin, ShownByte};
use test_support::looks;
use test_support::told::Stretch;

/// What has to be shown, and its lines.
#[derive(Drop)]
pub(crate) struct Shown {
    all: WrittenOut,
    lines: Vec<PlainLine>,
}

impl Shown {
    /// The bytes that are shown.
    pub(crate) fn bytes(&self) -> &[ShownByte] {
        &self.all.bytes
    }

    pub(crate) fn of(plain: &PlainText) -> Result<Shown, NoMemory> {
        let all = plain.written_out()?;
        let lines = plain.lines(&all)?;
        Ok(Shown { all, lines })
    }
}

/// The first and the last row that a change touches, before it and after it. With them comes the fold that is added or
/// taken off by it.
#[derive(Clone, Copy)]
pub(crate) struct Change {
    pub before: (u32, u32),
    pub after: (u32, u32),
    pub fold: Option<PlainFold>,
}

impl Change {
    /// Of what is in one row.
    pub(crate) fn at_row(row: u32) -> Change {
        Change {
            before: (row, row),
            after: (row, row),
            fold: None,
        }
    }

    /// Of a fold.
    pub(crate) fn of_fold(plain: &PlainText, start: u32, end: u32) -> Change {
        let rows = (plain.inlaid.row(start), plain.inlaid.row(end));
        Change {
            before: rows,
            after: rows,
            fold: Some(PlainFold { start, end }),
        }
    }
}

/// Whether the places from one to another meet just the lines that have one of these rows.
fn meets_rows(lines: &[PlainLine], start: u32, end: u32, rows: (u32, u32)) -> bool {
    for line in lines {
        let is_met = line.start <= end && start <= line.end;
        let is_touched = line.first <= rows.1 && rows.0 <= line.last;
        if is_met != is_touched {
            return false;
        }
    }
    true
}

/// Whether the replacement that comes of one change is that of its fold. It meets just the lines that have a row which
/// the change touches, before and after.
pub(crate) fn answers_change(
    plain: &PlainText,
    old: &Shown,
    new: &Shown,
    answer: Stretch,
    change: Change,
) -> bool {
    let Some((start, end, count)) = answer else {
        return false;
    };
    let come = start.wrapping_add(count);
    let is_of_fold = match change.fold {
        Some(fold) => (start, end) == ends_of(plain, old, fold),
        None => true,
    };
    is_of_fold
        && meets_rows(&old.lines, start, end, change.before)
        && meets_rows(&new.lines, start, come, change.after)
}

/// What is replaced of what was shown where a fold is added or taken off. It goes from its start to its end. Where the
/// start of its row is on another line it begins there, and where the end of its row is, it ends there.
fn ends_of(plain: &PlainText, old: &Shown, fold: PlainFold) -> (u32, u32) {
    let start = plain.place(&old.all, fold.start, Bias::Left);
    let end = plain.place(&old.all, fold.end, Bias::Right);
    let row_start = plain.place(&old.all, plain.row_start(fold.start), Bias::Left);
    let row_end = plain.place(&old.all, plain.row_end(fold.end), Bias::Right);
    let is_first = lines_to(old, start) == lines_to(old, row_start);
    let is_last = lines_to(old, end) == lines_to(old, row_end);
    (
        if is_first { start } else { row_start },
        if is_last { end } else { row_end },
    )
}

/// How many lines begin up to a place.
fn lines_to(shown: &Shown, place: u32) -> usize {
    let mut count: usize = 0;
    for line in &shown.lines {
        if line.start <= place {
            count = count.wrapping_add(1);
        }
    }
    count
}

/// Whether a layer shows what the plain lists do, wherever it is asked. That it may go to another thread is proved
/// here, over any lower layer.
pub(crate) fn agrees<L: Layer>(
    alloc: Global,
    layer: &FoldSnapshot<L>,
    plain: &PlainText,
    shown: &Shown,
) -> Result<bool, NoMemory> {
    agrees_everywhere(alloc, layer, plain, shown)
}

/// The same of any layer.
fn agrees_everywhere<L: Layer>(
    alloc: Global,
    layer: &L,
    plain: &PlainText,
    shown: &Shown,
) -> Result<bool, NoMemory> {
    let placed = plain.placed(&shown.all)?;
    Ok(
        has_places(layer, plain.inlaid.len(), &placed)
            && leads_back(layer, &placed)
            && has_points(layer, &shown.all.bytes)
            && has_lines(alloc, layer, shown)?,
    )
}

/// Whether each line begins and ends where it does by the plain lists, spans the same rows and has the same pieces.
fn has_lines<L: Layer>(alloc: Global, layer: &L, shown: &Shown) -> Result<bool, NoMemory> {
    let mut number: u32 = 0;
    for line in &shown.lines {
        let start = line.start as usize;
        let bytes = shown.all.bytes.get(start..line.end as usize).unwrap_or(&[]);
        if looks::line_begin(layer, number) != Some(line.start)
            || looks::span(layer, number) != Some((line.first, line.last))
            || !has_pieces(alloc, layer, number, bytes, &shown.all.joined)?
        {
            return Ok(false);
        }
        number = number.wrapping_add(1);
    }
    Ok(layer.lines() == number)
}

/// Whether the pieces of a line are these bytes, cut where one that belongs to something else follows.
fn has_pieces<L: Layer>(
    alloc: Global,
    layer: &L,
    line: u32,
    bytes: &[ShownByte],
    joined: &[PlainFold],
) -> Result<bool, NoMemory> {
    let Some(pieces) = looks::pieces(alloc, layer, line)? else {
        return Ok(false);
    };
    let mut start: usize = 0;
    for piece in pieces {
        if !is_first_piece(&piece, bytes.get(start..).unwrap_or(&[]), joined) {
            return Ok(false);
        }
        start = start.wrapping_add(piece.text.as_str().len());
    }
    Ok(start == bytes.len())
}

/// Whether a piece is the first of these bytes: those that are of one piece with the first.
fn is_first_piece(piece: &Piece, bytes: &[ShownByte], joined: &[PlainFold]) -> bool {
    let Some(first) = bytes.first() else {
        return false;
    };
    let text = piece.text.as_str().as_bytes();
    let mut last = *first;
    for (at, byte) in text.iter().enumerate() {
        match bytes.get(at) {
            Some(shown) if shown.byte == *byte && shown.is_of_one_piece_with(*first) => last =
                *shown,
            _ => return false,
        }
    }
    let goes_on = match bytes.get(text.len()) {
        Some(next) => next.is_of_one_piece_with(*first),
        None => false,
    };
    !goes_on
        && piece.kind == kind_of(first.origin)
        && piece.start == first.offset
        && piece.end == end_of(last, joined)
}

/// What a piece is whose bytes belong to this.
fn kind_of(origin: Origin) -> PieceKind {
    match origin {
        Origin::Text => PieceKind::Buffer,
        Origin::Inlay(id) => PieceKind::Inlay(id),
        Origin::Placeholder => PieceKind::Placeholder,
    }
}

/// The offset after a piece that ends with this byte.
fn end_of(last: ShownByte, joined: &[PlainFold]) -> u32 {
    match last.origin {
        Origin::Text => last.offset.wrapping_add(1),
        Origin::Inlay(_) => last.offset,
        Origin::Placeholder => {
            for fold in joined {
                if fold.start == last.offset {
                    return fold.end;
                }
            }
            u32::MAX
        }
    }
}
