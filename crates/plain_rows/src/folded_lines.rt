//! The display lines of a text with inlays in it and folds over it, laid out without a copy of the text.
ghost use Rattle.std.specs.Prelude.{◌≡◌, ◌^◌, ◌<◌, ◌≤◌, Some, [], All, count_by, filter, length, map, slice_get, slice_index_or, sum_by, IfOk};
ghost use Rattle.cell_units.specs.Cutting.{cut_lines};
ghost use Rattle.cell_units.specs.Inlaid.{placeholder};
ghost use Rattle.cell_units.specs.Folded.{line_of, place_in_line};
ghost use Rattle.cell_units.specs.Lawful.{IsWellFormed};
ghost use Rattle.cell_units.specs.Layers.{Source, shown_lines};
ghost use Rattle.plain_rows.specs.FoldedLines.{AreLinesOf, IsLawfulSource, Lies, inlay_at, is_end, seen};
ghost use Rattle.plain_rows.specs.inside.PartPieces.{IsLaidOut, ends_from, line_from, piece_in};
ghost use Rattle.plain_rows.specs.inside.Passed.{IsAround, IsSamePlace, part_bytes, part_passed, passed_bytes};

use crate::joining::joined_folds;
use crate::laying::lay_out;
use crate::plain::{PlainFold, PlainInlay};
use cell_units::limits::LAID_LIMIT;
use cell_units::{Bias, NoMemory, Piece, PieceKind, Text};
use std::alloc::Global;
use std::marker::Model;

/// A text with inlays in it and folds over it, lent.
#[derive(Clone, Copy)]
pub struct PlainSource<'a> {
    pub text: &'a str,
    pub inlays: &'a [PlainInlay],
    pub folds: &'a [PlainFold],
}

/// A part of a display line, or its end. Offsets count the buffer's bytes.
#[derive(Clone, Copy)]
pub enum Part {
    /// These bytes of the buffer.
    Buffer {
        start: u32,
        end: u32,
    },
    /// These bytes of the text of the inlay of this number, which is at the offset.
    Inlay {
        number: u32,
        offset: u32,
        start: u32,
        end: u32,
    },
    /// The placeholder that replaces these bytes of the buffer.
    Placeholder {
        start: u32,
        end: u32,
    },
    /// A line's end: the buffer's line feed at the offset, or the text's end.
    Feed {
        offset: u32,
    },
    /// A line's end: a line break of the inlay of this number, which is at the offset.
    InlayFeed {
        number: u32,
        offset: u32,
    },
}

/// The bytes of the buffer that a joined fold hides.
#[derive(Clone, Copy)]
pub struct Joined {
    pub start: u32,
    pub end: u32,
}

/// A line's end, with the number of the parts up to it.
#[derive(Clone, Copy)]
pub struct LineEnd {
    pub parts: usize,
    pub feed: Part,
}

impl Part {
    /// Whether it is the end of a line.
    fn is_end(&self) -> bool
        ensures { result ≡ is_end self.now }
    {
        matches!(self, Part::Feed { .. } | Part::InlayFeed { .. })
    }

    /// Whether it begins before the position, which is not strictly inside a joined fold.
    fn is_passed(&self, offset: u32, bias: Bias) -> bool
        ensures { result ≡ part_passed offset bias self.now }
    {
        match self {
            Part::Buffer { start, .. } | Part::Placeholder { start, .. } => *start < offset,
            Part::Feed { offset: at } => *at < offset,
            Part::Inlay { offset: at, .. } | Part::InlayFeed { offset: at, .. } => {
                *at < offset || (*at == offset && bias == Bias::Right)
            }
        }
    }

    /// How many of its bytes are before the position, which is not strictly inside a joined fold.
    fn passed_bytes(&self, offset: u32, bias: Bias) -> u32
        ensures value { result ≡ passed_bytes offset bias self.now }
        ensures most { result ≤ part_bytes self.now }
    {
        if !self.is_passed(offset, bias) {
            return 0;
        }
        match self {
            Part::Buffer { start, end } => offset.min(*end).saturating_sub(*start),
            Part::Inlay { start, end, .. } => end.saturating_sub(*start),
            Part::Placeholder { .. } => 3,
            Part::Feed { .. } | Part::InlayFeed { .. } => 1,
        }
    }
}

/// Of each line its end.
fn line_ends(alloc: Global, parts: &[Part]) -> Result<Vec<LineEnd>, NoMemory>
    ensures { IfOk result (λ ends. ends.items ≡ ends_from 0 parts.now) }
{
    let mut ends = Vec::new(alloc);
    for (i, part) in parts.iter().enumerate() {
        if part.is_end() {
            ends.push(LineEnd {
                parts: i + 1,
                feed: *part,
            })?;
        }
    }
    Ok(ends)
}

/// How many bytes of the parts are before the position, which is not strictly inside a joined fold.
fn bytes_before(parts: &[Part], offset: u32, bias: Bias) -> u32
    requires { sum_by part_bytes parts.now < 2 ^ 32 }
    ensures { result ≡ sum_by (passed_bytes offset bias) parts.now }
{
    let mut bytes = 0;
    for part in parts {
        bytes += part.passed_bytes(offset, bias);
    }
    bytes
}

/// The piece that a part is.
fn piece(alloc: Global, source: &PlainSource, part: &Part) -> Result<Piece, NoMemory>
    requires lawful { IsLawfulSource (seen source.now) }
    requires lies { Lies (seen source.now) part.now }
    ensures { IfOk result (λ piece. piece ≡ piece_in (seen source.now) part.now) }
{
    match part {
        Part::Buffer { start, end } => {
            buffer_piece(
                alloc,
                &source.text[*start as usize..*end as usize],
                *start,
                *end,
            )
        }
        Part::Inlay {
            number,
            offset,
            start,
            end,
        } => {
            let inlay = &source.inlays[*number as usize];
            let text = &inlay.text.as_str()[*start as usize..*end as usize];
            inlay_piece(alloc, inlay.id, text, *offset)
        }
        Part::Placeholder { start, end } => placeholder_piece(alloc, *start, *end),
        Part::Feed { offset } => buffer_piece(alloc, "", *offset, *offset),
        Part::InlayFeed { number, offset } => {
            inlay_piece(alloc, inlay_id(source, *number), "", *offset)
        }
    }
}

/// Bytes of the buffer as a piece.
fn buffer_piece(alloc: Global, text: &str, start: u32, end: u32) -> Result<Piece, NoMemory>
    ensures { IfOk result (λ piece.
        piece ≡ record { kind = PieceKind.Buffer; text = text.now; start = start; end = end }) }
{
    Ok(Piece {
        kind: PieceKind::Buffer,
        text: Text::from_str(alloc, text)?,
        start,
        end,
    })
}

/// The id of the inlay of this number; 0 past the last.
fn inlay_id(source: &PlainSource, number: u32) -> u32
    ensures { result ≡ (inlay_at (seen source.now) number).id }
{
    let number = number as usize;
    if number < source.inlays.len() {
        source.inlays[number].id
    } else {
        0
    }
}

/// A part of the inlay of this id, which is at the offset, as a piece.
fn inlay_piece(alloc: Global, id: u32, text: &str, offset: u32) -> Result<Piece, NoMemory>
    ensures { IfOk result (λ piece.
        piece ≡ record { kind = PieceKind.Inlay id; text = text.now; start = offset; end = offset }) }
{
    Ok(Piece {
        kind: PieceKind::Inlay(id),
        text: Text::from_str(alloc, text)?,
        start: offset,
        end: offset,
    })
}

/// A placeholder as a piece.
fn placeholder_piece(alloc: Global, start: u32, end: u32) -> Result<Piece, NoMemory>
    ensures { IfOk result (λ piece.
        piece ≡ record { kind = PieceKind.Placeholder; text = placeholder; start = start; end = end }) }
{
    Ok(Piece {
        kind: PieceKind::Placeholder,
        text: Text::from_str(alloc, "\u{22ef}")?,
        start,
        end,
    })
}

/// How many parts are before the line of this number.
fn line_start(ends: &[LineEnd], line: usize) -> usize
    requires { line ≤ length ends.now }
    ensures { result ≡ line_from 0 ends.now line }
{
    if line == 0 { 0 } else { ends[line - 1].parts }
}

/// The parts of the line of this number with its end; none past the last line.
fn line_parts<'a>(parts: &'a [Part], ends: &[LineEnd], line: usize) -> &'a [Part]
    requires laid { IsLaidOut parts.now ends.now }
    ensures parts { result.now ≡ slice_index_or (cut_lines is_end parts.now) line [] }
    ensures size { sum_by part_bytes result.now < 2 ^ 32 }
{
    if line >= ends.len() {
        return &[];
    }
    let start = line_start(ends, line);
    &parts[start..ends[line].parts]
}

/// The pieces that parts are.
fn line_pieces(alloc: Global, source: &PlainSource, parts: &[Part]) -> Result<Vec<Piece>, NoMemory>
    requires lawful { IsLawfulSource (seen source.now) }
    requires lie { All (Lies (seen source.now)) parts.now }
    ensures { IfOk result (λ pieces. pieces.items ≡ map (piece_in (seen source.now)) parts.now) }
{
    let mut pieces = Vec::new(alloc);
    for part in parts {
        pieces.push(piece(alloc, source, part)?)?;
    }
    Ok(pieces)
}

/// The display lines of a text with inlays and folds. Each is a run of parts, which are ranges: no byte is copied.
pub struct FoldedLines {
    parts: Vec<Part>,
    ends: Vec<LineEnd>,
    joined: Vec<Joined>,
}

impl Drop for FoldedLines {
    fn drop(self) {
        let FoldedLines {
            parts: _,
            ends: _,
            joined: _,
        } = self;
    }
}

impl Model for FoldedLines {
    ghost use Rattle.plain_rows.specs.FoldedLines.{LaidOut};

    ghost Value = { LaidOut };

    ghost use Rattle.plain_rows.specs.inside.PartPieces.{IsLaidOut};

    ghost view = { λ l. record { parts = l.parts.items; joined = l.joined.items } };

    ghost invariant = { λ l. IsLaidOut l.parts.items l.ends.items };
}

impl FoldedLines {
    /// Lays out the display lines of the source (*Folded lines*), in one pass over text, inlays and folds.
    pub fn new(alloc: Global, source: &PlainSource) -> Result<FoldedLines, NoMemory>
        requires formed { IsWellFormed (seen source.now) }
        requires size { length source.now.text.now ≤ LAID_LIMIT }
        ensures { IfOk result (λ lines. AreLinesOf (seen source.now) lines) }
    {
        let joined = joined_folds(alloc, source.folds)?;
        let parts = lay_out(alloc, source, joined.as_slice())?;
        let ends = line_ends(alloc, parts.as_slice())?;
        Ok(FoldedLines {
            parts,
            ends,
            joined,
        })
    }

    /// How many display lines there are.
    pub fn lines(&self) -> u32
        ensures { (source : Source) → AreLinesOf source self.now →
            result ≡ length (shown_lines source) }
    {
        self.ends.len() as u32
    }

    /// The parts of the line of this number, of which the last is its end; none past the last line.
    fn line(&self, line: usize) -> &[Part]
        ensures parts { result.now ≡ slice_index_or (cut_lines is_end self.now.parts) line [] }
        ensures size { sum_by part_bytes result.now < 2 ^ 32 }
    {
        line_parts(self.parts.as_slice(), self.ends.as_slice(), line)
    }

    /// The pieces of a display line, counted from 0, of the source that was laid out.
    pub fn pieces(
        &self,
        alloc: Global,
        source: &PlainSource,
        line: u32,
    ) -> Result<Vec<Piece>, NoMemory>
        requires lines { AreLinesOf (seen source.now) self.now }
        requires within { line < length (shown_lines (seen source.now)) }
        ensures { IfOk result (λ pieces.
            slice_get (shown_lines (seen source.now)) line ≡ Some pieces.items) }
    {
        let parts = self.line(line as usize);
        line_pieces(alloc, source, &parts[..parts.len() - 1])
    }

    /// The joined fold that an offset is strictly inside.
    pub(crate) fn fold_around(&self, offset: u32) -> Option<Joined>
        ensures { (source : Source) → AreLinesOf source self.now → IsAround source offset result }
    {
        let joined = self.joined.as_slice();
        let index = joined.partition_point(|fold| fold.end <= offset);
        if index < joined.len() && joined[index].start < offset {
            return Some(joined[index]);
        }
        None
    }

    /// The position that is at the same place and is not strictly inside a joined fold. For one inside it is at the
    /// placeholder's start (Left) or end (Right).
    fn outside(&self, offset: u32, bias: Bias) -> (u32, Bias)
        ensures { (source : Source) → AreLinesOf source self.now → offset ≤ length source.text →
            IsSamePlace source offset bias result.0 result.1 }
    {
        let Some(fold) = self.fold_around(offset) else {
            return (offset, bias);
        };
        match bias {
            Bias::Left => (fold.start, Bias::Right),
            Bias::Right => (fold.end, Bias::Left),
        }
    }

    /// How many lines end before the position, which is not strictly inside a joined fold.
    fn lines_before(&self, offset: u32, bias: Bias) -> usize
        ensures count { (source : Source) → AreLinesOf source self.now →
            result ≡ count_by (part_passed offset bias) (filter is_end self.now.parts) }
        ensures fits { result < 2 ^ 32 }
    {
        let ends = self.ends.as_slice();
        ends.partition_point(|end| end.feed.is_passed(offset, bias))
    }

    /// The display line that holds a position, counted from 0.
    pub fn line_of(&self, offset: u32, bias: Bias) -> u32
        ensures { (source : Source) → AreLinesOf source self.now → offset ≤ length source.text →
            result ≡ line_of source.text source.inlays source.folds offset bias }
    {
        let (offset, bias) = self.outside(offset, bias);
        self.lines_before(offset, bias) as u32
    }

    /// How many bytes of its display line are before a position.
    pub fn place_in_line(&self, offset: u32, bias: Bias) -> u32
        ensures { (source : Source) → AreLinesOf source self.now → offset ≤ length source.text →
            result ≡ place_in_line source.text source.inlays source.folds offset bias }
    {
        let (offset, bias) = self.outside(offset, bias);
        bytes_before(self.line(self.lines_before(offset, bias)), offset, bias)
    }
}
