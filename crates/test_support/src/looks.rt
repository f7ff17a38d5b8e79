//! What is asked of a layer: any offset, place and line may be asked for, and each answer is a plain value.
ghost use Rattle.std.specs.Prelude.{◌≡◌, ◌<◌, ◌≤◌, ◌↔◌, IsSome, IfSome, IfOk, length, slice_get, string_bytes, Some};
ghost use Rattle.cell_units.specs.declared.place.Bias.TheVariants.{Left, Right};
ghost use Rattle.cell_units.specs.BufferLines.{line_start};
ghost use Rattle.cell_units.specs.Layers.{place_of, point_of, shown_lines, shown_text, span_of};
ghost use Rattle.cell_units.specs.Text.{IsBoundary};
ghost use Rattle.test_support.specs.Told.{barred_told, line_told};

use cell_units::{Bias, Layer, NoMemory, Piece};
use std::alloc::Global;

/// The pieces of a display line, where there is such a line.
pub fn pieces<L: Layer>(alloc: Global, layer: &L, line: u32) -> Result<Option<Vec<Piece>>, NoMemory>
    ensures there { IfOk result (λ told. IsSome told
        ↔ (line < length (shown_lines (L.source layer.now)))) }
    ensures value { IfOk result (λ told. IfSome told (λ pieces.
        slice_get (shown_lines (L.source layer.now)) line ≡ Some pieces.items)) }
{
    if line >= layer.lines() {
        return Ok(None);
    }
    Ok(Some(layer.pieces(alloc, line)?))
}

/// Pieces, with a bar after each.
fn barred(alloc: Global, pieces: &[Piece]) -> Result<String, NoMemory>
    ensures { IfOk result (λ told. string_bytes told ≡ barred_told pieces.now) }
{
    let mut all = String::new(alloc);
    for piece in pieces {
        all.push_str(piece.text.as_str())?;
        all.push('|')?;
    }
    Ok(all)
}

/// The pieces of a display line, with a bar after each. Where there is no such line it is a question mark.
pub fn line_told<L: Layer>(alloc: Global, layer: &L, line: u32) -> Result<String, NoMemory>
    ensures { IfOk result (λ told. string_bytes told
        ≡ line_told (slice_get (shown_lines (L.source layer.now)) line)) }
{
    match pieces(alloc, layer, line)? {
        Some(pieces) => barred(alloc, &pieces),
        None => Ok(String::from_str(alloc, "?")?),
    }
}

/// The place at which a display line begins, where there is such a line.
pub fn line_begin<L: Layer>(layer: &L, line: u32) -> Option<u32>
    ensures there { IsSome result ↔ (line < length (shown_lines (L.source layer.now))) }
    ensures value { IfSome result (λ start.
        start ≡ line_start (shown_text (L.source layer.now)) line) }
{
    if line >= layer.lines() {
        return None;
    }
    Some(layer.line_start(line))
}

/// The first and the last buffer row of a display line, where there is such a line.
pub fn span<L: Layer>(layer: &L, line: u32) -> Option<(u32, u32)>
    ensures there { IsSome result ↔ (line < length (shown_lines (L.source layer.now))) }
    ensures value { IfSome result (λ span. span ≡ span_of (L.source layer.now) line) }
{
    if line >= layer.lines() {
        return None;
    }
    Some(layer.span(line))
}

/// The two places of an offset, Left and Right, where it is a boundary.
pub fn places<L: Layer>(layer: &L, offset: u32) -> Option<(u32, u32)>
    ensures there { IsSome result ↔ IsBoundary (L.source layer.now).text offset }
    ensures left { IfSome result (λ places.
        places.0 ≡ place_of (L.source layer.now) offset Left) }
    ensures right { IfSome result (λ places.
        places.1 ≡ place_of (L.source layer.now) offset Right) }
{
    if !layer.on_boundary(offset) {
        return None;
    }
    let left = layer.place(offset, Bias::Left);
    let right = layer.place(offset, Bias::Right);
    Some((left, right))
}

/// The display line of a place and its column there, where there is such a place.
pub fn point<L: Layer>(layer: &L, place: u32) -> Option<(u32, u32)>
    ensures there { IsSome result ↔ (place ≤ length (shown_text (L.source layer.now))) }
    ensures row { IfSome result (λ point.
        point.0 ≡ (point_of (shown_text (L.source layer.now)) place).row) }
    ensures column { IfSome result (λ point.
        point.1 ≡ (point_of (shown_text (L.source layer.now)) place).column) }
{
    if place > layer.length() {
        return None;
    }
    let point = layer.point(place);
    Some((point.row, point.column))
}
