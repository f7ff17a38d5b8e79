//! A text as a layer.
use cell_units::{Bias, Layer, NoMemory, Piece, PieceKind, Point, Steps};
use std::alloc::Global;
use std::test::Fail;
use text_rope::Rope;

/// A row's range and text.
type Row = (u32, u32, &'static str);

/// An offset, the row and the column where it is, and the ends of that row.
type Place = (u32, u32, u32, u32, u32);

/// A text as a layer that is shared, whose first holder is let go.
fn shared(alloc: Global, text: &str, steps: &mut Steps) -> Result<Rope, Fail> {
    let rope = Rope::from_bytes(alloc, text.as_bytes(), steps)?;
    Ok(Layer::share(&rope)?)
}

/// Whether these are one piece of the buffer with this range and text, or none where the range is empty.
fn is_in_one(pieces: &[Piece], row: Row) -> bool {
    let (start, end, text) = row;
    match pieces {
        [] => start == end,
        [piece] => {
            piece.kind == PieceKind::Buffer
                && piece.start == start
                && piece.end == end
                && piece.text.as_str() == text
        }
        _ => false,
    }
}

/// Whether the line shows this row alone.
fn shows_row<L: Layer>(alloc: Global, layer: &L, line: u32, row: Row) -> Result<bool, NoMemory> {
    let (start, end, _) = row;
    if line >= layer.lines()
        || layer.span(line) != (line, line)
        || layer.line_start(line) != start
        || layer.row_range(line) != (start, end)
    {
        return Ok(false);
    }
    let pieces = layer.pieces(alloc, line)?;
    Ok(is_in_one(pieces.as_slice(), row))
}

/// The first line that doesn't show its row alone.
fn first_wrong_line<L: Layer>(
    alloc: Global,
    layer: &L,
    rows: &[Row],
) -> Result<Option<u32>, NoMemory> {
    for line in 0..layer.lines() {
        match rows.get(line as usize) {
            Some(row) if shows_row(alloc, layer, line, *row)? => {}
            _ => return Ok(Some(line)),
        }
    }
    Ok(None)
}

/// Whether the offset is a boundary at its own place, with this point in a row of these ends.
fn is_placed<L: Layer>(layer: &L, place: Place) -> bool {
    let (offset, row, column, start, end) = place;
    layer.on_boundary(offset)
        && layer.place(offset, Bias::Left) == offset
        && layer.place(offset, Bias::Right) == offset
        && offset <= layer.length()
        && layer.point(offset) == Point { row, column }
        && layer.row_ends(offset) == (start, end)
        && layer.back(offset, Bias::Left) == Some(offset)
}

/// The first offset that isn't placed so.
fn first_misplaced<L: Layer>(layer: &L, places: &[Place]) -> Option<u32> {
    for place in places {
        if !is_placed(layer, *place) {
            return Some(place.0);
        }
    }
    None
}

/// Whether no place leads back to an offset that is no boundary.
fn is_inside<L: Layer>(layer: &L, offset: u32) -> bool {
    !layer.on_boundary(offset) && layer.back(offset, Bias::Right).is_none()
}

/// A text as a layer has a line for each row, in one piece or none, and each offset at its own place.
#[test]
fn layer_is_the_text_by_itself(rt: HostRuntime) -> Result<(), Fail> {
    let alloc = rt.alloc();
    let rows = [(0, 2, "ab"), (3, 3, ""), (4, 8, "c€")];
    let places = [(3, 1, 0, 3, 3), (5, 2, 1, 4, 8)];
    let layer = shared(alloc, "ab\n\nc€", &mut Steps::new())?;
    assert_eq!(rt;
        (layer.buffer_len(), layer.length(), layer.lines()),
        (8, 8, 3)
    );
    assert_eq!(rt; first_wrong_line(alloc, &layer, &rows)?, None);
    assert_eq!(rt; first_misplaced(&layer, &places), None);
    assert!(rt; is_inside(&layer, 6));
    Ok(())
}
