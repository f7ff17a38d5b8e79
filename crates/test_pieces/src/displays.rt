//! What the rows of a view are made of.
use cell_units::{NoMemory, Steps};
use display_map::View;
use row_pieces::RowPieceKind;
use std::alloc::Global;
use std::process::Abort;
use std::test::Fail;
use view_pieces::pieces_of_row;

/// What a piece has: its kind, its text, its cells, and its offsets.
pub(crate) type Wanted<'a> = (RowPieceKind, &'a str, u32, (u32, u32));

/// The row has these pieces.
pub(crate) fn assert_row(
    rt: &impl Abort,
    alloc: Global,
    view: &View,
    row: u32,
    wanted: &[Wanted],
) -> Result<(), Fail> {
    let found = pieces_of_row(alloc, view, row, &mut Steps::new())?.ok_or("no row")?;
    assert_eq!(rt; found.len(), wanted.len());
    for (piece, (kind, text, cells, offsets)) in found.iter().zip(wanted) {
        assert_eq!(rt; piece.kind, *kind);
        assert_eq!(rt; piece.text.as_str(), *text);
        assert_eq!(rt; piece.cells, *cells);
        assert_eq!(rt; (piece.start, piece.end), *offsets);
    }
    Ok(())
}

/// There is no row of this number.
pub(crate) fn assert_no_row(
    rt: &impl Abort,
    alloc: Global,
    view: &View,
    row: u32,
) -> Result<(), NoMemory> {
    let found = pieces_of_row(alloc, view, row, &mut Steps::new())?;
    assert!(rt; found.is_none());
    Ok(())
}
