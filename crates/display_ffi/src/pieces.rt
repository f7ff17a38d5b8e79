//! The call that reads the pieces of a row.
ghost use Rattle.std.specs.Prelude.{◌≡◌, ◌≤◌, ◌⊎◌, None, length, map, slice_get, string_bytes};
ghost use Rattle.display_map.specs.Replay.{present_of};
ghost use Rattle.row_pieces.specs.Pieces.{pieces_in_rows};
ghost use Rattle.display_ffi.specs.declared.status.TheConstants.{CLOSED, NO_MEMORY, NO_ROW, OK};
ghost use Rattle.display_ffi.specs.Calls.{AskStays, Both};
ghost use Rattle.display_ffi.specs.Handles.{IsHandle};
ghost use Rattle.display_ffi.specs.Pieces.{AreGiven, as_given, filled, id_of, number_of};

use crate::handle::{Handle, put, take};
use crate::status::{CLOSED, NO_MEMORY, NO_ROW, OK};
use display_session::{LentPiece, RowPieceKind};
use std::alloc::Global;

/// Bytes of the text without a tab.
pub const TEXT: u32 = 0;

/// One tab of the text.
pub const TAB: u32 = 1;

/// A part of the text of an inlay.
pub const INLAY: u32 = 2;

/// The placeholder of a fold, or of folds that are joined.
pub const PLACEHOLDER: u32 = 3;

/// A line of a block.
pub const BLOCK: u32 = 4;

/// The spaces before a row that goes on with its line.
pub const INDENT: u32 = 5;

/// A piece of a row, as C has it.
#[repr(C)]
#[derive(Clone, Copy)]
pub struct Piece {
    /// How many bytes of the row's text it has.
    pub bytes: usize,
    pub kind: u32,
    /// Of an inlay or a block its id, else 0.
    pub id: u32,
    pub cells: u32,
    pub start: u32,
    pub end: u32,
}

/// The number of a kind of pieces.
fn number_of(kind: RowPieceKind) -> u32
    ensures { result ≡ number_of kind }
{
    match kind {
        RowPieceKind::Text => TEXT,
        RowPieceKind::Tab => TAB,
        RowPieceKind::Inlay(_) => INLAY,
        RowPieceKind::Placeholder => PLACEHOLDER,
        RowPieceKind::Block(_) => BLOCK,
        RowPieceKind::Indent => INDENT,
    }
}

/// The id of the inlay or the block that a piece is of, else 0.
fn id_of(kind: RowPieceKind) -> u32
    ensures { result ≡ id_of kind }
{
    match kind {
        RowPieceKind::Inlay(id) => id,
        RowPieceKind::Block(id) => id,
        _ => 0,
    }
}

/// A piece, as C has it.
fn as_given(piece: &LentPiece) -> Piece
    ensures { result ≡ as_given piece.now }
{
    Piece {
        bytes: piece.bytes,
        kind: number_of(piece.kind),
        id: id_of(piece.kind),
        cells: piece.cells,
        start: piece.start,
        end: piece.end,
    }
}

/// Writes as many pieces as there is room for.
fn give(pieces: &[LentPiece], out: &mut [Piece])
    ensures { out.new ≡ filled (map as_given pieces.now) out.old }
{
    let count = pieces.len().min(out.len());
    for i in 0..count {
        out[i] = as_given(&pieces[i]);
    }
}

/// The pieces of a row, as many as there is room for, and how many there are. The row's text is kept as the answer.
#[unsafe(no_mangle)]
pub extern "C" fn displaymap_pieces(
    alloc: Global,
    handle: &mut Handle,
    row: u32,
    out: &mut [Piece],
    count: &mut usize,
) -> u32
    requires { IsHandle handle.old }

    // What the handle holds then, and what is written.
    ensures handle { IsHandle handle.new }
    ensures pieces { result ≡ OK → Both
        (λ a b. (b.display ≡ a.display) × (b.marks ≡ a.marks)
        × AreGiven (slice_get (pieces_in_rows (present_of a.display)) row)
        (string_bytes b.answer) count.new out.old out.new)
        handle.old.kept.session handle.new.kept.session }
    ensures asked { AskStays handle.old.kept.session handle.new.kept.session }

    // Why it fails, and what stays then.
    ensures past { result ≡ NO_ROW → Both
        (λ a b. slice_get (pieces_in_rows (present_of a.display)) row ≡ None)
        handle.old.kept.session handle.new.kept.session }
    ensures failed { 1 ≤ result → Both
        (λ a b. (b ≡ a) × ((result ≡ NO_ROW) ⊎ (result ≡ NO_MEMORY)))
        handle.old.kept.session handle.new.kept.session }
    ensures untouched { 1 ≤ result → (count.new ≡ count.old) × (out.new ≡ out.old) }
    ensures closed { handle.old.kept.session ≡ None → result ≡ CLOSED }
{
    let Some(mut session) = take(alloc, handle) else {
        return CLOSED;
    };
    let found = session.pieces(alloc, row);
    put(handle, session);
    match found {
        Ok(Some(pieces)) => {
            give(&pieces, out);
            *count = pieces.len();
            OK
        }
        Ok(None) => NO_ROW,
        Err(_) => NO_MEMORY,
    }
}
