//! Callers of `row_pieces`.
ghost use Rattle.std.specs.Prelude.{◌≡◌, ◌≤◌, false, length, slice_get, IfOk};
ghost use Rattle.cell_units.specs.declared.limits.TheConstants.{LAID_LIMIT, TEXT_LIMIT};
ghost use Rattle.cell_units.specs.Lawful.{IsLawful};
ghost use Rattle.plain_rows.specs.Plain.{record_of};
ghost use Rattle.display_sheet.specs.Changes.{is_replacement};
ghost use Rattle.row_pieces.specs.Listed.{listed};
ghost use Rattle.row_pieces.specs.Pieces.{pieces_in_rows};

use cell_units::{Bias, Fault, NoMemory, Text, cleaned};
use display_sheet::operate::operate;
use display_sheet::{Buffer, LineSplice, Op, Sheet};
use plain_rows::Plain;
use row_pieces::{RowChange, RowPiece, RowPieceKind, changed_rows, pieces_of_row};
use std::alloc::Global;
use std::sync::Arc;
use std::test::Fail;

/// A sheet of a text that was just opened.
fn opened_sheet(alloc: Global, text: &str) -> Result<Sheet, NoMemory>
    requires { length text.now ≤ TEXT_LIMIT }
{
    let buffer = Arc::new(alloc, Buffer::new(alloc, cleaned(alloc, text)?)?)?;
    Sheet::opened(alloc, buffer)
}

/// The pieces of a row of a sheet; none past the last row.
fn sheet_pieces(alloc: Global, sheet: &Sheet, row: u32) -> Result<Option<Vec<RowPiece>>, NoMemory>
    ensures { IfOk result (λ found. listed found ≡ slice_get (pieces_in_rows sheet.now) row) }
{
    let plain = sheet.plain(alloc)?;
    pieces_of_row(alloc, &plain, row)
}

/// Whether a piece is of this kind and has this text, and goes from the one offset to the other.
fn is_piece(piece: &RowPiece, kind: RowPieceKind, text: &str, start: u32, end: u32) -> bool {
    piece.kind == kind && piece.text.as_str() == text && piece.start == start && piece.end == end
}

/// After the name in `let x = 1` comes an inlay. A click on it leads to the inlay's id, and one after it to the text.
#[test]
fn an_inlay_is_a_piece_between_two(rt: HostRuntime) -> Result<(), Fail> {
    let alloc = rt.alloc();
    let sheet = opened_sheet(alloc, "let x = 1")?;
    let inlay = Op::Inlay {
        id: 7,
        offset: 5,
        bias: Bias::Right,
        text: Text::from_str(alloc, ": i32")?,
    };
    let sheet = operate(alloc, &sheet, &inlay)?.sheet;
    let row = sheet_pieces(alloc, &sheet, 0)?.ok_or("no row")?;
    assert_eq!(rt; row.len(), 3);
    assert!(rt; is_piece(&row[0], RowPieceKind::Text, "let x", 0, 5));
    assert!(rt; is_piece(&row[1], RowPieceKind::Inlay(7), ": i32", 5, 5));
    assert!(rt; is_piece(&row[2], RowPieceKind::Text, " = 1", 5, 9));
    assert!(rt; sheet_pieces(alloc, &sheet, 1)?.is_none());
    Ok(())
}

/// The rows of a change of lines, where the lines lie within both records.
fn rows_of_lines(
    alloc: Global,
    before: &Plain,
    after: &Plain,
    lines: LineSplice,
) -> Result<Option<RowChange>, NoMemory>
    requires before { IsLawful (record_of before.now) × (length before.now.text ≤ LAID_LIMIT) }
    requires after { IsLawful (record_of after.now) × (length after.now.text ≤ LAID_LIMIT) }
{
    let (first, end) = (lines.first as usize, lines.end as usize);
    if first > before.marks.len() || end > before.marks.len() {
        return Ok(None);
    }
    if first + lines.count as usize > after.marks.len() {
        return Ok(None);
    }
    Ok(Some(changed_rows(alloc, before, after, lines)?))
}

/// The rows that an operation changes, which isn't a replacement.
fn changed(alloc: Global, sheet: &Sheet, op: &Op) -> Result<Option<RowChange>, Fault>
    requires { is_replacement op.now ≡ false }
{
    let spliced = operate(alloc, sheet, op)?;
    let before = sheet.plain(alloc)?;
    let after = spliced.sheet.plain(alloc)?;
    Ok(rows_of_lines(alloc, &before, &after, spliced.splice)?)
}

/// A fold from the end of `a` to that of `b` makes one row of two.
#[test]
fn a_fold_over_two_rows_changes_both(rt: HostRuntime) -> Result<(), Fail> {
    let alloc = rt.alloc();
    let sheet = opened_sheet(alloc, "a\nb\nc\nd")?;
    let fold = Op::Fold {
        id: 1,
        start: 1,
        end: 3,
    };
    let rows = changed(alloc, &sheet, &fold)?.ok_or("no such lines")?;
    let wanted = RowChange {
        from: 0,
        to: 2,
        count: 1,
    };
    assert_eq!(rt; rows, wanted);
    Ok(())
}
