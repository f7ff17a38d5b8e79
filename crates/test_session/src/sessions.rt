//! Sessions from their opening to their answers, by lines and by calls.
use cell_units::{Bias, Refusal, Spot};
use display_session::{LentPiece, RowPieceKind, Session, Trouble};
use std::alloc::Global;
use std::test::Fail;

/// Three lines, of 11, 15 and 1 bytes, with a line feed after each. A tab has 4 cells.
const TEXT: &[u8] = b"fn main() {\n\tlet total = 1;\n}\n";

fn opened(alloc: Global) -> Result<Session, Fail> {
    Ok(Session::open(alloc, TEXT).ok().ok_or("no session")?)
}

/// The lines that answer a line of a script, where it isn't refused.
fn answer<'a>(alloc: Global, session: &'a mut Session, line: &[u8]) -> Option<&'a str> {
    match session.apply(alloc, line) {
        Ok(()) => Some(session.answer()),
        Err(_) => None,
    }
}

#[test]
fn a_fold_hides_its_bytes_until_a_refusal_and_after_it(rt: HostRuntime) -> Result<(), Fail> {
    let alloc = rt.alloc();
    let mut session = opened(alloc)?;
    let fold = br#"{"fold":[1,11,28]}"#;
    assert_eq!(rt; session.apply(alloc, fold), Ok(()));
    let rows = answer(alloc, &mut session, br#"{"rows":[0,9]}"#);
    assert_eq!(rt; rows, Some("0 t|fn main() {⋯}\n1 t|\n"));
    let refused = Err(Trouble::Refused(Refusal::IdInUse));
    assert_eq!(rt; session.apply(alloc, fold), refused);
    assert_eq!(rt; session.row_count().ok(), Some(2));
    Ok(())
}

#[test]
fn a_caret_goes_on_to_the_next_line(rt: HostRuntime) -> Result<(), Fail> {
    let alloc = rt.alloc();
    let mut session = opened(alloc)?;
    let caret = answer(alloc, &mut session, br#"{"move":[0,11,11,"right"]}"#);
    assert_eq!(rt; caret, Some("1 0 0\n"));
    let selection = answer(alloc, &mut session, br#"{"select":[1,4,0,3]}"#);
    assert_eq!(rt; selection, Some("3 13\n0 3-11\n1 0-4\n"));
    Ok(())
}

#[test]
fn offsets_lead_to_spots_and_back(rt: HostRuntime) -> Result<(), Fail> {
    let alloc = rt.alloc();
    let session = opened(alloc)?;
    let spot = Spot { row: 1, col: 4 };
    assert_eq!(rt; session.show(alloc, 13, Bias::Left).ok(), Some(spot));
    assert_eq!(rt; session.back(alloc, spot, Bias::Right).ok(), Some(13));
    let inside = Spot { row: 1, col: 2 };
    assert_eq!(rt; session.clip(alloc, inside, Bias::Right).ok(), Some(spot));
    Ok(())
}

#[test]
fn a_slice_ends_between_characters(rt: HostRuntime) -> Result<(), Fail> {
    let alloc = rt.alloc();
    let text = "a⋯\r\nb".as_bytes();
    let mut session = Session::open(alloc, text).ok().ok_or("no session")?;
    assert_eq!(rt; session.text_len().ok(), Some(6));
    assert_eq!(rt; session.slice(alloc, 1, 5), Ok(()));
    assert_eq!(rt; session.answer(), "⋯\n");
    let refused = Err(Trouble::Refused(Refusal::BadRange));
    assert_eq!(rt; session.slice(alloc, 1, 3), refused);
    assert_eq!(rt; session.slice(alloc, 2, 4), refused);
    assert_eq!(rt; session.slice(alloc, 4, 1), refused);
    assert_eq!(rt; session.slice(alloc, 6, 7), refused);
    assert_eq!(rt; session.answer(), "⋯\n");
    Ok(())
}

#[test]
fn an_edit_is_one_row_until_its_line_is_wrapped(rt: HostRuntime) -> Result<(), Fail> {
    let alloc = rt.alloc();
    let mut session = Session::open(alloc, b"world").ok().ok_or("no session")?;
    assert_eq!(rt; session.apply(alloc, br#"{"width":5}"#), Ok(()));
    assert_eq!(rt; session.edit(alloc, 0, 0, b"hello "), Ok(()));
    assert_eq!(rt; session.row_count().ok(), Some(1));
    assert_eq!(rt; session.wrap(alloc, 9), Ok(false));
    assert_eq!(rt; session.row_count().ok(), Some(2));
    assert_eq!(rt; session.edit(alloc, 0, 0, b"\xff"), Err(Trouble::NotUtf8));
    Ok(())
}

/// Adds marks at the byte 13: 1, which stays before what is put in there, and 2, which goes after it.
fn marked(alloc: Global, session: &mut Session) -> Result<(), Trouble> {
    session.add_mark(alloc, 1, 13, Bias::Left)?;
    session.add_mark(alloc, 2, 13, Bias::Right)
}

#[test]
fn marks_move_with_edits(rt: HostRuntime) -> Result<(), Fail> {
    let alloc = rt.alloc();
    let mut session = opened(alloc)?;
    assert_eq!(rt; marked(alloc, &mut session), Ok(()));
    let edits = br#"{"edit":[[0,3,""],[13,13,"ab"]]}"#;
    assert_eq!(rt; session.apply(alloc, edits), Ok(()));
    assert_eq!(rt; (session.mark(1), session.mark(2)), (Some(10), Some(12)));
    let past = Err(Trouble::Refused(Refusal::BadRange));
    assert_eq!(rt; session.edit(alloc, 5, 40, b""), past);
    assert_eq!(rt; session.edit(alloc, 5, 29, b""), Ok(()));
    assert_eq!(rt; (session.mark(1), session.mark(2)), (Some(5), Some(5)));
    Ok(())
}

/// Whether no mark is added within a character or past the end.
fn refuses_what_is_no_boundary(alloc: Global, session: &mut Session) -> bool {
    let refused = Err(Trouble::Refused(Refusal::BadRange));
    session.add_mark(alloc, 1, 2, Bias::Left) == refused
        && session.add_mark(alloc, 1, 6, Bias::Left) == refused
}

#[test]
fn a_mark_is_refused_where_none_may_be(rt: HostRuntime) -> Result<(), Fail> {
    let alloc = rt.alloc();
    let text = "a⋯b".as_bytes();
    let mut session = Session::open(alloc, text).ok().ok_or("no session")?;
    assert!(rt; refuses_what_is_no_boundary(alloc, &mut session));
    assert_eq!(rt; session.add_mark(alloc, 1, 5, Bias::Left), Ok(()));
    let twice = Err(Trouble::Refused(Refusal::IdInUse));
    assert_eq!(rt; session.add_mark(alloc, 1, 2, Bias::Left), twice);
    assert_eq!(rt; session.mark(1), Some(5));
    assert_eq!(rt; session.remove_mark(alloc, 1), Ok(()));
    let unknown = Err(Trouble::Refused(Refusal::UnknownId));
    assert_eq!(rt; session.remove_mark(alloc, 1), unknown);
    assert_eq!(rt; session.mark(1), None);
    Ok(())
}

/// The text of a row and its pieces, where there is such a row.
fn pieces(session: &mut Session, alloc: Global, row: u32) -> Result<Vec<LentPiece>, Fail> {
    Ok(session.pieces(alloc, row)?.ok_or("no row")?)
}

fn piece(kind: RowPieceKind, bytes: usize, cells: u32, start: u32, end: u32) -> LentPiece {
    LentPiece {
        kind,
        bytes,
        cells,
        start,
        end,
    }
}

/// A tab has four cells, an inlay and the placeholder of a fold stand between text.
#[test]
fn a_row_is_lent_as_its_text_and_its_pieces(rt: HostRuntime) -> Result<(), Fail> {
    let alloc = rt.alloc();
    let mut session = opened(alloc)?;
    let inlay = br#"{"inlay":[7,22,"right",": T"]}"#;
    assert_eq!(rt; session.apply(alloc, inlay), Ok(()));
    assert_eq!(rt; session.apply(alloc, br#"{"fold":[1,25,26]}"#), Ok(()));
    let lent = pieces(&mut session, alloc, 1)?;
    assert_eq!(rt; session.answer(), "    let total: T = ⋯;");
    let wanted = [
        piece(RowPieceKind::Tab, 4, 4, 12, 13),
        piece(RowPieceKind::Text, 9, 9, 13, 22),
        piece(RowPieceKind::Inlay(7), 3, 3, 22, 22),
        piece(RowPieceKind::Text, 3, 3, 22, 25),
        piece(RowPieceKind::Placeholder, 3, 1, 25, 26),
        piece(RowPieceKind::Text, 1, 1, 26, 27),
    ];
    assert_eq!(rt; lent.as_slice(), wanted.as_slice());
    Ok(())
}

/// A row that goes on has its indent, and the row of a block its line.
#[test]
fn indents_and_blocks_are_pieces(rt: HostRuntime) -> Result<(), Fail> {
    let alloc = rt.alloc();
    let mut session = opened(alloc)?;
    let block = br#"{"block":[3,"above",2,["end"]]}"#;
    assert_eq!(rt; session.apply(alloc, block), Ok(()));
    assert_eq!(rt; session.apply(alloc, br#"{"width":14}"#), Ok(()));
    assert_eq!(rt; session.settle(alloc), Ok(()));
    let lent = pieces(&mut session, alloc, 2)?;
    assert_eq!(rt; session.answer(), "    = 1;");
    let wanted = [
        piece(RowPieceKind::Indent, 4, 4, 23, 23),
        piece(RowPieceKind::Text, 4, 4, 23, 27),
    ];
    assert_eq!(rt; lent.as_slice(), wanted.as_slice());
    let lent = pieces(&mut session, alloc, 3)?;
    assert_eq!(rt; session.answer(), "end");
    let wanted = [piece(RowPieceKind::Block(3), 3, 3, 28, 28)];
    assert_eq!(rt; lent.as_slice(), wanted.as_slice());
    assert!(rt; session.pieces(alloc, 7)?.is_none());
    assert_eq!(rt; session.answer(), "end");
    Ok(())
}
