//! A handle through its calls.
use crate::changing::{
    displaymap_answer, displaymap_close, displaymap_edit, displaymap_line, displaymap_open,
    displaymap_version, displaymap_wrap,
};
use crate::handle::Handle;
use crate::marking::{displaymap_add_mark, displaymap_mark, displaymap_remove_mark};
use crate::pieces::{Piece, TAB, TEXT as TEXT_PIECE, displaymap_pieces};
use crate::reading::{
    Place, displaymap_back, displaymap_clip, displaymap_row, displaymap_row_count, displaymap_rows,
    displaymap_show, displaymap_slice, displaymap_text_len,
};
use crate::status::{CLOSED, NO_ROW, OK};
use crate::watching::{Change, displaymap_changed_rows};
use std::test::Fail;

/// Three lines, of 11, 15 and 1 bytes, with a line feed after each. A tab has 4 cells.
const TEXT: &[u8] = b"fn main() {\n\tlet total = 1;\n}\n";

#[test]
fn a_closed_handle_answers_nothing(rt: HostRuntime) -> Result<(), Fail> {
    let alloc = rt.alloc();
    let mut handle = Handle::closed();
    let mut number = 7;
    assert_eq!(rt; displaymap_version(), 1);
    assert_eq!(rt;
        displaymap_row_count(alloc, &mut handle, &mut number),
        CLOSED
    );
    assert_eq!(rt; number, 7);
    assert_eq!(rt; displaymap_open(alloc, &mut handle, TEXT), OK);
    displaymap_close(alloc, &mut handle);
    assert_eq!(rt;
        displaymap_row_count(alloc, &mut handle, &mut number),
        CLOSED
    );
    Ok(())
}

#[test]
fn a_handle_changes_its_display(rt: HostRuntime) -> Result<(), Fail> {
    let alloc = rt.alloc();
    let mut handle = Handle::closed();
    let mut waits = true;
    let mut out = [0; 8];
    assert_eq!(rt; displaymap_open(alloc, &mut handle, TEXT), OK);
    let fold = br#"{"fold":[1,11,28]}"#;
    assert_eq!(rt; displaymap_line(alloc, &mut handle, fold), OK);
    assert_eq!(rt; displaymap_line(alloc, &mut handle, br#"{"unfold":2}"#), 4);
    assert_eq!(rt; displaymap_edit(alloc, &mut handle, 3, 7, b"run"), OK);
    assert_eq!(rt; displaymap_wrap(alloc, &mut handle, 9, &mut waits), OK);
    assert!(rt; !waits);
    assert_eq!(rt; displaymap_rows(alloc, &mut handle, 0, 1), OK);
    assert_eq!(rt; displaymap_answer(alloc, &mut handle, 4, &mut out), 19);
    assert_eq!(rt; out.as_slice(), b"fn run()".as_slice());
    displaymap_close(alloc, &mut handle);
    Ok(())
}

#[test]
fn a_handle_shows_its_rows(rt: HostRuntime) -> Result<(), Fail> {
    let alloc = rt.alloc();
    let mut handle = Handle::closed();
    let mut number = 0;
    let mut place = Place { row: 7, column: 7 };
    assert_eq!(rt; displaymap_open(alloc, &mut handle, TEXT), OK);
    assert_eq!(rt; displaymap_row(alloc, &mut handle, 0, &mut number), OK);
    assert_eq!(rt; number, 116);
    assert_eq!(rt; displaymap_row(alloc, &mut handle, 4, &mut number), NO_ROW);
    assert_eq!(rt;
        displaymap_show(alloc, &mut handle, 13, true, &mut place),
        OK
    );
    assert_eq!(rt; place.column, 4);
    assert_eq!(rt;
        displaymap_clip(alloc, &mut handle, 0, 40, false, &mut place),
        OK
    );
    assert_eq!(rt; place.column, 11);
    assert_eq!(rt;
        displaymap_back(alloc, &mut handle, 1, 4, true, &mut number),
        OK
    );
    assert_eq!(rt; number, 13);
    displaymap_close(alloc, &mut handle);
    Ok(())
}

#[test]
fn a_handle_gives_parts_of_its_text(rt: HostRuntime) -> Result<(), Fail> {
    let alloc = rt.alloc();
    let mut handle = Handle::closed();
    let mut bytes = 0;
    let mut out = [0; 5];
    assert_eq!(rt; displaymap_open(alloc, &mut handle, TEXT), OK);
    assert_eq!(rt; displaymap_text_len(alloc, &mut handle, &mut bytes), OK);
    assert_eq!(rt; bytes, 30);
    assert_eq!(rt; displaymap_slice(alloc, &mut handle, 13, 18), OK);
    assert_eq!(rt; displaymap_answer(alloc, &mut handle, 0, &mut out), 5);
    assert_eq!(rt; out.as_slice(), b"let t".as_slice());
    assert_eq!(rt; displaymap_slice(alloc, &mut handle, 18, 13), 2);
    assert_eq!(rt; displaymap_slice(alloc, &mut handle, 0, 31), 2);
    displaymap_close(alloc, &mut handle);
    Ok(())
}

#[test]
fn a_mark_goes_along_with_what_is_put_in_before_it(rt: HostRuntime) -> Result<(), Fail> {
    let alloc = rt.alloc();
    let mut handle = Handle::closed();
    let mut offset = 7;
    assert_eq!(rt; displaymap_open(alloc, &mut handle, TEXT), OK);
    assert_eq!(rt; displaymap_mark(alloc, &mut handle, 5, &mut offset), 4);
    assert_eq!(rt; offset, 7);
    assert_eq!(rt; displaymap_add_mark(alloc, &mut handle, 5, 13, true), OK);
    assert_eq!(rt; displaymap_edit(alloc, &mut handle, 13, 13, b"ab"), OK);
    assert_eq!(rt; displaymap_mark(alloc, &mut handle, 5, &mut offset), OK);
    assert_eq!(rt; offset, 15);
    assert_eq!(rt; displaymap_remove_mark(alloc, &mut handle, 5), OK);
    assert_eq!(rt; displaymap_remove_mark(alloc, &mut handle, 5), 4);
    displaymap_close(alloc, &mut handle);
    Ok(())
}

/// The second row begins with a tab. There is room for one piece of it.
#[test]
fn a_handle_gives_the_pieces_of_a_row(rt: HostRuntime) -> Result<(), Fail> {
    let alloc = rt.alloc();
    let mut handle = Handle::closed();
    let none = Piece {
        bytes: 0,
        kind: 7,
        id: 7,
        cells: 7,
        start: 7,
        end: 7,
    };
    let mut out = [none; 2];
    let mut count = 0;
    assert_eq!(rt; displaymap_open(alloc, &mut handle, TEXT), OK);
    assert_eq!(rt;
        displaymap_pieces(alloc, &mut handle, 1, &mut out[..1], &mut count),
        OK
    );
    assert_eq!(rt; count, 2);
    assert_eq!(rt; (out[0].kind, out[0].bytes, out[0].end), (TAB, 4, 13));
    assert_eq!(rt; out[1].kind, 7);
    assert_eq!(rt;
        displaymap_pieces(alloc, &mut handle, 1, &mut out, &mut count),
        OK
    );
    assert_eq!(rt;
        (out[1].kind, out[1].cells, out[1].start),
        (TEXT_PIECE, 14, 13)
    );
    assert_eq!(rt;
        displaymap_pieces(alloc, &mut handle, 4, &mut out, &mut count),
        NO_ROW
    );
    displaymap_close(alloc, &mut handle);
    Ok(())
}

/// Each of the four lines is one row. A letter is put into the second.
#[test]
fn a_handle_says_which_rows_changed(rt: HostRuntime) -> Result<(), Fail> {
    let alloc = rt.alloc();
    let mut handle = Handle::closed();
    let mut change = Change {
        from: 7,
        to: 7,
        count: 7,
    };
    assert_eq!(rt;
        displaymap_changed_rows(alloc, &mut handle, &mut change),
        CLOSED
    );
    assert_eq!(rt; (change.from, change.to, change.count), (7, 7, 7));
    assert_eq!(rt; displaymap_open(alloc, &mut handle, TEXT), OK);
    assert_eq!(rt;
        displaymap_changed_rows(alloc, &mut handle, &mut change),
        OK
    );
    assert_eq!(rt; (change.from, change.to, change.count), (0, 0, 4));
    assert_eq!(rt; displaymap_edit(alloc, &mut handle, 13, 13, b"x"), OK);
    assert_eq!(rt;
        displaymap_changed_rows(alloc, &mut handle, &mut change),
        OK
    );
    assert_eq!(rt; (change.from, change.to, change.count), (1, 2, 1));
    assert_eq!(rt;
        displaymap_changed_rows(alloc, &mut handle, &mut change),
        OK
    );
    assert_eq!(rt; (change.from, change.to, change.count), (0, 0, 0));
    displaymap_close(alloc, &mut handle);
    Ok(())
}
