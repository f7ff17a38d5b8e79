//! The rows that changed, as a session gives them.
use display_session::{RowChange, Session, Trouble};
use std::alloc::Global;
use std::test::Fail;

fn opened(alloc: Global, text: &[u8]) -> Result<Session, Fail> {
    Ok(Session::open(alloc, text).ok().ok_or("no session")?)
}

/// The rows from the first number up to the second make place for so many.
fn rows(from: u32, to: u32, count: u32) -> Option<RowChange> {
    Some(RowChange { from, to, count })
}

#[test]
fn a_letter_changes_its_row_until_that_is_asked_for(rt: HostRuntime) -> Result<(), Fail> {
    let alloc = rt.alloc();
    let mut session = opened(alloc, b"a\nb\nc")?;
    assert_eq!(rt; session.changed_rows().ok(), rows(0, 0, 3));
    assert_eq!(rt; session.edit(alloc, 2, 2, b"x"), Ok(()));
    assert_eq!(rt; session.changed_rows().ok(), rows(1, 2, 1));
    assert_eq!(rt; session.changed_rows().ok(), rows(0, 0, 0));
    Ok(())
}

/// Joins the first two of three lines by a fold, and puts a letter at the end of the third.
fn joins_and_adds(alloc: Global, session: &mut Session) -> Result<(), Trouble> {
    session.apply(alloc, br#"{"fold":[1,1,3]}"#)?;
    session.edit(alloc, 5, 5, b"y")
}

/// The fold makes one row of two, and the letter is in the second row then: both rows that are left look another.
#[test]
fn changes_in_turn_are_covered_and_a_refused_one_is_none(rt: HostRuntime) -> Result<(), Fail> {
    let alloc = rt.alloc();
    let mut session = opened(alloc, b"a\nb\nc")?;
    assert_eq!(rt; session.changed_rows().ok(), rows(0, 0, 3));
    assert_eq!(rt; joins_and_adds(alloc, &mut session), Ok(()));
    assert_eq!(rt; session.changed_rows().ok(), rows(0, 3, 2));
    assert!(rt; joins_and_adds(alloc, &mut session).is_err());
    assert_eq!(rt; session.changed_rows().ok(), rows(0, 0, 0));
    Ok(())
}

/// The line `aaa bbb` has two rows of five cells, and one while it waits. A letter in it changes both of its rows.
#[test]
fn wrapping_changes_the_rows_of_the_lines_that_landed(rt: HostRuntime) -> Result<(), Fail> {
    let alloc = rt.alloc();
    let mut session = opened(alloc, b"a\naaa bbb\nc")?;
    assert_eq!(rt; session.apply(alloc, br#"{"width":5}"#), Ok(()));
    assert_eq!(rt; session.changed_rows().ok(), rows(0, 0, 3));
    assert_eq!(rt; session.settle(alloc), Ok(()));
    assert_eq!(rt; session.changed_rows().ok(), rows(0, 3, 4));
    assert_eq!(rt; session.edit(alloc, 2, 2, b"x"), Ok(()));
    assert_eq!(rt; session.settle(alloc), Ok(()));
    assert_eq!(rt; session.changed_rows().ok(), rows(1, 3, 2));
    Ok(())
}
