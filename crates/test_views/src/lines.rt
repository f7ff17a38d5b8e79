//! What each line of a script is.
use split_script::{SplitLine, split_line};
use std::test::Fail;

#[test]
fn a_digit_and_a_space_name_a_view(rt: HostRuntime) -> Result<(), Fail> {
    let first = SplitLine::Own {
        view: 0,
        line: b"{}",
    };
    let last = SplitLine::Own {
        view: 1,
        line: b" {}",
    };
    assert_eq!(rt; split_line(2, b"0 {}"), first);
    assert_eq!(rt; split_line(2, b"1  {}"), last);
    Ok(())
}

#[test]
fn a_line_of_no_view_is_astray(rt: HostRuntime) -> Result<(), Fail> {
    for line in ["2 {}", "a {}", "1{}", " 1 {}", "1", "undo ", "redo\r"] {
        assert_eq!(rt; split_line(2, line.as_bytes()), SplitLine::Astray);
    }
    Ok(())
}

#[test]
fn undo_and_redo_are_lines_by_themselves(rt: HostRuntime) -> Result<(), Fail> {
    assert_eq!(rt; split_line(1, b"undo"), SplitLine::Undo);
    assert_eq!(rt; split_line(1, b"redo"), SplitLine::Redo);
    Ok(())
}

#[test]
fn blank_lines_are_skipped(rt: HostRuntime) -> Result<(), Fail> {
    assert_eq!(rt; split_line(2, b" \t\r"), SplitLine::Skipped);
    assert_eq!(rt; split_line(2, b"1 \t\r"), SplitLine::Skipped);
    Ok(())
}
