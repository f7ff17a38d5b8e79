//! Where a caret goes, and what a selection covers.
use crate::sessions::expect;
use std::test::Fail;
use test_runs::Session;

#[test]
fn a_caret_goes_from_one_spot_with_an_offset_to_the_next(rt: HostRuntime) -> Result<(), Fail> {
    let sessions = [
        Session {
            shows: "up and down keep the goal, and right takes the new column",
            text: "hello world",
            script: r#"{"width":5}
{"move":[0,4,4,"down"]}
{"move":[0,5,5,"right"]}
{"move":[1,5,9,"down"]}
{"move":[1,2,2,"up"]}"#,
            written: "1 4 4\n1 0 0\n1 5 9\n0 2 2\n",
        },
        Session {
            shows: "an inlay is passed in one step",
            text: "let x = 1",
            script: r#"{"inlay":[1,5,"right",": i32"]}
{"move":[0,5,5,"right"]}"#,
            written: "0 10 10\n",
        },
        Session {
            shows: "numbers over the greatest count as the greatest",
            text: "ab\nc",
            script: r#"{"move":[4294967296,0,18446744073709551615,"up"]}
{"move":[0,0,4294967296,"down"]}"#,
            written: "0 2 4294967295\n1 1 4294967295\n",
        },
    ];
    expect(&rt, rt.alloc(), &sessions)?;
    Ok(())
}

#[test]
fn a_selection_has_a_line_for_each_row(rt: HostRuntime) -> Result<(), Fail> {
    let sessions = [
        Session {
            shows: "over the two rows of a wrapped line",
            text: "hello world",
            script: r#"{"width":5}
{"select":[0,3,1,2]}
{"select":[1,2,0,3]}"#,
            written: "3 8\n0 3-5\n1 0-2\n3 8\n0 3-5\n1 0-2\n",
        },
        Session {
            shows: "the same in a script of the second form",
            text: "hello world",
            script: r#"{"script":2}
{"width":5}
{"select":[0,3,1,2]}"#,
            written: "3 8\n0 3-5\n1 0-2\n",
        },
    ];
    expect(&rt, rt.alloc(), &sessions)?;
    Ok(())
}

#[test]
fn a_question_about_a_caret_is_answered_where_all_is_wrapped(rt: HostRuntime) -> Result<(), Fail> {
    let sessions = [
        Session {
            shows: "a motion settles",
            text: "abc",
            script: r#"{"move":[0,0,0,"right"]}
{"peek":[0,1]}"#,
            written: "0 1 1\nversion 1 marks 0-0@80\n0 t|abc\n",
        },
        Session {
            shows: "a selection settles",
            text: "abc",
            script: r#"{"select":[0,0,0,3]}
{"peek":[0,1]}"#,
            written: "0 3\n0 0-3\nversion 1 marks 0-0@80\n0 t|abc\n",
        },
        Session {
            shows: "a motion has one of six words, and a selection has two spots",
            text: "abc",
            script: r#"{"move":[0,0,0,"above"]}
{"move":[0,0,"left"]}
{"select":[0,0,"left"]}
{"select":[[0,0],[0,3]]}"#,
            written: "! 1\n! 1\n! 1\n! 1\n",
        },
    ];
    expect(&rt, rt.alloc(), &sessions)?;
    Ok(())
}
