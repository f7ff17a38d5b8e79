//! Scripts of the second form, and lines that look like its header.
use crate::sessions::expect;
use display_map::{Event, Journal};
use std::test::Fail;
use test_runs::{Session, run_of};

const POINTS: &str = r#"{"edit":[[[0,2,"left"],[0,2,"right"],"e"]]}
{"rows":[0,9]}
{"display":[[9,0,"left"],"left"]}"#;

const HEADED_POINTS: &str = r#"{"script":2}
{"edit":[[[0,2,"left"],[0,2,"right"],"e"]]}
{"rows":[0,9]}
{"display":[[9,0,"left"],"left"]}"#;

#[test]
fn a_header_lets_points_stand_where_offsets_do(rt: HostRuntime) -> Result<(), Fail> {
    let sessions = [
        Session {
            shows: "a column inside a character is its start for left and its end for right",
            text: "héllo\nx",
            script: HEADED_POINTS,
            written: "0 t|hello\n1 t|x\n1 1\n",
        },
        Session {
            shows: "a point is no offset where no header says so",
            text: "héllo\nx",
            script: POINTS,
            written: "! 1\n0 t|héllo\n1 t|x\n! 1\n",
        },
        Session {
            shows: "a header stands behind blank lines, and offsets stay offsets",
            text: "ab",
            script: " \t\r\n\n{ \"script\" : 2 }\n\n{\"edit\":[[[0,1,\"left\"],2,\"c\"]]}\n{\"rows\":[0,1]}",
            written: "0 t|ac\n",
        },
    ];
    expect(&rt, rt.alloc(), &sessions)?;
    Ok(())
}

#[test]
fn a_header_is_a_command_nowhere_else(rt: HostRuntime) -> Result<(), Fail> {
    let sessions = [
        Session {
            shows: "a header behind another line is no command",
            text: "a",
            script: r#"{"tab":4}
{"script":2}"#,
            written: "! 1\n",
        },
        Session {
            shows: "a second header is none, and the points behind it are points",
            text: "a",
            script: r#"{"script":2}
{"script":2}
{"display":[[0,1,"left"],"left"]}"#,
            written: "! 1\n0 1\n",
        },
        Session {
            shows: "a header of another form is none",
            text: "a",
            script: r#"{"script":3}
{"display":[[0,1,"left"],"left"]}"#,
            written: "! 1\n! 1\n",
        },
        Session {
            shows: "a script of a header alone asks nothing",
            text: "a",
            script: r#"{"script":2}"#,
            written: "",
        },
    ];
    expect(&rt, rt.alloc(), &sessions)?;
    Ok(())
}

/// The number of the first line that a history has.
fn first_line(history: &Journal) -> Option<u64> {
    for at in 0..history.len() {
        if let Some(Event::Line { number }) = history.get(at) {
            return Some(*number);
        }
    }
    None
}

#[test]
fn lines_are_counted_with_the_header_and_the_blank_ones(rt: HostRuntime) -> Result<(), Fail> {
    let alloc = rt.alloc();
    let outcome = run_of(&rt, alloc, b"abc", HEADED_POINTS.as_bytes(), &[], &[])?;
    assert_eq!(rt; first_line(&outcome.ended.history), Some(2));
    let script = b" \n{\"script\":2}\n\n{\"rows\":[0,1]}";
    let outcome = run_of(&rt, alloc, b"abc", script, &[], &[])?;
    assert_eq!(rt; first_line(&outcome.ended.history), Some(4));
    Ok(())
}
