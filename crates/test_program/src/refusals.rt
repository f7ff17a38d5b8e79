//! Lines that are refused.
use crate::sessions::expect;
use std::test::Fail;
use test_runs::{Session, run_of};

#[test]
fn refused_lines_print_their_numbers_and_change_nothing(rt: HostRuntime) -> Result<(), Fail> {
    let alloc = rt.alloc();
    let long = vec![in alloc; b'x'; 1_025]?;
    let long = str::from_utf8(long.as_slice()).unwrap_or("");
    let fits = vec![in alloc; b'x'; 1_024]?;
    let fits = str::from_utf8(fits.as_slice()).unwrap_or("");
    let lengths = format!(in alloc;
        r#"{{"fold":[1,0,2]}}
{{"fold":[1,3,4]}}
{{"inlay":[1,0,"left","{long}"]}}
{{"block":[1,"below",0,["{long}"]]}}
{{"block":[1,"below",0,["{fits}"]]}}
{{"rows":[0,1]}}"#
    )?;
    let sessions = [
        Session {
            shows: "each is refused by the first rule that it breaks, and the text is what it was",
            text: "abcdef",
            script: r#"{"edit":[[5,3,"x"]]}
{"edit":[[0,2,"x"],[1,3,"y"]]}
{"fold":[1,3,3]}
{"unfold":9}
{"width":1}
{"inlay":[4294967296,0,"left","x"]}
{"inlay":[1,2,"left",""]}
{}
{"rows":[0,9]}
{"rows":[0,"#,
            written: "! 2\n! 2\n! 2\n! 4\n! 6\n! 6\n! 7\n! 1\n0 t|abcdef\n! 1\n",
        },
        Session {
            shows: "an id in use, and an inlay's text and a block's line over their limit",
            text: "abcdef",
            script: lengths.as_str(),
            written: "! 3\n! 5\n! 5\n0 t|⋯cdef\n",
        },
        Session {
            shows: "a block's row is past the last",
            text: "abc",
            script: r#"{"block":[1,"above",1,["x"]]}"#,
            written: "! 2\n",
        },
    ];
    expect(&rt, alloc, &sessions)?;
    Ok(())
}

#[test]
fn hostile_lines_are_answered_by_their_numbers(rt: HostRuntime) -> Result<(), Fail> {
    let alloc = rt.alloc();
    let lines: [(&[u8], &str); 19] = [
        (br#"{"tab":4,"tab":8}"#, ""),
        (br#"{"tab":4,"width":8}"#, "! 1\n"),
        (b"[]", "! 1\n"),
        (br#"{"rows":[0]}"#, "! 1\n"),
        (br#"{"rows":[0,-1]}"#, "! 1\n"),
        (br#"{"fold":[1,0,2.5]}"#, "! 1\n"),
        (br#"{"settle":false}"#, "! 1\n"),
        (b"\xff", "! 1\n"),
        (&[b'['; 200], "! 1\n"),
        (br#"{"edit":[]}"#, ""),
        (br#"{"uninlay":4294967296}"#, "! 6\n"),
        (br#"{"uninlay":4294967295}"#, "! 4\n"),
        (br#"{"tab":0}"#, "! 6\n"),
        (br#"{"width":10001}"#, "! 6\n"),
        (br#"{"display":[7,"left"]}"#, "! 2\n"),
        (br#"{"display":[6,"left"]}"#, "0 6\n"),
        (br#"{"block":[1,"above",0,[]]}"#, "! 7\n"),
        (br#"{"block":[1,"above",9,[]]}"#, "! 2\n"),
        (br#"{"rows":[4294967296,4294967296]}"#, ""),
    ];
    for (line, written) in lines {
        let outcome = run_of(&rt, alloc, b"abcdef", line, &[], &[])?;
        assert_eq!(rt; outcome.out.taken(), written.as_bytes(), "{line:?}");
    }
    Ok(())
}

#[test]
fn of_two_equal_keys_the_last_one_counts(rt: HostRuntime) -> Result<(), Fail> {
    let session = Session {
        shows: "the tab size is 8",
        text: "\ta",
        script: r#"{"tab":4,"tab":8}
{"rows":[0,1]}"#,
        written: "0 t|        a\n",
    };
    expect(&rt, rt.alloc(), &[session])?;
    Ok(())
}

#[test]
fn a_blank_line_is_skipped_up_to_the_limit_of_a_line(rt: HostRuntime) -> Result<(), Fail> {
    let alloc = rt.alloc();
    let mut blank = vec![in alloc; b' '; 1_048_576]?;
    let outcome = run_of(&rt, alloc, b"abcdef", blank.as_slice(), &[], &[])?;
    assert!(rt; outcome.out.taken().is_empty());
    blank.push(b' ')?;
    let outcome = run_of(&rt, alloc, b"abcdef", blank.as_slice(), &[], &[])?;
    assert_eq!(rt; outcome.out.taken(), b"! 5\n".as_slice());
    Ok(())
}
