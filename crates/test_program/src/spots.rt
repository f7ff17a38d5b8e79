//! Where offsets are shown, and which offsets spots show.
use crate::sessions::expect;
use std::test::Fail;
use test_runs::Session;

#[test]
fn a_cluster_is_one_place(rt: HostRuntime) -> Result<(), Fail> {
    let sessions = [
        Session {
            shows: "the offsets on both sides of a space without width are one spot",
            text: "a\u{200b}b",
            script: r#"{"buffer":[0,1,"left"]}
{"buffer":[0,1,"right"]}"#,
            written: "1\n4\n",
        },
        Session {
            shows: "an offset before a combining mark is inside a cluster",
            text: "e\u{301}x",
            script: r#"{"display":[1,"left"]}
{"display":[1,"right"]}
{"buffer":[0,1,"left"]}
{"buffer":[0,1,"right"]}"#,
            written: "0 0\n0 1\n3\n3\n",
        },
    ];
    expect(&rt, rt.alloc(), &sessions)?;
    Ok(())
}

#[test]
fn no_offset_is_shown_on_a_block(rt: HostRuntime) -> Result<(), Fail> {
    let session = Session {
        shows: "a spot on a block above all lines is clipped to the first line",
        text: "abc",
        script: r#"{"block":[1,"above",0,["x","y"]]}
{"rows":[0,9]}
{"clip":[1,3,"left"]}
{"clip":[1,3,"right"]}
{"buffer":[99,0,"right"]}"#,
        written: "0 b|x\n1 b|y\n2 t|abc\n2 0\n2 0\n3\n",
    };
    expect(&rt, rt.alloc(), &[session])?;
    Ok(())
}
