//! The rows that texts are shown as.
use crate::sessions::expect;
use std::test::Fail;
use test_runs::Session;

#[test]
fn a_text_is_shown_line_by_line(rt: HostRuntime) -> Result<(), Fail> {
    let sessions = [
        Session {
            shows: "the empty text has one row",
            text: "",
            script: r#"{"rows":[0,10]}"#,
            written: "0 t|\n",
        },
        Session {
            shows: "a line break at the end leaves an empty row",
            text: "abc\r\n",
            script: r#"{"rows":[0,10]}"#,
            written: "0 t|abc\n1 t|\n",
        },
        Session {
            shows: "an edit puts its text in place of its range",
            text: "abc",
            script: r#"{"edit":[[1,2,"XY"]]}
{"rows":[0,9]}"#,
            written: "0 t|aXYc\n",
        },
        Session {
            shows: "there is no row past the last",
            text: "abc",
            script: r#"{"edit":[[0,1,"a"]]}
{"rows":[2,4]}"#,
            written: "",
        },
    ];
    expect(&rt, rt.alloc(), &sessions)?;
    Ok(())
}

#[test]
fn a_line_is_wrapped_at_the_width(rt: HostRuntime) -> Result<(), Fail> {
    let sessions = [
        Session {
            shows: "a blank at a row's end hangs past the edge, and no spot is behind it",
            text: "hello world",
            script: r#"{"width":5}
{"rows":[0,9]}
{"clip":[0,6,"right"]}"#,
            written: "0 t|hello \n1 w|world\n0 5\n",
        },
        Session {
            shows: "a word that is longer than the width is cut",
            text: "abcdefgh",
            script: r#"{"width":3}
{"rows":[0,9]}"#,
            written: "0 t|abc\n1 w|def\n2 w|gh\n",
        },
        Session {
            shows: "an indent of half the width is kept",
            text: "    fooooooooo",
            script: r#"{"width":8}
{"rows":[0,9]}"#,
            written: "0 t|    fooo\n1 w|    oooo\n2 w|    oo\n",
        },
    ];
    expect(&rt, rt.alloc(), &sessions)?;
    Ok(())
}

#[test]
fn wide_characters_are_wrapped_whole(rt: HostRuntime) -> Result<(), Fail> {
    let sessions = [
        Session {
            shows: "a row may start at each wide character",
            text: "ab漢字cd",
            script: r#"{"width":4}
{"rows":[0,9]}"#,
            written: "0 t|ab漢\n1 w|字cd\n",
        },
        Session {
            shows: "an emoji that doesn't fit stands on a row by itself",
            text: "x😀y",
            script: r#"{"width":2}
{"rows":[0,9]}
{"display":[1,"left"]}
{"display":[5,"left"]}"#,
            written: "0 t|x\n1 w|😀\n2 w|y\n1 0\n2 0\n",
        },
    ];
    expect(&rt, rt.alloc(), &sessions)?;
    Ok(())
}

#[test]
fn a_hundred_letters_are_wrapped_at_the_opening_width(rt: HostRuntime) -> Result<(), Fail> {
    let alloc = rt.alloc();
    let twenty = "aaaaaaaaaaaaaaaaaaaa";
    let eighty = format!(in alloc; "{twenty}{twenty}{twenty}{twenty}")?;
    let text = format!(in alloc; "{eighty}{twenty}")?;
    let written = format!(in alloc; "0 t|{eighty}\n1 w|{twenty}\n")?;
    let session = Session {
        shows: "80 letters, and then 20",
        text: text.as_str(),
        script: r#"{"rows":[0,9]}"#,
        written: written.as_str(),
    };
    expect(&rt, alloc, &[session])?;
    Ok(())
}

#[test]
fn a_tab_behind_256_cells_takes_one_cell(rt: HostRuntime) -> Result<(), Fail> {
    let alloc = rt.alloc();
    let sixteen = "aaaaaaaaaaaaaaaa";
    let most = format!(in alloc;
        "{sixteen}{sixteen}{sixteen}{sixteen}{sixteen}{sixteen}{sixteen}"
    )?;
    let most = format!(in alloc; "{most}{most}{sixteen}aaaaaaaaaaaaaa")?;
    let before = format!(in alloc; "{most}\tb")?;
    let behind = format!(in alloc; "{most}aa\tb")?;
    let sessions = [
        Session {
            shows: "behind 254 cells it goes on to the next stop",
            text: before.as_str(),
            script: r#"{"width":0}
{"display":[255,"left"]}"#,
            written: "0 256\n",
        },
        Session {
            shows: "behind 256 cells it takes one",
            text: behind.as_str(),
            script: r#"{"width":0}
{"display":[257,"left"]}"#,
            written: "0 257\n",
        },
    ];
    expect(&rt, alloc, &sessions)?;
    Ok(())
}

#[test]
fn inlays_move_with_the_edits_at_their_offsets(rt: HostRuntime) -> Result<(), Fail> {
    let sessions = [
        Session {
            shows: "an inlay stands between two replacements that touch",
            text: "abcdef",
            script: r#"{"inlay":[1,2,"left","^"]}
{"edit":[[1,2,"X"],[2,3,"Y"]]}
{"rows":[0,9]}"#,
            written: "0 t|aX^Ydef\n",
        },
        Session {
            shows: "an inlay of a line break alone cuts its line",
            text: "ab",
            script: r#"{"inlay":[1,1,"right","\n"]}
{"rows":[0,9]}"#,
            written: "0 t|a\n1 t|b\n",
        },
    ];
    expect(&rt, rt.alloc(), &sessions)?;
    Ok(())
}

#[test]
fn folds_that_overlap_are_joined_and_folds_that_touch_are_not(rt: HostRuntime) -> Result<(), Fail> {
    let session = Session {
        shows: "the edit drops fold 1, so there is none of that id",
        text: "abcdefgh",
        script: r#"{"fold":[1,1,4]}
{"fold":[2,3,6]}
{"rows":[0,1]}
{"unfold":2}
{"fold":[3,4,6]}
{"rows":[0,1]}
{"edit":[[1,4,""]]}
{"rows":[0,1]}
{"unfold":1}"#,
        written: "0 t|a⋯gh\n0 t|a⋯⋯gh\n0 t|a⋯gh\n! 4\n",
    };
    expect(&rt, rt.alloc(), &[session])?;
    Ok(())
}
