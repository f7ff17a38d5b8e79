//! A source of four hundred lines beside any number of workers.
use crate::runs::Session;
use crate::schedules::assert_run;
use cell_units::NoMemory;
use std::alloc::Global;
use std::test::Fail;
use wrap_workers::FreeGate;

/// A line of the source. The line of number `i`, counted from 0, begins at the byte `25 * i`.
const LINE: &str = "\tlet total = sum(items);\n";

/// How many rows are shown: 401 lines, of which each of 12 folds hides two, three blocks, and two lines that are wrapped.
const ROWS: u32 = 401 - 24 + 3 + 2;

/// A text without blanks that goes behind the name of a line on a row of its own.
const LONG: &str = "abcdefghijklmnopqrstuvwxyzabcdefghijklmnopqrstuvwxyzabcdefghijklmnopqr";

/// Edits of several ranges. The first one moves every anchor by three bytes.
fn edits(alloc: Global) -> Result<String, NoMemory> {
    Ok(format!(in alloc;
        r#"{{"edit":[[0,0,"// "],[255,260,"count"],[505,510,"count"]]}}
{{"edit":[[1016,1019,"add"],[1520,1525,"bytes"]]}}
{{"edit":[[9516,9526,"{LONG}"],[9766,9776,"{LONG}"]]}}
"#
    )?)
}

/// One more line of a script.
fn push_line(script: &mut String, line: &str) -> Result<(), NoMemory> {
    script.push_str(line)?;
    script.push('\n')?;
    Ok(())
}

/// Thirty inlays behind names, twelve folds from line end to line end, three blocks, and the edits.
fn script(alloc: Global) -> Result<String, NoMemory> {
    let mut script = String::new(alloc);
    for i in 0..30u32 {
        let at = 25 * (100 + 5 * i) + 10;
        let line = format!(in alloc; r#"{{"inlay":[{i},{at},"right",": u32"]}}"#)?;
        push_line(&mut script, line.as_str())?;
    }
    for i in 0..12u32 {
        let start = 25 * (250 + 8 * i) + 24;
        let end = start + 50;
        let line = format!(in alloc; r#"{{"fold":[{i},{start},{end}]}}"#)?;
        push_line(&mut script, line.as_str())?;
    }
    for i in 0..3u32 {
        let row = 350 + 10 * i;
        let line = format!(in alloc; r#"{{"block":[{i},"above",{row},["-- note"]]}}"#)?;
        push_line(&mut script, line.as_str())?;
    }
    script.push_str(edits(alloc)?.as_str())?;
    push_line(&mut script, r#"{"rows":[0,1000]}"#)?;
    Ok(script)
}

/// The rows of a line, each with its letter.
fn rows_of(line: u32) -> &'static [&'static str] {
    match line {
        0 => &["t|//  let total = sum(items);"],
        10 | 20 => &["t|    let count = sum(items);"],
        40 => &["t|    let total = add(items);"],
        60 => &["t|    let total = sum(bytes);"],
        100..=245 if line % 5 == 0 => &["t|    let total: u32 = sum(items);"],
        250..=340 if line % 8 == 2 => &["t|    let total = sum(items);⋯"],
        250..=340 if line % 8 == 3 || line % 8 == 4 => &[],
        350 | 360 | 370 => &["b|-- note", "t|    let total = sum(items);"],
        380 | 390 => &[
            "t|    let total = ",
            "w|    abcdefghijklmnopqrstuvwxyzabcdefghijklmnopqrstuvwxyzabcdefghijklmnopqr;",
        ],
        400 => &["t|"],
        _ => &["t|    let total = sum(items);"],
    }
}

/// What the script writes.
fn written(alloc: Global) -> Result<String, NoMemory> {
    let mut written = String::new(alloc);
    let mut row: u32 = 0;
    for line in 0..401u32 {
        for shown in rows_of(line) {
            written.push_str(format!(in alloc; "{row} {shown}\n")?.as_str())?;
            row = row.saturating_add(1);
        }
    }
    Ok(written)
}

#[test]
fn a_source_is_shown_alike_beside_any_number_of_workers(rt: HostRuntime) -> Result<(), Fail> {
    let alloc = rt.alloc();
    let text = LINE.repeat(alloc, 400)?;
    let script = script(alloc)?;
    let written = written(alloc)?;
    let session = Session {
        shows: "a source of four hundred lines",
        text: text.as_str(),
        script: script.as_str(),
        written: written.as_str(),
    };
    for team in [(1, 0), (1, 2), (2, 2), (8, 2), (16, 8)] {
        assert_run(&rt, alloc, team, &FreeGate, &session, ROWS)?;
    }
    Ok(())
}
