//! Each key in each of eight views, beside the same in the others.
use crate::plays::written_by;
use std::alloc::Global;
use std::test::Fail;

/// Lines that each view is given in turn, and what each prints for them. An edit reaches all views, so the last rows have
/// that of each.
const KEYS: [(&str, &[&str]); 24] = [
    (r#"{"settle":true}"#, &[]),
    (r#"{"peek":[0,1]}"#, &["version 1 marks 0-1@80", "0 t|abc"]),
    (r#"{"inlay":[1,1,"right","<"]}"#, &[]),
    (r#"{"display":[1,"right"]}"#, &["0 2"]),
    (r#"{"fold":[1,5,6]}"#, &[]),
    (r#"{"fold":[1,6,7]}"#, &["! 3"]),
    (r#"{"block":[1,"above",1,["--"]]}"#, &[]),
    (r#"{"rows":[0,9]}"#, &["0 t|a<bc", "1 b|--", "2 t|    ⋯ef"]),
    (r#"{"buffer":[2,5,"right"]}"#, &["6"]),
    (r#"{"clip":[2,9,"left"]}"#, &["2 7"]),
    (r#"{"move":[0,0,0,"right"]}"#, &["0 1 1"]),
    (r#"{"select":[0,0,0,1]}"#, &["0 1", "0 0-1"]),
    (r#"{"tab":2}"#, &[]),
    (r#"{"rows":[2,1]}"#, &["2 t|  ⋯ef"]),
    (r#"{"width":3}"#, &[]),
    (r#"{"rows":[0,2]}"#, &["0 t|a<b", "1 w|c"]),
    (r#"{"width":0}"#, &[]),
    (r#"{"unfold":1}"#, &[]),
    (r#"{"unfold":1}"#, &["! 4"]),
    (r#"{"uninlay":1}"#, &[]),
    (r#"{"unblock":1}"#, &[]),
    (r#"{"rows":[0,9]}"#, &["0 t|abc", "1 t|  def"]),
    (r#"{"edit":[[0,0,"x"]]}"#, &[]),
    (r#"{"rows":[0,1]}"#, &["0 t|xxxxxxxxabc"]),
];

/// The script, and what it writes.
fn script_and_answers(alloc: Global) -> Result<(String, String), Fail> {
    let mut script = String::new(alloc);
    let mut written = String::new(alloc);
    for (line, answers) in &KEYS {
        for view in 0..8u32 {
            writeln!(script, "{view} {line}")?;
            push_answers(&mut written, view, answers)?;
        }
    }
    Ok((script, written))
}

/// Appends what a view prints.
fn push_answers(written: &mut String, view: u32, answers: &[&str]) -> Result<(), Fail> {
    for answer in answers {
        writeln!(written, "{view} {answer}")?;
    }
    Ok(())
}

#[test]
fn each_key_is_answered_in_each_of_eight_views(rt: HostRuntime) -> Result<(), Fail> {
    let alloc = rt.alloc();
    let (script, answers) = script_and_answers(alloc)?;
    let written = written_by(&rt, alloc, 8, "abc\n\tdef", script.as_str())?;
    assert_eq!(rt; written.as_str(), answers.as_str());
    Ok(())
}
