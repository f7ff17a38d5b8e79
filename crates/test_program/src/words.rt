//! Words from outside, and their readings.
use command_line::{Plan, read_words};
use display_cli::{ListSink, give_up};
use std::alloc::{AllocError, Global};
use std::io::ErrorKind;

/// The words of the line, which stand apart by one space each, and how they are read.
fn shown(alloc: Global, line: &str) -> Result<String, AllocError> {
    let mut words = Vec::new(alloc);
    for word in line.split(' ') {
        words.push(String::from_str(alloc, word)?)?;
    }
    match read_words(alloc, words.as_slice()) {
        Ok(Some(plan)) => shown_plan(alloc, &plan),
        Ok(None) => String::from_str(alloc, "none"),
        Err(_) => String::from_str(alloc, "no memory"),
    }
}

fn shown_plan(alloc: Global, plan: &Plan) -> Result<String, AllocError> {
    let (text, script) = (plan.text.as_str(), plan.script.as_str());
    let (workers, watchers) = (plan.workers, plan.watchers);
    match plan.make {
        Some(seed) => format!(in alloc; "{text}|{script}|{seed}|{workers}|{watchers}"),
        None => format!(in alloc; "{text}|{script}|-|{workers}|{watchers}"),
    }
}

#[test]
fn words_with_a_reading(rt: HostRuntime) {
    let table: [(&str, &str); 9] = [
        ("a b", "a|b|-|1|0"),
        ("--watch 2 a b --workers=8", "a|b|-|8|2"),
        ("--make 7 --workers 2", "||7|2|0"),
        ("a --workers 16 b --watch=8", "a|b|-|16|8"),
        ("--watch 0 --workers 1 a b", "a|b|-|1|0"),
        ("--make=4294967295", "||4294967295|1|0"),
        ("--make 0 --watch 3", "||0|1|3"),
        ("a=b --workers 3 c-d", "a=b|c-d|-|3|0"),
        ("workers 8", "workers|8|-|1|0"),
    ];
    for (line, plan) in table.iter() {
        assert!(rt; shown(rt.alloc(), line).expect(&rt, "memory").as_str() == *plan);
    }
}

#[test]
fn words_without_a_reading(rt: HostRuntime) {
    let table: [&str; 33] = [
        "a b c",
        "a b --watch",
        "a b --watch 1 --watch 1",
        "a b --workers 08",
        "a -b",
        "--make 7 a b",
        "a",
        "",
        "a ",
        "a b ",
        "a -",
        "- b",
        "--",
        "a b --",
        "-- a b",
        "a -- b",
        "--workers -- a b",
        "a b --workers=",
        "a b --workers=8=9",
        "a b --workers=+8",
        "a b --workers 0",
        "a b --workers 17",
        "a b --watch 9",
        "a b --watch -1",
        "a b --workers --watch 1",
        "a b --watch=1 --watch=2",
        "--make 4294967296",
        "--make 00000000001",
        "--make 7 a",
        "--make 7 --make 7",
        "a b --help",
        "a b --version",
        "a b --work 3",
    ];
    for line in table.iter() {
        assert!(rt; shown(rt.alloc(), line).expect(&rt, "memory").as_str() == "none");
    }
}

#[test]
fn words_that_are_no_text_have_no_reading(rt: HostRuntime) {
    let alloc = rt.alloc();
    let mut err = ListSink::new(alloc, Vec::new(alloc));
    assert_eq!(rt; give_up(ErrorKind::InvalidData, &mut err), 2);
    assert!(rt; err.taken().starts_with(b"displaymap: usage: "));
}

#[test]
fn words_without_memory_end_with_status_6(rt: HostRuntime) {
    let alloc = rt.alloc();
    let mut err = ListSink::new(alloc, Vec::new(alloc));
    assert_eq!(rt; give_up(ErrorKind::OutOfMemory, &mut err), 6);
    assert_eq!(rt; err.taken(), b"displaymap: out of memory\n".as_slice());
}
