//! What is read, what is written, and faults of both.
use cell_units::NoMemory;
use display_cli::{
    FileInputs, Inputs, ListSink, MapInputs, Note, Part, Sink, StreamSink, SureInputs, SureSink,
};
use split_cli::{Topped, program, top};
use std::alloc::Global;
use std::fs;
use std::io::{Error, ErrorKind, Write};
use std::process::Abort;
use std::sync::Wait;
use std::test::Fail;
use std::thread::Threads;
use test_runs::{Outcome, file, inputs_of, run_of, run_on, strings};
use wrap_workers::FreeGate;

#[test]
fn what_is_read_is_judged_by_its_limits(rt: HostRuntime) -> Result<(), Fail> {
    let alloc = rt.alloc();
    let over = vec![in alloc; b'x'; 33_554_433]?;
    let script = vec![in alloc; b' '; 16_777_217]?;
    let table: [(&[u8], &[u8], Note); 3] = [
        (b"abc\xff", b"", Note::TextNotUtf8 { at: 3 }),
        (over.as_slice(), b"", Note::TextTooLong),
        (b"abc", script.as_slice(), Note::ScriptTooLong),
    ];
    for (text, script, note) in table {
        let outcome = run_of(&rt, alloc, text, script, &[], &[])?;
        assert_eq!(rt; outcome.end(), (note, 5, b"".as_slice()));
    }
    Ok(())
}

/// A line of 63 letters.
const LINE: &str = "abcdefghijklmnopqrstuvwxyzabcdefghijklmnopqrstuvwxyzabcdefghijk";

/// A text of that line as often as the limit of a text allows, which leaves an empty last line.
fn longest_text(alloc: Global) -> Result<Vec<u8>, NoMemory> {
    let mut text = Vec::new(alloc);
    for _ in 0..524_288u32 {
        text.extend_from_slice(LINE.as_bytes())?;
        text.push(b'\n')?;
    }
    Ok(text)
}

#[test]
fn a_text_of_just_the_limit_is_accepted_and_no_edit_goes_past_it(
    rt: HostRuntime,
) -> Result<(), Fail> {
    let alloc = rt.alloc();
    let text = longest_text(alloc)?;
    assert_eq!(rt; text.len(), 33_554_432);
    let script = br#"{"width":0}
{"rows":[524287,9]}
{"edit":[[0,0,"x"]]}
{"rows":[0,1]}"#;
    let written = format!(in alloc; "524287 t|{LINE}\n524288 t|\n! 5\n0 t|{LINE}\n")?;
    let outcome = run_of(&rt, alloc, text.as_slice(), script, &[], &[])?;
    assert_eq!(rt; outcome.end(), (Note::Fine, 1, written.as_bytes()));
    Ok(())
}

/// A script of just the limit of a script: blank lines, and a question at its end.
fn longest_script(alloc: Global) -> Result<Vec<u8>, NoMemory> {
    let query = br#"{"rows":[0,1]}"#;
    let mut script = vec![in alloc; b'\n'; 16_777_216 - query.len()]?;
    script.extend_from_slice(query)?;
    Ok(script)
}

#[test]
fn a_script_of_just_the_limit_is_read(rt: HostRuntime) -> Result<(), Fail> {
    let alloc = rt.alloc();
    let script = longest_script(alloc)?;
    assert_eq!(rt; script.len(), 16_777_216);
    let outcome = run_of(&rt, alloc, b"abc", script.as_slice(), &[], &[])?;
    assert_eq!(rt; outcome.end(), (Note::Fine, 0, b"0 t|abc\n".as_slice()));
    Ok(())
}

/// Asserts that a run ended with this note and status, and wrote this.
fn assert_end(rt: &impl Abort, outcome: &Outcome, note: Note, status: u8, written: &str) {
    let (said, left, out) = outcome.end();
    assert_eq!(rt; (said, left), (note, status));
    assert_eq!(rt; out, written.as_bytes());
}

#[test]
fn a_fault_outside_ends_the_run(rt: HostRuntime) -> Result<(), Fail> {
    let alloc = rt.alloc();
    let script = br#"{"rows":[0,2]}"#;
    // The text is read by two reads, of its bytes and of its end, and the script from the third on.
    let table: [(&[u64], &[u64], Note, u8, &str); 4] = [
        (&[1], &[], Note::ReadText, 3, ""),
        (&[2], &[], Note::ReadText, 3, ""),
        (&[3], &[], Note::ReadScript, 3, ""),
        (&[], &[2], Note::Write, 4, "0 t|a\n"),
    ];
    for (reads, writes, note, status, written) in table {
        let outcome = run_of(&rt, alloc, b"a\nb", script, reads, writes)?;
        assert_end(&rt, &outcome, note, status, written);
    }
    Ok(())
}

/// The status of the program, what it wrote, and what it said.
struct Said {
    status: u8,
    out: ListSink,
    err: ListSink,
}

impl Drop for Said {
    fn drop(self) {
        let Said {
            status: _,
            out: _,
            err: _,
        } = self;
    }
}

/// Runs the program on words, over these inputs.
fn run_program<R: Threads + Wait + Sync>(
    rt: &R,
    alloc: Global,
    words: &[&str],
    inputs: &mut MapInputs,
) -> Result<Said, NoMemory> {
    let words = strings(alloc, words)?;
    let mut out = ListSink::new(alloc, Vec::new(alloc));
    let mut err = ListSink::new(alloc, Vec::new(alloc));
    let words = words.as_slice();
    let status = program(rt, alloc, words, inputs, &mut out, &mut err, &FreeGate);
    Ok(Said { status, out, err })
}

/// Asserts that the program ended with this status, and wrote and said this.
fn assert_said(rt: &impl Abort, said: &Said, status: u8, written: &str, line: &str) {
    assert_eq!(rt; said.status, status, "{line}");
    assert_eq!(rt; said.out.taken(), written.as_bytes());
    assert_eq!(rt; said.err.taken(), line.as_bytes());
}

/// Inputs with the text `a`, the text `c` that isn't UTF-8, and no `b`.
fn two_texts(alloc: Global) -> Result<MapInputs, NoMemory> {
    let mut files = Vec::new(alloc);
    files.push(file(alloc, "a", b"a")?)?;
    files.push(file(alloc, "c", b"abc\xff")?)?;
    Ok(MapInputs::new(files, Vec::new(alloc)))
}

#[test]
fn the_program_says_why_its_run_ended(rt: HostRuntime) -> Result<(), Fail> {
    let usage = "displaymap: usage: displaymap TEXT SCRIPT [--workers N] [--watch R]\n";
    let no_script = "displaymap: cannot read the script\n";
    let no_text = "displaymap: cannot read the text\n";
    let no_utf8 = "displaymap: the text is not UTF-8 at byte 3\n";
    let table: [(&[&str], u8, &str); 9] = [
        (&["a"], 2, usage),
        (&["a", "b"], 3, no_script),
        (&["b", "a"], 3, no_text),
        (&["c", "a"], 5, no_utf8),
        (&["--views", "2", "a"], 2, usage),
        (&["--views", "9", "a", "a"], 2, usage),
        (&["--views", "2", "a", "b"], 3, no_script),
        (&["--views", "2", "b", "a"], 3, no_text),
        (&["--views", "2", "c", "a"], 5, no_utf8),
    ];
    for (words, status, line) in table {
        let mut inputs = two_texts(rt.alloc())?;
        let said = run_program(&rt, rt.alloc(), words, &mut inputs)?;
        assert_said(&rt, &said, status, "", line);
    }
    Ok(())
}

#[test]
fn a_program_with_a_refused_line_says_nothing_and_ends_with_status_1(
    rt: HostRuntime,
) -> Result<(), Fail> {
    let alloc = rt.alloc();
    let mut inputs = inputs_of(alloc, b"a", b"{}", &[])?;
    let said = run_program(&rt, alloc, &["a", "b"], &mut inputs)?;
    assert_said(&rt, &said, 1, "! 1\n", "");
    Ok(())
}

/// The edit reaches both views, and the second `undo` has none to take back.
#[test]
fn a_program_with_views_answers_with_their_digits(rt: HostRuntime) -> Result<(), Fail> {
    let alloc = rt.alloc();
    let script =
        b"0 {\"edit\":[[1,1,\"b\"]]}\n1 {\"rows\":[0,1]}\nundo\n0 {\"rows\":[0,1]}\nundo\n";
    let mut inputs = inputs_of(alloc, b"a", script, &[])?;
    let said = run_program(&rt, alloc, &["--views", "2", "a", "b"], &mut inputs)?;
    assert_said(&rt, &said, 1, "1 0 t|ab\n0 0 t|a\n! 8\n", "");
    Ok(())
}

/// Each view opens, wraps its line and ends: 1, 3 and 1 events. The last one has the line, its operation and a version, and
/// wraps its line again.
#[test]
fn a_session_has_a_history_for_each_view(rt: HostRuntime) -> Result<(), Fail> {
    let alloc = rt.alloc();
    let mut inputs = inputs_of(alloc, b"abc", b"2 {\"width\":2}", &[])?;
    let mut out = SureSink::new();
    let words = strings(alloc, &["--views", "3", "a", "b"])?;
    let words = words.as_slice();
    let topped = top(&rt, alloc, words, &mut inputs, &mut out, &FreeGate);
    assert_eq!(rt; (topped.note(), topped.status()), (Note::Fine, 0));
    match &topped {
        Topped::Session(closed) => {
            let lengths: Vec<u32> = closed.histories.iter().map(|h| h.len()).collect(alloc)?;
            assert_eq!(rt; lengths.as_slice(), [5, 5, 11].as_slice());
        }
        Topped::Plain(_) => panic!(rt; "it is a run on one display"),
    }
    Ok(())
}

/// Sure inputs with the text `abc` and a question.
fn sure_inputs(alloc: Global) -> Result<SureInputs, NoMemory> {
    let mut files = Vec::new(alloc);
    files.push(file(alloc, "a", b"abc")?)?;
    files.push(file(alloc, "b", br#"{"rows":[0,1]}"#)?)?;
    Ok(SureInputs::new(files))
}

#[test]
fn nothing_fails_over_sure_inputs_and_a_sure_sink(rt: HostRuntime) -> Result<(), Fail> {
    let alloc = rt.alloc();
    let mut inputs = sure_inputs(alloc)?;
    let mut out = SureSink::new();
    let ended = run_on(&rt, alloc, &["a", "b"], &mut inputs, &mut out, &FreeGate)?;
    assert_eq!(rt; ended.status, 0);
    Ok(())
}

#[test]
fn a_file_is_read_on_where_the_last_read_ended(rt: HostRuntime) -> Result<(), Fail> {
    let name = "displaymap-file-inputs.txt";
    fs::write(&rt, name, "hello")?;
    let mut inputs = FileInputs::new(&rt);
    let mut room = [0u8; 3];
    assert_eq!(rt; inputs.read(Part::Text, name, 0, &mut room).ok(), Some(3));
    assert_eq!(rt; room.as_slice(), b"hel".as_slice());
    assert_eq!(rt; inputs.read(Part::Text, name, 3, &mut room).ok(), Some(2));
    assert!(rt; inputs.read(Part::Text, name, 9, &mut room).is_err());
    fs::remove_file(&rt, name)?;
    Ok(())
}

/// Runs the files of these names.
fn run_files<R: Threads + Wait + Sync>(
    rt: &R,
    alloc: Global,
    inputs: &mut (impl Inputs + Send),
    names: &[&str],
) -> Result<Outcome, NoMemory> {
    let mut out = ListSink::new(alloc, Vec::new(alloc));
    let ended = run_on(rt, alloc, names, inputs, &mut out, &FreeGate)?;
    Ok(Outcome { ended, out })
}

#[test]
fn a_folder_and_a_missing_file_cannot_be_read(rt: HostRuntime) -> Result<(), Fail> {
    let name = "displaymap-text.txt";
    fs::write(&rt, name, "abc")?;
    let table: [([&str; 2], Note); 3] = [
        ([".", name], Note::ReadText),
        (["no such file", name], Note::ReadText),
        ([name, "no such file"], Note::ReadScript),
    ];
    for (names, note) in table {
        let mut inputs = FileInputs::new(&rt);
        let outcome = run_files(&rt, rt.alloc(), &mut inputs, &names)?;
        assert_eq!(rt; outcome.end(), (note, 3, b"".as_slice()));
    }
    fs::remove_file(&rt, name)?;
    Ok(())
}

/// Twenty thousand lines of ten bytes, and one more.
fn long_text(alloc: Global) -> Result<String, NoMemory> {
    let lines = "abcdefghi\n".repeat(alloc, 20_000)?;
    Ok(format!(in alloc; "{lines}the end")?)
}

/// A question behind 200,000 blank lines.
fn long_script(alloc: Global) -> Result<String, NoMemory> {
    let blanks = "\n".repeat(alloc, 200_000)?;
    let query = r#"{"rows":[19999,2]}"#;
    Ok(format!(in alloc; "{blanks}{query}")?)
}

#[test]
fn files_of_many_reads_are_read_whole(rt: HostRuntime) -> Result<(), Fail> {
    let alloc = rt.alloc();
    let names = ["displaymap-long-text.txt", "displaymap-long-script.txt"];
    fs::write(&rt, names[0], long_text(alloc)?.as_str())?;
    fs::write(&rt, names[1], long_script(alloc)?.as_str())?;
    let mut inputs = FileInputs::new(&rt);
    let outcome = run_files(&rt, alloc, &mut inputs, &names)?;
    let written = b"19999 t|abcdefghi\n20000 t|the end\n";
    assert_eq!(rt; outcome.end(), (Note::Fine, 0, written.as_slice()));
    for name in names {
        fs::remove_file(&rt, name)?;
    }
    Ok(())
}

/// A writer that takes at most so many bytes at a call, and fails after so many calls.
#[derive(Drop)]
struct Slow {
    taken: Vec<u8>,
    most: usize,
    calls: u32,
}

impl Write for Slow {
    fn write(&mut self, bytes: &[u8]) -> std::io::Result<usize> {
        if self.calls == 0 {
            return Err(Error::from(ErrorKind::BrokenPipe));
        }
        self.calls -= 1;
        let count = bytes.len().min(self.most);
        self.taken.extend_from_slice(&bytes[..count])?;
        Ok(count)
    }

    fn flush(&mut self) -> std::io::Result<()> {
        Ok(())
    }
}

/// Runs a script with two answers into a writer that takes so many bytes at a call and fails after so many calls. Gives the
/// note, and what was taken.
fn run_slow<R: Threads + Wait + Sync>(
    rt: &R,
    alloc: Global,
    most: usize,
    calls: u32,
) -> Result<(Note, Vec<u8>), NoMemory> {
    let mut inputs = inputs_of(alloc, b"a\nb", br#"{"rows":[0,2]}"#, &[])?;
    let taken = Vec::new(alloc);
    let mut out = StreamSink::new(Slow { taken, most, calls });
    let note = run_on(rt, alloc, &["a", "b"], &mut inputs, &mut out, &FreeGate)?.note;
    let Slow { taken, .. } = out.into_inner();
    Ok((note, taken))
}

#[test]
fn a_writer_may_take_parts_and_ends_the_run_where_it_fails_or_takes_nothing(
    rt: HostRuntime,
) -> Result<(), Fail> {
    // Each of the two lines has six bytes with its line feed: two calls of at most four bytes, or six of one.
    let table: [(usize, u32, Note, &str); 4] = [
        (4, 100, Note::Fine, "0 t|a\n1 t|b\n"),
        (1, 100, Note::Fine, "0 t|a\n1 t|b\n"),
        (4, 3, Note::Write, "0 t|a\n1 t|"),
        (0, 100, Note::Write, ""),
    ];
    for (most, calls, note, written) in table {
        let (ended, taken) = run_slow(&rt, rt.alloc(), most, calls)?;
        assert_eq!(rt; ended, note);
        assert_eq!(rt; taken.as_slice(), written.as_bytes());
    }
    Ok(())
}

#[test]
fn a_stream_takes_what_its_writer_takes(rt: HostRuntime) -> Result<(), Fail> {
    let mut sink = StreamSink::new(Vec::new(rt.alloc()));
    assert_eq!(rt; sink.write(b"0 t|a\n").ok(), Some(6));
    assert_eq!(rt; sink.into_inner().as_slice(), b"0 t|a\n".as_slice());
    Ok(())
}
