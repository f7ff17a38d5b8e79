//! A text or a script that changes while it is read.
ghost use Rattle.std.specs.Prelude.{◌≡◌, ◌≤◌, length, IfOk};
ghost use Rattle.display_cli.specs.Telling.{reads_told};
ghost use Rattle.script_runner.specs.Outside.{HasPartRisen};

use cell_units::NoMemory;
use display_cli::{Failed, Inputs, ListSink, MapInputs, Note, Part, ReadsTold};
use std::alloc::Global;
use std::process::Abort;
use std::sync::Wait;
use std::test::Fail;
use std::thread::Threads;
use test_runs::{Outcome, file, run_on};
use wrap_workers::FreeGate;

/// Inputs that are others from some call on. They tell nothing.
struct Changing {
    before: MapInputs,
    behind: MapInputs,
    calls_before: u32,
    text_faults: u64,
    script_faults: u64,
    reads: ReadsTold,
}

impl Drop for Changing {
    fn drop(self) {
        let Changing {
            before: _,
            behind: _,
            calls_before: _,
            text_faults: _,
            script_faults: _,
            reads: _,
        } = self;
    }
}

impl Changing {
    fn new(before: MapInputs, behind: MapInputs, calls_before: u32) -> Changing {
        Changing {
            before,
            behind,
            calls_before,
            text_faults: 0,
            script_faults: 0,
            reads: ReadsTold::Nothing,
        }
    }

    /// Reads from those of before or behind.
    fn read_now(
        &mut self,
        part: Part,
        name: &str,
        at: u64,
        room: &mut [u8],
    ) -> Result<usize, Failed>
        ensures within { IfOk result (λ n. n ≤ length room.old) }
        ensures text { self.new.text_faults ≡ self.old.text_faults }
        ensures script { self.new.script_faults ≡ self.old.script_faults }
        ensures reads { self.new.reads ≡ self.old.reads }
    {
        if self.calls_before == 0 {
            return self.behind.read(part, name, at, room);
        }
        self.calls_before -= 1;
        self.before.read(part, name, at, room)
    }

    /// Counts a fault of the part.
    fn fail(&mut self, part: Part) -> Failed
        ensures risen { HasPartRisen part
            (record { text = self.old.text_faults; script = self.old.script_faults })
            (record { text = self.new.text_faults; script = self.new.script_faults }) }
        ensures reads { self.new.reads ≡ self.old.reads }
    {
        match part {
            Part::Text => self.text_faults = self.text_faults.saturating_add(1),
            Part::Script => self.script_faults = self.script_faults.saturating_add(1),
        }
        Failed
    }
}

impl Inputs for Changing {
    ghost use Rattle.std.specs.Prelude.{None};

    ghost state = { λ s. record { told = λ _. None; faults = record { text = s.text_faults; script = s.script_faults }; reads = reads_told s.reads } };

    fn read(&mut self, part: Part, name: &str, at: u64, room: &mut [u8]) -> Result<usize, Failed> {
        match self.read_now(part, name, at, room) {
            Ok(count) => {
                self.reads.push(part, name, at, count as u64);
                Ok(count)
            }
            Err(_) => {
                self.reads.push(part, name, at, 0);
                Err(self.fail(part))
            }
        }
    }
}

/// Inputs with a text and a script, each of which may not be there.
fn inputs(alloc: Global, text: Option<&str>, script: Option<&str>) -> Result<MapInputs, NoMemory> {
    let mut files = Vec::new(alloc);
    if let Some(text) = text {
        files.push(file(alloc, "a", text.as_bytes())?)?;
    }
    if let Some(script) = script {
        files.push(file(alloc, "b", script.as_bytes())?)?;
    }
    Ok(MapInputs::new(files, Vec::new(alloc)))
}

/// The script of before.
const SCRIPT: &str = r#"{"rows":[0,9]}"#;

/// What becomes of the files behind some reads, the note of the run, and what it writes.
#[derive(Clone, Copy)]
struct Row<'a> {
    shows: &'a str,
    reads: u32,
    text: Option<&'a str>,
    script: Option<&'a str>,
    note: Note,
    written: &'a str,
}

/// Runs the script on the text `abc` where both change.
fn run_row<R: Threads + Wait + Sync>(
    rt: &R,
    alloc: Global,
    row: &Row,
) -> Result<Outcome, NoMemory> {
    let before = inputs(alloc, Some("abc"), Some(SCRIPT))?;
    let behind = inputs(alloc, row.text, row.script)?;
    let mut changing = Changing::new(before, behind, row.reads);
    let mut out = ListSink::new(alloc, Vec::new(alloc));
    let words = ["a", "b", "--workers", "2"];
    let ended = run_on(rt, alloc, &words, &mut changing, &mut out, &FreeGate)?;
    Ok(Outcome { ended, out })
}

/// The text is read by two reads, of its bytes and of its end, and the script by two more.
const ROWS: [Row<'static>; 7] = [
    Row {
        shows: "the text is gone before its end is read",
        reads: 1,
        text: None,
        script: Some(SCRIPT),
        note: Note::ReadText,
        written: "",
    },
    Row {
        shows: "the text has grown",
        reads: 1,
        text: Some("abcdef"),
        script: Some(SCRIPT),
        note: Note::Fine,
        written: "0 t|abcdef\n",
    },
    Row {
        shows: "the text has shrunk",
        reads: 1,
        text: Some("a"),
        script: Some(SCRIPT),
        note: Note::Fine,
        written: "0 t|abc\n",
    },
    Row {
        shows: "the script is gone before it is read",
        reads: 2,
        text: Some("abc"),
        script: None,
        note: Note::ReadScript,
        written: "",
    },
    Row {
        shows: "the script is gone before its end is read",
        reads: 3,
        text: Some("abc"),
        script: None,
        note: Note::ReadScript,
        written: "",
    },
    Row {
        shows: "the script has grown",
        reads: 3,
        text: Some("abc"),
        script: Some(
            r#"{"rows":[0,9]}
{"rows":[0,1]}"#,
        ),
        note: Note::Fine,
        written: "0 t|abc\n0 t|abc\n",
    },
    Row {
        shows: "the script has shrunk",
        reads: 3,
        text: Some("abc"),
        script: Some("{"),
        note: Note::Fine,
        written: "0 t|abc\n",
    },
];

/// Asserts that a run ended as the row says.
fn assert_row(rt: &impl Abort, outcome: &Outcome, row: &Row) {
    let status = if row.note == Note::Fine { 0 } else { 3 };
    let ended = (outcome.ended.note, outcome.ended.status);
    assert_eq!(rt; ended, (row.note, status), "{}", row.shows);
    assert_eq!(rt;
        outcome.out.taken(),
        row.written.as_bytes(),
        "{}",
        row.shows
    );
}

#[test]
fn a_text_and_a_script_may_change_while_they_are_read(rt: HostRuntime) -> Result<(), Fail> {
    for row in &ROWS {
        let outcome = run_row(&rt, rt.alloc(), row)?;
        assert_row(&rt, &outcome, row);
    }
    Ok(())
}
