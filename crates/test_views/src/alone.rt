//! A random session, of which each view writes what it would write alone.
use crate::plays::written_by;
use crate::sessions::{Session, To};
use crate::texts::{Edited, drawn_batch, edit_line};
use cell_units::NoMemory;
use generated_input::Generator;
use std::alloc::Global;
use std::process::Abort;
use std::sync::Wait;
use std::test::Fail;
use std::thread::Threads;
use test_runs::run_of;

/// How many views there are.
const VIEWS: u32 = 3;

/// How many lines a session has. More find more, and take longer.
const LINES: u32 = 2000;

/// A change of one view, which is refused now and then.
fn drawn_change(alloc: Global, generator: &mut Generator, len: u32) -> Result<String, NoMemory> {
    let id = generator.below(6);
    let start = generator.below(len.saturating_add(2));
    let end = start.saturating_add(generator.below(12));
    let row = generator.below(40);
    let change = match generator.below(11) {
        0..=2 => format!(in alloc; r#"{{"fold":[{id},{start},{end}]}}"#)?,
        3 => format!(in alloc; r#"{{"unfold":{id}}}"#)?,
        4 => format!(in alloc; r#"{{"inlay":[{id},{start},"left","<i>"]}}"#)?,
        5 => format!(in alloc; r#"{{"inlay":[{id},{start},"right","j k"]}}"#)?,
        6 => format!(in alloc; r#"{{"uninlay":{id}}}"#)?,
        7 => format!(in alloc; r#"{{"block":[{id},"below",{row},["--"]]}}"#)?,
        8 => format!(in alloc; r#"{{"unblock":{id}}}"#)?,
        9 => format!(in alloc; r#"{{"tab":{id}}}"#)?,
        _ => format!(in alloc; r#"{{"width":{row}}}"#)?,
    };
    Ok(change)
}

/// A question to one view.
fn drawn_question(alloc: Global, generator: &mut Generator, len: u32) -> Result<String, NoMemory> {
    let offset = generator.below(len.saturating_add(2));
    let row = generator.below(60);
    let column = generator.below(50);
    let question = match generator.below(8) {
        0 => format!(in alloc; r#"{{"display":[{offset},"left"]}}"#)?,
        1 => format!(in alloc; r#"{{"display":[{offset},"right"]}}"#)?,
        2 => format!(in alloc; r#"{{"buffer":[{row},{column},"left"]}}"#)?,
        3 => format!(in alloc; r#"{{"clip":[{row},{column},"right"]}}"#)?,
        4 => format!(in alloc; r#"{{"move":[{row},{column},{column},"down"]}}"#)?,
        5 => format!(in alloc; r#"{{"select":[{row},{column},{column},{row}]}}"#)?,
        _ => format!(in alloc; r#"{{"rows":[{row},{column}]}}"#)?,
    };
    Ok(question)
}

/// A line that does nothing: it is blank, asks for what is done before each line, or isn't accepted.
fn drawn_idle(generator: &mut Generator) -> &'static str {
    match generator.below(4) {
        0 => " \t",
        1 => r#"{"settle":true}"#,
        2 => r#"{"edit":[[2,1,"x"]]}"#,
        _ => "{}",
    }
}

/// A session of views of a text, and the text as a plain list.
struct Drawn {
    alloc: Global,
    generator: Generator,
    session: Session,
    edited: Edited,
}

impl Drop for Drawn {
    fn drop(self) {
        let Drawn {
            alloc: _,
            generator: _,
            session: _,
            edited: _,
        } = self;
    }
}

impl Drawn {
    /// Adds an edit, which is accepted.
    fn edit(&mut self, view: u32) -> Result<(), Fail> {
        let batch = drawn_batch(self.alloc, &mut self.generator, self.edited.len())?;
        let line = edit_line(self.alloc, batch.as_slice())?;
        self.edited.edit(batch.as_slice())?;
        self.session.say_in(view, line.as_str(), To::All)?;
        Ok(())
    }

    /// Adds an undo.
    fn undo(&mut self) -> Result<(), Fail> {
        match self.edited.undo()? {
            Some(line) => self.session.say_to_all("undo", line.as_str())?,
            None => self.session.say_to_nobody("undo", "8")?,
        }
        Ok(())
    }

    /// Adds a redo.
    fn redo(&mut self) -> Result<(), Fail> {
        match self.edited.redo()? {
            Some(line) => self.session.say_to_all("redo", line.as_str())?,
            None => self.session.say_to_nobody("redo", "8")?,
        }
        Ok(())
    }

    /// Adds a line that reaches one view alone.
    fn own(&mut self, view: u32) -> Result<(), Fail> {
        let len = self.edited.len();
        let line = match self.generator.below(3) {
            0 => drawn_change(self.alloc, &mut self.generator, len)?,
            _ => drawn_question(self.alloc, &mut self.generator, len)?,
        };
        self.session.say_in(view, line.as_str(), To::View(view))?;
        Ok(())
    }

    /// Adds a line.
    fn turn(&mut self) -> Result<(), Fail> {
        let view = self.generator.below(VIEWS);
        match self.generator.below(20) {
            0..=3 => self.edit(view),
            4..=6 => self.undo(),
            7 | 8 => self.redo(),
            9 => Ok(self.session.say_to_nobody("9 {}", "1")?),
            10 => {
                let line = drawn_idle(&mut self.generator);
                Ok(self.session.say_in(view, line, To::View(view))?)
            }
            _ => self.own(view),
        }
    }

    /// The session.
    fn into_session(self) -> Session {
        let Drawn {
            alloc: _,
            generator: _,
            session,
            edited: _,
        } = self;
        session
    }
}

/// A session of so many lines.
fn drawn_session(alloc: Global, text: &str, seed: u64) -> Result<Session, Fail> {
    let mut drawn = Drawn {
        alloc,
        generator: Generator::new(seed),
        session: Session::new(alloc),
        edited: Edited::new(alloc, text)?,
    };
    for _ in 0..LINES {
        drawn.turn()?;
    }
    Ok(drawn.into_session())
}

/// The lines that begin with a prefix, without it.
fn lines_with(alloc: Global, written: &str, prefix: &str) -> Result<String, NoMemory> {
    let mut lines = String::new(alloc);
    for line in written.lines() {
        if let Some(rest) = line.strip_prefix(prefix) {
            lines.push_str(rest)?;
            lines.push('\n')?;
        }
    }
    Ok(lines)
}

/// A view wrote what it writes alone.
fn assert_alone<R: Abort + Threads + Wait + Sync>(
    rt: &R,
    alloc: Global,
    text: &str,
    part: &str,
    written: &str,
) -> Result<(), NoMemory> {
    let outcome = run_of(rt, alloc, text.as_bytes(), part.as_bytes(), &[], &[])?;
    assert_eq!(rt; str::from_utf8(outcome.out.taken()), Ok(written));
    Ok(())
}

/// Each view wrote what it writes alone, and every other line is the refusal of a line of no view.
fn assert_parts<R: Abort + Threads + Wait + Sync>(
    rt: &R,
    alloc: Global,
    text: &str,
    session: &Session,
    written: &str,
) -> Result<(), NoMemory> {
    for view in 0..VIEWS {
        let prefix = format!(in alloc; "{view} ")?;
        let own = lines_with(alloc, written, prefix.as_str())?;
        let part = session.part(view)?;
        assert_alone(rt, alloc, text, part.as_str(), own.as_str())?;
    }
    let refused = lines_with(alloc, written, "! ")?;
    assert_eq!(rt; refused.as_str(), session.refusals()?.as_str());
    Ok(())
}

#[test]
fn each_view_writes_what_it_would_write_alone(rt: HostRuntime) -> Result<(), Fail> {
    let alloc = rt.alloc();
    let text = "one two three\n\tfour five six seven\n\n".repeat(alloc, 12)?;
    let session = drawn_session(alloc, text.as_str(), 5)?;
    let script = session.script()?;
    let written = written_by(&rt, alloc, VIEWS, text.as_str(), script.as_str())?;
    assert_parts(&rt, alloc, text.as_str(), &session, written.as_str())?;
    Ok(())
}
