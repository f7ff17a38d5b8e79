//! Sessions that are drawn up line by line, and beside each the part of every view, as a script of its own.
use cell_units::NoMemory;
use std::alloc::Global;

/// Who is given a line.
#[derive(Clone, Copy, PartialEq, Eq)]
pub(crate) enum To {
    Nobody,
    View(u32),
    All,
}

/// A line of a session, and what it is in the scripts of those who are given it. What nobody is given is the answer to it.
struct Said {
    line: String,
    given: String,
    to: To,
}

impl Drop for Said {
    fn drop(self) {
        let Said {
            line: _,
            given: _,
            to: _,
        } = self;
    }
}

/// A script for several views.
pub(crate) struct Session {
    alloc: Global,
    said: Vec<Said>,
}

impl Drop for Session {
    fn drop(self) {
        let Session { alloc: _, said: _ } = self;
    }
}

impl Session {
    /// A script without lines.
    pub(crate) fn new(alloc: Global) -> Session {
        Session {
            alloc,
            said: Vec::new(alloc),
        }
    }

    /// Adds a line that is given to these as another one.
    fn say(&mut self, line: String, given: &str, to: To) -> Result<(), NoMemory> {
        let given = String::from_str(self.alloc, given)?;
        self.said.push(Said { line, given, to })?;
        Ok(())
    }

    /// Adds a line of a view. Others are given it too, or the view alone.
    pub(crate) fn say_in(&mut self, view: u32, line: &str, to: To) -> Result<(), NoMemory> {
        self.say(format!(in self.alloc; "{view} {line}")?, line, to)
    }

    /// Adds a line of no view, which every view is given as this line.
    pub(crate) fn say_to_all(&mut self, line: &str, given: &str) -> Result<(), NoMemory> {
        self.say(String::from_str(self.alloc, line)?, given, To::All)
    }

    /// Adds a line of no view, which is refused so.
    pub(crate) fn say_to_nobody(&mut self, line: &str, refusal: &str) -> Result<(), NoMemory> {
        self.say(String::from_str(self.alloc, line)?, refusal, To::Nobody)
    }

    /// The script.
    pub(crate) fn script(&self) -> Result<String, NoMemory> {
        let mut script = String::new(self.alloc);
        for said in &self.said {
            script.push_str(said.line.as_str())?;
            script.push('\n')?;
        }
        Ok(script)
    }

    /// The lines that these are given.
    fn given_to(&self, whom: &[To]) -> Result<String, NoMemory> {
        let mut lines = String::new(self.alloc);
        for said in &self.said {
            if whom.contains(&said.to) {
                lines.push_str(said.given.as_str())?;
                lines.push('\n')?;
            }
        }
        Ok(lines)
    }

    /// What a view is given, as a script of its own.
    pub(crate) fn part(&self, view: u32) -> Result<String, NoMemory> {
        self.given_to(&[To::View(view), To::All])
    }

    /// The refusals of the lines of no view.
    pub(crate) fn refusals(&self) -> Result<String, NoMemory> {
        self.given_to(&[To::Nobody])
    }
}
