//! How a session ended, and what the words came to.
ghost use Rattle.std.specs.Prelude.{◌≡◌};
ghost use Rattle.split_cli.specs.Topped.{note_in, status_in};

use display_cli::{Ended, Note};
use display_map::Journal;

/// The end of a session: its status and why it has it, and the history of each view, in their order. A session that
/// began none has no history.
pub struct Closed {
    pub status: u8,
    pub note: Note,
    pub histories: Vec<Journal>,
}

impl Drop for Closed {
    fn drop(self) {
        let Closed {
            status: _,
            note: _,
            histories: _,
        } = self;
    }
}

/// The end of a run on one display, or of a session on several views.
pub enum Topped {
    Plain(Ended),
    Session(Closed),
}

impl Drop for Topped {
    fn drop(self) {
        match self {
            Topped::Plain(_) | Topped::Session(_) => {}
        }
    }
}

impl Topped {
    /// Why it ended.
    pub fn note(&self) -> Note
        ensures { result ≡ note_in self.now }
    {
        match self {
            Topped::Plain(ended) => ended.note,
            Topped::Session(closed) => closed.note,
        }
    }

    /// Its exit status.
    pub fn status(&self) -> u8
        ensures { result ≡ status_in self.now }
    {
        match self {
            Topped::Plain(ended) => ended.status,
            Topped::Session(closed) => closed.status,
        }
    }
}
