//! How a run ended.
use board_watch::Watched;
use display_map::Journal;

/// Why a run ended as it did.
#[derive(Clone, Copy, Debug, PartialEq, Eq)]
pub enum Note {
    /// All was done, with or without refused lines.
    Fine,
    /// The words have no reading.
    Usage,
    /// A read of the text failed.
    ReadText,
    /// A read of the script failed.
    ReadScript,
    /// A write failed.
    Write,
    /// The text isn't UTF-8. `at` is the length in bytes of its longest prefix that is.
    TextNotUtf8 { at: u64 },
    /// The text has more than 33,554,432 bytes.
    TextTooLong,
    /// The script has more than 16,777,216 bytes.
    ScriptTooLong,
    /// The journal has no room for the next script line.
    JournalFull,
    /// There was no memory.
    Memory,
}

/// The end of a run: its status and why it has it, the history of its display, and what each watcher saw.
pub struct Ended {
    pub status: u8,
    pub note: Note,
    pub history: Journal,
    pub watched: Vec<Watched>,
}

impl Drop for Ended {
    fn drop(self) {
        let Ended {
            status: _,
            note: _,
            history: _,
            watched: _,
        } = self;
    }
}
