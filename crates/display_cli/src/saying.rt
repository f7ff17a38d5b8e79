//! What is said of the end of a run.
ghost use Rattle.std.specs.Prelude.{◌≡◌, ◌≤◌, ◌++◌, OnOk, OnErr};
ghost use Rattle.display_cli.specs.Notes.{note_line, IsParted};
ghost use Rattle.script_runner.specs.Outside.{HasRisen, Takes, TakesFront};

use crate::ended::Note;
use itoa::Buffer;
use script_runner::{Failed, Sink, write_piece};

/// The line of a note in two parts, with a number between them where the note has one.
fn line_parts(note: &Note) -> (&'static [u8], &'static [u8])
    ensures { IsParted note.now result.0.now result.1.now }
{
    match note {
        Note::Fine => (b"", b""),
        Note::Usage => (
            b"displaymap: usage: displaymap TEXT SCRIPT [--workers N] [--watch R]",
            b"\n",
        ),
        Note::ReadText => (b"displaymap: cannot read the text", b"\n"),
        Note::ReadScript => (b"displaymap: cannot read the script", b"\n"),
        Note::Write => (b"displaymap: cannot write", b"\n"),
        Note::TextNotUtf8 { .. } => (b"displaymap: the text is not UTF-8 at byte ", b"\n"),
        Note::TextTooLong => (b"displaymap: the text is longer than 33554432 bytes", b"\n"),
        Note::ScriptTooLong => (
            b"displaymap: the script is longer than 16777216 bytes",
            b"\n",
        ),
        Note::JournalFull => (b"displaymap: the journal is full", b"\n"),
        Note::Memory => (b"displaymap: out of memory", b"\n"),
    }
}

/// Offers three pieces, one after the other.
fn write_three<K: Sink>(
    out: &mut K,
    first: &[u8],
    second: &[u8],
    third: &[u8],
) -> Result<(), Failed>
    ensures ok { OnOk result
        (Takes (first.now ++ (second.now ++ third.now)) (K.state out.old) (K.state out.new)) }
    ensures front { OnErr result
        (TakesFront (first.now ++ (second.now ++ third.now)) (K.state out.old) (K.state out.new)) }
    ensures failed { OnErr result (HasRisen (K.state out.old).faults (K.state out.new).faults) }
{
    write_piece(first, out)?;
    write_piece(second, out)?;
    write_piece(third, out)
}

/// Writes the line of a note; of a fine end nothing. It takes no memory.
pub fn say<K: Sink>(note: &Note, out: &mut K) -> Result<(), Failed>
    ensures ok { OnOk result (Takes (note_line note.now) (K.state out.old) (K.state out.new)) }
    ensures front { OnErr result
        (TakesFront (note_line note.now) (K.state out.old) (K.state out.new)) }
    ensures failed { OnErr result (HasRisen (K.state out.old).faults (K.state out.new).faults) }
{
    let (front, end) = line_parts(note);
    match note {
        Note::TextNotUtf8 { at } => {
            let mut digits = Buffer::new();
            write_three(out, front, digits.format(*at).as_bytes(), end)
        }
        _ => write_three(out, front, b"", end),
    }
}
