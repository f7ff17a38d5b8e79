//! The top calls: the run of a script, and the program that says how its run ended.
ghost use Rattle.std.specs.Prelude.{◌≡◌, ◌↔◌, true, ◌<◌, [], length, None, Some, IfOk, IfErr, OnOk};
ghost use Rattle.display_map.specs.LawfulStates.{IsLawfulHistory};
ghost use Rattle.command_line.specs.Words.{IsWithinLimits, plan_of};
ghost use Rattle.display_cli.specs.declared.ended.Note.TheVariants as notes;
ghost use Rattle.script_runner.specs.declared.outside.Part.TheVariants as parts;
ghost use Rattle.script_runner.specs.Outside.{InputState, count_between};
ghost use Rattle.script_runner.specs.Legal.{history_of};
ghost use Rattle.display_cli.specs.Ended.{HasStatus, run_of, IsEndedAs, ReadsInOrder, HasReadsPassed, IsRunOfWords, Says, note_without_words};
ghost use Rattle.display_cli.specs.inside.Opening.{IsOpenedOn, IsStartRefused, IsTextUnread, IsScript, IsScriptUnread, IsNoteOf, HasRunOn, note_of};
ghost use Rattle.display_cli.specs.inside.Reading.{IsWholeWithin, ReadsName};

use crate::beside::Left;
use crate::ended::{Ended, Note};
use crate::limits::SCRIPT_LIMIT;
use crate::playing::{close, end_watch, play_plan};
use crate::read::{Unread, read_whole};
use crate::saying::say;
use board_watch::Watched;
use cell_units::limits::TEXT_LIMIT;
use cell_units::{NoMemory, Steps, TextFault};
use command_line::{Plan, read_words};
use display_map::{Display, Journal};
use generated_input::made;
use live_display::open;
use script_runner::{Inputs, Part, Sink, Stop, Tally};
use std::alloc::Global;
use std::io::ErrorKind;
use std::sync::Wait;
use std::thread::Threads;
use wrap_workers::Gate;

/// The status of a note, for a run without refused lines.
pub fn status_of(note: Note) -> u8
    ensures { HasStatus note result }
{
    match note {
        Note::Fine => 0,
        Note::Usage => 2,
        Note::ReadText | Note::ReadScript => 3,
        Note::Write => 4,
        Note::TextNotUtf8 { .. } | Note::TextTooLong | Note::ScriptTooLong => 5,
        Note::Memory => 6,
        Note::JournalFull => 7,
    }
}

/// The status of a run that did all.
pub fn fine_status(refused: bool) -> u8
    ensures status { HasStatus notes.Fine result }
    ensures refused { (result ≡ 1) ↔ (refused ≡ true) }
{
    if refused { 1 } else { 0 }
}

/// The end of a run that began no history.
fn nothing(alloc: Global, note: Note) -> Ended
    ensures note { result.note ≡ note }
    ensures status { HasStatus note result.status }
    ensures history { result.history ≡ [] }
    ensures watched { result.watched.items ≡ [] }
{
    Ended {
        status: status_of(note),
        note,
        history: Journal::none(alloc),
        watched: Vec::new(alloc),
    }
}

/// Starts a display on the text that was read.
fn start(alloc: Global, bytes: &[u8]) -> Result<Display, Note>
    ensures started { IfOk result (IsOpenedOn (Some bytes.now) (length bytes.now)) }
    ensures refused { IfErr result (IsStartRefused bytes.now) }
{
    match Display::start(alloc, bytes, &mut Steps::new()) {
        Ok(display) => Ok(display),
        Err(TextFault::NotUtf8 { at }) => Err(Note::TextNotUtf8 { at }),
        Err(TextFault::TooLong) => Err(Note::TextTooLong),
        Err(TextFault::NoMemory) => Err(Note::Memory),
    }
}

/// The bytes of a plan's text, at most 33,554,432. `ReadText` where a read failed, `TextTooLong` where there are more, and
/// `Memory` where there was none. The bytes aren't judged.
pub fn read_text<I: Inputs>(alloc: Global, plan: &Plan, inputs: &mut I) -> Result<Vec<u8>, Note>
    ensures read { IfOk result
        (λ bytes. IsWholeWithin ((I.state inputs.old).told plan.now.text) TEXT_LIMIT bytes.items) }
    ensures counted { IfOk result (λ bytes.
        length bytes.items ≡ count_between parts.Text (I.state inputs.old) (I.state inputs.new)) }
    ensures passed { OnOk result ((I.state inputs.new).faults ≡ (I.state inputs.old).faults) }
    ensures refused { IfErr result (IsTextUnread ((I.state inputs.old).told plan.now.text)
        (I.state inputs.old).faults (I.state inputs.new).faults) }
    ensures reads { ReadsName parts.Text plan.now.text TEXT_LIMIT
        (I.state inputs.old) (I.state inputs.new) }
{
    match read_whole(alloc, inputs, Part::Text, plan.text.as_str(), TEXT_LIMIT) {
        Ok(bytes) => Ok(bytes),
        Err(Unread::Failed) => Err(Note::ReadText),
        Err(Unread::TooLong) => Err(Note::TextTooLong),
        Err(Unread::NoMemory) => Err(Note::Memory),
    }
}

/// Reads the text of a plan, and starts a display on it.
fn open_text<I: Inputs>(alloc: Global, plan: &Plan, inputs: &mut I) -> Result<Display, Note>
    ensures opened { IfOk result (IsOpenedOn ((I.state inputs.old).told plan.now.text)
        (count_between parts.Text (I.state inputs.old) (I.state inputs.new))) }
    ensures passed { OnOk result ((I.state inputs.new).faults ≡ (I.state inputs.old).faults) }
    ensures refused { IfErr result (IsTextUnread ((I.state inputs.old).told plan.now.text)
        (I.state inputs.old).faults (I.state inputs.new).faults) }
    ensures reads { ReadsName parts.Text plan.now.text TEXT_LIMIT
        (I.state inputs.old) (I.state inputs.new) }
{
    let bytes = read_text(alloc, plan, inputs)?;
    start(alloc, bytes.as_slice())
}

/// The bytes of a plan's script, at most 16,777,216. `ReadScript` where a read failed, `ScriptTooLong` where there are more,
/// and `Memory` where there was none.
pub fn read_script<I: Inputs>(alloc: Global, plan: &Plan, inputs: &mut I) -> Result<Vec<u8>, Note>
    ensures read { IfOk result
        (λ script. IsScript ((I.state inputs.old).told plan.now.script) script.items) }
    ensures counted { IfOk result (λ script.
        length script.items ≡ count_between parts.Script (I.state inputs.old) (I.state inputs.new)) }
    ensures passed { OnOk result ((I.state inputs.new).faults ≡ (I.state inputs.old).faults) }
    ensures refused { IfErr result (IsScriptUnread ((I.state inputs.old).told plan.now.script)
        (I.state inputs.old).faults (I.state inputs.new).faults) }
    ensures reads { ReadsName parts.Script plan.now.script SCRIPT_LIMIT
        (I.state inputs.old) (I.state inputs.new) }
{
    match read_whole(
        alloc,
        inputs,
        Part::Script,
        plan.script.as_str(),
        SCRIPT_LIMIT,
    ) {
        Ok(script) => Ok(script),
        Err(Unread::Failed) => Err(Note::ReadScript),
        Err(Unread::TooLong) => Err(Note::ScriptTooLong),
        Err(Unread::NoMemory) => Err(Note::Memory),
    }
}

/// The note of a run that stopped.
pub fn note_of(stop: Stop) -> Note
    ensures { result ≡ note_of stop }
{
    match stop {
        Stop::Write => Note::Write,
        Stop::JournalFull => Note::JournalFull,
        Stop::Memory => Note::Memory,
    }
}

/// The end of a run that came to its script's end, of which this was counted, or that stopped.
fn ended_as(played: Result<Tally, Stop>, history: Journal, watched: Vec<Watched>) -> Ended
    ensures status { HasStatus result.note result.status }
    ensures note { IsNoteOf played result.status result.note }
    ensures history { result.history ≡ history }
    ensures watched { result.watched ≡ watched }
{
    match played {
        Ok(tally) => Ended {
            status: fine_status(tally.refused > 0),
            note: Note::Fine,
            history,
            watched,
        },
        Err(stop) => {
            let note = note_of(stop);
            Ended {
                status: status_of(note),
                note,
                history,
                watched,
            }
        }
    }
}

/// The journal of a display, whose history is lawful.
fn journal_of(display: Display) -> Journal
    ensures journal { result ≡ display.events }
    ensures lawful { IsLawfulHistory display }
{
    // For the proof: the display's history is lawful.
    display.lawful();
    display.into_journal()
}

/// Runs a script on a display that was just started.
fn run_script<R: Threads + Wait + Sync, G: Gate + Sync, K: Sink>(
    rt: &R,
    alloc: Global,
    gate: &G,
    plan: &Plan,
    script: &[u8],
    display: Display,
    out: &mut K,
) -> Ended
    requires events { display.events ≡ [] }
    requires limits { IsWithinLimits plan.now }
    ensures status { HasStatus result.note result.status }
    ensures lawful { IsLawfulHistory (history_of display.opening result.history) }
    ensures run { HasRunOn plan.now display.opening script.now
        (K.state out.old) (K.state out.new) result }
{
    match open(rt, alloc, display, plan.workers, plan.watchers) {
        Ok(opened) => {
            let (left, team) = play_plan(rt, gate, plan, script, opened, out);
            let Left {
                played,
                display,
                mut writer,
            } = left;
            let (played, watched) = end_watch(alloc, played, &mut writer, team, out);
            close(rt, writer);
            ended_as(played, journal_of(display), watched)
        }
        Err(display) => ended_as(Err(Stop::Memory), journal_of(display), Vec::new(alloc)),
    }
}

/// Runs a plan that names a text and a script.
fn run_named<R: Threads + Wait + Sync, I: Inputs, K: Sink, G: Gate + Sync>(
    rt: &R,
    alloc: Global,
    plan: &Plan,
    inputs: &mut I,
    out: &mut K,
    gate: &G,
) -> Ended
    // Nothing is made, and the plan's workers and watchers are within their limits.
    requires named { plan.now.make ≡ None }
    requires limits { IsWithinLimits plan.now }

    // The note tells the status, and what the run is.
    ensures status { HasStatus result.note result.status }
    ensures ended { IsEndedAs plan.now
        (run_of (I.state inputs.old) (I.state inputs.new) (K.state out.old) (K.state out.new) result) result.note }

    // The reads of the text come before those of the script, and none fails without that being noted.
    ensures reads { ReadsInOrder plan.now result.note
        (I.state inputs.old).reads (I.state inputs.new).reads }
    ensures passed { HasReadsPassed
        (run_of (I.state inputs.old) (I.state inputs.new) (K.state out.old) (K.state out.new) result) }
{
    let display = match open_text(alloc, plan, inputs) {
        Ok(display) => display,
        Err(note) => return nothing(alloc, note),
    };
    match read_script(alloc, plan, inputs) {
        Ok(script) => run_script(rt, alloc, gate, plan, script.as_slice(), display, out),
        Err(note) => nothing(alloc, note),
    }
}

/// Runs a plan whose text and script are made from this number.
fn run_made<R: Threads + Wait + Sync, K: Sink, G: Gate + Sync>(
    rt: &R,
    alloc: Global,
    plan: &Plan,
    number: u32,
    out: &mut K,
    gate: &G,
) -> Ended
    requires made { plan.now.make ≡ Some number }
    requires limits { IsWithinLimits plan.now }
    ensures status { HasStatus result.note result.status }
    ensures ended { (inputs : InputState) → IsEndedAs plan.now
        (run_of inputs inputs (K.state out.old) (K.state out.new) result) result.note }
{
    let made = match made(alloc, number) {
        Ok(made) => made,
        Err(NoMemory) => return nothing(alloc, Note::Memory),
    };
    match start(alloc, made.text.as_slice()) {
        Ok(display) => run_script(rt, alloc, gate, plan, made.script.as_slice(), display, out),
        Err(note) => nothing(alloc, note),
    }
}

/// Runs a plan.
fn run_plan<R: Threads + Wait + Sync, I: Inputs, K: Sink, G: Gate + Sync>(
    rt: &R,
    alloc: Global,
    plan: &Plan,
    inputs: &mut I,
    out: &mut K,
    gate: &G,
) -> Ended
    requires limits { IsWithinLimits plan.now }
    ensures status { HasStatus result.note result.status }
    ensures ended { IsEndedAs plan.now
        (run_of (I.state inputs.old) (I.state inputs.new) (K.state out.old) (K.state out.new) result) result.note }
    ensures reads { ReadsInOrder plan.now result.note
        (I.state inputs.old).reads (I.state inputs.new).reads }
    ensures passed { HasReadsPassed
        (run_of (I.state inputs.old) (I.state inputs.new) (K.state out.old) (K.state out.new) result) }
{
    match plan.make {
        Some(number) => run_made(rt, alloc, plan, number, out, gate),
        None => run_named(rt, alloc, plan, inputs, out, gate),
    }
}

/// Runs the script that the second of the words names on the text that the first one names. The output goes to the
/// sink, line by line. The text is read whole and judged, its length first and then its bytes, before the script is read.
/// With `--make` text and script are made, nothing is read, and one line is in place of the answers.
///
/// `Ended` says how the run ended, by a note and its status, and holds the history of its display:
///
/// - `Fine`, status 0, or 1 where a line was refused: all was read, done and written;
/// - `Usage`, status 2: the words have no reading. Nothing is read or written;
/// - `ReadText`, `ReadScript`, status 3: a read failed;
/// - `Write`, status 4: a write failed, and a prefix of the output was written;
/// - `TextTooLong` (33,554,432 bytes are the most), `TextNotUtf8`, `ScriptTooLong` (16,777,216 bytes are the most), status 5:
///   what was read isn't accepted, and nothing is written;
/// - `Memory`, status 6: there was no memory;
/// - `JournalFull`, status 7: the journal has no room for the next line of the script.
pub fn run<R: Threads + Wait + Sync, I: Inputs + Send, K: Sink + Send, G: Gate + Sync>(
    rt: &R,
    alloc: Global,
    words: &[String],
    inputs: &mut I,
    out: &mut K,
    gate: &G,
) -> Ended
    // What the run is by its note, which reads it made, and which notes were owed.
    ensures run { IsRunOfWords (plan_of words.now)
        (run_of (I.state inputs.old) (I.state inputs.new) (K.state out.old) (K.state out.new) result) }

    // Words without a reading leave the outside as it is.
    ensures untouched { plan_of words.now ≡ None
        → (inputs.new ≡ inputs.old) × (out.new ≡ out.old) }
{
    match read_words(alloc, words) {
        Ok(Some(plan)) => run_plan(rt, alloc, &plan, inputs, out, gate),
        Ok(None) => nothing(alloc, Note::Usage),
        Err(NoMemory) => nothing(alloc, Note::Memory),
    }
}

/// The note where the system gave no words, for an error of this kind: words that aren't text have no reading, and else there
/// was no memory for them.
fn note_without_words(kind: ErrorKind) -> Note
    ensures { result ≡ note_without_words kind }
{
    match kind {
        ErrorKind::InvalidData => Note::Usage,
        _ => Note::Memory,
    }
}

/// Says on `err` why there are no words, for an error of this kind, and returns the status of that: 2 for words that aren't
/// text, and else 6.
pub fn give_up<E: Sink>(kind: ErrorKind, err: &mut E) -> u8
    ensures said { Says (note_without_words kind) (E.state err.old) (E.state err.new) }
    ensures status { HasStatus (note_without_words kind) result }
{
    let note = note_without_words(kind);
    let _ = say(&note, err);
    status_of(note)
}
