//! What is run, and with which inputs and sinks.
use cell_units::{NoMemory, Text};
use display_cli::{Ended, Inputs, ListSink, MapInputs, NamedBytes, Note, Sink, run};
use std::alloc::Global;
use std::sync::Wait;
use std::thread::Threads;
use wrap_workers::{FreeGate, Gate};

/// The end of a run, and what was written.
pub struct Outcome {
    pub ended: Ended,
    pub out: ListSink,
}

impl Drop for Outcome {
    fn drop(self) {
        let Outcome { ended: _, out: _ } = self;
    }
}

impl Outcome {
    /// The note and the status of the run, and what was written.
    pub fn end(&self) -> (Note, u8, &[u8]) {
        (self.ended.note, self.ended.status, self.out.taken())
    }
}

/// A script on a text, what it writes, and what that shows.
#[derive(Clone, Copy)]
pub struct Session<'a> {
    pub shows: &'a str,
    pub text: &'a str,
    pub script: &'a str,
    pub written: &'a str,
}

/// Words, each as a text of its own.
pub fn strings(alloc: Global, words: &[&str]) -> Result<Vec<String>, NoMemory> {
    let mut strings = Vec::new(alloc);
    for word in words {
        strings.push(String::from_str(alloc, word)?)?;
    }
    Ok(strings)
}

/// A file of this name.
pub fn file(alloc: Global, name: &str, bytes: &[u8]) -> Result<NamedBytes, NoMemory> {
    Ok(NamedBytes {
        name: Text::from_str(alloc, name)?,
        bytes: Vec::from_slice(alloc, bytes)?,
    })
}

/// Inputs with the text `a` and the script `b`, of which the reads of some numbers fail.
pub fn inputs_of(
    alloc: Global,
    text: &[u8],
    script: &[u8],
    failing: &[u64],
) -> Result<MapInputs, NoMemory> {
    let mut files = Vec::new(alloc);
    files.push(file(alloc, "a", text)?)?;
    files.push(file(alloc, "b", script)?)?;
    Ok(MapInputs::new(files, Vec::from_slice(alloc, failing)?))
}

/// Runs the words on these inputs, with the output to this sink.
pub fn run_on<R: Threads + Wait + Sync, I: Inputs + Send, K: Sink + Send, G: Gate + Sync>(
    rt: &R,
    alloc: Global,
    words: &[&str],
    inputs: &mut I,
    out: &mut K,
    gate: &G,
) -> Result<Ended, NoMemory> {
    let words = strings(alloc, words)?;
    Ok(run(rt, alloc, words.as_slice(), inputs, out, gate))
}

/// Runs the words on the text `a` and the script `b`, where the reads and writes of some numbers fail.
pub fn run_failing<R: Threads + Wait + Sync, G: Gate + Sync>(
    rt: &R,
    alloc: Global,
    words: &[&str],
    text: &[u8],
    script: &[u8],
    failing_reads: &[u64],
    failing_writes: &[u64],
    gate: &G,
) -> Result<Outcome, NoMemory> {
    let mut inputs = inputs_of(alloc, text, script, failing_reads)?;
    let mut out = ListSink::new(alloc, Vec::from_slice(alloc, failing_writes)?);
    let ended = run_on(rt, alloc, words, &mut inputs, &mut out, gate)?;
    Ok(Outcome { ended, out })
}

/// Runs the words on the text `a` and the script `b`.
pub fn run_words<R: Threads + Wait + Sync, G: Gate + Sync>(
    rt: &R,
    alloc: Global,
    words: &[&str],
    text: &[u8],
    script: &[u8],
    gate: &G,
) -> Result<Outcome, NoMemory> {
    run_failing(rt, alloc, words, text, script, &[], &[], gate)
}

/// Runs the script `b` on the text `a`, where the reads and writes of some numbers fail.
pub fn run_of<R: Threads + Wait + Sync>(
    rt: &R,
    alloc: Global,
    text: &[u8],
    script: &[u8],
    failing_reads: &[u64],
    failing_writes: &[u64],
) -> Result<Outcome, NoMemory> {
    let words = ["a", "b"];
    run_failing(
        rt,
        alloc,
        &words,
        text,
        script,
        failing_reads,
        failing_writes,
        &FreeGate,
    )
}
