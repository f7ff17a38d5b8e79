//! Sinks: over a list in memory, over nothing but what contracts see, and over a writer.
ghost use Rattle.std.specs.Prelude.{◌≡◌, ◌++◌, ◌<◌, ◌≤◌, false, [], Ok, length, take, IfOk, OnOk, OnErr};
ghost use Rattle.display_cli.specs.inside.Calls.{is_failing, one_more};
ghost use Rattle.display_cli.specs.inside.Named.{list_state};
ghost use Rattle.display_cli.specs.Telling.{bytes_told};
ghost use Rattle.script_runner.specs.Outside.{Takes, Refuses, nowhere};

use crate::calls::Calls;
use crate::told::Told;
use script_runner::{Failed, Sink};
use std::alloc::Global;
use std::io::Write;

/// A sink in memory that takes each piece whole, and of which the calls of some numbers fail. Calls are counted from 1.
#[derive(Debug)]
pub struct ListSink {
    taken: Vec<u8>,
    calls: Calls,
    faults: u64,
}

impl Drop for ListSink {
    fn drop(self) {
        let ListSink {
            taken: _,
            calls: _,
            faults: _,
        } = self;
    }
}

impl ListSink {
    /// A sink that has taken nothing, and whose calls of the numbers in `failing` fail.
    pub fn new(alloc: Global, failing: Vec<u64>) -> ListSink
        ensures taken { result.taken.items ≡ [] }
        ensures failing { result.calls.failing ≡ failing }
        ensures made { result.calls.made ≡ 0 }
        ensures faults { result.faults ≡ 0 }
    {
        ListSink {
            taken: Vec::new(alloc),
            calls: Calls::new(failing),
            faults: 0,
        }
    }

    /// The bytes that were taken.
    pub fn taken(&self) -> &[u8]
        ensures { result.now ≡ self.now.taken.items }
    {
        self.taken.as_slice()
    }
}

impl Sink for ListSink {
    ghost state = { λ s. list_state s };

    /// Takes the whole piece, or fails, as it does where the call's number is one of those that fail. Running out of memory is a
    /// fault too.
    fn write(&mut self, piece: &[u8]) -> Result<usize, Failed>
        ensures within { IfOk result (λ n. n ≤ length piece.now) }
        ensures some { IfOk result (λ n. 0 < length piece.now → 1 ≤ n) }
        ensures taken { IfOk result
            (λ n. Takes (take n piece.now) (list_state self.old) (list_state self.new)) }
        ensures refused { OnErr result (Refuses (list_state self.old) (list_state self.new)) }

        // The piece is taken whole, where the call doesn't fail.
        ensures whole { IfOk result (λ n. n ≡ length piece.now) }
        ensures passes { OnOk result (is_failing self.old.calls self.new.calls ≡ false) }
        ensures counted { self.new.calls ≡ one_more self.old.calls }
    {
        let fails = self.calls.next_fails();
        if fails || self.taken.extend_from_slice(piece).is_err() {
            self.faults = self.faults.saturating_add(1);
            return Err(Failed);
        }
        Ok(piece.len())
    }
}

/// A sink that tells what it took and never fails: it stores none of its bytes, so it needs no memory for them.
#[derive(Drop)]
pub struct SureSink {
    told: Told,
}

impl SureSink {
    /// A sink that has taken nothing.
    pub fn new() -> SureSink
        ensures { bytes_told result.told ≡ [] }
    {
        SureSink {
            told: Told::Nothing,
        }
    }
}

impl Sink for SureSink {
    ghost state = { λ s. nowhere (bytes_told s.told) };

    /// Takes the whole piece.
    fn write(&mut self, piece: &[u8]) -> Result<usize, Failed>
        ensures whole { result ≡ Ok (length piece.now) }
        ensures taken { bytes_told self.new.told ≡ bytes_told self.old.told ++ piece.now }
    {
        self.told.append(piece);
        Ok(piece.len())
    }
}

/// A sink over a writer. It tells nothing.
#[derive(Debug, Drop)]
pub struct StreamSink<W> {
    writer: W,
    faults: u64,
}

impl<W: Write> StreamSink<W> {
    /// A sink over this writer.
    pub fn new(writer: W) -> StreamSink<W>
        ensures writer { result.writer ≡ writer }
        ensures faults { result.faults ≡ 0 }
    {
        StreamSink { writer, faults: 0 }
    }

    /// The writer.
    pub fn into_inner(self) -> W
        ensures { result ≡ self.writer }
    {
        let StreamSink { writer, .. } = self;
        writer
    }
}

impl<W: Write> Sink for StreamSink<W> {
    ghost use Rattle.std.specs.Prelude.{None};

    ghost state = { λ s. record { taken = None; faults = s.faults } };

    /// A writer that takes nothing of a piece that isn't empty has failed.
    fn write(&mut self, piece: &[u8]) -> Result<usize, Failed> {
        match self.writer.write(piece) {
            Ok(taken) if taken > 0 || piece.is_empty() => Ok(taken),
            _ => {
                self.faults = self.faults.saturating_add(1);
                Err(Failed)
            }
        }
    }
}
