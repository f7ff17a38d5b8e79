//! The outside of a run: where its inputs come from and where its output goes.
ghost use Rattle.std.specs.Prelude.{◌<◌, ◌≤◌, IfOk, IfSome, OnErr, length, take};
ghost use Rattle.script_runner.specs.Outside.{InputState, SinkState, IsGiven, Reads, Takes, Refuses};

/// A part of the inputs.
#[derive(Clone, Copy, Debug, PartialEq, Eq)]
pub enum Part {
    Text,
    Script,
}

/// A read or a write failed.
#[derive(Clone, Copy, Debug, PartialEq, Eq)]
pub struct Failed;

/// Where the text and the script are read.
pub trait Inputs {
    // The bytes of each name, where they are given, how many reads of each part failed, and the reads so far.
    ghost state: { Self → InputState };

    /// Reads bytes of the name, from the byte `at` on, to the start of `room`, and returns how many bytes. None for a
    /// room that isn't empty is the end. `Failed` where the read fails, as where nothing has the name.
    fn read(&mut self, part: Part, name: &str, at: u64, room: &mut [u8]) -> Result<usize, Failed>
        ensures within { IfOk result (λ n. n ≤ length room.old) }
        ensures given { IfOk result
            (λ n. IfSome ((state self.old).told name.now) (IsGiven at room.old room.new n)) }
        ensures reads { Reads part name.now at result (state self.old) (state self.new) };
}

/// Where the output goes.
pub trait Sink {
    // The bytes that were taken, where they are given, and how many writes failed.
    ghost state: { Self → SinkState };

    /// Takes bytes from the start of the piece, and returns how many bytes: at least one of a piece that isn't empty.
    /// `Failed` where the write fails, and then nothing is taken.
    fn write(&mut self, piece: &[u8]) -> Result<usize, Failed>
        ensures within { IfOk result (λ n. n ≤ length piece.now) }
        ensures some { IfOk result (λ n. 0 < length piece.now → 1 ≤ n) }
        ensures taken { IfOk result
            (λ n. Takes (take n piece.now) (state self.old) (state self.new)) }
        ensures refused { OnErr result (Refuses (state self.old) (state self.new)) };
}
