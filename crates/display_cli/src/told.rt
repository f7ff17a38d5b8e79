//! What is told to contracts and stored nowhere: bytes, and the reads that were made.
ghost use Rattle.std.specs.Prelude.{◌≡◌, [], ◌∷◌, ◌++◌};
ghost use Rattle.display_cli.specs.Telling.{bytes_told, reads_told};

use script_runner::Part;
use std::snapshot::Snapshot;

/// A list of bytes of which the last one is kept. Those before it are a snapshot, which has no bytes of its own: contracts
/// see what it was made of, and the program can't.
#[derive(Drop)]
pub enum Told {
    Nothing,
    Then(Snapshot<Told>, u8),
}

impl Told {
    fn push(&mut self, byte: u8)
        ensures { bytes_told self.new ≡ bytes_told self.old ++ byte ∷ [] }
    {
        *self = Told::Then(Snapshot::of(self), byte);
    }

    /// Appends the bytes. It takes no memory.
    pub fn append(&mut self, bytes: &[u8])
        ensures { bytes_told self.new ≡ bytes_told self.old ++ bytes.now }
    {
        for &byte in bytes {
            self.push(byte);
        }
    }
}

/// The reads that were made, of which nothing but the last one's part and numbers are kept.
#[derive(Drop)]
pub enum ReadsTold {
    Nothing,
    Then(Snapshot<ReadsTold>, Snapshot<Told>, Part, u64, u64),
}

impl ReadsTold {
    /// Adds a read of this part and name, from the byte `at` on, that gave `count` bytes. It takes no memory.
    pub fn push(&mut self, part: Part, name: &str, at: u64, count: u64)
        ensures { reads_told self.new ≡ reads_told self.old
            ++ record { part = part; name = name.now; at = at; count = count } ∷ [] }
    {
        let mut told = Told::Nothing;
        told.append(name.as_bytes());
        *self = ReadsTold::Then(Snapshot::of(self), Snapshot::of(&told), part, at, count);
    }
}
