//! Inputs: over names in memory, and over files.
ghost use Rattle.std.specs.Prelude.{◌≡◌, ◌<◌, ◌≤◌, ◌⊎◌, true, false, ℕ, [], None, length, take, drop, min, IfOk, OnOk, OnErr, IfSome, IsSome};
ghost use Rattle.std.specs.Option.{option_copied};
ghost use Rattle.display_cli.specs.inside.Calls.{is_failing, one_more};
ghost use Rattle.display_cli.specs.inside.Named.{IsMost, bytes_named, bytes_or_none, faults_in, map_state, told_by};
ghost use Rattle.display_cli.specs.Telling.{reads_told};
ghost use Rattle.script_runner.specs.Outside.{HasPartRisen, IsGiven, Reads, count_of, no_faults};

use crate::calls::Calls;
use crate::told::ReadsTold;
use cell_units::Text;
use script_runner::{Failed, Inputs, Part};
use std::fs;
use std::io::Read;
use std::rt::Files;

/// How many reads of each part failed. At the greatest u64 a count rises no further.
#[derive(Clone, Copy, Debug)]
struct FaultCounts {
    text: u64,
    script: u64,
}

impl FaultCounts {
    fn none() -> FaultCounts
        ensures { faults_in result ≡ no_faults }
    {
        FaultCounts { text: 0, script: 0 }
    }

    /// Counts a fault of the part.
    fn count(&mut self, part: Part) -> Failed
        ensures { HasPartRisen part (faults_in self.old) (faults_in self.new) }
    {
        match part {
            Part::Text => self.text = self.text.saturating_add(1),
            Part::Script => self.script = self.script.saturating_add(1),
        }
        Failed
    }
}

/// How many bytes a read gave.
fn count_of(read: Result<usize, Failed>) -> u64
    ensures { result ≡ count_of read }
{
    match read {
        Ok(count) => count as u64,
        Err(_) => 0,
    }
}

/// Bytes under a name.
#[derive(Debug, Drop)]
pub struct NamedBytes {
    pub name: Text,
    pub bytes: Vec<u8>,
}

/// The bytes of a name, if the list has it.
fn find_bytes<'a>(files: &'a [NamedBytes], name: &str) -> Option<&'a [u8]>
    ensures { option_copied result ≡ bytes_named files.now name.now }
{
    files
        .iter()
        .find(|file| file.name.as_str() == name)
        .map(|file| file.bytes.as_slice())
}

/// Copies bytes from the byte `at` on to the start of the room, as many as there are and fit.
fn copy_from(bytes: &[u8], at: u64, room: &mut [u8]) -> usize
    ensures count { result ≡ min (length room.old) (length (drop at bytes.now)) }
    ensures bytes { take result room.new ≡ take result (drop at bytes.now) }
{
    let at = at as usize;
    if at >= bytes.len() {
        return 0;
    }
    let count = room.len().min(bytes.len() - at);
    room[..count].copy_from_slice(&bytes[at..at + count]);
    count
}

/// Inputs in memory, of which the calls of some numbers fail. Calls are counted from 1.
pub struct MapInputs {
    files: Vec<NamedBytes>,
    calls: Calls,
    faults: FaultCounts,
    reads: ReadsTold,
}

impl Drop for MapInputs {
    fn drop(self) {
        let MapInputs {
            files: _,
            calls: _,
            faults: _,
            reads: _,
        } = self;
    }
}

impl MapInputs {
    /// Inputs of these files, whose calls of the numbers in `failing` fail.
    pub fn new(files: Vec<NamedBytes>, failing: Vec<u64>) -> MapInputs
        // The files, and which calls fail, are as given.
        ensures files { result.files ≡ files }
        ensures failing { result.calls.failing ≡ failing }

        // No call is counted yet, no fault and no read.
        ensures made { result.calls.made ≡ 0 }
        ensures faults { faults_in result.faults ≡ no_faults }
        ensures reads { reads_told result.reads ≡ [] }
    {
        MapInputs {
            files,
            calls: Calls::new(failing),
            faults: FaultCounts::none(),
            reads: ReadsTold::Nothing,
        }
    }

    /// Reads as `read` does, but records no read.
    fn read_named(
        &mut self,
        part: Part,
        name: &str,
        at: u64,
        room: &mut [u8],
    ) -> Result<usize, Failed>
        // The room begins with the bytes of the name from `at` on, as many as there are and fit.
        ensures within { IfOk result (λ n. n ≤ length room.old) }
        ensures given { IfOk result
            (λ n. IfSome (told_by self.old name.now) (IsGiven at room.old room.new n)) }
        ensures most { IfOk result
            (λ n. IfSome (told_by self.old name.now) (IsMost at room.old n)) }

        // Where it reads, the name is there, the call isn't one that fails, and no fault is counted.
        ensures there { OnOk result (IsSome (told_by self.old name.now)) }
        ensures passes { OnOk result (is_failing self.old.calls self.new.calls ≡ false) }
        ensures passed { OnOk result (faults_in self.new.faults ≡ faults_in self.old.faults) }

        // Where it fails, the call is one that fails or the name isn't there, and a fault of the part is counted.
        ensures fails { OnErr result ((is_failing self.old.calls self.new.calls ≡ true)
            ⊎ (told_by self.old name.now ≡ None)) }
        ensures failed { OnErr result
            (HasPartRisen part (faults_in self.old.faults) (faults_in self.new.faults)) }

        // Either way the call is counted, and the files and the reads that are told stay.
        ensures counted { self.new.calls ≡ one_more self.old.calls }
        ensures files { self.new.files ≡ self.old.files }
        ensures reads { reads_told self.new.reads ≡ reads_told self.old.reads }
    {
        if self.calls.next_fails() {
            return Err(self.faults.count(part));
        }
        match find_bytes(self.files.as_slice(), name) {
            Some(bytes) => Ok(copy_from(bytes, at, room)),
            None => Err(self.faults.count(part)),
        }
    }
}

impl Inputs for MapInputs {
    ghost state = { λ s. map_state s };

    /// Fails exactly where the call's number is one of those that fail, or where the name isn't there, and else reads as many
    /// bytes as there are and fit.
    fn read(&mut self, part: Part, name: &str, at: u64, room: &mut [u8]) -> Result<usize, Failed>
        ensures within { IfOk result (λ n. n ≤ length room.old) }
        ensures given { IfOk result (λ n. IfSome ((map_state self.old).told name.now)
            (IsGiven at room.old room.new n)) }
        ensures reads { Reads part name.now at result (map_state self.old) (map_state self.new) }

        // All that is there and fits is read, where the call and the name don't fail.
        ensures most { IfOk result
            (λ n. IfSome (told_by self.old name.now) (IsMost at room.old n)) }
        ensures there { OnOk result (IsSome (told_by self.old name.now)) }
        ensures passes { OnOk result (is_failing self.old.calls self.new.calls ≡ false) }
        ensures fails { OnErr result ((is_failing self.old.calls self.new.calls ≡ true)
            ⊎ (told_by self.old name.now ≡ None)) }
        ensures counted { self.new.calls ≡ one_more self.old.calls }
    {
        let read = self.read_named(part, name, at, room);
        self.reads.push(part, name, at, count_of(read));
        read
    }
}

/// Inputs in memory that never fail. A name that isn't there is empty.
pub struct SureInputs {
    files: Vec<NamedBytes>,
    reads: ReadsTold,
}

impl Drop for SureInputs {
    fn drop(self) {
        let SureInputs { files: _, reads: _ } = self;
    }
}

impl SureInputs {
    /// Inputs of these files.
    pub fn new(files: Vec<NamedBytes>) -> SureInputs
        ensures files { result.files ≡ files }
        ensures reads { reads_told result.reads ≡ [] }
    {
        SureInputs {
            files,
            reads: ReadsTold::Nothing,
        }
    }
}

impl Inputs for SureInputs {
    ghost use Rattle.std.specs.Prelude.{Some};

    ghost state = { λ s. record { told = λ name. Some (bytes_or_none s.files.items name); faults = no_faults; reads = reads_told s.reads } };

    fn read(&mut self, part: Part, name: &str, at: u64, room: &mut [u8]) -> Result<usize, Failed> {
        let count = match find_bytes(self.files.as_slice(), name) {
            Some(bytes) => copy_from(bytes, at, room),
            None => 0,
        };
        self.reads.push(part, name, at, count as u64);
        Ok(count)
    }
}

/// A file that is being read, and how far it was read.
#[derive(Drop)]
struct Opened<F> {
    file: F,
    part: Part,
    read: u64,
}

/// Inputs over files, the trusted edge. It tells no bytes.
#[derive(Drop)]
pub struct FileInputs<'a, R: Files> {
    files: &'a R,
    opened: Option<Opened<R::File>>,
    faults: FaultCounts,
    reads: ReadsTold,
}

impl<'a, R: Files> FileInputs<'a, R> {
    /// Inputs over these files, of which none is open.
    pub fn new(files: &'a R) -> FileInputs<'a, R>
        ensures opened { result.opened ≡ None }
        ensures faults { faults_in result.faults ≡ no_faults }
        ensures reads { reads_told result.reads ≡ [] }
    {
        FileInputs {
            files,
            opened: None,
            faults: FaultCounts::none(),
            reads: ReadsTold::Nothing,
        }
    }
}

/// Reads on where the last read ended; a read at 0 opens the file anew. `None` is an error.
fn read_opened<R: Files>(
    opened: &mut Option<Opened<R::File>>,
    files: &R,
    part: Part,
    name: &str,
    at: u64,
    room: &mut [u8],
) -> Option<usize>
    ensures { IfSome result (λ n. n ≤ length room.old) }
{
    if at == 0 {
        *opened = Some(Opened {
            file: fs::open(files, name).ok()?,
            part,
            read: 0,
        });
    }
    let current = opened.as_mut()?;
    if current.part != part || current.read != at {
        return None;
    }
    let count = current.file.read(room).ok()?;
    current.read = current.read.saturating_add(count as u64);
    Some(count)
}

impl<'a, R: Files> Inputs for FileInputs<'a, R> {
    ghost use Rattle.std.specs.Prelude.{None};

    ghost state = { λ s. record { told = λ _. None; faults = faults_in s.faults; reads = reads_told s.reads } };

    fn read(&mut self, part: Part, name: &str, at: u64, room: &mut [u8]) -> Result<usize, Failed> {
        match read_opened(&mut self.opened, self.files, part, name, at, room) {
            Some(count) => {
                self.reads.push(part, name, at, count as u64);
                Ok(count)
            }
            None => {
                self.reads.push(part, name, at, 0);
                Err(self.faults.count(part))
            }
        }
    }
}
