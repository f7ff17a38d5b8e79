//! Why a call fails: refusals, bytes that are no text, and out of memory.
ghost use Rattle.std.specs.Prelude.{◌≡◌};
ghost use Rattle.cell_units.specs.Refusal.{number_of};

use std::alloc::{AllocError, AllocFailed};

/// There was no memory for what was asked.
#[derive(Clone, Copy, Debug, PartialEq, Eq)]
pub struct NoMemory;

impl From<AllocError> for NoMemory {
    fn from(_error: AllocError) -> NoMemory {
        NoMemory
    }
}

impl<T: Drop> From<AllocFailed<T>> for NoMemory {
    fn from(_error: AllocFailed<T>) -> NoMemory {
        NoMemory
    }
}

/// Why a command is refused.
#[derive(Clone, Copy, Debug, PartialEq, Eq)]
pub enum Refusal {
    /// The line has none of the forms of a command.
    NotCommand,
    /// An offset is past the end or inside a character, or a range is backwards or out of order.
    BadRange,
    /// The id that is added is there already.
    IdInUse,
    /// The id that is removed isn't there.
    UnknownId,
    /// A line, a text or a list would be longer than its limit.
    TooLong,
    /// An id, a tab size or a width is out of its range.
    BadNumber,
    /// The text of an inlay or of a block is none.
    BadText,
    /// There is nothing to undo or to redo.
    NothingThere,
}

impl Refusal {
    /// The number that is printed for the refusal, 1 to 8.
    pub fn number(self) -> u8
        ensures { result ≡ number_of self }
    {
        match self {
            Refusal::NotCommand => 1,
            Refusal::BadRange => 2,
            Refusal::IdInUse => 3,
            Refusal::UnknownId => 4,
            Refusal::TooLong => 5,
            Refusal::BadNumber => 6,
            Refusal::BadText => 7,
            Refusal::NothingThere => 8,
        }
    }
}

/// Why a call changed nothing.
#[derive(Clone, Copy, Debug, PartialEq, Eq)]
pub enum Fault {
    /// A refusal.
    Refused(Refusal),
    /// Out of memory.
    NoMemory,
}

impl From<NoMemory> for Fault {
    ghost use Rattle.std.specs.Prelude.{◌≡◌};
    ghost use Rattle.cell_units.specs.declared.fault.Fault.TheVariants as faults;

    ghost from_gives = { λ _ e. e ≡ faults.NoMemory };

    fn from(_error: NoMemory) -> Fault {
        Fault::NoMemory
    }
}

/// Why bytes are no text.
#[derive(Clone, Copy, Debug, PartialEq, Eq)]
pub enum TextFault {
    /// The bytes aren't UTF-8. `at` is the length in bytes of their longest prefix that is.
    NotUtf8 { at: u64 },
    /// There are more bytes than `TEXT_LIMIT`.
    TooLong,
    /// Out of memory.
    NoMemory,
}

impl From<NoMemory> for TextFault {
    ghost use Rattle.std.specs.Prelude.{◌≡◌};
    ghost use Rattle.cell_units.specs.declared.fault.TextFault.TheVariants as faults;

    ghost from_gives = { λ _ e. e ≡ faults.NoMemory };

    fn from(_error: NoMemory) -> TextFault {
        TextFault::NoMemory
    }
}
