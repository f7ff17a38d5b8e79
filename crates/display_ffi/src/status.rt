//! What a call returns, as numbers.
ghost use Rattle.std.specs.Prelude.{◌≡◌, ◌≤◌};
ghost use Rattle.plain_rows.specs.ShownRows.{letter_of};
ghost use Rattle.display_ffi.specs.declared.status.TheConstants.{CLOSED};
ghost use Rattle.display_ffi.specs.Statuses.{status_of, text_status_of};

use cell_units::{Refusal, TextFault};
use display_map::Kind;
use display_session::Trouble;

/// The call is done. The numbers 1 to 8 are those of refusals.
pub const OK: u32 = 0;

/// The handle is closed.
pub const CLOSED: u32 = 16;

/// There was no memory.
pub const NO_MEMORY: u32 = 17;

/// The journal is full.
pub const JOURNAL_FULL: u32 = 18;

/// The bytes of a text aren't UTF-8.
pub const NOT_UTF8: u32 = 19;

/// The row is past the last.
pub const NO_ROW: u32 = 20;

/// The status of a call that did nothing.
pub(crate) fn status_of(trouble: Trouble) -> u32
    ensures value { result ≡ status_of trouble }
    ensures some { 1 ≤ result }
    ensures not_closed { ¬ (result ≡ CLOSED) }
{
    match trouble {
        Trouble::Refused(refusal) => u32::from(refusal.number()),
        Trouble::NoMemory => NO_MEMORY,
        Trouble::JournalFull => JOURNAL_FULL,
        Trouble::NotUtf8 => NOT_UTF8,
    }
}

/// The status of a text that isn't opened.
pub(crate) fn text_status_of(fault: TextFault) -> u32
    ensures value { result ≡ text_status_of fault }
    ensures some { 1 ≤ result }
    ensures not_closed { ¬ (result ≡ CLOSED) }
{
    match fault {
        TextFault::NotUtf8 { at: _ } => NOT_UTF8,
        TextFault::TooLong => u32::from(Refusal::TooLong.number()),
        TextFault::NoMemory => NO_MEMORY,
    }
}

/// The letter of a kind of rows, as a script prints it: `t` of a line's first row, `w` of one that goes on, `b` of a block's.
pub(crate) fn letter_of(kind: Kind) -> u32
    ensures { result ≡ letter_of kind }
{
    match kind {
        Kind::Head => u32::from(b't'),
        Kind::More => u32::from(b'w'),
        Kind::Block => u32::from(b'b'),
    }
}
