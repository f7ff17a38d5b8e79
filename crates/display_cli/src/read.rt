//! Reading the text and the script.
ghost use Rattle.std.specs.Prelude.{◌≡◌, ◌+◌, ◌<◌, ◌≤◌, ◌^◌, ℕ, length, IfOk, OnOk, IfErr};
ghost use Rattle.script_runner.specs.Outside.{AreTold, count_between};
ghost use Rattle.display_cli.specs.inside.Reading.{HasFront, IsWholeWithin, IsUnread, ReadsOnce, ReadsName};

use script_runner::{Failed, Inputs, Part};
use std::alloc::{AllocError, Global};

/// How many bytes are asked for at a time.
const PIECE: usize = 65_536;

/// Why a part wasn't read to its end.
#[derive(Clone, Copy, Debug, PartialEq, Eq)]
pub(crate) enum Unread {
    /// A read failed.
    Failed,
    /// It is longer than its limit.
    TooLong,
    /// There was no memory.
    NoMemory,
}

impl From<Failed> for Unread {
    ghost use Rattle.std.specs.Prelude.{◌≡◌};
    ghost use Rattle.display_cli.specs.declared.read.Unread.TheVariants as ends;

    ghost from_gives = { λ _ e. e ≡ ends.Failed };

    fn from(_error: Failed) -> Unread {
        Unread::Failed
    }
}

impl From<AllocError> for Unread {
    ghost use Rattle.std.specs.Prelude.{◌≡◌};
    ghost use Rattle.display_cli.specs.declared.read.Unread.TheVariants as ends;

    ghost from_gives = { λ _ e. e ≡ ends.NoMemory };

    fn from(_error: AllocError) -> Unread {
        Unread::NoMemory
    }
}

/// Room for so many bytes.
fn zeros(alloc: Global, size: usize) -> Result<Vec<u8>, AllocError>
    ensures { IfOk result (λ room. length room.items ≡ size) }
{
    vec![in alloc; 0u8; size]
}

/// Reads the next bytes of a name after those that were read, up to one more than the limit, and returns how many.
fn read_more<I: Inputs>(
    inputs: &mut I,
    part: Part,
    name: &str,
    limit: usize,
    room: &mut [u8],
    bytes: &mut Vec<u8>,
) -> Result<usize, Unread>
    // The bytes so far are the first of those that are told, and within the limit. The room isn't empty.
    requires some { 0 < length room.old }
    requires within { length bytes.old.items ≤ limit }
    requires limit { limit < 2 ^ 32 }
    requires front { HasFront ((I.state inputs.old).told name.now) bytes.old.items }

    // They are still the first of the told ones, at most one over the limit, and all of them where none came.
    ensures grows { IfOk result (λ n. length bytes.new.items ≡ length bytes.old.items + n) }
    ensures within { OnOk result (length bytes.new.items ≤ limit + 1) }
    ensures front { OnOk result (HasFront ((I.state inputs.old).told name.now) bytes.new.items) }
    ensures end { IfOk result
        (λ n. n ≡ 0 → AreTold ((I.state inputs.old).told name.now) bytes.new.items) }

    // Where it succeeds no fault is counted, and else the error tells why.
    ensures passed { OnOk result ((I.state inputs.new).faults ≡ (I.state inputs.old).faults) }
    ensures failed { IfErr result (IsUnread part ((I.state inputs.old).told name.now) limit
        (I.state inputs.old).faults (I.state inputs.new).faults) }

    // One read is made, from the end of the bytes so far and up to one byte over the limit, and what is told stays.
    ensures reads { ReadsOnce part name.now limit (length bytes.old.items) result
        (I.state inputs.old) (I.state inputs.new) }
{
    let asked = (limit + 1 - bytes.len()).min(room.len());
    let count = inputs.read(part, name, bytes.len() as u64, &mut room[..asked])?;
    bytes.extend_from_slice(&room[..count])?;
    Ok(count)
}

/// The bytes of a name, if it has no more than the limit.
pub(crate) fn read_whole<I: Inputs>(
    alloc: Global,
    inputs: &mut I,
    part: Part,
    name: &str,
    limit: usize,
) -> Result<Vec<u8>, Unread>
    requires { limit < 2 ^ 32 }

    // Where the bytes are told, these are all of them, and no fault is counted.
    ensures whole { IfOk result
        (λ bytes. IsWholeWithin ((I.state inputs.old).told name.now) limit bytes.items) }
    ensures passed { OnOk result ((I.state inputs.new).faults ≡ (I.state inputs.old).faults) }
    ensures counted { IfOk result (λ bytes.
        length bytes.items ≡ count_between part (I.state inputs.old) (I.state inputs.new)) }

    // Why they weren't read to their end, and what that makes of the counts of faults.
    ensures failed { IfErr result (IsUnread part ((I.state inputs.old).told name.now) limit
        (I.state inputs.old).faults (I.state inputs.new).faults) }

    // The reads follow on one another from the first byte on, and what is told stays.
    ensures reads { ReadsName part name.now limit (I.state inputs.old) (I.state inputs.new) }
{
    let mut room = zeros(alloc, PIECE)?;
    let mut bytes = Vec::new(alloc);
    while bytes.len() <= limit {
        if read_more(inputs, part, name, limit, room.as_mut_slice(), &mut bytes)? == 0 {
            return Ok(bytes);
        }
    }
    Err(Unread::TooLong)
}
