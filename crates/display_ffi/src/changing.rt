//! Calls that open, close and change a display, and that read the last answer.
ghost use Rattle.std.specs.Prelude.{◌≡◌, ◌<◌, ◌≤◌, true, false, [], ◌∷◌, length, map, option_map, string_bytes, Some, None};
ghost use Rattle.std.specs.Str.{IsUtf8};
ghost use Rattle.cell_units.specs.declared.limits.TheConstants.{TEXT_LIMIT};
ghost use Rattle.cell_units.specs.Refusal.{IsAccepted, number_of};
ghost use Rattle.display_sheet.specs.Changes.{batch, edit_refusal, splice_of};
ghost use Rattle.display_map.specs.Events.{Did};
ghost use Rattle.display_map.specs.Replay.{appended, is_settled, present_of};
ghost use Rattle.display_session.specs.Answers.{filled_with};
ghost use Rattle.display_session.specs.HostMarks.{marks_at, marks_moved};
ghost use Rattle.display_session.specs.Lines.{HasDoneAt, verdict_on};
ghost use Rattle.display_session.specs.Wrapping.{IsWrapped};
ghost use Rattle.display_ffi.specs.declared.status.TheConstants.{CLOSED, NOT_UTF8, OK};
ghost use Rattle.display_ffi.specs.Calls.{AskStays, Both, IsOpened};
ghost use Rattle.display_ffi.specs.Handles.{IsHandle};
ghost use Rattle.display_ffi.specs.Statuses.{verdict_status};

use crate::handle::{Handle, put, take};
use crate::status::{CLOSED, NO_MEMORY, OK, status_of, text_status_of};
use display_session::Session;
use std::alloc::Global;

/// The number of this interface.
#[unsafe(no_mangle)]
pub extern "C" fn displaymap_version() -> u32
    ensures { result ≡ 1 }
{
    1
}

/// Opens a text. What the handle held before is closed, also where this fails.
#[unsafe(no_mangle)]
pub extern "C" fn displaymap_open(alloc: Global, handle: &mut Handle, text: &[u8]) -> u32
    requires { IsHandle handle.old }

    // What the handle holds then.
    ensures handle { IsHandle handle.new }
    ensures opened { result ≡ OK → IsOpened text.now handle.new.kept.session }
    ensures closed { 1 ≤ result → handle.new.kept.session ≡ None }

    // Which texts are opened, and why not.
    ensures accepted { result ≡ OK → IsAccepted text.now }
    ensures long { result ≡ 5 → TEXT_LIMIT < length text.now }
    ensures not_utf8 { result ≡ NOT_UTF8 → ¬ IsUtf8 text.now }
    ensures not_closed { ¬ (result ≡ CLOSED) }
{
    let _old = take(alloc, handle);
    let session = match Session::open(alloc, text) {
        Ok(session) => session,
        Err(fault) => return text_status_of(fault),
    };
    match Box::new(alloc, session) {
        Ok(session) => {
            put(handle, session);
            OK
        }
        Err(_) => NO_MEMORY,
    }
}

/// Closes a handle and frees what it held. A closed handle stays closed.
#[unsafe(no_mangle)]
pub extern "C" fn displaymap_close(alloc: Global, handle: &mut Handle)
    requires { IsHandle handle.old }
    ensures handle { IsHandle handle.new }
    ensures closed { handle.new.kept.session ≡ None }
{
    let _session = take(alloc, handle);
}

/// Does what a line of a script asks, in the script's second form. The lines of an answer are kept in the session.
#[unsafe(no_mangle)]
pub extern "C" fn displaymap_line(alloc: Global, handle: &mut Handle, line: &[u8]) -> u32
    requires { IsHandle handle.old }

    // What the handle holds then.
    ensures handle { IsHandle handle.new }
    ensures done { result ≡ OK → Both
        (λ a b. HasDoneAt (verdict_on a.display line.now) a.display b.display (string_bytes b.answer))
        handle.old.kept.session handle.new.kept.session }
    ensures moved { result ≡ OK → Both
        (λ a b. b.marks ≡ marks_at (verdict_on a.display line.now) a.marks)
        handle.old.kept.session handle.new.kept.session }
    ensures asked { AskStays handle.old.kept.session handle.new.kept.session }

    // Why it fails, and what stays then.
    ensures refused { 1 ≤ result → result ≤ 8 → Both
        (λ a b. (result ≡ verdict_status (verdict_on a.display line.now)) × (b.display ≡ a.display))
        handle.old.kept.session handle.new.kept.session }
    ensures failed { 1 ≤ result → Both
        (λ a b. IsWrapped a.display b.display × (b.answer ≡ a.answer) × (b.marks ≡ a.marks))
        handle.old.kept.session handle.new.kept.session }
    ensures closed { handle.old.kept.session ≡ None → result ≡ CLOSED }
    ensures open { result ≡ CLOSED → handle.old.kept.session ≡ None }
{
    let Some(mut session) = take(alloc, handle) else {
        return CLOSED;
    };
    let done = session.apply(alloc, line);
    put(handle, session);
    match done {
        Ok(()) => OK,
        Err(trouble) => status_of(trouble),
    }
}

/// Replaces the bytes of the text from `start` to `end` by others.
#[unsafe(no_mangle)]
pub extern "C" fn displaymap_edit(
    alloc: Global,
    handle: &mut Handle,
    start: u32,
    end: u32,
    text: &[u8],
) -> u32
    requires { IsHandle handle.old }

    // What the handle holds then.
    ensures handle { IsHandle handle.new }
    ensures done { result ≡ OK → Both
        (λ a b. (edit_refusal (present_of a.display) (splice_of start end text.now ∷ []) ≡ None)
        × (b.display ≡ appended a.display (map Did (batch (splice_of start end text.now ∷ []))))
        × (b.marks ≡ marks_moved (batch (splice_of start end text.now ∷ [])) a.marks)
        × (b.answer ≡ a.answer))
        handle.old.kept.session handle.new.kept.session }
    ensures asked { AskStays handle.old.kept.session handle.new.kept.session }

    // Why it fails, and what stays then.
    ensures refused { 1 ≤ result → result ≤ 8 → Both
        (λ a b. option_map number_of
        (edit_refusal (present_of a.display) (splice_of start end text.now ∷ [])) ≡ Some result)
        handle.old.kept.session handle.new.kept.session }
    ensures failed { 1 ≤ result → handle.new.kept.session ≡ handle.old.kept.session }
    ensures closed { handle.old.kept.session ≡ None → result ≡ CLOSED }
    ensures open { result ≡ CLOSED → handle.old.kept.session ≡ None }
{
    let Some(mut session) = take(alloc, handle) else {
        return CLOSED;
    };
    let done = session.edit(alloc, start, end, text);
    put(handle, session);
    match done {
        Ok(()) => OK,
        Err(trouble) => status_of(trouble),
    }
}

/// Wraps up to so many runs of lines that wait, and says whether a line may still wait.
#[unsafe(no_mangle)]
pub extern "C" fn displaymap_wrap(
    alloc: Global,
    handle: &mut Handle,
    runs: u32,
    waits: &mut bool,
) -> u32
    requires { IsHandle handle.old }

    // What the handle holds then, and whether a line waits.
    ensures handle { IsHandle handle.new }
    ensures wrapped { Both
        (λ a b. IsWrapped a.display b.display × (b.answer ≡ a.answer) × (b.marks ≡ a.marks))
        handle.old.kept.session handle.new.kept.session }
    ensures settled { result ≡ OK → waits.new ≡ false → Both
        (λ a b. is_settled (present_of b.display) ≡ true)
        handle.old.kept.session handle.new.kept.session }
    ensures asked { AskStays handle.old.kept.session handle.new.kept.session }

    // When it fails, and that nothing is written then.
    ensures untouched { 1 ≤ result → waits.new ≡ waits.old }
    ensures closed { handle.old.kept.session ≡ None → result ≡ CLOSED }
    ensures open { result ≡ CLOSED → handle.old.kept.session ≡ None }
{
    let Some(mut session) = take(alloc, handle) else {
        return CLOSED;
    };
    let done = session.wrap(alloc, runs);
    put(handle, session);
    match done {
        Ok(may) => {
            *waits = may;
            OK
        }
        Err(trouble) => status_of(trouble),
    }
}

/// Copies bytes of the last answer, from byte `from` on, and returns the whole answer's length. That of a closed handle is 0.
#[unsafe(no_mangle)]
pub extern "C" fn displaymap_answer(
    alloc: Global,
    handle: &mut Handle,
    from: usize,
    out: &mut [u8],
) -> usize
    requires { IsHandle handle.old }
    ensures handle { IsHandle handle.new }
    ensures kept { handle.new.kept.session ≡ handle.old.kept.session }
    ensures copied { Both (λ a b. (result ≡ length (string_bytes a.answer))
        × (out.new ≡ filled_with (string_bytes a.answer) from out.old))
        handle.old.kept.session handle.new.kept.session }
    ensures closed { handle.old.kept.session ≡ None → (result ≡ 0) × (out.new ≡ out.old) }
{
    let Some(session) = take(alloc, handle) else {
        return 0;
    };
    let length = session.copy_answer(from, out);
    put(handle, session);
    length
}
