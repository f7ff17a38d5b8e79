//! Calls on marks of the host's own.
ghost use Rattle.std.specs.Prelude.{◌≡◌, ◌≤◌, filter, option_map, Some, None};
ghost use Rattle.cell_units.specs.Refusal.{number_of};
ghost use Rattle.cell_units.specs.Sorting.{insert_by};
ghost use Rattle.mark_tree.specs.Marks.{lacks_id, mark_le, mark_with};
ghost use Rattle.display_map.specs.Replay.{present_of};
ghost use Rattle.display_session.specs.HostMarks.{mark_refusal, offset_of, unmark_refusal};
ghost use Rattle.display_ffi.specs.declared.status.TheConstants.{CLOSED, OK};
ghost use Rattle.display_ffi.specs.Biases.{bias_of};
ghost use Rattle.display_ffi.specs.Calls.{AskStays, Both};
ghost use Rattle.display_ffi.specs.Handles.{IsHandle};

use crate::handle::{Handle, put, take};
use crate::reading::bias;
use crate::status::{CLOSED, OK, status_of};
use cell_units::Refusal;
use display_session::Trouble;
use std::alloc::Global;

/// Adds a mark with this id at an offset of the text, counted in bytes.
#[unsafe(no_mangle)]
pub extern "C" fn displaymap_add_mark(
    alloc: Global,
    handle: &mut Handle,
    id: u32,
    offset: u32,
    right: bool,
) -> u32
    requires { IsHandle handle.old }

    // What the handle holds then.
    ensures handle { IsHandle handle.new }
    ensures added { result ≡ OK → Both
        (λ a b. (mark_refusal (present_of a.display).text a.marks id offset ≡ None)
        × (b.marks ≡ insert_by mark_le (mark_with offset (bias_of right) id (record {})) a.marks)
        × (b.display ≡ a.display) × (b.answer ≡ a.answer))
        handle.old.kept.session handle.new.kept.session }
    ensures asked { AskStays handle.old.kept.session handle.new.kept.session }

    // Why it fails, and what stays then.
    ensures refused { 1 ≤ result → result ≤ 8 → Both
        (λ a b. option_map number_of (mark_refusal (present_of a.display).text a.marks id offset)
        ≡ Some result)
        handle.old.kept.session handle.new.kept.session }
    ensures failed { 1 ≤ result → handle.new.kept.session ≡ handle.old.kept.session }
    ensures closed { handle.old.kept.session ≡ None → result ≡ CLOSED }
    ensures open { result ≡ CLOSED → handle.old.kept.session ≡ None }
{
    let Some(mut session) = take(alloc, handle) else {
        return CLOSED;
    };
    let done = session.add_mark(alloc, id, offset, bias(right));
    put(handle, session);
    match done {
        Ok(()) => OK,
        Err(trouble) => status_of(trouble),
    }
}

/// Takes the mark of this id away.
#[unsafe(no_mangle)]
pub extern "C" fn displaymap_remove_mark(alloc: Global, handle: &mut Handle, id: u32) -> u32
    requires { IsHandle handle.old }

    // What the handle holds then.
    ensures handle { IsHandle handle.new }
    ensures removed { result ≡ OK → Both
        (λ a b. (unmark_refusal a.marks id ≡ None) × (b.marks ≡ filter (lacks_id id) a.marks)
        × (b.display ≡ a.display) × (b.answer ≡ a.answer))
        handle.old.kept.session handle.new.kept.session }
    ensures asked { AskStays handle.old.kept.session handle.new.kept.session }

    // Why it fails, and what stays then.
    ensures refused { 1 ≤ result → result ≤ 8 → Both
        (λ a b. option_map number_of (unmark_refusal a.marks id) ≡ Some result)
        handle.old.kept.session handle.new.kept.session }
    ensures failed { 1 ≤ result → handle.new.kept.session ≡ handle.old.kept.session }
    ensures closed { handle.old.kept.session ≡ None → result ≡ CLOSED }
    ensures open { result ≡ CLOSED → handle.old.kept.session ≡ None }
{
    let Some(mut session) = take(alloc, handle) else {
        return CLOSED;
    };
    let done = session.remove_mark(alloc, id);
    put(handle, session);
    match done {
        Ok(()) => OK,
        Err(trouble) => status_of(trouble),
    }
}

/// The offset of the mark of this id, counted in bytes.
#[unsafe(no_mangle)]
pub extern "C" fn displaymap_mark(
    alloc: Global,
    handle: &mut Handle,
    id: u32,
    offset: &mut u32,
) -> u32
    requires { IsHandle handle.old }
    ensures handle { IsHandle handle.new }
    ensures kept { handle.new.kept.session ≡ handle.old.kept.session }
    ensures found { result ≡ OK → Both (λ a b. offset_of id a.marks ≡ Some offset.new)
        handle.old.kept.session handle.new.kept.session }
    ensures unknown { 1 ≤ result → Both (λ a b. (offset_of id a.marks ≡ None)
        × (result ≡ number_of Refusal.UnknownId))
        handle.old.kept.session handle.new.kept.session }
    ensures untouched { 1 ≤ result → offset.new ≡ offset.old }
    ensures closed { handle.old.kept.session ≡ None → result ≡ CLOSED }
    ensures open { result ≡ CLOSED → handle.old.kept.session ≡ None }
{
    let Some(session) = take(alloc, handle) else {
        return CLOSED;
    };
    let found = session.mark(id);
    put(handle, session);
    match found {
        Some(it) => {
            *offset = it;
            OK
        }
        None => status_of(Trouble::Refused(Refusal::UnknownId)),
    }
}
