//! The call that says which rows changed.
ghost use Rattle.std.specs.Prelude.{◌≡◌, ◌≤◌, length, None, Some, IfSome};
ghost use Rattle.display_map.specs.Replay.{present_of};
ghost use Rattle.row_pieces.specs.Changed.{IsTrue, looks};
ghost use Rattle.display_session.specs.Watches.{asked_at, changed_rows, earlier};
ghost use Rattle.display_ffi.specs.declared.status.TheConstants.{CLOSED, NO_MEMORY, OK};
ghost use Rattle.display_ffi.specs.Calls.{Both};
ghost use Rattle.display_ffi.specs.Changes.{row_change};
ghost use Rattle.display_ffi.specs.Handles.{IsHandle};

use crate::handle::{Handle, put, take};
use crate::status::{CLOSED, NO_MEMORY, OK};
use std::alloc::Global;

/// The rows from `from` up to `to` make place for `count` others, as C has it.
#[repr(C)]
#[derive(Clone, Copy)]
pub struct Change {
    pub from: u32,
    pub to: u32,
    pub count: u32,
}

/// The rows that changed since this was last asked, or at first all of them in place of none. `from` and `to` count the
/// rows of then, and `count` rows of now. Each ask begins anew.
#[unsafe(no_mangle)]
pub extern "C" fn displaymap_changed_rows(
    alloc: Global,
    handle: &mut Handle,
    change: &mut Change,
) -> u32
    requires { IsHandle handle.old }
    ensures handle { IsHandle handle.new }

    // The rows, and that no row outside of them looks another.
    ensures rows { result ≡ OK → Both
        (λ a b. row_change change.new ≡ changed_rows a.display (asked_at a.watch))
        handle.old.kept.session handle.new.kept.session }
    ensures others { result ≡ OK → Both (λ a b. IfSome (asked_at a.watch) (λ events.
        IsTrue (row_change change.new) (looks (present_of (earlier a.display events)))
        (looks (present_of a.display))))
        handle.old.kept.session handle.new.kept.session }

    // What the handle holds then.
    ensures asked { result ≡ OK → Both
        (λ a b. (asked_at b.watch ≡ Some (length a.display.events)) × (b.display ≡ a.display)
        × (b.marks ≡ a.marks) × (b.answer ≡ a.answer))
        handle.old.kept.session handle.new.kept.session }

    // Why it fails, and that nothing is changed then.
    ensures failed { 1 ≤ result → Both (λ a b. (b ≡ a) × (result ≡ NO_MEMORY))
        handle.old.kept.session handle.new.kept.session }
    ensures untouched { 1 ≤ result → change.new ≡ change.old }
    ensures closed { handle.old.kept.session ≡ None → result ≡ CLOSED }
{
    let Some(mut session) = take(alloc, handle) else {
        return CLOSED;
    };
    let changed = session.changed_rows();
    put(handle, session);
    match changed {
        Ok(rows) => {
            change.from = rows.from;
            change.to = rows.to;
            change.count = rows.count;
            OK
        }
        Err(_) => NO_MEMORY,
    }
}
