//! Handles.
ghost use Rattle.std.specs.Prelude.{◌≡◌, Option, Some, None, option_map};
ghost use Rattle.display_ffi.specs.Handles.{IsHandle};

use crate::kept::Kept;
use display_session::Session;
use loose_box::loose::Loose;
use std::alloc::Global;
use std::mem;

/// A handle: whether it is open, and what it holds then.
#[repr(C)]
#[derive(Drop)]
pub struct Handle {
    open: bool,
    kept: Kept,
}

impl Handle {
    /// A closed handle, as zeroed memory is one to C.
    pub fn closed() -> Handle
        ensures { IsHandle result }
    {
        Handle {
            open: false,
            kept: Kept::none(),
        }
    }
}

/// Takes the session out of an open handle, which is closed then.
pub(crate) fn take(alloc: Global, handle: &mut Handle) -> Option<Box<Session>>
    requires { IsHandle handle.old }
    ensures session { option_map (λ s. s.value) result ≡ handle.old.kept.session }
    ensures closed { handle.new.kept.session ≡ None }
    ensures handle { IsHandle handle.new }
{
    if !handle.open {
        return None;
    }
    handle.open = false;
    let kept = mem::replace(&mut handle.kept, Kept::none());
    Some(kept.into_loose(alloc).into_box())
}

/// Puts a session into a handle that holds none.
pub(crate) fn put(handle: &mut Handle, session: Box<Session>)
    ensures session { handle.new.kept.session ≡ Some session.value }
    ensures handle { IsHandle handle.new }
{
    handle.kept = Kept::of(Loose::of(session));
    handle.open = true;
}
