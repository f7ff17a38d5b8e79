//! What a handle holds.
ghost use Rattle.std.specs.Prelude.{◌≡◌, true, Option, Some, None};
ghost use Rattle.display_session.specs.declared.session.Session.{Session};
ghost use Rattle.display_ffi.specs.Held.{is_held};

use display_session::Session;
use loose_box::loose::Loose;
use std::alloc::Global;
use std::marker::Model;
use std::ptr;

/// What a handle holds: a session on the heap, or nothing.
#[repr(C)]
#[derive(Drop)]
pub struct Kept {
    at: *mut u8,
    pub ghost session: { Option Session },
}

impl Model for Kept {
    ghost use Rattle.display_ffi.specs.Held.{holds};

    ghost also_owns = { λ l. holds l.at l.session };
}

impl Kept {
    pub(crate) fn none() -> Kept
        ensures { result.session ≡ None }
    {
        Kept {
            at: ptr::null_mut(),
        }
    }

    pub(crate) fn of(loose: Loose<Session, Global>) -> Kept
        ensures { result.session ≡ Some loose.value }
    {
        let Loose { at, alloc: _alloc } = loose;
        Kept { at: at as *mut u8 }
    }

    pub(crate) fn into_loose(self, alloc: Global) -> Loose<Session, Global>
        requires { is_held self.session ≡ true }
        ensures { self.session ≡ Some result.value }
    {
        let Kept { at } = self;
        Loose {
            at: at as *mut Session,
            alloc,
        }
    }
}
