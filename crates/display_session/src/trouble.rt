//! Why a call of a session did nothing.
use cell_units::{Fault, NoMemory, Refusal};
use std::alloc::AllocError;

/// Why a call did nothing.
#[derive(Clone, Copy, Debug, PartialEq, Eq)]
pub enum Trouble {
    /// The line, the change or the question is refused.
    Refused(Refusal),
    /// There was no memory.
    NoMemory,
    /// The journal has no room for what comes next.
    JournalFull,
    /// The bytes of a text that is put in aren't UTF-8.
    NotUtf8,
}

impl From<NoMemory> for Trouble {
    ghost use Rattle.std.specs.Prelude.{◌≡◌};
    ghost use Rattle.display_session.specs.declared.trouble.Trouble.TheVariants as troubles;

    ghost from_gives = { λ _ t. t ≡ troubles.NoMemory };

    fn from(_error: NoMemory) -> Trouble {
        Trouble::NoMemory
    }
}

impl From<AllocError> for Trouble {
    ghost use Rattle.std.specs.Prelude.{◌≡◌};
    ghost use Rattle.display_session.specs.declared.trouble.Trouble.TheVariants as troubles;

    ghost from_gives = { λ _ t. t ≡ troubles.NoMemory };

    fn from(_error: AllocError) -> Trouble {
        Trouble::NoMemory
    }
}

impl From<Fault> for Trouble {
    ghost use Rattle.std.specs.Prelude.{◌≡◌};
    ghost use Rattle.display_session.specs.Troubles.{trouble_of};

    ghost from_gives = { λ fault t. t ≡ trouble_of fault };

    fn from(fault: Fault) -> Trouble {
        match fault {
            Fault::Refused(refusal) => Trouble::Refused(refusal),
            Fault::NoMemory => Trouble::NoMemory,
        }
    }
}
