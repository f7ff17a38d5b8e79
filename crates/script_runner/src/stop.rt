//! Why a run stops.
use crate::outside::Failed;
use cell_units::NoMemory;
use live_display::Halt;

/// Why a run stops before its script's end.
#[derive(Clone, Copy, Debug, PartialEq, Eq)]
pub enum Stop {
    /// A write failed.
    Write,
    /// The journal has no room for what comes next.
    JournalFull,
    /// There was no memory.
    Memory,
}

impl From<NoMemory> for Stop {
    ghost use Rattle.std.specs.Prelude.{◌≡◌};
    ghost use Rattle.script_runner.specs.declared.stop.Stop.TheVariants as stops;

    ghost from_gives = { λ _ s. s ≡ stops.Memory };

    fn from(_error: NoMemory) -> Stop {
        Stop::Memory
    }
}

impl From<Halt> for Stop {
    ghost use Rattle.std.specs.Prelude.{◌≡◌};
    ghost use Rattle.script_runner.specs.Stopping.{stop_of};

    ghost from_gives = { λ halt s. s ≡ stop_of halt };

    fn from(halt: Halt) -> Stop {
        match halt {
            Halt::Full => Stop::JournalFull,
            Halt::Memory => Stop::Memory,
        }
    }
}

impl From<Failed> for Stop {
    ghost use Rattle.std.specs.Prelude.{◌≡◌};
    ghost use Rattle.script_runner.specs.declared.stop.Stop.TheVariants as stops;

    ghost from_gives = { λ _ s. s ≡ stops.Write };

    fn from(_error: Failed) -> Stop {
        Stop::Write
    }
}
