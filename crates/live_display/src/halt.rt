//! Why an owner halts.
use cell_units::NoMemory;

/// Why an owner can't go on.
#[derive(Clone, Copy, Debug, PartialEq, Eq)]
pub enum Halt {
    /// The journal has no room for the events of a step.
    Full,
    /// There was no memory, here or where a worker did a job.
    Memory,
}

impl From<NoMemory> for Halt {
    ghost use Rattle.std.specs.Prelude.{◌≡◌};
    ghost use Rattle.live_display.specs.declared.halt.Halt.TheVariants as halts;

    ghost from_gives = { λ _ h. h ≡ halts.Memory };

    fn from(_error: NoMemory) -> Halt {
        Halt::Memory
    }
}
