//! The owner's display.
ghost use Rattle.std.specs.Prelude.{◌≡◌, ◌+◌, ◌<◌, false, [], length, IfOk, OnOk, OnErr};
ghost use Rattle.display_map.specs.Replay.{ends};
ghost use Rattle.version_board.specs.Rows.{Follows, IsFirst};

use cell_units::{NoMemory, Steps};
use display_map::{Display, Version};
use std::alloc::Global;
use version_board::row_laws;

/// How many versions are published at most.
pub const MOST: u32 = 1_000_000;

/// A display of a text, without events.
pub fn opened(alloc: Global) -> Result<Display, NoMemory>
    ensures { IfOk result (λ display. display.events ≡ []) }
{
    match Display::start(alloc, b"abc", &mut Steps::new()) {
        Ok(display) => Ok(display),
        Err(_) => Err(NoMemory),
    }
}

/// Version 0.
pub fn first(alloc: Global, display: &mut Display) -> Result<Version, NoMemory>
    requires { display.old.events ≡ [] }
    ensures first { IfOk result (λ version. (version ≡ display.new) × IsFirst version) }
    ensures goes_on { OnOk result (ends display.new.events ≡ false) }
    ensures events { OnOk result (length display.new.events ≡ 1) }
{
    // For the proof: a version that is published first can begin a row.
    row_laws();
    display.publish(alloc, false)
}

/// The next version.
pub fn next(alloc: Global, display: &mut Display) -> Result<Version, NoMemory>
    // No version so far was published as the last, and the events are few enough for one more.
    requires goes_on { ends display.old.events ≡ false }
    requires events { length display.old.events < 4000000 }

    // The version is what the display is then: one event more, and again not the last.
    ensures next { IfOk result (λ version. (version ≡ display.new) × Follows display.old version) }
    ensures goes_on { OnOk result (ends display.new.events ≡ false) }
    ensures events { OnOk result (length display.new.events ≡ length display.old.events + 1) }
{
    // For the proof: a version that is published next follows the last one in a row.
    row_laws();
    display.publish(alloc, false)
}
