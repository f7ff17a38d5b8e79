//! Stretches gathered one after the other.
ghost use Rattle.std.specs.Prelude.{◌≡◌, ◌+◌, ◌<◌, ◌^◌, All, length, OnOk};
ghost use Rattle.wrap_map.specs.inside.Gathering.{gathered, with_last};
ghost use Rattle.wrap_map.specs.inside.Stretches.{IsStretch, spread};

use crate::stretch::Stretch;
use cell_units::NoMemory;

/// Adds a stretch after others: where it is alike the last one, that one grows.
fn add(stretches: &mut Vec<Stretch>, stretch: Stretch) -> Result<(), NoMemory>
    requires { length (spread stretches.old.items) + stretch.lines < 2 ^ 32 }
    ensures added { OnOk result (stretches.new.items ≡ with_last stretches.old.items stretch) }
    ensures stretch { IsStretch stretch }
{
    let lines = stretch.lines();
    let count = stretches.len();
    if count > 0 && stretches[count - 1].is_alike(&stretch) {
        stretches[count - 1].grow(lines);
        return Ok(());
    }
    stretches.push(stretch)?;
    Ok(())
}

/// Adds stretches after others, one after the other.
pub fn gather(stretches: &mut Vec<Stretch>, fresh: Vec<Stretch>) -> Result<(), NoMemory>
    requires { length (spread stretches.old.items) + length (spread fresh.items) < 2 ^ 32 }
    ensures made { OnOk result (stretches.new.items ≡ gathered stretches.old.items fresh.items) }
    ensures fresh { OnOk result (All IsStretch fresh.items) }
{
    for stretch in fresh {
        add(stretches, stretch)?;
    }
    Ok(())
}
