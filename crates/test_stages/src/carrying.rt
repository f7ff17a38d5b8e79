//! The places of the lines of a run.
ghost use Rattle.std.specs.Prelude.{◌≡◌, ◌+◌, ◌-◌, ◌^◌, ◌<◌, ◌≤◌, ◌∷◌, [], All, map, IfOk};
ghost use Rattle.kept_sheet.specs.Kept.{standing};
ghost use Rattle.test_stages.specs.Places.{carried, places_from};

use cell_units::{NoMemory, Shift};
use std::alloc::Global;

/// The places of the lines of a run that was just taken.
pub(crate) fn places_from(
    alloc: Global,
    first: u32,
    count: u32,
) -> Result<Vec<Option<u32>>, NoMemory>
    requires { first + count < 2 ^ 32 }
    ensures { IfOk result (λ places. places.items ≡ places_from first count) }
{
    let mut places = Vec::with_capacity(alloc, count as usize)?;
    for i in 0..count {
        places.push(Some(first + i))?;
    }
    Ok(places)
}

/// Where a line of `total` goes when others come for a run of lines. There are `after` lines then.
fn carried(place: Option<u32>, run: Shift, total: u32, after: u32) -> Option<u32>
    requires there { All (λ line. line < total) (standing (place ∷ [])) }
    requires within { run.end ≤ total }
    requires after { after ≡ run.start + (run.count + (total - run.end)) }
    ensures { result ≡ carried run place }
{
    let line = place?;
    if line < run.start {
        Some(line)
    } else if line < run.end {
        None
    } else {
        // It keeps its distance from the last.
        Some(after - (total - line))
    }
}

/// Where the lines at places go when others come for a run of lines.
pub(crate) fn carry(places: &mut [Option<u32>], run: Shift, total: u32, after: u32)
    requires there { All (λ line. line < total) (standing places.old) }
    requires within { run.end ≤ total }
    requires after { after ≡ run.start + (run.count + (total - run.end)) }
    ensures { places.new ≡ map (carried run) places.old }
{
    for i in 0..places.len() {
        places[i] = carried(places[i], run, total, after);
    }
}
