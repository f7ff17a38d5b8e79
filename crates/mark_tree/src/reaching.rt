//! Which things reach an offset.
ghost use Rattle.std.specs.Prelude.{◌≡◌, ℕ, ◌+◌, ◌*◌, ◌^◌, ◌<◌, ◌≤◌, length, IfOk};
ghost use Rattle.sum_tree.specs.Bounds.{TakesAtMost, way};
ghost use Rattle.mark_tree.specs.Bounds.{reaching};
ghost use Rattle.mark_tree.specs.Entries.{placed_from};
ghost use Rattle.mark_tree.specs.Reaching.{IsFirstReaching};

use crate::entry::Entry;
use crate::extent::ByEnd;
use crate::spaced::Spaced;
use cell_units::{Bias, NoMemory, Steps};
use std::alloc::Global;
use sum_core::Load;
use sum_tree::SumTree;

impl<P: Load> Spaced<P> {
    /// The place of the first thing, from place `at` on, that ends at or after the offset, which may be that past the
    /// last.
    pub(crate) fn first_reaching(
        &self,
        alloc: Global,
        at: u32,
        offset: u64,
        steps: &mut Steps,
    ) -> Result<u32, NoMemory>
        requires within { at ≤ length self.now }
        ensures place { IfOk result (IsFirstReaching at offset self.now) }
        ensures counted { steps.old ≤ steps.new }
        ensures steps { TakesAtMost reaching (length self.now) steps.old steps.new }
    {
        // For the proof: the number of entries is a u32, and so is each place.
        let _count = self.entries.len();
        let Some(next) = self.get(at, steps) else {
            return Ok(at);
        };
        // Mostly the thing there does.
        if next.offset as u64 + next.entry.length as u64 >= offset {
            return Ok(at);
        }
        let base = next.offset - next.entry.gap;
        if at == 0 {
            return Ok(count_short(&self.entries, base, offset, steps));
        }
        let rest = self.entries.share()?.split_off(alloc, at, steps)?;
        Ok(at + count_short(&rest, base, offset, steps))
    }
}

/// The number of the first entries that end before the offset, where the first one's gap is from the offset `base`.
fn count_short<P: Load>(
    entries: &SumTree<Entry<P>>,
    base: u32,
    offset: u64,
    steps: &mut Steps,
) -> u32
    ensures count { IsFirstReaching 0 offset (placed_from base entries.now) result }
    ensures counted { steps.old ≤ steps.new }
    ensures steps { TakesAtMost way (length entries.now) steps.old steps.new }
{
    // For the proof: the number of entries is a u32, and so is each place.
    let _count = entries.len();
    let mut cursor = entries.cursor::<ByEnd>();
    let target = ByEnd {
        end: offset.saturating_sub(base as u64),
        span: 0,
        items: 0,
    };
    cursor.seek(target, Bias::Left, steps);
    cursor.start().items as u32
}
