//! Trees of marks with one more or one less, where it is known whether its id is there.
ghost use Rattle.std.specs.Prelude.{◌≡◌, ◌+◌, ◌^◌, ◌<◌, ◌≤◌, ◌++◌, ◌∷◌, Some, true, false, length, filter, option_map, slice_get, take, drop, IfOk};
ghost use Rattle.std.specs.List.{list_any};
ghost use Rattle.cell_units.specs.Sorting.{insert_by};
ghost use Rattle.mark_tree.specs.Bounds.{SearchesAndTakes, changing};
ghost use Rattle.mark_tree.specs.Marks.{has_id, lacks_id, mark_le};

use cell_units::{Fault, NoMemory, Steps};
use mark_tree::{Mark, MarkTree};
use std::alloc::Global;
use sum_core::Load;

/// The tree with a mark of an id that isn't there, and the mark's place.
pub(crate) fn with_new<P: Load>(
    tree: &MarkTree<P>,
    alloc: Global,
    mark: Mark<P>,
    steps: &mut Steps,
) -> Result<(u32, MarkTree<P>), NoMemory>
    // No mark has the id, and with one more the number is still a u32.
    requires room { length tree.now + 1 < 2 ^ 32 }
    requires unused { list_any (has_id mark.id) tree.now ≡ false }

    // The marks in order with it, where it is at the place.
    ensures ok { IfOk result (λ r. r.1 ≡ insert_by mark_le mark tree.now) }
    ensures place { IfOk result (λ r. r.1 ≡ take r.0 tree.now ++ mark ∷ drop r.0 tree.now) }
    ensures within { IfOk result (λ r. r.0 ≤ length tree.now) }

    // The work: every mark may be looked at for the id.
    ensures counted { steps.old ≤ steps.new }
    ensures steps { SearchesAndTakes changing (length tree.now + 1) steps.old steps.new }
{
    let count = tree.len();
    let mut next = tree.share()?;
    match next.insert(alloc, mark, steps) {
        Ok(at) => Ok((at.min(count), next)),
        Err(Fault::NoMemory) => Err(NoMemory),
        Err(Fault::Refused(_)) => unreachable!(),
    }
}

/// The tree without the mark of an id that is there, and the place at which that was.
pub(crate) fn without_known<P: Load>(
    tree: &MarkTree<P>,
    alloc: Global,
    id: u32,
    steps: &mut Steps,
) -> Result<(u32, MarkTree<P>), NoMemory>
    // A mark has the id.
    requires { list_any (has_id id) tree.now ≡ true }

    // All marks but the one at the place, and that has the id.
    ensures rest { IfOk result (λ r. r.1 ≡ take r.0 tree.now ++ drop (r.0 + 1) tree.now) }
    ensures id { IfOk result (λ r. option_map (λ m. m.id) (slice_get tree.now r.0) ≡ Some id) }

    // The work: every mark may be looked at for the id.
    ensures counted { steps.old ≤ steps.new }
    ensures steps { SearchesAndTakes changing (length tree.now) steps.old steps.new }
{
    let mut next = tree.share()?;
    match next.remove(alloc, id, steps) {
        Ok((at, _)) => Ok((at, next)),
        Err(Fault::NoMemory) => Err(NoMemory),
        Err(Fault::Refused(_)) => unreachable!(),
    }
}

/// The tree without the mark of an id, if it is there.
pub(crate) fn without_any<P: Load>(
    tree: &MarkTree<P>,
    alloc: Global,
    id: u32,
    steps: &mut Steps,
) -> Result<MarkTree<P>, NoMemory>
    ensures ok { IfOk result (λ t. t ≡ filter (lacks_id id) tree.now) }
    ensures counted { steps.old ≤ steps.new }
    ensures steps { SearchesAndTakes changing (length tree.now) steps.old steps.new }
{
    let mut next = tree.share()?;
    match next.remove(alloc, id, steps) {
        Ok(_) => Ok(next),
        Err(Fault::NoMemory) => Err(NoMemory),
        // It isn't there.
        Err(Fault::Refused(_)) => Ok(next),
    }
}
