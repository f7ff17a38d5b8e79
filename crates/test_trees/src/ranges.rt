//! Worked rows of ranges.
ghost use Rattle.std.specs.Prelude.{◌≡◌, [], ◌∷◌, OnOk};
ghost use Rattle.test_trees.specs.Tested.{range_of};

use cell_units::{Fault, NoMemory, Refusal, Shift, Steps};
use mark_tree::{RangeMark, RangeTree};
use std::alloc::Global;
use std::test::Fail;

/// The range of this id from `start` to `end`.
fn range(start: u32, end: u32, id: u32) -> RangeMark
    ensures { result ≡ range_of start end id }
{
    RangeMark { start, end, id }
}

/// Adds both ranges, the second before the first.
fn add_both(alloc: Global, tree: &mut RangeTree, steps: &mut Steps) -> Result<(), Fault>
    requires { tree.old ≡ [] }
    ensures { OnOk result (tree.new ≡ range_of 1 4 1 ∷ range_of 3 6 2 ∷ []) }
{
    tree.insert(alloc, range(3, 6, 2), steps)?;
    tree.insert(alloc, range(1, 4, 1), steps)
}

/// Whether just these ranges have a byte in common with those from `start` to `end`.
fn meets(
    alloc: Global,
    tree: &RangeTree,
    start: u32,
    end: u32,
    ranges: &[RangeMark],
    steps: &mut Steps,
) -> Result<bool, NoMemory> {
    let met = tree.meeting(alloc, start, end, steps)?;
    Ok(met.as_slice() == ranges)
}

/// Of the ranges 1 [1, 4) and 2 [3, 6) just the second has byte 4, and there is no other of its id.
#[test]
fn ranges_are_met_and_have_their_ids_alone(rt: HostRuntime) -> Result<(), Fail> {
    let alloc = rt.alloc();
    let mut steps = Steps::new();
    let mut tree = RangeTree::new(alloc);
    add_both(alloc, &mut tree, &mut steps)?;
    assert!(rt; meets(alloc, &tree, 4, 5, &[range(3, 6, 2)], &mut steps)?);
    let again = tree.insert(alloc, range(3, 6, 2), &mut steps);
    assert_eq!(rt; again, Err(Fault::Refused(Refusal::IdInUse)));
    Ok(())
}

/// Of these ranges a deletion of [1, 4) empties the first, which is dropped, and shortens the second. A copy that was
/// shared before has both.
#[test]
fn ranges_are_shortened_and_dropped(rt: HostRuntime) -> Result<(), Fail> {
    let alloc = rt.alloc();
    let mut steps = Steps::new();
    let deletion = Shift {
        start: 1,
        end: 4,
        count: 0,
    };
    let mut tree = RangeTree::new(alloc);
    add_both(alloc, &mut tree, &mut steps)?;
    let copy = tree.share()?;
    let dropped = tree.apply(alloc, deletion, &mut steps)?;
    assert_eq!(rt; (dropped.as_slice(), tree.len()), ([1].as_slice(), 1));
    let first = tree.remove(alloc, 1, &mut steps);
    let second = tree.remove(alloc, 2, &mut steps);
    assert_eq!(rt;
        (first, second),
        (Err(Fault::Refused(Refusal::UnknownId)), Ok(range(1, 3, 2)))
    );
    assert!(rt;
        meets(
            alloc,
            &copy,
            0,
            9,
            &[range(1, 4, 1), range(3, 6, 2)],
            &mut steps
        )?
    );
    Ok(())
}

/// Adds two ranges that start at 1, of which the longer one has the lesser id, and one after them. Puts one byte in the
/// place of [3, 7), and returns the ids of what is dropped.
fn replace_ends(alloc: Global, tree: &mut RangeTree, steps: &mut Steps) -> Result<Vec<u32>, Fault>
    requires { tree.old ≡ [] }
{
    tree.insert(alloc, range(1, 5, 9), steps)?;
    tree.insert(alloc, range(1, 6, 4), steps)?;
    tree.insert(alloc, range(8, 10, 8), steps)?;
    let replacement = Shift {
        start: 3,
        end: 7,
        count: 1,
    };
    Ok(tree.apply(alloc, replacement, steps)?)
}

/// Of ranges that start before the replaced bytes [3, 7), for which one byte comes, the ends move. Of two that start at
/// 1 the longer one has the lesser id and comes to the same end.
#[test]
fn ranges_that_start_before_a_replacement_are_sorted_again(rt: HostRuntime) -> Result<(), Fail> {
    let alloc = rt.alloc();
    let mut steps = Steps::new();
    let expected = [range(1, 4, 4), range(1, 4, 9), range(5, 7, 8)];
    let mut tree = RangeTree::new(alloc);
    let dropped = replace_ends(alloc, &mut tree, &mut steps)?;
    assert!(rt; dropped.is_empty());
    assert!(rt; meets(alloc, &tree, 0, 99, &expected, &mut steps)?);
    Ok(())
}
