//! Worked rows of marks.
ghost use Rattle.std.specs.Prelude.{◌≡◌, [], IfOk};
ghost use Rattle.test_trees.specs.Tested.{HasPlace};

use cell_units::{Bias, Fault, Refusal, Shift, Steps, Text};
use mark_tree::{Mark, MarkTree};
use std::alloc::Global;
use std::test::Fail;

/// A mark with the load `x`.
pub(crate) fn mark(alloc: Global, offset: u32, bias: Bias, id: u32) -> Result<Mark<Text>, Fail>
    ensures { IfOk result (HasPlace offset bias id) }
{
    let load = Text::from_str(alloc, "x")?;
    Ok(Mark {
        offset,
        bias,
        id,
        load,
    })
}

/// Adds two marks at 3, first the Right one, and then puts in 2 bytes there. It returns the place that the second had.
fn insert_at_three(alloc: Global, tree: &mut MarkTree<Text>, steps: &mut Steps) -> Result<u32, Fail>
    requires { tree.old ≡ [] }
{
    let right = mark(alloc, 3, Bias::Right, 2)?;
    tree.insert(alloc, right, steps)?;
    let left = mark(alloc, 3, Bias::Left, 1)?;
    let place = tree.insert(alloc, left, steps)?;
    let insertion = Shift {
        start: 3,
        end: 3,
        count: 2,
    };
    tree.apply(alloc, insertion, steps)?;
    Ok(place)
}

/// The first place that has another mark than this, or one with another load than `x`, or has one too few or too many.
fn first_other_mark(
    tree: &MarkTree<Text>,
    marks: &[(u32, Bias, u32)],
    steps: &mut Steps,
) -> Option<u32> {
    for at in 0..=tree.len() {
        let is_it = match (tree.get(at, steps), marks.get(at as usize)) {
            (Some((offset, bias, id, load)), Some(mark)) => {
                (offset, bias, id) == *mark && load.as_str() == "x"
            }
            (None, None) => true,
            _ => false,
        };
        if !is_it {
            return Some(at);
        }
    }
    None
}

/// The first offset at or after which another mark is the first.
fn first_wrong_offset(
    tree: &MarkTree<Text>,
    offsets: &[(u32, Option<u32>)],
    steps: &mut Steps,
) -> Option<u32> {
    for (offset, place) in offsets {
        if tree.at_or_after(*offset, steps) != *place {
            return Some(*offset);
        }
    }
    None
}

/// At an insertion of 2 bytes at 3 a Left mark stays and a Right mark goes to their end.
#[test]
fn marks_stay_left_and_go_right_of_an_insertion(rt: HostRuntime) -> Result<(), Fail> {
    let alloc = rt.alloc();
    let mut steps = Steps::new();
    let marks = [(3, Bias::Left, 1), (5, Bias::Right, 2)];
    let offsets = [(3, Some(0)), (4, Some(1)), (6, None)];
    let mut tree = MarkTree::new(alloc);
    assert_eq!(rt; insert_at_three(alloc, &mut tree, &mut steps)?, 0);
    assert_eq!(rt; first_other_mark(&tree, &marks, &mut steps), None);
    assert_eq!(rt; first_wrong_offset(&tree, &offsets, &mut steps), None);
    let there = tree.place_of(5, Bias::Right, 2, &mut steps);
    let between = tree.place_of(4, Bias::Left, 7, &mut steps);
    assert_eq!(rt; (there, between), (1, 1));
    Ok(())
}

/// Why another mark of the id 2 is refused, if it is.
fn refusal_of_two(
    alloc: Global,
    tree: &mut MarkTree<Text>,
    steps: &mut Steps,
) -> Result<Option<Fault>, Fail> {
    let again = mark(alloc, 9, Bias::Left, 2)?;
    if tree.len() == u32::MAX {
        return Ok(None);
    }
    Ok(tree.insert(alloc, again, steps).err())
}

/// Removes the mark of this id, and returns its place, offset, bias and id.
fn removed(
    alloc: Global,
    tree: &mut MarkTree<Text>,
    id: u32,
    steps: &mut Steps,
) -> Result<(u32, u32, Bias, u32), Fault> {
    let (place, mark) = tree.remove(alloc, id, steps)?;
    Ok((place, mark.offset, mark.bias, mark.id))
}

/// Whether these ids and no others below 4 are there.
fn has_ids(tree: &MarkTree<Text>, ids: &[u32], steps: &mut Steps) -> bool {
    for id in 0..4 {
        if tree.contains(id, steps) != ids.contains(&id) {
            return false;
        }
    }
    tree.len() as usize == ids.len()
}

/// Of those two marks the id 2 is in use, and 1 is not there any more once it is removed. There is none of the id 9.
#[test]
fn an_id_is_added_once_and_removed_once(rt: HostRuntime) -> Result<(), Fail> {
    let alloc = rt.alloc();
    let mut steps = Steps::new();
    let mut tree = MarkTree::new(alloc);
    insert_at_three(alloc, &mut tree, &mut steps)?;
    let again = refusal_of_two(alloc, &mut tree, &mut steps)?;
    assert_eq!(rt; again, Some(Fault::Refused(Refusal::IdInUse)));
    assert!(rt; has_ids(&tree, &[1, 2], &mut steps));
    let one = removed(alloc, &mut tree, 1, &mut steps);
    assert_eq!(rt; one, Ok((0, 3, Bias::Left, 1)));
    assert!(rt; has_ids(&tree, &[2], &mut steps));
    let nine = removed(alloc, &mut tree, 9, &mut steps);
    assert_eq!(rt; nine, Err(Fault::Refused(Refusal::UnknownId)));
    Ok(())
}
