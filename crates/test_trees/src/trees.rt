//! Trees of weights.
ghost use Rattle.std.specs.Prelude.{◌≡◌, ◌+◌, ◌≤◌, ◌++◌, length, take, drop};
ghost use Rattle.sum_core.specs.Sums.{total};

use crate::weights::{AtLeast, Tally, Weight};
use cell_units::{Bias, NoMemory, Steps};
use std::alloc::Global;
use std::test::Fail;
use sum_core::{Item, Summary};
use sum_tree::SumTree;

/// The first place that has another weight than this, or has one too few or too many.
fn first_other(tree: &SumTree<Weight>, weights: &[u32], steps: &mut Steps) -> Option<u32> {
    for at in 0..=tree.len() {
        let found = tree.get(at, steps).map(|item| item.0);
        if found != weights.get(at as usize).copied() {
            return Some(at);
        }
    }
    None
}

/// What a cursor does.
#[derive(Clone, Copy)]
enum Move {
    Stay,
    Seek(u64, Bias),
    Next,
    Prev,
}

/// A move, and then the weight that the cursor is on, and the sums before and with it.
type Stop = (Move, Option<u32>, u64, u64);

/// The number of the first stop at which a new cursor is elsewhere.
fn first_wrong_stop(tree: &SumTree<Weight>, stops: &[Stop], steps: &mut Steps) -> Option<usize> {
    let mut cursor = tree.cursor::<u64>();
    for (at, stop) in stops.iter().enumerate() {
        let (step, weight, start, end) = *stop;
        match step {
            Move::Stay => {}
            Move::Seek(target, bias) => cursor.seek(target, bias, steps),
            Move::Next => cursor.next(steps),
            Move::Prev => cursor.prev(steps),
        }
        let found = cursor.item().map(|item| item.0);
        if found != weight || cursor.start() != start || cursor.end() != end {
            return Some(at);
        }
    }
    None
}

/// In [5, 3, 4] the first item's end is at least 5, and the second's is greater.
#[test]
fn cursor_seek_is_left_or_right_of_a_boundary(rt: HostRuntime) -> Result<(), Fail> {
    let alloc = rt.alloc();
    let mut steps = Steps::new();
    let stops = [
        (Move::Stay, None, 0, 0),
        (Move::Seek(5, Bias::Left), Some(5), 0, 5),
        (Move::Seek(5, Bias::Right), Some(3), 5, 8),
        (Move::Next, Some(4), 8, 12),
        (Move::Next, None, 12, 12),
        (Move::Prev, Some(4), 8, 12),
        (Move::Seek(12, Bias::Right), None, 12, 12),
    ];
    let items = Vec::from_array(alloc, [Weight(5), Weight(3), Weight(4)])?;
    let tree = SumTree::from_vec(alloc, items, &mut steps)?;
    assert_eq!(rt; first_wrong_stop(&tree, &stops, &mut steps), None);
    Ok(())
}

/// [5, 3, 4] is cut into [5] and [3, 4], and joined again.
#[test]
fn split_and_concat_give_the_list_again(rt: HostRuntime) -> Result<(), Fail> {
    let alloc = rt.alloc();
    let mut steps = Steps::new();
    let items = Vec::from_array(alloc, [Weight(5), Weight(3), Weight(4)])?;
    let mut tree = SumTree::from_vec(alloc, items, &mut steps)?;
    let back = tree.split_off(alloc, 1, &mut steps)?;
    assert_eq!(rt; first_other(&tree, &[5], &mut steps), None);
    assert_eq!(rt; first_other(&back, &[3, 4], &mut steps), None);
    tree.concat(alloc, back, &mut steps)?;
    assert_eq!(rt; first_other(&tree, &[5, 3, 4], &mut steps), None);
    assert_eq!(rt; tree.sum().total, 12);
    Ok(())
}

/// [5, 9, 9, 4] and then [5, 9, 9, 4, 1], while a copy that was shared before is still [5, 3, 4].
#[test]
fn replace_and_push_leave_a_shared_copy(rt: HostRuntime) -> Result<(), Fail> {
    let alloc = rt.alloc();
    let mut steps = Steps::new();
    let items = Vec::from_array(alloc, [Weight(5), Weight(3), Weight(4)])?;
    let nines = Vec::from_array(alloc, [Weight(9), Weight(9)])?;
    let mut tree = SumTree::from_vec(alloc, items, &mut steps)?;
    let copy = tree.share()?;
    tree.replace(alloc, 1, 2, nines, &mut steps)?;
    assert_eq!(rt; first_other(&tree, &[5, 9, 9, 4], &mut steps), None);
    tree.push(alloc, Weight(1), &mut steps)?;
    assert_eq!(rt; first_other(&tree, &[5, 9, 9, 4, 1], &mut steps), None);
    assert_eq!(rt; first_other(&copy, &[5, 3, 4], &mut steps), None);
    Ok(())
}

/// 9 in the place of 3, 7 before it and 1 at the end make [5, 7, 9, 4, 1] of [5, 3, 4]. A shared copy still is that.
#[test]
fn single_items_are_put_where_they_belong(rt: HostRuntime) -> Result<(), Fail> {
    let alloc = rt.alloc();
    let mut steps = Steps::new();
    let items = Vec::from_array(alloc, [Weight(5), Weight(3), Weight(4)])?;
    let nine = Vec::from_array(alloc, [Weight(9)])?;
    let seven = Vec::from_array(alloc, [Weight(7)])?;
    let mut tree = SumTree::from_vec(alloc, items, &mut steps)?;
    let copy = tree.share()?;
    tree.replace(alloc, 1, 2, nine, &mut steps)?;
    tree.replace(alloc, 1, 1, seven, &mut steps)?;
    tree.push(alloc, Weight(1), &mut steps)?;
    assert_eq!(rt; first_other(&tree, &[5, 7, 9, 4, 1], &mut steps), None);
    assert_eq!(rt; tree.sum().total, 26);
    assert_eq!(rt; first_other(&copy, &[5, 3, 4], &mut steps), None);
    Ok(())
}

/// A seek among 1,000,000 items makes at most 8 steps.
fn seek_among_a_million(tree: &SumTree<Weight>, target: u64, steps: &mut Steps)
    requires { length tree.now ≡ 1000000 }
    ensures { steps.new ≤ steps.old + 8 }
{
    let mut cursor = tree.cursor::<u64>();
    cursor.seek(target, Bias::Left, steps);
}

/// The height of a tree of 1,000,000 items is at most 7.
fn height_of_a_million(tree: &SumTree<Weight>) -> u32
    requires { length tree.now ≡ 1000000 }
    ensures { result ≤ 7 }
{
    tree.height()
}

/// One item of a million is replaced by one in at most 1,204 steps.
fn replace_one_of_a_million(
    alloc: Global,
    tree: &mut SumTree<Weight>,
    at: u32,
    items: Vec<Weight>,
    steps: &mut Steps,
) -> Result<(), NoMemory>
    // There are a million items, one takes the place of one, and what they sum up to then fits.
    requires million { length tree.old ≡ 1000000 }
    requires at { at + 1 ≤ 1000000 }
    requires one { length items.items ≡ 1 }
    requires fits { let after = take at tree.old ++ items.items ++ drop (at + 1) tree.old in
        let tally = ⟦<Tally as Summary>⟧ in
        tally.fits (total tally.empty tally.joined ⟦<Weight as Item>⟧.summary after) }

    // The work: what a replacement by one item takes in a tree of that height.
    ensures { steps.new ≤ steps.old + 1204 }
{
    tree.replace(alloc, at, at + 1, items, steps)
}

/// In [5, 3, 9, 9] the first item of at least 6 is the third, and none is of at least 10.
#[test]
fn position_is_of_the_first_item_that_passes(rt: HostRuntime) -> Result<(), Fail> {
    let alloc = rt.alloc();
    let mut steps = Steps::new();
    let items = Vec::from_array(alloc, [Weight(5), Weight(3), Weight(9), Weight(9)])?;
    let tree = SumTree::from_vec(alloc, items, &mut steps)?;
    let six = tree.position(&AtLeast(6), &mut steps);
    let ten = tree.position(&AtLeast(10), &mut steps);
    assert_eq!(rt; (six, ten), (Some(2), None));
    Ok(())
}
