//! What is timed.
ghost use Rattle.std.specs.Prelude.{◌≡◌, IfOk, length};

use crate::entry::Entry;
use cell_units::{Bias, NoMemory, Steps};
use generated_input::Generator;
use std::alloc::Global;
use sum_tree::SumTree;

/// A tree of the numbers below `count`.
pub fn build(alloc: Global, count: u32, steps: &mut Steps) -> Result<SumTree<Entry>, NoMemory>
    ensures { IfOk result (λ t. length t ≡ count) }
{
    let mut items = Vec::with_capacity(alloc, count as usize)?;
    for number in 0..count {
        items.push(Entry(number))?;
    }
    SumTree::from_vec(alloc, items, steps)
}

/// The same tree, with the numbers added one by one.
pub fn push_each(alloc: Global, count: u32, steps: &mut Steps) -> Result<SumTree<Entry>, NoMemory>
    ensures { IfOk result (λ t. length t ≡ count) }
{
    let mut tree = SumTree::new(alloc);
    for number in 0..count {
        tree.push(alloc, Entry(number), steps)?;
    }
    Ok(tree)
}

/// Seeks places at random. It gives the sum of the numbers that are there.
pub fn seek_each(tree: &SumTree<Entry>, times: u32, steps: &mut Steps) -> u64 {
    let mut generator = Generator::new(1);
    let mut cursor = tree.cursor::<u64>();
    let mut check = 0;
    for _ in 0..times {
        cursor.seek(generator.below(tree.len()) as u64, Bias::Right, steps);
        if let Some(entry) = cursor.item() {
            check = entry.0.wrapping_add(check);
        }
    }
    check as u64
}

/// Replaces one item by one at a random place.
fn replace_one(
    alloc: Global,
    tree: &mut SumTree<Entry>,
    at: u32,
    number: u32,
    steps: &mut Steps,
) -> Result<(), NoMemory>
    ensures { length tree.new ≡ length tree.old }
{
    if at < tree.len() {
        let items = Vec::from_array(alloc, [Entry(number)])?;
        tree.replace(alloc, at, at + 1, items, steps)?;
    }
    Ok(())
}

/// Replaces items at random places, one at a time. It gives the number at the last place.
pub fn replace_each(
    alloc: Global,
    tree: &mut SumTree<Entry>,
    times: u32,
    steps: &mut Steps,
) -> Result<u64, NoMemory> {
    let mut generator = Generator::new(1);
    let mut at = 0;
    for number in 0..times {
        at = generator.below(tree.len());
        replace_one(alloc, tree, at, number, steps)?;
    }
    Ok(tree.get(at, steps).map_or(0, |entry| entry.0 as u64))
}

/// Replaces one item of a shared copy.
fn change_copy(
    alloc: Global,
    tree: &SumTree<Entry>,
    at: u32,
    number: u32,
    steps: &mut Steps,
) -> Result<(), NoMemory> {
    let mut copy = tree.share()?;
    replace_one(alloc, &mut copy, at, number, steps)
}

/// Shares the tree and changes the copy, over and over. It gives the number of copies.
pub fn change_copies(
    alloc: Global,
    tree: &SumTree<Entry>,
    times: u32,
    steps: &mut Steps,
) -> Result<u64, NoMemory> {
    let mut generator = Generator::new(1);
    for number in 0..times {
        change_copy(alloc, tree, generator.below(tree.len()), number, steps)?;
    }
    Ok(times as u64)
}

/// Puts the next number in the place of each item, one at a time.
fn change_each(
    alloc: Global,
    tree: &mut SumTree<Entry>,
    steps: &mut Steps,
) -> Result<(), NoMemory> {
    for at in 0..tree.len() {
        replace_one(alloc, tree, at, at.wrapping_add(1), steps)?;
    }
    Ok(())
}

/// Changes each item of a shared copy, one at a time. It gives the number of places where the tree still holds its own
/// number and the copy the next one.
pub fn count_apart(
    alloc: Global,
    tree: &SumTree<Entry>,
    steps: &mut Steps,
) -> Result<u64, NoMemory> {
    let mut copy = tree.share()?;
    change_each(alloc, &mut copy, steps)?;
    Ok(places_apart(tree, &copy, steps))
}

/// The number of places where the tree holds its own number and the copy the next one.
fn places_apart(tree: &SumTree<Entry>, copy: &SumTree<Entry>, steps: &mut Steps) -> u64 {
    let mut apart = 0;
    for at in 0..tree.len() {
        if holds(tree, at, at, steps) && holds(copy, at, at.wrapping_add(1), steps) {
            apart += 1;
        }
    }
    apart
}

/// The item at this place is this number.
fn holds(tree: &SumTree<Entry>, at: u32, number: u32, steps: &mut Steps) -> bool {
    tree.get(at, steps).is_some_and(|entry| entry.0 == number)
}
