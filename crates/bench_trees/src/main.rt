//! Makes trees, ropes and trees of marks of the given size, reads and changes them, and prints a check of what it read.
//! On standard error it says how many nodes it opened or made.
//!
//! The words are what to do, the number of items, bytes or marks, and how often: `seek 1000000 1000000`. `bench/trees`
//! times it. With no words it checks on a small tree that a change of a copy leaves the tree as it was.
#![tactic(auto)]

ghost use Rattle.std.specs.Prelude.{◌≤◌, All};

mod entry;
mod marks;
mod ropes;
mod work;

use cell_units::{NoMemory, Steps};
use entry::Entry;
use mark_tree::MarkTree;
use std::alloc::Global;
use std::{env, io};
use sum_core::NoLoad;
use sum_tree::SumTree;
use text_rope::Rope;
use work::{build, change_copies, count_apart, push_each, replace_each, seek_each};

/// What to do, on how many items or bytes and how often.
#[derive(Drop)]
struct Order {
    task: Task,
    items: u32,
    times: u32,
}

#[derive(Clone, Copy)]
enum Task {
    Build,
    Push,
    Seek,
    Replace,
    Share,
    Check,
    Rope,
    Letters,
    Offsets,
    Points,
    Marks,
    Shifts,
    Places,
}

impl Order {
    /// The order that the words give, with a small one for each word that is missing or no number.
    fn read(rt: &HostRuntime) -> io::Result<Order> {
        let mut task = Task::Check;
        let mut numbers = [100, 100];
        for (place, word) in env::args(rt)?.enumerate() {
            match place {
                1 => task = Task::named(word.as_str()),
                2 | 3 => numbers[place - 2] = word.parse::<u32>().unwrap_or(100),
                _ => {}
            }
        }
        Ok(Order {
            task,
            items: numbers[0],
            times: numbers[1],
        })
    }
}

impl Task {
    fn named(word: &str) -> Task {
        match word {
            "build" => Task::Build,
            "push" => Task::Push,
            "replace" => Task::Replace,
            "seek" => Task::Seek,
            "share" => Task::Share,
            "rope" => Task::Rope,
            "letters" => Task::Letters,
            "offsets" => Task::Offsets,
            "points" => Task::Points,
            "marks" => Task::Marks,
            "shifts" => Task::Shifts,
            "places" => Task::Places,
            _ => Task::Check,
        }
    }
}

/// The check of what was read, or none where memory ran out or there can be no such text.
fn carry_out(alloc: Global, order: &Order, steps: &mut Steps) -> Option<u64> {
    match order.task {
        Task::Rope | Task::Letters | Task::Offsets | Task::Points => on_rope(alloc, order, steps),
        Task::Marks | Task::Shifts | Task::Places => on_marks(alloc, order, steps),
        _ => on_tree(alloc, order, steps).ok(),
    }
}

fn on_tree(alloc: Global, order: &Order, steps: &mut Steps) -> Result<u64, NoMemory> {
    let mut tree = match order.task {
        Task::Push | Task::Check => push_each(alloc, order.items, steps)?,
        _ => build(alloc, order.items, steps)?,
    };
    on_built_tree(alloc, &mut tree, order, steps)
}

fn on_built_tree(
    alloc: Global,
    tree: &mut SumTree<Entry>,
    order: &Order,
    steps: &mut Steps,
) -> Result<u64, NoMemory> {
    match order.task {
        Task::Seek => Ok(seek_each(tree, order.times, steps)),
        Task::Replace => replace_each(alloc, tree, order.times, steps),
        Task::Share => change_copies(alloc, tree, order.times, steps),
        Task::Check => count_apart(alloc, tree, steps),
        _ => Ok(tree.len() as u64),
    }
}

fn on_rope(alloc: Global, order: &Order, steps: &mut Steps) -> Option<u64> {
    let mut rope = ropes::build(alloc, order.items, steps).ok()?;
    on_built_rope(alloc, &mut rope, order, steps)
}

fn on_built_rope(alloc: Global, rope: &mut Rope, order: &Order, steps: &mut Steps) -> Option<u64> {
    match order.task {
        Task::Letters => ropes::replace_letters(alloc, rope, order.times, steps).ok(),
        Task::Offsets => Some(ropes::find_offsets(rope, order.times, steps)),
        Task::Points => Some(ropes::find_points(rope, order.times, steps)),
        _ => Some(rope.line_count() as u64),
    }
}

fn on_marks(alloc: Global, order: &Order, steps: &mut Steps) -> Option<u64> {
    let mut tree = marks::build(alloc, order.items, steps).ok()?;
    on_built_marks(alloc, &mut tree, order, steps)
}

fn on_built_marks(
    alloc: Global,
    tree: &mut MarkTree<NoLoad>,
    order: &Order,
    steps: &mut Steps,
) -> Option<u64>
    requires { All (λ m. m.offset ≤ 33554432) tree.old }
{
    match order.task {
        Task::Shifts => marks::shift_each(alloc, tree, order.times, steps).ok(),
        Task::Places => Some(marks::find_each(tree, order.times, steps)),
        _ => Some(tree.len() as u64),
    }
}

fn main(rt: HostRuntime) -> io::Result<()> {
    let order = Order::read(&rt)?;
    let mut steps = Steps::new();
    match carry_out(rt.alloc(), &order, &mut steps) {
        Some(check) => println!(rt; "{check}")?,
        None => println!(rt; "no memory, or no such text")?,
    }
    eprintln!(rt; "{steps:?}")
}
