//! Makes a text of lines with inlays and folds evenly spread, asks its maps and changes them, and prints a check of
//! what it read. On standard error it says how many nodes it opened or made.
//!
//! The words are what to do, the bytes of the text, the number of inlays and of folds, and how often. An example is
//! `letters 33554432 65536 65536 100000`. `bench/folds` times it. With no words it checks on a small text that a
//! snapshot has each placeholder at its place. It checks too that no later letter reaches it.
#![tactic(auto)]

mod changes;
mod looks;
mod text;

use cell_units::{Fault, Layer, NoMemory, Steps};
use fold_map::FoldSnapshot;
use folded_text::FoldedText;
use std::alloc::Global;
use std::{env, io};
use text::FIRST;

/// What to do, on how many bytes, inlays and folds and how often.
#[derive(Drop)]
struct Order {
    task: Task,
    bytes: u32,
    inlays: u32,
    folds: u32,
    times: u32,
}

#[derive(Clone, Copy)]
enum Task {
    Build,
    Letters,
    Scattered,
    Hidden,
    Boundaries,
    Places,
    Points,
    Backs,
    Pieces,
    Above,
    Between,
    First,
    Last,
    Shares,
    Check,
}

impl Order {
    /// The order that the words give, with a small one for each word that is missing or no number.
    fn read(rt: &HostRuntime) -> io::Result<Order> {
        let mut task = Task::Check;
        let mut numbers = [6400, 100, 100, 100];
        for (place, word) in env::args(rt)?.enumerate() {
            match place {
                1 => task = Task::named(word.as_str()),
                2 | 3 | 4 | 5 => numbers[place - 2] = word.parse::<u32>().unwrap_or(100),
                _ => {}
            }
        }
        Ok(Order {
            task,
            bytes: numbers[0],
            inlays: numbers[1],
            folds: numbers[2],
            times: numbers[3],
        })
    }
}

impl Task {
    fn named(word: &str) -> Task {
        match word {
            "build" => Task::Build,
            "letters" => Task::Letters,
            "scattered" => Task::Scattered,
            "hidden" => Task::Hidden,
            "boundaries" => Task::Boundaries,
            "places" => Task::Places,
            "points" => Task::Points,
            "backs" => Task::Backs,
            "pieces" => Task::Pieces,
            "above" => Task::Above,
            "between" => Task::Between,
            "first" => Task::First,
            "last" => Task::Last,
            "shares" => Task::Shares,
            _ => Task::Check,
        }
    }
}

/// The check of what was read. A fault is out of memory, or that there can be no such text, no such inlay or no such
/// fold.
fn carry_out(alloc: Global, order: &Order, steps: &mut Steps) -> Result<u64, Fault> {
    let mut text = text::plain(alloc, order.bytes, steps)?;
    play(alloc, &mut text, order, steps)
}

/// The check of what is read of a text under its maps, or done to it, with the inlays and the folds of the order.
fn play(
    alloc: Global,
    text: &mut FoldedText,
    order: &Order,
    steps: &mut Steps,
) -> Result<u64, Fault> {
    text::fill(alloc, text, order.bytes, order.inlays, order.folds, steps)?;
    match order.task {
        Task::Build => Ok(order.folds as u64),
        Task::Check => looks::check(alloc, text, order.inlays, order.folds, steps),
        Task::Letters | Task::Scattered | Task::Hidden => edit(alloc, text, order, steps),
        Task::Above | Task::Between | Task::First | Task::Last => fold(alloc, text, order, steps),
        _ => Ok(look(alloc, text, order, steps)?),
    }
}

/// The check of what the text's snapshot returns.
fn look(
    alloc: Global,
    text: &mut FoldedText,
    order: &Order,
    steps: &mut Steps,
) -> Result<u64, NoMemory> {
    let (shown, _) = text.show(alloc, steps)?;
    ask(alloc, &shown, order)
}

/// The check of what letters do.
fn edit(
    alloc: Global,
    text: &mut FoldedText,
    order: &Order,
    steps: &mut Steps,
) -> Result<u64, Fault> {
    match order.task {
        Task::Letters => changes::letters_in_the_middle(alloc, text, order.times, steps),
        Task::Scattered => changes::scattered_letters(alloc, text, order.times, steps),
        _ => changes::hidden_letters(alloc, text, order.folds, order.times, steps),
    }
}

/// The check of what folds do that are added or taken off.
fn fold(
    alloc: Global,
    text: &mut FoldedText,
    order: &Order,
    steps: &mut Steps,
) -> Result<u64, Fault> {
    let above = FIRST.wrapping_add(order.folds);
    match order.task {
        Task::Above => changes::add_up_from(alloc, text, above, order.times, steps),
        Task::Between => changes::add_up_from(alloc, text, 0, order.times, steps),
        Task::First => changes::remove_first(alloc, text, order.times, steps),
        _ => changes::remove_last(alloc, text, order.folds, order.times, steps),
    }
}

/// The check of what a snapshot returns.
fn ask<L: Layer>(alloc: Global, layer: &FoldSnapshot<L>, order: &Order) -> Result<u64, NoMemory> {
    match order.task {
        Task::Boundaries => Ok(looks::boundaries(layer, order.times)),
        Task::Places => Ok(looks::places(layer, order.times)),
        Task::Points => Ok(looks::points(layer, order.times)),
        Task::Backs => Ok(looks::backs(layer, order.times)),
        Task::Pieces => looks::pieces(alloc, layer, order.times),
        _ => looks::shares(layer, order.times),
    }
}

fn main(rt: HostRuntime) -> io::Result<()> {
    let order = Order::read(&rt)?;
    let mut steps = Steps::new();
    match carry_out(rt.alloc(), &order, &mut steps) {
        Ok(check) => println!(rt; "{check}")?,
        Err(fault) => println!(rt; "{fault:?}")?,
    }
    eprintln!(rt; "{steps:?}")
}
