//! Makes a text of lines with inlays evenly spread, asks a map of them and changes it, and prints a check of what it
//! read. On standard error it says how many nodes it opened or made.
//!
//! The words are what to do, the bytes of the text, the number of inlays, and how often: `letters 33554432 65536
//! 100000`. `bench/maps` times it. With no words it checks on a small text that a snapshot shows each inlay at its
//! place, and that no later letter reaches it.
#![tactic(auto)]

mod changes;
mod laid;
mod looks;
mod text;

use cell_units::{Fault, NoMemory, Steps};
use inlay_map::InlaySnapshot;
use laid::{FIRST, Laid};
use std::alloc::Global;
use std::{env, io};

/// A number for each word that is missing or none.
const SMALL: u32 = 100;

/// What to do, on how many bytes and inlays and how often.
#[derive(Drop)]
struct Order {
    task: Task,
    bytes: u32,
    inlays: u32,
    times: u32,
}

#[derive(Clone, Copy)]
enum Task {
    Build,
    Letters,
    Scattered,
    Met,
    Boundaries,
    Places,
    Points,
    Backs,
    Above,
    Below,
    Between,
    First,
    Last,
    Shares,
    Check,
}

impl Order {
    /// The order that the words give, with a small one for each word that is missing or no number.
    fn read(rt: &HostRuntime) -> io::Result<Order> {
        let mut order = Order {
            task: Task::Check,
            bytes: 6400,
            inlays: SMALL,
            times: SMALL,
        };
        for (place, word) in env::args(rt)?.enumerate() {
            let word = word.as_str();
            match place {
                1 => order.task = Task::named(word),
                2 => order.bytes = word.parse::<u32>().unwrap_or(SMALL),
                3 => order.inlays = word.parse::<u32>().unwrap_or(SMALL),
                4 => order.times = word.parse::<u32>().unwrap_or(SMALL),
                _ => {}
            }
        }
        Ok(order)
    }
}

impl Task {
    fn named(word: &str) -> Task {
        match word {
            "build" => Task::Build,
            "letters" => Task::Letters,
            "scattered" => Task::Scattered,
            "met" => Task::Met,
            "boundaries" => Task::Boundaries,
            "places" => Task::Places,
            "points" => Task::Points,
            "backs" => Task::Backs,
            "above" => Task::Above,
            "below" => Task::Below,
            "between" => Task::Between,
            "first" => Task::First,
            "last" => Task::Last,
            "shares" => Task::Shares,
            _ => Task::Check,
        }
    }
}

/// The check of what was read. A fault is out of memory, or that there can be no such text or no such inlay.
fn carry_out(alloc: Global, order: &Order, steps: &mut Steps) -> Result<u64, Fault> {
    let mut laid = Laid::build(alloc, order.bytes, order.inlays, steps)?;
    play(alloc, &mut laid, order, steps)
}

/// The check of what is read of a text under inlays, or done to it.
fn play(alloc: Global, laid: &mut Laid, order: &Order, steps: &mut Steps) -> Result<u64, Fault> {
    match order.task {
        Task::Build => Ok(order.inlays as u64),
        Task::Check => looks::check(alloc, laid, order.inlays, steps),
        Task::Letters | Task::Scattered | Task::Met => edit(alloc, laid, order, steps),
        Task::Boundaries | Task::Places | Task::Points | Task::Backs | Task::Shares => {
            Ok(ask(&laid.show(alloc, steps)?, order)?)
        }
        _ => note(alloc, laid, order, steps),
    }
}

/// The check of what letters do.
fn edit(alloc: Global, laid: &mut Laid, order: &Order, steps: &mut Steps) -> Result<u64, Fault> {
    match order.task {
        Task::Letters => changes::letters_in_the_middle(alloc, laid, order.times, steps),
        Task::Scattered => changes::scattered_letters(alloc, laid, order.times, steps),
        _ => changes::letters_at_inlays(alloc, laid, order.inlays, order.times, steps),
    }
}

/// The check of what inlays do that are added or removed.
fn note(alloc: Global, laid: &mut Laid, order: &Order, steps: &mut Steps) -> Result<u64, Fault> {
    let above = FIRST.wrapping_add(order.inlays);
    match order.task {
        Task::Above => changes::add_up_from(alloc, laid, above, order.times, steps),
        Task::Below => changes::add_down_from(alloc, laid, FIRST - 1, order.times, steps),
        Task::Between => changes::add_up_from(alloc, laid, 0, order.times, steps),
        Task::First => changes::remove_first(alloc, laid, order.times, steps),
        _ => changes::remove_last(alloc, laid, order.inlays, order.times, steps),
    }
}

/// The check of what a snapshot returns.
fn ask(layer: &InlaySnapshot, order: &Order) -> Result<u64, NoMemory> {
    match order.task {
        Task::Boundaries => Ok(looks::boundaries(layer, order.times)),
        Task::Places => Ok(looks::places(layer, order.times)),
        Task::Points => Ok(looks::points(layer, order.times)),
        Task::Backs => Ok(looks::backs(layer, order.times)),
        _ => looks::shares(layer, order.times),
    }
}

fn main(rt: HostRuntime) -> io::Result<()> {
    let order = Order::read(&rt)?;
    let mut steps = Steps::new();
    match carry_out(rt.alloc(), &order, &mut steps) {
        Ok(check) => println!(rt; "{check}")?,
        Err(fault) => println!(rt; "{fault:?}")?,
    }
    eprintln!(rt; "{steps:?}")
}
