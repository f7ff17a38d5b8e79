//! Opens a text, wraps all of its lines, and moves a caret or selects rows on one view of it. It prints a check of
//! where the carets went.
//!
//! The words are what to do, the kind of text, its size in bytes, how often, and how many inlays, folds and blocks
//! there are. An example is `right long 4194304 10000 60`. `bench/moves` times it. With no words it moves a caret three
//! times on ten short lines.
#![tactic(auto)]

mod moves;
mod opening;
mod text;

use cell_units::{Fault, Motion, Steps};
use display_map::View;
use std::alloc::Global;
use std::{env, io};
use text::Kind;

/// What to do, on which text and how often.
#[derive(Clone, Copy)]
struct Order {
    task: Task,
    kind: Kind,
    bytes: u32,
    times: u32,
    entries: u32,
}

#[derive(Clone, Copy)]
enum Task {
    /// The text is opened, and that is all.
    Open,
    Move { motion: Motion },
    Select,
}

impl Task {
    fn named(word: &str) -> Task {
        match word {
            "left" => Task::Move {
                motion: Motion::Left,
            },
            "right" => Task::Move {
                motion: Motion::Right,
            },
            "up" => Task::Move { motion: Motion::Up },
            "down" => Task::Move {
                motion: Motion::Down,
            },
            "start" => Task::Move {
                motion: Motion::Start,
            },
            "end" => Task::Move {
                motion: Motion::End,
            },
            "select" => Task::Select,
            _ => Task::Open,
        }
    }
}

impl Order {
    /// The order that the words give, with a small one for each word that is missing or no number.
    fn read(rt: &HostRuntime) -> io::Result<Order> {
        let mut order = Order {
            task: Task::Move {
                motion: Motion::Right,
            },
            kind: Kind::Short,
            bytes: 230,
            times: 3,
            entries: 0,
        };
        for (place, word) in env::args(rt)?.enumerate() {
            match place {
                1 => order.task = Task::named(word.as_str()),
                2 => order.kind = Kind::named(word.as_str()),
                3 => order.bytes = word.parse::<u32>().unwrap_or(230),
                4 => order.times = word.parse::<u32>().unwrap_or(3),
                5 => order.entries = word.parse::<u32>().unwrap_or(0),
                _ => {}
            }
        }
        Ok(order)
    }
}

/// Does the task on a view, and returns its check.
fn carry_out(alloc: Global, view: &View, order: Order, steps: &mut Steps) -> Result<u64, Fault> {
    match order.task {
        Task::Open => Ok(u64::from(view.row_count())),
        Task::Move { motion } => Ok(moves::carets(alloc, view, motion, order.times, steps)?),
        Task::Select => Ok(moves::selections(alloc, view, order.times, steps)?),
    }
}

/// Opens the text and does the task.
fn run(alloc: Global, order: Order, steps: &mut Steps) -> Result<u64, Fault> {
    let text = text::of_kind(alloc, order.kind, order.bytes)?;
    let view = opening::view_of(alloc, &text, order.entries, steps)?;
    carry_out(alloc, &view, order, steps)
}

fn main(rt: HostRuntime) -> io::Result<()> {
    let order = Order::read(&rt)?;
    match run(rt.alloc(), order, &mut Steps::new()) {
        Ok(check) => println!(rt; "{check}"),
        Err(fault) => println!(rt; "{fault:?}"),
    }
}
