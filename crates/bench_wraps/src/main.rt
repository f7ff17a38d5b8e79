//! Makes a text of short lines under the maps of its lines and rows, wraps it, changes it and asks it, and prints a
//! check of what it read. On standard error it says how many nodes it opened or made.
//!
//! The words are what to do, the number of lines, the width in cells, how often, and of how many lines one is long (0:
//! none is): `letters 1000000 80 100000 16`. `bench/wraps` times it. With no words it wraps a small text, changes a
//! letter of it, and counts its rows.
#![tactic(auto)]

mod changes;
mod looks;
mod text;

use cell_units::{Fault, Steps};
use std::alloc::Global;
use std::{env, io};
use test_stages::StagedText;

/// What to do, on how many lines, at which width and how often.
#[derive(Drop)]
struct Order {
    task: Task,
    lines: u32,
    width: u32,
    times: u32,
    /// Of so many lines one is long.
    group: u32,
}

#[derive(Clone, Copy)]
enum Task {
    Build,
    New,
    Cuts,
    Wrap,
    Letters,
    LineAt,
    RowsBefore,
    Check,
}

impl Order {
    /// The order that the words give, with a small one for each word that is missing or no number.
    fn read(rt: &HostRuntime) -> io::Result<Order> {
        let mut task = Task::Check;
        let mut numbers = [160, 80, 100, 16];
        for (place, word) in env::args(rt)?.enumerate() {
            match place {
                1 => task = Task::named(word.as_str()),
                2 | 3 | 4 | 5 => numbers[place - 2] = word.parse::<u32>().unwrap_or(100),
                _ => {}
            }
        }
        Ok(Order {
            task,
            lines: numbers[0],
            width: numbers[1],
            times: numbers[2],
            group: numbers[3],
        })
    }
}

impl Task {
    fn named(word: &str) -> Task {
        match word {
            "build" => Task::Build,
            "new" => Task::New,
            "cuts" => Task::Cuts,
            "wrap" => Task::Wrap,
            "letters" => Task::Letters,
            "line_at" => Task::LineAt,
            "rows_before" => Task::RowsBefore,
            _ => Task::Check,
        }
    }
}

/// The check of what was read. A fault is out of memory, or that there can be no such text or no such width.
fn carry_out(alloc: Global, order: &Order, steps: &mut Steps) -> Result<u64, Fault> {
    let mut text = text::of_lines(alloc, order.lines, order.group, order.width, steps)?;
    match order.task {
        Task::Build => Ok(order.lines as u64),
        Task::New => Ok(changes::maps_anew(alloc, &text, order.times, steps)?),
        Task::Cuts => Ok(looks::cuts(alloc, &text)?),
        _ => wrap_and(alloc, &mut text, order, steps),
    }
}

/// Wraps all lines, and then does what is to be done with them.
fn wrap_and(
    alloc: Global,
    text: &mut StagedText,
    order: &Order,
    steps: &mut Steps,
) -> Result<u64, Fault> {
    changes::wrap_all(alloc, text, steps)?;
    match order.task {
        Task::Letters => changes::letters(
            alloc,
            text,
            order.lines,
            order.group,
            order.times,
            steps,
        ),
        Task::LineAt => Ok(looks::lines_of_rows(text.lines.rows(), order.times)),
        Task::RowsBefore => Ok(looks::rows_before_lines(text.lines.rows(), order.times)),
        Task::Check => {
            changes::letters(alloc, text, order.lines, order.group, 1, steps)?;
            Ok(looks::rows(text.lines.rows()))
        }
        _ => Ok(looks::rows(text.lines.rows())),
    }
}

fn main(rt: HostRuntime) -> io::Result<()> {
    let order = Order::read(&rt)?;
    let mut steps = Steps::new();
    match carry_out(rt.alloc(), &order, &mut steps) {
        Ok(check) => println!(rt; "{check}")?,
        Err(fault) => println!(rt; "{fault:?}")?,
    }
    eprintln!(rt; "{steps:?}")
}
