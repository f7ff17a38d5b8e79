//! Makes a text of short lines under the maps of its lines and rows, wraps it, puts blocks between its rows, changes it
//! and asks it, and prints a check of what it read. On standard error it says how many nodes it opened or made.
//!
//! The words are what to do, the number of lines, how many blocks there are, how often, and of how many lines one is
//! long (0: none is): `blocks 1000000 65535 1000 16`. `bench/blocks` times it. With no words it wraps a small text,
//! puts blocks in it, changes letters of it and types some, and counts its rows.
#![tactic(auto)]

mod changes;
mod looks;
mod text;

use cell_units::{Fault, NoMemory, Steps};
use std::alloc::Global;
use std::{env, io};
use test_stages::BlockedText;

/// What to do, on how many lines with how many blocks, and how often.
#[derive(Drop)]
struct Order {
    task: Task,
    lines: u32,
    blocks: u32,
    times: u32,
    /// Of so many lines one is long.
    group: u32,
}

#[derive(Clone, Copy)]
enum Task {
    Wrap,
    Blocks,
    Shows,
    Letters,
    LettersBelow,
    Typed,
    TypedBelow,
    LineAt,
    TextRow,
    RowOf,
    TextAt,
    Row,
    Screens,
    ScreensByRow,
    Rows,
    Check,
}

impl Order {
    /// The order that the words give, with a small one for each word that is missing or no number.
    fn read(rt: &HostRuntime) -> io::Result<Order> {
        let mut task = Task::Check;
        let mut numbers = [160, 20, 10, 16];
        for (place, word) in env::args(rt)?.enumerate() {
            match place {
                1 => task = Task::named(word.as_str()),
                2 | 3 | 4 | 5 => numbers[place - 2] = word.parse::<u32>().unwrap_or(100),
                _ => {}
            }
        }
        Ok(Order {
            task,
            lines: numbers[0],
            blocks: numbers[1],
            times: numbers[2],
            group: numbers[3],
        })
    }
}

impl Task {
    fn named(word: &str) -> Task {
        match word {
            "wrap" => Task::Wrap,
            "blocks" => Task::Blocks,
            "shows" => Task::Shows,
            "letters" => Task::Letters,
            "letters_below" => Task::LettersBelow,
            "typed" => Task::Typed,
            "typed_below" => Task::TypedBelow,
            "line_at" => Task::LineAt,
            "text_row" => Task::TextRow,
            "row_of" => Task::RowOf,
            "text_at" => Task::TextAt,
            "row" => Task::Row,
            "screens" => Task::Screens,
            "screens_by_row" => Task::ScreensByRow,
            "rows" => Task::Rows,
            _ => Task::Check,
        }
    }
}

/// The check of what was read. A fault is out of memory, or that there can be no such text or no such block.
fn carry_out(alloc: Global, order: &Order, steps: &mut Steps) -> Result<u64, Fault> {
    let mut text = text::of_lines(alloc, order.lines, order.group, steps)?;
    with_blocks(alloc, &mut text, order, steps)
}

/// Puts the blocks between the rows of a text and does with it what is to be done.
fn with_blocks(
    alloc: Global,
    text: &mut BlockedText,
    order: &Order,
    steps: &mut Steps,
) -> Result<u64, Fault> {
    if let Task::Wrap = order.task {
        return Ok(looks::rows(text));
    }
    text::put_blocks(alloc, text, order.lines, order.blocks, order.group, steps)?;
    change(alloc, text, order, steps)
}

/// Changes a text with blocks, if that is what is to be done with it.
fn change(
    alloc: Global,
    text: &mut BlockedText,
    order: &Order,
    steps: &mut Steps,
) -> Result<u64, Fault> {
    let (lines, group, times) = (order.lines, order.group, order.times);
    match order.task {
        Task::Blocks => changes::blocks(alloc, text, lines, group, times, steps),
        Task::Shows => Ok(changes::shows(alloc, text, times, steps)?),
        Task::Letters => changes::letters(alloc, text, lines, group, times, steps),
        Task::LettersBelow => changes::letters_below(alloc, text, lines, group, times, steps),
        Task::Typed => changes::typed(alloc, text, lines, times, steps),
        Task::TypedBelow => changes::typed_below(alloc, text, lines, times, steps),
        Task::Check => {
            changes::blocks(alloc, text, lines, group, times, steps)?;
            changes::letters(alloc, text, lines, group, times, steps)?;
            changes::typed(alloc, text, lines, times, steps)
        }
        _ => Ok(look(alloc, text, order, steps)?),
    }
}

/// Asks what is shown of a text with blocks, if that is what is to be done with it.
fn look(
    alloc: Global,
    text: &BlockedText,
    order: &Order,
    steps: &mut Steps,
) -> Result<u64, NoMemory> {
    match order.task {
        Task::LineAt => Ok(looks::lines_of_rows(text, order.times)),
        Task::TextRow => looks::texts_of_rows(alloc, text, order.times),
        Task::RowOf => Ok(looks::rows_of_lines(text, order.times, steps)),
        Task::TextAt => Ok(looks::texts_at_rows(text, order.times, steps)),
        Task::Row => looks::rows_at(alloc, text, order.times, steps),
        Task::Screens => looks::screens(alloc, text, order.times, steps),
        Task::ScreensByRow => looks::screens_by_row(alloc, text, order.times, steps),
        _ => Ok(looks::rows(text)),
    }
}

fn main(rt: HostRuntime) -> io::Result<()> {
    let order = Order::read(&rt)?;
    let mut steps = Steps::new();
    match carry_out(rt.alloc(), &order, &mut steps) {
        Ok(check) => println!(rt; "{check}")?,
        Err(fault) => println!(rt; "{fault:?}")?,
    }
    eprintln!(rt; "{steps:?}")
}
