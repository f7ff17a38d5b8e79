//! Looks at versions in so many threads, while the owner of a display publishes as fast as it can. Prints how many
//! looks there were, and on standard error how many versions were published meanwhile.
//!
//! The words are where the versions are, how many readers there are, and how often each of them looks. `board 4
//! 1000000` is for a board, `lock 4 1000000` for the same share of a version under a lock. `bench/board` times it. With
//! no words two readers look a hundred times each at a board.
#![tactic(auto)]

mod boarded;
mod locked;
mod owner;

use cell_units::NoMemory;
use std::alloc::Global;
use std::sync::Wait;
use std::thread::Threads;
use std::{env, io};

/// How many looks there were, and how many versions.
#[derive(Clone, Copy)]
pub struct Counts {
    pub looks: u64,
    pub versions: u64,
}

/// Where versions are, how many readers there are, and how often each of them looks.
#[derive(Clone, Copy)]
struct Order {
    on_board: bool,
    readers: u32,
    times: u32,
}

impl Order {
    /// The order that the words give, with a small one for each word that is missing or no number.
    fn read(rt: &HostRuntime) -> io::Result<Order> {
        let mut order = Order {
            on_board: true,
            readers: 2,
            times: 100,
        };
        for (place, word) in env::args(rt)?.enumerate() {
            match place {
                1 => order.on_board = word.as_str() != "lock",
                2 => order.readers = word.parse::<u32>().unwrap_or(2).min(8),
                3 => order.times = word.parse::<u32>().unwrap_or(100),
                _ => {}
            }
        }
        Ok(order)
    }
}

fn carry_out<R: Threads + Wait + Sync>(
    rt: &R,
    alloc: Global,
    order: Order,
) -> Result<Counts, NoMemory> {
    let readers = order.readers.min(8);
    if order.on_board {
        boarded::look_beside(rt, alloc, readers, order.times)
    } else {
        locked::look_beside(rt, alloc, readers, order.times)
    }
}

fn main(rt: HostRuntime) -> io::Result<()> {
    let order = Order::read(&rt)?;
    match carry_out(&rt, rt.alloc(), order) {
        Ok(counts) => {
            println!(rt; "{}", counts.looks)?;
            eprintln!(rt; "{}", counts.versions)
        }
        Err(NoMemory) => println!(rt; "no memory"),
    }
}
