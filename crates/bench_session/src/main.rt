//! Opens a text as a host does, wraps all of its lines, and types letters in the middle of it. After each letter it reads
//! the fifty rows around it. It prints how many bytes all of these rows have.
//!
//! The words are the text's size in bytes and how many letters. An example is `1000000 2000`. `bench/session` times it
//! beside the same calls through C. With no words it types three letters into 300 bytes.
#![tactic(auto)]

use cell_units::Bias;
use display_session::{Session, Trouble};
use std::alloc::{AllocError, Global};
use std::{env, io};

const LINE: &[u8] =
    b"\tlet total = items.iter().map(|it| it.price * it.count).sum::<u64>(); // what all of them cost together\n";

/// How many bytes of rows are copied out at once.
const ROOM: usize = 1_048_576;

/// How many letters are typed into a text of so many bytes.
#[derive(Clone, Copy)]
struct Order {
    bytes: u32,
    letters: u32,
}

impl Order {
    /// The order that the words give, with a small number for each that is missing or isn't one.
    fn read(rt: &HostRuntime) -> io::Result<Order> {
        let mut order = Order {
            bytes: 300,
            letters: 3,
        };
        for (place, word) in env::args(rt)?.enumerate() {
            match place {
                1 => order.bytes = word.parse::<u32>().unwrap_or(300),
                2 => order.letters = word.parse::<u32>().unwrap_or(3),
                _ => {}
            }
        }
        Ok(order)
    }
}

/// A text of so many bytes, which repeats one line.
fn text(alloc: Global, bytes: u32) -> Result<Vec<u8>, AllocError> {
    let mut text = Vec::new(alloc);
    for at in 0..bytes as usize {
        text.push(LINE[at % LINE.len()])?;
    }
    Ok(text)
}

/// Puts a letter in at an offset, and reads the screen around it. Returns how many bytes its rows have.
fn type_letter(
    alloc: Global,
    session: &mut Session,
    offset: u32,
    screen: &mut [u8],
) -> Result<usize, Trouble> {
    session.edit(alloc, offset, offset, b"x")?;
    session.wrap(alloc, u32::MAX)?;
    let spot = session.show(alloc, offset, Bias::Right)?;
    session.rows(alloc, spot.row.saturating_sub(25), 50)?;
    Ok(session.copy_answer(0, screen))
}

/// Opens the text and types the letters.
fn run(alloc: Global, order: Order) -> Result<u64, Trouble> {
    let text = text(alloc, order.bytes)?;
    let Ok(mut session) = Session::open(alloc, text.as_slice()) else {
        return Err(Trouble::NoMemory);
    };
    session.wrap(alloc, u32::MAX)?;
    let mut screen = vec![in alloc; 0u8; ROOM]?;
    let mut bytes = 0u64;
    for _ in 0..order.letters {
        let more = type_letter(alloc, &mut session, order.bytes / 2, &mut screen)?;
        bytes = bytes.wrapping_add(more as u64);
    }
    Ok(bytes)
}

fn main(rt: HostRuntime) -> io::Result<()> {
    let order = Order::read(&rt)?;
    match run(rt.alloc(), order) {
        Ok(bytes) => println!(rt; "{bytes}"),
        Err(trouble) => println!(rt; "{trouble:?}"),
    }
}
