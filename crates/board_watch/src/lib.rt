//! Watchers of a board: each looks at the versions again and again, in a thread of its own, and keeps what it saw.
//!
//! A `Watcher` keeps a `Seen` for each version that is newer than the last one it kept. That is the version's number,
//! and how many rows it has. It ends with the last version, where a flag is raised, or if it is out of memory.
//! `end_all` lets each learn of the newest version and look once more.
//!
//! What a watcher saw is promised at each moment (`specs/Watching.antt`). The numbers rise, and no call loses any of
//! it. Each is of a version of the board's one row, with as many rows as that version's record has. Once the watcher
//! learnt of the last version and looked again, the last that it saw is that one.
//!
//! Nothing is promised of which versions a watcher sees before that: one that looks only then keeps all these promises.
//! Nor is it promised that a gate is called, or that a watcher ever ends.
#![tactic(auto)]

mod seen;
mod watcher;

pub use seen::{Seen, Watched};
pub use watcher::{Watcher, end_all, give_up_all, watch_all, watchers};
