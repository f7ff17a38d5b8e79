//! What a watcher saw: versions, each with its number and how many rows it has.

/// A version that a watcher saw: its number, counted from 0, and how many rows it has.
#[derive(Clone, Copy, Debug, PartialEq, Eq)]
pub struct Seen {
    pub version: u64,
    pub rows: u32,
}

/// What a watcher saw, in order.
#[derive(Debug, Drop)]
pub struct Watched {
    pub seen: Vec<Seen>,
}
