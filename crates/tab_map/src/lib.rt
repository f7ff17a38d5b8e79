//! The lines of a layer as elements at a tab size.
//!
//! A `TabMap` keeps the last layer and the tab size, and no tree. `sync` takes the layer as it is now with the one
//! replacement of its text since. It returns the lines that this replacement meets, or all where the tab size was set.
//! It reads no text. A `TabSnapshot` is a list of lines, each a list of elements, that are made from the layer's pieces
//! when they are asked for.
#![tactic(auto)]

mod map;
mod snapshot;

pub use map::TabMap;
pub use snapshot::TabSnapshot;
