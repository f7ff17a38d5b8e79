//! The text with inlays: texts that the buffer doesn't have, laid in at offsets of it.
//!
//! An [`InlayMap`] is seen as its text with the inlays, what its last snapshot showed, and the replacement that leads
//! from that to now. An [`InlaySnapshot`] is a layer, seen as the text with the inlays; no later change of the map
//! reaches it. Inlays are in a tree of marks, with their texts as they were given. Beside it is a list of splices, of
//! which the k-th belongs to the k-th inlay. A splice has the distance from the inlay before, and what the inlay shows.
//! So each question is one way or two down a tree. And a replacement of text makes anew just the splices of the inlays
//! that it meets.
#![tactic(auto)]

mod amount;
mod inlaid;
mod inlay_map;
mod inlay_text;
mod laws;
mod layer;
mod lines;
mod snapshot;
mod spot;

pub use inlay_map::InlayMap;
pub use laws::met_laws;
pub use snapshot::InlaySnapshot;
