//! Which joined folds a change meets.
ghost use Rattle.std.specs.Prelude.{◌≡◌, ◌+◌, ◌≤◌, ◌<◌, ◌^◌, List, length};
ghost use Rattle.std.specs.Option.{ForSome};
ghost use Rattle.joined_folds.specs.JoinedLists.{AreAllJoined};
ghost use Rattle.joined_folds.specs.Windows.{moved_on};
ghost use Rattle.sum_tree.specs.Bounds.{TakesAtMost};
ghost use Rattle.text_rope.specs.Bounds.{ways};
ghost use Rattle.fold_map.specs.Met.{IsMetBy, end_met, start_met};

use crate::snapshot::FoldSnapshot;
use cell_units::{Layer, Steps};
use joined_folds::{JoinedFold, Window};

/// A change of folds or of the lower layer: within the offsets from `start` to `end`, of which the last has become
/// `last`.
#[derive(Clone, Copy)]
pub(crate) struct Change {
    pub(crate) start: u32,
    pub(crate) end: u32,
    pub(crate) last: u32,
}

/// The joined folds that a change meets, by their indices, where the one before them ends, and the window in which they
/// are made anew.
#[derive(Drop)]
pub(crate) struct Met {
    pub(crate) first: u32,
    pub(crate) last: u32,
    pub(crate) base: u32,
    pub(crate) window: Window,
}

/// How many joined folds start by the end of a change, and where the last of them ends, or the change.
#[derive(Clone, Copy)]
struct MetEnd {
    index: u32,
    offset: u32,
}

impl<L: Layer> FoldSnapshot<L> {
    /// The joined folds that a change meets.
    pub(crate) fn met(&self, change: Change, steps: &mut Steps) -> Met
        // The change lies within the text, whose length after it is a u32 too.
        requires order { change.start ≤ change.end }
        requires within { change.end ≤ length self.now.text }
        requires reaches { moved_on change.end change.last (length self.now.text) < 2 ^ 32 }

        // Where they are among all joined folds, and in which window folds are to be joined anew.
        ensures met { (js : List JoinedFold) → let s = self.now in
            AreAllJoined s.folds (length s.text) js → IsMetBy js change result }

        // The work: one way down to either end of the change.
        ensures counted { steps.old ≤ steps.new }
        ensures steps { TakesAtMost (ways 2) (length self.now.folds) steps.old steps.new }
    {
        // For the proof: the text's length is a u32.
        let _len = self.text_len();
        let front = self.cut_at(change.start, steps);
        let back = self.cut_at(change.end, steps);
        let end = end_met(back.index, change.end, back.next);
        Met {
            first: front.index,
            last: end.index,
            base: front.base,
            window: Window {
                from: start_met(change.start, front.next),
                start: change.start,
                end: change.last,
                to: end.offset - change.end + change.last,
            },
        }
    }
}

/// Where the first joined fold starts that a change meets, or the change.
fn start_met(start: u32, next: Option<JoinedFold>) -> u32
    ensures { result ≡ start_met start next }
{
    match next {
        None => start,
        Some(next) => start.min(next.start),
    }
}

/// How many joined folds start by the end of a change, where so many end by it.
fn end_met(index: u32, end: u32, next: Option<JoinedFold>) -> MetEnd
    requires { ForSome next (λ j. index + 1 < 2 ^ 32) }
    ensures { result ≡ end_met index end next }
{
    match next {
        None => MetEnd { index, offset: end },
        Some(next) => {
            if next.start <= end {
                MetEnd {
                    index: index + 1,
                    offset: next.end,
                }
            } else {
                MetEnd { index, offset: end }
            }
        }
    }
}
