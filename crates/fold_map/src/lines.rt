//! Where display lines start.
ghost use Rattle.std.specs.Prelude.{◌≡◌, ◌<◌, ◌≤◌, ◌^◌};
ghost use Rattle.fold_map.specs.Lines.{CoverLines, IsLineStart, LineFits, lines_of, start_shown};

use crate::amount::{Amount, ByFeeds};
use cell_units::{Bias, Steps};
use splice_tree::{Sides, SpliceTree};
use sum_core::NoLoad;

/// Where a display line starts: before the splice of the index or after all. It is past what the splices before cover,
/// on this line of the lower layer.
#[derive(Drop)]
pub(crate) struct LineStart {
    pub(crate) index: u32,
    pub(crate) before: Sides<Amount>,
    pub(crate) below: u32,
}

/// Where a display line starts.
pub(crate) fn start_of(
    splices: &SpliceTree<Amount, NoLoad>,
    line: u32,
    steps: &mut Steps,
) -> LineStart
    requires { LineFits splices.now line }
    ensures start { IsLineStart splices.now line result }
    ensures counted { steps.old ≤ steps.new }
{
    let found = splices.find_upper::<ByFeeds>(line as u64, Bias::Left, steps);
    let below = found.before.lower.feeds + (line - found.before.upper.feeds);
    LineStart {
        index: found.index,
        before: found.before,
        below,
    }
}

impl LineStart {
    /// The place at which the line begins, by that at which the line of the lower layer does.
    pub(crate) fn place(&self, below: u32) -> u32
        requires order { self.now.before.lower.bytes ≤ below }
        requires fits { start_shown self.now below < 2 ^ 32 }
        ensures { result ≡ start_shown self.now below }
    {
        self.before.upper.bytes + (below - self.before.lower.bytes)
    }
}

/// How many lines are shown, by how many the lower layer has.
pub(crate) fn lines_shown(splices: &SpliceTree<Amount, NoLoad>, below: u32) -> u32
    requires { CoverLines splices.now below }
    ensures { result ≡ lines_of splices.now below }
{
    let sum = splices.sum();
    below - sum.lower.feeds + sum.upper.feeds
}
