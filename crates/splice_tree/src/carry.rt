//! Where a place goes that lies in one splice.
ghost use Rattle.std.specs.Prelude.{◌≡◌, ◌+◌, ◌≤◌, ◌<◌, ◌^◌, MatchOption};
ghost use Rattle.splice_tree.specs.Splices.{IsCarried, flipped, measured, stretch};

use crate::splice::Splice;
use cell_units::Bias;
use sum_core::{Count, Load, Measure, Summary};

/// The place in what is kept and what is put there, for the place `rest` in what is kept and what is taken out.
pub(crate) fn carry(gap: u32, old: u32, new: u32, rest: u64, bias: Bias) -> u64
    ensures place { IsCarried bias (stretch gap old new) rest result }
    ensures at_most { result ≤ gap + new }
{
    let gap = gap as u64;
    if rest <= gap {
        return rest;
    }
    if rest >= gap + old as u64 {
        return gap + new as u64;
    }
    match bias {
        Bias::Left => gap,
        Bias::Right => gap + new as u64,
    }
}

/// Where the place `rest` of the lower side goes that lies in this splice, or after all.
pub(crate) fn carry_up<S: Summary, P: Load, M: Count<S>>(
    splice: Option<&Splice<S, P>>,
    rest: u64,
    bias: Bias,
) -> u64
    ensures place { MatchOption splice.entry (result ≡ rest) (λ p.
        IsCarried bias (measured M.number p.now) rest result) }
    ensures at_most { result ≤ rest + 2 ^ 33 }
{
    match splice {
        None => rest,
        Some(splice) => carry(
            M::of(splice.gap()),
            M::of(splice.old()),
            M::of(splice.new_size()),
            rest,
            bias,
        ),
    }
}

/// Where the place `rest` of the upper side goes that lies in this splice, or after all.
pub(crate) fn carry_down<S: Summary, P: Load, M: Count<S>>(
    splice: Option<&Splice<S, P>>,
    rest: u64,
    bias: Bias,
) -> u64
    ensures place { MatchOption splice.entry (result ≡ rest) (λ p.
        IsCarried bias (flipped (measured M.number p.now)) rest result) }
    ensures at_most { result ≤ rest + 2 ^ 33 }
{
    match splice {
        None => rest,
        Some(splice) => carry(
            M::of(splice.gap()),
            M::of(splice.new_size()),
            M::of(splice.old()),
            rest,
            bias,
        ),
    }
}
