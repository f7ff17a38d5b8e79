//! What is summed over splices: what they cover of the lower sequence, and of the upper one.
use std::marker::PhantomData;
use sum_core::{Count, Measure, Summary};

/// What a run of splices covers of the lower sequence and of the upper one, gaps and stretches.
#[derive(Clone, Copy)]
pub struct Sides<S> {
    pub lower: S,
    pub upper: S,
}

impl<S: Summary> Summary for Sides<S> {
    ghost use Rattle.splice_tree.specs.Sides.{none, both, BothFit, sides_laws};

    ghost empty = { none S.empty };

    ghost joined = { both S.joined };

    ghost fits = { BothFit S.fits };

    ghost laws = { sides_laws S.empty S.joined S.fits S.laws };

    fn zero() -> Sides<S> {
        Sides {
            lower: S::zero(),
            upper: S::zero(),
        }
    }

    fn plus(self, other: Sides<S>) -> Sides<S> {
        Sides {
            lower: self.lower.plus(other.lower),
            upper: self.upper.plus(other.upper),
        }
    }
}

/// A measure of the lower side.
pub struct Lower<M> {
    _measure: PhantomData<M>,
}

impl<S: Summary, M: Count<S>> Measure<Sides<S>> for Lower<M> {
    ghost use Rattle.splice_tree.specs.Sides.{lower_laws};

    ghost number = { λ s. M.number s.lower };

    ghost measure_laws = { lower_laws S.joined S.fits M.number M.measure_laws };

    fn of(sum: Sides<S>) -> u32 {
        M::of(sum.lower)
    }
}

/// A measure of the upper side.
pub struct Upper<M> {
    _measure: PhantomData<M>,
}

impl<S: Summary, M: Count<S>> Measure<Sides<S>> for Upper<M> {
    ghost use Rattle.splice_tree.specs.Sides.{upper_laws};

    ghost number = { λ s. M.number s.upper };

    ghost measure_laws = { upper_laws S.joined S.fits M.number M.measure_laws };

    fn of(sum: Sides<S>) -> u32 {
        M::of(sum.upper)
    }
}
