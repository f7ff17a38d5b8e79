//! Places along a list by one number that is read off its sums.
ghost use Rattle.std.specs.Prelude.{◌≡◌, ℕ, ◌^◌, ◌<◌};
ghost use Rattle.sum_core.specs.Measures.{CountLaws, MeasureLaws};

use crate::summary::{Dimension, Summary};
use std::marker::PhantomData;

/// A number that is read off a sum, as its bytes or its rows. No part has more of it than the whole.
pub trait Measure<S: Summary> {
    /// The measure of a sum.
    ghost number: { S → ℕ };

    /// The measure of a sum.
    fn of(sum: S) -> u32
        ensures { result ≡ number sum };

    ghost measure_laws: { MeasureLaws S.joined S.fits number };
}

/// A measure of which the whole has as much as its parts together.
pub trait Count<S: Summary>: Measure<S> {
    ghost count_laws: { CountLaws S.empty S.joined Self.number };
}

/// A whole sum as a place: sums are ordered by their measure `M` alone.
#[derive_where(Clone, Copy, PartialEq, Eq, PartialOrd, Ord)]
pub struct By<S: Summary, M: Measure<S>> {
    /// The measure of the sum, or what is sought.
    pub at: u64,
    #[derive_where(skip(EqHashOrd))]
    pub sum: S,
    #[derive_where(skip(EqHashOrd))]
    measure: PhantomData<M>,
}

impl<S: Summary, M: Measure<S>> By<S, M> {
    /// The place at which the measure is `at`, to be sought.
    pub fn target(at: u64) -> By<S, M>
        ensures at { result.at ≡ at }
        ensures sum { result.sum ≡ S.empty }
    {
        By {
            at,
            sum: S::zero(),
            measure: PhantomData,
        }
    }
}

impl<S: Summary, M: Measure<S>> Dimension<S> for By<S, M> {
    ghost use Rattle.sum_core.specs.ByMeasures.{by_sum, by_laws};

    ghost measure = { by_sum M.number };

    ghost joined_with = { λ a b. by_sum M.number (S.joined a.sum b.sum) };

    ghost fits_with = { λ a b. S.fits (S.joined a.sum b.sum) };

    ghost dimension_laws = { by_laws S.joined S.fits M.number M.measure_laws };

    fn of(sum: S) -> By<S, M> {
        By {
            at: M::of(sum) as u64,
            sum,
            measure: PhantomData,
        }
    }

    fn plus(self, other: By<S, M>) -> By<S, M> {
        By::of(self.sum.plus(other.sum))
    }
}
