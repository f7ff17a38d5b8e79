//! What is summed over a tree: the sum of an item, and an order and a place on such sums.
ghost use Rattle.std.specs.Prelude.{◌≡◌, IfOk};
ghost use Rattle.sum_core.specs.Sums.{SummaryLaws, DimensionLaws};

use cell_units::NoMemory;
use std::alloc::Global;

/// The sum of a run of items. The sum of two runs is that of the one followed by the other.
pub trait Summary: Copy {
    /// The sum of no items.
    ghost empty: { Self };

    /// The sum of two runs, one after the other, as large as it gets.
    ghost joined: { Self → Self → Self };

    /// The value is within the ranges of its type.
    ghost fits: { Self → Type 0 };

    /// The sum of no items.
    fn zero() -> Self
        ensures { result ≡ empty };

    /// The sum of these items and then the others.
    fn plus(self, other: Self) -> Self
        requires { fits (joined self other) }
        ensures { result ≡ joined self other };

    ghost laws: { SummaryLaws empty joined fits };
}

/// What a tree keeps in order.
pub trait Item: Drop {
    type Sum: Summary;

    /// The sum of this item alone.
    ghost summary: { Self → Self.Sum };

    /// The sum of this item alone.
    fn sum(&self) -> Self::Sum
        ensures { result ≡ summary self.now };

    /// An equal item. The only error is `NoMemory`.
    fn copy(&self, alloc: Global) -> Result<Self, NoMemory>
        ensures { IfOk result (λ c. c ≡ self.now) };
}

/// One measure of a sum, as a count of bytes or of rows, in which places along a list are named.
pub trait Dimension<S: Summary>: Copy + Ord {
    /// The measure of a sum.
    ghost measure: { S → Self };

    /// The measure of two runs, one after the other, from the measures of each.
    ghost joined_with: { Self → Self → Self };

    /// The two measures may be added.
    ghost fits_with: { Self → Self → Type 0 };

    /// The measure of a sum.
    fn of(sum: S) -> Self
        ensures { result ≡ measure sum };

    /// The measure of a run and then another.
    fn plus(self, other: Self) -> Self
        requires { fits_with self other }
        ensures { result ≡ joined_with self other };

    ghost dimension_laws: { DimensionLaws S.joined S.fits joined_with fits_with measure Self.cmp };
}
