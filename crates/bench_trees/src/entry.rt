//! The items of the trees: numbers that are counted.
use cell_units::NoMemory;
use std::alloc::Global;
use sum_core::{Dimension, Item, Summary};

/// How many items there are.
#[derive(Clone, Copy, PartialEq, Eq, PartialOrd, Ord)]
pub struct Count(pub u64);

impl Summary for Count {
    ghost use Rattle.std.specs.Prelude.{ℕ, ◌+◌, ◌<◌, ◌^◌};
    ghost use Rattle.sum_core.specs.Counts.{count-left_identity, count-right_identity, count-assoc, count-empty_fits, count-left_fits, count-right_fits};
    ghost use Rattle.bench_trees.specs.Counting.{counted};

    ghost empty = { counted 0 };

    ghost joined = { λ a b. counted (a.0 + b.0) };

    ghost fits = { λ s. s.0 < 2 ^ 64 };

    ghost laws = { record {
      left_identity = λ x i. counted (count-left_identity x.0 i);
      right_identity = λ x i. counted (count-right_identity x.0 i);
      assoc = λ x y z i. counted (count-assoc x.0 y.0 z.0 i);
      empty_fits = count-empty_fits;
      left_fits = λ x y f. count-left_fits x.0 y.0 f;
      right_fits = λ x y f. count-right_fits x.0 y.0 f;
    } };

    fn zero() -> Count {
        Count(0)
    }

    fn plus(self, other: Count) -> Count {
        Count(self.0 + other.0)
    }
}

/// A number.
#[derive(Drop)]
pub struct Entry(pub u32);

impl Item for Entry {
    ghost use Rattle.bench_trees.specs.Counting.{counted};

    type Sum = Count;

    ghost summary = { λ e. counted 1 };

    fn sum(&self) -> Count {
        Count(1)
    }

    fn copy(&self, _alloc: Global) -> Result<Entry, NoMemory> {
        Ok(Entry(self.0))
    }
}

/// Places by number.
impl Dimension<Count> for u64 {
    ghost use Rattle.std.specs.Prelude.{◌+◌, ◌<◌, ◌^◌, refl};
    ghost use Rattle.sum_core.proofs.Counts.{count-left_not_greater, count-right_not_greater};

    ghost measure = { λ s. s.0 };

    ghost joined_with = { λ a b. a + b };

    ghost fits_with = { λ a b. a + b < 2 ^ 64 };

    ghost dimension_laws = { record {
      of_joined = λ x y. refl;
      fits_joined = λ x y f. f;
      left_not_greater = λ x y f. count-left_not_greater x.0 y.0;
      right_not_greater = λ x y f. count-right_not_greater x.0 y.0;
    } };

    fn of(sum: Count) -> u64 {
        sum.0
    }

    fn plus(self, other: u64) -> u64 {
        self + other
    }
}
