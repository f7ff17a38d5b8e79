//! Weights, whose sum is how many there are and what they weigh together.
use cell_units::NoMemory;
use std::alloc::Global;
use sum_core::{Dimension, Item, Summary};
use sum_tree::Probe;

#[derive(Clone, Copy, Debug, PartialEq, Eq)]
pub struct Tally {
    pub items: u64,
    pub total: u64,
}

impl Summary for Tally {
    ghost use Rattle.std.specs.Prelude.{ℕ, ◌+◌, ◌<◌, ◌^◌};
    ghost use Rattle.sum_core.specs.Counts.{count-left_identity, count-right_identity, count-assoc, count-empty_fits, count-left_fits, count-right_fits};

    ghost empty = { record { items = 0; total = 0 } };

    ghost joined = { λ a b. record { items = a.items + b.items; total = a.total + b.total } };

    ghost fits = { λ s. (s.items < 2 ^ 64) × (s.total < 2 ^ 64) };

    ghost laws = { record {
      left_identity = λ x i. record { items = count-left_identity x.items i; total = count-left_identity x.total i };
      right_identity = λ x i. record { items = count-right_identity x.items i; total = count-right_identity x.total i };
      assoc = λ x y z i. record { items = count-assoc x.items y.items z.items i; total = count-assoc x.total y.total z.total i };
      empty_fits = (count-empty_fits, count-empty_fits);
      left_fits = λ x y f. (count-left_fits x.items y.items f.0, count-left_fits x.total y.total f.1);
      right_fits = λ x y f. (count-right_fits x.items y.items f.0, count-right_fits x.total y.total f.1);
    } };

    fn zero() -> Tally {
        Tally { items: 0, total: 0 }
    }

    fn plus(self, other: Tally) -> Tally {
        Tally {
            items: self.items + other.items,
            total: self.total + other.total,
        }
    }
}

#[derive(Drop)]
pub struct Weight(pub u32);

impl Item for Weight {
    type Sum = Tally;

    ghost summary = { λ w. record { items = 1; total = w.0 } };

    fn sum(&self) -> Tally {
        Tally {
            items: 1,
            total: self.0 as u64,
        }
    }

    fn copy(&self, _alloc: Global) -> Result<Weight, NoMemory> {
        Ok(Weight(self.0))
    }
}

/// The total weight.
impl Dimension<Tally> for u64 {
    ghost use Rattle.std.specs.Prelude.{◌+◌, ◌<◌, ◌^◌, refl};
    ghost use Rattle.sum_core.proofs.Counts.{count-left_not_greater, count-right_not_greater};

    ghost measure = { λ s. s.total };

    ghost joined_with = { λ a b. a + b };

    ghost fits_with = { λ a b. a + b < 2 ^ 64 };

    ghost dimension_laws = { record {
      of_joined = λ x y. refl;
      fits_joined = λ x y f. f.1;
      left_not_greater = λ x y f. count-left_not_greater x.total y.total;
      right_not_greater = λ x y f. count-right_not_greater x.total y.total;
    } };

    fn of(sum: Tally) -> u64 {
        sum.total
    }

    fn plus(self, other: u64) -> u64 {
        self + other
    }
}

/// Weights that are at least this one.
pub struct AtLeast(pub u32);

impl Probe<Weight> for AtLeast {
    ghost use Rattle.std.specs.Prelude.{◌+◌, nat_le, refl};
    ghost use Rattle.test_trees.specs.Weights.{all-lighter};
    ghost use Rattle.test_trees.specs.declared.weights.Tally.{Tally};
    ghost use Rattle.test_trees.specs.declared.weights.Weight.{Weight};

    ghost is_passed = { λ probe item. nat_le probe.0 item.0 };

    ghost may_pass = { λ probe sum. nat_le probe.0 sum.total };

    ghost may_skip = { λ probe items light.
        let none : Tally = record { items = 0; total = 0 } in
        let both : Tally → Tally → Tally =
        λ a b. record { items = a.items + b.items; total = a.total + b.total } in
        let tally : Weight → Tally = λ w. record { items = 1; total = w.0 } in
        all-lighter none both tally (λ s. s.total) (λ w. w.0) (λ a b. refl) (λ w. refl) probe.0 items light };

    fn passes(&self, item: &Weight) -> bool {
        self.0 <= item.0
    }

    fn may_pass_in(&self, sum: Tally) -> bool {
        self.0 as u64 <= sum.total
    }
}
