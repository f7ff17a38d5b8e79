//! One splice: what it keeps, what it takes out, and what it puts there.
ghost use Rattle.std.specs.Prelude.{◌≡◌, IfOk};
ghost use Rattle.splice_tree.specs.Splices.{regapped};

use crate::sides::Sides;
use cell_units::NoMemory;
use std::alloc::Global;
use std::marker::Model;
use sum_core::{Item, Load, Summary};

/// How much is kept of the lower sequence, how much of it is taken out then, and how much is put in its place.
#[derive(Drop)]
pub struct Splice<S: Summary, P: Load> {
    gap: S,
    old: S,
    new: S,
    load: P,
}

impl<S: Summary, P: Load> Model for Splice<S, P> {
    ghost use Rattle.splice_tree.specs.Splices.{Piece};

    ghost Value = { Piece S P };

    ghost view = { λ s. record { gap = s.gap; old = s.old; new = s.new; load = s.load } };

    ghost invariant = { λ s. S.fits (S.joined s.gap s.old) × S.fits (S.joined s.gap s.new) };
}

impl<S: Summary, P: Load> Splice<S, P> {
    /// A splice of these sizes.
    pub fn new(gap: S, old: S, new: S, load: P) -> Splice<S, P>
        requires lower { S.fits (S.joined gap old) }
        requires upper { S.fits (S.joined gap new) }
        ensures { result ≡ record { gap = gap; old = old; new = new; load = load } }
    {
        Splice {
            gap,
            old,
            new,
            load,
        }
    }

    /// What is kept before it.
    pub fn gap(&self) -> S
        ensures { result ≡ self.now.gap }
    {
        self.gap
    }

    /// What it takes out.
    pub fn old(&self) -> S
        ensures { result ≡ self.now.old }
    {
        self.old
    }

    /// What is put in the place of that.
    pub fn new_size(&self) -> S
        ensures { result ≡ self.now.new }
    {
        self.new
    }

    /// A copy with another gap.
    pub(crate) fn with_gap(&self, alloc: Global, gap: S) -> Result<Splice<S, P>, NoMemory>
        requires lower { S.fits (S.joined gap self.now.old) }
        requires upper { S.fits (S.joined gap self.now.new) }
        ensures { IfOk result (λ s. s ≡ regapped gap self.now) }
    {
        Ok(Splice::new(gap, self.old, self.new, self.load.copy(alloc)?))
    }

    /// Its load.
    pub fn load(&self) -> &P
        ensures { result.now ≡ self.now.load }
    {
        &self.load
    }
}

impl<S: Summary, P: Load> Item for Splice<S, P> {
    ghost use Rattle.splice_tree.specs.Splices.{piece_sum};

    type Sum = Sides<S>;

    ghost summary = { piece_sum S.joined };

    fn sum(&self) -> Sides<S> {
        Sides {
            lower: self.gap.plus(self.old),
            upper: self.gap.plus(self.new),
        }
    }

    fn copy(&self, alloc: Global) -> Result<Splice<S, P>, NoMemory> {
        Ok(Splice {
            gap: self.gap,
            old: self.old,
            new: self.new,
            load: self.load.copy(alloc)?,
        })
    }
}
