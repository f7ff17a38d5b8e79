//! What a tree keeps, and what that is at its offset.
use crate::extent::Extent;
use crate::id_range::{IdRange, may_have};
use cell_units::{Bias, NoMemory};
use std::alloc::Global;
use sum_core::{Item, Load};
use sum_tree::Probe;

/// An entry of a list that is coded by gaps: it is `gap` bytes after the entry before it, the first one after 0.
#[derive(Drop)]
pub(crate) struct Entry<P> {
    pub(crate) gap: u32,
    pub(crate) bias: Bias,
    pub(crate) length: u32,
    pub(crate) id: u32,
    pub(crate) load: P,
}

impl<P: Load> Item for Entry<P> {
    ghost use Rattle.mark_tree.specs.Entries.{extent_of};

    type Sum = Extent;

    ghost summary = { extent_of };

    fn sum(&self) -> Extent {
        Extent {
            items: 1,
            span: self.gap,
            hang: self.length,
            ids: Some(IdRange::only(self.id)),
        }
    }

    fn copy(&self, alloc: Global) -> Result<Entry<P>, NoMemory> {
        Ok(Entry {
            gap: self.gap,
            bias: self.bias,
            length: self.length,
            id: self.id,
            load: self.load.copy(alloc)?,
        })
    }
}

/// The test for an entry of this id.
#[derive(Drop)]
pub(crate) struct HasId(pub(crate) u32);

impl<P: Load> Probe<Entry<P>> for HasId {
    ghost use Rattle.std.specs.Prelude.{◌==◌};
    ghost use Rattle.mark_tree.specs.IdLaws.{id-outside};
    ghost use Rattle.mark_tree.specs.IdRanges.{may_have};

    ghost is_passed = { λ probe entry. entry.id == probe.0 };

    ghost may_pass = { λ probe extent. may_have extent.ids probe.0 };

    ghost may_skip = { λ probe entries out. id-outside probe.0 entries out };

    fn passes(&self, item: &Entry<P>) -> bool {
        item.id == self.0
    }

    fn may_pass_in(&self, sum: Extent) -> bool {
        may_have(sum.ids, self.0)
    }
}

/// What is at an offset and reaches over `length` bytes: a mark over none, a range over all of its own.
#[derive(Drop)]
pub(crate) struct Placed<P> {
    pub(crate) offset: u32,
    pub(crate) bias: Bias,
    pub(crate) length: u32,
    pub(crate) id: u32,
    pub(crate) load: P,
}
