//! The order of things at offsets.
ghost use Rattle.std.specs.Prelude.{◌≡◌, ℕ, ◌≤◌, count_by, OnOk, OnErr};
ghost use Rattle.cell_units.specs.Record.{bias_rank};
ghost use Rattle.cell_units.specs.Sorting.{sort_by};
ghost use Rattle.mark_tree.specs.Entries.{placed_at};
ghost use Rattle.mark_tree.specs.Order.{has_placed_id, key_of, placed_le};

use crate::entry::Placed;
use cell_units::{Bias, NoMemory};
use sum_core::Load;

/// By what things are sorted.
#[derive(Clone, Copy, PartialEq, Eq, PartialOrd, Ord)]
pub(crate) struct Key {
    pub(crate) offset: u32,
    bias: u8,
    length: u32,
    id: u32,
}

impl Key {
    /// The key of a thing with these properties.
    pub(crate) fn new(offset: u32, bias: Bias, length: u32, id: u32) -> Key
        ensures { let rank = bias_rank bias in
            result ≡ record { offset = offset; bias = rank; length = length; id = id } }
    {
        let bias = match bias {
            Bias::Left => 0,
            Bias::Right => 1,
        };
        Key {
            offset,
            bias,
            length,
            id,
        }
    }
}

impl<P> Placed<P> {
    /// By what this is sorted.
    pub(crate) fn key(&self) -> Key
        ensures { result ≡ key_of self.now }
    {
        Key::new(self.offset, self.bias, self.length, self.id)
    }
}

/// Sorts things of distinct ids.
pub(crate) fn sort_placed<P: Load>(things: &mut Vec<Placed<P>>) -> Result<(), NoMemory>
    requires { (id : ℕ) → count_by (has_placed_id id) things.old.items ≤ 1 }
    ensures ok { OnOk result (things.new.items ≡ sort_by placed_le things.old.items) }
    ensures unchanged { OnErr result (things.new.items ≡ things.old.items) }
{
    things.sort_by_key(|thing| thing.key())?;
    Ok(())
}
