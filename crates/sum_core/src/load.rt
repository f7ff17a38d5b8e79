//! What an item carries for whoever keeps the list.
ghost use Rattle.std.specs.Prelude.{◌≡◌, IfOk};

use cell_units::{NoMemory, Text};
use std::alloc::Global;

/// What is carried beside a place, as a mark's or a splice's.
pub trait Load: Drop {
    /// An equal load. The only error is `NoMemory`.
    fn copy(&self, alloc: Global) -> Result<Self, NoMemory>
        ensures { IfOk result (λ c. c ≡ self.now) };
}

impl Load for Text {
    fn copy(&self, alloc: Global) -> Result<Text, NoMemory> {
        Text::from_str(alloc, self.as_str())
    }
}

/// Nothing is carried.
#[derive(Drop)]
pub struct NoLoad;

impl Load for NoLoad {
    fn copy(&self, _alloc: Global) -> Result<NoLoad, NoMemory> {
        Ok(NoLoad)
    }
}
