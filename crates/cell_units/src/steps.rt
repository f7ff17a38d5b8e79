//! A counter of work, for bounds from above.
ghost use Rattle.std.specs.Prelude.{◌≡◌, ◌≤◌};
ghost use Rattle.cell_units.specs.Steps.{ticked};

use std::marker::Model;

/// How many steps were made. A step is a tree node that is opened or made. At the greatest u64 it counts no further.
///
/// The calls of trees count on it. The calls of a display and of a script pass it on to the maps that the display is
/// made of, whose trees count each node.
#[derive(Debug, Drop)]
pub struct Steps {
    count: u64,
}

impl Model for Steps {
    ghost use Rattle.std.specs.Prelude.{ℕ};

    ghost Value = { ℕ };

    ghost view = { λ s. s.count };
}

impl Steps {
    /// A counter at 0.
    pub fn new() -> Steps
        ensures { result ≡ 0 }
    {
        Steps { count: 0 }
    }

    /// Counts one step.
    pub fn tick(&mut self)
        ensures value { self.new ≡ ticked self.old }
        ensures counted { self.old ≤ self.new }
    {
        self.count = self.count.saturating_add(1);
    }
}
