//! A change that is made beside a display, and taken later without memory. So a change reaches several displays or none.
ghost use Rattle.std.specs.Prelude.{◌≡◌, ◌+◌, ◌≤◌, ◌∷◌, None, length, map, IfErr, IfOk, OnOk};
ghost use Rattle.display_sheet.specs.Changes.{change_refusal, ops_of};
ghost use Rattle.display_map.specs.Events.{Did, Line, event_limit};
ghost use Rattle.display_map.specs.Prepared.{IsOwed};
ghost use Rattle.display_map.specs.Replay.{appended, present_of};

use crate::display::DisplayOn;
use crate::view::ViewOn;
use cell_units::{Fault, Steps};
use display_sheet::Change;
use kept_sheet::Sheet;
use map_sheet::MapSheet;
use std::alloc::Global;
use std::marker::Model;

/// What a change makes of a display. It is seen as the display's history before the change and after it.
pub struct PreparedOn<S: Sheet> {
    before: ViewOn<S>,
    display: DisplayOn<S>,
}

impl<S: Sheet> Drop for PreparedOn<S> {
    fn drop(self) {
        let PreparedOn {
            before: _,
            display: _,
        } = self;
    }
}

/// A prepared change of the product's display.
pub type Prepared = PreparedOn<MapSheet>;

impl<S: Sheet> Model for PreparedOn<S> {
    ghost use Rattle.display_map.specs.Prepared.{PreparedParts};

    ghost Value = { PreparedParts };

    ghost view = { λ p. record { before = p.before; after = p.display } };
}

impl<S: Sheet> PreparedOn<S> {
    /// The display after the change.
    fn into_display(self) -> DisplayOn<S>
        ensures { result ≡ self.after }
    {
        let PreparedOn { before: _, display } = self;
        display
    }
}

impl<S: Sheet> DisplayOn<S> {
    /// What `note_line` of this number and then `apply` of the change would make of the display, which stays as it is.
    /// It is refused as `apply` refuses the change, but out of memory may come in place of a refusal.
    pub fn prepare(
        &self,
        alloc: Global,
        number: u64,
        change: &Change,
        steps: &mut Steps,
    ) -> Result<PreparedOn<S>, Fault>
        // The journal has room for the line and for an event of each operation.
        requires room { length self.now.events + (length (ops_of change.now) + 1) ≤ event_limit }

        // It is prepared only where no refusal is owed. A refusal is the one that is owed.
        ensures accepted { OnOk result (change_refusal (present_of self.now) change.now ≡ None) }
        ensures before { IfOk result (λ ready. ready.before ≡ self.now) }
        ensures after { IfOk result (λ ready. ready.after
            ≡ appended self.now (Line number ∷ map Did (ops_of change.now))) }
        ensures refused { IfErr result (IsOwed (change_refusal (present_of self.now) change.now)) }

        // The work.
        ensures counted { steps.old ≤ steps.new }
    {
        let before = self.view()?;
        let mut display = self.copied(alloc)?;
        display.note_line(alloc, number)?;
        display.apply(alloc, change, steps)?;
        Ok(PreparedOn { before, display })
    }

    /// Takes a change that was prepared for the display as it is. It takes no memory.
    pub fn commit(&mut self, ready: PreparedOn<S>)
        requires { self.old ≡ ready.before }
        ensures { self.new ≡ ready.after }
    {
        *self = ready.into_display();
    }
}
