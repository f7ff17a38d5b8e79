//! What is done with every view of a split.
ghost use Rattle.std.specs.Prelude.{◌≡◌, ◌+◌, ◌≤◌, [], ◌∷◌, length, map, true, false, IfOk, OnErr, OnOk};
ghost use Rattle.std.specs.List.{All};
ghost use Rattle.display_map.specs.Events.{Published, event_limit};
ghost use Rattle.display_map.specs.Replay.{appended, is_settled, present_of};
ghost use Rattle.split_views.specs.Whole.{ArePublished, OfEach, IsOneFull};
ghost use Rattle.split_views.specs.Wrapping.{HasBegun, HasWrapped, IsIdle};

use crate::split::SplitOn;
use cell_units::{NoMemory, Steps};
use kept_sheet::{JobSheet, Sheet};
use std::alloc::Global;

impl<S: Sheet> SplitOn<S> {
    /// Publishes each view as it is, as its last version or not. If it is out of memory the first ones are published.
    pub fn publish_all(&mut self, alloc: Global, last: bool) -> Result<(), NoMemory>
        requires { All (λ h. length h.events + 1 ≤ event_limit) self.old }
        ensures published { OnOk result
            (self.new ≡ map (λ h. appended h (Published last ∷ [])) self.old) }
        ensures some { OnErr result (ArePublished last self.old self.new) }
    {
        for view in 0..self.views() {
            let _version = self.publish(alloc, view, last)?;
        }
        Ok(())
    }
}

impl<S: JobSheet> SplitOn<S> {
    /// Settles one view after another. `true` means that every line of each is wrapped at its width, and `false` that
    /// the journal of one has no room for the events of one more run.
    pub fn settle_all(&mut self, alloc: Global, steps: &mut Steps) -> Result<bool, NoMemory>
        requires idle { All IsIdle self.old }
        // Runs of each view are wrapped, and then again no job is out.
        ensures count { length self.new ≡ length self.old }
        ensures wrapped { OnOk result (OfEach HasWrapped self.old self.new) }
        ensures idle { OnOk result (All IsIdle self.new) }
        // What the result says.
        ensures settled { IfOk result (λ all. all ≡ true →
            All (λ h. is_settled (present_of h) ≡ true) self.new) }
        ensures full { IfOk result (λ all. all ≡ false → IsOneFull 3 self.new) }
        // What is there after it was out of memory.
        ensures begun { OnErr result (OfEach HasBegun self.old self.new) }
        // The work.
        ensures counted { steps.old ≤ steps.new }
    {
        for view in 0..self.views() {
            if !self.settle(alloc, view, steps)? {
                return Ok(false);
            }
        }
        Ok(true)
    }
}
