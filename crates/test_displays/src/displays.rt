//! Displays, and what happens to them.
ghost use Rattle.std.specs.Prelude.{◌≡◌, ◌≤◌, [], ◌∷◌, length, map, Some, None, Err, IfOk, OnOk, OnErr};
ghost use Rattle.cell_units.specs.declared.fault.Fault.TheVariants.{Refused};
ghost use Rattle.cell_units.specs.declared.fault.Refusal.{Refusal};
ghost use Rattle.display_sheet.specs.Changes.{change_refusal, ops_of};
ghost use Rattle.display_map.specs.Events.{Did, Landed};
ghost use Rattle.display_map.specs.Replay.{appended, present_of};
ghost use Rattle.display_map.specs.Sending.{IsOutstanding, IsRunTaken};

use cell_units::{Fault, NoMemory, Steps};
use display_map::{Change, Display, Held};
use std::alloc::Global;
use wrap_workers::{Finished, Job, do_job};

/// How many operations a change asks for: an entry of an edit counts as one.
fn operations(change: &Change) -> usize
    ensures { length (ops_of change.now) ≤ result }
{
    match change {
        Change::Edit(splices) => splices.len(),
        Change::One(_) => 1,
    }
}

/// Does a change.
pub fn apply(alloc: Global, display: &mut Display, change: &Change) -> Result<(), Fault>
    // When it is done, and what is there after it.
    ensures accepted { OnOk result (change_refusal (present_of display.old) change.now ≡ None) }
    ensures done { OnOk result
        (display.new ≡ appended display.old (map Did (ops_of change.now))) }
    // Why it is refused, and that nothing is changed then.
    ensures refused { (refusal : Refusal) → result ≡ Err (Refused refusal) →
        change_refusal (present_of display.old) change.now ≡ Some refusal }
    ensures unchanged { OnErr result (display.new ≡ display.old) }
{
    if operations(change) > display.room() as usize {
        return Err(Fault::NoMemory);
    }
    display.apply(alloc, change, &mut Steps::new())
}

/// Sends the next run. `None` where no line waits.
pub fn send(alloc: Global, display: &mut Display) -> Result<Option<Job<Held>>, NoMemory>
    ensures taken { IfOk result (IsRunTaken display.old display.new) }
    ensures unchanged { OnErr result (display.new ≡ display.old) }
{
    if display.room() == 0 {
        return Err(NoMemory);
    }
    display.take_run(alloc, &mut Steps::new())
}

/// Does a job that is out, and lands what it gives.
pub fn land(alloc: Global, display: &mut Display, job: Job<Held>) -> Result<(), NoMemory>
    requires { IsOutstanding display.old job }
    ensures landed { OnOk result (display.new ≡ appended display.old (Landed job.number ∷ [])) }
    ensures unchanged { OnErr result (display.new ≡ display.old) }
{
    if display.room() == 0 {
        return Err(NoMemory);
    }
    let Finished::Done(done) = do_job(alloc, job) else {
        return Err(NoMemory);
    };
    match display.land(alloc, done, &mut Steps::new()) {
        Ok(()) => Ok(()),
        Err(_) => Err(NoMemory),
    }
}
