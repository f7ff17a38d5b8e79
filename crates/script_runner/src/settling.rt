//! What a run does beside the lines of its script: its owner sends runs, lands results and settles.
ghost use Rattle.std.specs.Prelude.{◌≡◌, ◌+◌, ◌<◌, ◌≤◌, length, OnOk, IfErr, IfSome};
ghost use Rattle.display_map.specs.Events.{event_limit};
ghost use Rattle.display_map.specs.Replay.{present_of};
ghost use Rattle.live_display.specs.declared.owner.TheConstants.{EVENTS_AHEAD};
ghost use Rattle.live_display.specs.Beside.{HasGone, IsHalted};
ghost use Rattle.live_display.specs.Owned.{IsBusy, IsOwned, IsSameTeam};
ghost use Rattle.script_runner.specs.declared.stop.Stop.TheVariants as stops;
ghost use Rattle.live_display.specs.Stepping.{WasEmpty};
ghost use Rattle.script_runner.specs.Going.{IsReady, IsAbreast, IsPrepared, HasPrepared, GoesOn, Ends};

use crate::stop::Stop;
use display_map::Display;
use live_display::{EVENTS_AHEAD, Halt, Owner};
use std::sync::Wait;
use wrap_workers::Gate;

/// Whether the journal has room for the events of a step, with so many operations.
pub(crate) fn check_room(display: &Display, operations: usize) -> Result<(), Stop>
    ensures room { OnOk result
        (length display.now.events + EVENTS_AHEAD + operations ≤ event_limit) }
    ensures full { IfErr result (λ stop. (stop ≡ stops.JournalFull)
        × (event_limit < length display.now.events + EVENTS_AHEAD + operations)) }
{
    let room = display.room();
    if room < EVENTS_AHEAD || operations > (room - EVENTS_AHEAD) as usize {
        return Err(Stop::JournalFull);
    }
    Ok(())
}

/// Lands the results that are there.
pub(crate) fn land_ready<R: Wait>(rt: &R, owner: &mut Owner) -> Result<(), Stop>
    requires { IsReady owner.old }
    ensures going { GoesOn owner.old.crew.workers owner.old.display owner.new.display result }
    ensures ready { OnOk result (IsReady owner.new) }
    ensures emptied { OnOk result (WasEmpty owner.new.crew.out) }
    ensures team { IsSameTeam owner.old owner.new }
{
    owner.land_ready(rt)?;
    Ok(())
}

/// Settles where that is wanted, and else sends as many runs as may be.
fn settle_or_send<R: Wait, G: Gate>(
    rt: &R,
    gate: &G,
    owner: &mut Owner,
    settles: bool,
) -> Result<(), Halt>
    requires { IsOwned owner.old }

    // What is reached: no more may be sent. Where it settles no line is left to be wrapped, and else no job landed.
    ensures gone { OnOk result
        (HasGone owner.old.crew.workers owner.old.display owner.new.display) }
    ensures owned { OnOk result (IsOwned owner.new) }
    ensures busy { OnOk result (IsBusy owner.new) }
    ensures prepared { OnOk result (HasPrepared settles owner.old.display owner.new.display) }

    // Where it halts, and the crew.
    ensures halted { IfErr result
        (IsHalted owner.old.crew.workers owner.old.display owner.new.display) }
    ensures team { IsSameTeam owner.old owner.new }
{
    if settles {
        owner.settle(rt, gate)
    } else {
        owner.send_runs(rt)
    }
}

/// Does what is to be done before the next line: as many runs are out as may be, or each line of the display is wrapped
/// at the width, where the line wants that.
pub(crate) fn prepare<R: Wait, G: Gate>(
    rt: &R,
    gate: &G,
    owner: &mut Owner,
    settles: bool,
) -> Result<(), Stop>
    requires { IsReady owner.old }

    // The run may handle its next line, or it stops. Where it settles no display line is left to be wrapped, and else no
    // job was waited for.
    ensures going { GoesOn owner.old.crew.workers owner.old.display owner.new.display result }
    ensures abreast { OnOk result (IsAbreast owner.new) }
    ensures prepared { OnOk result (IsPrepared settles owner.new.display) }

    // The text stays where the run goes on, and the team in any case.
    ensures text { OnOk result
        ((present_of owner.new.display).text ≡ (present_of owner.old.display).text) }
    ensures team { IsSameTeam owner.old owner.new }
{
    settle_or_send(rt, gate, owner, settles)?;
    check_room(&owner.display, 0)
}

/// Settles, lands what is outstanding, and publishes the last version.
pub(crate) fn finish<R: Wait, G: Gate>(rt: &R, gate: &G, owner: &mut Owner) -> Result<(), Stop>
    requires { IsReady owner.old }
    ensures ends { Ends owner.old.crew.workers owner.old.display owner.new.display result }
    ensures shown { OnOk result
        (IfSome owner.new.writer (λ writer. writer.newest ≡ owner.new.display)) }
    ensures team { IsSameTeam owner.old owner.new }
{
    owner.finish(rt, gate)?;
    check_room(&owner.display, 0)?;
    owner.publish(rt, true)?;
    Ok(())
}
