//! The limits of the program.
ghost use Rattle.std.specs.Prelude.{◌≡◌};
ghost use Rattle.command_line.specs.declared.limits.TheConstants.{WATCHERS_DEFAULT, WATCHERS_MOST, WORKERS_DEFAULT, WORKERS_LEAST, WORKERS_MOST};
ghost use Rattle.edit_script.specs.Commands.{greatest_number};
ghost use Rattle.edit_script.specs.declared.blank.TheConstants.{LINE_LIMIT};
ghost use Rattle.display_map.specs.Events.{event_limit};
ghost use Rattle.live_display.specs.declared.owner.TheConstants.{EVENTS_AHEAD};

/// The greatest length of a script, in bytes.
pub const SCRIPT_LIMIT: usize = 16_777_216;

/// The limits of a run as numbers, beside those of a record, which `limit_laws` of `cell_units` says. It does nothing.
pub fn limit_laws()
    ensures script { (SCRIPT_LIMIT ≡ 16777216) × (LINE_LIMIT ≡ 1048576) }
    ensures numbers { greatest_number ≡ 4294967295 }
    ensures events { (event_limit ≡ 4294967295) × (EVENTS_AHEAD ≡ 3) }
    ensures workers { (WORKERS_LEAST ≡ 1) × (WORKERS_MOST ≡ 16) × (WORKERS_DEFAULT ≡ 1) }
    ensures watchers { (WATCHERS_MOST ≡ 8) × (WATCHERS_DEFAULT ≡ 0) }
{}
