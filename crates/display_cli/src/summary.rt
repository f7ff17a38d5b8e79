//! The line in place of the answers where text and script are made.
ghost use Rattle.std.specs.Prelude.{◌≡◌, OnOk};
ghost use Rattle.display_cli.specs.inside.Opening.{Reports};

use display_map::Display;
use script_runner::{Sink, Stop, Tally, write_summary};
use std::alloc::Global;

/// Writes the summary of a play that came to its script's end.
pub(crate) fn report<K: Sink>(
    alloc: Global,
    played: Result<Tally, Stop>,
    display: &Display,
    out: &mut K,
) -> Result<Tally, Stop>
    ensures reports { Reports played display.now (K.state out.old) (K.state out.new) result }
    ensures same { OnOk result (result ≡ played) }
{
    let tally = played?;
    write_summary(alloc, display, tally, out)?;
    Ok(tally)
}
