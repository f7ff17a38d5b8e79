//! The lines of what watchers saw.
ghost use Rattle.std.specs.Prelude.{◌≡◌, IfOk, IfErr, OnOk, map};
ghost use Rattle.script_runner.specs.Outside.{Takes};
ghost use Rattle.script_runner.specs.Output.{printed, watch_line, watched_lines};
ghost use Rattle.script_runner.specs.Writing.{IsUnwritten};

use board_watch::{Seen, Watched};
use cell_units::{NoMemory, Text};
use script_runner::{Sink, Stop, write_line};
use std::alloc::Global;

/// The line of what the reader of this number saw of a version.
fn watch_line(alloc: Global, reader: usize, seen: &Seen) -> Result<Text, NoMemory>
    ensures { IfOk result (λ line. line ≡ watch_line reader seen.now) }
{
    let line = format!(in alloc; "watch {} {} {}", reader, seen.version, seen.rows)?;
    Text::from_str(alloc, line.as_str())
}

/// Writes the lines of what the reader of this number saw.
fn write_seen<K: Sink>(alloc: Global, reader: usize, seen: &[Seen], out: &mut K) -> Result<(), Stop>
    ensures written { OnOk result
        (Takes (printed (map (watch_line reader) seen.now)) (K.state out.old) (K.state out.new)) }
    ensures stopped { IfErr result
        (IsUnwritten (printed (map (watch_line reader) seen.now)) (K.state out.old) (K.state out.new)) }
{
    for one in seen {
        let line = watch_line(alloc, reader, one)?;
        write_line(alloc, line.as_str(), out)?;
    }
    Ok(())
}

/// Writes the lines of what each watcher saw, in the order of the readers.
pub(crate) fn write_watched<K: Sink>(
    alloc: Global,
    watched: &[Watched],
    out: &mut K,
) -> Result<(), Stop>
    ensures written { OnOk result
        (Takes (printed (watched_lines watched.now)) (K.state out.old) (K.state out.new)) }
    ensures stopped { IfErr result
        (IsUnwritten (printed (watched_lines watched.now)) (K.state out.old) (K.state out.new)) }
{
    for (reader, one) in watched.iter().enumerate() {
        write_seen(alloc, reader, one.seen.as_slice(), out)?;
    }
    Ok(())
}
