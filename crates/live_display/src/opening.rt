//! Opening: version 0, a crew and a board.
ghost use Rattle.std.specs.Prelude.{◌≡◌, ◌≤◌, ◌↔◌, ◌∷◌, [], false, None, IfErr, IfOk, IfSome, OnErr, OnOk, replicate, vec_len};
ghost use Rattle.display_map.specs.Events.{Published};
ghost use Rattle.display_map.specs.Replay.{appended};
ghost use Rattle.live_display.specs.Owned.{HasOpened, IsUnopened};

use crate::owner::Owner;
use cell_units::{NoMemory, Steps};
use display_map::{Display, Held};
use std::alloc::Global;
use std::sync::Wait;
use version_board::{Reader, Writer, board};
use wrap_workers::{Crew, Worker, crew};

/// An owner, with the workers of its crew and the readers of its board, which go to threads of their own.
pub struct Opened {
    pub owner: Owner,
    pub workers: Vec<Worker<Held>>,
    pub readers: Vec<Reader>,
}

/// Publishes version 0 of a display without events, for a crew of 1 to 16 workers and a board of up to 8 readers. Without
/// readers there is no board. Where there is no memory the display comes back.
pub fn open<R: Wait>(
    rt: &R,
    alloc: Global,
    display: Display,
    workers: u32,
    readers: u32,
) -> Result<Opened, Display>
    requires events { display.events ≡ [] }
    requires workers { (1 ≤ workers) × (workers ≤ 16) }
    requires readers { readers ≤ 8 }

    // The owner, and where there is none what comes back.
    ensures opened { IfOk result (HasOpened display workers readers) }
    ensures workers { IfOk result (λ o. vec_len o.workers ≡ workers) }
    ensures unopened { IfErr result (IsUnopened display) }
{
    let mut display = display;
    let Ok((crew, team)) = crew(alloc, workers) else {
        return Err(display);
    };
    match publish_first(rt, alloc, &mut display, readers) {
        Ok((writer, readers)) => Ok(Opened {
            owner: Owner {
                alloc,
                display,
                crew,
                writer,
                steps: Steps::new(),
            },
            workers: team,
            readers,
        }),
        Err(NoMemory) => Err(display),
    }
}

/// Publishes version 0, and makes a board that shows it, where there are readers.
fn publish_first<R: Wait>(
    rt: &R,
    alloc: Global,
    display: &mut Display,
    readers: u32,
) -> Result<(Option<Writer>, Vec<Reader>), NoMemory>
    // The display has no event yet, and a board has room for the readers.
    requires events { display.old.events ≡ [] }
    requires readers { readers ≤ 8 }

    // Memory runs out before version 0 is published, or before it is shown.
    ensures published { OnOk result
        (display.new ≡ appended display.old (Published false ∷ [])) }
    ensures unopened { OnErr result (IsUnopened display.old display.new) }

    // Without readers there is no writer, and a writer's newest version is version 0.
    ensures board { IfOk result (λ made. (made.0 ≡ None) ↔ (readers ≡ 0)) }
    ensures newest { IfOk result
        (λ made. IfSome made.0 (λ writer. writer.newest ≡ display.new)) }

    // There are as many readers as asked for, and each knows what the writer knows.
    ensures readers { IfOk result
        (λ made. IfSome made.0 (λ writer. made.1.items ≡ replicate readers writer)) }
    ensures none { IfOk result (λ made. readers ≡ 0 → made.1.items ≡ []) }
{
    let first = display.publish(alloc, false)?;
    if readers == 0 {
        return Ok((None, Vec::new(alloc)));
    }
    let (writer, readers) = board(rt, alloc, first, readers)?;
    Ok((Some(writer), readers))
}
