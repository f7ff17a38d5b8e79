//! Making a board, with its writer and its readers.
ghost use Rattle.std.specs.Prelude.{◌≡◌, ◌≤◌, [], ◌∷◌, IfOk, replicate, vec_len};
ghost use Rattle.version_board.specs.Rows.{IsFirst};
ghost use Rattle.version_board.specs.inside.Ties.{IsTied, known_at};

use crate::kept::{Kept, open};
use crate::reader::Reader;
use crate::seats::{Desk, enroll, publish_first};
use crate::shown::Shown;
use crate::writer::Writer;
use cell_units::NoMemory;
use display_map::Version;
use std::alloc::Global;
use std::sync::{Arc, Wait};

/// So many readers, which have no place at a board yet.
fn unseated(alloc: Global, newest: &Kept, readers: u32) -> Result<Vec<Reader>, NoMemory>
    ensures { IfOk result (λ team. team.items ≡ replicate readers newest.now) }
{
    let mut team = Vec::new(alloc);
    for _made in 0..readers {
        team.push(Reader {
            seat: None,
            kept: newest.share()?,
        })?;
    }
    Ok(team)
}

/// Gives each reader a place, as long as there is one.
fn seat_all(desk: &mut Desk, newest: &Kept, team: &mut Vec<Reader>)
    requires tied { IsTied newest.now.board (known_at desk.old.desk.place) }
    requires team { team.old.items ≡ replicate (vec_len team.old) newest.now }
    ensures team { team.new.items ≡ team.old.items }
    ensures shown { desk.new.desk.shown ≡ desk.old.desk.shown }
{
    for at in 0..team.len() {
        let reader = &mut team[at];
        reader.seat = enroll(desk);
    }
}

/// The two copies of what a board shows.
fn both(newest: &Kept) -> Result<(Shown, Shown), NoMemory>
    ensures { IfOk result (λ two. (two.0.kept ≡ newest.now) × (two.1.kept ≡ newest.now)) }
{
    let one = newest.share()?;
    let other = newest.share()?;
    Ok((Shown { kept: one }, Shown { kept: other }))
}

/// A board that shows a first version, by its writer and so many readers, who all know that version. A reader for whom
/// there is no place gives what it keeps. The writer has to be ended by `close`.
pub fn board<R: Wait>(
    rt: &R,
    alloc: Global,
    first: Version,
    readers: u32,
) -> Result<(Writer, Vec<Reader>), NoMemory>
    // The version may open a row, and there is a place for each reader.
    requires first { IsFirst first }
    requires readers { readers ≤ 8 }

    // The writer knows a row of that version alone.
    ensures row { IfOk result (λ made. made.0.row ≡ first ∷ []) }
    ensures newest { IfOk result (λ made. made.0.newest ≡ first) }

    // Each reader knows what the writer knows.
    ensures readers { IfOk result (λ made. made.1.items ≡ replicate readers made.0) }
{
    let (head, newest) = open(Arc::new(alloc, first)?);
    let mut team = unseated(alloc, &newest, readers)?;
    let (one, other) = both(&newest)?;
    let again = newest.share()?;
    let desk = Desk::new(alloc, one, other, readers.max(1) as usize)?;
    let (mut desk, done) = publish_first(rt, desk, again);
    let Ok(()) = done else {
        let _shown = desk.take(rt);
        return Err(NoMemory);
    };
    seat_all(&mut desk, &newest, &mut team);
    Ok((Writer { desk, head, newest }, team))
}
