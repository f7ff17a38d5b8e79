//! Laws of the blocks of a record.
ghost use Rattle.blocked_rows.specs.Wrapped.{LandsLines, SplicesRows};
ghost use Rattle.blocked_rows.specs.Laws.{AddsToRecord, AreAsMany, BeginsLines, FindsLines, FollowsOperations, FollowsRows, HaveIds, MovesWithRecord, ShowsLines, ShowsRows, PlacesBlocks, TakesFromRecord};

use block_map::block_laws;

/// The blocks of a record, each shown at its line between the rows of the record's lines, show the rows of the record.
/// What an operation makes of them are the blocks of the record after it. It does nothing.
pub fn blocked_laws()
    // What is shown is what the record shows.
    ensures lines { ShowsLines }
    ensures rows { ShowsRows }
    ensures begins { BeginsLines }
    ensures finds { FindsLines }

    // They are the blocks of the record.
    ensures places { PlacesBlocks }
    ensures ids { HaveIds }
    ensures many { AreAsMany }

    // And they stay so.
    ensures adds { AddsToRecord }
    ensures takes { TakesFromRecord }
    ensures moves { MovesWithRecord }
{
    // For the proof: stops at the lines of blocks show what the record shows.
    block_laws();
}

/// What a change of the blocks of a record may be given, after an operation and where rows alone change. It does
/// nothing.
pub fn followed_laws()
    ensures operations { FollowsOperations }
    ensures rows { FollowsRows }
{}

/// What a wrap map returns is what these laws ask: where lines were replaced, and where a run of lines landed. It does
/// nothing.
pub fn wrapped_laws()
    ensures splices { SplicesRows }
    ensures lands { LandsLines }
{}
