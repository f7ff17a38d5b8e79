//! Laws of what a `sync` returns.
ghost use Rattle.inlay_map.specs.Met.{AddedTouches, RemovedTouches, ReplacedTouches};

/// What one change replaces of what is shown meets exactly the lines of the rows that it touches, before it and after
/// it. An inlay that is added or removed touches its row, and a replacement of the text the rows from its start to its
/// end. It does nothing.
pub fn met_laws()
    ensures added { AddedTouches }
    ensures removed { RemovedTouches }
    ensures replaced { ReplacedTouches }
{}
