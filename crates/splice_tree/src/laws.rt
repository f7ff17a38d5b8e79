//! What carrying places keeps.
ghost use Rattle.splice_tree.specs.Laws.{BeforeStays, BehindMoves, DontFall, GapsAreKept, InsideGoesToEdges, LeftAtMostRight, ThereAndBack, WiderGapMoves};

/// Gaps are kept, and what lies inside what is taken out goes to the edges of what is put there. Carried places don't
/// fall, and Left is at most Right. Where all that is taken out is replaced by something, a place that is not strictly
/// inside it comes back from where it is carried. Where others replace a run of splices, places before it stay where
/// they were carried, and those after it move by the difference. No call of this function does anything.
pub fn splice_laws()
    ensures gaps { GapsAreKept }
    ensures edges { InsideGoesToEdges }
    ensures dont_fall { DontFall }
    ensures left_at_most_right { LeftAtMostRight }
    ensures there_and_back { ThereAndBack }

    // What a replacement of splices does to the conversions.
    ensures before { BeforeStays }
    ensures behind { BehindMoves }
    ensures gap { WiderGapMoves }
{}
