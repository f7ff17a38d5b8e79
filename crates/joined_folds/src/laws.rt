//! What a list of joined folds is, and what a change of folds leaves of it.
ghost use Rattle.joined_folds.specs.JoinedLists.{EachIsJoined, EachIsListed, EachIsWithin, NoMoreThanFolds, OneList, SameTests};
ghost use Rattle.joined_folds.specs.Sweeps.{FewInWindow, MeetingAreMet};
ghost use Rattle.joined_folds.specs.Windows.{AddedIsAlike, MovedIsAlike, OthersStay, RemovedIsAlike};

/// A list of joined folds has the maximal chains of folds that overlap, each of them, and nothing else; there is one
/// such list. Each fold lies within one of them, they hide what the folds hide, and there are no more of them than
/// folds. It does nothing.
pub fn joined_laws()
    ensures joined { EachIsJoined }
    ensures listed { EachIsListed }
    ensures one { OneList }
    ensures within { EachIsWithin }
    ensures tests { SameTests }
    ensures few { NoMoreThanFolds }
{}

/// A change of folds within a window leaves the joined folds that don't meet it. Of a fold that is added or removed the
/// window is its range, and of a replacement of text any range that has it within. It does nothing.
pub fn window_laws()
    ensures others_stay { OthersStay }
    ensures added { AddedIsAlike }
    ensures removed { RemovedIsAlike }
    ensures moved { MovedIsAlike }
{}

/// From which ranges of a tree the joined folds of a window are made. And that they are at most one more than these. It
/// does nothing.
pub fn sweep_laws()
    ensures met { MeetingAreMet }
    ensures few { FewInWindow }
{}
