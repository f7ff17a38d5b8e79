//! Laws of splices, and of what a `sync` returns.
ghost use Rattle.fold_map.specs.MetLines.{FoldedMeets, OpenedMeets, ReplacedMeets};
ghost use Rattle.fold_map.specs.Splices.{CarryPlaces};

/// Splices of joined folds carry the places of a layer to where they are among its folds. It does nothing.
pub fn place_laws()
    ensures places { CarryPlaces }
{}

/// What a `sync` returns where one thing changed since the last one meets exactly the lines that this touches, before
/// it and after it. Of a fold that was added or removed these are the lines whose spans meet its rows. Of a replacement
/// of the layer's text they are those whose spans meet the spans of the layer's lines that it meets. It does nothing.
pub fn met_laws()
    ensures folded { FoldedMeets }
    ensures opened { OpenedMeets }
    ensures replaced { ReplacedMeets }
{}
