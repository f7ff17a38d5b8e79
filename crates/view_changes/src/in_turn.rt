//! One change of rows for two in turn.
ghost use Rattle.std.specs.Prelude.{◌≡◌};
ghost use Rattle.row_pieces.specs.Changed.{IsTrue, covering, is_nothing, looks};
ghost use Rattle.view_changes.specs.Events.{LedTo};
ghost use Rattle.view_changes.specs.Sizes.{LeadInTurn};

use kept_sheet::Sheet;
use map_sheet::MapSheet;
use row_pieces::RowChange;

/// No row makes place for another.
pub(crate) const NO_ROW: RowChange = RowChange {
    from: 0,
    to: 0,
    count: 0,
};

/// Whether nothing makes place for nothing.
fn is_nothing(change: RowChange) -> bool
    ensures { result ≡ is_nothing change }
{
    change.from == change.to && change.count == 0
}

/// One change of rows for two in turn, of which the second led on from where the first led to: from the first row of
/// both to the last. What replaces nothing adds nothing (*Changed rows*).
pub fn covering(first: RowChange, then: RowChange) -> RowChange
    requires { LeadInTurn first then }
    ensures { result ≡ covering first then }
{
    if is_nothing(first) {
        return then;
    }
    if is_nothing(then) {
        return first;
    }
    let from = first.from.min(then.from);
    let end = first.from + first.count;
    let last = end.max(then.to);
    RowChange {
        from,
        to: first.to + (last - end),
        count: then.from + then.count + (last - then.to) - from,
    }
}

/// The same of a change that led to a sheet, and of one that led from there to another.
pub(crate) fn covering_of(
    between: &MapSheet,
    new: &MapSheet,
    first: RowChange,
    then: RowChange,
) -> RowChange
    requires first { LedTo first between.now }
    requires then { IsTrue then (looks between.now) (looks new.now) }
    ensures { result ≡ covering first then }
{
    // For the proof: the records are lawful, and the rows of each are as many as a u32 counts.
    between.lawful();
    new.lawful();
    let _between = between.row_count();
    let _new = new.row_count();
    covering(first, then)
}
