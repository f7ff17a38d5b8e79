//! Rows filled with the elements of a line, one after another.
ghost use Rattle.std.specs.Prelude.{◌≡◌, ◌⊎◌, ℕ, ◌+◌, ◌^◌, ◌<◌, ◌≤◌, ◌||◌, not, nat_lt, length, true, List, None, IfOk, OnOk};
ghost use Rattle.cell_line.specs.declared.element.Element.{Element};
ghost use Rattle.cell_line.specs.declared.mark.Mark.{Mark};
ghost use Rattle.cell_line.specs.Wrapping.{next_start_of};
ghost use Rattle.cell_line.specs.inside.Filling.{letters_room_at, may_end_at, overflows_at, parts_at, AreNoted, AreNotedSoFar, IsAsked, IsMarkAt, IsOpen, IsTurned};

use crate::mark::Mark;
use crate::wrapping::Cuts;
use cell_units::NoMemory;

/// A row that is being filled.
#[derive(Clone, Copy)]
pub(crate) struct Row {
    /// The number of the element with which it begins.
    pub(crate) start: u32,
    /// The cells of its elements.
    pub(crate) cells: u32,
    /// The last place where it may end.
    pub(crate) well: Option<u32>,
    /// The cells of its elements from there on; all, where there is none.
    pub(crate) since: u32,
}

impl Row {
    /// A row without elements.
    #[inline]
    pub(crate) fn at(start: u32) -> Row
        ensures { result ≡ record { start = start; cells = 0; well = None; since = 0 } }
    {
        Row {
            start,
            cells: 0,
            well: None,
            since: 0,
        }
    }

    /// The row, and where it may end before the element at the place, `parts` being whether it may after the one
    /// before.
    #[inline]
    pub(crate) fn asked(self, lead: u32, at: u32, parts: bool, mark: Mark) -> Row
        ensures start { result.start ≡ self.start }
        ensures asked { (es : List Element) (room : ℕ) →
            IsMarkAt es lead at mark → IsOpen es room at self →
            (self.start < at → parts ≡ parts_at es at) → IsAsked es room at result }
        ensures cells { (result.cells ≡ self.cells) × (result.since ≤ self.since) }
    {
        if self.start < at && may_end(lead, at, parts, mark) {
            return Row {
                start: self.start,
                cells: self.cells,
                well: Some(at),
                since: 0,
            };
        }
        self
    }

    /// The row with the element of the mark.
    #[inline]
    pub(crate) fn with(self, mark: Mark) -> Row
        requires cells { self.cells + mark.cells < 2 ^ 32 }
        requires since { self.since + mark.cells < 2 ^ 32 }
        ensures { result ≡ record {
          start = self.start;
          cells = self.cells + mark.cells;
          well = self.well;
          since = self.since + mark.cells;
        } }
    {
        Row {
            start: self.start,
            cells: self.cells + mark.cells,
            well: self.well,
            since: self.since + mark.cells,
        }
    }

    /// How many letters may follow: none where it has no element, or may end before them.
    #[inline]
    pub(crate) fn letters_room(self, room: u32, at: u32, parts: bool) -> u32
        ensures { result ≡ letters_room_at room self at parts }
    {
        if parts || at <= self.start {
            0
        } else {
            room.saturating_sub(self.cells)
        }
    }

    /// The row with so many letters more.
    #[inline]
    pub(crate) fn with_letters(self, count: u32) -> Row
        requires cells { self.cells + count < 2 ^ 32 }
        requires since { self.since + count < 2 ^ 32 }
        ensures { result ≡ record {
          start = self.start;
          cells = self.cells + count;
          well = self.well;
          since = self.since + count;
        } }
    {
        Row {
            start: self.start,
            cells: self.cells + count,
            well: self.well,
            since: self.since + count,
        }
    }

    /// Where the row after this one begins, which the element at the place overflows.
    pub(crate) fn end(self, at: u32) -> u32
        requires { at + 1 < 2 ^ 32 }
        ensures { (es : List Element) (room lead : ℕ) (mark : Mark) →
            IsMarkAt es lead at mark → IsAsked es room at self →
            overflows_at room lead at self.cells mark ≡ true →
            result ≡ next_start_of es room self.start }
    {
        match self.well {
            Some(well) => well,
            None => { if self.start < at { at } else { at + 1 } }
        }
    }
}

/// Whether a row may end before the element at the place, `parts` being whether it may after the one before.
#[inline]
fn may_end(lead: u32, at: u32, parts: bool, mark: Mark) -> bool
    ensures { result ≡ may_end_at lead at parts mark }
{
    lead < at && !mark.blank && (parts || mark.wide)
}

/// Whether the element at the place overflows the room and may not hang past it.
#[inline]
pub(crate) fn overflows(room: u32, lead: u32, at: u32, cells: u32, mark: Mark) -> bool
    requires { cells + mark.cells < 2 ^ 32 }
    ensures { result ≡ overflows_at room lead at cells mark }
{
    room < cells + mark.cells && (!mark.blank || at < lead)
}

/// Adds the row's start, where the element at the place is its first.
#[inline]
pub(crate) fn begin(starts: &mut Cuts, start: u32, at: u32) -> Result<(), NoMemory>
    requires { start ≤ at }
    ensures { (es : List Element) (room : ℕ) (all : List ℕ) →
        at < length es → AreNotedSoFar es room start at all starts.old.items →
        OnOk result (AreNoted es room start all starts.new.items) }
{
    if start == at {
        starts.push(at)?;
    }
    Ok(())
}

/// The row from where this one may last end, if it may.
fn from_well(starts: &mut Cuts, row: Row) -> Result<Row, NoMemory>
    ensures turned { (es : List Element) (room lead at : ℕ) (mark : Mark) (all : List ℕ) →
        IsMarkAt es lead at mark → IsAsked es room at row →
        overflows_at room lead at row.cells mark ≡ true →
        AreNoted es room row.start all starts.old.items →
        IfOk result (λ next. IsTurned es room at next
        × AreNoted es room next.start all starts.new.items) }
    ensures cells { IfOk result (λ next.
        ((next.cells ≡ row.cells) ⊎ (next.cells ≡ row.since)) × (next.since ≡ row.since)) }
{
    let Some(well) = row.well else {
        return Ok(row);
    };
    starts.push(well)?;
    Ok(Row {
        start: well,
        cells: row.since,
        well: None,
        since: row.since,
    })
}

/// The row from the place, if the element there overflows this one.
fn from_place(starts: &mut Cuts, row: Row, room: u32, at: u32, mark: Mark) -> Result<Row, NoMemory>
    requires { row.cells + mark.cells < 2 ^ 32 }
    ensures turned { (es : List Element) (lead : ℕ) (all : List ℕ) →
        IsMarkAt es lead at mark → IsTurned es room at row →
        (not mark.blank || nat_lt at lead) ≡ true →
        AreNoted es room row.start all starts.old.items →
        IfOk result (λ next. IsTurned es room at next
        × ((next.cells + mark.cells ≤ room) ⊎ (next.start ≡ at))
        × AreNoted es room next.start all starts.new.items) }
    ensures cells { IfOk result (λ next. (next.cells ≤ row.cells) × (next.since ≤ row.since)) }
{
    if row.start < at && room < row.cells + mark.cells {
        starts.push(at)?;
        return Ok(Row::at(at));
    }
    Ok(row)
}

/// The row that has the element at the place as its last, or begins after it. The starts of the rows before are added.
#[inline]
pub(crate) fn fill(
    starts: &mut Cuts,
    row: Row,
    room: u32,
    lead: u32,
    at: u32,
    mark: Mark,
) -> Result<Row, NoMemory>
    requires cells { row.cells + mark.cells < 2 ^ 32 }
    requires since { row.since + mark.cells < 2 ^ 32 }
    requires at { at + 1 < 2 ^ 32 }
    ensures { (es : List Element) (all : List ℕ) →
        IsMarkAt es lead at mark → IsAsked es room at row →
        AreNoted es room row.start all starts.old.items →
        IfOk result (λ next. IsOpen es room (at + 1) next
        × AreNotedSoFar es room next.start (at + 1) all starts.new.items) }
{
    if !overflows(room, lead, at, row.cells, mark) {
        return Ok(row.with(mark));
    }
    let turned = from_well(starts, row)?;
    let last = from_place(starts, turned, room, at, mark)?;
    if room < last.cells + mark.cells {
        return Ok(Row::at(at + 1));
    }
    Ok(last.with(mark))
}
