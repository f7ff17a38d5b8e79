//! What a block map shows at one moment.
ghost use Rattle.std.specs.Prelude.{ℕ, ◌≡◌, ◌==◌, ◌+◌, ◌-◌, ◌*◌, ◌^◌, ◌<◌, ◌≤◌, if◌then◌else◌, IfOk, IfSome, IsSome, Some, length, max, slice_get};
ghost use Rattle.cell_units.specs.declared.place.Bias.TheVariants.{Left};
ghost use Rattle.cell_units.specs.Rows.{all_rows, line_rows};
ghost use Rattle.plain_rows.specs.Rows.{head_kind, more_kind};
ghost use Rattle.sum_tree.specs.Bounds.{way};
ghost use Rattle.block_map.specs.Between.{Between, IsLastBegun, IsTextAt, block_row, place_of_row, rows_between, rows_by_line, rows_to};
ghost use Rattle.block_map.specs.Bounds.{TakesBetween, both_ways, finding, locating, reading, zoning};
ghost use Rattle.plain_rows.specs.ShownRows.{letter_of, row_of_shown, shown_row};
ghost use Rattle.block_map.specs.Stops.{rows_upto, texts_at};
ghost use Rattle.block_map.specs.inside.Seekings.{IsPlace, IsWindow, IsZoneStart};
ghost use Rattle.block_map.specs.inside.Zones.{IsBetween, IsInZone, text_row, zone, zone_start};

use crate::stops::Stops;
use crate::window::Window;
use cell_units::{Bias, NoMemory, Rows, Steps, Text};
use plain_rows::{Kind, Shown};
use std::alloc::Global;
use std::marker::Model;

/// How many times as many text rows as there are may be open at first, where each look halves that. It is 2^4, so there
/// is room for four looks that say little.
const SPARE_ROOM: u32 = 16;

/// Rows of lines with blocks between them. Contracts see the lines, and the stops of the blocks above and below them.
pub struct BlockSnapshot<R: Rows> {
    pub(crate) rows: R,
    pub(crate) above: Stops,
    pub(crate) below: Stops,
}

impl<R: Rows> Drop for BlockSnapshot<R> {
    fn drop(self) {
        let BlockSnapshot {
            rows: _,
            above: _,
            below: _,
        } = self;
    }
}

impl<R: Rows> Model for BlockSnapshot<R> {
    ghost use Rattle.block_map.specs.Between.{Between};
    ghost use Rattle.block_map.specs.inside.Zones.{IsBetween};

    ghost Value = { Between };

    ghost view = { λ s. record { lines = R.shown s.rows; above = s.above; below = s.below } };

    ghost invariant = { λ s.
        IsBetween (record { lines = R.shown s.rows; above = s.above; below = s.below }) };
}

/// Where a row lies: in the zone of which text row, and how far in it. Before that zone the stops above lines have
/// `above` rows, and those below lines `below`. Where the zone is known to have no row of a block it is `plain`.
#[derive(Clone, Copy)]
pub(crate) struct Place {
    pub(crate) text_row: u32,
    pub(crate) at: u32,
    pub(crate) above: u32,
    pub(crate) below: u32,
    pub(crate) plain: bool,
}

/// The row at which a zone begins. Before it there are `blocks` rows of blocks, and `above` of these are above lines.
/// There are as many before the zone of each text row from `from` on before `to`.
#[derive(Clone, Copy)]
struct ZoneStart {
    row: u32,
    blocks: u32,
    above: u32,
    from: u64,
    to: u64,
}

impl ZoneStart {
    /// The place of a row, if it is the first of its zone and the look says how many rows of blocks are before that.
    fn place_of(self, row: u32) -> Option<Place>
        requires { self.above ≤ self.blocks }
        ensures told { (t : ℕ) → self.from ≤ t → t < self.to → t + self.blocks ≡ row →
            IsSome result }
        ensures place { (b : Between) (t : ℕ) → IsZoneStart b t self →
            IsBetween b → row < length (rows_between b) →
            IfSome result (λ p. IsInZone b row p.text_row p.at × IsPlace b p) }
    {
        if row < self.blocks {
            return None;
        }
        let text_row = row - self.blocks;
        let behind = text_row as u64 + 1;
        if behind <= self.from || self.to < behind {
            return None;
        }
        Some(Place {
            text_row,
            at: 0,
            above: self.above,
            below: self.blocks - self.above,
            plain: behind < self.to,
        })
    }
}

impl<R: Rows> BlockSnapshot<R> {
    /// An equal snapshot, which no later change of a map reaches. It allocates nothing, and fails with `NoMemory` only
    /// where the count of holders is full.
    pub fn share(&self) -> Result<BlockSnapshot<R>, NoMemory>
        ensures { IfOk result (λ s. s ≡ self.now) }
    {
        Ok(BlockSnapshot {
            rows: self.rows.share()?,
            above: self.above.share()?,
            below: self.below.share()?,
        })
    }

    /// The number of text rows.
    pub(crate) fn text_rows(&self) -> u32
        ensures count { result ≡ length (all_rows self.now.lines) }
        ensures lawful { IsBetween self.now }
    {
        let lines = self.rows.lines();
        self.rows.rows_before(lines)
    }

    /// The number of rows.
    pub fn row_count(&self) -> u32
        ensures { result ≡ length (rows_between self.now) }
    {
        self.text_rows() + self.above.all_rows() + self.below.all_rows()
    }

    /// Where a zone begins.
    fn zone_start(&self, text_row: u32, steps: &mut Steps) -> ZoneStart
        requires { text_row ≤ length (all_rows self.now.lines) }
        ensures start { IsZoneStart self.now text_row result }
        ensures counted { steps.old ≤ steps.new }
        ensures steps { TakesBetween both_ways self.now steps.old steps.new }
    {
        // For the proof: all rows together are a u32.
        let _count = self.text_rows();
        let above = self.above.look(text_row, Bias::Left, steps);
        let below = self.below.look(text_row, Bias::Right, steps);
        let blocks = above.rows + below.rows;
        ZoneStart {
            row: text_row + blocks,
            blocks,
            above: above.rows,
            from: above.from.max(below.from),
            to: above.to.min(below.to),
        }
    }

    /// The zone in which a row lies.
    pub(crate) fn place_of(&self, row: u32, steps: &mut Steps) -> Place
        // The row is there.
        requires { row < length (rows_between self.now) }

        // How far in its zone the row is, and how many rows of blocks each side has before that zone.
        ensures zone { IsInZone self.now row result.text_row result.at }
        ensures place { IsPlace self.now result }

        // The work: at most 32 looks, each of one way down each side.
        ensures counted { steps.old ≤ steps.new }
        ensures steps { TakesBetween zoning self.now steps.old steps.new }
    {
        let mut window = Window {
            low: 0,
            start: 0,
            above: 0,
            next: 1,
            high: self.text_rows(),
            end: self.row_count(),
        };
        // Each look halves it. Beside those that halving takes there is room for some that say little.
        let mut room = window.high.saturating_mul(SPARE_ROOM);
        'seek: while window.next < window.high {
            room /= 2;
            let guess = window.guess(row, room);
            let start = self.zone_start(guess, steps);
            if let Some(place) = start.place_of(row) {
                return place;
            }
            window = self.narrowed(window, guess, start, row);
        }
        Place {
            text_row: window.low,
            at: row - window.start,
            above: window.above,
            below: window.start - window.low - window.above,
            plain: false,
        }
    }

    /// The window that a look at the start of a zone leaves. A text row farther is at least a row farther: so it is cut
    /// at both ends.
    fn narrowed(&self, window: Window, guess: u32, start: ZoneStart, row: u32) -> Window
        // The row lies in the window, and the look was at one of its open text rows.
        requires window { IsWindow self.now row window }
        requires from { window.next ≤ guess }
        requires upto { guess < window.high }
        requires start { IsZoneStart self.now guess start }

        // The row lies in this one too, and no more stay open than were before the look or after it.
        ensures window { IsWindow self.now row result }
        ensures cut { let before = guess - window.next in
            let behind = window.high - (guess + 1) in
            result.high - result.next ≤ max before behind }
    {
        if start.row > row {
            let first = guess - (start.row - row).min(guess);
            return Window {
                next: window.next.max(first),
                high: guess,
                end: start.row,
                ..window
            };
        }
        let later = Window {
            low: guess,
            start: start.row,
            above: start.above,
            next: guess + 1,
            ..window
        };
        let behind = guess + (row - start.row) + 1;
        if behind < window.high {
            return Window {
                high: behind,
                end: row + 1,
                ..later
            };
        }
        later
    }

    /// The row of this number, counted from 0. `None` exactly past the last row.
    pub fn row(&self, alloc: Global, row: u32, steps: &mut Steps) -> Result<Option<Shown>, NoMemory>
        ensures row { IfOk result (λ shown.
            shown_row shown ≡ slice_get (rows_between self.now) row) }
        ensures counted { steps.old ≤ steps.new }
        ensures steps { TakesBetween reading self.now steps.old steps.new }
    {
        // For the proof: stops are between lines.
        let _count = self.text_rows();
        if row >= self.row_count() {
            return Ok(None);
        }
        let place = self.place_of(row, steps);
        Ok(Some(self.row_at(alloc, place, steps)?))
    }

    /// The row at a place.
    fn row_at(&self, alloc: Global, place: Place, steps: &mut Steps) -> Result<Shown, NoMemory>
        // The zone has a row at the place.
        requires place { IsPlace self.now place }
        requires there { place.at < length (zone self.now place.text_row) }

        // That row of the zone.
        ensures row { IfOk result (λ shown.
            slice_get (zone self.now place.text_row) place.at ≡ Some (row_of_shown shown)) }

        // The work: one way down counts the rows above the line, and another finds the text of a block.
        ensures counted { steps.old ≤ steps.new }
        ensures steps { TakesBetween finding self.now steps.old steps.new }
    {
        // For the proof: each text row is a u32.
        let _count = self.text_rows();
        let above = self.rows_above(place, steps);
        if place.at < above {
            let text = self
                .above
                .text_at(place.text_row, place.above, place.at, steps);
            return block_row(alloc, text);
        }
        if place.at == above {
            return self.text_row(alloc, place.text_row);
        }
        let at = place.at - above - 1;
        let text = self
            .below
            .text_at(place.text_row + 1, place.below, at, steps);
        block_row(alloc, text)
    }

    /// A text row.
    fn text_row(&self, alloc: Global, at: u32) -> Result<Shown, NoMemory>
        requires { at < length (all_rows self.now.lines) }
        ensures { IfOk result (λ shown. row_of_shown shown ≡ text_row self.now at) }
    {
        match self.rows.line_at(at) {
            None => unreachable!(),
            Some((line, row)) => Ok(Shown {
                kind: kind_of(row),
                text: self.rows.row_text(alloc, line, row)?,
            }),
        }
    }

    /// The row at which a text row of a line is. All are counted from 0.
    pub fn row_of(&self, line: u32, row: u32, steps: &mut Steps) -> u32
        // The line is there, and has such a row.
        requires line { line < length self.now.lines }
        requires row { row < length (line_rows self.now.lines line) }

        // It counts the rows of lines and of blocks before it.
        ensures place { result ≡ place_of_row self.now line row }

        // The work: one way down each side.
        ensures counted { steps.old ≤ steps.new }
        ensures steps { TakesBetween both_ways self.now steps.old steps.new }
    {
        // For the proof: all rows together are a u32.
        let _count = self.text_rows();
        let text_row = self.rows.rows_before(line) + row;
        let above = self.above.rows_upto(text_row, Bias::Right, steps);
        let below = self.below.rows_upto(text_row, Bias::Right, steps);
        text_row + above + below
    }

    /// The row at which a line begins with the blocks above it: how many rows all lines before it have, with theirs.
    /// That of the number of lines is the number of rows.
    pub fn start_of(&self, line: u32, steps: &mut Steps) -> u32
        requires { line ≤ length self.now.lines }
        ensures start { result ≡ rows_to line (rows_by_line self.now) }
        ensures counted { steps.old ≤ steps.new }
        ensures steps { TakesBetween both_ways self.now steps.old steps.new }
    {
        // For the proof: all rows together are a u32, and no line begins past them.
        let _count = self.text_rows();
        let text_row = self.rows.rows_before(line);
        self.zone_start(text_row, steps).row
    }

    /// The line whose text row is at a row, and which of its text rows that is. `None` exactly at a block's row and
    /// past the last row.
    pub fn text_at(&self, row: u32, steps: &mut Steps) -> Option<(u32, u32)>
        ensures text { IsTextAt self.now row result }
        ensures counted { steps.old ≤ steps.new }
        ensures steps { TakesBetween locating self.now steps.old steps.new }
    {
        // For the proof: stops are between lines.
        let _count = self.text_rows();
        if row >= self.row_count() {
            return None;
        }
        let place = self.place_of(row, steps);
        if place.at != self.rows_above(place, steps) {
            return None;
        }
        self.rows.line_at(place.text_row)
    }

    /// The last line of which the text rows begin at or before a row, and the first line at the rows of blocks above
    /// it.
    pub fn line_of_row(&self, row: u32, steps: &mut Steps) -> u32
        requires { row < length (rows_between self.now) }
        ensures line { IsLastBegun self.now row result }
        ensures counted { steps.old ≤ steps.new }
        ensures steps { TakesBetween locating self.now steps.old steps.new }
    {
        // For the proof: stops are between lines.
        let _count = self.text_rows();
        let place = self.place_of(row, steps);
        let Some((line, at)) = self.rows.line_at(place.text_row) else {
            unreachable!()
        };
        if line > 0 && at == 0 && place.at < self.rows_above(place, steps) {
            return line - 1;
        }
        line
    }

    /// How many rows of blocks are in a place's zone above the line, before its text row.
    pub(crate) fn rows_above(&self, place: Place, steps: &mut Steps) -> u32
        requires { IsPlace self.now place }
        ensures count { result ≡ length (texts_at place.text_row self.now.above) }
        ensures counted { steps.old ≤ steps.new }
        ensures steps { TakesBetween way self.now steps.old steps.new }
    {
        if place.plain {
            return 0;
        }
        self.above.rows_at(place.text_row, place.above, steps)
    }

    /// How many rows of blocks are in a place's zone below the line, after its text row.
    pub(crate) fn rows_below(&self, place: Place, steps: &mut Steps) -> u32
        requires { IsPlace self.now place }
        ensures count { result ≡ length (texts_at (place.text_row + 1) self.now.below) }
        ensures counted { steps.old ≤ steps.new }
        ensures steps { TakesBetween way self.now steps.old steps.new }
    {
        if place.plain {
            return 0;
        }
        // For the proof: each text row is a u32.
        let _count = self.text_rows();
        self.below.rows_at(place.text_row + 1, place.below, steps)
    }
}

/// The kind of a line's text row.
pub(crate) fn kind_of(row: u32) -> Kind
    ensures { letter_of result ≡ (if row == 0 then head_kind else more_kind) }
{
    if row == 0 { Kind::Head } else { Kind::More }
}

/// A row of a block.
pub(crate) fn block_row(alloc: Global, text: &Text) -> Result<Shown, NoMemory>
    ensures { IfOk result (λ shown. row_of_shown shown ≡ block_row text.now) }
{
    Ok(Shown {
        kind: Kind::Block,
        text: Text::from_str(alloc, text.as_str())?,
    })
}
