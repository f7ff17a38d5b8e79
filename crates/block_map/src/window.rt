//! Where the zone of a row is sought.
ghost use Rattle.std.specs.Prelude.{◌+◌, ◌-◌, ◌*◌, ◌<◌, ◌≤◌};

/// The zone of a row is that of the text row `low`, or of one from `next` on before `high`. That of `low` begins at the
/// row `start`, and that of `high` at `end` or after it. Before that of `low` the stops above lines have `above` rows.
#[derive(Clone, Copy)]
pub(crate) struct Window {
    pub(crate) low: u32,
    pub(crate) start: u32,
    pub(crate) above: u32,
    pub(crate) next: u32,
    pub(crate) high: u32,
    pub(crate) end: u32,
}

impl Window {
    /// The text row to look at for a row, of which at most `room` stay open on either side. It is taken by share if no
    /// more than `room` are open, and else from the middle.
    pub(crate) fn guess(self, row: u32, room: u32) -> u32
        // Text rows are open, at most `room` on either side of the middle, and the row lies between the ends.
        requires some { self.next < self.high }
        requires order { self.low ≤ self.high }
        requires before { self.start ≤ row }
        requires behind { row < self.end }
        requires room { self.high ≤ self.next + (2 * room + 1) }

        // An open text row. Whichever side of it is left, no more than `room` stay open.
        ensures from { self.next ≤ result }
        ensures upto { result < self.high }
        ensures open_before { result - self.next ≤ room }
        ensures open_behind { self.high - (result + 1) ≤ room }
    {
        let open = self.high - self.next;
        if open <= room {
            self.by_share(row)
        } else {
            self.next + open / 2
        }
    }

    /// The text row that has the same share of those between the ends before it as a row has of the rows there.
    fn by_share(self, row: u32) -> u32
        // Text rows are open, and the row lies between the ends.
        requires some { self.next < self.high }
        requires order { self.low ≤ self.high }
        requires before { self.start ≤ row }
        requires behind { row < self.end }

        // An open text row, whatever the share.
        ensures from { self.next ≤ result }
        ensures upto { result < self.high }
    {
        let wide = (self.high - self.low) as u64;
        let before = (row - self.start) as u64;
        let share = before * wide / (self.end - self.start) as u64;
        let there = self.low + share.min(wide) as u32;
        there.max(self.next).min(self.high - 1)
    }
}
