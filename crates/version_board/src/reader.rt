//! A reader: it looks at the newest version, and never waits.
use crate::kept::Kept;
use crate::seats::{Seat, enter};
use crate::writer::Told;
use display_map::Version;
use std::marker::Model;

/// One that looks at the board. It is seen as what it knows of the row: each version up to the newest that it saw or
/// learnt of, which it keeps.
pub struct Reader {
    pub(crate) seat: Option<Seat>,
    pub(crate) kept: Kept,
}

impl Drop for Reader {
    fn drop(self) {
        let Reader { seat: _, kept: _ } = self;
    }
}

impl Model for Reader {
    ghost use Rattle.version_board.specs.Known.{Known};

    ghost Value = { Known };

    ghost use Rattle.std.specs.Prelude.{MatchOption};
    ghost use Rattle.version_board.specs.Rows.{IsRowTo};
    ghost use Rattle.version_board.specs.inside.Ties.{IsTied, known_at};

    ghost view = { λ r. r.kept };

    ghost invariant = { λ r.
        IsRowTo r.kept.row r.kept.newest
        × MatchOption r.seat (Unit {0}) (λ seat. IsTied r.kept.board (known_at seat.place)) };
}

impl Reader {
    ghost use Rattle.std.specs.Prelude.{◌≡◌, true, All, IfSome};
    ghost use Rattle.std.specs.Borrow.{sem};
    ghost use Rattle.std.specs.Option.{ForSome};
    ghost use Rattle.display_map.specs.Replay.{ends};
    ghost use Rattle.version_board.specs.Known.{GoesOn};
    ghost use Rattle.version_board.specs.Looking.{Sees};
    ghost use Rattle.version_board.specs.Rows.{BeginsWith};

    /// The newest version, where the board can be entered and the version shared, and else the one that this reader
    /// keeps. It waits for nobody.
    pub fn look(&mut self) -> &Version
        ensures* sees { sem 𝓛 (Sees self.entry result.now) }
        ensures begins { All (λ v. BeginsWith result.now v) self.old.row }
        ensures last { ends self.old.newest.events ≡ true → result.now ≡ self.old.newest }
    {
        let found = self.enter();
        self.keep(found);
        self.kept.version()
    }

    /// What is shown, where it is later than what is kept, and the board can be entered and the version shared.
    fn enter(&mut self) -> Option<Kept>
        ensures board { IfSome result (λ found. found.board ≡ self.old.board) }
        ensures same { self.new ≡ self.old }
    {
        let number = self.kept.version().number();
        let (seat, found) = enter(self.seat.take()?, number);
        self.seat = Some(seat);
        found
    }

    /// Keeps what was found, if it is later than what is kept.
    fn keep(&mut self, found: Option<Kept>)
        requires { ForSome found (λ found. found.board ≡ self.old.board) }
        ensures this { GoesOn self.old self.new }
        ensures that { IfSome found (λ found. GoesOn found self.new) }
    {
        if let Some(found) = found {
            self.kept.take_in(found);
        }
    }

    /// Learns of the version that this board's writer named (*Row of versions*).
    pub fn learn(&mut self, told: Told)
        requires { told.board ≡ self.old.board }
        ensures this { GoesOn self.old self.new }
        ensures that { GoesOn told self.new }
    {
        let Told { kept } = told;
        self.keep(Some(kept));
    }
}
