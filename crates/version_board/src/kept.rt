//! A share of a version, with the beginning of the row that it ends.
ghost use Rattle.std.specs.Prelude.{◌≡◌, [], ◌∷◌, IfOk, IfSome};
ghost use Rattle.std.specs.Arc.{arc_value};
ghost use Rattle.version_board.specs.inside.Book.{head_of};
ghost use Rattle.version_board.specs.Known.{GoesOn, AgreeOnRow, added};
ghost use Rattle.version_board.specs.Rows.{Follows, IsFirst, IsRowTo};

use crate::row::{Add, Beginning, Head, NoGain, OneVersion, RowRule};
use display_map::Version;
use logbook::{Offer, Seen, Start, Word};
use std::alloc::{AllocError, Global};
use std::marker::Model;
use std::sync::Arc;

/// It is seen as what is known of a row whose newest known version is this one.
pub struct Kept {
    version: Arc<Version, Global>,
    seen: Beginning,
}

impl Drop for Kept {
    fn drop(self) {
        let Kept {
            version: _,
            seen: _,
        } = self;
    }
}

impl Model for Kept {
    ghost use Rattle.std.specs.Arc.{arc_value};
    ghost use Rattle.version_board.specs.Known.{Known};
    ghost use Rattle.version_board.specs.Rows.{IsRowTo};

    ghost Value = { Known };

    ghost view = { λ k.
        record { board = k.seen.book; row = k.seen.log; newest = arc_value k.version } };

    ghost invariant = { λ k. IsRowTo k.seen.log (arc_value k.version) };
}

impl Kept {
    /// The version that ends the known beginning of the row.
    pub fn version(&self) -> &Version
        ensures { result.now ≡ self.now.newest }
    {
        &self.version
    }

    /// The same once more. It allocates nothing, and fails only where the count of owners of the version is full.
    pub fn share(&self) -> Result<Kept, AllocError>
        ensures same { IfOk result (λ kept. kept ≡ self.now) }
        ensures row { IfOk result (λ kept. IsRowTo kept.row kept.newest) }
    {
        let version = Arc::try_clone(&self.version)?;
        Ok(Kept {
            version,
            seen: self.seen.again(),
        })
    }

    /// One of the rows of two of one board begins the other.
    pub fn compare(&self, other: &Kept)
        requires { other.now.board ≡ self.now.board }
        ensures { AgreeOnRow self.now other.now }
    {
        let mut both = self.seen.again();
        both.learn(&other.seen);
    }

    /// Becomes the later of the two.
    pub fn take_in(&mut self, other: Kept)
        requires { other.board ≡ self.old.board }
        ensures this { GoesOn self.old self.new }
        ensures that { GoesOn other self.new }
    {
        let mut both = self.seen.again();
        both.learn(&other.seen);
        if self.version.number() < other.version.number() {
            *self = other;
        }
    }
}

/// Opens a row with its first version.
pub fn open(first: Arc<Version, Global>) -> (Head, Kept)
    requires { IsFirst (arc_value first) }
    ensures head { result.0 ≡ head_of result.1.board }
    ensures row { result.1.row ≡ arc_value first ∷ [] }
    ensures newest { result.1.newest ≡ arc_value first }
{
    let version: &Version = &first;
    let (seen, mut pens) = Seen::open_row::<Version, OneVersion>(version, Start::alone(), 1);
    let head = Word::tracked(0, &mut pens.take());
    (
        head,
        Kept {
            version: first,
            seen,
        },
    )
}

/// Adds a version to the row. None comes only where the row has a version after the newest known one.
pub fn add(head: &Head, newest: &Kept, next: Arc<Version, Global>) -> Option<Kept>
    requires head { head.now ≡ head_of newest.now.board }
    requires follows { Follows newest.now.newest (arc_value next) }
    ensures { IfSome result (λ kept. kept ≡ added newest.now (arc_value next)) }
{
    let version: &Version = &next;
    let mut seen = newest.seen.again();
    let mut offer: Offer<Version, u64, RowRule, NoGain> = seen.plain::<NoGain, Version, Add>(
        version,
    );
    let mut pen = seen.no_pen();
    let old = newest.version.number();
    let new = version.number();
    let found = head.compare_exchange::<Add, NoGain>(old, new, &mut seen, &mut offer, &mut pen);
    if found == old {
        Some(Kept {
            version: next,
            seen,
        })
    } else {
        None
    }
}
