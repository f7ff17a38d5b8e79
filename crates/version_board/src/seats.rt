//! The rule of the board, and each step on it: all that is shown is of one row.
ghost use Rattle.std.specs.Prelude.{◌≡◌, [], drop, OnOk, OnErr, IfSome};
ghost use Rattle.version_board.specs.inside.Ties.{MayBeOf, IsTied, known_at};

use crate::kept::Kept;
use crate::shown::Shown;
use atomic_table::{Join, Split};
use crossbeam_utils::rule::{Outcome, Protocol};
use left_right::{reader, writer};
use std::alloc::AllocError;
use std::sync::Wait;

/// What a seat knows: a version of the row, once it was notified of one. No value of it is made.
pub struct View {
    pub known: Option<Kept>,
}

/// What is shown is of the row that each seat knows.
pub struct BoardRule;

impl Protocol<Shown, View> for BoardRule {
    ghost use Rattle.std.specs.Prelude.{None};
    ghost use Rattle.version_board.specs.inside.Ties.{AreTied};

    ghost holds = { AreTied };

    ghost first = { record { known = None } };
}

/// Looking, and showing the next version.
pub struct See;

impl Outcome<Shown, View> for See {
    ghost use Rattle.version_board.specs.inside.Ties.{SeesRow};

    ghost then = { SeesRow };
}

/// Showing the first version.
pub struct Tie;

impl Outcome<Shown, View> for Tie {
    ghost use Rattle.version_board.specs.inside.Ties.{BecomesTied};

    ghost then = { BecomesTied };
}

/// What the writer's seat knows, for that of a new reader.
pub struct Note;

impl Split<View> for Note {
    ghost left = { λ v. v };

    ghost right = { λ v. v };
}

impl Join<View> for Note {
    ghost use Rattle.std.specs.Prelude.{None};

    ghost both = { λ v w. w };

    ghost spent = { record { known = None } };
}

/// The place of a reader at the board.
pub type Seat = reader::Reader<Shown, View, BoardRule>;

/// The place of the writer, which shows versions.
pub type Desk = writer::Writer<Shown, Kept, View, BoardRule>;

/// A share of what is shown, if its number is greater.
fn later(shown: &Kept, number: u64) -> Option<Kept>
    ensures { IfSome result (λ kept. kept ≡ shown.now) }
{
    if shown.version().number() <= number {
        return None;
    }
    shown.share().ok()
}

/// What is shown, where the board can be entered, and what is shown is later than the version of a number and can be
/// shared. An earlier one isn't shared, since all readers together count the owners of one version.
pub fn enter(seat: Seat, number: u64) -> (Seat, Option<Kept>)
    ensures same { known_at result.0.place ≡ known_at seat.place }
    ensures board { IfSome result.1 (λ kept. MayBeOf kept.board (known_at seat.place)) }
{
    match seat.enter_as::<See>() {
        Ok(reading) => {
            let found = later(&reading.get().kept, number);
            (reading.leave(), found)
        }
        Err(seat) => (seat, None),
    }
}

/// Publishes a version of the same row.
///
/// Once a first version was shown, the list of operations has room for the two that it holds at most. And the version
/// has two owners when it gets a third. So `Err`, which the types allow, has no cause.
#[tactic(auto, using(crate::proofs::Tying::last_wins))]
pub fn publish<R: Wait>(rt: &R, desk: Desk, kept: Kept) -> (Desk, Result<(), AllocError>)
    requires { kept.board ≡ desk.desk.shown.value.kept.board }
    ensures shown { OnOk result.1 (result.0.desk.shown.value.kept ≡ kept) }
    ensures unchanged { OnErr result.1 (result.0.desk.shown.value ≡ desk.desk.shown.value) }
{
    let mut desk = desk;
    if let Err(_) = desk.append(kept) {
        return (desk, Err(AllocError));
    }
    desk.publish_as::<See, R>(rt)
}

/// Publishes once more what is shown, so that the desk's seat knows the row, and its list of operations has room. `Err`
/// means out of memory.
#[tactic(auto, using(crate::proofs::Tying::last_wins))]
pub fn publish_first<R: Wait>(rt: &R, desk: Desk, kept: Kept) -> (Desk, Result<(), AllocError>)
    requires same { kept ≡ desk.desk.shown.value.kept }
    requires fresh { drop desk.behind desk.log.items ≡ [] }
    ensures shown { OnOk result.1 (result.0.desk.shown.value.kept ≡ kept) }
    ensures tied { OnOk result.1 (IsTied kept.board (known_at result.0.desk.place)) }
{
    let mut desk = desk;
    if let Err(_) = desk.append(kept) {
        return (desk, Err(AllocError));
    }
    desk.publish_as::<Tie, R>(rt)
}

/// One more reader's seat, which knows the row. None comes where each place is taken.
pub fn enroll(desk: &mut Desk) -> Option<Seat>
    ensures seat { IfSome result (λ seat. known_at seat.place ≡ known_at desk.old.desk.place) }
    ensures known { known_at desk.new.desk.place ≡ known_at desk.old.desk.place }
    ensures shown { desk.new.desk.shown ≡ desk.old.desk.shown }
{
    let mut seat = desk.factory().reader().ok()?;
    seat.learn::<Note>(desk.tell::<Note>());
    Some(seat)
}
