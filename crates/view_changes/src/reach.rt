//! What an operation reaches of a record.
ghost use Rattle.std.specs.Prelude.{◌≤◌};
ghost use Rattle.cell_units.specs.Lawful.{IsAllowed};
ghost use Rattle.display_sheet.specs.Changes.{operation_of};
ghost use Rattle.view_changes.specs.inside.Reaches.{Reaches};

use crate::finding::{fold_range, inlay_offset};
use cell_units::Steps;
use display_map::Op;
use map_sheet::MapSheet;

/// What an operation reaches of the record that it finds.
#[derive(Clone, Copy)]
pub(crate) enum Reach {
    /// The display lines of the rows of the text from that of one offset to that of another.
    Rows(u32, u32),
    EachLine,
    NoLine,
    /// The block of an id, which it adds.
    NewBlock(u32),
    /// The block of an id, which it removes.
    OldBlock(u32),
}

/// What an operation reaches. What it removes is looked up by its id.
pub(crate) fn reach_of(sheet: &MapSheet, op: &Op, steps: &mut Steps) -> Reach
    requires { IsAllowed (operation_of op.now) sheet.now }
    ensures reach { Reaches (operation_of op.now) sheet.now result }
    ensures counted { steps.old ≤ steps.new }
{
    // For the proof: the record is lawful, so its inlays and folds are at boundaries.
    sheet.lawful();
    match op {
        Op::Replace(splice) => Reach::Rows(splice.start, splice.end),
        Op::Inlay { offset, .. } => Reach::Rows(*offset, *offset),
        Op::Uninlay { id } => match inlay_offset(sheet, *id, steps) {
            Some(offset) => Reach::Rows(offset, offset),
            None => Reach::NoLine,
        },
        Op::Fold { start, end, .. } => Reach::Rows(*start, *end),
        Op::Unfold { id } => match fold_range(sheet, *id, steps) {
            Some((start, end)) => Reach::Rows(start, end),
            None => Reach::NoLine,
        },
        Op::Block { id, .. } => Reach::NewBlock(*id),
        Op::Unblock { id } => Reach::OldBlock(*id),
        Op::Tab { .. } => Reach::EachLine,
        Op::Width { .. } => Reach::NoLine,
    }
}
