//! What holds of the carets and the selections of every record.
ghost use Rattle.std.specs.Prelude.{ℕ, ◌≡◌, ◌<◌, IsTrue, [], ◌∷◌};
ghost use Rattle.std.specs.List.{All, AllPairs};
ghost use Rattle.cell_units.specs.declared.place.Bias.TheVariants as bias;
ghost use Rattle.cell_units.specs.declared.place.Motion.{Motion};
ghost use Rattle.cell_units.specs.declared.place.Motion.TheVariants.{Down, End, Left, Right, Start, Up};
ghost use Rattle.cell_units.specs.declared.place.Spot.{Spot};
ghost use Rattle.cell_units.specs.Record.{Record};
ghost use Rattle.plain_rows.specs.Laws.{IsValidSpot};
ghost use Rattle.plain_rows.specs.Spots.{clip};
ghost use Rattle.view_moves.specs.Laws.{IsWithinValid};
ghost use Rattle.view_moves.specs.Moves.{caret, is_before, selection};
ghost use Rattle.view_moves.specs.Worked.{span_of};

/// Laws of every caret. Call it where one of them is wanted; it does nothing.
///
/// A caret is at a valid spot. Left and Right undo each other where there is a spot to go to, and Up and Down lead back
/// to the row.
pub fn caret_laws()
    ensures caret_is_valid { (r : Record) (d : Spot) (goal : ℕ) (motion : Motion) →
        IsValidSpot r (caret r d goal motion).spot }

    // There and back: t is a spot to which the first motion can go.
    ensures left_after_right { (r : Record) (s t : Spot) (goal later : ℕ) →
        IsValidSpot r s → IsValidSpot r t → IsTrue (is_before s t) →
        (caret r (caret r s goal Right).spot later Left).spot ≡ s }
    ensures right_after_left { (r : Record) (s t : Spot) (goal later : ℕ) →
        IsValidSpot r s → IsValidSpot r t → IsTrue (is_before t s) →
        (caret r (caret r s goal Left).spot later Right).spot ≡ s }
    ensures down_after_up { (r : Record) (s t : Spot) (goal later : ℕ) →
        IsValidSpot r s → IsValidSpot r t → t.row < s.row →
        (caret r (caret r s goal Up).spot later Down).spot.row ≡ s.row }
    ensures up_after_down { (r : Record) (s t : Spot) (goal later : ℕ) →
        IsValidSpot r s → IsValidSpot r t → s.row < t.row →
        (caret r (caret r s goal Down).spot later Up).spot.row ≡ s.row }

    // A second time changes nothing.
    ensures start_once { (r : Record) (d : Spot) (goal later : ℕ) →
        (caret r (caret r d goal Start).spot later Start).spot ≡ (caret r d goal Start).spot }
    ensures end_once { (r : Record) (d : Spot) (goal later : ℕ) →
        (caret r (caret r d goal End).spot later End).spot ≡ (caret r d goal End).spot }
{}

/// Laws of every selection. Call it where one of them is wanted; it does nothing.
pub fn selection_laws()
    ensures any_order { (r : Record) (one other : Spot) →
        selection r one other ≡ selection r other one }
    ensures spans_rise { (r : Record) (one other : Spot) →
        AllPairs (λ s t. s.row < t.row) (selection r one other).spans }
    ensures spans_are_valid { (r : Record) (one other : Spot) →
        All (IsWithinValid r) (selection r one other).spans }
    ensures of_one { (r : Record) (d : Spot) → let c = clip r d bias.Left in
        ((selection r d d).spans ≡ span_of c.row c.col c.col ∷ []) }
{}
