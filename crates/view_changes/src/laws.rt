//! Laws of the rows that events replace.
ghost use Rattle.std.specs.Prelude.{◌≡◌, ◌++◌, ℕ, List, Option, false, true, slice_index_or};
ghost use Rattle.cell_units.specs.Lawful.{IsAllowed, IsLawful, IsMarked};
ghost use Rattle.cell_units.specs.Operation.{Operation};
ghost use Rattle.cell_units.specs.Record.{Record};
ghost use Rattle.display_map.specs.Events.{Event};
ghost use Rattle.display_map.specs.LawfulStates.{EventsFit};
ghost use Rattle.display_map.specs.Replay.{SentJob, State, landed_on, lines_landed_on, replayed};
ghost use Rattle.display_sheet.specs.LineStep.{line_step};
ghost use Rattle.row_pieces.specs.declared.row_change.RowChange.{RowChange};
ghost use Rattle.row_pieces.specs.Changed.{IsTrue, looks};
ghost use Rattle.view_changes.specs.Events.{covered, rewrapped, rows_landed};
ghost use Rattle.view_changes.specs.Operations.{AreRowsReplaced, rows_replaced};

/// What is replaced is replaced truly: no row outside of it looks another. It does nothing.
pub fn event_laws()
    // What the rows are that an operation replaces: a block's own, or those of the lines that it touches.
    ensures operation { (operation : Operation) (r : Record) →
        IsLawful r → IsAllowed operation r →
        AreRowsReplaced operation r (rows_replaced operation r) }

    // They are true, and so are those of a landing.
    ensures replaced { (operation : Operation) (r : Record) → IsLawful r → IsAllowed operation r →
        IsTrue (rows_replaced operation r) (looks r) (looks (line_step operation r)) }
    ensures landing { (r : Record) (job : Option SentJob) → IsMarked r →
        IsTrue (rows_landed r (landed_on r job)) (looks r) (looks (landed_on r job)) }

    // What covers a change that was true and those of events after it is true.
    ensures covers { (c : RowChange) (events : List Event) (q : Record) (s : State) →
        IsLawful s.present → EventsFit s events → IsTrue c (looks q) (looks s.present) →
        IsTrue (covered c events s) (looks q) (looks (replayed s events).present) }

    // Further events are covered from there on.
    ensures further { (c : RowChange) (events more : List Event) (s : State) →
        covered c (events ++ more) s ≡ covered (covered c events s) more (replayed s events) }

    // A line that is wrapped at another width after a landing is one that landed.
    ensures landed { (r : Record) (job : Option SentJob) (line : ℕ) →
        slice_index_or (rewrapped r (landed_on r job)) line false ≡ true →
        slice_index_or (lines_landed_on r job) line false ≡ true }
{}
