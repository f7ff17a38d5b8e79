//! What holds of the marks of lines over an operation.
ghost use Rattle.std.specs.Prelude.{ℕ};
ghost use Rattle.cell_units.specs.Record.{Record};
ghost use Rattle.cell_units.specs.Operation.{Operation};
ghost use Rattle.cell_units.specs.Lawful.{IsAllowed, IsLawful};
ghost use Rattle.display_sheet.specs.LineStep.{GivesFreshMarks, KeepsMarks, SplicesMarks, Touches, line_step};

/// What every allowed operation makes of a lawful record and its marks. It leaves a lawful record, in which each mark
/// of an untouched line is handed on, in order, and the touched lines have fresh ones. It does nothing.
pub fn step_laws()
    ensures lawful { (operation : Operation) (r : Record) → IsLawful r → IsAllowed operation r →
        IsLawful (line_step operation r) }
    ensures handed_on { (operation : Operation) (r : Record) → IsLawful r → IsAllowed operation r →
        KeepsMarks operation r }
    ensures fresh { (operation : Operation) (r : Record) → IsLawful r → IsAllowed operation r →
        GivesFreshMarks operation r }
    ensures splices { (operation : Operation) (r : Record) → IsLawful r → IsAllowed operation r →
        (a b a' b' : ℕ) → Touches operation r a b a' b' → SplicesMarks operation r a b a' b' }
{}
