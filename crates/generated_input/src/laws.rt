//! What is so of every text and script that is made.
ghost use Rattle.std.specs.Prelude.{◌≡◌, ◌≤◌, ℕ, length};
ghost use Rattle.cell_units.specs.declared.limits.TheConstants.{TEXT_LIMIT};
ghost use Rattle.cell_units.specs.Record.{line_count};
ghost use Rattle.generated_input.specs.Made.{made_of};
ghost use Rattle.generated_input.specs.Laws.{IsPlain, script_limit};

/// What is made from any number is ASCII without carriage returns and within the limits. The text has 20,000 lines and
/// the script 400, each with a line feed at its end. It does nothing.
pub fn made_laws()
    ensures plain { (number : ℕ) → IsPlain (made_of number).text
        × IsPlain (made_of number).script }
    ensures fits { (number : ℕ) → (length (made_of number).text ≤ TEXT_LIMIT)
        × (length (made_of number).script ≤ script_limit) }
    ensures lines { (number : ℕ) → (line_count (made_of number).text ≡ 20001)
        × (line_count (made_of number).script ≡ 401) }
{}
