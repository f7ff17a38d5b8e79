//! Laws of what both maps return.
ghost use Rattle.folded_text.specs.Answered.{AnswersMeet, AnswersSuffice, LeadsFollow};

use fold_map::met_laws as fold_laws;
use inlay_map::met_laws as inlay_laws;

/// Laws of what both maps return. Where all was shown before one operation, the map of folds may be given what the map
/// of inlays returns. What it returns itself meets just the run of lines that the operation touches, before it and
/// after it. After whatever changes, the lines that it doesn't meet have pieces of the same texts. It does nothing.
pub fn answer_laws()
    ensures suffice { AnswersSuffice }
    ensures meet { AnswersMeet }
    ensures follow { LeadsFollow }
{
    // For the proof: which lines the results of both maps meet.
    inlay_laws();
    fold_laws();
}
