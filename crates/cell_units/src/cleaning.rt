//! Carriage returns taken out of a text.
ghost use Rattle.std.specs.Prelude.{◌≡◌, ◌++◌, ◌∷◌, ◌<◌, length, IfOk, MatchOption, OnOk, string_bytes};
ghost use Rattle.cell_units.specs.Text.{clean, line_feed};

use crate::fault::NoMemory;
use std::alloc::Global;

/// The text before the first carriage return, and that after it and a line feed right after it.
fn split_at_return(text: &str) -> Option<(&str, &str)>
    ensures { MatchOption result (clean text.now ≡ text.now)
        (λ p. (clean text.now ≡ p.0.now ++ line_feed ∷ clean p.1.now) × (length p.1.now < length text.now)) }
{
    let (line, behind) = text.split_once('\r')?;
    match behind.strip_prefix('\n') {
        Some(rest) => Some((line, rest)),
        None => Some((line, behind)),
    }
}

/// Appends the piece with each CR LF, and then each lone CR, turned into LF (*Text*).
pub fn push_clean(text: &mut String, piece: &str) -> Result<(), NoMemory>
    ensures { OnOk result (string_bytes text.new ≡ string_bytes text.old ++ clean piece.now) }
{
    let mut rest = piece;
    while let Some((line, behind)) = split_at_return(rest) {
        text.push_str(line)?;
        text.push('\n')?;
        rest = behind;
    }
    text.push_str(rest)?;
    Ok(())
}

/// The text with each CR LF, and then each lone CR, turned into LF.
pub fn cleaned(alloc: Global, text: &str) -> Result<String, NoMemory>
    ensures { IfOk result (λ clean_text. string_bytes clean_text ≡ clean text.now) }
{
    let mut clean_text = String::new(alloc);
    push_clean(&mut clean_text, text)?;
    Ok(clean_text)
}
