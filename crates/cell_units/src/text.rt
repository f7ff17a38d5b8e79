//! A text that contracts see as its bytes.
ghost use Rattle.std.specs.Prelude.{◌≡◌, IfOk};
ghost use Rattle.std.specs.Result.{MatchResult};
ghost use Rattle.cell_units.specs.Refusal.{IsAccepted, IsTextRefused};

use crate::fault::{NoMemory, TextFault};
use crate::limits::TEXT_LIMIT;
use std::alloc::Global;
use std::marker::Model;

/// UTF-8 text.
#[derive(Debug, Drop)]
pub struct Text {
    string: String,
}

impl Model for Text {
    ghost use Rattle.std.specs.Prelude.{ℕ, List, string_bytes};

    ghost Value = { List ℕ };

    ghost view = { λ t. string_bytes t.string };
}

impl Text {
    /// A copy of the text.
    pub fn from_str(alloc: Global, text: &str) -> Result<Text, NoMemory>
        ensures { IfOk result (λ t. t ≡ text.now) }
    {
        let string = String::from_str(alloc, text)?;
        Ok(Text { string })
    }

    /// The text, lent.
    pub fn as_str(&self) -> &str
        ensures { result.now ≡ self.now }
    {
        self.string.as_str()
    }
}

/// The bytes as text. `TooLong` where there are more than `TEXT_LIMIT`, which is 33,554,432. Else `NotUtf8` where they
/// aren't UTF-8, with the length in bytes of the longest prefix that is. It allocates nothing.
pub fn read_text(bytes: &[u8]) -> Result<&str, TextFault>
    ensures { MatchResult result (λ text. (text.now ≡ bytes.now) × IsAccepted bytes.now) (IsTextRefused bytes.now) }
{
    if bytes.len() > TEXT_LIMIT {
        return Err(TextFault::TooLong);
    }
    match str::from_utf8(bytes) {
        Ok(text) => Ok(text),
        Err(error) => Err(TextFault::NotUtf8 {
            at: error.valid_up_to() as u64,
        }),
    }
}
