//! The reading of the words: the plan that they ask for, or none.
ghost use Rattle.std.specs.Prelude.{◌≡◌, IfOk, IfSome, string_bytes};
ghost use Rattle.std.specs.List.{list_any};
ghost use Rattle.command_line.specs.Words.{IsWithinLimits, is_dashes, plan_of};

use crate::command::words_command;
use crate::plan::{Plan, plan_in};
use cell_units::NoMemory;
use clap::error::ErrorKind;
use std::alloc::Global;

fn is_dashes(word: &str) -> bool
    ensures { result ≡ is_dashes word.now }
{
    word == "--"
}

/// Whether a word is `--`, which would make positionals for `clap` of all that follow it.
fn has_dashes(words: &[String]) -> bool
    ensures { result ≡ list_any (λ word. is_dashes (string_bytes word)) words.now }
{
    words.iter().any(|word| is_dashes(word.as_str()))
}

/// The plan of the words, which don't hold the program's name; `None` exactly where they have no reading.
pub fn read_words(alloc: Global, words: &[String]) -> Result<Option<Plan>, NoMemory>
    ensures read { IfOk result (λ plan. plan ≡ plan_of words.now) }
    ensures lawful { IfOk result (λ plan. IfSome plan IsWithinLimits) }
{
    if has_dashes(words) {
        return Ok(None);
    }
    let command = words_command(alloc)?;
    match command.try_get_matches_from(words) {
        Ok(matches) => plan_in(alloc, &matches),
        Err(error) => match error.kind() {
            ErrorKind::OutOfMemory => Err(NoMemory),
            _ => Ok(None),
        },
    }
}
