//! What the words ask for, by the values that are in them.
ghost use Rattle.std.specs.Prelude.{◌≡◌, [], IfOk, option_map};
ghost use Rattle.std.specs.List.{cons_option, list_all};
ghost use Rattle.std.specs.Char.{is_ascii_digit};
ghost use Rattle.clap.specs.Matches.{found_of};
ghost use Rattle.command_line.specs.Words.{is_decimal, is_name, number, said};
ghost use Rattle.command_line.specs.inside.Command.{plan_of_found};

use crate::limits::{
    SEED_MOST, WATCHERS_DEFAULT, WATCHERS_MOST, WORKERS_DEFAULT, WORKERS_LEAST, WORKERS_MOST,
};
use cell_units::{NoMemory, Text};
use clap::ArgMatches;
use std::alloc::Global;

/// What the words ask for.
#[derive(Debug, Drop)]
pub struct Plan {
    /// The name of the text; empty where it is made.
    pub text: Text,
    /// The name of the script; empty where it is made.
    pub script: Text,
    /// The number from which the text and the script are made.
    pub make: Option<u32>,
    pub workers: u32,
    pub watchers: u32,
}

fn are_digits(bytes: &[u8]) -> bool
    ensures { result ≡ list_all is_ascii_digit bytes.now }
{
    bytes.iter().all(|byte| byte.is_ascii_digit())
}

/// Whether the value is one to ten digits without a leading zero, or `0`.
fn is_decimal(value: &str) -> bool
    ensures { result ≡ is_decimal value.now }
{
    let bytes = value.as_bytes();
    if bytes.is_empty() || bytes.len() > 10 {
        return false;
    }
    if bytes.len() > 1 && bytes[0] == b'0' {
        return false;
    }
    are_digits(bytes)
}

/// The number of a value, if it is one and lies in the range.
pub(crate) fn number(least: u32, most: u32, value: &str) -> Option<u32>
    ensures { result ≡ number least most value.now }
{
    if !is_decimal(value) {
        return None;
    }
    let number = value.parse::<u32>().ok()?;
    if least <= number && number <= most {
        Some(number)
    } else {
        None
    }
}

/// The number that an option says; without the option, `missing`.
fn number_said(missing: u32, least: u32, most: u32, value: Option<&str>) -> Option<u32>
    ensures { result ≡ said missing (number least most)
        (cons_option (option_map (λ s. s.now) value.entry) []) }
{
    match value {
        Some(value) => number(least, most, value),
        None => Some(missing),
    }
}

/// Whether a positional may name a file: it isn't empty and doesn't begin with a hyphen.
pub(crate) fn is_name(word: &str) -> bool
    ensures { result ≡ is_name word.now }
{
    match word.as_bytes().first() {
        Some(byte) => *byte != b'-',
        None => false,
    }
}

/// The plan of the matches, if their values are in their ranges and just the positionals are there that are wanted.
pub(crate) fn plan_in(alloc: Global, matches: &ArgMatches<'_>) -> Result<Option<Plan>, NoMemory>
    ensures { IfOk result (λ plan. plan ≡ plan_of_found (found_of matches.now)) }
{
    let workers = matches.get_str("workers");
    let Some(workers) = number_said(WORKERS_DEFAULT, WORKERS_LEAST, WORKERS_MOST, workers) else {
        return Ok(None);
    };
    let watchers = matches.get_str("watch");
    let Some(watchers) = number_said(WATCHERS_DEFAULT, 0, WATCHERS_MOST, watchers) else {
        return Ok(None);
    };
    let text = matches.get_str("text");
    let script = matches.get_str("script");
    let (text, script, make) = match (matches.get_str("make"), text, script) {
        (None, Some(text), Some(script)) if is_name(text) && is_name(script) => {
            (text, script, None)
        }
        (Some(value), None, None) => match number(0, SEED_MOST, value) {
            Some(seed) => ("", "", Some(seed)),
            None => return Ok(None),
        },
        _ => return Ok(None),
    };
    Ok(Some(Plan {
        text: Text::from_str(alloc, text)?,
        script: Text::from_str(alloc, script)?,
        make,
        workers,
        watchers,
    }))
}
