//! The lines of a script, and its head: the blank lines that it begins with, and its header.
ghost use Rattle.std.specs.Prelude.{◌≡◌, ◌<◌, ◌∷◌, length, IfOk};
ghost use Rattle.std.specs.List.{position};
ghost use Rattle.cell_units.specs.Text.{is_feed};
ghost use Rattle.script_runner.specs.Entries.{script_lines};
ghost use Rattle.script_runner.specs.inside.Heading.{HasPassedBlank, IsHeadOf};

use cell_units::NoMemory;
use edit_script::{Form, header, skipped};
use std::alloc::Global;

/// Where the first line feed is.
fn feed_at(bytes: &[u8]) -> Option<usize>
    ensures { result ≡ position is_feed bytes.now }
{
    bytes.iter().position(|b| *b == b'\n')
}

/// The first line of what is left of a script, without its line feed, and what is left after it.
pub fn split_line(script: &[u8]) -> (&[u8], &[u8])
    requires { 0 < length script.now }
    ensures lines { script_lines script.now ≡ result.0.now ∷ script_lines result.1.now }
    ensures shorter { length result.1.now < length script.now }
{
    match feed_at(script) {
        Some(end) => (&script[..end], &script[end + 1..]),
        None => (script, &script[script.len()..]),
    }
}

/// How many blank lines a script begins with, and what is left after them.
fn skip_blank(script: &[u8]) -> (u64, &[u8])
    ensures { HasPassedBlank script.now result.0 result.1.now }
{
    let mut rest = script;
    let mut passed = 0;
    while !rest.is_empty() {
        let (line, behind) = split_line(rest);
        if !skipped(line) {
            return (passed, rest);
        }
        passed += 1;
        rest = behind;
    }
    (passed, rest)
}

/// The head of a script: the form that it gives the lines after it, how many lines it has, and what is left after it.
#[derive(Drop)]
pub(crate) struct Head<'a> {
    pub(crate) form: Form,
    pub(crate) passed: u64,
    pub(crate) rest: &'a [u8],
}

/// The head of a script: the blank lines that it begins with, and the header, where that is the first line after them.
pub(crate) fn head_of(alloc: Global, script: &[u8]) -> Result<Head<'_>, NoMemory>
    ensures { IfOk result (IsHeadOf script.now) }
{
    let (passed, rest) = skip_blank(script);
    if !rest.is_empty() {
        let (line, behind) = split_line(rest);
        if header(alloc, line)? {
            return Ok(Head {
                form: Form::Second,
                passed: passed + 1,
                rest: behind,
            });
        }
    }
    Ok(Head {
        form: Form::First,
        passed,
        rest,
    })
}
