//! The header of a script, which says that its lines have the second form.
ghost use Rattle.std.specs.Prelude.{◌≡◌, ◌≤◌, false, length, IfOk, OnErr, IsUtf8};
ghost use Rattle.std.specs.Option.{option_map_or};
ghost use Rattle.serde_json.specs.View.{view as data_of};
ghost use Rattle.edit_script.specs.Script.{is_form_two, is_header};
ghost use Rattle.edit_script.specs.Commands.{member_in};

use crate::blank::LINE_LIMIT;
use crate::values::{id_in, member_in, value_of};
use cell_units::NoMemory;
use serde_json::Value;
use std::alloc::Global;

/// Whether a line is a header: it is within the limit of 1,048,576 bytes and is one JSON text. This is an object whose
/// one key is `script` and whose value is the number 2. A script whose first line that isn't blank is a header has the
/// second form, and that line is skipped. Only a line that is UTF-8 and within the limit takes memory.
pub fn header(alloc: Global, line: &[u8]) -> Result<bool, NoMemory>
    ensures header { IfOk result (λ is. is ≡ is_header line.now) }
    ensures memory { OnErr result ((length line.now ≤ LINE_LIMIT) × IsUtf8 line.now) }
{
    if line.len() > LINE_LIMIT {
        return Ok(false);
    }
    let Ok(text) = str::from_utf8(line) else {
        return Ok(false);
    };
    match value_of(alloc, text)? {
        Some(value) => Ok(names_form_two(&value)),
        None => Ok(false),
    }
}

fn names_form_two(value: &Value) -> bool
    ensures { result ≡ option_map_or is_form_two (member_in (data_of value.now)) false }
{
    match member_in(value) {
        Some((name, form)) => name == "script" && id_in(form) == Some(2),
        None => false,
    }
}
