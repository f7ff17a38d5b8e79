//! Reading a line of a script: its JSON text, its one key, and that key's value.
ghost use Rattle.std.specs.Prelude.{◌≡◌, ◌≤◌, ◌<◌, false, length, Some, IfOk, OnOk, IfErr};
ghost use Rattle.serde_json.specs.View.{view as data_of};
ghost use Rattle.display_map.specs.Replay.{present_of};
ghost use Rattle.edit_script.specs.Commands.{meaning, command_named, command_of_value, command_of};
ghost use Rattle.edit_script.specs.declared.blank.TheConstants.{LINE_LIMIT};
ghost use Rattle.edit_script.specs.Verdict.{is_over, IsReadAs, IsLineRefused};

use crate::asked::{Asked, Form};
use crate::blank::LINE_LIMIT;
use crate::commands::command_at;
use crate::key::key_of;
use crate::values::{member_in, value_of};
use cell_units::{Fault, NoMemory, Refusal, Steps};
use display_map::View;
use serde_json::Value;
use std::alloc::{AllocError, Global};

/// Why a line asks nothing.
#[derive(Clone, Copy, Debug, PartialEq, Eq)]
pub(crate) enum Unread {
    /// It has no form of a command.
    NoForm,
    /// An id is over 4,294,967,295.
    IdOver,
    /// There was no memory.
    NoMemory,
}

impl From<NoMemory> for Unread {
    ghost use Rattle.std.specs.Prelude.{◌≡◌};
    ghost use Rattle.edit_script.specs.declared.read.Unread.TheVariants as unread;

    ghost from_gives = { λ _ e. e ≡ unread.NoMemory };

    fn from(_error: NoMemory) -> Unread {
        Unread::NoMemory
    }
}

impl From<AllocError> for Unread {
    ghost use Rattle.std.specs.Prelude.{◌≡◌};
    ghost use Rattle.edit_script.specs.declared.read.Unread.TheVariants as unread;

    ghost from_gives = { λ _ e. e ≡ unread.NoMemory };

    fn from(_error: AllocError) -> Unread {
        Unread::NoMemory
    }
}

/// What a line asks, in this form of a script and on this view's text (*Commands and verdicts*). A line is one JSON
/// text, an object of exactly one key. An edit, an inlay, a fold, a block, the tab size and the width are changes.
/// `settle` asks only that every display line is wrapped at the width. `rows`, `peek`, `display`, `buffer` and `clip`
/// are queries, and `move` and `select` ask about a caret. The README of this crate has the value of each key. A point
/// of the second form is asked as the offset that it has in the view's text.
///
/// A number that is no id and doesn't fit 32 bits counts as the greatest that does. A line over 1,048,576 bytes is
/// refused as `TooLong`. Any other that is no such text is refused as `NotCommand`, and else one with an id over
/// 4,294,967,295 as `BadNumber`. Only a line that is UTF-8 and within the limit takes memory.
pub fn read_line(
    alloc: Global,
    line: &[u8],
    form: Form,
    view: &View,
    steps: &mut Steps,
) -> Result<Asked, Fault>
    // What a line is read as.
    ensures within { OnOk result (length line.now ≤ LINE_LIMIT) }
    ensures read { IfOk result
        (λ asked. command_of form (present_of view.now).text line.now ≡ Some (meaning asked)) }
    ensures fits { IfOk result (λ asked. is_over (meaning asked) ≡ false) }
    // Which lines are refused.
    ensures refused { IfErr result (IsLineRefused form (present_of view.now).text line.now) }
    // The work.
    ensures counted { steps.old ≤ steps.new }
{
    if line.len() > LINE_LIMIT {
        return Err(Fault::Refused(Refusal::TooLong));
    }
    // What isn't text is judged before any memory is taken.
    let Ok(text) = str::from_utf8(line) else {
        return Err(Fault::Refused(Refusal::NotCommand));
    };
    match read_command(alloc, text, form, view, steps) {
        Ok(asked) => Ok(asked),
        Err(Unread::NoForm) => Err(Fault::Refused(Refusal::NotCommand)),
        Err(Unread::IdOver) => Err(Fault::Refused(Refusal::BadNumber)),
        Err(Unread::NoMemory) => Err(Fault::NoMemory),
    }
}

/// The command that a line of text is.
fn read_command(
    alloc: Global,
    line: &str,
    form: Form,
    view: &View,
    steps: &mut Steps,
) -> Result<Asked, Unread>
    ensures read { IsReadAs (command_of form (present_of view.now).text line.now) result }
    ensures counted { steps.old ≤ steps.new }
{
    match value_of(alloc, line)? {
        Some(value) => command_in(alloc, &value, form, view, steps),
        None => Err(Unread::NoForm),
    }
}

/// The command of an object that has exactly one key.
fn command_in(
    alloc: Global,
    value: &Value,
    form: Form,
    view: &View,
    steps: &mut Steps,
) -> Result<Asked, Unread>
    ensures read { IsReadAs (command_of_value form (present_of view.now).text (data_of value.now))
        result }
    ensures counted { steps.old ≤ steps.new }
{
    match member_in(value) {
        Some((name, value)) => command_named(alloc, name, value, form, view, steps),
        None => Err(Unread::NoForm),
    }
}

/// The command of a key's name and its value.
fn command_named(
    alloc: Global,
    name: &str,
    value: &Value,
    form: Form,
    view: &View,
    steps: &mut Steps,
) -> Result<Asked, Unread>
    ensures read { IsReadAs (command_named form (present_of view.now).text name.now (data_of value.now))
        result }
    ensures counted { steps.old ≤ steps.new }
{
    match key_of(name) {
        Some(key) => command_at(alloc, key, value, form, view, steps),
        None => Err(Unread::NoForm),
    }
}
