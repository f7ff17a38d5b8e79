//! The run of a script on several views of a text.
ghost use Rattle.std.specs.Prelude.{◌≡◌, ◌≤◌, [], length, None, Some, IfOk, IfErr, OnOk};
ghost use Rattle.command_line.specs.ViewWords.{HasViews, view_plan_of};
ghost use Rattle.script_runner.specs.declared.outside.Part.TheVariants as parts;
ghost use Rattle.script_runner.specs.Outside.{count_between};
ghost use Rattle.display_cli.specs.Ended.{HasReadsPassed, HasStatus, ReadsInOrder};
ghost use Rattle.display_cli.specs.inside.Opening.{IsStartRefused, IsTextUnread};
ghost use Rattle.display_cli.specs.inside.Reading.{ReadsName};
ghost use Rattle.split_views.specs.declared.split.TheConstants.{VIEW_LIMIT};
ghost use Rattle.split_cli.specs.Closed.{IsClosedAs, IsSessionOfWords, outside, session_of};
ghost use Rattle.split_cli.specs.inside.Opening.{AreOpenedOn, IsCloseOf};

use crate::closed::Closed;
use cell_units::limits::TEXT_LIMIT;
use cell_units::{NoMemory, Steps, TextFault};
use command_line::{ViewPlan, read_view_words};
use display_cli::{Inputs, Note, Sink, fine_status, note_of, read_script, read_text, status_of};
use split_runner::{Played, play};
use split_views::Split;
use std::alloc::Global;

/// The end of a session that began no history.
fn nothing(alloc: Global, note: Note) -> Closed
    ensures note { result.note ≡ note }
    ensures status { HasStatus note result.status }
    ensures histories { result.histories.items ≡ [] }
{
    Closed {
        status: status_of(note),
        note,
        histories: Vec::new(alloc),
    }
}

/// Starts so many views of the text that was read.
fn start(alloc: Global, bytes: &[u8], views: u32) -> Result<Split, Note>
    requires { (1 ≤ views) × (views ≤ VIEW_LIMIT) }
    ensures started { IfOk result (AreOpenedOn (Some bytes.now) (length bytes.now) views) }
    ensures refused { IfErr result (IsStartRefused bytes.now) }
{
    match Split::start(alloc, bytes, views, &mut Steps::new()) {
        Ok(split) => Ok(split),
        Err(TextFault::NotUtf8 { at }) => Err(Note::TextNotUtf8 { at }),
        Err(TextFault::TooLong) => Err(Note::TextTooLong),
        Err(TextFault::NoMemory) => Err(Note::Memory),
    }
}

/// Reads the text of a plan, and starts its views.
fn open_text<I: Inputs>(alloc: Global, plan: &ViewPlan, inputs: &mut I) -> Result<Split, Note>
    requires { HasViews plan.now }
    ensures opened { IfOk result (AreOpenedOn ((I.state inputs.old).told plan.now.plan.text)
        (count_between parts.Text (I.state inputs.old) (I.state inputs.new)) plan.now.views) }
    ensures passed { OnOk result ((I.state inputs.new).faults ≡ (I.state inputs.old).faults) }
    ensures refused { IfErr result (IsTextUnread ((I.state inputs.old).told plan.now.plan.text)
        (I.state inputs.old).faults (I.state inputs.new).faults) }
    ensures reads { ReadsName parts.Text plan.now.plan.text TEXT_LIMIT
        (I.state inputs.old) (I.state inputs.new) }
{
    let bytes = read_text(alloc, &plan.plan, inputs)?;
    start(alloc, bytes.as_slice(), plan.views)
}

/// The end of a session that was played.
fn closed_as(played: Played) -> Closed
    ensures status { HasStatus result.note result.status }
    ensures note { IsCloseOf played.refused result.status result.note }
    ensures histories { result.histories ≡ played.histories }
{
    let (refused, histories) = played.into_parts();
    match refused {
        Ok(refused) => Closed {
            status: fine_status(refused),
            note: Note::Fine,
            histories,
        },
        Err(stop) => {
            let note = note_of(stop);
            Closed {
                status: status_of(note),
                note,
                histories,
            }
        }
    }
}

/// Runs a plan of views.
fn run_plan<I: Inputs, K: Sink>(
    alloc: Global,
    plan: &ViewPlan,
    inputs: &mut I,
    out: &mut K,
) -> Closed
    // Nothing is made, and the number of views is within its limits.
    requires named { plan.now.plan.make ≡ None }
    requires views { HasViews plan.now }

    // The note tells the status, and what the session is.
    ensures status { HasStatus result.note result.status }
    ensures closed { IsClosedAs plan.now (session_of (I.state inputs.old) (I.state inputs.new)
        (K.state out.old) (K.state out.new) result) result.note }

    // The reads of the text come before those of the script, and none fails without that being noted.
    ensures reads { ReadsInOrder plan.now.plan result.note
        (I.state inputs.old).reads (I.state inputs.new).reads }
    ensures passed { HasReadsPassed (outside (session_of (I.state inputs.old) (I.state inputs.new)
        (K.state out.old) (K.state out.new) result)) }
{
    let split = match open_text(alloc, plan, inputs) {
        Ok(split) => split,
        Err(note) => return nothing(alloc, note),
    };
    match read_script(alloc, &plan.plan, inputs) {
        Ok(script) => closed_as(play(alloc, split, script.as_slice(), out)),
        Err(note) => nothing(alloc, note),
    }
}

/// Runs the script that the words name on the views that they ask for.
pub(crate) fn run_views<I: Inputs, K: Sink>(
    alloc: Global,
    words: &[String],
    inputs: &mut I,
    out: &mut K,
) -> Closed
    // What the session is by its note, which reads it made, and which notes were owed.
    ensures session { IsSessionOfWords (view_plan_of words.now) (session_of
        (I.state inputs.old) (I.state inputs.new) (K.state out.old) (K.state out.new) result) }

    // Words without a reading leave the outside as it is.
    ensures untouched { view_plan_of words.now ≡ None
        → (inputs.new ≡ inputs.old) × (out.new ≡ out.old) }
{
    match read_view_words(alloc, words) {
        Ok(Some(plan)) => run_plan(alloc, &plan, inputs, out),
        Ok(None) => nothing(alloc, Note::Usage),
        Err(NoMemory) => nothing(alloc, Note::Memory),
    }
}
