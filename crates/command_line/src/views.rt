//! Words that ask for several views of one text.
ghost use Rattle.std.specs.Prelude.{◌≡◌, ◌∷◌, [], IfOk, IfSome, map, string_bytes};
ghost use Rattle.command_line.specs.Laws.{of_names};
ghost use Rattle.command_line.specs.Words.{IsWithinLimits};
ghost use Rattle.command_line.specs.ViewWords.{HasViews, asks_for_views, is_views, view_plan_of, view_reading};
ghost use Rattle.command_line.specs.declared.limits.TheConstants.{WATCHERS_DEFAULT, WORKERS_DEFAULT};

use crate::limits::{VIEWS_LEAST, VIEWS_MOST, WATCHERS_DEFAULT, WORKERS_DEFAULT};
use crate::plan::{Plan, is_name, number};
use cell_units::{NoMemory, Text};
use std::alloc::Global;

/// What words that ask for views say: how many, and a plan of a text and a script, for one worker and no watcher.
#[derive(Debug, Drop)]
pub struct ViewPlan {
    pub views: u32,
    pub plan: Plan,
}

fn is_views(word: &str) -> bool
    ensures { result ≡ is_views word.now }
{
    word == "--views"
}

/// Whether the words ask for views: the first of them is `--views`.
pub fn asks_for_views(words: &[String]) -> bool
    ensures { result ≡ asks_for_views (map string_bytes words.now) }
{
    match words {
        [] => false,
        [first, ..] => is_views(first.as_str()),
    }
}

/// The plan of a text and a script, as the words give it that name no more.
fn plan_of_names(alloc: Global, text: &str, script: &str) -> Result<Plan, NoMemory>
    ensures { IfOk result
        (λ plan. plan ≡ of_names text.now script.now WORKERS_DEFAULT WATCHERS_DEFAULT) }
{
    Ok(Plan {
        text: Text::from_str(alloc, text)?,
        script: Text::from_str(alloc, script)?,
        make: None,
        workers: WORKERS_DEFAULT,
        watchers: WATCHERS_DEFAULT,
    })
}

/// The plan of four words, if they have such a reading.
fn plan_of_four(
    alloc: Global,
    first: &str,
    views: &str,
    text: &str,
    script: &str,
) -> Result<Option<ViewPlan>, NoMemory>
    ensures read { IfOk result (λ plan. plan
        ≡ view_reading (first.now ∷ views.now ∷ text.now ∷ script.now ∷ [])) }
    ensures views { IfOk result (λ plan. IfSome plan HasViews) }
    ensures lawful { IfOk result (λ plan. IfSome plan (λ p. IsWithinLimits p.plan)) }
{
    if !is_views(first) || !is_name(text) || !is_name(script) {
        return Ok(None);
    }
    let Some(views) = number(VIEWS_LEAST, VIEWS_MOST, views) else {
        return Ok(None);
    };
    let plan = plan_of_names(alloc, text, script)?;
    Ok(Some(ViewPlan { views, plan }))
}

/// The plan of words that ask for views: `--views`, one digit from 1 to 8, and the names of a text and a script. `None`
/// exactly where they have no such reading.
pub fn read_view_words(alloc: Global, words: &[String]) -> Result<Option<ViewPlan>, NoMemory>
    ensures read { IfOk result (λ plan. plan ≡ view_plan_of words.now) }
    ensures views { IfOk result (λ plan. IfSome plan HasViews) }
    ensures lawful { IfOk result (λ plan. IfSome plan (λ p. IsWithinLimits p.plan)) }
{
    if words.len() != 4 {
        return Ok(None);
    }
    plan_of_four(
        alloc,
        words[0].as_str(),
        words[1].as_str(),
        words[2].as_str(),
        words[3].as_str(),
    )
}
