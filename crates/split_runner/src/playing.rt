//! A script for several views, from its first line to the last version of each view.
ghost use Rattle.std.specs.Prelude.{true, false, ◌≡◌, ◌+◌, ◌<◌, ◌≤◌, ◌^◌, ℕ, List, [], length, map};
ghost use Rattle.script_runner.specs.Entries.{script_lines};
ghost use Rattle.script_runner.specs.Legal.{history_of};
ghost use Rattle.split_runner.specs.Going.{Finishes, GoesOn, GoesOnAfter, HandlesAll, HasStarted, IsPlayed, PlaysAll, SameSink, course_of, stage, started};

use crate::runner::Runner;
use display_map::Journal;
use script_runner::{Sink, Stop, split_line};
use split_views::Split;
use std::alloc::Global;
use undo_line::UndoLine;

/// How a script was played: whether one of its lines was refused, or why it stopped, and the journals of the views.
pub struct Played {
    pub refused: Result<bool, Stop>,
    pub histories: Vec<Journal>,
}

impl Drop for Played {
    fn drop(self) {
        let Played {
            refused: _,
            histories: _,
        } = self;
    }
}

impl Played {
    /// Its parts.
    pub fn into_parts(self) -> (Result<bool, Stop>, Vec<Journal>)
        ensures { result ≡ (self.refused, self.histories) }
    {
        let Played { refused, histories } = self;
        (refused, histories)
    }
}

impl<'a, K: Sink> Runner<'a, K> {
    /// Handles the lines of a script, and returns whether one of them is refused.
    fn run_lines(&mut self, script: &[u8]) -> Result<bool, Stop>
        requires numbers { length script.now < 2 ^ 64 }
        requires begun { GoesOnAfter 0 (stage K.state self.old) }
        ensures handled { HandlesAll (script_lines script.now)
            (stage K.state self.old) (stage K.state self.new) result }
        ensures sink { SameSink self.old self.new }
    {
        let mut rest = script;
        let mut number = 0;
        let mut refused = false;
        while !rest.is_empty() {
            let (line, behind) = split_line(rest);
            number += 1;
            let again = self.run_line(number, line)?;
            refused |= again;
            rest = behind;
        }
        Ok(refused)
    }

    /// Wraps every line of every view, and publishes the last versions.
    fn finish(&mut self) -> Result<(), Stop>
        requires { GoesOn (stage K.state self.old) }
        ensures finished { Finishes (stage K.state self.old) (stage K.state self.new) result }
        ensures sink { SameSink self.old self.new }
    {
        self.settle()?;
        self.check_room(0)?;
        Ok(self.split.publish_all(self.alloc, true)?)
    }

    /// Publishes the first versions, runs a script, and publishes the last ones.
    fn run_script(&mut self, script: &[u8]) -> Result<bool, Stop>
        requires numbers { length script.now < 2 ^ 64 }
        requires started { HasStarted (stage K.state self.old) }
        ensures played { PlaysAll (script_lines script.now)
            (stage K.state self.old) (stage K.state self.new) result }
        ensures sink { SameSink self.old self.new }
    {
        self.split.publish_all(self.alloc, false)?;
        let refused = self.run_lines(script)?;
        self.finish()?;
        Ok(refused)
    }
}

/// Gives a sink back as it is.
fn give_back<K>(out: &mut K)
    ensures { out.new ≡ out.old }
{}

/// Plays a script on views of a text that were just started, and writes its answers.
pub fn play<K: Sink>(alloc: Global, split: Split, script: &[u8], out: &mut K) -> Played
    requires numbers { length script.now < 2 ^ 64 }
    requires fresh { (text : List ℕ) × (views : ℕ) × (split ≡ started text views) }
    ensures { (text : List ℕ) (views : ℕ) → split ≡ started text views →
        IsPlayed (course_of text views (script_lines script.now) (K.state out.old))
        (map (history_of text) result.histories.items) (K.state out.new) result.refused }
{
    let undo = UndoLine::new(alloc);
    let mut runner = Runner {
        alloc,
        split,
        undo,
        out,
    };
    let refused = runner.run_script(script);
    let Runner {
        alloc: _,
        split,
        undo: _,
        out,
    } = runner;
    // For the proof: the sink is as the runner left it.
    give_back(out);
    Played {
        refused,
        histories: split.into_journals(),
    }
}
