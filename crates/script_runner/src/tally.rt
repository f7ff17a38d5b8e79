//! What is counted of the lines of a script.
ghost use Rattle.std.specs.Prelude.{◌≡◌};
ghost use Rattle.script_runner.specs.Output.{no_lines};
ghost use Rattle.script_runner.specs.inside.Counting.{IsAtMostOneMore, MayCount, tallied};

/// What became of a line.
#[derive(Clone, Copy, Debug, PartialEq, Eq)]
pub(crate) enum Outcome {
    /// It was skipped.
    Skipped,
    /// It was accepted, and answered with so many lines.
    Accepted { lines: u64 },
    /// It was refused, and its refusal is one line.
    Refused,
}

/// How many lines were handled and how many of them were refused, and how many lines the answers have.
#[derive(Clone, Copy, Debug, PartialEq, Eq)]
pub struct Tally {
    pub handled: u64,
    pub refused: u64,
    // Each of the lines that a script may have can be answered with nearly 2 ^ 32 lines.
    pub answers: u128,
}

impl Tally {
    /// No line was handled.
    pub(crate) fn none() -> Tally
        ensures { result ≡ no_lines }
    {
        Tally {
            handled: 0,
            refused: 0,
            answers: 0,
        }
    }

    /// Counts one more line, of which this became.
    pub(crate) fn count(&mut self, outcome: Outcome)
        requires { MayCount self.old }
        ensures counted { self.new ≡ tallied self.old outcome }
        ensures few { IsAtMostOneMore self.old self.new }
    {
        match outcome {
            Outcome::Skipped => {}
            Outcome::Accepted { lines } => {
                self.handled += 1;
                self.answers += u128::from(lines);
            }
            Outcome::Refused => {
                self.handled += 1;
                self.refused += 1;
                self.answers += 1;
            }
        }
    }
}
