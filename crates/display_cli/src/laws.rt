//! What holds of the history of every run.
ghost use Rattle.std.specs.Prelude.{◌≢◌, []};
ghost use Rattle.command_line.specs.declared.plan.Plan.{Plan};
ghost use Rattle.display_cli.specs.Ended.{IsRun, Run};
ghost use Rattle.display_cli.specs.RunLaws.{EndsScript, FollowsScript, HasLawfulHistory, KeepsLines, LeadsToLawful, OfLegal, OfLegalSoFar};

/// Laws of legal histories, and so of runs. Call it where a run has ended; it does nothing.
///
/// In a history that is legal so far each operation was allowed where it was done, and the record after each prefix is
/// lawful. So is the record of each version, and that on which an answer is given. Display lines keep their identity,
/// whatever was done and whenever results came. The lines of the history are those of the script in order, and its
/// operations those that the accepted lines ask for.
pub fn run_laws()
    // Of each history that is legal so far.
    ensures records { OfLegalSoFar (λ text entries history. LeadsToLawful text history) }
    ensures lines { OfLegalSoFar (λ text entries history. KeepsLines text history) }
    ensures script { OfLegalSoFar FollowsScript }

    // Of the history of a finished run, and of that of each run that began.
    ensures finished { OfLegal EndsScript }
    ensures began { (plan : Plan) (run : Run) →
        IsRun run plan → run.history ≢ [] → HasLawfulHistory plan run }
{}
