//! What the rules of the two queues mean, in other words.
ghost use Rattle.std.specs.Prelude.{ℕ, List};
ghost use Rattle.wrap_workers.specs.declared.job.Finished.{Finished};
ghost use Rattle.wrap_workers.specs.declared.results.Hand.{Hand};
ghost use Rattle.wrap_workers.specs.declared.tasks.Task.{Task};
ghost use Rattle.wrap_workers.specs.declared.tasks.Post.{Post};
ghost use Rattle.wrap_workers.specs.Owed.{Owed};
ghost use Rattle.wrap_workers.specs.Posted.{Posted};
ghost use Rattle.wrap_workers.specs.QueueLaws.{AreJobsApart, AreSerialsDistinct, GivesOnce, HavePassesOfTheirOwn, IsOfJobOut};

use cell_line::Lines;

/// What the rules say at every moment. It does nothing.
///
/// A job that is out has one right or one result, and never both: so no job gives a second result. Each result has a
/// job that is out. The jobs of two passes with rights have distinct numbers. So have the jobs in the queue of tasks,
/// each of which goes with its right.
pub fn queue_laws<N: Lines>()
    ensures once { (results : List (Finished N)) (hands : List (Hand N)) →
        Owed results hands → GivesOnce results hands }
    ensures out { (results : List (Finished N)) (hands : List (Hand N)) →
        Owed results hands → IsOfJobOut results hands }
    ensures rights { (results : List (Finished N)) (hands : List (Hand N)) →
        Owed results hands → HavePassesOfTheirOwn hands }
    ensures serials { (tasks : List (Task N)) (posts : List (Post N)) →
        Posted tasks posts → AreSerialsDistinct tasks }
    ensures tasks { (tasks : List (Task N)) (posts : List (Post N)) →
        (results : List (Finished N)) (hands : List (Hand N)) →
        Posted tasks posts → Owed results hands → AreJobsApart tasks hands }
{}
