//! Making a crew and its workers.
ghost use Rattle.std.specs.Prelude.{◌≡◌, ◌*◌, ◌≤◌, [], IfOk, vec_len};
ghost use Rattle.wrap_workers.specs.inside.Ends.{IsHomeAt};

use crate::crews::Crew;
use crate::results_end::ResultsEnd;
use crate::tasks_end::TasksEnd;
use crate::worker::Worker;
use cell_line::Lines;
use cell_units::NoMemory;
use std::alloc::Global;

/// One more worker.
fn worker<N: Lines>(tasks: &mut TasksEnd<N>, results: &ResultsEnd<N>) -> Result<Worker<N>, NoMemory>
    requires { IsHomeAt results.now.queue tasks.old.post.home }
    ensures { tasks.new ≡ tasks.old }
{
    let rights = results.rights()?;
    let (waiting, place) = tasks.join()?;
    Ok(Worker {
        tasks: waiting,
        rights,
        place,
    })
}

/// A crew of 1 to 16 workers, with its workers. The queue of tasks holds three for each, and that of results two.
pub fn crew<N: Lines>(alloc: Global, workers: u32) -> Result<(Crew<N>, Vec<Worker<N>>), NoMemory>
    requires { (1 ≤ workers) × (workers ≤ 16) }
    ensures out { IfOk result (λ made.
        (made.0.out ≡ []) × (made.0.kept ≡ []) × (made.0.workers ≡ workers)) }
    ensures team { IfOk result (λ made. vec_len made.1 ≡ workers) }
{
    let results = ResultsEnd::open(alloc, 2 * workers as usize)?;
    let mut tasks = TasksEnd::open(alloc, 3 * workers as usize, &results)?;
    let kept = Vec::with_capacity(alloc, 2 * workers as usize)?;
    let mut team = Vec::new(alloc);
    for _made in 0..workers {
        team.push(worker(&mut tasks, &results)?)?;
    }
    let crew = Crew {
        tasks,
        results,
        kept,
        count: 0,
        workers,
    };
    Ok((crew, team))
}
