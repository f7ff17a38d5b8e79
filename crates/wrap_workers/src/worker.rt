//! The worker, that does jobs beside the crew.
ghost use Rattle.std.specs.Prelude.{◌≡◌, ◌⊎◌, true, false, Some, IfSome, IfNone};
ghost use Rattle.crossbeam_channel.specs.Claims.{view, IsKeyed, IsSeatAt};
ghost use Rattle.crossbeam_channel.specs.Ends.{sends_on, receives_on};
ghost use Rattle.crossbeam_channel.specs.Fifo.{Held};
ghost use Rattle.wrap_workers.specs.Errands.{IsRightTo, Right};
ghost use Rattle.wrap_workers.specs.Finishes.{job_of};
ghost use Rattle.wrap_workers.specs.Posted.{IsAtWork, IsTaskAt, WerePosted, after_taken};
ghost use Rattle.wrap_workers.specs.inside.Ends.{IsHomeAt, queue_at};

use crate::gate::Gate;
use crate::job::Finished;
use crate::results::{Right, Rights, Sends};
use crate::tasks::{Errand, Place, Serves, Task, Waiting};
use crate::wrap::do_job;
use cell_line::Lines;
use std::alloc::Global;
use std::marker::Model;
use std::sync::Wait;

/// One that does jobs beside the crew.
#[derive(Drop)]
pub struct Worker<N: Lines> {
    pub(crate) tasks: Waiting<N>,
    pub(crate) rights: Rights<N>,
    pub(crate) place: Place<N>,
}

impl<N: Lines> Model for Worker<N> {
    ghost use Rattle.std.specs.Prelude.{⊤};
    ghost use Rattle.crossbeam_channel.specs.Claims.{IsKeyed, IsSeatAt};
    ghost use Rattle.crossbeam_channel.specs.Ends.{sends_on, receives_on};
    ghost use Rattle.wrap_workers.specs.Posted.{IsAtWork};
    ghost use Rattle.wrap_workers.specs.inside.Ends.{IsHomeAt, post_of, queue_at};

    ghost Value = { ⊤ };

    ghost view = { λ _. tt };

    ghost invariant = { λ w.
        IsSeatAt (receives_on w.tasks) w.place
        × IsKeyed (sends_on w.rights)
        × IsHomeAt (queue_at (sends_on w.rights)) (post_of w.place).home
        × IsAtWork (post_of w.place) };
}

impl<N: Lines> Worker<N> {
    /// Takes tasks, does each job, passes the gate and sends the result. It goes on until a stop comes or the queue of
    /// tasks reports that the crew is gone. A result that finds no memory is `Short`.
    pub fn work<R: Wait, G: Gate>(self, rt: &R, alloc: Global, gate: &G) {
        let Worker {
            tasks,
            rights,
            mut place,
        } = self;
        serve(rt, alloc, gate, &tasks, &rights, &mut place);
    }
}

/// Takes tasks, does each job and sends its result. It returns only where it took a stop, or where the queue of tasks
/// was empty at a moment of the call.
fn serve<N: Lines, R: Wait, G: Gate>(
    rt: &R,
    alloc: Global,
    gate: &G,
    tasks: &Waiting<N>,
    rights: &Rights<N>,
    place: &mut Place<N>,
)
    // A worker's pass of the queue of tasks, which took no stop and knows the queue that `rights` sends to.
    requires channel { IsSeatAt (receives_on tasks.now) place.old }
    requires keyed { IsKeyed (sends_on rights.now) }
    requires home { IsHomeAt (queue_at (sends_on rights.now)) (view place.old).home }
    requires worker { IsAtWork (view place.old) }

    // It took a stop, or the queue of tasks was empty at a moment of the call.
    ensures { ((view place.new).stopped ≡ true) ⊎ Held 0 (λ items. WerePosted {N = N} items) }
{
    for _ in rt.forever() {
        match next(rt, tasks, place) {
            Some(Task::Do(errand)) => finish(rt, alloc, gate, rights, errand),
            Some(Task::Stop) | None => return,
        }
    }
    unreachable!()
}

/// Does the job, passes the gate and sends the result.
fn finish<N: Lines, R: Wait, G: Gate>(
    rt: &R,
    alloc: Global,
    gate: &G,
    rights: &Rights<N>,
    errand: Errand<N>,
)
    requires { IsSeatAt (sends_on rights.now) errand.right }
{
    let Errand { job, right } = errand;
    let number = job.number();
    let finished = do_job(alloc, job);
    gate.pass(number);
    send(rt, rights, right, finished);
}

/// Sends the result of the right's job. It is dropped where the crew is gone.
fn send<N: Lines, R: Wait>(rt: &R, rights: &Rights<N>, mut right: Right<N>, finished: Finished<N>)
    requires channel { IsSeatAt (sends_on rights.now) right }
    requires owns { IsRightTo right (job_of finished) }
{
    let _ = rights.send_as::<Sends, R>(rt, &mut right, finished);
}

/// Takes the first task, and waits for one. None comes only where the queue was empty at a moment of the call.
fn next<N: Lines, R: Wait>(rt: &R, tasks: &Waiting<N>, place: &mut Place<N>) -> Option<Task<N>>
    // A worker's pass of the queue of tasks, which knows the queue of results.
    requires channel { IsSeatAt (receives_on tasks.now) place.old }
    requires worker { (view place.old).crew ≡ false }
    requires known { (r : Right N) × ((view place.old).home ≡ Some r) }

    // It is still a pass of the queue of tasks.
    ensures channel { IsSeatAt (receives_on tasks.now) place.new }

    // A task whose right, if it has one, is of the known queue. The pass knows whether the task was a stop.
    ensures some { IfSome result (λ task. (view place.new ≡ after_taken (view place.old) task)
        × IsTaskAt (view place.old).home task) }

    // Without one the pass knows the same as before, and the queue was empty at a moment of the call.
    ensures none { IfNone result ((view place.new ≡ view place.old)
        × Held 0 (λ items. WerePosted {N = N} items)) }
{
    tasks.recv_as::<Serves, R>(rt, place).ok()
}
