//! The crew's end of the queue of tasks, and its steps there.
ghost use Rattle.std.specs.Prelude.{◌≡◌, ◌<◌, ◌≤◌, false, None, Some, IfOk, IfSome, IfNone, MatchOption};
ghost use Rattle.crossbeam_channel.specs.Claims.{view, IsSeatAt};
ghost use Rattle.crossbeam_channel.specs.Ends.{sends_on, receives_on};
ghost use Rattle.crossbeam_channel.specs.Fifo.{Held};
ghost use Rattle.wrap_workers.specs.Posted.{IsHome, IsNext, IsTaskAt, WerePosted, after_put, crew_post, serial_of, worker_post};
ghost use Rattle.wrap_workers.specs.inside.Ends.{IsHomeAt};
ghost use Rattle.wrap_workers.specs.declared.tasks.Task.TheVariants.{Do};

use crate::names::Names;
use crate::results::Right;
use crate::results_end::ResultsEnd;
use crate::tasks::{Errand, Gets, Joins, Place, Puts, Settles, Task, Tasks, Waiting};
use cell_line::Lines;
use cell_units::NoMemory;
use crossbeam_channel::bounded_with;
use std::alloc::Global;
use std::marker::{Brand, Model};
use std::sync::Wait;

/// The crew's end of the queue of tasks, with the pass that is the crew's and knows the queue of results. It is seen as
/// what that pass knows, and how many tasks the queue takes.
#[derive(Drop)]
pub(crate) struct TasksEnd<N: Lines> {
    tasks: Tasks<N>,
    waiting: Waiting<N>,
    place: Place<N>,
}

impl<N: Lines> Model for TasksEnd<N> {
    ghost use Rattle.std.specs.Prelude.{◌≡◌, true, Some};
    ghost use Rattle.crossbeam_channel.specs.Claims.{IsSeatAt};
    ghost use Rattle.crossbeam_channel.specs.Ends.{sends_on, receives_on, ruled_capacity};
    ghost use Rattle.wrap_workers.specs.Errands.{Right};
    ghost use Rattle.wrap_workers.specs.inside.Ends.{TasksSeen, post_of};

    ghost Value = { TasksSeen N };

    ghost view = { λ e. record { post = post_of e.place; most = ruled_capacity (sends_on e.tasks) } };

    ghost invariant = { λ e.
        (receives_on e.waiting ≡ sends_on e.tasks)
        × IsSeatAt (sends_on e.tasks) e.place
        × ((post_of e.place).crew ≡ true)
        × ((like : Right N) × ((post_of e.place).home ≡ Some like)) };
}

/// The first pass of the queue of tasks learns to which queue of results the rights belong.
fn settle<N: Lines, W: Names<Right<N>>>(tasks: &Tasks<N>, place: &mut Place<N>, like: &Right<N>)
    // `W` names a pass of the queue of results.
    requires named { W.named ≡ Some like.now }

    // The first pass of the queue of tasks, which knows no queue of results yet.
    requires channel { IsSeatAt (sends_on tasks.now) place.old }
    requires first { view place.old ≡ crew_post None 0 false }

    // It is still a pass of the queue of tasks, and knows the queue of results now.
    ensures channel { IsSeatAt (sends_on tasks.now) place.new }
    ensures rule { view place.new ≡ crew_post (Some like.now) 0 false }
{
    tasks.another::<Settles<N, W>>(place);
}

impl<N: Lines> TasksEnd<N> {
    /// A queue that takes so many tasks, whose jobs give their results to this queue of results.
    pub(crate) fn open(
        alloc: Global,
        most: usize,
        results: &ResultsEnd<N>,
    ) -> Result<TasksEnd<N>, NoMemory>
        requires { 0 < most }
        ensures post { IfOk result (λ end. end.post ≡ crew_post end.post.home 0 false) }
        ensures home { IfOk result (λ end. IsHomeAt results.now.queue end.post.home) }
        ensures most { IfOk result (λ end. end.most ≡ most) }
    {
        let (tasks, waiting, mut place) = bounded_with(alloc, most)?;
        settle::<N, Brand>(&tasks, &mut place, &results.hand);
        Ok(TasksEnd {
            tasks,
            waiting,
            place,
        })
    }

    /// Where one more worker takes its tasks, and its pass.
    pub(crate) fn join(&mut self) -> Result<(Waiting<N>, Place<N>), NoMemory>
        ensures same { self.new ≡ self.old }
        ensures channel { IfOk result (λ joined. IsSeatAt (receives_on joined.0) joined.1) }
        ensures post { IfOk result (λ joined. view joined.1 ≡ worker_post self.old.post.home) }
    {
        let waiting = self.waiting.try_clone()?;
        Ok((waiting, self.tasks.another::<Joins>(&mut self.place)))
    }

    /// Puts a task. It comes back where the queue reports that no worker is left.
    #[tactic(auto, using(crate::proofs::JobsOut::put_crew, crate::proofs::JobsOut::put_home))]
    fn put<R: Wait>(&mut self, rt: &R, task: Task<N>) -> Option<Task<N>>
        requires home { IsTaskAt self.old.post.home task }
        requires next { IsNext self.old.post.next task }
        ensures { MatchOption result
            (self.new ≡ record self.old { post = after_put self.old.post task })
            (λ back. (back ≡ task) × (self.new ≡ self.old)) }
    {
        match self.tasks.send_as::<Puts, R>(rt, &mut self.place, task) {
            Ok(()) => None,
            Err(e) => Some(e.into_inner()),
        }
    }

    /// Puts a job with its right. It comes back where the queue reports that no worker is left.
    pub(crate) fn put_errand<R: Wait>(&mut self, rt: &R, errand: Errand<N>) -> Option<Errand<N>>
        requires home { IsHome self.old.post.home errand.right }
        requires next { self.old.post.next ≤ serial_of errand }
        ensures { MatchOption result
            (self.new ≡ record self.old { post = after_put self.old.post (Do errand) })
            (λ back. (back ≡ errand) × (self.new ≡ self.old)) }
    {
        match self.put(rt, Task::Do(errand)) {
            None => None,
            Some(Task::Do(back)) => Some(back),
            Some(Task::Stop) => unreachable!(),
        }
    }

    /// Puts a stop, if the queue takes it.
    pub(crate) fn put_stop<R: Wait>(&mut self, rt: &R) {
        let _ = self.put(rt, Task::Stop);
    }

    /// Takes the first task for the crew, if there is one at a moment of the call. It is a job until a stop was put.
    pub(crate) fn try_next<R: Wait>(&mut self, rt: &R) -> Option<Errand<N>>
        requires { self.old.post.stopped ≡ false }
        ensures same { self.new ≡ self.old }
        ensures home { IfSome result (λ errand. IsHome self.old.post.home errand.right) }
        ensures none { IfNone result (Held 0 (λ tasks. WerePosted {N = N} tasks)) }
    {
        match self.waiting.try_recv_as::<Gets, R>(rt, &mut self.place) {
            Ok(Task::Do(errand)) => Some(errand),
            Ok(Task::Stop) => unreachable!(),
            Err(_) => None,
        }
    }
}
