//! The crew as its owner has it: it hands out jobs and takes back what they gave.
use crate::gate::Gate;
use crate::job::{Finished, Job};
use crate::results_end::ResultsEnd;
use crate::tasks_end::TasksEnd;
use cell_line::Lines;
use std::alloc::Global;
use std::marker::Model;
use std::sync::Wait;

/// A crew of workers, seen as the list of the jobs that are out.
///
/// A job is out from `hand_out` to the call that gives its result. Jobs that the queue of tasks hands back wait in a
/// place of the crew's own.
pub struct Crew<N: Lines> {
    pub(crate) tasks: TasksEnd<N>,
    // It has the rights of the jobs in `kept`, in their order.
    pub(crate) results: ResultsEnd<N>,
    pub(crate) kept: Vec<Job<N>>,
    pub(crate) count: u32,
    pub(crate) workers: u32,
}

impl<N: Lines> Drop for Crew<N> {
    fn drop(self) {
        let Crew {
            tasks: _,
            results: _,
            kept: _,
            count: _,
            workers: _,
        } = self;
    }
}

impl<N: Lines> Model for Crew<N> {
    ghost use Rattle.std.specs.Vec.{vec_capacity};
    ghost use Rattle.wrap_workers.specs.Crewed.{Crewed};
    ghost use Rattle.wrap_workers.specs.inside.Ends.{IsCrew};

    ghost Value = { Crewed N };

    ghost view = { λ c. record { out = c.results.hand.out; kept = c.kept.items; workers = c.workers } };

    ghost invariant = { λ c.
        IsCrew c.tasks c.results c.kept.items c.count c.workers (vec_capacity c.kept) };
}

impl<N: Lines> Crew<N> {
    ghost use Rattle.std.specs.Prelude.{◌≡◌, ◌==◌, ◌⊎◌, ◌↔◌, ◌*◌, ◌≤◌, [], ◌∷◌, ◌++◌, List, length, IfErr, OnOk, IfSome, IfNone, IsErr};
    ghost use Rattle.crossbeam_channel.specs.Fifo.{Held};
    ghost use Rattle.wrap_workers.specs.Jobs.{IsFree, JobParts};
    ghost use Rattle.wrap_workers.specs.Finishes.{job_of};
    ghost use Rattle.wrap_workers.specs.Owed.{AreDistinct, WereOwed};
    ghost use Rattle.wrap_workers.specs.Posted.{WerePosted};
    ghost use Rattle.wrap_workers.specs.Crewed.{IsTakenOff};

    /// How many jobs are out. They have distinct numbers, and there are two for each worker at most.
    pub fn out(&self) -> u32
        ensures value { result ≡ length self.now.out }
        ensures distinct { AreDistinct self.now.out }
        ensures most { length self.now.out ≤ 2 * self.now.workers }
    {
        self.count
    }

    /// Whether two jobs for each worker are out, so that none can be handed out.
    pub fn is_full(&self) -> bool
        ensures { result ≡ (length self.now.out == 2 * self.now.workers) }
    {
        self.count == 2 * self.workers
    }

    /// Hands out a job, whose number no job that is out has. `Err` hands it back, exactly where two jobs for each
    /// worker are out.
    #[tactic(auto, using(crate::proofs::JobsOut::at_home, crate::proofs::JobsOut::home_at, crate::proofs::JobsOut::crew_put_back))]
    pub fn hand_out<R: Wait>(&mut self, rt: &R, job: Job<N>) -> Result<(), Job<N>>
        requires { IsFree job.number self.old.out }

        // When it comes back.
        ensures full { IsErr result ↔ (length self.old.out ≡ 2 * self.old.workers) }

        // What is there after it.
        ensures ok { OnOk result (self.new.out ≡ self.old.out ++ job ∷ []) }
        ensures kept { OnOk result ((self.new.kept ≡ self.old.kept)
            ⊎ (self.new.kept ≡ self.old.kept ++ job ∷ [])) }
        ensures err { IfErr result (λ back. (back ≡ job) × (self.new ≡ self.old)) }
        ensures workers { self.new.workers ≡ self.old.workers }
    {
        if self.count == 2 * self.workers {
            return Err(job);
        }
        let errand = self.results.hire(job);
        self.count += 1;
        if let Some(back) = self.tasks.put_errand(rt, errand) {
            let job = self.results.take_back(back);
            self.kept.push_reserved(job);
        }
        Ok(())
    }

    /// Takes a result. None comes only where the queue of results was empty at a moment of the call.
    pub fn collect<R: Wait>(&mut self, rt: &R) -> Option<Finished<N>>
        ensures some { IfSome result (λ finished.
            IsTakenOff (job_of finished) self.old.out self.new.out) }
        ensures none { IfNone result (self.new ≡ self.old) }
        ensures empty { IfNone result (Held 0 (λ results. WereOwed self.old.out results)) }
        ensures same { (self.new.kept ≡ self.old.kept) × (self.new.workers ≡ self.old.workers) }
    {
        match self.results.take(rt) {
            None => None,
            Some(finished) => {
                self.count -= 1;
                Some(finished)
            }
        }
    }

    /// Does one waiting job here, and passes the gate: one of the crew's own place, or else one of the queue of tasks.
    /// None comes only where the crew's own place is empty, and the queue of tasks was at a moment of the call.
    #[tactic(auto, using(crate::proofs::JobsOut::at_home, crate::proofs::JobsOut::home_at, crate::proofs::JobsOut::crew_put_back))]
    pub fn help<R: Wait, G: Gate>(&mut self, rt: &R, alloc: Global, gate: &G) -> Option<Finished<N>>
        // The job that was done is taken off: the last of the crew's own place, and another only where that was empty.
        ensures some { IfSome result (λ finished.
            IsTakenOff (job_of finished) self.old.out self.new.out) }
        ensures kept { IfSome result (λ finished. ((self.old.kept ≡ []) × (self.new.kept ≡ []))
            ⊎ (self.old.kept ≡ self.new.kept ++ job_of finished ∷ [])) }

        // Where none was done nothing changes: that place is empty, and the queue of tasks was so at a moment.
        ensures none { IfNone result ((self.new ≡ self.old) × (self.new.kept ≡ [])) }
        ensures empty { IfNone result (Held 0 (λ tasks. WerePosted {N = N} tasks)) }

        // As many workers as before.
        ensures workers { self.new.workers ≡ self.old.workers }
    {
        if let Some(job) = self.kept.pop() {
            let finished = self.results.do_here(alloc, gate, job);
            self.count -= 1;
            return Some(finished);
        }
        match self.tasks.try_next(rt) {
            None => None,
            Some(errand) => {
                let job = self.results.take_back(errand);
                let finished = self.results.do_here(alloc, gate, job);
                self.count -= 1;
                Some(finished)
            }
        }
    }

    /// Puts the last job of the crew's own place into the queue of tasks again, and returns whether it was taken.
    #[tactic(auto, using(crate::proofs::JobsOut::at_home, crate::proofs::JobsOut::home_at, crate::proofs::JobsOut::crew_put_back))]
    fn put_last<R: Wait>(&mut self, rt: &R) -> bool
        ensures out { self.new.out ≡ self.old.out }
        ensures kept { (put : List (JobParts N)) × (self.old.kept ≡ self.new.kept ++ put) }
        ensures workers { self.new.workers ≡ self.old.workers }
    {
        let Some(job) = self.kept.pop() else {
            return false;
        };
        let errand = self.results.lend(job);
        match self.tasks.put_errand(rt, errand) {
            None => true,
            Some(back) => {
                let job = self.results.take_back(back);
                self.kept.push_reserved(job);
                false
            }
        }
    }

    /// Puts the jobs of the crew's own place into the queue of tasks again, as far as it takes them.
    fn put_kept<R: Wait>(&mut self, rt: &R)
        ensures out { self.new.out ≡ self.old.out }
        ensures kept { (put : List (JobParts N)) × (self.old.kept ≡ self.new.kept ++ put) }
        ensures workers { self.new.workers ≡ self.old.workers }
    {
        for _ in 0..2 * self.workers {
            if !self.put_last(rt) {
                break;
            }
        }
    }

    /// Waits for a result. Before that it puts the jobs of the crew's own place into the queue of tasks again.
    pub fn wait_one<R: Wait>(&mut self, rt: &R) -> Finished<N>
        requires { 1 ≤ length self.old.out }
        ensures some { IsTakenOff (job_of result) self.old.out self.new.out }
        ensures kept { (put : List (JobParts N)) × (self.old.kept ≡ self.new.kept ++ put) }
        ensures workers { self.new.workers ≡ self.old.workers }
    {
        self.put_kept(rt);
        let finished = self.results.wait(rt);
        self.count -= 1;
        finished
    }

    /// Puts one stop for each worker. Jobs that are still out give no result any more.
    pub fn stop<R: Wait>(self, rt: &R) {
        let Crew {
            mut tasks,
            results: _results,
            kept: _kept,
            count: _count,
            workers,
        } = self;
        for _ in 0..workers {
            tasks.put_stop(rt);
        }
    }
}
