//! The crew's end of the queue of results, and its steps there.
ghost use Rattle.std.specs.Prelude.{◌≡◌, ◌<◌, ◌≤◌, [], ◌∷◌, ◌++◌, Contains, length, Some, IfOk, IfSome, IfNone};
ghost use Rattle.crossbeam_channel.specs.Claims.{view, IsKeyed};
ghost use Rattle.crossbeam_channel.specs.Ends.{sends_on};
ghost use Rattle.crossbeam_channel.specs.Fifo.{Held};
ghost use Rattle.wrap_workers.specs.Finishes.{job_of};
ghost use Rattle.wrap_workers.specs.Owed.{WereOwed, after_hired, after_lent, after_result, after_retired, after_returned, crew_hand, right_of, times};
ghost use Rattle.wrap_workers.specs.inside.Ends.{IsAt, IsLast, IsNextErrand, queue_at};

use crate::gate::Gate;
use crate::job::{Finished, Job};
use crate::names::Names;
use crate::results::{Counts, Hires, Lends, Results, Retires, Returns, Right, Rights, Takes};
use crate::tasks::Errand;
use crate::wrap::do_job;
use cell_line::Lines;
use cell_units::NoMemory;
use crossbeam_channel::bounded_with;
use std::alloc::Global;
use std::marker::{Brand, Model};
use std::sync::Wait;

/// The crew's end of the queue of results, with the pass that is the crew's. It is seen as what that pass knows, which
/// queue it is, and how many results it takes.
#[derive(Drop)]
pub(crate) struct ResultsEnd<N: Lines> {
    rights: Rights<N>,
    results: Results<N>,
    pub(crate) hand: Right<N>,
}

impl<N: Lines> Model for ResultsEnd<N> {
    ghost use Rattle.std.specs.Prelude.{◌≡◌, true};
    ghost use Rattle.crossbeam_channel.specs.Claims.{IsSeatAt};
    ghost use Rattle.crossbeam_channel.specs.Ends.{sends_on, receives_on, ruled_capacity};
    ghost use Rattle.wrap_workers.specs.inside.Ends.{ResultsSeen, hand_of, queue_at};

    ghost Value = { ResultsSeen N };

    ghost view = { λ e. record {
      hand = hand_of e.hand;
      queue = queue_at (sends_on e.rights);
      most = ruled_capacity (sends_on e.rights);
    } };

    ghost invariant = { λ e.
        (receives_on e.results ≡ sends_on e.rights)
        × IsSeatAt (sends_on e.rights) e.hand
        × ((hand_of e.hand).crew ≡ true) };
}

impl<N: Lines> ResultsEnd<N> {
    /// A queue that takes so many results.
    pub(crate) fn open(alloc: Global, most: usize) -> Result<ResultsEnd<N>, NoMemory>
        requires { 0 < most }
        ensures { IfOk result (λ end. (end.hand ≡ crew_hand 0 [] []) × (end.most ≡ most)) }
    {
        let (rights, results, hand) = bounded_with(alloc, most)?;
        Ok(ResultsEnd {
            rights,
            results,
            hand,
        })
    }

    /// Where a worker sends its results.
    pub(crate) fn rights(&self) -> Result<Rights<N>, NoMemory>
        ensures { IfOk result (λ rights. (queue_at (sends_on rights) ≡ self.now.queue)
            × IsKeyed (sends_on rights)) }
    {
        Ok(self.rights.try_clone()?)
    }

    /// The crew's pass gets the job, and a right to send its result is cut off.
    fn cut_right<W: Names<Job<N>>>(&mut self, job: &Job<N>) -> Right<N>
        // `W` names the job, and no job that is out has its number.
        requires named { W.named ≡ Some job.now }
        requires new { times job.now.number self.old.hand.out ≡ 0 }

        // The crew's pass after it handed the job out.
        ensures end { self.new ≡ record self.old { hand = after_hired self.old.hand job.now } }

        // A pass of the same queue, with the right to send the job's result.
        ensures home { IsAt self.old.queue result }
        ensures right { view result ≡ right_of self.old.hand.serial job.now }
    {
        self.rights.another::<Hires<N, W>>(&mut self.hand)
    }

    /// A job is handed out, with the right to send its result.
    pub(crate) fn hire(&mut self, job: Job<N>) -> Errand<N>
        requires new { times job.number self.old.hand.out ≡ 0 }
        ensures end { self.new ≡ record self.old { hand = after_hired self.old.hand job } }
        ensures errand { IsNextErrand self.old job result }
    {
        let right = self.cut_right::<Brand>(&job);
        Errand { job, right }
    }

    /// The job of the crew's last right goes out again, with that right.
    pub(crate) fn lend(&mut self, job: Job<N>) -> Errand<N>
        requires { IsLast self.old.hand.rights job }
        ensures end { self.new ≡ record self.old { hand = after_lent self.old.hand } }
        ensures errand { IsNextErrand self.old job result }
    {
        let right = self.rights.another::<Lends>(&mut self.hand);
        Errand { job, right }
    }

    /// A job comes back to the crew with its right, and the crew learns that it is out.
    pub(crate) fn take_back(&mut self, errand: Errand<N>) -> Job<N>
        requires { IsAt self.old.queue errand.right }
        ensures end { self.new
            ≡ record self.old { hand = after_returned self.old.hand errand.job } }
        ensures room { length (self.old.hand.rights ++ errand.job ∷ []) ≤ length self.old.hand.out }
        ensures job { result ≡ errand.job }
    {
        let Errand { job, right } = errand;
        self.rights.absorb::<Returns>(&mut self.hand, right);
        self.rights.learn_as::<Counts>(&mut self.hand);
        job
    }

    /// The crew itself did the job of its last right: it is out no more.
    fn retire(&mut self, job: &Job<N>)
        requires { IsLast self.old.hand.rights job.now }
        ensures end { self.new ≡ record self.old { hand = after_retired self.old.hand job.now } }
        ensures out { Contains self.old.hand.out job.now }
    {
        self.rights.learn_as::<Counts>(&mut self.hand);
        self.rights.another::<Retires>(&mut self.hand);
    }

    /// The crew itself does the job of its last right, and passes the gate: the job is out no more.
    pub(crate) fn do_here<G: Gate>(&mut self, alloc: Global, gate: &G, job: Job<N>) -> Finished<N>
        requires { IsLast self.old.hand.rights job }
        ensures end { self.new ≡ record self.old { hand = after_retired self.old.hand job } }
        ensures out { Contains self.old.hand.out job }
        ensures job { job_of result ≡ job }
    {
        let number = job.number();
        self.retire(&job);
        let finished = do_job(alloc, job);
        gate.pass(number);
        finished
    }

    /// Takes a result, if there is one at a moment of the call.
    pub(crate) fn take<R: Wait>(&mut self, rt: &R) -> Option<Finished<N>>
        ensures some { IfSome result (λ finished.
            self.new ≡ record self.old { hand = after_result self.old.hand (job_of finished) }) }
        ensures out { IfSome result (λ finished. Contains self.old.hand.out (job_of finished)) }
        ensures none { IfNone result (self.new ≡ self.old) }
        ensures empty { IfNone result (Held 0 (λ results. WereOwed self.old.hand.out results)) }
    {
        if let Ok(finished) = self.results.try_recv_as::<Takes, R>(rt, &mut self.hand) {
            return Some(finished);
        }
        None
    }

    /// Takes a result, and waits for one. Where none comes, nothing changes.
    fn next<R: Wait>(&mut self, rt: &R) -> Option<Finished<N>>
        ensures some { IfSome result (λ finished.
            self.new ≡ record self.old { hand = after_result self.old.hand (job_of finished) }) }
        ensures out { IfSome result (λ finished. Contains self.old.hand.out (job_of finished)) }
        ensures none { IfNone result (self.new ≡ self.old) }
    {
        if let Ok(front) = self.results.recv_as::<Takes, R>(rt, &mut self.hand) {
            return Some(front);
        }
        None
    }

    /// Waits for a result.
    pub(crate) fn wait<R: Wait>(&mut self, rt: &R) -> Finished<N>
        ensures end { self.new
            ≡ record self.old { hand = after_result self.old.hand (job_of result) } }
        ensures out { Contains self.old.hand.out (job_of result) }
    {
        for _ in rt.forever() {
            if let Some(finished) = self.next(rt) {
                return finished;
            }
        }
        unreachable!()
    }
}
