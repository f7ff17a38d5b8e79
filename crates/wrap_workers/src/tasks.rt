//! The queue of tasks: its rule, and the steps on its passes.
use crate::job::Job;
use crate::names::Names;
use crate::results::Right;
use cell_line::Lines;
use crossbeam_channel::protocol::{Lesson, Outcome, Protocol, Split};
use crossbeam_channel::{Pass, RuledReceiver, RuledSender};
use std::marker::{Model, PhantomData};

/// A job with the right to send its result.
#[derive(Drop)]
pub struct Errand<N: Lines> {
    pub job: Job<N>,
    pub right: Right<N>,
}

impl<N: Lines> Model for Errand<N> {
    ghost use Rattle.wrap_workers.specs.Errands.{ErrandParts, IsRightTo};

    ghost Value = { ErrandParts N };

    ghost view = { λ e. record { job = e.job; right = e.right } };

    ghost invariant = { λ e. IsRightTo e.right e.job };
}

/// What a worker is to do.
#[derive(Drop)]
pub enum Task<N: Lines> {
    Do(Errand<N>),
    Stop,
}

/// What a pass of the queue of tasks knows. No value of it is made.
pub struct Post<N: Lines> {
    // Whether it is the crew's.
    pub crew: bool,
    // A pass of the queue of results to which all rights belong.
    pub home: Option<Right<N>>,
    // A serial past all those that were put, as the crew's pass knows it.
    pub next: u64,
    // Whether a stop was put, as the crew's pass knows it, or taken, as a worker's does.
    pub stopped: bool,
}

/// The rule: the jobs in the queue have distinct serials.
pub struct Apart<N> {
    of: PhantomData<N>,
}

impl<N: Lines> Protocol<Task<N>, Post<N>> for Apart<N> {
    ghost use Rattle.std.specs.Prelude.{None, false};
    ghost use Rattle.wrap_workers.specs.Posted.{Posted, crew_post};

    ghost holds = { Posted };

    ghost first = { crew_post None 0 false };
}

/// The crew's end of the queue of tasks.
pub type Tasks<N> = RuledSender<Task<N>, Post<N>, Apart<N>>;

/// A worker's end of the queue of tasks, from which the crew takes too.
pub type Waiting<N> = RuledReceiver<Task<N>, Post<N>, Apart<N>>;

/// What a holder knows of the queue of tasks: the serials that were put, and whether a stop was.
pub type Place<N> = Pass<Task<N>, Post<N>>;

/// The first pass learns to which queue of results the rights belong.
pub struct Settles<N, W> {
    of: PhantomData<(N, W)>,
}

impl<N: Lines, W: Names<Right<N>>> Split<Post<N>> for Settles<N, W> {
    ghost use Rattle.wrap_workers.specs.Posted.{crew_post, worker_post};

    ghost left = { λ v. crew_post W.named v.next v.stopped };

    ghost right = { λ v. worker_post W.named };
}

/// A pass for one more worker.
pub struct Joins;

impl<N: Lines> Split<Post<N>> for Joins {
    ghost use Rattle.wrap_workers.specs.Posted.{worker_post};

    ghost left = { λ v. v };

    ghost right = { λ v. worker_post v.home };
}

/// The crew puts a task.
pub struct Puts;

impl<N: Lines> Outcome<Task<N>, Post<N>> for Puts {
    ghost use Rattle.std.specs.Prelude.{◌≡◌};
    ghost use Rattle.wrap_workers.specs.Posted.{after_put};

    ghost then = { λ v x w. w ≡ after_put v x };
}

impl<N: Lines> Lesson<Task<N>, Post<N>> for Puts {
    ghost fact = { λ v items. Unit {0} };
}

/// The crew takes a task. Until it has put a stop, it takes none.
pub struct Gets;

impl<N: Lines> Outcome<Task<N>, Post<N>> for Gets {
    ghost use Rattle.std.specs.Prelude.{◌≡◌, true, false};
    ghost use Rattle.wrap_workers.specs.Posted.{IsErrand, IsTaskAt};

    ghost then = { λ v x w. (w ≡ v) × IsTaskAt v.home x × (v.crew ≡ true → v.stopped ≡ false → IsErrand x) };
}

impl<N: Lines> Lesson<Task<N>, Post<N>> for Gets {
    ghost use Rattle.wrap_workers.specs.Posted.{WerePosted};

    ghost fact = { λ v items. WerePosted items };
}

/// A worker takes a task.
pub struct Serves;

impl<N: Lines> Outcome<Task<N>, Post<N>> for Serves {
    ghost use Rattle.std.specs.Prelude.{◌≡◌};
    ghost use Rattle.wrap_workers.specs.Posted.{IsTaskAt, after_taken};

    ghost then = { λ v x w. (w ≡ after_taken v x) × IsTaskAt v.home x };
}

impl<N: Lines> Lesson<Task<N>, Post<N>> for Serves {
    ghost use Rattle.wrap_workers.specs.Posted.{WerePosted};

    ghost fact = { λ v items. WerePosted items };
}
