//! The queue of results: its rule, and the steps on its passes.
//!
//! With each job goes a pass of this queue that has the right to send that job's result. It is used once.
ghost use Rattle.std.specs.Prelude.{◌≡◌, ◌+◌, ◌≤◌, [], ◌∷◌, ◌++◌, Contains, length, option_to_list};
ghost use Rattle.wrap_workers.specs.Jobs.{front, last, without};
ghost use Rattle.wrap_workers.specs.Finishes.{job_of};
ghost use Rattle.wrap_workers.specs.Owed.{ContainsEach, Owed, WereOwed, crew_hand, right_to, spent};

use crate::job::{Finished, Job};
use crate::names::Names;
use cell_line::Lines;
use crossbeam_channel::protocol::{Join, Lesson, Outcome, Protocol, Split};
use crossbeam_channel::{Pass, RuledReceiver, RuledSender};
use std::collections::LinkedList;
use std::marker::PhantomData;

/// What a pass of the queue of results knows. No value of it is made.
pub struct Hand<N: Lines> {
    // Whether it is the crew's.
    pub crew: bool,
    // The serial of this right, or of the crew's next one.
    pub serial: u64,
    // The jobs that are out, as the crew's pass knows them.
    pub out: LinkedList<Job<N>>,
    // The jobs whose results it may send.
    pub rights: LinkedList<Job<N>>,
}

/// The rule: a job gives one result.
pub struct Once<N> {
    of: PhantomData<N>,
}

impl<N: Lines> Protocol<Finished<N>, Hand<N>> for Once<N> {
    ghost holds = { Owed };

    ghost first = { crew_hand 0 [] [] };
}

/// The crew's end of the queue of results.
pub type Results<N> = RuledReceiver<Finished<N>, Hand<N>, Once<N>>;

/// A worker's end of the queue of results, which sends by rights.
pub type Rights<N> = RuledSender<Finished<N>, Hand<N>, Once<N>>;

/// The right to send the result of one job, or the crew's count of jobs and rights.
pub type Right<N> = Pass<Finished<N>, Hand<N>>;

/// The crew's pass gets a job, and the right to send its result is cut off.
pub struct Hires<N, W> {
    of: PhantomData<(N, W)>,
}

impl<N: Lines, W: Names<Job<N>>> Split<Hand<N>> for Hires<N, W> {
    ghost left = { λ v. crew_hand (v.serial + 1) (v.out ++ option_to_list W.named) v.rights };

    ghost right = { λ v. right_to v.serial (option_to_list W.named) };
}

/// The crew's last right goes out again.
pub struct Lends;

impl<N: Lines> Split<Hand<N>> for Lends {
    ghost left = { λ v. crew_hand (v.serial + 1) v.out (front v.rights) };

    ghost right = { λ v. right_to v.serial (last v.rights) };
}

/// The crew itself did the job of its last right: the right is spent, and the job is out no more.
pub struct Retires;

impl<N: Lines> Split<Hand<N>> for Retires {
    ghost use Rattle.wrap_workers.specs.Jobs.{without_each};

    ghost left = { λ v. crew_hand v.serial (without_each (last v.rights) v.out) (front v.rights) };

    ghost right = { λ v. spent };
}

/// A right comes back to the crew's pass.
pub struct Returns;

impl<N: Lines> Join<Hand<N>> for Returns {
    ghost both = { λ v w. crew_hand v.serial v.out (v.rights ++ w.rights) };

    ghost spent = { spent };
}

/// A result is sent, and the right to send it is spent.
pub struct Sends;

impl<N: Lines> Outcome<Finished<N>, Hand<N>> for Sends {
    ghost then = { λ v x w. w ≡ spent };
}

impl<N: Lines> Lesson<Finished<N>, Hand<N>> for Sends {
    ghost fact = { λ v items. Unit {0} };
}

/// A result is taken, and its job is out no more.
pub struct Takes;

impl<N: Lines> Outcome<Finished<N>, Hand<N>> for Takes {
    ghost then = { λ v x w. (w ≡ crew_hand v.serial (without (job_of x).number v.out) v.rights) × Contains v.out (job_of x) };
}

impl<N: Lines> Lesson<Finished<N>, Hand<N>> for Takes {
    ghost fact = { λ v items. WereOwed v.out items };
}

/// What the crew learns of the rights that came back to it. Each is for a job that is out, and they are no more than
/// these.
pub struct Counts;

impl<N: Lines> Lesson<Finished<N>, Hand<N>> for Counts {
    ghost fact = { λ v items. ContainsEach v.out v.rights × (length v.rights ≤ length v.out) };
}
