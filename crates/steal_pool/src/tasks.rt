//! The tasks of a pool's worker, and what all workers share.
ghost use Rattle.std.specs.Prelude.{◌≡◌, IfNone, IfSome, Some};
ghost use Rattle.steal_pool.specs.task_deques.Deals.{posts, worker_seats, IsTaken};
ghost use Rattle.steal_pool.specs.Orders.{since_after};
ghost use Rattle.steal_pool.specs.Works.{IsPushedOf, IsTakenFromOwn};

use crate::order::{Order, Rhythm};
use crate::task_deques::DequeEnds;
use jamboree_rules::pool_rules::{Computations, Task};
use sched_rules::Worker;
use std::sync::{Mutex, Wait};

/// What the workers of a pool share beside their deques: the count of computations, under a lock of
/// its own.
#[derive(Drop)]
pub struct SharedComputations {
    computations: Mutex<Computations>,
}

impl SharedComputations {
    /// What a new pool's workers share: no computation was begun yet.
    pub fn new() -> SharedComputations {
        SharedComputations {
            computations: Mutex::new(Computations::new()),
        }
    }

    /// The tasks of a worker that has these ends of the deques, and looks in the specified order.
    pub fn tasks(&self, ends: DequeEnds) -> Tasks<'_>
        ensures { result.ends ≡ ends }
    {
        self.tasks_in(ends, Order::Specified)
    }

    /// The tasks of a worker that has these ends of the deques, and looks in this order.
    pub fn tasks_in(&self, ends: DequeEnds, order: Order) -> Tasks<'_>
        ensures ends { result.ends ≡ ends }
        ensures order { result.rhythm.order ≡ order }
        ensures since { result.rhythm.since ≡ 0 }
    {
        Tasks {
            ends,
            rhythm: Rhythm::new(order),
            cost: 0,
            shared: self,
        }
    }
}

/// A worker's tasks: its own deque, the thieves' ends of all deques, when its next pick is due, what its last leaf cost, and the count of
/// computations that the pool shares.
#[derive(Drop)]
pub struct Tasks<'s> {
    /// The worker's ends of the deques.
    pub ends: DequeEnds,
    /// When its next pick is due.
    pub rhythm: Rhythm,
    /// What the leaf cost that it computed last, for which nobody was charged yet.
    pub cost: u64,
    shared: &'s SharedComputations,
}

impl Tasks<'_> {
    /// Pushes a task on the worker's own deque. Where the deque has no room (1,024 tasks) the task is dropped: its frame stays ready
    /// in the hall, where a worker finds it again.
    pub(crate) fn push(&mut self, task: Task)
        ensures pushed { IsPushedOf (Some task) (worker_seats self.old.ends) (worker_seats self.new.ends) }
        ensures posts { posts self.new.ends ≡ posts self.old.ends }
        ensures rhythm { self.new.rhythm ≡ self.old.rhythm }
    {
        match self.ends.push(task) {
            Ok(()) => {}
            Err(_handed_back) => {}
        }
    }

    /// Begins the newest task of the worker's own deque. `None` where it has none.
    pub(crate) fn begin_own(&mut self) -> Option<Task>
        ensures taken { IfSome result (λ task. IsTakenFromOwn task (worker_seats self.old.ends) (worker_seats self.new.ends)) }
        ensures begun { IfSome result (λ _. self.new.rhythm.since ≡ since_after self.old.rhythm.order self.old.rhythm.since) }
        ensures unchanged { IfNone result (worker_seats self.new.ends ≡ worker_seats self.old.ends) }
        ensures since { IfNone result (self.new.rhythm.since ≡ self.old.rhythm.since) }
        ensures order { self.new.rhythm.order ≡ self.old.rhythm.order }
        ensures posts { posts self.new.ends ≡ posts self.old.ends }
    {
        match self.ends.take_own() {
            Some(task) => {
                self.rhythm.begun();
                Some(task)
            }
            None => None,
        }
    }

    /// Begins the newest task of the worker's own deque, else the oldest of another's, trying them in the order of their
    /// numbers after its own. `None` where it found none, which doesn't prove that there is none.
    pub(crate) fn begin_any(&mut self, worker: Worker) -> Option<Task>
        ensures taken { IfSome result (λ task. IsTaken task (worker_seats self.old.ends) (worker_seats self.new.ends)) }
        ensures begun { IfSome result (λ _. self.new.rhythm.since ≡ since_after self.old.rhythm.order self.old.rhythm.since) }
        ensures unchanged { IfNone result (worker_seats self.new.ends ≡ worker_seats self.old.ends) }
        ensures order { self.new.rhythm.order ≡ self.old.rhythm.order }
        ensures posts { posts self.new.ends ≡ posts self.old.ends }
    {
        match self.ends.take(worker) {
            Some(task) => {
                self.rhythm.begun();
                Some(task)
            }
            None => None,
        }
    }

    /// Counts a computation that begins now, and returns its number among those of the pool, from 1 on.
    pub(crate) fn begin<R: Wait>(&self, rt: &R) -> u64 {
        self.shared.computations.lock(rt).begin()
    }
}
