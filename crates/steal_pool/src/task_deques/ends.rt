//! A worker's ends of all deques of a pool: the owner of its own, and a thief at each (the one at its own isn't used).
ghost use Rattle.std.specs.Prelude.{◌≡◌, ◌<◌, ◌≤◌, vec_len, OnOk, IfErr, OnErr, IfNone, IfSome};
ghost use Rattle.steal_pool.specs.task_deques.Seats.{with_pushed, with_taken};
ghost use Rattle.steal_pool.specs.task_deques.Deals.{thief_seats, IsStolen};

use crate::task_deques::owner::Owner;
use crate::task_deques::thief::Thief;
use jamboree_rules::pool_rules::Task;
use sched_rules::Worker;
use std::alloc::{Allocator, Global};

/// A worker's own deque, and a thief's end of each worker's deque, in the order of the workers' numbers. The one at its
/// own deque isn't used: it is there so that the k-th is at worker k's.
#[derive(Drop)]
pub struct DequeEnds<A: Allocator = Global> {
    pub(crate) own: Owner<A>,
    pub(crate) thieves: Vec<Thief<A>, A>,
}

impl<A: Allocator> DequeEnds<A> {
    ghost use Rattle.steal_pool.specs.task_deques.Deals.{worker_seats, worker_room, posts, IsTaken};

    /// Pushes a task on the worker's own deque. `Err` hands it back: there is no room, 2^64 - 1 tasks were pushed
    /// before, or the deque can't grow.
    pub fn push(&mut self, task: Task) -> Result<(), Task>
        ensures pushed { OnOk result (worker_seats self.new ≡ record (worker_seats self.old) { own = with_pushed task (worker_seats self.old).own }) }
        ensures handed_back { IfErr result (λ back. back ≡ task) }
        ensures unchanged { OnErr result (worker_seats self.new ≡ worker_seats self.old) }
        ensures posts { posts self.new ≡ posts self.old }
        ensures room { worker_room self.new ≡ worker_room self.old }
    {
        self.own.push(task)
    }

    /// Takes the newest task of the worker's own deque. `None` doesn't prove that the deque is empty.
    pub fn take_own(&mut self) -> Option<Task>
        ensures taken { IfSome result (λ task. worker_seats self.new ≡ record (worker_seats self.old) { own = with_taken task (worker_seats self.old).own }) }
        ensures unchanged { IfNone result (worker_seats self.new ≡ worker_seats self.old) }
        ensures posts { posts self.new ≡ posts self.old }
        ensures room { worker_room self.new ≡ worker_room self.old }
    {
        self.own.pop()
    }

    /// Takes the newest task of the worker's own deque, else the oldest of another's, trying them in the order of their
    /// numbers after its own. `worker` is this worker. `None` doesn't prove that the deques are empty.
    pub fn take(&mut self, worker: Worker) -> Option<Task>
        ensures taken { IfSome result (λ task. IsTaken task (worker_seats self.old) (worker_seats self.new)) }
        ensures unchanged { IfNone result (worker_seats self.new ≡ worker_seats self.old) }
        ensures posts { posts self.new ≡ posts self.old }
        ensures room { worker_room self.new ≡ worker_room self.old }
    {
        if let Some(task) = self.own.pop() {
            return Some(task);
        }
        let place = usize::from(worker.number());
        let many = self.thieves.len();
        if let Some(task) = steal_between(&mut self.thieves, place, many) {
            return Some(task);
        }
        steal_between(&mut self.thieves, 0, place - 1)
    }
}

/// Steals a task by one of the thieves at the places from `from` to before `to`, trying them in order; `None` where
/// none of them finds one.
fn steal_between<A: Allocator>(
    thieves: &mut Vec<Thief<A>, A>,
    from: usize,
    to: usize,
) -> Option<Task>
    ensures taken { IfSome result (λ task. IsStolen task (thief_seats thieves.old.items) (thief_seats thieves.new.items)) }
    ensures unchanged { IfNone result (thief_seats thieves.new.items ≡ thief_seats thieves.old.items) }
{
    for place in from..to.min(thieves.len()) {
        if let Some(task) = steal_at(thieves, place) {
            return Some(task);
        }
    }
    None
}

/// The task that the thief at this place steals; `None` where it finds none.
#[tactic(auto, using(crate::proofs::TaskDeques::SeatLemmas::thief_waited))]
fn steal_at<A: Allocator>(thieves: &mut Vec<Thief<A>, A>, place: usize) -> Option<Task>
    requires { place < vec_len thieves.old }
    ensures taken { IfSome result (λ task. IsStolen task (thief_seats thieves.old.items) (thief_seats thieves.new.items)) }
    ensures unchanged { IfNone result (thief_seats thieves.new.items ≡ thief_seats thieves.old.items) }
    ensures len { vec_len thieves.new ≡ vec_len thieves.old }
{
    thieves[place].steal()
}
