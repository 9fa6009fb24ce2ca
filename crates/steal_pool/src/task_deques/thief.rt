//! A thief of a pool's deque: what another worker steals by.
ghost use Rattle.std.specs.Prelude.{◌≡◌, ◌+◌, [], length, IfOk, IfNone, IfSome};
ghost use Rattle.crossbeam_deque.specs.Handles.{view, IsPassOf, worker_deque, stealer_deque};
ghost use Rattle.steal_pool.specs.task_deques.Tallies.{tally};

use crate::task_deques::rule::{DequeSeat, OwnerEnd, ThiefEnd};
use crate::task_deques::steps;
use jamboree_rules::pool_rules::Task;
use std::alloc::{AllocError, Allocator, Global};

/// A thief's end of a deque, with its seat there and how many tasks it stole.
#[derive(Drop)]
pub struct Thief<A: Allocator = Global> {
    stealer: ThiefEnd<A>,
    pass: DequeSeat<A>,
    stolen: u64,
    ghost deque: { IsPassOf (stealer_deque stealer) pass },
    ghost part: { (view pass).parts ≡ 1 },
    ghost none_pushed: { (view pass).pushed ≡ [] },
    ghost stolen_are: { length (view pass).taken ≡ stolen },
}

impl<A: Allocator> Thief<A> {
    ghost use Rattle.steal_pool.specs.task_deques.Seats.{thief_seat, with_taken};

    /// A thief at the deque of this owner, with this new seat. `Err` only where memory is refused.
    pub(crate) fn at(worker: &OwnerEnd<A>, pass: DequeSeat<A>) -> Result<Thief<A>, AllocError>
        requires deque { IsPassOf (worker_deque worker.now) pass }
        requires tally { view pass ≡ tally 1 [] [] }
        ensures deque { IfOk result (λ thief. (thief_seat thief).deque ≡ worker_deque worker.now) }
        ensures tally { IfOk result (λ thief. (thief_seat thief).tally ≡ tally 1 [] []) }
    {
        let stealer = worker.stealer()?;
        Ok(Thief {
            stealer,
            pass,
            stolen: 0,
        })
    }

    /// Takes the oldest task. `None` doesn't prove that the deque is empty: another thread may have been quicker, or
    /// this thief has stolen 2^64 - 1 tasks.
    pub fn steal(&mut self) -> Option<Task>
        ensures taken { IfSome result (λ task. thief_seat self.new ≡ with_taken task (thief_seat self.old)) }
        ensures unchanged { IfNone result (thief_seat self.new ≡ thief_seat self.old) }
    {
        if self.stolen == u64::MAX {
            return None;
        }
        let Thief {
            stealer,
            pass,
            stolen,
        } = self;
        let task = steps::steal(stealer, pass)?;
        *stolen += 1;
        Some(task)
    }

    /// Takes the thief apart: its seat, and how many tasks it stole.
    pub(crate) fn left(self) -> (DequeSeat<A>, u64)
        ensures deque { IsPassOf (thief_seat self).deque result.0 }
        ensures tally { view result.0 ≡ (thief_seat self).tally }
        ensures part { (view result.0).parts ≡ 1 }
        ensures stolen { length (view result.0).taken ≡ result.1 }
        ensures none_pushed { (view result.0).pushed ≡ [] }
    {
        let Thief { pass, stolen, .. } = self;
        (pass, stolen)
    }
}
