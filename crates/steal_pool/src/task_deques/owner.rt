//! The owner of a pool's deque of tasks: the one worker that pushes there.
ghost use Rattle.std.specs.Prelude.{◌≡◌, ℕ, List, ◌+◌, ◌*◌, ◌^◌, ◌<◌, ◌≤◌, [], false, length, IfOk, OnOk, IfErr, OnErr, IfNone, IfSome};
ghost use Rattle.jamboree_rules.specs.declared.pool_rules.task.Task.{Task};
ghost use Rattle.crossbeam_deque.specs.Handles.{worker_flavor, worker_view};
ghost use Rattle.steal_pool.specs.task_deques.Tallies.{tally, weigh, IsEmptied};

use crate::task_deques::rule::OwnerEnd;
use crate::task_deques::steps;
use crate::task_deques::sums::Sums;
use crate::task_deques::thief::Thief;
use jamboree_rules::pool_rules::Task;
use std::alloc::{AllocError, Allocator, Global};

/// The owner's end of a deque. It counts the tasks that it pushed, and those that it and the thieves joined to it took.
#[derive(Drop)]
pub struct Owner<A: Allocator = Global> {
    worker: OwnerEnd<A>,
    /// How many tasks may wait in the deque; a push beyond them is handed back.
    room: usize,
    pushed: u64,
    taken: u128,
    ghost newest_first: { worker_flavor worker ≡ 1 },
    ghost some_part: { (0 < (worker_view worker).parts) × ((worker_view worker).parts ≤ 64) },
    ghost pushed_are: { length (worker_view worker).pushed ≡ pushed },
    ghost taken_are: { length (worker_view worker).taken ≡ taken },
    ghost few: { taken ≤ (worker_view worker).parts * 18446744073709551615 },
}

impl<A: Allocator> Owner<A> {
    ghost use Rattle.steal_pool.specs.task_deques.Seats.{owner_seat, owner_room, thief_seat, with_pushed, with_taken, with_part_cut, new_thief, joined};

    /// The owner of a new deque with room for so many tasks, with all 64 parts. `Err` only where memory is refused.
    pub fn with_room(alloc: A, room: usize) -> Result<Owner<A>, AllocError>
    where
        A: Clone,
        ensures tally { IfOk result (λ owner. (owner_seat owner).tally ≡ tally 64 [] []) }
        ensures room { IfOk result (λ owner. owner_room owner ≡ room) }
    {
        let worker = steps::made(alloc, room)?;
        Ok(Owner {
            worker,
            room,
            pushed: 0,
            taken: 0,
        })
    }

    /// Pushes a task. `Err` hands it back: as many tasks wait as there is room for, 2^64 - 1 were pushed before, or the
    /// deque can't grow. For an owner with all 64 parts, the tasks that wait are just those pushed and not taken.
    pub fn push(&mut self, task: Task) -> Result<(), Task>
        ensures pushed { OnOk result (owner_seat self.new ≡ with_pushed task (owner_seat self.old)) }
        ensures handed_back { IfErr result (λ back. back ≡ task) }
        ensures unchanged { OnErr result (owner_seat self.new ≡ owner_seat self.old) }
        ensures fits { OnOk result ((owner_seat self.old).tally.parts ≡ 64 → length (owner_seat self.old).tally.pushed < length (owner_seat self.old).tally.taken + owner_room self.old) }
        ensures room { owner_room self.new ≡ owner_room self.old }
    {
        if self.pushed == u64::MAX || self.is_full() {
            return Err(task);
        }
        let Owner { worker, pushed, .. } = self;
        steps::push(worker, task)?;
        *pushed += 1;
        Ok(())
    }

    /// Whether as many tasks wait as there is room for.
    fn is_full(&mut self) -> bool
        ensures unchanged { (owner_seat self.new ≡ owner_seat self.old) × (self.new.pushed ≡ self.old.pushed) × (owner_room self.new ≡ owner_room self.old) }
        ensures fits { result ≡ false → (owner_seat self.old).tally.parts ≡ 64 → length (owner_seat self.old).tally.pushed < length (owner_seat self.old).tally.taken + owner_room self.old }
    {
        let Owner { worker, room, .. } = self;
        steps::waiting(worker) >= *room
    }

    /// Takes the newest task. `None` where the deque was empty at one moment of the call, or 2^64 - 1 tasks were taken
    /// before. For an owner with all 64 parts, empty means that all that was pushed was taken.
    pub fn pop(&mut self) -> Option<Task>
        ensures taken { IfSome result (λ task. owner_seat self.new ≡ with_taken task (owner_seat self.old)) }
        ensures unchanged { IfNone result (owner_seat self.new ≡ owner_seat self.old) }
        ensures emptied { IfNone result ((owner_seat self.old).tally.parts ≡ 64 → length (owner_seat self.old).tally.taken < 18446744073709551615 → IsEmptied (owner_seat self.old).tally) }
        ensures room { owner_room self.new ≡ owner_room self.old }
    {
        if self.taken >= u128::from(u64::MAX) {
            return None;
        }
        let Owner { worker, taken, .. } = self;
        let task = steps::pop(worker)?;
        *taken += 1;
        Some(task)
    }

    /// Makes a thief of this deque, whose seat gets one of the owner's parts. `Err` only where memory is refused; the
    /// owner has lost the part then too.
    pub fn thief(&mut self) -> Result<Thief<A>, AllocError>
        requires parts { 1 < (owner_seat self.old).tally.parts }
        requires none_taken { (owner_seat self.old).tally.taken ≡ [] }
        ensures owner { owner_seat self.new ≡ with_part_cut (owner_seat self.old) }
        ensures room { owner_room self.new ≡ owner_room self.old }
        ensures thief { IfOk result (λ thief. thief_seat thief ≡ new_thief (owner_seat self.old)) }
    {
        let Owner { worker, .. } = self;
        let seat = steps::seat(worker);
        Thief::at(worker, seat)
    }

    /// Joins the seat of a thief of this deque to the owner's: its parts and its tasks are counted as the owner's from
    /// now on.
    pub fn join(&mut self, thief: Thief<A>)
        requires deque { (thief_seat thief).deque ≡ (owner_seat self.old).deque }
        requires parts { (owner_seat self.old).tally.parts < 64 }
        ensures seat { owner_seat self.new ≡ joined (owner_seat self.old) (thief_seat thief) }
        ensures room { owner_room self.new ≡ owner_room self.old }
    {
        let (seat, stolen) = thief.left();
        let Owner { worker, taken, .. } = self;
        steps::join(worker, seat);
        *taken += u128::from(stolen);
    }

    /// How many tasks were pushed and taken, and how many are left. It requires all 64 parts, so all thieves were
    /// joined: what was pushed is what was taken and what is left, each task as often.
    pub fn sums(&mut self) -> Sums
        requires { (owner_seat self.old).tally.parts ≡ 64 }
        ensures pushed { result.pushed ≡ length (owner_seat self.old).tally.pushed }
        ensures taken { result.taken ≡ length (owner_seat self.old).tally.taken }
        ensures counted { result.pushed < 2 ^ 64 }
        ensures each_once { (tasks : List Task) × (length tasks ≡ result.left)
            × ((h : Task → ℕ) → weigh h (owner_seat self.old).tally.pushed ≡ weigh h (owner_seat self.old).tally.taken + weigh h tasks) }
        ensures unchanged { owner_seat self.new ≡ owner_seat self.old }
        ensures room { owner_room self.new ≡ owner_room self.old }
    {
        let Owner {
            worker,
            pushed,
            taken,
            ..
        } = self;
        let left = steps::left(worker);
        Sums {
            pushed: u128::from(*pushed),
            taken: *taken,
            left: left as u128,
        }
    }
}
