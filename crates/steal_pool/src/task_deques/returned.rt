//! The ends of a pool's workers after their threads ended: what was pushed is what was taken and left.
ghost use Rattle.std.specs.Prelude.{◌≡◌, ◌<◌, ◌≤◌, [], ◌∷◌, ◌++◌, map, length, sum_by, vec_len, vec_capacity, All, IfOk};

use crate::task_deques::ends::DequeEnds;
use crate::task_deques::joining::{added, joined};
use crate::task_deques::owner::Owner;
use crate::task_deques::sums::Sums;
use crate::task_deques::thief::Thief;
use std::alloc::{AllocError, Allocator, Global};

/// The ends of the workers that have come back so far, and room for those of the others.
#[derive(Drop)]
pub struct Returned<A: Allocator = Global> {
    owners: Vec<Owner<A>, A>,
    rows: Vec<Vec<Thief<A>, A>, A>,
    /// For how many workers' ends there is room.
    room: usize,
    ghost paired: { vec_len owners ≡ vec_len rows },
    ghost fits: { (room ≤ vec_capacity owners) × (room ≤ vec_capacity rows) },
}

impl<A: Allocator> Returned<A> {
    ghost use Rattle.steal_pool.specs.task_deques.Deals.{worker_seats, posts_of, returned, returned_room, whole_deques, IsWhole, IsAccounted};

    /// No ends yet, and room for those of so many workers. `Err` only where memory is refused.
    pub fn with_room(alloc: A, room: usize) -> Result<Returned<A>, AllocError>
    where
        A: Clone,
        ensures none { IfOk result (λ back. returned back ≡ []) }
        ensures room { IfOk result (λ back. returned_room back ≡ room) }
    {
        let owners = Vec::with_capacity(alloc.clone()?, room)?;
        let rows = Vec::with_capacity(alloc, room)?;
        Ok(Returned { owners, rows, room })
    }

    /// How many workers' ends have come back.
    #[tactic(auto, using(crate::proofs::TaskDeques::JoinLemmas::length_back))]
    pub fn count(&self) -> usize
        ensures { result ≡ length (returned self.now) }
    {
        self.owners.len()
    }

    /// Adds a worker's ends after those that came back before.
    #[tactic(auto, using(crate::proofs::TaskDeques::JoinLemmas::length_back, std::proofs::lemmas::List::map_push, crate::proofs::TaskDeques::JoinLemmas::zip_push, crate::proofs::TaskDeques::JoinLemmas::row_each))]
    pub fn put(&mut self, ends: DequeEnds<A>)
        requires { length (returned self.old) < returned_room self.old }
        ensures ends { returned self.new ≡ returned self.old ++ worker_seats ends ∷ [] }
        ensures room { returned_room self.new ≡ returned_room self.old }
    {
        let DequeEnds { own, thieves } = ends;
        self.owners.push_reserved(own);
        self.rows.push_reserved(thieves);
    }

    /// How many tasks were pushed on all deques together, how many were taken from them, and how many
    /// are left, where all ends came back. Of each deque what was pushed is what was taken and what is
    /// left, each task as often.
    #[tactic(auto, using(crate::proofs::TaskDeques::JoinLemmas::rows_back, crate::proofs::TaskDeques::JoinLemmas::parts_back, crate::proofs::TaskDeques::JoinLemmas::whole_back))]
    pub fn sums(self) -> Sums
        requires { IsWhole (map posts_of (returned self)) }
        ensures pushed { result.pushed ≡ sum_by (λ deque. length deque.tally.pushed) (whole_deques (returned self)) }
        ensures taken { result.taken ≡ sum_by (λ deque. length deque.tally.taken) (whole_deques (returned self)) }
        ensures each_once { All IsAccounted (whole_deques (returned self)) }
    {
        let Returned { owners, rows, .. } = self;
        added(joined(owners, rows))
    }
}
