//! The joining of the seats of all thieves to those of the owners of a pool's deques, when the pool ends.
ghost use Rattle.std.specs.Prelude.{◌≡◌, ◌+◌, ◌<◌, ◌≤◌, map, length, sum_by, vec_len, All};
ghost use Rattle.steal_pool.specs.task_deques.Deals.{owner_seats, thief_seats, deques, with_row, with_rows, IsAccounted};

use crate::task_deques::owner::Owner;
use crate::task_deques::sums::Sums;
use crate::task_deques::thief::Thief;
use std::alloc::Allocator;

/// The owners, with the seats of all thieves joined to theirs.
#[tactic(auto, using(std::proofs::lemmas::List::nil_from_length, crate::proofs::TaskDeques::JoinLemmas::rows_done))]
pub(crate) fn joined<A: Allocator>(
    owners: Vec<Owner<A>, A>,
    rows: Vec<Vec<Thief<A>, A>, A>,
) -> Vec<Owner<A>, A>
    requires rows { All (λ row. deques (thief_seats row.items) ≡ deques (owner_seats owners.items)) rows.items }
    requires parts { All (λ seat. seat.tally.parts + vec_len rows ≡ 64) (owner_seats owners.items) }
    ensures seats { owner_seats result.items ≡ with_rows (owner_seats owners.items) (map (λ row. thief_seats row.items) rows.items) }
    ensures parts { All (λ seat. seat.tally.parts ≡ 64) (owner_seats result.items) }
    ensures count { vec_len result ≡ vec_len owners }
{
    let mut owners = owners;
    for row in rows {
        join_row(&mut owners, row);
    }
    owners
}

/// Joins the seat of each thief in the row to the seat of the owner at the same place.
fn join_row<A: Allocator>(owners: &mut Vec<Owner<A>, A>, row: Vec<Thief<A>, A>)
    requires deques { deques (thief_seats row.items) ≡ deques (owner_seats owners.old.items) }
    requires parts { All (λ seat. seat.tally.parts < 64) (owner_seats owners.old.items) }
    ensures { owner_seats owners.new.items ≡ with_row (owner_seats owners.old.items) (thief_seats row.items) }
{
    let mut place = 0;
    for thief in row {
        owners[place].join(thief);
        place += 1;
    }
}

/// How many tasks were pushed on all deques together, taken from them and left, where each owner's seat has all parts
/// of its deque.
pub(crate) fn added<A: Allocator>(owners: Vec<Owner<A>, A>) -> Sums
    requires parts { All (λ seat. seat.tally.parts ≡ 64) (owner_seats owners.items) }
    requires few { vec_len owners ≤ 64 }
    ensures pushed { result.pushed ≡ sum_by (λ deque. length deque.tally.pushed) (owner_seats owners.items) }
    ensures taken { result.taken ≡ sum_by (λ deque. length deque.tally.taken) (owner_seats owners.items) }
    ensures each_once { All IsAccounted (owner_seats owners.items) }
{
    let mut owners = owners;
    let (mut pushed, mut taken, mut left) = (0, 0, 0);
    for place in 0..owners.len() {
        let sums = owners[place].sums();
        pushed += sums.pushed;
        taken += sums.taken;
        left += sums.left;
    }
    Sums {
        pushed,
        taken,
        left,
    }
}
