//! The making of all deques of a pool, and the dealing of their ends to its workers.
//!
//! All memory is taken here, before any thread starts. Each owner begins with all 64 parts of its
//! deque, and gives one to each thief.
ghost use Rattle.std.specs.Prelude.{◌≡◌, ◌-◌, ◌<◌, [], map, vec_len, All, IfOk, OnOk};
ghost use Rattle.steal_pool.specs.task_deques.Tallies.{tally};
ghost use Rattle.steal_pool.specs.task_deques.Seats.{owner_seat, owner_room, with_part_cut, new_thief};
ghost use Rattle.steal_pool.specs.task_deques.Deals.{worker_seats, worker_room, posts, owner_seats, thief_seats, beside, fresh_with, IsDealt, IsWhole};

use crate::task_deques::ends::DequeEnds;
use crate::task_deques::owner::Owner;
use crate::task_deques::thief::Thief;
use sched_rules::Worker;
use std::alloc::{AllocError, Allocator};

/// Makes a deque with room for so many tasks for each of the workers 1 to `last`, and deals the ends: those of each
/// worker, in the order of their numbers. `Err` only where memory is refused.
#[tactic(auto, using(crate::proofs::TaskDeques::SeatLemmas::new_of_fresh, crate::proofs::TaskDeques::SeatLemmas::ends_dealt))]
pub fn deal<A: Allocator + Clone>(
    alloc: A,
    last: Worker,
    room: usize,
) -> Result<Vec<DequeEnds<A>, A>, AllocError>
    ensures count { IfOk result (λ all. vec_len all ≡ last) }
    ensures dealt { IfOk result (λ all. IsDealt (map worker_seats all.items)) }
    ensures whole { IfOk result (λ all. IsWhole (map posts all.items)) }
    ensures room { IfOk result (λ all. All (λ ends. worker_room ends ≡ room) all.items) }
{
    let mut owners = owners(&alloc, usize::from(last.number()), room)?;
    let rows = rows(&alloc, &mut owners)?;
    paired(alloc, owners, rows)
}

/// The owners of so many new deques, each with all 64 parts. `Err` only where memory is refused.
fn owners<A: Allocator + Clone>(
    alloc: &A,
    count: usize,
    room: usize,
) -> Result<Vec<Owner<A>, A>, AllocError>
    ensures count { IfOk result (λ owners. vec_len owners ≡ count) }
    ensures fresh { IfOk result (λ owners. All (λ owner. (owner_seat owner).tally ≡ tally 64 [] []) owners.items) }
    ensures room { IfOk result (λ owners. All (λ owner. owner_room owner ≡ room) owners.items) }
{
    let mut owners = Vec::with_capacity(alloc.clone()?, count)?;
    for _made in 0..count {
        owners.push_reserved(Owner::with_room(alloc.clone()?, room)?);
    }
    Ok(owners)
}

/// For each worker a row of thieves, one at each deque; each thief gets one part of its deque's owner. `Err` only where
/// memory is refused.
fn rows<A: Allocator + Clone>(
    alloc: &A,
    owners: &mut Vec<Owner<A>, A>,
) -> Result<Vec<Vec<Thief<A>, A>, A>, AllocError>
    requires fresh { All (λ owner. (owner_seat owner).tally ≡ tally 64 [] []) owners.old.items }
    requires few { vec_len owners.old < 64 }
    ensures count { IfOk result (λ rows. vec_len rows ≡ vec_len owners.old) }
    ensures owners { OnOk result (owner_seats owners.new.items ≡ map (fresh_with (64 - vec_len owners.old)) (owner_seats owners.old.items)) }
    ensures room { OnOk result (map owner_room owners.new.items ≡ map owner_room owners.old.items) }
    ensures rows { IfOk result (λ rows. All (λ row. thief_seats row.items ≡ map new_thief (owner_seats owners.old.items)) rows.items) }
{
    let count = owners.len();
    let mut rows = Vec::with_capacity(alloc.clone()?, count)?;
    for _made in 0..count {
        rows.push_reserved(row(alloc.clone()?, owners)?);
    }
    Ok(rows)
}

/// A thief at each deque, in the order of the deques; each gets one part of its deque's owner. `Err` only where memory
/// is refused.
#[tactic(auto, using(crate::proofs::TaskDeques::SeatLemmas::owner_gives))]
fn row<A: Allocator>(
    alloc: A,
    owners: &mut Vec<Owner<A>, A>,
) -> Result<Vec<Thief<A>, A>, AllocError>
    requires { All (λ seat. (1 < seat.tally.parts) × (seat.tally.taken ≡ [])) (owner_seats owners.old.items) }
    ensures owners { OnOk result (owner_seats owners.new.items ≡ map with_part_cut (owner_seats owners.old.items)) }
    ensures room { OnOk result (map owner_room owners.new.items ≡ map owner_room owners.old.items) }
    ensures thieves { IfOk result (λ row. thief_seats row.items ≡ map new_thief (owner_seats owners.old.items)) }
{
    let count = owners.len();
    let mut row = Vec::with_capacity(alloc, count)?;
    for place in 0..count {
        row.push_reserved(owners[place].thief()?);
    }
    Ok(row)
}

/// The ends of each worker: an owner, and a row of thieves. `Err` only where memory is refused.
fn paired<A: Allocator>(
    alloc: A,
    owners: Vec<Owner<A>, A>,
    rows: Vec<Vec<Thief<A>, A>, A>,
) -> Result<Vec<DequeEnds<A>, A>, AllocError>
    requires count { vec_len rows ≡ vec_len owners }
    requires rows { All (λ row. thief_seats row.items ≡ map new_thief (owner_seats owners.items)) rows.items }
    ensures count { IfOk result (λ all. vec_len all ≡ vec_len owners) }
    ensures ends { IfOk result (λ all. map worker_seats all.items ≡ map (beside (map new_thief (owner_seats owners.items))) (owner_seats owners.items)) }
    ensures room { IfOk result (λ all. map worker_room all.items ≡ map owner_room owners.items) }
{
    let mut rows = rows;
    let mut all = Vec::with_capacity(alloc, owners.len())?;
    for own in owners {
        let thieves = rows.take_last();
        all.push_reserved(DequeEnds { own, thieves });
    }
    Ok(all)
}
