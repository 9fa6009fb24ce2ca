//! Tests of a pool's task deques in one thread: what is taken, in which order, and the sums.
ghost use Rattle.std.specs.Prelude.{◌≡◌, ◌≤◌, ◌<◌, map, vec_len};
ghost use Rattle.steal_pool.specs.task_deques.Deals.{posts, IsWhole};

use super::{holds, holds_that};
use frame_table::FrameId;
use sched_rules::Worker;
use std::alloc::{AllocError, Allocator, Global};
use std::process::Abort;
use steal_pool::task_deques::{DequeEnds, Returned, Sums, Task, deal};

mod growths;

/// The task of tenant 1's frame of this serial, at a home.
fn task(serial: u64, home: u8) -> Task {
    Task {
        frame: FrameId { tenant: 1, serial },
        home,
    }
}

/// The serials of tasks that were taken; 0 where there was none.
fn serial(taken: Option<Task>) -> u64 {
    match taken {
        Some(task) => task.frame.serial,
        None => 0,
    }
}

/// A worker pushes a task; false where it is handed back.
fn pushes<A: Allocator>(all: &mut Vec<DequeEnds<A>, A>, worker: Worker, serial: u64) -> bool
    ensures posts { map posts all.new.items ≡ map posts all.old.items }
    ensures len { vec_len all.new ≡ vec_len all.old }
{
    let place = usize::from(worker.number()) - 1;
    if place >= all.len() {
        return false;
    }
    all[place].push(task(serial, worker.number())).is_ok()
}

/// A worker pushes tasks 1, 2 and 3; false where one is handed back.
fn pushes_three<A: Allocator>(all: &mut Vec<DequeEnds<A>, A>, worker: Worker) -> bool
    ensures posts { map posts all.new.items ≡ map posts all.old.items }
    ensures len { vec_len all.new ≡ vec_len all.old }
{
    pushes(all, worker, 1) && pushes(all, worker, 2) && pushes(all, worker, 3)
}

/// The task that a worker takes by its ends: of its own deque, or stolen; 0 where it finds none.
fn takes<A: Allocator>(all: &mut Vec<DequeEnds<A>, A>, worker: Worker) -> u64
    ensures posts { map posts all.new.items ≡ map posts all.old.items }
    ensures len { vec_len all.new ≡ vec_len all.old }
{
    let place = usize::from(worker.number()) - 1;
    if place >= all.len() {
        return 0;
    }
    serial(all[place].take(worker))
}

/// The sums of all deques, once their ends are put back.
fn sums<A: Allocator + Clone>(
    alloc: A,
    last: Worker,
    all: Vec<DequeEnds<A>, A>,
) -> Result<Sums, AllocError>
    requires whole { IsWhole (map posts all.items) }
    requires count { vec_len all ≡ last }
{
    let mut back = Returned::with_room(alloc, usize::from(last.number()))?;
    for ends in all {
        back.put(ends);
    }
    Ok(back.sums())
}

/// The worker of this number, 1 to 32.
fn worker(number: u8) -> Worker
    requires { (1 ≤ number) × (number ≤ 32) }
{
    Worker::new(number).unwrap()
}

/// A deal to the workers 1 to `last`, with room for so many tasks each.
fn dealt(rt: &impl Abort, alloc: Global, last: Worker, room: usize) -> Vec<DequeEnds<Global>>
    ensures whole { IsWhole (map posts result.items) }
    ensures count { vec_len result ≡ last }
{
    deal(alloc, last, room).expect(rt, "there is memory")
}

/// Of three workers, each with room for 8 tasks, 1 and 3 push one each: worker 2 steals worker 3's before worker 1's,
/// as it tries the deques in the order of their numbers after its own.
#[test]
fn the_next_worker_is_tried_first(rt: HostRuntime) {
    let mut all = dealt(&rt, rt.alloc(), worker(3), 8);
    holds(
        &rt,
        pushes(&mut all, worker(1), 1) && pushes(&mut all, worker(3), 3),
    );
    for serial in [3, 1, 0] {
        holds(&rt, takes(&mut all, worker(2)) == serial);
    }
}

/// Whether three tasks of worker 1 and two of worker 2 find room, and a fourth of worker 1 doesn't.
fn are_kept(all: &mut Vec<DequeEnds<Global>>) -> bool
    ensures posts { map posts all.new.items ≡ map posts all.old.items }
    ensures len { vec_len all.new ≡ vec_len all.old }
{
    pushes_three(all, worker(1))
        && pushes(all, worker(2), 4)
        && pushes(all, worker(2), 5)
        && !pushes(all, worker(1), 6)
}

/// Whether these workers, one after the other, take these tasks.
fn are_taken(all: &mut Vec<DequeEnds<Global>>) -> bool
    ensures posts { map posts all.new.items ≡ map posts all.old.items }
    ensures len { vec_len all.new ≡ vec_len all.old }
{
    takes(all, worker(1)) == 3
        && takes(all, worker(3)) == 1
        && takes(all, worker(2)) == 5
        && takes(all, worker(3)) == 2
        && takes(all, worker(3)) == 4
        && takes(all, worker(3)) == 0
}

/// Of three workers with room for 3 tasks each, a worker takes its own newest task, else the oldest of the next
/// worker's that has one; where there is no room a task is handed back. Five are pushed, five taken, none is left.
#[test]
fn own_newest_else_the_next_workers_oldest(rt: HostRuntime) {
    let three = worker(3);
    let mut all = dealt(&rt, rt.alloc(), three, 3);
    holds(&rt, are_kept(&mut all) && are_taken(&mut all));
    let sums = sums(rt.alloc(), three, all).expect(&rt, "there is memory");
    holds(&rt, (sums.pushed, sums.taken, sums.left) == (5, 5, 0));
}

/// How many pushes by a worker are kept, of one fewer than `many`.
fn kept<A: Allocator>(all: &mut Vec<DequeEnds<A>, A>, worker: Worker, many: u64) -> u64 {
    let mut kept = 0u64;
    for serial in 1..many {
        if pushes(all, worker, serial) {
            kept = kept.saturating_add(1);
        }
    }
    kept
}

/// How many takes by a worker find a task, of one fewer than `many`.
fn found<A: Allocator>(all: &mut Vec<DequeEnds<A>, A>, worker: Worker, many: u64) -> u64 {
    let mut found = 0u64;
    for _turn in 1..many {
        if takes(all, worker) != 0 {
            found = found.saturating_add(1);
        }
    }
    found
}

/// Of 32 workers, the most, with room for 1,024 tasks each: of 1,099 pushes of worker 2 that many are kept, and worker
/// 3, which tries worker 2's deque last, steals them all.
#[test]
fn a_deque_holds_as_many_as_it_has_room_for(rt: HostRuntime) {
    let mut all = dealt(&rt, rt.alloc(), worker(32), 1024);
    holds(&rt, kept(&mut all, worker(2), 1100) == 1024);
    holds(&rt, found(&mut all, worker(3), 1100) == 1024);
}

/// How many of 32 workers take a task that this one has pushed for each of them.
fn takers<A: Allocator>(all: &mut Vec<DequeEnds<A>, A>, owner: Worker) -> u64 {
    let pushed = kept(all, owner, 33);
    let mut found = 0u64;
    for number in 1..33u8 {
        if let Some(worker) = Worker::new(number)
            && takes(all, worker) != 0
        {
            found = found.saturating_add(1);
        }
    }
    found.min(pushed)
}

/// Each of 32 workers, the most, gets one of 32 tasks that the first, the middle (16) or the last worker pushed.
#[test]
fn each_of_32_workers_steals(rt: HostRuntime) {
    let mut all = dealt(&rt, rt.alloc(), worker(32), 32);
    holds_that(&rt, takers(&mut all, worker(1)) == 32, "of the first");
    holds_that(&rt, takers(&mut all, worker(16)) == 32, "of the middle");
    holds_that(&rt, takers(&mut all, worker(32)) == 32, "of the last");
}

/// Room for 2^64 - 1 tasks, or for as many ends that come back, is refused.
#[test]
fn no_room(rt: HostRuntime) {
    holds(&rt, deal(rt.alloc(), worker(2), usize::MAX).is_err());
    holds(&rt, Returned::with_room(rt.alloc(), usize::MAX).is_err());
}
