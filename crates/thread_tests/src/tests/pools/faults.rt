//! Tests of pools of workers that can't begin.
ghost use Rattle.std.specs.Prelude.{◌≡◌};

use super::run_sized;
use crate::tests::calls::{At, end, hall_of};
use crate::tests::{holds, holds_of, holds_that, says};
use desk::{Desk, DeskLedger, Hall, Jamboree, Opened, PARTS, Step};
use sched_rules::Worker;
use std::alloc::Global;
use std::marker::Brand;
use std::sync::Wait;
use std::sync::ledger::Blank;
use std::thread::Threads;
use steal_pool::{BeginFault, NotRun, OpenGate, PoolFault, PoolSizes};

/// The usual sizes of a pool of four workers.
fn four() -> PoolSizes {
    PoolSizes::usual(Worker::new(4).unwrap())
}

/// Why a pool of these sizes doesn't run at a desk where a job was asked, and how often it was said that it has begun;
/// None where it runs, or the desk isn't closed then.
fn found_of<L: DeskLedger + Send + Sync, R: Threads + Wait + Sync>(
    rt: &R,
    alloc: Global,
    desk: &Desk<L>,
    sizes: PoolSizes,
    works: bool,
) -> Option<(NotRun, u32)>
    requires { L.all ≡ L.parts }
{
    let at = At { rt, desk };
    let mut seat = at.seat(64, 1_024)?;
    let asked = at.asks(&mut seat, 1, 3);
    let (said, ended) = run_sized(rt, alloc, desk, sizes, &OpenGate, works);
    let is_closed = at.is_bare();
    at.leave(seat);
    match ended {
        Err(not_run) if asked && is_closed => Some((not_run, said)),
        _ => None,
    }
}

/// Why a pool of these sizes didn't run at a new desk, and how often it was announced to have begun. All 64 segments of
/// the desk are free at its end; None where they aren't, or the pool ran.
fn found_at<L: DeskLedger + Send + Sync, R: Threads + Wait + Sync>(
    rt: &R,
    alloc: Global,
    hall: Hall,
    blank: Blank,
    opened: Opened<Step<Jamboree>>,
    sizes: PoolSizes,
    works: bool,
) -> Option<(NotRun, u32)>
    requires name { blank.name ≡ L.name }
    requires parts { (blank.parts ≡ L.parts) × (L.all ≡ L.parts) × (L.all ≡ PARTS) }
    requires history { opened ≡ L.table }
    requires begun { hall ≡ L.begun }
{
    let desk: Desk<L> = Desk::new(hall, blank, opened);
    let found = found_of(rt, alloc, &desk, sizes, works)?;
    let badge = desk.badge(rt)?;
    if end(desk, badge).free == 64 {
        Some(found)
    } else {
        None
    }
}

/// Why a pool of these sizes didn't run, and how often its beginning was announced, at a new desk with a ledger of its
/// own.
fn tried<R: Threads + Wait + Sync>(
    rt: &R,
    alloc: Global,
    sizes: PoolSizes,
    works: bool,
) -> Option<(NotRun, u32)> {
    let hall = hall_of(alloc, 64, 1_024, 0)?;
    let opened = Opened::new(alloc).ok()?;
    found_at::<Brand, R>(rt, alloc, hall, Blank::new(PARTS), opened, sizes, works)
}

/// Whether a pool of these sizes doesn't run for this, after so many threads had ended, and nothing is said: the desk is
/// closed, and all is back.
fn lacks<R>(rt: &R, alloc: Global, sizes: PoolSizes, fault: PoolFault, ended: usize) -> bool
where
    R: Threads + Wait + Sync,
{
    let fault = BeginFault::Pool(fault);
    tried(rt, alloc, sizes, true) == Some((NotRun { fault, ended }, 0))
}

/// Each request for memory of a pool's start that can't be had: that of the deques, of the room for ends that come
/// back, and of the room for threads. The desk is closed, the fault is 1, no thread was started, and nothing is said.
#[test]
fn a_pool_without_memory_does_not_begin(rt: HostRuntime) {
    let fault = PoolFault::OutOfMemory;
    let (mut deques, mut ends, mut threads) = (four(), four(), four());
    deques.room = usize::MAX;
    ends.more_ends = usize::MAX;
    threads.more_threads = usize::MAX;
    holds_that(&rt, lacks(&rt, rt.alloc(), deques, fault, 0), "deques");
    holds_that(&rt, lacks(&rt, rt.alloc(), ends, fault, 0), "ends");
    holds_that(&rt, lacks(&rt, rt.alloc(), threads, fault, 0), "threads");
    holds(&rt, fault.number() == 1);
}

/// The first, the second or the last of four threads has the greatest stack, which can't be had: the
/// desk is closed, the fault is 2, those that were started have ended, nothing is left, and nothing is said.
#[test]
fn a_pool_without_a_thread_does_not_begin(rt: HostRuntime) {
    let fault = PoolFault::NoThread;
    for (from, ended) in [(1u8, 0usize), (2, 1), (4, 3)] {
        let mut sizes = four();
        sizes.stack = Some((from, usize::MAX));
        let is_well = lacks(&rt, rt.alloc(), sizes, fault, ended);
        holds_of(&rt, is_well, "worker", u64::from(from));
    }
    holds(&rt, fault.number() == 2);
}

/// All four were started and it can't be said that they were: it was tried once, the desk is closed, and the four end.
#[test]
fn a_beginning_that_cannot_be_said(rt: HostRuntime) {
    let (fault, ended) = (BeginFault::Unsaid, 4);
    let found = tried(&rt, rt.alloc(), four(), false);
    holds(&rt, found == Some((NotRun { fault, ended }, 1)));
}

/// For each fault of a pool: its number and its words.
#[test]
fn faults_of_a_pool_are_told(rt: HostRuntime) {
    let alloc = rt.alloc();
    holds(&rt, says(alloc, PoolFault::OutOfMemory, "out of memory"));
    holds(&rt, says(alloc, PoolFault::NoThread, "no thread"));
    let no_pool = BeginFault::Pool(PoolFault::NoThread);
    holds(&rt, says(alloc, no_pool, "no pool"));
    holds(&rt, says(alloc, BeginFault::Unsaid, "it could not be said"));
}
