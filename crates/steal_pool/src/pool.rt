//! Running a pool of workers: what it is given, and what it ends with.
ghost use Rattle.std.specs.Prelude.{◌≡◌, ◌+◌, true, IfErr, IfOk, None};
ghost use Rattle.steal_pool.specs.Announced.{IsUnsaid};
ghost use Rattle.steal_pool.specs.Ends.{AreTasksOf};
ghost use Rattle.steal_pool.specs.Faults.{pool_fault_number};
ghost use Rattle.steal_pool.specs.declared.order.Order.TheVariants.{Specified};

use crate::announce::{Announce, Quiet};
use crate::gate::Gate;
use crate::order::Order;
use crate::task_deques::Returned;
use crate::tasks::SharedComputations;
use crate::threads::{Crew, Stock, Worked, run_all};
use crate::workplace::Workplace;
use sched_rules::Worker;
use std::alloc::Global;
use std::snapshot::Snapshot;
use std::sync::Wait;
use std::thread;
use std::thread::Threads;
use thiserror::Error;

/// Why no pool ran. The workplace is closed then, and the workers that were started have ended.
#[derive(Clone, Copy, Debug, PartialEq, Eq, Error)]
pub enum PoolFault {
    /// 1: there was no memory for the deques of tasks, or for the threads' handles. No worker was started.
    #[error("out of memory")]
    OutOfMemory = 1,
    /// 2: a worker's thread couldn't be started, or the workplace had no badge left.
    #[error("no thread")]
    NoThread,
}

impl PoolFault {
    /// The fault's number: 1 for want of memory, 2 for want of a thread.
    pub fn number(&self) -> u8
        ensures { result ≡ pool_fault_number self.now }
    {
        *self as u8
    }
}

/// Why a pool that was to be announced didn't run. The workplace is closed then, and the workers that were started have
/// ended.
#[derive(Clone, Copy, Debug, PartialEq, Eq, Error)]
pub enum BeginFault {
    /// It couldn't begin, so `announce` wasn't called.
    #[error("no pool")]
    Pool(PoolFault),
    /// It had begun, and `announce` returned false.
    #[error("it could not be said")]
    Unsaid,
}

/// What a pool ends with.
#[derive(Drop)]
pub struct PoolEnd<B> {
    /// How many workers it had.
    pub workers: usize,
    /// All workers' badges, joined: its share is the number of steps that they took.
    pub badge: B,
    /// How many tasks were pushed on all deques together.
    pub pushed: u128,
    /// How many tasks were taken from them, by their owners or by thieves.
    pub taken: u128,
    /// How many tasks are left in them.
    pub left: u128,
    /// The ends of all deques as the threads brought them back, in which the tasks were counted. It takes no bytes:
    /// only contracts see them.
    pub ends: Snapshot<Returned>,
    ghost sums: { pushed ≡ taken + left },
}

/// A pool that didn't run.
#[derive(Clone, Copy, Debug, PartialEq, Eq)]
pub struct NotRun {
    /// Why.
    pub fault: BeginFault,
    /// How many workers' threads were started and have ended.
    pub ended: usize,
}

/// How many workers a pool has, the size of their stacks, and in which order they look for tasks.
#[derive(Clone, Copy, Debug, PartialEq, Eq)]
pub struct PoolConfig {
    /// The number of its last worker, which is how many it has: they are numbered from 1.
    pub workers: Worker,
    /// The size of a worker's stack in bytes; `None` for the usual size.
    pub stack: Option<usize>,
    /// In which order its workers look for their next task.
    pub order: Order,
}

impl PoolConfig {
    /// The workers 1 to `workers`, with stacks of the usual size, in the specified order.
    pub fn new(workers: Worker) -> PoolConfig
        ensures workers { result.workers ≡ workers }
        ensures stack { result.stack ≡ None }
        ensures order { result.order ≡ Specified }
    {
        PoolConfig {
            workers,
            stack: None,
            order: Order::Specified,
        }
    }
}

/// How many tasks each worker's deque has room for. A task beyond them is dropped: its frame stays ready in the hall,
/// where a worker finds it again.
const ROOM: usize = 1_024;

/// Runs the workers 1 to `workers`, each in a thread of its own. Returns what the pool ends with when the desk is
/// closed and all workers have ended. Where not all of them could be started it closes the workplace, waits for those that
/// were, and returns why (`PoolFault`).
pub fn run_pool<P: Workplace + Sync, G: Gate + Sync, R: Threads + Wait + Sync>(
    rt: &R,
    alloc: Global,
    place: &P,
    workers: Worker,
    gate: &G,
) -> Result<PoolEnd<P::Badge>, PoolFault>
where
    P::Badge: Send,
    requires { P.Badge.may_join }
    ensures workers { IfOk result (λ end. end.workers ≡ workers) }
    ensures tasks { IfOk result (λ end. AreTasksOf end.ends.value end.workers end.pushed end.taken) }
{
    let (_quiet, ended) = run_pool_sized(rt, alloc, place, PoolSizes::usual(workers), gate, Quiet);
    match ended {
        Ok(end) => Ok(end),
        Err(not_run) => match not_run.fault {
            BeginFault::Pool(fault) => Err(fault),
            BeginFault::Unsaid => unreachable!(),
        },
    }
}

/// Runs a pool as `run_pool` does, with the stacks of `config`, and calls `announce` of `call` in this thread once all
/// workers were started. Returns `call` too, and what the pool ends with when the workplace is closed and all workers have
/// ended. `Pool` where not all workers could be started: `announce` isn't called then. `Unsaid` where it returned
/// false. In both cases the workplace is closed, and the workers that were started have ended.
pub fn run_pool_announced<
    P: Workplace + Sync,
    G: Gate + Sync,
    R: Threads + Wait + Sync,
    A: Announce + Drop,
>(
    rt: &R,
    alloc: Global,
    place: &P,
    config: PoolConfig,
    gate: &G,
    call: A,
) -> (A, Result<PoolEnd<P::Badge>, BeginFault>)
where
    P::Badge: Send,
    requires { P.Badge.may_join }
    ensures workers { IfOk result.1 (λ end. end.workers ≡ config.workers) }
    ensures tasks { IfOk result.1 (λ end. AreTasksOf end.ends.value end.workers end.pushed end.taken) }
    ensures said { IfOk result.1 (λ _. A.says call true result.0) }
    ensures unsaid { IfErr result.1 (λ fault. IsUnsaid A.says call fault result.0) }
{
    let sizes = PoolSizes {
        stack: match config.stack {
            Some(size) => Some((1, size)),
            None => None,
        },
        order: config.order,
        ..PoolSizes::usual(config.workers)
    };
    let (call, ended) = run_pool_sized(rt, alloc, place, sizes, gate, call);
    match ended {
        Ok(end) => (call, Ok(end)),
        Err(not_run) => (call, Err(not_run.fault)),
    }
}

/// How much a pool takes at its start. Tests (`thread_tests`) ask for more than can be had, one field at a time.
#[derive(Clone, Copy, Debug)]
pub struct PoolSizes {
    /// The number of the last worker, which is how many there are.
    pub workers: Worker,
    /// How many tasks there is room for in each deque.
    pub room: usize,
    /// Room for the deque ends that come back from the threads is taken for so many more workers than there are: 0 but
    /// in tests.
    pub more_ends: usize,
    /// Room for thread handles is taken for so many more threads than there are workers: 0 but in tests.
    pub more_threads: usize,
    /// `Some((from, size))`: the workers from number `from` on have stacks of `size` bytes. All others, and all at
    /// `None`, have the usual size.
    pub stack: Option<(u8, usize)>,
    /// In which order the workers look for their next task.
    pub order: Order,
}

impl PoolSizes {
    /// The workers 1 to `workers`, each with room for 1,024 tasks and a stack of the usual size, in the specified order; no more room
    /// than needed for all else.
    pub fn usual(workers: Worker) -> PoolSizes
        ensures { result.workers ≡ workers }
    {
        PoolSizes {
            workers,
            room: ROOM,
            more_ends: 0,
            more_threads: 0,
            stack: None,
            order: Order::Specified,
        }
    }
}

/// Runs a pool with these sizes: what `run_pool` and `run_pool_announced` do, which say when it returns. At an error it
/// also tells how many workers' threads were started and have ended. For tests (`thread_tests`).
pub fn run_pool_sized<
    P: Workplace + Sync,
    G: Gate + Sync,
    R: Threads + Wait + Sync,
    A: Announce + Drop,
>(
    rt: &R,
    alloc: Global,
    place: &P,
    sizes: PoolSizes,
    gate: &G,
    call: A,
) -> (A, Result<PoolEnd<P::Badge>, NotRun>)
where
    P::Badge: Send,
    requires { P.Badge.may_join }
    ensures workers { IfOk result.1 (λ end. end.workers ≡ sizes.workers) }
    ensures tasks { IfOk result.1 (λ end. AreTasksOf end.ends.value end.workers end.pushed end.taken) }
    ensures said { IfOk result.1 (λ _. A.says call true result.0) }
    ensures unsaid { IfErr result.1 (λ not_run. IsUnsaid A.says call not_run.fault result.0) }
{
    let stack = sizes.stack;
    let order = sizes.order;
    let Ok(stock) = Stock::made(alloc, sizes.workers, sizes) else {
        place.close(rt);
        let fault = BeginFault::Pool(PoolFault::OutOfMemory);
        return (call, Err(NotRun { fault, ended: 0 }));
    };
    let tasks = SharedComputations::new();
    let shared = &tasks;
    let (call, worked) = thread::scope(
        thread::scope_env(),
        rt,
        move |scope|
            requires { P.Badge.may_join }
        {
            let crew = Crew {
                scope,
                rt,
                place,
                shared,
                gate,
                order,
                stack,
            };
            run_all(&crew, stock, call)
        },
    );
    match worked {
        Ok(worked) => (call, Ok(end_of(worked))),
        Err(not_run) => (call, Err(not_run)),
    }
}

/// What a pool ends with, by what its workers left: their joined badge, and what they did with their tasks.
fn end_of<B>(worked: Worked<B>) -> PoolEnd<B>
    ensures ends { result.ends.value ≡ worked.back }
    ensures badge { result.badge ≡ worked.badge }
    ensures tasks { AreTasksOf result.ends.value result.workers result.pushed result.taken }
{
    let Worked { badge, back } = worked;
    let ends = Snapshot::of(&back);
    let workers = back.count();
    let sums = back.sums();
    PoolEnd {
        workers,
        badge,
        pushed: sums.pushed,
        taken: sums.taken,
        left: sums.left,
        ends,
    }
}
