//! The workers of a pool in threads: the ends of the deques are dealt to them, and come back.
//!
//! What comes from another thread is known by its type alone. So each thread is started with a promise,
//! [`SameEnds`]: the ends that it brings back are at the same deques as those that it was given. Once all
//! threads are joined, all seats of all deques are there, and what was pushed on each is what was taken
//! from it and what is left.
ghost use Rattle.std.specs.Prelude.{◌≡◌, ◌≤◌, [], true, length, map, vec_len, vec_capacity, IfErr, IfOk, Ok, OnOk};
ghost use Rattle.steal_pool.specs.task_deques.Deals.{posts, posts_of, returned, returned_room, IsWhole};
ghost use Rattle.steal_pool.specs.Announced.{IsUnsaid};

use crate::announce::Announce;
use crate::gate::Gate;
use crate::order::Order;
use crate::pool::{BeginFault, NotRun, PoolFault, PoolSizes};
use crate::task_deques::{DequeEnds, Returned, deal};
use crate::tasks::{SharedComputations, Tasks};
use crate::worker::run_worker;
use crate::workplace::Workplace;
use core::thread::Stack;
use desk::WorkerBadge;
use sched_rules::Worker;
use std::alloc::{AllocError, Global};
use std::snapshot::Snapshot;
use std::sync::Wait;
use std::thread::{Promise, PromisedHandle, Scope, Threads};

/// The promise that a worker's thread is started with: the deque ends that it returns are at the same deques as those
/// that it was given, of which this is a snapshot.
#[derive(Drop)]
pub(crate) struct SameEnds(Snapshot<DequeEnds>);

impl<B> Promise<(B, DequeEnds)> for SameEnds {
    ghost kept_by = { λ promise came. posts came.1 ≡ posts promise.0.value };
}

/// The handle of a worker's thread; joining it returns the worker's badge and its deque ends.
type Handle<B> = PromisedHandle<(B, DequeEnds), SameEnds>;

/// All memory that a pool takes at its start: its workers' deque ends, the room for those that come back, and the room
/// for the threads' handles.
#[derive(Drop)]
pub(crate) struct Stock<B> {
    dealt: Vec<DequeEnds>,
    back: Returned,
    handles: Vec<Handle<B>>,
    ghost whole: { IsWhole (map posts dealt.items) },
    ghost few: { vec_len dealt ≤ 32 },
    ghost none_back: { returned back ≡ [] },
    ghost room: { vec_len dealt ≤ returned_room back },
    ghost no_handle: { vec_len handles ≡ 0 },
    ghost handle_room: { vec_len dealt ≤ vec_capacity handles },
}

impl<B> Stock<B> {
    /// The memory for the workers 1 to `last`, with these sizes. `Err` only where memory is refused.
    pub(crate) fn made(
        alloc: Global,
        last: Worker,
        sizes: PoolSizes,
    ) -> Result<Stock<B>, AllocError>
        ensures { IfOk result (λ stock. vec_len stock.dealt ≡ last) }
    {
        let dealt = deal(alloc, last, sizes.room)?;
        let many = dealt.len();
        let back = Returned::with_room(alloc, many.saturating_add(sizes.more_ends))?;
        let handles = Vec::with_capacity(alloc, many.saturating_add(sizes.more_threads))?;
        Ok(Stock {
            dealt,
            back,
            handles,
        })
    }
}

/// What all threads of a pool are started with.
#[derive(Drop)]
pub(crate) struct Crew<'s, E, P, G, R> {
    pub(crate) scope: &'s Scope<'s, E>,
    pub(crate) rt: &'s R,
    pub(crate) place: &'s P,
    pub(crate) shared: &'s SharedComputations,
    pub(crate) gate: &'s G,
    pub(crate) order: Order,
    /// `Some((from, size))`: the workers from number `from` on have stacks of `size` bytes. All others, and all at
    /// `None`, have the usual size.
    pub(crate) stack: Option<(u8, usize)>,
}

/// What the workers of a pool leave when they have ended: their badges, joined, and the ends of all deques.
#[derive(Drop)]
pub(crate) struct Worked<B> {
    pub(crate) badge: B,
    pub(crate) back: Returned,
    ghost whole: { IsWhole (map posts_of (returned back)) },
}

/// Starts all workers, calls `announce` of `call`, and waits until all workers have ended, which they do when the workplace
/// is closed. Where a worker can't be started, or `announce` returns false, it closes the workplace, waits for the workers
/// that it started, and returns the fault and how many these were.
pub(crate) fn run_all<
    's,
    E,
    P: Workplace + Sync,
    G: Gate + Sync,
    R: Threads + Wait + Sync,
    A: Announce,
>(
    crew: &Crew<'s, E, P, G, R>,
    stock: Stock<P::Badge>,
    call: A,
) -> (A, Result<Worked<P::Badge>, NotRun>)
where
    P::Badge: Send,
    requires { P.Badge.may_join }
    ensures all { IfOk result.1 (λ worked. length (returned worked.back) ≡ vec_len stock.dealt) }
    ensures said { IfOk result.1 (λ _. A.says call true result.0) }
    ensures unsaid { IfErr result.1 (λ not_run. IsUnsaid A.says call not_run.fault result.0) }
{
    let mut call = call;
    let Some(own) = crew.place.badge(crew.rt) else {
        crew.place.close(crew.rt);
        let fault = BeginFault::Pool(PoolFault::NoThread);
        return (call, Err(NotRun { fault, ended: 0 }));
    };
    let Stock {
        dealt,
        back,
        handles,
    } = stock;
    let mut back = back;
    let mut handles = handles;
    let started = start_all(crew, dealt, &mut handles);
    let begun = announced(started, &mut call);
    if begun.is_err() {
        crew.place.close(crew.rt);
    }
    let badge = join_all::<P, R>(crew.rt, own, handles, &mut back);
    let ended = back.count();
    match begun {
        Ok(()) => (call, Ok(Worked { badge, back })),
        Err(fault) => (call, Err(NotRun { fault, ended })),
    }
}

/// Calls `announce` if all workers were started. `Pool` where they weren't, and `Unsaid` where `announce` returned
/// false.
fn announced<A: Announce>(started: Result<(), PoolFault>, call: &mut A) -> Result<(), BeginFault>
    ensures after { IfOk result (λ _. started ≡ Ok tt) }
    ensures said { IfOk result (λ _. A.says call.old true call.new) }
    ensures unsaid { IfErr result (λ fault. IsUnsaid A.says call.old fault call.new) }
{
    if let Err(fault) = started {
        return Err(BeginFault::Pool(fault));
    }
    if call.announce() {
        Ok(())
    } else {
        Err(BeginFault::Unsaid)
    }
}

/// Starts a worker with each of these deque ends, numbered from 1 on. `NoThread` at the first that can't be started;
/// those before it run then, and their handles are in `handles`.
fn start_all<'s, E, P: Workplace + Sync, G: Gate + Sync, R: Wait + Sync>(
    crew: &Crew<'s, E, P, G, R>,
    dealt: Vec<DequeEnds>,
    handles: &mut Vec<Handle<P::Badge>>,
) -> Result<(), PoolFault>
where
    P::Badge: Send,
    requires none { vec_len handles.old ≡ 0 }
    requires room { vec_len dealt ≤ vec_capacity handles.old }
    requires few { vec_len dealt ≤ 32 }
    ensures started { OnOk result (map (λ handle. posts handle.promise.0.value) handles.new.items ≡ map posts dealt.items) }
    ensures count { vec_len handles.new ≤ vec_len dealt }
{
    let mut number = 0;
    for ends in dealt {
        number += 1;
        let Some(worker) = Worker::new(number) else {
            return Err(PoolFault::NoThread);
        };
        let handle = start(crew, worker, ends)?;
        handles.push_reserved(handle);
    }
    Ok(())
}

/// Starts a worker with a new badge in a thread of its own. `NoThread` where no badge or no thread can be had; the
/// deque ends are dropped then.
fn start<'s, E, P: Workplace + Sync, G: Gate + Sync, R: Wait + Sync>(
    crew: &Crew<'s, E, P, G, R>,
    worker: Worker,
    ends: DequeEnds,
) -> Result<Handle<P::Badge>, PoolFault>
where
    P::Badge: Send,
    ensures { IfOk result (λ handle. posts handle.promise.0.value ≡ posts ends) }
{
    let Crew {
        scope,
        rt,
        place,
        shared,
        gate,
        order,
        stack,
    } = *crew;
    let Some(badge) = place.badge(rt) else {
        return Err(PoolFault::NoThread);
    };
    let thread = match stack {
        Some((from, size)) if from <= worker.number() => Stack::new().stack_size(size),
        _ => Stack::new(),
    };
    let promise = SameEnds(Snapshot::of(&ends));
    match thread.spawn_scoped_with(
        scope,
        promise,
        move || work(rt, place, worker, badge, shared.tasks_in(ends, order), gate),
    ) {
        Ok(handle) => Ok(handle),
        Err(_) => Err(PoolFault::NoThread),
    }
}

/// What a worker's thread does: runs the worker until it ends, and returns its badge and its deque ends.
fn work<P: Workplace, G: Gate, R: Wait>(
    rt: &R,
    place: &P,
    worker: Worker,
    badge: P::Badge,
    tasks: Tasks<'_>,
    gate: &G,
) -> (P::Badge, DequeEnds)
    ensures { posts result.1 ≡ posts tasks.entry.ends }
{
    let (badge, tasks) = run_worker(rt, place, worker, badge, tasks, gate);
    let Tasks { ends, .. } = tasks;
    (badge, ends)
}

/// Waits until all these threads have ended, adds the deque ends that they return to `back`, and returns their badges,
/// joined to `own`.
fn join_all<P: Workplace, R: Threads>(
    rt: &R,
    own: P::Badge,
    handles: Vec<Handle<P::Badge>>,
    back: &mut Returned,
) -> P::Badge
    requires hands { P.Badge.may_join }
    requires none { returned back.old ≡ [] }
    requires room { vec_len handles ≤ returned_room back.old }
    ensures { map posts_of (returned back.new) ≡ map (λ handle. posts handle.promise.0.value) handles.items }
{
    let mut all = own;
    for handle in handles {
        let (badge, ends) = handle.join(rt);
        back.put(ends);
        all = all.joined(badge);
    }
    all
}
