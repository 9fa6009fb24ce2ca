//! For tests of a desk: threads that wait there: each is counted when it comes and when it is back, and tells whether
//! it found what it should.
use super::holds::{Call, name};
use super::wakes::opens;
use super::{Said, crowd, root_of, worker_of};
use crate::tests::calls::{At, Found, Turn};
use crate::tests::signs::{add, comes, none, pass, reaches, value};
use crate::tests::{holds, holds_of, holds_that};
use desk::{Desk, DeskLedger, Seat};
use frame_table::FrameId;
use std::process::Abort;
use std::sync::Wait;
use std::sync::atomic::AtomicU64;
use std::thread::{self, Scope, Threads};
use std::time::{Clock, CpuClock};

/// Who waits.
#[derive(Clone, Copy)]
pub(super) enum Who {
    /// A seat with one node, for its only job, of this depth.
    Seat(u8),
    /// Seats, each for its own second job; its first was cancelled.
    Seats,
    /// Workers, for a frame.
    Workers,
    /// A seat, in this call, for a desk that is held.
    Caller(Call),
}

/// What comes to those who wait.
#[derive(Clone, Copy)]
pub(super) enum What {
    /// The jobs are finished one by one, the last that was asked first.
    Finishes,
    /// The job is spent.
    Spend,
    /// So many seats ask one by one.
    Asks(u64),
    /// Two frames become ready while one holds the desk.
    Children,
    /// Two frames that another takes, one after the other, and then one that stays.
    InVain,
    /// A worker that holds the desk lets it go.
    Release,
    /// The desk is closed.
    Closing,
    /// Nothing for a second, and then the closing.
    Silence,
}

/// Who waits for what, how many have come, how many are back, and how many of them found what they should.
#[derive(Drop)]
pub(super) struct Watch {
    pub(super) who: Who,
    pub(super) many: u64,
    pub(super) what: What,
    there: AtomicU64,
    back: AtomicU64,
    content: AtomicU64,
}

/// What a test knows of so many threads that are to wait: none has come.
fn watch_of(who: Who, many: u64, what: What) -> Watch {
    Watch {
        who,
        many,
        what,
        there: none(),
        back: none(),
        content: none(),
    }
}

/// What a failed test says of those who wait.
fn title(who: Who) -> &'static str {
    match who {
        Who::Seat(_) | Who::Seats => "seats should be back, content:",
        Who::Workers => "workers should be back, content:",
        Who::Caller(call) => name(call),
    }
}

/// Fails the test unless this is true, and says how many threads should be back, or content.
fn should_be(rt: &impl Abort, watch: &Watch, is: bool, many: u64) {
    holds_of(rt, is, title(watch.who), many);
}

/// Fails the test unless so many threads are back from waiting, and no more.
pub(super) fn are_back(rt: &impl Abort, watch: &Watch, many: u64) {
    should_be(rt, watch, value(&watch.back) == many, many);
}

/// Fails the test unless so many threads come back from waiting in time.
pub(super) fn come_back<R: Abort + Clock>(rt: &R, watch: &Watch, many: u64) {
    should_be(rt, watch, comes(rt, &watch.back, many), many);
}

/// All have come, and had time to fall asleep; none is back.
fn all_wait<R: Abort + Clock>(rt: &R, watch: &Watch) {
    holds_that(rt, reaches(&watch.there, watch.many), "all come");
    pass(rt, 100);
    are_back(rt, watch, 0);
}

/// One who waits.
#[derive(Drop)]
enum Waiter<L: DeskLedger> {
    /// A seat, for this job.
    Seat(Seat<L>, u64),
    /// A worker, for a frame.
    Worker,
    /// A seat, in this call.
    Caller(Seat<L>, Call),
}

/// What a seat that waited for its job should find.
fn end_by(what: What) -> Found {
    match what {
        What::Finishes => Found::Done(0, None),
        What::Spend => Found::Spent,
        _ => Found::Pending,
    }
}

/// Whether a worker that waited should find this: the root of a job that was asked, a child, or none at a closed desk.
fn is_shown(what: What, ready: Option<(FrameId, u8)>) -> bool {
    match (what, ready) {
        (What::Asks(many), Some((root, home))) => {
            root.tenant >= 1 && root.tenant <= many && root.serial == 1 && home == 0
        }
        (What::Children | What::InVain, Some(_)) => true,
        (What::Closing | What::Silence, None) => true,
        _ => false,
    }
}

impl<L: DeskLedger, R: Wait> At<'_, L, R> {
    /// Waits at the desk as one of those who wait, and tells whether it found what it should.
    fn finds(&self, waiter: Waiter<L>, what: What) -> bool {
        match waiter {
            Waiter::Seat(seat, job) => self.wait(&seat, job) == end_by(what),
            Waiter::Worker => is_shown(what, self.desk.next_ready(self.rt)),
            Waiter::Caller(seat, call) => self.is_told_twice(&seat, call),
        }
    }
}

/// Waits at the desk in a thread of its own, and counts itself when it comes and when it is back.
fn waits<L: DeskLedger, R: Wait>(rt: &R, desk: &Desk<L>, waiter: Waiter<L>, watch: &Watch) {
    let at = At { rt, desk };
    add(&watch.there);
    if at.finds(waiter, watch.what) {
        add(&watch.content);
    }
    add(&watch.back);
}

impl<L: DeskLedger, R: Wait + Abort> At<'_, L, R> {
    /// A seat that has asked for the opening to this depth, as its first job.
    fn asked(&self, segments: u32, nodes: u32, depth: u8) -> Seat<L> {
        let mut seat = self.seat_of(segments, nodes);
        self.talks(&mut seat, &[Said::Ask(depth, Ok(1))]);
        seat
    }

    /// A seat that has asked for a second job, at depth 0, after it has cancelled its first.
    fn asked_again(&self) -> Seat<L> {
        let mut seat = self.asked(1, 2, 0);
        let turns = [Said::Cancel(1, Ok(())), Said::Ask(0, Ok(2))];
        self.talks(&mut seat, &turns);
        seat
    }

    /// The seat of a search beyond the grain, whose root the worker of this number has taken: no frame is ready.
    fn with_taken_root(&self, number: u8) -> Seat<L> {
        let (seat, mut badge) = (self.asked(4, 4, 7), self.badge_of());
        let root = root_of(seat.tenant(), 1);
        let worker = worker_of(self.rt, number);
        let taken = self.offer(&mut badge, worker, root, Turn::Steal(0));
        holds(self.rt, taken.is_ok());
        seat
    }

    /// One who is to wait at the desk: a seat, for its job or in a call, or a worker.
    fn waiter_of(&self, who: Who) -> Waiter<L> {
        match who {
            Who::Seat(depth) => Waiter::Seat(self.asked(1, 1, depth), 1),
            Who::Seats => Waiter::Seat(self.asked_again(), 2),
            Who::Workers => Waiter::Worker,
            Who::Caller(call) => Waiter::Caller(self.with_taken_root(1), call),
        }
    }

    /// The roots that are to have children are taken, the first by worker 1 and the second by worker 2.
    fn take_roots(&self, what: What) {
        if matches!(what, What::Children | What::InVain) {
            drop(self.with_taken_root(1));
            drop(self.with_taken_root(2));
        }
    }
}

/// Starts a thread in which one waits at the desk.
fn start<'s, E, L: DeskLedger + Send + Sync, R: Wait + Abort + Sync>(
    scope: &'s Scope<'s, E>,
    rt: &'s R,
    desk: &'s Desk<L>,
    watch: &'s Watch,
    waiter: Waiter<L>,
) {
    let started = scope.spawn(move || waits(rt, desk, waiter, watch));
    holds(rt, started.is_ok());
}

/// All wait at a desk, and something comes to them.
fn meet<'s, E, L, R>(scope: &'s Scope<'s, E>, rt: &'s R, desk: &'s Desk<L>, watch: &'s Watch)
where
    L: DeskLedger + Send + Sync,
    R: Wait + Abort + Clock + CpuClock + Sync,
{
    let at = At { rt, desk };
    for _ in 0..watch.many {
        start(scope, rt, desk, watch, at.waiter_of(watch.who));
    }
    all_wait(rt, watch);
    at.come(watch);
}

/// A thread waits at a desk that is held, until a child is opened and the desk is let go.
fn meet_held<'s, E, L, R>(scope: &'s Scope<'s, E>, rt: &'s R, desk: &'s Desk<L>, watch: &'s Watch)
where
    L: DeskLedger + Send + Sync,
    R: Wait + Abort + Clock + Sync,
{
    let at = At { rt, desk };
    let waiter = at.waiter_of(watch.who);
    let mut badge = at.badge_of();
    let mut held = desk.hold(rt, &mut badge);
    start(scope, rt, desk, watch, waiter);
    all_wait(rt, watch);
    opens(rt, &mut held, &mut badge, 1);
    held.release();
}

/// So many threads wait at a desk, and then this happens to them: each is back, and has found what it should.
pub(super) fn come_back_there<L, R>(rt: &R, desk: &Desk<L>, who: Who, many: u64, what: What)
where
    L: DeskLedger + Send + Sync,
    R: Wait + Abort + Threads + Clock + CpuClock + Sync,
{
    let watched = watch_of(who, many, what);
    let watch = &watched;
    let at = At { rt, desk };
    at.take_roots(what);
    thread::scope(thread::scope_env(), rt, |scope| match watch.what {
        What::Release => meet_held(scope, rt, desk, watch),
        _ => meet(scope, rt, desk, watch),
    });
    let are_content = value(&watch.content) == many;
    should_be(rt, watch, are_content, many);
}

/// One seat that waits for its job of depth 7 is woken where the job is spent.
#[test]
fn a_spend_wakes_a_seat(rt: HostRuntime) {
    crowd(&rt, rt.alloc(), Who::Seat(7), 1, What::Spend);
}
