//! Tests that a running pool's tasks are announced before they are done: to the test's gate, which workers call to be
//! watched or held up.
ghost use Rattle.std.specs.Prelude.{◌≡◌};

use super::{Scenario, Table, play};
use crate::tests::calls::{At, Found, left_of};
use crate::tests::holds;
use crate::tests::signs::{
    MOST_TURNS, add, becomes_set, is_set, keep, none, reaches, set, unset, value,
};
use desk::{DeskLedger, Seat};
use sched_rules::Worker;
use std::alloc::Global;
use std::sync::Wait;
use std::sync::atomic::{AtomicBool, AtomicU64};
use std::thread;
use std::thread::Threads;
use steal_pool::{Gate, Task};

/// Each task waits within a limit, before it is done, until the scenario has seen that none was; how many
/// were announced is counted. A brief one is also told of tasks under the desk's lock.
#[derive(Drop)]
struct Announced {
    is_brief: bool,
    began: AtomicBool,
    let_go: AtomicBool,
    count: AtomicU64,
}

impl Gate for Announced {
    /// Counts a task that is announced, and waits until the test lets it go.
    fn before(&self, _worker: Worker, _task: &Task) {
        add(&self.count);
        set(&self.began);
        let _in_time = becomes_set(&self.let_go);
    }

    /// Whether the pool takes this gate's calls for short ones, as the test says.
    fn is_brief(&self) -> bool {
        self.is_brief
    }

    /// Does nothing at a computation.
    fn inside(&self, _worker: Worker, _number: u64) {}
}

/// The opening is asked to depth 1; nothing is done of it while its task is announced.
#[derive(Drop)]
struct Untouched<'g> {
    gate: &'g Announced,
}

impl Scenario for Untouched<'_> {
    /// Asks the opening to depth 1 with 8 segments and nodes; while the first task is announced only the root's segment
    /// and node are used, and no step; then the job ends.
    fn play<L: DeskLedger, R: Wait>(&self, at: &At<'_, L, R>) -> Option<bool> {
        let mut seat = at.seat(8, 8)?;
        let began = at.asks(&mut seat, 1, 1) && becomes_set(&self.gate.began);
        let is_untouched = at.quota(&seat) == Some(left_of(7, 7, 128));
        let is_pending = at.get(&seat, 1) == Found::Pending;
        set(&self.gate.let_go);
        let ended = at.ends(&seat, 1, 1);
        at.leave(seat);
        Some(began && is_untouched && is_pending && ended)
    }
}

/// Whether one worker takes eight tasks from its deque, and the test's gate is told of nine, the root among them. The
/// gate says whether its calls are brief.
fn are_told<R: Threads + Wait + Sync>(rt: &R, alloc: Global, is_brief: bool) -> bool {
    let gate = Announced {
        is_brief,
        began: unset(),
        let_go: unset(),
        count: none(),
    };
    let scenario = Untouched { gate: &gate };
    match play(rt, alloc, &Table::of(&scenario, &gate, 1, 0, 8)) {
        Some(played) => played.taken == 8 && value(&gate.count) == 9,
        None => false,
    }
}

/// A pool's one worker tells the test's gate of each task before it does it: of the root, which the hall had, and of
/// the eight that it takes from its deque. So it does where the gate's calls are brief, and may be made under the lock,
/// and where they aren't.
#[test]
fn each_task_is_announced(rt: HostRuntime) {
    holds(&rt, are_told(&rt, rt.alloc(), false));
    holds(&rt, are_told(&rt, rt.alloc(), true));
}

/// Each task waits within a limit, before it is done, until the scenario has looked at the desk since.
#[derive(Drop)]
struct Watched {
    announced: AtomicU64,
    looked: AtomicU64,
    is_late: AtomicBool,
}

impl Gate for Watched {
    /// Counts a task that is announced, and waits until the desk was looked at since.
    fn before(&self, _worker: Worker, _task: &Task) {
        let before = add(&self.announced);
        if !reaches(&self.looked, before.saturating_add(1)) {
            set(&self.is_late);
        }
    }

    /// Does nothing at a computation.
    fn inside(&self, _worker: Worker, _number: u64) {}
}

/// The opening is asked to depth 1, and the desk is looked at until the job is done.
#[derive(Drop)]
struct Watching<'g> {
    gate: &'g Watched,
}

/// Looks at the desk, within a limit, until a seat's first job has ended; after each look the test's gate is told.
fn look<L: DeskLedger, R: Wait>(at: &At<'_, L, R>, seat: &Seat<L>, gate: &Watched) {
    for _ in 0..MOST_TURNS {
        let announced = value(&gate.announced);
        let is_pending = at.get(seat, 1) == Found::Pending;
        keep(&gate.looked, announced);
        if !is_pending {
            break;
        }
        thread::yield_now();
    }
}

impl Scenario for Watching<'_> {
    /// Asks the opening to depth 1, and looks at the desk until the job is done.
    fn play<L: DeskLedger, R: Wait>(&self, at: &At<'_, L, R>) -> Option<bool> {
        let mut seat = at.seat(8, 8)?;
        let asked = at.asks(&mut seat, 1, 1);
        look(at, &seat, self.gate);
        let ended = at.ends(&seat, 1, 1);
        at.leave(seat);
        Some(asked && ended)
    }
}

/// A gate that waits before each task of a pool's one worker waits outside all locks: meanwhile others use the desk.
#[test]
fn a_gate_that_waits_holds_up_its_worker_alone(rt: HostRuntime) {
    let gate = Watched {
        announced: none(),
        looked: none(),
        is_late: unset(),
    };
    let scenario = Watching { gate: &gate };
    let table = Table::of(&scenario, &gate, 1, 0, 8);
    let is_well = play(&rt, rt.alloc(), &table).is_some();
    holds(&rt, is_well && !is_set(&gate.is_late));
}
