//! Tests of searches at the same time in a pool: a short one is over before a long one that began earlier. The test's
//! gate, which workers call, notes when computations begin and end.
ghost use Rattle.std.specs.Prelude.{◌≡◌};

use super::{Scenario, Table, play};
use crate::tests::calls::{At, black};
use crate::tests::holds_that;
use crate::tests::signs::{add, comes, is_set, keep, none, set, unset, value};
use desk::DeskLedger;
use othello_board::Board;
use othello_board::position_text::Position;
use sched_rules::Worker;
use std::alloc::Global;
use std::io;
use std::sync::Wait;
use std::sync::atomic::{AtomicBool, AtomicU64, Ordering};
use std::thread::Threads;
use std::time::{Clock, CpuClock, Duration};
use steal_pool::{Gate, Task};

/// How many short searches there are.
const SHORT: u64 = 8;

/// How often it is tried.
const TRIES: u32 = 20;

/// The first computation is a long search. What its worker has used of a processor before it, and what the process had
/// used when the last of the short ones was over, is kept in nanoseconds. It stays there until they are, within a limit.
#[derive(Drop)]
struct Long<'c, C> {
    clock: &'c C,
    began: AtomicU64,
    before: AtomicU64,
    over: AtomicU64,
    over_at: AtomicU64,
    is_beside: AtomicBool,
    is_late: AtomicBool,
}

/// A gate that has seen no computation begin.
fn gate_of<C>(clock: &C) -> Long<'_, C> {
    Long {
        clock,
        began: none(),
        before: none(),
        over: none(),
        over_at: none(),
        is_beside: unset(),
        is_late: unset(),
    }
}

impl<C: Clock + CpuClock> Long<'_, C> {
    /// Whether the long search begins within ten seconds.
    fn begins(&self) -> bool {
        comes(self.clock, &self.began, 1)
    }

    /// Whether all short searches are over within ten seconds.
    fn are_over(&self) -> bool {
        comes(self.clock, &self.over, SHORT)
    }

    /// Counts one more short search that is over.
    fn count(&self) {
        if add(&self.over) == SHORT - 1 {
            keep(&self.over_at, nanos(self.clock.process_cpu_time()));
        }
    }

    /// Whether the short searches were over before three quarters of the long one were done.
    fn are_beside(&self) -> bool {
        let after = nanos(self.clock.thread_cpu_time());
        let long = after.saturating_sub(value(&self.before));
        let now = nanos(self.clock.process_cpu_time());
        let over_at = value(&self.over_at);
        over_at > 0 && now.saturating_sub(over_at) > long / 4
    }
}

/// A time in nanoseconds, or 0 where it can't be had.
fn nanos(time: io::Result<Duration>) -> u64 {
    match time {
        Ok(time) => u64::try_from(time.as_nanos()).unwrap_or(0),
        Err(_) => 0,
    }
}

impl<C: Clock + CpuClock> Gate for Long<'_, C> {
    /// Does nothing before a task.
    fn before(&self, _worker: Worker, _task: &Task) {}

    /// Notes when the long computation, the first, begins, and what processor time its worker had used.
    fn inside(&self, _worker: Worker, number: u64) {
        if number == 1 {
            keep(&self.before, nanos(self.clock.thread_cpu_time()));
            keep(&self.began, 1);
        }
    }

    /// Counts short computations that end. At the end of the long one it notes whether they were over well before, and
    /// waits for them up to ten seconds.
    fn after(&self, _worker: Worker, number: u64) {
        if number > 1 {
            self.count();
            return;
        }
        self.is_beside.store(self.are_beside(), Ordering::SeqCst);
        if !self.are_over() {
            set(&self.is_late);
        }
    }
}

/// A position whose first leaf at grain 6 is a long search: some 3.1 million positions, a quarter of a
/// second of a processor. So the short ones are asked in time on a busy machine too.
fn wide() -> Position {
    black(Board {
        own: 0x9860_044a_8024_5600,
        opp: 0x209e_0020_5e4a_0804,
    })
}

/// A job whose first leaf is a long search, and short ones once it has begun. The first is left before it ends.
#[derive(Drop)]
struct Beside<'g, 'c, C> {
    gate: &'g Long<'c, C>,
}

impl<C: Clock + CpuClock> Scenario for Beside<'_, '_, C> {
    /// A long job is begun, and short ones asked after it are over before it.
    fn play<L: DeskLedger, R: Wait>(&self, at: &At<'_, L, R>) -> Option<bool> {
        let mut long = at.seat(64, 512)?;
        let mut short = at.seat(64, 64)?;
        let began = at.ask(&mut long, &wide(), 7) == Ok(1) && self.gate.begins();
        let asked = at.asks_many(&mut short, SHORT);
        let are_over = self.gate.are_over() && at.ends(&short, SHORT, 0);
        at.leave(long);
        at.leave(short);
        Some(began && asked && are_over)
    }
}

/// One try of a long search beside short ones: whether all was as it should be, and whether the short ones were over
/// before the long one.
fn tried<R: Threads + Wait + Clock + CpuClock + Sync>(rt: &R, alloc: Global) -> (bool, bool) {
    let gate = gate_of(rt);
    let scenario = Beside { gate: &gate };
    let is_well = play(rt, alloc, &Table::of(&scenario, &gate, 2, 6, 128)).is_some();
    (is_well && !is_set(&gate.is_late), is_set(&gate.is_beside))
}

/// A worker does short searches while another is in the midst of a long one: in one try at least, as the system may let
/// the long one end before the short ones are asked.
#[test]
fn a_short_search_is_over_before_a_long_one(rt: HostRuntime) {
    for _ in 0..TRIES {
        let (is_well, is_beside) = tried(&rt, rt.alloc());
        holds_that(&rt, is_well, "no search waits");
        if is_beside {
            return;
        }
    }
    panic!(rt; "one search holds up another")
}
