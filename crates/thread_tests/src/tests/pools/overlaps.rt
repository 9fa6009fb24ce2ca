//! Tests of a pool's computations at the same time, and of answers that come too late. The test's gate, which workers
//! call, holds a computation up until it is let go on.
ghost use Rattle.std.specs.Prelude.{◌≡◌};

use super::{Scenario, Table, play};
use crate::tests::calls::At;
use crate::tests::holds;
use crate::tests::signs::{becomes_set, is_set, pass, set, unset};
use desk::{DeskLedger, Seat};
use sched_rules::Worker;
use std::alloc::Global;
use std::sync::Wait;
use std::sync::atomic::AtomicBool;
use std::thread::Threads;
use std::time::Clock;
use steal_pool::{Gate, Task};

/// The computation of this number waits within a limit until it is let go on.
#[derive(Drop)]
struct HoldingGate {
    number: u64,
    by_later: bool,
    began: AtomicBool,
    let_go: AtomicBool,
    late: AtomicBool,
}

/// A gate whose computation of this number is let go on by a later one, or else by the scenario.
fn gate_holding(number: u64, by_later: bool) -> HoldingGate {
    HoldingGate {
        number,
        by_later,
        began: unset(),
        let_go: unset(),
        late: unset(),
    }
}

impl Gate for HoldingGate {
    /// Does nothing before a task.
    fn before(&self, _worker: Worker, _task: &Task) {}

    /// Holds the computation of one number until the test, or a later computation, lets it go.
    fn inside(&self, _worker: Worker, number: u64) {
        if number > self.number && self.by_later {
            set(&self.let_go);
        }
        if number == self.number {
            set(&self.began);
            if !becomes_set(&self.let_go) {
                set(&self.late);
            }
        }
    }
}

/// Two jobs of depth 0.
#[derive(Drop)]
struct TwoJobs;

impl Scenario for TwoJobs {
    /// One seat asks two jobs, which both end.
    fn play<L: DeskLedger, R: Wait>(&self, at: &At<'_, L, R>) -> Option<bool> {
        let mut seat = at.seat(8, 8)?;
        let asked = at.asks_many(&mut seat, 2);
        let ended = at.ends(&seat, 1, 0) && at.ends(&seat, 2, 0);
        at.leave(seat);
        Some(asked && ended)
    }
}

/// Whether a scenario is as it should be with so many workers, where this computation goes on only once the next was begun.
fn overlaps<S: Scenario, R: Threads + Wait + Sync>(
    rt: &R,
    alloc: Global,
    scenario: &S,
    number: u64,
    workers: u8,
) -> bool {
    let gate = gate_holding(number, true);
    let is_well = play(rt, alloc, &Table::of(scenario, &gate, workers, 0, 16)).is_some();
    is_well && !is_set(&gate.late)
}

/// Whether the scenario's computations overlap with two workers, and with eight.
fn overlaps_with_two_and_eight<S: Scenario, R: Threads + Wait + Sync>(
    rt: &R,
    alloc: Global,
    scenario: &S,
    number: u64,
) -> bool {
    overlaps(rt, alloc, scenario, number, 2) && overlaps(rt, alloc, scenario, number, 8)
}

/// With 2 and with 8 workers, the first computation of a pool goes on only once the second was begun.
#[test]
fn two_computations_overlap(rt: HostRuntime) {
    holds(
        &rt,
        overlaps_with_two_and_eight(&rt, rt.alloc(), &TwoJobs, 1),
    );
}

/// One job of depth 1, asked once all workers have had time to fall asleep.
#[derive(Drop)]
struct OneJob<'c, C> {
    clock: &'c C,
}

impl<C: Clock> Scenario for OneJob<'_, C> {
    /// Lets 100 milliseconds pass without a job; then a seat asks for one and has its reply.
    fn play<L: DeskLedger, R: Wait>(&self, at: &At<'_, L, R>) -> Option<bool> {
        let mut seat = at.seat(16, 16)?;
        pass(self.clock, 100);
        let is_replied = at.has_reply(&mut seat, 1);
        at.leave(seat);
        Some(is_replied)
    }
}

/// With 2 and with 8 workers: a worker's step that makes a frame ready wakes a worker that sleeps; while the job's
/// second computation waits, another worker begins the third.
#[test]
fn a_ready_frame_wakes_a_worker(rt: HostRuntime) {
    holds(
        &rt,
        overlaps_with_two_and_eight(&rt, rt.alloc(), &OneJob { clock: &rt }, 2),
    );
}

/// A first seat's job is computed when the seat leaves, or cancels it; a second seat's job ends all the
/// same.
#[derive(Drop)]
struct Late<'g> {
    gate: &'g HoldingGate,
    leaves: bool,
}

impl Scenario for Late<'_> {
    /// A seat leaves while its job is computed, and the answer comes too late; another seat's job ends.
    fn play<L: DeskLedger, R: Wait>(&self, at: &At<'_, L, R>) -> Option<bool> {
        let first = at.seat(4, 4)?;
        let second = at.seat(4, 4)?;
        let gone = goes(at, self, first);
        let ended = goes_on(at, self.gate, second);
        Some(gone && ended)
    }
}

/// A seat asks, and leaves once its job is computed; or cancels it first.
fn goes<L: DeskLedger, R: Wait>(at: &At<'_, L, R>, late: &Late<'_>, seat: Seat<L>) -> bool
    requires { L.all ≡ L.parts }
{
    let mut seat = seat;
    let began = at.asks(&mut seat, 1, 0) && becomes_set(&late.gate.began);
    let cancelled = late.leaves || at.cancel(&mut seat, 1).is_ok();
    at.leave(seat);
    began && cancelled
}

/// The computation is let go on, and another seat's job ends.
fn goes_on<L: DeskLedger, R: Wait>(at: &At<'_, L, R>, gate: &HoldingGate, seat: Seat<L>) -> bool
    requires { L.all ≡ L.parts }
{
    let mut seat = seat;
    let asked = at.asks(&mut seat, 1, 0);
    set(&gate.let_go);
    let ended = at.ends(&seat, 1, 0);
    at.leave(seat);
    asked && ended
}

/// The share of the joined badge where the first seat leaves, or cancels its job.
fn share_of<R: Threads + Wait + Sync>(rt: &R, alloc: Global, leaves: bool) -> Option<u128> {
    let gate = gate_holding(1, false);
    let late = Late {
        gate: &gate,
        leaves,
    };
    let played = play(rt, alloc, &Table::of(&late, &gate, 2, 0, 8))?;
    Some(played.share)
}

/// An answer that comes after its tenant has left, or after its job was cancelled, is refused, and the
/// pool goes on: the badge counts the two steps before the answer, and the five of the other job.
#[test]
fn late_answers(rt: HostRuntime) {
    for leaves in [true, false] {
        let share = share_of(&rt, rt.alloc(), leaves);
        holds(&rt, share == Some(2 + 5));
    }
}
