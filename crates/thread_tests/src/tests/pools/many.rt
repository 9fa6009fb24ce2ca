//! Tests of a pool with many short jobs: none of many workers is lost, and each has room on its stack.
ghost use Rattle.std.specs.Prelude.{◌≡◌};

use super::{Scenario, Table, play};
use crate::tests::calls::At;
use crate::tests::signs::{add, is_set, none, reaches, set, unset};
use crate::tests::{holds, holds_that};
use desk::DeskLedger;
use sched_rules::Worker;
use std::alloc::Global;
use std::sync::Wait;
use std::sync::atomic::{AtomicBool, AtomicU64, Ordering};
use steal_pool::{Gate, Task};

/// How many workers there are.
const WORKERS: u8 = 12;

/// How many jobs each of the seats asks for.
const JOBS: u64 = 256;

/// The words that a computation writes on its worker's stack: half a megabyte.
const WORDS: usize = 65_536;

/// Once it is said that all are to come, each computation stays until as many as there are workers have begun, within a limit.
#[derive(Drop)]
struct AllCome {
    is_said: AtomicBool,
    there: AtomicU64,
    late: AtomicBool,
    sum: AtomicU64,
}

/// Half a megabyte of a stack, written and read.
fn written(number: u64) -> u64 {
    let mut words = [number; WORDS];
    for (place, word) in words.iter_mut().enumerate() {
        *word = word.wrapping_mul(31).wrapping_add(place as u64);
    }
    let place = (number % WORDS as u64) as usize;
    words[place].wrapping_add(words[WORDS - 1 - place])
}

impl Gate for AllCome {
    /// Does nothing before a task.
    fn before(&self, _worker: Worker, _task: &Task) {}

    /// From a signal on: writes and reads half a megabyte of the worker's stack, and waits within a limit until as many
    /// computations as workers have begun.
    fn inside(&self, _worker: Worker, number: u64) {
        if !is_set(&self.is_said) {
            return;
        }
        self.sum.fetch_add(written(number), Ordering::SeqCst);
        add(&self.there);
        if !reaches(&self.there, u64::from(WORKERS)) {
            set(&self.late);
        }
    }
}

/// A new seat asks for so many short searches, has the reply to the last, and leaves.
fn sits<L: DeskLedger, R: Wait>(at: &At<'_, L, R>, most: u32, many: u64) -> Option<bool>
    requires { L.all ≡ L.parts }
{
    let mut seat = at.seat(most, most)?;
    let is_well = at.asks_many(&mut seat, many) && at.ends(&seat, many, 0);
    at.leave(seat);
    Some(is_well)
}

/// Eight seats one after another, and then a job for each worker.
#[derive(Drop)]
struct Many<'g> {
    gate: &'g AllCome,
}

impl Scenario for Many<'_> {
    /// Eight seats ask many short jobs each; then one asks a job for each worker, and all workers are in a computation
    /// at once.
    fn play<L: DeskLedger, R: Wait>(&self, at: &At<'_, L, R>) -> Option<bool> {
        for _ in 0..8 {
            if !sits(at, 256, JOBS)? {
                return Some(false);
            }
        }
        set(&self.gate.is_said);
        sits(at, 16, u64::from(WORKERS))
    }
}

/// After 2,048 short jobs all of twelve workers still work, at once, each with half a megabyte of its stack.
#[test]
fn all_workers_go_on_after_many_jobs(rt: HostRuntime) {
    let gate = AllCome {
        is_said: unset(),
        there: none(),
        late: unset(),
        sum: none(),
    };
    let scenario = Many { gate: &gate };
    let table = Table::of(&scenario, &gate, WORKERS, 0, 512);
    holds(&rt, play(&rt, rt.alloc(), &table).is_some());
    holds_that(&rt, !is_set(&gate.late), "no worker is lost");
}
