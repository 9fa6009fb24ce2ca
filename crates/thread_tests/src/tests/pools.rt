//! Tests of pools of workers that run. A scenario speaks at the desk of a running pool; [`play`] makes the desk, runs
//! the pool beside the scenario, closes the desk and counts.
ghost use Rattle.std.specs.Prelude.{◌≡◌};

mod announced;
mod faults;
mod games;
mod idle;
mod many;
mod overlaps;
mod rows;
mod searches;
mod seats;

use super::calls::{At, end, hall_of};
use desk::{Badge, Desk, DeskLedger, Hall, Jamboree, Opened, PARTS, Step};
use sched_rules::Worker;
use std::alloc::Global;
use std::marker::Brand;
use std::sync::Wait;
use std::sync::ledger::Blank;
use std::thread;
use std::thread::Threads;
use steal_pool::{Announce, Gate, NotRun, PoolEnd, PoolSizes, run_pool, run_pool_sized};

/// What is said at the desk while a pool runs.
pub(crate) trait Scenario {
    /// Plays at the desk: true where all was as it should be, None where a seat is wanting. It leaves no seat behind.
    fn play<L: DeskLedger, R: Wait>(&self, at: &At<'_, L, R>) -> Option<bool>
        requires { L.all ≡ L.parts };
}

/// What a pool came to where its scenario was content, and all shares and all segments came back: the joined badge's
/// share, and how many tasks were pushed, taken and left.
#[derive(Clone, Copy)]
pub(crate) struct Played {
    pub(crate) share: u128,
    pub(crate) pushed: u128,
    pub(crate) taken: u128,
    pub(crate) left: u128,
}

/// The desk, its pool and its scenario.
#[derive(Drop)]
pub(crate) struct Table<'t, S, G> {
    pub(crate) scenario: &'t S,
    pub(crate) gate: &'t G,
    pub(crate) workers: u8,
    pub(crate) grain: u8,
    pub(crate) segments: u32,
    /// How many tasks there is room for, or else the usual room.
    pub(crate) room: Option<usize>,
}

impl<'t, S, G> Table<'t, S, G> {
    /// A pool of so many workers with the usual room, and a desk of this grain with so many segments, for a scenario.
    pub(crate) fn of(
        scenario: &'t S,
        gate: &'t G,
        workers: u8,
        grain: u8,
        segments: u32,
    ) -> Table<'t, S, G> {
        Table {
            scenario,
            gate,
            workers,
            grain,
            segments,
            room: None,
        }
    }
}

/// Plays a scenario beside a pool; None where the table is outside the limits, no pool ran, the scenario wasn't
/// content, or not all came back.
pub(crate) fn play<S: Scenario, G: Gate + Sync, R: Threads + Wait + Sync>(
    rt: &R,
    alloc: Global,
    table: &Table<'_, S, G>,
) -> Option<Played> {
    let hall = hall_of(alloc, table.segments, 1 << 20, table.grain)?;
    let opened = Opened::new(alloc).ok()?;
    play_on::<Brand, S, G, R>(rt, alloc, hall, Blank::new(PARTS), opened, table)
}

/// Plays a scenario beside a pool, at a new desk over this hall.
fn play_on<L: DeskLedger + Send + Sync, S: Scenario, G: Gate + Sync, R: Threads + Wait + Sync>(
    rt: &R,
    alloc: Global,
    hall: Hall,
    blank: Blank,
    opened: Opened<Step<Jamboree>>,
    table: &Table<'_, S, G>,
) -> Option<Played>
    requires name { blank.name ≡ L.name }
    requires parts { (blank.parts ≡ L.parts) × (L.all ≡ L.parts) × (L.all ≡ PARTS) }
    requires history { opened ≡ L.table }
    requires begun { hall ≡ L.begun }
{
    let desk: Desk<L> = Desk::new(hall, blank, opened);
    let ended = beside(rt, alloc, &desk, table)?;
    came_to(desk, ended, table.segments as usize)
}

/// What a pool's thread gives back of its end.
#[derive(Drop)]
struct Ended<L: DeskLedger> {
    badge: Badge<L>,
    pushed: u128,
    taken: u128,
    left: u128,
}

/// What a pool came to, where all shares and so many segments came back.
fn came_to<L: DeskLedger>(desk: Desk<L>, end_of_pool: Ended<L>, segments: usize) -> Option<Played>
    requires { L.all ≡ L.parts }
{
    let played = Played {
        share: end_of_pool.badge.share(),
        pushed: end_of_pool.pushed,
        taken: end_of_pool.taken,
        left: end_of_pool.left,
    };
    let ended = end(desk, end_of_pool.badge);
    if ended.is_whole && ended.free == segments {
        Some(played)
    } else {
        None
    }
}

/// Counts how often it is said that a pool has begun.
#[derive(Drop)]
struct Counted {
    /// How often it was.
    count: u32,
    /// Whether it can be said.
    works: bool,
}

impl Announce for Counted {
    ghost says = { λ _ _ _. Unit {0} };

    /// Counts the announcements, and says whether the pool may go on.
    fn announce(&mut self) -> bool {
        self.count = self.count.saturating_add(1);
        self.works
    }
}

/// Runs a pool of these sizes; tells how often it was said that it has begun, and how it ended.
fn run_sized<L: DeskLedger + Send + Sync, G: Gate + Sync, R: Threads + Wait + Sync>(
    rt: &R,
    alloc: Global,
    desk: &Desk<L>,
    sizes: PoolSizes,
    gate: &G,
    works: bool,
) -> (u32, Result<PoolEnd<Badge<L>>, NotRun>)
    requires { L.all ≡ L.parts }
{
    let call = Counted { count: 0, works };
    let (call, ended) = run_pool_sized(rt, alloc, desk, sizes, gate, call);
    (call.count, ended)
}

/// Runs the pool, with the usual room or with so much, and gives back what its thread brings.
fn run_there<L: DeskLedger + Send + Sync, G: Gate + Sync, R: Threads + Wait + Sync>(
    rt: &R,
    alloc: Global,
    desk: &Desk<L>,
    workers: u8,
    gate: &G,
    room: Option<usize>,
) -> Option<Ended<L>>
    requires { L.all ≡ L.parts }
{
    let workers = Worker::new(workers)?;
    let ended = match room {
        Some(room) => {
            let mut sizes = PoolSizes::usual(workers);
            sizes.room = room;
            run_sized(rt, alloc, desk, sizes, gate, true).1.ok()
        }
        None => run_pool(rt, alloc, desk, workers, gate).ok(),
    };
    let end = ended?;
    Some(Ended {
        pushed: end.pushed,
        taken: end.taken,
        left: end.left,
        badge: end.badge,
    })
}

/// Runs the pool in a thread, plays, and closes the desk: what the pool ends with, where the scenario was content.
fn beside<L: DeskLedger + Send + Sync, S: Scenario, G: Gate + Sync, R: Threads + Wait + Sync>(
    rt: &R,
    alloc: Global,
    desk: &Desk<L>,
    table: &Table<'_, S, G>,
) -> Option<Ended<L>>
    requires { L.all ≡ L.parts }
{
    let (scenario, gate) = (table.scenario, table.gate);
    let (workers, room) = (table.workers, table.room);
    thread::scope(
        thread::scope_env(),
        rt,
        |scope|
            requires { L.all ≡ L.parts }
        {
            let started = scope.spawn(
                move || -> Option<Ended<L>>
                    requires { L.all ≡ L.parts }
                { run_there(rt, alloc, desk, workers, gate, room) },
            );
            let Ok(pool) = started else { return None };
            let is_content = matches!(scenario.play(&At { rt, desk }), Some(true));
            desk.close(rt);
            match pool.join(rt) {
                Some(ended) if is_content => Some(ended),
                _ => None,
            }
        },
    )
}
