//! Tests of a running pool: jobs of several seats.
ghost use Rattle.std.specs.Prelude.{◌≡◌};

use super::{Scenario, Table, play};
use crate::tests::calls::{At, all_white, corner};
use crate::tests::{holds, holds_of};
use desk::{DeskLedger, Seat};
use std::sync::Wait;
use steal_pool::OpenGate;

/// Two seats ask three positions in turn, and read each reply twice.
#[derive(Drop)]
struct Foreign;

impl Scenario for Foreign {
    /// Two seats ask three positions each, and each is told of its own, twice.
    fn play<L: DeskLedger, R: Wait>(&self, at: &At<'_, L, R>) -> Option<bool> {
        let mut one = at.seat(64, 512)?;
        let mut two = at.seat(64, 512)?;
        let asked = ask_three(at, &mut one) && ask_three(at, &mut two);
        let found = are_three_found(at, &one) && are_three_found(at, &two);
        let again = are_three_found(at, &one) && are_three_found(at, &two);
        at.leave(one);
        at.leave(two);
        Some(asked && found && again)
    }
}

/// Asks the opening to depth 1, the corner to depth 1, and the full board to depth 12.
fn ask_three<L: DeskLedger, R: Wait>(at: &At<'_, L, R>, seat: &mut Seat<L>) -> bool {
    at.asks(seat, 1, 1)
        && at.ask(seat, &corner(), 1) == Ok(2)
        && at.ask(seat, &all_white(), 12) == Ok(3)
}

/// Whether each has the reply to its own position.
fn are_three_found<L: DeskLedger, R: Wait>(at: &At<'_, L, R>, seat: &Seat<L>) -> bool {
    at.ends(seat, 1, 1)
        && at.is_found(seat, 2, &corner(), 1)
        && at.is_found(seat, 3, &all_white(), 12)
}

/// By 1, 2 and 8 workers, at grain 0 with 128 segments: each job is answered for its own position, whichever of two
/// seats asked it.
#[test]
fn replies_are_to_their_positions(rt: HostRuntime) {
    for workers in [1u8, 2, 8] {
        let table = Table::of(&Foreign, &OpenGate, workers, 0, 128);
        let is_well = play(&rt, rt.alloc(), &table).is_some();
        holds_of(&rt, is_well, "workers", u64::from(workers));
    }
}

/// Four seats ask the opening to one depth.
#[derive(Drop)]
struct Four {
    depth: u8,
}

impl Scenario for Four {
    /// Four seats ask the opening to this depth, and each has its own reply.
    fn play<L: DeskLedger, R: Wait>(&self, at: &At<'_, L, R>) -> Option<bool> {
        let depth = self.depth;
        let mut one = at.seat(256, 4_096)?;
        let mut two = at.seat(256, 4_096)?;
        let mut three = at.seat(256, 4_096)?;
        let mut four = at.seat(256, 4_096)?;
        let first = at.asks(&mut one, 1, depth) && at.asks(&mut two, 1, depth);
        let last = at.asks(&mut three, 1, depth) && at.asks(&mut four, 1, depth);
        let found = at.ends(&one, 1, depth) && at.ends(&two, 1, depth);
        let others = at.ends(&three, 1, depth) && at.ends(&four, 1, depth);
        at.leave(one);
        at.leave(two);
        at.leave(three);
        at.leave(four);
        Some(first && last && found && others)
    }
}

/// By 1, 2, 8 and 32 workers, at grain 2: four seats' jobs to depth 4 end with one same reply, the serial search's;
/// what was pushed is what was taken and left, and the joined badge has all steps.
#[test]
fn any_number_of_workers(rt: HostRuntime) {
    for workers in [1u8, 2, 8, 32] {
        let table = Table::of(&Four { depth: 4 }, &OpenGate, workers, 2, 1_024);
        let played = play(&rt, rt.alloc(), &table).expect(&rt, "it ends well");
        let adds_up = Some(played.pushed) == played.taken.checked_add(played.left);
        holds_of(&rt, adds_up, "workers", u64::from(workers));
    }
}

/// In a pool of 2 workers whose deques have room for 0 tasks, so that no push finds room, the frames are found in the
/// hall, and four jobs to depth 3 end.
#[test]
fn no_room_for_tasks(rt: HostRuntime) {
    let mut table = Table::of(&Four { depth: 3 }, &OpenGate, 2, 1, 1_024);
    table.room = Some(0);
    let played = play(&rt, rt.alloc(), &table).expect(&rt, "it ends well");
    holds(&rt, played.pushed == 0);
}

/// No worker is lost: 200 pools of 8 workers each, with four jobs to depth 2 at grain 0, end.
#[test]
fn two_hundred_pools_end(rt: HostRuntime) {
    let table = Table::of(&Four { depth: 2 }, &OpenGate, 8, 0, 1_024);
    for run in 0..200u64 {
        holds_of(&rt, play(&rt, rt.alloc(), &table).is_some(), "run", run);
    }
}
