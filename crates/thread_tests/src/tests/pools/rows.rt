//! Tests of a pool with one worker, whose tasks and steps are counted.
ghost use Rattle.std.specs.Prelude.{◌≡◌};

use super::{Scenario, Table, play};
use crate::tests::calls::{At, left_of};
use crate::tests::holds;
use desk::DeskLedger;
use std::sync::Wait;
use steal_pool::OpenGate;

/// The opening is asked to depth 1, and the quota read.
#[derive(Drop)]
struct OneJob;

impl Scenario for OneJob {
    /// One job of the opening to depth 1: of 8 nodes 5 are used, and of 128 steps 36.
    fn play<L: DeskLedger, R: Wait>(&self, at: &At<'_, L, R>) -> Option<bool> {
        let mut seat = at.seat(8, 8)?;
        let is_replied = at.has_reply(&mut seat, 1);
        let quota = at.quota(&seat);
        at.leave(seat);
        Some(is_replied && quota == Some(left_of(8, 3, 92)))
    }
}

/// A pool of one worker does the opening to depth 1 at grain 0, with 8 segments: 36 steps, 8 tasks pushed and taken;
/// none is left.
#[test]
fn one_worker_counted(rt: HostRuntime) {
    let table = Table::of(&OneJob, &OpenGate, 1, 0, 8);
    let played = play(&rt, rt.alloc(), &table).expect(&rt, "it ends well");
    holds(&rt, played.share == 36 && played.pushed == 8);
    holds(&rt, played.taken == 8 && played.left == 0);
}
