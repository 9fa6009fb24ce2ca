//! Tests of a pool of workers with nothing to do.
ghost use Rattle.std.specs.Prelude.{◌≡◌};

use super::{Scenario, Table, play};
use crate::tests::calls::At;
use crate::tests::holds;
use crate::tests::signs::{is_silent, pass};
use desk::DeskLedger;
use std::sync::Wait;
use std::time::{Clock, CpuClock};
use steal_pool::OpenGate;

/// Nothing is asked for a tenth of a second and a second more, and one job then.
#[derive(Drop)]
struct Silence<'c, C> {
    clock: &'c C,
}

impl<C: Clock + CpuClock> Scenario for Silence<'_, C> {
    /// After 100 milliseconds without a job the pool takes less than 50 milliseconds of processor time in a second;
    /// then a job is done all the same.
    fn play<L: DeskLedger, R: Wait>(&self, at: &At<'_, L, R>) -> Option<bool> {
        let mut seat = at.seat(8, 8)?;
        pass(self.clock, 100);
        let is_silent = is_silent(self.clock);
        let is_replied = at.has_reply(&mut seat, 1);
        at.leave(seat);
        Some(is_silent && is_replied)
    }
}

/// Four workers with nothing to do use less than a twentieth of a second's processor time in a second, and then do what is
/// asked.
#[test]
fn an_idle_pool_sleeps(rt: HostRuntime) {
    let scenario = Silence { clock: &rt };
    let table = Table::of(&scenario, &OpenGate, 4, 0, 8);
    holds(&rt, play(&rt, rt.alloc(), &table).is_some());
}
