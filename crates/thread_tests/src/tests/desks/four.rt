//! For tests of a desk: four threads that each hold a seat, and drive its job by a badge of their own.
ghost use Rattle.std.specs.Prelude.{◌≡◌};

use super::{FIRST_IS_DONE, SECOND_IS_CANCELLED, Said, Trial, try_out};
use crate::tests::calls::{At, end};
use crate::tests::holds;
use crate::tests::signs::{add, none, reaches};
use desk::{Badge, Desk, DeskLedger};
use std::process::Abort;
use std::sync::Wait;
use std::sync::atomic::AtomicU64;
use std::thread;
use std::thread::Threads;

impl<L: DeskLedger, R: Wait + Abort> At<'_, L, R> {
    /// All that a seat does until it leaves: once all four have asked, the worker of this number does its first job, and
    /// it cancels its second.
    fn stay_among(&self, number: u8, asked: &AtomicU64) -> Badge<L>
        requires { L.all ≡ L.parts }
    {
        let (mut seat, mut badge) = (self.seat_of(4, 8), self.badge_of());
        self.talks(&mut seat, &[Said::Ask(0, Ok(1))]);
        let _before = add(asked);
        holds(self.rt, reaches(asked, 4));
        self.do_first(&seat, &mut badge, number);
        self.talks(&mut seat, &FIRST_IS_DONE);
        self.talks(&mut seat, &SECOND_IS_CANCELLED);
        self.leave(seat);
        badge
    }
}

/// Two tenants with their workers at a desk, one in this thread, with this number, and one in another, with the next:
/// their badges, joined.
fn two_stay<L: DeskLedger + Send + Sync, R: Wait + Abort + Threads + Sync>(
    rt: &R,
    desk: &Desk<L>,
    number: u8,
    asked: &AtomicU64,
) -> Badge<L>
    requires { L.all ≡ L.parts }
{
    thread::scope(
        thread::scope_env(),
        rt,
        |scope|
            requires { L.all ≡ L.parts }
        {
            let next = number.saturating_add(1);
            let started = scope.spawn(
                move || -> Badge<L>
                    requires { L.all ≡ L.parts }
                { At { rt, desk }.stay_among(next, asked) },
            );
            let own = At { rt, desk }.stay_among(number, asked);
            let other = started.ok().expect(rt, "there are threads");
            own.join(other.join(rt))
        },
    )
}

/// Two pairs stay at once: the badges of all four, joined.
fn pairs_stay<L: DeskLedger + Send + Sync, R: Wait + Abort + Threads + Sync>(
    rt: &R,
    desk: &Desk<L>,
    asked: &AtomicU64,
) -> Badge<L>
    requires { L.all ≡ L.parts }
{
    thread::scope(
        thread::scope_env(),
        rt,
        |scope|
            requires { L.all ≡ L.parts }
        {
            let started = scope.spawn(
                move || -> Badge<L>
                    requires { L.all ≡ L.parts }
                { two_stay(rt, desk, 3, asked) },
            );
            let own = two_stay(rt, desk, 1, asked);
            let other = started.ok().expect(rt, "there are threads");
            own.join(other.join(rt))
        },
    )
}

/// At the end the hall has taken ten steps of each, keeps five of each, and let all go with journals; the joined badge
/// has the five steps of each worker, and all shares are there.
pub(super) fn four_stay<L, R>(rt: &R, desk: Desk<L>)
where
    L: DeskLedger + Send + Sync,
    R: Wait + Abort + Threads + Sync,
    requires { L.all ≡ L.parts }
{
    let asked = none();
    let badge = pairs_stay(rt, &desk, &asked);
    holds(rt, badge.share() == 20);
    let ended = end(desk, badge);
    holds(rt, (ended.count, ended.kept, ended.gone) == (40, 20, 40));
    holds(rt, ended.is_whole && ended.free == 32);
}

/// Four threads, each with a seat and a badge at one desk: each does the first job of its seat, and cancels the second.
#[test]
fn four_seats_in_four_threads(rt: HostRuntime) {
    try_out(&rt, rt.alloc(), Trial::Four);
}
