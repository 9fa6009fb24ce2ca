//! Tests of a desk: answers of workers that come too late.
ghost use Rattle.std.specs.Prelude.{◌≡◌};

use super::{Said, Trial, root_of, try_out, worker_of};
use crate::tests::calls::{At, Turn, end};
use crate::tests::holds;
use desk::{Badge, Desk, DeskLedger, LeafAnswer, Seat, StepAnswer};
use std::process::Abort;
use std::sync::Wait;

/// The number that refuses a step; 0 where it was taken.
fn number_of(answer: StepAnswer) -> u8 {
    match answer {
        Ok(_) => 0,
        Err(refusal) => refusal.number(),
    }
}

impl<L: DeskLedger, R: Wait + Abort> At<'_, L, R> {
    /// A seat's only job is given up: the seat leaves, or cancels it and leaves later, and is then given back.
    fn gives_up(&self, seat: Seat<L>, leaves: bool) -> Option<Seat<L>>
        requires { L.all ≡ L.parts }
    {
        let mut seat = seat;
        if leaves {
            self.leave(seat);
            return None;
        }
        self.talks(&mut seat, &[Said::Cancel(1, Ok(()))]);
        Some(seat)
    }

    /// The number that refuses worker 2's answer to a seat's job, which was given up while it was computed.
    fn number_of_late(&self, badge: &mut Badge<L>, leaves: bool) -> u8
        requires { L.all ≡ L.parts }
    {
        let (mut seat, worker) = (self.seat_of(4, 8), worker_of(self.rt, 2));
        self.talks(&mut seat, &[Said::Ask(0, Ok(1))]);
        let root = root_of(seat.tenant(), 1);
        let leaf = self.begin(badge, worker, root).expect(self.rt, "a leaf");
        let stays = self.gives_up(seat, leaves);
        let turn = Turn::Answer(LeafAnswer::compute(leaf));
        let number = number_of(self.offer(badge, worker, root, turn));
        if let Some(seat) = stays {
            self.leave(seat);
        }
        number
    }

    /// The late answer, and then the job of another seat, which the same badge does.
    fn goes_on_after(&self, leaves: bool, number: u8) -> Badge<L>
        requires { L.all ≡ L.parts }
    {
        let mut badge = self.badge_of();
        holds(self.rt, self.number_of_late(&mut badge, leaves) == number);
        holds(self.rt, badge.share() == 2);
        let mut seat = self.seat_of(4, 8);
        self.talks(&mut seat, &[Said::Ask(0, Ok(1))]);
        let root = root_of(seat.tenant(), 1);
        let done = self.compute(&mut badge, worker_of(self.rt, 2), root);
        holds(self.rt, done == Some(1) && badge.share() == 2 + 5);
        self.leave(seat);
        badge
    }
}

/// An answer that comes too late is refused by this number, and all shares are there at the end.
pub(super) fn comes_late<L: DeskLedger, R: Wait + Abort>(
    rt: &R,
    desk: Desk<L>,
    leaves: bool,
    number: u8,
)
    requires { L.all ≡ L.parts }
{
    let badge = At { rt, desk: &desk }.goes_on_after(leaves, number);
    let ended = end(desk, badge);
    holds(rt, ended.is_whole && ended.free == 32);
}

/// A worker's answer is refused by 1 (NoTenant) once its tenant has left, and by 2 (NoFrame) once its job was
/// cancelled. Its worker goes on.
#[test]
fn late_answers_are_refused_by_number(rt: HostRuntime) {
    try_out(&rt, rt.alloc(), Trial::Late(true, 1));
    try_out(&rt, rt.alloc(), Trial::Late(false, 2));
}
