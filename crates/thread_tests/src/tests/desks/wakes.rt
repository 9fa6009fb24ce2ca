//! Tests of what comes to those who wait at a desk, and of several threads that wait at once: each is woken for what it
//! waits for, and they sleep until then.
use super::waiting::{Watch, What, Who, are_back, come_back};
use super::{Said, crowd, root_of, worker_of};
use crate::tests::calls::{At, Turn, offer_held};
use crate::tests::signs::{is_silent, others_work, pass, used_by_others};
use crate::tests::{holds, holds_that};
use desk::{Badge, DeskGuard, DeskLedger, DidOf, LockedHall};
use frame_table::FrameId;
use std::process::Abort;
use std::sync::Wait;
use std::time::{Clock, CpuClock};

/// The job that each seat waits for, which is its root's serial too.
fn job_of(who: Who) -> u64 {
    match who {
        Who::Seat(_) => 1,
        _ => 2,
    }
}

impl<L: DeskLedger, R: Wait + Abort> At<'_, L, R> {
    /// A tenant's job is brought to its end by a worker.
    fn finish(&self, tenant: u64, job: u64) {
        let (mut badge, worker) = (self.badge_of(), worker_of(self.rt, 1));
        let done = self.compute(&mut badge, worker, root_of(tenant, job));
        holds(self.rt, done == Some(job));
    }

    /// Advances the first root until it is refused, and spends its job.
    fn spend(&self) {
        let (mut badge, worker) = (self.badge_of(), worker_of(self.rt, 1));
        let root = root_of(1, 1);
        let taken = self.offer(&mut badge, worker, root, Turn::Steal(0));
        holds(self.rt, taken.is_ok());
        for _ in 0..16 {
            if self.offer(&mut badge, worker, root, Turn::Advance).is_err() {
                break;
            }
        }
        let spent = self.offer(&mut badge, worker, root, Turn::Spend);
        holds(self.rt, spent.is_ok());
    }

    /// A new tenant comes and asks once.
    fn ask_once(&self) {
        let mut seat = self.seat_of(1, 1);
        self.talks(&mut seat, &[Said::Ask(0, Ok(1))]);
    }

    /// Two roots open a child each while one holds the desk.
    fn open_children(&self) {
        let mut badge = self.badge_of();
        let mut held = self.desk.hold(self.rt, &mut badge);
        let _one = opens(self.rt, &mut held, &mut badge, 1);
        let _other = opens(self.rt, &mut held, &mut badge, 2);
        held.release();
    }

    /// The root that this worker has taken opens a child, which another worker takes before the desk is let go.
    fn open_in_vain(&self, number: u8) {
        let thief = worker_of(self.rt, number.saturating_add(2));
        let mut badge = self.badge_of();
        let mut held = self.desk.hold(self.rt, &mut badge);
        let child = opens(self.rt, &mut held, &mut badge, number);
        let theft = Turn::Steal(number);
        let taken = offer_held(self.rt, &mut held, &mut badge, thief, child, theft);
        holds(self.rt, taken.is_ok());
        held.release();
    }
}

/// The first root of the tenant of a worker's number, which the worker has taken, opens and has a child, by two steps.
pub(super) fn opens<L: DeskLedger, R: Wait + Abort>(
    rt: &R,
    held: &mut DeskGuard<'_, LockedHall<L>>,
    badge: &mut Badge<L>,
    number: u8,
) -> FrameId {
    let (worker, root) = (worker_of(rt, number), root_of(u64::from(number), 1));
    let opened = offer_held(rt, held, badge, worker, root, Turn::Advance);
    holds(rt, opened.is_ok());
    match offer_held(rt, held, badge, worker, root, Turn::Advance) {
        Ok(DidOf::Spawned(child)) => child,
        _ => panic!(rt; "no child"),
    }
}

impl<L: DeskLedger, R: Wait + Abort + Clock + CpuClock> At<'_, L, R> {
    /// The jobs of the seats are finished one by one, the last first; each seat is back once its own is, and not before.
    fn finish_all(&self, watch: &Watch) {
        for done in 0..watch.many {
            let tenant = watch.many.saturating_sub(done);
            self.finish(tenant, job_of(watch.who));
            come_back(self.rt, watch, done + 1);
            are_back(self.rt, watch, done + 1);
        }
    }

    /// So many seats ask one by one; after each, one waiting worker is back.
    fn ask_all(&self, watch: &Watch, many: u64) {
        for done in 0..many {
            self.ask_once();
            come_back(self.rt, watch, done + 1);
        }
    }

    /// A worker that waits is woken twice for a frame that is gone by then: it waits on, for the next. The next comes only once the worker
    /// has worked, as nobody else does beside this thread: so it has been awake; at the second time also where it fell asleep late.
    fn wake_in_vain(&self, watch: &Watch) {
        for number in [1, 2] {
            let before = used_by_others(self.rt);
            self.open_in_vain(number);
            let is_woken = others_work(self.rt, before);
            holds_that(self.rt, is_woken, "who waits is woken");
            pass(self.rt, 100);
            are_back(self.rt, watch, 0);
        }
        self.ask_all(watch, 1);
    }

    /// What this test lets come to those who wait at the desk; all are back after it.
    pub(super) fn come(&self, watch: &Watch) {
        match watch.what {
            What::Finishes => self.finish_all(watch),
            What::Spend => self.spend(),
            What::Asks(many) => self.ask_all(watch, many),
            What::Children => self.open_children(),
            What::InVain => self.wake_in_vain(watch),
            What::Silence => {
                holds_that(self.rt, is_silent(self.rt), "nobody works while it waits");
                self.desk.close(self.rt);
            }
            What::Closing => self.desk.close(self.rt),
            What::Release => {}
        }
        come_back(self.rt, watch, watch.many);
    }
}

/// Eight seats wait at once, each for its own job: each is back once its own has ended.
#[test]
fn each_of_eight_seats_is_woken(rt: HostRuntime) {
    crowd(&rt, rt.alloc(), Who::Seats, 8, What::Finishes);
}

/// Two workers wait: each of two asks wakes one.
#[test]
fn each_of_two_asks_wakes_a_worker(rt: HostRuntime) {
    crowd(&rt, rt.alloc(), Who::Workers, 2, What::Asks(2));
}

/// Two workers wait: each of two frames that become ready while one holds the desk wakes one.
#[test]
fn each_of_two_children_wakes_a_worker(rt: HostRuntime) {
    crowd(&rt, rt.alloc(), Who::Workers, 2, What::Children);
}

/// One worker that waits, and was woken for a frame which another took, waits on.
#[test]
fn who_is_woken_in_vain_waits_on(rt: HostRuntime) {
    crowd(&rt, rt.alloc(), Who::Workers, 1, What::InVain);
}

/// The closing of a desk wakes two seats that wait there, and two workers.
#[test]
fn a_closing_wakes_all(rt: HostRuntime) {
    crowd(&rt, rt.alloc(), Who::Seats, 2, What::Closing);
    crowd(&rt, rt.alloc(), Who::Workers, 2, What::Closing);
}

/// Four seats, and four workers, that wait at a desk sleep, so they use no processor time.
#[test]
fn who_waits_sleeps(rt: HostRuntime) {
    crowd(&rt, rt.alloc(), Who::Seats, 4, What::Silence);
    crowd(&rt, rt.alloc(), Who::Workers, 4, What::Silence);
}
