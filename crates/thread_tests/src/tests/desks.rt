//! Tests of a desk in one thread and in several. Each test tries something at a desk of its own.
ghost use Rattle.std.specs.Prelude.{◌≡◌};

mod four;
mod holds;
mod late;
mod waiting;
mod wakes;

use super::calls::{At, Found, Turn, end, hall_of, left_of, opening};
use super::{holds, holds_of};
use desk::{
    Badge, Desk, DeskLedger, DidOf, Hall, Jamboree, Leaf, LeafAnswer, Opened, PARTS, Refusal, Seat,
    Step, Worker,
};
use frame_table::FrameId;
use std::alloc::Global;
use std::marker::Brand;
use std::process::Abort;
use std::sync::Wait;
use std::sync::ledger::Blank;
use std::thread::Threads;
use std::time::{Clock, CpuClock};
use waiting::{What, Who};

/// What is tried at a new desk.
#[derive(Clone, Copy)]
enum Trial {
    /// One seat, and one badge for its worker: whether the desk is closed before they come.
    One(bool),
    /// Four seats in four threads, each with a badge of its own.
    Four,
    /// An answer that comes once its seat has left, or has cancelled the job, and the number that refuses it.
    Late(bool, u8),
    /// So many wait at once, and this comes to them.
    Crowd(Who, u64, What),
}

/// Tries this trial at a new desk over this hall.
fn try_at<L, R>(rt: &R, hall: Hall, blank: Blank, opened: Opened<Step<Jamboree>>, trial: Trial)
where
    L: DeskLedger + Send + Sync,
    R: Wait + Abort + Threads + Clock + CpuClock + Sync,
    requires name { blank.name ≡ L.name }
    requires parts { (blank.parts ≡ L.parts) × (L.all ≡ L.parts) × (L.all ≡ PARTS) }
    requires history { opened ≡ L.table }
    requires begun { hall ≡ L.begun }
{
    is_tried(rt, Desk::<L>::new(hall, blank, opened), trial);
}

/// Does this trial at a new desk, over a hall in which one worker searches each job by itself.
fn try_out<R>(rt: &R, alloc: Global, trial: Trial)
where
    R: Wait + Abort + Threads + Clock + CpuClock + Sync,
{
    let hall = hall_of(alloc, 32, 512, 6).expect(rt, "there is memory");
    let opened = Opened::new(alloc).expect(rt, "there is memory");
    try_at::<Brand, R>(rt, hall, Blank::new(PARTS), opened, trial);
}

/// Does this trial at a desk, and fails the test where the desk doesn't do as it should.
fn is_tried<L, R>(rt: &R, desk: Desk<L>, trial: Trial)
where
    L: DeskLedger + Send + Sync,
    R: Wait + Abort + Threads + Clock + CpuClock + Sync,
    requires { L.all ≡ L.parts }
{
    match trial {
        Trial::One(is_closed) => one_stays(rt, desk, is_closed),
        Trial::Four => four::four_stay(rt, desk),
        Trial::Late(leaves, number) => late::comes_late(rt, desk, leaves, number),
        Trial::Crowd(who, many, what) => waiting::come_back_there(rt, &desk, who, many, what),
    }
}

/// The worker of this number, 1 to 32.
fn worker_of(rt: &impl Abort, number: u8) -> Worker {
    Worker::new(number).expect(rt, "a worker's number")
}

/// The root of a tenant's job of this serial.
fn root_of(tenant: u64, serial: u64) -> FrameId {
    FrameId { tenant, serial }
}

/// What a seat says or sees, and what it is answered.
#[derive(Clone, Copy)]
enum Said {
    /// It asks for the opening to this depth.
    Ask(u8, Result<u64, Refusal>),
    /// It cancels a job.
    Cancel(u64, Result<(), Refusal>),
    /// It gets a job.
    Get(u64, Found),
    /// It waits for a job.
    Wait(u64, Found),
    /// Its tenant has so many segments, nodes and steps left.
    Left(u32, u32, u32),
    /// Its tenant has so many frames, and so many words.
    Live(usize, usize),
    /// Its share is this, and it has asked so often.
    Share(u128, usize),
    /// The desk has taken so many steps.
    Count(u128),
    /// No frame is ready, at a closed desk.
    NoneReady,
}

impl<L: DeskLedger, R: Wait> At<'_, L, R> {
    /// What a worker is to compute for the job under this root, after the two steps that begin it.
    fn begin(&self, badge: &mut Badge<L>, worker: Worker, root: FrameId) -> Option<Leaf> {
        let _took = self.offer(badge, worker, root, Turn::Steal(0)).ok()?;
        match self.offer(badge, worker, root, Turn::Advance) {
            Ok(DidOf::Computing(leaf)) => Some(leaf),
            _ => None,
        }
    }

    /// Which job is done by the five steps of a worker that compute and finish the job under this root.
    fn compute(&self, badge: &mut Badge<L>, worker: Worker, root: FrameId) -> Option<u64> {
        let leaf = self.begin(badge, worker, root)?;
        for turn in [Turn::Answer(LeafAnswer::compute(leaf)), Turn::Advance] {
            let _did = self.offer(badge, worker, root, turn).ok()?;
        }
        match self.offer(badge, worker, root, Turn::Finish) {
            Ok(DidOf::Finished(job)) => Some(job),
            _ => None,
        }
    }

    /// Whether the desk answers this call of a seat as stated there.
    fn is_answered(&self, seat: &mut Seat<L>, said: Said) -> bool {
        match said {
            Said::Ask(depth, answer) => self.ask(seat, &opening(), depth) == answer,
            Said::Cancel(job, answer) => self.cancel(seat, job) == answer,
            Said::Get(job, found) => self.get(seat, job) == found,
            Said::Wait(job, found) => self.wait(seat, job) == found,
            Said::Left(segments, nodes, steps) => {
                self.quota(seat) == Some(left_of(segments, nodes, steps))
            }
            Said::Live(frames, words) => self.live(seat) == Some((frames, words)),
            Said::Share(share, asked) => seat.share() == share && seat.asked().len() == asked,
            Said::Count(count) => self.desk.count(self.rt) == count,
            Said::NoneReady => self.is_bare(),
        }
    }
}

impl<L: DeskLedger, R: Wait + Abort> At<'_, L, R> {
    /// A seat of a new tenant that reserves so much.
    fn seat_of(&self, segments: u32, nodes: u32) -> Seat<L> {
        self.admit(segments, nodes).expect(self.rt, "there is room")
    }

    /// A new worker's badge of the desk.
    fn badge_of(&self) -> Badge<L> {
        self.badge().expect(self.rt, "there are badges")
    }

    /// A seat makes these calls in turn; the test fails at the first that is answered otherwise than stated there.
    fn talks(&self, seat: &mut Seat<L>, turns: &[Said]) {
        let mut number = 0u64;
        for said in turns {
            number = number.saturating_add(1);
            holds_of(self.rt, self.is_answered(seat, *said), "turn", number);
        }
    }

    /// The worker of this number does the first job, the opening at depth 0, and the seat that waited for it has its reply.
    fn do_first(&self, seat: &Seat<L>, badge: &mut Badge<L>, number: u8) {
        let root = root_of(seat.tenant(), 1);
        let done = self.compute(badge, worker_of(self.rt, number), root);
        holds(self.rt, done == Some(1) && badge.share() == 5);
        holds(self.rt, self.wait(seat, 1) == Found::Done(0, None));
    }

    /// All that a seat does, until it leaves, at a desk that is closed before or isn't: its first job is done, where who
    /// waits for it at a closed desk finds it pending before, and its second is cancelled.
    fn stay(&self, is_closed: bool) -> Badge<L>
        requires { L.all ≡ L.parts }
    {
        if is_closed {
            self.desk.close(self.rt);
        }
        let (mut seat, mut badge) = (self.seat_of(4, 8), self.badge_of());
        self.talks(&mut seat, &[Said::Ask(0, Ok(1))]);
        if is_closed {
            self.talks(&mut seat, &[Said::NoneReady, Said::Wait(1, Found::Pending)]);
        }
        self.do_first(&seat, &mut badge, 1);
        self.talks(&mut seat, &FIRST_IS_DONE);
        self.talks(&mut seat, &[Said::Count(7)]);
        self.talks(&mut seat, &SECOND_IS_CANCELLED);
        self.talks(&mut seat, &[Said::Count(9)]);
        self.leave(seat);
        badge
    }
}

/// The seat's first job, which is done.
const FIRST_IS_DONE: [Said; 3] = [
    Said::Left(4, 7, 123),
    Said::Share(2, 1),
    Said::Cancel(1, Err(Refusal::NoJob)),
];

/// The seat's second job, which is cancelled.
const SECOND_IS_CANCELLED: [Said; 6] = [
    Said::Ask(0, Ok(2)),
    Said::Live(1, 12),
    Said::Cancel(2, Ok(())),
    Said::Get(2, Found::Cancelled),
    Said::Left(4, 6, 123),
    Said::Share(4, 2),
];

/// One seat, and one badge for its worker. At the end the hall has taken ten steps, keeps five, and let ten go with
/// journals; and all shares are there.
fn one_stays<L: DeskLedger, R: Wait + Abort>(rt: &R, desk: Desk<L>, is_closed: bool)
    requires { L.all ≡ L.parts }
{
    let badge = At { rt, desk: &desk }.stay(is_closed);
    holds(rt, desk.count(rt) == 10);
    let ended = end(desk, badge);
    holds(rt, (ended.count, ended.kept, ended.gone) == (10, 5, 10));
    holds(rt, ended.is_whole);
}

/// One seat and one badge at a desk that isn't closed, in one thread, from the admission to the Leave.
#[test]
fn a_seat_and_a_badge(rt: HostRuntime) {
    try_out(&rt, rt.alloc(), Trial::One(false));
}

/// A desk that is closed takes asks, and all else that doesn't wait.
#[test]
fn a_closed_desk_goes_on(rt: HostRuntime) {
    try_out(&rt, rt.alloc(), Trial::One(true));
}

/// So many threads wait at a desk at once, and then this event comes to them.
fn crowd<R>(rt: &R, alloc: Global, who: Who, many: u64, what: What)
where
    R: Wait + Abort + Threads + Clock + CpuClock + Sync,
{
    try_out(rt, alloc, Trial::Crowd(who, many, what));
}
