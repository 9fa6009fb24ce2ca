//! Tests of whom a site's desk wakes: of sixty-four sessions that wait at once each once its own job ends, or as it is
//! told to end; and none for another's job.
use super::holds;
use super::sites::{amount, seat_of, stock_of};
use super::trials::{Trial, try_out};
use frame_table::FrameId;
use hall::{DidOf, LeafAnswer, Outcome, StepOf, Worker};
use othello_board::Board;
use othello_board::position_text::{Position, Side};
use site_book::{Told, Who, Whom};
use site_desk::{LockedSite, SiteBadge, SiteDesk, SiteNaming, SiteSeat, SiteStock};
use std::alloc::Global;
use std::process::Abort;
use std::sync::Wait;
use std::sync::atomic::{AtomicU64, Ordering};
use std::thread;
use std::thread::{Scope, Threads};
use std::time::{Clock, CpuClock, Duration};
use steal_pool::desk::DeskGuard;

/// As many sessions as a hall takes.
const MANY: u64 = 64;

/// The last one's number.
const LAST: u32 = 64;

/// How often each session that doesn't wait has two jobs beside those that do.
const TURNS: u64 = 4;

/// How many microseconds of processors all others may use meanwhile: a session that is woken takes some each time.
const SILENT: u64 = 300;

/// The opening.
pub(super) const OPENING: Position = Position {
    board: Board {
        own: 0x8_1000_0000,
        opp: 0x10_0800_0000,
    },
    side: Side::Black,
};

/// The desk of a hall where sixty-four guests may have one session each.
pub(super) fn stock_for_all(rt: &impl Abort, alloc: Global) -> SiteStock {
    let all = amount(64, 512, 5_120);
    let guests = (amount(1, 8, 80), all, all);
    stock_of(alloc, (64, 512, 5_120), Vec::new(alloc), guests).expect(rt, "a desk")
}

/// How many have come to wait, how many are back, and how many of these were told that their job is done.
#[derive(Drop)]
struct Watch {
    there: AtomicU64,
    back: AtomicU64,
    done: AtomicU64,
}

impl Watch {
    /// The counts of a test's waiting threads (who is there, who is back, who is done), before any has come.
    fn new() -> Watch {
        Watch {
            there: AtomicU64::new(0),
            back: AtomicU64::new(0),
            done: AtomicU64::new(0),
        }
    }
}

/// Counts one thread more, in a count that other threads see.
fn add(count: &AtomicU64) {
    let _before = count.fetch_add(1, Ordering::SeqCst);
}

/// Whether a count is at so many within ten seconds, and not beyond.
fn comes_to<C: Clock>(clock: &C, count: &AtomicU64, many: u64) -> bool {
    for _ in 0..10_000u32 {
        if count.load(Ordering::SeqCst) >= many {
            break;
        }
        thread::sleep(clock, Duration::from_millis(1));
    }
    count.load(Ordering::SeqCst) == many
}

/// What all threads but this one have used of processors, or a little more: this one's time is read first.
fn used_by_others<C: CpuClock>(clock: &C) -> Duration {
    let own = clock.thread_cpu_time().unwrap_or(Duration::ZERO);
    let all = clock.process_cpu_time().unwrap_or(Duration::MAX);
    all.saturating_sub(own)
}

/// Whether all threads but this one have used no more than `SILENT` since then.
fn are_silent<C: CpuClock>(clock: &C, before: Duration) -> bool {
    used_by_others(clock).saturating_sub(before) < Duration::from_micros(SILENT)
}

/// Whether all threads but this one are silent for 50 milliseconds, within ten seconds.
fn come_to_rest<C: Clock + CpuClock>(clock: &C) -> bool {
    for _ in 0..200u32 {
        let before = used_by_others(clock);
        thread::sleep(clock, Duration::from_millis(50));
        if are_silent(clock, before) {
            return true;
        }
    }
    false
}

/// The five steps of a worker that compute and finish the job of a frame, while it holds the desk. Whether they are taken.
fn finish<J: SiteNaming, R: Wait>(
    rt: &R,
    held: &mut DeskGuard<'_, LockedSite<J>>,
    badge: &mut SiteBadge,
    worker: Worker,
    root: FrameId,
) -> bool {
    let taken = held.offer(rt, badge, &StepOf::Steal(worker, 0, root));
    let begun = held.offer(rt, badge, &StepOf::Advance(worker, root));
    let (Ok(_), Ok(DidOf::Computing(leaf))) = (taken, begun) else {
        return false;
    };
    let answer = LeafAnswer::compute(leaf);
    held.offer(rt, badge, &StepOf::Answer(worker, root, answer))
        .is_ok()
        && held
            .offer(rt, badge, &StepOf::Advance(worker, root))
            .is_ok()
        && held.offer(rt, badge, &StepOf::Finish(worker, root)).is_ok()
}

/// The jobs of this serial of the sessions from one number to before another are finished under one lock.
fn finish_all<J: SiteNaming, R: Wait + Abort>(
    rt: &R,
    desk: &SiteDesk<J>,
    from: u64,
    to: u64,
    serial: u64,
) {
    let worker = Worker::new(1).expect(rt, "a worker");
    let badge = &mut desk.badge();
    let mut held = desk.hold(rt, badge);
    let mut all = true;
    for tenant in from..to {
        all = finish(rt, &mut held, badge, worker, FrameId { tenant, serial }) && all;
    }
    held.release();
    holds(rt, all);
}

/// The seat of a guest of this number, which is its session's, that has asked for a job of one frame.
fn asked<J: SiteNaming, R: Wait + Abort>(rt: &R, desk: &SiteDesk<J>, number: u32) -> SiteSeat<J> {
    let mut seat = seat_of(rt, desk, Who::V4(number), 1_000).expect(rt, "there is room");
    holds(rt, seat.number() == u64::from(number));
    holds(rt, desk.ask(rt, &mut seat, &OPENING, 0) == Ok(1));
    seat
}

/// A session waits for its first job, and is counted.
fn waits<J: SiteNaming, R: Wait>(rt: &R, desk: &SiteDesk<J>, seat: SiteSeat<J>, watch: &Watch) {
    let mut seat = seat;
    add(&watch.there);
    if let Ok(Outcome::Done(_)) = desk.wait(rt, &mut seat, 1, 1_000) {
        add(&watch.done);
    }
    add(&watch.back);
}

/// Starts a thread in which a session waits for its first job.
fn start<'s, J: SiteNaming + Send + Sync, E, R: Wait + Abort + Sync>(
    scope: &'s Scope<'s, E>,
    rt: &'s R,
    desk: &'s SiteDesk<J>,
    watch: &'s Watch,
    seat: SiteSeat<J>,
) {
    let started = scope.spawn(move || waits(rt, desk, seat, watch));
    holds(rt, started.is_ok());
}

/// Fails the test unless so many threads have come and sleep, and none is back.
fn all_sleep<R: Abort + Clock + CpuClock>(rt: &R, watch: &Watch, many: u64) {
    holds(rt, comes_to(rt, &watch.there, many));
    holds(rt, come_to_rest(rt));
    holds(rt, comes_to(rt, &watch.back, 0));
}

/// All wait. The last is told to end; then the jobs of the others end, the last of them first, and two under one lock. Each is back by that.
fn end_all<'s, J: SiteNaming + Send + Sync, E, R>(
    scope: &'s Scope<'s, E>,
    rt: &'s R,
    desk: &'s SiteDesk<J>,
    watch: &'s Watch,
)
where
    R: Wait + Abort + Clock + CpuClock + Sync,
{
    for number in 1..LAST + 1 {
        start(scope, rt, desk, watch, asked(rt, desk, number));
    }
    all_sleep(rt, watch, MANY);
    desk.tell(rt, Whom::One(MANY), Told::ByOperator);
    holds(rt, comes_to(rt, &watch.back, 1));
    finish_all(rt, desk, MANY - 1, MANY, 1);
    holds(rt, comes_to(rt, &watch.back, 2));
    for pair in 1..MANY / 2 {
        let from = MANY - 1 - 2 * pair;
        finish_all(rt, desk, from, from + 2, 1);
        holds(rt, comes_to(rt, &watch.back, 2 + 2 * pair));
    }
    holds(rt, comes_to(rt, &watch.done, MANY - 1));
}

/// Whether a session is one of the thirty-two of sixty-four that wait: those whose number has an odd count of 1s among
/// its last six bits. So of two sessions whose numbers differ in just one of these bits one waits.
fn is_waiting(number: u32) -> bool {
    (number % LAST).count_ones() % 2 == 1
}

/// A session that doesn't wait asks for jobs, and they end one by one: in each turn one by a worker, and one by its own
/// cancel.
fn end_own<J: SiteNaming, R: Wait + Abort + Clock>(
    rt: &R,
    desk: &SiteDesk<J>,
    seat: &mut SiteSeat<J>,
) {
    let number = seat.number();
    for turn in 1..TURNS + 1 {
        holds(rt, desk.ask(rt, seat, &OPENING, 0) == Ok(2 * turn));
        finish_all(rt, desk, number, number.saturating_add(1), 2 * turn);
        thread::sleep(rt, Duration::from_millis(1));
        holds(rt, desk.ask(rt, seat, &OPENING, 0) == Ok(2 * turn + 1));
        holds(rt, desk.cancel(rt, seat, 2 * turn + 1) == Ok(()));
        thread::sleep(rt, Duration::from_millis(1));
    }
}

/// Half of the sessions wait, and jobs of the others end: meanwhile those who wait sleep. Then the desk is closed, and
/// all are back.
fn end_others<'s, J: SiteNaming + Send + Sync, E, R>(
    scope: &'s Scope<'s, E>,
    rt: &'s R,
    alloc: Global,
    desk: &'s SiteDesk<J>,
    watch: &'s Watch,
)
where
    R: Wait + Abort + Clock + CpuClock + Sync,
{
    let mut others: Vec<SiteSeat<J>> = Vec::new(alloc);
    for number in 1..LAST + 1 {
        let seat = asked(rt, desk, number);
        if is_waiting(number) {
            start(scope, rt, desk, watch, seat);
        } else {
            holds(rt, others.push(seat).is_ok());
        }
    }
    all_sleep(rt, watch, MANY / 2);
    let before = used_by_others(rt);
    for seat in &mut others {
        end_own(rt, desk, seat);
    }
    holds(rt, are_silent(rt, before));
    holds(rt, comes_to(rt, &watch.back, 0));
    desk.close(rt);
    holds(rt, comes_to(rt, &watch.back, MANY / 2));
    holds(rt, comes_to(rt, &watch.done, 0));
}

/// Sixty-four sessions wait at a site's desk in threads of their own, and each is woken for its own job.
pub(super) fn all_are_woken<J: SiteNaming + Send + Sync, R>(rt: &R, desk: &SiteDesk<J>)
where
    R: Wait + Abort + Threads + Clock + CpuClock + Sync,
{
    let watch = &Watch::new();
    thread::scope(thread::scope_env(), rt, |scope| {
        end_all(scope, rt, desk, watch)
    });
}

/// Of sixty-four sessions that wait at a site's desk each is woken once its own job is done; the last of them is told
/// to end, and is woken by that.
#[test]
fn each_session_is_woken_for_its_own_job(rt: HostRuntime) {
    try_out(&rt, stock_for_all(&rt, rt.alloc()), Trial::AllAreWoken);
}

/// Thirty-two of sixty-four sessions wait in threads of their own.
pub(super) fn others_end<J: SiteNaming + Send + Sync, R>(rt: &R, desk: &SiteDesk<J>)
where
    R: Wait + Abort + Threads + Clock + CpuClock + AllocGlobal + Sync,
{
    let watch = &Watch::new();
    let alloc = rt.alloc();
    thread::scope(thread::scope_env(), rt, |scope| {
        end_others(scope, rt, alloc, desk, watch)
    });
}

/// Thirty-two sessions at a site's desk sleep while they wait, whatever jobs of others end.
#[test]
fn nobody_is_woken_for_anothers_job(rt: HostRuntime) {
    try_out(&rt, stock_for_all(&rt, rt.alloc()), Trial::OthersEnd);
}
