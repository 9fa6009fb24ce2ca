//! The lock of a desk, and where its seats and workers wait.
//!
//! Nobody sleeps on the lock: a thread that does is handed it, and until that thread is awake nobody else can take it. Who finds it taken
//! tries again after a while ([`DeskLock::enter`]). Who waits for a job or for a frame reads under the lock how often its bell was rung, lets
//! go of the lock, and sleeps until the bell is rung again. What it waits for comes under the lock, and the bell is rung behind it: so none
//! is missed.
ghost use Rattle.std.specs.Prelude.{◌≡◌, ◌+◌, ◌%◌, ◌^◌, ◌==◌, ◌&&◌, ◌||◌, not, true, false, None};

use crate::bells::{Bells, SLEEP_SECS};
use crate::desk_guard::DeskGuard;
use crate::under_lock::UnderLock;
use crate::worker_badge::WorkerBadge;
use hall::desk_rules::Backoff;
use jamboree_rules::pool_rules::Task;
use std::hint::spin_loop;
use std::sync::atomic::AtomicU64;
use std::sync::{Condvar, Mutex, MutexGuard, Wait};
use std::thread::yield_now;
use std::time::Duration;

/// What lies under a lock, and what those look at who wait there.
#[derive(Drop)]
pub struct Kept<T> {
    /// What the lock is for.
    pub value: T,
    /// Whether the desk is closed, so that nobody waits any more.
    closed: bool,
    /// How many workers sleep until a frame is ready.
    sleepers: u32,
}

impl<T: UnderLock> Kept<T> {
    /// Whether a worker that waits may go on: the desk is closed, or some frame is ready.
    fn has_news(&self) -> bool
        ensures { result ≡ (self.now.closed || T.has_ready self.now.value) }
    {
        self.closed || self.value.has_ready()
    }

    /// Whether a seat goes on waiting for this job: it is there and hasn't ended, and the desk isn't closed.
    fn keeps_waiting(&self, tenant: u64, job: u64) -> bool
        ensures { result ≡ (not self.now.closed && T.waits_on self.now.value tenant job) }
    {
        !self.closed && self.value.waits_on(tenant, job)
    }

    /// The task that a worker is given after it has waited; `None` where the desk is closed.
    fn next_task(&mut self) -> Option<Task>
        ensures closed { self.old.closed ≡ true → (result ≡ None) × (self.new ≡ self.old) }
        ensures next { self.old.closed ≡ false → T.is_next self.old.value result self.new.value }
    {
        if self.closed {
            None
        } else {
            self.value.next_task()
        }
    }

    /// Counts one worker more that sleeps until a frame is ready, modulo 2^32.
    fn begin_sleep(&mut self)
        ensures { self.new ≡ record self.old { sleepers = (self.old.sleepers + 1) % 2 ^ 32 } }
    {
        self.sleepers = self.sleepers.wrapping_add(1);
    }

    /// Counts one worker fewer that sleeps, modulo 2^32.
    fn end_sleep(&mut self)
        ensures { self.new ≡ record self.old { sleepers = (self.old.sleepers + 4294967295) % 2 ^ 32 } }
    {
        self.sleepers = self.sleepers.wrapping_sub(1);
    }

    /// Whether some worker sleeps until a frame is ready.
    pub(crate) fn has_sleepers(&self) -> bool
        ensures { result ≡ not (self.now.sleepers == 0) }
    {
        self.sleepers > 0
    }
}

/// A lock, and the conditions that workers and seats wait for.
#[derive(Drop)]
pub struct DeskLock<T> {
    lock: Mutex<Kept<T>>,
    /// Where workers wait until a frame is ready or the desk is closed.
    ready: Condvar,
    /// Where seats wait until their job has ended or the desk is closed.
    bells: Bells,
}

impl<T: UnderLock> DeskLock<T> {
    /// A desk's lock with this under it.
    pub fn new(value: T) -> DeskLock<T> {
        DeskLock {
            lock: Mutex::new(Kept {
                value,
                closed: false,
                sleepers: 0,
            }),
            ready: Condvar::new(),
            bells: Bells::new(),
        }
    }

    /// Takes the lock: tries once, and then goes on as `enter_late` does.
    pub fn enter<R: Wait>(&self, rt: &R) -> MutexGuard<'_, Kept<T>> {
        match self.lock.try_lock() {
            Some(kept) => kept,
            None => self.enter_late(rt, Backoff::new()),
        }
    }

    /// Takes the lock after a first try found it taken: tries again until it is free. Before each try it waits as long as `backoff` says,
    /// and after a failed one it lets other threads have the processor.
    fn enter_late<R: Wait>(&self, rt: &R, backoff: Backoff) -> MutexGuard<'_, Kept<T>> {
        for _ in rt.forever() {
            pause(rt, backoff);
            if let Some(kept) = self.lock.try_lock() {
                return kept;
            }
            yield_now();
        }
        unreachable!()
    }

    /// Takes the lock for several steps of the worker with this badge: until [`DeskGuard::release`] all other threads wait. If the lock is
    /// free at the first try, the badge's backoff gets a little shorter; else it is doubled, up to what the last leaf's depth makes worth
    /// it, and the worker waits that long before each further try.
    pub fn hold<R: Wait>(&self, rt: &R, badge: &mut T::Badge) -> DeskGuard<'_, T>
        ensures share { T.Badge.share badge.new ≡ T.Badge.share badge.old }
    {
        let mut backoff = badge.backoff();
        let kept = match self.lock.try_lock() {
            Some(kept) => {
                backoff.ease();
                kept
            }
            None => {
                backoff.double();
                self.enter_late(rt, backoff)
            }
        };
        badge.wait_by(backoff);
        DeskGuard::new(self, kept)
    }

    /// Waits, where the lock was taken, until a tenant's job has ended or the desk is closed, or what else its seat waits for has come. It
    /// has the lock again then. Where the hall has no such job it goes on at once.
    pub fn await_job<'d, R: Wait>(
        &'d self,
        rt: &R,
        kept: MutexGuard<'d, Kept<T>>,
        tenant: u64,
        job: u64,
    ) -> MutexGuard<'d, Kept<T>> {
        let mut kept = kept;
        for _ in rt.forever() {
            if !kept.keeps_waiting(tenant, job) {
                break;
            }
            let rung = self.bells.rung(tenant);
            drop(kept);
            self.bells.sleep(rt, tenant, rung);
            kept = self.enter(rt);
        }
        kept
    }

    /// Waits until a frame is ready or the desk is closed, and returns the task that comes next; `None` only where the desk is closed. The
    /// frame isn't taken: by the time that this worker offers to take it, another may have it.
    pub fn next_task<R: Wait>(&self, rt: &R) -> Option<Task> {
        let mut kept = match self.lock.try_lock() {
            Some(kept) => kept,
            None => self.enter_late(rt, Backoff::idle()),
        };
        for _ in rt.forever() {
            if kept.has_news() {
                break;
            }
            kept.begin_sleep();
            let rung = self.ready.notifications();
            drop(kept);
            self.ready.sleep(rt, rung, Duration::from_secs(SLEEP_SECS));
            kept = self.enter_late(rt, Backoff::idle());
            kept.end_sleep();
        }
        kept.next_task()
    }

    /// Wakes a worker that waits for a frame.
    pub fn wake_worker(&self) {
        self.ready.notify_one();
    }

    /// Wakes who waits for a job of this tenant.
    pub fn ring(&self, tenant: u64) {
        self.bells.ring(tenant);
    }

    /// Wakes those who wait for jobs of tenants at these bells, a bit each.
    pub(crate) fn ring_places(&self, places: u64) {
        self.bells.ring_places(places);
    }

    /// Wakes all seats that wait for a job.
    pub fn ring_all(&self) {
        self.bells.ring_all();
    }

    /// Closes the desk for good, and wakes all who wait. From then on nobody waits.
    pub fn close<R: Wait>(&self, rt: &R) {
        self.enter(rt).closed = true;
        self.ready.notify_all();
        self.bells.ring_all();
    }

    /// Takes out what lies under the lock.
    pub fn into_value(self) -> T {
        let DeskLock {
            lock,
            ready: _ready,
            bells: _bells,
        } = self;
        let Kept {
            value,
            closed: _,
            sleepers: _,
        } = lock.into_inner();
        value
    }
}

/// Waits as long as this backoff says: spins, or naps on a word of its own, which nobody else sees.
fn pause<R: Wait>(rt: &R, backoff: Backoff) {
    if backoff.is_nap() {
        let word = AtomicU64::new(0);
        word.park_timeout(rt, 0, Duration::from_micros(backoff.micros()));
    } else {
        for _ in 0..backoff.pauses() {
            spin_loop();
        }
    }
}
