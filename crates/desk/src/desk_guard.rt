//! The desk, held by a pool's worker for several steps.
//!
//! A step under the lock takes less time than what it touches takes to come from another processor. So a worker
//! keeps the lock over the steps that follow each other, and those who wait are woken once it lets go.
ghost use Rattle.std.specs.Prelude.{◌≡◌, ◌≢◌, true, Err, IfSome};
ghost use Rattle.sched_rules.specs.declared.refusal.Refusal.TheVariants.{OutOfMemory};
ghost use Rattle.hall.specs.Journals.{is_worker_step};
ghost use Rattle.desk.specs.Counts.{share_after};

use crate::bells::bell_of;
use crate::lock::{DeskLock, Kept};
use crate::under_lock::UnderLock;
use crate::worker_badge::WorkerBadge;
use hall::desk_rules::Change;
use hall::{DidOf, Jamboree, Step, StepAnswer};
use jamboree_rules::pool_rules::Task;
use std::marker::Model;
use std::sync::{MutexGuard, Wait};

/// The desk, locked by one worker for several steps. It can't be dropped: [`DeskGuard::release`] unlocks it, and wakes
/// who waits for what the steps changed.
pub struct DeskGuard<'d, T> {
    kept: MutexGuard<'d, Kept<T>>,
    lock: &'d DeskLock<T>,
    /// How many frames became ready while some worker slept.
    wakes: u32,
    /// The bells of those whose jobs the steps ended, a bit each.
    rung: u64,
}

// Clauses see what the lock is for.
impl<'d, T> Model for DeskGuard<'d, T> {
    ghost use Rattle.std.specs.Sync.Mutex.{mutex_guard_value};

    ghost Value = { T };

    ghost view = { λ g. (mutex_guard_value g.kept).value };
}

impl<'d, T: UnderLock> DeskGuard<'d, T> {
    /// The lock has been taken, and no step yet.
    pub(crate) fn new(lock: &'d DeskLock<T>, kept: MutexGuard<'d, Kept<T>>) -> DeskGuard<'d, T> {
        DeskGuard {
            kept,
            lock,
            wakes: 0,
            rung: 0,
        }
    }

    /// Offers a worker's step to the hall, and returns what it did or why it is refused, which is never `OutOfMemory`.
    /// The badge's share is raised by 1 exactly where the step was taken. Where the step gives the worker a leaf, the
    /// badge's waits follow its depth from then on. Nobody is woken before `release`. With a badge whose share is
    /// 2^64 - 1 or more the call never returns.
    pub fn offer<R: Wait>(
        &mut self,
        rt: &R,
        badge: &mut T::Badge,
        step: &Step<Jamboree>,
    ) -> StepAnswer
        requires { is_worker_step step.now ≡ true }
        ensures step { T.is_offered self.old step.now result self.new }
        ensures share { T.Badge.share badge.new ≡ share_after (T.Badge.share badge.old) result }
        ensures memory { result ≢ Err OutOfMemory }
    {
        if badge.share() >= u64::MAX as u128 {
            // A badge can't count beyond 2^64 - 1 steps, which no worker reaches: it would stop here.
            for _ in rt.forever() {}
            unreachable!()
        }
        let answer = self.kept.value.offer(badge, step);
        if let Ok(DidOf::Computing(leaf)) = &answer {
            let mut backoff = badge.backoff();
            backoff.before_leaf(leaf.depth);
            badge.wait_by(backoff);
        }
        match Change::of(&answer) {
            Change::InReady if self.kept.has_sleepers() => {
                self.wakes = self.wakes.saturating_add(1);
            }
            Change::InReady | Change::Nothing => {}
            Change::Job => self.rung |= bell_of(step.tenant()),
        }
        answer
    }

    /// The task that comes next, by who was served least or has waited longest; `None` where nobody who shares has a ready frame. The frame
    /// isn't taken.
    pub fn pick(&mut self) -> Option<Task>
        ensures { IfSome result (T.is_fair self.new) }
    {
        self.kept.value.pick()
    }

    /// Notes that this tenant was served so much more of the workers' work.
    pub fn charge(&mut self, tenant: u64, amount: u64) {
        self.kept.value.charge(tenant, amount);
    }

    /// Unlocks the desk, and then wakes a worker for each frame that became ready while one slept, and each seat whose job ended.
    pub fn release(self) {
        let DeskGuard {
            kept,
            lock,
            wakes,
            rung,
        } = self;
        drop(kept);
        for _ in 0..wakes {
            lock.wake_worker();
        }
        lock.ring_places(rung);
    }
}
