//! Where a pool's workers work: a hall under a lock.
use crate::gate::Gate;
use crate::held::{Round, steps};
use crate::tasks::Tasks;
use desk::{Badge, Desk, DeskLedger, WorkerBadge};
use jamboree_rules::pool_rules::{Holding, Task};
use std::sync::Wait;

/// What workers ask of the place that they work at: a hall under a lock, and, where its users share it by what each was served, who comes
/// next.
pub trait Workplace {
    ghost use Rattle.std.specs.Prelude.{◌≡◌, ◌+◌, ◌≤◌};
    ghost use Rattle.steal_pool.specs.task_deques.Deals.{posts};

    /// What a worker offers its steps with.
    type Badge: WorkerBadge;

    /// A badge for a worker that begins. `None` where none is left.
    fn badge<R: Wait>(&self, rt: &R) -> Option<Self::Badge>;

    /// Closes the workplace for good: from then on nobody waits.
    fn close<R: Wait>(&self, rt: &R);

    /// Locks the hall, lets the worker take its steps there ([`steps`](crate::steps)), unlocks it and wakes those who wait for what
    /// became of it. Returns what the worker holds then.
    fn work<G: Gate, R: Wait>(
        &self,
        rt: &R,
        badge: &mut Self::Badge,
        tasks: &mut Tasks<'_>,
        gate: &G,
        round: Round,
    ) -> Holding
        ensures ends { posts tasks.new.ends ≡ posts tasks.old.ends }
        ensures few { Self.Badge.share badge.new ≤ Self.Badge.share badge.old + 32 };

    /// The task that comes next, by who was served least or has waited longest; `None` where nobody who shares has a ready frame, or nobody
    /// shares.
    fn pick<R: Wait>(&self, rt: &R) -> Option<Task>;

    /// Waits until a frame is ready or the workplace is closed, and returns the task that comes next: a pick where users share, else any
    /// frame that is ready. `None` only where it is closed.
    fn next_task<R: Wait>(&self, rt: &R) -> Option<Task>;
}

// Nobody shares a desk's hall, so there is no pick.
impl<L: DeskLedger> Workplace for Desk<L> {
    type Badge = Badge<L>;

    /// A new worker's badge of the desk; None where none is left.
    fn badge<R: Wait>(&self, rt: &R) -> Option<Badge<L>> {
        self.badge(rt)
    }

    /// Closes the desk for good: who waits there goes on, and nobody waits from then on.
    fn close<R: Wait>(&self, rt: &R) {
        self.close(rt);
    }

    /// Locks the desk, takes the worker's steps there, lets go of the lock, and returns what the worker holds then.
    fn work<G: Gate, R: Wait>(
        &self,
        rt: &R,
        badge: &mut Badge<L>,
        tasks: &mut Tasks<'_>,
        gate: &G,
        round: Round,
    ) -> Holding {
        steps(rt, self.hold(rt, badge), badge, tasks, gate, round)
    }

    /// None: nobody shares the hall of this desk, so it has no picks.
    fn pick<R: Wait>(&self, _rt: &R) -> Option<Task> {
        None
    }

    /// Waits until some tenant has a ready frame, and returns it as a task; None only where the desk is closed.
    fn next_task<R: Wait>(&self, rt: &R) -> Option<Task> {
        let (frame, home) = self.next_ready(rt)?;
        Some(Task { frame, home })
    }
}
