//! What lies under a desk's lock, as the lock and the workers of a pool see it.
use crate::worker_badge::WorkerBadge;
use hall::{Jamboree, Step, StepAnswer};
use jamboree_rules::pool_rules::Task;

/// A hall under a lock, and what lies beside it. The lock's methods are one line each over these, whose contracts say what they did.
pub trait UnderLock {
    ghost use Rattle.std.specs.Prelude.{◌≡◌, ◌≢◌, ◌+◌, ◌<◌, ◌^◌, ℕ, Bool, true, Option, IfSome, Result, Err};
    ghost use Rattle.jamboree_rules.specs.declared.pool_rules.task.Task.{Task};
    ghost use Rattle.sched_rules.specs.declared.refusal.Refusal.{Refusal};
    ghost use Rattle.sched_rules.specs.declared.refusal.Refusal.TheVariants.{OutOfMemory};
    ghost use Rattle.sched_rules.specs.declared.step.DidOf.{DidOf};
    ghost use Rattle.sched_rules.specs.declared.step.StepOf.{StepOf};
    ghost use Rattle.hall.specs.Journals.{is_worker_step};
    ghost use Rattle.hall.specs.jamboree_rules.declared.leaf.Leaf.{Leaf};
    ghost use Rattle.hall.specs.jamboree_rules.declared.leaf.LeafAnswer.{LeafAnswer};
    ghost use Rattle.desk.specs.Counts.{share_after};

    /// What a worker offers its steps with.
    type Badge: WorkerBadge;

    /// What is said of a step that was offered.
    ghost is_offered: { Self → StepOf LeafAnswer → Result (DidOf Leaf) Refusal → Self → Type 0 };

    /// Whether some frame is ready.
    ghost has_ready: { Self → Bool };

    /// Whether a seat that waits for a tenant's job waits on.
    ghost waits_on: { Self → ℕ → ℕ → Bool };

    /// What is said of the task that a worker is given after it has waited.
    ghost is_next: { Self → Option Task → Self → Type 0 };

    /// What is said of a task that was picked.
    ghost is_fair: { Self → Task → Type 0 };

    /// Offers a worker's step to the hall, and returns what it did or why it is refused. The badge's share is raised by 1 exactly where
    /// the step was taken.
    fn offer(&mut self, badge: &mut Self::Badge, step: &Step<Jamboree>) -> StepAnswer
        requires worker { is_worker_step step.now ≡ true }
        requires few { Self.Badge.share badge.old + 1 < 2 ^ 64 }
        ensures step { is_offered self.old step.now result self.new }
        ensures share { Self.Badge.share badge.new ≡ share_after (Self.Badge.share badge.old) result }
        ensures memory { result ≢ Err OutOfMemory };

    /// Whether some tenant has a ready frame.
    fn has_ready(&self) -> bool
        ensures { result ≡ has_ready self.now };

    /// Whether a seat that waits for this job of this tenant waits on, as long as the desk is open.
    fn waits_on(&self, tenant: u64, job: u64) -> bool
        ensures { result ≡ waits_on self.now tenant job };

    /// The task that a worker is given after it has waited. The frame isn't taken: it stays ready until a worker's step takes it.
    fn next_task(&mut self) -> Option<Task>
        ensures { is_next self.old result self.new };

    /// The task that comes next, by who was served least or has waited longest; `None` where nobody who shares has a ready frame, or nobody
    /// shares. The frame isn't taken.
    fn pick(&mut self) -> Option<Task>
        ensures { IfSome result (is_fair self.new) };

    /// Notes that this tenant was served so much more of the workers' work.
    fn charge(&mut self, tenant: u64, amount: u64);
}
