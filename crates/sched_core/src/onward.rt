//! No job of a core is stuck: a law of what a core keeps.
ghost use Rattle.std.specs.Prelude.{◌≡◌, ℕ, Some};
ghost use Rattle.sched_rules.specs.declared.job.Job.TheVariants.{Live};
ghost use Rattle.sched_rules.specs.Views.{job_of};
ghost use Rattle.sched_laws.specs.Onward.{AreNumbersApart, EachHasAnswer, EachWaitsForChildren, IsNotStuck};
ghost use Rattle.sched_core.specs.Keeping.{IsKeptCore};

use crate::scheduler::Core;
use sched_laws::onward::no_live_job_is_stuck;
use sched_rules::Procedure;
use std::alloc::Allocator;

impl<P: Procedure, A: Allocator> Core<P, A> {
    /// Of a core where a frame waits only for children, and where each frame that is computed has an answer that it can
    /// take: while a job lives, a worker can go on with a frame of it, or none of the 32 is free and each can go on
    /// with its own (`going`). What a core keeps (`kept`), and that no two of its tenants have one number (`apart`),
    /// holds of every core. Nothing changes.
    #[tactic(auto, using(crate::proofs::Apart::rising_apart))]
    pub fn no_job_is_stuck(&self)
        ensures kept { IsKeptCore self.now.shared }
        ensures apart { AreNumbersApart self.now.shared.tenants }
        ensures going { EachWaitsForChildren self.now.shared → EachHasAnswer (P.functions self.now.procedure) self.now.shared →
            (number job root : ℕ) → job_of self.now.shared number job ≡ Some (Live root) → IsNotStuck (P.functions self.now.procedure) self.now.shared number root }
    {
        let _known = self.engine.store.newest();
        no_live_job_is_stuck::<P>();
    }
}
