//! The core's steps Take and Steal: a worker runs a ready frame.
ghost use Rattle.std.specs.Prelude.{◌≡◌, true, false, IfOk, IsSome};
ghost use Rattle.frame_table.specs.declared.names.State.TheVariants.{Running};
ghost use Rattle.sched_rules.specs.Changes.{on_tenant};
ghost use Rattle.sched_rules.specs.Cores.{shared_refusal};
ghost use Rattle.sched_rules.specs.Lone.{refusal_in, in_state, counted};
ghost use Rattle.sched_rules.specs.Views.{named};
ghost use Rattle.sched_rules.specs.declared.step.StepOf.TheVariants.{Take as TakeStep, Steal as StealStep};
ghost use Rattle.sched_store.specs.Reads.{is_busy_among, may_hold, TenantHasStepLeft};
ghost use Rattle.sched_core.specs.StepResults.{FollowsResult};

use crate::decide::{first_of_four, is_out_of_reach, is_ready_at};
use crate::engine::{Engine, look};
use crate::steps::StepAnswer;
use frame_table::{FrameId, State};
use sched_rules::{DidOf, Procedure, Refusal, Worker};
use std::alloc::Allocator;

impl<P: Procedure, A: Allocator> Engine<P, A> {
    /// Ok where a Take of this frame by this worker would be taken; else NoTenant, NoFrame, NotReady, NotHere,
    /// NoSteps or Busy.
    pub(crate) fn may_take(&self, worker: Worker, name: FrameId) -> Result<(), Refusal>
        ensures refusal { refusal_in result ≡ shared_refusal (P.functions self.now.procedure) self.now.store (TakeStep worker name) }
        ensures free { IfOk result (λ _. is_busy_among worker self.now.store.tenants ≡ false) }
    {
        let seen = look(&self.store, name)?;
        first_of_four(
            (!seen.state.is_ready(), Refusal::NotReady),
            (!is_ready_at(seen.state, worker.number()), Refusal::NotHere),
            (seen.left.steps == 0, Refusal::NoSteps),
            (self.store.is_busy(worker), Refusal::Busy),
        )
    }

    /// Ok where a Steal of this frame from home `from` by this worker would be taken; else NoTenant, NoFrame,
    /// NotReady, NotHere, NoSteps or Busy.
    pub(crate) fn may_steal(&self, worker: Worker, from: u8, name: FrameId) -> Result<(), Refusal>
        ensures refusal { refusal_in result ≡ shared_refusal (P.functions self.now.procedure) self.now.store (StealStep worker from name) }
        ensures free { IfOk result (λ _. is_busy_among worker self.now.store.tenants ≡ false) }
    {
        let seen = look(&self.store, name)?;
        first_of_four(
            (!seen.state.is_ready(), Refusal::NotReady),
            (
                is_out_of_reach(seen.state, from, worker.number()),
                Refusal::NotHere,
            ),
            (seen.left.steps == 0, Refusal::NoSteps),
            (self.store.is_busy(worker), Refusal::Busy),
        )
    }

    /// Take: the worker runs a ready frame whose home it is. A step is counted.
    pub(crate) fn take(&mut self, worker: Worker, name: FrameId) -> StepAnswer<P>
        ensures step_result { FollowsResult (P.functions self.old.procedure) self.old.store (TakeStep worker name) result self.new.store }
        ensures procedure { self.new.procedure ≡ self.old.procedure }
    {
        self.may_take(worker, name)?;
        self.run(worker, name);
        Ok(DidOf::Took)
    }

    /// Steal: the worker runs a ready frame whose home is `from`, another worker or 0 for the hall. A step is
    /// counted.
    pub(crate) fn steal(&mut self, worker: Worker, from: u8, name: FrameId) -> StepAnswer<P>
        ensures step_result { FollowsResult (P.functions self.old.procedure) self.old.store (StealStep worker from name) result self.new.store }
        ensures procedure { self.new.procedure ≡ self.old.procedure }
    {
        self.may_steal(worker, from, name)?;
        self.run(worker, name);
        Ok(DidOf::Took)
    }

    /// Puts a frame into Running by this worker, and counts a step of the tenant. Before, the worker ran or computed
    /// no frame, or this one.
    #[inline(always)]
    pub(crate) fn run(&mut self, worker: Worker, name: FrameId)
        requires there { IsSome (named self.old.store name) }
        requires free { may_hold self.old.store worker name ≡ true }
        requires left { TenantHasStepLeft self.old.store name.tenant }
        ensures ran { self.new.store ≡ on_tenant name.tenant counted (on_tenant name.tenant (in_state name.serial (Running worker)) self.old.store) }
        ensures procedure { self.new.procedure ≡ self.old.procedure }
    {
        self.store
            .hold(worker, name, State::Running(worker.number()));
        self.store.count_step(name.tenant);
    }
}
