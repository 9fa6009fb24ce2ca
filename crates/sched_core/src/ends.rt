//! The core's steps Finish, Spend, Cancel and Leave: a job ends, and so do its frames.
ghost use Rattle.std.specs.Prelude.{◌≡◌, false, IfOk, IsSome, Some};
ghost use Rattle.sched_rules.specs.Cores.{shared_refusal};
ghost use Rattle.sched_rules.specs.Changes.{on_tenant};
ghost use Rattle.sched_rules.specs.Lone.{refusal_in, ended as ended_at};
ghost use Rattle.sched_rules.specs.Views.{job_of, named};
ghost use Rattle.sched_rules.specs.declared.job.Job.TheVariants.{Live as LiveJob};
ghost use Rattle.sched_rules.specs.declared.step.StepOf.TheVariants.{Finish as FinishStep, Spend as SpendStep, Cancel as CancelStep, Leave as LeaveStep};
ghost use Rattle.sched_laws.specs.Shapes.{AreShaped};
ghost use Rattle.sched_store.specs.JobLists.{is_live};
ghost use Rattle.sched_core.specs.StepResults.{FollowsResult};

use crate::decide::{first_of, is_unfinished};
use crate::engine::{Engine, look, own};
use crate::steps::StepAnswer;
use frame_table::FrameId;
use sched_rules::{DidOf, Job, JobWords, Procedure, Refusal, Worker};
use sched_store::Store;
use std::alloc::Allocator;

impl<P: Procedure, A: Allocator> Engine<P, A> {
    /// Ok where a Finish of this frame by this worker would be taken; else NoTenant, NoFrame, NotReturned, NoSteps or
    /// Busy.
    pub(crate) fn may_finish(&self, worker: Worker, name: FrameId) -> Result<(), Refusal>
        ensures refusal { refusal_in result ≡ shared_refusal (P.functions self.now.procedure) self.now.store (FinishStep worker name) }
    {
        let seen = look(&self.store, name)?;
        first_of(&[
            (
                is_unfinished(seen.state, seen.parent.is_none()),
                Refusal::NotReturned,
            ),
            (seen.left.steps == 0, Refusal::NoSteps),
            (self.store.is_busy(worker), Refusal::Busy),
        ])
    }

    /// Ok where a Spend of this frame would be taken, else its refusal: NoTenant, NoFrame or NotSpent.
    pub(crate) fn may_spend(&self, name: FrameId) -> Result<(), Refusal>
        ensures refusal { refusal_in result ≡ shared_refusal (P.functions self.now.procedure) self.now.store (SpendStep name) }
    {
        let seen = look(&self.store, name)?;
        if self.is_spendable(name, seen) {
            Ok(())
        } else {
            Err(Refusal::NotSpent)
        }
    }

    /// The serial of the root of a tenant's live job. NoTenant where the tenant isn't there, NoJob where it has
    /// no such job or the job has ended.
    pub(crate) fn live_root(&self, number: u64, job: u64) -> Result<u64, Refusal>
        ensures refusal { refusal_in result ≡ shared_refusal (P.functions self.now.procedure) self.now.store (CancelStep number job) }
        ensures root { IfOk result (λ root. job_of self.now.store number job ≡ Some (LiveJob root)) }
    {
        if !self.store.has_tenant(number) {
            return Err(Refusal::NoTenant);
        }
        match self.store.job(number, job) {
            Some(Job::Live(root)) => Ok(*root),
            Some(Job::Done(_)) | Some(Job::Spent) | Some(Job::Cancelled) | None => Err(
                Refusal::NoJob,
            ),
        }
    }

    /// Ok where the tenant is there, else NoTenant.
    pub(crate) fn may_leave(&self, number: u64) -> Result<(), Refusal>
        ensures refusal { refusal_in result ≡ shared_refusal (P.functions self.now.procedure) self.now.store (LeaveStep number) }
    {
        if self.store.has_tenant(number) {
            Ok(())
        } else {
            Err(Refusal::NoTenant)
        }
    }

    /// Finish: the job of a returned root is done and keeps the root's first 76 words, and its frames are removed. A
    /// step is counted. Tells the job's number.
    pub(crate) fn finish(&mut self, worker: Worker, name: FrameId) -> StepAnswer<P>
        requires { AreShaped self.old.store.tenants }
        ensures step_result { FollowsResult (P.functions self.old.procedure) self.old.store (FinishStep worker name) result self.new.store }
        ensures procedure { self.new.procedure ≡ self.old.procedure }
    {
        self.may_finish(worker, name)?;
        let kept = JobWords::of(&own(&self.store, name));
        let job = self.store.job_under(name.tenant, name.serial) as u64;
        end_at(&mut self.store, name, Job::Done(kept));
        self.store.count_step(name.tenant);
        Ok(DidOf::Finished(job))
    }

    /// Spend: a frame's job is given up, and all frames of the job are removed. Tells the job's number.
    pub(crate) fn spend(&mut self, name: FrameId) -> StepAnswer<P>
        requires { AreShaped self.old.store.tenants }
        ensures step_result { FollowsResult (P.functions self.old.procedure) self.old.store (SpendStep name) result self.new.store }
        ensures procedure { self.new.procedure ≡ self.old.procedure }
    {
        self.may_spend(name)?;
        let root = self.store.root(name);
        let job = self.store.job_under(root.tenant, root.serial) as u64;
        end_at(&mut self.store, root, Job::Spent);
        Ok(DidOf::Spent(job))
    }

    /// Cancel: the live job `job` of tenant `number` is cancelled, and its frames are removed.
    pub(crate) fn cancel(&mut self, number: u64, job: u64) -> StepAnswer<P>
        requires { AreShaped self.old.store.tenants }
        ensures step_result { FollowsResult (P.functions self.old.procedure) self.old.store (CancelStep number job) result self.new.store }
        ensures procedure { self.new.procedure ≡ self.old.procedure }
    {
        let serial = self.live_root(number, job)?;
        let root = FrameId {
            tenant: number,
            serial,
        };
        end_at(&mut self.store, root, Job::Cancelled);
        Ok(DidOf::Cancelled)
    }

    /// Leave: a tenant is removed, with its jobs and frames.
    pub(crate) fn leave(&mut self, number: u64) -> StepAnswer<P>
        ensures step_result { FollowsResult (P.functions self.old.procedure) self.old.store (LeaveStep number) result self.new.store }
        ensures procedure { self.new.procedure ≡ self.old.procedure }
    {
        self.may_leave(number)?;
        self.store.leave(number);
        Ok(DidOf::Left)
    }
}

/// Removes this root and all frames below it, and ends the job that lives under it: `ended` takes its place.
fn end_at<A: Allocator>(store: &mut Store<A>, root: FrameId, ended: Job)
    requires there { IsSome (named store.old root) }
    requires over { is_live ended ≡ false }
    requires shaped { AreShaped store.old.tenants }
    ensures { store.new ≡ on_tenant root.tenant (ended_at root.serial ended) store.old }
{
    store.abort(root);
    store.remove(root);
    store.end_job(root.tenant, root.serial, ended);
}
