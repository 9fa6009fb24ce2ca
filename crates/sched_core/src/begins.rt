//! The core's steps Admit, AdmitMore and Submit: a tenant comes, reserves more, and begins a job.
ghost use Rattle.std.specs.Prelude.{◌≡◌, Ok, Err, MatchResult};
ghost use Rattle.sched_rules.specs.declared.refusal.Refusal.TheVariants.{OutOfMemory};
ghost use Rattle.sched_rules.specs.Cores.{shared_refusal};
ghost use Rattle.sched_rules.specs.Headline.{AreNumbersGiven};
ghost use Rattle.sched_rules.specs.Lone.{refusal_in};
ghost use Rattle.sched_rules.specs.declared.step.StepOf.TheVariants.{Admit as AdmitStep, AdmitMore as AdmitMoreStep, Submit as SubmitStep};
ghost use Rattle.sched_laws.specs.Shapes.{AreShaped};
ghost use Rattle.sched_core.specs.StepResults.{FollowsResult, IsAdmitted};

use crate::decide::{charge, first_of, is_frame_size};
use crate::engine::Engine;
use crate::steps::StepAnswer;
use sched_rules::{DidOf, Procedure, Refusal};
use std::alloc::{AllocError, Allocator};
use tenant_quota::Reserve;

/// The greatest number that a tenant may have.
const MOST_TENANT: u64 = 1 << 62;

/// The most jobs that a tenant may begin, those that ended counted.
const MOST_JOBS: usize = 256;

impl<P: Procedure, A: Allocator> Engine<P, A> {
    /// Ok where an Admit of this number and reservation would be taken, if there is memory; else OldTenant or Full.
    pub(crate) fn may_admit(&self, number: u64, reserve: Reserve) -> Result<(), Refusal>
        ensures refusal { refusal_in result ≡ shared_refusal (P.functions self.now.procedure) self.now.store (AdmitStep number reserve) }
        ensures known { AreNumbersGiven self.now.store }
    {
        let newest = self.store.newest();
        first_of(&[
            (
                number == 0 || number <= newest || MOST_TENANT < number,
                Refusal::OldTenant,
            ),
            (self.store.is_full(reserve), Refusal::Full),
        ])
    }

    /// Ok where an AdmitMore to this reservation would be taken, if there is memory; else NoTenant, Lower or Full.
    pub(crate) fn may_admit_more(&self, number: u64, reserve: Reserve) -> Result<(), Refusal>
        ensures refusal { refusal_in result ≡ shared_refusal (P.functions self.now.procedure) self.now.store (AdmitMoreStep number reserve) }
    {
        let Some(now) = self.store.reserve_of(number) else {
            return Err(Refusal::NoTenant);
        };
        if !reserve.is_above(&now) {
            return Err(Refusal::Lower);
        }
        if self.store.is_beyond(now, reserve) {
            return Err(Refusal::Full);
        }
        Ok(())
    }

    /// Ok where a Submit of a root of this size that begins with these words would be taken; else NoTenant, BadAct,
    /// NoJobsLeft, NoNodes or NoSegments.
    pub(crate) fn may_submit(&self, number: u64, words: &[u64], size: usize) -> Result<(), Refusal>
        ensures refusal { refusal_in result ≡ shared_refusal (P.functions self.now.procedure) self.now.store (SubmitStep number words.now size) }
    {
        let Some(left) = self.store.left(number) else {
            return Err(Refusal::NoTenant);
        };
        if !is_frame_size(words, size) {
            return Err(Refusal::BadAct);
        }
        first_of(&[
            (
                MOST_JOBS <= self.store.job_count(number),
                Refusal::NoJobsLeft,
            ),
            (left.nodes == 0, Refusal::NoNodes),
            ((left.segments as usize) < charge(size), Refusal::NoSegments),
        ])
    }

    /// Submit: begins a new job of a tenant, whose root is ready in the hall. Tells the job's number and the root's
    /// name. No step of the tenant is counted.
    pub(crate) fn submit(&mut self, number: u64, words: &[u64], size: usize) -> StepAnswer<P>
        requires { AreShaped self.old.store.tenants }
        ensures step_result { FollowsResult (P.functions self.old.procedure) self.old.store (SubmitStep number words.now size) result self.new.store }
        ensures procedure { self.new.procedure ≡ self.old.procedure }
    {
        self.may_submit(number, words, size)?;
        let job = self.store.job_count(number) as u64 + 1;
        let root = self.store.open(number, None, words, size, 0);
        self.store.begin_job(number, root.serial);
        Ok(DidOf::Submitted(job, root))
    }
}

// The admissions: these two steps alone take memory.
impl<P: Procedure, A: Allocator + Clone> Engine<P, A> {
    /// Admit: a new tenant with this reservation is there from now on. OutOfMemory where memory is refused.
    pub(crate) fn admit(&mut self, number: u64, reserve: Reserve) -> StepAnswer<P>
        ensures admitted { IsAdmitted (P.functions self.old.procedure) self.old.store (AdmitStep number reserve) result self.new.store }
        ensures procedure { self.new.procedure ≡ self.old.procedure }
    {
        self.may_admit(number, reserve)?;
        as_memory_allows(self.store.admit(number, reserve), DidOf::Admitted)
    }

    /// AdmitMore: raises a tenant's reservation to this. OutOfMemory where memory is refused.
    pub(crate) fn admit_more(&mut self, number: u64, reserve: Reserve) -> StepAnswer<P>
        ensures admitted { IsAdmitted (P.functions self.old.procedure) self.old.store (AdmitMoreStep number reserve) result self.new.store }
        ensures procedure { self.new.procedure ≡ self.old.procedure }
    {
        self.may_admit_more(number, reserve)?;
        as_memory_allows(self.store.raise(number, reserve), DidOf::AdmittedMore)
    }
}

/// The answer to an admission, by what the store's call gave: `done`, or OutOfMemory where its memory was refused.
fn as_memory_allows<I: Copy>(
    taken: Result<(), AllocError>,
    done: DidOf<I>,
) -> Result<DidOf<I>, Refusal>
    ensures { MatchResult taken (λ memory. result ≡ Ok done) (λ refused. result ≡ Err OutOfMemory) }
{
    match taken {
        Ok(()) => Ok(done),
        Err(_) => Err(Refusal::OutOfMemory),
    }
}
