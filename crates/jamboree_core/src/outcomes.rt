//! What has become of a tenant's job that is a search.
ghost use Rattle.std.specs.Prelude.{◌≡◌, ℕ, List, Some};
ghost use Rattle.sched_rules.specs.Trees.{Tenant};
ghost use Rattle.sched_rules.specs.Cores.{tenant_in};
ghost use Rattle.sched_rules.specs.Views.{job_of};
ghost use Rattle.jamboree_core.specs.Searching.{TenantSearches, ServesSearches, origin_at};
ghost use Rattle.jamboree_core.specs.Outcomes.{IsOfSearch, IsOutcomeOf, IsOutcomeIn, AnswersTo};

use jamboree::{Jamboree, Reply};
use sched_core::Core;
use sched_rules::Job;
use std::alloc::Allocator;

/// What has become of a job: it lives, or has ended in one of three ways.
#[derive(Clone, Copy, Debug, PartialEq, Eq)]
pub enum Outcome {
    /// The search goes on.
    Pending,
    /// The search is done: the reply has the minimax value, the best choice and what is known of each choice of
    /// the board to the depth that were asked for.
    Done(Reply),
    /// The job was given up for want of quota.
    Spent,
    /// The job was cancelled.
    Cancelled,
}

impl Outcome {
    /// What has become of a job that is a search.
    pub fn of(job: &Job) -> Outcome
        requires { IsOfSearch job.now }
        ensures { IsOutcomeOf job.now result }
    {
        match job {
            Job::Live(_) => Outcome::Pending,
            Job::Done(words) => Outcome::Done(Reply::read(words.as_slice())),
            Job::Spent => Outcome::Spent,
            Job::Cancelled => Outcome::Cancelled,
        }
    }
}

/// What has become of a tenant's job by its number, from 1 on; `None` where there is no such tenant
/// or job. Where it is done, the reply is to the board and the depth that its Submit asked for.
pub fn outcome_of<A: Allocator>(core: &Core<Jamboree, A>, tenant: u64, job: u64) -> Option<Outcome>
    requires { ServesSearches (tenant_in core.now.shared.tenants tenant) }
    ensures is { IsOutcomeIn (job_of core.now.shared tenant job) result }
    ensures asked { (origins : List (List ℕ)) (owner : Tenant) → tenant_in core.now.shared.tenants tenant ≡ Some owner → TenantSearches origins owner
        → AnswersTo (origin_at origins job) result }
{
    match core.job(tenant, job) {
        Some(job) => Some(Outcome::of(job)),
        None => None,
    }
}
