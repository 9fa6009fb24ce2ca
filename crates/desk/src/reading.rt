//! What is read of a hall under a desk's lock.
ghost use Rattle.std.specs.Prelude.{◌≡◌, Option};
ghost use Rattle.sched_rules.specs.Views.{job_of, left_in_core, live_of as live_in_core};
ghost use Rattle.hall.specs.jamboree_core.declared.outcomes.Outcome.{Outcome as OutcomeOf};
ghost use Rattle.hall.specs.jamboree_core.Outcomes.{IsOutcomeIn};
ghost use Rattle.hall.specs.desk_rules.Asked.{seat_asked_at, IsShown, IsToldBy, found_or_no_tenant};
ghost use Rattle.desk.specs.Counts.{has_ready, is_awaited, IsNextReady};

use hall::desk_rules::{SeatAsked, seat_asked_at, shown};
use hall::{Hall, Outcome, Refusal};
use jamboree_rules::pool_rules::Task;
use std::alloc::Allocator;
use tenant_quota::Left;

/// Whether the hall has a ready frame of some tenant.
pub fn has_ready<A: Allocator + Clone>(hall: &Hall<A>) -> bool
    ensures { result ≡ has_ready hall.now.shared }
{
    hall.core().any_ready().is_some()
}

/// A frame that is ready, with its home, as a task; `None` where no frame is ready. The frame isn't taken: it stays ready until a worker's
/// step takes it.
pub fn next_ready<A: Allocator + Clone>(hall: &Hall<A>) -> Option<Task>
    ensures { IsNextReady hall.now.shared result }
{
    match hall.core().any_ready() {
        Some((frame, home)) => Some(Task { frame, home }),
        None => None,
    }
}

/// Whether there is a job of this tenant that hasn't ended.
pub fn is_awaited<A: Allocator + Clone>(hall: &Hall<A>, tenant: u64, job: u64) -> bool
    ensures { result ≡ is_awaited hall.now.shared tenant job }
{
    match hall.outcome(tenant, job) {
        Some(Outcome::Pending) => true,
        _ => false,
    }
}

/// How a job stands of a tenant whose seat asked this, as `shown` tells it; `NoJob` where the seat asked for no job of this number.
pub fn told_of<A: Allocator + Clone>(
    hall: &Hall<A>,
    tenant: u64,
    asked: &[SeatAsked],
    job: u64,
) -> Result<Outcome, Refusal>
    ensures shown { IsShown (seat_asked_at asked.now job) result }
    ensures told { (told : Option OutcomeOf) × IsOutcomeIn (job_of hall.now.shared tenant job) told × IsToldBy (seat_asked_at asked.now job) told result }
{
    let told = hall.outcome(tenant, job);
    match seat_asked_at(asked, job) {
        Some(asked) => Ok(shown(asked, told)),
        None => Err(Refusal::NoJob),
    }
}

/// The segments, nodes and steps that a tenant has left; `NoTenant` where it isn't there.
pub fn left_of<A: Allocator + Clone>(hall: &Hall<A>, tenant: u64) -> Result<Left, Refusal>
    ensures { result ≡ found_or_no_tenant (left_in_core hall.now.shared tenant) }
{
    hall.core().left(tenant).ok_or(Refusal::NoTenant)
}

/// How many frames a tenant has, and how many words these have together; `NoTenant` where it isn't there.
pub fn live_of<A: Allocator + Clone>(hall: &Hall<A>, tenant: u64) -> Result<(usize, usize), Refusal>
    ensures { result ≡ found_or_no_tenant (live_in_core hall.now.shared tenant) }
{
    hall.core().live(tenant).ok_or(Refusal::NoTenant)
}
