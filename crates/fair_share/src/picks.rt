//! Which tenant's frame of a hall a worker takes next, by who was served least or has waited longest.
ghost use Rattle.std.specs.Prelude.{◌≡◌, IfSome, IfNone, is_some};
ghost use Rattle.sched_rules.specs.Views.{newest_ready_in};
ghost use Rattle.fair_share.specs.Shares.{tenant_seen, tenant_in_place};
ghost use Rattle.fair_share.specs.Picks.{charged_to, seen_all, IsFairTask, IsNoTask};

use crate::line::PLACES;
use crate::shares::FairShare;
use hall::Hall;
use jamboree_rules::pool_rules::Task;
use std::alloc::Allocator;

/// Sees of all tenants whether they have a ready frame, for one more pick.
#[tactic(auto, using(crate::proofs::PickLemmas::seen_more, crate::proofs::PickLemmas::seen_none))]
fn see_all<A: Allocator>(hall: &Hall<A>, shares: &mut FairShare)
    ensures { shares.new ≡ seen_all hall.now.shared shares.old }
{
    for place in 0..PLACES {
        see_one(hall, shares, place);
    }
    shares.count();
}

/// Sees whether the tenant at a place has a ready frame. Nobody is looked for where the place is free.
#[tactic(auto, using(crate::proofs::PickLemmas::seen_nobody))]
fn see_one<A: Allocator>(hall: &Hall<A>, shares: &mut FairShare, place: usize)
    ensures { shares.new ≡ tenant_seen place (is_some (newest_ready_in hall.now.shared (tenant_in_place shares.old place).name)) shares.old }
{
    let name = shares.tenant_at(place);
    if name != 0 {
        let newest = hall.core().newest_ready(name);
        shares.see(place, newest.is_some());
    }
}

/// The task that comes next: the newest ready frame of a tenant of a customer that none with a ready frame was served less than, and
/// of its networks and tenants likewise; each fourth time that of the tenant that has waited longest. The frame isn't taken, and nobody is charged. None where no tenant that shares has one.
pub fn fair_task<A: Allocator>(hall: &Hall<A>, shares: &mut FairShare) -> Option<Task>
    ensures seen { shares.new ≡ seen_all hall.now.shared shares.old }
    ensures task { IfSome result (IsFairTask hall.now.shared shares.new) }
    ensures none { IfNone result (IsNoTask hall.now.shared shares.new) }
{
    see_all(hall, shares);
    let place = shares.pick()?;
    let tenant = shares.tenant_at(place);
    match hall.core().newest_ready(tenant) {
        Some((frame, home)) => Some(Task { frame, home }),
        None => None,
    }
}

/// Notes that a tenant was served so much more, if it is one that shares.
pub fn charge(shares: &mut FairShare, tenant: u64, amount: u64)
    ensures { shares.new ≡ charged_to tenant amount shares.old }
{
    if let Some(place) = shares.place_of(tenant) {
        shares.charge(place, amount);
    }
}
