//! Of a core's totals: nothing is cut off where what is left is worked out by subtraction.
ghost use Rattle.std.specs.Prelude.{◌≡◌, ◌↔◌, ℕ, ◌+◌, ◌*◌, false, List, Some, Result};
ghost use Rattle.tenant_quota.specs.Reserves.{ReserveOf};
ghost use Rattle.sched_rules.specs.declared.refusal.Refusal.{Refusal};
ghost use Rattle.sched_rules.specs.declared.step.StepOf.{StepOf};
ghost use Rattle.sched_rules.specs.declared.step.DidOf.{DidOf};
ghost use Rattle.sched_rules.specs.Trees.{Tenant, left, charged_for};
ghost use Rattle.sched_rules.specs.Cores.{CoreState, tenant_in, with_tenant, charged_in, reservations_in, is_beyond, shared_by_nobody};
ghost use Rattle.sched_rules.specs.Headline.{after_answer, after_answers};
ghost use Rattle.sched_rules.specs.Views.{free_in};
ghost use Rattle.sched_laws.specs.Shapes.{IsShaped, AreShaped, IsReservedWithin, IsCovered};

use sched_rules::Procedure;

/// If all reservations together are within the totals (`IsReservedWithin`), they are after any step, whatever
/// the answer, and after any list of steps. With no tenant they are.
pub fn reservations_stay_within_the_totals<P: Procedure>()
    ensures step { (procedure : P) (before : CoreState) (step : StepOf P.Answer) (answer : Result (DidOf P.Input) Refusal) →
        IsReservedWithin before → IsReservedWithin (after_answer (P.functions procedure) before step answer) }
    ensures run { (procedure : P) (before : CoreState) (steps : List (StepOf P.Answer)) (answers : List (Result (DidOf P.Input) Refusal)) →
        IsReservedWithin before → IsReservedWithin (after_answers (P.functions procedure) before steps answers) }
    ensures nobody { (totals : ReserveOf) → IsReservedWithin (shared_by_nobody totals) }
{}

/// A raised reservation is beyond the totals (`is_beyond`) exactly where all reservations together, this one in
/// the place of the tenant's own, would pass one of them.
pub fn more_is_beyond_exactly_where_a_total_is_passed()
    ensures { (before : CoreState) (number : ℕ) (tenant : Tenant) (quota : ReserveOf) → tenant_in before.tenants number ≡ Some tenant →
        (is_beyond (reservations_in before) tenant.reserve quota ≡ false ↔ IsReservedWithin (record before { tenants = with_tenant number (record tenant { reserve = quota }) before.tenants })) }
{}

/// What a tenant has left and what it used add up to what it reserved, and the free and the charged segments to
/// the total. So no subtraction in `left` and `free_in` is cut off at 0.
#[tactic(auto, using(crate::proofs::Sums::none_cut_off))]
pub fn nothing_is_cut_off()
    ensures segments { (tenant : Tenant) → IsShaped tenant → (left tenant).segments + charged_for tenant.frames ≡ tenant.reserve.segments }
    ensures nodes { (tenant : Tenant) → IsShaped tenant → (left tenant).nodes + tenant.serials ≡ tenant.reserve.nodes }
    ensures steps { (tenant : Tenant) → IsShaped tenant → (left tenant).steps + tenant.steps ≡ 16 * tenant.reserve.nodes }
    ensures covered { (shared : CoreState) → AreShaped shared.tenants → IsReservedWithin shared → IsCovered shared }
    ensures free { (shared : CoreState) → AreShaped shared.tenants → IsReservedWithin shared → free_in shared + charged_in shared.tenants ≡ shared.totals.segments }
{}
