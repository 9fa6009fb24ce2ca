//! Uses of the promises that no state is stuck: of tenants 7 and 9, job 3 and worker 5.
ghost use Rattle.std.specs.Prelude.{◌≡◌, ◌≢◌, ◌⊎◌, ◌∷◌, ◌≤◌, ℕ, List, Some, None, Result, IfOk, is_ok, true, false};
ghost use Rattle.tenant_quota.specs.Reserves.{ReserveOf};
ghost use Rattle.frame_table.specs.declared.names.State.TheVariants.{Ready, Running, Computing, Waiting, Returned};
ghost use Rattle.frame_table.specs.Frames.{Frame, frame_at, root_of};
ghost use Rattle.sched_rules.specs.declared.job.Job.TheVariants.{Live};
ghost use Rattle.sched_rules.specs.declared.refusal.Refusal.{Refusal};
ghost use Rattle.sched_rules.specs.declared.step.StepOf.{StepOf};
ghost use Rattle.sched_rules.specs.declared.step.DidOf.{DidOf};
ghost use Rattle.sched_rules.specs.Trees.{Tenant, has_child, is_busy_in, job_at};
ghost use Rattle.sched_rules.specs.Cores.{CoreState, shared_by_nobody, shared_refusal, tenant_in};
ghost use Rattle.sched_rules.specs.Headline.{after_answer, after_answers, is_admission};
ghost use Rattle.sched_rules.specs.Views.{job_of, named};
ghost use Rattle.sched_laws.specs.Shapes.{IsShaped, AreShaped};
ghost use Rattle.sched_laws.specs.Onward.{AreNumbersApart, CanGoOn, CanGoOnAlone, EachHasAnswer, EachWaitsForChildren, GoesOnInJob, GoesOnWithItsOwn, HasAnswer, WaitsForChildren, is_busy_anywhere};
ghost use Rattle.jamboree_rules.specs.declared.leaf.LeafAnswer.{LeafAnswer};
ghost use Rattle.jamboree_rules.specs.Leaves.{leaf_in, leaf_of_answer};
ghost use Rattle.jamboree_rules.specs.Procedure.{jamboree};
ghost use Rattle.jamboree_core.specs.Replies.{IsSearch};

use hall::{Hall, Jamboree, StepAnswer};
use jamboree_core::sched_core::Core;
use onward::a_computed_frame_has_an_answer;
use sched_laws::onward::{
    a_frame_that_does_not_wait_can_go_on, a_frame_waits_only_for_children, no_live_job_is_stuck,
    no_two_tenants_have_one_number, the_newest_frame_of_a_job_does_not_wait,
};
use sched_rules::{Config, Did, Procedure, Refusal as Why, Step};
use std::alloc::{AllocError, Allocator};

/// After any steps on a new core tenant 7's frame 12 has a child where it waits (`listed`), and after one more step tenant
/// 9's frame 2. Uses `sched_laws::a_frame_waits_only_for_children` (`step`, `run`, `nobody`).
pub fn who_waits<P: Procedure>()
    ensures listed { (procedure : P) (totals : ReserveOf) (steps : List (StepOf P.Answer)) (answers : List (Result (DidOf P.Input) Refusal)) (tenant : Tenant) (frame : Frame (List ℕ)) →
        tenant_in (after_answers (P.functions procedure) (shared_by_nobody totals) steps answers).tenants 7 ≡ Some tenant →
        frame_at tenant.frames 12 ≡ Some frame → frame.state ≡ Waiting → has_child tenant.frames 12 ≡ true }
    ensures one_more { (procedure : P) (before : CoreState) (step : StepOf P.Answer) (answer : Result (DidOf P.Input) Refusal) (tenant : Tenant) (frame : Frame (List ℕ)) →
        AreShaped before.tenants → EachWaitsForChildren before → tenant_in (after_answer (P.functions procedure) before step answer).tenants 9 ≡ Some tenant →
        frame_at tenant.frames 2 ≡ Some frame → frame.state ≡ Waiting → has_child tenant.frames 2 ≡ true }
{
    a_frame_waits_only_for_children::<P>();
}

/// After any steps on a new core, whatever tenant stands first, none behind it has its number; and so after one more
/// step. Uses `sched_laws::no_two_tenants_have_one_number` (`step`, `run`, `nobody`).
pub fn who_stands_first<P: Procedure>()
    ensures listed { (procedure : P) (totals : ReserveOf) (steps : List (StepOf P.Answer)) (answers : List (Result (DidOf P.Input) Refusal)) (tenant : Tenant) (others : List (ℕ × Tenant)) →
        (after_answers (P.functions procedure) (shared_by_nobody totals) steps answers).tenants ≡ (7, tenant) ∷ others → tenant_in others 7 ≡ None }
    ensures one_more { (procedure : P) (before : CoreState) (step : StepOf P.Answer) (answer : Result (DidOf P.Input) Refusal) (tenant : Tenant) (others : List (ℕ × Tenant)) →
        AreNumbersApart before.tenants → (after_answer (P.functions procedure) before step answer).tenants ≡ (9, tenant) ∷ others → tenant_in others 9 ≡ None }
{
    no_two_tenants_have_one_number::<P>();
}

/// Where a tenant's job 3 lives under frame 8, there is a frame of it that doesn't wait, and none of a greater serial.
/// Uses `sched_laws::the_newest_frame_of_a_job_does_not_wait`.
pub fn newest_of_job_three()
    ensures { (tenant : Tenant) → IsShaped tenant → WaitsForChildren tenant → job_at tenant.jobs 3 ≡ Some (Live 8) →
        (frame : Frame (List ℕ)) × (frame_at tenant.frames frame.serial ≡ Some frame) × (root_of frame.path ≡ 8) × (frame.state ≢ Waiting)
        × ((other : Frame (List ℕ)) → frame_at tenant.frames 40 ≡ Some other → root_of other.path ≡ 8 → 40 ≤ frame.serial) }
{
    the_newest_frame_of_a_job_does_not_wait()
}

/// Worker 5 goes on with tenant 7's frame 12 where it runs it, or computes it and has an answer; and, where it is free,
/// with one that is ready anywhere or has returned. Uses `sched_laws::a_frame_that_does_not_wait_can_go_on` (`alone`,
/// `among`).
pub fn five_goes_on<P: Procedure>()
    ensures runs { (procedure : P) (shared : CoreState) (frame : Frame (List ℕ)) → AreShaped shared.tenants → named shared (record { tenant = 7; serial = 12 }) ≡ Some frame →
        frame.state ≡ Running 5 → CanGoOn (P.functions procedure) shared 5 (record { tenant = 7; serial = 12 }) }
    ensures computes { (procedure : P) (shared : CoreState) (frame : Frame (List ℕ)) → AreShaped shared.tenants → named shared (record { tenant = 7; serial = 12 }) ≡ Some frame →
        frame.state ≡ Computing 5 → HasAnswer (P.functions procedure) frame.value → CanGoOn (P.functions procedure) shared 5 (record { tenant = 7; serial = 12 }) }
    ensures ready { (procedure : P) (shared : CoreState) (frame : Frame (List ℕ)) → AreShaped shared.tenants → named shared (record { tenant = 7; serial = 12 }) ≡ Some frame →
        frame.state ≡ Ready 3 → is_busy_anywhere 5 shared.tenants ≡ false → CanGoOn (P.functions procedure) shared 5 (record { tenant = 7; serial = 12 }) }
    ensures returned { (procedure : P) (tenant : Tenant) (frame : Frame (List ℕ)) → IsShaped tenant → frame_at tenant.frames 12 ≡ Some frame →
        frame.state ≡ Returned → is_busy_in 5 tenant.frames ≡ false → CanGoOnAlone (P.functions procedure) tenant 5 (record { tenant = 7; serial = 12 }) }
{
    a_frame_that_does_not_wait_can_go_on::<P>();
}

/// Where tenant 7's job 3 lives under frame 8, a worker can go on with a frame of it, or worker 5 with its own. Uses
/// `sched_laws::no_live_job_is_stuck`.
pub fn job_three_of_seven<P: Procedure>()
    ensures { (procedure : P) (shared : CoreState) → AreShaped shared.tenants → AreNumbersApart shared.tenants → EachWaitsForChildren shared →
        EachHasAnswer (P.functions procedure) shared → job_of shared 7 3 ≡ Some (Live 8) →
        GoesOnInJob (P.functions procedure) shared 7 8 ⊎ GoesOnWithItsOwn (P.functions procedure) shared 5 }
{
    no_live_job_is_stuck::<P>();
}

/// The same of a core that is there; no second tenant 9 stands in it, and its tenants have their shape. Uses
/// `sched_core::Core::no_job_is_stuck` (`kept`, `apart`, `going`).
pub fn job_three_in_a_core<P: Procedure, A: Allocator>(core: &Core<P, A>)
    ensures going { EachWaitsForChildren core.now.shared → EachHasAnswer (P.functions core.now.procedure) core.now.shared → job_of core.now.shared 7 3 ≡ Some (Live 8) →
        GoesOnInJob (P.functions core.now.procedure) core.now.shared 7 8 ⊎ GoesOnWithItsOwn (P.functions core.now.procedure) core.now.shared 5 }
    ensures apart { (tenant : Tenant) (others : List (ℕ × Tenant)) → core.now.shared.tenants ≡ (9, tenant) ∷ others → tenant_in others 9 ≡ None }
    ensures kept { AreShaped core.now.shared.tenants }
{
    core.no_job_is_stuck();
}

/// After any list of steps on a new core: tenant 7's frame 12 waits only with a child, and tenant 9's job 3, which lives
/// under frame 8, isn't stuck. Uses `onward::run` (`waits`, `going`).
pub fn job_three_after_a_list<P, A>(
    alloc: A,
    procedure: P,
    config: Config,
    steps: &[Step<P>],
) -> Result<Core<P, A>, AllocError>
where
    P: Procedure + Drop,
    A: Allocator + Clone,
    ensures waits { IfOk result (λ core. (tenant : Tenant) (frame : Frame (List ℕ)) → tenant_in core.shared.tenants 7 ≡ Some tenant →
        frame_at tenant.frames 12 ≡ Some frame → frame.state ≡ Waiting → has_child tenant.frames 12 ≡ true) }
    ensures going { IfOk result (λ core. EachHasAnswer (P.functions core.procedure) core.shared → job_of core.shared 9 3 ≡ Some (Live 8) →
        GoesOnInJob (P.functions core.procedure) core.shared 9 8 ⊎ GoesOnWithItsOwn (P.functions core.procedure) core.shared 5) }
{
    onward::run(alloc, procedure, config, steps)
}

/// At a step of a core. Uses `onward::step` (`waits`, `going`, `taken`).
pub fn job_three_at_a_step<P: Procedure, A: Allocator + Clone>(
    core: &mut Core<P, A>,
    step: &Step<P>,
) -> Result<Did<P>, Why>
    ensures waits { EachWaitsForChildren core.old.shared → (tenant : Tenant) (frame : Frame (List ℕ)) → tenant_in core.new.shared.tenants 7 ≡ Some tenant →
        frame_at tenant.frames 12 ≡ Some frame → frame.state ≡ Waiting → has_child tenant.frames 12 ≡ true }
    ensures going { EachWaitsForChildren core.old.shared → EachHasAnswer (P.functions core.old.procedure) core.old.shared → job_of core.old.shared 9 3 ≡ Some (Live 8) →
        GoesOnInJob (P.functions core.old.procedure) core.old.shared 9 8 ⊎ GoesOnWithItsOwn (P.functions core.old.procedure) core.old.shared 5 }
    ensures taken { is_admission step.now ≡ false → shared_refusal (P.functions core.old.procedure) core.old.shared step.now ≡ None → is_ok result ≡ true }
{
    onward::step(core, step)
}

/// At a hall, whatever was offered to it: tenant 9's job 3, which lives under frame 8, isn't stuck. Uses `onward::offer`
/// (`going`, `taken`).
pub fn job_three_in_a_hall<A: Allocator + Clone>(
    hall: &mut Hall<A>,
    step: &Step<Jamboree>,
) -> StepAnswer
    requires { IsSearch step.now }
    ensures going { job_of hall.old.shared 9 3 ≡ Some (Live 8) → GoesOnInJob (jamboree hall.old.grain) hall.old.shared 9 8 ⊎ GoesOnWithItsOwn (jamboree hall.old.grain) hall.old.shared 5 }
    ensures taken { is_admission step.now ≡ false → shared_refusal (jamboree hall.old.grain) hall.old.shared step.now ≡ None → is_ok result ≡ true }
{
    onward::offer(hall, step)
}

/// A frame that worker 5 computes in a core of searches has an answer that was computed for just its leaf. Uses
/// `onward::a_computed_frame_has_an_answer` (`leaf`, `frames`).
pub fn five_has_an_answer()
    ensures { (words : List ℕ) → (answer : LeafAnswer) × (leaf_of_answer answer ≡ leaf_in words) }
{
    a_computed_frame_has_an_answer()
}
