//! No state is stuck: laws.
ghost use Rattle.std.specs.Prelude.{◌≡◌, ◌≢◌, ℕ, List, Some, Result, true};
ghost use Rattle.tenant_quota.specs.Reserves.{ReserveOf};
ghost use Rattle.frame_table.specs.declared.names.FrameId.{FrameId};
ghost use Rattle.frame_table.specs.declared.names.State.TheVariants.{Waiting};
ghost use Rattle.frame_table.specs.Frames.{Frame, frame_at};
ghost use Rattle.sched_rules.specs.declared.job.Job.TheVariants.{Live};
ghost use Rattle.sched_rules.specs.declared.refusal.Refusal.{Refusal};
ghost use Rattle.sched_rules.specs.declared.step.StepOf.{StepOf};
ghost use Rattle.sched_rules.specs.declared.step.DidOf.{DidOf};
ghost use Rattle.sched_rules.specs.Trees.{Tenant, is_busy_in, job_at};
ghost use Rattle.sched_rules.specs.Cores.{CoreState, shared_by_nobody, tenant_in};
ghost use Rattle.sched_rules.specs.Headline.{AreNumbersGiven, AreAnswersTo, IsAnswerTo, after_answer, after_answers};
ghost use Rattle.sched_rules.specs.Views.{named, job_of};
ghost use Rattle.sched_laws.specs.Shapes.{IsShaped, AreShaped};
ghost use Rattle.sched_laws.specs.Onward.{WaitsForChildren, EachWaitsForChildren, AreNumbersApart, IsNewestOfJob, SomebodyCan, CanGoOnAlone, CanGoOn, is_busy_anywhere, EachHasAnswer, IsNotStuck};

use sched_rules::Procedure;

/// If each frame that waits has a child, so it is after any step, whatever the answer, and after any list of steps.
/// With no tenant it is so.
pub fn a_frame_waits_only_for_children<P: Procedure>()
    ensures step { (procedure : P) (before : CoreState) (step : StepOf P.Answer) (answer : Result (DidOf P.Input) Refusal) →
        AreShaped before.tenants → EachWaitsForChildren before → EachWaitsForChildren (after_answer (P.functions procedure) before step answer) }
    ensures run { (procedure : P) (before : CoreState) (steps : List (StepOf P.Answer)) (answers : List (Result (DidOf P.Input) Refusal)) →
        AreShaped before.tenants → EachWaitsForChildren before → EachWaitsForChildren (after_answers (P.functions procedure) before steps answers) }
    ensures nobody { (totals : ReserveOf) → EachWaitsForChildren (shared_by_nobody totals) }
{}

/// If no two tenants have one number, none have after any step, whatever the answer, and after any list of steps. With no
/// tenant it is so.
#[tactic(auto, using(crate::proofs::NumbersApart::apart_answer, crate::proofs::NumbersApart::apart_answers))]
pub fn no_two_tenants_have_one_number<P: Procedure>()
    ensures step { (procedure : P) (before : CoreState) (step : StepOf P.Answer) (answer : Result (DidOf P.Input) Refusal) →
        AreNumbersApart before.tenants → AreNumbersApart (after_answer (P.functions procedure) before step answer).tenants }
    ensures run { (procedure : P) (before : CoreState) (steps : List (StepOf P.Answer)) (answers : List (Result (DidOf P.Input) Refusal)) →
        AreNumbersApart before.tenants → AreNumbersApart (after_answers (P.functions procedure) before steps answers).tenants }
    ensures nobody { (totals : ReserveOf) → AreNumbersApart (shared_by_nobody totals).tenants }
{}

/// The frame of the greatest serial of a job that lives is there, and doesn't wait.
pub fn the_newest_frame_of_a_job_does_not_wait()
    ensures { (tenant : Tenant) (number root : ℕ) → IsShaped tenant → WaitsForChildren tenant → job_at tenant.jobs number ≡ Some (Live root) →
        (frame : Frame (List ℕ)) × IsNewestOfJob tenant.frames root frame × (frame.state ≢ Waiting) }
{}

/// Each frame that doesn't wait can go on (`SomebodyCan`): by a step that is taken if its tenant has the core to itself
/// (`alone`), and among several tenants (`among`). One that is ready or has returned, by every worker that runs and
/// computes nothing; one that runs, by its worker; one that is computed, by its worker, where there is an answer to its
/// input that it can store.
pub fn a_frame_that_does_not_wait_can_go_on<P: Procedure>()
    ensures alone { (procedure : P) (tenant : Tenant) (name : FrameId) (frame : Frame (List ℕ)) → IsShaped tenant → frame_at tenant.frames name.serial ≡ Some frame →
        SomebodyCan (P.functions procedure) frame.value (λ worker. is_busy_in worker tenant.frames) (λ worker. CanGoOnAlone (P.functions procedure) tenant worker name) frame.state }
    ensures among { (procedure : P) (shared : CoreState) (name : FrameId) (frame : Frame (List ℕ)) → AreShaped shared.tenants → named shared name ≡ Some frame →
        SomebodyCan (P.functions procedure) frame.value (λ worker. is_busy_anywhere worker shared.tenants) (λ worker. CanGoOn (P.functions procedure) shared worker name) frame.state }
{}

/// While a job lives, a worker can go on with a frame of it: one of the 32 that is free, or the one that holds the
/// frame; or none of the 32 is free, and then each can go on with a frame that it holds.
pub fn no_live_job_is_stuck<P: Procedure>()
    ensures { (procedure : P) (shared : CoreState) (number job root : ℕ) → AreShaped shared.tenants → AreNumbersApart shared.tenants → EachWaitsForChildren shared →
        EachHasAnswer (P.functions procedure) shared → job_of shared number job ≡ Some (Live root) → IsNotStuck (P.functions procedure) shared number root }
{}
