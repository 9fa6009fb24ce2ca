//! Laws on a core's lists of steps in parts, the numbers of jobs, and the newest ready frame.
ghost use Rattle.std.specs.Prelude.{◌≡◌, ℕ, ◌+◌, List, ◌++◌, Option, Some, None, Result, Ok, length, false};
ghost use Rattle.tenant_quota.specs.Reserves.{ReserveOf};
ghost use Rattle.frame_table.specs.declared.names.FrameId.{FrameId};
ghost use Rattle.frame_table.specs.Frames.{Frame, frame_at, is_ready, newest_ready_of};
ghost use Rattle.sched_rules.specs.declared.refusal.Refusal.{Refusal};
ghost use Rattle.sched_rules.specs.declared.step.StepOf.{StepOf};
ghost use Rattle.sched_rules.specs.declared.step.StepOf.TheVariants.{Submit};
ghost use Rattle.sched_rules.specs.declared.step.DidOf.{DidOf};
ghost use Rattle.sched_rules.specs.declared.step.DidOf.TheVariants.{Submitted};
ghost use Rattle.sched_rules.specs.Trees.{Tenant};
ghost use Rattle.sched_rules.specs.Lone.{Outcome, lone_step};
ghost use Rattle.sched_rules.specs.Runs.{only, alone_from, answers_from};
ghost use Rattle.sched_rules.specs.Cores.{CoreState, shared_by_nobody, tenant_in};
ghost use Rattle.sched_rules.specs.Headline.{IsAnswerTo, AreAnswersTo, after_answers, taken_steps};
ghost use Rattle.sched_laws.specs.Shapes.{IsShaped};
ghost use Rattle.sched_laws.specs.Ended.{KeepsEnded};
ghost use Rattle.sched_laws.specs.Fitted.{origins_of};
ghost use Rattle.sched_laws.specs.Newest.{IsNewestReady};

use sched_rules::Procedure;

/// A list of steps may be cut in two: a tenant alone comes to the same state with the same answers by the first
/// part and then the second, and its own steps of the list are those of the first part, then those of the
/// second.
#[tactic(auto, using(crate::proofs::FitAnswers::in_parts))]
pub fn steps_in_parts<P: Procedure>()
    ensures state { (procedure : P) (before : Option Tenant) (steps more : List (StepOf P.Answer)) →
        alone_from (P.functions procedure) before (steps ++ more) ≡ alone_from (P.functions procedure) (alone_from (P.functions procedure) before steps) more }
    ensures answers { (procedure : P) (before : Option Tenant) (steps more : List (StepOf P.Answer)) →
        answers_from (P.functions procedure) before (steps ++ more) ≡ answers_from (P.functions procedure) before steps ++ answers_from (P.functions procedure) (alone_from (P.functions procedure) before steps) more }
    ensures own { (number : ℕ) (steps more : List (StepOf P.Answer)) → only number (steps ++ more) ≡ only number steps ++ only number more }
{}

/// Job k of a tenant is that of its k-th taken Submit: a tenant has as many jobs as taken Submits, and a taken
/// Submit is answered with the next number, one more than the tenant had jobs.
#[tactic(auto, using(crate::proofs::FitAnswers::jobs_counted, crate::proofs::FitAnswers::submit_numbered))]
pub fn jobs_are_numbered_by_their_submits<P: Procedure>()
    ensures count { (procedure : P) (totals : ReserveOf) (steps : List (StepOf P.Answer)) (answers : List (Result (DidOf P.Input) Refusal)) (number : ℕ) (tenant : Tenant) →
        AreAnswersTo (P.functions procedure) (shared_by_nobody totals) steps answers →
        tenant_in (after_answers (P.functions procedure) (shared_by_nobody totals) steps answers).tenants number ≡ Some tenant →
        length tenant.jobs ≡ length (origins_of (only number (taken_steps steps answers))) }
    ensures number { (procedure : P) (before : CoreState) (number : ℕ) (words : List ℕ) (size : ℕ) (did : DidOf P.Input) (tenant : Tenant) →
        IsAnswerTo (P.functions procedure) before (Submit number words size) (Ok did) → tenant_in before.tenants number ≡ Some tenant →
        did ≡ Submitted (length tenant.jobs + 1) (record { tenant = number; serial = tenant.serials + 1 }) }
{}

/// The frame that `newest_ready_of` names is a ready one of the greatest serial; it names none exactly
/// where none is ready.
pub fn the_newest_ready_frame_has_the_greatest_serial()
    ensures found { (tenant : Tenant) (number : ℕ) (name : FrameId) (home : ℕ) → IsShaped tenant → newest_ready_of number tenant.frames ≡ Some (name, home) → IsNewestReady number tenant.frames name home }
    ensures none { (tenant : Tenant) (number s : ℕ) (frame : Frame (List ℕ)) → IsShaped tenant → newest_ready_of number tenant.frames ≡ None → frame_at tenant.frames s ≡ Some frame → is_ready frame.state ≡ false }
{}

/// After any taken step of a tenant but Leave, each job that had ended is as it was, under its number.
#[tactic(auto, using(crate::proofs::Consequences::ended_stay))]
pub fn ended_jobs_stay<P: Procedure>()
    ensures { (procedure : P) (tenant : Tenant) (step : StepOf P.Answer) (outcome : Outcome P.Input) →
        lone_step (P.functions procedure) tenant step ≡ Ok outcome → KeepsEnded tenant.jobs outcome.0 }
{}
