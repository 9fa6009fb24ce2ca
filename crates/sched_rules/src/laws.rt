//! What follows from the definitions of a core's steps: laws.
ghost use Rattle.std.specs.Prelude.{◌≡◌, ◌↔◌, ℕ, List, Some, None, Result, IsTrue};
ghost use Rattle.sched_rules.specs.declared.refusal.Refusal.{Refusal};
ghost use Rattle.sched_rules.specs.declared.step.StepOf.{StepOf};
ghost use Rattle.sched_rules.specs.declared.step.DidOf.{DidOf};
ghost use Rattle.sched_rules.specs.Cores.{CoreState, step_result, is_full, is_beyond};
ghost use Rattle.sched_rules.specs.Runs.{answer_of};
ghost use Rattle.tenant_quota.specs.Reserves.{ReserveOf, IsNotAbove};
ghost use Rattle.tenant_quota.specs.Reservations.{Reservations, IsFull, IsBeyond};
ghost use Rattle.sched_rules.specs.Headline.{AreAnswersTo, IsHeadline, IsAnswerTo, AreNumbersGiven, after_answers};
ghost use Rattle.frame_table.specs.declared.names.FrameId.{FrameId};
ghost use Rattle.frame_table.specs.Frames.{Frame, frame_at};
ghost use Rattle.sched_rules.specs.declared.step.StepOf.TheVariants.{Spend};
ghost use Rattle.sched_rules.specs.Trees.{Tenant};
ghost use Rattle.sched_rules.specs.Lone.{IsSpendable, is_lower, lone_refusal};

use crate::procedure::Procedure;

/// Where each answer to a list of steps is right (`AreAnswersTo`), the headline holds of the list: each tenant
/// is what its own taken steps make of it, as if no other tenant were there.
pub fn no_tenant_is_disturbed<P: Procedure>()
    ensures { (procedure : P) (before : CoreState) (steps : List (StepOf P.Answer)) (answers : List (Result (DidOf P.Input) Refusal)) →
        AreNumbersGiven before → AreAnswersTo (P.functions procedure) before steps answers →
        IsHeadline (P.functions procedure) before steps answers (after_answers (P.functions procedure) before steps answers) }
{}

/// At any core each step has a right answer: that of `step_result`.
pub fn each_step_has_a_right_answer<P: Procedure>()
    ensures { (procedure : P) (before : CoreState) (step : StepOf P.Answer) →
        IsAnswerTo (P.functions procedure) before step (answer_of (step_result (P.functions procedure) before step)) }
{}

/// An admission is refused as full (`is_full`) by the same test as in the book of reservations (`IsFull` of
/// `tenant_quota`).
pub fn fullness_is_the_book_s()
    ensures { (book : Reservations) (quota : ReserveOf) → IsTrue (is_full book quota) ↔ IsFull book quota }
{}

/// `is_lower` and `is_beyond`, by which a raise of a reservation is refused, are the same tests as `IsNotAbove`
/// and `IsBeyond` of `tenant_quota`.
pub fn more_is_tested_as_by_the_book()
    ensures lower { (now quota : ReserveOf) → IsTrue (is_lower now quota) ↔ IsNotAbove now quota }
    ensures beyond { (book : Reservations) (now quota : ReserveOf) → IsTrue (is_beyond book now quota) ↔ IsBeyond book now quota }
{}

/// A Spend of a frame that is there is taken exactly where the frame is spendable (`IsSpendable`).
pub fn spent_exactly_where_spendable<P: Procedure>()
    ensures { (procedure : P) (tenant : Tenant) (name : FrameId) (frame : Frame (List ℕ)) → frame_at tenant.frames name.serial ≡ Some frame →
        ((lone_refusal (P.functions procedure) (Some tenant) (Spend name) ≡ None) ↔ IsSpendable (P.functions procedure) tenant frame) }
{}
