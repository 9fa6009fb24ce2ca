//! A use of the law of isolation, at a core that already runs, where tenant 7 is there.
ghost use Rattle.std.specs.Prelude.{◌≡◌, List, Some, Result};
ghost use Rattle.sched_rules.specs.declared.refusal.Refusal.{Refusal};
ghost use Rattle.sched_rules.specs.declared.step.StepOf.{StepOf};
ghost use Rattle.sched_rules.specs.declared.step.DidOf.{DidOf};
ghost use Rattle.sched_rules.specs.Trees.{Tenant};
ghost use Rattle.sched_rules.specs.Runs.{alone_from, answers_from, only};
ghost use Rattle.sched_rules.specs.Cores.{CoreState, tenant_in};
ghost use Rattle.sched_rules.specs.Headline.{AreAnswersTo, AreNumbersGiven, after_answers, taken_steps, own_answers};

use sched_rules::Procedure;
use sched_rules::laws::no_tenant_is_disturbed;

/// Tenant 7, which is there before a list of steps whose answers are right, is after the list what its own taken
/// steps make of it alone, and was told what they give.
pub fn seven_in_a_running_core<P: Procedure>()
    ensures { (procedure : P) (before : CoreState) (steps : List (StepOf P.Answer)) (answers : List (Result (DidOf P.Input) Refusal)) (tenant : Tenant) →
        tenant_in before.tenants 7 ≡ Some tenant → AreNumbersGiven before → AreAnswersTo (P.functions procedure) before steps answers →
        (tenant_in (after_answers (P.functions procedure) before steps answers).tenants 7 ≡ alone_from (P.functions procedure) (Some tenant) (only 7 (taken_steps steps answers)))
        × (own_answers 7 steps answers ≡ answers_from (P.functions procedure) (Some tenant) (only 7 (taken_steps steps answers))) }
{
    no_tenant_is_disturbed::<P>();
}
