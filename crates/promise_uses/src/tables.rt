//! A use of the law on tables: those of tenant 7's third job and of tenant 9's fifth in two runs.
ghost use Rattle.std.specs.Prelude.{◌≡◌, ℕ, List, Some, Result};
ghost use Rattle.tenant_quota.specs.Reserves.{ReserveOf};
ghost use Rattle.sched_rules.specs.declared.refusal.Refusal.{Refusal};
ghost use Rattle.sched_rules.specs.declared.step.StepOf.{StepOf};
ghost use Rattle.sched_rules.specs.declared.step.DidOf.{DidOf};
ghost use Rattle.sched_rules.specs.Runs.{only};
ghost use Rattle.sched_rules.specs.Cores.{CoreState, shared_by_nobody, tenant_in};
ghost use Rattle.sched_rules.specs.Headline.{AreAnswersTo, AreNumbersGiven, after_answers, taken_steps};
ghost use Rattle.sched_rules.specs.Views.{job_of};
ghost use Rattle.jamboree_core.specs.jamboree.declared.reply.Reply.{Reply};
ghost use Rattle.jamboree_core.specs.jamboree.Replies.{table_of};
ghost use Rattle.jamboree_rules.specs.declared.leaf.Leaf.{Leaf};
ghost use Rattle.jamboree_rules.specs.declared.leaf.LeafAnswer.{LeafAnswer};
ghost use Rattle.jamboree_rules.specs.Procedure.{jamboree};
ghost use Rattle.jamboree_core.specs.declared.outcomes.Outcome.{Outcome};
ghost use Rattle.jamboree_core.specs.declared.outcomes.Outcome.TheVariants.{Done};
ghost use Rattle.jamboree_core.specs.Outcomes.{IsOutcomeIn};

use jamboree_core::laws::a_table_is_of_its_tenants_own_steps;

/// Two lists of steps on two new cores, with whatever steps of other tenants in each, have the same taken steps of tenant 9: its fifth job is the
/// same after both. Two lists on two cores that run, where tenant 7 was the same, have the same taken steps of tenant 7: where its third job is
/// done after the first, it is done after the second, with the same table. So is tenant 9's fifth.
/// Uses `jamboree_core::a_table_is_of_its_tenants_own_steps` (`jobs`, `tables`).
pub fn tables_of_seven_and_nine()
    ensures job { (grain : ℕ) (totals other_totals : ReserveOf) (steps other_steps : List (StepOf LeafAnswer)) (answers other_answers : List (Result (DidOf Leaf) Refusal)) →
        AreAnswersTo (jamboree grain) (shared_by_nobody totals) steps answers → AreAnswersTo (jamboree grain) (shared_by_nobody other_totals) other_steps other_answers →
        only 9 (taken_steps steps answers) ≡ only 9 (taken_steps other_steps other_answers) →
        job_of (after_answers (jamboree grain) (shared_by_nobody totals) steps answers) 9 5 ≡ job_of (after_answers (jamboree grain) (shared_by_nobody other_totals) other_steps other_answers) 9 5 }
    ensures running { (grain : ℕ) (before other_before : CoreState) (steps other_steps : List (StepOf LeafAnswer)) (answers other_answers : List (Result (DidOf Leaf) Refusal)) →
        AreNumbersGiven before → AreNumbersGiven other_before → tenant_in before.tenants 7 ≡ tenant_in other_before.tenants 7 →
        AreAnswersTo (jamboree grain) before steps answers → AreAnswersTo (jamboree grain) other_before other_steps other_answers →
        only 7 (taken_steps steps answers) ≡ only 7 (taken_steps other_steps other_answers) →
        job_of (after_answers (jamboree grain) before steps answers) 7 3 ≡ job_of (after_answers (jamboree grain) other_before other_steps other_answers) 7 3 }
    ensures seven { (grain : ℕ) (before other_before : CoreState) (steps other_steps : List (StepOf LeafAnswer)) (answers other_answers : List (Result (DidOf Leaf) Refusal)) (first : Reply) (outcome : Outcome) →
        AreNumbersGiven before → AreNumbersGiven other_before → tenant_in before.tenants 7 ≡ tenant_in other_before.tenants 7 →
        AreAnswersTo (jamboree grain) before steps answers → AreAnswersTo (jamboree grain) other_before other_steps other_answers →
        only 7 (taken_steps steps answers) ≡ only 7 (taken_steps other_steps other_answers) →
        IsOutcomeIn (job_of (after_answers (jamboree grain) before steps answers) 7 3) (Some (Done first)) →
        IsOutcomeIn (job_of (after_answers (jamboree grain) other_before other_steps other_answers) 7 3) (Some outcome) →
        (second : Reply) × (outcome ≡ Done second) × (table_of second ≡ table_of first) }
    ensures nine { (grain : ℕ) (totals other_totals : ReserveOf) (steps other_steps : List (StepOf LeafAnswer)) (answers other_answers : List (Result (DidOf Leaf) Refusal)) (first second : Reply) →
        AreAnswersTo (jamboree grain) (shared_by_nobody totals) steps answers → AreAnswersTo (jamboree grain) (shared_by_nobody other_totals) other_steps other_answers →
        only 9 (taken_steps steps answers) ≡ only 9 (taken_steps other_steps other_answers) →
        IsOutcomeIn (job_of (after_answers (jamboree grain) (shared_by_nobody totals) steps answers) 9 5) (Some (Done first)) →
        IsOutcomeIn (job_of (after_answers (jamboree grain) (shared_by_nobody other_totals) other_steps other_answers) 9 5) (Some (Done second)) →
        table_of second ≡ table_of first }
{
    a_table_is_of_its_tenants_own_steps();
}
