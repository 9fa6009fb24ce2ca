//! Instances of what the laws on several jobs and on tables presume, as those of `premises.rt`: tenant 9 asks for two searches at once; a tenant
//! with a job that is done.
ghost use Rattle.std.specs.Prelude.{◌≡◌, ℕ, List, [], None, Some, Option, Result};
ghost use Rattle.tenant_quota.specs.Reserves.{ReserveOf};
ghost use Rattle.frame_table.specs.Frames.{Frame, frame_at};
ghost use Rattle.sched_rules.specs.declared.refusal.Refusal.{Refusal};
ghost use Rattle.sched_rules.specs.declared.step.StepOf.{StepOf};
ghost use Rattle.sched_rules.specs.declared.step.StepOf.TheVariants.{Spend};
ghost use Rattle.sched_rules.specs.declared.step.DidOf.{DidOf};
ghost use Rattle.sched_rules.specs.Runs.{only};
ghost use Rattle.sched_rules.specs.Trees.{Tenant};
ghost use Rattle.sched_rules.specs.Cores.{CoreState, shared_by_nobody, tenant_in};
ghost use Rattle.sched_rules.specs.Headline.{AreAnswersTo, AreNumbersGiven, IsAnswerTo, after_answers, taken_steps};
ghost use Rattle.sched_rules.specs.Views.{job_of};
ghost use Rattle.sched_laws.specs.Fitted.{origins_of};
ghost use Rattle.jamboree_core.specs.jamboree.declared.reply.Reply.{Reply};
ghost use Rattle.jamboree_core.specs.declared.outcomes.Outcome.{Outcome};
ghost use Rattle.jamboree_core.specs.declared.outcomes.Outcome.TheVariants.{Done};
ghost use Rattle.jamboree_core.specs.Outcomes.{IsOutcomeIn};
ghost use Rattle.jamboree_rules.specs.declared.leaf.Leaf.{Leaf};
ghost use Rattle.jamboree_rules.specs.declared.leaf.LeafAnswer.{LeafAnswer};
ghost use Rattle.jamboree_rules.specs.Procedure.{jamboree};
ghost use Rattle.jamboree_core.specs.Journals.{IsJournalOf};
ghost use Rattle.jamboree_core.specs.Needs.{Cost, IsEnough};
ghost use Rattle.jamboree_core.specs.Replies.{AreSearches};
ghost use Rattle.jamboree_core.specs.Sizes.{Size, IsRoomy};
ghost use Rattle.jamboree_core.specs.Sums.{EachFindsRoom, EachFindsSums, HasSums};

use jamboree_core::reserves::{positions_suffice, who_asks_with_enough_is_never_spent};

/// Of the law on sums: tenant 9 asks for two searches, one right after the other.
pub fn with_several_jobs()
    ensures sums { (grain : ℕ) × (journal : List (StepOf LeafAnswer)) × (tenant : Tenant) × (serial : ℕ) × (frame : Frame (List ℕ))
        × IsJournalOf (jamboree grain) journal tenant × AreSearches journal × HasSums grain (origins_of journal) tenant × (frame_at tenant.frames serial ≡ Some frame) }
    ensures beside { (grain : ℕ) × (totals : ReserveOf) × (steps : List (StepOf LeafAnswer)) × (answers : List (Result (DidOf Leaf) Refusal)) × (number : ℕ) × (serial : ℕ) × (tenant : Tenant)
        × (frame : Frame (List ℕ)) × (answer : Result (DidOf Leaf) Refusal)
        × AreAnswersTo (jamboree grain) (shared_by_nobody totals) steps answers × AreSearches (only number (taken_steps steps answers))
        × (tenant_in (after_answers (jamboree grain) (shared_by_nobody totals) steps answers).tenants number ≡ Some tenant)
        × HasSums grain (origins_of (only number (taken_steps steps answers))) tenant × (frame_at tenant.frames serial ≡ Some frame)
        × IsAnswerTo (jamboree grain) (after_answers (jamboree grain) (shared_by_nobody totals) steps answers) (Spend (record { tenant = number; serial = serial })) answer }
    ensures asks { (grain : ℕ) × (journal : List (StepOf LeafAnswer)) × (tenant : Tenant) × (serial : ℕ) × (frame : Frame (List ℕ))
        × IsJournalOf (jamboree grain) journal tenant × AreSearches journal × EachFindsSums grain [] None journal × (frame_at tenant.frames serial ≡ Some frame) }
    ensures rooms { (grain : ℕ) × (cost : Cost) × (size : Size) × (journal : List (StepOf LeafAnswer)) × (tenant : Tenant) × (serial : ℕ) × (frame : Frame (List ℕ))
        × IsEnough grain cost × IsRoomy grain size × IsJournalOf (jamboree grain) journal tenant × AreSearches journal × EachFindsRoom grain cost size None journal
        × (frame_at tenant.frames serial ≡ Some frame) }
{
    positions_suffice();
    who_asks_with_enough_is_never_spent();
}

/// Of the law on tables: two cores with tenant 9, whose first job, a search of no disc to depth 0, is done.
pub fn in_two_runs()
    ensures jobs { (grain : ℕ) × (before : CoreState) × (other_before : CoreState) × (steps : List (StepOf LeafAnswer)) × (other_steps : List (StepOf LeafAnswer))
        × (answers : List (Result (DidOf Leaf) Refusal)) × (other_answers : List (Result (DidOf Leaf) Refusal)) × (number : ℕ)
        × AreNumbersGiven before × AreNumbersGiven other_before × (tenant_in before.tenants number ≡ tenant_in other_before.tenants number)
        × AreAnswersTo (jamboree grain) before steps answers × AreAnswersTo (jamboree grain) other_before other_steps other_answers
        × (only number (taken_steps steps answers) ≡ only number (taken_steps other_steps other_answers)) }
    ensures tables { (grain : ℕ) × (before : CoreState) × (other_before : CoreState) × (steps : List (StepOf LeafAnswer)) × (other_steps : List (StepOf LeafAnswer))
        × (answers : List (Result (DidOf Leaf) Refusal)) × (other_answers : List (Result (DidOf Leaf) Refusal)) × (number : ℕ) × (job : ℕ) × (first : Reply) × (told : Option Outcome)
        × AreNumbersGiven before × AreNumbersGiven other_before × (tenant_in before.tenants number ≡ tenant_in other_before.tenants number)
        × AreAnswersTo (jamboree grain) before steps answers × AreAnswersTo (jamboree grain) other_before other_steps other_answers
        × (only number (taken_steps steps answers) ≡ only number (taken_steps other_steps other_answers))
        × IsOutcomeIn (job_of (after_answers (jamboree grain) before steps answers) number job) (Some (Done first))
        × IsOutcomeIn (job_of (after_answers (jamboree grain) other_before other_steps other_answers) number job) told }
{}
