//! What every list of searches on a core comes to, and what cores and tenants of searches keep and hold.
ghost use Rattle.std.specs.Prelude.{◌≡◌, ◌≢◌, ℕ, ◌<◌, List, [], ◌∷◌, ◌++◌, Option, Some, None, Result, Ok, Err};
ghost use Rattle.tenant_quota.specs.Reserves.{ReserveOf};
ghost use Rattle.sched_rules.specs.declared.refusal.Refusal.{Refusal};
ghost use Rattle.sched_rules.specs.declared.step.StepOf.{StepOf};
ghost use Rattle.sched_rules.specs.declared.step.StepOf.TheVariants.{Admit};
ghost use Rattle.sched_rules.specs.declared.step.DidOf.{DidOf};
ghost use Rattle.sched_rules.specs.Trees.{Tenant, admitted_with};
ghost use Rattle.sched_rules.specs.Views.{job_of};
ghost use Rattle.sched_rules.specs.Runs.{tenant_of, only};
ghost use Rattle.sched_rules.specs.Cores.{CoreState, shared_by_nobody, tenant_in};
ghost use Rattle.sched_rules.specs.Headline.{IsOneStep, AreNumbersGiven, IsAnswerTo, AreAnswersTo, after_answers, taken_steps};
ghost use Rattle.sched_laws.specs.Fitted.{origins_of, CoreFits, submits};
ghost use Rattle.jamboree_rules.specs.declared.leaf.Leaf.{Leaf};
ghost use Rattle.jamboree_rules.specs.declared.leaf.LeafAnswer.{LeafAnswer};
ghost use Rattle.jamboree_rules.specs.Procedure.{jamboree};
ghost use Rattle.jamboree_core.specs.Replies.{AreSearches, AreReplies, AreAllSound};
ghost use Rattle.jamboree_core.specs.Searching.{TenantSearches, ServesSearches, CoreSearches, HoldsReplies};
ghost use Rattle.jamboree.specs.declared.reply.Reply.{Reply};
ghost use Rattle.jamboree.specs.Replies.{table_of};
ghost use Rattle.jamboree_core.specs.declared.outcomes.Outcome.{Outcome};
ghost use Rattle.jamboree_core.specs.declared.outcomes.Outcome.TheVariants.{Done};
ghost use Rattle.jamboree_core.specs.Outcomes.{IsOutcomeIn};
ghost use Rattle.jamboree_core.specs.Journals.{IsJournalOf};
ghost use Rattle.sched_rules.specs.declared.refusal.Refusal.TheVariants.{BadAct};
ghost use Rattle.sched_laws.specs.Shapes.{AreShaped};
ghost use Rattle.jamboree_rules.specs.Fits.{AreFitting, IsRoot};

/// After any list of steps on a new core, by any workers for any tenants, where each taken Submit asks for a
/// search: each job of a tenant that is done holds the minimax value, the best choice and a table of the board to
/// the depth that its Submit carried. The k-th job is that of the tenant's k-th taken Submit.
pub fn every_completed_reply_is_the_minimax_value()
    ensures { (grain : ℕ) (totals : ReserveOf) (steps : List (StepOf LeafAnswer)) (answers : List (Result (DidOf Leaf) Refusal)) (number : ℕ) (tenant : Tenant) →
        AreAnswersTo (jamboree grain) (shared_by_nobody totals) steps answers → AreSearches (taken_steps steps answers) →
        tenant_in (after_answers (jamboree grain) (shared_by_nobody totals) steps answers).tenants number ≡ Some tenant →
        AreReplies (origins_of (only number (taken_steps steps answers))) tenant.jobs }
{}

/// After any list of steps on a new core, by any workers for any tenants, where each taken Submit asks for a
/// search: every frame of every tenant is sound (`IsSound`).
pub fn every_frame_is_sound()
    ensures { (grain : ℕ) (totals : ReserveOf) (steps : List (StepOf LeafAnswer)) (answers : List (Result (DidOf Leaf) Refusal)) (number : ℕ) (tenant : Tenant) →
        AreAnswersTo (jamboree grain) (shared_by_nobody totals) steps answers → AreSearches (taken_steps steps answers) →
        tenant_in (after_answers (jamboree grain) (shared_by_nobody totals) steps answers).tenants number ≡ Some tenant →
        AreAllSound tenant.frames tenant.frames }
{}

/// On a core whose jobs are searches, only a step that submits a job can be refused with BadAct.
pub fn bad_acts_come_of_submits_alone()
    ensures { (grain : ℕ) (origins : ℕ → List (List ℕ)) (before : CoreState) (step : StepOf LeafAnswer) (answer : Result (DidOf Leaf) Refusal) →
        AreShaped before.tenants → CoreFits AreFitting IsRoot origins before → submits step ≡ [] →
        IsAnswerTo (jamboree grain) before step answer → answer ≢ Err BadAct }
{}

/// A new core counts as one whose jobs are searches, as it has none.
pub fn a_new_core_has_no_searches()
    ensures { (totals : ReserveOf) → CoreSearches (λ number. []) (shared_by_nobody totals) }
{}

/// Where a tenant's jobs are searches, each that is done holds the minimax value and the best choice
/// of what it was submitted with, in order, and every frame is sound.
pub fn what_a_tenant_of_searches_holds()
    ensures replies { (origins : List (List ℕ)) (tenant : Tenant) → TenantSearches origins tenant → AreReplies origins tenant.jobs }
    ensures sound { (origins : List (List ℕ)) (tenant : Tenant) → TenantSearches origins tenant → AreAllSound tenant.frames tenant.frames }
{}

/// A core's jobs are searches where those of each of its tenants are, and no words are noted under the number of
/// a tenant that isn't there (`whole`); and then those of each tenant are (`tenant`, `serves`). Each of its jobs
/// that is done holds the minimax value and the best choice of what it was submitted with, and every frame is
/// sound (`replies`).
pub fn what_a_core_of_searches_holds()
    ensures replies { (origins : ℕ → List (List ℕ)) (shared : CoreState) → CoreSearches origins shared → HoldsReplies origins shared }
    ensures tenant { (origins : ℕ → List (List ℕ)) (shared : CoreState) (number : ℕ) (tenant : Tenant) →
        CoreSearches origins shared → tenant_in shared.tenants number ≡ Some tenant → TenantSearches (origins number) tenant }
    ensures serves { (origins : ℕ → List (List ℕ)) (shared : CoreState) (number : ℕ) → CoreSearches origins shared → ServesSearches (tenant_in shared.tenants number) }
    ensures whole { (origins : ℕ → List (List ℕ)) (shared : CoreState) →
        ((number : ℕ) (tenant : Tenant) → tenant_in shared.tenants number ≡ Some tenant → TenantSearches (origins number) tenant) →
        ((number : ℕ) → tenant_in shared.tenants number ≡ None → origins number ≡ []) → AreNumbersGiven shared → CoreSearches origins shared }
{}

/// Where each Submit in a tenant's journal asks for a search, the tenant's jobs are searches, the k-th that of
/// the k-th Submit (`searches`); each that is done holds the minimax value, the best choice and a table of what
/// its Submit asked for (`replies`).
pub fn a_journal_of_searches()
    ensures searches { (grain : ℕ) (journal : List (StepOf LeafAnswer)) (tenant : Tenant) →
        IsJournalOf (jamboree grain) journal tenant → AreSearches journal → TenantSearches (origins_of journal) tenant }
    ensures replies { (grain : ℕ) (journal : List (StepOf LeafAnswer)) (tenant : Tenant) →
        IsJournalOf (jamboree grain) journal tenant → AreSearches journal → AreReplies (origins_of journal) tenant.jobs }
{}

/// Two runs of cores, by any workers for any tenants, with whatever steps of others: a tenant that was the same in both
/// before, as one that wasn't there, and whose own taken steps are the same in both, has the same jobs after both; and
/// where a job's outcome after the first is a reply, it is one after the second, with the same table.
pub fn a_table_is_of_its_tenants_own_steps()
    ensures jobs { (grain : ℕ) (before other_before : CoreState) (steps other_steps : List (StepOf LeafAnswer)) (answers other_answers : List (Result (DidOf Leaf) Refusal)) (number job : ℕ) →
        AreNumbersGiven before → AreNumbersGiven other_before → tenant_in before.tenants number ≡ tenant_in other_before.tenants number →
        AreAnswersTo (jamboree grain) before steps answers → AreAnswersTo (jamboree grain) other_before other_steps other_answers →
        only number (taken_steps steps answers) ≡ only number (taken_steps other_steps other_answers) →
        job_of (after_answers (jamboree grain) before steps answers) number job ≡ job_of (after_answers (jamboree grain) other_before other_steps other_answers) number job }
    ensures tables { (grain : ℕ) (before other_before : CoreState) (steps other_steps : List (StepOf LeafAnswer)) (answers other_answers : List (Result (DidOf Leaf) Refusal)) (number job : ℕ) (first : Reply) (told : Option Outcome) →
        AreNumbersGiven before → AreNumbersGiven other_before → tenant_in before.tenants number ≡ tenant_in other_before.tenants number →
        AreAnswersTo (jamboree grain) before steps answers → AreAnswersTo (jamboree grain) other_before other_steps other_answers →
        only number (taken_steps steps answers) ≡ only number (taken_steps other_steps other_answers) →
        IsOutcomeIn (job_of (after_answers (jamboree grain) before steps answers) number job) (Some (Done first)) →
        IsOutcomeIn (job_of (after_answers (jamboree grain) other_before other_steps other_answers) number job) told →
        (second : Reply) × (told ≡ Some (Done second)) × (table_of second ≡ table_of first) }
{}

/// How the steps of a core lengthen journals: a taken Admit begins its tenant's (`begins`); a taken step after
/// which its tenant is still there is added to its tenant's (`goes_on`); and no step, taken or refused, changes
/// another tenant (`others`).
pub fn how_journals_grow()
    ensures begins { (grain : ℕ) (before : CoreState) (number : ℕ) (quota : ReserveOf) (did : DidOf Leaf) (after : CoreState) →
        AreNumbersGiven before → IsOneStep {A = LeafAnswer} (jamboree grain) before (Admit number quota) (Ok did) after →
        (tenant_in after.tenants number ≡ Some (admitted_with quota)) × IsJournalOf {A = LeafAnswer} (jamboree grain) (Admit number quota ∷ []) (admitted_with quota) }
    ensures goes_on { (grain : ℕ) (before : CoreState) (step : StepOf LeafAnswer) (did : DidOf Leaf) (after : CoreState) (journal : List (StepOf LeafAnswer)) (tenant next : Tenant) →
        AreNumbersGiven before → IsOneStep (jamboree grain) before step (Ok did) after →
        tenant_in before.tenants (tenant_of step) ≡ Some tenant → tenant_in after.tenants (tenant_of step) ≡ Some next →
        IsJournalOf (jamboree grain) journal tenant → IsJournalOf (jamboree grain) (journal ++ step ∷ []) next }
    ensures others { (grain : ℕ) (before : CoreState) (step : StepOf LeafAnswer) (answer : Result (DidOf Leaf) Refusal) (after : CoreState) (number : ℕ) →
        AreNumbersGiven before → IsOneStep (jamboree grain) before step answer after → tenant_of step ≢ number → tenant_in after.tenants number ≡ tenant_in before.tenants number }
{}
