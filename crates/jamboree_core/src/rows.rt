//! What a search is asked and what it answers, journals and outcomes in small cases, on the opening searched to depth
//! 1: Black is worth -3, by d3. Each contract is computed from the definitions alone, but for the law that it stands
//! on. A root's words are the two words of its board, the depth, the window's ends (each plus 1,000,000: 800000 and
//! 1200000 are the full window), and zeros; `kept` has the depth, the value (plus 1,000,000) and the choice's code.
ghost use Rattle.std.specs.Prelude.{◌≡◌, ℕ, [], ◌∷◌, Some, None, slice_index};
ghost use Rattle.sched_rules.specs.declared.job.Job.TheVariants.{Live, Done, Spent as SpentJob, Cancelled as CancelledJob};
ghost use Rattle.sched_rules.specs.declared.step.StepOf.TheVariants.{Admit, Leave, Submit};
ghost use Rattle.sched_rules.specs.Trees.{Tenant, admitted_with};
ghost use Rattle.jamboree_rules.specs.Procedure.{jamboree};
ghost use Rattle.jamboree_rules.specs.Rows.{entry};
ghost use Rattle.jamboree_core.specs.Rows.{asked, few, admitted_then, submit_of, asked_once, asked_with, kept_with, kept};
ghost use Rattle.jamboree_core.specs.declared.outcomes.Outcome.TheVariants.{Pending, Spent};
ghost use Rattle.jamboree_core.specs.Searching.{TenantSearches, origin_at};
ghost use Rattle.jamboree_core.specs.Journals.{IsJournalOf};
ghost use Rattle.jamboree_core.specs.Outcomes.{IsOutcomeOf, AnswersTo};
ghost use Rattle.jamboree_core.specs.Replies.{AreRootWords, IsSearch, IsReplyTo, AreReplies};
ghost use Rattle.jamboree_core.specs.Sums.{asked_nodes, asked_segments, nodes_of_all, sum_of_live, segments_of_live, HasSums, FindsSums};

/// The words of a search: a board of no shared bit, to a depth of at most 12, with the full window;
/// its root has 12 words.
pub fn what_a_search_is_asked()
    ensures opening { AreRootWords (34628173824 ∷ 68853694464 ∷ 1 ∷ 800000 ∷ 1200000 ∷ 0 ∷ 0 ∷ 0 ∷ []) }
    ensures shared { AreRootWords (3 ∷ 2 ∷ 1 ∷ 800000 ∷ 1200000 ∷ 0 ∷ 0 ∷ 0 ∷ []) → ⊥ }
    ensures deeper { AreRootWords (1 ∷ 2 ∷ 13 ∷ 800000 ∷ 1200000 ∷ 0 ∷ 0 ∷ 0 ∷ []) → ⊥ }
    ensures narrower { AreRootWords (1 ∷ 2 ∷ 1 ∷ 800001 ∷ 1200000 ∷ 0 ∷ 0 ∷ 0 ∷ []) → ⊥ }
    ensures size { IsSearch {A = ℕ} (Submit 1 asked 13) → ⊥ }
    ensures others { IsSearch {A = ℕ} (Leave 1) }
{}

/// What answers it: the same board to the same depth, with -3 in word 8, d3 in word 9, and a table in
/// which d3 is exact (not only at least -3, kind 2) and each entry is true (d3 isn't at most -4).
pub fn what_a_search_answers()
    ensures opening { IsReplyTo asked (kept 1 999997 19) }
    ensures better { IsReplyTo asked (kept 1 999998 19) → ⊥ }
    ensures later_equal_move { IsReplyTo asked (kept 1 999997 26) → ⊥ }
    ensures depth { IsReplyTo asked (kept 0 999997 19) → ⊥ }
    ensures vague { IsReplyTo asked (kept_with (entry 2 2 999997) 1 999997 19) → ⊥ }
    ensures untrue { IsReplyTo asked (kept_with (entry 2 1 999996) 1 999997 19) → ⊥ }
{}

/// There are as many jobs as Submits, in their order, and each job that is done has the reply to its own Submit.
pub fn what_jobs_answer()
    ensures in_order { AreReplies (asked ∷ (1 ∷ 2 ∷ 3 ∷ []) ∷ asked ∷ (4 ∷ []) ∷ []) (Done (kept 1 999997 19) ∷ Live 7 ∷ SpentJob ∷ CancelledJob ∷ []) }
    ensures another { AreReplies ((1 ∷ 2 ∷ 3 ∷ []) ∷ asked ∷ []) (Done (kept 1 999997 19) ∷ Live 7 ∷ []) → ⊥ }
    ensures fewer { AreReplies (asked ∷ []) [] → ⊥ }
    ensures more { AreReplies [] (SpentJob ∷ []) → ⊥ }
{}

/// What is a journal, and what isn't: a list with a refused step (a root of no word), one without an
/// admission, and one over a Leave.
pub fn journals()
    ensures admitted { IsJournalOf (jamboree 0) (admitted_then []) (admitted_with few) }
    ensures submitted { IsJournalOf (jamboree 0) (admitted_then (submit_of 12 ∷ [])) asked_once }
    ensures refused { (tenant : Tenant) → IsJournalOf (jamboree 0) (admitted_then (submit_of 0 ∷ [])) tenant → ⊥ }
    ensures not_admitted { (tenant : Tenant) → IsJournalOf (jamboree 0) (submit_of 12 ∷ []) tenant → ⊥ }
    ensures left { (tenant : Tenant) → IsJournalOf (jamboree 0) (admitted_then (Leave 1 ∷ Admit 1 few ∷ [])) tenant → ⊥ }
{}

/// Whose jobs are searches: a new tenant's, and one's that asked for the opening; not with words of
/// no job, nor without those of one.
pub fn searches()
    ensures admitted { TenantSearches [] (admitted_with few) }
    ensures asked { TenantSearches (asked ∷ []) asked_once }
    ensures more { TenantSearches (asked ∷ asked ∷ []) asked_once → ⊥ }
    ensures fewer { TenantSearches [] asked_once → ⊥ }
{}

/// Of two jobs the words of 1 and of 2 are found, and there is no job 0 or 3; and which outcomes answer a job's words.
pub fn outcomes_in_small()
    ensures first { origin_at (asked ∷ (7 ∷ []) ∷ []) 1 ≡ Some asked }
    ensures second { origin_at (asked ∷ (7 ∷ []) ∷ []) 2 ≡ Some (7 ∷ []) }
    ensures zeroth { origin_at (asked ∷ (7 ∷ []) ∷ []) 0 ≡ None }
    ensures third { origin_at (asked ∷ (7 ∷ []) ∷ []) 3 ≡ None }
    ensures pending { AnswersTo (Some asked) (Some Pending) }
    ensures forgotten { AnswersTo (Some asked) None → ⊥ }
    ensures unasked { AnswersTo None (Some Pending) → ⊥ }
    ensures spent { IsOutcomeOf SpentJob Spent }
    ensures live { IsOutcomeOf (Live 1) Spent → ⊥ }
{}

/// What suffices for the opening to depth 1 is 33 nodes and 19 segments; for four such searches, of which the first and the last live, 132
/// nodes and 38 segments; and the sum over the jobs that live is of their own words (`own`). Who asked for one, and reserved so much, has
/// enough; not with one node or one segment less, nor for one more search with one node or one segment less than twice as much.
pub fn sums_of_jobs()
    ensures one { (asked_nodes 4 asked ≡ 33) × (asked_segments 4 asked ≡ 19) }
    ensures several { (nodes_of_all 4 (asked ∷ asked ∷ asked ∷ asked ∷ []) ≡ 132)
        × (segments_of_live 4 (asked ∷ asked ∷ asked ∷ asked ∷ []) (Live 1 ∷ Done [] ∷ SpentJob ∷ Live 40 ∷ []) ≡ 38) }
    ensures own { sum_of_live (λ words. slice_index words 0) ((5 ∷ []) ∷ (7 ∷ []) ∷ (11 ∷ []) ∷ (13 ∷ []) ∷ []) (Done [] ∷ Live 2 ∷ CancelledJob ∷ Live 4 ∷ []) ≡ 20 }
    ensures has { HasSums 4 (asked ∷ []) (asked_with 19 33) }
    ensures few_nodes { HasSums 4 (asked ∷ []) (asked_with 19 32) → ⊥ }
    ensures few_segments { HasSums 4 (asked ∷ []) (asked_with 18 33) → ⊥ }
    ensures more { FindsSums 4 (asked ∷ []) (Some (asked_with 38 66)) (submit_of 12) }
    ensures few_more_nodes { FindsSums 4 (asked ∷ []) (Some (asked_with 38 65)) (submit_of 12) → ⊥ }
    ensures few_more_segments { FindsSums 4 (asked ∷ []) (Some (asked_with 37 66)) (submit_of 12) → ⊥ }
{}
