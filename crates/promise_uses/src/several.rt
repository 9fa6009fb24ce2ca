//! Uses of the law on sums: tenants 7 and 9 have several searches that live, jobs 3 and 5 among them, and none is ever spent.
ghost use Rattle.std.specs.Prelude.{◌≡◌, ◌≤◌, ℕ, bit_and, List, [], ◌∷◌, Some, Result, Err};
ghost use Rattle.tenant_quota.specs.Reserves.{ReserveOf};
ghost use Rattle.frame_table.specs.Frames.{Frame, frame_at};
ghost use Rattle.sched_rules.specs.declared.job.Job.TheVariants.{Live, Done, Spent as SpentJob, Cancelled as CancelledJob};
ghost use Rattle.sched_rules.specs.declared.refusal.Refusal.{Refusal};
ghost use Rattle.sched_rules.specs.declared.refusal.Refusal.TheVariants.{NotSpent};
ghost use Rattle.sched_rules.specs.declared.step.DidOf.{DidOf};
ghost use Rattle.sched_rules.specs.declared.step.StepOf.{StepOf};
ghost use Rattle.sched_rules.specs.declared.step.StepOf.TheVariants.{Admit, Spend, Submit};
ghost use Rattle.sched_rules.specs.Lone.{lone_refusal};
ghost use Rattle.sched_rules.specs.Runs.{only};
ghost use Rattle.sched_rules.specs.Cores.{shared_by_nobody, tenant_in};
ghost use Rattle.sched_rules.specs.Headline.{IsAnswerTo, AreAnswersTo, after_answers, taken_steps};
ghost use Rattle.sched_rules.specs.Trees.{Tenant};
ghost use Rattle.sched_laws.specs.Fitted.{origins_of};
ghost use Rattle.jamboree_rules.specs.declared.leaf.Leaf.{Leaf};
ghost use Rattle.jamboree_rules.specs.declared.leaf.LeafAnswer.{LeafAnswer};
ghost use Rattle.jamboree_rules.specs.Places.{root_words, frame_size};
ghost use Rattle.jamboree_rules.specs.Procedure.{jamboree};
ghost use Rattle.jamboree_core.specs.Journals.{IsJournalOf};
ghost use Rattle.jamboree_core.specs.Replies.{AreSearches};

use jamboree_core::reserves::{
    positions_suffice, who_asks_with_enough_is_never_spent, who_asks_within_its_sums_is_never_spent,
};

/// Tenant 9 has asked for five searches to depth 6 at grain 4, of which the third and the fifth live. With 62,725 nodes (five times 12,545)
/// and 6,956 segments (twice 3,478) reserved, `Spend` of any of its frames is refused. So it is of tenant 7, whose first and third of three
/// live, with 37,635 nodes and as many segments.
/// Uses `jamboree_core::who_asks_within_its_sums_is_never_spent` (`sums`), `jamboree_core::who_asks_with_enough_is_never_spent` (`any`, `two_plies`).
pub fn third_and_fifth_live()
    ensures nine { (own opp : ℕ → ℕ) (journal : List (StepOf LeafAnswer)) (tenant : Tenant) (words : List ℕ) (third fifth serial : ℕ) (frame : Frame (List ℕ)) →
        IsJournalOf (jamboree 4) journal tenant → AreSearches journal →
        origins_of journal ≡ root_words (own 1) (opp 1) 6 ∷ root_words (own 2) (opp 2) 6 ∷ root_words (own 3) (opp 3) 6 ∷ root_words (own 4) (opp 4) 6 ∷ root_words (own 5) (opp 5) 6 ∷ [] →
        tenant.jobs ≡ Done words ∷ SpentJob ∷ Live third ∷ CancelledJob ∷ Live fifth ∷ [] → 62725 ≤ tenant.reserve.nodes → 6956 ≤ tenant.reserve.segments →
        frame_at tenant.frames serial ≡ Some frame →
        lone_refusal {A = LeafAnswer} (jamboree 4) (Some tenant) (Spend (record { tenant = 9; serial = serial })) ≡ Some NotSpent }
    ensures seven { (own opp : ℕ → ℕ) (journal : List (StepOf LeafAnswer)) (tenant : Tenant) (first third serial : ℕ) (frame : Frame (List ℕ)) →
        IsJournalOf (jamboree 4) journal tenant → AreSearches journal →
        origins_of journal ≡ root_words (own 1) (opp 1) 6 ∷ root_words (own 2) (opp 2) 6 ∷ root_words (own 3) (opp 3) 6 ∷ [] →
        tenant.jobs ≡ Live first ∷ SpentJob ∷ Live third ∷ [] → 37635 ≤ tenant.reserve.nodes → 6956 ≤ tenant.reserve.segments →
        frame_at tenant.frames serial ≡ Some frame →
        lone_refusal {A = LeafAnswer} (jamboree 4) (Some tenant) (Spend (record { tenant = 7; serial = serial })) ≡ Some NotSpent }
{
    who_asks_with_enough_is_never_spent();
    who_asks_within_its_sums_is_never_spent();
}

/// A core has tenants 7 and 9, which were admitted in it and did whatever they did, as did others. Tenant 9's own steps asked for five
/// searches to depth 8 at grain 6, of which the third and the fifth live, with so much reserved: the core answers a Spend of any frame of
/// tenant 9 with NotSpent. So it answers one of tenant 7, whose own steps asked for three, of which the first and the third live.
/// Uses `jamboree_core::who_asks_within_its_sums_is_never_spent` (`beside`), `jamboree_core::who_asks_with_enough_is_never_spent` (`any`, `two_plies`).
pub fn seven_beside_nine()
    ensures nine { (own opp : ℕ → ℕ) (totals : ReserveOf) (steps : List (StepOf LeafAnswer)) (answers : List (Result (DidOf Leaf) Refusal)) (seven tenant : Tenant)
        (words : List ℕ) (third fifth serial : ℕ) (frame : Frame (List ℕ)) (answer : Result (DidOf Leaf) Refusal) →
        AreAnswersTo (jamboree 6) (shared_by_nobody totals) steps answers →
        tenant_in (after_answers (jamboree 6) (shared_by_nobody totals) steps answers).tenants 7 ≡ Some seven →
        tenant_in (after_answers (jamboree 6) (shared_by_nobody totals) steps answers).tenants 9 ≡ Some tenant →
        AreSearches (only 9 (taken_steps steps answers)) →
        origins_of (only 9 (taken_steps steps answers)) ≡ root_words (own 1) (opp 1) 8 ∷ root_words (own 2) (opp 2) 8 ∷ root_words (own 3) (opp 3) 8 ∷ root_words (own 4) (opp 4) 8 ∷ root_words (own 5) (opp 5) 8 ∷ [] →
        tenant.jobs ≡ Done words ∷ SpentJob ∷ Live third ∷ CancelledJob ∷ Live fifth ∷ [] → 62725 ≤ tenant.reserve.nodes → 6956 ≤ tenant.reserve.segments →
        frame_at tenant.frames serial ≡ Some frame →
        IsAnswerTo (jamboree 6) (after_answers (jamboree 6) (shared_by_nobody totals) steps answers) (Spend (record { tenant = 9; serial = serial })) answer → answer ≡ Err NotSpent }
    ensures seven { (own opp : ℕ → ℕ) (totals : ReserveOf) (steps : List (StepOf LeafAnswer)) (answers : List (Result (DidOf Leaf) Refusal)) (tenant nine : Tenant)
        (first third serial : ℕ) (frame : Frame (List ℕ)) (answer : Result (DidOf Leaf) Refusal) →
        AreAnswersTo (jamboree 6) (shared_by_nobody totals) steps answers →
        tenant_in (after_answers (jamboree 6) (shared_by_nobody totals) steps answers).tenants 9 ≡ Some nine →
        tenant_in (after_answers (jamboree 6) (shared_by_nobody totals) steps answers).tenants 7 ≡ Some tenant →
        AreSearches (only 7 (taken_steps steps answers)) →
        origins_of (only 7 (taken_steps steps answers)) ≡ root_words (own 1) (opp 1) 8 ∷ root_words (own 2) (opp 2) 8 ∷ root_words (own 3) (opp 3) 8 ∷ [] →
        tenant.jobs ≡ Live first ∷ SpentJob ∷ Live third ∷ [] → 37635 ≤ tenant.reserve.nodes → 6956 ≤ tenant.reserve.segments →
        frame_at tenant.frames serial ≡ Some frame →
        IsAnswerTo (jamboree 6) (after_answers (jamboree 6) (shared_by_nobody totals) steps answers) (Spend (record { tenant = 7; serial = serial })) answer → answer ≡ Err NotSpent }
{
    who_asks_with_enough_is_never_spent();
    who_asks_within_its_sums_is_never_spent();
}

/// Tenants 7 and 9 reserve 25,090 nodes and 6,956 segments each, and ask for two searches to depth 6 at grain 4, one right after the
/// other. After any further steps of theirs that ask for nothing, in whatever order, `Spend` of any of their frames is refused.
/// Uses `jamboree_core::who_asks_within_its_sums_is_never_spent` (`asks`), `jamboree_core::who_asks_with_enough_is_never_spent` (`any`, `two_plies`).
pub fn two_at_once()
    ensures nine { (own opp own_then opp_then serial : ℕ) (later : List (StepOf LeafAnswer)) (tenant : Tenant) (frame : Frame (List ℕ)) →
        bit_and own opp ≡ 0 → bit_and own_then opp_then ≡ 0 → origins_of later ≡ [] →
        IsJournalOf (jamboree 4) (Admit 9 (record { segments = 6956; nodes = 25090 }) ∷ Submit 9 (root_words own opp 6) frame_size ∷ Submit 9 (root_words own_then opp_then 6) frame_size ∷ later) tenant →
        frame_at tenant.frames serial ≡ Some frame →
        lone_refusal {A = LeafAnswer} (jamboree 4) (Some tenant) (Spend (record { tenant = 9; serial = serial })) ≡ Some NotSpent }
    ensures seven { (own opp own_then opp_then serial : ℕ) (later : List (StepOf LeafAnswer)) (tenant : Tenant) (frame : Frame (List ℕ)) →
        bit_and own opp ≡ 0 → bit_and own_then opp_then ≡ 0 → origins_of later ≡ [] →
        IsJournalOf (jamboree 4) (Admit 7 (record { segments = 6956; nodes = 25090 }) ∷ Submit 7 (root_words own opp 6) frame_size ∷ Submit 7 (root_words own_then opp_then 6) frame_size ∷ later) tenant →
        frame_at tenant.frames serial ≡ Some frame →
        lone_refusal {A = LeafAnswer} (jamboree 4) (Some tenant) (Spend (record { tenant = 7; serial = serial })) ≡ Some NotSpent }
{
    who_asks_with_enough_is_never_spent();
    who_asks_within_its_sums_is_never_spent();
}

/// The same, by what each Submit finds for its root and all under it, with the cost and the size that suffice for positions.
/// Uses `jamboree_core::who_asks_within_its_sums_is_never_spent` (`rooms`), `jamboree_core::positions_suffice` (`nodes`, `segments`),
/// `jamboree_core::who_asks_with_enough_is_never_spent` (`any`, `two_plies`).
pub fn two_find_room()
    ensures nine { (own opp own_then opp_then serial : ℕ) (later : List (StepOf LeafAnswer)) (tenant : Tenant) (frame : Frame (List ℕ)) →
        bit_and own opp ≡ 0 → bit_and own_then opp_then ≡ 0 → origins_of later ≡ [] →
        IsJournalOf (jamboree 4) (Admit 9 (record { segments = 6956; nodes = 25090 }) ∷ Submit 9 (root_words own opp 6) frame_size ∷ Submit 9 (root_words own_then opp_then 6) frame_size ∷ later) tenant →
        frame_at tenant.frames serial ≡ Some frame →
        lone_refusal {A = LeafAnswer} (jamboree 4) (Some tenant) (Spend (record { tenant = 9; serial = serial })) ≡ Some NotSpent }
    ensures seven { (own opp own_then opp_then serial : ℕ) (later : List (StepOf LeafAnswer)) (tenant : Tenant) (frame : Frame (List ℕ)) →
        bit_and own opp ≡ 0 → bit_and own_then opp_then ≡ 0 → origins_of later ≡ [] →
        IsJournalOf (jamboree 4) (Admit 7 (record { segments = 6956; nodes = 25090 }) ∷ Submit 7 (root_words own opp 6) frame_size ∷ Submit 7 (root_words own_then opp_then 6) frame_size ∷ later) tenant →
        frame_at tenant.frames serial ≡ Some frame →
        lone_refusal {A = LeafAnswer} (jamboree 4) (Some tenant) (Spend (record { tenant = 7; serial = serial })) ≡ Some NotSpent }
{
    positions_suffice();
    who_asks_with_enough_is_never_spent();
    who_asks_within_its_sums_is_never_spent();
}
