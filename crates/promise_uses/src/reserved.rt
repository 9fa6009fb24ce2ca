//! Uses of the law on what suffices: of tenant 9's search of any position to depth 8 at grain 6, and of tenant 7's
//! second search, to depth 6 at grain 4, neither of which is ever spent.
ghost use Rattle.std.specs.Prelude.{◌≡◌, ◌≤◌, ℕ, bit_and, List, [], ◌∷◌, ◌++◌, None, Some};
ghost use Rattle.tenant_quota.specs.Reserves.{ReserveOf};
ghost use Rattle.frame_table.specs.Frames.{Frame, frame_at};
ghost use Rattle.sched_rules.specs.declared.refusal.Refusal.TheVariants.{NotSpent};
ghost use Rattle.sched_rules.specs.declared.step.StepOf.{StepOf};
ghost use Rattle.sched_rules.specs.declared.step.StepOf.TheVariants.{Admit, Spend, Submit};
ghost use Rattle.sched_rules.specs.Lone.{lone_refusal};
ghost use Rattle.sched_rules.specs.Runs.{alone};
ghost use Rattle.sched_rules.specs.Trees.{Tenant, left};
ghost use Rattle.sched_laws.specs.Fitted.{origins_of};
ghost use Rattle.jamboree_rules.specs.declared.leaf.LeafAnswer.{LeafAnswer};
ghost use Rattle.jamboree_rules.specs.Places.{root_words, frame_size};
ghost use Rattle.jamboree_rules.specs.Procedure.{jamboree};
ghost use Rattle.jamboree_core.specs.Journals.{IsJournalOf};

use jamboree_core::reserves::who_asks_with_enough_is_never_spent;

/// Tenant 9 reserves 3,478 segments and 12,545 nodes, and asks for a search of any position to depth 8 at grain 6. After any further steps
/// that ask for nothing, in whatever order, `Spend` of any of its frames is refused.
/// Uses `jamboree_core::who_asks_with_enough_is_never_spent` (`never`, `any`, `two_plies`).
pub fn nine_asks_to_depth_eight()
    ensures { (own opp serial : ℕ) (later : List (StepOf LeafAnswer)) (tenant : Tenant) (frame : Frame (List ℕ)) →
        bit_and own opp ≡ 0 → origins_of later ≡ [] →
        IsJournalOf (jamboree 6) (Admit 9 (record { segments = 3478; nodes = 12545 }) ∷ Submit 9 (root_words own opp 8) frame_size ∷ later) tenant →
        frame_at tenant.frames serial ≡ Some frame →
        lone_refusal {A = LeafAnswer} (jamboree 6) (Some tenant) (Spend (record { tenant = 9; serial = serial })) ≡ Some NotSpent }
{
    who_asks_with_enough_is_never_spent();
}

/// Tenant 7 has asked for a search to depth 6 at grain 4 with that much, and its steps came to a tenant that has no frame, and 3,478 segments
/// and 12,545 nodes left. There it asks for another. After any further steps that ask for nothing `Spend` of any of its frames is refused.
/// Uses `jamboree_core::who_asks_with_enough_is_never_spent` (`never`, `any`, `two_plies`).
pub fn seven_asks_again()
    ensures { (quota : ReserveOf) (own opp own_then opp_then serial : ℕ) (first later : List (StepOf LeafAnswer)) (between tenant : Tenant) (frame : Frame (List ℕ)) →
        3478 ≤ quota.segments → 12545 ≤ quota.nodes → bit_and own opp ≡ 0 → bit_and own_then opp_then ≡ 0 → origins_of first ≡ [] → origins_of later ≡ [] →
        alone (jamboree 4) (Admit 7 quota ∷ Submit 7 (root_words own opp 6) frame_size ∷ first) ≡ Some between →
        between.frames ≡ [] → 3478 ≤ (left between).segments → 12545 ≤ (left between).nodes →
        IsJournalOf (jamboree 4) ((Admit 7 quota ∷ Submit 7 (root_words own opp 6) frame_size ∷ first) ++ Submit 7 (root_words own_then opp_then 6) frame_size ∷ later) tenant →
        frame_at tenant.frames serial ≡ Some frame →
        lone_refusal {A = LeafAnswer} (jamboree 4) (Some tenant) (Spend (record { tenant = 7; serial = serial })) ≡ Some NotSpent }
{
    who_asks_with_enough_is_never_spent();
}
