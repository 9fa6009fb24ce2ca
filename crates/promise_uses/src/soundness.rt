//! A use of the law that every frame is sound: what holds of the third frame of tenant 9, its fifth choice and its
//! second child, after any list of steps.
ghost use Rattle.std.specs.Prelude.{◌≡◌, ℕ, List, ◌∷◌, Some, Result, map, ◌≤ℤ◌, ◌<ℤ◌};
ghost use Rattle.tenant_quota.specs.Reserves.{ReserveOf};
ghost use Rattle.frame_table.specs.Frames.{Frame, children_of, values_of};
ghost use Rattle.othello_eval.specs.Minimax.{best_choice};
ghost use Rattle.othello_eval.specs.declared.bound.BoundKind.TheVariants.{Low};
ghost use Rattle.sched_rules.specs.declared.refusal.Refusal.{Refusal};
ghost use Rattle.sched_rules.specs.declared.step.StepOf.{StepOf};
ghost use Rattle.sched_rules.specs.declared.step.DidOf.{DidOf};
ghost use Rattle.sched_rules.specs.Trees.{Tenant};
ghost use Rattle.sched_rules.specs.Cores.{shared_by_nobody, tenant_in};
ghost use Rattle.sched_rules.specs.Headline.{AreAnswersTo, after_answers, taken_steps};
ghost use Rattle.jamboree_rules.specs.declared.leaf.Leaf.{Leaf};
ghost use Rattle.jamboree_rules.specs.declared.leaf.LeafAnswer.{LeafAnswer};
ghost use Rattle.jamboree_rules.specs.leaf_search.Bounds.{IsBound};
ghost use Rattle.jamboree_rules.specs.Frames.{Frame as SearchFrame, phase_tests, phase_done, board, code_at, coded, value_at, value};
ghost use Rattle.jamboree_rules.specs.Entries.{HasKind, score_at};
ghost use Rattle.jamboree_rules.specs.Places.{frame_of};
ghost use Rattle.jamboree_rules.specs.Procedure.{jamboree};
ghost use Rattle.jamboree_rules.specs.Sound.{IsSettled, HasWindow};
ghost use Rattle.jamboree_core.specs.Replies.{AreSearches};

use jamboree_core::laws::every_frame_is_sound;

/// Tenant 9's third frame. While it tests choices, its fifth choice, once settled, is worth at most the best score, and a best score above
/// alpha is what the stored choice is worth. Once it is done, its score is a bound of its board's value, and inside the window its choice is
/// the best one. An entry of its fifth choice that says low is true. Its second child has the window of its role.
/// Uses `jamboree_core::every_frame_is_sound`.
pub fn third_frame_of_nine()
    ensures { (grain : ℕ) (totals : ReserveOf) (steps : List (StepOf LeafAnswer)) (answers : List (Result (DidOf Leaf) Refusal)) (tenant : Tenant)
        (first second third : Frame (List ℕ)) (later : List (Frame (List ℕ))) (one two : SearchFrame) (more : List SearchFrame) →
        AreAnswersTo (jamboree grain) (shared_by_nobody totals) steps answers → AreSearches (taken_steps steps answers) →
        tenant_in (after_answers (jamboree grain) (shared_by_nobody totals) steps answers).tenants 9 ≡ Some tenant →
        tenant.frames ≡ first ∷ second ∷ third ∷ later → map frame_of (values_of (children_of tenant.frames third.serial)) ≡ one ∷ two ∷ more →
        ((frame_of third.value).phase ≡ phase_tests → IsSettled (frame_of third.value) 4 → value_at (frame_of third.value) 4 ≤ℤ (frame_of third.value).best)
        × ((frame_of third.value).phase ≡ phase_tests → (frame_of third.value).alpha <ℤ (frame_of third.value).best →
        (place : ℕ) × ((frame_of third.value).choice ≡ code_at (frame_of third.value) place) × (value_at (frame_of third.value) place ≡ (frame_of third.value).best))
        × ((frame_of third.value).phase ≡ phase_done →
        IsBound (frame_of third.value).alpha (frame_of third.value).beta (frame_of third.value).best (value (frame_of third.value)))
        × ((frame_of third.value).phase ≡ phase_done → (frame_of third.value).alpha <ℤ (frame_of third.value).best → (frame_of third.value).best <ℤ (frame_of third.value).beta →
        (frame_of third.value).choice ≡ coded (best_choice (frame_of third.value).depth (board (frame_of third.value))))
        × (HasKind (frame_of third.value) 4 Low → value_at (frame_of third.value) 4 ≤ℤ score_at (frame_of third.value) 4)
        × HasWindow (frame_of third.value) two }
{
    every_frame_is_sound();
}
