//! What holds of every Jamboree search: each contract is a law.
ghost use Rattle.std.specs.Prelude.{◌≡◌, ◌≢◌, ℕ, ◌<◌, ◌≤◌, List, [], ◌∷◌, ◌++◌, true, false, bit_and, length, map};
ghost use Rattle.sched_rules.specs.cactus_stack.Nodes.{padded};
ghost use Rattle.othello_moves.specs.Depths.{greatest_depth};
ghost use Rattle.leaf_search.specs.othello_eval.Minimax.{best_choice};
ghost use Rattle.leaf_search.specs.othello_eval.Tables.{entered, IsTable};
ghost use Rattle.sched_rules.specs.Trees.{is_outside, kept_words};
ghost use Rattle.sched_rules.specs.Lone.{is_bad_act};
ghost use Rattle.sched_rules.specs.Laws.{Mark, Neither, Computes, HasReturned, has_one, ParentFits, NextKeeps, InletKeeps, AcceptKeeps};
ghost use Rattle.jamboree_rules.specs.declared.leaf.Leaf.{Leaf};
ghost use Rattle.jamboree_rules.specs.declared.leaf.LeafAnswer.{LeafAnswer};
ghost use Rattle.jamboree_rules.specs.Frames.{board, rest_at, value, coded};
ghost use Rattle.jamboree_rules.specs.Places.{frame_of, kind_in, root_words, frame_size};
ghost use Rattle.jamboree_rules.specs.Entries.{bounds_of};
ghost use Rattle.jamboree_rules.specs.Acts.{next_act, inlet_act};
ghost use Rattle.jamboree_rules.specs.Leaves.{leaf_in, accepts, same_leaf};
ghost use Rattle.jamboree_rules.specs.Fits.{AreFitting, IsRoot};
ghost use Rattle.jamboree_rules.specs.Sound.{IsSound};
ghost use Rattle.jamboree_rules.specs.Procedure.{jamboree};

/// Where `AreFitting` holds of a frame and of what is above it, the frame's next act can be done (`possible`),
/// and `AreFitting` holds of the frame, its parent and a new child after it (`keeps`).
pub fn next_keeps()
    ensures keeps { (grain : ℕ) → NextKeeps (jamboree grain) AreFitting IsRoot }
    ensures possible { (grain : ℕ) (origin own : List ℕ) (above older younger children : List (List ℕ)) →
        AreFitting own children Neither → ParentFits AreFitting IsRoot origin above (older, younger) own →
        is_bad_act own (has_one children) (next_act grain (own ∷ above)) ≡ false }
{}

/// Where `AreFitting` holds of a frame and of its child that has returned, the inlet stores only in words that
/// the frame has (`possible`), and `AreFitting` holds of the frame and its parent after it, also where the inlet
/// aborts (`keeps`).
pub fn inlet_keeps()
    ensures keeps { (grain : ℕ) → InletKeeps (jamboree grain) AreFitting IsRoot }
    ensures possible { (own child : List ℕ) (before behind : List (List ℕ)) →
        AreFitting own (before ++ child ∷ behind) Neither → AreFitting child [] HasReturned → is_outside (inlet_act own child).stores own ≡ false }
{}

/// Where `AreFitting` holds of a frame that computes, what it stores of an answer to its leaf is in words that it
/// has (`possible`), and `AreFitting` holds of the frame and its parent after it (`keeps`).
pub fn accept_keeps()
    ensures keeps { (grain : ℕ) → AcceptKeeps (jamboree grain) AreFitting IsRoot }
    ensures possible { (own : List ℕ) (answer : LeafAnswer) → AreFitting own [] Computes → is_outside (accepts own answer) own ≡ false }
{}

/// Two leaves of which `same_leaf` is true are equal.
#[tactic(auto, using(crate::proofs::LeafLemmas::same_leaf_rules))]
pub fn same_leaves_are_equal()
    ensures { (one other : Leaf) → same_leaf one other ≡ true → one ≡ other }
{}

/// The words of a new root, of a board and a depth of at most 12, satisfy `AreFitting` (`fits`), and have the
/// board, the depth and the full window of the words that it was submitted with (`rooted`).
#[tactic(auto, using(crate::proofs::Rooted::root_fits))]
pub fn a_new_root_fits()
    ensures fits { (own opp depth : ℕ) → bit_and own opp ≡ 0 → depth ≤ greatest_depth → AreFitting (padded (root_words own opp depth) frame_size) [] Neither }
    ensures rooted { (own opp depth : ℕ) → bit_and own opp ≡ 0 → depth ≤ greatest_depth → IsRoot (root_words own opp depth) (padded (root_words own opp depth) frame_size) }
{}

/// A root that has returned holds the minimax value of its board to its depth, and the code of the best choice
/// (65 for none).
#[tactic(auto, using(crate::proofs::Rooted::root_value))]
pub fn a_returned_root_holds_value_and_choice()
    ensures value { (origin words : List ℕ) → AreFitting words [] HasReturned → IsRoot origin words → (frame_of words).best ≡ value (frame_of words) }
    ensures choice { (origin words : List ℕ) → AreFitting words [] HasReturned → IsRoot origin words →
        (frame_of words).choice ≡ coded (best_choice (frame_of words).depth (board (frame_of words))) }
{}

/// A root that has returned holds a table of its board to its depth (`table`): one entry for each choice, and
/// none at depth 0 (`places`). Each entry has a kind (`kinds`), so that its score is an upper bound, a lower
/// bound or exact; that is true of the choice's value, and the best choice's entry is exact. The root has at most
/// 76 words, so its job keeps them all (`kept`).
#[tactic(auto, using(crate::proofs::Rooted::returned_root_rules))]
pub fn a_returned_root_holds_a_table()
    ensures kept { (origin words : List ℕ) → AreFitting words [] HasReturned → IsRoot origin words → kept_words words ≡ words }
    ensures places { (origin words : List ℕ) → AreFitting words [] HasReturned → IsRoot origin words →
        length (frame_of words).rests ≡ length (entered (frame_of words).depth (board (frame_of words))) }
    ensures kinds { (origin words : List ℕ) → AreFitting words [] HasReturned → IsRoot origin words →
        (i : ℕ) → i < length (frame_of words).rests → kind_in (rest_at (frame_of words) i) ≢ 0 }
    ensures table { (origin words : List ℕ) → AreFitting words [] HasReturned → IsRoot origin words →
        IsTable (frame_of words).depth (board (frame_of words)) (bounds_of (frame_of words)) }
{}

/// Where `AreFitting` holds of a frame and its children, the frame is sound (`IsSound`): what it says of minimax
/// values is true.
#[tactic(auto, using(crate::proofs::Rooted::fits_sound))]
pub fn a_fitting_frame_is_sound()
    ensures { (words : List ℕ) (children : List (List ℕ)) (mark : Mark) → AreFitting words children mark → IsSound (frame_of words) (map frame_of children) }
{}
