//! The acts, and what no sound frame is, tried on the opening searched to depth 1 with grain 0: each contract is
//! computed from the definitions alone. Each of the four choices (d3, c4, f5, e6, of codes 19, 26, 37, 44) is worth -3,
//! which is `negsuc 2`. A frame that isn't sound lacks one part of the definition, and has all others. A frame's words
//! are its board (34628173824 and 68853694464: the opening's discs), the depth, the window's ends and later the best
//! score (each plus 1,000,000), its role, number and phase; stores stand as place and word.
#![tactic(auto, unfolding(othello_board::specs::Rules::squares, othello_board::specs::Rules::squares_beside, othello_moves::specs::Choices::in_order))]

ghost use Rattle.std.specs.Prelude.{◌≡◌, [], ◌∷◌, true, false, pos, negsuc};
ghost use Rattle.leaf_search.specs.Bounds.{IsBound};
ghost use Rattle.leaf_search.specs.othello_eval.declared.bound.BoundKind.TheVariants.{Low, High, Exact};
ghost use Rattle.sched_rules.specs.declared.act.Continuation.TheVariants.{Grow, Spawn, Wait, Compute, Return};
ghost use Rattle.jamboree_rules.specs.Frames.{phase_new, phase_computing, phase_first, phase_tests, phase_done, role_root, role_first_child, role_test, role_again, least, greatest};
ghost use Rattle.jamboree_rules.specs.Acts.{next_act, inlet_act, returns, wakes};
ghost use Rattle.jamboree_rules.specs.Sound.{IsSound, HasGoal, HasWindow};
ghost use Rattle.jamboree_rules.specs.Rows.{entry, opened_with, opened, first_runs, first_runs_to, d3_to, tests_with, returned, root_with, full_root, none_settled, d3_settled, two_settled, nothing_found, found_of_c4, child_of_root, after_d3};

/// A new root is computed outside at depth 0, and where the game is over at any depth; else its four
/// choices are counted, whatever the grain.
pub fn a_new_root()
    ensures leaf { next_act 1 ((34628173824 ∷ 68853694464 ∷ 0 ∷ 800000 ∷ 1200000 ∷ 0 ∷ 0 ∷ 0 ∷ 0 ∷ 0 ∷ 0 ∷ 0 ∷ []) ∷ []) ≡
        record { stores = (0, 34628173824) ∷ (1, 68853694464) ∷ (7, 1) ∷ []; after = Compute } }
    ensures opens { next_act 12 ((34628173824 ∷ 68853694464 ∷ 1 ∷ 800000 ∷ 1200000 ∷ 0 ∷ 0 ∷ 0 ∷ 0 ∷ 0 ∷ 0 ∷ 0 ∷ []) ∷ []) ≡
        record { stores = (0, 34628173824) ∷ (1, 68853694464) ∷ (7, 2) ∷ (8, 800000) ∷ (9, 65) ∷ (10, 4) ∷ (11, 0) ∷ []; after = Grow 4 } }
    ensures over { next_act 0 ((1 ∷ 0 ∷ 5 ∷ 800000 ∷ 1200000 ∷ 0 ∷ 0 ∷ 0 ∷ 0 ∷ 0 ∷ 0 ∷ 0 ∷ []) ∷ []) ≡
        record { stores = (0, 1) ∷ (1, 0) ∷ (7, 1) ∷ []; after = Compute } }
{}

/// A new child knows its board from its parent's; near the leaves, by the grain, it is computed outside,
/// and else its three choices are counted.
pub fn a_new_child()
    ensures leaf { next_act 1 (d3_to 1 ∷ first_runs_to 2 ∷ []) ≡
        record { stores = (0, 68719476736) ∷ (1, 34762915840) ∷ (7, 1) ∷ []; after = Compute } }
    ensures opens { next_act 0 (d3_to 1 ∷ first_runs_to 2 ∷ []) ≡
        record { stores = (0, 68719476736) ∷ (1, 34762915840) ∷ (7, 2) ∷ (8, 800000) ∷ (9, 65) ∷ (10, 3) ∷ (11, 0) ∷ []; after = Grow 3 } }
{}

/// The first child is opened with the whole window; until it returns, the frame waits. Its score, -3, is
/// exact (kind 3). What is said of a choice already stays where its status is stored.
pub fn a_first_child()
    ensures opens { next_act 0 (opened ∷ []) ≡
        record { stores = (11, 1) ∷ (12, 1) ∷ []; after = Spawn (0 ∷ 0 ∷ 0 ∷ 800000 ∷ 1200000 ∷ 1 ∷ 0 ∷ 0 ∷ []) 12 } }
    ensures keeps { next_act 0 (opened_with (entry 0 1 999997) ∷ []) ≡
        record { stores = (11, 1) ∷ (12, entry 1 1 999997) ∷ []; after = Spawn (0 ∷ 0 ∷ 0 ∷ 800000 ∷ 1200000 ∷ 1 ∷ 0 ∷ 0 ∷ []) 12 } }
    ensures waits { next_act 0 (first_runs ∷ []) ≡ record { stores = []; after = Wait } }
    ensures taken { inlet_act first_runs (returned 800000 1200000 1 0 1000003) ≡
        record { stores = (8, 999997) ∷ (9, 19) ∷ (12, entry 2 3 999997) ∷ (7, 3) ∷ []; abort = false; wake = true } }
{}

/// The next choice is tested just above the best score, -3; a test at most that settles it, and bounds
/// it from above (kind 1), here by -3 or by -10; one above it has failed, and bounds it from below
/// (kind 2), here by -2.
pub fn a_test()
    ensures opens { next_act 0 (tests_with 1 0 ∷ []) ≡
        record { stores = (11, 2) ∷ (13, 1) ∷ []; after = Spawn (0 ∷ 0 ∷ 0 ∷ 1000002 ∷ 1000003 ∷ 2 ∷ 1 ∷ 0 ∷ []) 12 } }
    ensures keeps { next_act 0 (tests_with 1 (entry 0 1 999997) ∷ []) ≡
        record { stores = (11, 2) ∷ (13, entry 1 1 999997) ∷ []; after = Spawn (0 ∷ 0 ∷ 0 ∷ 1000002 ∷ 1000003 ∷ 2 ∷ 1 ∷ 0 ∷ []) 12 } }
    ensures low { inlet_act (tests_with 2 1) (returned 1000002 1000003 2 1 1000003) ≡
        record { stores = (8, 999997) ∷ (13, entry 2 1 999997) ∷ []; abort = false; wake = true } }
    ensures lower { inlet_act (tests_with 2 1) (returned 1000002 1000003 2 1 1000010) ≡
        record { stores = (8, 999997) ∷ (13, entry 2 1 999990) ∷ []; abort = false; wake = true } }
    ensures failed { inlet_act (tests_with 2 1) (returned 1000002 1000003 2 1 1000002) ≡
        record { stores = (13, entry 3 2 999998) ∷ []; abort = false; wake = true } }
{}

/// A choice whose test has failed is searched again, with the window above the best score, before
/// any other is tested; what the test said stays until then. The better score is exact.
pub fn a_search_again()
    ensures opens { next_act 0 (tests_with 2 (entry 3 2 999998) ∷ []) ≡
        record { stores = (13, entry 4 2 999998) ∷ []; after = Spawn (0 ∷ 0 ∷ 0 ∷ 800000 ∷ 1000003 ∷ 3 ∷ 1 ∷ 0 ∷ []) 12 } }
    ensures better { inlet_act (tests_with 2 (entry 4 2 999998)) (returned 800000 1000003 3 1 1000002) ≡
        record { stores = (8, 999998) ∷ (9, 26) ∷ (13, entry 2 3 999998) ∷ (7, 3) ∷ []; abort = false; wake = true } }
{}

/// A frame searches the opening up to beta -4; its first child comes back with -3 for d3: that is at least beta, so the
/// frame is done, all else below it is aborted, and d3's entry is a lower bound.
pub fn an_abort_at_beta()
    ensures { inlet_act (34628173824 ∷ 68853694464 ∷ 1 ∷ 800000 ∷ 999996 ∷ 1 ∷ 0 ∷ 2 ∷ 800000 ∷ 65 ∷ 4 ∷ 1 ∷ 1 ∷ 0 ∷ 0 ∷ 0 ∷ []) (returned 1000004 1200000 1 0 1000003) ≡
        record { stores = (8, 999997) ∷ (9, 19) ∷ (12, entry 2 2 999997) ∷ (7, 4) ∷ []; abort = true; wake = true } }
{}

/// With all four choices of the root settled (d3 exactly -3, the others at most that) it stores phase 4, done, and
/// returns.
pub fn all_settled()
    ensures { next_act 0 ((34628173824 ∷ 68853694464 ∷ 1 ∷ 800000 ∷ 1200000 ∷ 0 ∷ 0 ∷ 3 ∷ 999997 ∷ 19 ∷ 4 ∷ 4 ∷ entry 2 3 999997 ∷ entry 2 1 999997 ∷ entry 2 1 999997 ∷ entry 2 1 999997 ∷ []) ∷ []) ≡
        record { stores = (7, 4) ∷ []; after = Return } }
{}

/// Words of no frame return without a store: a place too many, a status above 4, a kind with no score, a score
/// with no kind, a root below another frame. Their inlet only wakes.
pub fn other_words()
    ensures longer { next_act 0 ((0 ∷ 0 ∷ 0 ∷ 800000 ∷ 1200000 ∷ 0 ∷ 0 ∷ 0 ∷ 0 ∷ 0 ∷ 0 ∷ 0 ∷ 0 ∷ []) ∷ []) ≡ returns }
    ensures status { next_act 0 (tests_with 2 5 ∷ []) ≡ returns }
    ensures unscored { next_act 0 (tests_with 2 (entry 2 1 0) ∷ []) ≡ returns }
    ensures unkind { next_act 0 (tests_with 2 (entry 2 0 999997) ∷ []) ≡ returns }
    ensures root { next_act 0 ((0 ∷ 0 ∷ 0 ∷ 800000 ∷ 1200000 ∷ 0 ∷ 0 ∷ 0 ∷ 0 ∷ 0 ∷ 0 ∷ 0 ∷ []) ∷ opened ∷ []) ≡ returns }
    ensures inlet { inlet_act (tests_with 2 5) (returned 1000002 1000003 2 1 1000003) ≡ wakes }
{}

/// While a frame searches, its best score is below beta (`below`), and no settled choice is worth more (`settled`):
/// so a choice whose test has failed isn't settled.
pub fn scores_that_are_not_sound()
    ensures below { IsSound (root_with (least, negsuc 2) phase_tests (negsuc 2) 19 d3_settled nothing_found) [] → ⊥ }
    ensures below_first { IsSound (root_with (least, negsuc 2) phase_first (negsuc 2) 19 d3_settled nothing_found) [] → ⊥ }
    ensures settled { IsSound (root_with (pos 0, greatest) phase_tests (negsuc 3) 65 d3_settled nothing_found) [] → ⊥ }
    ensures settled_first { IsSound (root_with (pos 0, greatest) phase_first (negsuc 3) 65 d3_settled nothing_found) [] → ⊥ }
{}

/// A best score above alpha is that of the first choice that is worth it: that choice is worth just this (`worth`),
/// is settled (`unsettled`) and stored (`another`), and no earlier choice is worth as much (`later`).
pub fn choices_that_are_not_sound()
    ensures worth { IsSound (full_root phase_tests (negsuc 1) 19 d3_settled) [] → ⊥ }
    ensures worth_first { IsSound (full_root phase_first (negsuc 1) 19 d3_settled) [] → ⊥ }
    ensures unsettled { IsSound (full_root phase_tests (negsuc 2) 19 none_settled) [] → ⊥ }
    ensures another { IsSound (full_root phase_tests (negsuc 2) 26 d3_settled) [] → ⊥ }
    ensures later { IsSound (full_root phase_tests (negsuc 2) 26 two_settled) [] → ⊥ }
{}

/// The score of a frame that is done is a bound of its value: between alpha and beta the value (`greater`), at least
/// beta a lower bound (`above`), at most alpha an upper one (`below`). Inside the window the stored choice is the best
/// one, not a later one of the same value (`later`), nor none (`nothing`).
pub fn ends_that_are_not_sound()
    ensures greater { IsSound (full_root phase_done (negsuc 1) 19 d3_settled) [] → ⊥ }
    ensures above { IsSound (root_with (least, negsuc 9) phase_done (negsuc 1) 19 d3_settled nothing_found) [] → ⊥ }
    ensures below { IsSound (root_with (pos 0, greatest) phase_done (negsuc 3) 65 d3_settled nothing_found) [] → ⊥ }
    ensures later { IsSound (full_root phase_done (negsuc 2) 26 two_settled) [] → ⊥ }
    ensures nothing { IsSound (full_root phase_done (negsuc 2) 65 d3_settled) [] → ⊥ }
{}

/// A score is a bound of a value: at most alpha from above, at least beta from below, and between the two it is
/// the value.
pub fn bounds_that_are_none()
    ensures upper { IsBound (pos 0) (pos 9) (pos 0) (pos 1) → ⊥ }
    ensures lower { IsBound (pos 0) (pos 9) (pos 9) (pos 8) → ⊥ }
    ensures exact { IsBound (pos 0) (pos 9) (pos 5) (pos 6) → ⊥ }
{}

/// An entry with a kind is true in every phase: c4 is worth -3, so not at most -4, not at least -2, and not -4.
pub fn entries_that_are_not_true()
    ensures low { IsSound (root_with (least, greatest) phase_new (negsuc 999999) 65 none_settled (found_of_c4 Low (negsuc 3))) [] → ⊥ }
    ensures high { IsSound (root_with (least, greatest) phase_done (negsuc 2) 19 two_settled (found_of_c4 High (negsuc 1))) [] → ⊥ }
    ensures exact { IsSound (root_with (least, greatest) phase_tests (negsuc 2) 19 two_settled (found_of_c4 Exact (negsuc 3))) [] → ⊥ }
{}

/// A child is there only while its parent searches (`later`). It is for one of its parent's choices (`fifth`), on
/// the board after that (`board`), less deep by its plies (`depth`), with the window of its role (`window`).
pub fn children_that_are_not_sound()
    ensures later { IsSound (full_root phase_done (negsuc 2) 19 d3_settled) (after_d3 0 (negsuc 199999, pos 200000) role_first_child ∷ []) → ⊥ }
    ensures second { IsSound (full_root phase_first least 65 none_settled) (after_d3 0 (negsuc 199999, pos 200000) role_first_child ∷ after_d3 1 (negsuc 199999, pos 200000) role_first_child ∷ []) → ⊥ }
    ensures fifth { HasGoal (full_root phase_first least 65 none_settled) (child_of_root (0, 0) 1 (negsuc 199999, pos 200000) role_first_child 4 phase_new) → ⊥ }
    ensures board { HasGoal (full_root phase_first least 65 none_settled) (child_of_root (34628173824, 68853694464) 0 (negsuc 199999, pos 200000) role_first_child 0 phase_computing) → ⊥ }
    ensures depth { HasGoal (full_root phase_first least 65 none_settled) (after_d3 1 (negsuc 199999, pos 200000) role_first_child) → ⊥ }
    ensures window { HasGoal (full_root phase_first least 65 none_settled) (after_d3 0 (pos 0, pos 200000) role_first_child) → ⊥ }
{}

/// The window of a first child is its parent's; of a test, one point, from alpha on up to the best score; of a
/// search again, what is above both, once all earlier choices are settled. No other role has a window. Here alpha
/// is 3, the best score 7 and beta 9; at `again_below_alpha` alpha is 7, and the best score 3.
pub fn windows_that_are_none()
    ensures other_first { HasWindow (root_with (pos 3, pos 9) phase_first (pos 7) 65 none_settled nothing_found) (after_d3 0 (negsuc 8, negsuc 2) role_root) → ⊥ }
    ensures first_alpha { HasWindow (root_with (pos 3, pos 9) phase_first (pos 7) 65 none_settled nothing_found) (after_d3 0 (negsuc 7, negsuc 2) role_first_child) → ⊥ }
    ensures first_beta { HasWindow (root_with (pos 3, pos 9) phase_first (pos 7) 65 none_settled nothing_found) (after_d3 0 (negsuc 8, negsuc 6) role_first_child) → ⊥ }
    ensures other_test { HasWindow (root_with (pos 3, pos 9) phase_tests (pos 7) 19 d3_settled nothing_found) (after_d3 0 (negsuc 7, negsuc 6) role_root) → ⊥ }
    ensures test_below { HasWindow (root_with (pos 3, pos 9) phase_tests (pos 7) 19 d3_settled nothing_found) (after_d3 0 (negsuc 2, negsuc 1) role_test) → ⊥ }
    ensures test_above { HasWindow (root_with (pos 3, pos 9) phase_tests (pos 7) 19 d3_settled nothing_found) (after_d3 0 (negsuc 8, negsuc 7) role_test) → ⊥ }
    ensures test_wide { HasWindow (root_with (pos 3, pos 9) phase_tests (pos 7) 19 d3_settled nothing_found) (after_d3 0 (negsuc 8, negsuc 6) role_test) → ⊥ }
    ensures test_beta { HasWindow (root_with (pos 3, pos 9) phase_tests (pos 7) 19 d3_settled nothing_found) (after_d3 0 (negsuc 7, negsuc 5) role_test) → ⊥ }
    ensures other_again { HasWindow (root_with (pos 3, pos 9) phase_tests (pos 7) 19 d3_settled nothing_found) (after_d3 0 (negsuc 8, negsuc 6) role_root) → ⊥ }
    ensures again_alpha { HasWindow (root_with (pos 3, pos 9) phase_tests (pos 7) 19 d3_settled nothing_found) (after_d3 0 (negsuc 7, negsuc 6) role_again) → ⊥ }
    ensures again_beta { HasWindow (root_with (pos 3, pos 9) phase_tests (pos 7) 19 d3_settled nothing_found) (after_d3 0 (negsuc 8, negsuc 2) role_again) → ⊥ }
    ensures again_below_alpha { HasWindow (root_with (pos 7, pos 9) phase_tests (pos 3) 65 d3_settled nothing_found) (after_d3 0 (negsuc 8, negsuc 2) role_again) → ⊥ }
    ensures again_early { HasWindow (root_with (pos 3, pos 9) phase_tests (pos 7) 19 none_settled nothing_found) (child_of_root (0, 0) 0 (negsuc 8, negsuc 6) role_again 1 phase_new) → ⊥ }
{}
