//! What holds of the values of every Othello board: each contract is a law. A board is a list of cells here.
ghost use Rattle.std.specs.Prelude.{◌≡◌, ◌≢◌, ◌<◌, ◌≤ℤ◌, ◌<ℤ◌, ℕ, ℤ, List, [], ◌∷◌, ◌++◌, Some, None, IsSome, All, Contains, count_by, find, length, map};
ghost use Rattle.othello_board.specs.declared.cells.Cell.{Cell};
ghost use Rattle.othello_board.specs.Rules.{is_own_cell, is_opp_cell};
ghost use Rattle.othello_moves.specs.declared.choices.Choice.{Choice};
ghost use Rattle.othello_moves.specs.Choices.{choices};
ghost use Rattle.othello_eval.specs.Values.{eval, final_value, IsWithin};
ghost use Rattle.othello_eval.specs.Minimax.{minimax, choice_value, best_choice, leaf_value, greatest_or, int_equal};

/// An evaluation lies within -1,184 and 1,184, and every minimax value of a board of 64 cells, so a
/// final value too, within -128,000 and 128,000.
pub fn values_are_bounded()
    ensures evaluation { (board : List Cell) → IsWithin 1184 (eval board) }
    ensures last { (board : List Cell) → length board ≡ 64 → IsWithin 128000 (final_value board) }
    ensures minimax { (depth : ℕ) (board : List Cell) → length board ≡ 64 → IsWithin 128000 (minimax depth board) }
{}

/// In a finished game a disc more than the opponent has (2,000) is worth more than any evaluation (1,184 at most), and a
/// disc less is worth less than any.
#[tactic(auto, using(crate::proofs::ValueLemmas::win_outranks, crate::proofs::ValueLemmas::loss_outranked))]
pub fn a_disc_outranks_evaluations()
    ensures won { (board other : List Cell)
        → count_by is_opp_cell board < count_by is_own_cell board → eval other <ℤ final_value board }
    ensures lost { (board other : List Cell)
        → count_by is_own_cell board < count_by is_opp_cell board → final_value board <ℤ eval other }
{}

/// A finished game has its final value at every depth, and no best choice.
#[tactic(auto, using(crate::proofs::Rules::finished_games_rules))]
pub fn finished_games()
    ensures value { (depth : ℕ) (board : List Cell) → choices board ≡ [] → minimax depth board ≡ final_value board }
    ensures choice { (depth : ℕ) (board : List Cell) → choices board ≡ [] → best_choice depth board ≡ None }
{}

/// At depth 0 a game that goes on has its evaluation, and no best choice.
#[tactic(auto, using(crate::proofs::Rules::games_at_depth_0_rules))]
pub fn games_at_depth_0()
    ensures value { (board : List Cell) → choices board ≢ [] → minimax 0 board ≡ eval board }
    ensures choice { (board : List Cell) → best_choice 0 board ≡ None }
{}

/// The minimax value and the best choice at a board, by what its choices are worth there: at depth 1 and
/// more the greatest of that, and the first choice that attains it; at depth 0 the evaluation.
#[tactic(auto, using(crate::proofs::Rules::values_by_choices_rules))]
pub fn values_by_choices()
    ensures leaf { (board : List Cell) → minimax 0 board ≡ leaf_value board (choices board) }
    ensures deeper { (depth : ℕ) (board : List Cell) → 0 < depth
        → minimax depth board ≡ greatest_or (final_value board) (map (choice_value depth board) (choices board)) }
    ensures best { (depth : ℕ) (board : List Cell) → 0 < depth
        → best_choice depth board ≡ find (λ c. int_equal (choice_value depth board c) (minimax depth board)) (choices board) }
{}

/// At depth 1 and more the value of a game that goes on is the greatest of what the choices are worth:
/// it is one of these, no choice is worth more, and a number that no choice exceeds isn't less.
#[tactic(auto, using(crate::proofs::MinimaxLemmas::best_choice_there, crate::proofs::MinimaxLemmas::choices_below, crate::proofs::MinimaxLemmas::minimax_least))]
pub fn value_is_the_greatest()
    ensures attained { (depth : ℕ) (board : List Cell) → 0 < depth → choices board ≢ []
        → IsSome (best_choice depth board) }
    ensures above { (depth : ℕ) (board : List Cell) → 0 < depth
        → All (λ c. choice_value depth board c ≤ℤ minimax depth board) (choices board) }
    ensures least { (depth : ℕ) (board : List Cell) (s : ℤ) → 0 < depth → choices board ≢ []
        → All (λ c. choice_value depth board c ≤ℤ s) (choices board) → minimax depth board ≤ℤ s }
{}

/// The best choice is a choice that attains the value, and the first in order that does.
pub fn best_choice_is_the_first()
    ensures attains { (depth : ℕ) (board : List Cell) (c : Choice) → best_choice depth board ≡ Some c
        → (choice_value depth board c ≡ minimax depth board) × Contains (choices board) c }
    ensures first { (depth : ℕ) (board : List Cell) (done : List Choice) (c : Choice) (rest : List Choice)
        → 0 < depth
        → choices board ≡ done ++ c ∷ rest
        → choice_value depth board c ≡ minimax depth board
        → All (λ e. choice_value depth board e <ℤ minimax depth board) done
        → best_choice depth board ≡ Some c }
{}
