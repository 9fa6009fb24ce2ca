//! What holds of the choices of every Othello board: each contract is a law.
ghost use Rattle.std.specs.Prelude.{◌≡◌, ◌≤◌, ◌*◌, false, All, Contains, List, length};
ghost use Rattle.othello_board.specs.declared.cells.Cell.{Cell};
ghost use Rattle.othello_board.specs.declared.boards.Board.{Board};
ghost use Rattle.othello_board.specs.Words.{cells};
ghost use Rattle.othello_board.specs.Rules.{is_nil};
ghost use Rattle.othello_moves.specs.declared.choices.Choice.{Choice};
ghost use Rattle.othello_moves.specs.declared.choices.Choice.TheVariants.{Pass};
ghost use Rattle.othello_moves.specs.Choices.{choices, legal_squares, empty_squares, opposing_discs, after, IsAllowed};
ghost use Rattle.othello_moves.specs.Depths.{greatest_depth};
ghost use Rattle.othello_moves.specs.declared.choices.TheConstants.{DEEPEST};

/// A choice that is a square lies on the board and is legal.
#[tactic(auto, using(crate::proofs::AllowedLemmas::choices_allowed))]
pub fn choices_are_legal()
    ensures { (board : List Cell) → All (IsAllowed board) (choices board) }
{}

/// After a pass the player to move has a legal square, so no two passes come one after the other.
#[tactic(auto, using(crate::proofs::AllowedLemmas::square_after_pass))]
pub fn a_pass_is_followed_by_a_square()
    ensures { (board : List Cell) → Contains (choices board) Pass → is_nil (legal_squares (after board Pass)) ≡ false }
{}

/// There are at most 56 choices: no more legal squares than empty ones, and at most 8 for each opposing disc, as in each
/// direction a disc is next to at most one square.
#[tactic(auto, using(crate::proofs::Rules::choices_are_few_rules))]
pub fn choices_are_few()
    ensures empty { (board : List Cell) → length (legal_squares board) ≤ empty_squares board }
    ensures opposing { (board : List Cell) → length (legal_squares board) ≤ 8 * opposing_discs board }
    ensures most { (board : List Cell) → length (choices board) ≤ 56 }
{}

/// A board has 64 cells, and so has the board after any choice.
#[tactic(auto, using(crate::proofs::Rules::boards_keep_their_size_rules))]
pub fn boards_keep_their_size()
    ensures board { (b : Board) → length (cells b) ≡ 64 }
    ensures after { (board : List Cell) (c : Choice) → length board ≡ 64 → length (after board c) ≡ 64 }
{}

/// The code's greatest depth is that of the definitions.
pub fn deepest_is_the_greatest_depth()
    ensures { DEEPEST ≡ greatest_depth }
{}
