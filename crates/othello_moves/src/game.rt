//! The choices of an Othello board, the board after each, and whether the game is over.
ghost use Rattle.std.specs.Prelude.{◌≡◌, ◌<◌, ◌↔◌, [], IsTrue, Contains, length, slice_get};
ghost use Rattle.othello_board.specs.Words.{cells};
ghost use Rattle.othello_moves.specs.Choices.{choices, after};

use super::choices::Choice;
use super::mobility::Mobility;
use super::sequence::Choices;
use othello_board::Board;

/// Whether the game is over: neither side can move.
pub fn over(board: Board) -> bool
    ensures { IsTrue result ↔ (choices (cells board) ≡ []) }
{
    Mobility::of(board).is_over()
}

/// How many choices the player to move has; a pass is one.
pub fn choice_count(board: Board) -> usize
    ensures { result ≡ length (choices (cells board)) }
{
    Choices::new(board).len()
}

/// The choice at this place in the order of the board's choices, counted from 0.
#[tactic(auto, using(crate::proofs::Rules::choice_rules))]
pub fn choice(board: Board, index: usize) -> Choice
    requires { index < length (choices (cells board)) }
    ensures value { slice_get (choices (cells board)) index ≡ Some result }
    ensures chosen { Contains (choices (cells board)) result }
{
    let mut left = Choices::new(board);
    for _ in 0..index {
        let _ = left.pop_first();
    }
    match left.pop_first() {
        Some(first) => first,
        None => unreachable!(),
    }
}

/// The board after a choice, seen by the other player.
pub fn after(board: Board, choice: Choice) -> Board
    requires { Contains (choices (cells board)) choice }
    ensures { cells result ≡ after (cells board) choice }
{
    match choice {
        Choice::Square(square) => board.play(square),
        Choice::Pass => board.swap(),
    }
}
