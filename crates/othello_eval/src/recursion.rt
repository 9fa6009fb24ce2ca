//! The minimax value of an Othello board by plain recursion, as it is defined.
ghost use Rattle.std.specs.Prelude.{◌≡◌, ◌≤◌};
ghost use Rattle.othello_board.specs.Words.{cells};
ghost use Rattle.othello_eval.specs.Values.{IsWithin};
ghost use Rattle.othello_eval.specs.Minimax.{minimax, best_choice};

use super::values::{eval, final_value};
use othello_board::Board;
use othello_moves::{Choice, Choices, DEEPEST, after, plies};

/// A value of a board to some depth, and the first choice that attains it.
#[derive(Clone, Copy, Debug, PartialEq, Eq)]
pub struct Valued {
    /// The value, seen by the player to move.
    pub value: i32,
    /// The best choice: none at depth 0 and in a finished game.
    pub choice: Option<Choice>,
}

/// The minimax value of a board to a depth, 0 to 12, and the best choice.
#[tactic(auto, using(othello_moves::proofs::AllowedLemmas::goes_down))]
pub fn plain(board: Board, depth: u8) -> Valued
    requires { depth ≤ DEEPEST }
    ensures value { result.value ≡ minimax depth (cells board) }
    ensures within { IsWithin 128000 result.value }
    ensures choice { result.choice ≡ best_choice depth (cells board) }
{
    let mut left = Choices::new(board);
    let Some(first) = left.pop_first() else {
        return Valued {
            value: final_value(board),
            choice: None,
        };
    };
    if depth == 0 {
        return Valued {
            value: eval(board),
            choice: None,
        };
    }
    let below = depth - plies(first) as u8;
    let mut value = -plain(after(board, first), below).value;
    let mut best = first;
    while let Some(next) = left.pop_first() {
        let below = depth - plies(next) as u8;
        let other = -plain(after(board, next), below).value;
        if other > value {
            value = other;
            best = next;
        }
    }
    Valued {
        value,
        choice: Some(best),
    }
}
