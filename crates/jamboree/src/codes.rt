//! Choices as words of a search's frame: 0 to 63 a square, 64 a pass, 65 none.
ghost use Rattle.std.specs.Prelude.{◌≡◌, ◌<◌, length, slice_index_or};
ghost use Rattle.othello_board.specs.Words.{cells};
ghost use Rattle.othello_moves.specs.declared.choices.Choice.TheVariants.{Pass};
ghost use Rattle.othello_moves.specs.Choices.{choices};
ghost use Rattle.jamboree_rules.specs.Frames.{code_of, coded};
ghost use Rattle.jamboree.specs.Codes.{decoded};

use othello_board::Board;
use othello_moves::{Choice, choice};

/// The code that stands for no choice.
pub(crate) const NONE: u64 = 65;

/// The word for a choice: 0 to 63 a square, 64 a pass.
pub(crate) fn code_of(choice: Choice) -> u64
    ensures { result ≡ code_of choice }
{
    match choice {
        Choice::Square(square) => u64::from(square),
        Choice::Pass => 64,
    }
}

/// The code of a choice, or 65 for None.
pub(crate) fn coded(choice: Option<Choice>) -> u64
    ensures { result ≡ coded choice }
{
    match choice {
        Some(choice) => code_of(choice),
        None => NONE,
    }
}

/// The code of the choice of this number, from 0, on this board.
#[tactic(auto, using(crate::proofs::Rules::code_rules))]
pub(crate) fn code_at(board: Board, number: usize) -> u64
    requires { number < length (choices (cells board)) }
    ensures { result ≡ code_of (slice_index_or (choices (cells board)) number Pass) }
{
    code_of(choice(board, number))
}

/// The choice that a code stands for; None for each code above 64.
pub(crate) fn decoded(code: u64) -> Option<Choice>
    ensures { result ≡ decoded code }
{
    if code < 64 {
        Some(Choice::Square(code as u8))
    } else if code == 64 {
        Some(Choice::Pass)
    } else {
        None
    }
}
