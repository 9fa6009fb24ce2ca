//! The page's engine: choices as codes, and a board's choice that has a code.
ghost use Rattle.std.specs.Prelude.{◌≡◌, IfSome, Contains};
ghost use Rattle.othello_board.specs.Words.{cells};
ghost use Rattle.othello_moves.specs.Choices.{choices};
ghost use Rattle.page_engine.specs.Codes.{best_code, choice_code, choice_of_code};

use othello_board::Board;
use othello_moves::{Choice, Choices};

/// The code of a pass.
pub(crate) const PASS: u32 = 64;

/// The code of no choice.
pub(crate) const NO_CHOICE: u32 = 65;

/// The number by which a page knows a choice: 0 to 63 a square, 64 a pass.
pub(crate) fn code_of(choice: Choice) -> u32
    ensures { result ≡ choice_code choice }
{
    match choice {
        Choice::Square(square) => u32::from(square),
        Choice::Pass => PASS,
    }
}

/// The number by which a page knows a best choice: 0 to 63 a square, 64 a pass, 65 none.
pub(crate) fn code_of_best(best: Option<Choice>) -> u32
    ensures { result ≡ best_code best }
{
    match best {
        None => NO_CHOICE,
        Some(choice) => code_of(choice),
    }
}

/// The choice of a board that has this code; None where none of them has it.
pub(crate) fn choice_of(board: Board, code: u32) -> Option<Choice>
    ensures value { result ≡ choice_of_code (cells board) code }
    ensures chosen { IfSome result (Contains (choices (cells board))) }
{
    let mut left = Choices::new(board);
    while let Some(choice) = left.pop_first() {
        if code_of(choice) == code {
            return Some(choice);
        }
    }
    None
}
