//! The page's engine: what the choices of a board lead to, and are worth.
ghost use Rattle.std.specs.Prelude.{◌≡◌, ◌<◌, ◌≤◌, Contains};
ghost use Rattle.std.specs.Option.{option_map};
ghost use Rattle.othello_board.specs.Words.{cells};
ghost use Rattle.othello_moves.specs.Choices.{choices};
ghost use Rattle.page_engine.specs.leaf_search.othello_eval.Values.{IsWithin};
ghost use Rattle.page_engine.specs.leaf_search.othello_eval.Minimax.{choice_value, minimax};
ghost use Rattle.page_engine.specs.Codes.{after_code};

use super::codes::choice_of;
use leaf_search::{INF, search_ordered, search_ordered_full};
use othello_board::Board;
use othello_moves::{Choice, DEEPEST, after, plies};

/// The board after the choice that has this code, seen by the other player; None where no choice of the board has it.
pub(crate) fn board_after(board: Board, code: u32) -> Option<Board>
    ensures { option_map cells result ≡ after_code (cells board) code }
{
    match choice_of(board, code) {
        None => None,
        Some(choice) => Some(after(board, choice)),
    }
}

/// What a choice of a board is worth to the mover, where the board is looked at to a depth of 1 to 12 plies.
pub(crate) fn worth(board: Board, choice: Choice, depth: u8) -> i32
    requires chosen { Contains (choices (cells board)) choice }
    requires deep { 0 < depth }
    requires shallow { depth ≤ DEEPEST }
    ensures value { result ≡ choice_value depth (cells board) choice }
    ensures within { IsWithin 128000 result }
{
    -search_ordered_full(after(board, choice), depth - plies(choice) as u8).score
}

/// The greatest value of a board.
const GREATEST: i32 = 128_000;

/// How far a guess may be off without a second search.
const WIDTH: i32 = 20;

/// The minimax value of a board. It is sought near a guess first, and where it isn't there, on the side where it must
/// be.
fn value_near(board: Board, depth: u8, guess: i32) -> i32
    requires shallow { depth ≤ DEEPEST }
    requires near { IsWithin 128000 guess }
    ensures value { result ≡ minimax depth (cells board) }
    ensures within { IsWithin 128000 result }
{
    let found = search_ordered(board, depth, guess - WIDTH, guess + WIDTH).score;
    if found <= guess - WIDTH {
        return search_ordered(board, depth, -INF, found + 1).score;
    }
    if found >= guess + WIDTH {
        return search_ordered(board, depth, found - 1, INF).score;
    }
    found
}

/// What a choice is worth to the player to move, as [`worth`] finds it; sooner where the guess is near.
pub(crate) fn worth_near(board: Board, choice: Choice, depth: u8, guess: i32) -> i32
    requires chosen { Contains (choices (cells board)) choice }
    requires deep { 0 < depth }
    requires shallow { depth ≤ DEEPEST }
    ensures value { result ≡ choice_value depth (cells board) choice }
    ensures within { IsWithin 128000 result }
{
    let seen = -guess.clamp(-GREATEST, GREATEST);
    -value_near(after(board, choice), depth - plies(choice) as u8, seen)
}
