//! The functions that the page with the board calls (as WebAssembly); they take and give plain numbers.
ghost use Rattle.std.specs.Prelude.{◌≡◌, ◌≢◌, ◌↔◌, ◌<◌, ◌≤◌, IsTrue, IsSome, bit_and, false, filter};
ghost use Rattle.std.specs.Option.{option_map_or};
ghost use Rattle.othello_board.specs.Words.{cells_of, bits_of};
ghost use Rattle.othello_board.specs.Rules.{squares, is_legal};
ghost use Rattle.othello_moves.specs.Choices.{choices};
ghost use Rattle.othello_moves.specs.Depths.{greatest_depth};
ghost use Rattle.page_engine.specs.leaf_search.othello_eval.Values.{IsWithin};
ghost use Rattle.page_engine.specs.leaf_search.othello_eval.Minimax.{minimax, best_choice, choice_value};
ghost use Rattle.page_engine.specs.Codes.{after_code, analysis_code, choice_of_code, no_analysis, no_value, opp_bits, own_bits, turn_code};

use super::choosing::{board_after, worth, worth_near};
use super::codes::{choice_of, code_of_best};
use leaf_search::search_ordered_full;
use othello_board::Board;
use othello_moves::{Choice, Choices, DEEPEST, moves};

/// What stands for no value.
const NO_VALUE: i32 = i32::MIN;

/// What stands for no analysis.
const NO_ANALYSIS: i64 = i64::MIN;

/// How the game stands: 1 where the player to move has a legal square, 2 where it must pass, 3 where the game is over; 0
/// where the two words share a square, so that they are no board.
#[unsafe(no_mangle)]
pub extern "C" fn turn(own: u64, opp: u64) -> u32
    ensures value { bit_and own opp ≡ 0 → result ≡ turn_code (choices (cells_of own opp)) }
    ensures no_board { bit_and own opp ≢ 0 → result ≡ 0 }
{
    match Board::new(own, opp) {
        None => 0,
        Some(board) => match Choices::new(board).pop_first() {
            None => 3,
            Some(Choice::Pass) => 2,
            Some(Choice::Square(_)) => 1,
        },
    }
}

/// The squares on which the player to move may set a disc, as bits; 0 where the two words are no board.
#[unsafe(no_mangle)]
pub extern "C" fn legal_squares(own: u64, opp: u64) -> u64
    ensures value { bit_and own opp ≡ 0 → result ≡ bits_of (filter (is_legal (cells_of own opp)) squares) }
    ensures no_board { bit_and own opp ≢ 0 → result ≡ 0 }
{
    match Board::new(own, opp) {
        None => 0,
        Some(board) => moves(board),
    }
}

/// Whether the two words are a board, and this is the code of one of its choices: 0 to 63 a legal square, 64 a pass.
#[unsafe(no_mangle)]
pub extern "C" fn is_choice(own: u64, opp: u64, choice: u32) -> bool
    ensures value { bit_and own opp ≡ 0 → IsTrue result ↔ IsSome (choice_of_code (cells_of own opp) choice) }
    ensures no_board { bit_and own opp ≢ 0 → result ≡ false }
{
    match Board::new(own, opp) {
        None => false,
        Some(board) => choice_of(board, choice).is_some(),
    }
}

/// After a choice, the discs of the player who is then to move, as bits; 0 where the words are no board or no choice of it
/// has this code (`is_choice`).
#[unsafe(no_mangle)]
pub extern "C" fn own_after(own: u64, opp: u64, choice: u32) -> u64
    ensures value { bit_and own opp ≡ 0 → result ≡ option_map_or own_bits (after_code (cells_of own opp) choice) 0 }
    ensures no_board { bit_and own opp ≢ 0 → result ≡ 0 }
{
    match Board::new(own, opp) {
        None => 0,
        Some(board) => match board_after(board, choice) {
            None => 0,
            Some(next) => next.own,
        },
    }
}

/// After a choice, the discs of the player who made it, as bits; 0 where the words are no board or no choice of it has this
/// code (`is_choice`).
#[unsafe(no_mangle)]
pub extern "C" fn opp_after(own: u64, opp: u64, choice: u32) -> u64
    ensures value { bit_and own opp ≡ 0 → result ≡ option_map_or opp_bits (after_code (cells_of own opp) choice) 0 }
    ensures no_board { bit_and own opp ≢ 0 → result ≡ 0 }
{
    match Board::new(own, opp) {
        None => 0,
        Some(board) => match board_after(board, choice) {
            None => 0,
            Some(next) => next.opp,
        },
    }
}

/// The minimax value of a board to a depth of 0 to 12 plies, times 128, plus the code of its best choice: 0 to 63 a square,
/// 64 a pass, 65 none. The least `i64` where the words are no board, or the depth is above 12.
///
/// The two come in one number, as the memory of a page's module holds no place that a page could name.
#[unsafe(no_mangle)]
pub extern "C" fn analyse(own: u64, opp: u64, depth: u32) -> i64
    ensures value { bit_and own opp ≡ 0 → depth ≤ greatest_depth → result ≡ analysis_code (minimax depth (cells_of own opp)) (best_choice depth (cells_of own opp)) }
    ensures no_board { bit_and own opp ≢ 0 → result ≡ no_analysis }
    ensures too_deep { greatest_depth < depth → result ≡ no_analysis }
{
    if depth > u32::from(DEEPEST) {
        return NO_ANALYSIS;
    }
    match Board::new(own, opp) {
        None => NO_ANALYSIS,
        Some(board) => {
            let found = search_ordered_full(board, depth as u8);
            i64::from(found.score) * 128 + i64::from(code_of_best(found.choice))
        }
    }
}

/// What a choice is worth to the player to move, where the board is looked at to a depth of 1 to 12 plies: the negated
/// minimax value of the board after it. The least `i32` where the words are no board, no choice of it has this code, or the
/// depth is 0 or above 12.
#[unsafe(no_mangle)]
pub extern "C" fn choice_value(own: u64, opp: u64, depth: u32, choice: u32) -> i32
    ensures value { bit_and own opp ≡ 0 → 0 < depth → depth ≤ greatest_depth → result ≡ option_map_or (choice_value depth (cells_of own opp)) (choice_of_code (cells_of own opp) choice) no_value }
    ensures within { bit_and own opp ≡ 0 → 0 < depth → depth ≤ greatest_depth → IsSome (choice_of_code (cells_of own opp) choice) → IsWithin 128000 result }
    ensures no_board { bit_and own opp ≢ 0 → result ≡ no_value }
    ensures no_depth { depth ≡ 0 → result ≡ no_value }
    ensures too_deep { greatest_depth < depth → result ≡ no_value }
{
    if depth == 0 || depth > u32::from(DEEPEST) {
        return NO_VALUE;
    }
    match Board::new(own, opp) {
        None => NO_VALUE,
        Some(board) => match choice_of(board, choice) {
            None => NO_VALUE,
            Some(chosen) => worth(board, chosen, depth as u8),
        },
    }
}

/// What a choice is worth to the player to move, as [`choice_value`] tells it, whatever the guess; found sooner where
/// the guess is near.
#[unsafe(no_mangle)]
pub extern "C" fn choice_value_near(own: u64, opp: u64, depth: u32, choice: u32, guess: i32) -> i32
    ensures value { bit_and own opp ≡ 0 → 0 < depth → depth ≤ greatest_depth → result ≡ option_map_or (choice_value depth (cells_of own opp)) (choice_of_code (cells_of own opp) choice) no_value }
    ensures within { bit_and own opp ≡ 0 → 0 < depth → depth ≤ greatest_depth → IsSome (choice_of_code (cells_of own opp) choice) → IsWithin 128000 result }
    ensures no_board { bit_and own opp ≢ 0 → result ≡ no_value }
    ensures no_depth { depth ≡ 0 → result ≡ no_value }
    ensures too_deep { greatest_depth < depth → result ≡ no_value }
{
    if depth == 0 || depth > u32::from(DEEPEST) {
        return NO_VALUE;
    }
    match Board::new(own, opp) {
        None => NO_VALUE,
        Some(board) => match choice_of(board, choice) {
            None => NO_VALUE,
            Some(chosen) => worth_near(board, chosen, depth as u8, guess),
        },
    }
}
