//! The two values of an Othello board, seen by the player to move: of a finished game, and of one that goes on.
ghost use Rattle.std.specs.Prelude.{◌≡◌, ◌*ℤ◌};
ghost use Rattle.othello_board.specs.Words.{cells};
ghost use Rattle.othello_eval.specs.Values.{weights, discs_value, eval, final_value, IsWithin};
ghost use Rattle.othello_eval.specs.Masks.{disc_difference};

use super::weighed::Weighed;
use othello_board::Board;
use othello_moves::Mobility;

/// What a disc is worth, and on which squares, as bits: each square stands in just one of these words.
const WEIGHTS: [(i32, u64); 7] = [
    (100, 0x8100_0000_0000_0081),
    (10, 0x2400_8100_0081_0024),
    (5, 0x1800_0081_8100_0018),
    (-1, 0x0000_3c3c_3c3c_0000),
    (-2, 0x003c_4242_4242_3c00),
    (-20, 0x4281_0000_0000_8142),
    (-50, 0x0042_0000_0000_4200),
];

/// How many more discs the mover has than the opponent on these squares.
fn disc_difference(board: Board, squares: u64) -> i32
    ensures value { result ≡ disc_difference board.own board.opp squares }
    ensures within { IsWithin 64 result }
{
    (board.own & squares).count_ones() as i32 - (board.opp & squares).count_ones() as i32
}

/// `weight` for each disc that the mover has more than the opponent on these squares.
fn weighed(board: Board, weight: i32, squares: u64) -> i32
    requires { IsWithin 100 weight }
    ensures value { result ≡ weight *ℤ disc_difference board.own board.opp squares }
    ensures within { IsWithin 6400 result }
{
    weight * disc_difference(board, squares)
}

/// The weights of the mover's discs, less those of the opponent's.
#[inline(always)]
pub(crate) fn discs_value(board: Board) -> i32
    ensures value { result ≡ discs_value (cells board) weights }
    ensures within { IsWithin 928 result }
{
    let mut sum = 0;
    for (weight, squares) in WEIGHTS {
        sum += weighed(board, weight, squares);
    }
    sum
}

/// The evaluation of a board whose game goes on, from -1,184 to 1,184.
#[tactic(auto, using(crate::proofs::MinimaxLemmas::same_bits, crate::proofs::MinimaxLemmas::within_more))]
pub fn eval(board: Board) -> i32
    ensures value { result ≡ eval (cells board) }
    ensures within { IsWithin 1184 result }
{
    Weighed::of(board).eval(Mobility::of(board))
}

/// The value of a finished game, from -128,000 to 128,000: 2000 for each disc that the mover has more
/// than the opponent.
#[tactic(auto, using(crate::proofs::Rules::final_value_rules))]
pub fn final_value(board: Board) -> i32
    ensures value { result ≡ final_value (cells board) }
    ensures within { IsWithin 128000 result }
{
    let (own, opp) = board.count();
    2000 * (own as i32 - opp as i32)
}
