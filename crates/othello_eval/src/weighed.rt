//! An Othello board that keeps the value of its discs from move to move.
ghost use Rattle.std.specs.Prelude.{◌≡◌, ◌<◌, ◌≤◌, ◌+◌, ◌+ℤ◌, ◌*ℤ◌, pos, neg_ℤ, IsTrue, Contains};
ghost use Rattle.othello_board.specs.Rules.{exchanged, is_legal, played};
ghost use Rattle.othello_board.specs.Words.{cells, cells_of};
ghost use Rattle.othello_moves.specs.Choices.{choices, after};
ghost use Rattle.othello_eval.specs.Values.{weights, discs_value, eval, IsWithin};
ghost use Rattle.othello_eval.specs.Masks.{weight_at, row_value, kind_of};

use super::row_values::ROW_VALUES;
use super::values::discs_value;
use othello_board::Board;
use othello_moves::{Choice, Mobility, after};

/// What a disc is worth on each square.
#[rattlefmt::skip]
const SQUARE_WEIGHTS: [i32; 64] = [
    100, -20, 10, 5, 5, 10, -20, 100,
    -20, -50, -2, -2, -2, -2, -50, -20,
    10, -2, -1, -1, -1, -1, -2, 10,
    5, -2, -1, -1, -1, -1, -2, 5,
    5, -2, -1, -1, -1, -1, -2, 5,
    10, -2, -1, -1, -1, -1, -2, 10,
    -20, -50, -2, -2, -2, -2, -50, -20,
    100, -20, 10, 5, 5, 10, -20, 100,
];

/// What a disc is worth on this square, 0 to 63.
#[inline(always)]
fn weight_of(square: u8) -> i32
    requires { square < 64 }
    ensures value { result ≡ weight_at square }
    ensures within { IsWithin 100 result }
{
    SQUARE_WEIGHTS[square as usize]
}

/// Which of the rows that are alike in weights this row is, 0 to 7 from the top.
#[inline(always)]
fn kind_of(row: u32) -> usize
    requires { row < 8 }
    ensures value { result ≡ kind_of row }
    ensures within { result < 4 }
{
    if row < 4 {
        row as usize
    } else {
        (7 - row) as usize
    }
}

/// The weights of the squares of a word that stand in this row, 0 to 7.
#[inline(always)]
fn row_value(word: u64, row: u32) -> i32
    requires { row < 8 }
    ensures value { result ≡ row_value word row }
    ensures within { IsWithin 300 result }
{
    ROW_VALUES[kind_of(row)][(word >> (8 * row) & 255) as usize]
}

/// The weights of the squares of a word that stand in this row, 0 to 4, and the next three.
#[inline(always)]
fn half_value(word: u64, row: u32) -> i32
    requires { row ≤ 4 }
    ensures value { result ≡ row_value word row +ℤ (row_value word (row + 1) +ℤ (row_value word (row + 2) +ℤ row_value word (row + 3))) }
    ensures within { IsWithin 1200 result }
{
    row_value(word, row)
        + (row_value(word, row + 1) + (row_value(word, row + 2) + row_value(word, row + 3)))
}

/// The weights of the squares of a word.
#[inline(always)]
fn word_value(word: u64) -> i32
    ensures value { result ≡ discs_value (cells_of word 0) weights }
    ensures within { IsWithin 928 result }
{
    half_value(word, 0) + half_value(word, 4)
}

/// The value of the discs after a move, from what it was, the weights of the flipped discs and that of the square.
#[inline(always)]
fn turned(discs: i32, flipped: i32, weight: i32) -> i32
    requires discs { IsWithin 928 discs }
    requires flipped { IsWithin 928 flipped }
    requires weight { IsWithin 100 weight }
    ensures { result ≡ neg_ℤ (discs +ℤ (pos 2 *ℤ flipped +ℤ weight)) }
{
    -(discs + 2 * flipped + weight)
}

/// A board with the weights of the mover's discs less those of the opponent's. A move changes that value by what it
/// flips and by its square, so that a search finds it from ply to ply and no leaf adds it up.
#[derive(Clone, Copy)]
pub struct Weighed {
    /// The board.
    pub board: Board,
    /// The weights of the mover's discs, less those of the opponent's.
    pub discs: i32,
    ghost weighed: { discs ≡ discs_value (cells board) weights },
}

impl Weighed {
    /// Adds up the weights of a board's discs.
    pub fn of(board: Board) -> Weighed
        ensures { result.board ≡ board }
    {
        Weighed {
            board,
            discs: discs_value(board),
        }
    }

    /// The board after a choice, seen by the other player.
    #[inline(always)]
    pub fn after(self, choice: Choice) -> Weighed
        requires { Contains (choices (cells self.board)) choice }
        ensures { cells result.board ≡ after (cells self.board) choice }
    {
        match choice {
            Choice::Square(square) => self.play(square),
            Choice::Pass => self.swap(),
        }
    }

    /// The board after the mover sets a disc on this square, where that is legal. The value changes its sign, after the
    /// weight of the square was added and twice the weights of the discs that are flipped: those that were the
    /// opponent's, and are again the opponent's as the other player sees it.
    #[inline(always)]
    fn play(self, square: u8) -> Weighed
        requires on_board { square < 64 }
        requires legal { IsTrue (is_legal (cells self.board) square) }
        ensures { cells result.board ≡ played (cells self.board) square }
    {
        let board = self.board.play(square);
        let flipped = word_value(self.board.opp & board.opp);
        Weighed {
            board,
            discs: turned(self.discs, flipped, weight_of(square)),
        }
    }

    /// The board as the other player sees it.
    #[inline(always)]
    #[tactic(auto, using(crate::proofs::Rules::swap_rules))]
    fn swap(self) -> Weighed
        ensures { cells result.board ≡ exchanged (cells self.board) }
    {
        Weighed {
            board: self.board.swap(),
            discs: -self.discs,
        }
    }

    /// The evaluation of the board, whose game goes on and whose legal squares are known.
    #[inline(always)]
    pub fn eval(self, mobility: Mobility) -> i32
        requires { mobility.board ≡ self.board }
        ensures value { result ≡ eval (cells self.board) }
        ensures within { IsWithin 1184 result }
    {
        let difference = mobility.own.count_ones() as i32 - mobility.opp.count_ones() as i32;
        self.discs + 4 * difference
    }
}
