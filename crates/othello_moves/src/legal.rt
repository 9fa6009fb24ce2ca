//! The legal squares of a player on an Othello board, or of both at once, as words. Each player's are found backwards
//! from its discs in all directions, four at a time. Where both players' are sought, the lanes of one half of a vector
//! are shifted by the same number, so that half a vector does as well where a whole one isn't to be had.
ghost use Rattle.std.specs.Prelude.{◌≡◌, length, filter};
ghost use Rattle.othello_board.specs.Rules.{squares, is_legal, exchanged};
ghost use Rattle.othello_board.specs.Words.{cells, bits_of};
ghost use Rattle.othello_moves.specs.Choices.{legal_squares};

use super::lanes::{Four, lower, raise};
use othello_board::Board;

/// The squares of columns b to g: those on which an opposing disc may be inside a run in any direction but north and
/// south, so that no shift leads around the left or the right edge.
const INNER_COLUMNS: u64 = 0x7e7e_7e7e_7e7e_7e7e;

/// The word in which the bits of exactly the legal squares are set.
#[inline(always)]
pub fn moves(board: Board) -> u64
    ensures { result ≡ bits_of (filter (is_legal (cells board)) squares) }
{
    let Board { own, opp, .. } = board;
    let discs = Four {
        first: own,
        second: own,
        third: own,
        fourth: own,
    };
    let others = Four {
        first: opp,
        second: opp,
        third: opp,
        fourth: opp,
    };
    let inner = Four {
        first: u64::MAX,
        second: INNER_COLUMNS,
        third: INNER_COLUMNS,
        fourth: INNER_COLUMNS,
    };
    let steps = Four {
        first: 8,
        second: 7,
        third: 1,
        fourth: 9,
    };
    let found = lower(discs, others, inner, steps) | raise(discs, others, inner, steps);
    let [columns, rising, rows, falling] = found.to_array();
    (columns | rising | (rows | falling)) & !(own | opp)
}

/// The words in which the bits of exactly the legal squares are set: of the mover, and of the opponent if it were to move.
#[inline(always)]
pub(crate) fn both_moves(board: Board) -> (u64, u64)
    ensures own { result.0 ≡ bits_of (filter (is_legal (cells board)) squares) }
    ensures opp { result.1 ≡ bits_of (filter (is_legal (exchanged (cells board))) squares) }
{
    let Board { own, opp, .. } = board;
    let discs = Four {
        first: own,
        second: opp,
        third: own,
        fourth: opp,
    };
    let others = Four {
        first: opp,
        second: own,
        third: opp,
        fourth: own,
    };
    let rows = Four {
        first: u64::MAX,
        second: u64::MAX,
        third: INNER_COLUMNS,
        fourth: INNER_COLUMNS,
    };
    let slants = Four {
        first: INNER_COLUMNS,
        second: INNER_COLUMNS,
        third: INNER_COLUMNS,
        fourth: INNER_COLUMNS,
    };
    let straight = Four {
        first: 8,
        second: 8,
        third: 1,
        fourth: 1,
    };
    let aslant = Four {
        first: 7,
        second: 7,
        third: 9,
        fourth: 9,
    };
    let found = (lower(discs, others, rows, straight) | raise(discs, others, rows, straight))
        | (lower(discs, others, slants, aslant) | raise(discs, others, slants, aslant));
    let empty = !(discs.lanes() | others.lanes());
    let [near_own, near_opp, far_own, far_opp] = (found & empty).to_array();
    (near_own | far_own, near_opp | far_opp)
}

/// How many legal squares there are; a pass isn't counted.
#[tactic(auto, using(crate::proofs::Rules::move_count_rules))]
pub fn move_count(board: Board) -> u32
    ensures { result ≡ length (legal_squares (cells board)) }
{
    moves(board).count_ones()
}
