//! The legal squares of both players on an Othello board, found once and used for all that asks for them.
ghost use Rattle.std.specs.Prelude.{◌≡◌, ◌↔◌, [], IsTrue, filter};
ghost use Rattle.othello_board.specs.Rules.{squares, exchanged, is_legal};
ghost use Rattle.othello_board.specs.Words.{cells, bits_of};
ghost use Rattle.othello_moves.specs.Choices.{choices};

use super::legal::both_moves;
use othello_board::Board;

/// A board with the legal squares of the mover and of the opponent, each as one word.
#[derive(Clone, Copy)]
pub struct Mobility {
    /// The board.
    pub board: Board,
    /// The squares that are legal for the mover, as bits.
    pub own: u64,
    /// The squares that would be legal for the opponent if it were to move, as bits.
    pub opp: u64,
    ghost own_legal: { own ≡ bits_of (filter (is_legal (cells board)) squares) },
    ghost opp_legal: { opp ≡ bits_of (filter (is_legal (exchanged (cells board))) squares) },
}

impl Mobility {
    /// Finds the legal squares of both players on a board.
    #[inline(always)]
    pub fn of(board: Board) -> Mobility
        ensures { result.board ≡ board }
    {
        let (own, opp) = both_moves(board);
        Mobility { board, own, opp }
    }

    /// Whether the game is over: neither side can move.
    #[inline(always)]
    pub fn is_over(self) -> bool
        ensures { IsTrue result ↔ (choices (cells self.board) ≡ []) }
    {
        self.own | self.opp == 0
    }
}
