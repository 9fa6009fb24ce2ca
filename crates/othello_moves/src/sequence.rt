//! The choices of an Othello board, taken one after another from words of bits.
ghost use Rattle.std.specs.Prelude.{◌≡◌, ◌↔◌, ◌∷◌, [], IsTrue, MatchOption, drop, length, slice_get};

use super::choices::Choice;
use super::legal::moves;
use othello_board::Board;
use std::marker::Model;

/// The bits of a1, h1, a8 and h8.
const CORNERS: u64 = 0x8100_0000_0000_0081;

/// The choices of a board that are left, in order: corners first, then the other squares by rising
/// index, or a pass.
#[derive(Drop)]
pub struct Choices {
    corners: u64,
    others: u64,
    passes: bool,
}

impl Model for Choices {
    ghost use Rattle.std.specs.Prelude.{List};
    ghost use Rattle.othello_moves.specs.declared.choices.Choice.{Choice};
    ghost use Rattle.othello_moves.specs.Sequence.{sequence};

    ghost Value = { List Choice };

    ghost view = { λ c. sequence c.corners c.others c.passes };
}

impl Choices {
    ghost use Rattle.othello_board.specs.Words.{cells};
    ghost use Rattle.othello_moves.specs.Choices.{choices};

    /// All choices of a board. The opponent's legal squares are sought only where the mover has none.
    pub fn new(board: Board) -> Choices
        ensures { result ≡ choices (cells board) }
    {
        let own = moves(board);
        let is_stuck = own == 0;
        Choices {
            corners: own & CORNERS,
            others: own & !CORNERS,
            passes: is_stuck && moves(board.swap()) != 0,
        }
    }

    /// How many choices of the board are left to be taken.
    #[tactic(auto, using(crate::proofs::Rules::len_rules))]
    pub fn len(&self) -> usize
        ensures { result ≡ length self.now }
    {
        (self.corners.count_ones() + self.others.count_ones()) as usize + usize::from(self.passes)
    }

    /// Whether no choice of the board is left to be taken.
    pub fn is_empty(&self) -> bool
        ensures { IsTrue result ↔ (self.now ≡ []) }
    {
        self.len() == 0
    }

    /// Takes the first choice that is left; None where none is left.
    pub fn pop_first(&mut self) -> Option<Choice>
        ensures first { result ≡ slice_get self.old 0 }
        ensures rest { self.new ≡ drop 1 self.old }
        ensures cases { MatchOption result (self.old ≡ []) (λ c. self.old ≡ c ∷ self.new) }
    {
        if self.corners != 0 {
            let square = self.corners.trailing_zeros();
            self.corners &= !(1 << square);
            return Some(Choice::Square(square as u8));
        }
        if self.others != 0 {
            let square = self.others.trailing_zeros();
            self.others &= !(1 << square);
            return Some(Choice::Square(square as u8));
        }
        if self.passes {
            self.passes = false;
            return Some(Choice::Pass);
        }
        None
    }
}
