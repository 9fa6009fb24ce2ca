//! The choices of a board by classes of squares, for the last plies of the ordered serial search: there a list by keys
//! takes longer to make than it saves.
ghost use Rattle.std.specs.Prelude.{◌≡◌, ◌↔◌, ◌∷◌, [], IsTrue, List, MatchOption};
ghost use Rattle.std.specs.List.Sorted.{IsPermutation};
ghost use Rattle.othello_board.specs.Words.{cells};
ghost use Rattle.othello_eval.specs.othello_moves.Choices.{choices};
ghost use Rattle.othello_eval.specs.othello_moves.declared.choices.Choice.{Choice};

use othello_board::Board;
use othello_eval::othello_moves::{Choice, moves};
use std::marker::Model;

/// The bits of a1, h1, a8 and h8.
const CORNERS: u64 = 0x8100_0000_0000_0081;

/// The squares of the edges that touch no corner.
const EDGES: u64 = 0x3c00_8181_8181_003c;

/// In which order a search takes the choices below its first position. By each it finds a bound; they differ in how many
/// positions are entered.
pub(crate) trait ClassOrder {
    /// Whether a list (the second) has the choices of a board, which come first as the rules order them, in this order.
    ghost IsTaken: { List Choice → List Choice → Type 0 };

    /// All choices of a board in this order.
    fn list(board: Board) -> Classed
        ensures all { IsPermutation (choices (cells board)) result }
        ensures order { IsTaken (choices (cells board)) result };
}

/// The specified order, which is the rules'.
pub(crate) struct Specified;

impl ClassOrder for Specified {
    ghost IsTaken = { λ all list. list ≡ all };

    #[inline(always)]
    fn list(board: Board) -> Classed {
        Classed::new(board, 0)
    }
}

/// The squares of the edges early, which is faster.
pub(crate) struct EdgesEarly;

impl ClassOrder for EdgesEarly {
    ghost IsTaken = { λ all list. Unit {0} };

    #[inline(always)]
    fn list(board: Board) -> Classed {
        Classed::new(board, EDGES)
    }
}

/// The choices of a board that are left: corners, then the squares of a class, then the others, each by rising index; or a pass.
#[derive(Drop)]
pub(crate) struct Classed {
    corners: u64,
    class: u64,
    others: u64,
    passes: bool,
}

impl Model for Classed {
    ghost use Rattle.std.specs.Prelude.{List};
    ghost use Rattle.othello_eval.specs.othello_moves.declared.choices.Choice.{Choice};
    ghost use Rattle.leaf_search.specs.Classes.{classed};

    ghost Value = { List Choice };

    ghost view = { λ c. classed c.corners c.class c.others c.passes };
}

impl Classed {
    /// All choices of a board, where the class has these squares. With none of them the order is the rules'.
    #[inline(always)]
    pub(crate) fn new(board: Board, class: u64) -> Classed
        ensures all { IsPermutation (choices (cells board)) result }
        ensures rules { class ≡ 0 → result ≡ choices (cells board) }
    {
        let own = moves(board);
        let is_stuck = own == 0;
        let others = own & !CORNERS;
        Classed {
            corners: own & CORNERS,
            class: others & class,
            others: others & !class,
            passes: is_stuck && moves(board.swap()) != 0,
        }
    }

    /// Whether no choice of the board is left to be searched.
    #[inline(always)]
    pub(crate) fn is_empty(&self) -> bool
        ensures { IsTrue result ↔ (self.now ≡ []) }
    {
        if self.corners | self.class | self.others != 0 {
            return false;
        }
        !self.passes
    }

    /// Takes the first choice that is left; None where none is left.
    #[inline(always)]
    pub(crate) fn pop_first(&mut self) -> Option<Choice>
        ensures { MatchOption result (self.old ≡ []) (λ c. self.old ≡ c ∷ self.new) }
    {
        if self.corners != 0 {
            let square = self.corners.trailing_zeros();
            self.corners &= !(1 << square);
            return Some(Choice::Square(square as u8));
        }
        if self.class != 0 {
            let square = self.class.trailing_zeros();
            self.class &= !(1 << square);
            return Some(Choice::Square(square as u8));
        }
        if self.others != 0 {
            let square = self.others.trailing_zeros();
            self.others &= !(1 << square);
            return Some(Choice::Square(square as u8));
        }
        if self.passes {
            self.passes = false;
            return Some(Choice::Pass);
        }
        None
    }
}
