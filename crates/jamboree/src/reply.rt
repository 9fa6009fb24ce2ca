//! The reply to a job that is a search: value, choice, and the table of bounds.
ghost use Rattle.std.specs.Prelude.{◌≡◌, ◌≤◌, length, take};
ghost use Rattle.std.proofs.Props.{props};
ghost use Rattle.othello_board.specs.Words.{cells};
ghost use Rattle.othello_moves.specs.Choices.{choices};
ghost use Rattle.othello_moves.specs.Depths.{greatest_depth};
ghost use Rattle.jamboree_rules.specs.othello_eval.Minimax.{minimax, best_choice};
ghost use Rattle.jamboree_rules.specs.othello_eval.Tables.{entered, IsTable};
ghost use Rattle.jamboree_rules.proofs.EvalLemmas.TableProps.{table-prop};
ghost use Rattle.jamboree.specs.Knowledge.{bounds_by};

use crate::entry::KnownBound;
use othello_board::Board;
use othello_moves::Choice;

/// The most choices of a board.
pub(crate) const MOST: usize = 64;

/// The minimax value and the best choice of a board to a depth, and what is known of each choice. Only
/// [`Reply::read`] makes one, from the words that a job kept of its root.
#[derive(Clone, Copy, Debug, PartialEq, Eq)]
pub struct Reply {
    pub(crate) board: Board,
    pub(crate) depth: u8,
    pub(crate) value: i32,
    pub(crate) choice: Option<Choice>,
    /// How many choices have an entry.
    pub(crate) count: usize,
    /// What is known of these, in their order. The places after them hold a filler.
    pub(crate) known: [KnownBound; MOST],
    ghost shallow: { depth ≤ greatest_depth },
    ghost is_value: { value ≡ minimax depth (cells board) } by { Prim.hlevel props },
    ghost is_best: { choice ≡ best_choice depth (cells board) } by { Prim.hlevel props },
    ghost counted: { count ≡ length (entered depth (cells board)) },
    ghost few: { count ≤ 64 },
    ghost table: { IsTable depth (cells board) (bounds_by (choices (cells board)) (take count known)) } by { table-prop _ _ _ },
}
