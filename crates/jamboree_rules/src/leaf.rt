//! What a leaf of the search is computed from, and what a worker's computation gives.
ghost use Rattle.std.specs.Prelude.{◌≡◌, ◌≤◌, ◌<ℤ◌, ◌≤ℤ◌, pos, negsuc, IfSome, Contains};
ghost use Rattle.std.proofs.Props.{props};
ghost use Rattle.othello_board.specs.Words.{cells};
ghost use Rattle.othello_moves.specs.Choices.{choices};
ghost use Rattle.othello_moves.specs.Depths.{greatest_depth};
ghost use Rattle.leaf_search.specs.othello_eval.Minimax.{minimax, best_choice};
ghost use Rattle.leaf_search.specs.Bounds.{IsBound};

use leaf_search::search_ordered;
use othello_board::Board;
use othello_moves::Choice;

/// The input of a search that one worker does by itself, outside the scheduler's lock: a board, a depth and a
/// window. Its fields are proved to be in the ranges that [`search_ordered`] requires.
#[derive(Clone, Copy, Debug, PartialEq, Eq)]
pub struct Leaf {
    /// The board, seen by the player to move.
    pub board: Board,
    /// The depth left, 0 to 12 plies.
    pub depth: u8,
    /// The lower end of the window, at least -200,000 and below `beta`.
    pub alpha: i32,
    /// The upper end of the window, at most 200,000.
    pub beta: i32,
    ghost shallow: { depth ≤ greatest_depth },
    ghost least: { negsuc 199999 ≤ℤ alpha },
    ghost window: { alpha <ℤ beta },
    ghost greatest: { beta ≤ℤ pos 200000 },
}

/// What the search of a [`Leaf`] gave. Only [`LeafAnswer::compute`] makes one. Its score is a bound of the leaf's
/// minimax value; inside the window it is the value, and the choice is the best choice.
#[derive(Clone, Copy, Debug, PartialEq, Eq)]
pub struct LeafAnswer {
    leaf: Leaf,
    score: i32,
    choice: Option<Choice>,
    ghost bound: { IsBound leaf.alpha leaf.beta score (minimax leaf.depth (cells leaf.board)) } by { Prim.hlevel props },
    ghost best: { ∥ (leaf.alpha <ℤ score → score <ℤ leaf.beta → choice ≡ best_choice leaf.depth (cells leaf.board)) ∥₁ },
    ghost chosen: { ∥ IfSome choice (Contains (choices (cells leaf.board))) ∥₁ },
    ghost low: { negsuc 127999 ≤ℤ score },
    ghost high: { score ≤ℤ pos 128000 },
}

impl LeafAnswer {
    ghost use Rattle.std.specs.Prelude.{◌≡◌};
    ghost use Rattle.jamboree_rules.specs.Leaves.{leaf_of_answer, score_of_answer, choice_of_answer};

    /// Searches a leaf, by [`search_ordered`]. No other function makes an answer. It takes no memory and no lock.
    #[inline(always)]
    pub fn compute(leaf: Leaf) -> LeafAnswer
        ensures { leaf_of_answer result ≡ leaf }
    {
        let found = search_ordered(leaf.board, leaf.depth, leaf.alpha, leaf.beta);
        LeafAnswer {
            leaf,
            score: found.score,
            choice: found.choice,
        }
    }

    /// The leaf (board, depth and window) that this answer was computed for.
    pub fn leaf(&self) -> Leaf
        ensures { result ≡ leaf_of_answer self.now }
    {
        self.leaf
    }

    /// The score that the search gave, from -128,000 to 128,000: at most the leaf's alpha it is an upper bound of
    /// the minimax value, at least beta a lower bound, and in between the value.
    pub fn score(&self) -> i32
        ensures { result ≡ score_of_answer self.now }
    {
        self.score
    }

    /// The choice that the search gave: inside the window the best choice, None at depth 0 and in a finished
    /// game. Where the score is outside the window, nothing is promised but that it is one of the board's choices
    /// or None.
    pub fn choice(&self) -> Option<Choice>
        ensures { result ≡ choice_of_answer self.now }
    {
        self.choice
    }
}
