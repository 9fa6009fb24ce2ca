//! The player of texts: a core's answers and inputs as words.
ghost use Rattle.std.specs.Prelude.{◌≤◌};

use crate::agreement::Done;
use crate::reader::ReaderAnswer;
use crate::words::LineWords;
use jamboree::{Leaf, LeafAnswer};
use jamboree_rules::othello_eval::othello_moves::DEEPEST;
use othello_board::Board;
use std::fmt::Debug;
use toys::FanAnswer;

/// An answer that a computation gave, as the words of a text have it.
pub trait FromWords: Drop + Sized {
    /// Reads the words; None where they are no answer.
    fn from_words(words: &mut LineWords<'_>) -> Option<Self>;
}

/// What it was computed from, and its value.
impl FromWords for FanAnswer {
    /// An answer of the toy procedure Fan, read from two words: the question and the value.
    fn from_words(words: &mut LineWords<'_>) -> Option<FanAnswer> {
        let asked = words.number()?;
        let value = words.number()?;
        Some(FanAnswer { asked, value })
    }
}

/// A number that asks for itself.
impl FromWords for u64 {
    /// A number, read from one word.
    fn from_words(words: &mut LineWords<'_>) -> Option<u64> {
        words.number()
    }
}

/// A number that asks for itself.
impl FromWords for ReaderAnswer {
    /// An answer of the procedure Reader, read from one word.
    fn from_words(words: &mut LineWords<'_>) -> Option<ReaderAnswer> {
        Some(ReaderAnswer(words.number()?))
    }
}

/// The leaf, whose answer is computed here.
impl FromWords for LeafAnswer {
    /// The answer to a search's leaf, which is computed from the words that say the leaf.
    fn from_words(words: &mut LineWords<'_>) -> Option<LeafAnswer> {
        Some(LeafAnswer::compute(read_leaf(words)?))
    }
}

/// A leaf: the words of the mover's and of the other's squares, the depth, alpha and beta; None where they are beyond their limits.
fn read_leaf(words: &mut LineWords<'_>) -> Option<Leaf> {
    let own = words.number()?;
    let opp = words.number()?;
    let board = Board::new(own, opp)?;
    let depth = words.byte()?;
    let alpha = words.score()?;
    let beta = words.score()?;
    if depth > DEEPEST || alpha < -200_000 || alpha >= beta || beta > 200_000 {
        return None;
    }
    Some(Leaf {
        board,
        depth,
        alpha,
        beta,
    })
}

/// What a frame gives out to be computed, as a text.
pub trait DrawnInput: Copy + Debug {
    /// Writes the frame's input.
    fn draw(&self, text: &mut String) -> Done;
}

impl DrawnInput for u64 {
    /// Writes a number that is a frame's input.
    fn draw(&self, text: &mut String) -> Done {
        write!(text, "{self}")
    }
}

/// As it is read.
impl DrawnInput for Leaf {
    /// Writes a leaf: both words of the board, the depth, and the window.
    fn draw(&self, text: &mut String) -> Done {
        let own = self.board.own;
        let opp = self.board.opp;
        let depth = self.depth;
        let alpha = self.alpha;
        let beta = self.beta;
        write!(text, "{own} {opp} {depth} {alpha} {beta}")
    }
}
