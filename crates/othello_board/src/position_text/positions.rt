//! An Othello position: a board and whose move it is.
use crate::Board;

/// One of the two players, and the colour of that player's discs.
#[derive(Clone, Copy, Debug, PartialEq, Eq)]
pub enum Side {
    /// The player with the black discs.
    Black,
    /// The player with the white discs.
    White,
}

/// A board with the side to move.
#[derive(Clone, Copy, Debug, PartialEq, Eq)]
pub struct Position {
    /// The board, seen by the side to move: its own discs are those of `side`.
    pub board: Board,
    /// The side to move.
    pub side: Side,
}
