//! One square of the Othello board: empty, the mover's or the opponent's.

/// What stands on a square, seen by the player to move.
#[derive(Clone, Copy, Debug, PartialEq, Eq)]
pub enum Cell {
    /// No disc.
    Empty,
    /// A disc of the mover.
    Own,
    /// A disc of the opponent.
    Opp,
}
