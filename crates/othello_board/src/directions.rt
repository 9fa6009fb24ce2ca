//! The 8 directions of an Othello board in which a move can outflank discs.
ghost use Rattle.std.specs.Prelude.{◌≡◌, ◌<◌, IfSome};

use super::sides::{above, below, left_of, right_of};

/// A direction on the board. North is towards row 1, west towards column a.
#[derive(Clone, Copy, Debug, PartialEq, Eq)]
pub enum Direction {
    North,
    NorthEast,
    East,
    SouthEast,
    South,
    SouthWest,
    West,
    NorthWest,
}

impl Direction {
    ghost use Rattle.othello_board.specs.Rules.{step};

    /// The next square in this direction, or none at the edge.
    pub fn step(self, square: u8) -> Option<u8>
        requires { square < 64 }
        ensures value { result ≡ step self square }
        ensures within { IfSome result (λ s. s < 64) }
    {
        match self {
            Direction::North => above(square),
            Direction::NorthEast => right_of(above(square)?),
            Direction::East => right_of(square),
            Direction::SouthEast => right_of(below(square)?),
            Direction::South => below(square),
            Direction::SouthWest => left_of(below(square)?),
            Direction::West => left_of(square),
            Direction::NorthWest => left_of(above(square)?),
        }
    }
}
