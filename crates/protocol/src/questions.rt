//! What a line asks of a position: its value to a depth.
ghost use Rattle.std.specs.Prelude.{◌≤◌};
ghost use Rattle.othello_moves.specs.Depths.{greatest_depth};

use othello_board::position_text::Position;

/// A position, and the depth to which its value is asked for.
#[derive(Clone, Copy, Debug, PartialEq, Eq)]
pub struct Question {
    /// The depth in plies, 0 to 12.
    pub depth: u8,
    /// The position.
    pub position: Position,
    ghost shallow: { depth ≤ greatest_depth },
}
