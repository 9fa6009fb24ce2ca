//! One choice of the player to move on an Othello board: a square or a pass.
ghost use Rattle.std.specs.Prelude.{◌≡◌, ◌≤◌};
ghost use Rattle.othello_moves.specs.Choices.{plies};

/// The greatest depth to which a board may be searched, in plies.
pub const DEEPEST: u8 = 12;

/// What the player to move may do.
#[derive(Clone, Copy, Debug, PartialEq, Eq)]
pub enum Choice {
    /// To set a disc on this square, 0 to 63.
    Square(u8),
    /// To pass, which is the one choice of a side that can't move in a game that isn't over.
    Pass,
}

/// The plies that a choice uses: 1 for a square, and none for a pass.
pub fn plies(choice: Choice) -> u32
    ensures value { result ≡ plies choice }
    ensures small { result ≤ 1 }
{
    match choice {
        Choice::Square(_) => 1,
        Choice::Pass => 0,
    }
}
