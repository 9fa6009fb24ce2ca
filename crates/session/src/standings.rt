//! What a session's office tells of a job, and of what its tenant has.
use crate::bounds::Bounds;
use othello_eval::Valued;

/// How a job stands.
#[derive(Clone, Copy, Debug, PartialEq, Eq)]
pub enum Standing {
    /// It hasn't ended.
    Pending,
    /// It has ended with a value.
    Done(Analysis),
    /// It was given up, as its tenant's reservation was used up.
    Spent,
    /// It was cancelled.
    Cancelled,
}

/// The value of a position to a depth, the move that attains it, and what is known of each choice.
#[derive(Clone, Copy, Debug, PartialEq, Eq)]
pub struct Analysis {
    /// The value, from -128,000 to 128,000, and the move.
    pub best: Valued,
    /// An entry for each choice, in their order; none at depth 0 and where the game is over.
    pub bounds: Bounds,
}

/// The frames that a tenant has at a moment.
#[derive(Clone, Copy, Debug, PartialEq, Eq)]
pub struct Live {
    /// How many there are.
    pub frames: u64,
    /// How many words they have together, of 64 bits each.
    pub words: u64,
}
