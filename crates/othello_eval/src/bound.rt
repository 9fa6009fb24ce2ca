//! What is known of the choices of the board that was asked about, one by one.
use othello_moves::Choice;

/// What a score says of the value of a choice.
#[derive(Clone, Copy, Debug, PartialEq, Eq)]
pub enum BoundKind {
    /// The value is at most the score.
    Low,
    /// The value is at least the score.
    High,
    /// The value is the score.
    Exact,
}

/// What is known of one choice at a root: a score, and what that says of the value of the choice, which
/// is the negated minimax value of the board after it, to the depth that is left.
#[derive(Clone, Copy, Debug, PartialEq, Eq)]
pub struct Bound {
    /// The choice.
    pub choice: Choice,
    /// The score, seen by the player to move at the root, from -128,000 to 128,000.
    pub score: i32,
    /// What the score says of the value of the choice.
    pub kind: BoundKind,
}
