//! What the search of a line of `solve` finds, and how.

use othello_eval::Valued;
use tenant_quota::Left;

/// How an answer was found.
#[derive(Clone, Copy, Debug, PartialEq, Eq)]
pub enum Way {
    /// The core's job was done, and the answer is its reply.
    Done,
    /// The job was spent, since the core's segments, nodes or steps were at their end; the answer is that of one
    /// serial search.
    Spent,
    /// The worker stopped before the job was done or spent, which isn't expected; the answer is that of one
    /// serial search.
    Stopped,
}

/// What a search found.
#[derive(Clone, Copy, Debug, PartialEq, Eq)]
pub struct Searched {
    /// The minimax value, from -128,000 to 128,000, seen by the side to move, and the best choice, the first that
    /// attains the value; none at depth 0 and in a finished game.
    pub answer: Valued,
    /// How it was found.
    pub way: Way,
    /// What the core's tenant, which reserves all of it, had left at the end.
    pub left: Left,
}
