//! Serial window search of an Othello position: alpha-beta, fail-soft, choices in order, or in the order of a key.
//!
//! [`search`] looks at a board to a depth of 0 to 12 plies through a window from `alpha` to `beta`. The
//! values that it stands on are those of `othello_eval`: `minimax`, the plain recursion over the choices
//! of a board, and `best_choice`, the first choice in order that attains it. The score is a bound of the
//! minimax value, as `IsBound` of `specs/Bounds.antt` says it: an upper bound where it is at most alpha,
//! a lower bound where it is at least beta, and between the two the value itself; there the choice is
//! the best choice. [`search_full`] takes the full window, in which every value lies, so its score is
//! the value. The choice of any score is one of the board's choices, or none. Which search it is, the
//! contract says too: its score, outside the window as well, and the count of positions entered are those of
//! `searched` of `specs/Serial.antt`, a recursion that takes the choices in the rules' order, each through the window from
//! `-beta` to `-max(alpha, best)`, and leaves the others out as soon as best is at least beta. The drawn rows of `transcripts`
//! compare both with a model that shares no code with the crates.
//!
//! [`search_ordered`] promises the same bound and choice, and enters far fewer positions: from a depth of 3 on it takes the choices by a key
//! that the boards after them give (`src/ranking.rt`), the first through the window and each other first through a window
//! of width one, where most turn out to be no better. Of equal choices the first in the rules' order is still found: at the
//! first position a choice that comes earlier than the best so far is tested from one below the best score, so that a tie counts.
//! Below that depth it takes corners first, then the squares of the edges that touch no corner, then the others (`src/classes.rt`).
//! How much it enters no contract says; a test compares it with a peer's numbers. Between two choices `IsRanking` of
//! `proofs/RankingLemmas.antt` holds: as below, but what is known of the choice is that it attains the best score and that none
//! at an earlier place does; as the list is a rearrangement of the choices, none of them is left out.
//!
//! What makes [`search`] true, between two choices of a position: no choice taken so far is worth more than the
//! best score, and where that is above alpha, it is just what the first choice that has it is worth
//! (`IsBestOf` of `proofs/WindowLemmas.antt`). Below the first position nobody asks for the choice, so it isn't kept
//! there: two functions, one for the first position and one for all below it, with one invariant, which holds for any order of
//! the choices; in the rules' order the best so far and the choices that are left also give what the specified search gives
//! (`IsInTurn` of `proofs/SerialLemmas.antt`). The position after a choice is searched through the
//! window from `-beta` to `-max(alpha, best)`, and a score of at least beta ends the position. Nothing
//! is kept between two searches, no memory is taken, and the depth falls at each ply.
//!
//! ```text
//! // the opening, with Black to move, two plies deep: -4 by d3 (square 19)
//! search(opening, 2, -INF, INF) == Scored { score: -4, choice: Some(Choice::Square(19)), visited: 15 }
//! ```
#![tactic(auto)]

pub use othello_eval;

mod classes;
mod leaf;
mod ordered;
mod ranking;
pub mod rows;
mod scored;
mod tree;
mod window;

pub use ordered::{search_ordered, search_ordered_full};
pub use scored::Scored;
pub use tree::{search, search_full};
pub use window::INF;
