//! The values of an Othello board, seen by the player to move: of a finished game, of a game that goes
//! on, and the minimax value to a depth.
//!
//! [`final_value`] and [`eval`] are the two sums of `specs/Values.antt` over the 64 cells of a board:
//! 2000 for each disc of difference in a finished game, and else the weights of the own discs less
//! those of the opposing ones, and 4 for each legal square more than the opponent has. An evaluation
//! lies within -1,184 and 1,184, so that one disc in a finished game outranks it; every value lies
//! within -128,000 and 128,000. `minimax` and `best_choice` of `specs/Minimax.antt` are plain
//! recursions over these and the choices of a board; [`plain`] computes both as they are written.
//! Boards are values, and nothing here keeps a state. A [`Bound`] is what is known of one choice at a
//! root, and `IsTable` of `specs/Tables.antt` says which lists of them are tables of a board.
//!
//! Why it is so:
//!
//! - Minimax recurses on the depth alone: a pass uses no ply, so a recursion by choices wouldn't end. So after
//!   a pass it looks at the other side's legal squares, of which there is at least one
//!   (`a_pass_is_followed_by_a_square`). The code's recursions decrease twice the depth, plus one if the mover
//!   passes (`goes_down`).
//!
//! ```text
//! // the opening, with Black to move, one ply deep: d3 is the first of four equal moves
//! plain(opening, 1) == Valued { value: -3, choice: Some(Choice::Square(19)) }
//! ```
//!
//! The example stands as a test in `serial_tests`, which has the tests of the crates that it stands on.
#![tactic(auto)]

pub use othello_moves;

mod bound;
pub mod laws;
mod recursion;
mod row_values;
pub mod rows;
mod values;
mod weighed;

pub use bound::{Bound, BoundKind};
pub use recursion::{Valued, plain};
pub use values::{eval, final_value};
pub use weighed::Weighed;
