//! The Othello board of a player to move: two words of 64 bits, and the flipping of discs.
//!
//! A [`Board`] stands for a list of 64 cells, each empty, the mover's own or the opponent's
//! (`cells` of `specs/Words.antt`): bit `s` of `own` is an own disc on square `s`, bit `s` of `opp`
//! an opposing one. Squares are numbered 0 to 63, row by row from a1. The invariant that makes this
//! true is that the two words share no bit. What a move flips is said over the list of cells by
//! `specs/Rules.antt`, with the rules of the World Othello Federation and no bit in sight.
//!
//! [`Board::flips`] reads the rays of a square from a table of words: a run ends at the nearest square of the ray that
//! isn't opposing, and what lies before it is flipped where that square is the mover's. It finds four runs at a time, in
//! the lanes of one vector: one form for the directions in which squares rise in number, and one for the others
//! (`specs/Runs.antt`; `proofs/EndLemmas.antt` says that both are the run of the rules).
//!
//! Why it is so:
//!
//! - `Board` has public words and no model, as a search needs both cells and words. A ghost field says that the
//!   words share no bit.
//!
//! ```text
//! // the opening, with Black to move: d3 (square 19) flips d4 (square 27)
//! let opening = Board::new(0x0000_0008_1000_0000, 0x0000_0010_0800_0000)?;
//! opening.flips(19) == 1 << 27
//! ```
//!
//! The example stands as a test in `serial_tests`.
#![tactic(auto)]

mod boards;
mod cells;
mod directions;
pub mod position_text;
mod rays;
pub mod rows;
mod runs;
mod sides;

pub use boards::Board;
pub use cells::Cell;
pub use directions::Direction;
