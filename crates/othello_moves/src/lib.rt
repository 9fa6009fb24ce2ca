//! What a player to move may choose on an Othello board, and the board after each choice.
//!
//! The choices of a board are a list (`choices` of `specs/Choices.antt`): the legal squares, corners
//! first (a1, h1, a8, h8), then the others by rising index; a pass alone where there is no legal
//! square but the opponent has one; nothing where the game is over. The code finds them in one word,
//! in which the bits of exactly the legal squares are set ([`moves`]), for both players at once where both are
//! asked for ([`Mobility`]). [`Choices`] stands for the
//! choices that are left of such a list, and takes them from two words in order. Of the depth to look
//! ahead a square uses one ply, and a pass none ([`plies`]).
//!
//! The word of legal squares spreads, for each direction, over opposing discs by runs of 1, 2, 4 and 6
//! (`proofs/LeadLemmas.antt`), within the squares that may stand inside a run, so that no ray wraps around
//! the board (`proofs/LeadLemmas.antt`). It does so in the lanes of one vector (`proofs/LaneLemmas.antt`): four directions at
//! a time for one player, or two for each player.
//!
//! Why it is so:
//!
//! - `Mobility` and `move_count` exist for speed: a leaf finds both sides' legal squares once, for three uses. `Choices` is no `Iterator`, as its model is the list of choices left.
//! - `Choice::Square(64)` can be written; contracts exclude it where it matters.
//!
//! ```text
//! // the opening, with Black to move: d3, c4, f5, e6
//! let opening = Board::new(0x0000_0008_1000_0000, 0x0000_0010_0800_0000)?;
//! choice_count(opening) == 4
//! choice(opening, 0) == Choice::Square(19)
//! ```
//!
//! The example stands as a test in `serial_tests`.
#![tactic(auto)]

mod choices;
mod game;
mod lanes;
pub mod laws;
mod legal;
mod mobility;
pub mod rows;
mod sequence;

pub use choices::{Choice, DEEPEST, plies};
pub use game::{after, choice, choice_count, over};
pub use legal::{move_count, moves};
pub use mobility::Mobility;
pub use sequence::Choices;
