//! What a Jamboree search is: the types, the definitions and the laws that its code answers to.
//!
//! A Jamboree search (Kuszmaul, *Synchronized MIMD Computing*, MIT 1994) looks for the minimax value
//! of an Othello position with many workers. A frame of the scheduler is one node of the tree: its
//! words hold a board, a depth and a window, what the frame is to its parent, how far it has come,
//! the best score so far, and an entry for each of its choices (`specs/Places.antt`, the only file
//! that knows places). The first choice is searched in full; then all others are tested with a
//! window of width one; a choice whose test fails is searched again once all before it are settled;
//! a score of at least beta ends the node and aborts what is under it (`specs/Acts.antt`). Frames
//! near the leaves are searched serially by one worker ([`LeafAnswer::compute`]); a root only where it
//! has no choice to enter: at depth 0, and where the game is over.
//!
//! What makes every reply the minimax value, whatever the order of spawns, steals, inlets and aborts,
//! is one predicate of a frame and its children (`AreFitting` of `specs/Fits.antt`): no settled choice
//! is worth more than the best score, the stored choice is the first that is worth it, each child's
//! window is right for its role, a frame that is done holds a bound of its value, and what each entry
//! says of its choice is true (`specs/Entries.antt`). [`laws`] proves that each act, inlet and answer
//! keeps it, that none of them can be refused, that it makes a frame sound (`specs/Sound.antt`), and
//! that a returned root then holds value, best choice and a table of bounds. [`rows`] computes worked
//! examples of the acts.
//!
//! Why it is so:
//!
//! - Phases, roles and statuses are numbers in definitions, since words hold them, and enums in code.
//!
//! ```text
//! // a leaf of the opening to depth 1, through the full window
//! let leaf = Leaf { board: opening, depth: 1, alpha: -200_000, beta: 200_000 };
//! LeafAnswer::compute(leaf).score() == -3
//! ```
#![tactic(auto)]

pub use leaf_search;
pub use leaf_search::othello_eval;
pub use sched_rules;

pub mod laws;
mod leaf;
pub mod pool_rules;
pub mod rows;

pub use leaf::{Leaf, LeafAnswer};
