//! A cactus stack: nodes with words of their own, opened under one another.
//!
//! In a cactus stack (Cilk 5.4) a procedure sees its own storage, its parent's and on to more distant
//! ancestors, and no sibling's. Here each procedure is a node of 1 to 128 words. It is opened under
//! its parent or as a root, may grow, and is closed when no child of it is open.
//!
//! **What a `Stack` stands for.** A finite map from the numbers of the open nodes to their parents
//! and words, and the count of all segments. Contracts see it as a list of that many entries: at
//! place `n` stands the node of number `n` where it is open, and nothing where it isn't. [`Words`]
//! stands for a list of words, and [`Sight`] for a list of such lists, nearest first; both look into a
//! stack of any allocator and name none. A node of `n` words takes `n / 16` segments, rounded up, and a
//! call is refused only where fewer are free.
//!
//! **Why it holds.** The words of a node lie in a chain of segments of one region, each linked to the
//! next, and its number is that of the first. Each chain is as long as its node's words take, no
//! segment stands in two chains or twice in one, what lies after the words is zeros, and no segment
//! is taken but for a chain. Each parent is open, and a child is one deeper than its parent, so the
//! way up ends at a root.
//!
//! Only [`Stack::new`] takes memory. [`Words::get`] follows a link for each sixteen places before
//! the one it reads, [`Words::segment`] one for each segment before the one it lends,
//! [`Stack::open`] costs what its words take, and nothing scans the region.
//!
//! ```text
//! let mut stack = Stack::new(alloc, 4)?;
//! let root = stack.open(None, &[1, 2], 20)?;  // two segments
//! let child = stack.open(Some(root), &[7], 16)?;
//! stack.store(child, 15, 9);                  // the root's words stay
//! let sight = stack.sight(child);             // the child's words, then the root's
//! ```
#![tactic(auto)]

mod chain;
mod charges;
pub mod laws;
mod node;
mod place;
mod sight;
mod stack;
mod view;
mod words;

pub use charges::{charge, growth_charge};
pub use node::{NoSegment, NodeNo};
pub use sight::Sight;
pub use stack::Stack;
pub use words::Words;
