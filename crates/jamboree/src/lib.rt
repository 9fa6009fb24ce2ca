//! Jamboree: the search procedure of the scheduler, for Othello.
//!
//! A job of the scheduler is the search of a position to a depth. Its root is submitted with
//! [`root_words`]; [`Jamboree`] says of each frame what it does next, what its inlet does about a
//! child that has returned, what it is computed from near the leaves ([`LeafAnswer::compute`], which
//! is called outside the scheduler's lock), and what it stores of the answer. What these acts are is
//! written in `jamboree_rules`, over a frame's board, window, phase and entries; the code reads a
//! frame's words once into a typed view (`view`, the one module that knows places; `entry` takes the
//! entry of a choice apart), decides by it on a plan of an act or of an inlet (`plan`, `inlet_plan`), and
//! answers with just these acts, each made once (`act`).
//! A frame whose words don't have the form of a frame returns, and its inlet only wakes it. Where frames
//! are known to fit, their form isn't tested.
//!
//! `Jamboree` is a lawful procedure: whatever the order of spawns, steals, inlets and aborts, each
//! frame fits its children (`AreFitting`), and the words that a job keeps of its returned root give a
//! [`Reply`], whose value is the minimax value and whose choice is the best choice of its board. At
//! depth 1 and more it also has what is known of each choice ([`Reply::bound`]): every entry is true,
//! and the best choice's is exact; which kind another has depends on what was spawned when.
//!
//! Why it is so:
//!
//! - Words that aren't a frame's are answered too (`is_formed`), so the procedure is total: `next` returns, an
//!   inlet only wakes, an answer stores nothing. Two frames that fit needn't be parent and child, so that is
//!   tested of them too. An act keeps a choice's rest (kind and score), also on words that no run reaches; a
//!   rest without a kind says nothing.
//! - `Reply::read` requires the words of a fitting, returned root, which a done job's are. A reply is read
//!   under the lock, so it has no choices: `Reply::bound` finds them.
//!
//! ```text
//! // the opening to depth 0: the root is computed by one worker; a deeper one has a place for each choice
//! let jamboree = Jamboree::new(2)?;
//! let root = stack.open(None, &root_words(&position, 0), 12)?;
//! matches!(jamboree.next(&stack.sight(root)).after, Continuation::Compute);
//! let answer = LeafAnswer::compute(jamboree.input(&stack.own(root)));
//! jamboree.accept(&stack.own(root), &answer).as_slice() == [(8, 1_000_000), (9, 65), (7, 4)]
//! ```
#![tactic(auto)]

mod act;
mod codes;
mod entry;
mod frame;
mod inlet;
mod inlet_plan;
mod next;
mod phases;
mod plan;
mod procedure;
mod reading;
mod reply;
mod score;
mod statuses;
mod view;

pub use jamboree_rules::othello_eval::{Bound, BoundKind};
pub use jamboree_rules::{Leaf, LeafAnswer};
pub use procedure::Jamboree;
pub use reply::Reply;
pub use view::root_words;
