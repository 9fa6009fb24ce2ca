//! Deques of tasks, one for each worker of a pool, from which the other workers steal.
//!
//! A worker pushes its tasks on a deque of its own and takes the newest without waiting for anybody. A
//! worker that has none steals the oldest of another's. [`deal`] makes all deques and deals their
//! [`DequeEnds`] to the workers before any thread starts: each gets the owner's end of one deque and a thief's
//! end of each. When the threads have ended, the ends come back ([`Returned`]), and what was pushed on
//! each deque is what was taken from it and what is left, each task as often ([`Returned::sums`]). The
//! ends are generic in their allocator, and a pool's are those of `Global`.
//!
//! **What the values stand for.** An end of a deque has a seat there: which deque it is, and a [`Tally`]
//! of the tasks that this end pushed and took (`specs/Seats.antt`). A push, a pop and a steal that find
//! something add just that task to the tally of the one seat that steps; a push that is handed back, and
//! a pop and a steal that find nothing, change none. That nothing is found proves nothing of a deque.
//! [`rows`] tries these definitions on two workers.
//!
//! **Why it holds.** The deques are those of `crossbeam_deque`, under the rule of `specs/Tallies.antt`: by
//! every weighing of tasks, what all seats of a deque pushed is what they took and what the deque holds.
//! Each kind of step keeps it, whatever other threads do. What a single seat can say of the whole deque
//! depends on its parts of the right to know it: the owner begins with all, gives one to each thief's
//! seat, and with all parts back it knows that its tally and what is left are everything.
//!
//! Why it is so:
//!
//! - A deque has room for 1,024 tasks, reserved at the start. `crossbeam_deque` may still allocate at a push:
//!   if a thief stopped between claiming a slot and emptying it and the owner comes round to that slot, it adds
//!   a ring. A worker has an unused thief's end of its own deque, so that the ends are a square. Ends are
//!   generic in their allocator (`DequeIn` and its like), so that a test can refuse each request for memory.
//!
//! ```text
//! // three workers, and room for 8 tasks in each deque
//! let mut all = deal(alloc, three, 8)?;
//! all[0].push(task);                  // on worker 1's own deque
//! all[2].take(three) == Some(task)    // worker 3 has none of its own, and steals it
//! ```

mod dealing;
mod ends;
mod joining;
mod owner;
mod returned;
pub mod rows;
mod rule;
mod steps;
mod sums;
mod thief;

pub use dealing::deal;
pub use ends::DequeEnds;
pub use jamboree_rules::pool_rules::Task;
pub use owner::Owner;
pub use returned::Returned;
pub use rule::{EachOnce, Tally};
pub use sums::Sums;
pub use thief::Thief;
