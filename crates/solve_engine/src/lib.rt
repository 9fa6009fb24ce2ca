//! The engine of `othello solve`: lines `depth position` in, lines `value move` out; and the search of one line as one job of
//! a scheduling core that is made for it.
//!
//! What is written is a function of what is read, `solve_out` of `specs/Solving.antt`: for each line its first fault,
//! or the minimax value and the best choice of the board that the line spells. Each search is one job of a scheduling
//! core that is made for its line and dropped after it, and only such a core takes memory: a line for
//! which memory was refused is answered `ERR 19`, and the next is tried. So the contract of [`solve`], over any
//! source of bytes and any sink, is `solve_out` of what was read for some list of lines that were refused memory
//! (`SolvedRun`). Lines with a fault, [`solve_ordered`] and [`solve_visited`] ask for no memory: a line is held in an
//! array of 128 bytes, and an answer in one of 40; the invariant is that no answer is longer.
//!
//! [`solve_by_core`] makes a core of 4,096 segments and 65,536 nodes, admits one tenant that reserves all of it, and
//! submits one job: the search of a position to a depth. One worker then drives the core (`worker`): what it does next
//! is decided as for each worker of a pool (`pool_rules`), save that its next task is always the tenant's ready frame
//! of the greatest serial; what is computed near the leaves it computes between two steps. When the job is done its
//! reply is read; a job that is spent, or that anything unforeseen keeps from its end, is answered by one serial
//! search. So the value is always the minimax value and the move the best choice, whatever the grain, and the only
//! error is memory that was refused. [`Searched`] tells how it was found ([`Way`]) and what the tenant had left.
//!
//! The invariant (`WorksOn` of `specs/Asked.antt`) is that the core came, by steps rightly answered, of one with this
//! grain and just what is reserved; that the tenant is there; and that its jobs are searches, asked with just the words
//! of this position and depth. Each step keeps it, by the clauses `one` and `searching` of `jamboree_core`. So a job
//! that is done has the reply to this position and depth, and what is found is what such a core came to
//! (`specs/Found.antt`).
//!
//! Why it is so:
//!
//! - `solve_visited` is apart from `solve`: the count of positions is only tested, so its contract is a
//!   relation. It saturates at the greatest `u64`.
//! - The contract of `solve` leaves open which lines met a failed allocation: such a line is answered `ERR 19`
//!   exactly if it has no fault. Tests say that there is none while there is room. `solve` fails as the run of
//!   its lines does (`LineFault`: 1 read, 2 write, 3 too much); a failed allocation is no fault.
//! - The worker stops after 16 turns a node and 16 more, or at any refusal but for lack of quota, and then searches
//!   serially; so it needs no proof that no such refusal comes. It returns how it found its value (`Way`) and what was
//!   left, of a core of this grain and these totals (`IsFoundBy`): the prover refuses another grain or a smaller core.
//!   That a job is done if it could be is tested.
//!
//! ```text
//! let mut source = FromReader { reader: b"1 ---------------------------OX------XO--------------------------- X\n".as_slice() };
//! let mut sink = FromWriter::new(Vec::new(alloc));
//! solve_bytes(alloc, &mut source, &mut sink, 2)?;     // the writer has `-3 d3` and LF
//!
//! let found = solve_by_core(alloc, &opening, 2, 0)?;
//! found.answer == Valued { value: -4, choice: Some(Choice::Square(19)) }
//! found.way == Way::Done
//! ```
#![tactic(auto)]

mod answers;
mod found;
mod job;
mod requests;
pub mod rows;
mod searching;
mod solving;
mod worker;

pub use found::{Searched, Way};
pub use jamboree_core::leaf_search;
pub use searching::{search_within, solve_by_core};
pub use solving::{solve, solve_bytes, solve_ordered, solve_visited};
