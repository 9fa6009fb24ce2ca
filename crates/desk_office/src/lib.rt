//! The office of one tenant at a desk, and sessions over it.
//!
//! A [`DeskOffice`] is what a session asks of (`session::Office`): it holds the desk by reference, and its tenant's seat
//! once HELLO was taken. What it stands for is the list of what its tenant asked for, each a board of 64 cells and a depth, from job 1
//! on (`asks_of` of `specs/Offices.antt`): it is the seat's own list, empty where no tenant is there. Each call keeps
//! that list (`KeepsAsks`): a new job gets the next number, and a job is shown as done only with the minimax value, the
//! best choice and a table of what stands under its number, since a desk shows no other reply, and a reply's type holds
//! no other.
//!
//! So [`serve_desk`] can promise it of the lines themselves (`TrueSession`): each `DONE k value move` bears the minimax
//! value and the best choice of the position and the depth of the k-th `ASK` line that was answered by `JOB`, and each
//! `TABLE k` with entries their table. [`serve_desk_seen`] says of each answer what it is by the desk's history
//! (`specs/Answers.antt`): a function, `reply_to`, of the request and of what the tenant's own part of the history had made
//! of it at a moment. `specs/Moments.antt` says of each call what it does to what the seat knows; no page rests on it.
//!
//! Why it is so:
//!
//! - BYE is answered after the tenant has left, so a client that reads it can reserve at once. This crate is
//!   apart from `tcp_server`, so that its mutants don't load threads. HELLO with a tenant is OldTenant here,
//!   and without one there is no job; no session meets either.
//!
//! ```text
//! let mut source = FromReader { reader: &stream };
//! let mut sink = FromWriter::new(&stream);
//! serve_desk(&rt, &mut source, &mut sink, &desk)?;        // while workers of a pool offer steps to the desk
//! ```
#![tactic(auto)]

mod office;
mod outcomes;
pub mod rows;
mod serving;

pub use office::DeskOffice;
pub use outcomes::{told_answer, told_live};
pub use serving::{serve_desk, serve_desk_seen};
