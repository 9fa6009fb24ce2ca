//! Tests of all that runs in one thread: storage, cores and halls, lines, boards, searches and sessions.
//!
//! What each call does is proved in its crate. No contract can say that a call succeeds where there is room, that no
//! other call asks the allocator, or that a call that is refused memory gives all back; nor can one tell the known numbers of leaf
//! positions from the opening, what comes of readers and writers that fail, or that an answer which comes too late is
//! noticed. `memory` has heaps of one unit more each time, which refuse each request for memory in turn; all is looked at afterwards,
//! and once room is given back the same call succeeds. `search` runs searches whose core has little memory, and whole
//! sessions over memory, with an office of prepared replies. The examples at the heads of the crates stand here too.
//!
//! The tests stand in a crate of their own, so that the crates below are not proved once more with them, and in one
//! crate, since the prover reads the libraries below it before the first of them; what needs no such allocator, reader or
//! office is a row of a text (`transcripts`).
//!
//! Why it is so:
//!
//! - The known numbers of leaf positions count a pass as a choice, as published counts do.
//!
//! ```text
//! let mut book = Book::new(rt.alloc(), 8, 32)?;
//! holds(&rt, reserves(&rt, &mut book, 1, 5) == Ok(()));
//! holds(&rt, reserves(&rt, &mut book, 2, 3) == Ok(()));
//! holds(&rt, reserves(&rt, &mut book, 3, 1) == Err(Refusal::Full));
//! ```
#![tactic(auto)]

#[cfg(test)]
mod tests;
