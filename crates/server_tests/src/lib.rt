//! Tests of a server, its door and its program, each with its clients in the same process; and of a site's sessions.
//!
//! What a session answers is proved in `desk_office`, which errors of a listener pass in `tcp_door`, and which status the program ends
//! with in `commands`. No contract can say that a connection is taken, that its session has a thread, or that a server
//! ends. Here are two connections and sixty-four, connections that are lost, descriptors and threads that can't be had, and a pool
//! that can't begin. The tests stand in a crate of their own, so that the crates below are not proved
//! once more with them, and beside `thread_tests`, so that both are proved at once.
//!
//! Of a site's session, what a line asks for and what comes of it is proved in `site_office`, and what lies under the lock in `site_desk`.
//! No contract says that a session which is told to end makes room for the one that waits, that who waits gives up in time, what an
//! environment is told, or which session is woken. Whole sessions are played over a desk without workers, in an environment whose clock
//! goes on by a step at each look.
//!
//! ```text
//! // a server of two sessions and two workers, and clients that are told what they should be told
//! is_content(rt, 0, Visit::Both, 2, 2)
//! ```
#![tactic(auto)]

#[cfg(test)]
mod tests;
