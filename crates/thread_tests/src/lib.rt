//! Tests with threads of `desk`, `task_deques` and `steal_pool`.
//!
//! What each call does to what lies under the lock is proved in `desk`, that no task is lost or doubled in
//! `task_deques`, and what a worker's turns are in `steal_pool`. No contract can say that a thread which waits is woken, that
//! a closed desk lets everyone go, that an ask succeeds where there is room, or that searches run at the same time.
//!
//! Here threads wait, are woken and are let go, in one thread and in four; pools of 1 to 32 workers run beside those who
//! ask; and each request for memory of a deal and of a pool is refused in turn. The tests stand in a crate of their own, so that the crates
//! below are not proved once more with them; those of servers stand in `server_tests`, so that both are proved at once.
//!
//! ```text
//! let mut seat = at.seat_of(1, 1);                    // of a desk, where at = At { rt, desk }
//! at.talks(&mut seat, &[Said::Ask(0, Ok(1))]);        // a job of one leaf
//! thread::scope(thread::scope_env(), rt, |scope| ..)  // one waits for it, one does its steps: the first is woken
//! ```
#![tactic(auto)]

#[cfg(test)]
mod tests;
