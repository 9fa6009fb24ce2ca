//! What desks have in common, whatever lies under their lock: what was asked for a seat and what is shown of its jobs,
//! what a worker's step changes that somebody waits for, and how long who finds the lock taken waits.
//!
//! A seat shows of a job the outcome that the hall tells, but a reply only where it is one to the board and the depth that were asked
//! under the job's number ([`shown`]): so no desk can show another's value. A [`Backoff`] is a worker's wait between two tries at the
//! lock, and a [`Change`] what its step may wake others for. Nothing here waits, takes memory or knows a lock.
//!
//! ```text
//! shown(&asked, hall.outcome(tenant, job))        // Outcome::Pending, until the hall has a reply to just that
//! Change::of(&answer)                             // Change::Job: seats that wait are woken
//! ```

mod asked;
mod backoff;
mod change;
pub mod rows;

pub use asked::{JOBS, SeatAsked, seat_asked_at, shown};
pub use backoff::Backoff;
pub use change::Change;
